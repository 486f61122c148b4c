ghost use Rattle.std.specs.Prelude.{◌≡◌, ◌+◌, ◌-◌, ◌*◌, ◌^◌, ◌<◌, ◌≤◌, ◌↔◌, [], ◌∷◌, ◌++◌, length, slice_get, IsTrue, IfOk, OnOk, OnErr};
ghost use Rattle.qt_registers.specs.Registers.{parameter_qubits, program_qubits, stepped, Holds, Overlap};
ghost use Rattle.qt_registers.specs.Runs.{qubits_of, run_qubits};

use crate::fixed::FixedQubit;
use crate::run::{Origin, Run};
use qt_outside::faults::OutOfMemory;
use std::alloc::Global;
use std::marker::Model;

/// A register of qubits. Contracts see it as the list of its qubits, in order.
#[derive(Debug, Drop)]
pub struct Register {
    runs: Vec<Run>,
    size: u64,
}

impl Model for Register {
    ghost use Rattle.std.specs.Prelude.{◌≡◌, ◌^◌, ◌<◌, List, length};
    ghost use Rattle.qt_registers.specs.declared.fixed.FixedQubit.{FixedQubit};

    ghost Value = { List FixedQubit };

    ghost use Rattle.qt_registers.specs.Runs.{qubits_of};

    ghost view = { λ register. qubits_of register.runs.items };

    ghost invariant = { λ register. (register.size ≡ length (qubits_of register.runs.items)) × (register.size < 2 ^ 64) };
}

/// The qubit at a place of runs.
fn qubit_at(mut runs: &[Run], mut place: u64) -> Option<FixedQubit>
    ensures { result ≡ slice_get (qubits_of runs.entry.now) place }
{
    while let [run, rest @ ..] = runs {
        if place < run.count {
            return Some(run.qubit(place));
        }
        place -= run.count;
        runs = rest;
    }
    None
}

/// Adds the qubits at the places `start`, `start + step`, .. of a run, so many, as one run where there are any.
#[tactic(auto, using(crate::proofs::Runs::pushed))]
fn push_stepped(
    found: &mut Vec<Run>,
    run: Run,
    start: u64,
    step: u64,
    count: u64,
) -> Result<(), OutOfMemory>
    requires moves { 0 < step }
    requires within { 0 < count → start + (count - 1) * step < run.count }
    ensures { OnOk result (qubits_of found.new.items ≡ qubits_of found.old.items ++ stepped (run_qubits run) start step count) }
{
    if count > 0 {
        found.push(run.stepped(start, step, count))?;
    }
    Ok(())
}

/// Runs of the qubits at the places `start`, `start + step`, .. of runs, so many: one run at most for each of them.
fn stepped_runs(
    alloc: Global,
    mut runs: &[Run],
    mut start: u64,
    step: u64,
    mut count: u64,
) -> Result<Vec<Run>, OutOfMemory>
    requires moves { 0 < step }
    requires within { 0 < count → start + (count - 1) * step < length (qubits_of runs.now) }
    requires room { length (qubits_of runs.now) < 2 ^ 64 }
    ensures { IfOk result (λ found. qubits_of found.items ≡ stepped (qubits_of runs.entry.now) start step count) }
{
    let mut found = Vec::new(alloc);
    while let [run, rest @ ..] = runs {
        let reached = run.reached(start, step, count);
        push_stepped(&mut found, *run, start, step, reached)?;
        if reached == count {
            return Ok(found);
        }
        start = start + reached * step - run.count;
        count -= reached;
        runs = rest;
    }
    Ok(found)
}

/// Whether some qubit is in a run and in some of several runs.
fn run_overlaps(run: Run, mut others: &[Run]) -> bool
    ensures { IsTrue result ↔ Overlap (run_qubits run) (qubits_of others.entry.now) }
{
    while let [other, rest @ ..] = others {
        if run.overlaps(*other) {
            return true;
        }
        others = rest;
    }
    false
}

/// Whether some qubit is in some of several runs and in some of others.
fn runs_overlap(mut runs: &[Run], others: &[Run]) -> bool
    ensures { IsTrue result ↔ Overlap (qubits_of runs.entry.now) (qubits_of others.now) }
{
    while let [run, rest @ ..] = runs {
        if run_overlaps(*run, others) {
            return true;
        }
        runs = rest;
    }
    false
}

/// Whether a qubit stands in some of several runs.
fn runs_hold(mut runs: &[Run], qubit: FixedQubit) -> bool
    ensures { IsTrue result ↔ Holds (qubits_of runs.entry.now) qubit }
{
    while let [run, rest @ ..] = runs {
        if run.holds(qubit) {
            return true;
        }
        runs = rest;
    }
    false
}

impl Register {
    /// A register without qubits.
    #[tactic(auto, unfolding(crate::specs::Runs::qubits_of))]
    pub fn none(alloc: Global) -> Register
        ensures { result ≡ [] }
    {
        Register {
            runs: Vec::new(alloc),
            size: 0,
        }
    }

    /// The qubits of one run.
    #[tactic(auto, using(crate::proofs::Runs::one))]
    fn of_run(alloc: Global, run: Run) -> Result<Register, OutOfMemory>
        ensures { IfOk result (λ register. register ≡ run_qubits run) }
    {
        let mut runs = Vec::new(alloc);
        runs.push(run)?;
        Ok(Register {
            runs,
            size: run.count,
        })
    }

    /// The qubits of the program from `first` on, so many.
    #[tactic(auto, using(crate::proofs::Runs::program))]
    pub fn of_program(alloc: Global, first: u64, count: u32) -> Result<Register, OutOfMemory>
        requires { first + count ≤ 2 ^ 63 }
        ensures { IfOk result (λ register. register ≡ program_qubits first count) }
    {
        if count == 0 {
            return Ok(Register::none(alloc));
        }
        Register::of_run(
            alloc,
            Run {
                origin: Origin::Program,
                first,
                step: 1,
                count: u64::from(count),
            },
        )
    }

    /// The places of a subroutine's parameter that stands for a register of that size.
    #[tactic(auto, using(crate::proofs::Runs::parameter))]
    pub fn of_parameter(alloc: Global, parameter: u32, size: u32) -> Result<Register, OutOfMemory>
        ensures { IfOk result (λ register. register ≡ parameter_qubits parameter size) }
    {
        if size == 0 {
            return Ok(Register::none(alloc));
        }
        Register::of_run(
            alloc,
            Run {
                origin: Origin::Parameter { parameter },
                first: 0,
                step: 1,
                count: u64::from(size),
            },
        )
    }

    /// A register of one qubit. A qubit whose number is 2^63 or more is refused as if memory wanted.
    pub fn of_qubit(alloc: Global, qubit: FixedQubit) -> Result<Register, OutOfMemory>
        ensures { IfOk result (λ register. register ≡ qubit ∷ []) }
    {
        let run = Run::single(qubit).ok_or(OutOfMemory)?;
        Register::of_run(alloc, run)
    }

    /// The number of its qubits.
    pub fn size(&self) -> u64
        ensures { result ≡ length self.now }
    {
        self.size
    }

    /// The qubit at a place. None exactly where the place isn't below the size.
    pub fn at(&self, place: u64) -> Option<FixedQubit>
        ensures { result ≡ slice_get self.now place }
    {
        qubit_at(self.runs.as_slice(), place)
    }

    /// Whether the qubit stands in the register. Each of its runs is asked once, however long it is.
    pub fn holds(&self, qubit: FixedQubit) -> bool
        ensures { IsTrue result ↔ Holds self.now qubit }
    {
        runs_hold(self.runs.as_slice(), qubit)
    }

    /// Whether some qubit stands in both registers.
    pub fn overlaps(&self, other: &Register) -> bool
        ensures { IsTrue result ↔ Overlap self.now other.now }
    {
        runs_overlap(self.runs.as_slice(), other.runs.as_slice())
    }

    /// Another register of the same qubits.
    pub fn copied(&self, alloc: Global) -> Result<Register, OutOfMemory>
        ensures { IfOk result (λ register. register ≡ self.now) }
    {
        Ok(Register {
            runs: Vec::from_slice(alloc, self.runs.as_slice())?,
            size: self.size,
        })
    }

    /// Adds the qubits of another register behind its own. After a refusal it is as it was. Registers of 2^64 qubits or more together are
    /// refused as if memory wanted.
    #[tactic(auto, using(crate::proofs::Runs::appended))]
    pub fn append(&mut self, other: &Register) -> Result<(), OutOfMemory>
        ensures ok { OnOk result (self.new ≡ self.old ++ other.now) }
        ensures err { OnErr result (self.new ≡ self.old) }
    {
        let size = self.size.checked_add(other.size).ok_or(OutOfMemory)?;
        self.runs.extend_from_slice(other.runs.as_slice())?;
        self.size = size;
        Ok(())
    }

    /// Adds a qubit behind its own. After a refusal it is as it was. A qubit whose number is 2^63 or more, and the 2^64th one, are refused
    /// as if memory wanted.
    #[tactic(auto, using(crate::proofs::Runs::pushed_one))]
    pub fn push(&mut self, qubit: FixedQubit) -> Result<(), OutOfMemory>
        ensures ok { OnOk result (self.new ≡ self.old ++ qubit ∷ []) }
        ensures err { OnErr result (self.new ≡ self.old) }
    {
        let run = Run::single(qubit).ok_or(OutOfMemory)?;
        let size = self.size.checked_add(1).ok_or(OutOfMemory)?;
        self.runs.push(run)?;
        self.size = size;
        Ok(())
    }

    /// The qubits at the places `start`, `start + step`, .., so many.
    pub fn stepped(
        &self,
        alloc: Global,
        start: u64,
        step: u64,
        count: u64,
    ) -> Result<Register, OutOfMemory>
        requires moves { 0 < step }
        requires within { 0 < count → start + (count - 1) * step < length self.now }
        ensures { IfOk result (λ register. register ≡ stepped self.now start step count) }
    {
        Ok(Register {
            runs: stepped_runs(alloc, self.runs.as_slice(), start, step, count)?,
            size: count,
        })
    }
}
