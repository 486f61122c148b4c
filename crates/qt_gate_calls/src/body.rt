//! Calls in a gate's body, bodies, and the bodies of a program.

ghost use Rattle.std.specs.Prelude.{◌≡◌, IfOk};
ghost use Rattle.qt_gate_calls.specs.Counts.{call_count, call_operators, primitive_counts, operator_counts};
ghost use Rattle.qt_gate_calls.specs.Stopped.{stopped};

use crate::angle::Angle;
use crate::counts::{GateCount, call_count, counts_of};
use qt_outside::faults::OutOfMemory;
use sqlite_items::Items;
use std::alloc::Global;
use std::marker::Model;
use std::rc::Rc;

/// A modifier of a gate call, whose number is known; `ctrl(n)` is n of `Ctrl`. OpenQASM 3.0, "Gates", quantum gate modifiers.
#[derive(Clone, Copy)]
pub enum GateModifier {
    /// The inverse.
    Inv,
    /// So many times, and for a negative exponent the inverse so many times.
    Pow { exponent: i32 },
    /// One control qubit in front, which is to be 1.
    Ctrl,
    /// One control qubit in front, which is to be 0.
    NegCtrl,
}

/// What a call calls. The standard gates have the numbers from 0 on, in the order of their table, and the declared gates those behind
/// them, in the order of text.
#[derive(Clone, Copy)]
pub enum Called {
    U,
    GlobalPhase,
    Gate { number: u32 },
}

/// A call in a gate's body, with the outermost modifier first. Its qubits are those of the body by number, those of the controls first.
/// `operators` is the number of operators in its arguments as they are written.
#[derive(Drop)]
pub struct BodyCall {
    pub modifiers: Items<GateModifier>,
    pub gate: Called,
    pub angles: Items<Angle>,
    pub qubits: Items<u32>,
    pub operators: u32,
}

/// A gate: the numbers of its parameters and qubits, and the calls that it is made of, in order. OpenQASM 3.0, "Gates",
/// hierarchically defined unitary gates.
#[derive(Drop)]
pub struct GateBody {
    pub parameters: u32,
    pub qubits: u32,
    pub calls: Items<BodyCall>,
}

/// The gates of a program by their numbers, with what each comes to. Contracts see them as the list of their bodies, which all copies
/// share.
#[derive(Drop)]
pub struct GateBodies {
    bodies: Rc<Items<GateBody>>,
    counts: Rc<Items<GateCount>>,
}

impl Model for GateBodies {
    ghost use Rattle.std.specs.Prelude.{List};
    ghost use Rattle.std.specs.Coded.{coded_list};
    ghost use Rattle.qt_gate_calls.specs.declared.body.GateBody.{GateBody};
    ghost use Rattle.qt_gate_calls.specs.contracts.body.GateBody as body;
    ghost use Rattle.qt_gate_calls.specs.Stopped.{AreCounted};

    ghost Value = { List GateBody };

    ghost coded = { coded_list body.the_row.coded };

    ghost view = { λ gates. gates.bodies.value };

    ghost invariant = { λ gates. AreCounted gates.bodies.value gates.counts.value };
}

/// The value, to be shared.
fn shared<T: Drop>(alloc: Global, value: T) -> Result<Rc<T>, OutOfMemory>
    ensures { IfOk result (λ shared. shared.value ≡ value) }
{
    match Rc::new(alloc, value) {
        Ok(shared) => Ok(shared),
        Err(_) => Err(OutOfMemory),
    }
}

impl GateBodies {
    /// The gates with these bodies.
    pub fn new(alloc: Global, bodies: Items<GateBody>) -> Result<GateBodies, OutOfMemory>
        ensures { IfOk result (λ gates. gates ≡ bodies) }
    {
        let counts = counts_of(alloc, bodies.as_slice())?;
        let counts = shared(alloc, counts)?;
        let bodies = shared(alloc, bodies)?;
        Ok(GateBodies { bodies, counts })
    }

    /// Their bodies.
    pub fn bodies(&self) -> &[GateBody]
        ensures { result.now ≡ self.now }
    {
        self.bodies.as_slice()
    }

    /// How many primitives a call of these gates comes to, and how many operators stand in the arguments of the calls in the bodies that it
    /// puts in, as often as it puts them in. Both stop at 4,294,967,295.
    #[tactic(auto, using(crate::proofs::Counted::counted_call, crate::proofs::Counted::counted_operators))]
    pub fn count(&self, modifiers: &[GateModifier], gate: Called) -> GateCount
        ensures primitives { result.primitives ≡ stopped (call_count (primitive_counts self.now) modifiers.now gate) }
        ensures operators { result.operators ≡ stopped (call_operators (operator_counts self.now) modifiers.now gate) }
    {
        call_count(self.counts.as_slice(), modifiers, gate)
    }

    /// The same gates, which share their bodies with these.
    pub fn share(&self) -> Result<GateBodies, OutOfMemory>
        ensures { IfOk result (λ gates. gates ≡ self.now) }
    {
        Ok(GateBodies {
            bodies: self.bodies.clone()?,
            counts: self.counts.clone()?,
        })
    }
}
