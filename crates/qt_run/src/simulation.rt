ghost use Rattle.std.specs.Prelude.{◌≡◌, ℕ, ◌+◌, ◌*◌, ◌^◌, ◌<◌, ◌≤◌, List, [], ◌∷◌, length, codes, IfOk, OnOk};
ghost use Rattle.std.specs.List.{flat_map};
ghost use Rattle.qt_first.specs.Form.{ArePlaced, IsWithinLimits, measurements};
ghost use Rattle.qt_root2.specs.Real.{one_real};
ghost use Rattle.qt_report.specs.Report.{total_of};
ghost use Rattle.qt_run.specs.Distribution.{IsDistribution, layout_of};
ghost use Rattle.qt_run.specs.Tally.{Adds, numerators};
ghost use Rattle.qt_run.specs.Tree.{leaves, leaves_of, outcome as one_outcome};

use crate::point::Point;
use crate::tally::Tally;
use qt_first::program::{Program, Statement};
use qt_report::{Distribution, Register};
use std::alloc::{AllocError, Global};

/// The distribution of a program's output values: every leaf of the tree of outcomes is followed, with a copy of the state at
/// each outcome of a measurement. It fails only for want of memory.
pub fn run(alloc: Global, program: &Program) -> Result<Distribution, AllocError>
    requires { IsWithinLimits program.now }
    ensures chances { IfOk result (λ d. IsDistribution (leaves_of program.now) d.chances) }
    ensures layout { IfOk result (λ d. d.layout ≡ layout_of program.now) }

    // All probabilities together.
    ensures total { IfOk result (λ d. total_of d.chances ≡ one_real) }
{
    let root = Point::root(alloc, program.qubits)?;
    let mut tally = Tally::new(alloc);
    follow(alloc, program.statements.items(), &root, &mut tally)?;
    tally.into_distribution(alloc, layout(alloc, program.bits)?)
}

// the one register of the layout
fn layout(alloc: Global, bits: u32) -> Result<Vec<Register>, AllocError>
    ensures { IfOk result (λ layout. layout.items ≡ record { name = codes "c"; width = bits } ∷ []) }
{
    let mut layout = Vec::new(alloc);
    layout.push(Register::new(String::from_str(alloc, "c")?, bits))?;
    Ok(layout)
}

// adds the masses of the leaves that follow from a point
#[cycle(follow)]
fn follow(
    alloc: Global,
    statements: &[Statement],
    point: &Point,
    tally: &mut Tally,
) -> Result<(), AllocError>
    requires placed { ArePlaced point.now.state.qubits 64 statements.now }
    requires few_halvings { point.now.state.halvings + length statements.now ≤ 32 }
    requires room { numerators tally.old + 2 ^ 96 * 2 ^ measurements statements.now ≤ 2 ^ 126 }
    ensures added { OnOk result (Adds tally.old tally.new (leaves statements.now point.now)) }
    ensures bound { OnOk result (
        numerators tally.new ≤ numerators tally.old + 2 ^ 96 * 2 ^ measurements statements.now) }
{
    let [statement, rest @ ..] = statements else {
        return tally.add(point.slots.output(alloc)?, point.state.mass());
    };
    match *statement {
        Statement::Measure { qubit, bit } => {
            follow_outcome(alloc, rest, point, qubit, bit, false, tally)?;
            follow_outcome(alloc, rest, point, qubit, bit, true, tally)
        }
        gate => {
            let next = point.after_gate(alloc, gate)?;
            follow(alloc, rest, &next, tally)
        }
    }
}

// adds the masses of the leaves behind one outcome of a measurement
#[cycle(follow)]
fn follow_outcome(
    alloc: Global,
    rest: &[Statement],
    point: &Point,
    qubit: u32,
    bit: u32,
    outcome: bool,
    tally: &mut Tally,
) -> Result<(), AllocError>
    requires qubit_in { qubit < point.now.state.qubits }
    requires bit_in { bit < 64 }
    requires placed { ArePlaced point.now.state.qubits 64 rest.now }
    requires few_halvings { point.now.state.halvings + length rest.now ≤ 32 }
    requires room { numerators tally.old + 2 ^ 96 * 2 ^ measurements rest.now ≤ 2 ^ 126 }
    ensures added { OnOk result (
        Adds tally.old tally.new (flat_map (leaves rest.now) (one_outcome qubit bit outcome point.now))) }
    ensures bound { OnOk result (
        numerators tally.new ≤ numerators tally.old + 2 ^ 96 * 2 ^ measurements rest.now) }
{
    match point.after_outcome(alloc, qubit, bit, outcome)? {
        Some(next) => follow(alloc, rest, &next, tally),
        None => Ok(()),
    }
}
