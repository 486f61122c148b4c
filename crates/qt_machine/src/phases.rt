//! Arithmetic of phases in work cells.

ghost use Rattle.std.specs.Prelude.{◌≡◌, ◌≤◌, ◌<◌, ◌^◌, ◌*ℤ◌, ◌&&◌, IsTrue, Some, None, pos, nat_eq, if◌then◌else◌, unsigned_abs};
ghost use Rattle.qt_code.specs.Cells.{phase_by, phase_result, step_result, units_by, units_in};
ghost use Rattle.qt_code.specs.Ranges.{is_angle};
ghost use Rattle.qt_gate_calls.specs.Units.{as_phase, difference_of, exactly, negative_of, product_of, quotient_of, sum_of};
ghost use Rattle.qt_meaning.specs.Expressions.{angle_units};
ghost use Rattle.qt_meaning.specs.Values.{lowest};
ghost use Rattle.qt_value.specs.Types.{has_size, width_of};
ghost use Rattle.qt_machine.specs.Faults.{meant};
ghost use Rattle.qt_machine.specs.Writes.{held};
ghost use Rattle.qt_machine.specs.Phases.{has_kinds, if_nothing};

use crate::cells::{held, number_in, value_in};
use crate::fault::InstrFault;
use qt_bits::numbers::residue;
use qt_instructions::angle::{AngleArg, AngleOperation, AngleStep};
use qt_instructions::instruction::Operand;
use qt_phase::phase::{Phase, PhaseFault};
use qt_value::types::ValueType;

/// The largest phase in size, in units of π/2^32.
const LIMIT: u128 = 1 << 60;

/// The largest factor in size that phases take.
const FACTOR: u128 = 1 << 64;

// ---- numbers of units

/// The signed number of all 64 bits of a cell.
#[tactic(auto, unfolding(qt_meaning::specs::Values::number_of))]
pub fn units_in(cell: u32, cells: &[u64]) -> i128
    ensures value { result ≡ units_in cell (held cells.now) }
    ensures small { unsigned_abs result < 2 ^ 64 }
{
    number_in(
        Operand {
            cell,
            kind: ValueType::Int(64),
        },
        cells,
    )
}

fn units_of(argument: AngleArg, cells: &[u64]) -> i128
    ensures value { result ≡ units_by argument (held cells.now) }
    ensures small { unsigned_abs result < 2 ^ 64 }
{
    match argument {
        AngleArg::Units(units) => i128::from(units),
        AngleArg::Work(cell) => units_in(cell, cells),
    }
}

fn exactly(phase: Result<Phase, PhaseFault>) -> Option<Phase>
    ensures { result ≡ exactly phase }
{
    match phase {
        Ok(phase) => Some(phase),
        Err(_) => None,
    }
}

/// The phase of that many units, where they are one.
fn as_phase(units: i128) -> Option<Phase>
    ensures { result ≡ as_phase units }
{
    if units.unsigned_abs() <= LIMIT {
        exactly(Phase::from_units(units as i64))
    } else {
        None
    }
}

// ---- operators

fn sum(a: i128, b: i128) -> Option<Phase>
    ensures { result ≡ sum_of a b }
{
    exactly(as_phase(a)?.add(as_phase(b)?))
}

fn difference(a: i128, b: i128) -> Option<Phase>
    ensures { result ≡ difference_of a b }
{
    exactly(as_phase(a)?.add(as_phase(b)?.neg()))
}

fn negative(a: i128) -> Option<Phase>
    ensures { result ≡ negative_of a }
{
    Some(as_phase(a)?.neg())
}

/// The phase where it is 0.
fn if_nothing(phase: Phase) -> Option<Phase>
    ensures { result ≡ if_nothing phase }
{
    if phase.units() == 0 {
        Some(phase)
    } else {
        None
    }
}

/// The product with a whole number. A factor above all phases in size leaves no phase but 0.
#[tactic(auto, using(crate::proofs::Large::large_product))]
fn product(k: i128, a: i128) -> Option<Phase>
    ensures { result ≡ product_of k a }
{
    let phase = as_phase(a)?;
    if k.unsigned_abs() <= FACTOR {
        exactly(phase.mul_whole(k))
    } else {
        if_nothing(phase)
    }
}

/// The quotient by a whole number. A divisor above all phases in size divides none but 0.
#[tactic(auto, using(crate::proofs::Large::large_quotient))]
fn quotient(k: i128, a: i128) -> Option<Phase>
    ensures { result ≡ quotient_of k a }
{
    let phase = as_phase(a)?;
    if k.unsigned_abs() <= FACTOR {
        exactly(phase.div_exact(k))
    } else {
        if_nothing(phase)
    }
}

fn step_result(step: AngleStep, cells: &[u64]) -> Option<Phase>
    ensures { result ≡ step_result step (held cells.now) }
{
    match step {
        AngleStep::Add(left, right) => sum(units_of(left, cells), units_of(right, cells)),
        AngleStep::Sub(left, right) => difference(units_of(left, cells), units_of(right, cells)),
        AngleStep::Neg(of) => negative(units_of(of, cells)),
        AngleStep::Times(of, k) => product(k, units_of(of, cells)),
        AngleStep::Over(of, k) => quotient(k, units_of(of, cells)),
    }
}

/// The phase of a value of an angle type.
#[tactic(auto, using(crate::proofs::Widths::angle_fits, crate::proofs::Widths::angle_width))]
fn phase_of_angle(angle: Operand, cells: &[u64]) -> Option<Phase>
    requires { IsTrue (has_size angle.kind && is_angle angle.kind) }
    ensures { result ≡ Some (angle_units angle.kind (held cells.now angle.cell)) }
{
    let bits = value_in(angle, cells).bits();
    let units = bits << (33 - angle.kind.width());
    exactly(Phase::from_units(units as i64))
}

/// No phase where the value isn't 0.
fn no_rest(value: Operand, cells: &[u64]) -> Option<Phase>
    requires { IsTrue (has_size value.kind) }
    ensures { result ≡ (if nat_eq (lowest value.kind (held cells.now value.cell)) 0 then Some (pos 0) else None) }
{
    if value_in(value, cells).bits() == 0 {
        Some(Phase::zero())
    } else {
        None
    }
}

fn phase_result(operation: AngleOperation, cells: &[u64]) -> Option<Phase>
    requires { IsTrue (has_kinds operation) }
    ensures { result ≡ phase_result operation (held cells.now) }
{
    match operation {
        AngleOperation::Step { step } => step_result(step, cells),
        AngleOperation::OfAngle { value } => phase_of_angle(value, cells),
        AngleOperation::Product { angle, factor } => {
            product(number_in(factor, cells), units_of(angle, cells))
        }
        AngleOperation::Quotient { angle, divisor } => {
            quotient(number_in(divisor, cells), units_of(angle, cells))
        }
        AngleOperation::NoRest { value } => no_rest(value, cells),
    }
}

/// The bits of the phase that is reckoned.
pub fn phase(operation: AngleOperation, cells: &[u64]) -> Result<u64, InstrFault>
    requires { IsTrue (has_kinds operation) }
    ensures { meant result ≡ phase_by operation (held cells.now) }
{
    match phase_result(operation, cells) {
        Some(phase) => Ok(residue(i128::from(phase.units()), 64)),
        None => Err(InstrFault::Angle),
    }
}
