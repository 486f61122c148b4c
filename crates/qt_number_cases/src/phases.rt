//! Rows of phases.

ghost use Rattle.std.specs.Prelude.{◌≤◌, ◌^◌, unsigned_abs};

use qt_phase::phase::{Phase, PhaseFault};
use qt_rows::answer::Answer;
use qt_rows::row::Row;

fn phase_in(row: &mut Row<'_>) -> Phase {
    match Phase::from_units(row.i64()) {
        Ok(phase) => phase,
        Err(_) => {
            row.refuse();
            Phase::zero()
        }
    }
}

/// A factor or divisor of a size that the calls take.
fn factor_in(row: &mut Row<'_>) -> i128
    ensures { unsigned_abs result ≤ 2 ^ 64 }
{
    let number = row.i128();
    if number.unsigned_abs() <= 1 << 64 {
        return number;
    }
    row.refuse();
    0
}

fn tell(phase: Phase, answer: &mut Answer) {
    answer.push_variant("Units", phase.units());
}

fn tell_outcome(phase: Result<Phase, PhaseFault>, answer: &mut Answer) {
    match phase {
        Ok(phase) => tell(phase, answer),
        Err(fault) => answer.push_variant("Fault", fault),
    }
}

/// The answer of a call on one phase.
fn answer_on(call: &str, phase: Phase, row: &mut Row<'_>, answer: &mut Answer) {
    match call {
        "same" => answer.push_variant("Same", phase == phase_in(row)),
        "sum" => tell_outcome(phase.add(phase_in(row)), answer),
        "opposite" => tell(phase.neg(), answer),
        "product" => tell_outcome(phase.mul_whole(factor_in(row)), answer),
        "quotient" => tell_outcome(phase.div_exact(factor_in(row)), answer),
        "eighth" => answer.push_variant("Eighth", phase.eighth()),
        _ => row.refuse(),
    }
}

/// `phase CALL NUMBER ..`, where each phase is written in units.
pub fn answer_phase(row: &mut Row<'_>, answer: &mut Answer) {
    match row.word() {
        "zero" => tell(Phase::zero(), answer),
        "pi" => tell(Phase::pi(), answer),
        "tau" => tell(Phase::tau(), answer),
        "units" => tell_outcome(Phase::from_units(row.i64()), answer),
        call => answer_on(call, phase_in(row), row, answer),
    }
}
