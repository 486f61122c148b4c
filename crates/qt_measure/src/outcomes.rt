ghost use Rattle.std.specs.Prelude.{◌≡◌, ◌<◌, IfOk, false, true};
ghost use Rattle.qt_ring.specs.State.{project};
ghost use Rattle.qt_measure.specs.Halves.{IsLeft};

use crate::kept::{common_twos, kept_halved, leaves_nothing};
use qt_outside::faults::OutOfMemory;
use qt_vector::vector::Vector;
use std::alloc::Global;

/// What the outcomes 0 and 1 of a measurement leave of a state: none of an outcome that can't come.
#[derive(Drop)]
pub struct Halves {
    pub zero: Option<Vector>,
    pub one: Option<Vector>,
}

/// What each outcome of the qubit leaves: the projection on it over its least power of two, not scaled to length 1, or none
/// where the projection vanishes.
pub fn split(alloc: Global, state: &Vector, qubit: u32) -> Result<Halves, OutOfMemory>
    requires { qubit < state.now.qubits }
    ensures zero { IfOk result (λ halves. IsLeft (project qubit false state.now) halves.zero) }
    ensures one { IfOk result (λ halves. IsLeft (project qubit true state.now) halves.one) }
{
    let zero = half(alloc, state, qubit, false)?;
    let one = half(alloc, state, qubit, true)?;
    Ok(Halves { zero, one })
}

fn half(
    alloc: Global,
    state: &Vector,
    qubit: u32,
    outcome: bool,
) -> Result<Option<Vector>, OutOfMemory>
    requires { qubit < state.now.qubits }
    ensures { IfOk result (IsLeft (project qubit outcome state.now)) }
{
    if leaves_nothing(state, qubit, outcome) {
        return Ok(None);
    }
    let by = common_twos(state, qubit, outcome);
    Ok(Some(Vector {
        qubits: state.qubits(),
        entries: kept_halved(alloc, state, qubit, outcome, by)?,
        halvings: state.k() - by,
    }))
}
