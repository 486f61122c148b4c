//! What primitives make of each basis state.

use qt_instructions::primitive::Primitive;
use qt_instructions::reference::{AngleRef, QubitRef};
use qt_kernel::kernel::turn;
use qt_kernel::primitive::FixedPrim;
use qt_measure::flip;
use qt_ring::QUBITS;
use qt_ring::omega::Omega;
use qt_rows::answer::Answer;
use qt_vector::vector::Vector;
use std::alloc::Global;

/// Why there is no matrix.
#[derive(Clone, Copy)]
enum Missing {
    /// An angle or a qubit is known at run time.
    AtRunTime,
    /// A primitive isn't on different qubits of the state.
    NoPrimitive,
    /// A number is too large.
    Number,
}

fn eighth_of(angle: &AngleRef) -> Result<u8, Missing> {
    match angle {
        AngleRef::Eighth(eighth) => Ok(*eighth),
        AngleRef::Work(..) => Err(Missing::AtRunTime),
    }
}

fn number_of(qubit: &QubitRef) -> Result<u8, Missing> {
    match qubit {
        QubitRef::At(number) => Ok(*number),
        QubitRef::Work(_) => Err(Missing::AtRunTime),
    }
}

/// The mask of these qubits, each of which stands once.
fn mask_of(qubits: &[QubitRef]) -> Result<u32, Missing> {
    let mut mask = 0;
    for qubit in qubits {
        let Some(bit) = 1u32.checked_shl(u32::from(number_of(qubit)?)) else {
            return Err(Missing::NoPrimitive);
        };
        if mask & bit != 0 {
            return Err(Missing::NoPrimitive);
        }
        mask |= bit;
    }
    Ok(mask)
}

/// The primitive on a state.
fn fixed_of(primitive: &Primitive) -> Result<FixedPrim, Missing> {
    match primitive {
        Primitive::Turn {
            ones,
            zeros,
            target,
            theta,
            phi,
            lambda,
        } => Ok(FixedPrim::Turn {
            ones: mask_of(ones.items())?,
            zeros: mask_of(zeros.items())?,
            target: number_of(target)?,
            theta: eighth_of(theta)?,
            phi: eighth_of(phi)?,
            lambda: eighth_of(lambda)?,
        }),
        Primitive::Phase { ones, zeros, angle } => Ok(FixedPrim::Phase {
            ones: mask_of(ones.items())?,
            zeros: mask_of(zeros.items())?,
            angle: eighth_of(angle)?,
        }),
    }
}

fn apply(state: &mut Vector, primitive: &Primitive) -> Result<(), Missing> {
    let fixed = fixed_of(primitive)?;
    if !fixed.is_on(state.qubits()) {
        return Err(Missing::NoPrimitive);
    }
    match turn(state, &fixed) {
        Ok(()) => Ok(()),
        Err(_) => Err(Missing::Number),
    }
}

fn apply_all(state: &mut Vector, primitives: &[Primitive]) -> Result<(), Missing> {
    for primitive in primitives {
        apply(state, primitive)?;
    }
    Ok(())
}

/// Turns the qubit over where its bit of the number is 1.
fn turn_if(state: &mut Vector, number: u32, qubit: u32) {
    let bit = number.checked_shr(qubit).unwrap_or(0) & 1;
    if bit == 1 && qubit < state.qubits() {
        flip(state, qubit);
    }
}

/// Turns the qubits over whose bits of the number are 1.
fn turn_over(state: &mut Vector, number: u32) {
    for qubit in 0..QUBITS {
        turn_if(state, number, qubit);
    }
}

fn tell_amplitude(place: usize, amplitude: &Omega, answer: &mut Answer) {
    let Omega { c0, c1, c2, c3 } = *amplitude;
    if c0 != 0 || c1 != 0 || c2 != 0 || c3 != 0 {
        write!(answer, " {place}:{c0},{c1},{c2},{c3}");
    }
}

fn tell_state(state: &Vector, answer: &mut Answer) {
    let k = state.k();
    write!(answer, "{k}");
    for (place, amplitude) in state.entries().iter().enumerate() {
        tell_amplitude(place, amplitude, answer);
    }
    answer.push_str(";");
}

fn tell_missing(missing: Missing, answer: &mut Answer) {
    answer.push_str(match missing {
        Missing::AtRunTime => "at run time",
        Missing::NoPrimitive => "no primitive",
        Missing::Number => "number",
    });
}

/// What the primitives make of one basis state.
fn tell_column(
    alloc: Global,
    qubits: u32,
    number: u32,
    primitives: &[Primitive],
    answer: &mut Answer,
) -> Result<(), Missing> {
    if qubits > QUBITS {
        return Err(Missing::NoPrimitive);
    }
    if let Some(mut state) = answer.given(Vector::zero_state(alloc, qubits)) {
        turn_over(&mut state, number);
        apply_all(&mut state, primitives)?;
        tell_state(&state, answer);
    }
    Ok(())
}

/// What the primitives make of each basis state of so many qubits, up to the first that has no answer.
pub fn tell_columns(alloc: Global, qubits: u32, primitives: &[Primitive], answer: &mut Answer) {
    let columns = 1u32.checked_shl(qubits).unwrap_or(0);
    for number in 0..columns {
        if let Err(missing) = tell_column(alloc, qubits, number, primitives, answer) {
            return tell_missing(missing, answer);
        }
    }
}
