//! Qubits that stand somewhere already.

ghost use Rattle.std.specs.Prelude.{◌≡◌, ◌||◌, ◌∷◌, []};
ghost use Rattle.qt_typed.specs.declared.call.TypedQubit.TheVariants as qubit_form;
ghost use Rattle.qt_typed.specs.declared.call.TypedQubits.TheVariants as qubits_form;
ghost use Rattle.qt_typing.specs.Qubits as spec;

use qt_registers::fixed::FixedQubit;
use qt_registers::register::Register;
use qt_typed::call::{TypedQubit, TypedQubits};

/// Whether a qubit stands in a register.
pub fn contains(register: &Register, qubit: FixedQubit) -> bool
    ensures { result ≡ spec.contains register.now qubit }
{
    register.holds(qubit)
}

/// Whether some qubit stands in both registers.
pub fn overlaps(register: &Register, others: &Register) -> bool
    ensures { result ≡ spec.overlaps register.now others.now }
{
    register.overlaps(others)
}

/// Whether two fixed qubits are the same.
#[tactic(auto, unfolding(qt_typing::specs::Qubits::is_same_qubit))]
fn is_same_qubit(left: FixedQubit, right: FixedQubit) -> bool
    ensures { result ≡ spec.is_same_qubit left right }
{
    match (left, right) {
        (FixedQubit::Number { qubit }, FixedQubit::Number { qubit: other }) => qubit == other,
        (
            FixedQubit::OfParameter { parameter, place },
            FixedQubit::OfParameter {
                parameter: other,
                place: there,
            },
        ) => parameter == other && place == there,
        _ => false,
    }
}

/// Whether a fixed qubit is among others.
#[tactic(auto, using(crate::proofs::Sharing::one))]
fn repeats_fixed(qubit: FixedQubit, of: &TypedQubits) -> bool
    ensures { result ≡ spec.overlaps (qubit ∷ []) (spec.fixed_qubits of.now) }
{
    match of {
        TypedQubits::Register { qubits } => contains(qubits, qubit),
        TypedQubits::Single { qubit: other } => match other {
            TypedQubit::Fixed { qubit: other } => is_same_qubit(qubit, *other),
            _ => false,
        },
    }
}

/// Whether some qubit of a register is among others.
#[tactic(auto, using(crate::proofs::Sharing::one))]
fn repeats_register(register: &Register, of: &TypedQubits) -> bool
    ensures { result ≡ spec.overlaps register.now (spec.fixed_qubits of.now) }
{
    match of {
        TypedQubits::Register { qubits } => overlaps(register, qubits),
        TypedQubits::Single { qubit } => match qubit {
            TypedQubit::Fixed { qubit } => contains(register, *qubit),
            _ => false,
        },
    }
}

/// Whether others are the single qubit of this slot.
fn repeats_slot(slot: u32, of: &TypedQubits) -> bool
    ensures { result ≡ spec.is_same_slot (qubits_form.Single (qubit_form.Slot slot)) of.now }
{
    match of {
        TypedQubits::Single { qubit } => match qubit {
            TypedQubit::Slot { slot: other } => slot == *other,
            _ => false,
        },
        TypedQubits::Register { .. } => false,
    }
}

/// Whether some fixed qubit stands in both, or both are one name of a single qubit.
#[tactic(auto, using(crate::proofs::Sharing::none))]
fn share(of: &TypedQubits, others: &TypedQubits) -> bool
    ensures { result ≡ (spec.overlaps (spec.fixed_qubits of.now) (spec.fixed_qubits others.now) || spec.is_same_slot of.now others.now) }
{
    match of {
        TypedQubits::Register { qubits } => repeats_register(qubits, others),
        TypedQubits::Single { qubit } => match qubit {
            TypedQubit::Fixed { qubit } => repeats_fixed(*qubit, others),
            TypedQubit::Slot { slot } => repeats_slot(*slot, others),
            TypedQubit::Indexed { .. } => false,
        },
    }
}

/// Whether a qubit of these stands among those before it: a fixed qubit, or one name of a single qubit.
#[tactic(auto, unfolding(qt_typing::specs::Qubits::repeats))]
pub fn repeats(mut done: &[TypedQubits], of: &TypedQubits) -> bool
    ensures { result ≡ spec.repeats done.entry.now of.now }
{
    while let [first, rest @ ..] = done {
        if share(first, of) {
            return true;
        }
        done = rest;
    }
    false
}
