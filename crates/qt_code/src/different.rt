//! That the fixed qubits of primitives differ.

ghost use Rattle.std.specs.Prelude.{◌≡◌, [], ◌∷◌, ◌++◌};
ghost use Rattle.std.specs.List.{list_all, list_any};
ghost use Rattle.qt_code.specs.Different.{differ, has_different_qubits, is_fixed_at, is_new, references_of};

use qt_instructions::instruction::Instr;
use qt_instructions::primitive::Primitive;
use qt_instructions::reference::QubitRef;

fn is_fixed_at(qubit: u8, reference: QubitRef) -> bool
    ensures { result ≡ is_fixed_at qubit reference }
{
    match reference {
        QubitRef::At(other) => qubit == other,
        QubitRef::Work(_) => false,
    }
}

fn is_fixed_in(qubit: u8, others: &[QubitRef]) -> bool
    ensures { result ≡ list_any (is_fixed_at qubit) others.now }
{
    others.iter().any(|other| is_fixed_at(qubit, *other))
}

/// A fixed qubit is none of the others.
fn is_new(reference: QubitRef, others: &[QubitRef]) -> bool
    ensures { result ≡ is_new reference others.now }
{
    match reference {
        QubitRef::At(qubit) => !is_fixed_in(qubit, others),
        QubitRef::Work(_) => true,
    }
}

/// Each fixed qubit of some references is none of others.
fn are_new(references: &[QubitRef], others: &[QubitRef]) -> bool
    ensures { result ≡ list_all (λ r. is_new r others.now) references.now }
{
    references
        .iter()
        .all(|reference| is_new(*reference, others))
}

/// The fixed qubits differ.
fn differ(mut references: &[QubitRef]) -> bool
    ensures { result ≡ differ references.entry.now }
{
    'references: while let [first, rest @ ..] = references {
        if !is_new(*first, rest) {
            return false;
        }
        references = rest;
    }
    true
}

/// The fixed qubits of two lists of references differ.
#[tactic(auto, using(crate::proofs::Differing::differ_append))]
fn all_differ(ones: &[QubitRef], zeros: &[QubitRef]) -> bool
    ensures { result ≡ differ (ones.now ++ zeros.now) }
{
    differ(ones) && are_new(ones, zeros) && differ(zeros)
}

/// A reference isn't to the same fixed qubit as another.
fn is_apart(reference: QubitRef, other: QubitRef) -> bool
    ensures { result ≡ is_new reference (other ∷ []) }
{
    match reference {
        QubitRef::At(qubit) => !is_fixed_at(qubit, other),
        QubitRef::Work(_) => true,
    }
}

fn are_apart(references: &[QubitRef], other: QubitRef) -> bool
    ensures { result ≡ list_all (λ r. is_new r (other ∷ [])) references.now }
{
    references
        .iter()
        .all(|reference| is_apart(*reference, other))
}

/// The fixed qubits of a primitive differ.
#[tactic(auto, using(crate::proofs::Differing::differ_turned))]
fn primitive_differs(primitive: &Primitive) -> bool
    ensures { result ≡ differ (references_of primitive.now) }
{
    match primitive {
        Primitive::Turn {
            ones,
            zeros,
            target,
            ..
        } => {
            all_differ(ones.items(), zeros.items())
                && are_apart(ones.items(), *target)
                && are_apart(zeros.items(), *target)
        }
        Primitive::Phase { ones, zeros, .. } => all_differ(ones.items(), zeros.items()),
    }
}

fn has_different_qubits(instruction: &Instr) -> bool
    ensures { result ≡ has_different_qubits instruction.now }
{
    match instruction {
        Instr::Gate { primitive } => primitive_differs(primitive),
        _ => true,
    }
}

/// The fixed qubits of each primitive differ.
pub fn have_different_qubits(code: &[Instr]) -> bool
    ensures { result ≡ list_all has_different_qubits code.now }
{
    code.iter()
        .all(|instruction| has_different_qubits(instruction))
}
