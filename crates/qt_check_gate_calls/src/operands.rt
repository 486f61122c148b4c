//! The operands of a gate call.

ghost use Rattle.std.specs.Prelude.{◌≡◌, ◌+◌, ◌||◌, ◌++◌, [], ◌∷◌, drop, reverse, IfOk, OnOk};
ghost use Rattle.qt_tree.specs.declared.refusal.Cause.TheVariants as cause;
ghost use Rattle.qt_tree.specs.declared.refusal.TextRefusal.TheVariants as refusal;
ghost use Rattle.qt_typed.specs.declared.call.TypedQubit.TheVariants as qubit_form;
ghost use Rattle.qt_typed.specs.declared.call.TypedQubits.TheVariants as qubits_form;
ghost use Rattle.qt_typing.specs.Checked.{Gives, unless};
ghost use Rattle.qt_typing.specs.Gates as spec;
ghost use Rattle.qt_typing.specs.Qubits as qubits_spec;

use qt_check_qubits::operands::operand_qubits;
use qt_check_qubits::repeats::{contains, overlaps};
use qt_check_rules::operands::{same_size, size_of_all};
use qt_outside::faults::OutOfMemory;
use qt_registers::fixed::FixedQubit;
use qt_registers::register::Register;
use qt_tree::place::Place;
use qt_tree::refusal::{Cause, TextRefusal};
use qt_tree::statement::Operand;
use qt_typed::call::{TypedQubit, TypedQubits};
use qt_typing::names::Names;
use sqlite_items::Items;
use std::alloc::Global;

/// Whether two qubits are one.
#[tactic(auto, unfolding(qt_typing::specs::Qubits::is_same_qubit))]
fn is_same_qubit(a: FixedQubit, b: FixedQubit) -> bool
    ensures { result ≡ qubits_spec.is_same_qubit a b }
{
    match (a, b) {
        (FixedQubit::Number { qubit: a }, FixedQubit::Number { qubit: b }) => a == b,
        (
            FixedQubit::OfParameter {
                parameter: p,
                place: a,
            },
            FixedQubit::OfParameter {
                parameter: q,
                place: b,
            },
        ) => p == q && a == b,
        _ => false,
    }
}

/// Whether two registers have one qubit at that place.
#[tactic(auto, using(crate::proofs::Meeting::meets_at))]
fn meets_at(a: &Register, b: &Register, place: u64) -> bool
    ensures { spec.meets (drop place a.now) (drop place b.now)
        ≡ (result || spec.meets (drop (place + 1) a.now) (drop (place + 1) b.now)) }
{
    match (a.at(place), b.at(place)) {
        (Some(p), Some(q)) => is_same_qubit(p, q),
        _ => false,
    }
}

/// Whether two registers have one qubit at some place, which is looked for from the first place on.
#[tactic(auto, using(crate::proofs::Meeting::meets_behind))]
fn meets_somewhere(a: &Register, b: &Register) -> bool
    ensures { result ≡ spec.meets a.now b.now }
{
    let count = a.size();
    let mut place = 0;
    while place < count {
        if meets_at(a, b, place) {
            return true;
        }
        place += 1;
    }
    false
}

/// Whether two registers have one qubit at one place. Registers that share none don't, whatever their size.
#[tactic(auto, using(crate::proofs::Meeting::apart))]
fn meets(a: &Register, b: &Register) -> bool
    ensures { result ≡ spec.meets a.now b.now }
{
    overlaps(a, b) && meets_somewhere(a, b)
}

/// Whether a single qubit stands in a register, so that it is there twice in one of the calls.
#[tactic(auto, unfolding(qt_typing::specs::Gates::clashes))]
fn clashes_with_single(register: &Register, qubit: &TypedQubit) -> bool
    ensures front { result ≡ spec.clashes (qubits_form.Register register.now) (qubits_form.Single qubit.now) }
    ensures behind { result ≡ spec.clashes (qubits_form.Single qubit.now) (qubits_form.Register register.now) }
{
    match qubit {
        TypedQubit::Fixed { qubit } => contains(register, *qubit),
        _ => false,
    }
}

/// Whether two single qubits are one fixed qubit.
#[tactic(auto, unfolding(qt_typing::specs::Gates::clashes))]
fn clashes_with_fixed(qubit: FixedQubit, other: &TypedQubit) -> bool
    ensures { result ≡ spec.clashes (qubits_form.Single (qubit_form.Fixed qubit)) (qubits_form.Single other.now) }
{
    match other {
        TypedQubit::Fixed { qubit: other } => is_same_qubit(qubit, *other),
        _ => false,
    }
}

/// Whether two single qubits have one slot.
#[tactic(auto, unfolding(qt_typing::specs::Gates::clashes), using(qt_check_qubits::proofs::Sharing::or_false))]
fn clashes_with_slot(slot: u32, other: &TypedQubit) -> bool
    ensures { result ≡ spec.clashes (qubits_form.Single (qubit_form.Slot slot)) (qubits_form.Single other.now) }
{
    match other {
        TypedQubit::Slot { slot: other } => slot == *other,
        _ => false,
    }
}

/// Whether two single qubits are one fixed qubit, or have one slot.
#[tactic(auto, unfolding(qt_typing::specs::Gates::clashes))]
fn single_clashes(qubit: &TypedQubit, other: &TypedQubit) -> bool
    ensures { result ≡ spec.clashes (qubits_form.Single qubit.now) (qubits_form.Single other.now) }
{
    match qubit {
        TypedQubit::Fixed { qubit } => clashes_with_fixed(*qubit, other),
        TypedQubit::Slot { slot } => clashes_with_slot(*slot, other),
        TypedQubit::Indexed { .. } => false,
    }
}

/// Whether two operands are the same qubit in one of the calls.
#[tactic(auto, unfolding(qt_typing::specs::Gates::clashes))]
fn clashes(of: &TypedQubits, other: &TypedQubits) -> bool
    ensures { result ≡ spec.clashes of.now other.now }
{
    match of {
        TypedQubits::Register { qubits } => match other {
            TypedQubits::Register { qubits: others } => meets(qubits, others),
            TypedQubits::Single { qubit } => clashes_with_single(qubits, qubit),
        },
        TypedQubits::Single { qubit } => match other {
            TypedQubits::Register { qubits: others } => clashes_with_single(others, qubit),
            TypedQubits::Single { qubit: other } => single_clashes(qubit, other),
        },
    }
}

/// Whether an operand is the same qubit as one before it in one of the calls.
fn any_clashes(mut done: &[TypedQubits], of: &TypedQubits) -> bool
    ensures { result ≡ spec.any_clashes done.entry.now of.now }
{
    while let [first, rest @ ..] = done {
        if clashes(first, of) {
            return true;
        }
        done = rest;
    }
    false
}

/// That no qubit of these stands among those before them in one of the calls: else E11 `qubit`.
fn unrepeated(place: Place, done: &[TypedQubits], of: &TypedQubits) -> Result<(), TextRefusal>
    ensures { Gives (unless (spec.any_clashes done.now of.now) (refusal.E11 place cause.Qubit)) result }
{
    if any_clashes(done, of) {
        return Err(TextRefusal::E11(place, Cause::Qubit));
    }
    Ok(())
}

/// The operands of a call, in order: what the name and the index of each is refused for, E14 of a register of another size than the first,
/// E11 `qubit` of a qubit that stands twice in one of the calls. OpenQASM 3.0, "Gates", applying gates.
#[tactic(auto, unfolding(qt_typing::specs::Gates::operands_from))]
pub fn operands_from(
    alloc: Global,
    names: &Names,
    place: Place,
    mut written: &[Operand],
) -> Result<Items<TypedQubits>, TextRefusal>
    ensures { Gives (spec.operands_from names.now place [] written.entry.now) result }
{
    let mut operands = Items::new(alloc);
    while let [operand, rest @ ..] = written {
        let of = operand_qubits(alloc, names, place, operand)?;
        same_size(place, size_of_all(operands.as_slice()), of.get())?;
        unrepeated(place, operands.as_slice(), of.get())?;
        operands.push(of.into_inner())?;
        written = rest;
    }
    Ok(operands)
}

/// Puts a single qubit behind others.
fn keep_single(singles: &mut Items<TypedQubit>, operand: TypedQubits) -> Result<(), OutOfMemory>
    ensures { OnOk result (singles.new ≡ singles.old ++ spec.singles (operand ∷ [])) }
{
    match operand {
        TypedQubits::Single { qubit } => Ok(singles.push(qubit)?),
        TypedQubits::Register { .. } => Ok(()),
    }
}

/// The single qubits, the last one first.
#[tactic(auto, using(crate::proofs::Singles::one_more))]
fn singles_back(
    alloc: Global,
    mut operands: Items<TypedQubits>,
) -> Result<Items<TypedQubit>, OutOfMemory>
    ensures { IfOk result (λ back. back ≡ reverse (spec.singles operands)) }
{
    let mut back = Items::new(alloc);
    while let Some(operand) = operands.pop() {
        keep_single(&mut back, operand)?;
    }
    Ok(back)
}

/// The single qubits among the operands, in order.
pub fn singles(
    alloc: Global,
    operands: Items<TypedQubits>,
) -> Result<Items<TypedQubit>, OutOfMemory>
    ensures { IfOk result (λ qubits. qubits ≡ spec.singles operands) }
{
    let mut back = singles_back(alloc, operands)?;
    let mut qubits = Items::new(alloc);
    while let Some(qubit) = back.pop() {
        qubits.push(qubit)?;
    }
    Ok(qubits)
}
