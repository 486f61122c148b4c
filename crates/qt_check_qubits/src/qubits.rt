//! The qubits that an operand names.

ghost use Rattle.std.specs.Prelude.{◌≡◌, IfOk};
ghost use Rattle.qt_typed.specs.declared.call.TypedQubits.TheVariants as qubits_form;
ghost use Rattle.qt_typed.specs.Choices.{qubit_count};
ghost use Rattle.qt_typing.specs.Checked.{Gives};
ghost use Rattle.qt_typing.specs.Qubits as spec;

use qt_check_expressions::sorts::is_fixed;
use qt_check_indexes::ranges::range_places;
use qt_check_indexes::single::{fixed_place, whole_index};
use qt_check_operands::expression::typed;
use qt_check_rules::counts::told;
use qt_check_rules::names::unfit;
use qt_const::modes::Mode;
use qt_names::named::{Named, Places, What};
use qt_outside::faults::OutOfMemory;
use qt_registers::fixed::FixedQubit;
use qt_registers::register::Register;
use qt_tree::expression::{Expr, Range};
use qt_tree::label::Label;
use qt_tree::lengths::Lengths;
use qt_tree::place::Place;
use qt_tree::refusal::{Cause, TextRefusal};
use qt_typed::call::{TypedQubit, TypedQubits};
use qt_typed::expression::TypedExpr;
use qt_typing::names::Names;
use sqlite_items::Boxed;
use std::alloc::Global;

/// One qubit.
pub(crate) fn single(alloc: Global, qubit: TypedQubit) -> Result<Boxed<TypedQubits>, OutOfMemory>
    ensures { IfOk result (λ of. of ≡ qubits_form.Single qubit) }
{
    Ok(Boxed::new(alloc, TypedQubits::Single { qubit })?)
}

/// The qubits of a register, in order.
pub(crate) fn all_of(alloc: Global, qubits: Register) -> Result<Boxed<TypedQubits>, OutOfMemory>
    ensures { IfOk result (λ of. of ≡ qubits_form.Register qubits) }
{
    Ok(Boxed::new(alloc, TypedQubits::Register { qubits })?)
}

// ---- what names stand for qubits

/// A register, or its first qubit where no size is declared.
#[tactic(auto, using(crate::proofs::QubitViews::first_is))]
fn single_or_register(
    alloc: Global,
    lengths: &Lengths,
    register: &Register,
) -> Result<Option<Boxed<TypedQubits>>, OutOfMemory>
    ensures { IfOk result (λ of. of ≡ spec.single_or_register lengths.now register.now) }
{
    match lengths.items() {
        [] => match register.at(0) {
            Some(qubit) => Ok(Some(single(alloc, TypedQubit::Fixed { qubit })?)),
            None => Ok(None),
        },
        _ => Ok(Some(all_of(alloc, register.copied(alloc)?)?)),
    }
}

/// The qubits that are kept. A subroutine's single qubit is known by its slot.
fn qubits_kept(alloc: Global, it: &Named) -> Result<Option<Boxed<TypedQubits>>, OutOfMemory>
    ensures { IfOk result (λ of. of ≡ spec.qubits_kept it.now.lengths it.now.places) }
{
    match &it.places {
        Places::Qubits { qubits } => single_or_register(alloc, &it.lengths, qubits),
        Places::Number { number } => match it.lengths.items() {
            [] => Ok(Some(single(alloc, TypedQubit::Slot { slot: *number })?)),
            _ => Ok(None),
        },
        Places::Nowhere => Ok(None),
    }
}

/// The qubits that something with a name stands for.
#[tactic(auto, unfolding(qt_typing::specs::Qubits::qubits_of))]
pub fn qubits_of(alloc: Global, it: &Named) -> Result<Option<Boxed<TypedQubits>>, OutOfMemory>
    ensures { IfOk result (λ of. of ≡ spec.qubits_of it.now) }
{
    match it.what {
        What::Qubits | What::Alias => qubits_kept(alloc, it),
        What::Parameter => match it.of {
            None => qubits_kept(alloc, it),
            Some(_) => Ok(None),
        },
        What::Variable | What::Constant | What::Gate | What::Subroutine => Ok(None),
    }
}

/// The qubits of a name: E8 where it isn't in scope or stands for none.
#[tactic(auto, unfolding(qt_typing::specs::Qubits::qubits_named))]
pub fn qubits_named(
    alloc: Global,
    names: &Names,
    place: Place,
    name: &Label,
) -> Result<Boxed<TypedQubits>, TextRefusal>
    ensures { Gives (spec.qubits_named names.now place name.now) result }
{
    let it = names.scopes.find(name.text(), place)?;
    match qubits_of(alloc, it)? {
        Some(of) => Ok(of),
        None => Err(unfit(alloc, place, name)),
    }
}

// ---- indexes

/// The register that is indexed: E10 of a single qubit.
pub(crate) fn register_of(place: Place, of: Boxed<TypedQubits>) -> Result<Register, TextRefusal>
    ensures { Gives (spec.register_of place of) result }
{
    match of.into_inner() {
        TypedQubits::Register { qubits } => Ok(qubits),
        TypedQubits::Single { .. } => Err(TextRefusal::E10(place)),
    }
}

/// The qubit at a constant index.
#[tactic(auto, unfolding(qt_typing::specs::Qubits::fixed_in))]
pub(crate) fn fixed_in(
    alloc: Global,
    names: &Names,
    place: Place,
    register: &Register,
    expr: &Expr,
) -> Result<FixedQubit, TextRefusal>
    ensures { Gives (spec.fixed_in names.now place register.now expr.now) result }
{
    let at = fixed_place(alloc, names, Mode::Plain, place, register.size(), expr)?;
    match register.at(at) {
        Some(qubit) => Ok(qubit),
        None => Err(TextRefusal::E12(place, Cause::Range)),
    }
}

/// The qubit at an index that is typed.
#[tactic(auto, unfolding(qt_typing::specs::Qubits::indexed_in))]
fn indexed_in(
    alloc: Global,
    names: &Names,
    place: Place,
    register: Register,
    expr: &Expr,
    form: Boxed<TypedExpr>,
) -> Result<Boxed<TypedQubits>, TextRefusal>
    ensures { Gives (spec.indexed_in names.now place register expr.now form) result }
{
    if is_fixed(names, expr) {
        let qubit = fixed_in(alloc, names, place, &register, expr)?;
        return Ok(single(alloc, TypedQubit::Fixed { qubit })?);
    }
    let index = form.into_inner();
    Ok(single(alloc, TypedQubit::Indexed { register, index })?)
}

/// The qubit at an index, which is typed first: E10 where it is no whole number or a single qubit is indexed, E12 `range` of a constant one
/// outside of the register. OpenQASM 3.0, "Index sets and slicing".
#[tactic(auto, unfolding(qt_typing::specs::Qubits::qubit_in))]
pub fn qubit_in(
    alloc: Global,
    names: &Names,
    place: Place,
    of: Boxed<TypedQubits>,
    expr: &Expr,
) -> Result<Boxed<TypedQubits>, TextRefusal>
    ensures { Gives (spec.qubit_in names.now place of expr.now) result }
{
    let index = typed(alloc, names, Mode::Plain, place, expr)?;
    let form = whole_index(place, true, index)?;
    let register = register_of(place, of)?;
    indexed_in(alloc, names, place, register, expr, form)
}

/// The qubits of a register at the places of a range.
#[tactic(auto, unfolding(qt_typing::specs::Qubits::qubits_in_range))]
fn register_in_range(
    alloc: Global,
    names: &Names,
    place: Place,
    register: Register,
    range: &Range,
) -> Result<Boxed<TypedQubits>, TextRefusal>
    ensures { Gives (spec.qubits_in_range names.now place (qubits_form.Register register) range.now) result }
{
    let places = register.size();
    let slice = range_places(alloc, names, Mode::Plain, place, true, places, range)?;
    let part = register.stepped(alloc, slice.start, slice.step, slice.count)?;
    Ok(all_of(alloc, part)?)
}

/// The qubits at the places of a range: E10 of a single qubit, which has none, behind the faults of the bounds.
#[tactic(auto, unfolding(qt_typing::specs::Qubits::qubits_in_range), using(crate::proofs::QubitViews::no_range))]
pub fn qubits_in_range(
    alloc: Global,
    names: &Names,
    place: Place,
    of: Boxed<TypedQubits>,
    range: &Range,
) -> Result<Boxed<TypedQubits>, TextRefusal>
    ensures { Gives (spec.qubits_in_range names.now place of range.now) result }
{
    match of.into_inner() {
        TypedQubits::Register { qubits } => {
            register_in_range(alloc, names, place, qubits, range)
        }
        TypedQubits::Single { .. } => {
            range_places(alloc, names, Mode::Plain, place, false, 1, range)?;
            Err(TextRefusal::E10(place))
        }
    }
}

// ---- operands

/// How many qubits these are.
pub fn qubit_count(of: &TypedQubits) -> u64
    ensures { result ≡ qubit_count of.now }
{
    match of {
        TypedQubits::Single { .. } => 1,
        TypedQubits::Register { qubits } => qubits.size(),
    }
}

/// Whether so many bits take the outcomes of so many qubits: else E14.
#[tactic(auto, unfolding(qt_typing::specs::Qubits::outcomes_fit))]
pub fn outcomes_fit(place: Place, width: u8, of: &TypedQubits) -> Result<(), TextRefusal>
    ensures { Gives (spec.outcomes_fit place width of.now) result }
{
    let count = qubit_count(of);
    if u64::from(width) == count {
        return Ok(());
    }
    Err(TextRefusal::E14(place, u32::from(width), told(count)))
}
