//! The items of a program: OpenQASM 3.0, "Input/output", "Quantum types", "Gates", "Subroutines" and "Included files".

ghost use Rattle.std.specs.Prelude.{◌≡◌, if◌then◌else◌, [], Ok, OnOk};
ghost use Rattle.qt_typing.specs.Checked.{Makes};
ghost use Rattle.qt_typing.specs.Declarations as declarations;
ghost use Rattle.qt_typing.specs.Inputs as inputs;
ghost use Rattle.qt_typing.specs.GateItems.{gate_item};
ghost use Rattle.qt_typing.specs.Programs as spec;
ghost use Rattle.qt_typing.specs.Statements.{not_yet, silent};
ghost use Rattle.qt_typing.specs.Subroutines.{definition};
ghost use Rattle.qt_typing.specs.Tokens as tokens;

use crate::interface::{input_of, output_of};
use crate::subroutines::definition;
use qt_check_arrays::arrays::array_of;
use qt_check_bodies::forms::TypedForm;
use qt_check_bodies::parts::{add, simple};
use qt_check_bodies::statement::statement_typed;
use qt_check_declarations::registers::{qubit_declaration, qubit_register};
use qt_check_gate_items::items::gate_item;
use qt_check_tokens::declaration::{array_spot, io_tokens, qubit_tokens};
use qt_outside::faults::OutOfMemory;
use qt_tree::expression::{Expr, Scalar};
use qt_tree::label::Label;
use qt_tree::place::Place;
use qt_tree::program::{ArrayItem, Definition, GateItem, Item};
use qt_tree::refusal::TextRefusal;
use qt_typed::statement::TypedStatement;
use qt_typing::state::{Around, Returns, State};
use sqlite_items::Items;
use std::alloc::Global;

/// Whether the name of a text is that of the standard gates.
pub fn is_standard(name: &str) -> bool
    ensures { result ≡ spec.is_standard name.now }
{
    matches!(name, "stdgates.inc")
}

/// Counts tokens of a declaration that doesn't run.
#[tactic(auto, unfolding(qt_typing::specs::Programs::count_tokens))]
fn count_tokens(state: &mut State, count: u32) -> Result<(), OutOfMemory>
    ensures { OnOk result (spec.count_tokens count state.old ≡ Ok (tt, state.new)) }
{
    state.tokens = state
        .tokens
        .checked_add(u64::from(count))
        .ok_or(OutOfMemory)?;
    Ok(())
}

/// `include "stdgates.inc";`. Programs with other includes have these put in place before they are typed.
#[tactic(auto, unfolding(qt_typing::specs::Programs::include_standard))]
fn include(state: &mut State, place: Place, name: &Label) -> TypedForm
    ensures { Makes
        ((if spec.is_standard name.now then silent spec.include_standard else not_yet place) state.old) result state.new }
{
    if !is_standard(name.text()) {
        return Err(TextRefusal::E10(place));
    }
    state.included = true;
    Ok(None)
}

/// `input int[8] n;`
fn input(alloc: Global, state: &mut State, place: Place, scalar: &Scalar, name: &Label) -> TypedForm
    ensures { Makes (spec.counted (tokens.io_tokens scalar.now) (inputs.input_of place scalar.now name.now) state.old)
        result state.new }
{
    let tokens = io_tokens(scalar)?;
    input_of(alloc, state, place, scalar, name.text())?;
    count_tokens(state, tokens)?;
    Ok(None)
}

/// `output bit[2] c;`
fn output(
    alloc: Global,
    state: &mut State,
    place: Place,
    scalar: &Scalar,
    name: &Label,
) -> TypedForm
    ensures { Makes (spec.counted (tokens.io_tokens scalar.now) (spec.output_of place scalar.now name.now) state.old)
        result state.new }
{
    let tokens = io_tokens(scalar)?;
    output_of(alloc, state, place, scalar, name.text())?;
    count_tokens(state, tokens)?;
    Ok(None)
}

/// `qubit[2] q;`
fn qubits(
    alloc: Global,
    state: &mut State,
    place: Place,
    size: &Option<Expr>,
    name: &Label,
) -> TypedForm
    ensures { Makes (spec.counted (tokens.qubit_tokens size.now) (declarations.qubit_declaration place size.now name.now) state.old)
        result state.new }
{
    let tokens = qubit_tokens(size)?;
    qubit_declaration(alloc, state, place, size.as_ref(), name.text())?;
    count_tokens(state, tokens)?;
    Ok(None)
}

/// `qreg q[2];`
fn register(
    alloc: Global,
    state: &mut State,
    place: Place,
    name: &Label,
    size: &Option<Expr>,
) -> TypedForm
    ensures { Makes (spec.counted (tokens.qubit_tokens size.now) (declarations.qubit_register place name.now size.now) state.old)
        result state.new }
{
    let tokens = qubit_tokens(size)?;
    qubit_register(alloc, state, place, name.text(), size.as_ref())?;
    count_tokens(state, tokens)?;
    Ok(None)
}

/// `array[int[8], 2, 3] a = {{1, 2, 3}, {4, 5, 6}};`
fn array(alloc: Global, state: &mut State, array: &ArrayItem) -> TypedForm
    ensures { Makes (spec.array_typing array.now state.old) result state.new }
{
    let at = array_spot(array)?;
    let action = array_of(
        alloc,
        state,
        array.place,
        &array.scalar,
        array.dimensions.as_slice(),
        array.name.text(),
        array.value.as_ref(),
    )?;
    Ok(simple(alloc, at, action)?)
}

/// `gate g(a) q { .. }`
fn gate(alloc: Global, state: &mut State, gate: &GateItem) -> TypedForm
    ensures { Makes (silent (gate_item gate.now) state.old) result state.new }
{
    gate_item(alloc, state, gate)?;
    Ok(None)
}

/// `def f(qubit q) { .. }`
fn subroutine(alloc: Global, state: &mut State, it: &Definition) -> TypedForm
    ensures { Makes (silent (definition it.now) state.old) result state.new }
{
    definition(alloc, state, it)?;
    Ok(None)
}

/// What stands around the statements of a program: no loop and no subroutine.
fn at_top() -> Around
    ensures { result ≡ spec.at_top }
{
    Around {
        in_loop: false,
        returns: Returns::Nowhere,
    }
}

/// An item of a program as a typed statement, where it does something when it runs, with what it changes for later items; or its first
/// refusal.
#[tactic(auto, unfolding(qt_typing::specs::Programs::item_typing))]
pub fn item_typed(alloc: Global, state: &mut State, item: &Item) -> TypedForm
    ensures { Makes (spec.item_typing item.now state.old) result state.new }
{
    match item {
        Item::Include { place, name } => include(state, *place, name),
        Item::Input {
            place,
            scalar,
            name,
        } => input(alloc, state, *place, scalar, name),
        Item::Output {
            place,
            scalar,
            name,
        } => output(alloc, state, *place, scalar, name),
        Item::Qubit { place, size, name } => qubits(alloc, state, *place, size, name),
        Item::QubitRegister { place, name, size } => register(alloc, state, *place, name, size),
        Item::Array { array: it } => array(alloc, state, it),
        Item::Gate { gate: it } => gate(alloc, state, it),
        Item::Definition { definition: it } => subroutine(alloc, state, it),
        Item::Statement { statement } => statement_typed(alloc, state, at_top(), statement),
    }
}

/// The items of a program in the order of text.
#[tactic(auto, unfolding(qt_typing::specs::Programs::items_from))]
pub fn items_typed(
    alloc: Global,
    state: &mut State,
    mut items: &[Item],
) -> Result<Items<TypedStatement>, TextRefusal>
    ensures { Makes (spec.items_from [] items.entry.now state.old) result state.new }
{
    let mut done = Items::new(alloc);
    while let [item, rest @ ..] = items {
        let typed = item_typed(alloc, state, item)?;
        add(&mut done, typed)?;
        items = rest;
    }
    Ok(done)
}
