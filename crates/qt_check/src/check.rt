//! The check of a program.

ghost use Rattle.std.specs.Prelude.{◌≡◌, [], Ok, IsTrue};
ghost use Rattle.qt_typing.specs.Checked.{Gives, and_then};
ghost use Rattle.qt_typing.specs.Programs as spec;
ghost use Rattle.qt_check.specs.Steps as steps;

use crate::items::{is_standard, items_typed};
use crate::program::{beginning, numbers_fit, program_at, versions_fit};
use qt_gate_calls::body::GateBodies;
use qt_settings::fit::inputs_fit;
use qt_tree::label::Setting;
use qt_tree::place::Place;
use qt_tree::program::{Item, Program};
use qt_tree::refusal::TextRefusal;
use qt_typed::program::Typed;
use qt_typed::statement::TypedStatement;
use qt_typing::state::State;
use sqlite_items::Items;
use std::alloc::Global;

/// Whether `check` says what an item means.
fn item_built(item: &Item) -> bool
    ensures { result ≡ spec.item_built item.now }
{
    match item {
        Item::Include { name, .. } => is_standard(name.text()),
        _ => true,
    }
}

/// Whether `check` says what a program means: its includes, but for that of the standard gates, are in place.
#[tactic(auto, unfolding(qt_typing::specs::Programs::items_built))]
pub fn built(program: &Program) -> bool
    ensures { result ≡ spec.items_built program.now.items }
{
    let mut items = program.items.as_slice();
    while let [item, rest @ ..] = items {
        if !item_built(item) {
            return false;
        }
        items = rest;
    }
    true
}

/// All gates that stand behind items, from what stands before them.
fn gates_after(alloc: Global, mut state: State, items: &[Item]) -> Result<GateBodies, TextRefusal>
    ensures { Gives (and_then (spec.items_from [] items.now state) (λ first. Ok first.1.gates)) result }
{
    items_typed(alloc, &mut state, items)?;
    Ok(GateBodies::new(alloc, state.gates)?)
}

/// All gates of a program: they are found in a first pass over its items.
fn gates_of(alloc: Global, items: &[Item]) -> Result<GateBodies, TextRefusal>
    ensures { Gives (and_then (spec.items_from [] items.now (spec.beginning [])) (λ first. Ok first.1.gates)) result }
{
    let none = GateBodies::new(alloc, Items::new(alloc))?;
    let state = beginning(alloc, none)?;
    gates_after(alloc, state, items)
}

/// A program behind its items: its numbers of qubits and slots, and the values of its inputs.
#[tactic(auto, unfolding(crate::specs::Steps::ended))]
fn ended(
    alloc: Global,
    settings: &[Setting],
    end: Place,
    state: State,
    body: Items<TypedStatement>,
) -> Result<Typed, TextRefusal>
    ensures { Gives (steps.ended settings.now end body state) result }
{
    numbers_fit(&state)?;
    let start = inputs_fit(alloc, settings, state.inputs.as_slice())?;
    Ok(program_at(alloc, end, state, body, start)?)
}

/// A program of these items, from what stands before them.
#[tactic(auto, unfolding(crate::specs::Steps::typed_after))]
fn typed_after(
    alloc: Global,
    settings: &[Setting],
    items: &[Item],
    end: Place,
    mut state: State,
) -> Result<Typed, TextRefusal>
    ensures { Gives (steps.typed_after settings.now items.now end state) result }
{
    let body = items_typed(alloc, &mut state, items)?;
    ended(alloc, settings, end, state, body)
}

/// A program of these items that has these gates.
fn typed_with(
    alloc: Global,
    settings: &[Setting],
    items: &[Item],
    end: Place,
    gates: GateBodies,
) -> Result<Typed, TextRefusal>
    ensures { Gives (steps.typed_after settings.now items.now end (spec.beginning gates)) result }
{
    let state = beginning(alloc, gates)?;
    typed_after(alloc, settings, items, end, state)
}

/// What a program means as a typed tree, with the start values that the settings give to its inputs; or the first reason why it means
/// nothing: E7 of its version; then E8 to E12 and E14 of its items in the order of text, within a statement from left to right; E15 of more
/// than 16 qubits, E16 of more than 1,024 slots, E19 of the settings. It asks for a program whose includes are in place.
#[tactic(auto, using(crate::proofs::Whole::whole))]
pub fn check(alloc: Global, program: &Program, settings: &[Setting]) -> Result<Typed, TextRefusal>
    requires { IsTrue (spec.items_built program.now.items) }
    ensures { Gives (spec.typing_of settings.now program.now) result }
{
    versions_fit(program.versions.as_slice())?;
    let items = program.items.as_slice();
    let gates = gates_of(alloc, items)?;
    typed_with(alloc, settings, items, program.end, gates)
}
