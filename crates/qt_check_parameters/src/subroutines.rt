//! Frames and names of subroutines.

ghost use Rattle.std.specs.Prelude.{◌≡◌};
ghost use Rattle.qt_typing.specs.Checked.{Makes};
ghost use Rattle.qt_typing.specs.Subroutines.{declare_subroutine, subroutine_named, turned_inside};

use crate::numbers::next_number;
use qt_check_declarations::names::declare_in_both;
use qt_const_rules::consts::Known;
use qt_names::named::{Named, Places, What};
use qt_tree::lengths::Lengths;
use qt_tree::place::Place;
use qt_tree::refusal::TextRefusal;
use qt_typed::program::TypedSubroutine;
use qt_typing::state::State;
use std::alloc::Global;
use std::mem;

/// Puts the names that a subroutine sees in the place of the others, and those into theirs; so many slots are taken then.
#[tactic(auto, unfolding(qt_typing::specs::Subroutines::turned_inside))]
pub fn turn_inside(state: &mut State, slots: u32)
    ensures { state.new ≡ turned_inside slots state.old }
{
    mem::swap(&mut state.names, &mut state.inside);
    state.slots = slots;
}

/// What the name of the subroutine of a number stands for.
fn subroutine_named(alloc: Global, number: u32) -> Named
    ensures { result ≡ subroutine_named number }
{
    Named {
        what: What::Subroutine,
        of: None,
        lengths: Lengths::from_vec(Vec::new(alloc)),
        places: Places::Number { number },
    }
}

/// Puts a subroutine behind those before it, and declares its name for what stands inside of subroutines and gates too.
#[tactic(auto, unfolding(qt_typing::specs::Subroutines::declare_subroutine))]
pub fn declare_subroutine(
    alloc: Global,
    state: &mut State,
    place: Place,
    name: &str,
    subroutine: TypedSubroutine,
) -> Result<(), TextRefusal>
    ensures { Makes (declare_subroutine place name.now subroutine state.old) result state.new }
{
    let count = state.subroutines.len();
    state.subroutines.push(subroutine)?;
    let named = subroutine_named(alloc, next_number(count)?);
    declare_in_both(alloc, state, place, name, named, Known::Subroutine)
}
