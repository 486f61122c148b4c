//! Items put in place, with those of the texts that they include.

ghost use Rattle.std.specs.Prelude.{◌≡◌, ◌≢◌, ◌≤◌, ℕ, List, reverse, Some};
ghost use Rattle.std.specs.Option.{option_map};
ghost use Rattle.qt_outside.specs.Causes.{Texts};
ghost use Rattle.qt_tree.specs.declared.program.Item.{Item};
ghost use Rattle.qt_includes.specs.Includes.{fits, include_of, is_standard, kept};
ghost use Rattle.qt_includes.specs.Steps.{HasAdvanced, HasCause, HasPlaced};

use crate::fetching::{Begun, begin};
use crate::gathered::Gathered;
use crate::refusal::IncludeRefusal;
use qt_outside::shelf::Shelf;
use qt_tree::place::Place;
use qt_tree::program::Item;
use qt_tree::refusal::TextRefusal;
use sqlite_items::Items;
use std::alloc::Global;

/// How deep an included text may be; the main text has depth 0.
const MOST_DEEP: u32 = 8;

/// How many texts there may be with the main one.
const MOST_TEXTS: usize = 64;

/// Whether the name is that of the standard gates.
fn is_standard(name: &str) -> bool
    ensures { result ≡ is_standard name.now }
{
    matches!(name, "stdgates.inc")
}

/// The place of an item and the name of the text that it includes.
fn include_of(item: &Item) -> Option<(Place, &str)>
    ensures { option_map (λ include. (include.0, include.1.now)) result ≡ include_of item.now }
{
    match item {
        Item::Include { place, name } => {
            if is_standard(name.text()) {
                return None;
            }
            Some((*place, name.text()))
        }
        _ => None,
    }
}

/// Whether a text of that depth may include one more.
fn fits(depth: u32, gathered: &Gathered) -> bool
    ensures { result ≡ fits depth gathered.now }
{
    depth < MOST_DEEP && gathered.names.len() < MOST_TEXTS
}

/// The text that an item of a text of that depth includes, in place of the item.
#[cycle(placing)]
fn place_text<S: Shelf>(
    alloc: Global,
    shelf: &mut S,
    depth: u32,
    place: Place,
    name: &str,
    gathered: &mut Gathered,
) -> Result<(), IncludeRefusal>
    requires { depth ≤ 8 }
    ensures placed { (texts : Texts) (it : Item) → S.holds shelf.old ≡ Some texts → include_of it ≡ Some (place, name.now)
        → HasAdvanced texts depth it gathered.old result gathered.new }
    ensures holds { S.holds shelf.new ≡ S.holds shelf.old }
    ensures cause { HasCause (S.faults shelf.old) (S.faults shelf.new) (S.failed shelf.new) result }
{
    if !fits(depth, gathered) {
        return Err(IncludeRefusal::Text(TextRefusal::E18(place)));
    }
    let Begun { waiting, .. } = begin(alloc, shelf, name, gathered)?;
    place_items(alloc, shelf, depth + 1, waiting, gathered)
}

/// An item of a text of that depth.
#[cycle(placing)]
fn place_item<S: Shelf>(
    alloc: Global,
    shelf: &mut S,
    depth: u32,
    item: Item,
    gathered: &mut Gathered,
) -> Result<(), IncludeRefusal>
    requires { depth ≤ 8 }
    ensures placed { (texts : Texts) → S.holds shelf.old ≡ Some texts → HasAdvanced texts depth item gathered.old result gathered.new }
    ensures holds { S.holds shelf.new ≡ S.holds shelf.old }
    ensures cause { HasCause (S.faults shelf.old) (S.faults shelf.new) (S.failed shelf.new) result }
{
    if let Some((place, name)) = include_of(&item) {
        return place_text(alloc, shelf, depth, place, name, gathered);
    }
    Ok(gathered.items.push(item)?)
}

/// The items of a text of that depth, of which the last one waits first.
#[cycle(placing)]
pub fn place_items<S: Shelf>(
    alloc: Global,
    shelf: &mut S,
    depth: u32,
    mut waiting: Items<Item>,
    gathered: &mut Gathered,
) -> Result<(), IncludeRefusal>
    requires { depth ≤ 8 }
    ensures placed { (texts : Texts) → S.holds shelf.old ≡ Some texts
        → HasPlaced texts depth (reverse waiting) gathered.old result gathered.new }
    ensures holds { S.holds shelf.new ≡ S.holds shelf.old }
    ensures cause { HasCause (S.faults shelf.old) (S.faults shelf.new) (S.failed shelf.new) result }
{
    while let Some(item) = waiting.pop() {
        place_item(alloc, shelf, depth, item, gathered)?;
    }
    Ok(())
}
