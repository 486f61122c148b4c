//! One text: fetched, read and begun.

ghost use Rattle.std.specs.Prelude.{◌≡◌, ◌≢◌, ◌<◌, ℕ, List, [], length, reverse, take, Some, Err, IfOk, MatchResult};
ghost use Rattle.qt_outside.specs.Causes.{Texts, text_of};
ghost use Rattle.qt_read.specs.Reading.{IsTextOfProgram};
ghost use Rattle.qt_includes.specs.Steps.{HasBegun, HasCause, HasNoProgram};
ghost use Rattle.qt_includes.specs.declared.refusal.IncludeRefusal.TheVariants as refusal;
ghost use Rattle.qt_tree.specs.declared.refusal.TextRefusal.{TextRefusal};
ghost use Rattle.qt_tree.specs.declared.program.Item.{Item};

use crate::gathered::Gathered;
use crate::refusal::{IncludeRefusal, told};
use qt_outside::faults::FetchFault;
use qt_outside::shelf::Shelf;
use qt_read::read::read;
use qt_tree::label::Label;
use qt_tree::place::Place;
use qt_tree::program::{Item, Program};
use sqlite_items::Items;
use std::alloc::{AllocError, Global};

/// One more byte than the longest text that is read, so that a longer one is seen to be too long.
const MOST: usize = 1048577;

/// A text that is read, and whose versions are in place.
#[derive(Drop)]
pub struct Begun {
    /// Its items, the last one first.
    pub waiting: Items<Item>,
    /// The place just past its last character.
    pub end: Place,
}

/// The text of that name, as far as it is read.
fn fetched<S: Shelf>(alloc: Global, shelf: &mut S, name: &str) -> Result<Vec<u8>, IncludeRefusal>
    ensures text { (texts : Texts) → S.holds shelf.old ≡ Some texts
        → IfOk result (λ text. text.items ≡ take MOST (text_of texts name.now)) }
    ensures holds { S.holds shelf.new ≡ S.holds shelf.old }
    ensures cause { HasCause (S.faults shelf.old) (S.faults shelf.new) (S.failed shelf.new) result }
    ensures name { (of : List ℕ) → result ≡ Err (refusal.Shelf of) → of ≡ name.now }
    ensures unread { (reason : TextRefusal) → result ≢ Err (refusal.Text reason) }
{
    let mut text = Vec::new(alloc);
    match shelf.fetch(name, MOST, &mut text) {
        Ok(()) => Ok(text),
        Err(FetchFault::Failed) => Err(IncludeRefusal::Shelf(Label::new(alloc, name)?)),
        Err(FetchFault::OutOfMemory) => Err(IncludeRefusal::OutOfMemory),
    }
}

/// The program of the text of that name, which has that number.
fn program_at<S: Shelf>(
    alloc: Global,
    shelf: &mut S,
    name: &str,
    number: u16,
) -> Result<Program, IncludeRefusal>
    ensures program { (texts : Texts) → S.holds shelf.old ≡ Some texts
        → MatchResult result (IsTextOfProgram number (text_of texts name.now)) (HasNoProgram texts name.now number) }
    ensures holds { S.holds shelf.new ≡ S.holds shelf.old }
    ensures cause { HasCause (S.faults shelf.old) (S.faults shelf.new) (S.failed shelf.new) result }
{
    let text = fetched(alloc, shelf, name)?;
    match read(alloc, name, number, text.as_slice()) {
        Ok(program) => Ok(program),
        Err(reason) => Err(told(reason)),
    }
}

/// Items in the opposite order.
fn reversed(alloc: Global, mut items: Items<Item>) -> Result<Items<Item>, AllocError>
    ensures { IfOk result (λ reversed. reversed ≡ reverse items) }
{
    let mut reversed = Items::new(alloc);
    while let Some(item) = items.pop() {
        reversed.push(item)?;
    }
    Ok(reversed)
}

/// The text of that name, as the next one, begun.
pub fn begin<S: Shelf>(
    alloc: Global,
    shelf: &mut S,
    name: &str,
    gathered: &mut Gathered,
) -> Result<Begun, IncludeRefusal>
    requires { length gathered.old.names < 64 }
    ensures begun { (texts : Texts) → S.holds shelf.old ≡ Some texts → HasBegun texts name.now gathered.old result gathered.new }
    ensures holds { S.holds shelf.new ≡ S.holds shelf.old }
    ensures cause { HasCause (S.faults shelf.old) (S.faults shelf.new) (S.failed shelf.new) result }
{
    let number = gathered.names.len() as u16;
    gathered.names.push(Label::new(alloc, name)?)?;
    let Program {
        versions,
        items,
        end,
    } = program_at(alloc, shelf, name, number)?;
    gathered.versions.append(versions)?;
    let waiting = reversed(alloc, items)?;
    Ok(Begun { waiting, end })
}
