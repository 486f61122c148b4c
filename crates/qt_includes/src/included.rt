//! The program of a text and of all that it includes.

ghost use Rattle.std.specs.Prelude.{◌≡◌, [], reverse, Some, Result};
ghost use Rattle.qt_outside.specs.Causes.{Texts};
ghost use Rattle.qt_includes.specs.Includes.{nothing};
ghost use Rattle.qt_includes.specs.Steps.{ComesTo, HasCause, HasGathered};

use crate::fetching::{Begun, begin};
use crate::gathered::Gathered;
use crate::placing::place_items;
use crate::refusal::IncludeRefusal;
use qt_outside::shelf::Shelf;
use qt_tree::label::Label;
use qt_tree::place::Place;
use qt_tree::program::Program;
use sqlite_items::Items;
use std::alloc::Global;

/// A program with all includes in place, or why there is none, and the names of the texts that were asked for: that of the main text, and
/// those of included ones in the order in which they were. The number of a text in places is that of its name in this list.
#[derive(Drop)]
pub struct Included {
    pub names: Items<Label>,
    pub program: Result<Program, IncludeRefusal>,
}

/// Fetches and reads the main text and all that it includes. It gives the place of the main text's end.
fn gather<S: Shelf>(
    alloc: Global,
    shelf: &mut S,
    name: &str,
    gathered: &mut Gathered,
) -> Result<Place, IncludeRefusal>
    requires { gathered.old ≡ nothing }
    ensures gathered { (texts : Texts) → S.holds shelf.old ≡ Some texts → HasGathered texts name.now result gathered.new }
    ensures holds { S.holds shelf.new ≡ S.holds shelf.old }
    ensures cause { HasCause (S.faults shelf.old) (S.faults shelf.new) (S.failed shelf.new) result }
{
    let Begun { waiting, end } = begin(alloc, shelf, name, gathered)?;
    place_items(alloc, shelf, 0, waiting, gathered)?;
    Ok(end)
}

/// The program of the text of that name with all includes in place: exactly that of the definition, for a shelf that tells its texts. There is
/// none where the shelf fails to give a text that is asked for, which has raised its count of faults for that name; where a text is refused
/// (E1 to E6), or an include is (E18), in the order of texts; and for want of memory. Nothing is asked for behind the first of these.
pub fn fetch_program<S: Shelf>(alloc: Global, shelf: &mut S, name: &str) -> Included
    ensures program { (texts : Texts) → S.holds shelf.old ≡ Some texts → ComesTo texts name.now result.names result.program }
    ensures holds { S.holds shelf.new ≡ S.holds shelf.old }
    ensures cause { HasCause (S.faults shelf.old) (S.faults shelf.new) (S.failed shelf.new) result.program }
{
    let mut gathered = Gathered::new(alloc);
    let ended = gather(alloc, shelf, name, &mut gathered);
    let Gathered {
        names,
        versions,
        items,
    } = gathered;
    let program = match ended {
        Ok(end) => Ok(Program {
            versions,
            items,
            end,
        }),
        Err(refusal) => Err(refusal),
    };
    Included { names, program }
}
