ghost use Rattle.std.specs.Prelude.{◌≡◌, [], ◌∷◌, true};
ghost use Rattle.qt_names.specs.Seen.{is_seen_inside};
ghost use Rattle.qt_names.specs.Tables.{DeclaresGlobal};

use crate::named::Named;
use crate::scopes::Scopes;
use qt_tree::place::Place;
use qt_tree::refusal::TextRefusal;
use std::alloc::Global;

/// The names of a program, in two tables.
#[derive(Drop)]
pub struct Tables {
    alloc: Global,
    /// What the statements see that stand in no subroutine and no gate.
    pub outside: Scopes,
    /// What the bodies of subroutines and gates see.
    pub inside: Scopes,
}

impl Tables {
    /// Two tables without a name.
    pub fn new(alloc: Global) -> Tables
        ensures outside { result.outside ≡ [] ∷ [] }
        ensures inside { result.inside ≡ [] ∷ [] }
    {
        Tables {
            alloc,
            outside: Scopes::new(alloc),
            inside: Scopes::new(alloc),
        }
    }

    /// Adds a global name to the table of the outside, and to that of the inside where it is seen there. E9 exactly where one of these has
    /// it already. After a refusal both are as they were.
    pub fn declare(&mut self, name: &str, what: Named, place: Place) -> Result<(), TextRefusal>
        ensures { DeclaresGlobal self.old name.now what place result self.new }
    {
        if what.what.is_seen_inside() {
            self.declare_in_both(name, what, place)
        } else {
            self.outside.declare(name, what, place)
        }
    }

    fn declare_in_both(&mut self, name: &str, what: Named, place: Place) -> Result<(), TextRefusal>
        requires { is_seen_inside what.what ≡ true }
        ensures { DeclaresGlobal self.old name.now what place result self.new }
    {
        let copy = what.copied(self.alloc)?;
        self.outside.declare(name, copy, place)?;
        if let Err(refusal) = self.inside.declare(name, what, place) {
            self.outside.take_back();
            return Err(refusal);
        }
        Ok(())
    }
}
