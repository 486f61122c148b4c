ghost use Rattle.std.specs.Prelude.{◌≡◌, [], ◌∷◌, ◌++◌, None, OnOk, OnErr};
ghost use Rattle.std.specs.Option.{option_copied};
ghost use Rattle.qt_names.specs.Scopes.{found_in};
ghost use Rattle.qt_names.specs.Undoing.{without_last};

use crate::named::Named;
use indexmap::IndexMap;
use qt_outside::faults::OutOfMemory;
use std::alloc::Global;
use std::marker::Model;

/// A scope. Contracts see it as the list of its entries, in the order in which they were declared.
#[derive(Drop)]
pub struct Scope {
    names: IndexMap<String, Named>,
}

impl Model for Scope {
    ghost use Rattle.std.specs.Prelude.{List};
    ghost use Rattle.qt_names.specs.Entries.{Entry, entries_of};

    ghost Value = { List Entry };

    ghost view = { λ scope. entries_of scope.names.entries };
}

impl Scope {
    /// A scope without a name.
    #[tactic(auto, unfolding(crate::specs::Entries::entries_of))]
    pub fn new(alloc: Global) -> Scope
        ensures { result ≡ [] }
    {
        Scope {
            names: IndexMap::new(alloc),
        }
    }

    /// What the scope's entry of a name says, if it has one.
    pub fn get(&self, name: &str) -> Option<&Named>
        ensures { option_copied result ≡ found_in self.now name.now }
    {
        self.names.get(name)
    }

    /// Adds a name that it doesn't have.
    pub fn add(&mut self, alloc: Global, name: &str, named: Named) -> Result<(), OutOfMemory>
        requires { found_in self.old name.now ≡ None }
        ensures ok { OnOk result (self.new ≡ self.old ++ (record { name = name.now; named = named }) ∷ []) }
        ensures err { OnErr result (self.new ≡ self.old) }
    {
        let name = String::from_str(alloc, name)?;
        self.names.insert(name, named)?;
        Ok(())
    }

    /// Takes the entry that was added last out again.
    pub fn take_back(&mut self)
        ensures { self.new ≡ without_last self.old }
    {
        self.names.pop();
    }
}
