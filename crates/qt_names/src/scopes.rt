ghost use Rattle.std.specs.Prelude.{◌≡◌, [], ◌∷◌, reverse, OnOk, OnErr};
ghost use Rattle.std.specs.Option.{option_copied};
ghost use Rattle.qt_names.specs.Scopes.{declares, entered, found, is_outermost, left, Declares, Finds};
ghost use Rattle.qt_names.specs.Undoing.{taken_back};

use crate::named::Named;
use crate::scope::Scope;
use qt_outside::faults::OutOfMemory;
use qt_tree::label::Label;
use qt_tree::place::Place;
use qt_tree::refusal::TextRefusal;
use std::alloc::Global;
use std::marker::Model;
use std::mem;

/// The scopes that are open. Contracts see them as the lists of their entries, the innermost scope first.
#[derive(Drop)]
pub struct Scopes {
    alloc: Global,
    outer: Vec<Scope>,
    inner: Scope,
}

impl Model for Scopes {
    ghost use Rattle.std.specs.Prelude.{List, ◌∷◌, reverse};
    ghost use Rattle.qt_names.specs.Entries.{Entry};

    ghost Value = { List (List Entry) };

    ghost view = { λ scopes. scopes.inner ∷ reverse scopes.outer.items };
}

/// What the last scope that has the name says of it.
fn last_found<'a>(mut scopes: &'a [Scope], name: &str) -> Option<&'a Named>
    ensures { option_copied result ≡ found (reverse scopes.entry.now) name.now }
{
    while let Some((scope, outer)) = scopes.split_last() {
        let named = scope.get(name);
        if named.is_some() {
            return named;
        }
        scopes = outer;
    }
    None
}

impl Scopes {
    /// The global scope alone, without a name.
    pub fn new(alloc: Global) -> Scopes
        ensures { result ≡ [] ∷ [] }
    {
        Scopes {
            alloc,
            outer: Vec::new(alloc),
            inner: Scope::new(alloc),
        }
    }

    /// Opens a scope. After a refusal all is as it was.
    pub fn enter(&mut self) -> Result<(), OutOfMemory>
        ensures ok { OnOk result (self.new ≡ entered self.old) }
        ensures err { OnErr result (self.new ≡ self.old) }
    {
        let inner = mem::replace(&mut self.inner, Scope::new(self.alloc));
        match self.outer.push(inner) {
            Ok(()) => Ok(()),
            Err(failed) => {
                self.inner = failed.value;
                Err(OutOfMemory)
            }
        }
    }

    /// Closes the innermost scope. The global one stays open.
    pub fn leave(&mut self)
        ensures { self.new ≡ left self.old }
    {
        if let Some(inner) = self.outer.pop() {
            self.inner = inner;
        }
    }

    /// Whether the global scope alone is open.
    pub fn is_outermost(&self) -> bool
        ensures { result ≡ is_outermost self.now }
    {
        self.outer.is_empty()
    }

    /// Adds a name to the innermost scope. E9 exactly where that has it already. After a refusal all is as it was.
    pub fn declare(&mut self, name: &str, what: Named, place: Place) -> Result<(), TextRefusal>
        ensures { Declares self.old name.now what place result self.new }
    {
        if self.declares(name) {
            return Err(TextRefusal::E9(place, Label::new(self.alloc, name)?));
        }
        Ok(self.inner.add(self.alloc, name, what)?)
    }

    /// What the innermost entry of a name says. E8 exactly where there is none.
    pub fn find(&self, name: &str, place: Place) -> Result<&Named, TextRefusal>
        ensures { Finds self.now name.now place result }
    {
        match self.known(name) {
            Some(named) => Ok(named),
            None => Err(TextRefusal::E8(place, Label::new(self.alloc, name)?)),
        }
    }

    /// Whether the innermost scope has a name.
    pub fn declares(&self, name: &str) -> bool
        ensures { result ≡ declares self.now name.now }
    {
        self.inner.get(name).is_some()
    }

    /// What the innermost entry of a name says, if there is one.
    pub fn known(&self, name: &str) -> Option<&Named>
        ensures { option_copied result ≡ found self.now name.now }
    {
        match self.inner.get(name) {
            Some(named) => Some(named),
            None => last_found(self.outer.as_slice(), name),
        }
    }

    /// Takes the entry that was added last to the innermost scope out again.
    pub(crate) fn take_back(&mut self)
        ensures { self.new ≡ taken_back self.old }
    {
        self.inner.take_back();
    }
}
