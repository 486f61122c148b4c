ghost use Rattle.std.specs.Prelude.{◌≡◌, [], true, nat_eq, if◌then◌else◌, OnOk};
ghost use Rattle.std.specs.Cmp.Lexicographic.{pointwise};
ghost use Rattle.qt_const_rules.specs.Latest.{is_marked, place_in, Name};

use indexmap::IndexMap;
use qt_outside::faults::OutOfMemory;
use std::alloc::Global;
use std::marker::Model;

/// At which place in a list each name was added last. A name whose entries were taken out again has no place.
#[derive(Drop)]
pub struct Latest {
    alloc: Global,
    places: IndexMap<String, Option<usize>>,
}

impl Model for Latest {
    ghost use Rattle.std.specs.Prelude.{List};
    ghost use Rattle.qt_const_rules.specs.Latest.{marks_of, Mark};

    ghost Value = { List Mark };

    ghost view = { λ latest. marks_of latest.places.entries };
}

impl Latest {
    /// No name has a place.
    #[tactic(auto, unfolding(crate::specs::Latest::marks_of))]
    pub fn new(alloc: Global) -> Latest
        ensures { result ≡ [] }
    {
        Latest {
            alloc,
            places: IndexMap::new(alloc),
        }
    }

    /// The place of a name.
    pub fn place(&self, name: &str) -> Option<usize>
        ensures { result ≡ place_in self.now name.now }
    {
        match self.places.get(name) {
            Some(place) => *place,
            None => None,
        }
    }

    /// Makes room for the place of a name.
    pub fn hold(&mut self, name: &str) -> Result<(), OutOfMemory>
        ensures places { (other : Name) → place_in self.new other ≡ place_in self.old other }
        ensures held { OnOk result (is_marked self.new name.now ≡ true) }
    {
        if self.places.contains_key(name) {
            return Ok(());
        }
        let name = String::from_str(self.alloc, name)?;
        self.places.insert(name, None)?;
        Ok(())
    }

    /// Sets the place of a name that has room for one.
    pub fn set(&mut self, name: &str, place: Option<usize>)
        requires { is_marked self.old name.now ≡ true }
        ensures { (other : Name) → place_in self.new other ≡ (if pointwise nat_eq name.now other then place else place_in self.old other) }
    {
        if let Some(kept) = self.places.get_mut(name) {
            *kept = place;
        }
    }
}
