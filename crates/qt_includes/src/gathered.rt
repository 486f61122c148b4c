//! What is in place so far.

ghost use Rattle.std.specs.Prelude.{◌≡◌};
ghost use Rattle.qt_includes.specs.Includes.{nothing};

use qt_tree::label::Label;
use qt_tree::program::{Item, Version};
use sqlite_items::Items;
use std::alloc::Global;

/// The names of the texts that were asked for, and the versions and items that are in place, each in order. A text has the number of its
/// name in this list, and that is the number in its places.
#[derive(Drop)]
pub struct Gathered {
    pub names: Items<Label>,
    pub versions: Items<Version>,
    pub items: Items<Item>,
}

impl Gathered {
    /// Nothing yet.
    pub fn new(alloc: Global) -> Gathered
        ensures { result ≡ nothing }
    {
        Gathered {
            names: Items::new(alloc),
            versions: Items::new(alloc),
            items: Items::new(alloc),
        }
    }
}
