ghost use Rattle.std.specs.Prelude.{◌≡◌, IfOk};

use crate::faults::OutOfMemory;
use std::alloc::Global;
use std::marker::Model;

/// What one call of `fetch` asked for: the name, and how many bytes at most.
#[derive(Drop)]
pub struct Asked {
    name: String,
    most: usize,
}

impl Model for Asked {
    ghost use Rattle.std.specs.Prelude.{ℕ, List, string_bytes};

    ghost Value = { List ℕ × ℕ };

    ghost view = { λ a. (string_bytes a.name, a.most) };
}

impl Asked {
    pub(crate) fn new(alloc: Global, name: &str, most: usize) -> Result<Asked, OutOfMemory>
        ensures { IfOk result (λ asked. asked ≡ (name.now, most)) }
    {
        let name = String::from_str(alloc, name)?;
        Ok(Asked { name, most })
    }

    /// The name.
    pub fn name(&self) -> &str
        ensures { result.now ≡ self.now.0 }
    {
        self.name.as_str()
    }

    /// How many bytes at most.
    pub fn most(&self) -> usize
        ensures { result ≡ self.now.1 }
    {
        self.most
    }
}
