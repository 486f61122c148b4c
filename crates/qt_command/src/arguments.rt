//! What the words of a command line say, and why they may be refused.

ghost use Rattle.std.specs.Prelude.{◌≡◌};
ghost use Rattle.qt_command.specs.declared.arguments.WordsRefusal.TheVariants as refusal;

use qt_outside::faults::OutOfMemory;
use qt_tree::label::{Label, Setting};
use sqlite_items::Items;
use std::alloc::{AllocError, AllocFailed};

/// What is to be done with a text.
#[derive(Clone, Copy, Debug, PartialEq, Eq)]
pub enum Mode {
    /// To print the distribution of its program.
    Run,
    /// To say how large its program is.
    Check,
    /// To print its program in the canonical layout.
    Format,
}

/// The options that have a number.
#[derive(Clone, Copy, Debug, PartialEq, Eq)]
pub enum NumberOption {
    /// How many workers share the run: 1 to 16, and 4 where none is given.
    Workers,
    /// How many turns of loops each path of a run has: 1 to 10,000,000, and 100,000 where none is given.
    Fuel,
}

/// What the words say.
#[derive(Debug, Drop)]
pub struct Arguments {
    pub mode: Mode,
    /// The name of the text.
    pub file: Label,
    /// The values that are given for inputs, in order. No two have the same name.
    pub settings: Items<Setting>,
    pub workers: u32,
    pub fuel: u32,
    /// Whether the report is to be JSON.
    pub json: bool,
}

/// Why words are refused.
#[derive(Debug, Drop)]
pub enum WordsRefusal {
    /// `W1`: they aren't those of the command.
    Words,
    /// `W2`: the mode is none of the three.
    Mode { word: Label },
    /// `W3`: the value of an option is no number, or is out of its range.
    Number { option: NumberOption },
    /// `W4`: a setting has no `=`, has an empty name, or has the name of an earlier one; or there is a setting for `format`.
    Setting { word: Label },
    OutOfMemory,
}

impl From<OutOfMemory> for WordsRefusal {
    ghost from_gives = { λ _ e. e ≡ refusal.OutOfMemory };

    fn from(_error: OutOfMemory) -> WordsRefusal {
        WordsRefusal::OutOfMemory
    }
}

impl From<AllocError> for WordsRefusal {
    ghost from_gives = { λ _ e. e ≡ refusal.OutOfMemory };

    fn from(_error: AllocError) -> WordsRefusal {
        WordsRefusal::OutOfMemory
    }
}

impl<T: Drop> From<AllocFailed<T>> for WordsRefusal {
    ghost from_gives = { λ _ e. e ≡ refusal.OutOfMemory };

    fn from(_error: AllocFailed<T>) -> WordsRefusal {
        WordsRefusal::OutOfMemory
    }
}
