//! The limits of the language, as numbers for the parsers. In contracts they are `language_limits` of `specs/Spelling.antt`.

ghost use Rattle.std.specs.Prelude.{◌≡◌};
ghost use Rattle.qt_grammar.specs.Spelling.{language_limits};

/// How deep a token stands at most.
pub const MOST_LEVELS: usize = 64;

/// How many operators an expression has at most that stands in no other.
pub const MOST_OPERATORS: usize = 256;

/// The number of levels is the language's.
pub fn most_levels() -> usize
    ensures { result ≡ language_limits.levels }
{
    MOST_LEVELS
}

/// The number of operators is the language's.
pub fn most_operators() -> usize
    ensures { result ≡ language_limits.operators }
{
    MOST_OPERATORS
}
