//! How many elements an array has.

ghost use Rattle.std.specs.Prelude.{◌≡◌};
ghost use Rattle.qt_typing.specs.Declarations.{element_count};

/// How many elements an array of these lengths has, counted from the last dimension on and up to 4,294,967,295.
pub fn element_count(lengths: &[u32]) -> u32
    ensures { result ≡ element_count lengths.now }
{
    match lengths {
        [] => 1,
        [length, rest @ ..] => length.saturating_mul(element_count(rest)),
    }
}
