//! Numbers of parameters and subroutines.

ghost use Rattle.std.specs.Prelude.{◌≡◌, IfOk};

use qt_outside::faults::OutOfMemory;

/// The number of the next one behind so many.
pub(crate) fn next_number(count: usize) -> Result<u32, OutOfMemory>
    ensures { IfOk result (λ number. number ≡ count) }
{
    match u32::try_from(count) {
        Ok(number) => Ok(number),
        Err(_) => Err(OutOfMemory),
    }
}
