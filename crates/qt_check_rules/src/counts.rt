//! Numbers of what is given, against what is wanted.

ghost use Rattle.std.specs.Prelude.{◌≡◌};
ghost use Rattle.qt_tree.specs.declared.refusal.TextRefusal.TheVariants as refusal;
ghost use Rattle.qt_typing.specs.Checked.{Gives, told};
ghost use Rattle.qt_typing.specs.Gates.{count_fits};

use qt_tree::place::Place;
use qt_tree::refusal::TextRefusal;

/// A number as it is told, up to 4,294,967,295.
pub fn told(number: u64) -> u32
    ensures { result ≡ told number }
{
    u32::try_from(number).unwrap_or(u32::MAX)
}

/// The refusal of another number than is wanted.
pub fn arity(place: Place, wanted: u64, given: u64) -> TextRefusal
    ensures { result ≡ refusal.E14 place (told wanted) (told given) }
{
    TextRefusal::E14(place, told(wanted), told(given))
}

/// That so many are given as are wanted: else E14.
#[tactic(auto, unfolding(qt_typing::specs::Gates::count_fits))]
pub fn count_fits(place: Place, wanted: u64, given: u64) -> Result<(), TextRefusal>
    ensures { Gives (count_fits place wanted given) result }
{
    if wanted == given {
        return Ok(());
    }
    Err(arity(place, wanted, given))
}
