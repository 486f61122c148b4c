//! The numbers of a typed program.

ghost use Rattle.qt_typing.specs.Checked.{Gives};
ghost use Rattle.qt_fixed_angles.specs.Angles as angles;
ghost use Rattle.qt_summary.specs.Summary as spec;

use crate::summary::Summary;
use qt_fixed_angles::program::first_wrong_angle;
use qt_tree::refusal::TextRefusal;
use qt_typed::program::Typed;
use std::alloc::Global;

/// The largest size of a program that is served.
const MOST_SIZE: u64 = 1048576;

/// That the size is within the limit of the profile: E17.
#[tactic(auto, unfolding(crate::specs::Summary::size_fits))]
fn size_fits(typed: &Typed) -> Result<(), TextRefusal>
    ensures { Gives (spec.size_fits typed.now) result }
{
    if typed.size() > MOST_SIZE {
        return Err(TextRefusal::E17(typed.size()));
    }
    Ok(())
}

/// That all fixed angles are multiples of π/4: E13.
fn angles_fit(alloc: Global, typed: &Typed) -> Result<(), TextRefusal>
    ensures { Gives (spec.angle_fits (angles.first_wrong_angle typed.now)) result }
{
    match first_wrong_angle(alloc, typed)? {
        None => Ok(()),
        Some(wrong) => Err(TextRefusal::E13(wrong.place, wrong.units)),
    }
}

/// The numbers of a typed program, or why it is refused: E17 of a size above 1,048,576; then E13 of the first fixed angle that is no multiple
/// of π/4, in the order of flat code.
#[tactic(auto, unfolding(crate::specs::Summary::typed_summary))]
pub fn typed_summary(alloc: Global, typed: &Typed) -> Result<Summary, TextRefusal>
    ensures { Gives (spec.typed_summary typed.now) result }
{
    size_fits(typed)?;
    angles_fit(alloc, typed)?;
    Ok(Summary {
        qubits: typed.qubits(),
        slots: typed.slots(),
        size: typed.size(),
    })
}
