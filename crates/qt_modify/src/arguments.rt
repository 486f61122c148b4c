//! The arguments of a call in a body.

ghost use Rattle.std.specs.Prelude.{◌≡◌, ℕ, IfOk};
ghost use Rattle.qt_modify.specs.Expansions.{all_reckoned, expansions_of, needs_in, reckoned_if};
ghost use Rattle.qt_modify.specs.Known.{KnowsNeeds};
ghost use Rattle.qt_modify.specs.Needs.{flag_at, wanted};

use crate::needs::{flag_at, wants};
use crate::reckon::reckoned;
use crate::unit::Steps;
use qt_gate_calls::angle::Angle;
use qt_gate_calls::body::{BodyCall, GateBody};
use qt_phase::phase::Phase;
use qt_primitives::unit::Argument;
use sqlite_items::Items;
use std::alloc::{AllocError, Global};

/// An argument, where it is wanted, and no angle else.
fn reckoned_if(
    wanted: bool,
    given: &[Argument],
    angle: &Angle,
    steps: &mut Steps,
) -> Result<Argument, AllocError>
    ensures { IfOk result (λ of. reckoned_if wanted given.now angle.now steps.old ≡ record { steps = steps.new; angle = of }) }
{
    if wanted {
        reckoned(given, angle, steps)
    } else {
        Ok(Argument::Fixed {
            phase: Phase::zero(),
        })
    }
}

/// The arguments that are wanted, from left to right.
fn all_reckoned(
    alloc: Global,
    wants: &[bool],
    given: &[Argument],
    angles: &[Angle],
    steps: &mut Steps,
) -> Result<Items<Argument>, AllocError>
    ensures { IfOk result (λ of. all_reckoned (flag_at wants.now) given.now 0 angles.now steps.old
        ≡ record { steps = steps.new; angles = of }) }
{
    let mut arguments = Items::new(alloc);
    for (number, angle) in angles.iter().enumerate() {
        let argument = reckoned_if(flag_at(wants, number), given, angle, steps)?;
        arguments.push(argument)?;
    }
    Ok(arguments)
}

/// The arguments of a call in a body, for those of the gate whose body it is. The steps that they need come behind the steps so far.
pub fn arguments_of(
    alloc: Global,
    gates: &[GateBody],
    needs: &[Items<bool>],
    call: &BodyCall,
    given: &[Argument],
    steps: &mut Steps,
) -> Result<Items<Argument>, AllocError>
    requires { KnowsNeeds gates.now needs.now }
    ensures { IfOk result (λ of. all_reckoned (wanted (needs_in (expansions_of gates.now)) call.now.modifiers call.now.gate) given.now 0
        call.now.angles steps.old ≡ record { steps = steps.new; angles = of }) }
{
    let wants = wants(gates, needs, call.modifiers.as_slice(), call.gate);
    all_reckoned(alloc, wants, given, call.angles.as_slice(), steps)
}
