//! The angles of gate calls.

ghost use Rattle.std.specs.Prelude.{◌≡◌, IfOk};
ghost use Rattle.qt_modify.specs.Calls as modify;
ghost use Rattle.qt_fixed_angles.specs.Angles as spec;
ghost use Rattle.qt_fixed_angles.specs.Reached.{arguments_of};

use crate::wrong::WrongAngle;
use qt_modify::call::expand_use;
use qt_modify::expansion::ExpandRefusal;
use qt_outside::faults::OutOfMemory;
use qt_primitives::unit::Argument;
use qt_tree::place::Place;
use qt_typed::call::{Broadcast, GateUse};
use qt_typed::expression::TypedPhase;
use sqlite_items::Items;
use std::alloc::{AllocError, Global};

/// An argument as far as it is fixed. All that aren't share a cell, since what stands in cells is no fixed angle.
fn argument_of(phase: &TypedPhase) -> Argument
    ensures { result ≡ modify.argument_of (modify.fixed_phase phase.now) 0 }
{
    match phase {
        TypedPhase::Fixed { phase } => Argument::Fixed { phase: *phase },
        _ => Argument::Cell { cell: 0 },
    }
}

/// Arguments as far as they are fixed.
#[tactic(auto, using(crate::proofs::Lists::one_more_argument))]
fn arguments_of(alloc: Global, phases: &[TypedPhase]) -> Result<Items<Argument>, AllocError>
    ensures { IfOk result (λ arguments. arguments ≡ arguments_of phases.now) }
{
    let mut arguments = Items::new(alloc);
    for phase in phases {
        arguments.push(argument_of(phase))?;
    }
    Ok(arguments)
}

/// The first wrong angle of a gate with its modifiers and arguments, in the order of its primitives, then of θ, φ, λ.
#[tactic(auto, using(crate::proofs::Expanding::none_wrong, crate::proofs::Expanding::some_wrong))]
pub fn use_angle(
    alloc: Global,
    place: Place,
    used: &GateUse,
) -> Result<Option<WrongAngle>, OutOfMemory>
    ensures { IfOk result (λ angle. angle ≡ spec.use_angle place used.now) }
{
    let arguments = arguments_of(alloc, used.arguments.as_slice())?;
    match expand_use(alloc, place, used, arguments.as_slice(), &[], 0) {
        Ok(_) => Ok(None),
        Err(ExpandRefusal::Angle { place, units }) => Ok(Some(WrongAngle { place, units })),
        Err(ExpandRefusal::OutOfMemory) => Err(OutOfMemory),
    }
}

/// The first wrong angle of a call on registers: that of its first place, if it has one.
#[tactic(auto, using(crate::proofs::Expanding::some_times))]
pub fn broadcast_angle(alloc: Global, call: &Broadcast) -> Result<Option<WrongAngle>, OutOfMemory>
    ensures { IfOk result (λ angle. angle
        ≡ spec.times_angle call.now.size (spec.use_angle call.now.place call.now.used)) }
{
    if call.size == 0 {
        return Ok(None);
    }
    use_angle(alloc, call.place, &call.used)
}
