//! The angles of programs.

ghost use Rattle.std.specs.Prelude.{◌≡◌, true, List, length, IfOk};
ghost use Rattle.qt_typed.specs.declared.statement.TypedStatement.{TypedStatement};
ghost use Rattle.qt_fixed_angles.specs.Angles as spec;
ghost use Rattle.qt_fixed_angles.specs.Reached.{AreKnown, Covers, angle_in};

use crate::reached::reached;
use crate::statements::list_angle;
use crate::wrong::WrongAngle;
use qt_modify::needs::flag_at;
use qt_outside::faults::OutOfMemory;
use qt_typed::program::{Typed, TypedSubroutine};
use sqlite_items::Items;
use std::alloc::Global;

/// The angle of a subroutine over those before it, where its flag is set.
fn angle_if(
    alloc: Global,
    wanted: bool,
    known: &[Option<WrongAngle>],
    subroutine: &TypedSubroutine,
) -> Result<Option<WrongAngle>, OutOfMemory>
    ensures { wanted ≡ true → IfOk result (λ angle. angle
        ≡ spec.list_angle (angle_in known.now) subroutine.now.body) }
{
    if wanted {
        list_angle(alloc, known, subroutine.body.as_slice())
    } else {
        Ok(None)
    }
}

/// The angles of the subroutines whose flags are set, each over those before it.
fn angles_of(
    alloc: Global,
    flags: &[bool],
    subroutines: &[TypedSubroutine],
) -> Result<Items<Option<WrongAngle>>, OutOfMemory>
    ensures angles { (body : List TypedStatement) → Covers subroutines.now body flags.now
        → IfOk result (λ known. AreKnown flags.now subroutines.now known) }
    ensures len { IfOk result (λ known. length known ≡ length subroutines.now) }
{
    let mut known = Items::new(alloc);
    for (number, subroutine) in subroutines.iter().enumerate() {
        let angle = angle_if(alloc, flag_at(flags, number), known.as_slice(), subroutine)?;
        known.push(angle)?;
    }
    Ok(known)
}

/// The first fixed angle of a program that is no multiple of π/4, in the order of flat code: a subroutine's calls count where it is first
/// put in, and those of one that is put in nowhere aren't tested. It has the place of the gate call and its exact units. OpenQASM 3.0,
/// "Gates" and "Subroutines".
pub fn first_wrong_angle(alloc: Global, program: &Typed) -> Result<Option<WrongAngle>, OutOfMemory>
    ensures { IfOk result (λ angle. angle ≡ spec.first_wrong_angle program.now) }
{
    let subroutines = program.subroutines.as_slice();
    let body = program.body.as_slice();
    let flags = reached(alloc, subroutines, body)?;
    let angles = angles_of(alloc, flags.as_slice(), subroutines)?;
    let known = angles.as_slice();
    list_angle(alloc, known, body)
}
