//! Angles of primitives.

ghost use Rattle.std.specs.Prelude.{◌≡◌, ◌<◌, ◌≤◌, ◌^◌, IfSome, unsigned_abs};
ghost use Rattle.qt_code.specs.Cells.{angle_by};
ghost use Rattle.qt_gate_calls.specs.Units.{eighth_known};
ghost use Rattle.qt_machine.specs.Writes.{held};
ghost use Rattle.qt_phase.specs.Phase.{eighth_of};

use qt_instructions::reference::AngleRef;
use qt_machine::phases::units_in;

/// π/4 in units of π/2^32.
const EIGHTH: i128 = 1 << 30;

/// The number of π/4 that so many units are on the circle, where they are a multiple of it.
fn eighth_of(units: i128) -> Option<u8>
    requires { unsigned_abs units < 2 ^ 64 }
    ensures value { result ≡ eighth_of units }
    ensures below { IfSome result (λ eighth. eighth < 8) }
{
    if units % EIGHTH != 0 {
        return None;
    }
    Some((units / EIGHTH).rem_euclid(8) as u8)
}

/// The number of π/4 of an angle.
pub fn eighth(angle: AngleRef, cells: &[u64]) -> Option<u8>
    ensures value { result ≡ eighth_known (angle_by angle (held cells.now)) }
    ensures below { IfSome result (λ eighth. eighth < 8) }
{
    match angle {
        AngleRef::Eighth(eighths) => eighth_of(i128::from(eighths) * EIGHTH),
        AngleRef::Work(cell, false) => eighth_of(units_in(cell, cells)),
        AngleRef::Work(cell, true) => eighth_of(-units_in(cell, cells)),
    }
}
