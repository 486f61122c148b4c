//! Parts of angles.

ghost use Rattle.std.specs.Prelude.{◌≡◌, IfOk};
ghost use Rattle.qt_check_gate_items.specs.declared.reckoned.Reckoned.TheVariants as reckoned;

use qt_gate_calls::angle::Angle;
use qt_outside::faults::OutOfMemory;
use qt_value::constant::ConstValue;
use sqlite_items::Boxed;
use std::alloc::Global;

/// A part of an angle: a constant, or an angle of parameters.
#[derive(Drop)]
pub enum Reckoned {
    Constant { constant: ConstValue },
    Angular { angle: Boxed<Angle> },
}

/// An angle of parameters.
pub(crate) fn angular(alloc: Global, angle: Angle) -> Result<Reckoned, OutOfMemory>
    ensures { IfOk result (λ made. made ≡ reckoned.Angular angle) }
{
    Ok(Reckoned::Angular {
        angle: Boxed::new(alloc, angle)?,
    })
}
