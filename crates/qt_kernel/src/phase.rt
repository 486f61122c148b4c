//! A global phase under controls.
ghost use Rattle.std.specs.Prelude.{◌≡◌, EachIndex, slice_index_or};
ghost use Rattle.qt_ring.specs.Ring.{nil};
ghost use Rattle.qt_vector.specs.States.{AreSmall};
ghost use Rattle.qt_kernel.specs.Gates.{entry_after_phase};

use crate::gate::Controls;
use qt_ring::omega::Omega;

impl Controls {
    /// Turns the amplitudes at which the controls hold by an angle, in eighths.
    pub fn add_phase(self, entries: &mut [Omega], angle: u8)
        requires { AreSmall entries.old }
        ensures { EachIndex entries.new (λ i. slice_index_or entries.new i nil ≡ entry_after_phase self angle entries.old i) }
    {
        for index in 0..entries.len() {
            if self.hold(index) {
                entries[index] = entries[index].times_omega(angle);
            }
        }
    }
}
