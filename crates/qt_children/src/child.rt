//! The branch of one outcome.

ghost use Rattle.std.specs.Prelude.{◌≡◌, ◌≤◌, ◌^◌, false, All, pos, ◌+◌, ◌-ℤ◌, ◌≤ℤ◌, ◌<ℤ◌, IfOk, OnErr};
ghost use Rattle.std.specs.Int.RustNames.{unsigned_abs};
ghost use Rattle.qt_canon_laws.specs.Canonical.{IsCanonical, Taken};
ghost use Rattle.qt_ring.specs.State.{all_nil};
ghost use Rattle.qt_root2.specs.Numerators.{weight_numerator};
ghost use Rattle.qt_root2.specs.Scaling.{IsScaled};
ghost use Rattle.qt_children.specs.Children.{AreSmall, HasNoChild, HasNoForm, IsChild, scale_over};

use crate::start::Start;
use qt_branch::branch::Branch;
use qt_canon::canon::canon;
use qt_ring::omega::Omega;
use qt_root2::scale::{NumberFault, Scale};
use qt_root2::weight::Weight;
use qt_vector::vector::Vector;

/// Over twice so many halvings.
fn over(scale: Scale, halvings: u32) -> Scale
    requires positive { pos 0 ≤ℤ scale.twos }
    requires twos { scale.twos ≤ℤ pos 1024 }
    requires few { halvings ≤ 127 }
    ensures value { result ≡ record { twos = scale.twos -ℤ pos (halvings + halvings); units = scale.units; primes = scale.primes } }
    ensures twos { unsigned_abs result.twos ≤ 1024 }
{
    Scale {
        twos: scale.twos - 2 * halvings as i32,
        ..scale
    }
}

/// Brings amplitudes over so many halvings to their canonical form, and answers the weight that takes up what was taken out.
fn weighed(entries: &mut [Omega], halvings: u32, weight: Weight) -> Result<Weight, NumberFault>
    requires small { AreSmall entries.old }
    requires some { all_nil entries.old ≡ false }
    requires few { halvings ≤ 127 }
    ensures ok { IfOk result (λ w. (k : Taken) × (IsCanonical entries.old entries.new k
        × (IsScaled (scale_over k halvings) (weight_numerator weight) (weight_numerator w) × (w.a <ℤ pos (2 ^ 100))))) }
    ensures fault { OnErr result (HasNoForm entries.old halvings weight) }
    ensures small { AreSmall entries.new }
{
    let scale = canon(entries)?;
    weight.scaled(over(scale, halvings))
}

/// The branch at an instruction, with those slots and the canonical form of the state, its weight and the fuel. The fault comes exactly where a
/// coefficient of the form is above `LARGEST` in size, or the weight isn't whole over `2^96`, or has an `a` of `2^100` or more.
pub fn child(
    at: u32,
    slots: Vec<u64>,
    state: Vector,
    weight: Weight,
    fuel: u32,
) -> Result<Start, NumberFault>
    requires { all_nil state.entries ≡ false }
    ensures ok { IfOk result (IsChild at slots.items state weight fuel) }
    ensures fault { OnErr result (HasNoChild state weight) }
{
    let mut entries = state.entries;
    let weight = weighed(entries.as_mut_slice(), state.halvings, weight)?;
    Ok(Start {
        branch: Branch::from_parts(at, slots, entries),
        weight,
        fuel,
    })
}
