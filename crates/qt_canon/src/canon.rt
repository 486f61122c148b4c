//! The canonical form of a list, in place: all results are tested before any is written.
ghost use Rattle.std.specs.Prelude.{◌≡◌, ◌^◌, ◌≤◌, ◌↔◌, IsTrue, false, List, All, IfOk, OnErr};
ghost use Rattle.std.specs.Int.RustNames.{unsigned_abs};
ghost use Rattle.qt_ring.specs.declared.TheConstants.{LARGEST};
ghost use Rattle.qt_ring.specs.declared.omega.Omega.{Omega};
ghost use Rattle.qt_ring.specs.Multiples.{scaled, DividesAll};
ghost use Rattle.qt_ring.specs.Ring.{Within};
ghost use Rattle.qt_ring.specs.State.{all_nil};
ghost use Rattle.qt_canon_laws.specs.Canonical.{Taken, IsCanonical, factor_of, scale_of};
ghost use Rattle.qt_canon.specs.Divisors.{divisor_of};
ghost use Rattle.qt_canon.specs.Plans.{taken_of, LeavesSmall};

use crate::plan::{Plan, is_small, narrowed};
use qt_ring::omega::Omega;
use qt_root2::scale::{NumberFault, Scale};

/// Brings a list of amplitudes to its canonical form, and answers the scale that stands for `|p|²` of the factor p between the list and
/// the form. `Weight::scaled` takes each such scale. The fault comes exactly where a coefficient of the form is above `LARGEST` in size,
/// and then the list is as it was.
pub fn canon(entries: &mut [Omega]) -> Result<Scale, NumberFault>
    requires small { All (Within (unsigned_abs LARGEST)) entries.old }
    requires some { all_nil entries.old ≡ false }
    ensures ok { IfOk result (λ scale. (k : Taken) × (IsCanonical entries.old entries.new k × (scale ≡ scale_of k))) }
    ensures bounds { IfOk result (λ scale. (unsigned_abs scale.twos ≤ 1024) × ((unsigned_abs scale.units ≤ 512) × (scale.primes ≤ 1))) }
    ensures small { All (Within (unsigned_abs LARGEST)) entries.new }
    ensures kept { OnErr result (entries.new ≡ entries.old) }
    ensures fault { OnErr result ((form : List Omega) × ((k : Taken) ×
        (IsCanonical entries.old form k × (¬ All (Within (unsigned_abs LARGEST)) form)))) }
{
    let plan = Plan::new(entries);
    if !leaves_small(entries, plan) {
        return Err(NumberFault);
    }
    write(entries, plan);
    Ok(plan.scale())
}

/// Whether no result has a coefficient above `LARGEST`.
fn leaves_small(entries: &[Omega], plan: Plan) -> bool
    requires within { All (Within (2 ^ 54)) entries.now }
    requires whole { DividesAll (divisor_of plan.divisor) entries.now }
    ensures { IsTrue result ↔ LeavesSmall plan entries.now }
{
    for entry in entries {
        if !is_small(plan.quotient(*entry)) {
            return false;
        }
    }
    true
}

/// Writes all results.
fn write(entries: &mut [Omega], plan: Plan)
    requires within { All (Within (2 ^ 54)) entries.old }
    requires whole { DividesAll (divisor_of plan.divisor) entries.old }
    requires small { LeavesSmall plan entries.old }
    ensures value { scaled (factor_of (taken_of plan)) entries.new ≡ entries.old }
    ensures small { All (Within (unsigned_abs LARGEST)) entries.new }
{
    for entry in entries.iter_mut() {
        *entry = narrowed(plan.quotient(*entry));
    }
}
