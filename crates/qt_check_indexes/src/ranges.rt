//! Places of registers, and ranges of them.

ghost use Rattle.std.specs.Prelude.{◌≡◌, ◌-◌, ◌<◌, ◌^◌, IfOk, IfSome, not, unsigned_abs};
ghost use Rattle.std.specs.Option.{option_copied};
ghost use Rattle.qt_const.specs.Indexes.{place_in, step_in};
ghost use Rattle.qt_typing.specs.Checked.{Gives, and_then, answer_at, unless};
ghost use Rattle.qt_typing.specs.Indexes as spec;
ghost use Rattle.qt_tree.specs.declared.refusal.TextRefusal.TheVariants as refusal;
ghost use Rattle.qt_check_indexes.specs.Slices.{IsWithin};

use qt_check_expressions::constants::{answer_at, number_at};
use qt_const::modes::Mode;
use qt_const_rules::fault::ConstFault;
use qt_tree::expression::{Expr, Range};
use qt_tree::place::Place;
use qt_tree::refusal::{Cause, TextRefusal};
use qt_typing::indexes::Slice;
use qt_typing::names::Names;
use std::alloc::Global;

/// The place that an index is written for, of a number of places.
fn place_in(places: u64, index: i128) -> Result<u64, ConstFault>
    ensures value { result ≡ place_in places index }
    ensures below { IfOk result (λ n. n < places) }
{
    let places = i128::from(places);
    if index < -places || index >= places {
        return Err(ConstFault::Const(Cause::Range));
    }
    let found = if index < 0 { index + places } else { index };
    Ok(found as u64)
}

/// The place that an index is written for, or its refusal.
pub(crate) fn place_at(place: Place, places: u64, index: i128) -> Result<u64, TextRefusal>
    ensures value { Gives (answer_at place (place_in places index)) result }
    ensures below { IfOk result (λ n. n < places) }
{
    answer_at(place, place_in(places, index))
}

/// A step is positive.
fn step_at(place: Place, step: i128) -> Result<u64, TextRefusal>
    requires { unsigned_abs step < 2 ^ 64 }
    ensures value { Gives (answer_at place (step_in step)) result }
    ensures moves { IfOk result (λ by. 0 < by) }
{
    if step < 1 {
        return Err(TextRefusal::E12(place, Cause::Range));
    }
    Ok(step as u64)
}

/// The places from the start up to and with the end, which is the last of `places` or one before it.
#[tactic(auto, using(crate::proofs::Fitting::dividing), unfolding(qt_typing::specs::Indexes::places_between))]
fn places_between(
    place: Place,
    places: u64,
    start: u64,
    step: u64,
    end: u64,
) -> Result<Slice, TextRefusal>
    requires moves { 0 < step }
    requires end { end < places }
    ensures value { Gives (spec.places_between place start step end) result }
    ensures within { IfOk result (IsWithin places) }
{
    if end < start {
        return Err(TextRefusal::E12(place, Cause::Range));
    }
    Ok(Slice {
        start,
        step,
        count: (end - start) / step + 1,
    })
}

/// Those of a number of places. The first, the step 1 and the last are meant where nothing is written.
#[tactic(auto, unfolding(qt_typing::specs::Indexes::places_of_range))]
fn places_of_range(
    place: Place,
    places: u64,
    start: Option<i128>,
    step: Option<i128>,
    end: Option<i128>,
) -> Result<Slice, TextRefusal>
    requires { IfSome step (λ z. unsigned_abs z < 2 ^ 64) }
    ensures value { Gives (spec.places_of_range place places start step end) result }
    ensures within { IfOk result (IsWithin places) }
{
    let first = place_at(place, places, start.unwrap_or(0))?;
    let by = step_at(place, step.unwrap_or(1))?;
    let last = place_at(place, places, end.unwrap_or(-1))?;
    places_between(place, places, first, by, last)
}

/// The whole number of a bound of a range, where it is written.
#[tactic(auto, unfolding(qt_typing::specs::Indexes::optional_number))]
fn optional_number(
    alloc: Global,
    names: &Names,
    mode: Mode,
    place: Place,
    part: Option<&Expr>,
) -> Result<Option<i128>, TextRefusal>
    ensures value { Gives (spec.optional_number names.now mode place (option_copied part.entry)) result }
    ensures small { IfOk result (λ number. IfSome number (λ z. unsigned_abs z < 2 ^ 64)) }
{
    match part {
        None => Ok(None),
        Some(expr) => Ok(Some(number_at(alloc, names, mode, place, expr)?)),
    }
}

/// The same of what may have a range.
fn fitting_places(
    place: Place,
    fits: bool,
    places: u64,
    start: Option<i128>,
    step: Option<i128>,
    end: Option<i128>,
) -> Result<Slice, TextRefusal>
    requires { IfSome step (λ z. unsigned_abs z < 2 ^ 64) }
    ensures value { Gives
        (and_then (unless (not fits) (refusal.E10 place)) (λ u. spec.places_of_range place places start step end))
        result }
    ensures within { IfOk result (IsWithin places) }
{
    if !fits {
        return Err(TextRefusal::E10(place));
    }
    places_of_range(place, places, start, step, end)
}

/// The places of a range, of a number of places that may have a range or not. Its start, its step and its end are constant. E10 where
/// there may be none; E12 `range` where a bound is no place, the step isn't positive, or the start lies behind the end.
#[tactic(auto, unfolding(qt_typing::specs::Indexes::range_places))]
pub fn range_places(
    alloc: Global,
    names: &Names,
    mode: Mode,
    place: Place,
    fits: bool,
    places: u64,
    range: &Range,
) -> Result<Slice, TextRefusal>
    ensures value { Gives (spec.range_places names.now mode place fits places range.now) result }
    ensures within { IfOk result (IsWithin places) }
{
    let start = optional_number(alloc, names, mode, place, range.start.as_ref())?;
    let step = optional_number(alloc, names, mode, place, range.step.as_ref())?;
    let end = optional_number(alloc, names, mode, place, range.end.as_ref())?;
    fitting_places(place, fits, places, start, step, end)
}
