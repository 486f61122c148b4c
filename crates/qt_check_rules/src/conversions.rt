//! Which types of values become which others.

ghost use Rattle.std.specs.Prelude.{◌≡◌};
ghost use Rattle.qt_typing.specs.Calls.{fits_type};
ghost use Rattle.qt_typing.specs.Conversions.{converts, has_row, is_same, rescales};

use qt_typing::way::Way;
use qt_value::types::ValueType;

/// Whether two types are one.
#[tactic(auto, unfolding(qt_typing::specs::Conversions::is_same))]
pub fn is_same(from: ValueType, to: ValueType) -> bool
    ensures { result ≡ is_same from to }
{
    match (from, to) {
        (ValueType::Bool, ValueType::Bool) | (ValueType::Phase, ValueType::Phase) => true,
        (ValueType::Bit(n), ValueType::Bit(m))
        | (ValueType::Int(n), ValueType::Int(m))
        | (ValueType::Uint(n), ValueType::Uint(m))
        | (ValueType::Angle(n), ValueType::Angle(m)) => n == m,
        _ => false,
    }
}

/// Whether a conversion goes from an angle to one of another width.
pub fn rescales(from: ValueType, to: ValueType) -> bool
    ensures { result ≡ rescales from to }
{
    match (from, to) {
        (ValueType::Angle(n), ValueType::Angle(m)) => n != m,
        _ => false,
    }
}

/// Whether the table of conversions has a row for two types.
fn has_row(from: ValueType, to: ValueType) -> bool
    ensures { result ≡ has_row from to }
{
    if !to.has_size() {
        return false;
    }
    match (from, to) {
        (ValueType::Bit(n), ValueType::Bit(m))
        | (ValueType::Angle(n), ValueType::Bit(m))
        | (ValueType::Bit(n), ValueType::Angle(m)) => n == m,
        (ValueType::Angle(_), ValueType::Angle(_)) => true,
        (_, ValueType::Angle(_)) => false,
        _ => from.is_whole(),
    }
}

/// Whether a value of a type becomes one of another in that way.
#[tactic(auto, unfolding(qt_typing::specs::Conversions::converts))]
pub fn converts(way: Way, from: ValueType, to: ValueType) -> bool
    ensures { result ≡ converts way from to }
{
    match way {
        Way::Written => has_row(from, to),
        Way::Unwritten => has_row(from, to) && !rescales(from, to),
    }
}

/// Whether a result of one type is taken as a value of another.
#[tactic(auto, unfolding(qt_typing::specs::Calls::fits_type))]
pub fn fits_type(from: ValueType, to: ValueType) -> bool
    ensures { result ≡ fits_type from to }
{
    is_same(from, to) || converts(Way::Unwritten, from, to)
}
