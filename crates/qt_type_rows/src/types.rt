ghost use Rattle.std.specs.Prelude.{◌≡◌, IsTrue, MatchOption};
ghost use Rattle.qt_type_rows.specs.TypeWords.{IsNoType, IsWritten};

use qt_rows::row::Row;
use qt_value::types::ValueType;

/// The type of this name and width.
pub fn type_named(name: &str, width: u8) -> Option<ValueType>
    ensures { MatchOption result (IsNoType name.now width) (λ kind. IsWritten kind name.now width) }
{
    match name {
        "bool" if width == 1 => Some(ValueType::Bool),
        "bit" => Some(ValueType::Bit(width)),
        "int" => Some(ValueType::Int(width)),
        "uint" => Some(ValueType::Uint(width)),
        "angle" => Some(ValueType::Angle(width)),
        _ => None,
    }
}

/// `TYPE WIDTH`. A row that names no type is refused, and gives a bool.
pub fn type_in(row: &mut Row<'_>) -> ValueType
    ensures kept { IsTrue row.old.refused → IsTrue row.new.refused }
{
    let (name, width) = (row.word(), row.u8());
    match type_named(name, width) {
        Some(kind) => kind,
        None => {
            row.refuse();
            ValueType::Bool
        }
    }
}
