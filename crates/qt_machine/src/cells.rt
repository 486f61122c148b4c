//! Values in work cells.

ghost use Rattle.std.specs.Prelude.{◌≡◌, ◌%◌, ◌^◌, ◌<◌, ◌≤◌, IsTrue, unsigned_abs};
ghost use Rattle.qt_code.specs.Cells.{number_in};
ghost use Rattle.qt_meaning.specs.Values.{datum, slot_at};
ghost use Rattle.qt_value.specs.Types.{has_size};
ghost use Rattle.qt_machine.specs.Writes.{held};

use qt_instructions::instruction::Operand;
use qt_value::types::ValueType;
use qt_value::value::Value;

/// What a cell or slot holds, and 0 behind the last one.
#[tactic(auto, using(crate::proofs::Lists::cell_found))]
pub fn held(cells: &[u64], cell: u32) -> u64
    ensures { result ≡ slot_at cells.now cell }
{
    cells.get(cell as usize).copied().unwrap_or(0)
}

/// So many of the lowest bits.
pub fn lowest(bits: u64, width: u8) -> u64
    requires { width ≤ 64 }
    ensures { result ≡ bits % 2 ^ width }
{
    if width == 64 {
        bits
    } else {
        bits % (1u64 << width)
    }
}

/// The value of a type that bits are read as.
pub fn value(kind: ValueType, bits: u64) -> Value
    requires { IsTrue (has_size kind) }
    ensures { result ≡ datum kind bits }
{
    Value::new(kind, lowest(bits, kind.width())).unwrap()
}

/// The value in a cell.
pub fn value_in(operand: Operand, cells: &[u64]) -> Value
    requires { IsTrue (has_size operand.kind) }
    ensures { result ≡ datum operand.kind (slot_at cells.now operand.cell) }
{
    value(operand.kind, held(cells, operand.cell))
}

/// The number that the value in a cell stands for.
#[tactic(auto, unfolding(qt_meaning::specs::Values::number_of))]
pub fn number_in(operand: Operand, cells: &[u64]) -> i128
    requires { IsTrue (has_size operand.kind) }
    ensures value { result ≡ number_in operand (held cells.now) }
    ensures small { unsigned_abs result < 2 ^ 64 }
{
    value_in(operand, cells).number()
}
