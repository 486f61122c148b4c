//! Scalar variables and elements of arrays.

ghost use Rattle.std.specs.Prelude.{◌≡◌, ◌∷◌, [], IfOk, OnOk};
ghost use Rattle.qt_meaning.specs.Places.{kind_of};
ghost use Rattle.qt_flat_code.specs.Lengths.{variable_length};
ghost use Rattle.qt_flat_code.specs.Storing.{get, put, variable_code};
ghost use Rattle.qt_emit_expressions.specs.Adds.{Adds};
ghost use Rattle.qt_emit_storing.specs.Writes.{Writes};

use qt_emit_expressions::expressions::element_place;
use qt_emit_expressions::numbers::{element_count, put as put_one, sum};
use qt_emit_expressions::places::place_in;
use qt_instructions::instruction::Instr;
use qt_typed::expression::TypedVariable;
use qt_value::types::ValueType;
use sqlite_items::Items;
use std::alloc::AllocError;

/// The type of the variable, or of the element.
pub fn kind_of(variable: &TypedVariable) -> ValueType
    ensures { result ≡ kind_of variable.now }
{
    match variable {
        TypedVariable::Slot { kind, .. } => *kind,
        TypedVariable::Element { kind, .. } => *kind,
    }
}

/// With the place of an element in a cell, the variable's value goes to a cell.
pub fn got(
    out: &mut Items<Instr>,
    variable: &TypedVariable,
    base: u32,
    place: u32,
    cell: u32,
) -> Result<(), AllocError>
    ensures { OnOk result (Adds out.old out.new (get variable.now base place cell ∷ [])) }
{
    match variable {
        TypedVariable::Slot { slot, .. } => {
            let slot = sum(base, *slot)?;
            put_one(out, Instr::Get { cell, slot })
        }
        TypedVariable::Element { slot, lengths, .. } => {
            let first = sum(base, *slot)?;
            let count = element_count(lengths.items())?;
            let index = place_in(place);
            put_one(
                out,
                Instr::GetAt {
                    cell,
                    first,
                    count,
                    index,
                },
            )
        }
    }
}

/// With the place of an element in a cell, a cell goes to the variable.
pub fn stored(
    out: &mut Items<Instr>,
    variable: &TypedVariable,
    base: u32,
    place: u32,
    cell: u32,
) -> Result<(), AllocError>
    ensures { OnOk result (Adds out.old out.new (put variable.now base place cell ∷ [])) }
{
    match variable {
        TypedVariable::Slot { slot, .. } => {
            let slot = sum(base, *slot)?;
            put_one(out, Instr::Put { slot, cell })
        }
        TypedVariable::Element { slot, lengths, .. } => {
            let first = sum(base, *slot)?;
            let count = element_count(lengths.items())?;
            let index = place_in(place);
            put_one(
                out,
                Instr::PutAt {
                    first,
                    count,
                    index,
                    cell,
                },
            )
        }
    }
}

/// The place of an element comes to the cell; a scalar variable has none. What is answered is where the next instruction stands.
pub fn placed(
    out: &mut Items<Instr>,
    variable: &TypedVariable,
    base: u32,
    cell: u32,
    at: u32,
) -> Result<u32, AllocError>
    ensures { IfOk result (Writes (variable_code variable.now base cell at) (variable_length variable.now) at out.old out.new) }
{
    match variable {
        TypedVariable::Slot { .. } => Ok(at),
        TypedVariable::Element {
            slot,
            lengths,
            indexes,
            ..
        } => {
            let first = sum(base, *slot)?;
            element_place(
                out,
                lengths.items(),
                first,
                indexes.as_slice(),
                base,
                cell,
                at,
            )
        }
    }
}
