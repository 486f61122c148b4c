//! Numbers of cells, slots and instructions. One of more than 32 bits is more than memory holds.

ghost use Rattle.std.specs.Prelude.{◌≡◌, ◌+◌, ◌∷◌, [], suc, IfOk, OnOk};
ghost use Rattle.qt_meaning.specs.Distribution.{element_count};
ghost use Rattle.qt_emit_expressions.specs.Adds.{Adds};

use qt_instructions::instruction::Instr;
use sqlite_items::Items;
use std::alloc::AllocError;

/// The sum.
pub fn sum(left: u32, right: u32) -> Result<u32, AllocError>
    ensures { IfOk result (λ n. n ≡ left + right) }
{
    left.checked_add(right).ok_or(AllocError)
}

/// The next number.
pub fn after(number: u32) -> Result<u32, AllocError>
    ensures { IfOk result (λ n. n ≡ suc number) }
{
    number.checked_add(1).ok_or(AllocError)
}

/// The number of elements of an array of those lengths.
pub fn element_count(lengths: &[u32]) -> Result<u32, AllocError>
    ensures { IfOk result (λ n. n ≡ element_count lengths.now) }
{
    match lengths {
        [] => Ok(1),
        [length, rest @ ..] => {
            let count = element_count(rest)?;
            length.checked_mul(count).ok_or(AllocError)
        }
    }
}

/// One more instruction.
pub fn put(out: &mut Items<Instr>, instr: Instr) -> Result<(), AllocError>
    ensures { OnOk result (Adds out.old out.new (instr ∷ [])) }
{
    out.push(instr)?;
    Ok(())
}

/// One more instruction at a place; the place behind it.
pub fn put_at(out: &mut Items<Instr>, at: u32, instr: Instr) -> Result<u32, AllocError>
    ensures added { OnOk result (Adds out.old out.new (instr ∷ [])) }
    ensures behind { IfOk result (λ behind. behind ≡ suc at) }
{
    out.push(instr)?;
    after(at)
}
