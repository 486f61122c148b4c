//! How code ends, and where its jumps go.

ghost use Rattle.std.specs.Prelude.{◌≡◌, Some};
ghost use Rattle.std.specs.Option.{option_copied};
ghost use Rattle.qt_code_rules.specs.Jumps.{ends_well, is_tick, jump_fits, jumps_fit, may_go};

use qt_instructions::instruction::Instr;
use sqlite_items::at;

/// The last instruction is an end or a jump.
pub fn ends_well(code: &[Instr]) -> bool
    ensures { result ≡ ends_well code.now }
{
    match code.last() {
        Some(instruction) => instruction.stops(),
        None => false,
    }
}

fn is_tick(instruction: Option<&Instr>) -> bool
    ensures { result ≡ is_tick (option_copied instruction.entry) }
{
    matches!(instruction, Some(Instr::Tick))
}

/// From the instruction with a number a jump may go there: ahead to any instruction, and else to a Tick.
fn may_go(code: &[Instr], from: usize, to: usize) -> bool
    ensures { result ≡ may_go code.now from (Some to) }
{
    if from < to {
        to < code.len()
    } else {
        is_tick(at(code, to))
    }
}

/// The instruction with that number is no jump, or goes where it may.
fn jump_fits(code: &[Instr], number: usize) -> bool
    ensures { result ≡ jump_fits code.now number }
{
    match at(code, number) {
        Some(instruction) => match instruction.target() {
            Some(to) => may_go(code, number, to as usize),
            None => true,
        },
        None => true,
    }
}

/// Each jump goes where it may.
pub fn jumps_fit(code: &[Instr]) -> bool
    ensures { result ≡ jumps_fit code.now }
{
    (0..code.len()).all(|number| jump_fits(code, number))
}
