//! Instructions up to the next gate or stop.

ghost use Rattle.std.specs.Prelude.{◌≡◌, ◌<◌, length};
ghost use Rattle.qt_code.specs.Validity.{sizes_of};
ghost use Rattle.qt_machine.specs.Writes.{held};
ghost use Rattle.qt_ring.specs.State.{State};
ghost use Rattle.qt_stops.specs.Halts.{IsHalt, IsOnward, Leads, measure, moment};
ghost use Rattle.qt_stops.specs.Stops.{Step};

use crate::step::{Halt, Stand, Way, step};
use qt_code::code::Code;
use qt_code_rules::sizes::Sizes;

/// How many slots, work cells and qubits the code has.
pub fn sizes_of(code: &Code) -> Sizes
    ensures { result ≡ sizes_of code.now }
{
    Sizes {
        slots: code.slots(),
        cells: code.cells(),
        qubits: code.qubits(),
    }
}

/// Follows the instructions from the one with that number on, with so much fuel, until a gate or a stop. The cells and slots are those that are
/// left then.
pub fn go(code: &Code, mut at: u32, mut fuel: u32, cells: &mut [u64], slots: &mut [u64]) -> Halt
    requires inside { at < length code.now.instructions }
    requires cells { length cells.old ≡ code.now.cells }
    requires slots { length slots.old ≡ code.now.slots }
    ensures halt { (state : State) → (s : Step) × (IsHalt code.now.qubits s result (held cells.new) slots.new state
        × Leads code.now at (held cells.old) (moment slots.old state fuel) s) }
    ensures onward { IsOnward code.now (measure code.now at fuel) result }
    ensures cell_count { length cells.new ≡ length cells.old }
    ensures slot_count { length slots.new ≡ length slots.old }
{
    let sizes = sizes_of(code);
    let parts = code.parts();
    let instructions = parts.instructions.items();
    let places = parts.places.items();
    'way: loop {
        let instruction = &instructions[at as usize];
        let place = places[at as usize];
        match step(sizes, Stand { at, place, fuel }, instruction, cells, slots) {
            Way::On {
                at: next,
                fuel: left,
            } => {
                at = next;
                fuel = left;
            }
            Way::Halt { halt } => return halt,
        }
    }
}
