//! One instruction.

ghost use Rattle.std.specs.Prelude.{◌≡◌, ◌+◌, ◌<◌, ◌≤◌, ◌^◌, ℕ, List, length, IsTrue, Ok, IfOk};
ghost use Rattle.qt_code.specs.Cells.{bit_place, place_of_store, primitive_by, qubit_of};
ghost use Rattle.qt_code.specs.Ranges.{has_instruction, has_primitive};
ghost use Rattle.qt_code_rules.specs.Sizes.{has_reference};
ghost use Rattle.qt_machine.specs.Faults.{meant};
ghost use Rattle.qt_machine.specs.Writes.{held, write_by};
ghost use Rattle.qt_meaning.specs.Values.{and_then, is_true};
ghost use Rattle.qt_ring.specs.State.{State};
ghost use Rattle.qt_ring.specs.declared.TheConstants.{QUBITS};
ghost use Rattle.qt_stops.specs.Halts.{IsBehind, IsHalt, IsWay, IsWayBehind, moment};
ghost use Rattle.qt_stops.specs.Stops.{after, gate_step, instruction_step, write_step, Measures, Resets, Stops};

use qt_code_rules::sizes::Sizes;
use qt_instructions::instruction::{Instr, Store};
use qt_instructions::primitive::Primitive;
use qt_instructions::reference::QubitRef;
use qt_kernel::primitive::FixedPrim;
use qt_machine::cells::held;
use qt_machine::fault::InstrFault;
use qt_machine::qubits::qubit;
use qt_machine::write::write_of;
use qt_resolved_gates::resolve::resolve;
use qt_tree::place::Place;

/// A gate or a stop: what the run comes to next. `at` is the number of the instruction behind it, and `place` its place in the text.
#[derive(Clone, Copy)]
pub enum Halt {
    /// The end of the program.
    End {
        fuel: u32,
    },
    /// An instruction stumbled.
    Fault {
        fault: InstrFault,
        place: Place,
    },
    /// A unit of fuel is to be spent, and none is left.
    Dry,
    /// A primitive on the state.
    Gate {
        at: u32,
        place: Place,
        prim: FixedPrim,
        fuel: u32,
    },
    /// A measurement, whose outcome goes to the bit with the number `bit`.
    Measure {
        at: u32,
        place: Place,
        qubit: u8,
        store: Store,
        bit: u8,
        fuel: u32,
    },
    /// A reset.
    Reset {
        at: u32,
        place: Place,
        qubit: u8,
        fuel: u32,
    },
}

/// Where the run goes on, or what it came to.
#[derive(Clone, Copy)]
pub enum Way {
    On { at: u32, fuel: u32 },
    Halt { halt: Halt },
}

/// Where the run stands: the number of the instruction, its place, and the fuel that is left.
#[derive(Clone, Copy)]
pub struct Stand {
    pub at: u32,
    pub place: Place,
    pub fuel: u32,
}

/// Whether a cell holds true.
#[tactic(auto, unfolding(qt_meaning::specs::Values::is_true))]
fn is_true(bits: u64) -> bool
    ensures { result ≡ is_true bits }
{
    bits % 2 == 1
}

/// The place of a bit of 64.
fn bit_place(place: u64) -> Result<u8, InstrFault>
    ensures value { meant result ≡ bit_place place }
    ensures below { IfOk result (λ bit. bit < 64) }
{
    if place < 64 {
        Ok(place as u8)
    } else {
        Err(InstrFault::Index)
    }
}

/// The place of the bit that an outcome goes to.
fn store_place(store: Store, cells: &[u64]) -> Result<u8, InstrFault>
    ensures value { meant result ≡ place_of_store store (held cells.now) }
    ensures below { IfOk result (λ bit. bit < 64) }
{
    match store {
        Store::Nowhere => Ok(0),
        Store::Bit { place, .. } => bit_place(u64::from(place)),
        Store::BitAt { cell, .. } => bit_place(held(cells, cell)),
    }
}

/// What a gate is in the run.
fn gate(sizes: Sizes, stand: Stand, primitive: &Primitive, cells: &[u64]) -> Halt
    requires few { sizes.qubits ≤ QUBITS }
    requires there { IsTrue (has_primitive sizes primitive.now) }
    requires next { stand.at + 1 < 2 ^ 32 }
    ensures halt { (slots : List ℕ) (state : State) → IsHalt sizes.qubits (after (primitive_by sizes.qubits primitive.now (held cells.now)) stand.place
        (gate_step stand.at stand.place (held cells.now) (moment slots state stand.fuel))) result (held cells.now) slots state }
    ensures behind { IsBehind stand.at stand.fuel result }
{
    match resolve(sizes, primitive, cells) {
        Ok(prim) => Halt::Gate {
            at: stand.at + 1,
            place: stand.place,
            prim,
            fuel: stand.fuel,
        },
        Err(fault) => Halt::Fault {
            fault,
            place: stand.place,
        },
    }
}

/// The qubit of a measurement, and the place of the bit that its outcome goes to.
fn measured(
    sizes: Sizes,
    reference: QubitRef,
    store: Store,
    cells: &[u64],
) -> Result<(u8, u8), InstrFault>
    requires few { sizes.qubits ≤ QUBITS }
    requires there { IsTrue (has_reference sizes reference) }
    ensures value { meant result ≡ and_then (qubit_of sizes.qubits reference (held cells.now)) (λ q. and_then (place_of_store store (held cells.now)) (λ bit. Ok (q, bit))) }
    ensures inside { IfOk result (λ found. (found.0 < sizes.qubits) × (found.1 < 64)) }
{
    let qubit = qubit(sizes, reference, cells)?;
    let bit = store_place(store, cells)?;
    Ok((qubit, bit))
}

/// What a measurement is in the run.
fn measure(sizes: Sizes, stand: Stand, reference: QubitRef, store: Store, cells: &[u64]) -> Halt
    requires few { sizes.qubits ≤ QUBITS }
    requires there { IsTrue (has_reference sizes reference) }
    requires next { stand.at + 1 < 2 ^ 32 }
    ensures halt { (slots : List ℕ) (state : State) → IsHalt sizes.qubits (after (qubit_of sizes.qubits reference (held cells.now)) stand.place
        (λ q. after (place_of_store store (held cells.now)) stand.place
        (λ bit. Stops (Measures (stand.at + 1) stand.place q store bit (moment slots state stand.fuel))))) result (held cells.now) slots state }
    ensures behind { IsBehind stand.at stand.fuel result }
{
    match measured(sizes, reference, store, cells) {
        Ok((qubit, bit)) => Halt::Measure {
            at: stand.at + 1,
            place: stand.place,
            qubit,
            store,
            bit,
            fuel: stand.fuel,
        },
        Err(fault) => Halt::Fault {
            fault,
            place: stand.place,
        },
    }
}

/// What a reset is in the run.
fn reset(sizes: Sizes, stand: Stand, reference: QubitRef, cells: &[u64]) -> Halt
    requires few { sizes.qubits ≤ QUBITS }
    requires there { IsTrue (has_reference sizes reference) }
    requires next { stand.at + 1 < 2 ^ 32 }
    ensures halt { (slots : List ℕ) (state : State) → IsHalt sizes.qubits (after (qubit_of sizes.qubits reference (held cells.now)) stand.place
        (λ q. Stops (Resets (stand.at + 1) stand.place q (moment slots state stand.fuel)))) result (held cells.now) slots state }
    ensures behind { IsBehind stand.at stand.fuel result }
{
    match qubit(sizes, reference, cells) {
        Ok(qubit) => Halt::Reset {
            at: stand.at + 1,
            place: stand.place,
            qubit,
            fuel: stand.fuel,
        },
        Err(fault) => Halt::Fault {
            fault,
            place: stand.place,
        },
    }
}

/// Does an instruction that writes a cell or a slot.
fn write(
    sizes: Sizes,
    stand: Stand,
    instruction: &Instr,
    cells: &mut [u64],
    slots: &mut [u64],
) -> Way
    requires few { sizes.qubits ≤ QUBITS }
    requires there { IsTrue (has_instruction sizes instruction.now) }
    requires cells { length cells.old ≡ sizes.cells }
    requires slots { length slots.old ≡ sizes.slots }
    requires next { stand.at + 1 < 2 ^ 32 }
    ensures way { (state : State) → IsWay sizes.qubits (after (write_by sizes.qubits instruction.now (held cells.old) slots.old) stand.place
        (write_step stand.at (held cells.old) (moment slots.old state stand.fuel))) result (held cells.new) slots.new state }
    ensures behind { IsWayBehind stand.at stand.fuel instruction.now result }
    ensures cell_count { length cells.new ≡ length cells.old }
    ensures slot_count { length slots.new ≡ length slots.old }
{
    match write_of(sizes, instruction, cells, slots) {
        Ok(write) => {
            write.put(cells, slots);
            Way::On {
                at: stand.at + 1,
                fuel: stand.fuel,
            }
        }
        Err(fault) => Way::Halt {
            halt: Halt::Fault {
                fault,
                place: stand.place,
            },
        },
    }
}

/// Does one instruction on values, or says what gate or stop it is.
pub fn step(
    sizes: Sizes,
    stand: Stand,
    instruction: &Instr,
    cells: &mut [u64],
    slots: &mut [u64],
) -> Way
    requires few { sizes.qubits ≤ QUBITS }
    requires there { IsTrue (has_instruction sizes instruction.now) }
    requires cells { length cells.old ≡ sizes.cells }
    requires slots { length slots.old ≡ sizes.slots }
    requires next { stand.at + 1 < 2 ^ 32 }
    ensures way { (state : State) → IsWay sizes.qubits (instruction_step sizes.qubits stand.at instruction.now stand.place (held cells.old) (moment slots.old state stand.fuel)) result (held cells.new) slots.new state }
    ensures behind { IsWayBehind stand.at stand.fuel instruction.now result }
    ensures cell_count { length cells.new ≡ length cells.old }
    ensures slot_count { length slots.new ≡ length slots.old }
{
    let Stand { at, fuel, .. } = stand;
    match instruction {
        Instr::Tick if fuel == 0 => Way::Halt { halt: Halt::Dry },
        Instr::Tick => Way::On {
            at: at + 1,
            fuel: fuel - 1,
        },
        Instr::Gate { primitive } => Way::Halt {
            halt: gate(sizes, stand, primitive, cells),
        },
        Instr::Measure { qubit, store } => Way::Halt {
            halt: measure(sizes, stand, *qubit, *store, cells),
        },
        Instr::Reset { qubit } => Way::Halt {
            halt: reset(sizes, stand, *qubit, cells),
        },
        Instr::Jump { to } => Way::On { at: *to, fuel },
        Instr::JumpIf { condition, to } if is_true(held(cells, *condition)) => {
            Way::On { at: *to, fuel }
        }
        Instr::JumpIf { .. } => Way::On { at: at + 1, fuel },
        Instr::End => Way::Halt {
            halt: Halt::End { fuel },
        },
        _ => write(sizes, stand, instruction, cells, slots),
    }
}
