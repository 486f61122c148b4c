//! That slots, work cells and qubits are the code's.

ghost use Rattle.std.specs.Prelude.{◌≡◌};
ghost use Rattle.std.specs.List.{list_all};

use qt_instructions::angle::{AngleArg, AngleStep};
use qt_instructions::instruction::{Operand, Store};
use qt_instructions::reference::{AngleRef, QubitRef};

/// How many slots, work cells and qubits code has.
#[derive(Clone, Copy)]
pub struct Sizes {
    pub slots: u32,
    pub cells: u32,
    pub qubits: u32,
}

impl Sizes {
    ghost use Rattle.qt_code_rules.specs.Sizes.{has_slot, has_slots, has_cell, has_qubit, has_reference, has_angle};
    ghost use Rattle.qt_code_rules.specs.Sizes.{has_operand, has_argument, has_step, has_store};

    /// A slot of that number.
    pub fn has_slot(self, slot: u32) -> bool
        ensures { result ≡ has_slot self slot }
    {
        slot < self.slots
    }

    /// So many slots from the first on.
    pub fn has_slots(self, first: u32, count: u32) -> bool
        ensures { result ≡ has_slots self first count }
    {
        u64::from(first) + u64::from(count) <= u64::from(self.slots)
    }

    /// A work cell of that number.
    pub fn has_cell(self, cell: u32) -> bool
        ensures { result ≡ has_cell self cell }
    {
        cell < self.cells
    }

    /// A qubit of that number.
    pub fn has_qubit(self, qubit: u8) -> bool
        ensures { result ≡ has_qubit self qubit }
    {
        u32::from(qubit) < self.qubits
    }

    /// Each of these qubits.
    pub fn has_qubits(self, qubits: &[u8]) -> bool
        ensures { result ≡ list_all (has_qubit self) qubits.now }
    {
        qubits.iter().all(|qubit| self.has_qubit(*qubit))
    }

    /// The qubit, or the work cell that names it.
    pub fn has_reference(self, reference: QubitRef) -> bool
        ensures { result ≡ has_reference self reference }
    {
        match reference {
            QubitRef::At(qubit) => self.has_qubit(qubit),
            QubitRef::Work(cell) => self.has_cell(cell),
        }
    }

    /// Each of these, or the work cell that names it.
    pub fn has_references(self, references: &[QubitRef]) -> bool
        ensures { result ≡ list_all (has_reference self) references.now }
    {
        references
            .iter()
            .all(|reference| self.has_reference(*reference))
    }

    /// The work cell of an angle, where it is in one.
    pub fn has_angle(self, angle: AngleRef) -> bool
        ensures { result ≡ has_angle self angle }
    {
        match angle {
            AngleRef::Eighth(_) => true,
            AngleRef::Work(cell, _) => self.has_cell(cell),
        }
    }

    /// The work cell of a value, whose type has a size.
    pub fn has_operand(self, operand: Operand) -> bool
        ensures { result ≡ has_operand self operand }
    {
        self.has_cell(operand.cell) && operand.kind.has_size()
    }

    /// The work cell of a phase, where it is in one.
    pub fn has_argument(self, argument: AngleArg) -> bool
        ensures { result ≡ has_argument self argument }
    {
        match argument {
            AngleArg::Units(_) => true,
            AngleArg::Work(cell) => self.has_cell(cell),
        }
    }

    /// The work cells of both phases, or of the one.
    pub fn has_step(self, step: AngleStep) -> bool
        ensures { result ≡ has_step self step }
    {
        match step {
            AngleStep::Add(left, right) => self.has_argument(left) && self.has_argument(right),
            AngleStep::Sub(left, right) => self.has_argument(left) && self.has_argument(right),
            AngleStep::Neg(of) => self.has_argument(of),
            AngleStep::Times(of, _) => self.has_argument(of),
            AngleStep::Over(of, _) => self.has_argument(of),
        }
    }

    /// The slot of an outcome, and the work cell of its place where it is in one.
    pub fn has_store(self, store: Store) -> bool
        ensures { result ≡ has_store self store }
    {
        match store {
            Store::Nowhere => true,
            Store::Bit { slot, .. } => self.has_slot(slot),
            Store::BitAt { slot, cell } => self.has_slot(slot) && self.has_cell(cell),
        }
    }
}
