//! How many there may be of what code has.

ghost use Rattle.std.specs.Prelude.{◌≡◌};
ghost use Rattle.qt_code_rules.specs.Counts.{has_counts, has_few_cells, has_few_qubits};

use qt_instructions::parts::Parts;
use qt_ring::QUBITS;

/// The most work cells that code may have.
const CELLS: u32 = 16_777_216;

/// It has as many qubits as a state may have at the most.
pub fn has_few_qubits(parts: &Parts) -> bool
    ensures { result ≡ has_few_qubits parts.now }
{
    parts.qubits <= QUBITS
}

/// It has fewer than 2^32 instructions, each with a place in the text, and a value for each slot.
pub fn has_counts(parts: &Parts) -> bool
    ensures { result ≡ has_counts parts.now }
{
    let instructions = parts.instructions.items().len();
    instructions < 1 << 32
        && parts.places.items().len() == instructions
        && parts.start.items().len() == parts.slots as usize
}

/// It has as many work cells as any program of an accepted size needs, at the most.
pub fn has_few_cells(parts: &Parts) -> bool
    ensures { result ≡ has_few_cells parts.now }
{
    parts.cells <= CELLS
}
