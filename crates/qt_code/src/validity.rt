//! Whether parts are valid code.

ghost use Rattle.std.specs.Prelude.{◌≡◌, ◌&&◌};
ghost use Rattle.qt_code_rules.specs.Counts.{has_counts, has_few_cells, has_few_qubits};
ghost use Rattle.qt_code.specs.Validity.{has_end, has_fixed_qubits, has_jumps, has_ranges, has_tests, has_told, is_valid, sizes_of};

use crate::different::have_different_qubits;
use crate::layout::has_layout;
use crate::ranges::has_instructions;
use crate::tested::all_tested;
use qt_code_rules::counts::{has_counts, has_few_cells, has_few_qubits};
use qt_code_rules::jumps::{ends_well, jumps_fit};
use qt_code_rules::sizes::Sizes;
use qt_instructions::parts::Parts;

fn sizes_of(parts: &Parts) -> Sizes
    ensures { result ≡ sizes_of parts.now }
{
    Sizes {
        slots: parts.slots,
        cells: parts.cells,
        qubits: parts.qubits,
    }
}

/// The rules on how many there are of each.
fn has_numbers(parts: &Parts) -> bool
    ensures { result ≡ (has_few_qubits parts.now && has_counts parts.now && has_few_cells parts.now) }
{
    has_few_qubits(parts) && has_counts(parts) && has_few_cells(parts)
}

/// The rules on its end, its jumps, and what its instructions name.
fn has_ways(parts: &Parts) -> bool
    ensures { result ≡ (has_end parts.now && has_jumps parts.now && has_ranges parts.now) }
{
    let code = parts.instructions.items();
    ends_well(code) && jumps_fit(code) && has_instructions(sizes_of(parts), code)
}

/// The rules on the qubits of primitives, and on what is told.
fn has_qubits_and_layout(parts: &Parts) -> bool
    ensures { result ≡ (has_fixed_qubits parts.now && has_tests parts.now && has_told parts.now) }
{
    let code = parts.instructions.items();
    have_different_qubits(code)
        && all_tested(code)
        && has_layout(sizes_of(parts), parts.layout.items())
}

/// All nine rules hold.
pub fn is_valid(parts: &Parts) -> bool
    ensures { result ≡ is_valid parts.now }
{
    has_numbers(parts) && has_ways(parts) && has_qubits_and_layout(parts)
}
