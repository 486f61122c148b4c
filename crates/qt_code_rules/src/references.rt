//! Which references count as tested.

ghost use Rattle.std.specs.Prelude.{◌≡◌};
ghost use Rattle.std.specs.List.{list_all, list_any};
ghost use Rattle.qt_code_rules.specs.References.{is_cell, is_tested};

use qt_instructions::reference::QubitRef;

/// It is in that work cell.
fn is_cell(cell: u32, reference: QubitRef) -> bool
    ensures { result ≡ is_cell cell reference }
{
    match reference {
        QubitRef::At(_) => false,
        QubitRef::Work(other) => cell == other,
    }
}

fn is_cell_in(cell: u32, tested: &[QubitRef]) -> bool
    ensures { result ≡ list_any (is_cell cell) tested.now }
{
    tested.iter().any(|other| is_cell(cell, *other))
}

/// It is a fixed qubit, or one of those that were tested.
pub fn is_tested(tested: &[QubitRef], reference: QubitRef) -> bool
    ensures { result ≡ is_tested tested.now reference }
{
    match reference {
        QubitRef::At(_) => true,
        QubitRef::Work(cell) => is_cell_in(cell, tested),
    }
}

/// Each is a fixed qubit, or one of those that were tested.
pub fn are_tested(tested: &[QubitRef], references: &[QubitRef]) -> bool
    ensures { result ≡ list_all (is_tested tested.now) references.now }
{
    references
        .iter()
        .all(|reference| is_tested(tested, *reference))
}
