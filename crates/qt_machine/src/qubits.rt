//! References to qubits in work cells.

ghost use Rattle.std.specs.Prelude.{◌≡◌, ◌<◌, ◌≤◌, ◌^◌, IsTrue, Ok, IfOk};
ghost use Rattle.std.specs.List.{list_all};
ghost use Rattle.qt_code.specs.Cells.{different_by, qubit_by, qubit_of, qubits_of};
ghost use Rattle.qt_code_rules.specs.Sizes.{has_reference};
ghost use Rattle.qt_meaning.specs.Values.{and_then};
ghost use Rattle.qt_ring.specs.declared.TheConstants.{QUBITS};
ghost use Rattle.qt_value.specs.Types.{has_size};
ghost use Rattle.qt_machine.specs.Faults.{meant};
ghost use Rattle.qt_machine.specs.Named.{with_qubit, with_qubits};
ghost use Rattle.qt_machine.specs.Writes.{held};

use crate::cells::held;
use crate::fault::InstrFault;
use crate::operators::place;
use qt_code_rules::sizes::Sizes;
use qt_instructions::instruction::Operand;
use qt_instructions::reference::QubitRef;

/// The number of the qubit that an index gives among some qubits.
#[tactic(auto, using(crate::proofs::Lists::number_found))]
pub fn indexed(qubits: &[u8], index: Operand, cells: &[u64]) -> Result<u8, InstrFault>
    requires { IsTrue (has_size index.kind) }
    ensures { meant result ≡ qubit_by qubits.now index (held cells.now) }
{
    match place(qubits.len(), index, cells) {
        Ok(place) => Ok(qubits[place]),
        Err(fault) => Err(fault),
    }
}

/// The number of the qubit that a reference names.
pub fn qubit(sizes: Sizes, reference: QubitRef, cells: &[u64]) -> Result<u8, InstrFault>
    requires few { sizes.qubits ≤ QUBITS }
    requires there { IsTrue (has_reference sizes reference) }
    ensures value { meant result ≡ qubit_of sizes.qubits reference (held cells.now) }
    ensures below { IfOk result (λ q. q < sizes.qubits) }
{
    match reference {
        QubitRef::At(qubit) => Ok(qubit),
        QubitRef::Work(cell) => {
            let number = held(cells, cell);
            if number < u64::from(sizes.qubits) {
                Ok(number as u8)
            } else {
                Err(InstrFault::Index)
            }
        }
    }
}

/// Qubits that were named: bit j of the mask is 1 where qubit j was, and the flag says that some qubit was named twice.
#[derive(Clone, Copy, Debug, PartialEq, Eq)]
pub struct Named {
    pub mask: u32,
    pub twice: bool,
}

impl Named {
    /// One more qubit.
    pub fn with(self, qubit: u8) -> Named
        requires { qubit < 32 }
        ensures { result ≡ with_qubit qubit self }
    {
        Named {
            mask: self.mask | 1 << qubit,
            twice: self.twice || self.mask >> qubit & 1 == 1,
        }
    }

    /// The qubits that some references name, after those of before.
    pub fn with_all(
        self,
        sizes: Sizes,
        mut references: &[QubitRef],
        cells: &[u64],
    ) -> Result<Named, InstrFault>
        requires few { sizes.qubits ≤ QUBITS }
        requires there { IsTrue (list_all (has_reference sizes) references.now) }
        ensures { meant result ≡ and_then (qubits_of sizes.qubits references.entry.now (held cells.now)) (λ qs. Ok (with_qubits qs self)) }
    {
        let mut named = self;
        'references: while let [first, rest @ ..] = references {
            named = named.with(qubit(sizes, *first, cells)?);
            references = rest;
        }
        Ok(named)
    }
}

/// Tests that references name different qubits.
#[tactic(auto, using(crate::proofs::Sets::twice_named))]
pub fn differ(sizes: Sizes, references: &[QubitRef], cells: &[u64]) -> Result<(), InstrFault>
    requires few { sizes.qubits ≤ QUBITS }
    requires there { IsTrue (list_all (has_reference sizes) references.now) }
    ensures { meant result ≡ and_then (different_by sizes.qubits references.now (held cells.now)) (λ qs. Ok tt) }
{
    let none = Named {
        mask: 0,
        twice: false,
    };
    if none.with_all(sizes, references, cells)?.twice {
        Err(InstrFault::SameQubit)
    } else {
        Ok(())
    }
}
