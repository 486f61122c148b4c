//! Sizes of the registers of a call: a broadcast goes over registers of one size. OpenQASM 3.0, "Gates", broadcasting.

ghost use Rattle.std.specs.Prelude.{◌≡◌};
ghost use Rattle.qt_typing.specs.Checked.{Gives};
ghost use Rattle.qt_typing.specs.Gates.{same_size, size_of_all};

use crate::counts::count_fits;
use qt_tree::place::Place;
use qt_tree::refusal::TextRefusal;
use qt_typed::call::TypedQubits;

/// The size of the first register, where there is one.
pub fn size_of_all(mut operands: &[TypedQubits]) -> Option<u64>
    ensures { result ≡ size_of_all operands.entry.now }
{
    while let [operand, rest @ ..] = operands {
        if let TypedQubits::Register { qubits } = operand {
            return Some(qubits.size());
        }
        operands = rest;
    }
    None
}

/// That a register has the size of the first one: else E14.
pub fn same_size(place: Place, size: Option<u64>, of: &TypedQubits) -> Result<(), TextRefusal>
    ensures { Gives (same_size place size of.now) result }
{
    match (size, of) {
        (Some(wanted), TypedQubits::Register { qubits }) => {
            count_fits(place, wanted, qubits.size())
        }
        _ => Ok(()),
    }
}
