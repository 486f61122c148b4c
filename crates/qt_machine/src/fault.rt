//! On what an instruction stumbles.

ghost use Rattle.std.specs.Prelude.{◌≡◌};
ghost use Rattle.qt_meaning.specs.Values.{as_fault};
ghost use Rattle.qt_machine.specs.Faults.{fault_of};

use qt_value::fault::ValueFault;

/// What an instruction may stumble on.
#[derive(Clone, Copy, Debug, PartialEq, Eq)]
pub enum InstrFault {
    /// An operator's divisor is 0 or negative where it may not be, or an exponent is negative.
    Divide,
    /// An index is outside its length, or a cell doesn't hold a qubit or a place.
    Index,
    /// A range has the step 0.
    Step,
    /// A phase passes the bound of phases, a division of it leaves a rest, or an angle is no multiple of π/4.
    Angle,
    /// Two qubits of a gate are one.
    SameQubit,
}

/// The fault of an instruction on values.
pub fn instr_fault(fault: ValueFault) -> InstrFault
    ensures { fault_of result ≡ as_fault fault }
{
    match fault {
        ValueFault::Divide => InstrFault::Divide,
        ValueFault::Index => InstrFault::Index,
        ValueFault::Step => InstrFault::Step,
    }
}
