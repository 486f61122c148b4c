ghost use Rattle.std.specs.Prelude.{◌≡◌, IfOk};
ghost use Rattle.qt_names.specs.Seen.{is_seen_inside};

use qt_outside::faults::OutOfMemory;
use qt_registers::register::Register;
use qt_tree::lengths::Lengths;
use qt_value::types::ValueType;
use std::alloc::Global;

/// The kinds of things that have names.
#[derive(Clone, Copy, Debug, PartialEq, Eq)]
pub enum What {
    Variable,
    Constant,
    Qubits,
    Alias,
    Gate,
    Subroutine,
    Parameter,
}

impl What {
    /// Whether the bodies of subroutines and gates see a global name of this kind.
    pub fn is_seen_inside(self) -> bool
        ensures { result ≡ is_seen_inside self }
    {
        match self {
            What::Constant | What::Gate | What::Subroutine => true,
            What::Variable | What::Qubits | What::Alias | What::Parameter => false,
        }
    }
}

/// Where what a name stands for is kept.
#[derive(Debug, Drop)]
pub enum Places {
    /// Nowhere: a constant is known by its value.
    Nowhere,
    /// The first slot of a variable, or the number of a gate, a subroutine or a parameter.
    Number { number: u32 },
    /// The qubits of a register or an alias, in order.
    Qubits { qubits: Register },
}

impl Places {
    /// The same places once more.
    pub fn copied(&self, alloc: Global) -> Result<Places, OutOfMemory>
        ensures { IfOk result (λ places. places ≡ self.now) }
    {
        match self {
            Places::Nowhere => Ok(Places::Nowhere),
            Places::Number { number } => Ok(Places::Number { number: *number }),
            Places::Qubits { qubits } => Ok(Places::Qubits {
                qubits: qubits.copied(alloc)?,
            }),
        }
    }
}

/// What a name stands for: its kind, its type where it has one, the lengths of an array or the numbers of a gate or subroutine, and its
/// places.
#[derive(Debug, Drop)]
pub struct Named {
    pub what: What,
    pub of: Option<ValueType>,
    pub lengths: Lengths,
    pub places: Places,
}

impl Named {
    /// The same once more.
    pub fn copied(&self, alloc: Global) -> Result<Named, OutOfMemory>
        ensures { IfOk result (λ named. named ≡ self.now) }
    {
        Ok(Named {
            what: self.what,
            of: self.of,
            lengths: self.lengths.copied(alloc)?,
            places: self.places.copied(alloc)?,
        })
    }
}
