//! References to qubits and angles.

ghost use Rattle.std.specs.Prelude.{◌≡◌, nat_eq};
ghost use Rattle.std.specs.Cmp.{partial_equiv_from_equiv};
ghost use Rattle.std.specs.Cmp.Lexicographic.{lists_equiv, nat_list_eq_equiv, pointwise};
ghost use Rattle.qt_instructions.specs.contracts.reference.QubitRefEq.TheImpl.Laws as references;
ghost use Rattle.qt_instructions.specs.contracts.reference.QubitRefPartialEq.TheImpl as reference;

use std::marker::Model;

/// A qubit: by its number, or by the work cell that holds its number.
#[derive(Clone, Copy, PartialEq, Eq)]
pub enum QubitRef {
    At(u8),
    Work(u32),
}

/// An angle of a primitive: a number of π/4, or the phase that a work cell holds; the flag says negated.
#[derive(Clone, Copy, PartialEq, Eq)]
pub enum AngleRef {
    Eighth(u8),
    Work(u32, bool),
}

/// A list of references to qubits.
#[derive(Drop)]
pub struct Refs {
    references: Vec<QubitRef>,
}

impl Model for Refs {
    ghost use Rattle.std.specs.Prelude.{List};
    ghost use Rattle.qt_instructions.specs.declared.reference.QubitRef.{QubitRef};

    ghost Value = { List QubitRef };

    ghost view = { λ refs. refs.references.items };
}

impl PartialEq for Refs {
    ghost eq = { pointwise (reference.ghosts).eq };

    ghost laws = { partial_equiv_from_equiv (lists_equiv references.laws-law) };

    fn eq(&self, other: &Refs) -> bool {
        self.references == other.references
    }
}

impl Eq for Refs {
    ghost laws = { lists_equiv references.laws-law };
}

impl Refs {
    /// Takes the list over.
    pub fn from_vec(references: Vec<QubitRef>) -> Refs
        ensures { result ≡ references.items }
    {
        Refs { references }
    }

    /// The references, in order.
    pub fn items(&self) -> &[QubitRef]
        ensures { result.now ≡ self.now }
    {
        self.references.as_slice()
    }
}

/// A list of qubits by their numbers.
#[derive(Drop)]
pub struct Qubits {
    numbers: Vec<u8>,
}

impl Model for Qubits {
    ghost use Rattle.std.specs.Prelude.{List, ℕ};

    ghost Value = { List ℕ };

    ghost view = { λ qubits. qubits.numbers.items };
}

impl PartialEq for Qubits {
    ghost eq = { pointwise nat_eq };

    ghost laws = { partial_equiv_from_equiv nat_list_eq_equiv };

    fn eq(&self, other: &Qubits) -> bool {
        self.numbers == other.numbers
    }
}

impl Eq for Qubits {
    ghost laws = { nat_list_eq_equiv };
}

impl Qubits {
    /// Takes the list over.
    pub fn from_vec(numbers: Vec<u8>) -> Qubits
        ensures { result ≡ numbers.items }
    {
        Qubits { numbers }
    }

    /// The numbers, in order.
    pub fn items(&self) -> &[u8]
        ensures { result.now ≡ self.now }
    {
        self.numbers.as_slice()
    }
}
