ghost use Rattle.std.specs.Prelude.{◌≡◌};

use std::marker::Model;

/// One line of a program behind its declarations: a gate on qubits of the register `q`, or the measurement of a qubit
/// into a bit of the register `c`. All numbers are indexes from 0.
#[derive(Clone, Copy, Debug, PartialEq, Eq)]
pub enum Statement {
    Hadamard { qubit: u32 },
    T { qubit: u32 },
    X { qubit: u32 },
    ControlledX { control: u32, target: u32 },
    Measure { qubit: u32, bit: u32 },
}

/// The statements of a program, in order of text.
#[derive(Drop)]
pub struct Statements {
    items: Vec<Statement>,
}

impl Model for Statements {
    ghost use Rattle.std.specs.Prelude.{List};
    ghost use Rattle.qt_first.specs.declared.program.Statement.{Statement};

    ghost Value = { List Statement };

    ghost view = { λ s. s.items.items };
}

impl Statements {
    /// Takes the list over.
    pub fn from_vec(items: Vec<Statement>) -> Statements
        ensures { result ≡ items.items }
    {
        Statements { items }
    }

    /// The statements, in order of text.
    pub fn items(&self) -> &[Statement]
        ensures { result.now ≡ self.now }
    {
        self.items.as_slice()
    }
}

/// A program of the first form: a register `q` of so many qubits, a register `c` of so many bits, and the statements. The
/// type has no limits of its own: those are `IsWithinLimits` of specs/Form.antt, which each program that was read meets.
#[derive(Drop)]
pub struct Program {
    pub qubits: u32,
    pub bits: u32,
    pub statements: Statements,
}
