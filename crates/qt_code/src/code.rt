//! Valid flat code.

ghost use Rattle.std.specs.Prelude.{◌≡◌, ◌↔◌, IsOk, IfOk, IfErr};
ghost use Rattle.std.specs.Cmp.{partial_equiv_from_equiv};
ghost use Rattle.qt_instructions.specs.Equality.{same_parts};
ghost use Rattle.qt_instructions.specs.contracts.parts.PartsEq.TheImpl.Laws as parts;
ghost use Rattle.qt_code.specs.Validity.{IsValid};

use crate::validity::is_valid;
use qt_instructions::instruction::Instr;
use qt_instructions::parts::{Field, Parts};
use qt_tree::place::Place;
use std::marker::Model;

/// Flat code that is valid. Contracts see it as its parts. Two codes are equal where their parts are.
#[derive(Drop)]
pub struct Code {
    parts: Parts,
}

impl Model for Code {
    ghost use Rattle.qt_instructions.specs.declared.parts.Parts.{Parts};
    ghost use Rattle.qt_code.specs.Validity.{IsValid};

    ghost Value = { Parts };

    ghost view = { λ code. code.parts };

    ghost invariant = { λ code. IsValid code.parts };
}

impl PartialEq for Code {
    ghost eq = { same_parts };

    ghost laws = { partial_equiv_from_equiv parts.laws-law };

    fn eq(&self, other: &Code) -> bool {
        self.parts == other.parts
    }
}

impl Eq for Code {
    ghost laws = { parts.laws-law };
}

impl Code {
    /// Code of these parts, exactly where they are valid; else they are handed back.
    pub fn build(parts: Parts) -> Result<Code, Parts>
        ensures ok { IsOk result ↔ IsValid parts }
        ensures code { IfOk result (λ code. code ≡ parts) }
        ensures back { IfErr result (λ back. back ≡ parts) }
    {
        if is_valid(&parts) {
            Ok(Code { parts })
        } else {
            Err(parts)
        }
    }

    /// Its parts, which are valid.
    pub fn parts(&self) -> &Parts
        ensures parts { result.now ≡ self.now }
        ensures valid { IsValid self.now }
    {
        &self.parts
    }

    /// The instructions, in order.
    pub fn instructions(&self) -> &[Instr]
        ensures { result.now ≡ self.now.instructions }
    {
        self.parts.instructions.items()
    }

    /// The place in the text of each instruction.
    pub fn places(&self) -> &[Place]
        ensures { result.now ≡ self.now.places }
    {
        self.parts.places.items()
    }

    /// How many qubits it has.
    pub fn qubits(&self) -> u32
        ensures { result ≡ self.now.qubits }
    {
        self.parts.qubits
    }

    /// How many slots it has.
    pub fn slots(&self) -> u32
        ensures { result ≡ self.now.slots }
    {
        self.parts.slots
    }

    /// How many work cells it has.
    pub fn cells(&self) -> u32
        ensures { result ≡ self.now.cells }
    {
        self.parts.cells
    }

    /// The values of the slots at the beginning.
    pub fn start(&self) -> &[u64]
        ensures { result.now ≡ self.now.start }
    {
        self.parts.start.items()
    }

    /// The variables whose values are told at the end.
    pub fn layout(&self) -> &[Field]
        ensures { result.now ≡ self.now.layout }
    {
        self.parts.layout.items()
    }

    /// The place behind the last character of the main text.
    pub fn end(&self) -> Place
        ensures { result ≡ self.now.end }
    {
        self.parts.end
    }
}
