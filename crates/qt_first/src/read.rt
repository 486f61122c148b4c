//! The exact reader of texts of the first form. Each part takes a text and answers a value that the text begins with, and
//! what follows it; no part looks back, since no line begins as another one.
ghost use Rattle.std.specs.Prelude.{◌≡◌, ◌≢◌, ◌<◌, ◌≤◌, List, ℕ, ◌++◌, length, MatchOption, IfOk, IsTrue, ◌↔◌, codes};
ghost use Rattle.std.specs.Fmt.{decimal};
ghost use Rattle.std.specs.List.{flat_map};
ghost use Rattle.qt_first.specs.Form.{ArePlaced, IsPlaced, Reads, measurements, statement_text};
ghost use Rattle.qt_first.specs.Pieces.{
  AreControlAndTarget,
  AreQubitAndBit,
  BeginsWith,
  IsSize,
  IsSized,
  IsSpelledBy,
  controlled_x_text,
  is_measurement,
  measurement_text,
  number_text,
  registers_text,
  single_gate_text,
};

use crate::program::{Program, Statement, Statements};
use std::alloc::{AllocError, Global};

/// The most places that a register has.
const PLACES: u32 = 4;
/// The most statements that a program has.
const STATEMENTS: usize = 32;
/// The most measurements among them.
const MEASUREMENTS: usize = 12;

/// How many places the registers `q` and `c` have.
#[derive(Clone, Copy)]
struct Registers {
    qubits: u32,
    bits: u32,
}

/// The program whose text this is, byte for byte; `None` where it is the text of no program within the limits.
pub fn read(alloc: Global, text: &[u8]) -> Result<Option<Program>, AllocError>
    ensures { IfOk result (λ found. Reads text.now found) }
{
    let Some((registers, rest)) = head(text) else {
        return Ok(None);
    };
    let Some(statements) = statements(alloc, rest, registers)? else {
        return Ok(None);
    };
    if !are_few(statements.items()) {
        return Ok(None);
    }
    Ok(Some(Program {
        qubits: registers.qubits,
        bits: registers.bits,
        statements,
    }))
}

/// The registers that the lines before the statements declare, and what follows those lines.
fn head(text: &[u8]) -> Option<(Registers, &[u8])>
    ensures { BeginsWith IsSized registers_text text.now result }
{
    let (qubits, rest) = size(text, b"OPENQASM 3.0;\ninclude \"stdgates.inc\";\nqubit[")?;
    let (bits, rest) = size(rest, b"] q;\nbit[")?;
    let rest = after(rest, b"] c;\n")?;
    Some((Registers { qubits, bits }, rest))
}

/// The statements whose lines make up the text, with indexes in the registers.
fn statements(
    alloc: Global,
    text: &[u8],
    registers: Registers,
) -> Result<Option<Statements>, AllocError>
    requires { IsSized registers }
    ensures { IfOk result (λ found. IsSpelledBy (ArePlaced registers.qubits registers.bits)
        (flat_map statement_text) text.now found) }
{
    let mut statements = Vec::new(alloc);
    let mut rest = text;
    while !rest.is_empty() {
        let Some((next, following)) = statement(rest, registers) else {
            return Ok(None);
        };
        statements.push(next)?;
        rest = following;
    }
    Ok(Some(Statements::from_vec(statements)))
}

/// Whether the statements, and the measurements among them, are no more than a program has.
fn are_few(statements: &[Statement]) -> bool
    ensures { IsTrue result
        ↔ ((length statements.now ≤ STATEMENTS) × (measurements statements.now ≤ MEASUREMENTS)) }
{
    statements.len() <= STATEMENTS && measurement_count(statements) <= MEASUREMENTS
}

/// How many of the statements are measurements.
fn measurement_count(statements: &[Statement]) -> usize
    ensures { result ≡ measurements statements.now }
{
    statements
        .iter()
        .filter(|statement| is_measurement(statement))
        .count()
}

fn is_measurement(statement: &Statement) -> bool
    ensures { result ≡ is_measurement statement.now }
{
    matches!(statement, Statement::Measure { .. })
}

/// The statement that the text begins with, and what follows its line.
fn statement(text: &[u8], registers: Registers) -> Option<(Statement, &[u8])>
    requires { IsSized registers }
    ensures { BeginsWith (IsPlaced registers.qubits registers.bits) statement_text text.now result }
{
    if let Some((qubit, rest)) = single_gate(text, b"h", registers.qubits) {
        return Some((Statement::Hadamard { qubit }, rest));
    }
    if let Some((qubit, rest)) = single_gate(text, b"t", registers.qubits) {
        return Some((Statement::T { qubit }, rest));
    }
    if let Some((qubit, rest)) = single_gate(text, b"x", registers.qubits) {
        return Some((Statement::X { qubit }, rest));
    }
    if let Some(((control, target), rest)) = controlled_x(text, registers.qubits) {
        return Some((Statement::ControlledX { control, target }, rest));
    }
    let ((qubit, bit), rest) = measurement(text, registers)?;
    Some((Statement::Measure { qubit, bit }, rest))
}

/// The qubit of the line of a gate of this name, which acts on one qubit.
fn single_gate<'a>(text: &'a [u8], name: &[u8], qubits: u32) -> Option<(u32, &'a [u8])>
    requires { qubits ≤ 4 }
    ensures { BeginsWith (λ qubit. qubit < qubits) (single_gate_text name.now) text.now result }
{
    let rest = after(text, name)?;
    let (qubit, rest) = number(rest, b" q[", qubits)?;
    let rest = after(rest, b"];\n")?;
    Some((qubit, rest))
}

/// The control and the target of the line of a controlled gate.
fn controlled_x(text: &[u8], qubits: u32) -> Option<((u32, u32), &[u8])>
    requires { qubits ≤ 4 }
    ensures { BeginsWith (AreControlAndTarget qubits) controlled_x_text text.now result }
{
    let (control, rest) = number(text, b"cx q[", qubits)?;
    let (target, rest) = number(rest, b"], q[", qubits)?;
    let rest = after(rest, b"];\n")?;
    (control != target).then_some(((control, target), rest))
}

/// The qubit and the bit of the line of a measurement.
fn measurement(text: &[u8], registers: Registers) -> Option<((u32, u32), &[u8])>
    requires { IsSized registers }
    ensures { BeginsWith (AreQubitAndBit registers) measurement_text text.now result }
{
    let (bit, rest) = number(text, b"c[", registers.bits)?;
    let (qubit, rest) = number(rest, b"] = measure q[", registers.qubits)?;
    let rest = after(rest, b"];\n")?;
    Some(((qubit, bit), rest))
}

/// The size of a register behind an opening.
fn size<'a>(text: &'a [u8], opening: &[u8]) -> Option<(u32, &'a [u8])>
    ensures { BeginsWith IsSize (number_text opening.now) text.now result }
{
    let (size, rest) = number(text, opening, PLACES + 1)?;
    (size > 0).then_some((size, rest))
}

/// A number below the bound behind an opening.
fn number<'a>(text: &'a [u8], opening: &[u8], bound: u32) -> Option<(u32, &'a [u8])>
    requires { bound ≤ 10 }
    ensures { BeginsWith (λ number. number < bound) (number_text opening.now) text.now result }
{
    let rest = after(text, opening)?;
    digit(rest, bound)
}

/// A number below the bound, in one decimal digit.
fn digit(text: &[u8], bound: u32) -> Option<(u32, &[u8])>
    requires { bound ≤ 10 }
    ensures { BeginsWith (λ number. number < bound) decimal text.now result }
{
    let (&digit, rest) = text.split_first()?;
    let number = u32::from(digit).checked_sub(u32::from(b'0'))?;
    (number < bound).then_some((number, rest))
}

/// What follows the opening, where the text begins with it.
fn after<'a>(text: &'a [u8], opening: &[u8]) -> Option<&'a [u8]>
    ensures { MatchOption result
        ((rest : List ℕ) → text.now ≢ opening.now ++ rest)
        (λ rest. text.now ≡ opening.now ++ rest.now) }
{
    text.strip_prefix(opening)
}
