//! Gates and calls as rows write them.

ghost use Rattle.std.specs.Prelude.{◌≤◌, ◌^◌, unsigned_abs};

use qt_gate_calls::angle::Angle;
use qt_gate_calls::body::{BodyCall, Called, GateBodies, GateBody, GateModifier};
use qt_gate_calls::whole::Whole;
use qt_gates::named::standard;
use qt_gates::table::standard_bodies;
use qt_phase::phase::Phase;
use qt_rows::answer::Answer;
use qt_rows::row::Row;
use sqlite_items::{Boxed, Items};
use std::alloc::Global;

/// The number of the first gate behind the standard ones.
const FIRST_DECLARED: u32 = 32;

/// The call at the end of a row, whose qubits are as they are written.
#[derive(Drop)]
pub struct Last {
    pub gates: GateBodies,
    pub modifiers: Items<GateModifier>,
    pub gate: Called,
    pub arguments: Items<Phase>,
    pub registers: Items<Run>,
}

/// A single qubit, or a register of so many from the first on.
#[derive(Clone, Copy)]
pub struct Run {
    pub first: u8,
    pub count: Option<u8>,
}

/// The power `pow:K`.
fn power_in(written: &str, row: &mut Row<'_>) -> GateModifier {
    let mut power = Row::new(written);
    row.refused |= power.part(':') != "pow";
    let exponent = power.i32();
    row.refused |= power.refused;
    GateModifier::Pow { exponent }
}

fn modifier_in(written: &str, row: &mut Row<'_>) -> GateModifier {
    match written {
        "inv" => GateModifier::Inv,
        "ctrl" => GateModifier::Ctrl,
        "negctrl" => GateModifier::NegCtrl,
        _ => power_in(written, row),
    }
}

/// The modifiers of the next word, the outermost first.
fn modifiers_in(alloc: Global, row: &mut Row<'_>, answer: &mut Answer) -> Items<GateModifier> {
    let mut modifiers = Items::new(alloc);
    let written = row.word();
    if written == "-" {
        return modifiers;
    }
    for one in written.split(',') {
        answer.require(modifiers.push(modifier_in(one, row)));
    }
    modifiers
}

/// The number of the standard gate of that name, or of the gate `gN`.
fn number_of(name: &str, row: &mut Row<'_>) -> u32 {
    if let Some(gate) = standard(name) {
        return gate.number;
    }
    let mut number = Row::new(name.strip_prefix('g').unwrap_or(""));
    let number_behind = FIRST_DECLARED.checked_add(number.u32());
    row.refused |= number.refused || number_behind.is_none();
    number_behind.unwrap_or(0)
}

fn gate_in(row: &mut Row<'_>) -> Called {
    match row.word() {
        "U" => Called::U,
        "gphase" => Called::GlobalPhase,
        name => Called::Gate {
            number: number_of(name, row),
        },
    }
}

fn phase_in(written: &str, row: &mut Row<'_>) -> Phase {
    let mut number = Row::new(written);
    let units = number.i64();
    row.refused |= number.refused;
    match Phase::from_units(units) {
        Ok(phase) => phase,
        Err(_) => {
            row.refuse();
            Phase::zero()
        }
    }
}

fn whole_in(written: &str, row: &mut Row<'_>) -> Whole {
    let mut number = Row::new(written);
    let whole = number.i128();
    row.refused |= number.refused;
    if whole.unsigned_abs() <= 1 << 64 {
        return Whole::new(whole);
    }
    row.refuse();
    Whole::new(0)
}

/// What of an angle is read, and isn't yet an operand.
#[derive(Drop)]
struct Operands {
    alloc: Global,
    angles: Items<Angle>,
}

impl Operands {
    /// The last operand, or the angle 0 where there is none.
    fn take(&mut self, row: &mut Row<'_>, answer: &mut Answer) -> Option<Boxed<Angle>> {
        let angle = match self.angles.pop() {
            Some(angle) => angle,
            None => {
                row.refuse();
                Angle::Units {
                    units: Phase::zero(),
                }
            }
        };
        answer.given(Boxed::new(self.alloc, angle))
    }

    fn put(&mut self, angle: Angle, answer: &mut Answer) {
        answer.require(self.angles.push(angle));
    }

    /// An operator between the last two operands.
    fn join(&mut self, is_sum: bool, row: &mut Row<'_>, answer: &mut Answer) {
        let (right, left) = (self.take(row, answer), self.take(row, answer));
        if let (Some(left), Some(right)) = (left, right) {
            let angle = if is_sum {
                Angle::Sum { left, right }
            } else {
                Angle::Difference { left, right }
            };
            self.put(angle, answer);
        }
    }

    fn oppose(&mut self, row: &mut Row<'_>, answer: &mut Answer) {
        if let Some(angle) = self.take(row, answer) {
            self.put(Angle::Opposite { angle }, answer);
        }
    }

    fn multiply(&mut self, factor: Whole, row: &mut Row<'_>, answer: &mut Answer) {
        if let Some(angle) = self.take(row, answer) {
            self.put(Angle::Product { angle, factor }, answer);
        }
    }

    fn divide(&mut self, divisor: Whole, row: &mut Row<'_>, answer: &mut Answer) {
        if let Some(angle) = self.take(row, answer) {
            self.put(Angle::Quotient { angle, divisor }, answer);
        }
    }

    fn give(&mut self, number: &str, row: &mut Row<'_>, answer: &mut Answer) {
        let mut words = Row::new(number);
        let number = words.u32();
        row.refused |= words.refused;
        self.put(Angle::Parameter { number }, answer);
    }

    /// One part of an angle that isn't an operator without a number.
    fn read_number(&mut self, part: &str, row: &mut Row<'_>, answer: &mut Answer) {
        if let Some(number) = part.strip_prefix('$') {
            self.give(number, row, answer);
        } else if let Some(factor) = part.strip_prefix('*') {
            self.multiply(whole_in(factor, row), row, answer);
        } else if let Some(divisor) = part.strip_prefix('/') {
            self.divide(whole_in(divisor, row), row, answer);
        } else {
            let units = phase_in(part, row);
            self.put(Angle::Units { units }, answer);
        }
    }

    fn read(&mut self, part: &str, row: &mut Row<'_>, answer: &mut Answer) {
        match part {
            "add" => self.join(true, row, answer),
            "sub" => self.join(false, row, answer),
            "neg" => self.oppose(row, answer),
            _ => self.read_number(part, row, answer),
        }
    }
}

fn read_angle(
    alloc: Global,
    written: &str,
    row: &mut Row<'_>,
    answer: &mut Answer,
    angles: &mut Items<Angle>,
) {
    let mut operands = Operands {
        alloc,
        angles: Items::new(alloc),
    };
    for part in written.split('_') {
        operands.read(part, row, answer);
    }
    row.refused |= operands.angles.len() != 1;
    answer.require(angles.append(operands.angles));
}

/// How many operators stand in an angle.
fn operators_of(written: &str) -> u32 {
    let mut count: u32 = 0;
    for part in written.split('_') {
        let is_operator = matches!(part, "add" | "sub" | "neg")
            || part.starts_with('*')
            || part.starts_with('/');
        count = count.saturating_add(u32::from(is_operator));
    }
    count
}

fn operators_in(written: &str) -> u32 {
    let mut count: u32 = 0;
    for angle in written.split(',') {
        count = count.saturating_add(operators_of(angle));
    }
    count
}

fn angles_in(alloc: Global, written: &str, row: &mut Row<'_>, answer: &mut Answer) -> Items<Angle> {
    let mut angles = Items::new(alloc);
    if written == "-" {
        return angles;
    }
    for one in written.split(',') {
        read_angle(alloc, one, row, answer, &mut angles);
    }
    angles
}

fn numbers_in(alloc: Global, row: &mut Row<'_>, answer: &mut Answer) -> Items<u32> {
    let mut numbers = Items::new(alloc);
    let written = row.word();
    if written == "-" {
        return numbers;
    }
    for one in written.split(',') {
        let mut number = Row::new(one);
        answer.require(numbers.push(number.u32()));
        row.refused |= number.refused;
    }
    numbers
}

fn call_in(alloc: Global, row: &mut Row<'_>, answer: &mut Answer) -> BodyCall {
    let modifiers = modifiers_in(alloc, row, answer);
    let gate = gate_in(row);
    let written = row.word();
    let angles = angles_in(alloc, written, row, answer);
    let qubits = numbers_in(alloc, row, answer);
    BodyCall {
        modifiers,
        gate,
        angles,
        qubits,
        operators: operators_in(written),
    }
}

/// `CALL|CALL ..`
fn body_in(
    alloc: Global,
    written: &str,
    row: &mut Row<'_>,
    answer: &mut Answer,
) -> Items<BodyCall> {
    let mut calls = Items::new(alloc);
    for one in written.split('|') {
        if !one.is_empty() {
            let mut call = Row::new(one);
            let made = call_in(alloc, &mut call, answer);
            answer.require(calls.push(made));
            row.refused |= call.refused;
        }
    }
    calls
}

/// `gate P Q|CALL|CALL ..`
fn gate_of(alloc: Global, written: &str, row: &mut Row<'_>, answer: &mut Answer) -> GateBody {
    let (head, behind) = match written.split_once('|') {
        Some(parts) => parts,
        None => (written, ""),
    };
    let mut words = Row::new(head);
    row.refused |= words.word() != "gate";
    let (parameters, qubits) = (words.u32(), words.u32());
    row.refused |= words.refused;
    GateBody {
        parameters,
        qubits,
        calls: body_in(alloc, behind, row, answer),
    }
}

/// The standard gates and the gates of a row.
fn gates_in(
    alloc: Global,
    written: &str,
    row: &mut Row<'_>,
    answer: &mut Answer,
) -> Option<GateBodies> {
    let mut bodies = answer.given(standard_bodies(alloc))?;
    for one in written.split(';') {
        if !one.is_empty() {
            let body = gate_of(alloc, one, row, answer);
            answer.require(bodies.push(body));
        }
    }
    answer.given(GateBodies::new(alloc, bodies))
}

fn phases_in(alloc: Global, row: &mut Row<'_>, answer: &mut Answer) -> Items<Phase> {
    let mut phases = Items::new(alloc);
    let written = row.word();
    if written == "-" {
        return phases;
    }
    for one in written.split(',') {
        answer.require(phases.push(phase_in(one, row)));
    }
    phases
}

fn run_in(written: &str, row: &mut Row<'_>) -> Run {
    let (first, count) = match written.split_once('+') {
        Some((first, count)) => (first, Some(count)),
        None => (written, None),
    };
    let mut first = Row::new(first);
    let mut counted = Row::new(count.unwrap_or("0"));
    let run = Run {
        first: first.u8(),
        count: Some(counted.u8()),
    };
    row.refused |= first.refused || counted.refused;
    match count {
        Some(_) => run,
        None => Run { count: None, ..run },
    }
}

fn runs_in(alloc: Global, row: &mut Row<'_>, answer: &mut Answer) -> Items<Run> {
    let mut runs = Items::new(alloc);
    let written = row.word();
    if written == "-" {
        return runs;
    }
    for one in written.split(',') {
        answer.require(runs.push(run_in(one, row)));
    }
    runs
}

/// The gates of a row, and the call at its end.
pub fn last_in(alloc: Global, row: &mut Row<'_>, answer: &mut Answer) -> Option<Last> {
    let (written, call) = match row.rest.rsplit_once(';') {
        Some(parts) => parts,
        None => ("", row.rest),
    };
    let gates = gates_in(alloc, written, row, answer)?;
    let mut words = Row::new(call);
    let modifiers = modifiers_in(alloc, &mut words, answer);
    let gate = gate_in(&mut words);
    let arguments = phases_in(alloc, &mut words, answer);
    let registers = runs_in(alloc, &mut words, answer);
    row.refused |= words.refused;
    Some(Last {
        gates,
        modifiers,
        gate,
        arguments,
        registers,
    })
}
