//! Rows of reports: of one output value that is sure, and of one bit whose two values share the probability.

ghost use Rattle.std.specs.Prelude.{◌≡◌, IfOk};
ghost use Rattle.qt_root2.specs.Masses.{real_of_reduced};
ghost use Rattle.qt_root2.specs.Real.{one_real, plus_real, zero_real};
ghost use Rattle.qt_report.specs.Report.{total_of};

use crate::programs::tell_report;
use qt_output::Output;
use qt_report::{Chance, Distribution, Register, fraction_text};
use qt_root2::mass::Reduced;
use qt_rows::answer::Answer;
use qt_rows::row::Row;
use std::alloc::{AllocError, Global};

const ONE: Reduced = Reduced { a: 1, b: 0, k: 0 };

const HALF: Reduced = Reduced { a: 1, b: 0, k: 1 };

// (2 + √2) / 4 and (2 − √2) / 4, the chances of one qubit after h, t and h
const LIKELY: Reduced = Reduced { a: 2, b: 1, k: 2 };

const UNLIKELY: Reduced = Reduced { a: 2, b: -1, k: 2 };

/// `fraction A B K`.
pub fn answer_fraction(alloc: Global, row: &mut Row<'_>, answer: &mut Answer) {
    let (a, b, k) = (row.i128(), row.i128(), row.u32());
    if let Some(text) = answer.given(fraction_text(alloc, Reduced { a, b, k })) {
        answer.push_str(&text);
    }
}

/// Adds a register that is written as `NAME:WIDTH`.
fn push_register(
    alloc: Global,
    written: &mut Row<'_>,
    layout: &mut Vec<Register>,
    answer: &mut Answer,
) {
    let name = written.part(':');
    let width = written.u32();
    if let Some(name) = answer.given(String::from_str(alloc, name)) {
        answer.require(layout.push(Register::new(name, width)));
    }
}

fn layout_in(
    alloc: Global,
    registers: &str,
    row: &mut Row<'_>,
    answer: &mut Answer,
) -> Vec<Register> {
    let mut layout = Vec::new(alloc);
    for written in registers.split_whitespace() {
        let mut register = Row::new(written);
        push_register(alloc, &mut register, &mut layout, answer);
        row.refused |= register.refused;
    }
    layout
}

fn values_in(alloc: Global, written: &str, row: &mut Row<'_>, answer: &mut Answer) -> Vec<u64> {
    let mut values = Vec::new(alloc);
    for word in written.split_whitespace() {
        let mut value = Row::new(word);
        answer.require(values.push(value.u64()));
        row.refused |= value.refused;
    }
    values
}

/// The report of chances whose total is 1.
fn tell_chances(alloc: Global, layout: Vec<Register>, chances: Vec<Chance>, answer: &mut Answer)
    requires { total_of chances.items ≡ one_real }
{
    tell_report(alloc, &Distribution::new(layout, chances, ONE), answer);
}

/// The report of one output value.
#[tactic(auto, unfolding(qt_root2::specs::Real::plus_real))]
fn tell_sure(alloc: Global, layout: Vec<Register>, values: Vec<u64>, answer: &mut Answer) {
    let output = Output::from_vec(values);
    match vec![in alloc; Chance { output, of: ONE }] {
        Ok(chances) => tell_chances(alloc, layout, chances, answer),
        Err(_) => answer.lose(),
    }
}

/// `sure NAME:WIDTH .. = VALUE ..`.
pub fn answer_sure(alloc: Global, row: &mut Row<'_>, answer: &mut Answer) {
    let layout = layout_in(alloc, row.part('='), row, answer);
    let values = values_in(alloc, row.rest, row, answer);
    tell_sure(alloc, layout, values, answer);
}

/// The chance of a bit to have a value.
fn bit_chance(alloc: Global, value: u64, of: Reduced) -> Result<Chance, AllocError>
    ensures { IfOk result (λ chance. chance.of ≡ of) }
{
    let output = Output::from_vec(vec![in alloc; value]?);
    Ok(Chance { output, of })
}

/// The chances of a bit with both its values.
fn bit_chances(alloc: Global, zero: Reduced, one: Reduced) -> Result<Vec<Chance>, AllocError>
    ensures { IfOk result (λ chances. total_of chances.items
        ≡ plus_real (real_of_reduced zero) (plus_real (real_of_reduced one) zero_real)) }
{
    let (zero, one) = (bit_chance(alloc, 0, zero)?, bit_chance(alloc, 1, one)?);
    Ok(vec![in alloc; zero, one]?)
}

/// The report of one bit with both its values.
fn tell_both(alloc: Global, zero: Reduced, one: Reduced, row: &mut Row<'_>, answer: &mut Answer)
    requires { plus_real (real_of_reduced zero) (plus_real (real_of_reduced one) zero_real) ≡ one_real }
{
    let layout = layout_in(alloc, "c:1", row, answer);
    match bit_chances(alloc, zero, one) {
        Ok(chances) => tell_chances(alloc, layout, chances, answer),
        Err(_) => answer.lose(),
    }
}

/// `either half` and `either likely`.
#[tactic(auto, unfolding(qt_root2::specs::Real::plus_real))]
pub fn answer_either(alloc: Global, row: &mut Row<'_>, answer: &mut Answer) {
    match row.word() {
        "half" => tell_both(alloc, HALF, HALF, row, answer),
        "likely" => tell_both(alloc, LIKELY, UNLIKELY, row, answer),
        _ => row.refuse(),
    }
}
