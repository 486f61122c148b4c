ghost use Rattle.std.specs.Prelude.{◌≡◌, ◌+◌, ◌++◌, IfOk, OnOk};
ghost use Rattle.std.specs.Int.{bit_at};
ghost use Rattle.std.specs.List.{join_with_byte};
ghost use Rattle.std.specs.String.{string_bytes};
ghost use Rattle.qt_root2.specs.Masses.{real_of_reduced};
ghost use Rattle.qt_report.specs.Report.{binary_digits, chance_line, fraction, output_text, register_text, report_text, sign, values_texts};

use crate::distribution::{Chance, Distribution};
use crate::register::Register;
use qt_outside::faults::OutOfMemory;
use qt_root2::mass::Reduced;
use std::alloc::{AllocError, Global};

/// A probability as `(a+br)/2^k`, where `r` stands for √2.
pub fn fraction_text(alloc: Global, of: Reduced) -> Result<String, OutOfMemory>
    ensures { IfOk result (λ text. string_bytes text ≡ fraction (real_of_reduced of)) }
{
    Ok(written(alloc, of)?)
}

fn written(alloc: Global, of: Reduced) -> Result<String, AllocError>
    ensures { IfOk result (λ text. string_bytes text ≡ fraction (real_of_reduced of)) }
{
    let Reduced { a, b, k } = of;
    let sign = sign(b);
    let size = b.unsigned_abs();
    format!(in alloc; "({a}{sign}{size}r)/2^{k}")
}

fn sign(of: i128) -> &'static str
    ensures { result.now ≡ sign of }
{
    if of < 0 { "-" } else { "+" }
}

/// A line for each output value in the order of the items, and the line of the total.
pub fn text_report(alloc: Global, of: &Distribution) -> Result<String, OutOfMemory>
    ensures { IfOk result (λ text. string_bytes text ≡ report_text of.now) }
{
    let mut text = String::new(alloc);
    let layout = of.layout();
    for chance in of.items() {
        push_chance(alloc, &mut text, layout, chance)?;
    }
    let total = fraction_text(alloc, of.total())?;
    writeln!(text, "total {total}")?;
    Ok(text)
}

// the line of one output value
fn push_chance(
    alloc: Global,
    text: &mut String,
    layout: &[Register],
    chance: &Chance,
) -> Result<(), OutOfMemory>
    ensures { OnOk result (string_bytes text.new ≡ string_bytes text.old ++ chance_line layout.now chance.now) }
{
    push_output(text, layout, chance.output.values())?;
    let fraction = fraction_text(alloc, chance.of)?;
    writeln!(text, " {fraction}")?;
    Ok(())
}

// the values, or `-` where there is no register
fn push_output(text: &mut String, layout: &[Register], values: &[u64]) -> Result<(), AllocError>
    ensures { OnOk result (string_bytes text.new ≡ string_bytes text.old ++ output_text layout.now values.now) }
{
    if layout.is_empty() {
        text.push('-')
    } else {
        push_values(text, layout, values)
    }
}

// the values with one space between
fn push_values(text: &mut String, layout: &[Register], values: &[u64]) -> Result<(), AllocError>
    ensures { OnOk result (string_bytes text.new ≡ string_bytes text.old ++ join_with_byte 32 (values_texts layout.now values.now)) }
{
    for (place, (register, value)) in layout.iter().zip(values).enumerate() {
        if place > 0 {
            text.push(' ')?;
        }
        push_register(text, register, *value)?;
    }
    Ok(())
}

fn push_register(text: &mut String, register: &Register, value: u64) -> Result<(), AllocError>
    ensures { OnOk result (string_bytes text.new ≡ string_bytes text.old ++ register_text register.now value) }
{
    text.push_str(register.name())?;
    text.push('=')?;
    push_digits(text, register.width(), value)
}

// the lowest `width` places of the value, the highest of them first
fn push_digits(text: &mut String, width: u32, value: u64) -> Result<(), AllocError>
    ensures { OnOk result (string_bytes text.new ≡ string_bytes text.old ++ binary_digits width value) }
{
    for place in (0..width).rev() {
        text.push(binary_digit(value, place))?;
    }
    Ok(())
}

// the digit at a place, which is 0 past the highest place
fn binary_digit(value: u64, place: u32) -> char
    ensures { result ≡ 48 + bit_at value place }
{
    if value.checked_shr(place).unwrap_or(0) & 1 == 1 {
        '1'
    } else {
        '0'
    }
}
