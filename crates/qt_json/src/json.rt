//! The text of a report.

ghost use Rattle.std.specs.Prelude.{◌≡◌, IfOk, map, string_bytes};
ghost use Rattle.serde_json.specs.View.{items_of, view};
ghost use Rattle.serde_json.specs.Data.{array};
ghost use Rattle.qt_json.specs.Json.{json_text, line_data, pair_data, report_data, total_data};

use crate::report::{NamedText, Report, ReportLine};
use qt_outside::faults::OutOfMemory;
use qt_root2::mass::Reduced;
use serde_json::{Value, json};
use std::alloc::{AllocError, Global};

/// The name and the text of an output.
fn pair_value(alloc: Global, pair: &NamedText) -> Result<Value, AllocError>
    ensures { IfOk result (λ v. view v ≡ pair_data pair.now) }
{
    let name = String::from_str(alloc, pair.name.text())?;
    let text = String::from_str(alloc, pair.text.text())?;
    json!(in alloc; [name, text])
}

/// The outputs of a line.
fn pair_values(alloc: Global, pairs: &[NamedText]) -> Result<Vec<Value>, AllocError>
    ensures { IfOk result (λ values. map view values.items ≡ map pair_data pairs.now) }
{
    let mut values = Vec::new(alloc);
    for pair in pairs {
        values.push(pair_value(alloc, pair)?)?;
    }
    Ok(values)
}

/// A probability with the outputs that have it.
fn line_value(alloc: Global, line: &ReportLine) -> Result<Value, AllocError>
    ensures { IfOk result (λ v. view v ≡ line_data line.now) }
{
    let Reduced { a, b, k } = line.of;
    let first = format!(in alloc; "{a}")?;
    let second = format!(in alloc; "{b}")?;
    let values = pair_values(alloc, line.values.as_slice())?;
    json!(in alloc; {"a": first, "b": second, "k": k, "values": values})
}

/// All lines.
fn line_values(alloc: Global, lines: &[ReportLine]) -> Result<Vec<Value>, AllocError>
    ensures { IfOk result (λ values. map view values.items ≡ map line_data lines.now) }
{
    let mut values = Vec::new(alloc);
    for line in lines {
        values.push(line_value(alloc, line)?)?;
    }
    Ok(values)
}

/// The sum of the probabilities.
fn total_value(alloc: Global, total: Reduced) -> Result<Value, AllocError>
    ensures { IfOk result (λ v. view v ≡ total_data total) }
{
    let Reduced { a, b, k } = total;
    let first = format!(in alloc; "{a}")?;
    let second = format!(in alloc; "{b}")?;
    json!(in alloc; {"a": first, "b": second, "k": k})
}

#[tactic(auto, unfolding(crate::specs::Json::report_data))]
fn report_value(alloc: Global, report: &Report) -> Result<Value, AllocError>
    ensures { IfOk result (λ v. view v ≡ report_data report.now) }
{
    let outcomes = line_values(alloc, report.lines.as_slice())?;
    let total = total_value(alloc, report.total)?;
    let states = report.states;
    json!(in alloc; {"outcomes": outcomes, "states": states, "total": total})
}

fn written(alloc: Global, report: &Report) -> Result<String, AllocError>
    ensures { IfOk result (λ text. string_bytes text ≡ json_text report.now) }
{
    let mut text = report_value(alloc, report)?.to_string(alloc)?;
    text.push('\n')?;
    Ok(text)
}

/// The report as one compact JSON object, ended by a line feed. It fails only for want of memory.
pub fn json_report(alloc: Global, report: &Report) -> Result<String, OutOfMemory>
    ensures { IfOk result (λ text. string_bytes text ≡ json_text report.now) }
{
    Ok(written(alloc, report)?)
}
