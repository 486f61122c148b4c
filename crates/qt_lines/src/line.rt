//! Lines that tell why the text of a name has no answer.

ghost use Rattle.std.specs.Prelude.{◌≡◌, ◌++◌, string_bytes, IfOk};
ghost use Rattle.qt_lines.specs.Lines.{form_line, shelf_line};

use qt_outside::faults::OutOfMemory;
use std::alloc::Global;

/// A word, a name and another word, as one line.
fn line_with(alloc: Global, before: &str, name: &str, behind: &str) -> Result<String, OutOfMemory>
    ensures { IfOk result (λ line. string_bytes line ≡ before.now ++ name.now ++ behind.now) }
{
    let mut line = String::from_str(alloc, before)?;
    line.push_str(name)?;
    line.push_str(behind)?;
    Ok(line)
}

/// The line of a name whose text the shelf failed to give.
pub fn shelf_line(alloc: Global, name: &str) -> Result<String, OutOfMemory>
    ensures { IfOk result (λ line. string_bytes line ≡ shelf_line name.now) }
{
    line_with(alloc, "S1 shelf ", name, "\n")
}

/// The line of a name whose text is that of a program, but of none that is served yet.
pub fn form_line(alloc: Global, name: &str) -> Result<String, OutOfMemory>
    ensures { IfOk result (λ line. string_bytes line ≡ form_line name.now) }
{
    line_with(alloc, "E0 ", name, " form\n")
}
