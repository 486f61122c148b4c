ghost use Rattle.std.specs.Prelude.{◌≡◌, string_bytes, MatchResult};
ghost use Rattle.qt_tree.specs.declared.program.Program.{Program};
ghost use Rattle.qt_read.specs.Reading.{IsTextOfProgram, IsReason};
ghost use Rattle.qt_print.specs.Text.{canonical};

use qt_print::print;
use qt_read::read::read;
use qt_tree::refusal::TextRefusal;
use std::alloc::Global;

/// That a text, which has the number 0, is that of a program. `name` is what its refusals tell; they are those of `qt_read::read`.
pub fn check(alloc: Global, name: &str, text: &[u8]) -> Result<(), TextRefusal>
    ensures { MatchResult result
        (λ _. (source : Program) × IsTextOfProgram 0 text.now source)
        (IsReason name.now 0 text.now) }
{
    read(alloc, name, 0, text)?.discard();
    Ok(())
}

/// The canonical text of the program of a text, which has the number 0. `name` is what its refusals tell; they are those of
/// `qt_read::read`.
pub fn canonical(alloc: Global, name: &str, text: &[u8]) -> Result<String, TextRefusal>
    ensures { MatchResult result
        (λ printed. (source : Program) × IsTextOfProgram 0 text.now source × (string_bytes printed ≡ canonical source))
        (IsReason name.now 0 text.now) }
{
    let source = read(alloc, name, 0, text)?;
    let printed = print(alloc, &source);
    source.discard();
    Ok(printed?)
}
