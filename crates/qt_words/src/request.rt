//! What the words of a command line ask for.

ghost use Rattle.std.specs.Prelude.{◌≡◌, map, string_bytes, MatchOption};
ghost use Rattle.qt_words.specs.Words.{Asks, AreServed};
ghost use Rattle.qt_words.specs.Requests.{mode_word, IsNoMode};

/// What is to be done with a text.
#[derive(Clone, Copy, Debug, PartialEq, Eq)]
pub enum Mode {
    /// To print the distribution of its program.
    Run,
    /// To print its program in the canonical layout.
    Format,
}

/// A mode, and the name of the text.
#[derive(Clone, Copy)]
pub struct Request<'a> {
    pub mode: Mode,
    pub name: &'a str,
}

/// The mode that a word names.
fn mode_of(word: &str) -> Option<Mode>
    ensures { MatchOption result (IsNoMode word.now) (λ mode. word.now ≡ mode_word mode) }
{
    match word {
        "run" => Some(Mode::Run),
        "format" => Some(Mode::Format),
        _ => None,
    }
}

/// What the words ask for, if it is served: there are two, and the first is a mode.
pub fn request_of(words: &[String]) -> Option<Request<'_>>
    ensures { MatchOption result
        (¬ AreServed (map string_bytes words.now))
        (λ request. Asks (map string_bytes words.now) (mode_word request.mode) request.name.now) }
{
    match words {
        [mode, name] => match mode_of(mode.as_str()) {
            Some(mode) => Some(Request {
                mode,
                name: name.as_str(),
            }),
            None => None,
        },
        _ => None,
    }
}
