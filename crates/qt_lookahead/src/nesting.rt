//! Where a form stands.

ghost use Rattle.std.specs.Prelude.{◌≡◌, ◌-◌, ◌<◌, None, if◌then◌else◌};
ghost use Rattle.qt_terminals.specs.Terminals.{stream};
ghost use Rattle.qt_grammar.specs.Form as form;
ghost use Rattle.qt_grammar.specs.declared.refusal.Refusal.TheVariants.{Syntax, Nest};

use qt_grammar::refusal::Refusal;
use qt_terminals::stream::TokenStream;

/// How many levels of nesting may still be opened below a form, and how many operators of the text stand before the outermost
/// expression round it, which is `None` where no expression stands round it.
#[derive(Clone, Copy, Debug, PartialEq, Eq)]
pub struct Nesting {
    pub levels: usize,
    pub outer: Option<usize>,
}

impl Nesting {
    /// Where a form stands that stands in no expression.
    pub fn outermost(levels: usize) -> Nesting
        ensures levels { result.levels ≡ levels }
        ensures outer { result.outer ≡ None }
    {
        Nesting {
            levels,
            outer: None,
        }
    }

    /// Where the parts of an expression stand that begins at this token: operators are counted from there on, unless it stands
    /// in another expression.
    pub fn begun(self, tokens: &TokenStream<'_>, at: usize) -> Nesting
        ensures levels { result.levels ≡ self.levels }
        ensures outer { result.outer ≡ form.begun (stream tokens.now) self.outer at }
    {
        let outer = match self.outer {
            None => Some(tokens.operators(at)),
            outer => outer,
        };
        Nesting {
            levels: self.levels,
            outer,
        }
    }

    /// One level deeper.
    pub fn below(self) -> Nesting
        requires { 0 < self.levels }
        ensures levels { result.levels ≡ self.levels - 1 }
        ensures outer { result.outer ≡ self.outer }
    {
        Nesting {
            levels: self.levels - 1,
            outer: self.outer,
        }
    }
}

/// Why a form isn't read where no level is left for it: Nest where its first token stands there, and else Syntax.
pub fn too_deep(at: usize, begins: bool) -> Refusal
    ensures { result ≡ (if begins then Nest at else Syntax at) }
{
    if begins {
        Refusal::Nest(at)
    } else {
        Refusal::Syntax(at)
    }
}
