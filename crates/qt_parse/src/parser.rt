//! The program of a text, or why there is none.

ghost use Rattle.std.specs.Prelude.{◌≡◌, IfOk, IfErr, true, false, Err};
ghost use Rattle.qt_terminals.specs.Terminals.{stream, terminals};
ghost use Rattle.qt_grammar.specs.declared.refusal.Refusal.TheVariants.{Syntax};
ghost use Rattle.qt_grammar.specs.Promise.{OnlyProgram, CouldBegin};
ghost use Rattle.qt_grammar.specs.Spelling.{language_limits};
ghost use Rattle.qt_parse.specs.Parser.{read_whole};
ghost use Rattle.qt_parse.specs.Promise.{Refused};

use crate::program::whole;
use qt_grammar::refusal::Refusal;
use qt_lex::tokens::Token;
use qt_lookahead::refusal::{ParseRefusal, located};
use qt_terminals::stream::TokenStream;
use qt_terminals::terminal::Terminal;
use qt_tree::program::Program;
use qt_tree::refusal::Feature;
use std::alloc::{AllocError, Global};

/// Whether a statement, or a call in a gate's body, could begin at a token that no program has there. It has the terminal `barrier`
/// afterwards.
#[tactic(auto, using(crate::proofs::Promises::begins, crate::proofs::Promises::never_begins))]
fn could_begin(alloc: Global, tokens: &mut TokenStream<'_>, at: usize) -> Result<bool, AllocError>
    requires { read_whole tokens.old language_limits.levels 0 ≡ Err (Syntax at) }
    ensures yes { IfOk result (λ found. found ≡ true → CouldBegin tokens.old at) }
    ensures no { IfOk result (λ found. found ≡ false → CouldBegin tokens.old at → ⊥) }
{
    tokens.replaced(at, Terminal::Barrier);
    match whole(alloc, tokens) {
        Err(Refusal::OutOfMemory) => Err(AllocError),
        Err(Refusal::Syntax(found)) => Ok(found != at),
        Err(Refusal::Nest(_)) | Ok(_) => Ok(true),
    }
}

/// Why the token is refused that no program has there.
#[tactic(auto, using(crate::proofs::Promises::annotation, crate::proofs::Promises::no_annotation, crate::proofs::Promises::by_terminal))]
fn refusal_at_stopper(alloc: Global, tokens: &mut TokenStream<'_>, at: usize) -> ParseRefusal
    requires { read_whole tokens.old language_limits.levels 0 ≡ Err (Syntax at) }
    ensures { Refused tokens.old result }
{
    let place = tokens.place(at);
    match tokens.terminal(at) {
        Terminal::At => match could_begin(alloc, tokens, at) {
            Ok(true) => ParseRefusal::NotInProfile(place, Feature::Annotation),
            Ok(false) => ParseRefusal::Syntax(place),
            Err(_) => ParseRefusal::OutOfMemory,
        },
        _ => located(tokens, Refusal::Syntax(at)),
    }
}

/// Reads the program that the tokens of a text spell.
///
/// The tokens are those that `lex` gives for the text. It answers Ok exactly where they spell a program within the limits: no
/// token stands in more than 64 parentheses, brackets, braces, bodies, unary operators and right sides of `**`, and no
/// expression has more than 256 operators. Else the longest list of first tokens that opens a program has a token behind it,
/// the stopper. Nest comes where some token is too deep and the first such token stands before the stopper, if there is one,
/// with that token's place. Otherwise NotInProfile comes where the stopper is of a feature that the profile leaves out, with
/// the feature, and Syntax where it isn't, both with the stopper's place.
#[tactic(auto, using(crate::proofs::Promises::found, crate::proofs::Promises::too_deep))]
pub fn parse(alloc: Global, text: &str, tokens: &[Token]) -> Result<Program, ParseRefusal>
    ensures program { IfOk result (λ program. OnlyProgram (stream (terminals text.now tokens.now)) language_limits program) }
    ensures refusal { IfErr result (λ refusal. Refused (terminals text.now tokens.now) refusal) }
{
    let mut tokens = TokenStream::new(alloc, text, tokens)?;
    match whole(alloc, &tokens) {
        Ok(program) => Ok(program),
        Err(Refusal::Syntax(at)) => Err(refusal_at_stopper(alloc, &mut tokens, at)),
        Err(refusal) => Err(located(&tokens, refusal)),
    }
}
