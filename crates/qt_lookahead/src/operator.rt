//! Operators.

ghost use Rattle.std.specs.Prelude.{◌≡◌, ◌+◌, ◌<◌, true, false, [], ◌∷◌, IfOk, IfErr, IfSome, IfNone};
ghost use Rattle.qt_terminals.specs.Alphabet as alphabet;
ghost use Rattle.qt_terminals.specs.Terminals.{stream};
ghost use Rattle.qt_terminals.specs.declared.terminal.Terminal.TheVariants as w;
ghost use Rattle.qt_grammar.specs.Form as form;
ghost use Rattle.qt_grammar.specs.Form.{member, terminal_at};
ghost use Rattle.qt_grammar.specs.Language as language;
ghost use Rattle.qt_grammar.specs.declared.refusal.Refusal.TheVariants.{Nest};
ghost use Rattle.qt_lookahead.specs.OneToken.{cap};

use crate::nesting::Nesting;
use crate::one_token::behind;
use qt_grammar::maximum::MOST_OPERATORS;
use qt_grammar::refusal::Refusal;
use qt_terminals::stream::TokenStream;
use qt_terminals::terminal::Terminal;
use qt_tree::expression::{CompoundOperator, InfixOperator, PrefixOperator};

/// How many strengths of binary operators there are below that of `**`.
pub const STRENGTHS: usize = 10;

/// The binary operator of a strength that a terminal is, the weakest having strength 0.
pub fn binary_operator(strength: usize, terminal: Terminal) -> Option<InfixOperator>
    requires { strength < 10 }
    ensures some { IfSome result (λ operator. operator ≡ language.binary_op terminal) }
    ensures yes { IfSome result (λ operator. member (alphabet.code terminal) (language.ops_at strength) ≡ true) }
    ensures within { IfSome result (λ operator. 0 < alphabet.code terminal) }
    ensures none { IfNone result (member (alphabet.code terminal) (language.ops_at strength) ≡ false) }
{
    match (strength, terminal) {
        (0, Terminal::OrOr) => Some(InfixOperator::LogicalOr),
        (1, Terminal::AndAnd) => Some(InfixOperator::LogicalAnd),
        (2, Terminal::Or) => Some(InfixOperator::Or),
        (3, Terminal::Caret) => Some(InfixOperator::Xor),
        (4, Terminal::And) => Some(InfixOperator::And),
        (5, Terminal::EqualEqual) => Some(InfixOperator::Eq),
        (5, Terminal::NotEqual) => Some(InfixOperator::Ne),
        (6, Terminal::Less) => Some(InfixOperator::Lt),
        (6, Terminal::LessEqual) => Some(InfixOperator::Le),
        (6, Terminal::Greater) => Some(InfixOperator::Gt),
        (6, Terminal::GreaterEqual) => Some(InfixOperator::Ge),
        (7, Terminal::ShiftLeft) => Some(InfixOperator::Shl),
        (7, Terminal::ShiftRight) => Some(InfixOperator::Shr),
        (8, Terminal::Plus) => Some(InfixOperator::Add),
        (8, Terminal::Minus) => Some(InfixOperator::Sub),
        (9, Terminal::Star) => Some(InfixOperator::Mul),
        (9, Terminal::Slash) => Some(InfixOperator::Div),
        (9, Terminal::Percent) => Some(InfixOperator::Rem),
        _ => None,
    }
}

/// The unary operator that a terminal is.
pub fn unary_operator(terminal: Terminal) -> Option<PrefixOperator>
    ensures some { IfSome result (λ operator. operator ≡ language.unary_op terminal) }
    ensures yes { IfSome result (λ operator. member (alphabet.code terminal) (alphabet.code w.Minus ∷ alphabet.code w.Bang ∷ alphabet.code w.Tilde ∷ []) ≡ true) }
    ensures within { IfSome result (λ operator. 0 < alphabet.code terminal) }
    ensures none { IfNone result (member (alphabet.code terminal) (alphabet.code w.Minus ∷ alphabet.code w.Bang ∷ alphabet.code w.Tilde ∷ []) ≡ false) }
{
    match terminal {
        Terminal::Minus => Some(PrefixOperator::Neg),
        Terminal::Bang => Some(PrefixOperator::Not),
        Terminal::Tilde => Some(PrefixOperator::Turn),
        _ => None,
    }
}

/// The operator of the compound assignment whose terminal stands here.
pub fn compound_operator(tokens: &TokenStream<'_>, at: usize) -> Option<CompoundOperator>
    ensures some { IfSome result (λ operator. operator ≡ language.compound_op (stream tokens.now at).terminal) }
    ensures yes { IfSome result (λ operator. member (terminal_at (stream tokens.now) at) language.compounds ≡ true) }
    ensures within { IfSome result (λ operator. 0 < terminal_at (stream tokens.now) at) }
    ensures none { IfNone result (member (terminal_at (stream tokens.now) at) language.compounds ≡ false) }
{
    match tokens.terminal(at) {
        Terminal::PlusAssign => Some(CompoundOperator::Add),
        Terminal::MinusAssign => Some(CompoundOperator::Sub),
        Terminal::StarAssign => Some(CompoundOperator::Mul),
        Terminal::SlashAssign => Some(CompoundOperator::Div),
        Terminal::PercentAssign => Some(CompoundOperator::Rem),
        Terminal::StarStarAssign => Some(CompoundOperator::Pow),
        Terminal::AndAssign => Some(CompoundOperator::And),
        Terminal::OrAssign => Some(CompoundOperator::Or),
        Terminal::CaretAssign => Some(CompoundOperator::Xor),
        Terminal::ShiftLeftAssign => Some(CompoundOperator::Shl),
        Terminal::ShiftRightAssign => Some(CompoundOperator::Shr),
        _ => None,
    }
}

/// The place behind an operator; Nest where it is one too many in the outermost expression.
pub fn operator(tokens: &TokenStream<'_>, nesting: Nesting, at: usize) -> Result<usize, Refusal>
    requires { 0 < terminal_at (stream tokens.now) at }
    ensures fits { IfOk result (λ behind. form.within cap nesting.outer ((stream tokens.now at).operators) ≡ true) }
    ensures place { IfOk result (λ behind. behind ≡ at + 1) }
    ensures one_too_many { IfErr result (λ refusal. form.within cap nesting.outer ((stream tokens.now at).operators) ≡ false) }
    ensures refusal { IfErr result (λ refusal. refusal ≡ Nest at) }
{
    let fits = match nesting.outer {
        None => true,
        Some(before) => tokens.operators(at).saturating_sub(before) < MOST_OPERATORS,
    };
    if fits {
        Ok(behind(tokens, at))
    } else {
        Err(Refusal::Nest(at))
    }
}

/// What was read, and the place behind the operator that follows it.
pub fn before_operator<T: Drop>(
    tokens: &TokenStream<'_>,
    nesting: Nesting,
    read: T,
    at: usize,
) -> Result<(T, usize), Refusal>
    requires { 0 < terminal_at (stream tokens.now) at }
    ensures fits { IfOk result (λ found. form.within cap nesting.outer ((stream tokens.now at).operators) ≡ true) }
    ensures place { IfOk result (λ found. found ≡ (read, at + 1)) }
    ensures one_too_many { IfErr result (λ refusal. form.within cap nesting.outer ((stream tokens.now at).operators) ≡ false) }
    ensures refusal { IfErr result (λ refusal. refusal ≡ Nest at) }
{
    let behind = operator(tokens, nesting, at)?;
    Ok((read, behind))
}
