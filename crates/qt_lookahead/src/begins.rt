//! Which forms begin with the next terminal: FIRST.

ghost use Rattle.std.specs.Prelude.{◌≡◌};
ghost use Rattle.qt_terminals.specs.Alphabet as alphabet;
ghost use Rattle.qt_terminals.specs.Terminals.{stream};
ghost use Rattle.qt_grammar.specs.Sorts as name;
ghost use Rattle.qt_grammar.specs.Form.{member, terminal_at};
ghost use Rattle.qt_grammar.specs.Lookahead.{begins_expr, first, first_of};
ghost use Rattle.qt_grammar.specs.Language as g;

use qt_terminals::stream::TokenStream;
use qt_terminals::terminal::Terminal;

/// Whether an expression begins with that terminal.
pub fn begins_expression(terminal: Terminal) -> bool
    ensures { result ≡ member (alphabet.code terminal) begins_expr }
{
    matches!(
        terminal,
        Terminal::Minus
            | Terminal::Bang
            | Terminal::Tilde
            | Terminal::Integer
            | Terminal::BitText
            | Terminal::Pi
            | Terminal::Tau
            | Terminal::True
            | Terminal::False
            | Terminal::LeftParen
            | Terminal::Name
            | Terminal::Bool
            | Terminal::Bit
            | Terminal::Int
            | Terminal::Uint
            | Terminal::Angle
            | Terminal::SizeOf
    )
}

/// Whether what stands in the brackets of an index begins with that terminal.
pub fn begins_index(terminal: Terminal) -> bool
    ensures { result ≡ member (alphabet.code terminal) (first_of name.an_index) }
{
    matches!(terminal, Terminal::LeftBrace | Terminal::Colon) || begins_expression(terminal)
}

/// Does a scalar type begin here?
pub fn begins_scalar(tokens: &TokenStream<'_>, at: usize) -> bool
    ensures { result ≡ member (terminal_at (stream tokens.now) at) (first g.a_scalar) }
{
    match tokens.terminal(at) {
        Terminal::Bool | Terminal::Bit | Terminal::Int | Terminal::Uint | Terminal::Angle => true,
        _ => false,
    }
}

/// Does a right side begin here?
pub fn begins_right(tokens: &TokenStream<'_>, at: usize) -> bool
    ensures { result ≡ member (terminal_at (stream tokens.now) at) (first g.a_right) }
{
    let terminal = tokens.terminal(at);
    terminal == Terminal::Measure || begins_expression(terminal)
}

/// Does a statement begin here?
pub fn begins_statement(tokens: &TokenStream<'_>, at: usize) -> bool
    ensures { result ≡ member (terminal_at (stream tokens.now) at) (first g.a_statement) }
{
    match tokens.terminal(at) {
        Terminal::Bool
        | Terminal::Bit
        | Terminal::Int
        | Terminal::Uint
        | Terminal::Angle
        | Terminal::Creg => true,
        Terminal::Const
        | Terminal::Let
        | Terminal::Name
        | Terminal::Inv
        | Terminal::Pow
        | Terminal::Ctrl => true,
        Terminal::NegCtrl
        | Terminal::GPhase
        | Terminal::Measure
        | Terminal::Reset
        | Terminal::Barrier => true,
        Terminal::If
        | Terminal::While
        | Terminal::For
        | Terminal::Break
        | Terminal::Continue
        | Terminal::Return => true,
        Terminal::EndWord => true,
        _ => false,
    }
}

/// Does an item of an array's value begin here?
pub fn begins_entry(tokens: &TokenStream<'_>, at: usize) -> bool
    ensures { result ≡ member (terminal_at (stream tokens.now) at) (first_of name.an_entry) }
{
    let terminal = tokens.terminal(at);
    terminal == Terminal::LeftBrace || begins_expression(terminal)
}

/// Does a statement of a gate's body begin here?
pub fn begins_gate_line(tokens: &TokenStream<'_>, at: usize) -> bool
    ensures { result ≡ member (terminal_at (stream tokens.now) at) (first g.a_gate_line) }
{
    match tokens.terminal(at) {
        Terminal::Inv
        | Terminal::Pow
        | Terminal::Ctrl
        | Terminal::NegCtrl
        | Terminal::GPhase
        | Terminal::Name => true,
        Terminal::Barrier => true,
        _ => false,
    }
}

/// Does a parameter of a subroutine begin here?
pub fn begins_parameter(tokens: &TokenStream<'_>, at: usize) -> bool
    ensures { result ≡ member (terminal_at (stream tokens.now) at) (first_of name.parameters) }
{
    match tokens.terminal(at) {
        Terminal::Qubit
        | Terminal::Bool
        | Terminal::Bit
        | Terminal::Int
        | Terminal::Uint
        | Terminal::Angle => true,
        _ => false,
    }
}

/// Does an item of a program begin here?
pub fn begins_item(tokens: &TokenStream<'_>, at: usize) -> bool
    ensures { result ≡ member (terminal_at (stream tokens.now) at) (first g.global) }
{
    match tokens.terminal(at) {
        Terminal::Include | Terminal::Input | Terminal::Output | Terminal::Qubit | Terminal::Qreg =>
            true,
        Terminal::Array
        | Terminal::Gate
        | Terminal::Def
        | Terminal::Bool
        | Terminal::Bit
        | Terminal::Int => true,
        Terminal::Uint
        | Terminal::Angle
        | Terminal::Creg
        | Terminal::Const
        | Terminal::Let
        | Terminal::Name => true,
        Terminal::Inv | Terminal::Pow | Terminal::Ctrl | Terminal::NegCtrl | Terminal::GPhase =>
            true,
        Terminal::Measure
        | Terminal::Reset
        | Terminal::Barrier
        | Terminal::If
        | Terminal::While
        | Terminal::For => true,
        Terminal::Break | Terminal::Continue | Terminal::Return | Terminal::EndWord => true,
        _ => false,
    }
}

/// Does a modifier begin here?
pub fn begins_modifier(tokens: &TokenStream<'_>, at: usize) -> bool
    ensures { result ≡ member (terminal_at (stream tokens.now) at) (first g.a_modifier) }
{
    matches!(
        tokens.terminal(at),
        Terminal::Inv | Terminal::Pow | Terminal::Ctrl | Terminal::NegCtrl
    )
}

/// Does what stands behind the target of an assignment begin here?
pub fn begins_assignment(tokens: &TokenStream<'_>, at: usize) -> bool
    ensures { result ≡ member (terminal_at (stream tokens.now) at) (first g.behind_target) }
{
    match tokens.terminal(at) {
        Terminal::Assign | Terminal::PlusAssign | Terminal::MinusAssign | Terminal::StarAssign =>
            true,
        Terminal::SlashAssign
        | Terminal::PercentAssign
        | Terminal::StarStarAssign
        | Terminal::AndAssign => true,
        Terminal::OrAssign
        | Terminal::CaretAssign
        | Terminal::ShiftLeftAssign
        | Terminal::ShiftRightAssign => true,
        _ => false,
    }
}
