//! The terminal of a token, by its kind and its spelling.

ghost use Rattle.std.specs.Prelude.{◌≡◌, map};
ghost use Rattle.std.specs.List.{zip};
ghost use Rattle.qt_terminals.specs.Alphabet as spec;

use crate::literal::is_bit_text;
use crate::terminal::Terminal;
use qt_lex::spellings::{CONSTANTS, RESERVED_WORDS, SYMBOLS};
use qt_lex::tokens::Kind;

/// The terminals of the reserved words, in the order of the lexer's table.
const RESERVED_TERMINALS: [Terminal; 53] = [
    Terminal::OpenQasm,
    Terminal::Include,
    Terminal::Qubit,
    Terminal::Qreg,
    Terminal::Bit,
    Terminal::Creg,
    Terminal::Bool,
    Terminal::Int,
    Terminal::Uint,
    Terminal::Angle,
    Terminal::Array,
    Terminal::Const,
    Terminal::Let,
    Terminal::Input,
    Terminal::Output,
    Terminal::Gate,
    Terminal::Def,
    Terminal::Return,
    Terminal::Measure,
    Terminal::Reset,
    Terminal::Barrier,
    Terminal::If,
    Terminal::Else,
    Terminal::While,
    Terminal::For,
    Terminal::In,
    Terminal::Break,
    Terminal::Continue,
    Terminal::EndWord,
    Terminal::Ctrl,
    Terminal::NegCtrl,
    Terminal::Inv,
    Terminal::Pow,
    Terminal::GPhase,
    Terminal::True,
    Terminal::False,
    Terminal::SizeOf,
    Terminal::Float,
    Terminal::Complex,
    Terminal::Duration,
    Terminal::Stretch,
    Terminal::Delay,
    Terminal::Box,
    Terminal::DurationOf,
    Terminal::Cal,
    Terminal::DefCal,
    Terminal::DefCalGrammar,
    Terminal::Extern,
    Terminal::Pragma,
    Terminal::Euler,
    Terminal::Switch,
    Terminal::Case,
    Terminal::Default,
];

/// The terminals of the symbols, in the order of the lexer's table.
const SYMBOL_TERMINALS: [Terminal; 45] = [
    Terminal::LeftParen,
    Terminal::RightParen,
    Terminal::LeftBracket,
    Terminal::RightBracket,
    Terminal::LeftBrace,
    Terminal::RightBrace,
    Terminal::Semicolon,
    Terminal::Comma,
    Terminal::Colon,
    Terminal::At,
    Terminal::Arrow,
    Terminal::Assign,
    Terminal::EqualEqual,
    Terminal::NotEqual,
    Terminal::Less,
    Terminal::LessEqual,
    Terminal::Greater,
    Terminal::GreaterEqual,
    Terminal::ShiftLeft,
    Terminal::ShiftRight,
    Terminal::Plus,
    Terminal::Minus,
    Terminal::Star,
    Terminal::Slash,
    Terminal::Percent,
    Terminal::StarStar,
    Terminal::PlusPlus,
    Terminal::And,
    Terminal::AndAnd,
    Terminal::Or,
    Terminal::OrOr,
    Terminal::Caret,
    Terminal::Bang,
    Terminal::Tilde,
    Terminal::PlusAssign,
    Terminal::MinusAssign,
    Terminal::StarAssign,
    Terminal::SlashAssign,
    Terminal::PercentAssign,
    Terminal::StarStarAssign,
    Terminal::AndAssign,
    Terminal::OrAssign,
    Terminal::CaretAssign,
    Terminal::ShiftLeftAssign,
    Terminal::ShiftRightAssign,
];

/// The terminals of the constants, in the order of the lexer's table.
const CONSTANT_TERMINALS: [Terminal; 4] = [
    Terminal::Pi,
    Terminal::Tau,
    Terminal::Pi,
    Terminal::Tau,
];

/// The spellings behind `#` that are features of their own, and their terminals.
const HASHES: [&[u8]; 2] = [b"#pragma", b"#dim"];

const HASH_TERMINALS: [Terminal; 2] = [Terminal::HashPragma, Terminal::HashDim];

/// The terminal of a spelling in a table whose terminals stand in the same order, and another terminal where it isn't there.
fn terminal_in(
    mut spellings: &[&[u8]],
    mut terminals: &[Terminal],
    other: Terminal,
    spelling: &[u8],
) -> Terminal
    ensures { result ≡ spec.terminal_in (zip (map (λ row. row.now) spellings.entry.now) terminals.entry.now) other spelling.now }
{
    'table: while let [first, later_spellings @ ..] = spellings {
        let [terminal, later_terminals @ ..] = terminals else {
            return other;
        };
        if spelling == *first {
            return *terminal;
        }
        spellings = later_spellings;
        terminals = later_terminals;
    }
    other
}

/// The terminal of a token of that kind and that spelling.
#[tactic(auto, unfolding(crate::specs::Alphabet::terminal_of, crate::specs::Alphabet::reserved_words, crate::specs::Alphabet::symbols, crate::specs::Alphabet::constants, crate::specs::Alphabet::hashes))]
pub fn terminal_of(kind: Kind, spelling: &[u8]) -> Terminal
    ensures { result ≡ spec.terminal_of kind spelling.now }
{
    match kind {
        Kind::Name => Terminal::Name,
        Kind::Reserved => terminal_in(
            &RESERVED_WORDS,
            &RESERVED_TERMINALS,
            Terminal::Name,
            spelling,
        ),
        Kind::Integer => Terminal::Integer,
        Kind::Wide => Terminal::Wide,
        Kind::Decimal => Terminal::Decimal,
        Kind::Timing => Terminal::Timing,
        Kind::Imaginary => Terminal::Imaginary,
        Kind::Text => {
            if is_bit_text(spelling) {
                Terminal::BitText
            } else {
                Terminal::Text
            }
        }
        Kind::Hardware => Terminal::Hardware,
        Kind::Hash => terminal_in(&HASHES, &HASH_TERMINALS, Terminal::Hash, spelling),
        Kind::Symbol => terminal_in(&SYMBOLS, &SYMBOL_TERMINALS, Terminal::Name, spelling),
        Kind::Constant => terminal_in(&CONSTANTS, &CONSTANT_TERMINALS, Terminal::Name, spelling),
        Kind::Euler => Terminal::Euler,
        Kind::End => Terminal::End,
    }
}
