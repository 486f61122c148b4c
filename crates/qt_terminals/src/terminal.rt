ghost use Rattle.std.specs.Prelude.{◌≡◌, eqb};
ghost use Rattle.qt_terminals.specs.Alphabet as spec;
ghost use Rattle.qt_terminals.specs.declared.terminal.Terminal.{Terminal};

use qt_tree::refusal::Feature;

/// What the grammar sees of a token: one terminal for each spelling and each kind of literal that the grammar or a refusal tells
/// apart. A reserved word has its own name, but `end` is `EndWord`.
#[derive(Clone, Copy, Debug, PartialEq, Eq)]
pub enum Terminal {
    /// The end of the text.
    End,
    /// A name.
    Name,
    /// A whole number below 2^64.
    Integer,
    /// A number with a point or an exponent.
    Decimal,
    /// A text of 1 to 64 binary digits, with single `_` between them.
    BitText,
    /// Any other text in quotes.
    Text,
    /// `pi` or `π`.
    Pi,
    /// `tau` or `τ`.
    Tau,
    /// The word `euler`, or its letter `ℇ`.
    Euler,
    /// A whole number above 2^64 - 1, or a text of more than 64 binary digits.
    Wide,
    /// A number with a unit of time.
    Timing,
    /// A number with `im`.
    Imaginary,
    /// A physical qubit, as `$0`.
    Hardware,
    /// `#pragma`.
    HashPragma,
    /// `#dim`.
    HashDim,
    /// Any other word behind a `#`.
    Hash,
    OpenQasm,
    Include,
    Qubit,
    Qreg,
    Bit,
    Creg,
    Bool,
    Int,
    Uint,
    Angle,
    Array,
    Const,
    Let,
    Input,
    Output,
    Gate,
    Def,
    Return,
    Measure,
    Reset,
    Barrier,
    If,
    Else,
    While,
    For,
    In,
    Break,
    Continue,
    EndWord,
    Ctrl,
    NegCtrl,
    Inv,
    Pow,
    GPhase,
    True,
    False,
    SizeOf,
    Float,
    Complex,
    Duration,
    Stretch,
    Delay,
    Box,
    DurationOf,
    Cal,
    DefCal,
    DefCalGrammar,
    Extern,
    Pragma,
    Switch,
    Case,
    Default,
    /// `(`
    LeftParen,
    /// `)`
    RightParen,
    /// `[`
    LeftBracket,
    /// `]`
    RightBracket,
    /// `{`
    LeftBrace,
    /// `}`
    RightBrace,
    /// `;`
    Semicolon,
    /// `,`
    Comma,
    /// `:`
    Colon,
    /// `@`
    At,
    /// `->`
    Arrow,
    /// `=`
    Assign,
    /// `==`
    EqualEqual,
    /// `!=`
    NotEqual,
    /// `<`
    Less,
    /// `<=`
    LessEqual,
    /// `>`
    Greater,
    /// `>=`
    GreaterEqual,
    /// `<<`
    ShiftLeft,
    /// `>>`
    ShiftRight,
    /// `+`
    Plus,
    /// `-`
    Minus,
    /// `*`
    Star,
    /// `/`
    Slash,
    /// `%`
    Percent,
    /// `**`
    StarStar,
    /// `++`
    PlusPlus,
    /// `&`
    And,
    /// `&&`
    AndAnd,
    /// `|`
    Or,
    /// `||`
    OrOr,
    /// `^`
    Caret,
    /// `!`
    Bang,
    /// `~`
    Tilde,
    /// `+=`
    PlusAssign,
    /// `-=`
    MinusAssign,
    /// `*=`
    StarAssign,
    /// `/=`
    SlashAssign,
    /// `%=`
    PercentAssign,
    /// `**=`
    StarStarAssign,
    /// `&=`
    AndAssign,
    /// `|=`
    OrAssign,
    /// `^=`
    CaretAssign,
    /// `<<=`
    ShiftLeftAssign,
    /// `>>=`
    ShiftRightAssign,
}

impl Terminal {
    /// The number of the terminal. `End` has 0, and no two terminals have one number.
    pub fn code(self) -> u8
        ensures { result ≡ spec.code self }
    {
        self as u8
    }

    /// Whether the terminal is that one, by their numbers.
    pub fn is(self, other: Terminal) -> bool
        ensures { result ≡ eqb (spec.code self) (spec.code other) }
    {
        self.code() == other.code()
    }

    /// Whether the terminal is an operator inside an expression.
    pub fn is_operator(&self) -> bool
        ensures { result ≡ spec.is_operator self.now }
    {
        matches!(
            self,
            Terminal::OrOr
                | Terminal::AndAnd
                | Terminal::Or
                | Terminal::Caret
                | Terminal::And
                | Terminal::EqualEqual
                | Terminal::NotEqual
                | Terminal::Less
                | Terminal::LessEqual
                | Terminal::Greater
                | Terminal::GreaterEqual
                | Terminal::ShiftLeft
                | Terminal::ShiftRight
                | Terminal::Plus
                | Terminal::Minus
                | Terminal::Star
                | Terminal::Slash
                | Terminal::Percent
                | Terminal::StarStar
                | Terminal::Bang
                | Terminal::Tilde
        )
    }

    /// The feature that a token of this terminal is refused by, where it stops the reading of a program.
    pub fn feature(&self) -> Option<Feature>
        ensures { result ≡ spec.feature_of self.now }
    {
        match self {
            Terminal::Float => Some(Feature::Float),
            Terminal::Complex => Some(Feature::Complex),
            Terminal::Duration => Some(Feature::Duration),
            Terminal::Stretch => Some(Feature::Stretch),
            Terminal::Delay => Some(Feature::Delay),
            Terminal::Box => Some(Feature::Box),
            Terminal::DurationOf => Some(Feature::DurationOf),
            Terminal::Cal => Some(Feature::Cal),
            Terminal::DefCal => Some(Feature::DefCal),
            Terminal::DefCalGrammar => Some(Feature::DefCalGrammar),
            Terminal::Extern => Some(Feature::Extern),
            Terminal::Pragma => Some(Feature::Pragma),
            Terminal::Euler => Some(Feature::Euler),
            Terminal::Switch => Some(Feature::Switch),
            Terminal::Case => Some(Feature::Case),
            Terminal::Default => Some(Feature::Default),
            Terminal::Decimal => Some(Feature::Decimal),
            Terminal::Timing => Some(Feature::Timing),
            Terminal::Imaginary => Some(Feature::Imaginary),
            Terminal::Hardware => Some(Feature::Hardware),
            Terminal::Wide => Some(Feature::Wide),
            Terminal::HashPragma => Some(Feature::Pragma),
            Terminal::HashDim => Some(Feature::Dim),
            Terminal::Hash => Some(Feature::Hash),
            _ => None,
        }
    }
}

/// No two terminals have one number.
#[tactic(auto, using(crate::proofs::Codes::code_same))]
pub fn codes_differ()
    ensures { (a b : Terminal) → spec.code a ≡ spec.code b → a ≡ b }
{}
