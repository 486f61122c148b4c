//! What lexemes are to their neighbours on a line.

ghost use Rattle.std.specs.Prelude.{◌≡◌};
ghost use Rattle.qt_lexemes.specs.Spacing as spacing;

/// What a lexeme of the text is, as far as the space beside it goes.
#[derive(Clone, Copy, Debug, PartialEq, Eq)]
pub enum Role {
    /// A name of the program.
    Name,
    /// A whole number.
    Integer,
    /// The number of a version, where it isn't whole.
    Decimal,
    /// A text in quotes.
    Text,
    /// `pi` and `tau`.
    Constant,
    /// Any other reserved word, types among them.
    Keyword,
    /// `if`, `while` and `for`.
    Head,
    /// `else`
    Else,
    /// `in`
    In,
    /// A binary operator, `=`, a compound assignment, `->`, `++` and `@`.
    Operator,
    /// A unary operator.
    Sign,
    /// `,`
    Comma,
    /// `:`
    Colon,
    /// `;`
    Semicolon,
    /// `(`, `[`, and the `{` of a list or a set.
    Opening,
    /// `)`
    ClosingParenthesis,
    /// `]`
    ClosingBracket,
    /// The `}` of a list or a set.
    ClosingBrace,
    /// The `{` of a body.
    BodyStart,
    /// The `}` of a body.
    BodyEnd,
}

/// Has it a space on both sides?
fn is_spaced(role: Role) -> bool
    ensures { result ≡ spacing.is_spaced role }
{
    matches!(role, Role::In | Role::Operator)
}

/// Is it a name, a number, a text or a keyword?
fn is_item(role: Role) -> bool
    ensures { result ≡ spacing.is_item role }
{
    matches!(
        role,
        Role::Name
            | Role::Integer
            | Role::Decimal
            | Role::Text
            | Role::Constant
            | Role::Keyword
            | Role::Head
            | Role::Else
    )
}

/// Does a space stand behind the first because of the second?
fn has_space_behind(last: Role, next: Role) -> bool
    ensures { result ≡ spacing.has_space_behind last next }
{
    match last {
        Role::Comma | Role::Head => true,
        Role::Name
        | Role::Integer
        | Role::Decimal
        | Role::Constant
        | Role::Keyword
        | Role::Else
        | Role::ClosingBracket => is_item(next),
        Role::ClosingParenthesis => matches!(next, Role::Name),
        Role::BodyEnd => matches!(next, Role::Else),
        _ => false,
    }
}

/// Does the one space stand between two neighbouring lexemes of a line?
pub(crate) fn has_space(last: Role, next: Role) -> bool
    ensures { result ≡ spacing.has_space last next }
{
    is_spaced(last)
        || is_spaced(next)
        || matches!(next, Role::BodyStart)
        || has_space_behind(last, next)
}
