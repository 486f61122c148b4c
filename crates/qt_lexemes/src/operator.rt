//! How operators and truth values are written.

ghost use Rattle.std.specs.Prelude.{◌≡◌};
ghost use Rattle.qt_lexemes.specs.Operators as spec;

use qt_tree::expression::{CompoundOperator, InfixOperator, PrefixOperator};

/// How a binary operator is written.
pub fn operator_text(operator: InfixOperator) -> &'static str
    ensures { result.now ≡ spec.operator_text operator }
{
    match operator {
        InfixOperator::LogicalOr => "||",
        InfixOperator::LogicalAnd => "&&",
        InfixOperator::Or => "|",
        InfixOperator::Xor => "^",
        InfixOperator::And => "&",
        InfixOperator::Eq => "==",
        InfixOperator::Ne => "!=",
        InfixOperator::Lt => "<",
        InfixOperator::Le => "<=",
        InfixOperator::Gt => ">",
        InfixOperator::Ge => ">=",
        InfixOperator::Shl => "<<",
        InfixOperator::Shr => ">>",
        InfixOperator::Add => "+",
        InfixOperator::Sub => "-",
        InfixOperator::Mul => "*",
        InfixOperator::Div => "/",
        InfixOperator::Rem => "%",
        InfixOperator::Pow => "**",
    }
}

/// How the operator of a compound assignment is written, with its `=`.
pub fn compound_text(operator: CompoundOperator) -> &'static str
    ensures { result.now ≡ spec.compound_text operator }
{
    match operator {
        CompoundOperator::Add => "+=",
        CompoundOperator::Sub => "-=",
        CompoundOperator::Mul => "*=",
        CompoundOperator::Div => "/=",
        CompoundOperator::Rem => "%=",
        CompoundOperator::Pow => "**=",
        CompoundOperator::And => "&=",
        CompoundOperator::Or => "|=",
        CompoundOperator::Xor => "^=",
        CompoundOperator::Shl => "<<=",
        CompoundOperator::Shr => ">>=",
    }
}

/// How a unary operator is written.
pub fn sign_text(operator: PrefixOperator) -> &'static str
    ensures { result.now ≡ spec.sign_text operator }
{
    match operator {
        PrefixOperator::Not => "!",
        PrefixOperator::Turn => "~",
        PrefixOperator::Neg => "-",
    }
}

/// How a truth value is written.
pub fn truth_text(value: bool) -> &'static str
    ensures { result.now ≡ spec.truth_text value }
{
    if value { "true" } else { "false" }
}
