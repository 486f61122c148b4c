use qt_value::operators::{Op, UnaryOp};
use qt_value::types::ValueType;

/// The operator on two operands that is spelled so.
pub fn binary_operator(word: &str) -> Option<Op> {
    match word {
        "|" => Some(Op::Or),
        "^" => Some(Op::Xor),
        "&" => Some(Op::And),
        "==" => Some(Op::Eq),
        "!=" => Some(Op::Ne),
        "<" => Some(Op::Lt),
        "<=" => Some(Op::Le),
        ">" => Some(Op::Gt),
        ">=" => Some(Op::Ge),
        "<<" => Some(Op::Shl),
        ">>" => Some(Op::Shr),
        "+" => Some(Op::Add),
        "-" => Some(Op::Sub),
        "*" => Some(Op::Mul),
        "/" => Some(Op::Div),
        "%" => Some(Op::Rem),
        "**" => Some(Op::Pow),
        "rotl" => Some(Op::Rotl),
        "rotr" => Some(Op::Rotr),
        _ => None,
    }
}

/// The operator on one operand that is spelled so. Unary `-` is `neg`.
pub fn unary_operator(word: &str) -> Option<UnaryOp> {
    match word {
        "!" => Some(UnaryOp::Not),
        "~" => Some(UnaryOp::Turn),
        "neg" => Some(UnaryOp::Neg),
        "popcount" => Some(UnaryOp::Popcount),
        _ => None,
    }
}

/// The type of that name and width. A bool is 1 wide, and a phase is 0 wide.
pub fn value_type(name: &str, width: u8) -> Option<ValueType> {
    match name {
        "bool" if width == 1 => Some(ValueType::Bool),
        "bit" => Some(ValueType::Bit(width)),
        "int" => Some(ValueType::Int(width)),
        "uint" => Some(ValueType::Uint(width)),
        "angle" => Some(ValueType::Angle(width)),
        "phase" if width == 0 => Some(ValueType::Phase),
        _ => None,
    }
}

/// The name of a type, without its width.
pub fn type_name(kind: ValueType) -> &'static str {
    match kind {
        ValueType::Bool => "bool",
        ValueType::Bit(_) => "bit",
        ValueType::Int(_) => "int",
        ValueType::Uint(_) => "uint",
        ValueType::Angle(_) => "angle",
        ValueType::Phase => "phase",
    }
}
