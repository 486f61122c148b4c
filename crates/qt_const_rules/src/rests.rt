ghost use Rattle.std.specs.Prelude.{◌≡◌};
ghost use Rattle.qt_value.specs.Results.{result_of};
ghost use Rattle.qt_value.specs.declared.operators.Op.TheVariants as op;
ghost use Rattle.qt_const_rules.specs.Rests.{is_inexact, is_rest, leaves_rest};

use crate::modes::Mode;
use qt_value::apply::apply;
use qt_value::operators::{Op, op_type};
use qt_value::value::Value;

/// Whether a division of whole numbers leaves a rest where none may be left: inside a phase, or in the exponent of `pow`.
pub fn is_inexact(mode: Mode, op: Op, left: Value, right: Value) -> bool
    ensures { result ≡ is_inexact mode op left right }
{
    match mode {
        Mode::Exact => leaves_rest(op, left, right),
        _ => false,
    }
}

fn leaves_rest(op: Op, left: Value, right: Value) -> bool
    ensures { result ≡ leaves_rest op left right }
{
    match op {
        Op::Div => left.kind().is_whole() && right.kind().is_whole() && has_rest(left, right),
        _ => false,
    }
}

fn has_rest(left: Value, right: Value) -> bool
    ensures { result ≡ is_rest (result_of op.Rem left right) }
{
    if op_type(Op::Rem, left.kind(), right.kind()).is_none() {
        return false;
    }
    match apply(Op::Rem, left, right) {
        Ok(rest) => rest.bits() != 0,
        Err(_) => false,
    }
}
