ghost use Rattle.std.specs.Prelude.{◌≡◌};
ghost use Rattle.qt_const_rules.specs.Sorts.{bits_sort, quotient_sort, sort_of_constant, sort_of_infix, sort_of_prefix, sum_sort, turned_sort};

use qt_tree::expression::{InfixOperator, PrefixOperator};
use qt_value::constant::ConstValue;
use qt_value::types::ValueType;

/// The types of operands, as far as they decide whether an operator gives a phase.
#[derive(Clone, Copy)]
pub enum Sort {
    Phase,
    Angle,
    Whole,
}

/// The sort of a constant.
pub fn sort_of_constant(constant: ConstValue) -> Sort
    ensures { result ≡ sort_of_constant constant }
{
    match constant {
        ConstValue::Phase(_) => Sort::Phase,
        ConstValue::Value(value) => match value.kind() {
            ValueType::Angle(_) => Sort::Angle,
            _ => Sort::Whole,
        },
    }
}

fn sum_sort(left: Sort, right: Sort) -> Sort
    ensures { result ≡ sum_sort left right }
{
    match (left, right) {
        (Sort::Angle, _) | (_, Sort::Angle) => Sort::Angle,
        (Sort::Whole, Sort::Whole) => Sort::Whole,
        _ => Sort::Phase,
    }
}

fn bits_sort(left: Sort, right: Sort) -> Sort
    ensures { result ≡ bits_sort left right }
{
    match (left, right) {
        (Sort::Angle, _) | (_, Sort::Angle) => Sort::Angle,
        _ => Sort::Whole,
    }
}

fn quotient_sort(left: Sort, right: Sort) -> Sort
    ensures { result ≡ quotient_sort left right }
{
    match right {
        Sort::Whole => left,
        _ => Sort::Whole,
    }
}

fn turned_sort(operand: Sort) -> Sort
    ensures { result ≡ turned_sort operand }
{
    match operand {
        Sort::Angle => Sort::Angle,
        _ => Sort::Whole,
    }
}

/// The sort of the result of an operator between its operands.
pub fn sort_of_infix(operator: InfixOperator, left: Sort, right: Sort) -> Sort
    ensures { result ≡ sort_of_infix operator left right }
{
    match operator {
        InfixOperator::Add | InfixOperator::Sub | InfixOperator::Mul => sum_sort(left, right),
        InfixOperator::Div => quotient_sort(left, right),
        InfixOperator::Or | InfixOperator::Xor | InfixOperator::And => bits_sort(left, right),
        InfixOperator::Shl | InfixOperator::Shr => turned_sort(left),
        _ => Sort::Whole,
    }
}

/// The sort of the result of an operator before its operand.
pub fn sort_of_prefix(operator: PrefixOperator, operand: Sort) -> Sort
    ensures { result ≡ sort_of_prefix operator operand }
{
    match operator {
        PrefixOperator::Neg => operand,
        PrefixOperator::Turn => turned_sort(operand),
        PrefixOperator::Not => Sort::Whole,
    }
}
