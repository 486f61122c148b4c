ghost use Rattle.std.specs.Prelude.{◌≡◌};
ghost use Rattle.qt_const_rules.specs.Modes.{decides, deciding, is_sum, mode_in, mode_of_size, right_mode, way_of};

use crate::constant::truth_of;
use crate::sorts::Sort;
use qt_tree::expression::InfixOperator;
use qt_value::constant::ConstValue;

/// How an expression is reckoned.
#[derive(Clone, Copy)]
pub enum Mode {
    /// As it stands.
    Plain,
    /// Inside a phase or the exponent of `pow`, where a division of whole numbers leaves no rest.
    Exact,
    /// On the right side of an `&&` or `||` that the left side decides: its names and types are judged, and it isn't evaluated.
    /// So a division by 0 there is no refusal, with two exceptions. It counts as the value 0, so an index that is made of it may still be
    /// out of range. Inside a phase, and in the constants that a type or a slice depends on, divisions are refused as elsewhere.
    Unevaluated,
}

/// How an operand is reckoned.
#[derive(Clone, Copy)]
pub enum Way {
    /// In that mode.
    In(Mode),
    /// As a whole number in a sum or difference with a phase. It is typed first: 0 counts as phase 0, and no row fits another number.
    BesidePhase,
}

/// The truth value of the left side that decides: false for `&&`, and true for `||`.
fn deciding(operator: InfixOperator) -> bool
    ensures { result ≡ deciding operator }
{
    match operator {
        InfixOperator::LogicalOr => true,
        _ => false,
    }
}

/// Whether the left side of `&&` or `||` decides.
pub fn decides(operator: InfixOperator, left: bool) -> bool
    ensures { result ≡ decides operator left }
{
    left == deciding(operator)
}

/// How the right side of `&&` or `||` is reckoned behind this left side: it isn't evaluated where the left side decides.
pub fn right_mode(mode: Mode, operator: InfixOperator, left: &ConstValue) -> Mode
    ensures { result ≡ right_mode mode operator left.now }
{
    match truth_of(*left) {
        Ok(left) if decides(operator, left) => Mode::Unevaluated,
        _ => mode,
    }
}

/// How the operands of an operator with a result of this sort are reckoned: exactly where it is a phase.
pub fn mode_in(mode: Mode, sort: Sort) -> Mode
    ensures { result ≡ mode_in mode sort }
{
    match sort {
        Sort::Phase => Mode::Exact,
        _ => mode,
    }
}

fn is_sum(operator: InfixOperator) -> bool
    ensures { result ≡ is_sum operator }
{
    matches!(operator, InfixOperator::Add | InfixOperator::Sub)
}

/// How an operand of a sort is reckoned beside one of the other sort.
pub fn way_of(operator: InfixOperator, mode: Mode, own: Sort, other: Sort) -> Way
    ensures { result ≡ way_of operator mode own other }
{
    match (own, other) {
        (Sort::Whole, Sort::Phase) if is_sum(operator) => Way::BesidePhase,
        _ => Way::In(mode),
    }
}

/// How a constant is reckoned that a type or a slice depends on: it is evaluated.
pub fn mode_of_size(mode: Mode) -> Mode
    ensures { result ≡ mode_of_size mode }
{
    match mode {
        Mode::Unevaluated => Mode::Plain,
        _ => mode,
    }
}
