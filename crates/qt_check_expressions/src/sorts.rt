//! Which expressions are phases and angles, and which are constant as a whole.

ghost use Rattle.std.specs.Prelude.{◌≡◌, nat_eq, map};
ghost use Rattle.std.specs.Option.{option_copied};
ghost use Rattle.qt_const.specs.Value.{count_of};
ghost use Rattle.qt_const_rules.specs.Sorts.{sort_of_type};
ghost use Rattle.qt_typing.specs.declared.names.Names.{Names};
ghost use Rattle.qt_typing.specs.Sorts as spec;

use qt_const_rules::sorts::{Sort, sort_of_infix, sort_of_prefix};
use qt_names::named::{Named, Places, What};
use qt_tree::expression::{Expr, Index, Scalar};
use qt_typing::names::Names;
use qt_value::types::ValueType;
use sqlite_items::Items;

/// Whether exactly so many indexes stand in the brackets.
fn has_indexes(brackets: &[Items<Index>], wanted: usize) -> bool
    ensures { result ≡ nat_eq (count_of brackets.now) wanted }
{
    match brackets {
        [] => wanted == 0,
        [first, rest @ ..] => first.len() <= wanted && has_indexes(rest, wanted - first.len()),
    }
}

/// The sort of a value of a type.
fn sort_of_type(kind: ValueType) -> Sort
    ensures { result ≡ sort_of_type kind }
{
    match kind {
        ValueType::Angle(_) => Sort::Angle,
        _ => Sort::Whole,
    }
}

/// The sort of a name of which this is known, and the indexes behind it.
#[tactic(auto, unfolding(qt_typing::specs::Sorts::sort_of_named))]
fn sort_of_named(brackets: &[Items<Index>], named: Option<&Named>) -> Sort
    ensures { result ≡ spec.sort_of_named (count_of brackets.now) (option_copied named.entry) }
{
    match named {
        Some(it) => match it.of {
            Some(kind) if has_indexes(brackets, it.lengths.items().len()) => sort_of_type(kind),
            _ => Sort::Whole,
        },
        None => Sort::Whole,
    }
}

/// The sort of an expression.
#[tactic(auto, using(crate::proofs::SortViews::sorts))]
pub fn sort_at(names: &Names, expr: &Expr) -> Sort
    ensures { result ≡ spec.sort_at names.now expr.now }
{
    match expr {
        Expr::Pi | Expr::Tau => Sort::Phase,
        Expr::Whole { .. } | Expr::BitText { .. } | Expr::Bool { .. } => Sort::Whole,
        Expr::Call { .. } | Expr::SizeOf { .. } => Sort::Whole,
        Expr::Cast { to, .. } => sort_of_cast(to),
        Expr::Parenthesized { inner } => sort_at(names, inner.get()),
        Expr::Name { name, brackets } => sort_of_named(
            brackets.as_slice(),
            names.scopes.known(name.text()),
        ),
        Expr::Unary { operator, operand } => sort_of_prefix(
            *operator,
            sort_at(names, operand.get()),
        ),
        Expr::Binary {
            operator,
            left,
            right,
        } => {
            let left = sort_at(names, left.get());
            sort_of_infix(*operator, left, sort_at(names, right.get()))
        }
    }
}

#[tactic(auto, using(crate::proofs::SortViews::scalars))]
fn sort_of_cast(to: &Scalar) -> Sort
    ensures { (names : Names) → result ≡ spec.scalar_sort_at names to.now }
{
    match to {
        Scalar::Angle { .. } => Sort::Angle,
        _ => Sort::Whole,
    }
}

/// Whether what a name stands for has a slot, or another number.
fn has_slot(places: &Places) -> bool
    ensures { result ≡ spec.has_slot places.now }
{
    match places {
        Places::Number { .. } => true,
        Places::Nowhere => false,
        Places::Qubits { .. } => false,
    }
}

/// Whether something of a kind is a variable, a parameter that has a value, or an input.
fn is_variable_kind(it: &Named) -> bool
    ensures { result ≡ spec.is_variable_kind it.now.what it.now }
{
    match it.what {
        What::Variable | What::Parameter => it.of.is_some(),
        What::Constant => has_slot(&it.places),
        What::Qubits | What::Alias | What::Gate | What::Subroutine => false,
    }
}

/// Whether a name stands for a variable, a parameter that has a value, or an input.
#[tactic(auto, unfolding(qt_typing::specs::Sorts::is_variable))]
fn is_variable(named: Option<&Named>) -> bool
    ensures { result ≡ spec.is_variable (option_copied named.entry) }
{
    match named {
        Some(it) => is_variable_kind(it),
        None => false,
    }
}

/// Whether an expression is constant as a whole: no name in it is that of a variable.
#[cycle(fixed)]
#[tactic(auto, using(crate::proofs::FixedViews::expressions))]
pub fn is_fixed(names: &Names, expr: &Expr) -> bool
    ensures { result ≡ spec.is_fixed names.now expr.now }
{
    match expr {
        Expr::Pi | Expr::Tau => true,
        Expr::Whole { .. } | Expr::BitText { .. } | Expr::Bool { .. } | Expr::SizeOf { .. } => true,
        Expr::Cast { operand, .. } => is_fixed(names, operand.get()),
        Expr::Parenthesized { inner } => is_fixed(names, inner.get()),
        Expr::Call { arguments, .. } => all_fixed(names, arguments.as_slice()),
        Expr::Name { name, brackets } => {
            !is_variable(names.scopes.known(name.text()))
                && brackets_fixed(names, brackets.as_slice())
        }
        Expr::Unary { operand, .. } => is_fixed(names, operand.get()),
        Expr::Binary { left, right, .. } => is_fixed(names, left.get())
            && is_fixed(names, right.get()),
    }
}

#[cycle(fixed)]
fn all_fixed(names: &Names, exprs: &[Expr]) -> bool
    ensures { result ≡ spec.all_fixed (map (spec.is_fixed names.now) exprs.now) }
{
    match exprs {
        [] => true,
        [first, rest @ ..] => is_fixed(names, first) && all_fixed(names, rest),
    }
}

#[cycle(fixed)]
#[tactic(auto, using(crate::proofs::FixedViews::indexes))]
fn index_fixed(names: &Names, index: &Index) -> bool
    ensures { result ≡ spec.index_fixed_at names.now index.now }
{
    match index {
        Index::At { place } => is_fixed(names, place),
        _ => true,
    }
}

#[cycle(fixed)]
fn indexes_fixed(names: &Names, indexes: &[Index]) -> bool
    ensures { result ≡ spec.all_fixed (map (spec.index_fixed_at names.now) indexes.now) }
{
    match indexes {
        [] => true,
        [first, rest @ ..] => index_fixed(names, first) && indexes_fixed(names, rest),
    }
}

#[cycle(fixed)]
fn brackets_fixed(names: &Names, brackets: &[Items<Index>]) -> bool
    ensures { result ≡ spec.each_fixed (map (map (spec.index_fixed_at names.now)) brackets.now) }
{
    match brackets {
        [] => true,
        [first, rest @ ..] => {
            indexes_fixed(names, first.as_slice()) && brackets_fixed(names, rest)
        }
    }
}
