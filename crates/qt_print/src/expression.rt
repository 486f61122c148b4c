//! Expressions, types, indexes and ranges.

ghost use Rattle.std.specs.Prelude.{map};
ghost use Rattle.qt_lexemes.specs.Lexemes as lexemes;
ghost use Rattle.qt_print.specs.Expressions as spec;
ghost use Rattle.qt_print.specs.Page.{Puts, unless_first};

use qt_lexemes::operator::{operator_text, sign_text, truth_text};
use qt_lexemes::page::Page;
use qt_lexemes::role::Role;
use qt_tree::expression::{Expr, Index, Range, Scalar};
use qt_tree::label::Label;
use sqlite_items::{Boxed, Items};

/// An expression.
#[tactic(auto, using(crate::proofs::Equations::expressions))]
#[cycle(expression)]
pub(crate) fn put_expr(page: &mut Page, expr: &Expr)
    ensures { Puts page.old (spec.expr_lexemes expr.now) page.new }
{
    match expr {
        Expr::Whole { value } => page.put_number(*value),
        Expr::BitText { value, length } => page.put_bits(*value, *length),
        Expr::Pi => page.put(Role::Constant, "pi"),
        Expr::Tau => page.put(Role::Constant, "tau"),
        Expr::Bool { value } => page.put(Role::Keyword, truth_text(*value)),
        Expr::Parenthesized { inner } => put_parenthesized(page, inner.get()),
        Expr::Name { name, brackets } => {
            page.put(Role::Name, name.text());
            put_brackets(page, brackets.as_slice());
        }
        Expr::Call { name, arguments } => {
            page.put(Role::Name, name.text());
            put_arguments(page, arguments.as_slice());
        }
        Expr::Cast { to, operand } => {
            put_scalar(page, to);
            put_parenthesized(page, operand.get());
        }
        Expr::SizeOf { name, dimension } => {
            page.put(Role::Keyword, "sizeof");
            put_size_arguments(page, name, dimension);
        }
        Expr::Unary { operator, operand } => {
            page.put(Role::Sign, sign_text(*operator));
            put_expr(page, operand.get());
        }
        Expr::Binary {
            operator,
            left,
            right,
        } => {
            put_expr(page, left.get());
            page.put(Role::Operator, operator_text(*operator));
            put_expr(page, right.get());
        }
    }
}

/// An expression in parentheses.
#[tactic(auto, using(crate::proofs::Puts::puts_both))]
#[cycle(expression)]
pub(crate) fn put_parenthesized(page: &mut Page, inner: &Expr)
    ensures { Puts page.old (lexemes.parenthesized (spec.expr_lexemes inner.now)) page.new }
{
    page.put(Role::Opening, "(");
    put_expr(page, inner);
    page.put(Role::ClosingParenthesis, ")");
}

/// Expressions with commas between, in parentheses.
#[tactic(auto, using(crate::proofs::Puts::puts_both))]
#[cycle(expression)]
pub(crate) fn put_arguments(page: &mut Page, arguments: &[Expr])
    ensures { Puts page.old (lexemes.parenthesized (spec.list_lexemes arguments.now)) page.new }
{
    page.put(Role::Opening, "(");
    put_list(page, arguments);
    page.put(Role::ClosingParenthesis, ")");
}

/// What stands between two parts, before each but the first.
pub(crate) fn put_between(page: &mut Page, first: bool, role: Role, text: &str)
    ensures { Puts page.old (unless_first first (lexemes.lexeme role text.now)) page.new }
{
    if !first {
        page.put(role, text);
    }
}

/// Expressions with commas between.
#[cycle(expression)]
pub(crate) fn put_list(page: &mut Page, all: &[Expr])
    ensures { Puts page.old (spec.list_lexemes all.now) page.new }
{
    let mut first = true;
    for expr in all {
        put_between(page, first, Role::Comma, ",");
        put_expr(page, expr);
        first = false;
    }
}

/// The parts of `sizeof` in parentheses.
#[tactic(auto, using(crate::proofs::Puts::puts_both))]
#[cycle(expression)]
fn put_size_arguments(page: &mut Page, name: &Label, dimension: &Option<Boxed<Expr>>)
    ensures { Puts page.old (spec.size_arguments name.now dimension.now) page.new }
{
    page.put(Role::Opening, "(");
    page.put(Role::Name, name.text());
    put_dimension(page, dimension);
    page.put(Role::ClosingParenthesis, ")");
}

/// The second part of `sizeof`.
#[cycle(expression)]
fn put_dimension(page: &mut Page, dimension: &Option<Boxed<Expr>>)
    ensures { Puts page.old (spec.second_lexemes dimension.now) page.new }
{
    if let Some(dimension) = dimension {
        page.put(Role::Comma, ",");
        put_expr(page, dimension.get());
    }
}

/// The indexes of each pair of brackets.
#[cycle(expression)]
pub(crate) fn put_brackets(page: &mut Page, brackets: &[Items<Index>])
    ensures { Puts page.old (spec.brackets_lexemes brackets.now) page.new }
{
    for indexes in brackets {
        put_bracket(page, indexes.as_slice());
    }
}

/// Indexes with commas between, in brackets.
#[tactic(auto, using(crate::proofs::Puts::puts_both))]
#[cycle(expression)]
fn put_bracket(page: &mut Page, indexes: &[Index])
    ensures { Puts page.old (spec.bracket_lexemes indexes.now) page.new }
{
    page.put(Role::Opening, "[");
    put_indexes(page, indexes);
    page.put(Role::ClosingBracket, "]");
}

/// Indexes with commas between.
#[cycle(expression)]
fn put_indexes(page: &mut Page, indexes: &[Index])
    ensures { Puts page.old (lexemes.separated lexemes.comma (map spec.index_lexemes indexes.now)) page.new }
{
    let mut first = true;
    for index in indexes {
        put_between(page, first, Role::Comma, ",");
        put_index(page, index);
        first = false;
    }
}

/// One index.
#[tactic(auto, using(crate::proofs::Equations::indexes))]
#[cycle(expression)]
pub(crate) fn put_index(page: &mut Page, index: &Index)
    ensures { Puts page.old (spec.index_lexemes index.now) page.new }
{
    match index {
        Index::At { place } => put_expr(page, place),
        Index::Range { range } => put_range(page, range),
        Index::Set { places } => put_set(page, places.as_slice()),
    }
}

/// Expressions with commas between, in braces.
#[tactic(auto, using(crate::proofs::Puts::puts_both))]
#[cycle(expression)]
pub(crate) fn put_set(page: &mut Page, members: &[Expr])
    ensures { Puts page.old (lexemes.braced (spec.list_lexemes members.now)) page.new }
{
    page.put(Role::Opening, "{");
    put_list(page, members);
    page.put(Role::ClosingBrace, "}");
}

/// A range.
#[tactic(auto, using(crate::proofs::Equations::ranges))]
#[cycle(expression)]
pub(crate) fn put_range(page: &mut Page, range: &Range)
    ensures { Puts page.old (spec.range_lexemes range.now) page.new }
{
    put_part(page, &range.start);
    page.put(Role::Colon, ":");
    put_step(page, &range.step);
    put_part(page, &range.end);
}

/// The start or the end of a range, where it stands.
#[cycle(expression)]
fn put_part(page: &mut Page, part: &Option<Expr>)
    ensures { Puts page.old (spec.end_lexemes part.now) page.new }
{
    if let Some(part) = part {
        put_expr(page, part);
    }
}

/// The step of a range and its colon, where it stands.
#[tactic(auto, using(crate::proofs::Puts::puts_both))]
#[cycle(expression)]
fn put_step(page: &mut Page, step: &Option<Expr>)
    ensures { Puts page.old (spec.step_lexemes step.now) page.new }
{
    if let Some(step) = step {
        put_expr(page, step);
        page.put(Role::Colon, ":");
    }
}

/// A type.
#[tactic(auto, using(crate::proofs::Equations::scalars))]
#[cycle(expression)]
pub(crate) fn put_scalar(page: &mut Page, scalar: &Scalar)
    ensures { Puts page.old (spec.scalar_lexemes scalar.now) page.new }
{
    match scalar {
        Scalar::Bool => page.put(Role::Keyword, "bool"),
        Scalar::Bit { size } => put_sized(page, "bit", size),
        Scalar::Int { size } => put_sized(page, "int", size),
        Scalar::Uint { size } => put_sized(page, "uint", size),
        Scalar::Angle { size } => put_sized(page, "angle", size),
    }
}

/// A type's keyword, and its size in brackets where it stands.
#[cycle(expression)]
fn put_sized(page: &mut Page, keyword: &str, size: &Option<Boxed<Expr>>)
    ensures { Puts page.old (spec.type_lexemes keyword.now size.now) page.new }
{
    page.put(Role::Keyword, keyword);
    if let Some(size) = size {
        put_in_brackets(page, size.get());
    }
}

/// An expression in brackets.
#[tactic(auto, using(crate::proofs::Puts::puts_both))]
#[cycle(expression)]
pub(crate) fn put_in_brackets(page: &mut Page, inner: &Expr)
    ensures { Puts page.old (lexemes.bracketed (spec.expr_lexemes inner.now)) page.new }
{
    page.put(Role::Opening, "[");
    put_expr(page, inner);
    page.put(Role::ClosingBracket, "]");
}
