//! Rows of expressions and of the forms that hold them.

ghost use Rattle.std.specs.Prelude.{◌≤◌};
ghost use Rattle.qt_grammar.specs.Spelling.{language_limits};

use crate::reading::write_refusal;
use qt_expr::expression::{
    all_indexes, arguments, expression, expressions, in_parentheses, index, indexes, range, scalar,
    set, size,
};
use qt_expr::names::{label, names};
use qt_expr::parse_expr::parse_expr;
use qt_grammar::maximum::{MOST_LEVELS, most_levels};
use qt_grammar::refusal::Refusal;
use qt_lex::tokens::Token;
use qt_lookahead::refusal::ParseRefusal;
use qt_rows::answer::Answer;
use qt_rows::row::Row;
use qt_terminals::stream::TokenStream;
use qt_tree_text::tree::Tree;
use std::alloc::Global;

/// A depth at which a token may stand.
fn depth_in(row: &mut Row<'_>) -> u32
    ensures { result ≤ language_limits.levels }
{
    let depth = row.u32();
    if depth as usize > most_levels() {
        row.refuse();
        return 0;
    }
    depth
}

fn write_before<T: Tree + Drop>(found: Result<(T, usize), ParseRefusal>, answer: &mut Answer) {
    match &found {
        Ok((tree, behind)) => {
            write!(answer, "{behind}");
            tree.write(answer);
        }
        Err(refusal) => write_refusal(*refusal, answer),
    }
}

/// `expr AT DEPTH: TEXT`: the number of the token behind the expression that begins at a token of that depth, and its tree; or the
/// refusal.
pub fn answer_expr(
    alloc: Global,
    row: &mut Row<'_>,
    text: &str,
    tokens: &[Token],
    answer: &mut Answer,
) {
    let (at, depth) = (row.usize(), depth_in(row));
    write_before(parse_expr(alloc, text, tokens, at, depth), answer);
}

/// The number of the token behind what was read.
fn behind_of<T: Drop, E>(found: Result<(T, usize), E>) -> Result<usize, E> {
    match found {
        Ok((_, behind)) => Ok(behind),
        Err(refusal) => Err(refusal),
    }
}

/// `beginnings: TEXT`: for each number of first tokens, how many of them an expression takes, or the refusal.
pub fn answer_beginnings(alloc: Global, text: &str, tokens: &[Token], answer: &mut Answer) {
    for count in 0..tokens.len() {
        match behind_of(parse_expr(alloc, text, &tokens[..count], 0, 0)) {
            Ok(behind) => write!(answer, " {behind}"),
            Err(refusal) => write_refusal(refusal, answer),
        }
        answer.push_str(";");
    }
}

/// The number of the token behind the form of that name, or its refusal. No such form is refused at once.
fn behind_form(
    alloc: Global,
    form: &str,
    tokens: &TokenStream<'_>,
    at: usize,
) -> Result<usize, Refusal> {
    let levels = MOST_LEVELS;
    match form {
        "label" => behind_of(label(alloc, tokens, at)),
        "names" => behind_of(names(alloc, tokens, at)),
        "in_parentheses" => behind_of(in_parentheses(alloc, tokens, levels, at)),
        "size" => behind_of(size(alloc, tokens, levels, at)),
        "arguments" => behind_of(arguments(alloc, tokens, levels, at)),
        "scalar" => behind_of(scalar(alloc, tokens, levels, at)),
        "set" => behind_of(set(alloc, tokens, levels, at)),
        "indexes" => behind_of(indexes(alloc, tokens, levels, at)),
        "all_indexes" => behind_of(all_indexes(alloc, tokens, levels, at)),
        "expression" => behind_of(expression(alloc, tokens, levels, at)),
        "expressions" => behind_of(expressions(alloc, tokens, levels, at)),
        "index" => behind_of(index(alloc, tokens, levels, at)),
        "range" => behind_of(range(alloc, tokens, levels, at)),
        _ => Err(Refusal::Syntax(at)),
    }
}

fn write_behind(behind: Result<usize, Refusal>, answer: &mut Answer) {
    match behind {
        Ok(behind) => write!(answer, "{behind}"),
        Err(Refusal::OutOfMemory) => answer.lose(),
        Err(refusal) => write!(answer, "{refusal:?}"),
    }
}

/// `form NAME AT: TEXT`: the number of the token behind a form that begins at a token, or the number of the token at fault.
pub fn answer_form(
    alloc: Global,
    row: &mut Row<'_>,
    text: &str,
    tokens: &[Token],
    answer: &mut Answer,
) {
    let (form, at) = (row.word(), row.usize());
    match TokenStream::new(alloc, text, tokens) {
        Ok(stream) => write_behind(behind_form(alloc, form, &stream, at), answer),
        Err(_) => answer.lose(),
    }
}
