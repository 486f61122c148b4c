//! Programs: the versions and the items, one after another.

ghost use Rattle.std.specs.Prelude.{◌≡◌, [], codes, map, IfOk};
ghost use Rattle.std.specs.String.{string_bytes};
ghost use Rattle.qt_lexemes.specs.Lexemes as lexemes;
ghost use Rattle.qt_print.specs.Expressions as expressions;
ghost use Rattle.qt_print.specs.Statements as statements;
ghost use Rattle.qt_print.specs.Programs as spec;
ghost use Rattle.qt_print.specs.Text.{canonical};
ghost use Rattle.qt_lexemes.specs.Page as sheets;
ghost use Rattle.qt_lexemes.specs.Page.{Makes};
ghost use Rattle.qt_print.specs.Page.{Puts, PutsLines, PutsSentence, put_body};

use crate::expression::{put_between, put_expr, put_scalar};
use crate::statement::{
    close_body, finish, open_body, put_body, put_gate_call, put_register, put_size, put_statement,
};
use qt_lexemes::page::Page;
use qt_lexemes::role::Role;
use qt_outside::faults::OutOfMemory;
use qt_tree::expression::{Expr, Scalar};
use qt_tree::label::Label;
use qt_tree::program::{
    ArrayItem, Definition, GateForm, GateItem, GateStatement, Item, ListItem, Parameter, Program,
    Version, VersionNumber,
};
use sqlite_items::Items;
use std::alloc::Global;

/// The canonical text of a program. A program without versions and items has the empty text.
#[tactic(auto, using(crate::proofs::Texts::printed))]
pub fn print(alloc: Global, program: &Program) -> Result<String, OutOfMemory>
    ensures { IfOk result (λ text. string_bytes text ≡ canonical program.now) }
{
    let mut page = Page::new(alloc);
    put_versions(&mut page, program.versions.as_slice());
    put_items(&mut page, program.items.as_slice());
    page.into_text()
}

/// The versions of a program. A text has one at most.
fn put_versions(page: &mut Page, versions: &[Version])
    ensures { PutsLines page.old [] (statements.all_lines (map spec.version_lines versions.now)) page.new }
{
    for version in versions {
        put_version(page, version);
    }
}

/// A version.
#[tactic(auto, using(crate::proofs::Lines::sentence_put, crate::proofs::Puts::puts_both))]
fn put_version(page: &mut Page, version: &Version)
    ensures { PutsLines page.old [] (spec.version_lines version.now) page.new }
{
    page.begin("");
    page.put(Role::Keyword, "OPENQASM");
    put_version_number(page, &version.number);
    finish(page);
}

/// What a version names.
fn put_version_number(page: &mut Page, number: &VersionNumber)
    ensures { Makes (λ sheet. sheets.put_on sheet (spec.number_lexeme number.now)) page.old page.new }
{
    match number {
        VersionNumber::Integer { value } => page.put_number(*value),
        VersionNumber::Decimal { text } => page.put(Role::Decimal, text.text()),
    }
}

/// The items of a program.
fn put_items(page: &mut Page, items: &[Item])
    ensures { PutsLines page.old [] (statements.all_lines (map spec.item_lines items.now)) page.new }
{
    for item in items {
        put_item(page, item);
    }
}

/// One item.
#[tactic(auto, using(crate::proofs::Lines::sentence_put, crate::proofs::Lines::block_put, crate::proofs::Puts::puts_both))]
fn put_item(page: &mut Page, item: &Item)
    ensures { PutsLines page.old [] (spec.item_lines item.now) page.new }
{
    match item {
        Item::Include { name, .. } => put_include(page, name),
        Item::Input { scalar, name, .. } => put_typed(page, "input", scalar, name),
        Item::Output { scalar, name, .. } => put_typed(page, "output", scalar, name),
        Item::Qubit { size, name, .. } => put_qubit_item(page, size, name),
        Item::QubitRegister { name, size, .. } => put_qubit_register(page, name, size),
        Item::Array { array } => put_array_item(page, array),
        Item::Gate { gate } => put_gate_item(page, gate),
        Item::Definition { definition } => put_definition(page, definition),
        Item::Statement { statement } => put_statement(page, "", statement),
    }
}

/// An include.
#[tactic(auto, using(crate::proofs::Lines::sentence_put, crate::proofs::Puts::puts_both))]
fn put_include(page: &mut Page, name: &Label)
    ensures { PutsLines page.old [] (spec.include_lines name.now) page.new }
{
    page.begin("");
    page.put(Role::Keyword, "include");
    page.put_quoted(name.text());
    finish(page);
}

/// An input or an output.
#[tactic(auto, using(crate::proofs::Lines::sentence_put, crate::proofs::Puts::puts_both))]
fn put_typed(page: &mut Page, head: &str, scalar: &Scalar, name: &Label)
    ensures { PutsLines page.old [] (spec.typed head.now scalar.now name.now) page.new }
{
    page.begin("");
    page.put(Role::Keyword, head);
    put_scalar(page, scalar);
    page.put(Role::Name, name.text());
    finish(page);
}

/// A qubit or a register of qubits, as it is declared or as a parameter.
#[tactic(auto, using(crate::proofs::Puts::puts_both))]
fn put_qubit(page: &mut Page, size: &Option<Expr>, name: &Label)
    ensures { Puts page.old (spec.qubit_lexemes size.now name.now) page.new }
{
    page.put(Role::Keyword, "qubit");
    put_size(page, size);
    page.put(Role::Name, name.text());
}

/// The declaration of a qubit or a register of qubits.
#[tactic(auto, using(crate::proofs::Lines::sentence_put, crate::proofs::Puts::puts_both))]
fn put_qubit_item(page: &mut Page, size: &Option<Expr>, name: &Label)
    ensures { PutsLines page.old [] (statements.sentence (spec.qubit_lexemes size.now name.now)) page.new }
{
    page.begin("");
    put_qubit(page, size, name);
    finish(page);
}

/// The declaration of a register of qubits by its old keyword.
#[tactic(auto, using(crate::proofs::Lines::sentence_put, crate::proofs::Puts::puts_both))]
fn put_qubit_register(page: &mut Page, name: &Label, size: &Option<Expr>)
    ensures { PutsLines page.old [] (spec.qubit_register_lines name.now size.now) page.new }
{
    page.begin("");
    put_register(page, "qreg", name, size);
}

/// The declaration of an array.
#[tactic(auto, using(crate::proofs::Lines::sentence_put, crate::proofs::Puts::puts_both))]
fn put_array_item(page: &mut Page, array: &ArrayItem)
    ensures { PutsLines page.old [] (statements.sentence (spec.array_lexemes array.now)) page.new }
{
    page.begin("");
    put_array(page, array);
    finish(page);
}

/// An array.
#[tactic(auto, using(crate::proofs::Puts::puts_both))]
fn put_array(page: &mut Page, array: &ArrayItem)
    ensures { Puts page.old (spec.array_lexemes array.now) page.new }
{
    page.put(Role::Keyword, "array");
    put_shape(page, &array.scalar, array.dimensions.as_slice());
    page.put(Role::Name, array.name.text());
    put_values(page, &array.value);
}

/// The type of an array's elements and its dimensions, in brackets.
#[tactic(auto, using(crate::proofs::Puts::puts_both))]
fn put_shape(page: &mut Page, scalar: &Scalar, dimensions: &[Expr])
    ensures { Puts page.old (spec.shape_lexemes scalar.now dimensions.now) page.new }
{
    page.put(Role::Opening, "[");
    put_scalar(page, scalar);
    put_dimensions(page, dimensions);
    page.put(Role::ClosingBracket, "]");
}

/// The dimensions of an array, each behind a comma.
fn put_dimensions(page: &mut Page, dimensions: &[Expr])
    ensures { Puts page.old (lexemes.each_behind lexemes.comma (map expressions.expr_lexemes dimensions.now)) page.new }
{
    for dimension in dimensions {
        page.put(Role::Comma, ",");
        put_expr(page, dimension);
    }
}

/// The first values of an array, where they stand.
#[tactic(auto, using(crate::proofs::Puts::puts_both))]
fn put_values(page: &mut Page, values: &Option<Items<ListItem>>)
    ensures { Puts page.old (lexemes.optional spec.valued values.now) page.new }
{
    if let Some(values) = values {
        page.put(Role::Operator, "=");
        put_values_list(page, values.as_slice());
    }
}

/// A list of values, in braces.
#[tactic(auto, using(crate::proofs::Puts::puts_both))]
#[cycle(list)]
fn put_values_list(page: &mut Page, items: &[ListItem])
    ensures { Puts page.old (spec.values_lexemes items.now) page.new }
{
    page.put(Role::Opening, "{");
    put_list_items(page, items);
    page.put(Role::ClosingBrace, "}");
}

/// Values with commas between.
#[cycle(list)]
fn put_list_items(page: &mut Page, items: &[ListItem])
    ensures { Puts page.old (lexemes.separated lexemes.comma (map spec.item_lexemes items.now)) page.new }
{
    let mut first = true;
    for item in items {
        put_between(page, first, Role::Comma, ",");
        put_list_item(page, item);
        first = false;
    }
}

/// One value of an array, or a list of them.
#[tactic(auto, using(crate::proofs::Items::list_items))]
#[cycle(list)]
fn put_list_item(page: &mut Page, item: &ListItem)
    ensures { Puts page.old (spec.item_lexemes item.now) page.new }
{
    match item {
        ListItem::List { items } => put_values_list(page, items.as_slice()),
        ListItem::Value { value } => put_expr(page, value),
    }
}

/// Names with commas between.
fn put_names(page: &mut Page, names: &[Label])
    ensures { Puts page.old (spec.names_lexemes names.now) page.new }
{
    let mut first = true;
    for name in names {
        put_between(page, first, Role::Comma, ",");
        put_name(page, name);
        first = false;
    }
}

/// A name.
fn put_name(page: &mut Page, name: &Label)
    ensures { Puts page.old (spec.name_lexemes name.now) page.new }
{
    page.put(Role::Name, name.text());
}

/// A gate.
#[tactic(auto, using(crate::proofs::Lines::block_put, crate::proofs::Puts::puts_both))]
fn put_gate_item(page: &mut Page, gate: &GateItem)
    ensures { PutsLines page.old [] (spec.gate_lines gate.now) page.new }
{
    page.begin("");
    put_gate_head(page, gate);
    put_gate_body(page, gate.body.as_slice());
    page.end();
}

/// The body of a gate, up to its `}`.
fn put_gate_body(page: &mut Page, body: &[GateStatement])
    ensures { Makes (λ sheet. put_body sheet [] (map spec.gate_statement_lines body.now)) page.old page.new }
{
    open_body(page);
    put_gate_statements(page, body);
    close_body(page, "");
}

/// The head of a gate.
#[tactic(auto, using(crate::proofs::Puts::puts_both))]
fn put_gate_head(page: &mut Page, gate: &GateItem)
    ensures { Puts page.old (spec.gate_head gate.now) page.new }
{
    page.put(Role::Keyword, "gate");
    page.put(Role::Name, gate.name.text());
    put_parameter_names(page, &gate.parameters);
    put_names(page, gate.qubits.as_slice());
}

/// The parameters of a gate in parentheses, where these stand.
#[tactic(auto, using(crate::proofs::Puts::puts_both))]
fn put_parameter_names(page: &mut Page, names: &Option<Items<Label>>)
    ensures { Puts page.old (lexemes.optional spec.parameters_lexemes names.now) page.new }
{
    if let Some(names) = names {
        page.put(Role::Opening, "(");
        put_names(page, names.as_slice());
        page.put(Role::ClosingParenthesis, ")");
    }
}

/// The statements of a gate's body.
fn put_gate_statements(page: &mut Page, all: &[GateStatement])
    ensures { PutsLines page.old (codes "  ") (statements.all_lines (map spec.gate_statement_lines all.now)) page.new }
{
    for statement in all {
        put_gate_statement(page, statement);
    }
}

/// A statement of a gate's body.
#[tactic(auto, using(crate::proofs::Lines::sentence_put, crate::proofs::Puts::puts_both))]
fn put_gate_statement(page: &mut Page, statement: &GateStatement)
    ensures { PutsLines page.old (codes "  ") (spec.gate_statement_lines statement.now) page.new }
{
    page.begin("  ");
    match &statement.form {
        GateForm::Call { call } => put_gate_call(page, call),
        GateForm::Barrier { qubits } => put_gate_barrier(page, qubits.as_slice()),
    }
}

/// A barrier in a gate's body.
#[tactic(auto, using(crate::proofs::Puts::puts_both))]
fn put_gate_barrier(page: &mut Page, qubits: &[Label])
    ensures { PutsSentence page.old (spec.gate_barrier_lexemes qubits.now) page.new }
{
    page.put(Role::Keyword, "barrier");
    put_names(page, qubits);
    finish(page);
}

/// A subroutine.
#[tactic(auto, using(crate::proofs::Lines::block_put, crate::proofs::Puts::puts_both))]
fn put_definition(page: &mut Page, definition: &Definition)
    ensures { PutsLines page.old [] (spec.definition_lines definition.now) page.new }
{
    page.begin("");
    put_definition_head(page, definition);
    put_body(page, "", definition.body.as_slice());
    page.end();
}

/// The head of a subroutine.
#[tactic(auto, using(crate::proofs::Puts::puts_both))]
fn put_definition_head(page: &mut Page, definition: &Definition)
    ensures { Puts page.old (spec.definition_head definition.now) page.new }
{
    page.put(Role::Keyword, "def");
    page.put(Role::Name, definition.name.text());
    put_all_parameters(page, definition.parameters.as_slice());
    put_result(page, &definition.result);
}

/// The parameters of a subroutine, in parentheses.
#[tactic(auto, using(crate::proofs::Puts::puts_both))]
fn put_all_parameters(page: &mut Page, parameters: &[Parameter])
    ensures { Puts page.old (spec.all_parameters parameters.now) page.new }
{
    page.put(Role::Opening, "(");
    put_parameters(page, parameters);
    page.put(Role::ClosingParenthesis, ")");
}

/// Parameters with commas between.
fn put_parameters(page: &mut Page, parameters: &[Parameter])
    ensures { Puts page.old (spec.listed_parameters parameters.now) page.new }
{
    let mut first = true;
    for parameter in parameters {
        put_between(page, first, Role::Comma, ",");
        put_parameter(page, parameter);
        first = false;
    }
}

/// A parameter.
#[tactic(auto, using(crate::proofs::Puts::puts_both))]
fn put_parameter(page: &mut Page, parameter: &Parameter)
    ensures { Puts page.old (spec.parameter_lexemes parameter.now) page.new }
{
    match parameter {
        Parameter::Classical { scalar, name } => {
            put_scalar(page, scalar);
            page.put(Role::Name, name.text());
        }
        Parameter::Qubits { size, name } => put_qubit(page, size, name),
    }
}

/// `->` and the type of a result, where it stands.
fn put_result(page: &mut Page, of: &Option<Scalar>)
    ensures { Puts page.old (lexemes.optional spec.result_lexemes of.now) page.new }
{
    if let Some(scalar) = of {
        page.put(Role::Operator, "->");
        put_scalar(page, scalar);
    }
}
