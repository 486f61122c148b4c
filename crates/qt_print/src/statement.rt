//! Statements: one a line, and each body in braces.

ghost use Rattle.std.specs.Prelude.{◌++◌, codes, map};
ghost use Rattle.qt_lexemes.specs.Lexemes as lexemes;
ghost use Rattle.qt_print.specs.Expressions as expressions;
ghost use Rattle.qt_print.specs.Statements as spec;
ghost use Rattle.qt_lexemes.specs.Page as sheets;
ghost use Rattle.qt_print.specs.Page as pages;
ghost use Rattle.qt_lexemes.specs.Page.{Makes};
ghost use Rattle.qt_print.specs.Page.{Puts, PutsLines, PutsSentence};

use crate::expression::{
    put_arguments, put_between, put_brackets, put_expr, put_in_brackets, put_index,
    put_parenthesized, put_range, put_scalar, put_set,
};
use qt_lexemes::operator::compound_text;
use qt_lexemes::page::Page;
use qt_lexemes::role::Role;
use qt_tree::expression::{CompoundOperator, Expr, Scalar};
use qt_tree::label::Label;
use qt_tree::statement::{
    CalledGate, GateCall, Modifier, Operand, Right, Sequence, Statement, StatementForm, Target,
};
use sqlite_items::Items;

/// A size in brackets, where it stands.
pub(crate) fn put_size(page: &mut Page, size: &Option<Expr>)
    ensures { Puts page.old (expressions.size_lexemes size.now) page.new }
{
    if let Some(size) = size {
        put_in_brackets(page, size);
    }
}

/// An operand.
#[tactic(auto, using(crate::proofs::Puts::puts_both))]
fn put_operand(page: &mut Page, operand: &Operand)
    ensures { Puts page.old (spec.operand_lexemes operand.now) page.new }
{
    page.put(Role::Name, operand.name.text());
    if let Some(index) = &operand.index {
        page.put(Role::Opening, "[");
        put_index(page, index);
        page.put(Role::ClosingBracket, "]");
    }
}

/// Operands with commas between.
fn put_operands(page: &mut Page, operands: &[Operand])
    ensures { Puts page.old (spec.operands_lexemes operands.now) page.new }
{
    let mut first = true;
    for operand in operands {
        put_between(page, first, Role::Comma, ",");
        put_operand(page, operand);
        first = false;
    }
}

/// The parts of an alias, with `++` between.
fn put_parts(page: &mut Page, parts: &[Operand])
    ensures { Puts page.old (spec.parts_lexemes parts.now) page.new }
{
    let mut first = true;
    for part in parts {
        put_between(page, first, Role::Operator, "++");
        put_operand(page, part);
        first = false;
    }
}

/// A target.
fn put_target(page: &mut Page, target: &Target)
    ensures { Puts page.old (spec.target_lexemes target.now) page.new }
{
    page.put(Role::Name, target.name.text());
    put_brackets(page, target.brackets.as_slice());
}

/// A right side.
fn put_right(page: &mut Page, right: &Right)
    ensures { Puts page.old (spec.right_lexemes right.now) page.new }
{
    match right {
        Right::Measure { qubits } => {
            page.put(Role::Keyword, "measure");
            put_operand(page, qubits);
        }
        Right::Value { value } => put_expr(page, value),
    }
}

/// `=` and a right side.
fn put_assigned(page: &mut Page, right: &Right)
    ensures { Puts page.old (spec.assigned right.now) page.new }
{
    page.put(Role::Operator, "=");
    put_right(page, right);
}

/// A count in parentheses, where it stands.
fn put_count(page: &mut Page, count: &Option<Expr>)
    ensures { Puts page.old (spec.count_lexemes count.now) page.new }
{
    if let Some(count) = count {
        put_parenthesized(page, count);
    }
}

/// A modifier.
fn put_modifier(page: &mut Page, modifier: &Modifier)
    ensures { Puts page.old (spec.modifier_lexemes modifier.now) page.new }
{
    match modifier {
        Modifier::Inv => page.put(Role::Keyword, "inv"),
        Modifier::Pow { exponent } => {
            page.put(Role::Keyword, "pow");
            put_parenthesized(page, exponent);
        }
        Modifier::Ctrl { count } => {
            page.put(Role::Keyword, "ctrl");
            put_count(page, count);
        }
        Modifier::NegCtrl { count } => {
            page.put(Role::Keyword, "negctrl");
            put_count(page, count);
        }
    }
}

/// A modifier and its `@`.
#[tactic(auto, using(crate::proofs::Puts::puts_both))]
fn put_modifying(page: &mut Page, modifier: &Modifier)
    ensures { Puts page.old (spec.modifying modifier.now) page.new }
{
    put_modifier(page, modifier);
    page.put(Role::Operator, "@");
}

/// The modifiers of a call, each with its `@`.
fn put_modifiers(page: &mut Page, modifiers: &[Modifier])
    ensures { Puts page.old (lexemes.joined (map spec.modifying modifiers.now)) page.new }
{
    for modifier in modifiers {
        put_modifying(page, modifier);
    }
}

/// What a gate call calls.
fn put_gate(page: &mut Page, gate: &CalledGate)
    ensures { Puts page.old (spec.gate_lexemes gate.now) page.new }
{
    match gate {
        CalledGate::Named { name, arguments } => {
            page.put(Role::Name, name.text());
            if let Some(arguments) = arguments {
                put_arguments(page, arguments.as_slice());
            }
        }
        CalledGate::GlobalPhase { angle } => {
            page.put(Role::Keyword, "gphase");
            put_parenthesized(page, angle);
        }
    }
}

/// A gate call.
#[tactic(auto, using(crate::proofs::Puts::puts_both))]
fn put_call(page: &mut Page, call: &GateCall)
    ensures { Puts page.old (spec.call_lexemes call.now) page.new }
{
    put_modifiers(page, call.modifiers.as_slice());
    put_gate(page, &call.gate);
    put_operands(page, call.operands.as_slice());
}

/// What a `for` goes over.
#[tactic(auto, using(crate::proofs::Puts::puts_both))]
fn put_sequence(page: &mut Page, sequence: &Sequence)
    ensures { Puts page.old (spec.sequence_lexemes sequence.now) page.new }
{
    match sequence {
        Sequence::Range { range } => {
            page.put(Role::Opening, "[");
            put_range(page, range);
            page.put(Role::ClosingBracket, "]");
        }
        Sequence::Set { members } => put_set(page, members.as_slice()),
        Sequence::Name { name } => page.put(Role::Name, name.text()),
    }
}

/// The end of a statement on a line of its own.
pub(crate) fn finish(page: &mut Page)
    ensures { Makes (λ sheet. sheets.ended (sheets.put_on sheet lexemes.semicolon)) page.old page.new }
{
    page.put(Role::Semicolon, ";");
    page.end();
}

/// A statement that is one keyword.
#[tactic(auto, using(crate::proofs::Puts::puts_both))]
fn put_single(page: &mut Page, keyword: &str)
    ensures { PutsSentence page.old (spec.single_lexemes keyword.now) page.new }
{
    page.put(Role::Keyword, keyword);
    finish(page);
}

/// The declaration of a variable.
#[tactic(auto, using(crate::proofs::Puts::puts_both))]
fn put_declaration(page: &mut Page, scalar: &Scalar, name: &Label, value: &Option<Right>)
    ensures { PutsSentence page.old (spec.declaration_lexemes scalar.now name.now value.now) page.new }
{
    put_scalar(page, scalar);
    page.put(Role::Name, name.text());
    put_first_value(page, value);
    finish(page);
}

/// The first value of a variable, where it stands.
fn put_first_value(page: &mut Page, value: &Option<Right>)
    ensures { Puts page.old (lexemes.optional spec.assigned value.now) page.new }
{
    if let Some(value) = value {
        put_assigned(page, value);
    }
}

/// The declaration of a register by an old keyword.
#[tactic(auto, using(crate::proofs::Puts::puts_both))]
pub(crate) fn put_register(page: &mut Page, keyword: &str, name: &Label, size: &Option<Expr>)
    ensures { PutsSentence page.old (spec.register_lexemes keyword.now name.now size.now) page.new }
{
    page.put(Role::Keyword, keyword);
    page.put(Role::Name, name.text());
    put_size(page, size);
    finish(page);
}

/// The declaration of a constant.
#[tactic(auto, using(crate::proofs::Puts::puts_both))]
fn put_constant(page: &mut Page, scalar: &Scalar, name: &Label, value: &Expr)
    ensures { PutsSentence page.old (spec.constant_lexemes scalar.now name.now value.now) page.new }
{
    page.put(Role::Keyword, "const");
    put_scalar(page, scalar);
    put_named_value(page, name, value);
    finish(page);
}

/// A name, `=` and its value.
fn put_named_value(page: &mut Page, name: &Label, value: &Expr)
    ensures { Puts page.old (spec.named_value name.now value.now) page.new }
{
    page.put(Role::Name, name.text());
    page.put(Role::Operator, "=");
    put_expr(page, value);
}

/// An alias.
#[tactic(auto, using(crate::proofs::Puts::puts_both))]
fn put_alias(page: &mut Page, name: &Label, parts: &[Operand])
    ensures { PutsSentence page.old (spec.alias_lexemes name.now parts.now) page.new }
{
    page.put(Role::Keyword, "let");
    put_named_parts(page, name, parts);
    finish(page);
}

/// A name, `=` and the parts that it stands for.
fn put_named_parts(page: &mut Page, name: &Label, parts: &[Operand])
    ensures { Puts page.old (spec.named_parts name.now parts.now) page.new }
{
    page.put(Role::Name, name.text());
    page.put(Role::Operator, "=");
    put_parts(page, parts);
}

/// An assignment.
#[tactic(auto, using(crate::proofs::Puts::puts_both))]
fn put_assignment(page: &mut Page, target: &Target, value: &Right)
    ensures { PutsSentence page.old (spec.assignment_lexemes target.now value.now) page.new }
{
    put_target(page, target);
    put_assigned(page, value);
    finish(page);
}

/// A compound assignment.
#[tactic(auto, using(crate::proofs::Puts::puts_both))]
fn put_compound(page: &mut Page, target: &Target, operator: CompoundOperator, value: &Expr)
    ensures { PutsSentence page.old (spec.compound_lexemes target.now operator value.now) page.new }
{
    put_target(page, target);
    page.put(Role::Operator, compound_text(operator));
    put_expr(page, value);
    finish(page);
}

/// A measurement.
#[tactic(auto, using(crate::proofs::Puts::puts_both))]
fn put_measurement(page: &mut Page, qubits: &Operand, target: &Option<Target>)
    ensures { PutsSentence page.old (spec.measurement_lexemes qubits.now target.now) page.new }
{
    page.put(Role::Keyword, "measure");
    put_operand(page, qubits);
    put_stored(page, target);
    finish(page);
}

/// `->` and the target of a measurement, where it stands.
fn put_stored(page: &mut Page, target: &Option<Target>)
    ensures { Puts page.old (lexemes.optional spec.stored target.now) page.new }
{
    if let Some(target) = target {
        page.put(Role::Operator, "->");
        put_target(page, target);
    }
}

/// A reset.
#[tactic(auto, using(crate::proofs::Puts::puts_both))]
fn put_reset(page: &mut Page, qubits: &Operand)
    ensures { PutsSentence page.old (spec.reset_lexemes qubits.now) page.new }
{
    page.put(Role::Keyword, "reset");
    put_operand(page, qubits);
    finish(page);
}

/// A barrier.
#[tactic(auto, using(crate::proofs::Puts::puts_both))]
fn put_barrier(page: &mut Page, qubits: &[Operand])
    ensures { PutsSentence page.old (spec.barrier_lexemes qubits.now) page.new }
{
    page.put(Role::Keyword, "barrier");
    put_operands(page, qubits);
    finish(page);
}

/// A gate call as a statement.
#[tactic(auto, using(crate::proofs::Puts::puts_both))]
pub(crate) fn put_gate_call(page: &mut Page, call: &GateCall)
    ensures { PutsSentence page.old (spec.call_lexemes call.now) page.new }
{
    put_call(page, call);
    finish(page);
}

/// A subroutine's call.
#[tactic(auto, using(crate::proofs::Puts::puts_both))]
fn put_subroutine_call(page: &mut Page, name: &Label, arguments: &[Expr])
    ensures { PutsSentence page.old (spec.subroutine_lexemes name.now arguments.now) page.new }
{
    page.put(Role::Name, name.text());
    put_arguments(page, arguments);
    finish(page);
}

/// `return` and what is returned, where it stands.
#[tactic(auto, using(crate::proofs::Puts::puts_both))]
fn put_return(page: &mut Page, value: &Option<Right>)
    ensures { PutsSentence page.old (spec.return_lexemes value.now) page.new }
{
    page.put(Role::Keyword, "return");
    put_returned(page, value);
    finish(page);
}

/// What is returned, where it stands.
fn put_returned(page: &mut Page, value: &Option<Right>)
    ensures { Puts page.old (lexemes.optional spec.right_lexemes value.now) page.new }
{
    if let Some(value) = value {
        put_right(page, value);
    }
}

/// A head with a condition: `if` or `while`.
#[tactic(auto, using(crate::proofs::Puts::puts_both))]
fn put_condition(page: &mut Page, head: &str, condition: &Expr)
    ensures { Puts page.old (spec.condition_lexemes head.now condition.now) page.new }
{
    page.put(Role::Head, head);
    put_parenthesized(page, condition);
}

/// The head of a `for`.
#[tactic(auto, using(crate::proofs::Puts::puts_both))]
fn put_for_head(page: &mut Page, scalar: &Scalar, name: &Label, values: &Sequence)
    ensures { Puts page.old (spec.for_lexemes scalar.now name.now values.now) page.new }
{
    page.put(Role::Head, "for");
    put_scalar(page, scalar);
    put_name_in(page, name, values);
}

/// The name of a `for`, and what it goes over.
fn put_name_in(page: &mut Page, name: &Label, values: &Sequence)
    ensures { Puts page.old (spec.name_in name.now values.now) page.new }
{
    page.put(Role::Name, name.text());
    page.put(Role::In, "in");
    put_sequence(page, values);
}

/// The `{` of a body, which ends the head's line.
pub(crate) fn open_body(page: &mut Page)
    ensures { Makes (λ sheet. sheets.ended (sheets.put_on sheet spec.body_start)) page.old page.new }
{
    page.put(Role::BodyStart, "{");
    page.end();
}

/// The `}` of a body, which begins a line.
pub(crate) fn close_body(page: &mut Page, margin: &str)
    ensures { Makes (λ sheet. sheets.put_on (sheets.begun sheet margin.now) spec.body_end) page.old page.new }
{
    page.begin(margin);
    page.put(Role::BodyEnd, "}");
}

/// A statement whose lines have at least this margin.
#[tactic(auto, using(crate::proofs::Lines::statement_is))]
#[cycle(statement)]
pub(crate) fn put_statement(page: &mut Page, margin: &str, statement: &Statement)
    ensures { PutsLines page.old margin.now (spec.statement_lines statement.now) page.new }
{
    put_form(page, margin, &statement.form);
}

/// One form of a statement.
#[tactic(auto, using(crate::proofs::Lines::forms))]
#[cycle(statement)]
fn put_form(page: &mut Page, margin: &str, form: &StatementForm)
    ensures { PutsLines page.old margin.now (spec.form_lines form.now) page.new }
{
    page.begin(margin);
    match form {
        StatementForm::Declaration {
            scalar,
            name,
            value,
        } => put_declaration(page, scalar, name, value),
        StatementForm::BitRegister { name, size } => put_register(page, "creg", name, size),
        StatementForm::Constant {
            scalar,
            name,
            value,
        } => put_constant(page, scalar, name, value),
        StatementForm::Alias { name, parts } => put_alias(page, name, parts.as_slice()),
        StatementForm::Assignment { target, value } => put_assignment(page, target, value),
        StatementForm::CompoundAssignment {
            target,
            operator,
            value,
        } => put_compound(page, target, *operator, value),
        StatementForm::Measure { qubits, target } => put_measurement(page, qubits, target),
        StatementForm::Reset { qubits } => put_reset(page, qubits),
        StatementForm::Barrier { qubits } => put_barrier(page, qubits.as_slice()),
        StatementForm::Gate { call } => put_gate_call(page, call),
        StatementForm::Call { name, arguments } => {
            put_subroutine_call(page, name, arguments.as_slice());
        }
        StatementForm::If {
            condition,
            body,
            otherwise,
        } => put_if(page, margin, condition, body.as_slice(), otherwise),
        StatementForm::While { condition, body } => {
            put_while(page, margin, condition, body.as_slice());
        }
        StatementForm::For {
            scalar,
            name,
            values,
            body,
        } => put_for(page, margin, scalar, name, values, body.as_slice()),
        StatementForm::Break => put_single(page, "break"),
        StatementForm::Continue => put_single(page, "continue"),
        StatementForm::Return { value } => put_return(page, value),
        StatementForm::End => put_single(page, "end"),
    }
}

/// An `if`, on a line that is begun.
#[cycle(statement)]
fn put_if(
    page: &mut Page,
    margin: &str,
    condition: &Expr,
    body: &[Statement],
    otherwise: &Option<Items<Statement>>,
)
    ensures { Makes (λ sheet. pages.put_if sheet margin.now (spec.condition_lexemes (codes "if") condition.now)
        (map spec.statement_lines body.now) (pages.each_lines otherwise.now)) page.old page.new }
{
    put_condition(page, "if", condition);
    put_body(page, margin, body);
    put_else(page, margin, otherwise);
    page.end();
}

/// The body behind `else`, where it stands.
#[cycle(statement)]
fn put_else(page: &mut Page, margin: &str, otherwise: &Option<Items<Statement>>)
    ensures { Makes (λ sheet. pages.put_else sheet margin.now (pages.each_lines otherwise.now)) page.old page.new }
{
    if let Some(otherwise) = otherwise {
        page.put(Role::Else, "else");
        put_body(page, margin, otherwise.as_slice());
    }
}

/// A `while`, on a line that is begun.
#[cycle(statement)]
fn put_while(page: &mut Page, margin: &str, condition: &Expr, body: &[Statement])
    ensures { Makes (λ sheet. pages.put_block sheet margin.now (spec.condition_lexemes (codes "while") condition.now)
        (map spec.statement_lines body.now)) page.old page.new }
{
    put_condition(page, "while", condition);
    put_body(page, margin, body);
    page.end();
}

/// A `for`, on a line that is begun.
#[cycle(statement)]
fn put_for(
    page: &mut Page,
    margin: &str,
    scalar: &Scalar,
    name: &Label,
    values: &Sequence,
    body: &[Statement],
)
    ensures { Makes (λ sheet. pages.put_block sheet margin.now (spec.for_lexemes scalar.now name.now values.now)
        (map spec.statement_lines body.now)) page.old page.new }
{
    put_for_head(page, scalar, name, values);
    put_body(page, margin, body);
    page.end();
}

/// A body behind its head, up to its `}`.
#[cycle(statement)]
pub(crate) fn put_body(page: &mut Page, margin: &str, body: &[Statement])
    ensures { Makes (λ sheet. pages.put_body sheet margin.now (map spec.statement_lines body.now)) page.old page.new }
{
    open_body(page);
    let inner = page.deeper(margin);
    put_statements(page, inner.as_str(), body);
    close_body(page, margin);
}

/// Statements whose lines have at least this margin.
#[cycle(statement)]
fn put_statements(page: &mut Page, margin: &str, all: &[Statement])
    ensures { PutsLines page.old margin.now (spec.all_lines (map spec.statement_lines all.now)) page.new }
{
    for statement in all {
        put_statement(page, margin, statement);
    }
}
