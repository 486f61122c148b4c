//! Gates and calls of texts, judged.

use qt_check_declarations::constants::constant_of;
use qt_check_declarations::registers::qubit_declaration;
use qt_check_gate_calls::calls::gate_call;
use qt_check_gate_items::items::{check_gate, gate_item};
use qt_const_rules::consts::Consts;
use qt_gate_calls::body::{Called, GateBodies, GateBody};
use qt_gates::table::standard_bodies;
use qt_names::scopes::Scopes;
use qt_outside::faults::OutOfMemory;
use qt_read::line::refusal_line;
use qt_read::read::read;
use qt_rows::answer::Answer;
use qt_rows::row::Row;
use qt_tree::label::Label;
use qt_tree::program::Item;
use qt_tree::refusal::TextRefusal;
use qt_tree::statement::{Statement, StatementForm};
use qt_typing::names::Names;
use qt_typing::state::State;
use sqlite_items::Items;
use std::alloc::Global;
use std::mem;

/// What the text of a row is called.
const NAME: &str = "p";

/// How many gates stand before the declared ones.
const STANDARD_GATES: usize = 32;

fn no_names(alloc: Global) -> Names {
    Names {
        scopes: Scopes::new(alloc),
        consts: Consts::new(alloc),
    }
}

/// The state before the first item.
fn beginning(alloc: Global) -> Result<State, OutOfMemory> {
    let gates = standard_bodies(alloc)?;
    let all_gates = GateBodies::new(alloc, Items::new(alloc))?;
    Ok(State {
        names: no_names(alloc),
        inside: no_names(alloc),
        slots: 0,
        qubits: 0,
        subroutines: Items::new(alloc),
        gates,
        all_gates,
        inputs: Items::new(alloc),
        outputs: Items::new(alloc),
        variables: Items::new(alloc),
        tokens: 0,
        included: false,
    })
}

fn judge_call(alloc: Global, state: &State, statement: &Statement) -> Result<(), TextRefusal> {
    match &statement.form {
        StatementForm::Gate { call } => {
            let place = statement.place;
            let included = state.included;
            gate_call(alloc, place, included, &state.all_gates, call, &state.names).map(drop)
        }
        _ => Err(TextRefusal::E4(statement.place)),
    }
}

fn judge_statement(
    alloc: Global,
    state: &mut State,
    statement: &Statement,
) -> Result<(), TextRefusal> {
    match &statement.form {
        StatementForm::Constant {
            scalar,
            name,
            value,
        } => constant_of(alloc, state, statement.place, scalar, name.text(), value),
        _ => judge_call(alloc, state, statement),
    }
}

/// Judges an item; one of another form is refused as if it weren't spelled.
fn judge_item(alloc: Global, state: &mut State, item: &Item) -> Result<(), TextRefusal> {
    match item {
        Item::Include { .. } => {
            state.included = true;
            Ok(())
        }
        Item::Gate { gate } => gate_item(alloc, state, gate),
        Item::Qubit { place, size, name } => {
            qubit_declaration(alloc, state, *place, size.as_ref(), name.text())
        }
        Item::Statement { statement } => judge_statement(alloc, state, statement),
        _ => Err(TextRefusal::E4(item.place())),
    }
}

fn judge_items(alloc: Global, state: &mut State, items: &[Item]) -> Result<(), TextRefusal> {
    for item in items {
        judge_item(alloc, state, item)?;
    }
    Ok(())
}

/// The line of a refusal without its line feed.
fn line_of(alloc: Global, refusal: &TextRefusal) -> Result<String, OutOfMemory> {
    let mut names = Vec::new(alloc);
    names.push(Label::new(alloc, NAME)?)?;
    refusal_line(alloc, names.as_slice(), refusal)
}

/// Tells a refusal. Where memory is wanting the answer is lost.
fn tell_refusal(alloc: Global, refusal: &TextRefusal, answer: &mut Answer) {
    if let TextRefusal::OutOfMemory = refusal {
        return answer.lose();
    }
    if let Some(line) = answer.given(line_of(alloc, refusal)) {
        answer.push_str(line.as_str().trim_end());
    }
}

fn tell_body(body: &GateBody, state: &State, answer: &mut Answer) {
    let (parameters, qubits, calls) = (body.parameters, body.qubits, body.calls.len());
    let names = state.names.consts.len();
    write!(answer, "ok {parameters}:{qubits}:{calls} {names}");
}

/// Judges the last item alone, which is to be a gate.
fn judge_last(
    alloc: Global,
    state: &mut State,
    item: &Item,
    row: &mut Row<'_>,
    answer: &mut Answer,
) {
    let Item::Gate { gate } = item else {
        return row.refuse();
    };
    match check_gate(alloc, state, gate) {
        Ok(body) => tell_body(&body, state, answer),
        Err(refusal) => tell_refusal(alloc, &refusal, answer),
    }
}

/// How many gates are declared, and how many primitives the last one comes to.
fn tell_gates(alloc: Global, state: &mut State, answer: &mut Answer) {
    let bodies = mem::replace(&mut state.gates, Items::new(alloc));
    let declared = bodies.len().saturating_sub(STANDARD_GATES);
    let number = u32::try_from(bodies.len().saturating_sub(1)).unwrap_or(0);
    if declared == 0 {
        return answer.push_str("ok");
    }
    if let Some(gates) = answer.given(GateBodies::new(alloc, bodies)) {
        let count = gates.count(&[], Called::Gate { number }).primitives;
        write!(answer, "ok {declared}, {count} primitives");
    }
}

fn judge_all(alloc: Global, state: &mut State, items: &[Item], answer: &mut Answer) {
    match judge_items(alloc, state, items) {
        Ok(()) => tell_gates(alloc, state, answer),
        Err(refusal) => tell_refusal(alloc, &refusal, answer),
    }
}

fn judge_before_last(
    alloc: Global,
    state: &mut State,
    items: &[Item],
    row: &mut Row<'_>,
    answer: &mut Answer,
) {
    let [before @ .., last] = items else {
        return row.refuse();
    };
    match judge_items(alloc, state, before) {
        Ok(()) => judge_last(alloc, state, last, row, answer),
        Err(refusal) => tell_refusal(alloc, &refusal, answer),
    }
}

/// `check: TEXT`, or `gate: TEXT`, where the last gate is judged alone.
pub fn answer_text(
    alloc: Global,
    is_gate_alone: bool,
    text: &str,
    row: &mut Row<'_>,
    answer: &mut Answer,
) {
    let program = match read(alloc, NAME, 0, text.as_bytes()) {
        Ok(program) => program,
        Err(refusal) => return tell_refusal(alloc, &refusal, answer),
    };
    if let Some(mut state) = answer.given(beginning(alloc)) {
        let items = program.items.as_slice();
        if is_gate_alone {
            judge_before_last(alloc, &mut state, items, row, answer);
        } else {
            judge_all(alloc, &mut state, items, answer);
        }
    }
    program.discard();
}
