//! Programs whose size is told.

use qt_gate_calls::body::{Called, GateBodies};
use qt_outside::faults::OutOfMemory;
use qt_tree::place::Place;
use qt_typed::call::{Broadcast, GateUse, Span, SubroutineCall, TypedCall};
use qt_typed::expression::TypedExpr;
use qt_typed::program::TypedSubroutine;
use qt_typed::statement::{Spot, TypedAction, TypedLoop, TypedStatement};
use qt_value::types::ValueType;
use sqlite_items::Items;
use std::alloc::Global;

/// The number of `swap` in the table of standard gates.
pub const SWAP_ROW: u32 = 28;

/// The beginning of the file.
pub const BEGINNING: Place = Place {
    file: 0,
    line: 1,
    column: 1,
};

/// No slots.
const NO_SLOTS: Span = Span { first: 0, count: 0 };

/// A program as far as its size says.
#[derive(Drop)]
pub struct SizedProgram {
    pub subroutines: Items<TypedSubroutine>,
    pub body: Items<TypedStatement>,
}

fn spot(tokens: u32) -> Spot {
    Spot {
        place: BEGINNING,
        tokens,
    }
}

/// A variable.
fn condition() -> TypedExpr {
    TypedExpr::Slot {
        kind: ValueType::Bool,
        slot: 0,
    }
}

/// The standard gate `swap`.
fn swap(alloc: Global, gates: GateBodies) -> GateUse {
    GateUse {
        gates,
        modifiers: Items::new(alloc),
        gate: Called::Gate { number: SWAP_ROW },
        arguments: Items::new(alloc),
    }
}

/// A call of `swap`.
fn gate(alloc: Global, gates: GateBodies, tokens: u32) -> TypedStatement {
    let call = TypedCall {
        place: BEGINNING,
        used: swap(alloc, gates),
        operands: Items::new(alloc),
    };
    TypedStatement::Simple {
        at: spot(tokens),
        action: TypedAction::Gate { call },
    }
}

/// A call of `swap` at so many places.
fn broadcast(alloc: Global, gates: GateBodies, tokens: u32, size: u32) -> TypedStatement {
    let call = Broadcast {
        place: BEGINNING,
        used: swap(alloc, gates),
        operands: Items::new(alloc),
        size,
    };
    TypedStatement::Simple {
        at: spot(tokens),
        action: TypedAction::Broadcast { call },
    }
}

/// A call of the subroutine with that number.
fn call(alloc: Global, tokens: u32, subroutine: u32) -> TypedStatement {
    let call = SubroutineCall {
        subroutine,
        frame: NO_SLOTS,
        values: Items::new(alloc),
        qubits: Items::new(alloc),
    };
    TypedStatement::Simple {
        at: spot(tokens),
        action: TypedAction::Call { call },
    }
}

/// A body of one statement.
fn alone(alloc: Global, statement: TypedStatement) -> Result<Items<TypedStatement>, OutOfMemory> {
    let mut body = Items::new(alloc);
    body.push(statement)?;
    Ok(body)
}

/// A branch with these bodies.
fn branch(
    tokens: u32,
    body: Items<TypedStatement>,
    otherwise: Items<TypedStatement>,
) -> TypedStatement {
    TypedStatement::If {
        at: spot(tokens),
        condition: condition(),
        body,
        body_slots: NO_SLOTS,
        otherwise,
        otherwise_slots: NO_SLOTS,
    }
}

/// A loop with that body.
fn looped(tokens: u32, body: Items<TypedStatement>) -> TypedStatement {
    TypedStatement::Loop {
        at: spot(tokens),
        over: TypedLoop::While {
            condition: condition(),
        },
        loop_slots: NO_SLOTS,
        body,
        body_slots: NO_SLOTS,
    }
}

/// A subroutine with that body.
fn subroutine(alloc: Global, body: Items<TypedStatement>) -> TypedSubroutine {
    TypedSubroutine {
        parameters: Items::new(alloc),
        result: None,
        body,
        slots: 0,
    }
}

/// A branch that calls a subroutine on either way.
fn either_way(
    alloc: Global,
    tokens: u32,
    number: u32,
) -> Result<Items<TypedStatement>, OutOfMemory> {
    let body = alone(alloc, call(alloc, tokens, number))?;
    let otherwise = alone(alloc, call(alloc, tokens, number))?;
    alone(alloc, branch(tokens, body, otherwise))
}

/// A subroutine that calls `swap` at so many places, and so many others behind it, each of which calls the one before it on either way of
/// a branch.
fn subroutines(
    alloc: Global,
    gates: GateBodies,
    tokens: u32,
    places: u32,
    count: u8,
) -> Result<Items<TypedSubroutine>, OutOfMemory> {
    let mut all = Items::new(alloc);
    let first = alone(alloc, broadcast(alloc, gates, tokens, places))?;
    all.push(subroutine(alloc, first))?;
    for number in 0..count {
        let body = either_way(alloc, tokens, number as u32)?;
        all.push(subroutine(alloc, body))?;
    }
    Ok(all)
}

/// A loop that calls the subroutine with that number, and then one behind it, which isn't there; and a call of `swap`.
fn main_body(
    alloc: Global,
    gates: GateBodies,
    tokens: u32,
    last: u32,
) -> Result<Items<TypedStatement>, OutOfMemory> {
    let mut inner = alone(alloc, call(alloc, tokens, last))?;
    inner.push(call(alloc, tokens, last.saturating_add(1)))?;
    let mut body = alone(alloc, looped(tokens, inner))?;
    body.push(gate(alloc, gates, tokens))?;
    Ok(body)
}

/// The program of these subroutines and that body. Each statement has so many tokens.
pub fn sized_program(
    alloc: Global,
    gates: GateBodies,
    tokens: u32,
    places: u32,
    count: u8,
) -> Result<SizedProgram, OutOfMemory> {
    let body = main_body(alloc, gates.share()?, tokens, count as u32)?;
    let subroutines = subroutines(alloc, gates, tokens, places, count)?;
    Ok(SizedProgram { subroutines, body })
}
