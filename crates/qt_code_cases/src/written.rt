use crate::gates::{phase_in, qubits_in, reference_in, references_in, store_in, turn_in};
use crate::values::{angle_operation_in, kind_in, operand_in, operation_in};
use qt_code::instruction::{Instr, Instrs};
use qt_code::parts::{Field, Layout, Parts, Places, Slots};
use qt_rows::answer::Answer;
use qt_rows::row::Row;
use qt_tree::label::Label;
use qt_tree::lengths::Lengths;
use qt_tree::place::Place;
use std::alloc::Global;

fn move_in(name: &str, row: &mut Row<'_>) -> Option<Instr> {
    match name {
        "load" => Some(Instr::Load {
            cell: row.u32(),
            bits: row.u64(),
        }),
        "get" => Some(Instr::Get {
            cell: row.u32(),
            slot: row.u32(),
        }),
        "put" => Some(Instr::Put {
            slot: row.u32(),
            cell: row.u32(),
        }),
        "get_at" => Some(Instr::GetAt {
            cell: row.u32(),
            first: row.u32(),
            count: row.u32(),
            index: operand_in(row),
        }),
        "put_at" => Some(Instr::PutAt {
            first: row.u32(),
            count: row.u32(),
            index: operand_in(row),
            cell: row.u32(),
        }),
        "bit_get" => Some(Instr::BitGet {
            cell: row.u32(),
            of: operand_in(row),
            index: operand_in(row),
        }),
        "bit_put" => Some(Instr::BitPut {
            of: operand_in(row),
            index: operand_in(row),
            bit: row.u32(),
        }),
        _ => None,
    }
}

fn reckoning_in(name: &str, row: &mut Row<'_>) -> Option<Instr> {
    match name {
        "apply" => Some(Instr::Apply {
            cell: row.u32(),
            operation: operation_in(row),
        }),
        "cast" => Some(Instr::Cast {
            cell: row.u32(),
            from: operand_in(row),
            to: kind_in(row),
        }),
        "turns" => Some(Instr::Turns {
            cell: row.u32(),
            first: operand_in(row),
            step: operand_in(row),
            last: operand_in(row),
        }),
        "angle" => Some(Instr::AngleOp {
            cell: row.u32(),
            operation: angle_operation_in(row),
        }),
        _ => None,
    }
}

fn way_in(name: &str, row: &mut Row<'_>) -> Option<Instr> {
    match name {
        "tick" => Some(Instr::Tick),
        "jump" => Some(Instr::Jump { to: row.u32() }),
        "jump_if" => Some(Instr::JumpIf {
            condition: row.u32(),
            to: row.u32(),
        }),
        "end" => Some(Instr::End),
        _ => None,
    }
}

fn effect_in(alloc: Global, name: &str, row: &mut Row<'_>, answer: &mut Answer) -> Instr {
    match name {
        "qubit" => Instr::Qubit {
            cell: row.u32(),
            qubits: qubits_in(alloc, row, answer),
            index: operand_in(row),
        },
        "distinct" => Instr::Distinct {
            qubits: references_in(alloc, row, answer),
        },
        "u" => Instr::Gate {
            primitive: turn_in(alloc, row, answer),
        },
        "phase" => Instr::Gate {
            primitive: phase_in(alloc, row, answer),
        },
        "measure" => Instr::Measure {
            qubit: reference_in(row),
            store: store_in(row),
        },
        "reset" => Instr::Reset {
            qubit: reference_in(row),
        },
        _ => {
            row.refuse();
            Instr::End
        }
    }
}

fn instruction_in(alloc: Global, row: &mut Row<'_>, answer: &mut Answer) -> Instr {
    let name = row.word();
    if let Some(instruction) = way_in(name, row) {
        return instruction;
    }
    if let Some(instruction) = move_in(name, row) {
        return instruction;
    }
    if let Some(instruction) = reckoning_in(name, row) {
        return instruction;
    }
    effect_in(alloc, name, row, answer)
}

/// Instructions between `;`
fn instructions_in(alloc: Global, row: &mut Row<'_>, answer: &mut Answer) -> Instrs {
    let mut instructions = Vec::new(alloc);
    let written = row.part('/');
    for one in written.split(';') {
        let mut piece = Row::new(one);
        let instruction = instruction_in(alloc, &mut piece, answer);
        answer.require(instructions.push(instruction));
        row.refused |= piece.refused || !piece.rest.trim_start().is_empty();
    }
    Instrs::from_vec(instructions)
}

/// The places of so many instructions, on a line each.
fn places_of(alloc: Global, count: usize, answer: &mut Answer) -> Places {
    let mut places = Vec::new(alloc);
    for number in 0..count {
        let line = (number % 1000) as u32 + 1;
        let place = Place {
            file: 0,
            line,
            column: 1,
        };
        answer.require(places.push(place));
    }
    Places::from_vec(places)
}

/// Numbers up to a `/`
fn start_in(alloc: Global, row: &mut Row<'_>, answer: &mut Answer) -> Slots {
    let mut values = Vec::new(alloc);
    let written = row.part('/');
    for one in written.split_whitespace() {
        let mut number = Row::new(one);
        answer.require(values.push(number.u64()));
        row.refused |= number.refused;
    }
    Slots::from_vec(values)
}

fn lengths_in(alloc: Global, row: &mut Row<'_>, answer: &mut Answer) -> Lengths {
    let mut lengths = Vec::new(alloc);
    for one in row.rest.split_whitespace() {
        let mut number = Row::new(one);
        answer.require(lengths.push(number.u32()));
        row.refused |= number.refused;
    }
    Lengths::from_vec(lengths)
}

/// `NAME KIND SLOT LENGTH ..`
fn field_in(alloc: Global, row: &mut Row<'_>, answer: &mut Answer) -> Option<Field> {
    let name = answer.given(Label::new(alloc, row.word()))?;
    let kind = kind_in(row);
    let slot = row.u32();
    let lengths = lengths_in(alloc, row, answer);
    Some(Field {
        name,
        kind,
        slot,
        lengths,
    })
}

/// Variables between `;`
fn layout_in(alloc: Global, row: &mut Row<'_>, answer: &mut Answer) -> Layout {
    let mut fields = Vec::new(alloc);
    for one in row.rest.split(';') {
        let mut piece = Row::new(one);
        if one.trim_start().is_empty() {
            continue;
        }
        if let Some(field) = field_in(alloc, &mut piece, answer) {
            answer.require(fields.push(field));
        }
        row.refused |= piece.refused;
    }
    Layout::from_vec(fields)
}

/// `QUBITS SLOTS CELLS / START .. / INSTRUCTION; .. / FIELD; ..`, with so many places less than instructions
pub fn parts_in(alloc: Global, cut: usize, row: &mut Row<'_>, answer: &mut Answer) -> Parts {
    let mut front = Row::new(row.part('/'));
    let (qubits, slots, cells) = (front.u32(), front.u32(), front.u32());
    row.refused |= front.refused;
    let start = start_in(alloc, row, answer);
    let instructions = instructions_in(alloc, row, answer);
    let layout = layout_in(alloc, row, answer);
    let count = instructions.items().len().saturating_sub(cut);
    let places = places_of(alloc, count, answer);
    Parts {
        instructions,
        places,
        qubits,
        slots,
        cells,
        start,
        layout,
        end: Place {
            file: 0,
            line: 1,
            column: 1,
        },
    }
}
