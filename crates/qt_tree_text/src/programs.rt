//! Programs as trees.

use crate::expressions::{write_expr, write_exprs, write_scalar};
use crate::statements::{write_body, write_form};
use crate::tree::{Tree, write_list, write_named, write_part, write_place, write_placed};
use qt_rows::answer::Answer;
use qt_tree::expression::Scalar;
use qt_tree::label::Label;
use qt_tree::program::{
    ArrayItem, Definition, GateForm, GateItem, GateStatement, Item, ListItem, Parameter, Program,
    Version, VersionNumber,
};

impl Tree for Version {
    fn write(&self, answer: &mut Answer) {
        write_placed(" (Version", self.place, answer);
        match &self.number {
            VersionNumber::Integer { value } => write!(answer, " (Integer {value}"),
            VersionNumber::Decimal { text } => write_named(" (Decimal", text, answer),
        }
        answer.push_str("))");
    }
}

/// What stands between the braces of a list of an array.
#[cycle(list)]
fn write_list_items(items: &[ListItem], answer: &mut Answer) {
    answer.push_str(" [");
    for item in items {
        write_list_item(item, answer);
    }
    answer.push_str(" ]");
}

#[cycle(list)]
fn write_list_item(item: &ListItem, answer: &mut Answer) {
    match item {
        ListItem::List { items } => {
            answer.push_str(" (List");
            write_list_items(items.as_slice(), answer);
        }
        ListItem::Value { value } => {
            answer.push_str(" (Value");
            write_expr(value, answer);
        }
    }
    answer.push_str(")");
}

fn write_typed(scalar: &Scalar, name: &Label, answer: &mut Answer) {
    write_scalar(scalar, answer);
    name.write(answer);
}

fn write_array(array: &ArrayItem, answer: &mut Answer) {
    write_typed(&array.scalar, &array.name, answer);
    write_exprs(array.dimensions.as_slice(), answer);
    match &array.value {
        Some(items) => write_list_items(items.as_slice(), answer),
        None => answer.push_str(" none"),
    }
}

impl Tree for GateStatement {
    fn write(&self, answer: &mut Answer) {
        write_placed(" (GateStatement", self.place, answer);
        match &self.form {
            GateForm::Call { call } => {
                answer.push_str(" (Call");
                call.write(answer);
            }
            GateForm::Barrier { qubits } => {
                answer.push_str(" (Barrier");
                write_list(qubits.as_slice(), answer);
            }
        }
        answer.push_str("))");
    }
}

fn write_gate(gate: &GateItem, answer: &mut Answer) {
    gate.name.write(answer);
    match &gate.parameters {
        Some(parameters) => write_list(parameters.as_slice(), answer),
        None => answer.push_str(" none"),
    }
    write_list(gate.qubits.as_slice(), answer);
    write_list(gate.body.as_slice(), answer);
}

impl Tree for Parameter {
    fn write(&self, answer: &mut Answer) {
        match self {
            Parameter::Classical { scalar, name } => {
                answer.push_str(" (Classical");
                write_typed(scalar, name, answer);
            }
            Parameter::Qubits { size, name } => {
                answer.push_str(" (Qubits");
                write_part(size, answer);
                name.write(answer);
            }
        }
        answer.push_str(")");
    }
}

fn write_definition(definition: &Definition, answer: &mut Answer) {
    definition.name.write(answer);
    write_list(definition.parameters.as_slice(), answer);
    write_part(&definition.result, answer);
    write_body(definition.body.as_slice(), answer);
}

/// The beginning of an item.
fn beginning(item: &Item) -> &'static str {
    match item {
        Item::Include { .. } => " (Include",
        Item::Input { .. } => " (Input",
        Item::Output { .. } => " (Output",
        Item::Qubit { .. } => " (Qubit",
        Item::QubitRegister { .. } => " (QubitRegister",
        Item::Array { .. } => " (Array",
        Item::Gate { .. } => " (Gate",
        Item::Definition { .. } => " (Definition",
        Item::Statement { .. } => " (Statement",
    }
}

/// What stands behind the place of an item.
fn write_parts(item: &Item, answer: &mut Answer) {
    match item {
        Item::Include { name, .. } => name.write(answer),
        Item::Input { scalar, name, .. } | Item::Output { scalar, name, .. } => {
            write_typed(scalar, name, answer);
        }
        Item::Qubit { size, name, .. } => {
            write_part(size, answer);
            name.write(answer);
        }
        Item::QubitRegister { name, size, .. } => {
            name.write(answer);
            write_part(size, answer);
        }
        Item::Array { array } => write_array(array, answer),
        Item::Gate { gate } => write_gate(gate, answer),
        Item::Definition { definition } => write_definition(definition, answer),
        Item::Statement { statement } => write_form(&statement.form, answer),
    }
}

impl Tree for Item {
    fn write(&self, answer: &mut Answer) {
        write_placed(beginning(self), self.place(), answer);
        write_parts(self, answer);
        answer.push_str(")");
    }
}

impl Tree for Program {
    /// Writes the versions, the items, and the place of the end.
    fn write(&self, answer: &mut Answer) {
        answer.push_str(" (Program");
        write_list(self.versions.as_slice(), answer);
        write_list(self.items.as_slice(), answer);
        write_place(self.end, answer);
        answer.push_str(")");
    }
}

/// Writes a program, and lets it go.
pub fn write_program(program: Program, answer: &mut Answer) {
    program.write(answer);
    program.discard();
}
