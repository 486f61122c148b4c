//! Statements as trees.

use crate::expressions::{write_brackets, write_expr, write_exprs, write_range, write_scalar};
use crate::tree::{Tree, write_list, write_named, write_part, write_placed};
use qt_rows::answer::Answer;
use qt_tree::statement::{
    CalledGate, GateCall, Modifier, Operand, Right, Sequence, Statement, StatementForm, Target,
};

impl Tree for Operand {
    fn write(&self, answer: &mut Answer) {
        write_named(" (Operand", &self.name, answer);
        write_part(&self.index, answer);
        answer.push_str(")");
    }
}

impl Tree for Target {
    fn write(&self, answer: &mut Answer) {
        write_named(" (Target", &self.name, answer);
        write_brackets(self.brackets.as_slice(), answer);
        answer.push_str(")");
    }
}

impl Tree for Right {
    fn write(&self, answer: &mut Answer) {
        match self {
            Right::Measure { qubits } => {
                answer.push_str(" (Measure");
                qubits.write(answer);
            }
            Right::Value { value } => {
                answer.push_str(" (Value");
                write_expr(value, answer);
            }
        }
        answer.push_str(")");
    }
}

impl Tree for Modifier {
    fn write(&self, answer: &mut Answer) {
        match self {
            Modifier::Inv => answer.push_str(" (Inv"),
            Modifier::Pow { exponent } => {
                answer.push_str(" (Pow");
                write_expr(exponent, answer);
            }
            Modifier::Ctrl { count } => {
                answer.push_str(" (Ctrl");
                write_part(count, answer);
            }
            Modifier::NegCtrl { count } => {
                answer.push_str(" (NegCtrl");
                write_part(count, answer);
            }
        }
        answer.push_str(")");
    }
}

impl Tree for CalledGate {
    fn write(&self, answer: &mut Answer) {
        match self {
            CalledGate::Named { name, arguments } => {
                write_named(" (Named", name, answer);
                match arguments {
                    Some(arguments) => write_exprs(arguments.as_slice(), answer),
                    None => answer.push_str(" none"),
                }
            }
            CalledGate::GlobalPhase { angle } => {
                answer.push_str(" (GlobalPhase");
                write_expr(angle, answer);
            }
        }
        answer.push_str(")");
    }
}

impl Tree for GateCall {
    fn write(&self, answer: &mut Answer) {
        answer.push_str(" (GateCall");
        write_list(self.modifiers.as_slice(), answer);
        self.gate.write(answer);
        write_list(self.operands.as_slice(), answer);
        answer.push_str(")");
    }
}

impl Tree for Sequence {
    fn write(&self, answer: &mut Answer) {
        match self {
            Sequence::Range { range } => return write_range(range, answer),
            Sequence::Set { members } => {
                answer.push_str(" (Set");
                write_exprs(members.as_slice(), answer);
            }
            Sequence::Name { name } => write_named(" (Name", name, answer),
        }
        answer.push_str(")");
    }
}

/// The statements of a body.
#[cycle(statement)]
pub fn write_body(body: &[Statement], answer: &mut Answer) {
    answer.push_str(" [");
    for statement in body {
        write_placed(" (Statement", statement.place, answer);
        write_form(&statement.form, answer);
        answer.push_str(")");
    }
    answer.push_str(" ]");
}

#[cycle(statement)]
pub fn write_form(form: &StatementForm, answer: &mut Answer) {
    match form {
        StatementForm::If {
            condition,
            body,
            otherwise,
        } => {
            answer.push_str(" (If");
            write_expr(condition, answer);
            write_body(body.as_slice(), answer);
            match otherwise {
                Some(body) => write_body(body.as_slice(), answer),
                None => answer.push_str(" none"),
            }
        }
        StatementForm::While { condition, body } => {
            answer.push_str(" (While");
            write_expr(condition, answer);
            write_body(body.as_slice(), answer);
        }
        StatementForm::For {
            scalar,
            name,
            values,
            body,
        } => {
            answer.push_str(" (For");
            write_scalar(scalar, answer);
            name.write(answer);
            values.write(answer);
            write_body(body.as_slice(), answer);
        }
        other => write_line(other, answer),
    }
    answer.push_str(")");
}

/// A declaration, or else another form that has no body, without its last bracket.
fn write_line(form: &StatementForm, answer: &mut Answer) {
    match form {
        StatementForm::Declaration {
            scalar,
            name,
            value,
        } => {
            answer.push_str(" (Declaration");
            write_scalar(scalar, answer);
            name.write(answer);
            write_part(value, answer);
        }
        StatementForm::BitRegister { name, size } => {
            write_named(" (BitRegister", name, answer);
            write_part(size, answer);
        }
        StatementForm::Constant {
            scalar,
            name,
            value,
        } => {
            answer.push_str(" (Constant");
            write_scalar(scalar, answer);
            name.write(answer);
            write_expr(value, answer);
        }
        StatementForm::Alias { name, parts } => {
            write_named(" (Alias", name, answer);
            write_list(parts.as_slice(), answer);
        }
        other => write_action(other, answer),
    }
}

/// A form that neither declares nor has a body, without its last bracket.
fn write_action(form: &StatementForm, answer: &mut Answer) {
    match form {
        StatementForm::Assignment { target, value } => {
            answer.push_str(" (Assignment");
            target.write(answer);
            value.write(answer);
        }
        StatementForm::CompoundAssignment {
            target,
            operator,
            value,
        } => {
            write!(answer, " (CompoundAssignment {operator:?}");
            target.write(answer);
            write_expr(value, answer);
        }
        StatementForm::Measure { qubits, target } => {
            answer.push_str(" (Measure");
            qubits.write(answer);
            write_part(target, answer);
        }
        StatementForm::Reset { qubits } => {
            answer.push_str(" (Reset");
            qubits.write(answer);
        }
        StatementForm::Barrier { qubits } => {
            answer.push_str(" (Barrier");
            write_list(qubits.as_slice(), answer);
        }
        StatementForm::Gate { call } => {
            answer.push_str(" (Gate");
            call.write(answer);
        }
        StatementForm::Call { name, arguments } => {
            write_named(" (Call", name, answer);
            write_exprs(arguments.as_slice(), answer);
        }
        StatementForm::Break => answer.push_str(" (Break"),
        StatementForm::Continue => answer.push_str(" (Continue"),
        StatementForm::Return { value } => {
            answer.push_str(" (Return");
            write_part(value, answer);
        }
        StatementForm::End => answer.push_str(" (End"),
        _ => answer.push_str(" (another"),
    }
}
