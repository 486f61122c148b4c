//! What a gate call calls.

ghost use Rattle.std.specs.Prelude.{◌≡◌};
ghost use Rattle.std.specs.Option.{option_copied};
ghost use Rattle.qt_typing.specs.Checked.{Gives};
ghost use Rattle.qt_typing.specs.Expressions.{or_unfit};
ghost use Rattle.qt_typing.specs.Gates as spec;

pub use qt_check_rules::counts::count_fits;
use qt_check_rules::names::unfit;
use qt_gate_calls::body::Called;
use qt_gates::named::standard;
use qt_names::named::{Named, Places, What};
use qt_tree::expression::Expr;
use qt_tree::label::Label;
use qt_tree::place::Place;
use qt_tree::refusal::TextRefusal;
use qt_tree::statement::CalledGate;
use qt_typing::names::Names;
use std::alloc::Global;
use std::marker::Model;
use std::slice;

/// What is called, and the numbers of its parameters and qubits.
#[derive(Clone, Copy)]
pub struct Gate {
    pub called: Called,
    pub parameters: u32,
    pub qubits: u32,
}

impl Model for Gate {
    ghost use Rattle.qt_typing.specs.Gates as spec;

    ghost Value = { spec.Gate };

    ghost view = { λ gate. record { called = gate.called; parameters = gate.parameters; qubits = gate.qubits } };

    ghost inverse = { λ gate. record { called = gate.called; parameters = gate.parameters; qubits = gate.qubits } };
}

/// `U`.
const U_GATE: Gate = Gate {
    called: Called::U,
    parameters: 3,
    qubits: 1,
};

/// `gphase`.
const GLOBAL_PHASE: Gate = Gate {
    called: Called::GlobalPhase,
    parameters: 1,
    qubits: 0,
};

/// A declared gate, by its numbers of parameters and qubits and its own number.
fn gate_kept(it: &Named) -> Option<Gate>
    ensures { result ≡ spec.gate_kept it.now.lengths it.now.places }
{
    match (it.lengths.items(), &it.places) {
        ([parameters, qubits], Places::Number { number }) => Some(Gate {
            called: Called::Gate { number: *number },
            parameters: *parameters,
            qubits: *qubits,
        }),
        _ => None,
    }
}

/// The gate that something with a name is.
fn gate_of_kind(it: &Named) -> Option<Gate>
    ensures { result ≡ spec.gate_of_kind it.now.what it.now }
{
    match it.what {
        What::Gate => gate_kept(it),
        _ => None,
    }
}

/// The standard gate of a name, where these are included.
#[tactic(auto, using(crate::proofs::StandardGates::standard_is))]
fn standard_gate(included: bool, name: &str) -> Option<Gate>
    ensures { result ≡ spec.standard_gate included name.now }
{
    if !included {
        return None;
    }
    match standard(name) {
        Some(gate) => Some(Gate {
            called: Called::Gate {
                number: gate.number,
            },
            parameters: gate.parameters,
            qubits: gate.qubits,
        }),
        None => None,
    }
}

/// The gate that was found: E8 where there is none.
fn or_unfit(
    alloc: Global,
    place: Place,
    name: &Label,
    found: Option<Gate>,
) -> Result<Gate, TextRefusal>
    ensures { Gives (or_unfit place name.now found) result }
{
    match found {
        Some(gate) => Ok(gate),
        None => Err(unfit(alloc, place, name)),
    }
}

/// The gate of a name: one that the program declares, else `U`, else a standard gate where these are included.
#[tactic(auto, unfolding(qt_typing::specs::Gates::gate_at))]
fn gate_at(
    alloc: Global,
    included: bool,
    place: Place,
    name: &Label,
    known: Option<&Named>,
) -> Result<Gate, TextRefusal>
    ensures { Gives (spec.gate_at included place name.now (option_copied known.entry)) result }
{
    match known {
        Some(it) => or_unfit(alloc, place, name, gate_of_kind(it)),
        None if name.text() == "U" => Ok(U_GATE),
        None => or_unfit(alloc, place, name, standard_gate(included, name.text())),
    }
}

/// What a gate call calls: E8 of a name that is no gate's. The names of standard gates stand outside of the global scope. OpenQASM 3.0,
/// "Gates", applying gates, and "Standard library".
#[tactic(auto, unfolding(qt_typing::specs::Gates::gate_called))]
pub fn gate_called(
    alloc: Global,
    names: &Names,
    included: bool,
    place: Place,
    gate: &CalledGate,
) -> Result<Gate, TextRefusal>
    ensures { Gives (spec.gate_called names.now included place gate.now) result }
{
    match gate {
        CalledGate::Named { name, .. } => {
            gate_at(
                alloc,
                included,
                place,
                name,
                names.scopes.known(name.text()),
            )
        }
        CalledGate::GlobalPhase { .. } => Ok(GLOBAL_PHASE),
    }
}

/// The arguments as they are written.
pub fn written_arguments(gate: &CalledGate) -> &[Expr]
    ensures { result.now ≡ spec.written_arguments gate.now }
{
    match gate {
        CalledGate::Named {
            arguments: Some(arguments),
            ..
        } => arguments.as_slice(),
        CalledGate::Named { .. } => &[],
        CalledGate::GlobalPhase { angle } => slice::from_ref(angle),
    }
}
