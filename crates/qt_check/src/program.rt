//! The beginning and the end of a program.

ghost use Rattle.std.specs.Prelude.{◌≡◌, ◌+◌, IfOk};
ghost use Rattle.qt_typing.specs.Checked.{Gives, told};
ghost use Rattle.qt_typing.specs.Programs as spec;
ghost use Rattle.qt_check.specs.Steps as steps;

use qt_const_rules::consts::Consts;
use qt_gate_calls::body::{GateBodies, GateBody};
use qt_gates::table::standard_bodies;
use qt_names::scopes::Scopes;
use qt_outside::faults::OutOfMemory;
use qt_size::program::size_of;
use qt_tree::place::Place;
use qt_tree::program::{Version, VersionNumber};
use qt_tree::refusal::TextRefusal;
use qt_typed::program::{StartValue, Typed, TypedOutput};
use qt_typed::statement::TypedStatement;
use qt_typing::names::Names;
use qt_typing::state::State;
use sqlite_items::Items;
use std::alloc::Global;

/// The most qubits that a program may have.
const MOST_QUBITS: u64 = 16;

/// The most slots that a program may have.
const MOST_SLOTS: u32 = 1024;

/// Whether a version is 3 or 3.0.
fn is_version(number: &VersionNumber) -> bool
    ensures { result ≡ spec.is_version number.now }
{
    match number {
        VersionNumber::Integer { value } => *value == 3,
        VersionNumber::Decimal { text } => matches!(text.text(), "3.0"),
    }
}

/// That each version is served: E7 at the first that isn't. OpenQASM 3.0, "Version string".
#[tactic(auto, unfolding(qt_typing::specs::Programs::versions_fit))]
pub fn versions_fit(mut versions: &[Version]) -> Result<(), TextRefusal>
    ensures { Gives (spec.versions_fit versions.entry.now) result }
{
    while let [version, rest @ ..] = versions {
        if !is_version(&version.number) {
            return Err(TextRefusal::E7(version.place));
        }
        versions = rest;
    }
    Ok(())
}

/// No name in scope.
fn no_names(alloc: Global) -> Names
    ensures { result ≡ spec.no_names }
{
    Names {
        scopes: Scopes::new(alloc),
        consts: Consts::new(alloc),
    }
}

/// What stands before the first item of a program that has all these gates, some of them from the start.
fn starting(alloc: Global, gates: Items<GateBody>, all: GateBodies) -> State
    ensures { result ≡ steps.starting gates all }
{
    State {
        names: no_names(alloc),
        inside: no_names(alloc),
        slots: 0,
        qubits: 0,
        subroutines: Items::new(alloc),
        gates,
        all_gates: all,
        inputs: Items::new(alloc),
        outputs: Items::new(alloc),
        variables: Items::new(alloc),
        tokens: 0,
        included: false,
    }
}

/// What stands before the first item of a program that has all these gates.
#[tactic(auto, using(crate::proofs::Beginning::begins))]
pub fn beginning(alloc: Global, all: GateBodies) -> Result<State, OutOfMemory>
    ensures { IfOk result (λ state. state ≡ spec.beginning all) }
{
    let gates = standard_bodies(alloc)?;
    Ok(starting(alloc, gates, all))
}

/// A count as it is told, up to 4,294,967,295.
fn told(count: u64) -> u32
    ensures { result ≡ told count }
{
    u32::try_from(count).unwrap_or(u32::MAX)
}

/// That a program has at most 16 qubits and 1,024 slots: E15 and E16 with the number that it has.
#[tactic(auto, unfolding(qt_typing::specs::Programs::numbers_fit))]
pub fn numbers_fit(state: &State) -> Result<(), TextRefusal>
    ensures { Gives (spec.numbers_fit state.now) result }
{
    if state.qubits > MOST_QUBITS {
        return Err(TextRefusal::E15(told(state.qubits)));
    }
    if state.slots > MOST_SLOTS {
        return Err(TextRefusal::E16(state.slots));
    }
    Ok(())
}

/// The variables that are told at the end: the outputs, or all global variables where no output is declared.
fn outputs_of(outputs: Items<TypedOutput>, variables: Items<TypedOutput>) -> Items<TypedOutput>
    ensures { result ≡ spec.outputs_of outputs variables }
{
    if outputs.is_empty() {
        variables
    } else {
        outputs
    }
}

/// The size of a program with so many tokens in declarations that don't run.
#[tactic(auto, using(crate::proofs::Sizes::both_told))]
fn whole_size(tokens: u64, counted: u32) -> u64
    ensures { result ≡ told (tokens + counted) }
{
    tokens
        .saturating_add(u64::from(counted))
        .min(u64::from(u32::MAX))
}

/// A program, behind its last item.
#[tactic(auto, unfolding(qt_typing::specs::Programs::without_size, qt_typing::specs::Programs::program_at), using(crate::proofs::Sizes::both_stopped))]
pub fn program_at(
    alloc: Global,
    end: Place,
    state: State,
    body: Items<TypedStatement>,
    start: Items<StartValue>,
) -> Result<Typed, OutOfMemory>
    ensures { IfOk result (λ typed. typed ≡ spec.program_at end state body start) }
{
    let counted = size_of(alloc, state.subroutines.as_slice(), body.as_slice())?;
    let State {
        slots,
        qubits,
        subroutines,
        gates,
        outputs,
        variables,
        tokens,
        ..
    } = state;
    Ok(Typed {
        qubits: told(qubits),
        slots,
        size: whole_size(tokens, counted),
        gates: GateBodies::new(alloc, gates)?,
        subroutines,
        body,
        outputs: outputs_of(outputs, variables),
        start,
        end,
    })
}
