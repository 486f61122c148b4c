//! Which subroutines are put in.

ghost use Rattle.std.specs.Prelude.{◌≡◌, ℕ, ◌≤◌, true, ◌||◌, length, IfOk};
ghost use Rattle.qt_modify.specs.Needs.{flag_at, is_number};
ghost use Rattle.qt_fixed_angles.specs.Reached as spec;
ghost use Rattle.qt_fixed_angles.specs.Reached.{AreClosed, Covers, Marks};

use qt_modify::needs::flag_at;
use qt_typed::program::TypedSubroutine;
use qt_typed::statement::{TypedAction, TypedRight, TypedStatement};
use sqlite_items::Items;
use std::alloc::{AllocError, Global};

/// Sets the flag with that number, where it is below the other.
#[tactic(auto, using(crate::proofs::Marking::one_marked, crate::proofs::Marking::none_marked))]
fn mark(flags: &mut Items<bool>, below: usize, number: u32)
    requires { below ≤ length flags.old }
    ensures marks { Marks below flags.old flags.new (is_number number) }
    ensures len { length flags.new ≡ length flags.old }
{
    if (number as usize) < below {
        flags.set(number as usize, true);
    }
}

/// Sets the flag of the subroutine that a right side calls.
#[tactic(auto, using(crate::proofs::Marking::nothing_marked))]
fn mark_right(flags: &mut Items<bool>, below: usize, right: &TypedRight)
    requires { below ≤ length flags.old }
    ensures marks { Marks below flags.old flags.new (spec.right_calls right.now) }
    ensures len { length flags.new ≡ length flags.old }
{
    if let TypedRight::Call { call, .. } = right {
        mark(flags, below, call.subroutine);
    }
}

/// Sets the flag of the subroutine that a right side calls, where there is one.
#[tactic(auto, using(crate::proofs::Marking::nothing_marked))]
fn mark_optional(flags: &mut Items<bool>, below: usize, right: &Option<TypedRight>)
    requires { below ≤ length flags.old }
    ensures marks { Marks below flags.old flags.new (spec.optional_calls right.now) }
    ensures len { length flags.new ≡ length flags.old }
{
    if let Some(value) = right {
        mark_right(flags, below, value);
    }
}

/// Sets the flag of the subroutine that an action calls.
#[tactic(auto, using(crate::proofs::Marking::nothing_marked))]
fn mark_action(flags: &mut Items<bool>, below: usize, action: &TypedAction)
    requires { below ≤ length flags.old }
    ensures marks { Marks below flags.old flags.new (spec.action_calls action.now) }
    ensures len { length flags.new ≡ length flags.old }
{
    match action {
        TypedAction::Declare { value, .. } | TypedAction::Return { value } => {
            mark_optional(flags, below, value)
        }
        TypedAction::Assign { value, .. } => mark_right(flags, below, value),
        TypedAction::Call { call } => mark(flags, below, call.subroutine),
        _ => {}
    }
}

/// Sets the flags of the subroutines that a statement with its bodies calls.
#[cycle(statement)]
fn mark_statement(flags: &mut Items<bool>, below: usize, statement: &TypedStatement)
    requires { below ≤ length flags.old }
    ensures marks { Marks below flags.old flags.new (spec.calls statement.now) }
    ensures len { length flags.new ≡ length flags.old }
{
    match statement {
        TypedStatement::Simple { action, .. } => mark_action(flags, below, action),
        TypedStatement::If {
            body,
            otherwise,
            ..
        } => mark_branch(flags, below, body.as_slice(), otherwise.as_slice()),
        TypedStatement::Loop { body, .. } => mark_list(flags, below, body.as_slice()),
    }
}

/// Sets the flags of the subroutines that both bodies of a branch call.
#[cycle(statement)]
#[tactic(auto, using(crate::proofs::Marking::both_marked))]
fn mark_branch(
    flags: &mut Items<bool>,
    below: usize,
    body: &[TypedStatement],
    otherwise: &[TypedStatement],
)
    requires { below ≤ length flags.old }
    ensures marks { Marks below flags.old flags.new (λ i. spec.list_calls body.now i || spec.list_calls otherwise.now i) }
    ensures len { length flags.new ≡ length flags.old }
{
    mark_list(flags, below, body);
    mark_list(flags, below, otherwise);
}

/// Sets the flags of the subroutines that statements call, whose numbers are below that one.
#[cycle(statement)]
pub fn mark_list(flags: &mut Items<bool>, below: usize, statements: &[TypedStatement])
    requires { below ≤ length flags.old }
    ensures marks { Marks below flags.old flags.new (spec.list_calls statements.now) }
    ensures len { length flags.new ≡ length flags.old }
{
    let mut left = statements;
    'statements: while let [first, rest @ ..] = left {
        mark_statement(flags, below, first);
        left = rest;
    }
}

/// So many flags, none of which is set.
fn none_set(alloc: Global, count: usize) -> Result<Items<bool>, AllocError>
    ensures { IfOk result (λ flags. count ≤ length flags) }
{
    let mut flags = Items::new(alloc);
    while flags.len() < count {
        flags.push(false)?;
    }
    Ok(flags)
}

/// Sets the flags of the subroutines that the one with that number calls.
fn mark_subroutine(flags: &mut Items<bool>, number: usize, subroutine: &TypedSubroutine)
    requires { number ≤ length flags.old }
    ensures marks { Marks number flags.old flags.new (spec.list_calls subroutine.now.body) }
    ensures len { length flags.new ≡ length flags.old }
{
    mark_list(flags, number, subroutine.body.as_slice());
}

/// Sets the flags of the subroutines that are put in, where those that the program calls are set: the last subroutine first, since each
/// calls only those before it.
fn mark_called(flags: &mut Items<bool>, subroutines: &[TypedSubroutine])
    requires { length subroutines.now ≤ length flags.old }
    ensures kept { (i : ℕ) → flag_at flags.old i ≡ true → flag_at flags.new i ≡ true }
    ensures closed { AreClosed subroutines.now flags.new }
{
    let mut number = subroutines.len();
    'subroutines: while number > 0 {
        number -= 1;
        if flag_at(flags.as_slice(), number) {
            mark_subroutine(flags, number, &subroutines[number]);
        }
    }
}

/// Flags that are set for all subroutines that are put in, for a program with these subroutines and this body.
pub fn reached(
    alloc: Global,
    subroutines: &[TypedSubroutine],
    body: &[TypedStatement],
) -> Result<Items<bool>, AllocError>
    ensures { IfOk result (λ flags. Covers subroutines.now body.now flags) }
{
    let mut flags = none_set(alloc, subroutines.len())?;
    mark_list(&mut flags, subroutines.len(), body);
    mark_called(&mut flags, subroutines);
    Ok(flags)
}
