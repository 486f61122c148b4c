//! That the references of primitives were tested to differ.

ghost use Rattle.std.specs.Prelude.{◌≡◌, Some};
ghost use Rattle.std.specs.List.{list_all, list_any};
ghost use Rattle.qt_instructions.specs.Targets.{target_of};
ghost use Rattle.qt_code_rules.specs.References.{is_tested};
ghost use Rattle.qt_code.specs.Different.{references_of};
ghost use Rattle.qt_code.specs.Passes.{all_have_tests, applies_tested, is_inside, jumps_stay_outside, stays_outside, tested_behind};
ghost use Rattle.qt_code.specs.Tested.{all_tested, is_work, keeps_tested, needs_test};

use qt_code_rules::references::{are_tested, is_tested};
use qt_instructions::instruction::Instr;
use qt_instructions::primitive::Primitive;
use qt_instructions::reference::QubitRef;

// ---- behind a test

#[tactic(auto, using(crate::proofs::Differing::all_turned, crate::proofs::Differing::all_phased))]
fn is_primitive_tested(tested: &[QubitRef], primitive: &Primitive) -> bool
    ensures { result ≡ list_all (is_tested tested.now) (references_of primitive.now) }
{
    match primitive {
        Primitive::Turn {
            ones,
            zeros,
            target,
            ..
        } => {
            are_tested(tested, ones.items())
                && are_tested(tested, zeros.items())
                && is_tested(tested, *target)
        }
        Primitive::Phase { ones, zeros, .. } => {
            are_tested(tested, ones.items()) && are_tested(tested, zeros.items())
        }
    }
}

fn applies_tested(tested: &[QubitRef], instruction: &Instr) -> bool
    ensures { result ≡ applies_tested tested.now instruction.now }
{
    match instruction {
        Instr::Gate { primitive } => is_primitive_tested(tested, primitive),
        _ => true,
    }
}

/// What counts as tested behind an instruction.
fn tested_behind<'a>(tested: &'a [QubitRef], instruction: &'a Instr) -> &'a [QubitRef]
    ensures { result.now ≡ tested_behind tested.now instruction.now }
{
    match instruction {
        Instr::Distinct { qubits } => qubits.items(),
        Instr::Gate { .. } | Instr::AngleOp { .. } => tested,
        _ => &[],
    }
}

/// Each primitive that needs a test stands behind one.
#[tactic(auto, using(crate::proofs::Passing::tests_passed))]
fn all_have_tests(mut code: &[Instr]) -> bool
    ensures { result ≡ all_have_tests code.entry.now }
{
    let mut tested: &[QubitRef] = &[];
    'code: while let [first, rest @ ..] = code {
        if !applies_tested(tested, first) {
            return false;
        }
        tested = tested_behind(tested, first);
        code = rest;
    }
    true
}

// ---- no jump in between

fn is_work(reference: QubitRef) -> bool
    ensures { result ≡ is_work reference }
{
    matches!(reference, QubitRef::Work(_))
}

fn some_work(references: &[QubitRef]) -> bool
    ensures { result ≡ list_any is_work references.now }
{
    references.iter().any(|reference| is_work(*reference))
}

#[tactic(auto, using(crate::proofs::Differing::some_turned, crate::proofs::Differing::some_phased))]
fn primitive_needs_test(primitive: &Primitive) -> bool
    ensures { result ≡ list_any is_work (references_of primitive.now) }
{
    match primitive {
        Primitive::Turn {
            ones,
            zeros,
            target,
            ..
        } => some_work(ones.items()) || some_work(zeros.items()) || is_work(*target),
        Primitive::Phase { ones, zeros, .. } => some_work(ones.items()) || some_work(zeros.items()),
    }
}

fn needs_test(instruction: &Instr) -> bool
    ensures { result ≡ needs_test instruction.now }
{
    match instruction {
        Instr::Gate { primitive } => primitive_needs_test(primitive),
        _ => false,
    }
}

fn keeps_tested(instruction: &Instr) -> bool
    ensures { result ≡ keeps_tested instruction.now }
{
    matches!(instruction, Instr::Gate { .. } | Instr::AngleOp { .. })
}

/// From here a primitive that needs a test is reached over nothing but gates and arithmetic of phases.
#[tactic(auto, using(crate::proofs::Passing::inside_passed))]
fn is_inside(mut code: &[Instr]) -> bool
    ensures { result ≡ is_inside code.entry.now }
{
    'code: while let [first, rest @ ..] = code {
        if needs_test(first) {
            return true;
        }
        if !keeps_tested(first) {
            return false;
        }
        code = rest;
    }
    false
}

/// The instruction with that number isn't inside.
#[tactic(auto, using(crate::proofs::Passing::nothing_inside))]
fn is_outside(code: &[Instr], number: usize) -> bool
    ensures { result ≡ stays_outside code.now (Some number) }
{
    if number < code.len() {
        !is_inside(&code[number..])
    } else {
        true
    }
}

fn stays_outside(code: &[Instr], instruction: &Instr) -> bool
    ensures { result ≡ stays_outside code.now (target_of instruction.now) }
{
    match instruction.target() {
        Some(to) => is_outside(code, to as usize),
        None => true,
    }
}

/// No jump goes to an instruction behind a test and not behind all that it is for.
fn jumps_stay_outside(code: &[Instr]) -> bool
    ensures { result ≡ jumps_stay_outside code.now }
{
    code.iter()
        .all(|instruction| stays_outside(code, instruction))
}

/// Each primitive with a reference in a work cell stands behind a test of its references, and no jump goes in between.
#[tactic(auto, using(crate::proofs::Agreeing::jumps_decide, crate::proofs::Agreeing::tests_decide))]
pub fn all_tested(code: &[Instr]) -> bool
    ensures { result ≡ all_tested code.now }
{
    all_have_tests(code) && jumps_stay_outside(code)
}
