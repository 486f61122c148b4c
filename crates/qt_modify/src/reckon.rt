//! Reckoning the angles in the bodies of gates: what is fixed at once, each other operator by a step.

ghost use Rattle.std.specs.Prelude.{◌≡◌, ◌+◌, None, length, IfOk};
ghost use Rattle.qt_gate_calls.specs.Units.{of_one, of_two, sum_of, difference_of, negative_of, product_of, quotient_of};
ghost use Rattle.qt_instructions.specs.declared.angle.AngleStep.TheVariants.{Add, Sub, Neg, Times, Over};
ghost use Rattle.qt_modify.specs.Reckoning.{arg_of, held, none_known, operated, reckoned, settled};

use crate::unit::Steps;
use qt_gate_calls::angle::Angle;
use qt_gate_calls::whole::Whole;
use qt_instructions::angle::{AngleArg, AngleStep};
use qt_phase::phase::Phase;
use qt_primitives::primitives::argument_at;
use qt_primitives::unit::Argument;
use std::alloc::AllocError;

fn sum(left: Phase, right: Phase) -> Option<Phase>
    ensures { result ≡ sum_of left right }
{
    left.add(right).ok()
}

fn difference(left: Phase, right: Phase) -> Option<Phase>
    ensures { result ≡ difference_of left right }
{
    left.add(right.neg()).ok()
}

fn product(factor: Whole, phase: Phase) -> Option<Phase>
    ensures { result ≡ product_of factor phase }
{
    phase.mul_whole(factor.number()).ok()
}

fn quotient(divisor: Whole, phase: Phase) -> Option<Phase>
    ensures { result ≡ quotient_of divisor phase }
{
    phase.div_exact(divisor.number()).ok()
}

fn fixed_sum(left: Option<Phase>, right: Option<Phase>) -> Option<Phase>
    ensures { result ≡ of_two sum_of left right }
{
    sum(left?, right?)
}

fn fixed_difference(left: Option<Phase>, right: Option<Phase>) -> Option<Phase>
    ensures { result ≡ of_two difference_of left right }
{
    difference(left?, right?)
}

fn fixed_negative(phase: Option<Phase>) -> Option<Phase>
    ensures { result ≡ of_one negative_of phase }
{
    Some(phase?.neg())
}

fn fixed_product(factor: Whole, phase: Option<Phase>) -> Option<Phase>
    ensures { result ≡ of_one (product_of factor) phase }
{
    product(factor, phase?)
}

fn fixed_quotient(divisor: Whole, phase: Option<Phase>) -> Option<Phase>
    ensures { result ≡ of_one (quotient_of divisor) phase }
{
    quotient(divisor, phase?)
}

/// The phase of an argument, where it is fixed.
fn fixed(argument: &Argument) -> Option<Phase>
    ensures { result ≡ held none_known (arg_of argument.now) }
{
    match argument {
        Argument::Fixed { phase } => Some(*phase),
        Argument::Cell { .. } => None,
    }
}

/// An argument as a step takes it.
fn arg(argument: Argument) -> AngleArg
    ensures { result ≡ arg_of argument }
{
    match argument {
        Argument::Fixed { phase } => AngleArg::Units(phase.units()),
        Argument::Cell { cell } => AngleArg::Work(cell),
    }
}

/// The number of the cell behind so many from the first on. Cells whose numbers have more than 32 bits are more than memory holds.
fn cell_behind(first: u32, count: usize) -> Result<u32, AllocError>
    ensures { IfOk result (λ cell. cell ≡ first + count) }
{
    let Ok(count) = u32::try_from(count) else {
        return Err(AllocError);
    };
    first.checked_add(count).ok_or(AllocError)
}

/// One step more, whose result is the argument.
fn stepped(steps: &mut Steps, step: AngleStep) -> Result<Argument, AllocError>
    ensures { IfOk result (λ angle. settled steps.old step None ≡ record { steps = steps.new; angle = angle }) }
{
    let cell = cell_behind(steps.first, steps.steps.len())?;
    steps.steps.push(step)?;
    Ok(Argument::Cell { cell })
}

/// One operator, of which the result is known, or which is one step more.
fn settled(steps: &mut Steps, step: AngleStep, known: Option<Phase>) -> Result<Argument, AllocError>
    ensures { IfOk result (λ angle. settled steps.old step known ≡ record { steps = steps.new; angle = angle }) }
{
    match known {
        Some(phase) => Ok(Argument::Fixed { phase }),
        None => stepped(steps, step),
    }
}

/// The sum: fixed, or one step more.
fn plus(steps: &mut Steps, left: Argument, right: Argument) -> Result<Argument, AllocError>
    ensures { IfOk result (λ angle. operated steps.old (Add (arg_of left) (arg_of right)) ≡ record { steps = steps.new; angle = angle }) }
{
    let known = fixed_sum(fixed(&left), fixed(&right));
    settled(steps, AngleStep::Add(arg(left), arg(right)), known)
}

/// The difference.
fn minus(steps: &mut Steps, left: Argument, right: Argument) -> Result<Argument, AllocError>
    ensures { IfOk result (λ angle. operated steps.old (Sub (arg_of left) (arg_of right)) ≡ record { steps = steps.new; angle = angle }) }
{
    let known = fixed_difference(fixed(&left), fixed(&right));
    settled(steps, AngleStep::Sub(arg(left), arg(right)), known)
}

/// The opposite.
fn opposite(steps: &mut Steps, of: Argument) -> Result<Argument, AllocError>
    ensures { IfOk result (λ angle. operated steps.old (Neg (arg_of of)) ≡ record { steps = steps.new; angle = angle }) }
{
    let known = fixed_negative(fixed(&of));
    settled(steps, AngleStep::Neg(arg(of)), known)
}

/// The product with a whole number.
fn times(steps: &mut Steps, of: Argument, factor: Whole) -> Result<Argument, AllocError>
    ensures { IfOk result (λ angle. operated steps.old (Times (arg_of of) factor) ≡ record { steps = steps.new; angle = angle }) }
{
    let known = fixed_product(factor, fixed(&of));
    settled(steps, AngleStep::Times(arg(of), factor.number()), known)
}

/// The quotient by a whole number.
fn over(steps: &mut Steps, of: Argument, divisor: Whole) -> Result<Argument, AllocError>
    ensures { IfOk result (λ angle. operated steps.old (Over (arg_of of) divisor) ≡ record { steps = steps.new; angle = angle }) }
{
    let known = fixed_quotient(divisor, fixed(&of));
    settled(steps, AngleStep::Over(arg(of), divisor.number()), known)
}

/// The angle for the arguments of its gate. The steps that it needs come behind the steps so far. OpenQASM 3.0, "Gates", hierarchically
/// defined unitary gates.
#[tactic(auto, using(crate::proofs::Views::angles))]
pub fn reckoned(
    given: &[Argument],
    angle: &Angle,
    steps: &mut Steps,
) -> Result<Argument, AllocError>
    ensures { IfOk result (λ of. reckoned given.now angle.now steps.old ≡ record { steps = steps.new; angle = of }) }
{
    match angle {
        Angle::Units { units } => Ok(Argument::Fixed { phase: *units }),
        Angle::Parameter { number } => Ok(argument_at(given, *number)),
        Angle::Sum { left, right } => {
            let left = reckoned(given, left.get(), steps)?;
            let right = reckoned(given, right.get(), steps)?;
            plus(steps, left, right)
        }
        Angle::Difference { left, right } => {
            let left = reckoned(given, left.get(), steps)?;
            let right = reckoned(given, right.get(), steps)?;
            minus(steps, left, right)
        }
        Angle::Opposite { angle } => {
            let of = reckoned(given, angle.get(), steps)?;
            opposite(steps, of)
        }
        Angle::Product { angle, factor } => {
            let of = reckoned(given, angle.get(), steps)?;
            times(steps, of, *factor)
        }
        Angle::Quotient { angle, divisor } => {
            let of = reckoned(given, angle.get(), steps)?;
            over(steps, of, *divisor)
        }
    }
}
