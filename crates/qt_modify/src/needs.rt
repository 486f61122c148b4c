//! On which parameters of a gate an angle of its primitives depends.

ghost use Rattle.std.specs.Prelude.{◌≡◌, ◌<◌, ◌||◌, ◌&&◌, ◌∷◌, [], ℕ, length, IfOk, OnOk};
ghost use Rattle.qt_modify.specs.Expansions.{expansions_of, needs_in};
ghost use Rattle.qt_modify.specs.Needs.{angles_need, are_idle, called_needs, calls_need, flag_at, is_idle, is_number, occurs, wanted};
ghost use Rattle.qt_modify.specs.Known.{KnowsNeeds, Marks, flags_of};

use qt_gate_calls::angle::Angle;
use qt_gate_calls::body::{BodyCall, Called, GateBody, GateModifier};
use sqlite_items::Items;
use std::alloc::{AllocError, Global};

fn is_idle(modifier: &GateModifier) -> bool
    ensures { result ≡ is_idle modifier.now }
{
    match modifier {
        GateModifier::Pow { exponent } => *exponent == 0,
        _ => false,
    }
}

/// A power 0 stands among the modifiers, so that the call has no primitives.
pub fn are_idle(modifiers: &[GateModifier]) -> bool
    ensures { result ≡ are_idle modifiers.now }
{
    modifiers.iter().any(|modifier| is_idle(modifier))
}

/// The flag with that number, which is false behind the end.
#[tactic(auto, using(crate::proofs::Flags::flag_found))]
pub fn flag_at(flags: &[bool], number: usize) -> bool
    ensures { result ≡ flag_at flags.now number }
{
    flags.get(number).copied().unwrap_or(false)
}

/// Adds flags that are false, up to that number.
#[tactic(auto, using(crate::proofs::Flags::one_longer))]
fn lengthened(flags: &mut Items<bool>, number: usize) -> Result<(), AllocError>
    ensures same { OnOk result ((i : ℕ) → flag_at flags.new i ≡ flag_at flags.old i) }
    ensures long { OnOk result (number < length flags.new) }
{
    while flags.len() <= number {
        flags.push(false)?;
    }
    Ok(())
}

/// Sets the flag with that number.
#[tactic(auto, using(crate::proofs::Flags::marked))]
fn mark(flags: &mut Items<bool>, number: u32) -> Result<(), AllocError>
    ensures { OnOk result (Marks flags.old flags.new (is_number number)) }
{
    lengthened(flags, number as usize)?;
    flags.set(number as usize, true);
    Ok(())
}

/// Sets the flags of the parameters that stand in an angle.
#[tactic(auto, using(crate::proofs::Flags::angles))]
fn mark_angle(flags: &mut Items<bool>, angle: &Angle) -> Result<(), AllocError>
    ensures { OnOk result (Marks flags.old flags.new (occurs angle.now)) }
{
    match angle {
        Angle::Units { .. } => Ok(()),
        Angle::Parameter { number } => mark(flags, *number),
        Angle::Sum { left, right } => {
            mark_angle(flags, left.get())?;
            mark_angle(flags, right.get())
        }
        Angle::Difference { left, right } => {
            mark_angle(flags, left.get())?;
            mark_angle(flags, right.get())
        }
        Angle::Opposite { angle } => mark_angle(flags, angle.get()),
        Angle::Product { angle, .. } => mark_angle(flags, angle.get()),
        Angle::Quotient { angle, .. } => mark_angle(flags, angle.get()),
    }
}

/// The flags of the gate with that number, and none where there is no such gate.
#[tactic(auto, using(crate::proofs::Flags::flags_found))]
fn flags_of<'a>(needs: &'a [Items<bool>], number: usize) -> &'a [bool]
    ensures { result.now ≡ flags_of needs.now number }
{
    match needs.get(number) {
        Some(flags) => flags.as_slice(),
        None => &[],
    }
}

/// Which arguments of a gate are needed, for the flags of those before it.
#[tactic(auto, using(crate::proofs::Flags::no_gate))]
fn called_needs<'a>(gates: &[GateBody], needs: &'a [Items<bool>], gate: Called) -> &'a [bool]
    requires { KnowsNeeds gates.now needs.now }
    ensures { (i : ℕ) → flag_at result.now i ≡ called_needs (needs_in (expansions_of gates.now)) gate i }
{
    match gate {
        Called::U => &[true, true, true],
        Called::GlobalPhase => &[true],
        Called::Gate { number } => {
            if (number as usize) < gates.len() {
                flags_of(needs, number as usize)
            } else {
                &[]
            }
        }
    }
}

/// Which arguments of a call are wanted: those on which an angle of a primitive depends.
pub fn wants<'a>(
    gates: &[GateBody],
    needs: &'a [Items<bool>],
    modifiers: &[GateModifier],
    gate: Called,
) -> &'a [bool]
    requires { KnowsNeeds gates.now needs.now }
    ensures { (i : ℕ) → flag_at result.now i ≡ wanted (needs_in (expansions_of gates.now)) modifiers.now gate i }
{
    if are_idle(modifiers) {
        return &[];
    }
    called_needs(gates, needs, gate)
}

/// Sets the flags of the parameters that stand in an argument, where it is wanted.
#[tactic(auto, using(crate::proofs::Flags::none_marked))]
fn mark_if(flags: &mut Items<bool>, wanted: bool, angle: &Angle) -> Result<(), AllocError>
    ensures { OnOk result (Marks flags.old flags.new (λ i. wanted && occurs angle.now i)) }
{
    if wanted {
        mark_angle(flags, angle)
    } else {
        Ok(())
    }
}

/// Sets the flags of the parameters that stand in the arguments that are wanted.
#[tactic(auto, using(crate::proofs::Tables::angle_marked, crate::proofs::Flags::none_marked))]
fn mark_angles(flags: &mut Items<bool>, wants: &[bool], angles: &[Angle]) -> Result<(), AllocError>
    ensures { OnOk result (Marks flags.old flags.new (angles_need (flag_at wants.now) 0 angles.now)) }
{
    for (number, angle) in angles.iter().enumerate() {
        mark_if(flags, flag_at(wants, number), angle)?;
    }
    Ok(())
}

/// Sets the flags of the parameters that a call in the body needs.
fn mark_call(
    flags: &mut Items<bool>,
    gates: &[GateBody],
    needs: &[Items<bool>],
    call: &BodyCall,
) -> Result<(), AllocError>
    requires { KnowsNeeds gates.now needs.now }
    ensures { OnOk result (Marks flags.old flags.new (calls_need (needs_in (expansions_of gates.now)) (call.now ∷ []))) }
{
    let wants = wants(gates, needs, call.modifiers.as_slice(), call.gate);
    mark_angles(flags, wants, call.angles.as_slice())
}

/// The flags of the parameters that the calls of a body need.
#[tactic(auto, using(crate::proofs::Tables::call_marked))]
fn body_needs(
    alloc: Global,
    gates: &[GateBody],
    needs: &[Items<bool>],
    calls: &[BodyCall],
) -> Result<Items<bool>, AllocError>
    requires { KnowsNeeds gates.now needs.now }
    ensures { IfOk result (λ flags. (i : ℕ) → flag_at flags i ≡ calls_need (needs_in (expansions_of gates.now)) calls.now i) }
{
    let mut flags = Items::new(alloc);
    for call in calls {
        mark_call(&mut flags, gates, needs, call)?;
    }
    Ok(flags)
}

/// For each gate the flags of its parameters on which an angle of a primitive depends. OpenQASM 3.0, "Gates", hierarchically defined
/// unitary gates.
#[tactic(auto, using(crate::proofs::Tables::none_known, crate::proofs::Tables::one_more_known))]
pub fn needs_of(alloc: Global, gates: &[GateBody]) -> Result<Items<Items<bool>>, AllocError>
    ensures { IfOk result (λ needs. KnowsNeeds gates.now needs) }
{
    let mut needs = Items::new(alloc);
    for (number, body) in gates.iter().enumerate() {
        let flags = body_needs(
            alloc,
            &gates[..number],
            needs.as_slice(),
            body.calls.as_slice(),
        )?;
        needs.push(flags)?;
    }
    Ok(needs)
}
