//! Primitives of flat code as primitives on states.

ghost use Rattle.std.specs.Prelude.{◌≡◌, ◌<◌, ◌≤◌, ◌&&◌, IsTrue, Ok, IfOk, length};
ghost use Rattle.std.specs.List.{list_all};
ghost use Rattle.qt_code.specs.Cells.{angle_by, primitive_by};
ghost use Rattle.qt_code.specs.Ranges.{has_primitive};
ghost use Rattle.qt_code_rules.specs.Sizes.{has_reference};
ghost use Rattle.qt_gate_calls.specs.Faults.{EighthPrimitive};
ghost use Rattle.qt_gate_calls.specs.Units.{eighth_known};
ghost use Rattle.qt_kernel.specs.Primitives.{IsPrim};
ghost use Rattle.qt_machine.specs.Faults.{meant};
ghost use Rattle.qt_machine.specs.Writes.{held};
ghost use Rattle.qt_meaning.specs.Values.{and_then};
ghost use Rattle.qt_ring.specs.declared.TheConstants.{QUBITS};
ghost use Rattle.qt_resolved_gates.specs.Resolved.{ActsAs, HasAngles, masks_by, phase_by, prim_of, turn_by};

use crate::eighths::eighth;
use qt_code_rules::sizes::Sizes;
use qt_instructions::primitive::Primitive;
use qt_instructions::reference::{AngleRef, QubitRef};
use qt_kernel::primitive::FixedPrim;
use qt_machine::fault::InstrFault;
use qt_machine::qubits::{Named, qubit};

/// The controls of a primitive as masks: those that are to be 1, those that are to be 0, and all of them, one after the other.
#[derive(Clone, Copy)]
struct Masks {
    ones: u32,
    zeros: u32,
    all: Named,
}

/// The references of a primitive's controls.
#[derive(Clone, Copy)]
struct Controls<'a> {
    ones: &'a [QubitRef],
    zeros: &'a [QubitRef],
}

impl Controls<'_> {
    /// The qubits that they name.
    fn masks(self, sizes: Sizes, cells: &[u64]) -> Result<Masks, InstrFault>
        requires few { sizes.qubits ≤ QUBITS }
        requires ones { IsTrue (list_all (has_reference sizes) self.ones.now) }
        requires zeros { IsTrue (list_all (has_reference sizes) self.zeros.now) }
        ensures { meant result ≡ masks_by sizes.qubits self.entry.ones.now self.entry.zeros.now (held cells.now) }
    {
        let none = Named {
            mask: 0,
            twice: false,
        };
        let ones = none.with_all(sizes, self.ones, cells)?;
        let zeros = none.with_all(sizes, self.zeros, cells)?;
        let all = ones.with_all(sizes, self.zeros, cells)?;
        Ok(Masks {
            ones: ones.mask,
            zeros: zeros.mask,
            all,
        })
    }

    /// A global phase under them.
    fn phase(self, sizes: Sizes, angle: AngleRef, cells: &[u64]) -> Result<FixedPrim, InstrFault>
        requires few { sizes.qubits ≤ QUBITS }
        requires ones { IsTrue (list_all (has_reference sizes) self.ones.now) }
        requires zeros { IsTrue (list_all (has_reference sizes) self.zeros.now) }
        ensures value { meant result ≡ phase_by sizes.qubits self.entry.ones.now self.entry.zeros.now (eighth_known (angle_by angle (held cells.now))) (held cells.now) }
        ensures angles { IfOk result HasAngles }
    {
        let masks = self.masks(sizes, cells)?;
        if masks.all.twice {
            return Err(InstrFault::SameQubit);
        }
        match eighth(angle, cells) {
            Some(angle) => Ok(FixedPrim::Phase {
                ones: masks.ones,
                zeros: masks.zeros,
                angle,
            }),
            None => Err(InstrFault::Angle),
        }
    }
}

/// The references of `U`, its qubit and its angles.
#[derive(Clone, Copy)]
struct Turn {
    target: QubitRef,
    theta: AngleRef,
    phi: AngleRef,
    lambda: AngleRef,
}

impl Turn {
    /// It under controls.
    fn under(
        self,
        controls: Controls<'_>,
        sizes: Sizes,
        cells: &[u64],
    ) -> Result<FixedPrim, InstrFault>
        requires few { sizes.qubits ≤ QUBITS }
        requires ones { IsTrue (list_all (has_reference sizes) controls.ones.now) }
        requires zeros { IsTrue (list_all (has_reference sizes) controls.zeros.now) }
        requires target { IsTrue (has_reference sizes self.target) }
        ensures value { meant result ≡ turn_by sizes.qubits controls.entry.ones.now controls.entry.zeros.now self.target
            (eighth_known (angle_by self.theta (held cells.now))) (eighth_known (angle_by self.phi (held cells.now)))
            (eighth_known (angle_by self.lambda (held cells.now))) (held cells.now) }
        ensures angles { IfOk result HasAngles }
    {
        let masks = controls.masks(sizes, cells)?;
        let target = qubit(sizes, self.target, cells)?;
        if masks.all.with(target).twice {
            return Err(InstrFault::SameQubit);
        }
        let theta = eighth(self.theta, cells);
        let phi = eighth(self.phi, cells);
        let lambda = eighth(self.lambda, cells);
        match (theta, phi, lambda) {
            (Some(theta), Some(phi), Some(lambda)) => Ok(FixedPrim::Turn {
                ones: masks.ones,
                zeros: masks.zeros,
                target,
                theta,
                phi,
                lambda,
            }),
            _ => Err(InstrFault::Angle),
        }
    }
}

/// The primitive on a state of so many qubits, or the first fault: a reference that is to no qubit, two qubits that are one, an angle that is
/// no multiple of π/4.
#[tactic(auto, using(crate::proofs::Stepping::turn_is, crate::proofs::Stepping::phase_is))]
fn resolved(sizes: Sizes, primitive: &Primitive, cells: &[u64]) -> Result<FixedPrim, InstrFault>
    requires few { sizes.qubits ≤ QUBITS }
    requires there { IsTrue (has_primitive sizes primitive.now) }
    ensures value { meant result ≡ and_then (primitive_by sizes.qubits primitive.now (held cells.now)) (λ e. Ok (prim_of e)) }
    ensures angles { IfOk result HasAngles }
{
    match primitive {
        Primitive::Turn {
            ones,
            zeros,
            target,
            theta,
            phi,
            lambda,
        } => Turn {
            target: *target,
            theta: *theta,
            phi: *phi,
            lambda: *lambda,
        }
        .under(
            Controls {
                ones: ones.items(),
                zeros: zeros.items(),
            },
            sizes,
            cells,
        ),
        Primitive::Phase { ones, zeros, angle } => Controls {
            ones: ones.items(),
            zeros: zeros.items(),
        }
        .phase(sizes, *angle, cells),
    }
}

/// The primitive that a gate is in the run, where the cells hold what they hold. The first fault is that a reference is to no qubit, that two
/// qubits are one, or that an angle is no multiple of π/4.
pub fn resolve(sizes: Sizes, primitive: &Primitive, cells: &[u64]) -> Result<FixedPrim, InstrFault>
    requires few { sizes.qubits ≤ QUBITS }
    requires there { IsTrue (has_primitive sizes primitive.now) }
    ensures value { meant result ≡ and_then (primitive_by sizes.qubits primitive.now (held cells.now)) (λ e. Ok (prim_of e)) }
    ensures prim { IfOk result (IsPrim sizes.qubits) }
    ensures acts { IfOk result (λ prim. (e : EighthPrimitive) × ((primitive_by sizes.qubits primitive.now (held cells.now) ≡ Ok e) × ActsAs sizes.qubits e prim)) }
{
    resolved(sizes, primitive, cells)
}
