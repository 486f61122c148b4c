ghost use Rattle.std.specs.Prelude.{◌≡◌, ◌^◌, ◌<◌, ◌≤◌, ◌≢◌, [], ◌∷◌, IfOk, pos, ◌≤ℤ◌};
ghost use Rattle.qt_ring.specs.Places.{AreQubits};
ghost use Rattle.qt_ring.specs.Gates.{h_gate, x_gate, t_gate, cx_gate};
ghost use Rattle.qt_ring.specs.State.{zero_state, applied, project, vanishes};
ghost use Rattle.qt_root2.specs.Masses.{real_of_mass};
ghost use Rattle.qt_mass.specs.Mass.{mass};
ghost use Rattle.qt_plain.specs.Plain.{IsPlain};
ghost use Rattle.qt_plain.specs.Operators.{operator_of, qubits_of};

use crate::gates::{self, Gate};
use crate::measure::{self, ZERO};
use qt_ring::omega::Omega;
use qt_root2::mass::Mass;
use qt_root2::weight::Weight;
use std::alloc::{AllocError, Global};
use std::marker::Model;

/// A state of at most 4 qubits: each entry is an amplitude times `2^halvings`, and entry `i` belongs to the basis state whose
/// bit of qubit `j` is bit `j` of `i`.
#[derive(Drop)]
pub struct StateVector {
    qubits: u32,
    entries: Vec<Omega>,
    halvings: u32,
}

impl Model for StateVector {
    ghost use Rattle.qt_ring.specs.State.{State};

    ghost Value = { State };

    ghost use Rattle.qt_plain.specs.Vectors.{state_of, StandsForPlain};

    ghost view = { state_of };

    ghost invariant = { StandsForPlain };
}

impl StateVector {
    /// All qubits in 0.
    pub fn zero(alloc: Global, qubits: u32) -> Result<StateVector, AllocError>
        requires { qubits ≤ 4 }
        ensures { IfOk result (λ v. v ≡ zero_state qubits) }
    {
        let mut entries = Vec::new(alloc);
        entries.push(Omega {
            c0: 1,
            c1: 0,
            c2: 0,
            c3: 0,
        })?;
        for _index in 1..1usize << qubits {
            entries.push(ZERO)?;
        }
        Ok(StateVector {
            qubits,
            entries,
            halvings: 0,
        })
    }

    /// A copy.
    pub fn copied(&self, alloc: Global) -> Result<StateVector, AllocError>
        ensures { IfOk result (λ v. v ≡ self.now) }
    {
        Ok(StateVector {
            qubits: self.qubits,
            entries: Vec::from_slice(alloc, self.entries.as_slice())?,
            halvings: self.halvings,
        })
    }

    /// How many qubits there are.
    pub fn qubits(&self) -> u32
        ensures value { result ≡ self.now.qubits }
        ensures plain { IsPlain self.now }
    {
        self.qubits
    }

    /// How often each entry is to be halved.
    pub fn halvings(&self) -> u32
        ensures value { result ≡ self.now.halvings }
        ensures plain { IsPlain self.now }
    {
        self.halvings
    }

    /// The gate h on a qubit.
    pub fn hadamard(&self, alloc: Global, qubit: u32) -> Result<StateVector, AllocError>
        requires below { qubit < self.now.qubits }
        requires room { self.now.halvings < 32 }
        ensures { IfOk result (λ v. v ≡ applied h_gate (qubit ∷ []) self.now) }
    {
        self.after(alloc, Gate::Hadamard(qubit))
    }

    /// The gate x on a qubit.
    pub fn x(&self, alloc: Global, qubit: u32) -> Result<StateVector, AllocError>
        requires below { qubit < self.now.qubits }
        requires room { self.now.halvings < 32 }
        ensures { IfOk result (λ v. v ≡ applied x_gate (qubit ∷ []) self.now) }
    {
        self.after(alloc, Gate::X(qubit))
    }

    /// The gate t on a qubit. It takes no halving.
    pub fn t(&self, alloc: Global, qubit: u32) -> Result<StateVector, AllocError>
        requires { qubit < self.now.qubits }
        ensures { IfOk result (λ v. v ≡ applied t_gate (qubit ∷ []) self.now) }
    {
        self.after(alloc, Gate::T(qubit))
    }

    /// The gate cx on a control and a target.
    pub fn controlled_x(
        &self,
        alloc: Global,
        control: u32,
        target: u32,
    ) -> Result<StateVector, AllocError>
        requires control_below { control < self.now.qubits }
        requires target_below { target < self.now.qubits }
        requires different { control ≢ target }
        requires room { self.now.halvings < 32 }
        ensures { IfOk result (λ v. v ≡ applied cx_gate (control ∷ target ∷ []) self.now) }
    {
        self.after(alloc, Gate::ControlledX { control, target })
    }

    /// What is left after the qubit was measured with this outcome, not scaled to length 1.
    pub fn projected(
        &self,
        alloc: Global,
        qubit: u32,
        outcome: bool,
    ) -> Result<StateVector, AllocError>
        requires { qubit < self.now.qubits }
        ensures { IfOk result (λ v. v ≡ project qubit outcome self.now) }
    {
        Ok(StateVector {
            qubits: self.qubits,
            entries: measure::projected(
                alloc,
                self.entries.as_slice(),
                self.qubits,
                qubit,
                outcome,
            )?,
            halvings: self.halvings,
        })
    }

    /// Whether all amplitudes are 0.
    pub fn vanishes(&self) -> bool
        ensures { result ≡ vanishes self.now }
    {
        measure::all_zero(self.entries.as_slice())
    }

    /// The sum of |amplitude|²: the probability of the outcomes that were projected on.
    pub fn mass(&self) -> Mass
        ensures value { real_of_mass result ≡ mass self.now }
        ensures bounded { result.a ≤ℤ pos (2 ^ 96) }
    {
        let weight = Weight {
            a: 1i128 << (96 - 2 * self.halvings),
            b: 0,
        };
        weight
            .mass(measure::total(self.entries.as_slice()))
            .unwrap()
    }

    fn after(&self, alloc: Global, gate: Gate) -> Result<StateVector, AllocError>
        requires qubits_in { AreQubits self.now.qubits (qubits_of gate) }
        requires room { (operator_of gate).halvings ≡ 1 → self.now.halvings < 32 }
        ensures { IfOk result (λ v. v ≡ applied (operator_of gate) (qubits_of gate) self.now) }
    {
        Ok(StateVector {
            qubits: self.qubits,
            entries: gates::product(alloc, self.entries.as_slice(), self.qubits, gate)?,
            halvings: self.halvings + gate.halvings(),
        })
    }
}
