ghost use Rattle.std.specs.Prelude.{◌≡◌, ◌<◌, ◌≤◌, [], ◌∷◌, IfOk};
ghost use Rattle.std.specs.Option.{option_to_list};
ghost use Rattle.qt_ring.specs.State.{zero_state};
ghost use Rattle.qt_first.specs.Form.{IsPlaced};
ghost use Rattle.qt_run.specs.Tree.{IsGate, outcome as one_outcome, statement_run};

use crate::slots::Slots;
use qt_first::program::Statement;
use qt_plain::vector::StateVector;
use std::alloc::{AllocError, Global};
use std::marker::Model;

/// A point of the tree of outcomes: the classical slots and the state.
#[derive(Drop)]
pub struct Point {
    pub slots: Slots,
    pub state: StateVector,
}

impl Model for Point {
    ghost use Rattle.qt_run.specs.Tree.{Point as PointOfTree};

    ghost Value = { PointOfTree };

    ghost view = { λ p. record { slots = p.slots; state = p.state } };
}

impl Point {
    /// All qubits in 0, and one slot that holds 0.
    pub fn root(alloc: Global, qubits: u32) -> Result<Point, AllocError>
        requires { qubits ≤ 4 }
        ensures { IfOk result (λ p. p ≡ record { slots = 0 ∷ []; state = zero_state qubits }) }
    {
        let slots = Slots::zero(alloc)?;
        let state = StateVector::zero(alloc, qubits)?;
        Ok(Point { slots, state })
    }

    /// The point after a gate.
    pub fn after_gate(&self, alloc: Global, gate: Statement) -> Result<Point, AllocError>
        requires is_gate { IsGate gate }
        requires placed { IsPlaced self.now.state.qubits 64 gate }
        requires few_halvings { self.now.state.halvings < 32 }
        ensures { IfOk result (λ p. statement_run gate self.now ≡ p ∷ []) }
    {
        let state = match gate {
            Statement::Hadamard { qubit } => self.state.hadamard(alloc, qubit)?,
            Statement::T { qubit } => self.state.t(alloc, qubit)?,
            Statement::X { qubit } => self.state.x(alloc, qubit)?,
            Statement::ControlledX { control, target } => {
                self.state.controlled_x(alloc, control, target)?
            }
            Statement::Measure { .. } => unreachable!(),
        };
        let slots = self.slots.copied(alloc)?;
        Ok(Point { slots, state })
    }

    /// The point after one outcome of a measurement, where it can come.
    pub fn after_outcome(
        &self,
        alloc: Global,
        qubit: u32,
        bit: u32,
        outcome: bool,
    ) -> Result<Option<Point>, AllocError>
        requires qubit_in { qubit < self.now.state.qubits }
        requires bit_in { bit < 64 }
        ensures { IfOk result (λ p. one_outcome qubit bit outcome self.now ≡ option_to_list p) }
    {
        let state = self.state.projected(alloc, qubit, outcome)?;
        if state.vanishes() {
            return Ok(None);
        }
        let slots = self.slots.stored(alloc, bit, outcome)?;
        Ok(Some(Point { slots, state }))
    }
}
