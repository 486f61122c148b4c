//! The product of a gate with all amplitudes, over its least power of two: all results are tested before any is written.
ghost use Rattle.std.specs.Prelude.{◌≡◌, ◌+◌, ◌≤◌, ◌↔◌, IsTrue, IfOk, OnErr};
ghost use Rattle.qt_ring.specs.State.{State};
ghost use Rattle.qt_ring.specs.Multiples.{IsReduced};
ghost use Rattle.qt_vector.specs.declared.TheConstants.{HALVINGS};
ghost use Rattle.qt_vector.specs.States.{IsBounded};
ghost use Rattle.qt_kernel.specs.Gates.{Suits, AllDivide, AreSmallOver};
ghost use Rattle.qt_kernel.specs.Products.{state_with, u_product};

use crate::gate::ControlledU;
use crate::halving::{halved, is_even, is_small};
use qt_ring::omega::Omega;
use qt_root2::scale::NumberFault;
use qt_vector::HALVINGS;

impl ControlledU {
    /// Replaces the entries of a state of `halvings` by those of the reduced product, and answers its halvings; or leaves the
    /// entries as they are, where the reduced product is too large.
    pub fn multiply(
        self,
        entries: &mut [Omega],
        qubits: u32,
        halvings: u32,
    ) -> Result<u32, NumberFault>
        requires suits { Suits self qubits entries.old }
        requires few { halvings ≤ HALVINGS }
        ensures reduced { IfOk result (λ k.
            IsReduced (u_product self (state_with qubits entries.old halvings)) (state_with qubits entries.new k)) }
        ensures bounded { IfOk result (λ k. IsBounded (state_with qubits entries.new k)) }
        ensures unchanged { OnErr result (entries.new ≡ entries.old) }
        ensures fault { OnErr result ((t : State) → IsReduced (u_product self (state_with qubits entries.old halvings)) t → ¬ IsBounded t) }
    {
        let mut by = 0;
        while by <= halvings && self.all_even(entries, qubits, by) {
            by += 1;
        }
        let left = halvings + 1 - by;
        if left > HALVINGS || !self.all_small(entries, qubits, by) {
            return Err(NumberFault);
        }
        self.write(entries, qubits, by);
        Ok(left)
    }

    /// Whether all new amplitudes over `2^by` can be halved once more.
    fn all_even(self, entries: &[Omega], qubits: u32, by: u32) -> bool
        requires suits { Suits self qubits entries.now }
        requires whole { AllDivide self by entries.now }
        ensures { IsTrue result ↔ AllDivide self (by + 1) entries.now }
    {
        for index in 0..entries.len() {
            if !is_even(halved(self.result_at(entries, qubits, index), by)) {
                return false;
            }
        }
        true
    }

    /// Whether no new amplitude over `2^by` has a coefficient above `LARGEST`.
    fn all_small(self, entries: &[Omega], qubits: u32, by: u32) -> bool
        requires suits { Suits self qubits entries.now }
        requires whole { AllDivide self by entries.now }
        ensures { IsTrue result ↔ AreSmallOver self by entries.now }
    {
        for index in 0..entries.len() {
            if !is_small(halved(self.result_at(entries, qubits, index), by)) {
                return false;
            }
        }
        true
    }
}
