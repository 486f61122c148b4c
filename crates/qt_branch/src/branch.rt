ghost use Rattle.std.specs.Prelude.{◌≡◌, IfOk};
ghost use Rattle.std.proofs.Common.{rules};
ghost use Rattle.std.specs.Cmp.{partial_equiv_from_equiv, unsigned_Decides};
ghost use Rattle.std.specs.Cmp.Rules.{comparing};
ghost use Rattle.std.specs.Hash as fed;
ghost use Rattle.std.specs.Hash.{Alike, and-Alike, on_Alike, same_Alike};
ghost use Rattle.qt_branch.specs.contracts.amplitudes.AmplitudesHash.TheImpl.Laws as amplitudes;
ghost use Rattle.qt_branch.specs.contracts.slots.SlotsHash.TheImpl.Laws as slots;
ghost use Rattle.qt_branch.specs.Parts.{Parts, AreAmplitudes, same, told, words};

use crate::amplitudes::Amplitudes;
use crate::slots::Slots;
use qt_outside::faults::OutOfMemory;
use qt_ring::omega::Omega;
use std::alloc::Global;
use std::hash::{Hash, Hasher};
use std::marker::Model;

/// Where a run stands after one list of outcomes: the place in the program, the values of the classical slots, and the amplitudes
/// of all basis states of the qubits over a factor that the branch doesn't keep.
#[derive(Debug, Drop)]
pub struct Branch {
    at: u32,
    slots: Slots,
    entries: Amplitudes,
}

impl Model for Branch {
    ghost use Rattle.qt_branch.specs.Parts.{Parts, IsBranch};

    ghost Value = { Parts };

    ghost view = { λ b. record { at = b.at; slots = b.slots; entries = b.entries } };

    ghost invariant = { λ b. IsBranch (record { at = b.at; slots = b.slots; entries = b.entries }) };
}

impl PartialEq for Branch {
    ghost eq = { same };

    ghost laws = { partial_equiv_from_equiv (Prim.search (comparing, rules) depth 9) };

    fn eq(&self, other: &Branch) -> bool {
        self.at == other.at && (self.slots == other.slots && self.entries == other.entries)
    }
}

impl Eq for Branch {
    ghost laws = { Prim.search (comparing, rules) depth 9 };
}

impl Hash for Branch {
    ghost hash_input = { told };

    ghost respects_eq = { let at : Alike _ _ = on_Alike (λ (b : Parts). b.at) (same_Alike fed.u32 unsigned_Decides) in
        let slots : Alike _ _ = on_Alike (λ (b : Parts). b.slots) (record { fed = slots.respects_eq-law }) in
        let entries : Alike _ _ = on_Alike (λ (b : Parts). b.entries) (record { fed = amplitudes.respects_eq-law }) in
        (and-Alike at (and-Alike slots entries)).fed };

    fn hash<H: Hasher>(&self, state: &mut H) {
        self.at.hash(state);
        self.slots.hash(state);
        self.entries.hash(state);
    }
}

impl Branch {
    /// The branch of these three parts, which are copied.
    pub fn new(
        alloc: Global,
        at: u32,
        slots: &[u64],
        entries: &[Omega],
    ) -> Result<Branch, OutOfMemory>
        requires { AreAmplitudes entries.now }
        ensures { IfOk result (λ b. b ≡ record { at = at; slots = slots.now; entries = entries.now }) }
    {
        let slots = Slots::from_vec(Vec::from_slice(alloc, slots)?);
        let entries = Amplitudes::from_vec(Vec::from_slice(alloc, entries)?);
        Ok(Branch { at, slots, entries })
    }

    /// The branch of these three parts, which are taken over.
    pub fn from_parts(at: u32, slots: Vec<u64>, entries: Vec<Omega>) -> Branch
        requires { AreAmplitudes entries.items }
        ensures { result ≡ record { at = at; slots = slots.items; entries = entries.items } }
    {
        Branch {
            at,
            slots: Slots::from_vec(slots),
            entries: Amplitudes::from_vec(entries),
        }
    }

    /// The place in the program.
    pub fn at(&self) -> u32
        ensures { result ≡ self.now.at }
    {
        self.at
    }

    /// The values of the classical slots.
    pub fn slots(&self) -> &[u64]
        ensures { result.now ≡ self.now.slots }
    {
        self.slots.as_slice()
    }

    /// The amplitudes of all basis states: entry `i` is that of the state whose bit of qubit `j` is bit `j` of `i`.
    pub fn entries(&self) -> &[Omega]
        ensures value { result.now ≡ self.now.entries }
        ensures amplitudes { AreAmplitudes result.now }
    {
        self.entries.as_slice()
    }

    /// How many words of 64 bits the branch takes: four for each amplitude, one for each slot, and 16 beside.
    pub fn words(&self) -> u64
        ensures { result ≡ words self.now }
    {
        4 * self.entries.as_slice().len() as u64 + self.slots.as_slice().len() as u64 + 16
    }
}
