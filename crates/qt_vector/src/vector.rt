ghost use Rattle.std.specs.Prelude.{◌≡◌, ◌^◌, ◌≤◌, length, IfOk};
ghost use Rattle.qt_ring.specs.declared.TheConstants.{QUBITS};
ghost use Rattle.qt_ring.specs.State.{zero_state};
ghost use Rattle.qt_vector.specs.States.{AreSmall, IsVector};

use qt_outside::faults::OutOfMemory;
use qt_ring::omega::Omega;
use std::alloc::Global;
use std::marker::Model;

const ONE: Omega = Omega {
    c0: 1,
    c1: 0,
    c2: 0,
    c3: 0,
};

const ZERO: Omega = Omega {
    c0: 0,
    c1: 0,
    c2: 0,
    c3: 0,
};

/// The state of some qubits: each entry is an amplitude times `2^halvings`, and entry `i` belongs to the basis state whose bit
/// of qubit `j` is bit `j` of `i`. There are no halvings, or some coefficient is odd.
#[derive(Drop)]
pub struct Vector {
    pub qubits: u32,
    pub entries: Vec<Omega>,
    pub halvings: u32,
}

impl Model for Vector {
    ghost use Rattle.qt_ring.specs.State.{State};

    ghost Value = { State };

    ghost use Rattle.qt_vector.specs.Vectors.{state_of, StandsForVector};

    ghost view = { state_of };

    ghost invariant = { StandsForVector };
}

impl Vector {
    /// The state of `n` qubits that are all in 0.
    pub fn zero_state(alloc: Global, n: u32) -> Result<Vector, OutOfMemory>
        requires { n ≤ QUBITS }
        ensures { IfOk result (λ v. v ≡ zero_state n) }
    {
        let mut entries = Vec::new(alloc);
        entries.push(ONE)?;
        for _index in 1..1usize << n {
            entries.push(ZERO)?;
        }
        Ok(Vector {
            qubits: n,
            entries,
            halvings: 0,
        })
    }

    /// The state of `n` qubits with these entries and no halvings.
    pub fn from_entries(alloc: Global, n: u32, entries: &[Omega]) -> Result<Vector, OutOfMemory>
        requires few { n ≤ QUBITS }
        requires all { length entries.now ≡ 2 ^ n }
        requires small { AreSmall entries.now }
        ensures { IfOk result (λ v. v ≡ record { qubits = n; entries = entries.now; halvings = 0 }) }
    {
        Ok(Vector {
            qubits: n,
            entries: Vec::from_slice(alloc, entries)?,
            halvings: 0,
        })
    }

    /// How many qubits there are.
    pub fn qubits(&self) -> u32
        ensures value { result ≡ self.now.qubits }
        ensures vector { IsVector self.now }
    {
        self.qubits
    }

    /// How often each entry is to be halved.
    pub fn k(&self) -> u32
        ensures value { result ≡ self.now.halvings }
        ensures vector { IsVector self.now }
    {
        self.halvings
    }

    /// The entries, `2^n` of them.
    pub fn entries(&self) -> &[Omega]
        ensures value { result.now ≡ self.now.entries }
        ensures vector { IsVector self.now }
    {
        self.entries.as_slice()
    }
}
