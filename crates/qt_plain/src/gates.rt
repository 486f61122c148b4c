ghost use Rattle.std.specs.Prelude.{◌≡◌, ◌+◌, ◌-◌, ◌^◌, ◌<◌, ◌≤◌, if◌then◌else◌, length, IfOk, slice_index_or, pos, ◌≤ℤ◌};
ghost use Rattle.std.specs.Int.{bit_at};
ghost use Rattle.qt_ring.specs.Ring.{nil, plus, times, minus, Within, root};
ghost use Rattle.qt_ring.specs.Places.{is_one};
ghost use Rattle.qt_ring.specs.State.{total_a};
ghost use Rattle.qt_plain.specs.Operators.{operator_of, product_with, Suits};

use qt_ring::omega::Omega;
use std::alloc::{AllocError, Global};

/// A gate on its qubits.
#[derive(Clone, Copy)]
pub enum Gate {
    Hadamard(u32),
    X(u32),
    T(u32),
    ControlledX { control: u32, target: u32 },
}

impl Gate {
    /// How often the gate's matrix is to be halved.
    pub fn halvings(self) -> u32
        ensures value { result ≡ (operator_of self).halvings }
        ensures once { result ≤ 1 }
    {
        match self {
            Gate::T(_) => 0,
            _ => 1,
        }
    }
}

/// The full product of the gate's matrix with the entries.
pub fn product(
    alloc: Global,
    entries: &[Omega],
    qubits: u32,
    gate: Gate,
) -> Result<Vec<Omega>, AllocError>
    requires { Suits gate qubits entries.now }
    ensures { IfOk result (λ v. v.items ≡ product_with gate qubits entries.now) }
{
    let mut new = Vec::new(alloc);
    for index in 0..entries.len() {
        new.push(amplitude(entries, qubits, gate, index))?;
    }
    Ok(new)
}

// The entry of the product at an index.
fn amplitude(entries: &[Omega], qubits: u32, gate: Gate, index: usize) -> Omega
    requires suits { Suits gate qubits entries.now }
    requires index_in { index < 2 ^ qubits }
    ensures { result ≡ slice_index_or (product_with gate qubits entries.now) index nil }
{
    match gate {
        Gate::Hadamard(qubit) => after_hadamard(entries, qubits, qubit, index),
        Gate::X(qubit) => after_x(entries, qubits, qubit, index),
        Gate::T(qubit) => after_t(entries, qubits, qubit, index),
        Gate::ControlledX { control, target } => after_controlled_x(
            entries, qubits, control, target, index,
        ),
    }
}

fn after_hadamard(entries: &[Omega], qubits: u32, qubit: u32, index: usize) -> Omega
    requires suits { Suits (Gate.Hadamard qubit) qubits entries.now }
    requires index_in { index < 2 ^ qubits }
    ensures { result ≡ slice_index_or (product_with (Gate.Hadamard qubit) qubits entries.now) index nil }
{
    let here = entry(entries, index);
    let there = entry(entries, twin(index, qubits, qubit));
    if bit(index, qubit) {
        root2_times(there.sub(here))
    } else {
        root2_times(here.add(there))
    }
}

fn after_x(entries: &[Omega], qubits: u32, qubit: u32, index: usize) -> Omega
    requires suits { Suits (Gate.X qubit) qubits entries.now }
    requires index_in { index < 2 ^ qubits }
    ensures { result ≡ slice_index_or (product_with (Gate.X qubit) qubits entries.now) index nil }
{
    doubled(entry(entries, twin(index, qubits, qubit)))
}

fn after_t(entries: &[Omega], qubits: u32, qubit: u32, index: usize) -> Omega
    requires suits { Suits (Gate.T qubit) qubits entries.now }
    requires index_in { index < 2 ^ qubits }
    ensures { result ≡ slice_index_or (product_with (Gate.T qubit) qubits entries.now) index nil }
{
    let here = entry(entries, index);
    if bit(index, qubit) {
        here.times_omega(1)
    } else {
        here
    }
}

fn after_controlled_x(
    entries: &[Omega],
    qubits: u32,
    control: u32,
    target: u32,
    index: usize,
) -> Omega
    requires suits { Suits (Gate.ControlledX control target) qubits entries.now }
    requires index_in { index < 2 ^ qubits }
    ensures { result ≡ slice_index_or (product_with (Gate.ControlledX control target) qubits entries.now) index nil }
{
    let from = if bit(index, control) {
        twin(index, qubits, target)
    } else {
        index
    };
    doubled(entry(entries, from))
}

fn entry(entries: &[Omega], index: usize) -> Omega
    requires bounded { total_a entries.now ≤ℤ pos (4 ^ 32) }
    requires index_in { index < length entries.now }
    ensures value { result ≡ slice_index_or entries.now index nil }
    ensures size { Within (2 ^ 32) result }
{
    entries[index]
}

// √2 is ω − ω³.
fn root2_times(x: Omega) -> Omega
    requires { Within (2 ^ 53) x }
    ensures { result ≡ plus (times (root 1) x) (minus (times (root 3) x)) }
{
    x.times_omega(1).sub(x.times_omega(3))
}

fn doubled(x: Omega) -> Omega
    requires { Within (2 ^ 53) x }
    ensures { result ≡ plus x x }
{
    x.add(x)
}

// The basis state with the qubit's bit turned.
fn twin(index: usize, qubits: u32, qubit: u32) -> usize
    requires few { qubits ≤ 4 }
    requires index_in { index < 2 ^ qubits }
    requires qubit_in { qubit < qubits }
    ensures value { result ≡ (if is_one (bit_at index qubit) then index - 2 ^ qubit else index + 2 ^ qubit) }
    ensures within { result < 2 ^ qubits }
{
    let step = 1usize << qubit;
    if bit(index, qubit) {
        index - step
    } else {
        index + step
    }
}

/// The qubit's bit in the number of a basis state.
pub fn bit(index: usize, qubit: u32) -> bool
    requires { qubit < 64 }
    ensures { result ≡ is_one (bit_at index qubit) }
{
    index >> qubit & 1 == 1
}
