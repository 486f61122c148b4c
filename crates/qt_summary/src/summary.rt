//! What a program comes to.

/// The numbers of a program: its qubits, the slots of its variables, and its size, which counts its tokens, primitives and operators.
#[derive(Clone, Copy, Debug)]
pub struct Summary {
    pub qubits: u32,
    pub slots: u32,
    pub size: u64,
}
