//! Gates on state vectors, in place: the primitives to which all gates come, `U` and a global phase under controls.
//!
//! A [`primitive::FixedPrim`] names its controls by two masks and its angles in eighths of a turn. `specs/Primitives.antt` says which
//! operator it is and on which qubits, in words of full matrices. [`kernel::turn`] replaces a [`qt_vector::vector::Vector`] by
//! the full product of that operator, embedded in all qubits, with the state, over its least power of two, of which there is
//! exactly one (`qt_vector::laws`). It answers `NumberFault` exactly where that has a coefficient above `LARGEST` or more than
//! `HALVINGS` halvings, and then the state is unchanged. It takes no memory.
//!
//! This is the plain body: it reckons each result by its index and tests them all before it writes any, and then writes by pairs
//! of entries. The runs of segments call it; `FixedPrim::is_on` is the test that `turn` asks for.
#![tactic(auto)]

mod gate;
mod halving;
pub mod kernel;
mod pairs;
mod phase;
pub mod primitive;
mod product;
mod rows;
