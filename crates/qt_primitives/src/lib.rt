//! The primitives of gate calls, and what modifiers make of them.
//!
//! All gates come to two primitives, U on one qubit and a global phase on none, each under controls. [`primitives::inner_controls`] and
//! [`primitives::inner_qubits`] say which qubits of a call control its gate and which are the gate's own: each `ctrl` and `negctrl` takes
//! the first that is left. [`primitives::modified`] is what `inv` and `pow` make of a list of primitives: the inverses in reverse order, and
//! so many copies. Arguments and qubits are known or stand in work cells ([`unit`]).
//!
//! `specs/Primitives.antt` has the definition of each of these. The expansion of gate calls, `qt_modify`, calls this crate.
#![tactic(auto)]

pub mod primitives;
pub mod unit;
