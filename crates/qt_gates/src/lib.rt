//! The standard gates: their names, their bodies, and the matrices that they have.
//!
//! [`named::standard`] answers whether a name is that of a standard gate, with the gate's number in the table and how many parameters
//! and qubits it has.
//! [`table::standard_bodies`] makes the bodies of all standard gates, in the order of the table: contracts say that they are exactly the
//! list `standard_bodies` of `qt_gate_calls/specs/Standard.antt`. A program's bodies begin with them.
//!
//! `specs/Printed.antt` has the matrices of the standard gates as one reads them in the language's table, and knows nothing of bodies;
//! the law [`laws::matrices`] says that calls of the gates have these matrices.
//!
//! No program calls them yet but the cases.
#![tactic(auto)]

mod angles;
mod controlled;
pub mod laws;
pub mod named;
pub mod table;
mod turning;
