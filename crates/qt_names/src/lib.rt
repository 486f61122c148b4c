//! What the names of a program stand for, and the scopes that they are declared in.
//!
//! A [`named::Named`] says what a name is. [`scopes::Scopes`] are the scopes that are open, and contracts see them as the list of the
//! lists of their entries, the innermost scope first. `declare` adds to the innermost scope, and `find` answers the innermost entry of a
//! name. `specs/Scopes.antt` says which one that is, and when a name is refused.
//!
//! [`tables::Tables`] are two such lists beside one another: all global names, and those of them that the bodies of subroutines and
//! gates see. `specs/Seen.antt` says which ones these are, and `specs/Tables.antt` when a global name is refused.
//!
//! Each scope is a map from its names, so each call takes about as long for many names as for few. The typing of a program calls it.
#![tactic(auto)]

pub mod named;
mod scope;
pub mod scopes;
pub mod tables;
