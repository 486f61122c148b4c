//! Gate calls as flat code takes them: how many primitives and operators they come to, and the steps and primitives themselves.
//!
//! [`counts::prim_count`] and [`counts::operator_count`] are what the size of a program counts for a call beside its tokens, up to a stop.
//! The bodies of a program have the count of each gate, so a call isn't followed through them.
//!
//! [`call::expand`] answers the steps of phase arithmetic and the primitives of a typed call, or the first fixed angle that is no multiple
//! of π/4. `specs/Calls.antt` says what stands in work cells, `specs/Expansions.antt` what calls and bodies come to, `specs/Reckoning.antt`
//! and `specs/Needs.antt` which angles are reckoned and how, and `specs/Eighths.antt` the last pass. [`expand`] recurses on the gates before
//! a body, so it ends whatever the bodies call.
//!
//! No program calls them yet but the cases.
#![tactic(auto)]

pub mod arguments;
pub mod call;
pub mod counts;
pub mod expand;
pub mod expansion;
pub mod finish;
pub mod needs;
pub mod reckon;
pub mod unit;
