//! Finite maps as lists of pairs with different keys, and sums over them, for those who prove something of merged branches.
//!
//! There is no code here. A list of pairs is gathered into a map by joining the values that have one key (`specs/Maps.antt`); what such a
//! map has for a key is all that the pairs have for it, in any order, and two lists that are one map have equal sums over any commutative
//! monoid (`proofs/Gathering.antt`). A map that is filled up to a limit, with a mark that the limit was passed, stands for its pairs
//! (`specs/Limited.antt`, `proofs/Limits.antt`).
#![tactic(auto)]
