//! Laws of products of whole numbers, which the arithmetic tactics do not know: lemmas that the exact numbers cite.
//!
//! There is no code here. `proofs/Integers.antt` proves each law over differences of natural numbers, where it is an identity
//! of sums of products, and carries it over: distributivity, associativity, signs, squares; that a product is 0 only where a
//! factor is, and that √2 is not a fraction. The ring Z[ω] and the numbers a + b√2 stand on them.
#![tactic(auto)]
