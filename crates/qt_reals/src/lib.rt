//! Exact real numbers `(a + b√2) / 2^k` in least form as a commutative semiring: the laws of their product, beside those of their sum in
//! `qt_root2`. A branch's weight times the mass of its state is such a product.
//!
//! There is no code here but the laws ([`laws`]). `proofs/Products.antt` has them, `proofs/Exacts.antt` the same on a type whose values are
//! all in least form, so that they hold without a premise. `proofs/Weights.antt` ties weights, scales and masses to the product,
//! `proofs/Norms.antt` the squared sizes of ring numbers and of lists of them, and `proofs/Factored.antt` has that a factor of a state goes
//! through gates, projections and flips.
#![tactic(auto)]

pub mod laws;
