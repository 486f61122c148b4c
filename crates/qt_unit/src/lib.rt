//! The units by which a list of amplitudes is brought to its canonical form: a power of ε = 1 + √2 and a power of ω.
//!
//! [`window::power_into_window`] finds the power of ε after which `|x|² = A + B√2` has −A < 2B ≤ A. The search runs on A and B alone, in
//! 128 bits, and takes at most 49 steps for coefficients up to 2^55. An [`epsilon::EpsilonPower`] is such a power with its two whole parts;
//! its product with a number has coefficients of up to 2^120, a `Wide` of `qt_ring`. [`turn::greatest_turn`] finds the power of ω that
//! makes the list of coefficients of such a number lexicographically greatest.
//!
//! Each contract is in the words of `qt_canon_laws`: `InWindow`, `epsilon_power`, `IsGreater`. `qt_canon` calls these functions once for
//! each list, and the products once for each entry.
#![tactic(auto)]

mod arithmetic;
pub mod epsilon;
pub mod turn;
pub mod window;
