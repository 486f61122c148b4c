//! Laws of the primitives of gate calls, for those who build on them.
//!
//! [`laws`] has that the product of the primitives' embedded matrices is the matrix of the call, under all modifiers and for what is known
//! of the angles; that each primitive is on the call's own qubits; and that inverses are conjugate transposes. `specs/Primitives.antt` says
//! what a primitive's matrix is, and `specs/Laws.antt` states the laws.
//!
//! `proofs/Circle.antt` has e^{iu} of an opposite angle, `proofs/Picked.antt` and `proofs/Controls.antt` matrices on qubits of qubits and under
//! controls, `proofs/Doing.antt` and `proofs/Both.antt` what lists of primitives do, `proofs/Following.antt` calls, bodies and gates by number,
//! and `proofs/States.antt` and `proofs/Products.antt` the laws on states and matrices.
#![tactic(auto)]

pub mod laws;
