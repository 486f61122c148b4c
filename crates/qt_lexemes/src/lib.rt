//! The lexemes of the canonical text: how each is written, and where the one space stands between two of them.
//!
//! A lexeme has a [`role::Role`], which is what it is to its neighbours, and its bytes. `specs/Lexemes.antt` has the lexemes,
//! `specs/Operators.antt` and `specs/Literals.antt` their texts, `specs/Spacing.antt` the spaces, and `specs/Page.antt` what is
//! written when lexemes are put on a [`page::Page`] one by one. `qt_print` puts the lexemes of a program there.
#![tactic(auto)]

mod literal;
pub mod operator;
pub mod page;
pub mod role;
