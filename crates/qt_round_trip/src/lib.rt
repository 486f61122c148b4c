//! The round trip of the canonical text: it is read as the program that was printed.
//!
//! A text gives tokens, these spell a program, the program is printed, and the printed text gives tokens that spell a program again:
//! the same but for places, with the same canonical text. [`laws`] has this and the bound on the printed text's length, and
//! [`read_back::read_back`] does it: it prints a program and reads the text. `specs/Places.antt` says when two programs are the same
//! but for places.
//!
//! The proof has four parts, which meet in the list of printed lexemes (`proofs/lexemes`, where each of them is told as a token): what
//! printing keeps of each token of a text (`proofs/literals`), the tokens of the printed text (`proofs/relexing`), the program that
//! tokens spell which are the canonical lexemes of a program (`proofs/reparsing`, with a lemma for each way to build a form and for
//! each production), and that each printed lexeme is spelled as a token, with the length of the whole text (`proofs/extent`).
//! `proofs/Again.antt` joins them. The top call cites it to say that formatting is idempotent and keeps the program.
#![tactic(auto)]

pub mod laws;
pub mod read_back;
