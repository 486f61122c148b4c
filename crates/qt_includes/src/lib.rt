//! A program whose includes are put in place: the texts that it is made of are fetched by their names, one after another.
//!
//! `fetch_program` fetches the main text and reads it, and then each text that it includes, in the order of text, with all that this one includes,
//! before the next; `stdgates.inc` is built in, is never fetched, and its include stays where it stands. It ends at the first text that the
//! shelf fails to give or that is refused (E1 to E6), and at an include that is too deep or one too many (E18), whose text isn't fetched.
//! `specs/Includes.antt` says which program that is, and `specs/Steps.antt` what the steps find.
#![tactic(auto)]

mod fetching;
pub mod gathered;
pub mod included;
mod placing;
pub mod refusal;
