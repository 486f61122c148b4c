//! What holds of the canonical text of every program. Each contract is a law; no function does anything.

ghost use Rattle.qt_round_trip.specs.Laws as law;

/// The canonical text of the program of a text gives tokens that spell one program within the limits of the language. It is the same
/// but for places, and has the same canonical text: so printing is undone by reading, and printing what was printed changes nothing.
#[tactic(auto, using(crate::proofs::Again::round_trip))]
pub fn round_trip()
    ensures { law.RoundTrip }
{}

/// Reading a canonical text refuses nothing: it has tokens, and each right answer to these is the same program but for places.
pub fn read_without_refusal()
    ensures tokens { law.LexesAgain }
    ensures program { law.ParsesAgain }
{}

/// Whatever program a canonical text is read as, it is the program that was printed, but for places.
#[tactic(auto, using(crate::proofs::Again::keeps_the_program))]
pub fn keeps_the_program()
    ensures { law.KeepsTheTree }
{}

/// The canonical text of the program of a text has at most 500 bytes for each byte of that text.
#[tactic(auto, using(crate::proofs::Again::bounded))]
pub fn bounded()
    ensures { law.IsBounded }
{}

/// So a text of at most 2^20 bytes prints in at most 2^31, which `lex` takes.
#[tactic(auto, using(crate::proofs::Again::can_be_read))]
pub fn can_be_read()
    ensures { law.CanBeRead }
{}

/// Programs that are the same but for places have the same canonical text.
#[tactic(auto, using(crate::proofs::SameLines::same_text))]
pub fn same_text()
    ensures { law.SameText }
{}
