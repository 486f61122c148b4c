//! What holds of the tokens of every text.

ghost use Rattle.std.specs.Prelude.{◌≡◌, ◌<◌, ◌^◌, List, map, slice_range};
ghost use Rattle.std.specs.List.{All};
ghost use Rattle.qt_lex.specs.declared.tokens.Token.{Token};
ghost use Rattle.qt_lex.specs.declared.tokens.Kind.TheVariants as kind;
ghost use Rattle.qt_lex.specs.Bytes as bytes;
ghost use Rattle.qt_lex.specs.Tokens.{GivesTokens};
ghost use Rattle.qt_terminals.specs.Literals.{integer_of, bits_of, bit_count};
ghost use Rattle.qt_terminals.specs.Alphabet as alphabet;
ghost use Rattle.qt_terminals.specs.Terminals.{spelling_of, terminals, EndsOnce};

/// The tokens of a text begin and end between characters, so the spelling of each is its slice of the text.
#[tactic(auto, using(crate::proofs::Cuts::slices))]
pub fn spellings_are_slices(text: &str, file: u16)
    ensures { (tokens : List Token) → GivesTokens text.now file tokens → All (λ t. spelling_of text.now t ≡ slice_range text.now t.start t.end) tokens }
{}

/// The whole numbers of a text are below 2^64, so a stream answers each as it is.
#[tactic(auto, using(crate::proofs::Integers::integers_small))]
pub fn integers_fit(text: &str, file: u16)
    ensures { (tokens : List Token) → GivesTokens text.now file tokens → All (λ t. t.kind ≡ kind.Integer → integer_of (spelling_of text.now t) < 2 ^ 64) tokens }
{}

/// Each reserved word, symbol and constant of the lexer has its row in the tables of terminals.
#[tactic(auto, unfolding(crate::specs::Alphabet::reserved_words, crate::specs::Alphabet::symbols, crate::specs::Alphabet::constants))]
pub fn each_spelling_has_a_terminal()
    ensures reserved { map (λ row. row.0) alphabet.reserved_words ≡ bytes.reserved_words }
    ensures symbols { map (λ row. row.0) alphabet.symbols ≡ bytes.symbols }
    ensures constants { map (λ row. row.0) alphabet.constants ≡ bytes.constants }
{}

/// The last terminal of a text is its end, and no other terminal is.
#[tactic(auto, using(crate::proofs::Ends::ends_once))]
pub fn terminals_end_once(text: &str, file: u16)
    ensures { (tokens : List Token) → GivesTokens text.now file tokens → EndsOnce (terminals text.now tokens) }
{}

/// The number of a bit string has no more binary digits than the bit string.
#[tactic(auto, using(crate::proofs::Numbers::bits_small))]
pub fn bit_strings_fit(spelling: &str)
    ensures { bits_of spelling.now < 2 ^ bit_count spelling.now }
{}
