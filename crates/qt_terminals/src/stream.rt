//! A text with its tokens, as the grammar sees them.

ghost use Rattle.std.specs.Prelude.{◌≡◌, ◌+◌, ◌<◌, ◌%◌, ◌^◌, length, map, IfOk};
ghost use Rattle.qt_terminals.specs.Literals as literal;
ghost use Rattle.qt_terminals.specs.Alphabet.{code};
ghost use Rattle.qt_terminals.specs.Terminals as spec;
ghost use Rattle.qt_terminals.specs.Terminals.{terminals, stream, with_terminal};
ghost use Rattle.qt_terminals.specs.Found.{counts_behind};

use crate::literal;
use crate::spelling::terminal_of;
use crate::terminal::Terminal;
use qt_lex::tokens::Token;
use qt_outside::faults::OutOfMemory;
use qt_tree::place::Place;
use std::alloc::{AllocError, Global};
use std::marker::Model;

/// A text with its tokens. Contracts see it as the list of the terminals of its tokens, each with its spelling, its place, and the
/// number of operators before it. Every call answers for every number of a token: behind the last stands the end of the text.
#[derive(Drop)]
pub struct TokenStream<'a> {
    text: &'a str,
    tokens: &'a [Token],
    terminals: Vec<Terminal>,
    operators: Vec<usize>,
}

impl<'a> Model for TokenStream<'a> {
    ghost use Rattle.std.specs.Prelude.{◌≡◌, List, length};
    ghost use Rattle.qt_terminals.specs.Terminals.{PlacedTerminal};

    ghost Value = { List PlacedTerminal };

    ghost use Rattle.qt_terminals.specs.Found.{all_found};

    ghost view = { λ a. all_found a.text.now a.tokens.now a.terminals.items a.operators.items };

    ghost invariant = { λ a. (length a.terminals.items ≡ length a.tokens.now) × (length a.operators.items ≡ length a.tokens.now) };
}

/// The terminals of the tokens of a text.
#[tactic(auto, unfolding(crate::specs::Terminals::terminal_at, crate::specs::Terminals::spelling_of))]
fn terminals_of_tokens(
    alloc: Global,
    text: &str,
    tokens: &[Token],
) -> Result<Vec<Terminal>, AllocError>
    ensures { IfOk result (λ terminals. terminals.items ≡ map (spec.terminal_at text.now) tokens.now) }
{
    let mut terminals = Vec::new(alloc);
    for token in tokens {
        let spelling = literal::cut(text, token.start, token.end);
        terminals.push(terminal_of(token.kind, spelling.as_bytes()))?;
    }
    Ok(terminals)
}

/// How many operators stand before each terminal.
fn counts_of(alloc: Global, terminals: &[Terminal]) -> Result<Vec<usize>, AllocError>
    ensures { IfOk result (λ counts. counts.items ≡ counts_behind 0 terminals.now) }
{
    let mut counts = Vec::new(alloc);
    let mut count: usize = 0;
    for terminal in terminals {
        counts.push(count)?;
        if terminal.is_operator() {
            count += 1;
        }
    }
    Ok(counts)
}

impl<'a> TokenStream<'a> {
    /// The stream of a text and its tokens. It fails only for want of memory.
    pub fn new(
        alloc: Global,
        text: &'a str,
        tokens: &'a [Token],
    ) -> Result<TokenStream<'a>, OutOfMemory>
        ensures { IfOk result (λ made. made ≡ terminals text.now tokens.now) }
    {
        let terminals = terminals_of_tokens(alloc, text, tokens)?;
        let operators = counts_of(alloc, &terminals)?;
        Ok(TokenStream {
            text,
            tokens,
            terminals,
            operators,
        })
    }

    /// How many tokens there are, with that of the end.
    pub fn len(&self) -> usize
        ensures { result ≡ length self.now }
    {
        self.tokens.len()
    }

    /// The terminal of a token. A token that isn't the end of the text has another behind it, whose number is a `usize`.
    pub fn terminal(&self, at: usize) -> Terminal
        ensures value { result ≡ (stream self.now at).terminal }
        ensures within { 0 < code result → at < length self.now }
        ensures room { 0 < code result → at + 1 < 2 ^ 64 }
    {
        match self.terminals.get(at) {
            Some(terminal) => *terminal,
            None => Terminal::End,
        }
    }

    /// The place of a token.
    pub fn place(&self, at: usize) -> Place
        ensures { result ≡ (stream self.now at).place }
    {
        match self.tokens.get(at) {
            Some(token) => token.place,
            None => Place {
                file: 0,
                line: 1,
                column: 1,
            },
        }
    }

    /// How many of the tokens before this one are operators inside an expression.
    pub fn operators(&self, at: usize) -> usize
        ensures { result ≡ (stream self.now at).operators }
    {
        match self.operators.get(at) {
            Some(count) => *count,
            None => 0,
        }
    }

    /// The text of a token.
    pub fn spelling(&self, at: usize) -> &str
        ensures { result.now ≡ (stream self.now at).spelling }
    {
        match self.tokens.get(at) {
            Some(token) => literal::cut(self.text, token.start, token.end),
            None => "",
        }
    }

    /// What stands between the quotes of a token that is a text.
    #[tactic(auto, unfolding(crate::specs::Literals::inside_quotes))]
    pub fn inside_quotes(&self, at: usize) -> &str
        ensures { result.now ≡ literal.inside_quotes (stream self.now at).spelling }
    {
        let spelling = self.spelling(at);
        literal::cut(spelling, 1, spelling.len().saturating_sub(1))
    }

    /// The number of a token that is a whole number, modulo 2^64.
    pub fn integer(&self, at: usize) -> u64
        ensures { result ≡ literal.integer_of (stream self.now at).spelling % 2 ^ 64 }
    {
        literal::integer_of(self.spelling(at).as_bytes())
    }

    /// The number that the digits of a token that is a bit string name, the leftmost being the highest; 0 of another token.
    pub fn bits(&self, at: usize) -> u64
        ensures { result ≡ literal.bits_of (stream self.now at).spelling }
    {
        literal::bits_of(self.spelling(at).as_bytes())
    }

    /// The number of digits of a token that is a bit string; 0 of another token.
    pub fn bit_count(&self, at: usize) -> u8
        ensures { result ≡ literal.bit_count (stream self.now at).spelling }
    {
        literal::bit_count(self.spelling(at).as_bytes())
    }

    /// Puts another terminal at a place. The spellings and the counts of operators stay as they are.
    pub fn replaced(&mut self, at: usize, terminal: Terminal)
        ensures { self.new ≡ with_terminal self.old at terminal }
    {
        if at < self.terminals.len() {
            self.terminals[at] = terminal;
        }
    }
}
