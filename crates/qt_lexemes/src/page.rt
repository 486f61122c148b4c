//! The page that lexemes are put on, one by one. It keeps its failure, so that what puts lexemes on it is straight code.

ghost use Rattle.std.specs.Prelude.{◌≡◌, ◌++◌, codes, IfOk};
ghost use Rattle.std.specs.String.{string_bytes};
ghost use Rattle.qt_lexemes.specs.Lexemes as lexemes;
ghost use Rattle.qt_lexemes.specs.Page as sheets;
ghost use Rattle.qt_lexemes.specs.Page.{IsKept, Makes};
ghost use Rattle.qt_lexemes.specs.Spacing as spacing;

use crate::literal::{push_bits, push_number, push_quoted};
use crate::role::{Role, has_space};
use qt_outside::faults::OutOfMemory;
use std::alloc::Global;

/// A text as far as it is written, and the last lexeme of its last line. Where memory is wanting the page is lost, and stays so.
#[derive(Drop)]
pub struct Page {
    alloc: Global,
    text: String,
    last: Option<Role>,
    lost: bool,
}

/// What stands before a lexeme.
fn gap(last: Option<Role>, next: Role) -> &'static str
    ensures { result.now ≡ spacing.gap last next }
{
    match last {
        Some(last) if has_space(last, next) => " ",
        _ => "",
    }
}

impl Page {
    /// An empty page.
    #[tactic(auto, unfolding(crate::specs::Page::sheet_of, crate::specs::Page::blank))]
    pub fn new(alloc: Global) -> Page
        ensures { sheets.sheet_of result ≡ sheets.blank }
    {
        Page {
            alloc,
            text: String::new(alloc),
            last: None,
            lost: false,
        }
    }

    /// Writes a text as it is.
    #[tactic(auto, unfolding(crate::specs::Page::IsKept))]
    fn push(&mut self, text: &str)
        ensures text { IsKept self.new → IsKept self.old × (string_bytes self.new.text ≡ string_bytes self.old.text ++ text.now) }
        ensures last { self.new.last ≡ self.old.last }
    {
        self.lost |= self.text.push_str(text).is_err();
    }

    /// The margin of a body whose head stands behind this one: two spaces more.
    #[tactic(auto, unfolding(crate::specs::Page::IsKept, crate::specs::Page::sheet_of))]
    pub fn deeper(&mut self, margin: &str) -> String
        ensures page { Makes (λ sheet. sheet) self.old self.new }
        ensures margin { IsKept self.new → string_bytes result ≡ margin.now ++ codes "  " }
    {
        let mut inner = String::new(self.alloc);
        self.lost |= inner.push_str(margin).is_err();
        self.lost |= inner.push_str("  ").is_err();
        inner
    }

    /// Begins a line with its margin.
    #[tactic(auto, unfolding(crate::specs::Page::IsKept, crate::specs::Page::sheet_of, crate::specs::Page::begun))]
    pub fn begin(&mut self, margin: &str)
        ensures { Makes (λ sheet. sheets.begun sheet margin.now) self.old self.new }
    {
        self.push(margin);
        self.last = None;
    }

    /// Puts one more lexeme on the line.
    #[tactic(auto, unfolding(crate::specs::Page::IsKept, crate::specs::Page::sheet_of, crate::specs::Page::put_on))]
    pub fn put(&mut self, role: Role, text: &str)
        ensures { Makes (λ sheet. sheets.put_on sheet (lexemes.lexeme role text.now)) self.old self.new }
    {
        self.push(gap(self.last, role));
        self.push(text);
        self.last = Some(role);
    }

    /// Puts a whole number on the line.
    #[tactic(auto, unfolding(crate::specs::Page::IsKept, crate::specs::Page::sheet_of, crate::specs::Page::put_on))]
    pub fn put_number(&mut self, value: u64)
        ensures { Makes (λ sheet. sheets.put_on sheet (lexemes.integer value)) self.old self.new }
    {
        self.push(gap(self.last, Role::Integer));
        self.lost |= push_number(&mut self.text, value).is_err();
        self.last = Some(Role::Integer);
    }

    /// Puts a bit string of so many digits on the line.
    #[tactic(auto, unfolding(crate::specs::Page::IsKept, crate::specs::Page::sheet_of, crate::specs::Page::put_on))]
    pub fn put_bits(&mut self, value: u64, length: u8)
        ensures { Makes (λ sheet. sheets.put_on sheet (lexemes.bits value length)) self.old self.new }
    {
        self.push(gap(self.last, Role::Text));
        self.lost |= push_bits(&mut self.text, value, length).is_err();
        self.last = Some(Role::Text);
    }

    /// Puts a text in quotes on the line.
    #[tactic(auto, unfolding(crate::specs::Page::IsKept, crate::specs::Page::sheet_of, crate::specs::Page::put_on))]
    pub fn put_quoted(&mut self, name: &str)
        ensures { Makes (λ sheet. sheets.put_on sheet (lexemes.quotation name.now)) self.old self.new }
    {
        self.push(gap(self.last, Role::Text));
        self.lost |= push_quoted(&mut self.text, name).is_err();
        self.last = Some(Role::Text);
    }

    /// Ends the line.
    #[tactic(auto, unfolding(crate::specs::Page::IsKept, crate::specs::Page::sheet_of, crate::specs::Page::ended))]
    pub fn end(&mut self)
        ensures { Makes sheets.ended self.old self.new }
    {
        self.push("\n");
        self.last = None;
    }

    /// What is written, or OutOfMemory if the page is lost.
    #[tactic(auto, unfolding(crate::specs::Page::IsKept, crate::specs::Page::sheet_of))]
    pub fn into_text(self) -> Result<String, OutOfMemory>
        ensures { IfOk result (λ text. IsKept self × (string_bytes text ≡ (sheets.sheet_of self).text)) }
    {
        let Page { text, lost, .. } = self;
        if lost {
            return Err(OutOfMemory);
        }
        Ok(text)
    }
}
