ghost use Rattle.std.specs.Prelude.{◌≡◌, Some, None, [], IfSome, IsOk};
ghost use Rattle.std.specs.Result.{result_ok};
ghost use Rattle.qt_rows.specs.Answers.{Appends, AppendsOutput};

use std::alloc::Global;
use std::fmt::{Debug, Display};
use std::marker::Model;

/// What is written in answer to a row. Where memory is wanting it is lost: nothing is written any more, and it has no text.
#[derive(Drop)]
pub struct Answer {
    text: String,
    lost: bool,
}

impl Model for Answer {
    ghost use Rattle.std.specs.Prelude.{ℕ, List, Option, Some, None, string_bytes, if◌then◌else◌};

    ghost Value = { Option (List ℕ) };

    ghost view = { λ a. if a.lost then None else Some (string_bytes a.text) };
}

impl Answer {
    /// An answer with nothing written.
    pub fn new(alloc: Global) -> Answer
        ensures { result ≡ Some [] }
    {
        Answer {
            text: String::new(alloc),
            lost: false,
        }
    }

    /// Writes a text.
    pub fn push_str(&mut self, text: &str)
        ensures { Appends self.old text.now self.new }
    {
        if !self.lost {
            self.lost = self.text.push_str(text).is_err();
        }
    }

    /// Writes values in the form of `write!`, which calls it.
    pub fn write_fmt<D: Display + Drop>(&mut self, value: D)
        ensures { AppendsOutput self.old (D.output value) self.new }
    {
        if !self.lost {
            self.lost = self.text.write_fmt(value).is_err();
        }
    }

    /// Writes `name(value)`, the value in the form of `{:?}`: a variant of that name that holds it.
    pub fn push_variant<D: Debug>(&mut self, name: &str, value: D)
    where
        D: Drop,
        ensures kept { self.old ≡ None → self.new ≡ None }
    {
        write!(self, "{name}({value:?})");
    }

    /// Writes a text in place of what stands there.
    pub fn replace(&mut self, text: &str)
        ensures { IfSome self.new (λ whole. whole ≡ text.now) }
    {
        self.text.clear();
        self.push_str(text);
    }

    /// What a call gave, if memory wasn't wanting there.
    pub fn given<T, E: Drop>(&mut self, given: Result<T, E>) -> Option<T>
        ensures value { result ≡ result_ok given }
        ensures kept { IfSome self.new (λ _. self.new ≡ self.old) }
    {
        match given {
            Ok(given) => Some(given),
            Err(_) => {
                self.lost = true;
                None
            }
        }
    }

    /// Loses the answer where memory was wanting in a call.
    pub fn require<T: Drop, E: Drop>(&mut self, done: Result<T, E>)
        ensures kept { IfSome self.new (λ _. self.new ≡ self.old) }
        ensures done { IfSome self.new (λ _. IsOk done) }
    {
        if done.is_err() {
            self.lost = true;
        }
    }

    /// Loses the answer, since memory was wanting elsewhere.
    pub fn lose(&mut self)
        ensures { self.new ≡ None }
    {
        self.lost = true;
    }

    /// The text, if the answer isn't lost.
    pub fn text(&self) -> Option<&str>
        ensures { IfSome result (λ text. self.now ≡ Some text.now) }
    {
        if self.lost {
            return None;
        }
        Some(self.text.as_str())
    }
}
