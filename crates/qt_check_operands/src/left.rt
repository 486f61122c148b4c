//! The indexes behind a name that are left.

ghost use Rattle.std.specs.Prelude.{◌≡◌, ◌++◌, ◌∷◌, [], length, nat_le, ◌+◌, MatchOption};
ghost use Rattle.qt_typing.specs.Indexes.{all_indexes};

use qt_tree::expression::Index;
use sqlite_items::Items;
use std::marker::Model;

/// The indexes behind a name that are left, from left to right, whatever brackets they stand in. Contracts see it as their list.
#[derive(Drop)]
pub struct IndexesLeft<'a> {
    first: &'a [Index],
    rest: &'a [Items<Index>],
}

impl<'a> Model for IndexesLeft<'a> {
    ghost use Rattle.std.specs.Prelude.{List, ◌++◌};
    ghost use Rattle.std.specs.Coded.{coded_list};
    ghost use Rattle.qt_tree.specs.contracts.expression.Index as index;
    ghost use Rattle.qt_tree.specs.declared.expression.Index.{Index};
    ghost use Rattle.qt_typing.specs.Indexes.{all_indexes};

    ghost Value = { List Index };

    ghost coded = { coded_list index.the_row.coded };

    ghost view = { λ left. left.first.now ++ all_indexes left.rest.now };
}

/// The first index of some brackets, and what is left behind it.
fn next_of<'a>(
    first: &'a [Index],
    rest: &'a [Items<Index>],
) -> Option<(&'a Index, &'a [Index], &'a [Items<Index>])>
    ensures { MatchOption result
        (first.now ++ all_indexes rest.now ≡ [])
        (λ it. first.now ++ all_indexes rest.now ≡ it.0.now ∷ (it.1.now ++ all_indexes it.2.now)) }
{
    match (first, rest) {
        ([index, more @ ..], _) => Some((index, more, rest)),
        ([], [next, rest @ ..]) => next_of(next.as_slice(), rest),
        ([], []) => None,
    }
}

/// Whether so many indexes stand in some brackets, or more.
fn has_indexes(first: usize, rest: &[Items<Index>], wanted: usize) -> bool
    ensures { result ≡ nat_le wanted (first + length (all_indexes rest.now)) }
{
    match rest {
        [] => wanted <= first,
        [next, rest @ ..] => has_indexes(next.len(), rest, wanted.saturating_sub(first)),
    }
}

impl<'a> IndexesLeft<'a> {
    /// All indexes of some brackets.
    pub fn of(brackets: &'a [Items<Index>]) -> IndexesLeft<'a>
        ensures { result ≡ all_indexes brackets.now }
    {
        IndexesLeft {
            first: &[],
            rest: brackets,
        }
    }

    /// Whether so many are left, or more.
    pub fn has(&self, wanted: usize) -> bool
        ensures { result ≡ nat_le wanted (length self.now) }
    {
        has_indexes(self.first.len(), self.rest, wanted)
    }

    /// Takes the next one. None exactly where none is left.
    pub fn next(&mut self) -> Option<&'a Index>
        ensures { MatchOption result
            ((self.old ≡ []) × (self.new ≡ []))
            (λ index. self.old ≡ index.now ∷ self.new) }
    {
        let (index, first, rest) = next_of(self.first, self.rest)?;
        self.first = first;
        self.rest = rest;
        Some(index)
    }
}
