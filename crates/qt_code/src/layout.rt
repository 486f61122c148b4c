//! That the variables that are told have slots and types.

ghost use Rattle.std.specs.Prelude.{◌≡◌, nat_le};
ghost use Rattle.qt_meaning.specs.Distribution.{element_count};
ghost use Rattle.qt_code_rules.specs.Sizes.{has_slots};
ghost use Rattle.qt_code.specs.Layouts.{has_field, has_layout};

use qt_code_rules::sizes::Sizes;
use qt_instructions::parts::Field;

/// There is room for all elements of an array of those lengths. An array without dimensions has one element.
#[tactic(auto, using(crate::proofs::Rooms::room_behind, crate::proofs::Rooms::room_for_none))]
fn has_room(mut lengths: &[u32], mut room: u32) -> bool
    ensures { result ≡ nat_le (element_count lengths.entry.now) room }
{
    'lengths: while let [first, rest @ ..] = lengths {
        if *first == 0 {
            return true;
        }
        room /= *first;
        lengths = rest;
    }
    1 <= room
}

/// There are slots for all elements of an array, from the first on.
#[tactic(auto, using(crate::proofs::Rooms::room_from, crate::proofs::Rooms::no_room))]
fn has_elements(sizes: Sizes, first: u32, lengths: &[u32]) -> bool
    ensures { result ≡ has_slots sizes first (element_count lengths.now) }
{
    if first <= sizes.slots {
        has_room(lengths, sizes.slots - first)
    } else {
        false
    }
}

fn has_field(sizes: Sizes, field: &Field) -> bool
    ensures { result ≡ has_field sizes field.now }
{
    field.kind.has_size() && has_elements(sizes, field.slot, field.lengths.items())
}

/// Each variable has a type with a size and slots.
pub fn has_layout(sizes: Sizes, fields: &[Field]) -> bool
    ensures { result ≡ has_layout sizes fields.now }
{
    fields.iter().all(|field| has_field(sizes, field))
}
