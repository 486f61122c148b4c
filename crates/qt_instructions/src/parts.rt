//! The parts of flat code.

ghost use Rattle.std.specs.Prelude.{◌≡◌, nat_eq};
ghost use Rattle.std.specs.Cmp.{partial_equiv_from_equiv};
ghost use Rattle.std.specs.Cmp.Lexicographic.{lists_equiv, nat_list_eq_equiv, pointwise};
ghost use Rattle.qt_tree.specs.contracts.place.PlaceEq.TheImpl.Laws as places;
ghost use Rattle.qt_tree.specs.contracts.place.PlacePartialEq.TheImpl as place;
ghost use Rattle.qt_instructions.specs.Fields.{same_field, same_field_equiv};

use crate::instruction::Instrs;
use qt_tree::label::Label;
use qt_tree::lengths::Lengths;
use qt_tree::place::Place;
use qt_value::types::ValueType;
use std::marker::Model;

/// A list of places in the text.
#[derive(Drop)]
pub struct Places {
    places: Vec<Place>,
}

impl Model for Places {
    ghost use Rattle.std.specs.Prelude.{List};
    ghost use Rattle.qt_tree.specs.declared.place.Place.{Place};

    ghost Value = { List Place };

    ghost view = { λ places. places.places.items };
}

impl PartialEq for Places {
    ghost eq = { pointwise (place.ghosts).eq };

    ghost laws = { partial_equiv_from_equiv (lists_equiv places.laws-law) };

    fn eq(&self, other: &Places) -> bool {
        self.places == other.places
    }
}

impl Eq for Places {
    ghost laws = { lists_equiv places.laws-law };
}

impl Places {
    /// Takes the list over.
    pub fn from_vec(places: Vec<Place>) -> Places
        ensures { result ≡ places.items }
    {
        Places { places }
    }

    /// The places, in order.
    pub fn items(&self) -> &[Place]
        ensures { result.now ≡ self.now }
    {
        self.places.as_slice()
    }
}

/// The values of slots.
#[derive(Drop)]
pub struct Slots {
    values: Vec<u64>,
}

impl Model for Slots {
    ghost use Rattle.std.specs.Prelude.{List, ℕ};

    ghost Value = { List ℕ };

    ghost view = { λ slots. slots.values.items };
}

impl PartialEq for Slots {
    ghost eq = { pointwise nat_eq };

    ghost laws = { partial_equiv_from_equiv nat_list_eq_equiv };

    fn eq(&self, other: &Slots) -> bool {
        self.values == other.values
    }
}

impl Eq for Slots {
    ghost laws = { nat_list_eq_equiv };
}

impl Slots {
    /// Takes the list over.
    pub fn from_vec(values: Vec<u64>) -> Slots
        ensures { result ≡ values.items }
    {
        Slots { values }
    }

    /// The values, in order.
    pub fn items(&self) -> &[u64]
        ensures { result.now ≡ self.now }
    {
        self.values.as_slice()
    }
}

/// A variable whose value is told at the end: its type, the first of its slots, and the lengths of an array. OpenQASM 3.0, "Input/output".
#[derive(Drop)]
pub struct Field {
    pub name: Label,
    pub kind: ValueType,
    pub slot: u32,
    pub lengths: Lengths,
}

impl PartialEq for Field {
    ghost eq = { same_field };

    ghost laws = { partial_equiv_from_equiv same_field_equiv };

    fn eq(&self, other: &Field) -> bool {
        self.name == other.name
            && (self.kind == other.kind
                && (self.slot == other.slot && self.lengths.items() == other.lengths.items()))
    }
}

impl Eq for Field {
    ghost laws = { same_field_equiv };
}

/// The variables whose values are told at the end, in order.
#[derive(Drop)]
pub struct Layout {
    fields: Vec<Field>,
}

impl Model for Layout {
    ghost use Rattle.std.specs.Prelude.{List};
    ghost use Rattle.qt_instructions.specs.declared.parts.Field.{Field};

    ghost Value = { List Field };

    ghost view = { λ layout. layout.fields.items };
}

impl PartialEq for Layout {
    ghost use Rattle.qt_instructions.specs.contracts.parts.FieldEq.TheImpl.Laws as fields;
    ghost use Rattle.qt_instructions.specs.contracts.parts.FieldPartialEq.TheImpl as field;

    ghost eq = { pointwise (field.ghosts).eq };

    ghost laws = { partial_equiv_from_equiv (lists_equiv fields.laws-law) };

    fn eq(&self, other: &Layout) -> bool {
        self.fields == other.fields
    }
}

impl Eq for Layout {
    ghost use Rattle.qt_instructions.specs.contracts.parts.FieldEq.TheImpl.Laws as fields;

    ghost laws = { lists_equiv fields.laws-law };
}

impl Layout {
    /// Takes the list over.
    pub fn from_vec(fields: Vec<Field>) -> Layout
        ensures { result ≡ fields.items }
    {
        Layout { fields }
    }

    /// The variables, in order.
    pub fn items(&self) -> &[Field]
        ensures { result.now ≡ self.now }
    {
        self.fields.as_slice()
    }
}

/// What flat code is made of: the instructions and the place in the text of each; how many qubits, slots and work cells they use; the
/// values of the slots at the beginning; the variables that are told at the end; and the place behind the last character of the main text.
#[derive(Drop, PartialEq, Eq)]
pub struct Parts {
    pub instructions: Instrs,
    pub places: Places,
    pub qubits: u32,
    pub slots: u32,
    pub cells: u32,
    pub start: Slots,
    pub layout: Layout,
    pub end: Place,
}
