//! The lists that are given for arrays.

ghost use Rattle.std.specs.Option.{option_copied};
ghost use Rattle.qt_typing.specs.Checked.{Gives, Makes};
ghost use Rattle.qt_typing.specs.Declarations.{array_values, item_values, list_values, optional_values};
ghost use Rattle.qt_check_arrays.specs.Behind.{behind};

use qt_check_operands::expression::value_at;
use qt_tree::place::Place;
use qt_tree::program::ListItem;
use qt_tree::refusal::TextRefusal;
use qt_typed::expression::TypedExpr;
use qt_typing::names::Names;
use qt_value::types::ValueType;
use sqlite_items::Items;
use std::alloc::Global;

/// An item of a list as elements of an array of these lengths, behind the elements so far: an expression is one element, and a list has the
/// shape of the array.
#[cycle(list)]
#[tactic(auto, using(crate::proofs::ListViews::items))]
fn item_values(
    alloc: Global,
    names: &Names,
    place: Place,
    kind: ValueType,
    lengths: &[u32],
    item: &ListItem,
    forms: &mut Items<TypedExpr>,
) -> Result<(), TextRefusal>
    ensures { Makes (behind forms.old (item_values names.now place kind lengths.now item.now)) result forms.new }
{
    match (lengths, item) {
        (_, ListItem::List { items }) => {
            sized_values(alloc, names, place, kind, lengths, items.as_slice(), forms)
        }
        ([], ListItem::Value { value }) => {
            let form = value_at(alloc, names, place, kind, value)?;
            Ok(forms.push(form.into_inner())?)
        }
        _ => Err(TextRefusal::E10(place)),
    }
}

/// A list as the elements of an array of these lengths, behind the elements so far.
#[cycle(list)]
#[tactic(auto, unfolding(qt_typing::specs::Declarations::array_values))]
fn sized_values(
    alloc: Global,
    names: &Names,
    place: Place,
    kind: ValueType,
    lengths: &[u32],
    items: &[ListItem],
    forms: &mut Items<TypedExpr>,
) -> Result<(), TextRefusal>
    ensures { Makes (behind forms.old (array_values place kind lengths.now items.now names.now)) result forms.new }
{
    match lengths {
        [length, rest @ ..] if items.len() == *length as usize => {
            list_values(alloc, names, place, kind, rest, items, forms)
        }
        _ => Err(TextRefusal::E10(place)),
    }
}

/// The elements of all items of a list, one after the other, behind the elements so far.
#[cycle(list)]
#[tactic(auto, using(crate::proofs::ListViews::lists))]
fn list_values(
    alloc: Global,
    names: &Names,
    place: Place,
    kind: ValueType,
    lengths: &[u32],
    mut items: &[ListItem],
    forms: &mut Items<TypedExpr>,
) -> Result<(), TextRefusal>
    ensures { Makes (behind forms.old (list_values names.now place kind lengths.now items.entry.now)) result forms.new }
{
    'items: while let [item, rest @ ..] = items {
        item_values(alloc, names, place, kind, lengths, item, forms)?;
        items = rest;
    }
    Ok(())
}

/// The list that is given for a whole array: as many items as its first dimension is long, each of the shape of the other dimensions, else
/// E10; each element by the faults of its value. The elements stand in ascending order of their indexes, the last index fastest.
/// OpenQASM 3.0, "Types and Casting", arrays.
#[tactic(auto, using(crate::proofs::ListViews::alone))]
pub fn array_values(
    alloc: Global,
    names: &Names,
    place: Place,
    kind: ValueType,
    lengths: &[u32],
    items: &[ListItem],
) -> Result<Items<TypedExpr>, TextRefusal>
    ensures { Gives (array_values place kind lengths.now items.now names.now) result }
{
    let mut forms = Items::new(alloc);
    sized_values(alloc, names, place, kind, lengths, items, &mut forms)?;
    Ok(forms)
}

/// The list that is given for a whole array, if one is.
#[tactic(auto, unfolding(qt_typing::specs::Declarations::optional_values))]
pub fn optional_values(
    alloc: Global,
    names: &Names,
    place: Place,
    kind: ValueType,
    lengths: &[u32],
    items: Option<&Items<ListItem>>,
) -> Result<Option<Items<TypedExpr>>, TextRefusal>
    ensures { Gives (optional_values place kind lengths.now (option_copied items.entry) names.now) result }
{
    match items {
        None => Ok(None),
        Some(items) => {
            let forms = array_values(alloc, names, place, kind, lengths, items.as_slice())?;
            Ok(Some(forms))
        }
    }
}
