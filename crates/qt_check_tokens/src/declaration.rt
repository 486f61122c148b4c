//! Declarations of the whole program.

ghost use Rattle.std.specs.Prelude.{◌≡◌, ◌+◌, map, IfOk, OnOk};
ghost use Rattle.qt_typing.specs.Tokens as spec;

use crate::expression::{add, count_expr, count_more, count_part, count_scalar};
use qt_outside::faults::OutOfMemory;
use qt_tree::expression::{Expr, Scalar};
use qt_tree::program::{ArrayItem, ListItem};
use qt_typed::statement::Spot;
use sqlite_items::Items;

/// Counts an item of a list.
#[cycle(item)]
#[tactic(auto, using(crate::proofs::ListViews::items))]
fn count_item(total: &mut u32, item: &ListItem) -> Result<(), OutOfMemory>
    ensures { OnOk result (total.new ≡ total.old + spec.item_tokens item.now) }
{
    match item {
        ListItem::Value { value } => count_expr(total, value),
        ListItem::List { items } => {
            add(total, 2)?;
            count_items(total, items.as_slice())
        }
    }
}

/// Counts items with commas between.
#[cycle(item)]
fn count_items(total: &mut u32, items: &[ListItem]) -> Result<(), OutOfMemory>
    ensures { OnOk result (total.new ≡ total.old + spec.separated (map spec.item_tokens items.now)) }
{
    match items {
        [] => Ok(()),
        [first, rest @ ..] => {
            count_item(total, first)?;
            count_more_items(total, rest)
        }
    }
}

/// Counts items with a comma before each.
#[cycle(item)]
fn count_more_items(total: &mut u32, items: &[ListItem]) -> Result<(), OutOfMemory>
    ensures { OnOk result (total.new ≡ total.old + spec.more (map spec.item_tokens items.now)) }
{
    let mut left = items;
    'items: while let [first, rest @ ..] = left {
        add(total, 1)?;
        count_item(total, first)?;
        left = rest;
    }
    Ok(())
}

/// Counts the list that is given for an array, where there is one.
fn count_list(total: &mut u32, items: &Option<Items<ListItem>>) -> Result<(), OutOfMemory>
    ensures { OnOk result (total.new ≡ total.old + spec.list_tokens items.now) }
{
    if let Some(items) = items {
        add(total, 3)?;
        count_items(total, items.as_slice())?;
    }
    Ok(())
}

/// Where the declaration of an array stands, and the number of its tokens.
pub fn array_spot(array: &ArrayItem) -> Result<Spot, OutOfMemory>
    ensures { IfOk result (λ at. at ≡ record {
      place = array.now.place;
      tokens = spec.array_tokens array.now.scalar array.now.dimensions array.now.value;
    }) }
{
    let mut tokens = 5;
    count_scalar(&mut tokens, &array.scalar)?;
    count_more(&mut tokens, array.dimensions.as_slice())?;
    count_list(&mut tokens, &array.value)?;
    Ok(Spot {
        place: array.place,
        tokens,
    })
}

/// How many tokens a declaration of qubits of a size has.
pub fn qubit_tokens(size: &Option<Expr>) -> Result<u32, OutOfMemory>
    ensures { IfOk result (λ tokens. tokens ≡ spec.qubit_tokens size.now) }
{
    let mut tokens = 3;
    count_part(&mut tokens, 2, size)?;
    Ok(tokens)
}

/// How many tokens a declaration of an input or output of a type has.
pub fn io_tokens(scalar: &Scalar) -> Result<u32, OutOfMemory>
    ensures { IfOk result (λ tokens. tokens ≡ spec.io_tokens scalar.now) }
{
    let mut tokens = 3;
    count_scalar(&mut tokens, scalar)?;
    Ok(tokens)
}
