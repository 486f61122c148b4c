//! The typing of an expression.

ghost use Rattle.std.specs.Prelude.{◌≡◌, [], map, Ok, OnOk, drop, length};
ghost use Rattle.qt_const_rules.specs.declared.builtins.Builtin.TheVariants as builtin;
ghost use Rattle.qt_tree.specs.declared.expression.Expr.TheVariants as form;
ghost use Rattle.qt_typing.specs.declared.operand.Operand.TheVariants as operand_form;
ghost use Rattle.qt_typing.specs.declared.way.Way.TheVariants as way;
ghost use Rattle.qt_typing.specs.Checked.{Gives, and_then};
ghost use Rattle.qt_typing.specs.Conversions.{wanted};
ghost use Rattle.qt_typing.specs.Indexes as indexes;
ghost use Rattle.qt_typing.specs.Operators.{both_true, combined};
ghost use Rattle.qt_typing.specs.Expressions as spec;
ghost use Rattle.qt_check_operands.specs.Parts.{index_parts, Reaches};

use crate::calls::{counted, turned};
use crate::constants::{constant_operand, fixed_phase};
use crate::left::IndexesLeft;
use crate::variables::{element, kind_of, read, scalar, stepped, storage_of};
use qt_check_expressions::constants::type_at;
use qt_check_expressions::convert::{constant, wanted};
use qt_check_expressions::sorts::sort_at;
use qt_check_indexes::bits::{bit_at, slice_at};
use qt_check_indexes::single::placed_index;
use qt_check_operators::operators::{before_operand, both_true, combined};
use qt_check_rules::counts::arity;
use qt_check_rules::names::{builtin_at, named_constant, unfit};
use qt_const::modes::Mode;
use qt_const::operators::{op_of_infix, op_of_prefix};
use qt_const_rules::builtins::Builtin;
use qt_const_rules::modes::mode_in;
use qt_const_rules::sorts::sort_of_infix;
use qt_names::named::{Named, What};
use qt_phase::phase::Phase;
use qt_tree::expression::{Expr, Index, InfixOperator, Scalar};
use qt_tree::label::Label;
use qt_tree::place::Place;
use qt_tree::refusal::TextRefusal;
use qt_typed::expression::{TypedExpr, TypedVariable};
use qt_typing::indexes::{Bits, Steps, Storage};
use qt_typing::names::Names;
use qt_typing::operand::Operand;
use qt_typing::way::Way;
use qt_value::constant::ConstValue;
use qt_value::operators::Op;
use qt_value::types::ValueType;
use sqlite_items::{Boxed, Items};
use std::alloc::Global;

/// The typing of an expression in a statement at that place, which is reckoned in that mode, or its first refusal from left to right: E8
/// of a name that isn't in scope or has no value, E10 where types don't fit, E11 of a subroutine's call, E12 of what isn't constant, exact
/// or in range, E14 of another number of arguments. OpenQASM 3.0, "Types and Casting" and "Classical instructions".
#[cycle(typed)]
#[tactic(auto, using(crate::proofs::PartViews::expressions))]
pub fn typed(
    alloc: Global,
    names: &Names,
    mode: Mode,
    place: Place,
    expr: &Expr,
) -> Result<Operand, TextRefusal>
    ensures { Gives (spec.typed_of names.now mode place expr.now) result }
{
    match expr {
        Expr::Whole { .. } | Expr::BitText { .. } | Expr::Bool { .. } | Expr::SizeOf { .. } => {
            constant_operand(alloc, names, mode, place, expr)
        }
        Expr::Pi => Ok(fixed_phase(alloc, Phase::pi())?),
        Expr::Tau => Ok(fixed_phase(alloc, Phase::tau())?),
        Expr::Parenthesized { inner } => typed(alloc, names, mode, place, inner.get()),
        Expr::Name { name, brackets } => {
            name_typed(alloc, names, mode, place, name, brackets.as_slice())
        }
        Expr::Call { name, arguments } => {
            call_typed(alloc, names, mode, place, name, arguments.as_slice())
        }
        Expr::Cast { to, operand } => cast_typed(alloc, names, mode, place, to, operand.get()),
        Expr::Unary { operator, operand } => {
            let of = typed(alloc, names, mode, place, operand.get())?;
            before_operand(alloc, place, op_of_prefix(*operator), of)
        }
        Expr::Binary {
            operator,
            left,
            right,
        } => binary_typed(
            alloc,
            names,
            mode,
            place,
            *operator,
            left.get(),
            right.get(),
        ),
    }
}

/// A name, and the indexes behind it.
#[cycle(typed)]
#[tactic(auto, using(crate::proofs::PartViews::expressions, crate::proofs::EveryIndex::fewer_in_brackets))]
fn name_typed(
    alloc: Global,
    names: &Names,
    mode: Mode,
    place: Place,
    name: &Label,
    brackets: &[Items<Index>],
) -> Result<Operand, TextRefusal>
    ensures { Gives (spec.typed_of names.now mode place (form.Name name.now brackets.now)) result }
{
    let it = names.scopes.find(name.text(), place)?;
    name_operand(
        alloc,
        names,
        mode,
        place,
        name,
        IndexesLeft::of(brackets),
        it,
    )
}

/// The call of a function of the language.
#[cycle(typed)]
#[tactic(auto, using(crate::proofs::PartViews::expressions))]
fn call_typed(
    alloc: Global,
    names: &Names,
    mode: Mode,
    place: Place,
    name: &Label,
    arguments: &[Expr],
) -> Result<Operand, TextRefusal>
    ensures { Gives (spec.typed_of names.now mode place (form.Call name.now arguments.now)) result }
{
    match builtin_at(alloc, place, name, names.scopes.known(name.text()))? {
        Builtin::Popcount => count_typed(alloc, names, mode, place, arguments),
        Builtin::Rotl => turn_typed(alloc, names, mode, place, Op::Rotl, arguments),
        Builtin::Rotr => turn_typed(alloc, names, mode, place, Op::Rotr, arguments),
    }
}

/// `popcount(of)`
#[cycle(typed)]
#[tactic(auto, unfolding(qt_typing::specs::Expressions::arity))]
fn count_typed(
    alloc: Global,
    names: &Names,
    mode: Mode,
    place: Place,
    arguments: &[Expr],
) -> Result<Operand, TextRefusal>
    ensures { Gives (spec.builtin_call mode place (map (spec.part_of names.now place) arguments.now) builtin.Popcount) result }
{
    match arguments {
        [of] => {
            let of = typed(alloc, names, mode, place, of)?;
            counted(alloc, place, of)
        }
        _ => Err(arity(place, 1, arguments.len() as u64)),
    }
}

/// `rotl(of, by)` and `rotr(of, by)`
#[cycle(typed)]
#[tactic(auto, unfolding(qt_typing::specs::Expressions::arity))]
fn turn_typed(
    alloc: Global,
    names: &Names,
    mode: Mode,
    place: Place,
    operator: Op,
    arguments: &[Expr],
) -> Result<Operand, TextRefusal>
    ensures { Gives (spec.rotated mode place operator (map (spec.part_of names.now place) arguments.now)) result }
{
    match arguments {
        [of, by] => {
            let of = typed(alloc, names, mode, place, of)?;
            let by = typed(alloc, names, mode, place, by)?;
            turned(alloc, place, operator, of, by)
        }
        _ => Err(arity(place, 2, arguments.len() as u64)),
    }
}

/// `to(written)`
#[cycle(typed)]
#[tactic(auto, using(crate::proofs::PartViews::expressions))]
fn cast_typed(
    alloc: Global,
    names: &Names,
    mode: Mode,
    place: Place,
    to: &Scalar,
    written: &Expr,
) -> Result<Operand, TextRefusal>
    ensures { Gives (spec.typed_of names.now mode place (form.Cast to.now written.now)) result }
{
    let kind = type_at(alloc, names, mode, place, to)?;
    let of = typed(alloc, names, mode, place, written)?;
    as_cast(alloc, names, mode, place, kind, written, of)
}

/// An operand by a cast.
fn as_cast(
    alloc: Global,
    names: &Names,
    mode: Mode,
    place: Place,
    to: ValueType,
    written: &Expr,
    of: Operand,
) -> Result<Operand, TextRefusal>
    ensures { Gives
        (and_then (wanted way.Written names.now mode place to written.now of) (λ form. Ok (operand_form.Value to form)))
        result }
{
    let form = wanted(alloc, Way::Written, names, mode, place, to, written, of)?;
    Ok(Operand::Value { kind: to, form })
}

/// A binary operator between its operands, which are reckoned exactly inside one that gives a phase.
#[cycle(typed)]
#[tactic(auto, using(crate::proofs::PartViews::expressions))]
fn binary_typed(
    alloc: Global,
    names: &Names,
    mode: Mode,
    place: Place,
    operator: InfixOperator,
    left: &Expr,
    right: &Expr,
) -> Result<Operand, TextRefusal>
    ensures { Gives (spec.typed_of names.now mode place (form.Binary operator left.now right.now)) result }
{
    let (first, second) = (sort_at(names, left), sort_at(names, right));
    let inner = mode_in(mode, sort_of_infix(operator, first, second));
    match op_of_infix(operator) {
        Some(op) => combined_typed(alloc, names, inner, place, op, left, right),
        None => logical_typed(alloc, names, inner, place, operator, left, right),
    }
}

/// An operator on values and phases.
#[cycle(typed)]
fn combined_typed(
    alloc: Global,
    names: &Names,
    mode: Mode,
    place: Place,
    operator: Op,
    left: &Expr,
    right: &Expr,
) -> Result<Operand, TextRefusal>
    ensures { Gives
        (and_then (spec.typed_of names.now mode place left.now)
        (λ x. and_then (spec.typed_of names.now mode place right.now) (combined names.now mode place operator left.now x right.now)))
        result }
{
    let x = typed(alloc, names, mode, place, left)?;
    let y = typed(alloc, names, mode, place, right)?;
    combined(alloc, names, mode, place, operator, left, x, right, y)
}

/// `left && right` and `left || right`
#[cycle(typed)]
fn logical_typed(
    alloc: Global,
    names: &Names,
    mode: Mode,
    place: Place,
    operator: InfixOperator,
    left: &Expr,
    right: &Expr,
) -> Result<Operand, TextRefusal>
    ensures { Gives
        (and_then (spec.typed_of names.now mode place left.now)
        (λ x. and_then (spec.typed_of names.now mode place right.now) (both_true place operator x)))
        result }
{
    let x = typed(alloc, names, mode, place, left)?;
    let y = typed(alloc, names, mode, place, right)?;
    both_true(alloc, place, operator, x, y)
}

/// What a name stands for, and the indexes behind it: a variable, an input, or a constant by its value.
#[cycle(typed)]
#[tactic(auto, unfolding(qt_typing::specs::Expressions::name_operand))]
fn name_operand(
    alloc: Global,
    names: &Names,
    mode: Mode,
    place: Place,
    name: &Label,
    left: IndexesLeft<'_>,
    it: &Named,
) -> Result<Operand, TextRefusal>
    ensures { Gives (spec.name_operand names.now mode place name.now (index_parts names.now place left.entry) it.now.what it.now) result }
{
    match (storage_of(alloc, it)?, it.what) {
        (Some(storage), _) => variable_operand(alloc, names, mode, place, storage, left),
        (None, What::Constant) => constant_bits(alloc, names, mode, place, name, left),
        (None, _) => Err(unfit(alloc, place, name)),
    }
}

/// A constant by its value, and the indexes behind it.
#[cycle(typed)]
fn constant_bits(
    alloc: Global,
    names: &Names,
    mode: Mode,
    place: Place,
    name: &Label,
    left: IndexesLeft<'_>,
) -> Result<Operand, TextRefusal>
    ensures { Gives
        (and_then (spec.named_constant names.now place name.now)
        (spec.constant_bits names.now mode place (index_parts names.now place left.entry)))
        result }
{
    match named_constant(alloc, names, place, name)? {
        ConstValue::Value(value) => {
            let form = constant(alloc, value)?;
            bits_of(alloc, names, mode, place, value.kind(), form, left)
        }
        ConstValue::Phase(_) => Err(TextRefusal::E10(place)),
    }
}

/// A variable, and the indexes behind it.
#[cycle(typed)]
#[tactic(auto, using(crate::proofs::Fewer::fewer_left), unfolding(qt_typing::specs::Expressions::variable_operand))]
fn variable_operand(
    alloc: Global,
    names: &Names,
    mode: Mode,
    place: Place,
    it: Storage,
    mut left: IndexesLeft<'_>,
) -> Result<Operand, TextRefusal>
    ensures { Gives (spec.variable_operand names.now mode place it (index_parts names.now place left.entry)) result }
{
    let variable = reached(alloc, names, mode, place, it, &mut left)?;
    let kind = kind_of(variable.get());
    let form = read(alloc, variable)?;
    bits_of(alloc, names, mode, place, kind, form, left)
}

/// The variable, or the element of an array, whose indexes are the first of those that are left: one for each dimension. E10 where there
/// are fewer, or one is no whole number; E12 `range` of a constant one outside of its dimension. OpenQASM 3.0, "Types and Casting", arrays.
#[cycle(typed)]
#[tactic(auto, unfolding(qt_typing::specs::Indexes::reached))]
pub fn reached(
    alloc: Global,
    names: &Names,
    mode: Mode,
    place: Place,
    it: Storage,
    left: &mut IndexesLeft<'_>,
) -> Result<Boxed<TypedVariable>, TextRefusal>
    ensures value { Reaches names.now place
        (indexes.reached names.now mode place it it.lengths (index_parts names.now place left.old)) result left.new }
    ensures left { OnOk result (left.new ≡ drop (length it.lengths) left.old) }
{
    let dimensions = it.lengths.items().len();
    if dimensions == 0 {
        return Ok(scalar(alloc, it)?);
    }
    if !left.has(dimensions) {
        return Err(TextRefusal::E10(place));
    }
    element_from(alloc, names, mode, place, it, left)
}

/// The element of an array, by an index for each dimension.
#[cycle(typed)]
#[tactic(auto, using(crate::proofs::Fewer::left), unfolding(qt_typing::specs::Indexes::element_from))]
fn element_from(
    alloc: Global,
    names: &Names,
    mode: Mode,
    place: Place,
    it: Storage,
    left: &mut IndexesLeft<'_>,
) -> Result<Boxed<TypedVariable>, TextRefusal>
    ensures value { Reaches names.now place
        (indexes.element_from names.now mode place it [] it.lengths (index_parts names.now place left.old)) result left.new }
    ensures left { OnOk result (left.new ≡ drop (length it.lengths) left.old) }
{
    let mut done = Items::new(alloc);
    let mut lengths = it.lengths.items();
    'dimensions: while let [length, rest @ ..] = lengths {
        let Some(index) = left.next() else {
            return Ok(element(alloc, it, done)?);
        };
        let form = dimension_index(alloc, names, mode, place, *length, index)?;
        done.push(form.into_inner())?;
        lengths = rest;
    }
    Ok(element(alloc, it, done)?)
}

/// The index of a dimension of an array that has this length.
#[cycle(typed)]
#[tactic(auto, using(crate::proofs::PartViews::indexes))]
fn dimension_index(
    alloc: Global,
    names: &Names,
    mode: Mode,
    place: Place,
    length: u32,
    index: &Index,
) -> Result<Boxed<TypedExpr>, TextRefusal>
    ensures { Gives (indexes.dimension_index names.now mode place length (spec.index_part names.now place index.now).shape) result }
{
    match index {
        Index::At { place: written } => {
            let of = typed(alloc, names, mode, place, written)?;
            placed_index(
                alloc,
                names,
                mode,
                place,
                true,
                u64::from(length),
                written,
                of,
            )
        }
        _ => Err(TextRefusal::E10(place)),
    }
}

/// A value, and the indexes that are left: each applies to the bits that are left.
#[cycle(typed)]
#[tactic(auto, using(crate::proofs::Steps::bits, crate::proofs::Fewer::left))]
fn bits_of(
    alloc: Global,
    names: &Names,
    mode: Mode,
    place: Place,
    mut kind: ValueType,
    mut form: Boxed<TypedExpr>,
    mut left: IndexesLeft<'_>,
) -> Result<Operand, TextRefusal>
    ensures { Gives (spec.bits_of names.now mode place kind form (index_parts names.now place left.entry)) result }
{
    'indexes: while let Some(index) = left.next() {
        let bits = bits_at(alloc, names, mode, place, kind, index)?;
        form = stepped(alloc, form, bits.step)?;
        kind = bits.kind;
    }
    Ok(Operand::Value { kind, form })
}

/// The bits of a value of a type at an index.
#[cycle(typed)]
#[tactic(auto, using(crate::proofs::PartViews::indexes), unfolding(qt_typing::specs::Indexes::bits_at))]
fn bits_at(
    alloc: Global,
    names: &Names,
    mode: Mode,
    place: Place,
    of: ValueType,
    index: &Index,
) -> Result<Bits, TextRefusal>
    ensures { Gives (indexes.bits_at names.now mode place of (spec.index_part names.now place index.now).shape) result }
{
    match index {
        Index::At { place: written } => {
            let index = typed(alloc, names, mode, place, written)?;
            bit_at(alloc, names, mode, place, of, written, index)
        }
        Index::Range { range } => slice_at(alloc, names, mode, place, of, range),
        Index::Set { .. } => Err(TextRefusal::E10(place)),
    }
}

/// The steps to the bits of a value of a type: each index applies to the bits that are left. E10 of what has no places, of an index that is
/// no whole number, and of a set; E12 of a constant index or a range outside. OpenQASM 3.0, "Index sets and slicing".
#[tactic(auto, unfolding(qt_typing::specs::Indexes::steps_from))]
pub fn steps_from(
    alloc: Global,
    names: &Names,
    mode: Mode,
    place: Place,
    of: ValueType,
    mut left: IndexesLeft<'_>,
) -> Result<Steps, TextRefusal>
    ensures { Gives (indexes.steps_from names.now mode place [] of (index_parts names.now place left.entry)) result }
{
    let mut kind = of;
    let mut steps = Items::new(alloc);
    'indexes: while let Some(index) = left.next() {
        let bits = bits_at(alloc, names, mode, place, kind, index)?;
        kind = bits.kind;
        steps.push(bits.step.into_inner())?;
    }
    Ok(Steps { steps, kind })
}

/// An expression where a value of a type is wanted, or its first refusal; E10 where no conversion fits, E12 `exact` of a phase that is no
/// whole number of an angle's steps. OpenQASM 3.0, "Types and Casting".
#[tactic(auto, unfolding(qt_typing::specs::Expressions::value_at))]
pub fn value_at(
    alloc: Global,
    names: &Names,
    place: Place,
    to: ValueType,
    expr: &Expr,
) -> Result<Boxed<TypedExpr>, TextRefusal>
    ensures { Gives (spec.value_at names.now place to expr.now) result }
{
    let of = typed(alloc, names, Mode::Plain, place, expr)?;
    wanted(
        alloc,
        Way::Unwritten,
        names,
        Mode::Plain,
        place,
        to,
        expr,
        of,
    )
}
