ghost use Rattle.std.specs.Prelude.{◌≡◌, IfOk, OnOk, map, [], ◌∷◌, ◌++◌};
ghost use Rattle.script_value.specs.Val.{list, number, val, vals_of};
ghost use Rattle.script_value.specs.Views.{meaning};
ghost use Rattle.script_value.specs.declared.outcome.Op.TheVariants as op;
ghost use Rattle.prim_spec.specs.Lists as spec;
ghost use Rattle.prim_spec.specs.Table.{value_of};
ghost use Rattle.prim_ops.specs.Applied.{Answers, Applies};

use crate::fault::ApplyFault;
use crate::numbers::count;
use crate::operands::{one, two};
use script_value::{Fault, Items, Value, depth};
use std::alloc::{AllocError, Global};

/// The depth of the deepest value that an operation gives.
const DEPTH_LIMIT: u32 = 200;

// A value, unless it nests too deep.
fn within_depth(value: Value) -> Result<Value, Fault>
    ensures { Answers result (spec.within_depth (meaning value)) }
{
    if depth(&value) > DEPTH_LIMIT {
        return Err(Fault::Deep);
    }
    Ok(value)
}

/// The list of the operands.
pub fn list(operands: Items) -> Result<Value, Fault>
    ensures { Answers result (value_of op.List operands) }
{
    within_depth(Value::List(operands))
}

/// A list with a value in front.
pub fn cons(operands: Items) -> Result<Value, ApplyFault>
    ensures { Applies result (value_of op.Cons operands) }
{
    let Some((value, list)) = two(operands) else {
        return Err(ApplyFault::Fault(Fault::WrongType));
    };
    match list {
        Value::List(items) => in_front(value, items),
        _ => Err(ApplyFault::Fault(Fault::WrongType)),
    }
}

fn in_front(value: Value, items: Items) -> Result<Value, ApplyFault>
    ensures { Applies result (spec.within_depth (list (val (meaning value) (vals_of items)))) }
{
    if depth(&value) >= DEPTH_LIMIT || items.depth() > DEPTH_LIMIT {
        return Err(ApplyFault::Fault(Fault::Deep));
    }
    let mut values = items.into_vec();
    values.insert(0, value)?;
    Ok(Value::List(Items::from_vec(values)))
}

/// The first item of a list.
pub fn car(operands: Items) -> Result<Value, Fault>
    ensures { Answers result (value_of op.Car operands) }
{
    match one(operands) {
        Some(Value::List(items)) => first(items),
        _ => Err(Fault::WrongType),
    }
}

fn first(items: Items) -> Result<Value, Fault>
    ensures { Answers result (spec.first (list (vals_of items) ∷ [])) }
{
    let mut values = items.into_vec();
    if values.is_empty() {
        return Err(Fault::Bounds);
    }
    within_depth(values.swap_remove(0))
}

/// All items of a list but the first.
pub fn cdr(operands: Items) -> Result<Value, Fault>
    ensures { Answers result (value_of op.Cdr operands) }
{
    match one(operands) {
        Some(Value::List(items)) => rest(items),
        _ => Err(Fault::WrongType),
    }
}

fn rest(items: Items) -> Result<Value, Fault>
    ensures { Answers result (spec.rest (list (vals_of items) ∷ [])) }
{
    let mut values = items.into_vec();
    if values.is_empty() {
        return Err(Fault::Bounds);
    }
    drop(values.remove(0));
    within_depth(Value::List(Items::from_vec(values)))
}

fn are_lists(values: &[Value]) -> bool
    ensures { result ≡ spec.are_lists (map meaning values.now) }
{
    for value in values {
        let Value::List(_) = value else {
            return false;
        };
    }
    true
}

fn is_any_too_deep(values: &[Value]) -> bool
    ensures { result ≡ spec.is_any_too_deep (map meaning values.now) }
{
    for value in values {
        if depth(value) > DEPTH_LIMIT {
            return true;
        }
    }
    false
}

/// The items of lists, in order.
#[tactic(auto, using(crate::proofs::Depths::too_deep_joined))]
pub fn append(alloc: Global, operands: Items) -> Result<Value, ApplyFault>
    ensures { Applies result (value_of op.Append operands) }
{
    if !are_lists(operands.as_slice()) {
        return Err(ApplyFault::Fault(Fault::WrongType));
    }
    if is_any_too_deep(operands.as_slice()) {
        return Err(ApplyFault::Fault(Fault::Deep));
    }
    Ok(Value::List(joined(alloc, operands)?))
}

fn joined(alloc: Global, lists: Items) -> Result<Items, AllocError>
    ensures { IfOk result (λ items. items ≡ spec.joined lists) }
{
    let mut all = Items::new(alloc);
    for value in lists.into_vec() {
        join(&mut all, value)?;
    }
    Ok(all)
}

// Puts the items of a list after others.
#[tactic(auto, using(crate::proofs::Items::back))]
fn join(all: &mut Items, value: Value) -> Result<(), AllocError>
    ensures { OnOk result (all.new ≡ all.old ++ spec.items_in (meaning value)) }
{
    match value {
        Value::List(items) => {
            all.append(items)?;
            Ok(())
        }
        _ => Ok(()),
    }
}

/// How many items a list has.
pub fn length(values: &[Value]) -> Result<Value, Fault>
    ensures { Answers result (value_of op.Length (map meaning values.now)) }
{
    match values {
        [Value::List(items)] => length_of(items),
        _ => Err(Fault::WrongType),
    }
}

#[tactic(auto, using(crate::proofs::Items::back))]
fn length_of(items: &Items) -> Result<Value, Fault>
    ensures { Answers result (spec.length_of (list (vals_of items.now) ∷ [])) }
{
    count(items.len())
}

/// A list from its last item to its first.
pub fn reverse(operands: Items) -> Result<Value, Fault>
    ensures { Answers result (value_of op.Reverse operands) }
{
    match one(operands) {
        Some(Value::List(items)) => reversed(items),
        _ => Err(Fault::WrongType),
    }
}

#[tactic(auto, using(crate::proofs::Items::back, crate::proofs::Items::map_reverse))]
fn reversed(items: Items) -> Result<Value, Fault>
    ensures { Answers result (spec.reversed (list (vals_of items) ∷ [])) }
{
    let mut values = items.into_vec();
    values.reverse();
    within_depth(Value::List(Items::from_vec(values)))
}

/// The item of a list at a place, the first being 0.
pub fn list_ref(operands: Items) -> Result<Value, Fault>
    ensures { Answers result (value_of op.ListRef operands) }
{
    let Some((list, place)) = two(operands) else {
        return Err(Fault::WrongType);
    };
    match place {
        Value::Int(place) => item_of(list, place),
        _ => Err(Fault::WrongType),
    }
}

fn item_of(list: Value, place: i64) -> Result<Value, Fault>
    ensures { Answers result (spec.item (meaning list ∷ number place ∷ [])) }
{
    match list {
        Value::List(items) => item_at(items, place),
        _ => Err(Fault::WrongType),
    }
}

fn item_at(items: Items, place: i64) -> Result<Value, Fault>
    ensures { Answers result (spec.item_at items place) }
{
    let Ok(index) = usize::try_from(place) else {
        return Err(Fault::Bounds);
    };
    let mut values = items.into_vec();
    if index >= values.len() {
        return Err(Fault::Bounds);
    }
    within_depth(values.swap_remove(index))
}
