//! Templates of a quasiquote.

ghost use Rattle.std.specs.Prelude.{◌≡◌, ◌==◌};
ghost use Rattle.script_value.specs.Val.{list};
ghost use Rattle.script_value.specs.Views.{meaning, meanings};
ghost use Rattle.core_syntax.specs.Shapes.{count_of};
ghost use Rattle.core_syntax.specs.Templates.{is_splice, has_splice, is_mark_of_one, is_item, is_template, are_templates};

use crate::shapes::{begins, is_headed};
use script_value::Value;

/// Whether this is `(unquote-splicing ..)`.
pub fn is_splice(item: &Value) -> bool
    ensures { result ≡ is_splice (meaning item.now) }
{
    is_headed("unquote-splicing", item)
}

/// Whether one of these is `(unquote-splicing ..)`.
pub fn has_splice(items: &[Value]) -> bool
    ensures { result ≡ has_splice (meanings items.now) }
{
    for item in items {
        if is_splice(item) {
            return true;
        }
    }
    false
}

/// Whether each unquote has one expression, each unquote-splicing stands as an item, and there is no quasiquote.
#[cycle(template)]
pub fn is_template(template: &Value) -> bool
    ensures { result ≡ is_template (meaning template.now) }
{
    match template {
        Value::List(items) => is_list_template(items.as_slice()),
        _ => true,
    }
}

#[cycle(template)]
fn is_list_template(items: &[Value]) -> bool
    ensures { result ≡ is_template (list (meanings items.now)) }
{
    if begins("quasiquote", items) || begins("unquote-splicing", items) {
        return false;
    }
    if begins("unquote", items) {
        return are_two(items);
    }
    are_templates(items)
}

#[cycle(template)]
fn are_templates(items: &[Value]) -> bool
    ensures { result ≡ are_templates (meanings items.now) }
{
    for item in items {
        if !is_item(item) {
            return false;
        }
    }
    true
}

#[cycle(template)]
fn is_item(item: &Value) -> bool
    ensures { result ≡ is_item (meaning item.now) }
{
    if is_splice(item) {
        is_mark_of_one(item)
    } else {
        is_template(item)
    }
}

#[tactic(auto, using(crate::proofs::Parts::count_of_items))]
fn are_two(items: &[Value]) -> bool
    ensures { result ≡ (count_of (meanings items.now) == 2) }
{
    items.len() == 2
}

fn is_mark_of_one(item: &Value) -> bool
    ensures { result ≡ is_mark_of_one (meaning item.now) }
{
    match item {
        Value::List(items) => are_two(items.as_slice()),
        _ => false,
    }
}
