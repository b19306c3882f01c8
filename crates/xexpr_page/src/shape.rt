ghost use Rattle.std.specs.Prelude.{◌≡◌, is_some, false};
ghost use Rattle.script_value.specs.Val.{list};
ghost use Rattle.script_value.specs.Views.{meaning, meanings};
ghost use Rattle.page_spec.specs.Markup.{is_void};
ghost use Rattle.page_spec.specs.Page as spec;
ghost use Rattle.page_spec.specs.Page.{page_of, element_of, children_of, attribute_of, attributes_of, pair_in};

use crate::names::{is_attribute, is_entity, is_void, may_have_children};
use crate::parts::{attributes_in, split_attributes};
use script_value::{Str, Value};

/// Whether a value is a page. It takes no memory.
#[cycle(is_page)]
pub fn is_page(value: &Value) -> bool
    ensures { result ≡ is_some (page_of (meaning value.now)) }
{
    match value {
        Value::Text(_) => true,
        Value::List(items) => is_list_page(items.as_slice()),
        Value::Symbol(name) => is_entity(name.as_str()),
        Value::Int(_) | Value::Truth(_) => false,
    }
}

// Whether a list is an element.
#[cycle(is_page)]
fn is_list_page(items: &[Value]) -> bool
    ensures { result ≡ is_some (page_of (list (meanings items.now))) }
{
    match items {
        [] => false,
        [first, parts @ ..] => is_named_page(first, parts),
    }
}

// Whether the first item of a list names the element that the others make.
#[cycle(is_page)]
fn is_named_page(first: &Value, parts: &[Value]) -> bool
    ensures { result ≡ is_some (page_of (spec.listed first.now parts.now)) }
{
    match first {
        Value::Symbol(name) => {
            if is_void(name.as_str()) {
                is_void_page(name, parts)
            } else {
                is_element_page(name, parts)
            }
        }
        Value::Int(_) | Value::Truth(_) | Value::Text(_) | Value::List(_) => false,
    }
}

// Whether these parts make an element of this name, which is not void.
#[cycle(is_page)]
fn is_element_page(name: &Str, parts: &[Value]) -> bool
    requires { is_void name.now ≡ false }
    ensures { result ≡ is_some (element_of name.now (meanings parts.now)) }
{
    let (attributes, children) = split_attributes(parts);
    if !may_have_children(name.as_str()) {
        return false;
    }
    if !are_attributes(attributes) {
        return false;
    }
    are_pages(children)
}

// Whether all of these are pages.
#[cycle(is_page)]
fn are_pages(children: &[Value]) -> bool
    ensures { result ≡ is_some (children_of (meanings children.now)) }
{
    for child in children {
        if !is_page(child) {
            return false;
        }
    }
    true
}

// Whether these parts make a void element of this name.
fn is_void_page(name: &Str, parts: &[Value]) -> bool
    ensures { result ≡ is_some (spec.void_of name.now (meanings parts.now)) }
{
    match parts {
        [] => true,
        [first] => match attributes_in(first) {
            Some(attributes) => are_attributes(attributes),
            None => false,
        },
        [_, _, ..] => false,
    }
}

// Whether all of these are attributes.
fn are_attributes(items: &[Value]) -> bool
    ensures { result ≡ is_some (attributes_of (meanings items.now)) }
{
    for item in items {
        if !is_attribute_of_element(item) {
            return false;
        }
    }
    true
}

// Whether a value is an attribute.
fn is_attribute_of_element(item: &Value) -> bool
    ensures { result ≡ is_some (attribute_of (meaning item.now)) }
{
    match item {
        Value::List(pair) => is_pair(pair.as_slice()),
        _ => false,
    }
}

// Whether these are the name and the text of an attribute.
fn is_pair(pair: &[Value]) -> bool
    ensures { result ≡ is_some (pair_in (meanings pair.now)) }
{
    match pair {
        [] => false,
        [_] => false,
        [name, text] => is_name_and_text(name, text),
        [_, _, _, ..] => false,
    }
}

// Whether these are the name and the text of an attribute.
fn is_name_and_text(name: &Value, text: &Value) -> bool
    ensures { result ≡ is_some (spec.pair_text (meaning name.now) (meaning text.now)) }
{
    match (name, text) {
        (Value::Symbol(name), Value::Text(_)) => is_attribute(name.as_str()),
        _ => false,
    }
}
