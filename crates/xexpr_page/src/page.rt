ghost use Rattle.std.specs.Prelude.{◌≡◌, ◌++◌, List, ℕ, Some, Err, OnOk, IfOk, false};
ghost use Rattle.script_value.specs.Val.{list};
ghost use Rattle.script_value.specs.Views.{meaning, meanings};
ghost use Rattle.page_spec.specs.Page as spec;
ghost use Rattle.page_spec.specs.Markup.{end_tag, is_void};
ghost use Rattle.page_spec.specs.Page.{page_of, element_of, children_of};
ghost use Rattle.xexpr_page.specs.Answers.{Gives, Pushes};
ghost use Rattle.page_spec.specs.Renders.{Renders};
ghost use Rattle.page_spec.specs.Nesting.{IsMarkup};
ghost use Rattle.xexpr_page.specs.Told.{TellsNoPage};

use crate::escape::{push_attribute_text, push_text};
use crate::fault::RenderFault;
use crate::names::{is_attribute, is_entity, is_void, may_have_children};
use crate::parts::{attributes_in, split_attributes};
use crate::shape::is_page;
use script_value::{Bytes, Str, Value};
use std::alloc::{AllocError, Global};

/// The bytes of the page that a value is.
///
/// Where the value is no page, the answer is `NotPage`, whatever memory there is, and where memory runs out for a page, `Memory`.
pub fn render(alloc: Global, value: &Value) -> Result<Bytes, RenderFault>
    // The answer is the page of the value, or that there is none, unless memory ran out.
    ensures page { Gives result (page_of (meaning value.now)) }
    // Memory runs out for a page alone.
    ensures told { TellsNoPage result (page_of (meaning value.now)) }
    // What is shown are bytes that the grammar of pages gives the value.
    ensures shown { IfOk result (λ bytes. Renders (meaning value.now) bytes) }
    // Where that grammar gives the value bytes, they are shown, unless memory ran out.
    ensures found { (wanted : List ℕ) → Renders (meaning value.now) wanted → Gives result (Some wanted) }
    // What is shown is well formed: each element that is opened is closed by its own end tag, inside the element around it.
    ensures well_formed { IfOk result (λ bytes. IsMarkup bytes) }
{
    match written(alloc, value) {
        Ok(page) => Ok(page),
        Err(RenderFault::NotPage) => Err(RenderFault::NotPage),
        Err(RenderFault::Memory) => Err(fault_of(value)),
    }
}

// Why there is no page where memory ran out while the value was written.
fn fault_of(value: &Value) -> RenderFault
    ensures page { Gives (Err result) (page_of (meaning value.now)) }
    ensures told { TellsNoPage (Err result) (page_of (meaning value.now)) }
{
    if is_page(value) {
        RenderFault::Memory
    } else {
        RenderFault::NotPage
    }
}

// The bytes that a page begins with room for.
const ROOM: usize = 512;

// The bytes of the page that a value is, in one walk over it; where memory runs out, the value may be none.
fn written(alloc: Global, value: &Value) -> Result<Bytes, RenderFault>
    ensures { Gives result (page_of (meaning value.now)) }
{
    let mut page = Vec::with_capacity(alloc, ROOM)?;
    push_page(&mut page, value)?;
    Ok(Bytes::new(page))
}

// Puts a value after the page.
#[cycle(page)]
fn push_page(page: &mut Vec<u8>, value: &Value) -> Result<(), RenderFault>
    ensures { Pushes result page.old.items page.new.items (page_of (meaning value.now)) }
{
    match value {
        Value::Text(text) => {
            push_text(page, text.as_str())?;
            Ok(())
        }
        Value::List(items) => push_list(page, items.as_slice()),
        Value::Symbol(name) => push_entity(page, name),
        Value::Int(_) | Value::Truth(_) => Err(RenderFault::NotPage),
    }
}

// Puts the element that a list is after the page.
#[cycle(page)]
fn push_list(page: &mut Vec<u8>, items: &[Value]) -> Result<(), RenderFault>
    ensures { Pushes result page.old.items page.new.items (page_of (list (meanings items.now))) }
{
    match items {
        [] => Err(RenderFault::NotPage),
        [first, parts @ ..] => push_named(page, first, parts),
    }
}

// Puts the element that the first item of a list names after the page.
#[cycle(page)]
fn push_named(page: &mut Vec<u8>, first: &Value, parts: &[Value]) -> Result<(), RenderFault>
    ensures { Pushes result page.old.items page.new.items (page_of (spec.listed first.now parts.now)) }
{
    match first {
        Value::Symbol(name) => {
            if is_void(name.as_str()) {
                push_void(page, name, parts)
            } else {
                push_element(page, name, parts)
            }
        }
        Value::Int(_) | Value::Truth(_) | Value::Text(_) | Value::List(_) => {
            Err(RenderFault::NotPage)
        }
    }
}

// Puts an element of this name, which is not void, after the page; its attributes, if there are any, are the first of its parts.
#[cycle(page)]
fn push_element(page: &mut Vec<u8>, name: &Str, parts: &[Value]) -> Result<(), RenderFault>
    requires { is_void name.now ≡ false }
    ensures { Pushes result page.old.items page.new.items (element_of name.now (meanings parts.now)) }
{
    let (attributes, children) = split_attributes(parts);
    if !may_have_children(name.as_str()) {
        return Err(RenderFault::NotPage);
    }
    push_start(page, name, attributes)?;
    push_children(page, children)?;
    push_end(page, name)?;
    Ok(())
}

// Puts children after the page, one after another.
#[cycle(page)]
fn push_children(page: &mut Vec<u8>, children: &[Value]) -> Result<(), RenderFault>
    ensures { Pushes result page.old.items page.new.items (children_of (meanings children.now)) }
{
    for child in children {
        push_page(page, child)?;
    }
    Ok(())
}

// Puts `&NAME;` after the page.
fn push_entity(page: &mut Vec<u8>, name: &Str) -> Result<(), RenderFault>
    ensures { Pushes result page.old.items page.new.items (spec.entity_of name.now) }
{
    if !is_entity(name.as_str()) {
        return Err(RenderFault::NotPage);
    }
    page.push(b'&')?;
    page.extend_from_slice(name.as_str().as_bytes())?;
    page.push(b';')?;
    Ok(())
}

// Puts the void element of this name after the page: its start tag, since it has no children and no end tag.
fn push_void(page: &mut Vec<u8>, name: &Str, parts: &[Value]) -> Result<(), RenderFault>
    ensures { Pushes result page.old.items page.new.items (spec.void_of name.now (meanings parts.now)) }
{
    match parts {
        [] => push_start(page, name, &[]),
        [first] => match attributes_in(first) {
            Some(attributes) => push_start(page, name, attributes),
            None => Err(RenderFault::NotPage),
        },
        [_, _, ..] => Err(RenderFault::NotPage),
    }
}

// Puts `<NAME`, the attributes and `>` after the page.
fn push_start(page: &mut Vec<u8>, name: &Str, attributes: &[Value]) -> Result<(), RenderFault>
    ensures { Pushes result page.old.items page.new.items (spec.start_of name.now (meanings attributes.now)) }
{
    page.push(b'<')?;
    page.extend_from_slice(name.as_str().as_bytes())?;
    push_attributes(page, attributes)?;
    page.push(b'>')?;
    Ok(())
}

// Puts `</NAME>` after the page.
fn push_end(page: &mut Vec<u8>, name: &Str) -> Result<(), AllocError>
    ensures { OnOk result (page.new.items ≡ page.old.items ++ end_tag name.now) }
{
    page.push(b'<')?;
    page.push(b'/')?;
    page.extend_from_slice(name.as_str().as_bytes())?;
    page.push(b'>')?;
    Ok(())
}

fn push_attributes(page: &mut Vec<u8>, attributes: &[Value]) -> Result<(), RenderFault>
    ensures { Pushes result page.old.items page.new.items (spec.attributes_of (meanings attributes.now)) }
{
    for attribute in attributes {
        push_attribute(page, attribute)?;
    }
    Ok(())
}

// Puts ` NAME="TEXT"` after the page.
fn push_attribute(page: &mut Vec<u8>, attribute: &Value) -> Result<(), RenderFault>
    ensures { Pushes result page.old.items page.new.items (spec.attribute_of (meaning attribute.now)) }
{
    match attribute {
        Value::List(pair) => push_pair(page, pair.as_slice()),
        _ => Err(RenderFault::NotPage),
    }
}

fn push_pair(page: &mut Vec<u8>, pair: &[Value]) -> Result<(), RenderFault>
    ensures { Pushes result page.old.items page.new.items (spec.pair_in (meanings pair.now)) }
{
    match pair {
        [] => Err(RenderFault::NotPage),
        [_] => Err(RenderFault::NotPage),
        [name, text] => push_pair_of(page, name, text),
        [_, _, _, ..] => Err(RenderFault::NotPage),
    }
}

fn push_pair_of(page: &mut Vec<u8>, name: &Value, text: &Value) -> Result<(), RenderFault>
    ensures { Pushes result page.old.items page.new.items (spec.pair_text (meaning name.now) (meaning text.now)) }
{
    match (name, text) {
        (Value::Symbol(name), Value::Text(text)) => {
            if !is_attribute(name.as_str()) {
                return Err(RenderFault::NotPage);
            }
            page.push(b' ')?;
            page.extend_from_slice(name.as_str().as_bytes())?;
            page.extend_from_slice(b"=\"")?;
            push_attribute_text(page, text.as_str())?;
            page.push(b'"')?;
            Ok(())
        }
        _ => Err(RenderFault::NotPage),
    }
}
