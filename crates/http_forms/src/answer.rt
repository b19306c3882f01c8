ghost use Rattle.std.specs.Prelude.{◌≡◌, ◌++◌, map, IfOk, OnOk};
ghost use Rattle.form_urlencoded.specs.Form as form;
ghost use Rattle.script_value.specs.Val.{symbol, text, list, val, no_vals};
ghost use Rattle.script_value.specs.Views.{meaning};
ghost use Rattle.http_forms.specs.Answers as spec;

use form_urlencoded::parse;
use script_value::{Items, Str, Value};
use std::alloc::{AllocError, Global};

/// The bytes before the first of this byte, or all of them, and those after it, or none.
pub(crate) fn split_once(byte: u8, bytes: &[u8]) -> (&[u8], &[u8])
    ensures before { result.0.now ≡ (form.split_once byte bytes.now).0 }
    ensures after { result.1.now ≡ (form.split_once byte bytes.now).1 }
{
    match bytes.iter().position(|b| *b == byte) {
        Some(i) => (&bytes[..i], &bytes[i + 1..]),
        None => (bytes, &[]),
    }
}

/// The path of a target, and its query after the first `?`.
pub fn path_and_query(target: &[u8]) -> (&[u8], &[u8])
    ensures path { result.0.now ≡ (spec.path_and_query target.now).0 }
    ensures query { result.1.now ≡ (spec.path_and_query target.now).1 }
{
    split_once(b'?', target)
}

// A binding: a symbol and a text.
fn binding(alloc: Global, name: &str, value: &str) -> Result<Value, AllocError>
    ensures { IfOk result (λ v.
        meaning v ≡ list (val (symbol name.now) (val (text value.now) no_vals))) }
{
    let mut pair = Items::new(alloc);
    pair.push(Value::Symbol(Str::new(String::from_str(alloc, name)?)))?;
    pair.push(Value::Text(Str::new(String::from_str(alloc, value)?)))?;
    Ok(Value::List(pair))
}

// Puts the pairs of a form after the bindings, in order.
fn push_pairs(alloc: Global, bindings: &mut Items, pairs: &[u8]) -> Result<(), AllocError>
    ensures { OnOk result
        (bindings.new ≡ bindings.old ++ map spec.binding_of (form.raw_pairs pairs.now)) }
{
    for pair in parse(alloc, pairs) {
        let (name, value) = pair?;
        bindings.push(binding(alloc, name.as_str(), value.as_str())?)?;
    }
    Ok(())
}

/// The answer that a query and a body give: the pairs of the query as bindings, in order, and then those of the body.
///
/// Source of the pairs: URL Standard, section 5.1, `application/x-www-form-urlencoded` parsing.
pub fn answer_of(alloc: Global, query: &[u8], body: &[u8]) -> Result<Value, AllocError>
    ensures { IfOk result (λ v. meaning v ≡ spec.answer_of query.now body.now) }
{
    let mut bindings = Items::new(alloc);
    push_pairs(alloc, &mut bindings, query)?;
    push_pairs(alloc, &mut bindings, body)?;
    Ok(Value::List(bindings))
}
