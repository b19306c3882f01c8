ghost use Rattle.std.specs.Prelude.{◌≡◌, IfOk, Ok, map, option_map, option_to_list};
ghost use Rattle.script_value.specs.Val.{text, truth, vals_of};
ghost use Rattle.script_value.specs.Views.{meaning};
ghost use Rattle.script_value.specs.declared.outcome.Op.TheVariants as op;
ghost use Rattle.prim_spec.specs.Bindings as spec;
ghost use Rattle.prim_spec.specs.Table.{value_of};
ghost use Rattle.prim_ops.specs.Applied.{Answers, Applies, Finds};

use crate::fault::ApplyFault;
use script_value::{Fault, Items, Str, Value};
use std::alloc::{AllocError, Global};

// A symbol and a text.
fn pair_of<'a>(key: &'a Value, text: &'a Value) -> Option<(&'a Str, &'a Str)>
    ensures { option_map (λ b. (b.0.now, b.1.now)) result ≡ spec.pair_of (meaning key.now) (meaning text.now) }
{
    match (key, text) {
        (Value::Symbol(key), Value::Text(text)) => Some((key, text)),
        _ => None,
    }
}

// The symbol and the text that these values are.
fn pair_in(values: &[Value]) -> Option<(&Str, &Str)>
    ensures { option_map (λ b. (b.0.now, b.1.now)) result ≡ spec.pair_in (vals_of (map meaning values.now)) }
{
    match values {
        [] => None,
        [_] => None,
        [key, text] => pair_of(key, text),
        [_, _, _, ..] => None,
    }
}

// The key and the text of a binding.
fn binding_in(value: &Value) -> Option<(&Str, &Str)>
    ensures { option_map (λ b. (b.0.now, b.1.now)) result ≡ spec.binding_in (meaning value.now) }
{
    match value {
        Value::List(pair) => pair_in(pair.as_slice()),
        _ => None,
    }
}

fn are_bindings(values: &[Value]) -> bool
    ensures { result ≡ spec.are_bindings (vals_of (map meaning values.now)) }
{
    for value in values {
        if binding_in(value).is_none() {
            return false;
        }
    }
    true
}

// The text of a value, where that is a binding of this key.
fn text_for<'a>(key: &Str, value: &'a Value) -> Option<&'a Str>
    ensures { option_to_list (option_map (λ t. t.now) result) ≡ spec.text_in key.now (meaning value.now) }
{
    match binding_in(value) {
        Some((name, text)) if name.as_str() == key.as_str() => Some(text),
        Some(_) | None => None,
    }
}

// The one text of a key among bindings, where there is one.
fn single<'a>(key: &Str, values: &'a [Value]) -> Result<&'a Str, Fault>
    ensures { Finds result (spec.texts_among key.now (map meaning values.now)) }
{
    let mut found = None;
    for value in values {
        match text_for(key, value) {
            None => {}
            Some(text) => {
                if found.is_some() {
                    return Err(Fault::Binding);
                }
                found = Some(text);
            }
        }
    }
    found.ok_or(Fault::Binding)
}

/// The one text that a key is bound to among bindings.
pub fn single_binding(alloc: Global, values: &[Value]) -> Result<Value, ApplyFault>
    ensures { Applies result (value_of op.ExtractBindingSingle (map meaning values.now)) }
{
    match values {
        [Value::Symbol(key), Value::List(bindings)] => {
            if !are_bindings(bindings.as_slice()) {
                return Err(ApplyFault::Fault(Fault::WrongType));
            }
            let text = single(key, bindings.as_slice())?;
            Ok(Value::Text(text.try_clone(alloc)?))
        }
        _ => Err(ApplyFault::Fault(Fault::WrongType)),
    }
}

/// All texts that a key is bound to among bindings, in order.
pub fn all_bindings(alloc: Global, values: &[Value]) -> Result<Value, ApplyFault>
    ensures { Applies result (value_of op.ExtractBindings (map meaning values.now)) }
{
    match values {
        [Value::Symbol(key), Value::List(bindings)] => {
            if !are_bindings(bindings.as_slice()) {
                return Err(ApplyFault::Fault(Fault::WrongType));
            }
            Ok(Value::List(texts_for(alloc, key, bindings.as_slice())?))
        }
        _ => Err(ApplyFault::Fault(Fault::WrongType)),
    }
}

// The texts of a key among bindings, in order.
fn texts_for(alloc: Global, key: &Str, values: &[Value]) -> Result<Items, AllocError>
    ensures { IfOk result (λ texts. texts ≡ map text (spec.texts_among key.now (map meaning values.now))) }
{
    let mut texts = Items::new(alloc);
    for value in values {
        if let Some(text) = text_for(key, value) {
            texts.push(Value::Text(text.try_clone(alloc)?))?;
        }
    }
    Ok(texts)
}

/// Whether a key is bound among bindings.
pub fn exists_binding(values: &[Value]) -> Result<Value, Fault>
    ensures { Answers result (value_of op.ExistsBinding (map meaning values.now)) }
{
    match values {
        [Value::Symbol(key), Value::List(bindings)] => {
            if !are_bindings(bindings.as_slice()) {
                return Err(Fault::WrongType);
            }
            Ok(Value::Truth(is_bound(key, bindings.as_slice())))
        }
        _ => Err(Fault::WrongType),
    }
}

fn is_bound(key: &Str, values: &[Value]) -> bool
    ensures { spec.any_text (spec.texts_among key.now (map meaning values.now)) ≡ Ok (truth result) }
{
    for value in values {
        if text_for(key, value).is_some() {
            return true;
        }
    }
    false
}
