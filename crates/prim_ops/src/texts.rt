ghost use Rattle.std.specs.Prelude.{◌≡◌, IfOk, length, map, string_bytes};
ghost use Rattle.std.specs.Str.{chars};
ghost use Rattle.script_value.specs.Views.{meaning};
ghost use Rattle.script_value.specs.declared.outcome.Op.TheVariants as op;
ghost use Rattle.prim_spec.specs.Texts as spec;
ghost use Rattle.prim_spec.specs.Table.{value_of};
ghost use Rattle.prim_ops.specs.Applied.{Answers, Applies};

use crate::fault::ApplyFault;
use crate::numbers::count;
use crate::operands::one;
use script_value::{Fault, Items, Str, Value, read_number};
use std::alloc::{AllocError, Global};

fn are_texts(values: &[Value]) -> bool
    ensures { result ≡ spec.are_texts (map meaning values.now) }
{
    for value in values {
        let Value::Text(_) = value else {
            return false;
        };
    }
    true
}

/// Texts joined in order.
pub fn string_append(alloc: Global, values: &[Value]) -> Result<Value, ApplyFault>
    ensures { Applies result (value_of op.StringAppend (map meaning values.now)) }
{
    if !are_texts(values) {
        return Err(ApplyFault::Fault(Fault::WrongType));
    }
    Ok(Value::Text(Str::new(joined(alloc, values)?)))
}

fn joined(alloc: Global, values: &[Value]) -> Result<String, AllocError>
    ensures { IfOk result (λ text. string_bytes text ≡ spec.joined (map meaning values.now)) }
{
    let mut all = String::new(alloc);
    for value in values {
        if let Value::Text(text) = value {
            all.push_str(text.as_str())?;
        }
    }
    Ok(all)
}

/// How many characters a text has.
pub fn string_length(values: &[Value]) -> Result<Value, Fault>
    ensures { Answers result (value_of op.StringLength (map meaning values.now)) }
{
    match values {
        [Value::Text(text)] => count(characters(text.as_str())),
        _ => Err(Fault::WrongType),
    }
}

fn characters(text: &str) -> usize
    ensures { result ≡ length (chars text.now) }
{
    text.chars().count()
}

/// Whether two texts are the same.
pub fn string_equal(values: &[Value]) -> Result<Value, Fault>
    ensures { Answers result (value_of op.StringEqual (map meaning values.now)) }
{
    match values {
        [Value::Text(left), Value::Text(right)] => {
            Ok(Value::Truth(left.as_str() == right.as_str()))
        }
        _ => Err(Fault::WrongType),
    }
}

/// A number in decimal.
pub fn number_to_string(alloc: Global, values: &[Value]) -> Result<Value, ApplyFault>
    ensures { Applies result (value_of op.NumberToString (map meaning values.now)) }
{
    match values {
        [Value::Int(number)] => {
            let number = *number;
            Ok(Value::Text(Str::new(format!(in alloc; "{number}")?)))
        }
        _ => Err(ApplyFault::Fault(Fault::WrongType)),
    }
}

/// The number that a text is, or `#f`.
pub fn string_to_number(values: &[Value]) -> Result<Value, Fault>
    ensures { Answers result (value_of op.StringToNumber (map meaning values.now)) }
{
    match values {
        [Value::Text(text)] => match read_number(text.as_str()) {
            Some(number) => Ok(Value::Int(number)),
            None => Ok(Value::Truth(false)),
        },
        _ => Err(Fault::WrongType),
    }
}

/// The characters of a symbol, as a text.
pub fn symbol_to_string(operands: Items) -> Result<Value, Fault>
    ensures { Answers result (value_of op.SymbolToString operands) }
{
    match one(operands) {
        Some(Value::Symbol(name)) => Ok(Value::Text(name)),
        _ => Err(Fault::WrongType),
    }
}

/// The characters of a text, as a symbol.
pub fn string_to_symbol(operands: Items) -> Result<Value, Fault>
    ensures { Answers result (value_of op.StringToSymbol operands) }
{
    match one(operands) {
        Some(Value::Text(text)) => Ok(Value::Symbol(text)),
        _ => Err(Fault::WrongType),
    }
}
