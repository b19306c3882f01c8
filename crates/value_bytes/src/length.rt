ghost use Rattle.std.specs.Prelude.{◌≡◌, ◌+◌, ◌^◌, min, length, map};
ghost use Rattle.wire_bytes.specs.Spelling.{byte_string};
ghost use Rattle.script_value.specs.Val.{vals_of};
ghost use Rattle.script_value.specs.Views.{meaning};
ghost use Rattle.value_bytes.specs.Spelling.{value_bytes, values_bytes, all_bytes};

use script_value::{Str, Value};

// The length that stands for each above it.
const MOST: u64 = 1 << 63;

/// How long the spelling of a value is, counted in bytes; one above 2^63 as 2^63. It takes no memory.
///
/// A text, a symbol or a list that is too long for its count is counted all the same.
#[cycle(lengths)]
pub fn value_length(value: &Value) -> u64
    ensures { result ≡ min (length (value_bytes (meaning value.now))) (2 ^ 63) }
{
    match value {
        Value::Int(_) => 9,
        Value::Truth(false) => 1,
        Value::Truth(true) => 1,
        Value::Text(text) => text_length(text),
        Value::Symbol(name) => text_length(name),
        Value::List(items) => all_length(items.as_slice()).saturating_add(5).min(MOST),
    }
}

/// How long the spelling of a list of values is, counted in bytes; one above 2^63 as 2^63. It takes no memory.
pub fn values_length(values: &[Value]) -> u64
    ensures { result ≡ min (length (values_bytes (map meaning values.now))) (2 ^ 63) }
{
    all_length(values).saturating_add(4).min(MOST)
}

#[cycle(lengths)]
#[tactic(auto, using(crate::proofs::Lengths::all_more))]
fn all_length(values: &[Value]) -> u64
    ensures { result ≡ min (length (all_bytes (vals_of (map meaning values.now)))) (2 ^ 63) }
{
    let mut sum: u64 = 0;
    for value in values {
        sum = sum.saturating_add(value_length(value)).min(MOST);
    }
    sum
}

// A text or a symbol, with its kind.
fn text_length(text: &Str) -> u64
    ensures { result ≡ min (1 + length (byte_string text.now)) (2 ^ 63) }
{
    (text.len() as u64).saturating_add(5).min(MOST)
}
