ghost use Rattle.std.specs.Prelude.{◌≡◌};
ghost use Rattle.std.specs.List.{list_all};
ghost use Rattle.std.specs.Str.Parse.{without_leading_sign};
ghost use Rattle.script_value.specs.Views.{meaning};
ghost use Rattle.script_value.specs.Numbers as numbers;
ghost use Rattle.sexp_reader.specs.Letters as letters;
ghost use Rattle.sexp_reader.specs.Read as spec;
ghost use Rattle.sexp_reader.specs.Views.{Gives};

use crate::fault::{ReadFault, ReadKind, fault};
use script_value::{Str, Value, are_digits, read_number};
use std::alloc::Global;

// What follows a sign, or all bytes where none stands first.
fn without_sign(token: &[u8]) -> &[u8]
    ensures { result.now ≡ without_leading_sign token.now }
{
    match token {
        [b'+' | b'-', digits @ ..] => digits,
        _ => token,
    }
}

// Whether a token is a number.
fn is_number(token: &[u8]) -> bool
    ensures { result ≡ numbers.is_number token.now }
{
    let digits = without_sign(token);
    !digits.is_empty() && are_digits(digits)
}

// The truth value that a token is.
fn truth_of(token: &str) -> Option<bool>
    ensures { result ≡ letters.truth_of token.now }
{
    match token {
        "#t" | "#true" => Some(true),
        "#f" | "#false" => Some(false),
        _ => None,
    }
}

fn is_symbol_sign(byte: u8) -> bool
    ensures { result ≡ letters.is_symbol_sign byte }
{
    matches!(
        byte,
        b'!' | b'$'
            | b'%'
            | b'&'
            | b'*'
            | b'/'
            | b':'
            | b'<'
            | b'='
            | b'>'
            | b'?'
            | b'^'
            | b'_'
            | b'~'
            | b'+'
            | b'-'
            | b'.'
    )
}

fn is_symbol_byte(byte: u8) -> bool
    ensures { result ≡ letters.is_symbol_byte byte }
{
    byte.is_ascii_alphanumeric() || is_symbol_sign(byte)
}

// Whether each byte may stand in a symbol.
fn are_symbol_bytes(bytes: &[u8]) -> bool
    ensures { result ≡ list_all letters.is_symbol_byte bytes.now }
{
    bytes.iter().all(|byte| is_symbol_byte(*byte))
}

// Whether a token is a symbol.
fn is_symbol(token: &[u8]) -> bool
    ensures { result ≡ letters.is_symbol token.now }
{
    match token {
        [] => false,
        [first, more @ ..] => {
            let begins_well = match *first {
                b'0'..=b'9' | b'.' => false,
                b'+' | b'-' => more.is_empty(),
                _ => true,
            };
            begins_well && are_symbol_bytes(token)
        }
    }
}

// The datum that a token at this place is, which is a text.
fn word_of(alloc: Global, place: u64, token: &str) -> Result<Value, ReadFault>
    ensures { Gives meaning result (spec.word_at place token.now) }
{
    if let Some(number) = read_number(token) {
        return Ok(Value::Int(number));
    }
    if is_number(token.as_bytes()) {
        return Err(fault(place, ReadKind::Range));
    }
    if let Some(truth) = truth_of(token) {
        return Ok(Value::Truth(truth));
    }
    if !is_symbol(token.as_bytes()) {
        return Err(fault(place, ReadKind::Token));
    }
    Ok(Value::Symbol(Str::new(String::from_str(alloc, token)?)))
}

/// The datum that a token at this place is.
pub fn word_at(alloc: Global, place: u64, token: &[u8]) -> Result<Value, ReadFault>
    ensures { Gives meaning result (spec.word_at place token.now) }
{
    match str::from_utf8(token) {
        Ok(text) => word_of(alloc, place, text),
        Err(_) => Err(fault(place, ReadKind::Token)),
    }
}
