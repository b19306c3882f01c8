ghost use Rattle.std.specs.Prelude.{◌≡◌, ◌≤◌, length, IfOk, IsUtf8, []};
ghost use Rattle.sexp_reader.specs.Letters as letters;
ghost use Rattle.sexp_reader.specs.Read as spec;
ghost use Rattle.sexp_reader.specs.Views.{Gives};

use crate::classes::{Class, class_of, is_plain};
use crate::fault::{ReadFault, ReadKind, fault};
use script_value::Str;
use std::alloc::Global;

/// What stands after space and comments.
pub fn after_gap(text: &[u8]) -> &[u8]
    ensures gap { result.now ≡ spec.after_gap text.now }
    ensures shorter { length result.now ≤ length text.now }
{
    let mut in_comment = false;
    let mut rest = text;
    while let [byte, tail @ ..] = rest {
        if in_comment {
            in_comment = *byte != b'\n';
        } else {
            match class_of(*byte) {
                Class::Blank => {}
                Class::Comment => in_comment = true,
                _ => return rest,
            }
        }
        rest = tail;
    }
    rest
}

/// How many bytes stand before the first that ends a token.
pub fn token_len(text: &[u8]) -> usize
    ensures count { result ≡ spec.token_len text.now }
    ensures within { result ≤ length text.now }
{
    let mut count = 0;
    let mut rest = text;
    while let [byte, tail @ ..] = rest {
        if !is_plain(*byte) {
            break;
        }
        count += 1;
        rest = tail;
    }
    count
}

// The character that a backslash and a byte stand for.
fn escaped(byte: u8) -> Option<u8>
    ensures { result ≡ letters.escaped byte }
{
    match byte {
        b'\\' | b'"' => Some(byte),
        b'n' => Some(b'\n'),
        b't' => Some(b'\t'),
        b'r' => Some(b'\r'),
        _ => None,
    }
}

// The characters of the text after a quote at this place, and what follows it.
fn letters_at(alloc: Global, place: u64, bytes: &[u8]) -> Result<(Vec<u8>, &[u8]), ReadFault>
    ensures found { Gives (λ x. (x.0.items, x.1.now)) result (spec.text_from place [] bytes.now) }
    ensures shorter { IfOk result (λ x. length x.1.now ≤ length bytes.now) }
{
    let mut done = Vec::new(alloc);
    let mut rest = bytes;
    while let [byte, tail @ ..] = rest {
        match *byte {
            b'"' => return Ok((done, tail)),
            b'\\' => {
                let [letter, after @ ..] = tail else {
                    break;
                };
                let Some(letter) = escaped(*letter) else {
                    return Err(fault(place, ReadKind::Token));
                };
                done.push(letter)?;
                rest = after;
            }
            _ => {
                done.push(*byte)?;
                rest = tail;
            }
        }
    }
    Err(fault(place, ReadKind::Unclosed))
}

// Bytes that are UTF-8 as a text.
fn text_of(bytes: Vec<u8>) -> Str
    requires { IsUtf8 bytes.items }
    ensures { result ≡ bytes.items }
{
    match String::from_utf8(bytes) {
        Ok(text) => Str::new(text),
        Err(_) => unreachable!(),
    }
}

/// The text after a quote at this place, and what follows it.
pub fn text_at(alloc: Global, place: u64, bytes: &[u8]) -> Result<(Str, &[u8]), ReadFault>
    requires { IsUtf8 bytes.now }
    ensures found { Gives (λ x. (x.0, x.1.now)) result (spec.text_from place [] bytes.now) }
    ensures shorter { IfOk result (λ x. length x.1.now ≤ length bytes.now) }
{
    let (letters, rest) = letters_at(alloc, place, bytes)?;
    Ok((text_of(letters), rest))
}
