ghost use Rattle.std.specs.Prelude.{◌≡◌, List, option_map, IfOk, IfSome, OnErr, Some};
ghost use Rattle.script_value.specs.Views.{meaning};
ghost use Rattle.wire_bytes.specs.Reading.{value_of};
ghost use Rattle.value_bytes.specs.Reading as spec;
ghost use Rattle.value_bytes.specs.Reading.{read_within, read_items_within, read_list};
ghost use Rattle.value_bytes.specs.Views.{Reads, HasCount, GrowsWithin};

use crate::fields::{byte, count, signed_64, text};
use crate::unread::Unread;
use script_value::{Items, Value};
use std::alloc::{AllocError, Global};
use wire_bytes::Cursor;

/// How many levels of lists a value may nest.
pub const MOST_LEVELS: u32 = 200;

/// Reads the value that stands at the cursor; none where no spelling of one stands there.
///
/// It recurses at most as deep as values nest. The cursor is then after the value; where none is read, it may stand anywhere.
pub fn read_value(alloc: Global, cursor: &mut Cursor<'_>) -> Result<Option<Value>, AllocError>
    ensures value { IfOk result (λ found. option_map meaning found ≡ value_of (spec.read_value cursor.old)) }
    ensures rest { IfOk result (λ found. IfSome found (λ v. spec.read_value cursor.old ≡ Some (meaning v, cursor.new))) }
{
    match value(alloc, cursor) {
        Ok(value) => Ok(Some(value)),
        Err(Unread::Misspelled) => Ok(None),
        Err(Unread::Memory) => Err(AllocError),
    }
}

/// Reads the list of values that stands at the cursor, its count first; none where no spelling of one stands there.
///
/// The cursor is then after the list; where none is read, it may stand anywhere. Memory runs out only where no more values are
/// told than bytes are left.
pub fn read_values(alloc: Global, cursor: &mut Cursor<'_>) -> Result<Option<Items>, AllocError>
    ensures value { IfOk result (λ found. option_map (λ vs. vs) found ≡ value_of (spec.read_values cursor.old)) }
    ensures rest { IfOk result (λ found. IfSome found (λ vs. spec.read_values cursor.old ≡ Some (vs, cursor.new))) }
    ensures memory { OnErr result (HasCount cursor.old) }
{
    match values(alloc, cursor) {
        Ok(items) => Ok(Some(items)),
        Err(Unread::Misspelled) => Ok(None),
        Err(Unread::Memory) => Err(AllocError),
    }
}

/// A value, as a field among others. It recurses at most as deep as values nest.
pub fn value(alloc: Global, cursor: &mut Cursor<'_>) -> Result<Value, Unread>
    ensures { Reads meaning result cursor.new (spec.read_value cursor.old) }
{
    value_within(alloc, cursor, MOST_LEVELS)
}

/// A list of values, as a field among others.
pub fn values(alloc: Global, cursor: &mut Cursor<'_>) -> Result<Items, Unread>
    ensures read { Reads (λ vs. vs) result cursor.new (spec.read_values cursor.old) }
    ensures memory { GrowsWithin result cursor.old }
{
    list_within(alloc, cursor, MOST_LEVELS)
}

// A value that nests at most so many levels deep.
#[cycle(values)]
#[tactic(auto, using(crate::proofs::Trees::within_front))]
fn value_within(alloc: Global, cursor: &mut Cursor<'_>, levels: u32) -> Result<Value, Unread>
    ensures { Reads meaning result cursor.new (read_within levels cursor.old) }
{
    match byte(cursor)? {
        0 => Ok(Value::Int(signed_64(cursor)?)),
        1 => Ok(Value::Truth(false)),
        2 => Ok(Value::Truth(true)),
        3 => Ok(Value::Text(text(alloc, cursor)?)),
        4 => Ok(Value::Symbol(text(alloc, cursor)?)),
        5 => Ok(Value::List(items_within(alloc, cursor, levels)?)),
        _ => Err(Unread::Misspelled),
    }
}

// The items of a list that nests at most so many levels deep.
#[cycle(values)]
fn items_within(alloc: Global, cursor: &mut Cursor<'_>, levels: u32) -> Result<Items, Unread>
    ensures read { Reads (λ vs. vs) result cursor.new (read_items_within levels cursor.old) }
    ensures memory { GrowsWithin result cursor.old }
{
    if levels == 0 {
        Err(Unread::Misspelled)
    } else {
        list_within(alloc, cursor, levels - 1)
    }
}

// A list of values that each nest at most so many levels deep. Its items are kept one by one, and no count is trusted.
#[cycle(values)]
#[tactic(auto, using(crate::proofs::Turns::one_more, crate::proofs::Turns::no_more, crate::proofs::Turns::at_end, crate::proofs::Counts::has_count))]
fn list_within(alloc: Global, cursor: &mut Cursor<'_>, levels: u32) -> Result<Items, Unread>
    ensures read { Reads (λ vs. vs) result cursor.new (read_list (read_within levels) cursor.old) }
    ensures memory { GrowsWithin result cursor.old }
{
    let count = count(cursor)?;
    let mut items = Items::new(alloc);
    for turn in 0..count {
        let item = value_within(alloc, cursor, levels)?;
        items.push(item)?;
    }
    Ok(items)
}
