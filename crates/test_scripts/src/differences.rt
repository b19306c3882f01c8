use crate::runs::{Asked, question_of};
use crate::states::{are_alike, bytes_of, counted};
use crate::twins::{Chain, chain_of};
use frame_codec::{Delta, decode_delta, delta, is_delta_spelled, is_stored, join, spell_delta};
use machine_states::Suspended;
use script_nodes::Script;
use script_value::Bytes;
use std::alloc::{AllocError, Global};

// The spelling of what differs between two states, if it has one.
fn spelled(
    alloc: Global,
    parent: &Suspended,
    state: &Suspended,
) -> Result<Option<Bytes>, AllocError> {
    let difference = delta(alloc, parent, state)?;
    if is_delta_spelled(&difference) {
        Ok(Some(spell_delta(alloc, &difference)?.spelling(alloc)?))
    } else {
        Ok(None)
    }
}

// The difference that bytes spell from a parent that has a spelling, if they spell one.
fn read(
    alloc: Global,
    script: &Script,
    parent: &Suspended,
    bytes: &[u8],
) -> Result<Option<Delta>, AllocError> {
    if is_stored(script, parent) {
        decode_delta(alloc, script, parent, bytes)
    } else {
        Ok(None)
    }
}

// Whether a state is the parent's with the difference that these bytes spell.
fn is_joined(
    alloc: Global,
    script: &Script,
    parent: &Suspended,
    state: &Suspended,
    bytes: &[u8],
) -> Result<bool, AllocError> {
    let Some(difference) = read(alloc, script, parent, bytes)? else {
        return Ok(false);
    };
    let joined = join(alloc, parent.try_clone(alloc)?, difference)?;
    are_alike(alloc, state, &joined)
}

/// What differs between the last page and the one before it: how many bytes, and these bytes.
pub fn difference_told(
    alloc: Global,
    script: &Script,
    chain: &Chain,
) -> Result<String, AllocError> {
    let (Some(state), Some(parent)) = (chain.page(0), chain.page(1)) else {
        return String::from_str(alloc, "no pages");
    };
    let Some(bytes) = spelled(alloc, parent, state)? else {
        return String::from_str(alloc, "no spelling");
    };
    if !is_joined(alloc, script, parent, state, bytes.as_slice())? {
        return String::from_str(alloc, "another state");
    }
    counted(alloc, bytes.as_slice())
}

// Whether these bytes are a difference from the last page.
fn reading_told(
    alloc: Global,
    script: &Script,
    chain: &Chain,
    bytes: &[u8],
) -> Result<String, AllocError> {
    let Some(parent) = chain.page(0) else {
        return String::from_str(alloc, "no page");
    };
    let found = read(alloc, script, parent, bytes)?;
    String::from_str(
        alloc,
        if found.is_some() {
            "difference"
        } else {
            "none"
        },
    )
}

// Whether these bytes are a difference from the last page of a question.
fn read_behind(alloc: Global, asked: &Asked, bytes: &[u8]) -> Result<String, AllocError> {
    let chain = chain_of(alloc, &asked.script, asked.answers.as_slice(), asked.fuel)?;
    reading_told(alloc, &asked.script, &chain, bytes)
}

// Whether these bytes are a difference from the last page of a row.
fn read_in(alloc: Global, row: &str, bytes: &[u8]) -> Result<String, AllocError> {
    match question_of(alloc, row)? {
        Ok(asked) => read_behind(alloc, &asked, bytes),
        Err(fault) => Ok(fault),
    }
}

/// Whether the bytes that stand first in a row, in hexadecimal digits without spaces, are a difference from its last page.
pub fn read_told(alloc: Global, row: &str) -> Result<String, AllocError> {
    let (digits, row) = row.split_once(' ').unwrap_or((row, ""));
    match bytes_of(alloc, digits)? {
        Some(bytes) => read_in(alloc, row, bytes.as_slice()),
        None => String::from_str(alloc, "no bytes"),
    }
}
