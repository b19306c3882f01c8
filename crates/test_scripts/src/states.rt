use crate::syntax::script_of;
use crate::told::Told;
use crate::twins::Chain;
use frame_codec::{
    decode, decode_form, delta, encode, is_delta_spelled, is_spelled, is_stored, spell_delta,
    spell_state,
};
use kept_states::next_links;
use machine_states::{Outcome, Suspended};
use script_nodes::Script;
use script_value::Bytes;
use std::alloc::{AllocError, Global};

// The spelling of a state, if it has one.
fn spelling(alloc: Global, state: &Suspended) -> Result<Option<Bytes>, AllocError> {
    if is_spelled(state) {
        Ok(Some(encode(alloc, state)?))
    } else {
        Ok(None)
    }
}

/// Whether two states have one spelling.
pub fn are_alike(alloc: Global, state: &Suspended, other: &Suspended) -> Result<bool, AllocError> {
    let mine = spelling(alloc, state)?;
    let other = spelling(alloc, other)?;
    Ok(match (&mine, &other) {
        (Some(mine), Some(other)) => mine.as_slice() == other.as_slice(),
        _ => false,
    })
}

/// How the bytes of a state are read and written.
#[derive(Clone, Copy)]
pub enum Writing<'a> {
    /// By itself, without the byte of a form.
    Bare,
    /// In the form that is due: by itself, or after this state of the page before.
    Form(Option<&'a Suspended>),
}

impl Writing<'_> {
    // The spelling of a state, if it has one.
    fn spelling(self, alloc: Global, state: &Suspended) -> Result<Option<Bytes>, AllocError> {
        if !is_spelled(state) {
            return Ok(None);
        }
        match self {
            Writing::Bare => Ok(Some(encode(alloc, state)?)),
            Writing::Form(None) => Ok(Some(spell_state(alloc, state)?.into_bytes())),
            Writing::Form(Some(before)) => {
                let difference = delta(alloc, before, state)?;
                if !is_delta_spelled(&difference) {
                    return Ok(None);
                }
                Ok(Some(spell_delta(alloc, &difference)?.into_bytes()))
            }
        }
    }

    // The state that these bytes spell, if they spell one.
    fn read(
        self,
        alloc: Global,
        script: &Script,
        bytes: &[u8],
    ) -> Result<Option<Suspended>, AllocError> {
        match self {
            Writing::Bare => decode(alloc, script, bytes),
            Writing::Form(None) => decode_form(alloc, script, None, bytes),
            Writing::Form(Some(before)) => {
                if is_stored(script, before) {
                    decode_form(alloc, script, Some(before), bytes)
                } else {
                    Ok(None)
                }
            }
        }
    }
}

/// How a record says the state of the last page: after the page before, where that has fewer than 32 links.
pub fn writing_of(chain: &Chain) -> Writing<'_> {
    let mut links = 0;
    for _ in chain.segments.iter().skip(1) {
        links = next_links(links);
    }
    Writing::Form(if links == 0 { None } else { chain.page(1) })
}

// The spelling of what is kept at the last page, if there is one.
fn kept_at_last(
    alloc: Global,
    writing: Writing<'_>,
    chain: &Chain,
) -> Result<Option<Bytes>, AllocError> {
    match chain.last_stop() {
        Some(Outcome::Shown { state, .. }) => writing.spelling(alloc, state),
        _ => Ok(None),
    }
}

fn nothing_kept(alloc: Global) -> Result<String, AllocError> {
    String::from_str(alloc, "no page or no spelling")
}

// Bytes as two hexadecimal digits each.
fn digits(alloc: Global, bytes: &[u8]) -> Result<String, AllocError> {
    let mut told = Told::new(alloc);
    for byte in bytes {
        told.put(format!(in alloc; "{byte:02x}"));
    }
    told.all()
}

/// How many bytes there are, and their digits.
pub fn counted(alloc: Global, bytes: &[u8]) -> Result<String, AllocError> {
    let mut told = Told::new(alloc);
    told.number(bytes.len() as u64);
    told.add(" ");
    told.put(digits(alloc, bytes));
    told.all()
}

/// The bytes of pairs of hexadecimal digits, with spaces between them or not; none where there is anything else.
pub fn bytes_of(alloc: Global, digits: &str) -> Result<Option<Vec<u8>>, AllocError> {
    let mut bytes = Vec::new(alloc);
    let mut high = None;
    for digit in digits.chars().filter(|digit| *digit != ' ') {
        let Some(value) = digit.to_digit(16) else {
            return Ok(None);
        };
        let Ok(value) = u8::try_from(value) else {
            return Ok(None);
        };
        match high {
            None => high = Some(value),
            Some(first) => {
                bytes.push((first & 0xf) << 4 | value & 0xf)?;
                high = None;
            }
        }
    }
    Ok(if high.is_none() { Some(bytes) } else { None })
}

/// What is kept of a script at its last page: how many bytes, and these bytes, if they are read back.
pub fn bytes_told(
    alloc: Global,
    script: &Script,
    writing: Writing<'_>,
    chain: &Chain,
) -> Result<String, AllocError> {
    let Some(kept) = kept_at_last(alloc, writing, chain)? else {
        return nothing_kept(alloc);
    };
    let Reading::State = reading_of(alloc, script, writing, kept.as_slice())? else {
        return String::from_str(alloc, "not read back");
    };
    counted(alloc, kept.as_slice())
}

// How bytes are read.
#[derive(Drop)]
enum Reading {
    None,
    State,
    Misread,
}

// How bytes are read: as no state, as one that they spell, or as one that other bytes spell.
fn reading_of(
    alloc: Global,
    script: &Script,
    writing: Writing<'_>,
    bytes: &[u8],
) -> Result<Reading, AllocError> {
    let Some(state) = writing.read(alloc, script, bytes)? else {
        return Ok(Reading::None);
    };
    match writing.spelling(alloc, &state)? {
        Some(spelled) => Ok(if spelled.as_slice() == bytes {
            Reading::State
        } else {
            Reading::Misread
        }),
        None => Ok(Reading::Misread),
    }
}

// How the bytes of these digits are read as a state of the script.
fn digits_read(alloc: Global, script: &Script, digits: &str) -> Result<&'static str, AllocError> {
    let Some(bytes) = bytes_of(alloc, digits)? else {
        return Ok("no bytes");
    };
    Ok(
        match reading_of(alloc, script, Writing::Bare, bytes.as_slice())? {
            Reading::None => "none",
            Reading::State => "state",
            Reading::Misread => "misread",
        },
    )
}

/// How the bytes after `<-` are read as a state of the script.
pub fn read_told(alloc: Global, row: &str) -> Result<String, AllocError> {
    let (text, digits) = row.split_once(" <- ").unwrap_or((row, ""));
    match script_of(alloc, text)? {
        Ok(script) => String::from_str(alloc, digits_read(alloc, &script, digits)?),
        Err(fault) => Ok(fault),
    }
}

// How many of many byte strings are states, and how many are misread.
#[derive(Drop)]
struct Counts {
    states: u64,
    misread: u64,
}

impl Counts {
    fn count(&mut self, reading: Reading) {
        match reading {
            Reading::None => (),
            Reading::State => self.states = self.states.saturating_add(1),
            Reading::Misread => self.misread = self.misread.saturating_add(1),
        }
    }

    fn told(&self, alloc: Global) -> Result<String, AllocError> {
        let states = self.states;
        let misread = self.misread;
        format!(in alloc; "{states} states, {misread} misread")
    }
}

// Of the beginnings of these bytes, and of what they are with one byte more.
fn count_cuts(
    alloc: Global,
    script: &Script,
    writing: Writing<'_>,
    kept: &[u8],
    counts: &mut Counts,
) -> Result<(), AllocError> {
    let mut front = Vec::new(alloc);
    for byte in kept {
        counts.count(reading_of(alloc, script, writing, front.as_slice())?);
        front.push(*byte)?;
    }
    for behind in 0..=255_u8 {
        front.push(behind)?;
        counts.count(reading_of(alloc, script, writing, front.as_slice())?);
        front.pop();
    }
    Ok(())
}

/// How many of the beginnings of the last page's state, and of what it is with one byte more, are states.
pub fn cuts_told(
    alloc: Global,
    script: &Script,
    writing: Writing<'_>,
    chain: &Chain,
) -> Result<String, AllocError> {
    let Some(kept) = kept_at_last(alloc, writing, chain)? else {
        return nothing_kept(alloc);
    };
    let mut counts = Counts {
        states: 0,
        misread: 0,
    };
    count_cuts(alloc, script, writing, kept.as_slice(), &mut counts)?;
    counts.told(alloc)
}

// Counts the changes of the byte at a place.
fn count_changes(
    alloc: Global,
    script: &Script,
    writing: Writing<'_>,
    kept: &[u8],
    place: usize,
    counts: &mut Counts,
) -> Result<(), AllocError> {
    let mut changed = kept.to_vec(alloc)?;
    for value in 0..=255_u8 {
        let Some(byte) = changed.get_mut(place) else {
            return Ok(());
        };
        *byte = value;
        if changed.as_slice() != kept {
            counts.count(reading_of(alloc, script, writing, changed.as_slice())?);
        }
    }
    Ok(())
}

/// How many of the changes of one byte of the last page's state are states.
pub fn changes_told(
    alloc: Global,
    script: &Script,
    writing: Writing<'_>,
    chain: &Chain,
) -> Result<String, AllocError> {
    let Some(kept) = kept_at_last(alloc, writing, chain)? else {
        return nothing_kept(alloc);
    };
    let mut counts = Counts {
        states: 0,
        misread: 0,
    };
    for place in 0..kept.len() {
        count_changes(alloc, script, writing, kept.as_slice(), place, &mut counts)?;
    }
    counts.told(alloc)
}
