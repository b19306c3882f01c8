ghost use Rattle.journal_records.specs.Records.{IsInGrammar};
ghost use Rattle.journal_records.specs.Views.{logged_of, recorded_of};

use crate::words::bytes_of;
use journal_records::{Logged, Recorded, body_length, can_begin, decode, encode};
use page_journal::NEWEST_FORMAT;
use script_nodes::ScriptText;
use setup_reader::setup_of;
use std::alloc::{AllocError, Global};

// How long a record is, and whether these bytes are its body.
fn told_of_record(alloc: Global, record: &Recorded<'_>, body: &[u8]) -> Result<String, AllocError>
    requires { IsInGrammar (recorded_of record.now) }
{
    let length = body_length(record);
    let is_same = encode(alloc, record)?.as_slice() == body;
    format!(in alloc; "a record of {length} bytes, the same again: {is_same}\n")
}

// How long a record of scripts is, and whether these bytes are its body: the first one of a shelf of this number, or a later one.
fn told_of_scripts(
    alloc: Global,
    shelf: Option<u32>,
    scripts: &[ScriptText],
    body: &[u8],
) -> Result<String, AllocError> {
    match setup_of(alloc, scripts)? {
        Some(setup) if can_begin(0, &setup) => match shelf {
            Some(shelf) => {
                let setup = &setup;
                told_of_record(alloc, &Recorded::Begin { shelf, setup }, body)
            }
            None => told_of_record(alloc, &Recorded::Texts { setup: &setup }, body),
        },
        _ => String::from_str(alloc, "a record of no setup\n"),
    }
}

fn told_of_logged(alloc: Global, logged: &Logged, body: &[u8]) -> Result<String, AllocError>
    requires { IsInGrammar (logged_of logged.now) }
{
    match logged {
        Logged::Begin { shelf, scripts } => told_of_scripts(alloc, Some(*shelf), scripts, body),
        Logged::Page { page, state } => {
            let state = Some(state.as_slice());
            told_of_record(alloc, &Recorded::Page { page, state }, body)
        }
        Logged::Ended(ended) => told_of_record(alloc, &Recorded::Ended(ended), body),
        Logged::Finish(finish) => told_of_record(alloc, &Recorded::Finish(finish), body),
        Logged::Sweep { clock } => {
            told_of_record(alloc, &Recorded::Sweep { clock: *clock }, body)
        }
        Logged::Texts { scripts } => told_of_scripts(alloc, None, scripts, body),
        Logged::Drawn { number } => {
            told_of_record(alloc, &Recorded::Drawn { number: *number }, body)
        }
        Logged::Follow => told_of_record(alloc, &Recorded::Follow, body),
        Logged::Promoted => told_of_record(alloc, &Recorded::Promoted, body),
    }
}

/// How many bytes the record has whose body these words are, and whether it is written so again; or that they are none.
pub fn told_of_body(alloc: Global, words: &str) -> Result<String, AllocError> {
    let body = bytes_of(alloc, words)?;
    match decode(alloc, NEWEST_FORMAT, &body)? {
        Some(logged) => told_of_logged(alloc, &logged, &body),
        None => String::from_str(alloc, "no record\n"),
    }
}
