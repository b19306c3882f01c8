ghost use Rattle.std.specs.Prelude.{◌≡◌, IfOk};
ghost use Rattle.script_value.specs.Views.{meaning};
ghost use Rattle.instance_cells.specs.Views.{effect_of};
ghost use Rattle.wire_bytes.specs.Reading.{read_bytes};
ghost use Rattle.value_bytes.specs.Reading.{read_list};
ghost use Rattle.value_bytes.specs.Views.{Reads, GrowsWithin};
ghost use Rattle.journal_records.specs.Reading as spec;
ghost use Rattle.journal_records.specs.Reading.{is_nothing, read_below};
ghost use Rattle.journal_records.specs.Old.{newest_format, is_role_kind, lacks, is_older_page, read_gone, read_state, read_shown, read_kind_in, read_front_in};
ghost use Rattle.journal_records.specs.Roles.{is_role};
ghost use Rattle.journal_records.specs.Views.{script_of, effects_in, origin_of, ending_of, finish_of, logged_of, texts_in, ReadsRecord, FindsFitting, FindsItsBody};

use crate::grammar::{DEADLINES_END, NUMBERS_END};
use crate::records::{EndedRecord, FinishRecord, Logged, Origin, PageRecord};
use instance_cells::Effect;
use script_nodes::{ScriptText, SendKind};
use script_value::{Bytes, TxName, Value};
use std::alloc::{AllocError, Global};
use value_bytes::fields::{byte, count, number_32, number_64, signed_64, string};
use value_bytes::{Unread, value};
use wire_bytes::Cursor;

// The format that is written.
const NEWEST: u8 = 6;

/// The record whose body this is in a journal of this format; none where it is the body of no record of the format. No count in it
/// makes anything grow beyond the bytes after it.
///
/// A page of format 1 has no bytes of its state, and the newest format alone tells the pages that went for one, and whether the shelf
/// follows another one's journal.
pub fn decode(alloc: Global, format: u8, body: &[u8]) -> Result<Option<Logged>, AllocError>
    ensures read { IfOk result (ReadsRecord format body.now) }
    ensures fits { IfOk result FindsFitting }
    ensures spelled { format ≡ newest_format → IfOk result (FindsItsBody body.now) }
{
    let mut cursor = Cursor::over(body);
    match front(alloc, format, &mut cursor) {
        Ok(logged) => {
            if cursor.at_end() {
                Ok(Some(logged))
            } else {
                Ok(None)
            }
        }
        Err(Unread::Misspelled) => Ok(None),
        Err(Unread::Memory) => Err(AllocError),
    }
}

// The record at the front.
fn front(alloc: Global, format: u8, cursor: &mut Cursor<'_>) -> Result<Logged, Unread>
    ensures { Reads logged_of result cursor.new (read_front_in format cursor.old) }
{
    let kind = byte(cursor)?;
    in_format(alloc, format, kind, cursor)
}

// Whether a format has no records of this kind, though the newest one has.
fn lacks(format: u8, kind: u8) -> bool
    ensures { result ≡ lacks format kind }
{
    if format < 4 && kind == 6 {
        return true;
    }
    if format < 5 && kind == 7 {
        return true;
    }
    format < NEWEST && is_role_kind(kind)
}

// Whether this is the kind of a record that tells whether the shelf follows another one's journal.
fn is_role_kind(kind: u8) -> bool
    ensures { result ≡ is_role_kind kind }
{
    kind == 8 || kind == 9
}

// Whether this is the kind of a page, and the format tells less of one than the newest does.
fn is_older_page(format: u8, kind: u8) -> bool
    ensures { result ≡ is_older_page format kind }
{
    format < NEWEST && kind == 2
}

/// Whether this is the body of a record that tells whether the shelf follows another one's journal. It takes no memory.
pub fn is_role(body: &[u8]) -> bool
    ensures { result ≡ is_role body.now }
{
    match body {
        [kind] => is_role_kind(*kind),
        _ => false,
    }
}

// A record of this kind in a format.
fn in_format(alloc: Global, format: u8, kind: u8, cursor: &mut Cursor<'_>) -> Result<Logged, Unread>
    ensures { Reads logged_of result cursor.new (read_kind_in format kind cursor.old) }
{
    if lacks(format, kind) {
        return Err(Unread::Misspelled);
    }
    if is_older_page(format, kind) {
        return page(alloc, format, cursor);
    }
    of_kind(alloc, kind, cursor)
}

// A record of this kind in the newest format.
fn of_kind(alloc: Global, kind: u8, cursor: &mut Cursor<'_>) -> Result<Logged, Unread>
    ensures { Reads logged_of result cursor.new (spec.read_kind kind cursor.old) }
{
    match kind {
        1 => begin(alloc, cursor),
        2 => page(alloc, NEWEST, cursor),
        3 => Ok(Logged::Ended(ended(alloc, cursor)?)),
        4 => Ok(Logged::Finish(finish(alloc, cursor)?)),
        5 => {
            let clock = number(cursor)?;
            Ok(Logged::Sweep { clock })
        }
        6 => {
            let scripts = scripts(alloc, cursor)?;
            Ok(Logged::Texts { scripts })
        }
        7 => {
            let number = drawn(cursor)?;
            Ok(Logged::Drawn { number })
        }
        8 => Ok(Logged::Follow),
        9 => Ok(Logged::Promoted),
        _ => Err(Unread::Misspelled),
    }
}

fn begin(alloc: Global, cursor: &mut Cursor<'_>) -> Result<Logged, Unread>
    ensures { Reads logged_of result cursor.new (spec.read_begins cursor.old) }
{
    let shelf = number_32(cursor)?;
    let scripts = scripts(alloc, cursor)?;
    Ok(Logged::Begin { shelf, scripts })
}

#[tactic(auto, using(value_bytes::proofs::Turns::at_start, value_bytes::proofs::Turns::one_more, value_bytes::proofs::Turns::no_more, value_bytes::proofs::Turns::at_end, value_bytes::proofs::Counts::has_count, value_bytes::proofs::Counts::list_from))]
fn scripts(alloc: Global, cursor: &mut Cursor<'_>) -> Result<Vec<ScriptText>, Unread>
    ensures read { Reads texts_in result cursor.new (read_list spec.read_script cursor.old) }
    ensures memory { GrowsWithin result cursor.old }
{
    let count = count(cursor)?;
    let mut scripts = Vec::new(alloc);
    for turn in 0..count {
        let script = script(alloc, cursor)?;
        scripts.push(script)?;
    }
    Ok(scripts)
}

fn script(alloc: Global, cursor: &mut Cursor<'_>) -> Result<ScriptText, Unread>
    ensures { Reads script_of result cursor.new (spec.read_script cursor.old) }
{
    let name = copied_string(alloc, cursor)?;
    let text = copied_string(alloc, cursor)?;
    Ok(ScriptText { name, text })
}

// A byte string, copied.
fn copied_string(alloc: Global, cursor: &mut Cursor<'_>) -> Result<Bytes, Unread>
    ensures { Reads (λ t. t) result cursor.new (read_bytes cursor.old) }
{
    let lent = string(cursor)?;
    Ok(Bytes::new(lent.to_vec(alloc)?))
}

// A page that was shown, with the bytes of its state.
fn page(alloc: Global, format: u8, cursor: &mut Cursor<'_>) -> Result<Logged, Unread>
    ensures { Reads logged_of result cursor.new (read_shown format cursor.old) }
{
    let ticket = number(cursor)?;
    let nonce = number_64(cursor)?;
    let origin = origin(alloc, cursor)?;
    let effects = effects(alloc, cursor)?;
    let left = names(alloc, cursor)?;
    let kind = send_kind(cursor)?;
    let deadline = deadline(cursor)?;
    let evicted = gone(alloc, format, cursor)?;
    let state = state(alloc, format, cursor)?;
    let page = PageRecord {
        ticket,
        nonce,
        origin,
        effects,
        left,
        kind,
        deadline,
        evicted,
    };
    Ok(Logged::Page { page, state })
}

fn ended(alloc: Global, cursor: &mut Cursor<'_>) -> Result<EndedRecord, Unread>
    ensures { Reads ending_of result cursor.new (spec.read_ending cursor.old) }
{
    let ticket = number(cursor)?;
    let instance = number(cursor)?;
    let page = number(cursor)?;
    let answer = value(alloc, cursor)?;
    let effects = effects(alloc, cursor)?;
    let left = names(alloc, cursor)?;
    Ok(EndedRecord {
        ticket,
        instance,
        page,
        answer,
        effects,
        left,
    })
}

fn finish(alloc: Global, cursor: &mut Cursor<'_>) -> Result<FinishRecord, Unread>
    ensures { Reads finish_of result cursor.new (spec.read_finish cursor.old) }
{
    let ticket = number(cursor)?;
    let instance = number(cursor)?;
    let page = number(cursor)?;
    let answer = value(alloc, cursor)?;
    let effects = effects(alloc, cursor)?;
    Ok(FinishRecord {
        ticket,
        instance,
        page,
        answer,
        effects,
    })
}

fn origin(alloc: Global, cursor: &mut Cursor<'_>) -> Result<Origin, Unread>
    ensures { Reads origin_of result cursor.new (spec.read_origin cursor.old) }
{
    match byte(cursor)? {
        0 => start(alloc, cursor),
        1 => answered(alloc, cursor),
        _ => Err(Unread::Misspelled),
    }
}

// A start, whose answer is the empty list.
fn start(alloc: Global, cursor: &mut Cursor<'_>) -> Result<Origin, Unread>
    ensures { Reads origin_of result cursor.new (spec.read_origin_of 0 cursor.old) }
{
    let script = byte(cursor)?;
    let answer = value(alloc, cursor)?;
    if is_empty_list(&answer) {
        Ok(Origin::Start { script })
    } else {
        Err(Unread::Misspelled)
    }
}

fn is_empty_list(value: &Value) -> bool
    ensures { result ≡ is_nothing (meaning value.now) }
{
    match value {
        Value::List(items) => items.is_empty(),
        Value::Int(_) => false,
        Value::Truth(_) => false,
        Value::Text(_) => false,
        Value::Symbol(_) => false,
    }
}

fn answered(alloc: Global, cursor: &mut Cursor<'_>) -> Result<Origin, Unread>
    ensures { Reads origin_of result cursor.new (spec.read_origin_of 1 cursor.old) }
{
    let instance = number(cursor)?;
    let page = number(cursor)?;
    let answer = value(alloc, cursor)?;
    Ok(Origin::Answer {
        instance,
        page,
        answer,
    })
}

#[tactic(auto, using(value_bytes::proofs::Turns::at_start, value_bytes::proofs::Turns::one_more, value_bytes::proofs::Turns::no_more, value_bytes::proofs::Turns::at_end, value_bytes::proofs::Counts::has_count, value_bytes::proofs::Counts::list_from))]
fn effects(alloc: Global, cursor: &mut Cursor<'_>) -> Result<Vec<Effect>, Unread>
    ensures read { Reads effects_in result cursor.new (spec.read_effects cursor.old) }
    ensures memory { GrowsWithin result cursor.old }
{
    let count = count(cursor)?;
    let mut effects = Vec::new(alloc);
    for turn in 0..count {
        let effect = effect(alloc, cursor)?;
        effects.push(effect)?;
    }
    Ok(effects)
}

fn effect(alloc: Global, cursor: &mut Cursor<'_>) -> Result<Effect, Unread>
    ensures { Reads effect_of result cursor.new (spec.read_effect cursor.old) }
{
    let kind = byte(cursor)?;
    let cell = byte(cursor)?;
    match kind {
        0 => Ok(Effect::Read(cell, value(alloc, cursor)?)),
        1 => Ok(Effect::Set(cell, value(alloc, cursor)?)),
        2 => Ok(Effect::Add(cell, signed_64(cursor)?)),
        _ => Err(Unread::Misspelled),
    }
}

#[tactic(auto, using(value_bytes::proofs::Turns::at_start, value_bytes::proofs::Turns::one_more, value_bytes::proofs::Turns::no_more, value_bytes::proofs::Turns::at_end, value_bytes::proofs::Counts::has_count, value_bytes::proofs::Counts::list_from))]
fn names(alloc: Global, cursor: &mut Cursor<'_>) -> Result<Vec<TxName>, Unread>
    ensures read { Reads (λ v. v.items) result cursor.new (spec.read_names cursor.old) }
    ensures memory { GrowsWithin result cursor.old }
{
    let count = count(cursor)?;
    let mut names = Vec::new(alloc);
    for turn in 0..count {
        let name = name(cursor)?;
        names.push(name)?;
    }
    Ok(names)
}

fn name(cursor: &mut Cursor<'_>) -> Result<TxName, Unread>
    ensures { Reads (λ t. t) result cursor.new (spec.read_name cursor.old) }
{
    let ticket = number_64(cursor)?;
    let entry = number_32(cursor)?;
    Ok(TxName { ticket, entry })
}

#[tactic(auto, using(value_bytes::proofs::Turns::at_start, value_bytes::proofs::Turns::one_more, value_bytes::proofs::Turns::no_more, value_bytes::proofs::Turns::at_end, value_bytes::proofs::Counts::has_count, value_bytes::proofs::Counts::list_from))]
fn pages(alloc: Global, cursor: &mut Cursor<'_>) -> Result<Vec<u64>, Unread>
    ensures read { Reads (λ v. v.items) result cursor.new (read_list spec.read_number cursor.old) }
    ensures memory { GrowsWithin result cursor.old }
{
    let count = count(cursor)?;
    let mut pages = Vec::new(alloc);
    for turn in 0..count {
        let page = number(cursor)?;
        pages.push(page)?;
    }
    Ok(pages)
}

// The pages that went for a page, which the newest format alone tells.
fn gone(alloc: Global, format: u8, cursor: &mut Cursor<'_>) -> Result<Vec<u64>, Unread>
    ensures { Reads (λ v. v.items) result cursor.new (read_gone format cursor.old) }
{
    if format < NEWEST {
        return Ok(Vec::new(alloc));
    }
    pages(alloc, cursor)
}

// The bytes of a page's state, which format 1 does not tell.
fn state(alloc: Global, format: u8, cursor: &mut Cursor<'_>) -> Result<Bytes, Unread>
    ensures { Reads (λ t. t) result cursor.new (read_state format cursor.old) }
{
    if format == 1 {
        return Ok(Bytes::new(Vec::new(alloc)));
    }
    copied_string(alloc, cursor)
}

fn send_kind(cursor: &mut Cursor<'_>) -> Result<SendKind, Unread>
    ensures { Reads (λ k. k) result cursor.new (spec.read_send cursor.old) }
{
    match byte(cursor)? {
        0 => Ok(SendKind::Suspend),
        1 => Ok(SendKind::Forward),
        _ => Err(Unread::Misspelled),
    }
}

// A ticket, an instance, a page or a clock.
fn number(cursor: &mut Cursor<'_>) -> Result<u64, Unread>
    ensures { Reads (λ n. n) result cursor.new (spec.read_number cursor.old) }
{
    below(cursor, NUMBERS_END)
}

// One more than a number that a record can have, or less.
fn drawn(cursor: &mut Cursor<'_>) -> Result<u64, Unread>
    ensures { Reads (λ n. n) result cursor.new (spec.read_drawn cursor.old) }
{
    below(cursor, NUMBERS_END + 1)
}

fn deadline(cursor: &mut Cursor<'_>) -> Result<u64, Unread>
    ensures { Reads (λ n. n) result cursor.new (spec.read_deadline cursor.old) }
{
    below(cursor, DEADLINES_END)
}

// A number of 64 bits below the limit.
fn below(cursor: &mut Cursor<'_>, limit: u64) -> Result<u64, Unread>
    ensures { Reads (λ n. n) result cursor.new (read_below limit cursor.old) }
{
    let number = number_64(cursor)?;
    if number < limit {
        Ok(number)
    } else {
        Err(Unread::Misspelled)
    }
}
