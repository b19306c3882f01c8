// The body of a record and how long it is: each field is written here, and beside it counted.
ghost use Rattle.std.specs.Prelude.{◌≡◌, ◌++◌, ◌<◌, ◌^◌, ◌+◌, map, IfOk, OnOk, length, min};
ghost use Rattle.std.specs.List.{AllByRecursion};
ghost use Rattle.instance_cells.specs.Views.{effect_of};
ghost use Rattle.script_nodes.specs.Views.{scripts_of, named_of};
ghost use Rattle.wire_bytes.specs.Spelling.{u64_bytes, byte_string};
ghost use Rattle.value_bytes.specs.Spelling.{FitsList, list_bytes, value_bytes};
ghost use Rattle.journal_records.specs.Fields.{effect_bytes, EffectFits, name_bytes, NameFits, script_bytes, ScriptFits, origin_bytes, OriginFits, send_byte, nothing};
ghost use Rattle.journal_records.specs.Records.{body_of, texts_of, each_text, FitFrom, WritesPlace, IsInGrammar, effects_bytes, names_bytes, PageFits, EndingFits, FinishFits, text_of, ending_bytes, finish_bytes, has_state, IfChanges, IfChangesWith, IsRecordLength, IsTextLength, PartsFit};
ghost use Rattle.journal_records.specs.Views.{origin_of, setup_bytes, lent_bytes, page_of, ending_of, finish_of, recorded_of, page_body, ended_body, finish_body};
ghost use Rattle.journal_records.specs.Records as spec;

use crate::nesting::nests_shallow;
use crate::records::{EndedRecord, FinishRecord, Origin, PageRecord, Recorded};
use instance_cells::Effect;
use script_nodes::{NamedScript, SendKind, Setup};
use script_value::{Bytes, TxName};
use std::alloc::{AllocError, Global};
use value_bytes::{value_length, write_value};
use wire_bytes::Writer;

// The length that stands for each above it.
const MOST: u64 = 1 << 63;

// Room that most records need no more of.
const ROOM: usize = 256;

/// The body of a record.
pub fn encode(alloc: Global, record: &Recorded<'_>) -> Result<Bytes, AllocError>
    requires { IsInGrammar (recorded_of record.now) }
    ensures { IfOk result (λ body. body ≡ body_of (recorded_of record.now)) }
{
    let mut writer = Writer::with_capacity(alloc, ROOM)?;
    write_record(&mut writer, record)?;
    Ok(writer.finish())
}

/// How long the body of a record is, in bytes; one above 2^63 as 2^63. It takes no memory.
///
/// A part that is too long for its count is counted all the same.
pub fn body_length(record: &Recorded<'_>) -> u64
    ensures { result ≡ spec.body_length (recorded_of record.now) }
{
    match record {
        Recorded::Begin { setup, .. } => plus(5, scripts_length(setup)),
        Recorded::Page { page, state } => page_length(page, *state),
        Recorded::Ended(ended) => ended_length(ended),
        Recorded::Finish(finish) => finish_length(finish),
        Recorded::Sweep { .. } => 9,
        Recorded::Texts { setup } => plus(1, scripts_length(setup)),
        Recorded::Drawn { .. } => 9,
        Recorded::Follow => 1,
        Recorded::Promoted => 1,
    }
}

/// How long the body of a change's record is, in bytes; 2^63 where a value of it nests deeper than one may that is written, or
/// where the state of its page has no spelling, since it has no body then, and one above 2^63 as 2^63. It takes no memory.
pub fn record_length(record: &Recorded<'_>) -> u64
    ensures length { IsRecordLength (recorded_of record.now) result }
    ensures parts { result < 2 ^ 63 → IfChanges (recorded_of record.now) PartsFit }
{
    if nests_shallow(record) && has_its_state(record) {
        body_length(record)
    } else {
        MOST
    }
}

// Whether a page has the bytes of its state.
fn has_its_state(record: &Recorded<'_>) -> bool
    ensures { IfChangesWith (recorded_of record.now) (λ c state. result ≡ has_state c state) }
{
    match record {
        Recorded::Page { state, .. } => state.is_some(),
        Recorded::Begin { .. } => true,
        Recorded::Ended(_) => true,
        Recorded::Finish(_) => true,
        Recorded::Sweep { .. } => true,
        Recorded::Texts { .. } => true,
        Recorded::Drawn { .. } => true,
        Recorded::Follow => true,
        Recorded::Promoted => true,
    }
}

fn write_record(writer: &mut Writer, record: &Recorded<'_>) -> Result<(), AllocError>
    requires { IsInGrammar (recorded_of record.now) }
    ensures { OnOk result (writer.new ≡ writer.old ++ body_of (recorded_of record.now)) }
{
    match record {
        Recorded::Begin { shelf, setup } => {
            writer.u8(1)?;
            writer.u32(*shelf)?;
            write_setup(writer, setup)
        }
        Recorded::Page { page, state } => write_page(writer, page, *state),
        Recorded::Ended(ended) => write_ended(writer, ended),
        Recorded::Finish(finish) => write_finish(writer, finish),
        Recorded::Sweep { clock } => {
            writer.u8(5)?;
            writer.u64(*clock)
        }
        Recorded::Texts { setup } => {
            writer.u8(6)?;
            write_setup(writer, setup)
        }
        Recorded::Drawn { number } => {
            writer.u8(7)?;
            writer.u64(*number)
        }
        Recorded::Follow => writer.u8(8),
        Recorded::Promoted => writer.u8(9),
    }
}

// The names and the texts of a setup, after their count.
fn write_setup(writer: &mut Writer, setup: &Setup) -> Result<(), AllocError>
    requires { FitsList ScriptFits (texts_of (scripts_of setup.now)) }
    ensures { OnOk result (writer.new ≡ writer.old ++ setup_bytes (scripts_of setup.now)) }
{
    writer.u32(setup.len() as u32)?;
    write_scripts(writer, setup)
}

// The names and the texts of a setup, after their count.
#[tactic(auto, using(crate::proofs::Sizes::text_more))]
fn scripts_length(setup: &Setup) -> u64
    ensures { result ≡ min (length (setup_bytes (scripts_of setup.now))) (2 ^ 63) }
{
    let mut sum: u64 = 4;
    for place in 0..setup.len() {
        sum = plus(sum, place_length(setup, place));
    }
    sum
}

// The scripts of a setup, one after the other.
fn write_scripts(writer: &mut Writer, setup: &Setup) -> Result<(), AllocError>
    requires { AllByRecursion ScriptFits (texts_of (scripts_of setup.now)) }
    ensures { OnOk result (writer.new ≡ writer.old ++ each_text (scripts_of setup.now)) }
{
    for place in 0..setup.len() {
        write_place(writer, setup, place)?;
    }
    Ok(())
}

// The script of a place, in front of those after it.
fn write_place(writer: &mut Writer, setup: &Setup, place: usize) -> Result<(), AllocError>
    requires within { place < length (scripts_of setup.now) }
    requires fit { FitFrom place (scripts_of setup.now) }
    ensures { OnOk result (WritesPlace (scripts_of setup.now) place writer.old writer.new) }
{
    match setup.get(place) {
        Some(named) => write_script(writer, named.name.as_bytes(), named.text.as_slice()),
        None => unreachable!(),
    }
}

fn place_length(setup: &Setup, place: usize) -> u64
    requires { place < length (scripts_of setup.now) }
    ensures { IsTextLength (scripts_of setup.now) place result }
{
    match setup.get(place) {
        Some(named) => script_length(named),
        None => unreachable!(),
    }
}

fn write_script(writer: &mut Writer, name: &[u8], text: &[u8]) -> Result<(), AllocError>
    requires { ScriptFits (name.now, text.now) }
    ensures { OnOk result (writer.new ≡ writer.old ++ script_bytes (name.now, text.now)) }
{
    writer.bytes(name)?;
    writer.bytes(text)
}

fn script_length(named: &NamedScript) -> u64
    ensures { result ≡ min (length (script_bytes (text_of (named_of named.now)))) (2 ^ 63) }
{
    plus(
        string_length(named.name.as_bytes().len()),
        string_length(named.text.len()),
    )
}

// The bytes of a page's state, if it has any.
fn state_bytes(state: Option<&[u8]>) -> &[u8]
    ensures { result.now ≡ lent_bytes state.entry }
{
    match state {
        Some(bytes) => bytes,
        None => &[],
    }
}

fn state_length(state: Option<&[u8]>) -> u64
    ensures { result ≡ min (length (byte_string (lent_bytes state.entry))) (2 ^ 63) }
{
    match state {
        Some(bytes) => string_length(bytes.len()),
        None => 4,
    }
}

fn write_page(
    writer: &mut Writer,
    page: &PageRecord,
    state: Option<&[u8]>,
) -> Result<(), AllocError>
    requires { PageFits (page_of page.now (lent_bytes state)) }
    ensures { OnOk result (writer.new ≡ writer.old ++ page_body page.now (lent_bytes state.entry)) }
{
    writer.u8(2)?;
    writer.u64(page.ticket)?;
    writer.u64(page.nonce)?;
    write_origin(writer, &page.origin)?;
    write_effects(writer, &page.effects)?;
    write_names(writer, &page.left)?;
    writer.u8(send_number(page.kind))?;
    writer.u64(page.deadline)?;
    write_numbers(writer, &page.evicted)?;
    writer.bytes(state_bytes(state))
}

#[tactic(auto, using(crate::proofs::Sizes::page_length))]
fn page_length(page: &PageRecord, state: Option<&[u8]>) -> u64
    ensures { result ≡ min (length (page_body page.now (lent_bytes state.entry))) (2 ^ 63) }
{
    let origin = origin_length(&page.origin);
    let done = plus(effects_length(&page.effects), names_length(&page.left));
    let last = plus(numbers_length(&page.evicted), state_length(state));
    plus(26, plus(origin, plus(done, last)))
}

fn write_ended(writer: &mut Writer, ended: &EndedRecord) -> Result<(), AllocError>
    requires { EndingFits (ending_of ended.now) }
    ensures { OnOk result (writer.new ≡ writer.old ++ ended_body ended.now) }
{
    writer.u8(3)?;
    writer.u64(ended.ticket)?;
    writer.u64(ended.instance)?;
    writer.u64(ended.page)?;
    write_value(writer, &ended.answer)?;
    write_effects(writer, &ended.effects)?;
    write_names(writer, &ended.left)
}

#[tactic(auto, using(crate::proofs::Sizes::ending_length))]
fn ended_length(ended: &EndedRecord) -> u64
    ensures { result ≡ min (1 + length (ending_bytes (ending_of ended.now))) (2 ^ 63) }
{
    let answer = value_length(&ended.answer);
    let done = plus(effects_length(&ended.effects), names_length(&ended.left));
    plus(25, plus(answer, done))
}

fn write_finish(writer: &mut Writer, finish: &FinishRecord) -> Result<(), AllocError>
    requires { FinishFits (finish_of finish.now) }
    ensures { OnOk result (writer.new ≡ writer.old ++ finish_body finish.now) }
{
    writer.u8(4)?;
    writer.u64(finish.ticket)?;
    writer.u64(finish.instance)?;
    writer.u64(finish.page)?;
    write_value(writer, &finish.answer)?;
    write_effects(writer, &finish.effects)
}

#[tactic(auto, using(crate::proofs::Sizes::finish_length))]
fn finish_length(finish: &FinishRecord) -> u64
    ensures { result ≡ min (1 + length (finish_bytes (finish_of finish.now))) (2 ^ 63) }
{
    let answer = value_length(&finish.answer);
    let done = effects_length(&finish.effects);
    plus(25, plus(answer, done))
}

fn write_origin(writer: &mut Writer, origin: &Origin) -> Result<(), AllocError>
    requires { OriginFits (origin_of origin.now) }
    ensures { OnOk result (writer.new ≡ writer.old ++ origin_bytes (origin_of origin.now)) }
{
    match origin {
        Origin::Start { script } => {
            writer.u8(0)?;
            writer.u8(*script)?;
            write_nothing(writer)
        }
        Origin::Answer {
            instance,
            page,
            answer,
        } => {
            writer.u8(1)?;
            writer.u64(*instance)?;
            writer.u64(*page)?;
            write_value(writer, answer)
        }
    }
}

fn origin_length(origin: &Origin) -> u64
    ensures { result ≡ min (length (origin_bytes (origin_of origin.now))) (2 ^ 63) }
{
    match origin {
        Origin::Start { .. } => 7,
        Origin::Answer { answer, .. } => plus(17, value_length(answer)),
    }
}

// The empty list.
fn write_nothing(writer: &mut Writer) -> Result<(), AllocError>
    ensures { OnOk result (writer.new ≡ writer.old ++ value_bytes nothing) }
{
    writer.u8(5)?;
    writer.u32(0)
}

fn write_effects(writer: &mut Writer, effects: &[Effect]) -> Result<(), AllocError>
    requires { FitsList EffectFits (map effect_of effects.now) }
    ensures { OnOk result (writer.new ≡ writer.old ++ effects_bytes (map effect_of effects.now)) }
{
    writer.u32(effects.len() as u32)?;
    for effect in effects {
        write_effect(writer, effect)?;
    }
    Ok(())
}

#[tactic(auto, using(crate::proofs::Sizes::effects_more))]
fn effects_length(effects: &[Effect]) -> u64
    ensures { result ≡ min (length (effects_bytes (map effect_of effects.now))) (2 ^ 63) }
{
    let mut sum: u64 = 4;
    for effect in effects {
        sum = plus(sum, effect_length(effect));
    }
    sum
}

fn write_effect(writer: &mut Writer, effect: &Effect) -> Result<(), AllocError>
    requires { EffectFits (effect_of effect.now) }
    ensures { OnOk result (writer.new ≡ writer.old ++ effect_bytes (effect_of effect.now)) }
{
    match effect {
        Effect::Read(cell, value) => {
            writer.u8(0)?;
            writer.u8(*cell)?;
            write_value(writer, value)
        }
        Effect::Set(cell, value) => {
            writer.u8(1)?;
            writer.u8(*cell)?;
            write_value(writer, value)
        }
        Effect::Add(cell, number) => {
            writer.u8(2)?;
            writer.u8(*cell)?;
            writer.u64(number.cast_unsigned())
        }
    }
}

fn effect_length(effect: &Effect) -> u64
    ensures { result ≡ min (length (effect_bytes (effect_of effect.now))) (2 ^ 63) }
{
    match effect {
        Effect::Read(_, value) => plus(2, value_length(value)),
        Effect::Set(_, value) => plus(2, value_length(value)),
        Effect::Add(_, _) => 10,
    }
}

fn write_names(writer: &mut Writer, names: &[TxName]) -> Result<(), AllocError>
    requires { FitsList NameFits names.now }
    ensures { OnOk result (writer.new ≡ writer.old ++ names_bytes names.now) }
{
    writer.u32(names.len() as u32)?;
    for name in names {
        write_name(writer, name)?;
    }
    Ok(())
}

#[tactic(auto, using(crate::proofs::Sizes::names_length))]
fn names_length(names: &[TxName]) -> u64
    ensures { result ≡ min (length (names_bytes names.now)) (2 ^ 63) }
{
    plus(4, (names.len() as u64).saturating_mul(12))
}

fn write_name(writer: &mut Writer, name: &TxName) -> Result<(), AllocError>
    ensures { OnOk result (writer.new ≡ writer.old ++ name_bytes name.now) }
{
    writer.u64(name.ticket)?;
    writer.u32(name.entry)
}

// The numbers of pages.
fn write_numbers(writer: &mut Writer, numbers: &[u64]) -> Result<(), AllocError>
    requires { length numbers.now < 2 ^ 32 }
    ensures { OnOk result (writer.new ≡ writer.old ++ list_bytes u64_bytes numbers.now) }
{
    writer.u32(numbers.len() as u32)?;
    for number in numbers {
        writer.u64(*number)?;
    }
    Ok(())
}

#[tactic(auto, using(crate::proofs::Sizes::numbers_length))]
fn numbers_length(numbers: &[u64]) -> u64
    ensures { result ≡ min (length (list_bytes u64_bytes numbers.now)) (2 ^ 63) }
{
    plus(4, (numbers.len() as u64).saturating_mul(8))
}

fn send_number(kind: SendKind) -> u8
    ensures { result ≡ send_byte kind }
{
    match kind {
        SendKind::Suspend => 0,
        SendKind::Forward => 1,
    }
}

// A byte string of so many bytes.
fn string_length(bytes: usize) -> u64
    ensures { result ≡ min (4 + bytes) (2 ^ 63) }
{
    plus(4, bytes as u64)
}

// A sum; one above 2^63 as 2^63.
fn plus(left: u64, right: u64) -> u64
    ensures { result ≡ min (left + right) (2 ^ 63) }
{
    left.saturating_add(right).min(MOST)
}
