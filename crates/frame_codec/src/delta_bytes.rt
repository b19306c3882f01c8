ghost use Rattle.std.specs.Prelude.{◌≡◌, ◌↔◌, IsTrue, IfOk};
ghost use Rattle.web_cells.specs.Shadows.{Rise};
ghost use Rattle.machine_states.specs.Views.{suspended_of};
ghost use Rattle.value_bytes.specs.Views.{Reads};
ghost use Rattle.frame_codec.specs.Stored.{IsStored};
ghost use Rattle.frame_codec.specs.Deltas.{DeltaHasBytes, IsSpellingOf};
ghost use Rattle.frame_codec.specs.FormViews.{ReadsDifference};
ghost use Rattle.frame_codec.specs.Parted.{delta_parts};
ghost use Rattle.frame_codec.specs.PartedViews.{parted_of};
ghost use Rattle.frame_codec.specs.Deltas as spec;
ghost use Rattle.frame_codec.specs.DeltaViews.{delta_of, parts_of_delta, IsJoined, SaysDelta, FindsDelta, MissesNoDelta, DecidesDelta};

use crate::difference::Delta;
use crate::fit::{frames_fit, shadows_fit};
use crate::joined::{delta, join};
use crate::parted::{BEHIND, Parted};
use crate::read::{read_frames, read_shadows};
use crate::shared::behind;
use crate::spelled::{frames_have_bytes, is_spelled, shadows_have_bytes};
use crate::write::{write_frames, write_shadows};
use machine_states::Suspended;
use script_nodes::Script;
use script_value::Bytes;
use std::alloc::{AllocError, Global};
use value_bytes::fields::number_32;
use value_bytes::{Unread, have_bytes, values, write_values};
use web_cells::Own;
use wire_bytes::{Cursor, Writer};

// How many there may be in a list.
const MOST: usize = u32::MAX as usize;

/// Whether a difference has a spelling: each value of it has one, and each of its lists and counts is below 2^32. It takes no memory.
pub fn is_delta_spelled(delta: &Delta) -> bool
    ensures { IsTrue result ↔ DeltaHasBytes (delta_of delta.now) }
{
    delta.env_shared <= MOST
        && have_bytes(delta.env.as_slice())
        && delta.frames_shared <= MOST
        && frames_have_bytes(delta.frames.as_slice())
        && shadows_have_bytes(delta.shadows.as_slice())
}

/// A difference that has a spelling, as a record has it, in its parts.
pub fn spell_delta(alloc: Global, delta: &Delta) -> Result<Parted, AllocError>
    requires { DeltaHasBytes (delta_of delta.now) }
    ensures { IfOk result (λ parts. parted_of parts ≡ delta_parts (delta_of delta.now)) }
{
    let mut env = Writer::new(alloc);
    env.u8(BEHIND)?;
    env.u32(delta.env_shared as u32)?;
    write_values(&mut env, delta.env.as_slice())?;
    let mut frames = Writer::new(alloc);
    frames.u32(delta.frames_shared as u32)?;
    write_frames(&mut frames, delta.frames.as_slice())?;
    let mut shadows = Writer::new(alloc);
    write_shadows(&mut shadows, delta.shadows.as_slice())?;
    Parted::of(env.finish(), &frames.finish(), &shadows.finish())
}

// What a difference is made of, as it stands at the cursor.
fn read_parts(alloc: Global, script: &Script, cursor: &mut Cursor<'_>) -> Result<Delta, Unread>
    ensures { Reads parts_of_delta result cursor.new (spec.read_delta_parts script.now cursor.old) }
{
    let env_shared = number_32(cursor)? as usize;
    let env = values(alloc, cursor)?;
    let frames_shared = number_32(cursor)? as usize;
    let frames = read_frames(alloc, script, cursor)?;
    let shadows = Own::of(read_shadows(alloc, cursor)?);
    Ok(Delta {
        env_shared,
        env,
        frames_shared,
        frames,
        shadows,
    })
}

// What these bytes say, whether a state differs so from its parent or not. No count in them is trusted.
fn read_delta(alloc: Global, script: &Script, bytes: &[u8]) -> Result<Option<Delta>, AllocError>
    ensures { IfOk result (SaysDelta script.now bytes.now) }
{
    let mut cursor = Cursor::over(bytes);
    match read_parts(alloc, script, &mut cursor) {
        Ok(delta) => {
            if cursor.at_end() {
                Ok(Some(delta))
            } else {
                Ok(None)
            }
        }
        Err(Unread::Misspelled) => Ok(None),
        Err(Unread::Memory) => Err(AllocError),
    }
}

/// Whether a state fits a script, with its bindings of web cells, and has a spelling. It takes no memory.
pub fn is_stored(script: &Script, state: &Suspended) -> bool
    ensures { IsTrue result ↔ IsStored script.now (suspended_of state.now) }
{
    if !is_spelled(state) {
        return false;
    }
    if !frames_fit(script, state.env.as_slice(), state.frames.as_slice()) {
        return false;
    }
    shadows_fit(script.web_defaults().len(), state.shades.as_slice())
}

// Whether these are the bytes of a difference.
fn has_these_bytes(alloc: Global, delta: &Delta, bytes: &[u8]) -> Result<bool, AllocError>
    ensures { IfOk result (λ same. IsTrue same ↔ IsSpellingOf bytes.now (delta_of delta.now)) }
{
    if !is_delta_spelled(delta) {
        return Ok(false);
    }
    let spelled = spell_delta(alloc, delta)?;
    Ok(behind(spelled.as_slice(), 1) == bytes)
}

// The parent's state, which stays, with what differs.
fn join_to(alloc: Global, parent: &Suspended, delta: Delta) -> Result<Suspended, AllocError>
    ensures { IfOk result (IsJoined parent.now delta) }
{
    join(alloc, parent.try_clone(alloc)?, delta)
}

// The difference that these bytes spell.
fn find_delta(
    alloc: Global,
    script: &Script,
    parent: &Suspended,
    bytes: &[u8],
) -> Result<Option<Delta>, AllocError>
    requires { Rise parent.now.shades }
    ensures { IfOk result (DecidesDelta script.now parent.now bytes.now) }
{
    let Some(said) = read_delta(alloc, script, bytes)? else {
        return Ok(None);
    };
    let state = join_to(alloc, parent, said)?;
    if !is_stored(script, &state) {
        return Ok(None);
    }
    let delta = delta(alloc, parent, &state)?;
    if has_these_bytes(alloc, &delta, bytes)? {
        Ok(Some(delta))
    } else {
        Ok(None)
    }
}

/// The difference that these bytes spell, of a state that fits the script, has a spelling and binds what its parent binds; none where no such state differs so from its parent.
///
/// A front that is told shorter than it is, or anything else that the parent has already, is no difference. What it takes of memory is what the bytes that are there and the parent's state ask for: no count in them is trusted.
pub fn decode_delta(
    alloc: Global,
    script: &Script,
    parent: &Suspended,
    bytes: &[u8],
) -> Result<Option<Delta>, AllocError>
    requires { Rise parent.now.shades }
    ensures spelled { IfOk result (FindsDelta script.now parent.now bytes.now) }
    ensures none { IfOk result (MissesNoDelta script.now parent.now bytes.now) }
    ensures read { IfOk result (ReadsDifference script.now parent.now bytes.now) }
{
    Ok(find_delta(alloc, script, parent, bytes)?)
}
