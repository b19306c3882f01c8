ghost use Rattle.std.specs.Prelude.{IfOk};
ghost use Rattle.value_bytes.specs.Reading.{read_several, read_value};
ghost use Rattle.value_bytes.specs.Views.{Reads};
ghost use Rattle.machine_states.specs.Views.{suspended_of};
ghost use Rattle.frame_codec.specs.Reading.{read_frame};
ghost use Rattle.frame_codec.specs.Views.{frames_of};
ghost use Rattle.frame_codec.specs.DeltaViews.{delta_of};
ghost use Rattle.frame_codec.specs.PartedViews.{parted_of};
ghost use Rattle.frame_codec.specs.Fronts.{Tells, read_first, read_first_frames, told_behind};
ghost use Rattle.frame_codec.specs.FrontViews.{shared_and_own, SaysFront, SaysDeltaFront};
ghost use Rattle.frame_codec.specs.Fronts as spec;

use crate::difference::Delta;
use crate::need::Need;
use crate::parted::Parted;
use crate::read::{read_frames_of, read_shadows};
use crate::state::shades_of;
use machine_states::{Frame, Suspended};
use script_nodes::Script;
use script_value::Items;
use std::alloc::{AllocError, Global};
use value_bytes::fields::number_32;
use value_bytes::{Unread, value};
use web_cells::Own;
use wire_bytes::Cursor;

// So many values, kept one by one.
#[tactic(auto, using(value_bytes::proofs::Turns::one_more, value_bytes::proofs::Turns::no_more, value_bytes::proofs::Turns::at_end))]
fn several_values(alloc: Global, cursor: &mut Cursor<'_>, count: usize) -> Result<Items, Unread>
    ensures { Reads (λ vs. vs) result cursor.new (read_several read_value count cursor.old) }
{
    let mut items = Items::new(alloc);
    for turn in 0..count {
        let item = value(alloc, cursor)?;
        items.push(item)?;
    }
    Ok(items)
}

// Of a list of values the first so many, or all where there are fewer.
fn first_values(alloc: Global, cursor: &mut Cursor<'_>, most: usize) -> Result<Items, Unread>
    ensures { Reads (λ vs. vs) result cursor.new (read_first read_value most cursor.old) }
{
    let count = number_32(cursor)? as usize;
    several_values(alloc, cursor, most.min(count))
}

// Of a list of frames the first so many, or all where there are fewer.
fn first_frames(
    alloc: Global,
    script: &Script,
    cursor: &mut Cursor<'_>,
    most: usize,
) -> Result<Vec<Frame>, Unread>
    ensures { Reads frames_of result cursor.new (read_first_frames script.now most cursor.old) }
{
    let count = number_32(cursor)? as usize;
    read_frames_of(alloc, script, cursor, most.min(count))
}

// How many of the first so many variables are shared, and what of them is not.
fn values_behind(alloc: Global, bytes: &[u8], most: usize) -> Result<(usize, Items), Unread>
    ensures { Tells (λ x. (x.0, x.1)) result (told_behind read_value most bytes.now) }
{
    let mut cursor = Cursor::over(bytes);
    let shared = number_32(&mut cursor)? as usize;
    let own = first_values(alloc, &mut cursor, most.saturating_sub(shared))?;
    Ok((most.min(shared), own))
}

// How many of the first so many frames are shared, and what of them is not.
fn frames_behind(
    alloc: Global,
    script: &Script,
    bytes: &[u8],
    most: usize,
) -> Result<(usize, Vec<Frame>), Unread>
    ensures { Tells shared_and_own result (told_behind (read_frame script.now) most bytes.now) }
{
    let mut cursor = Cursor::over(bytes);
    let shared = number_32(&mut cursor)? as usize;
    let own = first_frames(alloc, script, &mut cursor, most.saturating_sub(shared))?;
    Ok((most.min(shared), own))
}

// What the parts of a state's spelling say of a front of it.
fn state_front(
    alloc: Global,
    script: &Script,
    parts: &Parted,
    need: Need,
) -> Result<Suspended, Unread>
    ensures { Tells suspended_of result (spec.read_front script.now need (parted_of parts.now)) }
{
    let env = first_values(alloc, &mut Cursor::over(parts.env()), need.variables)?;
    let frames = first_frames(
        alloc,
        script,
        &mut Cursor::over(parts.frames()),
        need.frames,
    )?;
    let shadows = read_shadows(alloc, &mut Cursor::over(parts.shadows()))?;
    let shades = shades_of(alloc, shadows)?;
    Ok(Suspended {
        env,
        frames,
        shades,
    })
}

// What the parts of a difference's spelling say of a front.
fn delta_front(alloc: Global, script: &Script, parts: &Parted, need: Need) -> Result<Delta, Unread>
    ensures { Tells delta_of result (spec.read_delta_front script.now need (parted_of parts.now)) }
{
    let (env_shared, env) = values_behind(alloc, parts.env(), need.variables)?;
    let (frames_shared, frames) = frames_behind(alloc, script, parts.frames(), need.frames)?;
    let shadows = Own::of(read_shadows(alloc, &mut Cursor::over(parts.shadows()))?);
    Ok(Delta {
        env_shared,
        env,
        frames_shared,
        frames,
        shadows,
    })
}

/// What these bytes say of a front of a state, whether it fits the script or not: enough for bytes that `spell_state` gave of a
/// state of the script. What is not needed of its variables and frames is not read.
///
/// No count in the bytes is trusted.
pub fn read_front(
    alloc: Global,
    script: &Script,
    parts: &Parted,
    need: Need,
) -> Result<Option<Suspended>, AllocError>
    ensures { IfOk result (SaysFront script.now need parts.now) }
{
    match state_front(alloc, script, parts, need) {
        Ok(state) => Ok(Some(state)),
        Err(Unread::Misspelled) => Ok(None),
        Err(Unread::Memory) => Err(AllocError),
    }
}

/// What these bytes say of a front of a difference, whether a state differs so from its parent or not: enough for bytes that
/// `spell_delta` gave. What is not needed of its variables and frames is not read.
///
/// No count in the bytes is trusted. Bytes from elsewhere are read by `decode_delta`.
pub fn read_delta_front(
    alloc: Global,
    script: &Script,
    parts: &Parted,
    need: Need,
) -> Result<Option<Delta>, AllocError>
    ensures { IfOk result (SaysDeltaFront script.now need parts.now) }
{
    match delta_front(alloc, script, parts, need) {
        Ok(delta) => Ok(Some(delta)),
        Err(Unread::Misspelled) => Ok(None),
        Err(Unread::Memory) => Err(AllocError),
    }
}
