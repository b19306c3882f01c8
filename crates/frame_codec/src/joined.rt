ghost use Rattle.std.specs.Prelude.{◌≡◌, IfOk, take};
ghost use Rattle.web_cells.specs.Shadows.{all_bound};
ghost use Rattle.frame_codec.specs.DeltaViews.{Differs, IsComputed, JoinsBack, IsJoined};
ghost use Rattle.frame_codec.specs.FrontViews.{IsFrontOf};

use crate::difference::Delta;
use crate::need::Need;
use crate::shared::{add_frames, add_values, front, shared_frames, shared_values};
use machine_states::{Frame, Suspended};
use script_value::Items;
use std::alloc::{AllocError, Global};
use web_cells::{Own, Shades};

// What differs between a state and its parent's.
fn difference(alloc: Global, parent: &Suspended, state: &Suspended) -> Result<Delta, AllocError>
    ensures { IfOk result (Differs parent.now state.now) }
{
    let variables = state.env.as_slice();
    let env_shared = shared_values(parent.env.as_slice(), variables);
    let mut env = Items::new(alloc);
    add_values(alloc, &mut env, &variables[env_shared..])?;
    let all = state.frames.as_slice();
    let frames_shared = shared_frames(parent.frames.as_slice(), all);
    let mut frames = Vec::new(alloc);
    add_frames(alloc, &mut frames, &all[frames_shared..])?;
    let shadows = state.shades.own(alloc, &parent.shades)?;
    Ok(Delta {
        env_shared,
        env,
        frames_shared,
        frames,
        shadows,
    })
}

/// What differs between a state and its parent's: the longest front that they share is left out.
///
/// With it the parent's state is the state again, where the web cells of both rise and this binds each that its parent binds.
pub fn delta(alloc: Global, parent: &Suspended, state: &Suspended) -> Result<Delta, AllocError>
    ensures delta { IfOk result (Differs parent.now state.now) }
    ensures computed { IfOk result (IsComputed parent.now state.now) }
    ensures back { IfOk result (JoinsBack parent.now state.now) }
{
    Ok(difference(alloc, parent, state)?)
}

// The first variables of a state, or all where there are fewer.
fn front_values(alloc: Global, values: &Items, count: usize) -> Result<Items, AllocError>
    ensures { IfOk result (λ copies. copies ≡ take count values.now) }
{
    let mut copies = Items::new(alloc);
    add_values(alloc, &mut copies, front(values.as_slice(), count))?;
    Ok(copies)
}

// The first frames of a state, or all where there are fewer.
fn front_frames(alloc: Global, frames: &[Frame], count: usize) -> Result<Vec<Frame>, AllocError>
    ensures { IfOk result (λ copies. copies.items ≡ take count frames.now) }
{
    let mut copies = Vec::new(alloc);
    add_frames(alloc, &mut copies, front(frames, count))?;
    Ok(copies)
}

/// A copy of a front of a state.
pub fn copied_front(alloc: Global, state: &Suspended, need: Need) -> Result<Suspended, AllocError>
    ensures { IfOk result (IsFrontOf need state.now) }
{
    Ok(Suspended {
        env: front_values(alloc, &state.env, need.variables)?,
        frames: front_frames(alloc, state.frames.as_slice(), need.frames)?,
        shades: state.shades.try_clone(alloc)?,
    })
}

// Bindings with a page's own in their place.
#[tactic(auto, using(web_cells::proofs::Owned::with_one))]
fn bound_with(alloc: Global, mut shades: Shades, own: &Own) -> Result<Shades, AllocError>
    ensures { IfOk result (λ made. made ≡ all_bound own.now shades) }
{
    for shadow in own.as_slice() {
        shades.shadow(shadow.cell, shadow.value.try_clone(alloc)?)?;
    }
    Ok(shades)
}

/// The parent's state, or a front of it that has what is shared, with what differs.
pub fn join(alloc: Global, parent: Suspended, delta: Delta) -> Result<Suspended, AllocError>
    ensures { IfOk result (IsJoined parent delta) }
{
    let mut env = parent.env;
    env.truncate(delta.env_shared);
    env.append(delta.env)?;
    let mut frames = parent.frames;
    frames.truncate(delta.frames_shared);
    let mut own = delta.frames;
    frames.append(&mut own)?;
    let shades = bound_with(alloc, parent.shades, &delta.shadows)?;
    Ok(Suspended {
        env,
        frames,
        shades,
    })
}
