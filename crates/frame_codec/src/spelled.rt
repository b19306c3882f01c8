ghost use Rattle.std.specs.Prelude.{◌↔◌, IsTrue, map};
ghost use Rattle.web_cells.specs.Views.{pair_of};
ghost use Rattle.value_bytes.specs.Spelling.{FitsList};
ghost use Rattle.machine_states.specs.Views.{frame_of, suspended_of};
ghost use Rattle.frame_codec.specs.Spelling.{FrameHasBytes, ShadowHasBytes, StateHasBytes};

use machine_states::{Frame, Suspended};
use value_bytes::{has_bytes, have_bytes};
use web_cells::Shadow;

// How many there may be in a list.
const MOST: usize = u32::MAX as usize;

// Whether each number of a frame has its width and each value a spelling; the body of a page has none.
fn frame_has_bytes(frame: &Frame) -> bool
    ensures { IsTrue result ↔ FrameHasBytes (frame_of frame.now) }
{
    match frame {
        Frame::Binding { node, done } => {
            let _node = *node;
            have_bytes(done.as_slice())
        }
        Frame::Operand { node, done } => {
            let _node = *node;
            have_bytes(done.as_slice())
        }
        Frame::Body { node, bound } => {
            let _node = *node;
            *bound <= MOST
        }
        Frame::Seq { node, part } => {
            let _node = *node;
            *part <= MOST
        }
        Frame::And { node, part } => {
            let _node = *node;
            *part <= MOST
        }
        Frame::Or { node, part } => {
            let _node = *node;
            *part <= MOST
        }
        Frame::If { node, part } => {
            let _node = *node;
            *part <= u8::MAX as usize
        }
        Frame::Count { node } => {
            let _node = *node;
            true
        }
        Frame::Store { node } => {
            let _node = *node;
            true
        }
        Frame::Turn { node, turns, done } => {
            let _node = *node;
            let _turns = *turns;
            have_bytes(done.as_slice())
        }
        Frame::Isolate { node, name } => {
            let _node = *node;
            let _ticket = name.ticket;
            let _entry = name.entry;
            true
        }
        Frame::Call { node, done } => {
            let _node = *node;
            have_bytes(done.as_slice())
        }
        Frame::Task { node, part, outer } => {
            let _node = *node;
            *part <= MOST && have_bytes(outer.as_slice())
        }
        Frame::Page { .. } => false,
        Frame::Finish { .. } => false,
        Frame::Back { .. } => false,
    }
}

pub fn frames_have_bytes(frames: &[Frame]) -> bool
    ensures { IsTrue result ↔ FitsList FrameHasBytes (map frame_of frames.now) }
{
    if frames.len() > MOST {
        return false;
    }
    for frame in frames {
        if !frame_has_bytes(frame) {
            return false;
        }
    }
    true
}

fn shadow_has_bytes(shadow: &Shadow) -> bool
    ensures { IsTrue result ↔ ShadowHasBytes (pair_of shadow.now) }
{
    let _cell = shadow.cell;
    has_bytes(&shadow.value)
}

pub fn shadows_have_bytes(shadows: &[Shadow]) -> bool
    ensures { IsTrue result ↔ FitsList ShadowHasBytes (map pair_of shadows.now) }
{
    if shadows.len() > MOST {
        return false;
    }
    for shadow in shadows {
        if !shadow_has_bytes(shadow) {
            return false;
        }
    }
    true
}

/// Whether a state has a spelling: each value of it has one, no list has 2^32 items, and no frame is the body of a page. It takes
/// no memory.
#[tactic(auto, using(crate::proofs::Order::kept_order))]
pub fn is_spelled(state: &Suspended) -> bool
    ensures { IsTrue result ↔ StateHasBytes (suspended_of state.now) }
{
    have_bytes(state.env.as_slice())
        && frames_have_bytes(state.frames.as_slice())
        && shadows_have_bytes(state.shades.as_slice())
}
