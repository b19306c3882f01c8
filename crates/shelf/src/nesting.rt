ghost use Rattle.std.specs.Prelude.{◌≡◌, map};
ghost use Rattle.std.specs.List.{list_all};
ghost use Rattle.script_value.specs.Views.{meaning};
ghost use Rattle.web_cells.specs.Views.{pair_of};
ghost use Rattle.machine_states.specs.Views.{frame_of, suspended_of};
ghost use Rattle.journal_records.specs.Fields.{is_shallow};
ghost use Rattle.book_recovery.specs.JournalSpec.Lengths.{is_shallow_frame, is_shallow_state};
ghost use Rattle.shelf.specs.Recording.{is_shallow_shadow};

use machine_states::{Frame, Suspended};
use script_value::{Value, depth};
use value_bytes::MOST_LEVELS;
use web_cells::Shadow;

fn is_shallow(value: &Value) -> bool
    ensures { result ≡ is_shallow (meaning value.now) }
{
    depth(value) <= MOST_LEVELS
}

fn values_nest_shallow(values: &[Value]) -> bool
    ensures { result ≡ list_all is_shallow (map meaning values.now) }
{
    for value in values {
        if !is_shallow(value) {
            return false;
        }
    }
    true
}

fn frame_nests_shallow(frame: &Frame) -> bool
    ensures { result ≡ is_shallow_frame (frame_of frame.now) }
{
    match frame {
        Frame::Binding { done, .. } => values_nest_shallow(done.as_slice()),
        Frame::Operand { done, .. } => values_nest_shallow(done.as_slice()),
        Frame::Turn { done, .. } => values_nest_shallow(done.as_slice()),
        Frame::Call { done, .. } => values_nest_shallow(done.as_slice()),
        Frame::Task { outer, .. } => values_nest_shallow(outer.as_slice()),
        _ => true,
    }
}

fn frames_nest_shallow(frames: &[Frame]) -> bool
    ensures { result ≡ list_all is_shallow_frame (map frame_of frames.now) }
{
    for frame in frames {
        if !frame_nests_shallow(frame) {
            return false;
        }
    }
    true
}

fn shadow_nests_shallow(shadow: &Shadow) -> bool
    ensures { result ≡ is_shallow_shadow (pair_of shadow.now) }
{
    is_shallow(&shadow.value)
}

fn shadows_nest_shallow(shadows: &[Shadow]) -> bool
    ensures { result ≡ list_all is_shallow_shadow (map pair_of shadows.now) }
{
    for shadow in shadows {
        if !shadow_nests_shallow(shadow) {
            return false;
        }
    }
    true
}

/// Whether the values of a state nest no deeper than one may that is written. It takes no memory.
#[tactic(auto, using(crate::proofs::Shallow::frames_shallow))]
pub fn nests_shallow(state: &Suspended) -> bool
    ensures { result ≡ is_shallow_state (suspended_of state.now) }
{
    values_nest_shallow(state.env.as_slice())
        && frames_nest_shallow(state.frames.as_slice())
        && shadows_nest_shallow(state.shades.as_slice())
}
