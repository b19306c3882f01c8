ghost use Rattle.std.specs.Prelude.{◌≡◌, ◌+◌, ◌^◌, min, map, length};
ghost use Rattle.std.specs.List.{flat_map};
ghost use Rattle.value_bytes.specs.Spelling.{values_bytes};
ghost use Rattle.machine_states.specs.Views.{frame_of};
ghost use Rattle.frame_codec.specs.Spelling.{frame_bytes};

use machine_states::Frame;
use script_value::Items;
use value_bytes::values_length;

// The length that stands for each above it.
const MOST: u64 = 1 << 63;

// So many bytes, and after them the values that are done.
fn with_done(front: u64, done: &Items) -> u64
    ensures { result ≡ min (front + length (values_bytes done.now)) (2 ^ 63) }
{
    values_length(done.as_slice())
        .saturating_add(front)
        .min(MOST)
}

fn frame_length(frame: &Frame) -> u64
    ensures { result ≡ min (length (frame_bytes (frame_of frame.now))) (2 ^ 63) }
{
    match frame {
        Frame::Binding { done, .. } => with_done(9, done),
        Frame::Body { .. } => 13,
        Frame::Seq { .. } => 9,
        Frame::If { .. } => 6,
        Frame::And { .. } => 9,
        Frame::Or { .. } => 9,
        Frame::Operand { done, .. } => with_done(5, done),
        Frame::Count { .. } => 6,
        Frame::Turn { done, .. } => with_done(14, done),
        Frame::Store { .. } => 5,
        Frame::Isolate { .. } => 17,
        Frame::Call { done, .. } => with_done(9, done),
        Frame::Task { outer, .. } => with_done(9, outer),
        Frame::Page { .. } => 0,
        Frame::Finish { .. } => 0,
        Frame::Back { .. } => 0,
    }
}

/// How long the spellings of frames are, one after the other; one above 2^63 as 2^63. It takes no memory.
#[tactic(auto, using(crate::proofs::Order::frames_more))]
pub fn frames_length(frames: &[Frame]) -> u64
    ensures { result ≡ min (length (flat_map frame_bytes (map frame_of frames.now))) (2 ^ 63) }
{
    let mut sum: u64 = 0;
    for frame in frames {
        sum = sum.saturating_add(frame_length(frame)).min(MOST);
    }
    sum
}
