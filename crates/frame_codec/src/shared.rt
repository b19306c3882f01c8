ghost use Rattle.std.specs.Prelude.{◌≡◌, ◌↔◌, ◌≤◌, ◌++◌, IsTrue, OnOk, map, drop, take, length};
ghost use Rattle.script_value.specs.Views.{meaning};
ghost use Rattle.machine_states.specs.Views.{frame_of};
ghost use Rattle.frame_codec.specs.Deltas.{SharesFirst, StandsAt};

use machine_states::Frame;
use script_value::{Items, Value, equal};
use std::alloc::{AllocError, Global};

// Whether this value stands at this place.
fn is_value_at(values: &[Value], place: usize, value: &Value) -> bool
    ensures { IsTrue result ↔ StandsAt meaning values.now place value.now }
{
    match values.get(place) {
        Some(other) => equal(other, value),
        None => false,
    }
}

/// How many of the first values of two lists are the same.
pub fn shared_values(parent: &[Value], values: &[Value]) -> usize
    ensures within { result ≤ length values.now }
    ensures shares { SharesFirst meaning parent.now values.now result }
{
    for (place, value) in values.iter().enumerate() {
        if !is_value_at(parent, place, value) {
            return place;
        }
    }
    values.len()
}

/// Whether values are the same.
pub fn same_values(values: &Items, others: &Items) -> bool
    ensures { IsTrue result ↔ (values.now ≡ others.now) }
{
    values.len() == others.len()
        && shared_values(values.as_slice(), others.as_slice()) == others.len()
}

// Whether frames are the same.
fn same_frame(frame: &Frame, other: &Frame) -> bool
    ensures { IsTrue result ↔ (frame_of frame.now ≡ frame_of other.now) }
{
    match (frame, other) {
        (Frame::Binding { node: n, done: x }, Frame::Binding { node: m, done: y }) => {
            *n == *m && same_values(x, y)
        }
        (Frame::Operand { node: n, done: x }, Frame::Operand { node: m, done: y }) => {
            *n == *m && same_values(x, y)
        }
        (Frame::Body { node: n, bound: x }, Frame::Body { node: m, bound: y }) => {
            *n == *m && *x == *y
        }
        (Frame::Seq { node: n, part: x }, Frame::Seq { node: m, part: y }) => *n == *m && *x == *y,
        (Frame::And { node: n, part: x }, Frame::And { node: m, part: y }) => *n == *m && *x == *y,
        (Frame::Or { node: n, part: x }, Frame::Or { node: m, part: y }) => *n == *m && *x == *y,
        (Frame::If { node: n, part: x }, Frame::If { node: m, part: y }) => *n == *m && *x == *y,
        (Frame::Count { node: n }, Frame::Count { node: m }) => *n == *m,
        (Frame::Store { node: n }, Frame::Store { node: m }) => *n == *m,
        (
            Frame::Turn {
                node: n,
                turns: t,
                done: x,
            },
            Frame::Turn {
                node: m,
                turns: u,
                done: y,
            },
        ) => *n == *m && *t == *u && same_values(x, y),
        (Frame::Isolate { node: n, name: x }, Frame::Isolate { node: m, name: y }) => {
            *n == *m && x.ticket == y.ticket && x.entry == y.entry
        }
        (Frame::Call { node: n, done: x }, Frame::Call { node: m, done: y }) => {
            *n == *m && same_values(x, y)
        }
        (
            Frame::Task {
                node: n,
                part: k,
                outer: x,
            },
            Frame::Task {
                node: m,
                part: l,
                outer: y,
            },
        ) => *n == *m && *k == *l && same_values(x, y),
        (Frame::Page { node: n, kind: x }, Frame::Page { node: m, kind: y }) => {
            *n == *m && *x == *y
        }
        (Frame::Finish { node: n }, Frame::Finish { node: m }) => *n == *m,
        (Frame::Back { node: n }, Frame::Back { node: m }) => *n == *m,
        _ => false,
    }
}

// Whether this frame stands at this place.
fn is_frame_at(frames: &[Frame], place: usize, frame: &Frame) -> bool
    ensures { IsTrue result ↔ StandsAt frame_of frames.now place frame.now }
{
    match frames.get(place) {
        Some(other) => same_frame(other, frame),
        None => false,
    }
}

/// How many of the first frames of two lists are the same.
pub fn shared_frames(parent: &[Frame], frames: &[Frame]) -> usize
    ensures within { result ≤ length frames.now }
    ensures shares { SharesFirst frame_of parent.now frames.now result }
{
    for (place, frame) in frames.iter().enumerate() {
        if !is_frame_at(parent, place, frame) {
            return place;
        }
    }
    frames.len()
}

/// The first so many, or all where there are fewer.
pub fn front<T>(items: &[T], count: usize) -> &[T]
    ensures { result.now ≡ take count items.now }
{
    if count < items.len() {
        &items[..count]
    } else {
        items
    }
}

/// What stands after the first so many.
pub fn behind<T>(items: &[T], count: usize) -> &[T]
    ensures { result.now ≡ drop count items.now }
{
    if count < items.len() {
        &items[count..]
    } else {
        &[]
    }
}

/// Copies of values after those that are there. Where memory runs out, some of them may stand there.
pub fn add_values(alloc: Global, values: &mut Items, more: &[Value]) -> Result<(), AllocError>
    ensures { OnOk result (values.new ≡ values.old ++ map meaning more.now) }
{
    for value in more {
        values.push(value.try_clone(alloc)?)?;
    }
    Ok(())
}

/// Copies of frames after those that are there. Where memory runs out, some of them may stand there.
pub fn add_frames(alloc: Global, frames: &mut Vec<Frame>, more: &[Frame]) -> Result<(), AllocError>
    ensures { OnOk result (frames.new.items ≡ frames.old.items ++ more.now) }
{
    for frame in more {
        frames.push(frame.try_clone(alloc)?)?;
    }
    Ok(())
}
