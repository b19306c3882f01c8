ghost use Rattle.std.specs.Prelude.{◌≡◌, option_map};
ghost use Rattle.web_cells.specs.Views.{pair_of};
ghost use Rattle.value_bytes.specs.Views.{Reads, GrowsWithin};
ghost use Rattle.machine_states.specs.Views.{frame_of};
ghost use Rattle.frame_codec.specs.Reading as spec;
ghost use Rattle.frame_codec.specs.Views.{frames_of, shadows_of, parts_of};

use crate::fit::{bindings_of, operands_of};
use machine_states::Frame;
use script_nodes::Script;
use script_value::{Items, TxName};
use std::alloc::Global;
use value_bytes::fields::{byte, count, number_32, number_64};
use value_bytes::{Unread, value, values};
use web_cells::Shadow;
use wire_bytes::Cursor;

/// The variables of a state, its frames, the outermost first, and its bindings of web cells, the first first.
#[derive(Drop)]
pub struct Parts {
    pub env: Items,
    pub frames: Vec<Frame>,
    pub shadows: Vec<Shadow>,
}

// The frame of a Let of so many bindings.
#[tactic(auto, using(crate::proofs::Lets::a_body, crate::proofs::Lets::no_body))]
fn let_frame(bindings: usize, node: u32, part: u32, done: Items) -> Option<Frame>
    ensures { option_map frame_of result ≡ spec.let_frame bindings node part done }
{
    if part as usize == bindings {
        if done.is_empty() {
            Some(Frame::Body {
                node,
                bound: part as usize,
            })
        } else {
            None
        }
    } else if part as usize == done.len() {
        Some(Frame::Binding { node, done })
    } else {
        None
    }
}

fn read_let(alloc: Global, script: &Script, cursor: &mut Cursor<'_>) -> Result<Frame, Unread>
    ensures { Reads frame_of result cursor.new (spec.read_let script.now cursor.old) }
{
    let node = number_32(cursor)?;
    let part = number_32(cursor)?;
    let done = values(alloc, cursor)?;
    match let_frame(bindings_of(script, node), node, part, done) {
        Some(frame) => Ok(frame),
        None => Err(Unread::Misspelled),
    }
}

// The frame of a call of so many operands.
fn call_frame(operands: usize, node: u32, part: u32, values: Items) -> Option<Frame>
    ensures { option_map frame_of result ≡ spec.call_frame operands node part values }
{
    if part as usize == operands {
        Some(Frame::Task {
            node,
            part: part as usize,
            outer: values,
        })
    } else if part as usize == values.len() {
        Some(Frame::Call { node, done: values })
    } else {
        None
    }
}

fn read_call(alloc: Global, script: &Script, cursor: &mut Cursor<'_>) -> Result<Frame, Unread>
    ensures { Reads frame_of result cursor.new (spec.read_call script.now cursor.old) }
{
    let node = number_32(cursor)?;
    let part = number_32(cursor)?;
    let values = values(alloc, cursor)?;
    match call_frame(operands_of(script, node), node, part, values) {
        Some(frame) => Ok(frame),
        None => Err(Unread::Misspelled),
    }
}

// A For's turn or its count.
fn read_for(alloc: Global, cursor: &mut Cursor<'_>) -> Result<Frame, Unread>
    ensures { Reads frame_of result cursor.new (spec.read_for cursor.old) }
{
    let node = number_32(cursor)?;
    match byte(cursor)? {
        0 => Ok(Frame::Count { node }),
        1 => {
            let turns = number_64(cursor)?;
            let done = values(alloc, cursor)?;
            Ok(Frame::Turn { node, turns, done })
        }
        _ => Err(Unread::Misspelled),
    }
}

fn read_isolate(cursor: &mut Cursor<'_>) -> Result<Frame, Unread>
    ensures { Reads frame_of result cursor.new (spec.read_isolate cursor.old) }
{
    let node = number_32(cursor)?;
    let ticket = number_64(cursor)?;
    let entry = number_32(cursor)?;
    Ok(Frame::Isolate {
        node,
        name: TxName { ticket, entry },
    })
}

// A frame. Its node is not looked for, unless it is a Let or a call.
fn read_frame(alloc: Global, script: &Script, cursor: &mut Cursor<'_>) -> Result<Frame, Unread>
    ensures { Reads frame_of result cursor.new (spec.read_frame script.now cursor.old) }
{
    match byte(cursor)? {
        1 => read_let(alloc, script, cursor),
        2 => Ok(Frame::Seq {
            node: number_32(cursor)?,
            part: number_32(cursor)? as usize,
        }),
        3 => Ok(Frame::If {
            node: number_32(cursor)?,
            part: byte(cursor)? as usize,
        }),
        4 => Ok(Frame::And {
            node: number_32(cursor)?,
            part: number_32(cursor)? as usize,
        }),
        5 => Ok(Frame::Or {
            node: number_32(cursor)?,
            part: number_32(cursor)? as usize,
        }),
        6 => Ok(Frame::Operand {
            node: number_32(cursor)?,
            done: values(alloc, cursor)?,
        }),
        7 => read_for(alloc, cursor),
        8 => Ok(Frame::Store {
            node: number_32(cursor)?,
        }),
        9 => read_isolate(cursor),
        10 => read_call(alloc, script, cursor),
        _ => Err(Unread::Misspelled),
    }
}

// So many frames. They are kept one by one, so that no count is trusted.
#[tactic(auto, using(value_bytes::proofs::Turns::one_more, value_bytes::proofs::Turns::no_more, value_bytes::proofs::Turns::at_end))]
pub fn read_frames_of(
    alloc: Global,
    script: &Script,
    cursor: &mut Cursor<'_>,
    count: usize,
) -> Result<Vec<Frame>, Unread>
    ensures { Reads frames_of result cursor.new (spec.read_frames_of script.now count cursor.old) }
{
    let mut frames = Vec::new(alloc);
    for turn in 0..count {
        let frame = read_frame(alloc, script, cursor)?;
        frames.push(frame)?;
    }
    Ok(frames)
}

// A list of frames.
#[tactic(auto, using(value_bytes::proofs::Counts::has_count, value_bytes::proofs::Counts::list_from))]
pub fn read_frames(
    alloc: Global,
    script: &Script,
    cursor: &mut Cursor<'_>,
) -> Result<Vec<Frame>, Unread>
    ensures read { Reads frames_of result cursor.new (spec.read_frames script.now cursor.old) }
    ensures memory { GrowsWithin result cursor.old }
{
    let count = count(cursor)?;
    read_frames_of(alloc, script, cursor, count as usize)
}

fn read_shadow(alloc: Global, cursor: &mut Cursor<'_>) -> Result<Shadow, Unread>
    ensures { Reads pair_of result cursor.new (spec.read_shadow cursor.old) }
{
    let cell = byte(cursor)?;
    let value = value(alloc, cursor)?;
    Ok(Shadow { cell, value })
}

// A list of bindings. They are kept one by one, and no count is trusted.
#[tactic(auto, using(value_bytes::proofs::Turns::one_more, value_bytes::proofs::Turns::no_more, value_bytes::proofs::Turns::at_end, value_bytes::proofs::Counts::has_count, value_bytes::proofs::Counts::list_from))]
pub fn read_shadows(alloc: Global, cursor: &mut Cursor<'_>) -> Result<Vec<Shadow>, Unread>
    ensures read { Reads shadows_of result cursor.new (spec.read_shadows cursor.old) }
    ensures memory { GrowsWithin result cursor.old }
{
    let count = count(cursor)?;
    let mut shadows = Vec::new(alloc);
    for turn in 0..count {
        let shadow = read_shadow(alloc, cursor)?;
        shadows.push(shadow)?;
    }
    Ok(shadows)
}

/// What a state is made of, whether it fits the script or not.
pub fn read_parts(alloc: Global, script: &Script, cursor: &mut Cursor<'_>) -> Result<Parts, Unread>
    ensures { Reads parts_of result cursor.new (spec.read_parts script.now cursor.old) }
{
    let env = values(alloc, cursor)?;
    let frames = read_frames(alloc, script, cursor)?;
    let shadows = read_shadows(alloc, cursor)?;
    Ok(Parts {
        env,
        frames,
        shadows,
    })
}
