ghost use Rattle.std.specs.Prelude.{◌≡◌, ◌++◌, ◌∷◌, ◌<◌, ◌^◌, OnOk, IfOk, map};
ghost use Rattle.std.specs.List.{AllByRecursion};
ghost use Rattle.script_value.specs.Views.{meaning};
ghost use Rattle.web_cells.specs.Views.{pair_of};
ghost use Rattle.wire_bytes.specs.Spelling.{u32_bytes};
ghost use Rattle.value_bytes.specs.Spelling.{HaveBytes, FitsList};
ghost use Rattle.machine_states.specs.Machine.{in_binding, in_operand, in_turn, in_isolate, in_call, in_task};
ghost use Rattle.machine_states.specs.Views.{frame_of, suspended_of};
ghost use Rattle.frame_codec.specs.Spelling.{frame_bytes, part_bytes, shadow_bytes, state_bytes, FrameHasBytes, ShadowHasBytes, StateHasBytes};
ghost use Rattle.frame_codec.specs.Parted.{state_parts};
ghost use Rattle.frame_codec.specs.PartedViews.{parted_of};
ghost use Rattle.frame_codec.specs.Views.{let_with, call_with, each_frame, frames_bytes, each_shadow, shadows_bytes};

use crate::parted::{ALONE, Parted};
use machine_states::{Frame, Suspended};
use script_value::{Bytes, Items, TxName, Value};
use std::alloc::{AllocError, Global};
use value_bytes::{write_value, write_values};
use web_cells::Shadow;
use wire_bytes::Writer;

// A kind and a node.
fn write_node(writer: &mut Writer, kind: u8, node: u32) -> Result<(), AllocError>
    ensures { OnOk result (writer.new ≡ writer.old ++ kind ∷ u32_bytes node) }
{
    writer.u8(kind)?;
    writer.u32(node)
}

// A kind, a node and one of its parts.
fn write_part(writer: &mut Writer, kind: u8, node: u32, part: usize) -> Result<(), AllocError>
    requires { part < 2 ^ 32 }
    ensures { OnOk result (writer.new ≡ writer.old ++ kind ∷ part_bytes node part) }
{
    write_node(writer, kind, node)?;
    writer.u32(part as u32)
}

// A part of a Let, after the values of the bindings that are done.
fn write_let(writer: &mut Writer, node: u32, part: usize, done: &[Value]) -> Result<(), AllocError>
    requires part { part < 2 ^ 32 }
    requires done { HaveBytes (map meaning done.now) }
    ensures { OnOk result (writer.new ≡ writer.old ++ let_with node part done.now) }
{
    write_part(writer, 1, node, part)?;
    write_values(writer, done)
}

fn write_binding(writer: &mut Writer, node: u32, done: &Items) -> Result<(), AllocError>
    requires { HaveBytes done.now }
    ensures { OnOk result (writer.new ≡ writer.old ++ frame_bytes (in_binding node done.now)) }
{
    write_let(writer, node, done.len(), done.as_slice())
}

fn write_operand(writer: &mut Writer, node: u32, done: &Items) -> Result<(), AllocError>
    requires { HaveBytes done.now }
    ensures { OnOk result (writer.new ≡ writer.old ++ frame_bytes (in_operand node done.now)) }
{
    write_node(writer, 6, node)?;
    write_values(writer, done.as_slice())
}

fn write_turn(writer: &mut Writer, node: u32, turns: u64, done: &Items) -> Result<(), AllocError>
    requires { HaveBytes done.now }
    ensures { OnOk result (writer.new ≡ writer.old ++ frame_bytes (in_turn node turns done.now)) }
{
    write_node(writer, 7, node)?;
    writer.u8(1)?;
    writer.u64(turns)?;
    write_values(writer, done.as_slice())
}

fn write_isolate(writer: &mut Writer, node: u32, name: TxName) -> Result<(), AllocError>
    ensures { OnOk result (writer.new ≡ writer.old ++ frame_bytes (in_isolate node name)) }
{
    write_node(writer, 9, node)?;
    writer.u64(name.ticket)?;
    writer.u32(name.entry)
}

// A part of a call, with the values of the operands that are done, or the variables of the caller.
fn write_call(
    writer: &mut Writer,
    node: u32,
    part: usize,
    values: &[Value],
) -> Result<(), AllocError>
    requires part { part < 2 ^ 32 }
    requires values { HaveBytes (map meaning values.now) }
    ensures { OnOk result (writer.new ≡ writer.old ++ call_with node part values.now) }
{
    write_part(writer, 10, node, part)?;
    write_values(writer, values)
}

fn write_argument(writer: &mut Writer, node: u32, done: &Items) -> Result<(), AllocError>
    requires { HaveBytes done.now }
    ensures { OnOk result (writer.new ≡ writer.old ++ frame_bytes (in_call node done.now)) }
{
    write_call(writer, node, done.len(), done.as_slice())
}

fn write_task(writer: &mut Writer, node: u32, part: usize, outer: &Items) -> Result<(), AllocError>
    requires part { part < 2 ^ 32 }
    requires outer { HaveBytes outer.now }
    ensures { OnOk result (writer.new ≡ writer.old ++ frame_bytes (in_task node part outer.now)) }
{
    write_call(writer, node, part, outer.as_slice())
}

fn write_frame(writer: &mut Writer, frame: &Frame) -> Result<(), AllocError>
    requires { FrameHasBytes (frame_of frame.now) }
    ensures { OnOk result (writer.new ≡ writer.old ++ frame_bytes (frame_of frame.now)) }
{
    match frame {
        Frame::Binding { node, done } => write_binding(writer, *node, done),
        Frame::Body { node, bound } => write_let(writer, *node, *bound, &[]),
        Frame::Seq { node, part } => write_part(writer, 2, *node, *part),
        Frame::If { node, part } => {
            write_node(writer, 3, *node)?;
            writer.u8(*part as u8)
        }
        Frame::And { node, part } => write_part(writer, 4, *node, *part),
        Frame::Or { node, part } => write_part(writer, 5, *node, *part),
        Frame::Operand { node, done } => write_operand(writer, *node, done),
        Frame::Count { node } => {
            write_node(writer, 7, *node)?;
            writer.u8(0)
        }
        Frame::Turn { node, turns, done } => write_turn(writer, *node, *turns, done),
        Frame::Store { node } => write_node(writer, 8, *node),
        Frame::Isolate { node, name } => write_isolate(writer, *node, *name),
        Frame::Call { node, done } => write_argument(writer, *node, done),
        Frame::Task { node, part, outer } => write_task(writer, *node, *part, outer),
        Frame::Page { .. } => unreachable!(),
        Frame::Finish { .. } => unreachable!(),
        Frame::Back { .. } => unreachable!(),
    }
}

fn write_each_frame(writer: &mut Writer, frames: &[Frame]) -> Result<(), AllocError>
    requires { AllByRecursion FrameHasBytes (map frame_of frames.now) }
    ensures { OnOk result (writer.new ≡ writer.old ++ each_frame frames.now) }
{
    for frame in frames {
        write_frame(writer, frame)?;
    }
    Ok(())
}

// How many frames, and each of them.
pub fn write_frames(writer: &mut Writer, frames: &[Frame]) -> Result<(), AllocError>
    requires { FitsList FrameHasBytes (map frame_of frames.now) }
    ensures { OnOk result (writer.new ≡ writer.old ++ frames_bytes frames.now) }
{
    writer.u32(frames.len() as u32)?;
    write_each_frame(writer, frames)
}

fn write_shadow(writer: &mut Writer, shadow: &Shadow) -> Result<(), AllocError>
    requires { ShadowHasBytes (pair_of shadow.now) }
    ensures { OnOk result (writer.new ≡ writer.old ++ shadow_bytes (pair_of shadow.now)) }
{
    writer.u8(shadow.cell)?;
    write_value(writer, &shadow.value)
}

fn write_each_shadow(writer: &mut Writer, shadows: &[Shadow]) -> Result<(), AllocError>
    requires { AllByRecursion ShadowHasBytes (map pair_of shadows.now) }
    ensures { OnOk result (writer.new ≡ writer.old ++ each_shadow shadows.now) }
{
    for shadow in shadows {
        write_shadow(writer, shadow)?;
    }
    Ok(())
}

// How many bindings, and each of them.
pub fn write_shadows(writer: &mut Writer, shadows: &[Shadow]) -> Result<(), AllocError>
    requires { FitsList ShadowHasBytes (map pair_of shadows.now) }
    ensures { OnOk result (writer.new ≡ writer.old ++ shadows_bytes shadows.now) }
{
    writer.u32(shadows.len() as u32)?;
    write_each_shadow(writer, shadows)
}

/// A state that has a spelling, as a record has it that is written by itself, in its parts.
pub fn spell_state(alloc: Global, state: &Suspended) -> Result<Parted, AllocError>
    requires { StateHasBytes (suspended_of state.now) }
    ensures { IfOk result (λ parts. parted_of parts ≡ state_parts (suspended_of state.now)) }
{
    let mut env = Writer::new(alloc);
    env.u8(ALONE)?;
    write_values(&mut env, state.env.as_slice())?;
    let mut frames = Writer::new(alloc);
    write_frames(&mut frames, state.frames.as_slice())?;
    let mut shadows = Writer::new(alloc);
    write_shadows(&mut shadows, state.shades.as_slice())?;
    Parted::of(env.finish(), &frames.finish(), &shadows.finish())
}

/// The spelling of a state that has one.
pub fn encode(alloc: Global, state: &Suspended) -> Result<Bytes, AllocError>
    requires { StateHasBytes (suspended_of state.now) }
    ensures { IfOk result (λ bytes. bytes ≡ state_bytes (suspended_of state.now)) }
{
    spell_state(alloc, state)?.spelling(alloc)
}
