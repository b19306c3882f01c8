ghost use Rattle.std.specs.Prelude.{◌≡◌, ◌++◌, ◌<◌, ◌^◌, ◌↔◌, IsTrue, List, OnOk, map, length};
ghost use Rattle.std.specs.Str.{IsUtf8};
ghost use Rattle.script_value.specs.Val.{vals_of};
ghost use Rattle.script_value.specs.Views.{meaning};
ghost use Rattle.value_bytes.specs.Spelling.{value_bytes, values_bytes, all_bytes, Fits, AllFit, HasBytes, HaveBytes};

use crate::read::MOST_LEVELS;
use script_value::{Str, Value, depth};
use std::alloc::AllocError;
use wire_bytes::Writer;

/// Writes a value that has a spelling. Where memory runs out, a part of it may be written.
pub fn write_value(writer: &mut Writer, value: &Value) -> Result<(), AllocError>
    requires { HasBytes (meaning value.now) }
    ensures { OnOk result (writer.new ≡ writer.old ++ value_bytes (meaning value.now)) }
{
    write_parts(writer, value)
}

/// Writes a list of values that has a spelling: their count, and each of them. Where memory runs out, a part of it may be written.
pub fn write_values(writer: &mut Writer, values: &[Value]) -> Result<(), AllocError>
    requires { HaveBytes (map meaning values.now) }
    ensures { OnOk result (writer.new ≡ writer.old ++ values_bytes (map meaning values.now)) }
{
    writer.u32(values.len() as u32)?;
    write_all(writer, values)
}

#[cycle(writes)]
fn write_parts(writer: &mut Writer, value: &Value) -> Result<(), AllocError>
    requires { Fits (meaning value.now) }
    ensures { OnOk result (writer.new ≡ writer.old ++ value_bytes (meaning value.now)) }
{
    match value {
        Value::Int(number) => {
            writer.u8(0)?;
            writer.u64(number.cast_unsigned())
        }
        Value::Truth(false) => writer.u8(1),
        Value::Truth(true) => writer.u8(2),
        Value::Text(text) => {
            writer.u8(3)?;
            writer.bytes(text.as_str().as_bytes())
        }
        Value::Symbol(name) => {
            writer.u8(4)?;
            writer.bytes(name.as_str().as_bytes())
        }
        Value::List(items) => {
            writer.u8(5)?;
            writer.u32(items.len() as u32)?;
            write_all(writer, items.as_slice())
        }
    }
}

#[cycle(writes)]
fn write_all(writer: &mut Writer, values: &[Value]) -> Result<(), AllocError>
    requires { AllFit (vals_of (map meaning values.now)) }
    ensures { OnOk result (writer.new ≡ writer.old ++ all_bytes (vals_of (map meaning values.now))) }
{
    for value in values {
        write_parts(writer, value)?;
    }
    Ok(())
}

/// Whether a value has a spelling: it nests at most 200 lists deep, and no text, symbol or list of it has 2^32 bytes or items. It takes no memory.
pub fn has_bytes(value: &Value) -> bool
    ensures { IsTrue result ↔ HasBytes (meaning value.now) }
{
    depth(value) <= MOST_LEVELS && fits(value)
}

/// Whether a list of values has a spelling. It takes no memory.
pub fn have_bytes(values: &[Value]) -> bool
    ensures { IsTrue result ↔ HaveBytes (map meaning values.now) }
{
    if values.len() > u32::MAX as usize {
        return false;
    }
    for value in values {
        if !has_bytes(value) {
            return false;
        }
    }
    true
}

#[cycle(tests)]
fn fits(value: &Value) -> bool
    ensures { IsTrue result ↔ Fits (meaning value.now) }
{
    match value {
        Value::Int(number) => {
            let _number = *number;
            true
        }
        Value::Truth(_) => true,
        Value::Text(text) => is_short(text),
        Value::Symbol(name) => is_short(name),
        Value::List(items) => items.len() <= u32::MAX as usize && all_fit(items.as_slice()),
    }
}

#[cycle(tests)]
fn all_fit(values: &[Value]) -> bool
    ensures { IsTrue result ↔ AllFit (vals_of (map meaning values.now)) }
{
    for value in values {
        if !fits(value) {
            return false;
        }
    }
    true
}

fn is_short(text: &Str) -> bool
    ensures { IsTrue result ↔ IsUtf8 text.now × (length text.now < 2 ^ 32) }
{
    let text = text.as_str();
    text.len() <= u32::MAX as usize
}
