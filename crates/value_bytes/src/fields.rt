//! The fields of a format, read one after the other: each leaves what stands after it. After an `Err` the cursor may stand anywhere.

ghost use Rattle.std.specs.Prelude.{◌≡◌, ◌<◌, IfErr};
ghost use Rattle.wire_bytes.specs.Reading.{AreBytes, read_u8, read_u32, read_u64, read_bytes, read_count};
ghost use Rattle.value_bytes.specs.declared.unread.Unread.TheVariants.{Misspelled};
ghost use Rattle.value_bytes.specs.Reading.{read_i64, read_utf8};
ghost use Rattle.value_bytes.specs.Views.{Reads};

use crate::unread::Unread;
use script_value::Str;
use std::alloc::Global;
use wire_bytes::Cursor;

/// A byte.
pub fn byte(cursor: &mut Cursor<'_>) -> Result<u8, Unread>
    ensures { Reads (λ b. b) result cursor.new (read_u8 cursor.old) }
{
    match cursor.u8() {
        Some(byte) => Ok(byte),
        None => Err(Unread::Misspelled),
    }
}

/// A number of 32 bits.
pub fn number_32(cursor: &mut Cursor<'_>) -> Result<u32, Unread>
    ensures { Reads (λ n. n) result cursor.new (read_u32 cursor.old) }
{
    match cursor.u32() {
        Some(number) => Ok(number),
        None => Err(Unread::Misspelled),
    }
}

/// How many there are of a list, each of which has a byte at least. One that fewer bytes stand after is none, so that no count
/// makes anything grow beyond what is left. It takes no memory.
pub fn count(cursor: &mut Cursor<'_>) -> Result<u32, Unread>
    ensures read { Reads (λ n. n) result cursor.new (read_count cursor.old) }
    ensures fault { IfErr result (λ e. e ≡ Misspelled) }
    ensures bytes { AreBytes cursor.old }
{
    let _bytes = cursor.left();
    match cursor.u32() {
        Some(count) => {
            if count as usize <= cursor.left() {
                Ok(count)
            } else {
                Err(Unread::Misspelled)
            }
        }
        None => Err(Unread::Misspelled),
    }
}

/// A number of 64 bits.
pub fn number_64(cursor: &mut Cursor<'_>) -> Result<u64, Unread>
    ensures { Reads (λ n. n) result cursor.new (read_u64 cursor.old) }
{
    match cursor.u64() {
        Some(number) => Ok(number),
        None => Err(Unread::Misspelled),
    }
}

/// A number of 64 bits with a sign.
pub fn signed_64(cursor: &mut Cursor<'_>) -> Result<i64, Unread>
    ensures { Reads (λ n. n) result cursor.new (read_i64 cursor.old) }
{
    let bits = number_64(cursor)?;
    Ok(bits.cast_signed())
}

/// A byte string.
pub fn string<'a>(cursor: &mut Cursor<'a>) -> Result<&'a [u8], Unread>
    ensures { Reads (λ bytes. bytes.now) result cursor.new (read_bytes cursor.old) }
{
    match cursor.bytes() {
        Some(bytes) => Ok(bytes),
        None => Err(Unread::Misspelled),
    }
}

/// A text: a byte string in UTF-8.
pub fn text(alloc: Global, cursor: &mut Cursor<'_>) -> Result<Str, Unread>
    ensures { Reads (λ t. t) result cursor.new (read_utf8 cursor.old) }
{
    let bytes = string(cursor)?;
    match str::from_utf8(bytes) {
        Ok(text) => Ok(Str::new(String::from_str(alloc, text)?)),
        Err(_) => Err(Unread::Misspelled),
    }
}
