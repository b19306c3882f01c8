ghost use Rattle.std.specs.Prelude.{◌≡◌, ◌<◌, ◌+◌, ◌++◌, [], ◌∷◌, ◌↔◌, length, IfSome, IsTrue, None, option_map};
ghost use Rattle.wire_bytes.specs.Spelling.{u32_bytes, u64_bytes, byte_string};
ghost use Rattle.wire_bytes.specs.Reading.{AreBytes, read_u8, read_u32, read_u64, read_bytes, value_of, rest_of};

use crate::{u32_from_wire, u64_from_wire};
use std::marker::Model;

/// Reads numbers and byte strings, one after the other. Where too few bytes are left, it stays where it is.
#[derive(Drop)]
pub struct Cursor<'a> {
    rest: &'a [u8],
}

impl<'a> Model for Cursor<'a> {
    ghost use Rattle.std.specs.Prelude.{List, ℕ};

    ghost Value = { List ℕ };

    ghost view = { λ cursor. cursor.rest.now };
}

// How many bytes there are, each below 256.
fn len(bytes: &[u8]) -> usize
    ensures len { result ≡ length bytes.now }
    ensures bytes { AreBytes bytes.now }
{
    bytes.len()
}

impl<'a> Cursor<'a> {
    /// Begins at the front of these bytes.
    pub fn over(bytes: &'a [u8]) -> Cursor<'a>
        ensures { result ≡ bytes.now }
    {
        Cursor { rest: bytes }
    }

    /// Reads a byte.
    pub fn u8(&mut self) -> Option<u8>
        ensures value { result ≡ value_of (read_u8 self.old) }
        ensures rest { self.new ≡ rest_of (read_u8 self.old) self.old }
        ensures spelled { IfSome result (λ byte. self.old ≡ byte ∷ self.new) }
    {
        let [byte, rest @ ..] = self.rest else {
            return None;
        };
        self.rest = rest;
        Some(*byte)
    }

    /// Reads a number of 32 bits.
    pub fn u32(&mut self) -> Option<u32>
        ensures value { result ≡ value_of (read_u32 self.old) }
        ensures rest { self.new ≡ rest_of (read_u32 self.old) self.old }
        ensures spelled { IfSome result (λ number. self.old ≡ u32_bytes number ++ self.new) }
    {
        let [a, b, c, d, rest @ ..] = self.rest else {
            return None;
        };
        self.rest = rest;
        Some(u32_from_wire([*a, *b, *c, *d]))
    }

    /// Reads a number of 64 bits.
    pub fn u64(&mut self) -> Option<u64>
        ensures value { result ≡ value_of (read_u64 self.old) }
        ensures rest { self.new ≡ rest_of (read_u64 self.old) self.old }
        ensures spelled { IfSome result (λ number. self.old ≡ u64_bytes number ++ self.new) }
    {
        let [a, b, c, d, e, f, g, h, rest @ ..] = self.rest else {
            return None;
        };
        self.rest = rest;
        Some(u64_from_wire([*a, *b, *c, *d, *e, *f, *g, *h]))
    }

    /// Reads a byte string.
    pub fn bytes(&mut self) -> Option<&'a [u8]>
        ensures value { option_map (λ bytes. bytes.now) result ≡ value_of (read_bytes self.old) }
        ensures rest { self.new ≡ rest_of (read_bytes self.old) self.old }
        ensures spelled { IfSome result (λ bytes. self.old ≡ byte_string bytes.now ++ self.new) }
    {
        let start = self.rest;
        let size = self.u32()? as usize;
        if self.rest.len() < size {
            self.rest = start;
            return None;
        }
        let (bytes, rest) = self.rest.split_at(size);
        self.rest = rest;
        Some(bytes)
    }

    /// How many bytes are left.
    pub fn left(&self) -> usize
        ensures left { result ≡ length self.now }
        ensures bytes { AreBytes self.now }
    {
        len(self.rest)
    }

    /// Whether no byte is left.
    pub fn at_end(&self) -> bool
        ensures { IsTrue result ↔ (self.now ≡ []) }
    {
        self.rest.is_empty()
    }
}
