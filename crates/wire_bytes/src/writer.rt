ghost use Rattle.std.specs.Prelude.{◌≡◌, ◌<◌, ◌++◌, ◌^◌, [], ◌∷◌, length, IfOk, OnOk, OnErr};
ghost use Rattle.wire_bytes.specs.Spelling.{u32_bytes, u64_bytes, byte_string};

use crate::{u32_to_wire, u64_to_wire};
use script_value::Bytes;
use std::alloc::{AllocError, Global};
use std::marker::Model;

/// Writes numbers and byte strings, one after the other. Where there is no memory, nothing is written.
#[derive(Drop)]
pub struct Writer {
    bytes: Vec<u8>,
}

impl Model for Writer {
    ghost use Rattle.std.specs.Prelude.{List, ℕ};

    ghost Value = { List ℕ };

    ghost view = { λ writer. writer.bytes.items };
}

impl Writer {
    /// Nothing is written yet.
    pub fn new(alloc: Global) -> Writer
        ensures { result ≡ [] }
    {
        Writer {
            bytes: Vec::new(alloc),
        }
    }

    /// Nothing is written yet. There is room for so many bytes.
    pub fn with_capacity(alloc: Global, capacity: usize) -> Result<Writer, AllocError>
        ensures { IfOk result (λ writer. writer ≡ []) }
    {
        Ok(Writer {
            bytes: Vec::with_capacity(alloc, capacity)?,
        })
    }

    /// Writes a byte.
    pub fn u8(&mut self, byte: u8) -> Result<(), AllocError>
        ensures ok { OnOk result (self.new ≡ self.old ++ byte ∷ []) }
        ensures err { OnErr result (self.new ≡ self.old) }
    {
        self.bytes.push(byte)?;
        Ok(())
    }

    /// Writes a number of 32 bits.
    pub fn u32(&mut self, number: u32) -> Result<(), AllocError>
        ensures ok { OnOk result (self.new ≡ self.old ++ u32_bytes number) }
        ensures err { OnErr result (self.new ≡ self.old) }
    {
        let bytes = u32_to_wire(number);
        self.bytes.extend_from_slice(&bytes)
    }

    /// Writes a number of 64 bits.
    pub fn u64(&mut self, number: u64) -> Result<(), AllocError>
        ensures ok { OnOk result (self.new ≡ self.old ++ u64_bytes number) }
        ensures err { OnErr result (self.new ≡ self.old) }
    {
        let bytes = u64_to_wire(number);
        self.bytes.extend_from_slice(&bytes)
    }

    /// Writes a byte string: its length, and the bytes.
    pub fn bytes(&mut self, bytes: &[u8]) -> Result<(), AllocError>
        requires { length bytes.now < 2 ^ 32 }
        ensures ok { OnOk result (self.new ≡ self.old ++ byte_string bytes.now) }
        ensures err { OnErr result (self.new ≡ self.old) }
    {
        let size = u32_to_wire(bytes.len() as u32);
        self.bytes.reserve(size.len() + bytes.len())?;
        let Ok(()) = self.bytes.extend_from_slice(&size) else {
            unreachable!()
        };
        let Ok(()) = self.bytes.extend_from_slice(bytes) else {
            unreachable!()
        };
        Ok(())
    }

    /// All that was written.
    pub fn finish(self) -> Bytes
        ensures { result ≡ self }
    {
        Bytes::new(self.bytes)
    }
}
