ghost use Rattle.std.specs.Prelude.{◌≡◌};
ghost use Rattle.std.specs.Int.{w32, w64, from_le_bytes};
ghost use Rattle.wire_bytes.specs.Spelling.{u32_bytes, u64_bytes};

/// The four bytes of a number.
pub fn u32_to_wire(number: u32) -> [u8; 4]
    ensures bytes { result ≡ u32_bytes number }
    ensures back { from_le_bytes w32 result ≡ number }
{
    number.to_le_bytes()
}

/// The number that has these four bytes.
pub fn u32_from_wire(bytes: [u8; 4]) -> u32
    ensures value { result ≡ from_le_bytes w32 bytes }
    ensures spelled { u32_bytes result ≡ bytes }
{
    u32::from_le_bytes(bytes)
}

/// The eight bytes of a number.
pub fn u64_to_wire(number: u64) -> [u8; 8]
    ensures bytes { result ≡ u64_bytes number }
    ensures back { from_le_bytes w64 result ≡ number }
{
    number.to_le_bytes()
}

/// The number that has these eight bytes.
pub fn u64_from_wire(bytes: [u8; 8]) -> u64
    ensures value { result ≡ from_le_bytes w64 bytes }
    ensures spelled { u64_bytes result ≡ bytes }
{
    u64::from_le_bytes(bytes)
}
