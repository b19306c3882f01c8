ghost use Rattle.std.specs.Prelude.{◌≡◌};

use script_value::Bytes;

/// Bytes in no more memory than they take.
pub fn trimmed(bytes: Bytes) -> Bytes
    ensures { result ≡ bytes }
{
    let mut bytes = bytes.into_vec();
    bytes.shrink_to_fit();
    Bytes::new(bytes)
}
