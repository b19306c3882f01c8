ghost use Rattle.std.specs.Prelude.{◌<◌, ◌∷◌, [], ◌^◌, length, OnOk};
ghost use Rattle.file_copies.specs.Copies.{HasMore};

use std::alloc::AllocError;
use wire_bytes::u32_to_wire;

/// Puts a record after an open gate, at the end of a file.
pub fn put_record(file: &mut Vec<u8>, body: &[u8]) -> Result<(), AllocError>
    requires { length body.now < 2 ^ 32 }
    ensures { OnOk result (HasMore file.old (body.now ∷ []) file.new) }
{
    let size = u32_to_wire(body.len() as u32);
    file.push(1)?;
    file.extend_from_slice(&size)?;
    file.extend_from_slice(body)
}
