ghost use Rattle.std.specs.Prelude.{◌≡◌, ◌≤◌, ◌<◌, [], ℕ, List, length, IfOk, IsErrOf};
ghost use Rattle.web_outside.specs.Causes.{Rose};
ghost use Rattle.http_forms.specs.Progress.{Follows, Knows};
ghost use Rattle.request_workers.specs.Bytes.{ReadsPieceFrom, ReadsAll};

use http_forms::{ReadStop, RequestScanner};
use web_outside::Source;

// Reads at most as many bytes as the piece holds after those that are there, none only at the end. Gives how many.
fn read_into<S: Source>(
    source: &mut S,
    bytes: &mut Vec<u8>,
    piece: &mut [u8],
) -> Result<usize, ReadStop>
    requires { 0 < length piece.old }
    ensures read { ReadsPieceFrom S.view source.old source.new
        bytes.old bytes.new (length piece.old) result }
    ensures failed { IsErrOf result ReadStop.Failed →
        Rose (S.view source.old).faults (S.view source.new).faults }
    ensures later { (S.view source.old).faults ≤ (S.view source.new).faults }
{
    let count = source.read(piece)?;
    bytes.extend_from_slice(&piece[..count])?;
    Ok(count)
}

// Reads so many bytes at most. A head is read byte by byte, since none after it may be taken.
fn read_piece<S: Source>(
    source: &mut S,
    bytes: &mut Vec<u8>,
    wanted: usize,
) -> Result<usize, ReadStop>
    requires { 0 < wanted }
    ensures read { ReadsPieceFrom S.view source.old source.new bytes.old bytes.new wanted result }
    ensures failed { IsErrOf result ReadStop.Failed →
        Rose (S.view source.old).faults (S.view source.new).faults }
    ensures later { (S.view source.old).faults ≤ (S.view source.new).faults }
{
    if wanted == 1 {
        let mut byte = [0u8; 1];
        return read_into(source, bytes, &mut byte);
    }
    let mut piece = [0u8; 4096];
    let size = wanted.min(piece.len());
    read_into(source, bytes, &mut piece[..size])
}

/// Reads the bytes of one request, or as many as say that they are none, and not one more. Says whether the link ended
/// after them.
pub(crate) fn read_bytes<S: Source>(
    source: &mut S,
    scanner: &mut RequestScanner,
    bytes: &mut Vec<u8>,
) -> Result<bool, ReadStop>
    requires none { bytes.old.items ≡ [] }
    requires begins { (bytes : List ℕ) → Follows scanner.old bytes }
    ensures read { ReadsAll (S.view source.old).left
        (S.view source.new).left bytes.new.items result }
    ensures knows { IfOk result (λ _. Knows scanner.new bytes.new.items) }
    ensures failed { IsErrOf result ReadStop.Failed →
        Rose (S.view source.old).faults (S.view source.new).faults }
    ensures later { (S.view source.old).faults ≤ (S.view source.new).faults }
{
    let mut wanted = scanner.wanted(bytes);
    while wanted > 0 {
        if read_piece(source, bytes, wanted)? == 0 {
            return Ok(true);
        }
        wanted = scanner.wanted(bytes);
    }
    Ok(false)
}
