ghost use Rattle.std.specs.Prelude.{◌≡◌, ◌<◌, ◌≤◌, length, take, MatchOption, IfSome};
ghost use Rattle.percent_encoding.specs.Percent.{percent_decode as decoded_of};

use percent_encoding::percent_decode;

/// Decodes the escapes of a path into the front of `room`, and answers how many bytes that are,
/// or `None` where they are more than `room` holds.
pub fn decode(path: &[u8], room: &mut [u8]) -> Option<usize>
    ensures fits { MatchOption result (length room.old < length (decoded_of path.now)) (λ len. len ≤ length room.new) }
    ensures decoded { IfSome result (λ len. take len room.new ≡ decoded_of path.now) }
{
    let mut len = 0;
    for byte in percent_decode(path) {
        if len == room.len() {
            return None;
        }
        room[len] = byte;
        len += 1;
    }
    Some(len)
}
