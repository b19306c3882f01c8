ghost use Rattle.std.specs.Prelude.{◌≡◌, ◌↔◌, IsTrue, map};
ghost use Rattle.web_cells.specs.Views.{pair_of};
ghost use Rattle.machine_states.specs.Views.{frame_of, suspended_of};

use frame_codec::{same_values, shared_frames};
use machine_states::{Frame, Suspended};
use script_value::equal;
use web_cells::Shadow;

// Whether frames are the same.
fn are_same_frames(left: &[Frame], right: &[Frame]) -> bool
    ensures { IsTrue result ↔ (map frame_of left.now ≡ map frame_of right.now) }
{
    left.len() == right.len() && shared_frames(left, right) == right.len()
}

// Whether these bind the same cell to the same value.
fn is_same_shadow(left: &Shadow, right: &Shadow) -> bool
    ensures { IsTrue result ↔ (pair_of left.now ≡ pair_of right.now) }
{
    left.cell == right.cell && equal(&left.value, &right.value)
}

// Whether bindings of web cells are the same.
fn are_same_shadows(left: &[Shadow], right: &[Shadow]) -> bool
    ensures { IsTrue result ↔ (map pair_of left.now ≡ map pair_of right.now) }
{
    let mut left = left;
    let mut right = right;
    loop {
        match (left, right) {
            ([], []) => return true,
            ([first, others @ ..], [second, rest @ ..]) => {
                if !is_same_shadow(first, second) {
                    return false;
                }
                left = others;
                right = rest;
            }
            _ => return false,
        }
    }
}

/// Whether these are the same state: the same variables, frames and bindings of web cells.
pub fn is_same_state(left: &Suspended, right: &Suspended) -> bool
    ensures { IsTrue result ↔ (suspended_of left.now ≡ suspended_of right.now) }
{
    same_values(&left.env, &right.env)
        && are_same_frames(left.frames.as_slice(), right.frames.as_slice())
        && are_same_shadows(left.shades.as_slice(), right.shades.as_slice())
}
