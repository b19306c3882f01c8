ghost use Rattle.std.specs.Prelude.{◌≡◌, [], IfOk, IsNone, map};
ghost use Rattle.web_cells.specs.Shadows.{all_bound};
ghost use Rattle.web_cells.specs.Views.{pair_of};
ghost use Rattle.frame_codec.specs.Laws.{HasNone};
ghost use Rattle.frame_codec.specs.Views.{IsOfParts, ReadsState, FindsSpelled};

use crate::fit::{frames_fit, shadows_fit};
use crate::read::{Parts, read_parts};
use machine_states::Suspended;
use script_nodes::Script;
use std::alloc::{AllocError, Global};
use value_bytes::Unread;
use web_cells::{Shades, Shadow};
use wire_bytes::Cursor;

/// Cells bound one after the other.
#[tactic(auto, using(crate::proofs::Shades::one_more))]
pub fn shades_of(alloc: Global, shadows: Vec<Shadow>) -> Result<Shades, AllocError>
    ensures { IfOk result (λ shades. shades ≡ all_bound (map pair_of shadows.items) []) }
{
    let mut shades = Shades::root(alloc);
    for shadow in shadows {
        shades.shadow(shadow.cell, shadow.value)?;
    }
    Ok(shades)
}

// The state of these parts, where it fits the script.
#[tactic(auto, using(crate::proofs::Shades::bound_in_order))]
fn fitting(alloc: Global, script: &Script, parts: Parts) -> Result<Option<Suspended>, AllocError>
    ensures { IfOk result (IsOfParts script.now parts) }
{
    let cells = script.web_defaults().len();
    if frames_fit(script, parts.env.as_slice(), parts.frames.as_slice())
        && shadows_fit(cells, parts.shadows.as_slice())
    {
        let shades = shades_of(alloc, parts.shadows)?;
        Ok(Some(Suspended {
            env: parts.env,
            frames: parts.frames,
            shades,
        }))
    } else {
        Ok(None)
    }
}

// The state that these bytes spell, and that fits the script.
fn read_state(alloc: Global, script: &Script, bytes: &[u8]) -> Result<Option<Suspended>, AllocError>
    ensures { IfOk result (ReadsState script.now bytes.now) }
{
    let mut cursor = Cursor::over(bytes);
    match read_parts(alloc, script, &mut cursor) {
        Ok(parts) => {
            if cursor.at_end() {
                fitting(alloc, script, parts)
            } else {
                Ok(None)
            }
        }
        Err(Unread::Misspelled) => Ok(None),
        Err(Unread::Memory) => Err(AllocError),
    }
}

/// The state that these bytes spell, and that fits the script; none where no such state has them.
///
/// What it takes of memory is never more than the bytes that are there ask for: no count in them is trusted.
pub fn decode(alloc: Global, script: &Script, bytes: &[u8]) -> Result<Option<Suspended>, AllocError>
    ensures read { IfOk result (ReadsState script.now bytes.now) }
    ensures spelled { IfOk result (FindsSpelled script.now bytes.now) }
    ensures none { IfOk result (λ found. IsNone found → HasNone script.now bytes.now) }
{
    match read_state(alloc, script, bytes)? {
        Some(state) => Ok(Some(state)),
        None => Ok(None),
    }
}
