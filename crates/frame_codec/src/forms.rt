ghost use Rattle.std.specs.Prelude.{IfOk};
ghost use Rattle.machine_states.specs.Views.{suspended_of};
ghost use Rattle.frame_codec.specs.Stored.{IsStored};
ghost use Rattle.frame_codec.specs.Forms.{IsStoredBefore};
ghost use Rattle.frame_codec.specs.FormViews.{before_of, ReadsForm, ReadsBehind};

use crate::delta_bytes::decode_delta;
use crate::joined::join;
use crate::parted::{ALONE, BEHIND};
use crate::state::decode;
use machine_states::Suspended;
use script_nodes::Script;
use script_value::Bytes;
use std::alloc::{AllocError, Global};

// The state that these bytes spell after another one.
fn decode_behind(
    alloc: Global,
    script: &Script,
    parent: &Suspended,
    bytes: &[u8],
) -> Result<Option<Suspended>, AllocError>
    requires { IsStored script.now (suspended_of parent.now) }
    ensures { IfOk result (ReadsBehind script.now parent.now bytes.now) }
{
    match decode_delta(alloc, script, parent, bytes)? {
        Some(delta) => Ok(Some(join(alloc, parent.try_clone(alloc)?, delta)?)),
        None => Ok(None),
    }
}

/// The state that these bytes spell in the form that is due, and that fits the script; none where no such state has them: by itself,
/// or after the state of the page before.
///
/// No count in the bytes is trusted.
pub fn decode_form(
    alloc: Global,
    script: &Script,
    before: Option<&Suspended>,
    bytes: &[u8],
) -> Result<Option<Suspended>, AllocError>
    requires { IsStoredBefore script.now (before_of before) }
    ensures { IfOk result (ReadsForm script.now before.entry bytes.now) }
{
    let [form, spelling @ ..] = bytes else {
        return Ok(None);
    };
    match before {
        None => {
            if *form == ALONE {
                Ok(decode(alloc, script, spelling)?)
            } else {
                Ok(None)
            }
        }
        Some(parent) => {
            if *form == BEHIND {
                Ok(decode_behind(alloc, script, parent, spelling)?)
            } else {
                Ok(None)
            }
        }
    }
}
