ghost use Rattle.std.specs.Prelude.{◌≡◌, ◌<◌, None, length, option_map, slice_set, IfOk};
ghost use Rattle.script_nodes.specs.Views.{named_of, scripts_of};
ghost use Rattle.play_desk.specs.Edits.{IsAt, IsPlacedBehind, edited};

use script_nodes::{NamedScript, Setup};
use server_limits::MOST_SCRIPTS;
use setup_reader::script_of;
use std::alloc::{AllocError, Global};

// A copy of the script of a place, or of this one, which stands at another.
fn script_at(
    alloc: Global,
    setup: &Setup,
    place: usize,
    script: &NamedScript,
    other: usize,
) -> Result<NamedScript, AllocError>
    requires { other < length (scripts_of setup.now) }
    ensures { IfOk result (IsAt (scripts_of setup.now) place (named_of script.now) other) }
{
    if other == place {
        return script.try_clone(alloc);
    }
    match setup.get(other) {
        Some(script) => script.try_clone(alloc),
        None => unreachable!(),
    }
}

// A copy of a setup, with this script at a place.
fn with_script(
    alloc: Global,
    setup: &Setup,
    place: usize,
    script: &NamedScript,
) -> Result<Setup, AllocError>
    requires { place < length (scripts_of setup.now) }
    ensures { IfOk result (λ copy.
        scripts_of copy ≡ slice_set (scripts_of setup.now) place (named_of script.now)) }
{
    let mut copy = Setup::new(Vec::new(alloc));
    for other in 0..setup.len() {
        copy.push(script_at(alloc, setup, place, script, other)?)?;
    }
    Ok(copy)
}

// A copy of a setup, with this script after the others: none where it would be one too many.
fn with_script_behind(
    alloc: Global,
    setup: &Setup,
    script: NamedScript,
) -> Result<Option<Setup>, AllocError>
    ensures { IfOk result (IsPlacedBehind (scripts_of setup.now) (named_of script)) }
{
    if setup.len() >= MOST_SCRIPTS {
        return Ok(None);
    }
    let mut copy = setup.try_clone(alloc)?;
    copy.push(script)?;
    Ok(Some(copy))
}

/// A setup in which the script of this name has this text, or that has it after its other scripts: none
/// where that is no script, and where it would be one too many.
pub fn edited(
    alloc: Global,
    setup: &Setup,
    name: &[u8],
    text: &[u8],
) -> Result<Option<Setup>, AllocError>
    ensures { IfOk result (λ found. option_map scripts_of found
        ≡ edited (scripts_of setup.now) name.now text.now) }
{
    let Some(script) = script_of(alloc, name, text)? else {
        return Ok(None);
    };
    match setup.place(&script.name) {
        Some(place) => Ok(Some(with_script(alloc, setup, place, &script)?)),
        None => with_script_behind(alloc, setup, script),
    }
}
