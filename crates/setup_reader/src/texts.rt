ghost use Rattle.std.specs.Prelude.{◌≡◌, ◌&&◌, nat_le, map, option_map, IfOk};
ghost use Rattle.script_nodes.specs.Views.{scripts_of, named_of};
ghost use Rattle.server_limits.specs.Counts.{most_scripts};
ghost use Rattle.setup_reader.specs.Texts.{script_of_text, setup_of_texts};
ghost use Rattle.setup_reader.specs.Views.{next_told, told_of};

use crate::fault::SetupFault;
use crate::setup::compile;
use page_names::ScriptName;
use script_nodes::{NamedScript, ScriptText, Setup};
use server_limits::MOST_SCRIPTS;
use std::alloc::{AllocError, Global};

/// The script of a name and a text: none where the name is no script's name, or the text is outside the grammar.
pub fn script_of(alloc: Global, name: &[u8], text: &[u8]) -> Result<Option<NamedScript>, AllocError>
    ensures { IfOk result (λ found. option_map named_of found
        ≡ script_of_text (name.now, text.now)) }
{
    let Some(name) = ScriptName::new(name) else {
        return Ok(None);
    };
    match compile(alloc, name, text) {
        Ok(script) => Ok(Some(script)),
        Err(SetupFault::At(_)) => Ok(None),
        Err(SetupFault::Memory) => Err(AllocError),
    }
}

// The script that a journal told after those of this setup: none also where one of them has its name.
fn next_of(
    alloc: Global,
    setup: &Setup,
    told: &ScriptText,
) -> Result<Option<NamedScript>, AllocError>
    ensures { IfOk result (λ found.
        option_map named_of found ≡ next_told (scripts_of setup.now) told.now) }
{
    let Some(script) = script_of(alloc, told.name.as_slice(), told.text.as_slice())? else {
        return Ok(None);
    };
    if setup.place(&script.name).is_some() {
        return Ok(None);
    }
    Ok(Some(script))
}

// Whether a setup has so many scripts.
fn is_setup_length(count: usize) -> bool
    ensures { result ≡ (nat_le 1 count && nat_le count most_scripts) }
{
    1 <= count && count <= MOST_SCRIPTS
}

/// The setup that names and texts are: none where they are none or more than `MOST_SCRIPTS`, where a name stands twice, or where one is no script.
pub fn setup_of(alloc: Global, texts: &[ScriptText]) -> Result<Option<Setup>, AllocError>
    ensures { IfOk result (λ setup. option_map scripts_of setup
        ≡ setup_of_texts (map told_of texts.now)) }
{
    if !is_setup_length(texts.len()) {
        return Ok(None);
    }
    let mut setup = Setup::new(Vec::new(alloc));
    for told in texts {
        let Some(script) = next_of(alloc, &setup, told)? else {
            return Ok(None);
        };
        setup.push(script)?;
    }
    Ok(Some(setup))
}
