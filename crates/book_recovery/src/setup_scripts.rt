ghost use Rattle.std.specs.Prelude.{◌≡◌, IfOk, IfSome, IfNone, map, None};
ghost use Rattle.script_nodes.specs.Views.{named_of, scripts_of};
ghost use Rattle.journal_records.specs.Views.{script_of};
ghost use Rattle.setup_reader.specs.Texts.{setup_of_texts};
ghost use Rattle.book_redo.specs.JournalSpec.Whole.{IsWhole, AreWhole};
ghost use Rattle.book_recovery.specs.Reading.{IsSetupOf};

use script_nodes::{NamedScript, ScriptText, Setup};
use setup_reader::setup_of;
use std::alloc::{AllocError, Global};

// Each script of a setup can be run: its nodes are those of what it means. It takes no memory.
fn each_is_whole(setup: &Setup)
    ensures { AreWhole (scripts_of setup.now) }
{
    for place in 0..setup.len() {
        match setup.get(place) {
            Some(named) => is_whole(named),
            None => (),
        }
    }
}

fn is_whole(named: &NamedScript)
    ensures { IsWhole (named_of named.now) }
{
    let _root = named.script.root();
}

/// The setup that names and texts of a record are, each script of which can be run; none where they are no setup.
pub fn told_setup(alloc: Global, texts: &[ScriptText]) -> Result<Option<Setup>, AllocError>
    ensures some { IfOk result (λ setup. IfSome setup (IsSetupOf (map script_of texts.now))) }
    ensures none { IfOk result (λ setup.
        IfNone setup (setup_of_texts (map script_of texts.now) ≡ None)) }
{
    let Some(setup) = setup_of(alloc, texts)? else {
        return Ok(None);
    };
    each_is_whole(&setup);
    Ok(Some(setup))
}
