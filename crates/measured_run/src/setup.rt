//! The setup of a measured run, read from its text.
ghost use Rattle.std.specs.Prelude.{◌≡◌, ◌≤◌, length, IfOk};
ghost use Rattle.script_nodes.specs.Views.{scripts_of};
ghost use Rattle.server_limits.specs.Counts.{most_scripts};
ghost use Rattle.setup_reader.specs.Limits.{AreShort};
ghost use Rattle.setup_reader.specs.Texts.{IsReadSetup};
ghost use Rattle.measured_run.specs.Setups.{IsSetup, load_scripts};

use crate::setup_text;
use script_nodes::Setup;
use setup_reader::{Ending, Parsed, SetupFault};
use std::alloc::{AllocError, Global};

/// The setup of a measured run: the scripts that the text of `load_steps` spells.
pub fn load_setup(alloc: Global) -> Result<Setup, AllocError>
    ensures scripts { IfOk result (λ setup. scripts_of setup ≡ load_scripts) }
    ensures few { IfOk result (λ setup. length (scripts_of setup) ≤ most_scripts) }
    ensures short { IfOk result (λ setup. AreShort (scripts_of setup)) }
    ensures texts { IfOk result (λ setup. IsReadSetup (scripts_of setup)) }
{
    let text = setup_text(alloc)?;
    match Parsed::parse(alloc, Ending::Input, text.as_bytes()) {
        Ok(Parsed { setup, steps: _ }) => Ok(setup),
        Err(SetupFault::Memory) => Err(AllocError),
        Err(SetupFault::At(error)) => {
            let _ = error;
            unreachable!()
        }
    }
}

/// The text is a setup, so that it is read without a fault.
pub fn the_text_is_a_setup()
    ensures { IsSetup }
{}
