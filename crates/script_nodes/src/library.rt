ghost use Rattle.std.specs.Prelude.{◌≡◌, ◌≤◌, length, IfOk};

use crate::setup::Setup;
use script_value::Bytes;
use std::alloc::{AllocError, Global};

/// The name and the text of a script, as a journal tells them.
#[derive(Drop)]
pub struct ScriptText {
    pub name: Bytes,
    pub text: Bytes,
}

impl ScriptText {
    /// A copy, equal to its source.
    pub fn try_clone(&self, alloc: Global) -> Result<ScriptText, AllocError>
        ensures { IfOk result (λ copy. copy ≡ self.now) }
    {
        Ok(ScriptText {
            name: self.name.try_clone(alloc)?,
            text: self.text.try_clone(alloc)?,
        })
    }
}

/// The scripts that a journal told, setup by setup in its order; those of the last setup are the present ones.
///
/// An instance goes on with the script with which it began, so each that was told is kept, under its place among all.
#[derive(Drop)]
pub struct Library {
    pub(crate) scripts: Setup,
    // The place of the first present script.
    pub(crate) first: usize,
    ghost inside: { first ≤ length scripts.scripts.items },
}
