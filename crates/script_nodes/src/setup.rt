ghost use Rattle.std.specs.Prelude.{◌≡◌, ◌≤◌, ◌++◌, ◌∷◌, [], length, map, drop, option_map, slice_get, position, IfOk, OnOk, OnErr};
ghost use Rattle.std.specs.Str.{bytes_eq};
ghost use Rattle.page_names.specs.Views.{name_of};

use crate::script::Script;
use page_names::ScriptName;
use script_value::Bytes;
use std::alloc::{AllocError, Global};

/// A script, with its name and its text.
#[derive(Drop)]
pub struct NamedScript {
    pub name: ScriptName,
    pub text: Bytes,
    pub script: Script,
}

impl NamedScript {
    /// A copy, equal to its source.
    pub fn try_clone(&self, alloc: Global) -> Result<NamedScript, AllocError>
        ensures { IfOk result (λ copy. copy ≡ self.now) }
    {
        Ok(NamedScript {
            name: self.name,
            text: self.text.try_clone(alloc)?,
            script: self.script.try_clone(alloc)?,
        })
    }
}

// Copies of scripts, equal to their sources.
fn clone_scripts(alloc: Global, scripts: &[NamedScript]) -> Result<Vec<NamedScript>, AllocError>
    ensures { IfOk result (λ copies. copies.items ≡ scripts.now) }
{
    let mut copies = Vec::new(alloc);
    for script in scripts {
        copies.push(script.try_clone(alloc)?)?;
    }
    Ok(copies)
}

// Whether a script has this name.
fn is_named(named: &NamedScript, name: &[u8]) -> bool
    ensures { result ≡ bytes_eq (name_of named.now.name) name.now }
{
    named.name.as_bytes() == name
}

// The place of the first script of this name.
fn place_of(scripts: &[NamedScript], name: &[u8]) -> Option<usize>
    ensures { result ≡ position (λ s. bytes_eq (name_of s.name) name.now) scripts.now }
{
    scripts.iter().position(|named| is_named(named, name))
}

/// The scripts that are served.
#[derive(Drop)]
pub struct Setup {
    scripts: Vec<NamedScript>,
}

impl Setup {
    ghost use Rattle.script_nodes.specs.Arena.{script_of};
    ghost use Rattle.script_nodes.specs.Setup.{place_named, script_named};
    ghost use Rattle.script_nodes.specs.Views.{named_of, scripts_of};

    /// These scripts, in this order.
    pub fn new(scripts: Vec<NamedScript>) -> Setup
        ensures { scripts_of result ≡ map named_of scripts.items }
    {
        Setup { scripts }
    }

    /// A copy, equal to its source.
    pub fn try_clone(&self, alloc: Global) -> Result<Setup, AllocError>
        ensures { IfOk result (λ copy. scripts_of copy ≡ scripts_of self.now) }
    {
        Ok(Setup {
            scripts: clone_scripts(alloc, &self.scripts)?,
        })
    }

    /// How many scripts there are.
    pub fn len(&self) -> usize
        ensures { result ≡ length (scripts_of self.now) }
    {
        self.scripts.len()
    }

    /// One more script, after the others; without memory for it nothing changes.
    #[tactic(auto, using(crate::proofs::Places::map_behind))]
    pub fn push(&mut self, script: NamedScript) -> Result<(), AllocError>
        ensures pushed { OnOk result (scripts_of self.new ≡ scripts_of self.old ++ named_of script ∷ []) }
        ensures kept { OnErr result (scripts_of self.new ≡ scripts_of self.old) }
    {
        self.scripts.push(script)?;
        Ok(())
    }

    // Scripts after the others; without memory for them nothing changes.
    #[tactic(auto, using(crate::proofs::Places::map_joined))]
    pub(crate) fn append(&mut self, later: Setup) -> Result<(), AllocError>
        ensures appended { OnOk result
            (scripts_of self.new ≡ scripts_of self.old ++ scripts_of later) }
        ensures kept { OnErr result (scripts_of self.new ≡ scripts_of self.old) }
    {
        let Setup { mut scripts } = later;
        self.scripts.append(&mut scripts)?;
        Ok(())
    }

    // The place of the first script of a name among those from a place on, counted from there.
    pub(crate) fn place_from(&self, first: usize, name: &ScriptName) -> Option<usize>
        requires { first ≤ length (scripts_of self.now) }
        ensures { result ≡ place_named (name_of name.now) (drop first (scripts_of self.now)) }
    {
        place_of(&self.scripts[first..], name.as_bytes())
    }

    /// The place of the first script of a name, from 0.
    #[tactic(auto, using(crate::proofs::Places::position_map))]
    pub fn place(&self, name: &ScriptName) -> Option<usize>
        ensures { result ≡ place_named (name_of name.now) (scripts_of self.now) }
    {
        place_of(&self.scripts, name.as_bytes())
    }

    /// The script of a place, with its name and text.
    pub fn get(&self, place: usize) -> Option<&NamedScript>
        ensures { option_map (λ s. named_of s.now) result ≡ slice_get (scripts_of self.now) place }
    {
        self.scripts.get(place)
    }

    /// The first script of a name.
    pub fn find(&self, name: &ScriptName) -> Option<&Script>
        ensures { option_map (λ s. script_of s.now) result ≡ script_named (name_of name.now) (scripts_of self.now) }
    {
        let place = self.place(name)?;
        let named = self.get(place)?;
        Some(&named.script)
    }
}
