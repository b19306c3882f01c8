ghost use Rattle.std.specs.Prelude.{◌≡◌, ◌++◌, length, option_map, slice_get, IfOk, OnOk, OnErr};
ghost use Rattle.page_names.specs.Views.{name_of};
ghost use Rattle.script_nodes.specs.Setup.{place_named};
ghost use Rattle.script_nodes.specs.Views.{named_of, scripts_of, library_of, IsStartAt};

use crate::library::Library;
use crate::setup::{NamedScript, Setup};
use page_names::ScriptName;
use std::alloc::{AllocError, Global};

impl Library {
    /// The library of one setup.
    pub fn of(setup: Setup) -> Library
        ensures all { (library_of result).all ≡ scripts_of setup }
        ensures setup { (library_of result).setup ≡ scripts_of setup }
    {
        Library {
            scripts: setup,
            first: 0,
        }
    }

    /// A copy, equal to its source.
    pub fn try_clone(&self, alloc: Global) -> Result<Library, AllocError>
        ensures { IfOk result (λ copy. library_of copy ≡ library_of self.now) }
    {
        Ok(Library {
            scripts: self.scripts.try_clone(alloc)?,
            first: self.first,
        })
    }

    /// Another setup is the present one from now on; the scripts told before stay. Without memory for it nothing changes.
    pub fn renew(&mut self, setup: Setup) -> Result<(), AllocError>
        ensures all { OnOk result
            ((library_of self.new).all ≡ (library_of self.old).all ++ scripts_of setup) }
        ensures setup { OnOk result ((library_of self.new).setup ≡ scripts_of setup) }
        ensures kept { OnErr result (library_of self.new ≡ library_of self.old) }
    {
        let first = self.scripts.len();
        self.scripts.append(setup)?;
        self.first = first;
        Ok(())
    }

    /// How many scripts the present setup has.
    pub fn present(&self) -> usize
        ensures { result ≡ length (library_of self.now).setup }
    {
        self.scripts.len() - self.first
    }

    /// The script of a place among all.
    pub fn get(&self, place: usize) -> Option<&NamedScript>
        ensures { option_map (λ s. named_of s.now) result
            ≡ slice_get (library_of self.now).all place }
    {
        self.scripts.get(place)
    }

    /// The place in the present setup of the first script of a name.
    pub fn place(&self, name: &ScriptName) -> Option<usize>
        ensures { result ≡ place_named (name_of name.now) (library_of self.now).setup }
    {
        self.scripts.place_from(self.first, name)
    }

    /// The place among all of the script of this place in the present setup.
    pub fn start(&self, place: usize) -> Option<usize>
        ensures { IsStartAt (library_of self.now) place result }
    {
        if place < self.present() {
            Some(self.first + place)
        } else {
            None
        }
    }
}
