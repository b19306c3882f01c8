ghost use Rattle.std.specs.Prelude.{◌≡◌, [], ◌∷◌, ◌++◌, length, OnOk, IsSome, drop};
ghost use Rattle.core_syntax.specs.Names.{place_of, repeats};
ghost use Rattle.core_syntax.specs.Scope.{place_at, PutsPlace};

use script_value::Str;
use std::alloc::{AllocError, Global};
use std::collections::BTreeMap;
use std::marker::Model;

/// Names of variables; a clause sees the innermost first.
#[derive(Drop)]
pub struct Names<'a> {
    names: Vec<Named<'a>>,
    newest: BTreeMap<&'a str, usize>,
}

/// A name, and the place of the next outer variable of the same name.
#[derive(Drop)]
struct Named<'a> {
    name: &'a Str,
    earlier: Option<usize>,
}

impl<'a> Model for Names<'a> {
    ghost use Rattle.std.specs.Prelude.{List, ℕ, reverse};
    ghost use Rattle.core_syntax.specs.Scope.{texts, HasPlaces};

    ghost Value = { List (List ℕ) };

    ghost view = { λ s. texts (reverse s.names.items) };

    ghost invariant = { λ s. HasPlaces s.newest s.names.items };
}

impl<'a> Names<'a> {
    /// No names.
    pub fn new(alloc: Global) -> Names<'a>
        ensures { result ≡ [] }
    {
        Names {
            names: Vec::new(alloc),
            newest: BTreeMap::new(alloc),
        }
    }

    /// How many names there are.
    pub fn len(&self) -> usize
        ensures { result ≡ length self.now }
    {
        self.names.len()
    }

    /// Puts a name innermost.
    pub fn push(&mut self, name: &'a Str) -> Result<(), AllocError>
        ensures { OnOk result (self.new ≡ name.now ∷ self.old) }
    {
        self.names.try_reserve(1)?;
        let earlier = self.newest.insert(name.as_str(), self.names.len())?;
        self.names.push(Named { name, earlier })?;
        Ok(())
    }

    /// Puts names within these, the innermost of them innermost.
    pub fn append(&mut self, more: &Names<'a>) -> Result<(), AllocError>
        ensures { OnOk result (self.new ≡ more.now ++ self.old) }
    {
        for named in &more.names {
            self.push(named.name)?;
        }
        Ok(())
    }

    /// Takes the innermost names away.
    pub fn leave(&mut self, count: usize)
        ensures { self.new ≡ drop count self.old }
    {
        for _ in 0..count {
            self.leave_one();
        }
    }

    /// Takes the innermost name away, if there is one.
    fn leave_one(&mut self)
        ensures { self.new ≡ drop 1 self.old }
    {
        if let Some(named) = self.names.pop() {
            put_back(&mut self.newest, named.name, named.earlier);
        }
    }

    /// The place of the innermost variable of this name, the outermost being 0.
    pub fn place_of(&self, name: &Str) -> Option<usize>
        ensures { result ≡ place_of name.now self.now }
    {
        self.newest.get(name.as_str()).copied()
    }

    /// Whether a name stands twice among these.
    pub fn repeat(&self) -> bool
        ensures { result ≡ repeats self.now }
    {
        for named in &self.names {
            if named.earlier.is_some() {
                return true;
            }
        }
        false
    }
}

/// Gives a name that has a place the place that it had before; it takes no memory.
fn put_back<'a>(newest: &mut BTreeMap<&'a str, usize>, name: &Str, earlier: Option<usize>)
    requires { IsSome (place_at newest.old name.now) }
    ensures { PutsPlace newest.old newest.new name.now earlier }
{
    match earlier {
        None => {
            newest.remove(name.as_str());
        }
        Some(place) => {
            if let Some(newest) = newest.get_mut(name.as_str()) {
                *newest = place;
            }
        }
    }
}
