//! Forms that bind names.

ghost use Rattle.std.specs.Prelude.{◌≡◌, ◌∷◌, [], OnOk};
ghost use Rattle.script_value.specs.Views.{meanings};
ghost use Rattle.core_syntax.specs.Forms as spec;
ghost use Rattle.core_syntax.specs.RowCores as spec_of;
ghost use Rattle.core_syntax.specs.Gives.{Reads, ReadsAll};
ghost use Rattle.core_syntax.specs.ReaderSeen.{ReadsBehind, ReadsBound, ReadsTurns, here, here_within};

use super::Reader;
use crate::faults::{ReadFault, SyntaxKind};
use crate::names::Names;
use crate::shapes::{bound_name, names_in};
use crate::tree::{Tree, bind, nest, put, sequence, turns};
use script_value::{Str, Value};

impl<'a, 'c> Reader<'a, 'c> {
    /// A body in whose scope these names are innermost.
    #[cycle(read)]
    pub fn read_within(
        &mut self,
        in_page: bool,
        names: &Names<'a>,
        body: &'a [Value],
    ) -> Result<Tree, ReadFault>
        ensures tree { Reads result (here_within names.now self.old spec.body_of in_page (meanings body.now)) }
        ensures kept { OnOk result (self.new ≡ self.old) }
    {
        self.scope.append(names)?;
        let trees = self.read_all(in_page, body)?;
        self.scope.leave(names.len());
        Ok(sequence(trees))
    }

    /// A body in whose scope this name is innermost.
    #[cycle(read)]
    pub(super) fn read_within_one(
        &mut self,
        in_page: bool,
        name: &'a Str,
        body: &'a [Value],
    ) -> Result<Tree, ReadFault>
        ensures tree { Reads result (here_within (name.now ∷ []) self.old spec.body_of in_page (meanings body.now)) }
        ensures kept { OnOk result (self.new ≡ self.old) }
    {
        self.scope.push(name)?;
        let trees = self.read_all(in_page, body)?;
        self.scope.leave(1);
        Ok(sequence(trees))
    }

    /// Bindings at once, and their body.
    #[cycle(read)]
    pub(super) fn read_let(
        &mut self,
        in_page: bool,
        bindings: &'a [Value],
        body: &'a [Value],
    ) -> Result<Tree, ReadFault>
        ensures tree { ReadsBound result self.old spec_of.bind_core in_page bindings.now body.now }
        ensures kept { OnOk result (self.new ≡ self.old) }
    {
        let names = names_in(self.alloc, bindings)?;
        self.read_let_of(in_page, &names, bindings, body)
    }

    /// Bindings at once, which have these names, and their body.
    #[cycle(read)]
    fn read_let_of(
        &mut self,
        in_page: bool,
        names: &Names<'a>,
        bindings: &'a [Value],
        body: &'a [Value],
    ) -> Result<Tree, ReadFault>
        requires { names.now ≡ spec_of.names_in (meanings bindings.now) [] }
        ensures tree { ReadsBound result self.old spec_of.bind_core in_page bindings.now body.now }
        ensures kept { OnOk result (self.new ≡ self.old) }
    {
        if names.repeat() {
            return Err(ReadFault::Syntax(SyntaxKind::Duplicate));
        }
        let values = self.read_values(in_page, bindings)?;
        let body = self.read_within(in_page, names, body)?;
        bind(self.alloc, values, body)
    }

    /// The expressions of bindings.
    #[cycle(read)]
    fn read_values(&mut self, in_page: bool, bindings: &'a [Value]) -> Result<Vec<Tree>, ReadFault>
        ensures tree { ReadsAll result (here self.old spec.bound_values in_page [] (meanings bindings.now)) }
        ensures kept { OnOk result (self.new ≡ self.old) }
    {
        let mut values = Vec::new(self.alloc);
        for binding in bindings {
            let tree = self.read_second(in_page, binding)?;
            put(&mut values, tree)?;
        }
        Ok(values)
    }

    /// Bindings one inside the other, and their body.
    #[cycle(read)]
    pub(super) fn read_let_in_turn(
        &mut self,
        in_page: bool,
        bindings: &'a [Value],
        body: &'a [Value],
    ) -> Result<Tree, ReadFault>
        ensures tree { ReadsBound result self.old spec_of.bind_in_turn_core in_page bindings.now body.now }
        ensures kept { OnOk result (self.new ≡ self.old) }
    {
        let values = self.read_values_in_turn(in_page, bindings)?;
        let body = self.read_behind(in_page, bindings, body)?;
        nest(self.alloc, values, body)
    }

    /// A body within the names of bindings.
    #[cycle(read)]
    fn read_behind(
        &mut self,
        in_page: bool,
        bindings: &'a [Value],
        body: &'a [Value],
    ) -> Result<Tree, ReadFault>
        ensures tree { ReadsBehind result self.old in_page bindings.now body.now }
        ensures kept { OnOk result (self.new ≡ self.old) }
    {
        let names = names_in(self.alloc, bindings)?;
        self.read_within(in_page, &names, body)
    }

    /// The expressions of bindings, each within the names before it.
    #[cycle(read)]
    fn read_values_in_turn(
        &mut self,
        in_page: bool,
        bindings: &'a [Value],
    ) -> Result<Vec<Tree>, ReadFault>
        ensures tree { ReadsAll result (here self.old spec.values_in_turn in_page [] (meanings bindings.now)) }
        ensures kept { OnOk result (self.new ≡ self.old) }
    {
        let mut values = Vec::new(self.alloc);
        for binding in bindings {
            let value = self.read_second(in_page, binding)?;
            put(&mut values, value)?;
            match bound_name(binding) {
                None => return Err(ReadFault::Syntax(SyntaxKind::Shape)),
                Some(name) => self.scope.push(name)?,
            }
        }
        self.scope.leave(bindings.len());
        Ok(values)
    }

    /// Turns of a body with one variable.
    #[cycle(read)]
    pub(super) fn read_for(
        &mut self,
        in_page: bool,
        name: &'a Str,
        count: &'a Value,
        body: &'a [Value],
    ) -> Result<Tree, ReadFault>
        ensures tree { ReadsTurns result self.old in_page name.now count.now body.now }
        ensures kept { OnOk result (self.new ≡ self.old) }
    {
        let count = self.read(in_page, count)?;
        let body = self.read_within_one(in_page, name, body)?;
        turns(self.alloc, count, body)
    }
}
