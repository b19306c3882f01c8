//! Templates with their expressions in their places.

ghost use Rattle.std.specs.Prelude.{◌≡◌, [], OnOk, Ok, option_map};
ghost use Rattle.script_value.specs.Val.{list};
ghost use Rattle.script_value.specs.Views.{meaning, meanings};
ghost use Rattle.core_syntax.specs.Forms as spec;
ghost use Rattle.core_syntax.specs.Gives.{Gives, Reads, ReadsAll};
ghost use Rattle.core_syntax.specs.Filling.{or_literal, part_filled, items_filled, list_filled, joined, unquote_filled};
ghost use Rattle.core_syntax.specs.ReaderSeen.{here};

use super::{Reader, literal};
use crate::faults::ReadFault;
use crate::filled_items::FilledItems;
use crate::shapes::begins;
use crate::templates::{has_splice, is_splice};
use crate::tree::{Form, Group, Tree, alone, put};
use script_value::{Op, Value};
use std::alloc::Global;

impl<'a, 'c> Reader<'a, 'c> {
    /// A template with its expressions in their places.
    #[cycle(read)]
    pub(super) fn fill(&mut self, in_page: bool, template: &'a Value) -> Result<Tree, ReadFault>
        ensures tree { Reads result (here self.old spec.filled in_page (meaning template.now)) }
        ensures kept { OnOk result (self.new ≡ self.old) }
    {
        let tree = self.fill_part(in_page, template)?;
        or_literal(self.alloc, template, tree)
    }

    /// A part of a template with its expressions in their places; none where it is plain.
    #[cycle(read)]
    fn fill_part(&mut self, in_page: bool, template: &'a Value) -> Result<Option<Tree>, ReadFault>
        ensures tree { Reads result (here self.old part_filled in_page (meaning template.now)) }
        ensures kept { OnOk result (self.new ≡ self.old) }
    {
        match template {
            Value::List(items) => self.fill_list(in_page, items.as_slice()),
            _ => Ok(None),
        }
    }

    #[cycle(read)]
    fn fill_list(&mut self, in_page: bool, items: &'a [Value]) -> Result<Option<Tree>, ReadFault>
        ensures tree { Reads result (here self.old part_filled in_page (list (meanings items.now))) }
        ensures kept { OnOk result (self.new ≡ self.old) }
    {
        if begins("unquote", items) {
            return self.fill_unquote(in_page, items);
        }
        if has_splice(items) {
            return self.fill_joined(in_page, items);
        }
        self.fill_items(in_page, items)
    }

    #[cycle(read)]
    fn fill_unquote(&mut self, in_page: bool, items: &'a [Value]) -> Result<Option<Tree>, ReadFault>
        ensures tree { Reads result (here self.old unquote_filled in_page (meanings items.now)) }
        ensures kept { OnOk result (self.new ≡ self.old) }
    {
        Ok(Some(self.read_second_of_two(in_page, items)?))
    }

    /// The list that what these give is joined to.
    #[cycle(read)]
    fn fill_joined(&mut self, in_page: bool, items: &'a [Value]) -> Result<Option<Tree>, ReadFault>
        ensures tree { Reads result (here self.old joined in_page (meanings items.now)) }
        ensures kept { OnOk result (self.new ≡ self.old) }
    {
        let parts = self.splice_all(in_page, items)?;
        Ok(Some(Tree::new(Form::Group(Group::Prim(Op::Append), parts))))
    }

    /// The list of these items.
    #[cycle(read)]
    fn fill_items(&mut self, in_page: bool, items: &'a [Value]) -> Result<Option<Tree>, ReadFault>
        ensures tree { Reads result (here self.old list_filled in_page (meanings items.now)) }
        ensures kept { OnOk result (self.new ≡ self.old) }
    {
        match self.fill_all(in_page, items)? {
            Some(trees) => Ok(Some(Tree::new(Form::Group(Group::Prim(Op::List), trees)))),
            None => Ok(None),
        }
    }

    /// The trees of items; none where each is plain.
    #[cycle(read)]
    fn fill_all(
        &mut self,
        in_page: bool,
        items: &'a [Value],
    ) -> Result<Option<Vec<Tree>>, ReadFault>
        ensures tree { Gives (option_map (λ v. v.items)) result (here self.old items_filled in_page (meanings items.now)) }
        ensures kept { OnOk result (self.new ≡ self.old) }
    {
        let mut filled = FilledItems::new(self.alloc);
        for item in items {
            let tree = self.fill_part(in_page, item)?;
            filled.add(self.alloc, item, tree)?;
        }
        // Such a list stands in no template but as an item; the table of forms has it as a list of its items.
        Ok(filled.into_trees(self.alloc, begins("unquote-splicing", items))?)
    }

    /// The parts of a list that is joined.
    #[cycle(read)]
    fn splice_all(&mut self, in_page: bool, items: &'a [Value]) -> Result<Vec<Tree>, ReadFault>
        ensures tree { ReadsAll result (here self.old spec.spliced in_page [] (meanings items.now)) }
        ensures kept { OnOk result (self.new ≡ self.old) }
    {
        let mut trees = Vec::new(self.alloc);
        for item in items {
            let tree = self.splice(in_page, item)?;
            put(&mut trees, tree)?;
        }
        Ok(trees)
    }

    /// What an unquote-splicing gives, or a list of one item.
    #[cycle(read)]
    fn splice(&mut self, in_page: bool, item: &'a Value) -> Result<Tree, ReadFault>
        ensures tree { Reads result (here self.old spec.part_of in_page (meaning item.now)) }
        ensures kept { OnOk result (self.new ≡ self.old) }
    {
        if is_splice(item) {
            return self.read_second(in_page, item);
        }
        let tree = self.fill(in_page, item)?;
        alone(self.alloc, tree)
    }
}

fn or_literal(alloc: Global, template: &Value, tree: Option<Tree>) -> Result<Tree, ReadFault>
    ensures { Reads result (Ok (or_literal tree template.now)) }
{
    match tree {
        Some(tree) => Ok(tree),
        None => literal(alloc, template),
    }
}
