//! A list of a template while its items are filled.

ghost use Rattle.std.specs.Prelude.{◌≡◌, ◌++◌, ◌∷◌, ◌&&◌, [], false, true, IfOk, OnOk, option_map, is_none};
ghost use Rattle.core_syntax.specs.Filling.{literals, or_literal, trees_of, has_no_tree, trees_or_none};
ghost use Rattle.script_nodes.specs.Core.{lit};
ghost use Rattle.script_value.specs.Views.{meaning};

use crate::tree::{Form, Tree, put};
use script_value::Value;
use std::alloc::{AllocError, Global};

/// Items of a template's list: the trees of the first, and after them plain ones. Those get trees only if one that is
/// not plain follows, since a list of plain items is one literal.
#[derive(Drop)]
pub struct FilledItems<'a> {
    trees: Vec<Tree>,
    plain: Vec<&'a Value>,
}

impl<'a> FilledItems<'a> {
    /// No items.
    pub fn new(alloc: Global) -> FilledItems<'a>
        ensures empty { trees_of result ≡ [] }
        ensures plain { has_no_tree result ≡ true }
    {
        FilledItems {
            trees: Vec::new(alloc),
            plain: Vec::new(alloc),
        }
    }

    /// Puts one more item after these, with its tree unless it is plain.
    pub fn add(
        &mut self,
        alloc: Global,
        item: &'a Value,
        tree: Option<Tree>,
    ) -> Result<(), AllocError>
        ensures trees { OnOk result (trees_of self.new ≡ trees_of self.old ++ or_literal tree item.now ∷ []) }
        ensures plain { OnOk result (has_no_tree self.new ≡ (has_no_tree self.old && is_none tree)) }
    {
        match tree {
            None => self.plain.push(item)?,
            Some(tree) => self.add_tree(alloc, tree)?,
        }
        Ok(())
    }

    /// Puts the tree of one more item after these.
    fn add_tree(&mut self, alloc: Global, tree: Tree) -> Result<(), AllocError>
        ensures trees { OnOk result (trees_of self.new ≡ trees_of self.old ++ tree ∷ []) }
        ensures plain { OnOk result (has_no_tree self.new ≡ false) }
    {
        self.settle(alloc)?;
        put(&mut self.trees, tree)
    }

    /// The trees of the items; none where each is plain, unless trees are wanted then too.
    pub fn into_trees(self, alloc: Global, is_wanted: bool) -> Result<Option<Vec<Tree>>, AllocError>
        ensures { IfOk result (λ o. option_map (λ v. v.items) o ≡ trees_or_none is_wanted self.entry) }
    {
        if self.trees.is_empty() && !is_wanted {
            return Ok(None);
        }
        let mut items = self;
        items.settle(alloc)?;
        Ok(Some(items.trees))
    }

    /// Makes literals of the plain items.
    fn settle(&mut self, alloc: Global) -> Result<(), AllocError>
        ensures trees { OnOk result (self.new.trees.items ≡ trees_of self.old) }
        ensures plain { OnOk result (self.new.plain.items ≡ []) }
    {
        put_literals(alloc, &mut self.trees, &self.plain)?;
        self.plain.clear();
        Ok(())
    }
}

fn put_literals(alloc: Global, trees: &mut Vec<Tree>, values: &[&Value]) -> Result<(), AllocError>
    ensures { OnOk result (trees.new.items ≡ trees.old.items ++ literals values.now) }
{
    for value in values {
        put_literal(alloc, trees, value)?;
    }
    Ok(())
}

fn put_literal(alloc: Global, trees: &mut Vec<Tree>, value: &Value) -> Result<(), AllocError>
    ensures { OnOk result (trees.new.items ≡ trees.old.items ++ lit (meaning value.now) ∷ []) }
{
    put(trees, Tree::new(Form::Lit(value.try_clone(alloc)?)))
}
