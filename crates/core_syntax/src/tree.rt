ghost use Rattle.std.specs.Prelude.{◌≡◌, ◌∷◌, ◌++◌, [], length, map, IfOk, Ok, OnOk};
ghost use Rattle.script_nodes.specs.Core as core;
ghost use Rattle.core_syntax.specs.Forms as spec;
ghost use Rattle.core_syntax.specs.Gives.{Gives, Reads};
ghost use Rattle.core_syntax.specs.Trees.{core_in, over_part, pair_of};

use crate::faults::ReadFault;
use crate::heads::{CellKind, LastPage, Store};
use script_nodes::SendKind;
use script_value::{Op, Value};
use std::alloc::{AllocError, Global};
use std::marker::Model;

/// An expression whose names are resolved.
#[cycle(tree)]
#[derive(Drop)]
pub struct Tree {
    form: Form,
}

/// What an expression is. Choices and bindings that stand one inside the other are lists, so that a tree nests no
/// deeper than the text of its script.
#[cycle(tree)]
#[derive(Drop)]
pub enum Form {
    Lit(Value),
    Var(usize),
    Ref(CellKind, u8),
    /// The bindings at once, and the body.
    Let(Vec<Tree>, Box<Tree>),
    /// The bindings one inside the other, and the body.
    Nest(Vec<Tree>, Box<Tree>),
    /// What stands over parts in a row, and the parts.
    Group(Group, Vec<Tree>),
    /// The choices, and what is taken where each test is false.
    Cond(Vec<Choice>, Box<Tree>),
    /// The count and the body.
    For(Box<Tree>, Box<Tree>),
    /// What stands over one part, and the part.
    Single(Single, Box<Tree>),
}

/// What stands over parts in a row.
#[derive(Clone, Copy)]
pub enum Group {
    Seq,
    And,
    Or,
    Prim(Op),
    /// A task, by its number.
    Call(u8),
}

/// What stands over one part.
#[derive(Clone, Copy)]
pub enum Single {
    Send(SendKind),
    Last(LastPage),
    Isolate,
    /// A cell that is written, by its number.
    Store(Store, u8),
}

/// A test, and what is taken where it is not false.
#[cycle(tree)]
#[derive(Drop)]
pub struct Choice {
    pub test: Tree,
    pub body: Tree,
}

impl Model for Tree {
    ghost use Rattle.script_nodes.specs.contracts.script.Node as node_type;
    ghost use Rattle.script_nodes.specs.Core.{Core, height};
    ghost use Rattle.core_syntax.specs.CoreCode.{core_code};

    ghost Value = { Core };

    ghost coded = { core_code node_type.the_row.coded };

    ghost use Rattle.core_syntax.specs.Trees.{core_in};

    ghost view = { λ a. core_in a.form };

    ghost size = { height };

    ghost use Rattle.core_syntax.specs.TreeFalls.{form_falls};

    ghost size_decreases = { λ a h. form_falls a.form };
}

impl Tree {
    /// The tree of a form.
    pub fn new(form: Form) -> Tree
        ensures { result ≡ core_in form }
    {
        Tree { form }
    }

    /// What the tree is.
    pub fn form(&self) -> &Form
        ensures { self.now ≡ core_in result.now }
    {
        &self.form
    }
}

/// Puts a tree after others.
pub fn put(trees: &mut Vec<Tree>, tree: Tree) -> Result<(), AllocError>
    ensures { OnOk result (trees.new.items ≡ trees.old.items ++ tree ∷ []) }
{
    trees.push(tree)?;
    Ok(())
}

/// A tree in a box.
fn boxed(alloc: Global, tree: Tree) -> Result<Box<Tree>, AllocError>
    ensures { IfOk result (λ b. b.value ≡ tree) }
{
    Ok(Box::new(alloc, tree)?)
}

/// The tree that stands over one part.
pub fn over(alloc: Global, single: Single, part: Tree) -> Result<Tree, ReadFault>
    ensures { Reads result (Ok (over_part single part)) }
{
    Ok(Tree::new(Form::Single(single, boxed(alloc, part)?)))
}

/// Bindings at once, and their body.
pub fn bind(alloc: Global, values: Vec<Tree>, body: Tree) -> Result<Tree, ReadFault>
    ensures { Reads result (Ok (core.bind (core.cores_of values.items) body)) }
{
    Ok(Tree::new(Form::Let(values, boxed(alloc, body)?)))
}

/// Parts in order; a body of one is that one.
pub fn sequence(parts: Vec<Tree>) -> Tree
    ensures { result ≡ spec.sequence parts.items }
{
    if parts.len() == 1 {
        only_of(parts)
    } else {
        Tree::new(Form::Group(Group::Seq, parts))
    }
}

// The only one of these, and of others something.
fn only_of(parts: Vec<Tree>) -> Tree
    requires { length parts.items ≡ 1 }
    ensures { parts.items ≡ result ∷ [] }
{
    let mut parts = parts;
    parts.remove(0)
}

/// The first of these whose value is false, or the last.
pub fn conjunction(parts: Vec<Tree>) -> Tree
    ensures { result ≡ spec.conjunction parts.items }
{
    match parts.len() {
        0 => Tree::new(Form::Lit(Value::Truth(true))),
        1 => only_of(parts),
        _ => Tree::new(Form::Group(Group::And, parts)),
    }
}

/// The first of these whose value is not false, or the last.
pub fn disjunction(parts: Vec<Tree>) -> Tree
    ensures { result ≡ spec.disjunction parts.items }
{
    match parts.len() {
        0 => Tree::new(Form::Lit(Value::Truth(false))),
        1 => only_of(parts),
        _ => Tree::new(Form::Group(Group::Or, parts)),
    }
}

/// Bindings one inside the other; without one the body alone.
pub fn nest(alloc: Global, values: Vec<Tree>, body: Tree) -> Result<Tree, ReadFault>
    ensures { Reads result (Ok (spec.nest values.items body)) }
{
    if values.is_empty() {
        return Ok(body);
    }
    Ok(Tree::new(Form::Nest(values, boxed(alloc, body)?)))
}

/// Choices one inside the other, and what is taken where each test is false; without a choice that alone.
pub fn choose(alloc: Global, choices: Vec<Choice>, otherwise: Tree) -> Result<Tree, ReadFault>
    ensures { Reads result (Ok (spec.choose (map pair_of choices.items) otherwise)) }
{
    if choices.is_empty() {
        return Ok(otherwise);
    }
    Ok(Tree::new(Form::Cond(choices, boxed(alloc, otherwise)?)))
}

/// One choice.
pub fn only_choice(alloc: Global, test: Tree, body: Tree) -> Result<Vec<Choice>, ReadFault>
    ensures { Gives (λ v. map pair_of v.items) result (Ok ((test, body) ∷ [])) }
{
    let mut choices = Vec::new(alloc);
    choices.push(Choice { test, body })?;
    Ok(choices)
}

/// Turns of a body.
pub fn turns(alloc: Global, count: Tree, body: Tree) -> Result<Tree, ReadFault>
    ensures { Reads result (Ok (core.repeat count body)) }
{
    let count = boxed(alloc, count)?;
    Ok(Tree::new(Form::For(count, boxed(alloc, body)?)))
}

/// A list of one item.
pub fn alone(alloc: Global, item: Tree) -> Result<Tree, ReadFault>
    ensures { Reads result (Ok (spec.alone item)) }
{
    let mut items = Vec::new(alloc);
    put(&mut items, item)?;
    Ok(Tree::new(Form::Group(Group::Prim(Op::List), items)))
}
