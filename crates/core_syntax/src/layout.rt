//! Trees as nodes in pre-order.

ghost use Rattle.std.specs.Prelude.{◌≡◌, ◌∷◌, [], map, IfOk};
ghost use Rattle.script_value.specs.Views.{meaning};
ghost use Rattle.script_nodes.specs.Core.{lit, bind, seq, cores_of};
ghost use Rattle.script_nodes.specs.Core as core;
ghost use Rattle.core_syntax.specs.Forms as spec;
ghost use Rattle.core_syntax.specs.Trees.{nested, chosen, over_part, pair_of};
ghost use Rattle.core_syntax.specs.Laid.{Puts, Lays, LaysAll, LaysGroup, last_node, store_node};
ghost use Rattle.core_syntax.specs.Groups.{group_node, single_node};
ghost use Rattle.script_nodes.specs.declared.script.Node.TheVariants as node;

use crate::heads::{CellKind, LastPage, Store};
use crate::nodes::{LayFault, Nodes};
use crate::tree::{Choice, Form, Group, Single, Tree};
use script_nodes::{Node, Numbers};
use script_value::Value;
use std::alloc::{AllocError, Global};

/// Puts the nodes of a tree after the others, where `left` levels may still nest, and gives the number of the first.
#[cycle(lay)]
pub fn lay(alloc: Global, nodes: &mut Nodes, left: u32, tree: &Tree) -> Result<u32, LayFault>
    ensures { Lays result nodes.old nodes.new left tree.now }
{
    match tree.form() {
        Form::Lit(value) => lay_literal(alloc, nodes, left, value),
        Form::Var(place) => nodes.push(left, Node::Var(*place)),
        Form::Ref(kind, cell) => lay_ref(nodes, left, *kind, *cell),
        Form::Let(values, body) => lay_let(alloc, nodes, left, values.as_slice(), body),
        Form::Nest(values, body) => lay_nested(alloc, nodes, left, values.as_slice(), body),
        Form::Group(group, parts) => lay_group(alloc, nodes, left, *group, parts.as_slice()),
        Form::Cond(choices, otherwise) => lay_chosen(
            alloc,
            nodes,
            left,
            choices.as_slice(),
            otherwise,
        ),
        Form::For(count, body) => lay_for(alloc, nodes, left, count, body),
        Form::Single(single, part) => lay_single(alloc, nodes, left, *single, part),
    }
}

fn lay_literal(alloc: Global, nodes: &mut Nodes, left: u32, value: &Value) -> Result<u32, LayFault>
    ensures { Lays result nodes.old nodes.new left (lit (meaning value.now)) }
{
    nodes.push(left, Node::Lit(value.try_clone(alloc)?))
}

fn lay_ref(nodes: &mut Nodes, left: u32, kind: CellKind, cell: u8) -> Result<u32, LayFault>
    ensures { Lays result nodes.old nodes.new left (spec.ref kind cell) }
{
    match kind {
        CellKind::Web => nodes.push(left, Node::CellRef { cell }),
        CellKind::Instance => nodes.push(left, Node::InstRef { cell }),
    }
}

/// Puts the nodes of trees after the others, and gives the numbers of their first.
#[cycle(lay)]
pub fn lay_all(
    alloc: Global,
    nodes: &mut Nodes,
    left: u32,
    trees: &[Tree],
) -> Result<Numbers, LayFault>
    ensures { LaysAll result nodes.old nodes.new left (cores_of trees.now) }
{
    let mut numbers = Vec::new(alloc);
    for tree in trees {
        let number = lay(alloc, nodes, left, tree)?;
        numbers.push(number)?;
    }
    Ok(Numbers::from_vec(numbers))
}

/// A node over parts in a row.
#[cycle(lay)]
fn lay_group(
    alloc: Global,
    nodes: &mut Nodes,
    left: u32,
    group: Group,
    parts: &[Tree],
) -> Result<u32, LayFault>
    ensures { LaysGroup result nodes.old nodes.new left (group_node group) (cores_of parts.now) }
{
    let number = open(nodes, left)?;
    let parts = lay_all(alloc, nodes, left - 1, parts)?;
    nodes.write(number, group_of(group, parts));
    Ok(number)
}

#[cycle(lay)]
fn lay_let(
    alloc: Global,
    nodes: &mut Nodes,
    left: u32,
    values: &[Tree],
    body: &Tree,
) -> Result<u32, LayFault>
    ensures { Lays result nodes.old nodes.new left (bind (cores_of values.now) body.now) }
{
    let number = open(nodes, left)?;
    let bindings = lay_all(alloc, nodes, left - 1, values)?;
    let body_number = nodes.next_number();
    nodes.write(
        number,
        Node::Let {
            bindings,
            body: body_number,
        },
    );
    lay(alloc, nodes, left - 1, body)?;
    Ok(number)
}

#[cycle(lay)]
fn lay_nested(
    alloc: Global,
    nodes: &mut Nodes,
    left: u32,
    values: &[Tree],
    body: &Tree,
) -> Result<u32, LayFault>
    ensures { Lays result nodes.old nodes.new left (nested values.now body.now) }
{
    match values {
        [] => lay_let(alloc, nodes, left, values, body),
        [value, others @ ..] => lay_nest(alloc, nodes, left, value, others, body),
    }
}

/// A binding, and within it the others and the body.
#[cycle(lay)]
fn lay_nest(
    alloc: Global,
    nodes: &mut Nodes,
    left: u32,
    value: &Tree,
    others: &[Tree],
    body: &Tree,
) -> Result<u32, LayFault>
    ensures { Lays result nodes.old nodes.new left (spec.nest (value.now ∷ others.now) body.now) }
{
    let number = open(nodes, left)?;
    let value_number = lay(alloc, nodes, left - 1, value)?;
    let body_number = nodes.next_number();
    nodes.write(number, let_of(alloc, value_number, body_number)?);
    lay_within(alloc, nodes, left - 1, others, body)?;
    Ok(number)
}

/// Bindings one inside the other and the body, without a binding the body alone.
#[cycle(lay)]
fn lay_within(
    alloc: Global,
    nodes: &mut Nodes,
    left: u32,
    values: &[Tree],
    body: &Tree,
) -> Result<u32, LayFault>
    ensures { Lays result nodes.old nodes.new left (spec.nest values.now body.now) }
{
    match values {
        [] => lay(alloc, nodes, left, body),
        [value, others @ ..] => lay_nest(alloc, nodes, left, value, others, body),
    }
}

#[cycle(lay)]
fn lay_chosen(
    alloc: Global,
    nodes: &mut Nodes,
    left: u32,
    choices: &[Choice],
    otherwise: &Tree,
) -> Result<u32, LayFault>
    ensures { Lays result nodes.old nodes.new left (chosen (map pair_of choices.now) otherwise.now) }
{
    match choices {
        [] => lay_alone(alloc, nodes, left, otherwise),
        [choice, others @ ..] => lay_choice(alloc, nodes, left, choice, others, otherwise),
    }
}

#[cycle(lay)]
fn lay_alone(alloc: Global, nodes: &mut Nodes, left: u32, part: &Tree) -> Result<u32, LayFault>
    ensures { Lays result nodes.old nodes.new left (seq (cores_of (part.now ∷ []))) }
{
    let number = open(nodes, left)?;
    let part = lay(alloc, nodes, left - 1, part)?;
    nodes.write(number, seq_of(alloc, part)?);
    Ok(number)
}

/// A choice, and where its test is false the others.
#[cycle(lay)]
fn lay_choice(
    alloc: Global,
    nodes: &mut Nodes,
    left: u32,
    choice: &Choice,
    others: &[Choice],
    otherwise: &Tree,
) -> Result<u32, LayFault>
    ensures { Lays result nodes.old nodes.new left (chosen (map pair_of (choice.now ∷ others.now)) otherwise.now) }
{
    let number = open(nodes, left)?;
    let test = lay(alloc, nodes, left - 1, &choice.test)?;
    let body = lay(alloc, nodes, left - 1, &choice.body)?;
    let next = nodes.next_number();
    nodes.write(
        number,
        Node::If {
            test,
            then: body,
            otherwise: next,
        },
    );
    lay_otherwise(alloc, nodes, left - 1, others, otherwise)?;
    Ok(number)
}

/// Choices one inside the other, without a choice what is taken otherwise.
#[cycle(lay)]
fn lay_otherwise(
    alloc: Global,
    nodes: &mut Nodes,
    left: u32,
    choices: &[Choice],
    otherwise: &Tree,
) -> Result<u32, LayFault>
    ensures { Lays result nodes.old nodes.new left (spec.choose (map pair_of choices.now) otherwise.now) }
{
    match choices {
        [] => lay(alloc, nodes, left, otherwise),
        [choice, others @ ..] => lay_choice(alloc, nodes, left, choice, others, otherwise),
    }
}

#[cycle(lay)]
fn lay_for(
    alloc: Global,
    nodes: &mut Nodes,
    left: u32,
    count: &Tree,
    body: &Tree,
) -> Result<u32, LayFault>
    ensures { Lays result nodes.old nodes.new left (core.repeat count.now body.now) }
{
    let number = open(nodes, left)?;
    let count_number = lay(alloc, nodes, left - 1, count)?;
    let body_number = nodes.next_number();
    nodes.write(
        number,
        Node::For {
            count: count_number,
            body: body_number,
        },
    );
    lay(alloc, nodes, left - 1, body)?;
    Ok(number)
}

#[cycle(lay)]
fn lay_single(
    alloc: Global,
    nodes: &mut Nodes,
    left: u32,
    single: Single,
    part: &Tree,
) -> Result<u32, LayFault>
    ensures { Lays result nodes.old nodes.new left (over_part single part.now) }
{
    let next = nodes.next_number();
    let number = nodes.push(left, single_of(single, next + 1))?;
    lay(alloc, nodes, left - 1, part)?;
    Ok(number)
}

/// The node over this part.
fn single_of(single: Single, part: u32) -> Node
    ensures { result ≡ single_node single part }
{
    match single {
        Single::Send(kind) => Node::Send { kind, body: part },
        Single::Last(kind) => last_page(kind, part),
        Single::Isolate => Node::Isolate { body: part },
        Single::Store(kind, cell) => store(kind, cell, part),
    }
}

/// The node that sends a last page.
fn last_page(kind: LastPage, body: u32) -> Node
    ensures { result ≡ last_node kind body }
{
    match kind {
        LastPage::Finish => Node::Finish { body },
        LastPage::Back => Node::Back { body },
    }
}

/// The node that writes a cell.
fn store(kind: Store, cell: u8, value: u32) -> Node
    ensures { result ≡ store_node kind cell value }
{
    match kind {
        Store::Shadow => Node::CellShadow { cell, value },
        Store::Set => Node::InstSet { cell, value },
        Store::Add => Node::InstAdd { cell, value },
    }
}

/// The node over these parts.
fn group_of(group: Group, parts: Numbers) -> Node
    ensures { result ≡ group_node group parts }
{
    match group {
        Group::Seq => Node::Seq { parts },
        Group::And => Node::And { parts },
        Group::Or => Node::Or { parts },
        Group::Prim(op) => Node::Prim {
            op,
            operands: parts,
        },
        Group::Call(task) => Node::Call {
            task,
            operands: parts,
        },
    }
}

/// Puts a node that is written once the numbers of its parts are known.
fn open(nodes: &mut Nodes, left: u32) -> Result<u32, LayFault>
    ensures { Puts result nodes.old nodes.new left (node.Var 0 ∷ []) 1 1 }
{
    nodes.push(left, Node::Var(0))
}

/// The node of one binding.
fn let_of(alloc: Global, value: u32, body: u32) -> Result<Node, AllocError>
    ensures { IfOk result (λ x. x ≡ node.Let (value ∷ []) body) }
{
    let mut numbers = Vec::new(alloc);
    numbers.push(value)?;
    Ok(Node::Let {
        bindings: Numbers::from_vec(numbers),
        body,
    })
}

/// The node of one part.
fn seq_of(alloc: Global, part: u32) -> Result<Node, AllocError>
    ensures { IfOk result (λ x. x ≡ node.Seq (part ∷ [])) }
{
    let mut numbers = Vec::new(alloc);
    numbers.push(part)?;
    Ok(Node::Seq {
        parts: Numbers::from_vec(numbers),
    })
}
