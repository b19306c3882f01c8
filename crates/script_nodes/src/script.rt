ghost use Rattle.std.specs.Prelude.{◌≡◌, ◌<◌, ℕ, List, length, IfOk, Some, slice_get};
ghost use Rattle.script_value.specs.Views.{meaning};
ghost use Rattle.script_nodes.specs.Arena.{IsScript, IsBehind, IsFull, IsLaidAt, IsOnCells, IsOnTasks, parts, script_of, shape, tree_at};
ghost use Rattle.script_nodes.specs.Core.{AllOnCells};
ghost use Rattle.script_nodes.specs.Layout.{layout_all};
ghost use Rattle.script_nodes.specs.Setup.{trees_of};
ghost use Rattle.std.specs.List.{AllByRecursion};

use script_value::{Items, Op, Value};
use std::alloc::{AllocError, Global};
use std::marker::Model;

/// The numbers of nodes.
#[derive(Drop)]
pub struct Numbers {
    numbers: Vec<u32>,
}

impl Model for Numbers {
    ghost use Rattle.std.specs.Prelude.{List, ℕ};

    ghost Value = { List ℕ };

    ghost view = { λ s. s.numbers.items };
}

impl Numbers {
    /// The numbers of a vector, which it keeps.
    pub fn from_vec(numbers: Vec<u32>) -> Numbers
        ensures { result ≡ numbers.items }
    {
        Numbers { numbers }
    }

    /// The numbers.
    pub fn as_slice(&self) -> &[u32]
        ensures { result.now ≡ self.now }
    {
        self.numbers.as_slice()
    }

    /// A copy, equal to its source.
    pub fn try_clone(&self, alloc: Global) -> Result<Numbers, AllocError>
        ensures { IfOk result (λ copy. copy ≡ self.now) }
    {
        Ok(Numbers {
            numbers: self.numbers.as_slice().to_vec(alloc)?,
        })
    }
}

/// How a page is sent that waits for an answer.
#[derive(Clone, Copy, Debug, PartialEq, Eq)]
pub enum SendKind {
    /// It joins the pages of its instance.
    Suspend,
    /// It revokes all pages of its instance first.
    Forward,
}

/// A node of the core language, its parts by their numbers.
#[derive(Drop)]
pub enum Node {
    /// A value that the script spells.
    Lit(Value),
    /// A variable, by its place in the environment; the outermost is 0.
    Var(usize),
    /// The bindings, left to right, and then the body.
    Let {
        bindings: Numbers,
        body: u32,
    },
    /// The parts, left to right; the value is that of the last.
    Seq {
        parts: Numbers,
    },
    /// The test, and then one of the others: `otherwise` where the test is false.
    If {
        test: u32,
        then: u32,
        otherwise: u32,
    },
    /// The parts up to the first that is false.
    And {
        parts: Numbers,
    },
    /// The parts up to the first that is not false.
    Or {
        parts: Numbers,
    },
    /// As many turns of the body as the count says; the body has the turn, from 0, as its last variable.
    For {
        count: u32,
        body: u32,
    },
    /// An operation over its operands, left to right.
    Prim {
        op: Op,
        operands: Numbers,
    },
    /// A task over its operands, left to right; the body of the task has their values as its only variables.
    Call {
        task: u8,
        operands: Numbers,
    },
    /// Sends the page that the body gives, and waits for an answer; the body has the page's URL as its last variable.
    Send {
        kind: SendKind,
        body: u32,
    },
    /// Sends the page that the body gives, and frees the instance.
    Finish {
        body: u32,
    },
    /// Sends the page that the body gives, and ends the segment.
    Back {
        body: u32,
    },
    /// A transaction round its part.
    Isolate {
        body: u32,
    },
    /// The value of a web cell.
    CellRef {
        cell: u8,
    },
    /// Binds a web cell from here on.
    CellShadow {
        cell: u8,
        value: u32,
    },
    /// The value of an instance cell.
    InstRef {
        cell: u8,
    },
    /// Writes an instance cell.
    InstSet {
        cell: u8,
        value: u32,
    },
    /// Adds a number to that of an instance cell.
    InstAdd {
        cell: u8,
        value: u32,
    },
}

impl Node {
    /// A copy, equal to its source.
    pub fn try_clone(&self, alloc: Global) -> Result<Node, AllocError>
        ensures { IfOk result (λ copy. copy ≡ self.now) }
    {
        Ok(match self {
            Node::Lit(value) => Node::Lit(value.try_clone(alloc)?),
            Node::Var(place) => Node::Var(*place),
            Node::Let { bindings, body } => Node::Let {
                bindings: bindings.try_clone(alloc)?,
                body: *body,
            },
            Node::Seq { parts } => Node::Seq {
                parts: parts.try_clone(alloc)?,
            },
            Node::If {
                test,
                then,
                otherwise,
            } => Node::If {
                test: *test,
                then: *then,
                otherwise: *otherwise,
            },
            Node::And { parts } => Node::And {
                parts: parts.try_clone(alloc)?,
            },
            Node::Or { parts } => Node::Or {
                parts: parts.try_clone(alloc)?,
            },
            Node::For { count, body } => Node::For {
                count: *count,
                body: *body,
            },
            Node::Prim { op, operands } => Node::Prim {
                op: *op,
                operands: operands.try_clone(alloc)?,
            },
            Node::Call { task, operands } => Node::Call {
                task: *task,
                operands: operands.try_clone(alloc)?,
            },
            Node::Send { kind, body } => Node::Send {
                kind: *kind,
                body: *body,
            },
            Node::Finish { body } => Node::Finish { body: *body },
            Node::Back { body } => Node::Back { body: *body },
            Node::Isolate { body } => Node::Isolate { body: *body },
            Node::CellRef { cell } => Node::CellRef { cell: *cell },
            Node::CellShadow { cell, value } => Node::CellShadow {
                cell: *cell,
                value: *value,
            },
            Node::InstRef { cell } => Node::InstRef { cell: *cell },
            Node::InstSet { cell, value } => Node::InstSet {
                cell: *cell,
                value: *value,
            },
            Node::InstAdd { cell, value } => Node::InstAdd {
                cell: *cell,
                value: *value,
            },
        })
    }
}

// Copies of nodes, equal to their sources.
fn clone_nodes(alloc: Global, nodes: &[Node]) -> Result<Vec<Node>, AllocError>
    ensures { IfOk result (λ copies. copies.items ≡ nodes.now) }
{
    let mut copies = Vec::new(alloc);
    for node in nodes {
        copies.push(node.try_clone(alloc)?)?;
    }
    Ok(copies)
}

/// A script: its nodes in pre-order, those of its expression first, what its cells begin with, and where the bodies of
/// its tasks begin.
#[derive(Drop)]
pub struct Script {
    nodes: Vec<Node>,
    web: Items,
    cells: Items,
    tasks: Numbers,
}

impl Model for Script {
    ghost use Rattle.script_nodes.specs.contracts.script.Node as node_type;
    ghost use Rattle.script_nodes.specs.Arena.{Arena, arena_code, IsScript};

    ghost Value = { Arena };

    ghost coded = { arena_code node_type.the_row.coded };

    ghost view = { λ s. record { nodes = s.nodes.items; web = s.web; cells = s.cells; tasks = s.tasks } };

    ghost invariant = { λ s. IsScript record { nodes = s.nodes.items; web = s.web; cells = s.cells; tasks = s.tasks } };
}

impl Script {
    /// The script of these nodes, of web cells and instance cells that begin with these values, and of tasks whose bodies
    /// begin there.
    pub fn from_parts(nodes: Vec<Node>, web: Items, cells: Items, tasks: Numbers) -> Script
        requires { IsScript record { nodes = nodes.items; web = web; cells = cells; tasks = tasks } }
        ensures { result ≡ record { nodes = nodes.items; web = web; cells = cells; tasks = tasks } }
    {
        Script {
            nodes,
            web,
            cells,
            tasks,
        }
    }

    /// A copy, equal to its source.
    pub fn try_clone(&self, alloc: Global) -> Result<Script, AllocError>
        ensures { IfOk result (λ copy. copy ≡ self.now) }
    {
        Ok(Script {
            nodes: clone_nodes(alloc, &self.nodes)?,
            web: self.web.try_clone(alloc)?,
            cells: self.cells.try_clone(alloc)?,
            tasks: self.tasks.try_clone(alloc)?,
        })
    }

    /// How many nodes the script has.
    pub fn count(&self) -> usize
        ensures count { result ≡ length self.now.nodes }
        ensures script { IsScript self.now }
    {
        self.nodes.len()
    }

    /// The number of the node that a run begins with: all nodes are those of the script's trees.
    #[tactic(auto, using(crate::proofs::Scripts::has_nodes))]
    pub fn root(&self) -> u32
        ensures root { result ≡ 0 }
        ensures within { 0 < length self.now.nodes }
        ensures script { IsScript self.now }
        ensures numbered { self.now.nodes ≡ layout_all 0 (trees_of (script_of self.now)) }
        ensures cells { AllOnCells (length self.now.web) (length self.now.cells) (trees_of (script_of self.now)) }
    {
        let _nodes = &self.nodes;
        0
    }

    /// The node of a number.
    pub fn node(&self, number: u32) -> &Node
        requires { number < length self.now.nodes }
        ensures node { slice_get self.now.nodes number ≡ Some result.now }
        ensures behind { AllByRecursion (IsBehind number (length self.now.nodes)) (parts result.now) }
        ensures full { IsFull result.now }
        ensures cells { IsOnCells (length self.now.web) (length self.now.cells) result.now }
        ensures tasks { IsOnTasks (length self.now.tasks) result.now }
        ensures laid { IsLaidAt self.now.nodes number }
        ensures tree { tree_at self.now.nodes number ≡ shape (tree_at self.now.nodes) result.now }
    {
        &self.nodes[number as usize]
    }

    /// The number of the first node of a task's body.
    pub fn task(&self, task: u8) -> u32
        requires { task < length self.now.tasks }
        ensures first { slice_get self.now.tasks task ≡ Some result }
        ensures within { result < length self.now.nodes }
    {
        self.tasks.as_slice()[task as usize]
    }

    /// What a web cell begins with.
    pub fn web_default(&self, cell: u8) -> &Value
        requires { cell < length self.now.web }
        ensures { slice_get self.now.web cell ≡ Some (meaning result.now) }
    {
        &self.web.as_slice()[cell as usize]
    }

    /// What an instance cell begins with.
    pub fn instance_default(&self, cell: u8) -> &Value
        requires { cell < length self.now.cells }
        ensures { slice_get self.now.cells cell ≡ Some (meaning result.now) }
    {
        &self.cells.as_slice()[cell as usize]
    }

    /// What the web cells begin with, in their order.
    pub fn web_defaults(&self) -> &Items
        ensures { result.now ≡ self.now.web }
    {
        &self.web
    }

    /// What the instance cells begin with, in their order.
    pub fn instance_defaults(&self) -> &Items
        ensures { result.now ≡ self.now.cells }
    {
        &self.cells
    }
}
