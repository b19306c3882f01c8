ghost use Rattle.std.specs.Prelude.{◌≡◌, IfOk};
ghost use Rattle.machine_states.specs.Machine.{inside_of};
ghost use Rattle.machine_states.specs.Views.{stack, suspended_of};

use script_nodes::SendKind;
use script_value::{Items, TxName};
use std::alloc::{AllocError, Global};
use web_cells::Shades;

/// Which part of a node is worked on.
#[derive(Drop)]
pub enum Frame {
    /// A binding, after the values of those that are done.
    Binding {
        node: u32,
        done: Items,
    },
    /// An operand, after the values of those that are done.
    Operand {
        node: u32,
        done: Items,
    },
    /// The body of a Let, under so many variables.
    Body {
        node: u32,
        bound: usize,
    },
    /// A part of a sequence.
    Seq {
        node: u32,
        part: usize,
    },
    /// A part of a conjunction.
    And {
        node: u32,
        part: usize,
    },
    /// A part of a disjunction.
    Or {
        node: u32,
        part: usize,
    },
    /// The test of a choice, or what was chosen.
    If {
        node: u32,
        part: usize,
    },
    /// The count of turns.
    Count {
        node: u32,
    },
    /// What a cell is given.
    Store {
        node: u32,
    },
    /// A turn of so many, after the values of those that are done.
    Turn {
        node: u32,
        turns: u64,
        done: Items,
    },
    /// What stands in a transaction.
    Isolate {
        node: u32,
        name: TxName,
    },
    /// An operand of a call, after the values of those that are done.
    Call {
        node: u32,
        done: Items,
    },
    /// The body of a task: the number of the call's part that it is, and the variables of the caller.
    Task {
        node: u32,
        part: usize,
        outer: Items,
    },
    /// The body of a page that waits for an answer.
    Page {
        node: u32,
        kind: SendKind,
    },
    /// The body of a page that frees the instance.
    Finish {
        node: u32,
    },
    /// The body of a last page.
    Back {
        node: u32,
    },
}

/// What is kept of a machine at a page: its variables, its frames, the outermost first, and the bindings of web cells.
#[derive(Drop)]
pub struct Suspended {
    pub env: Items,
    pub frames: Vec<Frame>,
    pub shades: Shades,
}

impl Frame {
    /// A copy, equal to its source.
    pub fn try_clone(&self, alloc: Global) -> Result<Frame, AllocError>
        ensures { IfOk result (λ copy. copy ≡ self.now) }
    {
        Ok(match self {
            Frame::Binding { node, done } => Frame::Binding {
                node: *node,
                done: done.try_clone(alloc)?,
            },
            Frame::Operand { node, done } => Frame::Operand {
                node: *node,
                done: done.try_clone(alloc)?,
            },
            Frame::Body { node, bound } => Frame::Body {
                node: *node,
                bound: *bound,
            },
            Frame::Seq { node, part } => Frame::Seq {
                node: *node,
                part: *part,
            },
            Frame::And { node, part } => Frame::And {
                node: *node,
                part: *part,
            },
            Frame::Or { node, part } => Frame::Or {
                node: *node,
                part: *part,
            },
            Frame::If { node, part } => Frame::If {
                node: *node,
                part: *part,
            },
            Frame::Count { node } => Frame::Count { node: *node },
            Frame::Store { node } => Frame::Store { node: *node },
            Frame::Turn { node, turns, done } => Frame::Turn {
                node: *node,
                turns: *turns,
                done: done.try_clone(alloc)?,
            },
            Frame::Isolate { node, name } => Frame::Isolate {
                node: *node,
                name: *name,
            },
            Frame::Call { node, done } => Frame::Call {
                node: *node,
                done: done.try_clone(alloc)?,
            },
            Frame::Task { node, part, outer } => Frame::Task {
                node: *node,
                part: *part,
                outer: outer.try_clone(alloc)?,
            },
            Frame::Page { node, kind } => Frame::Page {
                node: *node,
                kind: *kind,
            },
            Frame::Finish { node } => Frame::Finish { node: *node },
            Frame::Back { node } => Frame::Back { node: *node },
        })
    }
}

// The frames beyond its own that a copy has room for: a script that goes on from it pushes more.
const ROOM: usize = 8;

// Copies of frames, equal to their sources.
fn clone_frames(alloc: Global, frames: &[Frame]) -> Result<Vec<Frame>, AllocError>
    ensures { IfOk result (λ copies. copies.items ≡ frames.now) }
{
    let mut copies = Vec::with_capacity(alloc, frames.len().saturating_add(ROOM))?;
    for frame in frames {
        copies.push(frame.try_clone(alloc)?)?;
    }
    Ok(copies)
}

// The transactions that frames enter, the outermost first.
#[tactic(auto, using(crate::proofs::Stacks::inside_push))]
fn names_of(alloc: Global, frames: &[Frame]) -> Result<Vec<TxName>, AllocError>
    ensures { IfOk result (λ names. names.items ≡ inside_of (stack frames.now)) }
{
    let mut names = Vec::new(alloc);
    for frame in frames {
        if let Frame::Isolate { name, .. } = frame {
            names.push(*name)?;
        }
    }
    Ok(names)
}

impl Suspended {
    /// A copy, equal to its source.
    pub fn try_clone(&self, alloc: Global) -> Result<Suspended, AllocError>
        ensures { IfOk result (λ copy. suspended_of copy ≡ suspended_of self.now) }
    {
        Ok(Suspended {
            env: self.env.try_clone(alloc)?,
            frames: clone_frames(alloc, self.frames.as_slice())?,
            shades: self.shades.try_clone(alloc)?,
        })
    }

    /// The transactions that the page is inside, the outermost first.
    pub fn inside(&self, alloc: Global) -> Result<Vec<TxName>, AllocError>
        ensures { IfOk result (λ names. names.items ≡ inside_of (stack self.now.frames.items)) }
    {
        names_of(alloc, self.frames.as_slice())
    }
}
