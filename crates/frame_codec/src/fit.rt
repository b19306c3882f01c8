ghost use Rattle.std.specs.Prelude.{◌≡◌, ◌↔◌, ◌<◌, ◌∷◌, IsTrue, IfSome, IsNone, map, pos, length, false, slice_get};
ghost use Rattle.script_value.specs.Val.{number};
ghost use Rattle.script_value.specs.Views.{meaning};
ghost use Rattle.script_value.specs.declared.value.Value.TheVariants as value;
ghost use Rattle.web_cells.specs.Views.{pair_of};
ghost use Rattle.script_nodes.specs.Arena.{IsOnTasks};
ghost use Rattle.script_nodes.specs.declared.script.Node.TheVariants as node;
ghost use Rattle.machine_states.specs.Machine.{node_at};
ghost use Rattle.machine_states.specs.Fits as fits;
ghost use Rattle.machine_states.specs.Views.{frame_of};
ghost use Rattle.frame_codec.specs.Reading.{bindings_of, operands_of};
ghost use Rattle.frame_codec.specs.Walk as spec;
ghost use Rattle.frame_codec.specs.Views.{IsAround, Enters, WalksTo, TellsFit};

use machine_states::Frame;
use script_nodes::{Node, Script};
use script_value::Value;
use web_cells::Shadow;

// A node that has to be worked on, and how many variables are in scope there.
#[derive(Drop)]
struct Place {
    node: u32,
    scope: usize,
}

// The node of a number, if there is one.
#[tactic(auto, using(crate::proofs::Nodes::node_there, crate::proofs::Nodes::no_node))]
fn node_at(script: &Script, number: u32) -> Option<&Node>
    ensures some { IfSome result (λ x. x.now ≡ node_at script.now number) }
    ensures tasks { IfSome result (λ x. IsOnTasks (length script.now.tasks) x.now) }
    ensures none { IsNone result → node_at script.now number ≡ node.Lit (value.Truth false) }
{
    if (number as usize) < script.count() {
        Some(script.node(number))
    } else {
        None
    }
}

/// How many bindings a node has; 0 where it is no Let.
pub fn bindings_of(script: &Script, number: u32) -> usize
    ensures { result ≡ bindings_of script.now number }
{
    match node_at(script, number) {
        Some(Node::Let { bindings, .. }) => bindings.as_slice().len(),
        Some(_) => 0,
        None => 0,
    }
}

/// How many operands a call has; 0 where a node is none.
pub fn operands_of(script: &Script, number: u32) -> usize
    ensures { result ≡ operands_of script.now number }
{
    match node_at(script, number) {
        Some(Node::Call { operands, .. }) => operands.as_slice().len(),
        Some(_) => 0,
        None => 0,
    }
}

// The node that a frame works on.
fn node_of(frame: &Frame) -> u32
    ensures { result ≡ fits.node_of (frame_of frame.now) }
{
    match frame {
        Frame::Binding { node, .. } => *node,
        Frame::Operand { node, .. } => *node,
        Frame::Body { node, .. } => *node,
        Frame::Seq { node, .. } => *node,
        Frame::And { node, .. } => *node,
        Frame::Or { node, .. } => *node,
        Frame::If { node, .. } => *node,
        Frame::Count { node } => *node,
        Frame::Store { node } => *node,
        Frame::Turn { node, .. } => *node,
        Frame::Isolate { node, .. } => *node,
        Frame::Call { node, .. } => *node,
        Frame::Task { node, .. } => *node,
        Frame::Page { node, .. } => *node,
        Frame::Finish { node } => *node,
        Frame::Back { node } => *node,
    }
}

// The part of a node that a frame works on; none where the frame is not of the node's kind.
#[tactic(auto, using(crate::proofs::Nodes::task_there))]
fn part_worked(script: &Script, node: &Node, frame: &Frame) -> Option<u32>
    requires { IsOnTasks (length script.now.tasks) node.now }
    ensures { result ≡ spec.part_worked script.now node.now (frame_of frame.now) }
{
    match node {
        Node::Let { bindings, body } => match frame {
            Frame::Binding { done, .. } => bindings.as_slice().get(done.len()).copied(),
            Frame::Body { bound, .. } => (*bound == bindings.as_slice().len()).then_some(*body),
            _ => None,
        },
        Node::Seq { parts } => match frame {
            Frame::Seq { part, .. } => parts.as_slice().get(*part).copied(),
            _ => None,
        },
        Node::If {
            test,
            then,
            otherwise,
        } => match frame {
            Frame::If { part, .. } => [*test, *then, *otherwise].get(*part).copied(),
            _ => None,
        },
        Node::And { parts } => match frame {
            Frame::And { part, .. } => parts.as_slice().get(*part).copied(),
            _ => None,
        },
        Node::Or { parts } => match frame {
            Frame::Or { part, .. } => parts.as_slice().get(*part).copied(),
            _ => None,
        },
        Node::Prim { operands, .. } => match frame {
            Frame::Operand { done, .. } => operands.as_slice().get(done.len()).copied(),
            _ => None,
        },
        Node::Call { task, operands } => match frame {
            Frame::Call { done, .. } => operands.as_slice().get(done.len()).copied(),
            Frame::Task { part, .. } => {
                let first = script.task(*task);
                (*part == operands.as_slice().len()).then_some(first)
            }
            _ => None,
        },
        Node::For { count, body } => match frame {
            Frame::Count { .. } => Some(*count),
            Frame::Turn { turns, done, .. } => ((done.len() as u64) < *turns).then_some(*body),
            _ => None,
        },
        Node::CellShadow { value, .. } => match frame {
            Frame::Store { .. } => Some(*value),
            _ => None,
        },
        Node::InstSet { value, .. } => match frame {
            Frame::Store { .. } => Some(*value),
            _ => None,
        },
        Node::InstAdd { value, .. } => match frame {
            Frame::Store { .. } => Some(*value),
            _ => None,
        },
        Node::Isolate { body } => match frame {
            Frame::Isolate { .. } => Some(*body),
            _ => None,
        },
        _ => None,
    }
}

// Whether a value is this number.
fn is_number(value: &Value, count: usize) -> bool
    ensures { IsTrue result ↔ (meaning value.now ≡ number (pos count)) }
{
    match value {
        Value::Int(found) => {
            let found = *found;
            count <= i64::MAX as usize && found == count as i64
        }
        _ => false,
    }
}

// One more variable, where it is this number.
#[tactic(auto, using(crate::proofs::Nodes::numbered_so, crate::proofs::Nodes::not_numbered, crate::proofs::Nodes::none_numbered))]
fn numbered(turn: usize, scope: usize, env: &[Value]) -> Option<usize>
    ensures { result ≡ spec.numbered turn scope (slice_get (map meaning env.now) scope) }
{
    let value = env.get(scope)?;
    if is_number(value, turn) {
        Some(scope + 1)
    } else {
        None
    }
}

// How many variables there are in a frame's part, where there are so many outside.
fn scope_in(frame: &Frame, env: &[Value], scope: usize) -> Option<usize>
    ensures { result ≡ spec.scope_in (frame_of frame.now) (map meaning env.now) scope }
{
    match frame {
        Frame::Body { bound, .. } => {
            if *bound <= env.len() && scope <= env.len() - *bound {
                Some(scope + *bound)
            } else {
                None
            }
        }
        Frame::Turn { done, .. } => numbered(done.len(), scope, env),
        Frame::Task { part, outer, .. } => {
            if scope == outer.len() && *part <= env.len() {
                Some(*part)
            } else {
                None
            }
        }
        _ => Some(scope),
    }
}

// The node and the scope that are left to what stands in a frame.
fn enters(script: &Script, env: &[Value], place: &Place, frame: &Frame) -> Option<Place>
    ensures { Enters script.now env.now place.now frame.now result }
{
    if place.node != node_of(frame) {
        return None;
    }
    let node = node_at(script, place.node)?;
    let part = part_worked(script, node, frame)?;
    let scope = scope_in(frame, env, place.scope)?;
    Some(Place { node: part, scope })
}

// The variables of what frames stand in, the outermost frame first.
fn env_of<'a>(env: &'a [Value], frames: &'a [Frame]) -> &'a [Value]
    ensures { IsAround env.now frames.now result.now }
{
    for frame in frames {
        if let Frame::Task { outer, .. } = frame {
            return outer.as_slice();
        }
    }
    env
}

// The variables of what the frames after this one stand in, where those of this one and the others are given. Only after a
// task are they looked for again, so a walk looks at each frame once.
fn env_behind<'a>(
    env: &'a [Value],
    around: &'a [Value],
    frame: &Frame,
    others: &'a [Frame],
) -> &'a [Value]
    requires { IsAround env.now (frame.now ∷ others.now) around.now }
    ensures { IsAround env.now others.now result.now }
{
    match frame {
        Frame::Task { .. } => env_of(env, others),
        _ => around,
    }
}

// The node and the scope after frames, the outermost first.
fn walk(script: &Script, env: &[Value], frames: &[Frame]) -> Option<Place>
    ensures { WalksTo script.now env.now frames.now result }
{
    let mut place = Place { node: 0, scope: 0 };
    let mut around = env_of(env, frames);
    let mut left = frames;
    while let [frame, others @ ..] = left {
        around = env_behind(env, around, frame, others);
        place = enters(script, around, &place, frame)?;
        left = others;
    }
    Some(place)
}

fn is_send(script: &Script, number: u32) -> bool
    ensures { result ≡ spec.is_send (node_at script.now number) }
{
    match node_at(script, number) {
        Some(Node::Send { .. }) => true,
        Some(_) => false,
        None => false,
    }
}

/// Whether frames, the outermost first, work on a node that sends a page, with these variables.
pub fn frames_fit(script: &Script, env: &[Value], frames: &[Frame]) -> bool
    ensures { TellsFit script.now env.now frames.now result }
{
    match walk(script, env, frames) {
        Some(place) => place.scope == env.len() && is_send(script, place.node),
        None => false,
    }
}

/// Whether bindings name web cells of the script, the cells rising.
pub fn shadows_fit(cells: usize, shadows: &[Shadow]) -> bool
    ensures { result ≡ spec.shadows_fit 0 cells (map pair_of shadows.now) }
{
    let mut least = 0;
    for shadow in shadows {
        let cell = shadow.cell as usize;
        if cell < least || cells <= cell {
            return false;
        }
        least = cell + 1;
    }
    true
}
