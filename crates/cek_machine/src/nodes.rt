ghost use Rattle.std.specs.Prelude.{◌≡◌, ◌<◌, ◌+◌, drop, length, pos, suc};
ghost use Rattle.script_nodes.specs.Arena.{IsFull, IsOnTasks, parts};
ghost use Rattle.machine_states.specs.Machine.{node_at};
ghost use Rattle.cek_machine.specs.Kinds.{IsRow};

use script_nodes::{Node, Script};
use script_value::Items;

/// The node of a number.
pub fn node_of(script: &Script, number: u32) -> &Node
    requires { number < length script.now.nodes }
    ensures node { node_at script.now number ≡ result.now }
    ensures full { IsFull result.now }
    ensures tasks { IsOnTasks (length script.now.tasks) result.now }
{
    script.node(number)
}

/// The parts of a sequence, a conjunction or a disjunction.
pub fn row_of(node: &Node) -> &[u32]
    requires { IsRow node.now }
    ensures { result.now ≡ parts node.now }
{
    match node {
        Node::Seq { parts } => parts.as_slice(),
        Node::And { parts } => parts.as_slice(),
        Node::Or { parts } => parts.as_slice(),
        _ => unreachable!(),
    }
}

/// The parts after one that is there.
pub fn behind(parts: &[u32], part: usize) -> &[u32]
    requires { part < length parts.now }
    ensures left { result.now ≡ drop (suc part) parts.now }
    ensures length { part + 1 + length result.now ≡ length parts.now }
{
    &parts[part + 1..]
}

/// The number of the turn after those that are done.
pub fn turn_behind(done: &Items) -> i64
    ensures { result ≡ pos (length done.now) }
{
    done.as_slice().len() as i64
}
