ghost use Rattle.std.specs.Prelude.{◌≡◌, ◌<◌, length};
ghost use Rattle.script_nodes.specs.Arena.{IsFull, IsOnTasks, parts, shape, tree_at};
ghost use Rattle.script_nodes.specs.Calls.{CallsBelow};
ghost use Rattle.replay_spec.specs.Eval.{calls_in, eval};
ghost use Rattle.plain_rerun.specs.Parts.{tree, AreBehind, CallsEarlier};

use script_nodes::{Node, Script};

/// The node of a number: its parts are after it, and call the tasks that it may call.
#[tactic(auto, using(crate::proofs::Under::parts_under, crate::proofs::Under::call_earlier))]
pub fn node_of(script: &Script, below: usize, number: u32) -> &Node
    requires number { number < length script.now.nodes }
    requires calls { CallsBelow below (tree script.now number) }
    ensures behind { AreBehind script.now below number (parts result.now) }
    ensures full { IsFull result.now }
    ensures earlier { CallsEarlier below result.now }
    ensures tasks { IsOnTasks (length script.now.tasks) result.now }
    ensures tree { tree script.now number ≡ shape (tree_at script.now.nodes) result.now }
{
    script.node(number)
}

/// The first node of a task's body, which calls earlier tasks alone.
#[tactic(auto, using(script_nodes::proofs::Below::body_below, replay_spec::proofs::Calling::called))]
pub fn task_of(script: &Script, task: u8) -> u32
    requires { task < length script.now.tasks }
    ensures within { result < length script.now.nodes }
    ensures calls { CallsBelow task (tree script.now result) }
    ensures body { calls_in script.now task ≡ eval (calls_in script.now) (tree script.now result) }
{
    let _number = script.root();
    script.task(task)
}
