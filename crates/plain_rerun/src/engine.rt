ghost use Rattle.std.specs.Prelude.{◌≡◌, ◌<◌, ◌^◌, [], ◌∷◌, ◌++◌, length, IfOk, OnOk, IsTrue};
ghost use Rattle.script_value.specs.Views.{meaning};
ghost use Rattle.prim_spec.specs.Table.{takes};
ghost use Rattle.script_nodes.specs.Arena.{script_of};
ghost use Rattle.script_nodes.specs.Calls.{CallsBelow};
ghost use Rattle.segments.specs.Views.{segment_of, tape_of};
ghost use Rattle.replay_spec.specs.Eval.{calls_in, value_at, copied, run};
ghost use Rattle.segment_progress.specs.Halts.{how_of};
ghost use Rattle.plain_rerun.specs.Parts.{tree, trees, node_at, all_at, let_at, if_at, for_at, prim_at, call_at, send_at, isolate_at, shadow_at, set_at, add_at, joined, stops_at, first_turns, turns_at, AreBehind};
ghost use Rattle.segment_progress.specs.States.{inside_of};
ghost use Rattle.plain_rerun.specs.Runs.{Runs, TellsStopOf};

use crate::goes_on::GoesOn;
use crate::nodes::{node_of, task_of};
use script_nodes::{Node, Numbers, Script, SendKind};
use script_value::{Items, Op, Value};
use segment_progress::{Halt, How, Progress, applied, halt_at, is_false, turn_count};
use segments::{RunResult, Tape};
use std::alloc::{AllocError, Global};
use std::mem;

// A run of a script: the values of the variables in scope, and how far the tape was used.
#[derive(Drop)]
struct Engine<'t> {
    alloc: Global,
    env: Items,
    progress: Progress<'t>,
}

impl<'t> Engine<'t> {
    // The value of a node over what is left of the tape.
    #[cycle(visit)]
    fn visit(&mut self, script: &Script, below: usize, number: u32) -> Result<Value, Halt>
        requires number { number < length script.now.nodes }
        requires calls { CallsBelow below (tree script.now number) }
        ensures gives { Runs meaning result self.old self.new (node_at script.now number) }
        ensures inside { OnOk result (inside_of self.new.progress ≡ inside_of self.old.progress) }
        ensures env { OnOk result (self.new.env ≡ self.old.env) }
    {
        match node_of(script, below, number) {
            Node::Lit(value) => self.progress.copy_of(self.alloc, Some(value)),
            Node::Var(place) => self.variable(*place),
            Node::Let { bindings, body } => self.visit_let(script, below, number, bindings, *body),
            Node::Seq { parts } => self.visit_while(script, below, number, GoesOn::Always, parts),
            Node::If {
                test,
                then,
                otherwise,
            } => self.visit_if(script, below, number, *test, *then, *otherwise),
            Node::And { parts } => self.visit_while(
                script,
                below,
                number,
                GoesOn::WhileTrue,
                parts,
            ),
            Node::Or { parts } => self.visit_while(
                script,
                below,
                number,
                GoesOn::WhileFalse,
                parts,
            ),
            Node::For { count, body } => self.visit_for(script, below, number, *count, *body),
            Node::Prim { op, operands } => self.visit_prim(script, below, number, *op, operands),
            Node::Call { task, operands } => {
                self.visit_call(script, below, number, *task, operands)
            }
            Node::Send { kind, body } => self.visit_send(script, below, number, *kind, *body),
            Node::Finish { body } => self.visit_last(script, below, number, How::Finishes, *body),
            Node::Back { body } => self.visit_last(script, below, number, How::Ends, *body),
            Node::Isolate { body } => self.visit_isolate(script, below, number, *body),
            Node::CellRef { cell } => self.progress.web_cell(self.alloc, *cell),
            Node::CellShadow { cell, value } => self.visit_shadow(
                script, below, number, *cell, *value,
            ),
            Node::InstRef { cell } => self.progress.instance_cell(self.alloc, *cell),
            Node::InstSet { cell, value } => self.visit_set(script, below, number, *cell, *value),
            Node::InstAdd { cell, value } => self.visit_add(script, below, number, *cell, *value),
        }
    }

    // A variable's value.
    fn variable(&mut self, place: usize) -> Result<Value, Halt>
        ensures gives { Runs meaning result self.old self.new (λ env inside. copied inside (value_at env place)) }
        ensures told { TellsStopOf result self.old (λ env inside. copied inside (value_at env place)) }
        ensures inside { inside_of self.new.progress ≡ inside_of self.old.progress }
        ensures env { self.new.env ≡ self.old.env }
    {
        self.progress.copy_of(self.alloc, self.env.get(place))
    }

    // The bindings, left to right, and then the body with their values.
    #[cycle(visit)]
    #[tactic(auto, using(crate::proofs::Goes::last_is_under))]
    fn visit_let(
        &mut self,
        script: &Script,
        below: usize,
        number: u32,
        bindings: &Numbers,
        body: u32,
    ) -> Result<Value, Halt>
        requires { AreBehind script.now below number (bindings.now ++ body ∷ []) }
        ensures gives { Runs meaning result self.old self.new (let_at script.now bindings.now body) }
        ensures inside { OnOk result (inside_of self.new.progress ≡ inside_of self.old.progress) }
        ensures env { OnOk result (self.new.env ≡ self.old.env) }
    {
        self.progress.charge(1)?;
        let depth = self.env.len();
        let values = self.visit_all(script, below, number, bindings.as_slice())?;
        self.env.append(values)?;
        let value = self.visit(script, below, body)?;
        self.env.truncate(depth);
        Ok(value)
    }

    // The parts, left to right, as long as their values pass: the last value.
    #[cycle(visit)]
    fn visit_while(
        &mut self,
        script: &Script,
        below: usize,
        number: u32,
        goes_on: GoesOn,
        parts: &Numbers,
    ) -> Result<Value, Halt>
        requires { AreBehind script.now below number parts.now }
        ensures gives { Runs meaning result self.old self.new (joined script.now goes_on (trees script.now parts.now)) }
        ensures inside { OnOk result (inside_of self.new.progress ≡ inside_of self.old.progress) }
        ensures env { OnOk result (self.new.env ≡ self.old.env) }
    {
        self.progress.charge(1)?;
        let mut last = goes_on.start();
        for part in parts.as_slice() {
            last = self.visit(script, below, *part)?;
            if !goes_on.passes(&last) {
                return Ok(last);
            }
        }
        Ok(last)
    }

    // The test, and then one of the two others.
    #[cycle(visit)]
    fn visit_if(
        &mut self,
        script: &Script,
        below: usize,
        number: u32,
        test: u32,
        then: u32,
        otherwise: u32,
    ) -> Result<Value, Halt>
        requires { AreBehind script.now below number (test ∷ then ∷ otherwise ∷ []) }
        ensures gives { Runs meaning result self.old self.new (if_at script.now test then otherwise) }
        ensures inside { OnOk result (inside_of self.new.progress ≡ inside_of self.old.progress) }
        ensures env { OnOk result (self.new.env ≡ self.old.env) }
    {
        self.progress.charge(1)?;
        let value = self.visit(script, below, test)?;
        if is_false(&value) {
            self.visit(script, below, otherwise)
        } else {
            self.visit(script, below, then)
        }
    }

    // The list of the values of the body, in as many turns as the count says.
    #[cycle(visit)]
    fn visit_for(
        &mut self,
        script: &Script,
        below: usize,
        number: u32,
        count: u32,
        body: u32,
    ) -> Result<Value, Halt>
        requires { AreBehind script.now below number (count ∷ body ∷ []) }
        ensures gives { Runs meaning result self.old self.new (for_at script.now count body) }
        ensures inside { OnOk result (inside_of self.new.progress ≡ inside_of self.old.progress) }
        ensures env { OnOk result (self.new.env ≡ self.old.env) }
    {
        self.progress.charge(1)?;
        let count = self.visit(script, below, count)?;
        self.visit_body(script, below, count, body)
    }

    // The list of the values of as many turns of a body as this value says.
    #[cycle(visit)]
    #[tactic(auto, using(crate::proofs::Turns::no_turns, crate::proofs::Turns::turns_listed, crate::proofs::Turns::turns_cut))]
    fn visit_body(
        &mut self,
        script: &Script,
        below: usize,
        count: Value,
        body: u32,
    ) -> Result<Value, Halt>
        requires body { body < length script.now.nodes }
        requires calls { CallsBelow below (tree script.now body) }
        ensures gives { Runs meaning result self.old self.new (turns_at script.now (meaning count) (tree script.now body)) }
        ensures inside { OnOk result (inside_of self.new.progress ≡ inside_of self.old.progress) }
        ensures env { OnOk result (self.new.env ≡ self.old.env) }
    {
        let count = turn_count(count)?;
        let values = self.visit_turns(script, below, count, body)?;
        applied(self.alloc, Op::List, values)
    }

    // The values of so many turns of a body, whose last variable is the turn.
    #[cycle(visit)]
    #[tactic(auto, using(crate::proofs::Turns::turns_stop))]
    fn visit_turns(
        &mut self,
        script: &Script,
        below: usize,
        count: u64,
        body: u32,
    ) -> Result<Items, Halt>
        requires body { body < length script.now.nodes }
        requires calls { CallsBelow below (tree script.now body) }
        requires count { count < 2 ^ 63 }
        ensures gives { Runs (λ vs. vs) result self.old self.new (first_turns script.now count (tree script.now body)) }
        ensures inside { OnOk result (inside_of self.new.progress ≡ inside_of self.old.progress) }
        ensures env { OnOk result (self.new.env ≡ self.old.env) }
    {
        let depth = self.env.len();
        let mut values = Items::new(self.alloc);
        for turn in 0..count {
            self.env.push(Value::Int(turn as i64))?;
            let value = self.visit(script, below, body)?;
            self.env.truncate(depth);
            values.push(value)?;
        }
        Ok(values)
    }

    // An operation over the values of its operands.
    #[cycle(visit)]
    fn visit_prim(
        &mut self,
        script: &Script,
        below: usize,
        number: u32,
        op: Op,
        operands: &Numbers,
    ) -> Result<Value, Halt>
        requires behind { AreBehind script.now below number operands.now }
        requires full { IsTrue (takes op (length operands.now)) }
        ensures gives { Runs meaning result self.old self.new (prim_at script.now op operands.now) }
        ensures inside { OnOk result (inside_of self.new.progress ≡ inside_of self.old.progress) }
        ensures env { OnOk result (self.new.env ≡ self.old.env) }
    {
        self.progress.charge(1)?;
        let values = self.visit_all(script, below, number, operands.as_slice())?;
        applied(self.alloc, op, values)
    }

    // A task over the values of its operands, which are the only variables of its body.
    #[cycle(visit)]
    #[tactic(auto, using(crate::proofs::Rounds::earlier))]
    fn visit_call(
        &mut self,
        script: &Script,
        below: usize,
        number: u32,
        task: u8,
        operands: &Numbers,
    ) -> Result<Value, Halt>
        requires behind { AreBehind script.now below number operands.now }
        requires earlier { task < below }
        requires task { task < length script.now.tasks }
        ensures gives { Runs meaning result self.old self.new (call_at script.now task operands.now) }
        ensures inside { OnOk result (inside_of self.new.progress ≡ inside_of self.old.progress) }
        ensures env { OnOk result (self.new.env ≡ self.old.env) }
    {
        self.progress.charge(1)?;
        let values = self.visit_all(script, below, number, operands.as_slice())?;
        let outer = mem::replace(&mut self.env, values);
        let value = self.visit_task(script, task)?;
        self.env = outer;
        Ok(value)
    }

    // The body of a task, which calls earlier tasks alone.
    #[cycle(visit)]
    fn visit_task(&mut self, script: &Script, task: u8) -> Result<Value, Halt>
        requires { task < length script.now.tasks }
        ensures gives { Runs meaning result self.old self.new (calls_in script.now task) }
        ensures inside { OnOk result (inside_of self.new.progress ≡ inside_of self.old.progress) }
        ensures env { OnOk result (self.new.env ≡ self.old.env) }
    {
        self.visit(script, task as usize, task_of(script, task))
    }

    // The page that the body gives for the URL is sent: the answer to it.
    #[cycle(visit)]
    fn visit_send(
        &mut self,
        script: &Script,
        below: usize,
        number: u32,
        kind: SendKind,
        body: u32,
    ) -> Result<Value, Halt>
        requires { AreBehind script.now below number (body ∷ []) }
        ensures gives { Runs meaning result self.old self.new (send_at script.now kind body) }
        ensures inside { OnOk result (inside_of self.new.progress ≡ inside_of self.old.progress) }
        ensures env { OnOk result (self.new.env ≡ self.old.env) }
    {
        self.progress.charge(1)?;
        let depth = self.env.len();
        let url = self.progress.url(self.alloc)?;
        self.env.push(url)?;
        let page = self.visit(script, below, body)?;
        self.env.truncate(depth);
        self.progress.send(self.alloc, kind, &page)
    }

    // The page that the body gives stops the segment.
    #[cycle(visit)]
    fn visit_last(
        &mut self,
        script: &Script,
        below: usize,
        number: u32,
        how: How,
        body: u32,
    ) -> Result<Value, Halt>
        requires { AreBehind script.now below number (body ∷ []) }
        ensures gives { Runs meaning result self.old self.new (stops_at script.now (how_of how) (tree script.now body)) }
        ensures inside { OnOk result (inside_of self.new.progress ≡ inside_of self.old.progress) }
        ensures env { OnOk result (self.new.env ≡ self.old.env) }
    {
        self.progress.charge(1)?;
        let page = self.visit(script, below, body)?;
        Err(halt_at(self.alloc, how, &page))
    }

    // A transaction round its part.
    #[cycle(visit)]
    fn visit_isolate(
        &mut self,
        script: &Script,
        below: usize,
        number: u32,
        body: u32,
    ) -> Result<Value, Halt>
        requires { AreBehind script.now below number (body ∷ []) }
        ensures gives { Runs meaning result self.old self.new (isolate_at script.now body) }
        ensures inside { OnOk result (inside_of self.new.progress ≡ inside_of self.old.progress) }
        ensures env { OnOk result (self.new.env ≡ self.old.env) }
    {
        let outside = self.progress.depth();
        let name = self.progress.enter()?;
        let value = self.visit(script, below, body)?;
        Ok(self.progress.leave(outside, name, value)?)
    }

    // A web cell is bound to the value of the part.
    #[cycle(visit)]
    fn visit_shadow(
        &mut self,
        script: &Script,
        below: usize,
        number: u32,
        cell: u8,
        value: u32,
    ) -> Result<Value, Halt>
        requires { AreBehind script.now below number (value ∷ []) }
        ensures gives { Runs meaning result self.old self.new (shadow_at script.now cell value) }
        ensures inside { OnOk result (inside_of self.new.progress ≡ inside_of self.old.progress) }
        ensures env { OnOk result (self.new.env ≡ self.old.env) }
    {
        self.progress.charge(1)?;
        let value = self.visit(script, below, value)?;
        Ok(self.progress.shadow(cell, value)?)
    }

    // An instance cell is set to the value of the part.
    #[cycle(visit)]
    fn visit_set(
        &mut self,
        script: &Script,
        below: usize,
        number: u32,
        cell: u8,
        value: u32,
    ) -> Result<Value, Halt>
        requires { AreBehind script.now below number (value ∷ []) }
        ensures gives { Runs meaning result self.old self.new (set_at script.now cell value) }
        ensures inside { OnOk result (inside_of self.new.progress ≡ inside_of self.old.progress) }
        ensures env { OnOk result (self.new.env ≡ self.old.env) }
    {
        self.progress.charge(1)?;
        let value = self.visit(script, below, value)?;
        Ok(self.progress.set_cell(self.alloc, cell, value)?)
    }

    // The value of the part is added to an instance cell.
    #[cycle(visit)]
    fn visit_add(
        &mut self,
        script: &Script,
        below: usize,
        number: u32,
        cell: u8,
        value: u32,
    ) -> Result<Value, Halt>
        requires { AreBehind script.now below number (value ∷ []) }
        ensures gives { Runs meaning result self.old self.new (add_at script.now cell value) }
        ensures inside { OnOk result (inside_of self.new.progress ≡ inside_of self.old.progress) }
        ensures env { OnOk result (self.new.env ≡ self.old.env) }
    {
        self.progress.charge(1)?;
        let operand = self.visit(script, below, value)?;
        self.progress.add_cell(self.alloc, cell, &operand)
    }

    // The values of parts, left to right.
    #[cycle(visit)]
    fn visit_all(
        &mut self,
        script: &Script,
        below: usize,
        number: u32,
        parts: &[u32],
    ) -> Result<Items, Halt>
        requires { AreBehind script.now below number parts.now }
        ensures gives { Runs (λ vs. vs) result self.old self.new (all_at script.now parts.now) }
        ensures inside { OnOk result (inside_of self.new.progress ≡ inside_of self.old.progress) }
        ensures env { OnOk result (self.new.env ≡ self.old.env) }
        ensures each { IfOk result (λ vs. length vs ≡ length parts.now) }
    {
        let mut values = Items::new(self.alloc);
        for part in parts {
            let value = self.visit(script, below, *part)?;
            values.push(value)?;
        }
        Ok(values)
    }
}

/// Runs a script from its start over a tape, and says what it comes to.
///
/// Where memory runs out, there is no answer. The time that it takes grows with the costs of the tape's segments.
#[tactic(auto, using(crate::proofs::Under::begins))]
pub fn rerun(alloc: Global, script: &Script, tape: &Tape) -> Result<RunResult, AllocError>
    ensures { IfOk result (λ r. segment_of r ≡ run (script_of script.now) (tape_of tape.now)) }
{
    let mut engine = Engine {
        alloc,
        env: Items::new(alloc),
        progress: Progress::begin(alloc, script.web_defaults(), tape)?,
    };
    let halt = match engine.visit(script, script.count(), script.root()) {
        Ok(page) => halt_at(alloc, How::Ends, &page),
        Err(halt) => halt,
    };
    match halt {
        Halt::Stopped(end) => Ok(engine.progress.into_result(alloc, end)),
        Halt::Memory => Err(AllocError),
    }
}
