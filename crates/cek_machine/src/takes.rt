ghost use Rattle.std.specs.Prelude.{◌<◌, ◌+◌, ◌-◌, OnOk, length};
ghost use Rattle.script_value.specs.Views.{meaning};
ghost use Rattle.segments.specs.ReplaySpec.Tape.{leave};
ghost use Rattle.machine_states.specs.declared.frame.Frame.TheVariants as frame;
ghost use Rattle.cek_machine.specs.Kinds.{IsNodeAt, IsFor, IsIf, IsStore, IsRowAt, IsPrimAt, IsCallAt, IsLetAt, Stands};
ghost use Rattle.cek_machine.specs.Spots.{Gives, Takes, TakesTurn, TurnsOn, Sound, SoundUnder};

use crate::control::Control;
use crate::nodes::{behind, node_of, row_of, turn_behind};
use crate::spot::Spot;
use machine_states::Frame;
use script_nodes::{Node, Script};
use script_value::{Items, Op, TxName, Value};
use segment_progress::{Halt, How, applied, halt_at, is_false, turn_count};
use std::alloc::Global;

impl<'t> Spot<'t> {
    // A binding is done: the next, or the body.
    fn take_binding(
        &mut self,
        script: &Script,
        node: u32,
        done: Items,
        value: Value,
    ) -> Result<Control, Halt>
        requires sound { Sound self.old }
        requires stands { IsLetAt script.now node (length done) }
        ensures gives { Takes result self.old self.new script.now (frame.Binding node done) value }
        ensures sound { OnOk result (Sound self.new) }
    {
        match node_of(script, node) {
            Node::Let { bindings, body } => {
                let left = behind(bindings.as_slice(), done.len());
                let mut done = done;
                done.push(value)?;
                self.next_binding(node, left, *body, done)
            }
            _ => unreachable!(),
        }
    }

    // An operand is done: the next, or the operation.
    fn take_operand(
        &mut self,
        script: &Script,
        alloc: Global,
        node: u32,
        done: Items,
        value: Value,
    ) -> Result<Control, Halt>
        requires sound { Sound self.old }
        requires stands { IsPrimAt script.now node (length done) }
        ensures gives { Takes result self.old self.new script.now (frame.Operand node done) value }
        ensures sound { OnOk result (Sound self.new) }
    {
        match node_of(script, node) {
            Node::Prim { op, operands } => {
                let left = behind(operands.as_slice(), done.len());
                let mut done = done;
                done.push(value)?;
                self.next_operand(alloc, node, *op, left, done)
            }
            _ => unreachable!(),
        }
    }

    // An operand of a call is done: the next, or the body of the task.
    fn take_argument(
        &mut self,
        script: &Script,
        node: u32,
        done: Items,
        value: Value,
    ) -> Result<Control, Halt>
        requires sound { Sound self.old }
        requires stands { IsCallAt script.now node (length done) }
        ensures gives { Takes result self.old self.new script.now (frame.Call node done) value }
        ensures sound { OnOk result (Sound self.new) }
    {
        match node_of(script, node) {
            Node::Call { task, operands } => {
                let left = behind(operands.as_slice(), done.len());
                let mut done = done;
                done.push(value)?;
                self.next_argument(node, script.task(*task), left, done)
            }
            _ => unreachable!(),
        }
    }

    // A part of a sequence is done: the next, or its value.
    fn take_seq(
        &mut self,
        script: &Script,
        node: u32,
        part: usize,
        value: Value,
    ) -> Result<Control, Halt>
        requires sound { Sound self.old }
        requires stands { IsRowAt script.now node part }
        ensures gives { Takes result self.old self.new script.now (frame.Seq node part) value }
        ensures sound { OnOk result (Sound self.new) }
    {
        let left = behind(row_of(node_of(script, node)), part);
        let next = Frame::Seq {
            node,
            part: part + 1,
        };
        self.next_part(next, left, value)
    }

    // A part of a conjunction is done: the next, unless it is false.
    fn take_and(
        &mut self,
        script: &Script,
        node: u32,
        part: usize,
        value: Value,
    ) -> Result<Control, Halt>
        requires sound { Sound self.old }
        requires stands { IsRowAt script.now node part }
        ensures gives { Takes result self.old self.new script.now (frame.And node part) value }
        ensures sound { OnOk result (Sound self.new) }
    {
        if is_false(&value) {
            return Ok(Control::Give(value));
        }
        let left = behind(row_of(node_of(script, node)), part);
        let next = Frame::And {
            node,
            part: part + 1,
        };
        self.next_part(next, left, value)
    }

    // A part of a disjunction is done: the next, if it is false.
    fn take_or(
        &mut self,
        script: &Script,
        node: u32,
        part: usize,
        value: Value,
    ) -> Result<Control, Halt>
        requires sound { Sound self.old }
        requires stands { IsRowAt script.now node part }
        ensures gives { Takes result self.old self.new script.now (frame.Or node part) value }
        ensures sound { OnOk result (Sound self.new) }
    {
        if !is_false(&value) {
            return Ok(Control::Give(value));
        }
        let left = behind(row_of(node_of(script, node)), part);
        let next = Frame::Or {
            node,
            part: part + 1,
        };
        self.next_part(next, left, value)
    }

    // The test is done: what it chooses. What was chosen is done: its value.
    fn take_if(
        &mut self,
        script: &Script,
        node: u32,
        part: usize,
        value: Value,
    ) -> Result<Control, Halt>
        requires sound { Sound self.old }
        requires stands { IsNodeAt script.now IsIf node }
        ensures gives { Takes result self.old self.new script.now (frame.If node part) value }
        ensures sound { OnOk result (Sound self.new) }
    {
        if part != 0 {
            return Ok(Control::Give(value));
        }
        match node_of(script, node) {
            Node::If {
                then,
                otherwise,
                ..
            } => {
                if is_false(&value) {
                    self.work(Frame::If { node, part: 2 }, *otherwise)
                } else {
                    self.work(Frame::If { node, part: 1 }, *then)
                }
            }
            _ => unreachable!(),
        }
    }

    // What a cell is given is done: the cell has it.
    fn take_store(
        &mut self,
        script: &Script,
        alloc: Global,
        node: u32,
        value: Value,
    ) -> Result<Control, Halt>
        requires sound { Sound self.old }
        requires stands { IsNodeAt script.now IsStore node }
        ensures gives { Takes result self.old self.new script.now (frame.Store node) value }
        ensures sound { OnOk result (Sound self.new) }
    {
        match node_of(script, node) {
            Node::CellShadow { cell, .. } => self.shadow(*cell, value),
            Node::InstSet { cell, .. } => self.set_cell(alloc, *cell, value),
            Node::InstAdd { cell, .. } => self.add_cell(alloc, *cell, &value),
            _ => unreachable!(),
        }
    }

    // What stands in a transaction is done: it is left.
    fn take_isolate(&mut self, node: u32, name: TxName, value: Value) -> Result<Control, Halt>
        requires { SoundUnder (frame.Isolate node name) self.old }
        ensures gives { Gives result self.old self.new (λ inside. leave name (meaning value)) }
        ensures sound { OnOk result (Sound self.new) }
    {
        let outside = self.progress.depth() - 1;
        let value = self.progress.leave(outside, name, value)?;
        Ok(Control::Give(value))
    }

    // The next of the turns; after them the list of their values is given.
    #[tactic(auto, using(crate::proofs::Turns::more_turns, crate::proofs::Turns::no_turns))]
    fn next_turn(
        &mut self,
        alloc: Global,
        node: u32,
        turns: u64,
        body: u32,
        done: Items,
    ) -> Result<Control, Halt>
        requires { Sound self.old }
        ensures gives { TurnsOn result self.old self.new node turns body done }
        ensures sound { OnOk result (Sound self.new) }
    {
        if (done.len() as u64) < turns {
            let turn = turn_behind(&done);
            self.env.push(Value::Int(turn))?;
            self.work(Frame::Turn { node, turns, done }, body)
        } else {
            let value = applied(alloc, Op::List, done)?;
            Ok(Control::Give(value))
        }
    }

    // A turn is done.
    #[tactic(auto, using(crate::proofs::Turns::one_done))]
    fn take_turn(
        &mut self,
        script: &Script,
        alloc: Global,
        node: u32,
        turns: u64,
        done: Items,
        value: Value,
    ) -> Result<Control, Halt>
        requires sound { Sound self.old }
        requires stands { IsNodeAt script.now IsFor node }
        ensures gives { TakesTurn result self.old self.new script.now node turns done value }
        ensures sound { OnOk result (Sound self.new) }
    {
        match node_of(script, node) {
            Node::For { body, .. } => {
                let mut done = done;
                done.push(value)?;
                self.next_turn(alloc, node, turns, *body, done)
            }
            _ => unreachable!(),
        }
    }

    // The count of turns is done: the first turn.
    #[tactic(auto, using(crate::proofs::Turns::all_turns, crate::proofs::Turns::no_count))]
    fn take_count(
        &mut self,
        script: &Script,
        alloc: Global,
        node: u32,
        value: Value,
    ) -> Result<Control, Halt>
        requires sound { Sound self.old }
        requires stands { IsNodeAt script.now IsFor node }
        ensures gives { Takes result self.old self.new script.now (frame.Count node) value }
        ensures sound { OnOk result (Sound self.new) }
    {
        match node_of(script, node) {
            Node::For { body, .. } => {
                let turns = turn_count(value)?;
                self.next_turn(alloc, node, turns, *body, Items::new(alloc))
            }
            _ => unreachable!(),
        }
    }

    /// A frame that was popped takes the value of its part.
    #[tactic(auto, using(crate::proofs::Taken::paged_takes))]
    pub fn take(
        &mut self,
        script: &Script,
        alloc: Global,
        frame: Frame,
        value: Value,
    ) -> Result<Control, Halt>
        requires sound { SoundUnder frame self.old }
        requires stands { Stands script.now frame }
        ensures gives { Takes result self.old self.new script.now frame value }
        ensures sound { OnOk result (Sound self.new) }
    {
        match frame {
            Frame::Binding { node, done } => self.take_binding(script, node, done, value),
            Frame::Operand { node, done } => self.take_operand(script, alloc, node, done, value),
            Frame::Call { node, done } => self.take_argument(script, node, done, value),
            Frame::Task { .. } => Ok(Control::Give(value)),
            Frame::Body { .. } => Ok(Control::Give(value)),
            Frame::Seq { node, part } => self.take_seq(script, node, part, value),
            Frame::And { node, part } => self.take_and(script, node, part, value),
            Frame::Or { node, part } => self.take_or(script, node, part, value),
            Frame::If { node, part } => self.take_if(script, node, part, value),
            Frame::Count { node } => self.take_count(script, alloc, node, value),
            Frame::Store { node } => self.take_store(script, alloc, node, value),
            Frame::Turn { node, turns, done } => {
                self.take_turn(script, alloc, node, turns, done, value)
            }
            Frame::Isolate { node, name } => self.take_isolate(node, name, value),
            Frame::Page { kind, .. } => self.send(alloc, kind, &value),
            Frame::Finish { .. } => Err(halt_at(alloc, How::Finishes, &value)),
            Frame::Back { .. } => Err(halt_at(alloc, How::Ends, &value)),
        }
    }
}
