ghost use Rattle.std.specs.Prelude.{◌<◌, ◌+◌, ◌-◌, [], length, OnOk, IsTrue};
ghost use Rattle.script_value.specs.Views.{meaning};
ghost use Rattle.prim_spec.specs.Table.{takes};
ghost use Rattle.segments.specs.ReplaySpec.Tape.{shadow, set_cell};
ghost use Rattle.segments.specs.ReplaySpec.Eval.{value_at};
ghost use Rattle.script_nodes.specs.declared.script.Node.TheVariants as variant;
ghost use Rattle.machine_states.specs.Machine.{next_operand, next_argument, next_binding};
ghost use Rattle.cek_machine.specs.Spots.{Moves, Gives, GivesCopy, Sends, Adds, WorksOn, WorksOnNext, Visits, Sound, IsFlat};

use crate::control::Control;
use machine_states::Frame;
use script_nodes::SendKind;
use script_value::{Items, Op, Value};
use segment_progress::{Halt, Progress, applied};
use std::alloc::Global;
use std::mem;

/// Where a machine is, its control aside.
#[derive(Drop)]
pub struct Spot<'t> {
    pub env: Items,
    pub frames: Vec<Frame>,
    pub progress: Progress<'t>,
}

impl<'t> Spot<'t> {
    /// A value that a node names is copied, and given.
    pub fn copy_of(&mut self, alloc: Global, value: &Value) -> Result<Control, Halt>
        requires { Sound self.old }
        ensures gives { GivesCopy result self.old self.new (meaning value.now) }
        ensures sound { OnOk result (Sound self.new) }
    {
        let value = self.progress.copy_of(alloc, Some(value))?;
        Ok(Control::Give(value))
    }

    /// A variable's value is copied, and given.
    pub fn variable(&mut self, alloc: Global, place: usize) -> Result<Control, Halt>
        requires { Sound self.old }
        ensures gives { GivesCopy result self.old self.new (value_at self.old.env place) }
        ensures sound { OnOk result (Sound self.new) }
    {
        let value = self.progress.copy_of(alloc, self.env.get(place))?;
        Ok(Control::Give(value))
    }

    /// The value of a web cell is copied, and given.
    pub fn web_cell(&mut self, alloc: Global, node: u32, cell: u8) -> Result<Control, Halt>
        requires { Sound self.old }
        ensures gives { Visits result self.old self.new node (variant.CellRef cell) }
        ensures sound { OnOk result (Sound self.new) }
    {
        let value = self.progress.web_cell(alloc, cell)?;
        Ok(Control::Give(value))
    }

    /// The value of an instance cell is copied, and given.
    #[tactic(auto, using(crate::proofs::Taken::read_takes))]
    pub fn instance_cell(&mut self, alloc: Global, node: u32, cell: u8) -> Result<Control, Halt>
        requires { Sound self.old }
        ensures gives { Visits result self.old self.new node (variant.InstRef cell) }
        ensures sound { OnOk result (Sound self.new) }
    {
        let value = self.progress.instance_cell(alloc, cell)?;
        Ok(Control::Give(value))
    }

    /// A part is worked on in this frame.
    #[tactic(auto, using(machine_states::proofs::Stacks::stack_push))]
    pub fn work(&mut self, frame: Frame, part: u32) -> Result<Control, Halt>
        requires sound { Sound self.old }
        requires flat { IsFlat frame }
        ensures gives { WorksOn result self.old self.new frame part }
        ensures sound { OnOk result (Sound self.new) }
    {
        self.frames.push(frame)?;
        Ok(Control::Visit(part))
    }

    /// The first of the parts that are left is worked on in this frame; after them the value of the last is given.
    pub fn next_part(&mut self, frame: Frame, left: &[u32], value: Value) -> Result<Control, Halt>
        requires sound { Sound self.old }
        requires flat { IsFlat frame }
        ensures gives { WorksOnNext result self.old self.new frame left.now (meaning value) }
        ensures sound { OnOk result (Sound self.new) }
    {
        match left {
            [] => Ok(Control::Give(value)),
            [part, ..] => self.work(frame, *part),
        }
    }

    /// The first of the operands that are left is worked on; after them the value of the operation is given.
    pub fn next_operand(
        &mut self,
        alloc: Global,
        node: u32,
        op: Op,
        left: &[u32],
        done: Items,
    ) -> Result<Control, Halt>
        requires sound { Sound self.old }
        requires full { IsTrue (takes op (length done + length left.now)) }
        ensures gives { Moves result self.old self.new (next_operand node op left.now done) }
        ensures sound { OnOk result (Sound self.new) }
    {
        match left {
            [] => {
                let value = applied(alloc, op, done)?;
                Ok(Control::Give(value))
            }
            [part, ..] => self.work(Frame::Operand { node, done }, *part),
        }
    }

    /// The first of the operands that are left is worked on; after them the task's body, whose only variables are their
    /// values.
    pub fn next_argument(
        &mut self,
        node: u32,
        body: u32,
        left: &[u32],
        done: Items,
    ) -> Result<Control, Halt>
        requires sound { Sound self.old }
        ensures gives { Moves result self.old self.new (next_argument node body left.now done) }
        ensures sound { OnOk result (Sound self.new) }
    {
        match left {
            [] => {
                let part = done.len();
                let outer = mem::replace(&mut self.env, done);
                self.work(Frame::Task { node, part, outer }, body)
            }
            [part, ..] => self.work(Frame::Call { node, done }, *part),
        }
    }

    /// The first of the bindings that are left is worked on; after them the body, under their values.
    pub fn next_binding(
        &mut self,
        node: u32,
        left: &[u32],
        body: u32,
        done: Items,
    ) -> Result<Control, Halt>
        requires sound { Sound self.old }
        ensures gives { Moves result self.old self.new (next_binding node left.now body done) }
        ensures sound { OnOk result (Sound self.new) }
    {
        match left {
            [] => {
                let bound = done.len();
                self.env.append(done)?;
                self.work(Frame::Body { node, bound }, body)
            }
            [part, ..] => self.work(Frame::Binding { node, done }, *part),
        }
    }

    /// A page is sent: the answer to it, or the stop there.
    #[tactic(auto, using(crate::proofs::Taken::page_takes))]
    pub fn send(&mut self, alloc: Global, kind: SendKind, page: &Value) -> Result<Control, Halt>
        requires { Sound self.old }
        ensures gives { Sends result self.old self.new kind (meaning page.now) }
        ensures sound { OnOk result (Sound self.new) }
    {
        let value = self.progress.send(alloc, kind, page)?;
        Ok(Control::Give(value))
    }

    /// The page of a send is worked on, under the URL.
    #[tactic(auto, using(machine_states::proofs::Stacks::stack_push))]
    pub fn page(
        &mut self,
        alloc: Global,
        node: u32,
        kind: SendKind,
        body: u32,
    ) -> Result<Control, Halt>
        requires { Sound self.old }
        ensures gives { Visits result self.old self.new node (variant.Send kind body) }
        ensures sound { OnOk result (Sound self.new) }
    {
        self.progress.charge(1)?;
        let url = self.progress.url(alloc)?;
        self.env.push(url)?;
        self.work(Frame::Page { node, kind }, body)
    }

    /// A transaction is entered, and its part is worked on.
    #[tactic(auto, using(machine_states::proofs::Stacks::stack_push))]
    pub fn isolate(&mut self, node: u32, body: u32) -> Result<Control, Halt>
        requires { Sound self.old }
        ensures gives { Visits result self.old self.new node (variant.Isolate body) }
        ensures sound { OnOk result (Sound self.new) }
    {
        let name = self.progress.enter()?;
        self.frames.push(Frame::Isolate { node, name })?;
        Ok(Control::Visit(body))
    }

    /// A web cell is bound to a value.
    pub fn shadow(&mut self, cell: u8, value: Value) -> Result<Control, Halt>
        requires { Sound self.old }
        ensures gives { Gives result self.old self.new (λ inside. shadow cell (meaning value)) }
        ensures sound { OnOk result (Sound self.new) }
    {
        let value = self.progress.shadow(cell, value)?;
        Ok(Control::Give(value))
    }

    /// An instance cell is set to a value.
    #[tactic(auto, using(crate::proofs::Taken::set_takes))]
    pub fn set_cell(&mut self, alloc: Global, cell: u8, value: Value) -> Result<Control, Halt>
        requires { Sound self.old }
        ensures gives { Gives result self.old self.new (λ inside. set_cell cell (meaning value)) }
        ensures sound { OnOk result (Sound self.new) }
    {
        let value = self.progress.set_cell(alloc, cell, value)?;
        Ok(Control::Give(value))
    }

    /// A value is added to an instance cell.
    #[tactic(auto, using(crate::proofs::Taken::add_takes))]
    pub fn add_cell(&mut self, alloc: Global, cell: u8, value: &Value) -> Result<Control, Halt>
        requires { Sound self.old }
        ensures gives { Adds result self.old self.new cell (meaning value.now) }
        ensures sound { OnOk result (Sound self.new) }
    {
        let value = self.progress.add_cell(alloc, cell, value)?;
        Ok(Control::Give(value))
    }
}
