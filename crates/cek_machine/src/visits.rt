ghost use Rattle.std.specs.Prelude.{◌<◌, OnOk, IsTrue, length};
ghost use Rattle.prim_spec.specs.Table.{takes};
ghost use Rattle.script_nodes.specs.declared.script.Node.TheVariants as variant;
ghost use Rattle.script_nodes.specs.Arena.{IsFull, IsOnTasks};
ghost use Rattle.cek_machine.specs.Spots.{Moves, Visits, VisitsIn, Sound, IsFlat, paid_visit};
ghost use Rattle.machine_states.specs.Views.{frame_of};

use crate::control::Control;
use crate::spot::Spot;
use machine_states::Frame;
use script_nodes::{Node, Numbers, Script};
use script_value::{Items, Op, Value};
use segment_progress::Halt;
use std::alloc::Global;

impl<'t> Spot<'t> {
    /// A visit is charged, and a part is worked on in this frame.
    pub fn paid(&mut self, frame: Frame, part: u32) -> Result<Control, Halt>
        requires sound { Sound self.old }
        requires flat { IsFlat frame }
        ensures gives { Moves result self.old self.new (paid_visit part (frame_of frame)) }
        ensures sound { OnOk result (Sound self.new) }
    {
        self.progress.charge(1)?;
        self.work(frame, part)
    }

    fn visit_let(
        &mut self,
        alloc: Global,
        node: u32,
        bindings: &Numbers,
        body: u32,
    ) -> Result<Control, Halt>
        requires { Sound self.old }
        ensures gives { Visits result self.old self.new node (variant.Let bindings.now body) }
        ensures sound { OnOk result (Sound self.new) }
    {
        self.progress.charge(1)?;
        self.next_binding(node, bindings.as_slice(), body, Items::new(alloc))
    }

    fn visit_seq(&mut self, node: u32, parts: &Numbers) -> Result<Control, Halt>
        requires { Sound self.old }
        ensures gives { Visits result self.old self.new node (variant.Seq parts.now) }
        ensures sound { OnOk result (Sound self.new) }
    {
        self.progress.charge(1)?;
        self.next_part(
            Frame::Seq { node, part: 0 },
            parts.as_slice(),
            Value::Truth(false),
        )
    }

    fn visit_and(&mut self, node: u32, parts: &Numbers) -> Result<Control, Halt>
        requires { Sound self.old }
        ensures gives { Visits result self.old self.new node (variant.And parts.now) }
        ensures sound { OnOk result (Sound self.new) }
    {
        self.progress.charge(1)?;
        self.next_part(
            Frame::And { node, part: 0 },
            parts.as_slice(),
            Value::Truth(true),
        )
    }

    fn visit_or(&mut self, node: u32, parts: &Numbers) -> Result<Control, Halt>
        requires { Sound self.old }
        ensures gives { Visits result self.old self.new node (variant.Or parts.now) }
        ensures sound { OnOk result (Sound self.new) }
    {
        self.progress.charge(1)?;
        self.next_part(
            Frame::Or { node, part: 0 },
            parts.as_slice(),
            Value::Truth(false),
        )
    }

    fn visit_prim(
        &mut self,
        alloc: Global,
        node: u32,
        op: Op,
        operands: &Numbers,
    ) -> Result<Control, Halt>
        requires sound { Sound self.old }
        requires full { IsTrue (takes op (length operands.now)) }
        ensures gives { Visits result self.old self.new node (variant.Prim op operands.now) }
        ensures sound { OnOk result (Sound self.new) }
    {
        self.progress.charge(1)?;
        self.next_operand(alloc, node, op, operands.as_slice(), Items::new(alloc))
    }

    fn visit_call(
        &mut self,
        script: &Script,
        alloc: Global,
        node: u32,
        task: u8,
        operands: &Numbers,
    ) -> Result<Control, Halt>
        requires sound { Sound self.old }
        requires task { task < length script.now.tasks }
        ensures gives { VisitsIn result self.old self.new script.now node
            (variant.Call task operands.now) }
        ensures sound { OnOk result (Sound self.new) }
    {
        self.progress.charge(1)?;
        self.next_argument(
            node,
            script.task(task),
            operands.as_slice(),
            Items::new(alloc),
        )
    }

    /// A visit of a node.
    pub fn visit(
        &mut self,
        script: &Script,
        alloc: Global,
        number: u32,
        node: &Node,
    ) -> Result<Control, Halt>
        requires sound { Sound self.old }
        requires full { IsFull node.now }
        requires tasks { IsOnTasks (length script.now.tasks) node.now }
        ensures gives { VisitsIn result self.old self.new script.now number node.now }
        ensures sound { OnOk result (Sound self.new) }
    {
        match node {
            Node::Lit(value) => self.copy_of(alloc, value),
            Node::Var(place) => self.variable(alloc, *place),
            Node::Let { bindings, body } => self.visit_let(alloc, number, bindings, *body),
            Node::Seq { parts } => self.visit_seq(number, parts),
            Node::If { test, .. } => self.paid(
                Frame::If {
                    node: number,
                    part: 0,
                },
                *test,
            ),
            Node::And { parts } => self.visit_and(number, parts),
            Node::Or { parts } => self.visit_or(number, parts),
            Node::For { count, .. } => self.paid(Frame::Count { node: number }, *count),
            Node::Prim { op, operands } => self.visit_prim(alloc, number, *op, operands),
            Node::Call { task, operands } => {
                self.visit_call(script, alloc, number, *task, operands)
            }
            Node::Send { kind, body } => self.page(alloc, number, *kind, *body),
            Node::Finish { body } => self.paid(Frame::Finish { node: number }, *body),
            Node::Back { body } => self.paid(Frame::Back { node: number }, *body),
            Node::Isolate { body } => self.isolate(number, *body),
            Node::CellRef { cell } => self.web_cell(alloc, number, *cell),
            Node::CellShadow { value, .. } => self.paid(Frame::Store { node: number }, *value),
            Node::InstRef { cell } => self.instance_cell(alloc, number, *cell),
            Node::InstSet { value, .. } => self.paid(Frame::Store { node: number }, *value),
            Node::InstAdd { value, .. } => self.paid(Frame::Store { node: number }, *value),
        }
    }
}
