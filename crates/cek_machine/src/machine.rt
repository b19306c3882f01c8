ghost use Rattle.std.specs.Prelude.{◌≡◌, ◌+◌, OnOk, OnErr, IfOk, None, map};
ghost use Rattle.script_nodes.specs.Arena.{IsScript};
ghost use Rattle.segments.specs.Views.{now_of, outcome_of};
ghost use Rattle.instance_cells.specs.Views.{effect_of};
ghost use Rattle.machine_states.specs.Fits.{FitsAt, Fits};
ghost use Rattle.cek_machine.specs.Spots.{Sound, Pops, Cuts, Nexts, frames_of, control_of};
ghost use Rattle.machine_states.specs.Views.{suspended_of, frame_of};
ghost use Rattle.cek_machine.specs.Machines.{Steps as StepsSo, Runs, Starts, Resumes, StepTakesMemory, RunTakesMemory, IsReady, IsWithin, machine_of, state_in, open_in, kept_of};

use crate::control::Control;
use crate::nodes::node_of;
use crate::spot::Spot;
use crate::steps::Steps;
use machine_states::{Frame, Suspended};
use script_nodes::Script;
use script_value::{Items, Value};
use segment_progress::{Halt, How, Progress, halt_at};
use segments::{Now, RunEnd, RunResult};
use std::alloc::{AllocError, Global};
use std::mem;
use std::sync::ledger::Ledger;
use web_cells::Shades;

/// A script's machine: it visits a node or gives a value to its innermost frame, step by step, up to a stop.
#[derive(Drop)]
pub struct Machine<'s> {
    script: &'s Script,
    control: Control,
    spot: Spot<'s>,
}

impl<'t> Spot<'t> {
    // The innermost frame.
    #[tactic(auto, using(machine_states::proofs::Stacks::stack_push))]
    fn pop(&mut self) -> Option<Frame>
        ensures frames { Pops result (frames_of self.old) (frames_of self.new) }
        ensures env { self.new.env ≡ self.old.env }
        ensures progress { self.new.progress ≡ self.old.progress }
    {
        self.frames.pop()
    }

    // The variables of a frame's part go.
    fn cut(&mut self, frame: &Frame)
        ensures frames { frames_of self.new ≡ frames_of self.old }
        ensures env { Cuts (frame_of frame.now) self.old.env self.new.env }
        ensures progress { self.new.progress ≡ self.old.progress }
    {
        match frame {
            Frame::Body { bound, .. } => self.env.truncate(self.env.len().saturating_sub(*bound)),
            Frame::Turn { .. } => self.env.truncate(self.env.len().saturating_sub(1)),
            Frame::Page { .. } => self.env.truncate(self.env.len().saturating_sub(1)),
            _ => (),
        }
    }

    // What is next.
    #[tactic(auto, using(crate::proofs::Standing::visits_there, crate::proofs::Standing::stands, crate::proofs::Taken::paged_takes))]
    fn next(&mut self, script: &Script, alloc: Global, control: Control) -> Result<Control, Halt>
        requires sound { Sound self.old }
        requires script { IsScript script.now }
        requires fits { FitsAt script.now (control_of control) self.old.env (frames_of self.old) }
        ensures gives { Nexts result self.old self.new script.now control }
        ensures sound { OnOk result (Sound self.new) }
    {
        match control {
            Control::Visit(number) => self.visit(script, alloc, number, node_of(script, number)),
            Control::Give(value) => match self.pop() {
                Some(Frame::Task { outer, .. }) => {
                    self.env = outer;
                    Ok(Control::Give(value))
                }
                Some(frame) => {
                    self.cut(&frame);
                    self.take(script, alloc, frame, value)
                }
                None => Err(halt_at(alloc, How::Ends, &value)),
            },
        }
    }
}

impl<'s> Machine<'s> {
    /// A machine at the start of a script, in a segment that reads from there.
    pub fn start(
        alloc: Global,
        script: &'s Script,
        segment: Now<'s>,
    ) -> Result<Machine<'s>, AllocError>
        ensures machine { Starts result script.now (now_of segment.entry) }
        ensures script { IfOk result (λ m. m.script.now ≡ script.now) }
        ensures ready { IfOk result (λ m. IsReady m) }
    {
        let progress = Progress::resume(
            alloc,
            script.web_defaults(),
            segment,
            Shades::root(alloc),
            Vec::new(alloc),
        )?;
        let spot = Spot {
            env: Items::new(alloc),
            frames: Vec::new(alloc),
            progress,
        };
        Ok(Machine {
            script,
            control: Control::Visit(script.root()),
            spot,
        })
    }

    /// A machine that goes on from what was kept at a page, with an answer to it, in a segment that reads from there.
    pub fn resume(
        alloc: Global,
        script: &'s Script,
        state: Suspended,
        answer: Value,
        segment: Now<'s>,
    ) -> Result<Machine<'s>, AllocError>
        requires { Fits script.now (suspended_of state) }
        ensures machine { Resumes result script.now state answer (now_of segment.entry) }
        ensures script { IfOk result (λ m. m.script.now ≡ script.now) }
        ensures ready { IfOk result (λ m. IsReady m) }
    {
        let inside = state.inside(alloc)?;
        let _number = script.root();
        let Suspended {
            env,
            frames,
            shades,
        } = state;
        let progress = Progress::resume(alloc, script.web_defaults(), segment, shades, inside)?;
        let spot = Spot {
            env,
            frames,
            progress,
        };
        Ok(Machine {
            script,
            control: Control::Give(answer),
            spot,
        })
    }

    /// One step of the table, which counts one: the machine goes on, or it stops so. Memory runs out at most where the step takes
    /// some: a stop with no page, before any effect, is told whatever memory there is.
    pub fn step<L: Ledger>(
        &mut self,
        alloc: Global,
        steps: &mut Steps<L>,
    ) -> Result<Option<RunEnd>, AllocError>
        requires { IsReady self.old }
        ensures step { IfOk result (λ end. StepsSo end self.old.script.now self.old self.new) }
        ensures ready { IfOk result (λ end. end ≡ None → IsReady self.new) }
        ensures memory { OnErr result (StepTakesMemory self.old.script.now (machine_of self.old)) }
        ensures script { self.new.script ≡ self.old.script }
        ensures counted { steps.new ≡ steps.old + 1 }
    {
        steps.tick();
        let control = mem::replace(&mut self.control, Control::Visit(0));
        match self.spot.next(self.script, alloc, control) {
            Ok(control) => {
                self.control = control;
                Ok(None)
            }
            Err(Halt::Stopped(end)) => Ok(Some(end)),
            Err(Halt::Memory) => Err(AllocError),
        }
    }

    /// Steps up to the stop. A segment over present cells comes to one. Memory runs out at most at a step that takes some.
    pub fn run<L: Ledger>(
        &mut self,
        alloc: Global,
        steps: &mut Steps<L>,
    ) -> Result<RunEnd, AllocError>
        requires ready { IsReady self.old }
        requires within { IsWithin self.old }
        ensures runs { IfOk result (λ end. Runs end self.old self.new steps.old steps.new) }
        ensures memory { OnErr result (RunTakesMemory self.old.script.now (machine_of self.old)) }
    {
        loop {
            match self.step(alloc, steps)? {
                Some(end) => return Ok(end),
                None => (),
            }
        }
    }

    /// What the segment came to, where it stopped so, and what is kept of the machine there.
    pub fn into_parts(self, alloc: Global, end: RunEnd) -> (RunResult, Suspended)
        ensures end { outcome_of result.0.end ≡ outcome_of end }
        ensures effects { map effect_of result.0.effects.items ≡ (state_in self.entry).effects }
        ensures entered { result.0.entered.items ≡ open_in self.entry }
        ensures left { result.0.left.items ≡ (state_in self.entry).left }
        ensures cost { result.0.cost ≡ (state_in self.entry).cost }
        ensures kept { suspended_of result.1 ≡ kept_of self.entry }
    {
        let Machine { spot, .. } = self;
        let Spot {
            env,
            frames,
            progress,
        } = spot;
        let (run, shades) = progress.into_parts(alloc, end);
        let state = Suspended {
            env,
            frames,
            shades,
        };
        (run, state)
    }
}
