ghost use Rattle.std.specs.Prelude.{◌≡◌, ◌+◌, [], ◌∷◌, ◌++◌, take, length, map, unwrap_or, IfOk};
ghost use Rattle.script_value.specs.Val.{size_of};
ghost use Rattle.script_value.specs.Views.{meaning};
ghost use Rattle.instance_cells.specs.Cells.{cell_at};
ghost use Rattle.instance_cells.specs.Views.{effect_of};
ghost use Rattle.web_cells.specs.Shadows.{binding};
ghost use Rattle.script_nodes.specs.Core.{cell_ref, inst_ref};
ghost use Rattle.segments.specs.Views.{source_of, now_of, tape_of, outcome_of, segment_of};
ghost use Rattle.segments.specs.ReplaySpec.Tape as tape;
ghost use Rattle.segments.specs.ReplaySpec.Tape.{begin, begins, charge, send_page, enter, leave, shadow, read_cell, set_cell, add_cell};
ghost use Rattle.segments.specs.ReplaySpec.Eval.{copied, eval, no_calls, segment_at};
ghost use Rattle.segment_progress.specs.States.{reads_left, effects_left, left_in, state_of, inside_of, found, Pops, Acts, Does, Ends, TellsStop, TellsNoPage};

use crate::halt::{Halt, How, halt_at};
use instance_cells::{AddFault, Effect, Trail};
use script_nodes::SendKind;
use script_value::{Items, TxName, Value, size};
use segments::{Answer, Now, Reads, RunEnd, RunResult, Tape};
use std::alloc::{AllocError, Global};
use std::mem;
use web_cells::Shades;

/// Where a segment's reads come from: the recorded values that are left, or the present cells and what was done to them.
#[derive(Drop)]
pub enum Source<'t> {
    Recorded(&'t [Value]),
    Present { trail: Trail<'t>, fuel: u64 },
}

/// An answer, and the segment that it begins.
#[derive(Clone, Copy, Drop)]
pub struct Next<'t> {
    answer: &'t Value,
    segment: Now<'t>,
}

/// What is left of a tape: segments that ran, and the newest, where it has not begun.
#[derive(Clone, Copy, Drop)]
pub struct Rest<'t> {
    past: &'t [Answer],
    newest: Option<Next<'t>>,
}

/// How far a tape was used, and what its current segment did.
#[derive(Drop)]
pub struct Progress<'t> {
    segment: Now<'t>,
    source: Source<'t>,
    rest: Rest<'t>,
    cost: u64,
    left: Vec<TxName>,
    entries: u32,
    shades: Shades,
    defaults: &'t Items,
    inside: Vec<TxName>,
}

/// The greatest cost that is counted, 2^63.
const COST_LIMIT: u64 = 9_223_372_036_854_775_808;

impl<'t> Rest<'t> {
    // The first answer that is left, which it is then no longer.
    fn next(&mut self) -> Option<Next<'t>>
        ensures { Pops result (left_in self.old) (left_in self.new) }
    {
        match self.past {
            [] => {
                let newest = self.newest;
                self.newest = None;
                newest
            }
            [answer, past @ ..] => {
                self.past = past;
                Some(Next {
                    answer: &answer.value,
                    segment: answer.segment(),
                })
            }
        }
    }
}

// A segment begins: nothing was read or done.
fn source_from<'t>(alloc: Global, reads: Reads<'t>) -> Result<Source<'t>, AllocError>
    ensures reads { IfOk result (λ source. reads_left source ≡ source_of reads.entry) }
    ensures effects { IfOk result (λ source. effects_left source ≡ []) }
{
    match reads {
        Reads::Recorded(values) => Ok(Source::Recorded(values.as_slice())),
        Reads::Present { cells, fuel } => Ok(Source::Present {
            trail: Trail::new(alloc, cells)?,
            fuel,
        }),
    }
}

/// A copy of a value that was looked up; #f where there is none.
pub fn copy_found(alloc: Global, value: Option<&Value>) -> Result<Value, AllocError>
    ensures { IfOk result (λ v. meaning v ≡ found value.entry) }
{
    match value {
        Some(value) => value.try_clone(alloc),
        None => Ok(Value::Truth(false)),
    }
}

/// The size of a value that was looked up; that of #f where there is none.
pub fn size_found(value: Option<&Value>) -> u64
    ensures { result ≡ size_of (found value.entry) }
{
    match value {
        Some(value) => size(value),
        None => 1,
    }
}

impl<'t> Progress<'t> {
    // Where a segment begins with no web cell bound, inside no transaction.
    fn at(
        alloc: Global,
        defaults: &'t Items,
        segment: Now<'t>,
        rest: Rest<'t>,
    ) -> Result<Progress<'t>, AllocError>
        ensures state { IfOk result (λ p. state_of p ≡ begins (now_of segment.entry) (left_in rest.entry) [] defaults.now) }
        ensures inside { IfOk result (λ p. inside_of p ≡ []) }
    {
        let source = source_from(alloc, segment.reads)?;
        Ok(Progress {
            segment,
            source,
            rest,
            cost: 0,
            left: Vec::new(alloc),
            entries: 0,
            shades: Shades::root(alloc),
            defaults,
            inside: Vec::new(alloc),
        })
    }

    /// At the start of a tape, where each web cell has its default.
    pub fn begin(
        alloc: Global,
        defaults: &'t Items,
        tape: &Tape<'t>,
    ) -> Result<Progress<'t>, AllocError>
        ensures state { IfOk result (λ p. state_of p ≡ begin defaults.now (tape_of tape.now)) }
        ensures inside { IfOk result (λ p. inside_of p ≡ []) }
    {
        match tape.past {
            [] => Progress::at(
                alloc,
                defaults,
                tape.newest,
                Rest {
                    past: tape.past,
                    newest: None,
                },
            ),
            [first, past @ ..] => Progress::at(
                alloc,
                defaults,
                first.segment(),
                Rest {
                    past,
                    newest: Some(Next {
                        answer: tape.answer,
                        segment: tape.newest,
                    }),
                },
            ),
        }
    }

    /// A segment with no answer after it, with these bindings of web cells and inside these transactions.
    pub fn resume(
        alloc: Global,
        defaults: &'t Items,
        segment: Now<'t>,
        shades: Shades,
        inside: Vec<TxName>,
    ) -> Result<Progress<'t>, AllocError>
        ensures state { IfOk result (λ p. state_of p ≡ begins (now_of segment.entry) [] shades defaults.now) }
        ensures inside { IfOk result (λ p. inside_of p ≡ inside.items) }
    {
        let source = source_from(alloc, segment.reads)?;
        Ok(Progress {
            segment,
            source,
            rest: Rest {
                past: &[],
                newest: None,
            },
            cost: 0,
            left: Vec::new(alloc),
            entries: 0,
            shades,
            defaults,
            inside,
        })
    }

    /// How many transactions are open.
    pub fn depth(&self) -> usize
        ensures { result ≡ length (inside_of self.now) }
    {
        self.inside.len()
    }

    /// The URL of the current segment, as a text.
    pub fn url(&self, alloc: Global) -> Result<Value, AllocError>
        ensures { IfOk result (λ v. tape.url (state_of self.now) ≡ tape.got (meaning v) (state_of self.now)) }
    {
        Ok(Value::Text(self.segment.url.try_clone(alloc)?))
    }

    /// The cost grows; a segment over present cells stops where it is above the fuel. It takes no memory.
    pub fn charge(&mut self, amount: u64) -> Result<(), RunEnd>
        ensures gives { Ends (λ x. x) result self.new (charge (inside_of self.old) amount (state_of self.old)) }
        ensures inside { inside_of self.new ≡ inside_of self.old }
        ensures shades { self.new.shades ≡ self.old.shades }
        ensures defaults { self.new.defaults ≡ self.old.defaults }
    {
        self.cost = self.cost.saturating_add(amount).min(COST_LIMIT);
        match &self.source {
            Source::Recorded(_) => Ok(()),
            Source::Present { fuel, .. } => {
                if *fuel < self.cost {
                    return Err(RunEnd::Fuel(self.cost));
                }
                Ok(())
            }
        }
    }

    /// A copy of a value that a node names, which costs its size; #f where there is none.
    pub fn copy_of(&mut self, alloc: Global, value: Option<&Value>) -> Result<Value, Halt>
        ensures gives { Acts meaning result self.old self.new (λ inside. copied inside (found value.entry)) }
        ensures told { TellsStop result (copied (inside_of self.old) (found value.entry) (state_of self.old)) }
        ensures inside { inside_of self.new ≡ inside_of self.old }
    {
        self.charge(1 + size_found(value))?;
        Ok(copy_found(alloc, value)?)
    }

    // What a web cell is bound to, or else its default.
    fn web_value(&self, cell: u8) -> Option<&Value>
        ensures { found result ≡ unwrap_or (binding cell self.now.shades) (cell_at self.now.defaults.now cell) }
    {
        match self.shades.lookup(cell) {
            Some(value) => Some(value),
            None => self.defaults.get(cell as usize),
        }
    }

    /// The value of a web cell: its nearest binding, or else its default.
    pub fn web_cell(&mut self, alloc: Global, cell: u8) -> Result<Value, Halt>
        ensures gives { Acts meaning result self.old self.new (eval no_calls (cell_ref cell) []) }
        ensures told { TellsStop result (eval no_calls (cell_ref cell) [] (inside_of self.old) (state_of self.old)) }
        ensures inside { inside_of self.new ≡ inside_of self.old }
    {
        let size = size_found(self.web_value(cell));
        self.charge(1 + size)?;
        Ok(copy_found(alloc, self.web_value(cell))?)
    }

    /// A web cell is bound from here on.
    pub fn shadow(&mut self, cell: u8, value: Value) -> Result<Value, AllocError>
        ensures gives { Does meaning result self.old self.new (λ inside. shadow cell (meaning value)) }
        ensures inside { inside_of self.new ≡ inside_of self.old }
    {
        self.shades.shadow(cell, value)?;
        Ok(Value::Truth(true))
    }

    /// A page is sent: the next answer, or the stop there.
    pub fn send(&mut self, alloc: Global, kind: SendKind, page: &Value) -> Result<Value, Halt>
        ensures gives { Acts meaning result self.old self.new (λ inside. send_page inside kind (meaning page.now)) }
        ensures told { TellsNoPage result (send_page (inside_of self.old) kind (meaning page.now) (state_of self.old)) }
        ensures inside { inside_of self.new ≡ inside_of self.old }
    {
        let Some(next) = self.rest.next() else {
            return Err(halt_at(alloc, How::Shows(kind), page));
        };
        let value = next.answer.try_clone(alloc)?;
        let source = source_from(alloc, next.segment.reads)?;
        drop(mem::replace(&mut self.source, source));
        self.segment = next.segment;
        self.cost = 0;
        self.left.clear();
        self.entries = 0;
        Ok(value)
    }

    /// One more transaction is entered.
    pub fn enter(&mut self) -> Result<TxName, Halt>
        ensures gives { Acts (λ name. name) result self.old self.new enter }
        ensures told { TellsStop result (enter (inside_of self.old) (state_of self.old)) }
        ensures inside { IfOk result (λ name. inside_of self.new ≡ inside_of self.old ++ name ∷ []) }
    {
        self.charge(1)?;
        let name = TxName {
            ticket: self.segment.number,
            entry: self.entries,
        };
        self.entries = self.entries.saturating_add(1);
        self.inside.push(name)?;
        Ok(name)
    }

    /// A value is given out of a transaction: those outside it stay open, and it counts as left where another segment entered it.
    pub fn leave(&mut self, outside: usize, name: TxName, value: Value) -> Result<Value, AllocError>
        ensures gives { Does meaning result self.old self.new (λ inside. leave name (meaning value)) }
        ensures inside { inside_of self.new ≡ take outside (inside_of self.old) }
    {
        self.inside.truncate(outside);
        if name.ticket != self.segment.number {
            self.left.push(name)?;
        }
        Ok(value)
    }

    // A read of an instance cell.
    fn read_cell(&mut self, alloc: Global, cell: u8) -> Result<Value, AllocError>
        ensures gives { Does meaning result self.old self.new (λ inside. read_cell cell) }
        ensures inside { inside_of self.new ≡ inside_of self.old }
    {
        match &mut self.source {
            Source::Recorded(values) => match *values {
                [] => Ok(Value::Truth(false)),
                [value, rest @ ..] => {
                    let value = value.try_clone(alloc)?;
                    *values = rest;
                    Ok(value)
                }
            },
            Source::Present { trail, .. } => trail.read(alloc, cell),
        }
    }

    /// The value of an instance cell: the read is recorded before it is charged.
    pub fn instance_cell(&mut self, alloc: Global, cell: u8) -> Result<Value, Halt>
        ensures gives { Acts meaning result self.old self.new (eval no_calls (inst_ref cell) []) }
        ensures inside { inside_of self.new ≡ inside_of self.old }
    {
        let value = self.read_cell(alloc, cell)?;
        self.charge(1 + size(&value))?;
        Ok(value)
    }

    /// A write of an instance cell.
    pub fn set_cell(&mut self, alloc: Global, cell: u8, value: Value) -> Result<Value, AllocError>
        ensures gives { Does meaning result self.old self.new (λ inside. set_cell cell (meaning value)) }
        ensures inside { inside_of self.new ≡ inside_of self.old }
    {
        match &mut self.source {
            Source::Recorded(_) => (),
            Source::Present { trail, .. } => trail.set(alloc, cell, value)?,
        }
        Ok(Value::Truth(true))
    }

    /// An add to an instance cell.
    pub fn add_cell(&mut self, alloc: Global, cell: u8, operand: &Value) -> Result<Value, Halt>
        ensures gives { Acts meaning result self.old self.new (λ inside. add_cell inside cell (meaning operand.now)) }
        ensures inside { inside_of self.new ≡ inside_of self.old }
    {
        match &mut self.source {
            Source::Recorded(_) => Ok(Value::Truth(true)),
            Source::Present { trail, .. } => match trail.add(alloc, cell, operand) {
                Ok(()) => Ok(Value::Truth(true)),
                Err(AddFault::Fault(fault)) => Err(Halt::Stopped(RunEnd::Faulted(fault))),
                Err(AddFault::Memory) => Err(Halt::Memory),
            },
        }
    }

    /// What the run comes to, where it stops so, and the bindings of web cells there.
    pub fn into_parts(self, alloc: Global, end: RunEnd) -> (RunResult, Shades)
        ensures run { segment_of result.0 ≡ segment_at (outcome_of end) (inside_of self.entry) (state_of self.entry) }
        ensures shades { result.1 ≡ self.entry.shades }
    {
        let run = RunResult {
            end,
            effects: effects_of(alloc, self.source),
            entered: self.inside,
            left: self.left,
            cost: self.cost,
        };
        (run, self.shades)
    }

    /// What the run comes to, where it stops so.
    pub fn into_result(self, alloc: Global, end: RunEnd) -> RunResult
        ensures { segment_of result ≡ segment_at (outcome_of end) (inside_of self.entry) (state_of self.entry) }
    {
        self.into_parts(alloc, end).0
    }
}

// What a segment did to the cells.
fn effects_of(alloc: Global, source: Source) -> Vec<Effect>
    ensures { map effect_of result.items ≡ effects_left source.entry }
{
    match source {
        Source::Recorded(_) => Vec::new(alloc),
        Source::Present { trail, .. } => trail.into_effects(),
    }
}
