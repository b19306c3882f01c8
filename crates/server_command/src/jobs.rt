ghost use Rattle.std.specs.Prelude.{◌≡◌, ◌≤◌, List, ℕ, Ok};
ghost use Rattle.script_nodes.specs.Views.{scripts_of};
ghost use Rattle.setup_reader.specs.Texts.{IsReadSetup};
ghost use Rattle.setup_reader.specs.Views.{parsed_of};
ghost use Rattle.command_words.specs.Plain.{AreInRange, IsInRange};
ghost use Rattle.play_desk.specs.Opening.{AreHome};
ghost use Rattle.server_command.specs.Calls.{rack_over};
ghost use Rattle.server_command.specs.Command.{Came, Outputs, OutputsFor, PlaysSteps, asked_of, met_of};
ghost use Rattle.server_command.specs.Order.{AsksRack, PlaysInOrder};
ghost use Rattle.server_command.specs.Output.{Hands, ending_of, sinks_of};
ghost use Rattle.server_command.specs.Racks.{AreBack};
ghost use Rattle.server_command.specs.Serving.{Faults};

use crate::opening::rules_of;
use crate::program::Status;
use crate::telling::{
    hand_on, no_memory, tell_count, tell_fault, tell_line, tell_unopened, tell_unread,
};
use command_words::Options;
use play_desk::{OpenFault, open_desk};
use play_steps::{PlayEnd, play};
use script_nodes::Setup;
use setup_reader::{Ending, Parsed, SetupFault};
use std::alloc::Global;
use web_disk::{Disk, Rack};
use web_outside::{Sink, Source, read_all};

/// What is done with an input alone.
#[derive(Drop)]
pub(crate) enum Job {
    Check,
    Play(Options),
}

// What ends the setup of an input.
fn ending_of(job: &Job) -> Ending
    ensures { result ≡ ending_of (asked_of job.now) }
{
    match job {
        Job::Check => Ending::Input,
        Job::Play(_) => Ending::Steps,
    }
}

// Plays the steps after a setup, on empty disks.
fn play_all<O: Sink, D: Disk, R: Rack<D>>(
    alloc: Global,
    options: &Options,
    setup: Setup,
    steps: &[u8],
    output: &mut O,
    rack: &mut R,
) -> Status
    requires range { AreInRange options.now }
    requires read { IsReadSetup (scripts_of setup) }
    requires home { AreHome (R.view rack.old).out }
    ensures outputs { PlaysSteps (rack_over R.view R.tells D.tells rack.old rack.new)
        options.now (scripts_of setup) steps.now result
        (sinks_of (O.view output.old) (O.view output.new)) }
    ensures asked { PlaysInOrder (rack_over R.view R.tells D.tells rack.old rack.new)
        options.now.shelves result }
    ensures hands { Hands result (O.view output.old) (O.view output.new) }
    ensures back { AreBack (R.view rack.old) (R.view rack.new) }
{
    let rules = rules_of(options, 0);
    let mut desk = match open_desk(alloc, rack, options.journal.as_str(), setup, rules) {
        Ok(desk) => desk,
        Err(fault) => return tell_unopened(alloc, fault, output),
    };
    let end = play(alloc, &mut desk, rack, steps, output);
    desk.close(rack);
    match end {
        PlayEnd::Done => hand_on(output),
        PlayEnd::Line(number) => tell_line(alloc, number, output),
        PlayEnd::Write => Status::Write,
        PlayEnd::Memory => no_memory(output),
        PlayEnd::Reopen { shelf, why } => tell_unopened(alloc, OpenFault { shelf, why }, output),
    }
}

// Does what a command says with a setup that was read.
fn run_setup<O: Sink, D: Disk, R: Rack<D>>(
    alloc: Global,
    job: &Job,
    parsed: Parsed,
    output: &mut O,
    rack: &mut R,
) -> Status
    requires range { IsInRange (asked_of job.now) }
    requires read { IsReadSetup (scripts_of parsed.setup) }
    requires home { AreHome (R.view rack.old).out }
    ensures outputs { OutputsFor (rack_over R.view R.tells D.tells rack.old rack.new)
        (asked_of job.now) (Ok (parsed_of parsed.entry)) result
        (sinks_of (O.view output.old) (O.view output.new)) }
    ensures asked { AsksRack (rack_over R.view R.tells D.tells rack.old rack.new)
        (asked_of job.now) result }
    ensures hands { Hands result (O.view output.old) (O.view output.new) }
    ensures back { AreBack (R.view rack.old) (R.view rack.new) }
{
    let Parsed { setup, steps } = parsed;
    match job {
        Job::Check => tell_count(alloc, &setup, output),
        Job::Play(options) => play_all(alloc, options, setup, steps, output, rack),
    }
}

// Does what a command says with the whole input.
fn run_input<O: Sink, D: Disk, R: Rack<D>>(
    alloc: Global,
    job: &Job,
    input: &[u8],
    output: &mut O,
    rack: &mut R,
) -> Status
    requires range { IsInRange (asked_of job.now) }
    requires home { AreHome (R.view rack.old).out }
    ensures outputs { Outputs (rack_over R.view R.tells D.tells rack.old rack.new)
        (asked_of job.now) input.now result (sinks_of (O.view output.old) (O.view output.new)) }
    ensures asked { AsksRack (rack_over R.view R.tells D.tells rack.old rack.new)
        (asked_of job.now) result }
    ensures hands { Hands result (O.view output.old) (O.view output.new) }
    ensures back { AreBack (R.view rack.old) (R.view rack.new) }
{
    match Parsed::parse(alloc, ending_of(job), input) {
        Ok(parsed) => run_setup(alloc, job, parsed, output, rack),
        Err(SetupFault::At(error)) => tell_fault(alloc, &error, output),
        Err(SetupFault::Memory) => no_memory(output),
    }
}

/// Reads the input and does a job with it.
pub(crate) fn run_job<I: Source, O: Sink, D: Disk, R: Rack<D>>(
    alloc: Global,
    job: &Job,
    input: &mut I,
    output: &mut O,
    rack: &mut R,
) -> Status
    requires range { IsInRange (asked_of job.now) }
    requires home { AreHome (R.view rack.old).out }
    ensures comes { (words : List (List ℕ)) (door : Faults) (seeds : Faults)
        → Came (asked_of job.now) result
        (met_of words (I.view input.old) (I.view input.new)
        (sinks_of (O.view output.old) (O.view output.new))
        (rack_over R.view R.tells D.tells rack.old rack.new) door seeds) }
    ensures asked { AsksRack (rack_over R.view R.tells D.tells rack.old rack.new)
        (asked_of job.now) result }
    ensures hands { Hands result (O.view output.old) (O.view output.new) }
    ensures back { AreBack (R.view rack.old) (R.view rack.new) }
    ensures input_later { (I.view input.old).faults ≤ (I.view input.new).faults }
{
    match read_all(alloc, input) {
        Ok(bytes) => run_input(alloc, job, &bytes, output, rack),
        Err(fault) => tell_unread(fault, output),
    }
}
