ghost use Rattle.std.specs.Prelude.{◌≤◌};
ghost use Rattle.web_outside.specs.Pieces.{HandsAllOn};
ghost use Rattle.command_words.specs.Plain.{CanLoad};
ghost use Rattle.play_desk.specs.Opening.{AreHome};
ghost use Rattle.server_command.specs.Calls.{LoadsAll, rack_over};
ghost use Rattle.server_command.specs.Loading.{TellsMeasure};
ghost use Rattle.server_command.specs.Order.{PlaysInOrder};
ghost use Rattle.server_command.specs.Output.{Hands, HandsOnIfDone, sinks_of};
ghost use Rattle.server_command.specs.Racks.{AreBack};

use crate::opening::rules_of;
use crate::program::Status;
use crate::telling::{hand_on, no_memory, tell_unopened};
use command_words::LoadOptions;
use measured_run::{LOAD_STEPS, Measure, load, load_setup};
use play_desk::{OpenFault, open_desk};
use play_steps::Halt;
use std::alloc::Global;
use web_disk::{Disk, Rack};
use web_outside::{Sink, write_all};

// Tells what a measured run came to.
fn tell_measure<O: Sink>(alloc: Global, measure: &Measure, output: &mut O) -> Status
    ensures outputs { TellsMeasure measure.now result
        (sinks_of (O.view output.old) (O.view output.new)) }
    ensures handed { HandsAllOn (O.view output.old) (O.view output.new) }
    ensures later { (O.view output.old).faults ≤ (O.view output.new).faults }
    ensures done { HandsOnIfDone result (O.view output.new) }
{
    let Ok(text) = measure.line(alloc) else {
        return no_memory(output);
    };
    match write_all(output, text.as_bytes()) {
        Ok(()) => hand_on(output),
        Err(_) => Status::Write,
    }
}

/// Performs a measured run on empty disks, and tells what it came to. Of its steps nothing is written.
pub fn load_all<O: Sink, D: Disk, R: Rack<D>>(
    alloc: Global,
    options: &LoadOptions,
    output: &mut O,
    rack: &mut R,
) -> Status
    requires range { CanLoad options.now }
    requires home { AreHome (R.view rack.old).out }
    ensures leaves { LoadsAll R.view R.tells D.tells O.view options.now result
        rack.old rack.new output.old output.new }
    ensures asked { PlaysInOrder (rack_over R.view R.tells D.tells rack.old rack.new)
        options.now.options.shelves result }
    ensures hands { Hands result (O.view output.old) (O.view output.new) }
    ensures back { AreBack (R.view rack.old) (R.view rack.new) }
{
    let Ok(setup) = load_setup(alloc) else {
        return no_memory(output);
    };
    let rules = rules_of(&options.options, 0);
    let directory = options.options.journal.as_str();
    let mut desk = match open_desk(alloc, rack, directory, setup, rules) {
        Ok(desk) => desk,
        Err(fault) => return tell_unopened(alloc, fault, output),
    };
    let end = load(alloc, &mut desk, rack, options.number, LOAD_STEPS);
    desk.close(rack);
    match end {
        Ok(measure) => tell_measure(alloc, &measure, output),
        Err(Halt::Memory) => no_memory(output),
        Err(Halt::Reopen { shelf, why }) => {
            tell_unopened(alloc, OpenFault { shelf, why }, output)
        }
    }
}
