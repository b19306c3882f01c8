ghost use Rattle.std.specs.Prelude.{◌≡◌, ℕ, false};
ghost use Rattle.web_disk.specs.Racks.{is_lent};

use crate::plans::Plan;
use crate::streets::{Streams, tell_links};
use crate::told::Told;
use server_command::{NoPast, command};
use std::alloc::{AllocError, Global};
use std::sync::Wait;
use std::thread::Threads;
use web_disk::MemoryRack;
use web_outside::OpenGate;

/// What a command wrote, and what is told after it: what its links were told, the disks that are shown, and the status that it
/// ends with.
#[derive(Drop)]
pub struct Outcome {
    pub written: Vec<u8>,
    pub end: Vec<u8>,
}

// The status that a command with these words ends with, over these streams and disks.
fn status_of<R: Threads + Wait + Sync>(
    rt: &R,
    alloc: Global,
    words: &[&str],
    streams: &mut Streams,
    rack: &mut MemoryRack,
) -> u8
    requires { (n : ℕ) → is_lent rack.old n ≡ false }
{
    command(
        rt,
        alloc,
        words,
        &mut streams.source,
        &mut streams.sink,
        rack,
        &mut streams.door,
        &streams.clock,
        &mut streams.seeds,
        &OpenGate,
        &mut NoPast,
    )
}

// What is told of a command that ended with a status.
fn outcome_of(
    alloc: Global,
    plan: &Plan,
    streams: &Streams,
    rack: &MemoryRack,
    status: u8,
) -> Result<Outcome, AllocError> {
    let mut end = Told::new(alloc);
    tell_links(&mut end, alloc, &streams.door);
    plan.rack.tell_shown(alloc, rack, &mut end);
    end.put(format!(in alloc; "status {status}\n"));
    let end = end.all()?;
    Ok(Outcome {
        written: streams.sink.bytes().to_vec(alloc)?,
        end,
    })
}

/// What a command with these words and this input comes to, over an outside that never fails but as it is planned.
pub fn ran<R: Threads + Wait + Sync>(
    rt: &R,
    alloc: Global,
    words: &[&str],
    input: &[u8],
    plan: &Plan,
) -> Result<Outcome, AllocError> {
    let mut streams = plan.street.streams(alloc, input)?;
    let mut rack = plan.rack.rack(alloc)?;
    let status = status_of(rt, alloc, words, &mut streams, &mut rack);
    outcome_of(alloc, plan, &streams, &rack, status)
}
