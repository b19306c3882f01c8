ghost use Rattle.std.specs.Prelude.{◌&&◌, ◌≡◌};
ghost use Rattle.disk_trio.specs.Trio.{trio_view};
ghost use Rattle.play_desk.specs.Opening.{AreHome};
ghost use Rattle.site_serving.specs.Serving.{pasts_of, views};
ghost use Rattle.server_command.specs.Command as spec;
ghost use Rattle.server_command.specs.Command.{HasCause, IsComplete, IsTidy, around, met_in, texts};
ghost use Rattle.server_command.specs.Ending.{HasEnded};
ghost use Rattle.server_command.specs.Order.{both};
ghost use Rattle.server_command.specs.Racks.{racks_of};

use crate::outside::Outside;
use play_desk::transcripts_are_runs;
use site_serving::Past;
use std::alloc::Global;
use std::sync::Wait;
use std::thread::Threads;
use web_disk::{Disk, Rack};
use web_outside::{Clock, Door, Gate, Link, Nonces, Porch, Seeds, Sink, Source};

/// How a command ended.
#[derive(Clone, Copy, Debug, PartialEq, Eq)]
pub enum Status {
    /// The job ran to its end, and all was written.
    Done,
    /// The words are no command.
    Usage,
    /// The input does not begin with a setup of scripts.
    Setup,
    /// A line after the setup is no step, or does not fit.
    Line,
    /// The input failed.
    Read,
    /// The output failed.
    Write,
    /// Memory ran out.
    Memory,
    /// The input is longer than a program's input may be.
    Long,
    /// The rack failed, or a disk, where a shelf was opened.
    Disk,
    /// A disk is not empty, or holds no journal of its shelf, or has no room for the setup in it.
    Journal,
    /// The door failed, or a porch.
    Door,
    /// The seeds failed.
    Key,
    /// The audit of a journal says no to one of its records.
    Audit,
    /// The input is no feed that the shelf can follow to its end.
    Feed,
}

// The status that the process ends with.
fn code_of(status: Status) -> u8
    ensures { result ≡ spec.code_of status }
{
    match status {
        Status::Done => 0,
        Status::Usage => 2,
        Status::Setup => 3,
        Status::Line => 4,
        Status::Read => 5,
        Status::Write => 6,
        Status::Disk => 7,
        Status::Journal => 8,
        Status::Memory => 10,
        Status::Door => 9,
        Status::Long => 11,
        Status::Key => 14,
        Status::Audit => 12,
        Status::Feed => 13,
    }
}

/// Does what the words ask for with the setup and the steps that the input has; or performs a measured run or an audit, sends the
/// records of a shelf or promotes shelves, which read no input; or lets a shelf follow the feed that the input is; writes what is due, and answers the process's status.
///
/// Each visit that is accepted shows what its instance's own script, run again from its start, shows next when fed the answers of
/// its page's own ancestors and their reads of shared cells, and then its own; each other reply is the script's own
/// fault or exactly the refusal that admission, cost or limits name, or want of memory. Of a shelf that is served this is
/// said where it was opened as an own one: each page that its journal has has the state of its chain, as on a disk that
/// this program left. Where its journals are audited first, each of these was, whoever wrote the bytes of its disks.
pub fn command<
    W: Threads + Wait + Sync,
    I: Source,
    O: Sink,
    D: Disk + Send + Sync,
    R: Rack<D>,
    A: Door,
    C: Clock + Sync,
    N: Nonces + Drop + Send + Sync,
    S: Seeds<N>,
    G: Gate + Sync,
    P: Past,
>(
    rt: &W,
    alloc: Global,
    words: &[&str],
    input: &mut I,
    output: &mut O,
    rack: &mut R,
    door: &mut A,
    clock: &C,
    seeds: &mut S,
    gate: &G,
    past: &mut P,
) -> u8
where
    A::Porch: Send,
    <A::Porch as Porch>::Link: Send,
    <<A::Porch as Porch>::Link as Link>::Input: Send,
    <<A::Porch as Porch>::Link as Link>::Output: Send,
    // Each disk is home when it begins.
    requires home { AreHome (R.view rack.old).out }
    // How it ended and why, what was written, what is left on the disks, and in which order the outside was asked; a serving with audits after these.
    ensures ended { HasEnded R.view result (around (texts words.now)
        (views (trio_view {G = ⟦<D as Disk>⟧}) D.tells A.Porch.Link.view A.Porch.view N.nonce
        (C.shows clock.now))
        (both (I.view input.old) (I.view input.new)) (both (O.view output.old) (O.view output.new))
        (racks_of (R.tells && D.tells) (R.view rack.old) (R.view rack.new))
        (both (A.view door.old) (A.view door.new)) (both (S.view seeds.old) (S.view seeds.new))
        (pasts_of (P.told past.old) (P.told past.new))) }
    // Plain words over a lawful input end well, at a step that does not fit, at an edit that outgrows a journal, or for want of memory, where nothing outside fails.
    ensures complete { IsComplete result (met_in (around (texts words.now)
        (views (trio_view {G = ⟦<D as Disk>⟧}) D.tells A.Porch.Link.view A.Porch.view N.nonce
        (C.shows clock.now))
        (both (I.view input.old) (I.view input.new)) (both (O.view output.old) (O.view output.new))
        (racks_of (R.tells && D.tells) (R.view rack.old) (R.view rack.new))
        (both (A.view door.old) (A.view door.new)) (both (S.view seeds.old) (S.view seeds.new))
        (pasts_of (P.told past.old) (P.told past.new)))) }
    // A status that tells a fault of the outside comes only where a call of that failed, and 2 only of words that are no command.
    ensures cause { HasCause result (met_in (around (texts words.now)
        (views (trio_view {G = ⟦<D as Disk>⟧}) D.tells A.Porch.Link.view A.Porch.view N.nonce
        (C.shows clock.now))
        (both (I.view input.old) (I.view input.new)) (both (O.view output.old) (O.view output.new))
        (racks_of (R.tells && D.tells) (R.view rack.old) (R.view rack.new))
        (both (A.view door.old) (A.view door.new)) (both (S.view seeds.old) (S.view seeds.new))
        (pasts_of (P.told past.old) (P.told past.new)))) }
    // Whatever it came to: what was written was handed on, each disk is home again, and no count of faults fell.
    ensures leaves { IsTidy result (around (texts words.now)
        (views (trio_view {G = ⟦<D as Disk>⟧}) D.tells A.Porch.Link.view A.Porch.view N.nonce
        (C.shows clock.now))
        (both (I.view input.old) (I.view input.new)) (both (O.view output.old) (O.view output.new))
        (racks_of (R.tells && D.tells) (R.view rack.old) (R.view rack.new))
        (both (A.view door.old) (A.view door.new)) (both (S.view seeds.old) (S.view seeds.new))
        (pasts_of (P.told past.old) (P.told past.new))) }
{
    transcripts_are_runs();
    let mut outside = Outside::new(rt, alloc, rack, door, clock, seeds, gate, past);
    code_of(outside.run(words, input, output))
}
