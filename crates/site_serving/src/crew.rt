//! Workers on their way to their work and back. They stand in the reverse order meanwhile.
ghost use Rattle.std.specs.Prelude.{◌≡◌, reverse, vec_len};
ghost use Rattle.lock_row.specs.Locks.{HasRoomFor};
ghost use Rattle.site_serving.specs.Workers.{AreGone, KeepRoom, passes_of, porches_of, tallies_of};

use crate::worker::Worker;
use request_workers::Tally;

/// Gives each pass the porch of its place. It takes no memory.
pub(crate) fn hire_all<S, P>(
    passes: &mut Vec<S>,
    porches: &mut Vec<P>,
    workers: &mut Vec<Worker<S, P>>,
)
    requires pairs { vec_len porches.old ≡ vec_len passes.old }
    requires room { HasRoomFor (vec_len passes.old) workers.old }
    ensures passes { passes_of (reverse workers.new.items) ≡ passes.old.items }
    ensures porches { porches_of (reverse workers.new.items) ≡ porches.old.items }
    ensures len { vec_len workers.new ≡ vec_len passes.old }
    ensures emptied { AreGone passes.new porches.new }
    ensures capacity { KeepRoom passes.old porches.old passes.new porches.new }
{
    'hiring: while let Some(pass) = passes.pop() {
        let porch = porches.pop().unwrap();
        workers.push_reserved(Worker {
            pass,
            porch,
            tally: Tally::nothing(),
        });
    }
}

/// Takes the passes and the porches back, with what was counted. It takes no memory.
pub(crate) fn dismiss_all<S, P>(
    workers: Vec<Worker<S, P>>,
    passes: &mut Vec<S>,
    porches: &mut Vec<P>,
    tallies: &mut Vec<Tally>,
)
    requires passes { HasRoomFor (vec_len workers) passes.old }
    requires porches { HasRoomFor (vec_len workers) porches.old }
    requires tallies { HasRoomFor (vec_len workers) tallies.old }
    ensures passes { passes.new.items ≡ passes_of (reverse workers.items) }
    ensures porches { porches.new.items ≡ porches_of (reverse workers.items) }
    ensures tallies { tallies.new.items ≡ tallies_of (reverse workers.items) }
{
    let mut workers = workers;
    'dismissing: while let Some(worker) = workers.pop() {
        let Worker { pass, porch, tally } = worker;
        passes.push_reserved(pass);
        porches.push_reserved(porch);
        tallies.push_reserved(tally);
    }
    workers.destroy_empty();
}
