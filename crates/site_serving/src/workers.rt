//! Workers in threads of their own.
ghost use Rattle.std.specs.Prelude.{◌≡◌, ◌≤◌, ℕ, ◌<◌, length, slice_index_or, vec_len};
ghost use Rattle.site_serving.specs.Workers.{AreOwn, AreServed, HaveOwn, IsRoomFor, Serves};

use crate::crew::{dismiss_all, hire_all};
use crate::worker::{Room, Worker};
use http_forms::Answering;
use request_workers::{Tally, work};
use server_limits::MOST_WORKERS;
use std::alloc::Global;
use std::thread::{Threads, for_each_mut};
use web_outside::{Clock, Gate, Link, Porch};

// Serves the links of the worker's porch.
fn work_as<A: Answering, P: Porch, C: Clock, G: Gate>(
    alloc: Global,
    answering: &A,
    worker: &mut Worker<A::Pass, P>,
    clock: &C,
    gate: &G,
    requests: u32,
)
    requires own { (A.rules answering.now).IsOwn worker.old.pass }
    requires some { 0 < requests }
    requires few { requests ≤ 1000 }
    ensures own { (A.rules answering.now).IsOwn worker.new.pass }
    ensures works { Serves (A.rules answering.now) P.Link.view P.view (C.shows clock.now) requests
        worker.old worker.new }
{
    let Worker { pass, porch, tally } = worker;
    *tally = work(alloc, answering, pass, porch, clock, gate, requests);
}

// Each worker serves the links of its porch, in a thread of its own. Where no thread can be made, the caller serves them.
fn work_all<
    A: Answering + Sync,
    P: Porch + Send,
    C: Clock + Sync,
    G: Gate + Sync,
    R: Threads + Sync,
>(
    rt: &R,
    alloc: Global,
    answering: &A,
    workers: &mut [Worker<A::Pass, P>],
    clock: &C,
    gate: &G,
    requests: u32,
)
where
    A::Pass: Send,
    P::Link: Send,
    <P::Link as Link>::Input: Send,
    <P::Link as Link>::Output: Send,
    requires some { 0 < requests }
    requires few { requests ≤ 1000 }
    requires own { HaveOwn (A.rules answering.now) (length workers.old) workers.old }
    ensures own { HaveOwn (A.rules answering.now) (length workers.old) workers.new }
    ensures works { (k : ℕ) (w : _) → k < length workers.old
        → Serves (A.rules answering.now) P.Link.view P.view (C.shows clock.now) requests
        (slice_index_or workers.old k w) (slice_index_or workers.new k w) }
{
    for_each_mut(
        rt,
        workers,
        MOST_WORKERS as usize,
        &|_, worker| work_as(alloc, answering, worker, clock, gate, requests),
    );
}

/// Through each pass the links of the porch of its place are served, in a thread of its own; where no thread can be made, by
/// the caller. It gives what was counted of each porch, and takes no memory beside the room.
pub fn serve_all<
    A: Answering + Sync,
    P: Porch + Send,
    C: Clock + Sync,
    G: Gate + Sync,
    R: Threads + Sync,
>(
    rt: &R,
    alloc: Global,
    answering: &A,
    passes: &mut Vec<A::Pass>,
    porches: &mut Vec<P>,
    room: Room<A::Pass, P>,
    clock: &C,
    gate: &G,
    requests: u32,
) -> Vec<Tally>
where
    A::Pass: Send,
    P::Link: Send,
    <P::Link as Link>::Input: Send,
    <P::Link as Link>::Output: Send,
    requires pairs { vec_len porches.old ≡ vec_len passes.old }
    requires own { AreOwn (A.rules answering.now) passes.old.items }
    requires some { 0 < requests }
    requires few { requests ≤ 1000 }
    requires room { IsRoomFor (vec_len passes.old) room }
    ensures own { AreOwn (A.rules answering.now) passes.new.items }
    ensures served { AreServed (A.rules answering.now) P.Link.view P.view (C.shows clock.now) requests
        passes.old.items porches.old.items passes.new.items porches.new.items result.items }
{
    let Room {
        mut workers,
        mut tallies,
    } = room;
    hire_all(passes, porches, &mut workers);
    work_all(rt, alloc, answering, &mut workers, clock, gate, requests);
    dismiss_all(workers, passes, porches, &mut tallies);
    tallies
}
