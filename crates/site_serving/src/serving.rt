//! Links of a door, served from the shelves of a site.
ghost use Rattle.std.specs.Prelude.{◌≡◌, ◌≤◌, ℕ, Some, length, slice_get, vec_len, IfOk, IsErrOf, IsTrue, OnErr};
ghost use Rattle.disk_trio.specs.Trio.{trio_view};
ghost use Rattle.site_serving.specs.Workers.{IsRoomFor};
ghost use Rattle.server_limits.specs.Counts.{most_workers};
ghost use Rattle.server_limits.specs.Limits.{most_requests};
ghost use Rattle.site.specs.Beginnings.{IsFirstPass, IsReady, IsWhole};
ghost use Rattle.site_serving.specs.Serving.{AreUntouched, ComesTo, EndsAs, HasFailed, IsManned, fault_of, openings_in, pasts_of, views};

use crate::keeping::Past;
use crate::{Room, serve_all, total};
use disk_trio::Disks;
use request_workers::{Tally, WorkEnd};
use site::{Running, Site, SitePass};
use std::alloc::{AllocError, Global};
use std::sync::Wait;
use std::thread::Threads;
use web_disk::Disk;
use web_outside::{CONNECTION_LIMIT, Clock, Door, DoorFault, Gate, Link, Nonces, Porch};

/// What a serving asks of its door.
#[derive(Clone, Copy, Debug, PartialEq, Eq)]
pub struct Watch {
    /// The port to listen at.
    pub port: u16,
    /// How many workers there are, 1 to `MOST_WORKERS`.
    pub workers: u32,
    /// The most links that each of them serves.
    pub connections: u64,
    /// The most requests that each link carries, 1 to `server_limits::MOST_REQUESTS`.
    pub requests: u32,
}

/// Why a serving came to no counts.
#[derive(Clone, Copy, Debug, PartialEq, Eq)]
pub enum ServingFault {
    /// The door failed, or a porch.
    Door,
    /// Memory ran out.
    Memory,
}

// Why a door does not listen, as a fault of the serving.
fn fault_of(why: DoorFault) -> ServingFault
    ensures { result ≡ fault_of why }
{
    match why {
        DoorFault::Failed => ServingFault::Door,
        DoorFault::Memory => ServingFault::Memory,
    }
}

// What workers go to work with: their passes, and room for themselves.
struct Crew<D: Disk, N: Nonces + Drop, P> {
    passes: Vec<SitePass<D, N>>,
    room: Room<SitePass<D, N>, P>,
}

// Gathers so many workers, whose passes the site gives. Want of memory changes nothing.
fn gather<D: Disk, N: Nonces + Drop, P>(
    alloc: Global,
    site: &mut Site<D, N>,
    count: u32,
) -> Result<Crew<D, N, P>, AllocError>
    requires ready { IsReady site.old }
    requires range { (1 ≤ count) × (count ≤ most_workers) }
    ensures whole { IsWhole site.new }
    ensures homes { site.new.row.homes ≡ site.old.row.homes }
    ensures manned { IfOk result (λ c. IsManned site.new count c.passes.items) }
    ensures none { OnErr result (site.new.row.seats ≡ 0) }
    ensures count { IfOk result (λ c. vec_len c.passes ≡ count) }
    ensures room { IfOk result (λ c. IsRoomFor count c.room) }
{
    let room = Room::new(alloc, count)?;
    match site.passes(alloc, count) {
        Ok(passes) => Ok(Crew { passes, room }),
        Err(fault) => {
            room.close();
            Err(fault)
        }
    }
}

// Closes a site of which nothing was served, and gives back its disks, as they were when the shelves were opened.
fn give_up<R: Wait, D: Disk, N: Nonces + Drop>(
    rt: &R,
    site: Site<D, N>,
    passes: Vec<SitePass<D, N>>,
) -> Vec<D>
    requires whole { IsWhole site }
    requires given { site.row.seats ≡ vec_len passes }
    requires first { (k : ℕ) (p : _) → slice_get passes.items k ≡ Some p → IsFirstPass site k p }
    ensures disks { length result.items ≡ length site.row.homes }
    ensures untouched { AreUntouched D.view (IsTrue D.tells)
        (openings_in D.view D.tells N.nonce site) result.items }
{
    let (disks, nonces, histories) = site.close(rt, passes);
    drop(nonces);
    drop(histories);
    disks
}

// The workers serve their porches; then the door closes, and what is left of the site is kept.
fn serve_porches<
    R: Threads + Wait + Sync,
    F: Disk + Send + Sync,
    N: Nonces + Drop + Send + Sync,
    A: Door,
    C: Clock + Sync,
    G: Gate + Sync,
    P: Past,
>(
    rt: &R,
    alloc: Global,
    site: Site<Disks<F>, N>,
    passes: Vec<SitePass<Disks<F>, N>>,
    porches: Vec<A::Porch>,
    room: Room<SitePass<Disks<F>, N>, A::Porch>,
    requests: u32,
    door: &mut A,
    clock: &C,
    gate: &G,
    past: &mut P,
) -> (Vec<Disks<F>>, Tally)
where
    A::Porch: Send,
    <A::Porch as Porch>::Link: Send,
    <<A::Porch as Porch>::Link as Link>::Input: Send,
    <<A::Porch as Porch>::Link as Link>::Output: Send,
    requires whole { IsWhole site }
    requires manned { IsManned site (vec_len passes) passes.items }
    requires few { vec_len passes ≤ most_workers }
    requires pairs { vec_len porches ≡ vec_len passes }
    requires room { IsRoomFor (vec_len passes) room }
    requires requests { (1 ≤ requests) × (requests ≤ most_requests) }
    ensures disks { length result.0.items ≡ length site.row.homes }
    ensures ends { EndsAs
        (views trio_view F.tells A.Porch.Link.view A.Porch.view N.nonce (C.shows clock.now))
        (openings_in trio_view F.tells N.nonce site) requests porches.items (A.view door.new)
        (pasts_of (P.told past.old) (P.told past.new)) (vec_len passes) result.0.items result.1 }
    ensures failed { result.1.end ≡ WorkEnd.Failed → HasFailed (A.view door.old) (A.view door.new) }
    ensures later { (A.view door.old).faults ≤ (A.view door.new).faults }
{
    let mut passes = passes;
    let mut porches = porches;
    let running = Running { rt, site: &site };
    let tallies = serve_all(
        rt,
        alloc,
        &running,
        &mut passes,
        &mut porches,
        room,
        clock,
        gate,
        requests,
    );
    let tally = total(&tallies);
    // A count is below 2^64, so it does not fall where those of the porches are added.
    let _count = door.faults();
    door.close(porches);
    let (disks, nonces, histories) = site.close(rt, passes);
    drop(nonces);
    past.keep(histories, tallies);
    (disks, tally)
}

/// Serves links of the door from the shelves of a site: each worker those of its own porch, in a thread of its own, until so
/// many came as it may serve, or no more come. A link carries so many requests at most, one after the other. Where a porch fails its worker ends, and the others go on. After the last
/// worker the site is closed, and its past is kept, once. It gives back the disks, with what was counted; an error is that of
/// the door or of a porch, or want of memory before any link came.
pub fn serve_site<
    R: Threads + Wait + Sync,
    F: Disk + Send + Sync,
    N: Nonces + Drop + Send + Sync,
    A: Door,
    C: Clock + Sync,
    G: Gate + Sync,
    P: Past,
>(
    rt: &R,
    alloc: Global,
    site: Site<Disks<F>, N>,
    watch: &Watch,
    door: &mut A,
    clock: &C,
    gate: &G,
    past: &mut P,
) -> (Vec<Disks<F>>, Result<Tally, ServingFault>)
where
    A::Porch: Send,
    <A::Porch as Porch>::Link: Send,
    <<A::Porch as Porch>::Link as Link>::Input: Send,
    <<A::Porch as Porch>::Link as Link>::Output: Send,
    requires ready { IsReady site }
    requires workers { (1 ≤ watch.now.workers) × (watch.now.workers ≤ most_workers) }
    requires links { watch.now.connections ≤ CONNECTION_LIMIT }
    requires requests { (1 ≤ watch.now.requests) × (watch.now.requests ≤ most_requests) }
    ensures disks { length result.0.items ≡ length site.row.homes }
    ensures comes { ComesTo
        (views trio_view F.tells A.Porch.Link.view A.Porch.view N.nonce (C.shows clock.now))
        (openings_in trio_view F.tells N.nonce site) (A.view door.old) (A.view door.new)
        (pasts_of (P.told past.old) (P.told past.new)) watch.now result.0.items result.1 }
    ensures door { IsErrOf result.1 ServingFault.Door
        → HasFailed (A.view door.old) (A.view door.new) }
    ensures later { (A.view door.old).faults ≤ (A.view door.new).faults }
{
    let mut site = site;
    let Ok(crew) = gather(alloc, &mut site, watch.workers) else {
        return (
            give_up(rt, site, Vec::new(alloc)),
            Err(ServingFault::Memory),
        );
    };
    let Crew { passes, room } = crew;
    match door.listen(alloc, watch.port, watch.workers, watch.connections) {
        Ok(porches) => {
            let (disks, tally) = serve_porches(
                rt,
                alloc,
                site,
                passes,
                porches,
                room,
                watch.requests,
                door,
                clock,
                gate,
                past,
            );
            match tally.end {
                WorkEnd::Done => (disks, Ok(tally)),
                WorkEnd::Failed => (disks, Err(ServingFault::Door)),
            }
        }
        Err(why) => {
            room.close();
            (give_up(rt, site, passes), Err(fault_of(why)))
        }
    }
}
