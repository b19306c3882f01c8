ghost use Rattle.std.specs.Prelude.{◌≡◌, ◌≤◌, ◌<◌, ◌+◌, ◌-◌, ◌^◌};
ghost use Rattle.request_workers.specs.Tallies.{count_of, served_count, IsBelow};
ghost use Rattle.request_workers.specs.Working.{Turns, Takes, EndsTurn, given_by, Worked, EndsBy};

use crate::link::{Links, serve_link};
use crate::tally::{Tally, WorkEnd};
use http_forms::Answering;
use std::alloc::Global;
use web_outside::{CONNECTION_LIMIT, Clock, Failed, Gate, Link, Porch};

// What one turn of a worker came to.
enum Turn {
    Served,
    Done,
    Failed,
}

// Serves the link.
fn serve_next<A: Answering, L: Link, C: Clock, G: Gate>(
    alloc: Global,
    answering: &A,
    pass: &mut A::Pass,
    link: &mut L,
    clock: &C,
    gate: &G,
    requests: u32,
) -> Links
    requires own { (A.rules answering.now).IsOwn pass.old }
    requires some { 0 < requests }
    requires few { requests ≤ 1000 }
    ensures own { (A.rules answering.now).IsOwn pass.new }
    ensures turn { Turns (A.rules answering.now) L.view (C.shows clock.now) requests pass.old pass.new
        link.old link.new (served_count result) }
    ensures few { result.pages + result.refused ≤ 1000 }
{
    serve_link(alloc, answering, pass, link, clock, gate, requests)
}

// Takes the next link of the porch, serves it, counts it and hands it back.
fn take_turn<A: Answering, P: Porch, C: Clock, G: Gate>(
    alloc: Global,
    answering: &A,
    pass: &mut A::Pass,
    porch: &mut P,
    clock: &C,
    gate: &G,
    requests: u32,
    tally: &mut Tally,
) -> Turn
    requires own { (A.rules answering.now).IsOwn pass.old }
    requires counts { IsBelow (count_of tally.old) (2 ^ 62) }
    requires some { 0 < requests }
    requires few { requests ≤ 1000 }
    ensures own { (A.rules answering.now).IsOwn pass.new }
    ensures turn { Takes (A.rules answering.now) P.Link.view
        (C.shows clock.now) requests result pass.old pass.new
        (P.view porch.old) (P.view porch.new) (count_of tally.old) (count_of tally.new) }
    ensures end { EndsTurn result (P.view porch.old) (P.view porch.new) }
    ensures given { (P.view porch.new).given ≡ given_by result (P.view porch.old).given }
    ensures bound { result ≡ Turn.Served → (P.view porch.new).given ≤ (P.view porch.new).most }
    ensures most { (P.view porch.new).most ≡ (P.view porch.old).most }
    ensures limit { (P.view porch.new).most ≤ CONNECTION_LIMIT }
    ensures later { (P.view porch.old).faults ≤ (P.view porch.new).faults }
{
    match porch.next() {
        Ok(Some(link)) => {
            let mut link = link;
            let links = serve_next(alloc, answering, pass, &mut link, clock, gate, requests);
            tally.count(&links);
            porch.back(link);
            Turn::Served
        }
        Ok(None) => Turn::Done,
        Err(Failed) => Turn::Failed,
    }
}

/// Serves the links of a porch, each with so many requests at most, until no more come or the porch fails. Before each request
/// the shelves are swept at the clock's tick, and after its last the link is handed back.
pub fn work<A: Answering, P: Porch, C: Clock, G: Gate>(
    alloc: Global,
    answering: &A,
    pass: &mut A::Pass,
    porch: &mut P,
    clock: &C,
    gate: &G,
    requests: u32,
) -> Tally
    requires own { (A.rules answering.now).IsOwn pass.old }
    requires some { 0 < requests }
    requires few { requests ≤ 1000 }
    ensures own { (A.rules answering.now).IsOwn pass.new }
    ensures worked { Worked (A.rules answering.now) P.Link.view
        (C.shows clock.now) requests pass.old pass.new
        (P.view porch.old) (P.view porch.new) (count_of result) }
    ensures end { EndsBy result.end (P.view porch.old) (P.view porch.new) }
    // Each link has 1,000 visits at most, so the counts of many workers have a sum.
    ensures small { IsBelow (count_of result) 1000000001 }
    ensures most { (P.view porch.new).most ≡ (P.view porch.old).most }
    ensures later { (P.view porch.old).faults ≤ (P.view porch.new).faults }
{
    let mut tally = Tally::nothing();
    loop {
        match take_turn(
            alloc, answering, pass, porch, clock, gate, requests, &mut tally,
        ) {
            Turn::Served => {}
            Turn::Done => return tally.ended(WorkEnd::Done),
            Turn::Failed => return tally.ended(WorkEnd::Failed),
        }
    }
}
