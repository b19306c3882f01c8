use crate::counter::{Asked, Counter};
use request_workers::{Tally, WorkEnd, work};
use std::alloc::Global;
use std::test::Fail;
use web_outside::{
    Door, DoorFault, ListDoor, ListPorch, ListSeeds, Nonces, NotingGate, Porch, SeedFault, Seeds,
    Sink, TextLink, TextSink, TextSource, TickingClock,
};

const START: &[u8] = b"GET /servlets/ten HTTP/1.0\r\n\r\n";

// What a link sends, which of its reads fails, and how many bytes it takes.
type Sending = (&'static [u8], &'static [u64], usize);

const LINKS: &[Sending] = &[
    (START, &[], 1_000),
    (b"", &[], 1_000),
    (b"?", &[], 1_000),
    (START, &[0], 1_000),
    (START, &[], 10),
    (b"GET / HTTP/1.0\r\n\r\n", &[], 1_000),
    (START, &[], 1_000),
];

// A link of two requests.
const TWO: &[Sending] = &[(
    b"GET /servlets/ten HTTP/1.1\nHost: h\n\nGET /servlets/ten HTTP/1.1\nHost: h\n\n",
    &[],
    1_000,
)];

fn links(alloc: Global, sending: &[Sending]) -> Result<Vec<TextLink>, Fail> {
    let mut links = Vec::new(alloc);
    for (sent, reads, room) in sending {
        links.push(TextLink {
            input: TextSource::new(sent.to_vec(alloc)?, reads.to_vec(alloc)?, 5),
            output: TextSink::new(alloc, *room, Vec::new(alloc))?,
        })?;
    }
    Ok(links)
}

fn tally(pages: u64, refused: u64, failed: u64, dropped: u64, end: WorkEnd) -> Tally {
    Tally {
        pages,
        refused,
        failed,
        dropped,
        end,
    }
}

#[test]
fn a_worker_serves_its_links_and_counts(rt: HostRuntime) -> Result<(), Fail> {
    let alloc = rt.alloc();
    let cases: &[(&[Sending], u64, &[u64], usize, usize, Tally)] = &[
        (LINKS, 10, &[], 10, 7, tally(3, 1, 2, 0, WorkEnd::Done)),
        (LINKS, 3, &[], 10, 3, tally(1, 0, 0, 0, WorkEnd::Done)),
        (LINKS, 10, &[5], 10, 5, tally(2, 0, 2, 0, WorkEnd::Failed)),
        (LINKS, 10, &[], 4, 7, tally(1, 0, 1, 3, WorkEnd::Done)),
        (TWO, 10, &[], 10, 3, tally(2, 0, 0, 0, WorkEnd::Done)),
        (TWO, 10, &[], 1, 2, tally(1, 0, 0, 1, WorkEnd::Done)),
    ];
    for (sending, connections, failing, room, ticks, wanted) in cases {
        let porch = ListPorch::new(alloc, links(alloc, sending)?, failing.to_vec(alloc)?)?;
        let mut porches = Vec::new(alloc);
        porches.push(porch)?;
        let mut door = ListDoor::new(alloc, 80, porches, Vec::new(alloc));
        let Ok(mut porches) = door.listen(alloc, 80, 1, (*connections).min(10)) else {
            return Err(Fail::from("no door"));
        };
        let mut asked = Asked::nothing(alloc, *room);
        for porch in porches.iter_mut() {
            let clock = TickingClock::new(7, 3);
            let gate = NotingGate::new(alloc, 10)?;
            let counted = work(alloc, &Counter, &mut asked, porch, &clock, &gate, 100);
            assert_eq!(rt; counted, *wanted);
            // The clock is read anew for each request that is looked for, and each visit passes the gate.
            assert_eq!(rt; asked.ticks.len(), *ticks);
            for (tick, wanted) in asked.ticks.iter().zip((0..10).map(|link| 7 + 3 * link)) {
                assert_eq!(rt; *tick, wanted);
            }
            let noted = gate.noted(alloc)?;
            assert_eq!(rt; gate.count(), asked.visits);
            assert_eq!(rt; noted.len() as u64, asked.visits);
            for (number, wanted) in noted.iter().zip(0..10) {
                assert_eq!(rt; *number, wanted);
            }
        }
        door.close(porches);
        let faults = if wanted.end == WorkEnd::Failed { 1 } else { 0 };
        assert_eq!(rt; door.faults(), faults);
    }
    Ok(())
}

#[test]
fn a_door_and_seeds_fail_where_they_are_told_to(rt: HostRuntime) -> Result<(), Fail> {
    let alloc = rt.alloc();
    let mut door = ListDoor::new(alloc, 80, Vec::new(alloc), [0].as_slice().to_vec(alloc)?);
    assert!(rt; matches!(door.listen(alloc, 80, 0, 1), Err(DoorFault::Failed)));
    assert!(rt; matches!(door.listen(alloc, 80, 1, 1), Err(DoorFault::Failed)));
    assert!(rt; matches!(door.listen(alloc, 81, 0, 1), Err(DoorFault::Failed)));
    assert!(rt; door.listen(alloc, 80, 0, 1).is_ok());
    assert_eq!(rt; door.faults(), 3);
    let mut seeds = ListSeeds::new([0].as_slice().to_vec(alloc)?);
    assert!(rt; matches!(seeds.draw(alloc, 2), Err(SeedFault::Failed)));
    let Ok(mut sources) = seeds.draw(alloc, 2) else {
        return Err(Fail::from("no sources"));
    };
    for source in sources.iter_mut() {
        assert_eq!(rt; source.next(), 0);
        assert_eq!(rt; source.next(), 1);
    }
    assert_eq!(rt; seeds.faults(), 1);
    Ok(())
}
