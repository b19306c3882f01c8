//! Two workers beside one another.

use crate::outside::Machine;
use crate::servings::{Ending, TEN, served, served_at};
use crate::streets::{QUIET, Street};
use std::sync::atomic::{AtomicU64, Ordering};
use std::test::Fail;
use web_outside::{Gate, SetClock};

// A gate that holds visits between their take and their publish: 0 up to the take of 1, so that each worker has begun, 1 up to
// that of 2, and 2 up to that of 4, each for so many turns at most.
#[derive(Drop)]
struct HoldingGate {
    // One more than the greatest number that came.
    came: AtomicU64,
    missed: AtomicU64,
}

const MOST_TURNS: u32 = 1_000_000_000;

impl HoldingGate {
    fn hold(&self, until: u64) {
        for _ in 0..MOST_TURNS {
            if self.came.load(Ordering::SeqCst) > until {
                return;
            }
        }
        self.missed.fetch_add(1, Ordering::SeqCst);
    }
}

impl Gate for HoldingGate {
    fn pass(&self, number: u64) {
        self.came
            .fetch_max(number.saturating_add(1), Ordering::SeqCst);
        match number {
            0 => self.hold(1),
            1 => self.hold(2),
            2 => self.hold(4),
            _ => {}
        }
    }
}

// A script with one item to be sold.
const SHOP: (&str, &str) = (
    "shop",
    "(define stock (make-instance-cell 1)) (begin (send/suspend (lambda (u) `(a ((href ,u)) \"buy\"))) (if (< (instance-cell-ref stock) 1) '(p \"sold out\") (begin (instance-cell-add! stock -1) '(p \"bought\"))))",
);

// What each worker's link asks for: a start, the item of the first start, and another start.
const BUYER: &str =
    "GET /servlets/shop HTTP/1.1\r\nHost: h\r\n\r\nGET /servlets/shop;0*0*0*0000000000000000 HTTP/1.1\r\nHost: h\r\n\r\nGET /servlets/shop HTTP/1.1\r\nHost: h\r\n\r\n";

const TWO_BUYERS: Street = Street {
    links: &[BUYER],
    others: Some(&[BUYER]),
    ..QUIET
};

const TWO_WORKERS: &[&str] = &[
    "hovgyelit",
    "serve",
    "--port",
    "0",
    "--workers",
    "2",
    "--connections",
    "1",
];

// How many links were told this.
fn count_told(outcome: &Ending, text: &str) -> usize {
    let links = outcome.links.iter();
    links.filter(|link| link.as_str().contains(text)).count()
}

// Whether two workers served three pages each, and sold one item.
fn is_sold_once(ending: &Ending) -> bool {
    ending.text.as_str() == "pages 6 refused 0\n"
        && ending.pages.as_slice() == [3, 3].as_slice()
        && ending.entries.as_slice() == [12].as_slice()
        && count_told(ending, "<p>bought</p>") == 1
        && count_told(ending, "<p>sold out</p>") == 1
}

// Whether they did where the visits of two buyers pass this gate.
fn sells_once<R: Machine>(rt: &R, gate: &HoldingGate) -> Result<bool, Fail> {
    let ending = served_at(rt, TWO_WORKERS, SHOP, &TWO_BUYERS, &SetClock::new(0), gate)?;
    Ok(is_sold_once(&ending))
}

// The visit that is held, of number 2, ran its script before that of number 3 came, which bought the item. It is published when
// that one has its reply, since the same link asked for the visit of number 4 after it.
#[test]
fn a_visit_that_is_held_until_another_has_its_reply_runs_again(
    rt: HostRuntime,
) -> Result<(), Fail> {
    let gate = HoldingGate {
        came: AtomicU64::new(0),
        missed: AtomicU64::new(0),
    };
    let is_sold = sells_once(&rt, &gate)?;
    assert_eq!(rt; gate.missed.load(Ordering::SeqCst), 0);
    assert!(rt; is_sold);
    Ok(())
}

const NONE_AND_TWO: Street = Street {
    links: &["GET /servlets/ten HTTP/1.0\r\n\r\n"],
    others: Some(&[
        "GET /servlets/ten HTTP/1.0\r\n\r\n",
        "GET /servlets/ten HTTP/1.0\r\n\r\n",
    ]),
    nexts: &[0],
    ..QUIET
};

const TWO_SHELVES: &[&str] = &[
    "hovgyelit",
    "serve",
    "--port",
    "0",
    "--workers",
    "2",
    "--shelves",
    "2",
];

// Whether the first worker's porch failed, and the second worker served two pages on a shelf of its own.
fn ends_first_alone(ending: &Ending) -> bool {
    ending.status == 9
        && ending.text.as_str() == "error 9 door\n"
        && ending.links.len() == 2
        && ending.pages.as_slice() == [0, 2].as_slice()
        && ending.entries.as_slice() == [0, 4].as_slice()
}

// Whether serving so ends so.
fn fails_alone<R: Machine>(rt: &R, street: &Street) -> Result<bool, Fail> {
    let ending = served(rt, TWO_SHELVES, TEN, street)?;
    Ok(ends_first_alone(&ending))
}

#[test]
fn each_worker_starts_on_a_shelf_of_its_own_and_one_porch_that_fails_ends_its_worker_alone(
    rt: HostRuntime,
) -> Result<(), Fail> {
    assert!(rt; fails_alone(&rt, &NONE_AND_TWO)?);
    Ok(())
}
