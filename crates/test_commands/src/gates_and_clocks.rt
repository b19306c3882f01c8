//! The gate and the clock of one worker.

use crate::outside::Machine;
use crate::servings::{ALL, SERVE, TEN, has_ends, served_at, told_on};
use crate::streets::{QUIET, Street};
use std::test::Fail;
use web_outside::{Clock, NotingGate, OpenGate, SetClock, TickingClock};

const TWO_STARTS_AND_A_STRANGER: Street = Street {
    links: &[
        "GET /servlets/ten HTTP/1.0\r\n\r\n",
        "GET /servlets/none HTTP/1.0\r\n\r\n",
        "GET /servlets/ten HTTP/1.0\r\n\r\n",
    ],
    ..QUIET
};

// The numbers with which the gate was passed while these links were served.
fn numbers_noted<R: Machine>(rt: &R, street: &Street) -> Result<Vec<u64>, Fail> {
    let gate = NotingGate::new(rt.alloc(), 8)?;
    served_at(rt, SERVE, TEN, street, &SetClock::new(0), &gate)?;
    Ok(gate.noted(rt.alloc())?)
}

#[test]
fn each_visit_passes_the_gate_once_with_its_number(rt: HostRuntime) -> Result<(), Fail> {
    let noted = numbers_noted(&rt, &TWO_STARTS_AND_A_STRANGER)?;
    assert_eq!(rt; noted.as_slice(), [0, 1].as_slice());
    Ok(())
}

const A_START_AND_ITS_ANSWER: Street = Street {
    links: &[
        "GET /servlets/all HTTP/1.0\r\n\r\n",
        "GET /servlets/all;0*0*0*0000000000000000?n=1 HTTP/1.0\r\n\r\n",
    ],
    ..QUIET
};

const TEN_SECONDS: &[&str] = &[
    "hovgyelit",
    "serve",
    "--port",
    "0",
    "--workers",
    "1",
    "--life",
    "10",
];

// Whether what stands on the second link begins and ends so, where a page lives ten seconds of this clock.
fn second_is_told<R: Machine, C: Clock + Sync>(
    rt: &R,
    clock: &C,
    ends: (&str, &str),
) -> Result<bool, Fail> {
    let street = &A_START_AND_ITS_ANSWER;
    let ending = served_at(rt, TEN_SECONDS, ALL, street, clock, &OpenGate)?;
    Ok(has_ends(told_on(&ending, 1), ends))
}

#[test]
fn the_clock_is_read_before_each_link(rt: HostRuntime) -> Result<(), Fail> {
    assert!(rt; second_is_told(&rt, &SetClock::new(0), ("", "\r\n\r\n<p>1</p>"))?);
    assert!(rt; second_is_told(&rt, &TickingClock::new(0, 20), ("HTTP/1.1 404 ", ""))?);
    Ok(())
}

const A_PAGE_AND_ITS_ANSWER: Street = Street {
    links: &[
        "GET /servlets/all HTTP/1.1\r\nHost: h\r\n\r\nGET /servlets/all;0*0*0*0000000000000000?n=1 HTTP/1.0\r\n\r\n",
    ],
    ..QUIET
};

// Whether serving a page and its answer on one link tells this, where each reading of the clock is so many seconds after the
// one before.
fn tells_at<R: Machine>(rt: &R, step: u64, text: &str) -> Result<bool, Fail> {
    let clock = TickingClock::new(0, step);
    let street = &A_PAGE_AND_ITS_ANSWER;
    let ending = served_at(rt, TEN_SECONDS, ALL, street, &clock, &OpenGate)?;
    Ok(ending.text.as_str() == text)
}

#[test]
fn a_page_expires_between_two_requests_of_one_link(rt: HostRuntime) -> Result<(), Fail> {
    assert!(rt; tells_at(&rt, 0, "pages 2 refused 0\n")?);
    assert!(rt; tells_at(&rt, 20, "pages 1 refused 1\n")?);
    Ok(())
}
