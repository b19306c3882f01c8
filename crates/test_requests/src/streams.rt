//! Links that carry several requests, one after the other.

use crate::counter::{Asked, Counter};
use http_forms::Refused;
use request_workers::{LinkEnd, Links, serve_link};
use server_limits::MOST_REQUESTS;
use std::alloc::Global;
use std::test::Fail;
use web_outside::{Clock, OpenGate, SetClock, TextLink, TextSink, TextSource, TickingClock};

const FIRST: &[u8] = b"GET /servlets/sum HTTP/1.1\r\nHost: h\r\n\r\n";

const FORM: &[u8] =
    b"POST /servlets/all;0*0*0*0000000000000000?n=1 HTTP/1.1\r\nHost: h\r\nContent-Type: application/x-www-form-urlencoded\r\nContent-Length: 3\r\n\r\nn=2";

const CLOSING: &[u8] = b"GET /servlets/sum HTTP/1.1\r\nHost: h\r\nConnection: close\r\n\r\n";

const CHUNKED: &[u8] =
    b"GET /servlets/sum HTTP/1.1\r\nHost: h\r\nTransfer-Encoding: chunked\r\n\r\n";

const KEPT: &[u8] =
    b"HTTP/1.1 200 OK\r\nContent-Type: text/html; charset=utf-8\r\nContent-Length: 12\r\nConnection: keep-alive\r\n\r\n<p>12345</p>";

const LAST: &[u8] =
    b"HTTP/1.1 200 OK\r\nContent-Type: text/html; charset=utf-8\r\nContent-Length: 12\r\nConnection: close\r\n\r\n<p>12345</p>";

const KEPT_FAULT: &[u8] =
    b"HTTP/1.1 500 Internal Server Error\r\nContent-Type: text/plain; charset=utf-8\r\nContent-Length: 8\r\nConnection: keep-alive\r\n\r\nbinding\n";

const LAST_FAULT: &[u8] =
    b"HTTP/1.1 500 Internal Server Error\r\nContent-Type: text/plain; charset=utf-8\r\nContent-Length: 8\r\nConnection: close\r\n\r\nbinding\n";

const NOT_READ: &[u8] =
    b"HTTP/1.1 501 Not Implemented\r\nContent-Type: text/plain; charset=utf-8\r\nContent-Length: 8\r\nConnection: close\r\n\r\nchunked\n";

const CUT_OFF: &[u8] =
    b"HTTP/1.1 400 Bad Request\r\nContent-Type: text/plain; charset=utf-8\r\nContent-Length: 12\r\nConnection: close\r\n\r\nbad-request\n";

// How a link is treated: how many bytes it gives at once, which of its reads fails, how many bytes it takes, for how many ticks
// there is memory, and how many requests it may carry.
#[derive(Clone, Copy)]
struct Treated {
    greatest: usize,
    failing: u64,
    room: usize,
    ticks: usize,
    requests: u32,
}

const NEVER: u64 = u64::MAX;

const FAIR: Treated = Treated {
    greatest: 4096,
    failing: NEVER,
    room: 4096,
    ticks: 100,
    requests: 100,
};

// What became of a link.
#[derive(Drop)]
struct Became {
    links: Links,
    asked: Asked,
    link: TextLink,
}

// A link over which the clock goes on with each request.
fn served(alloc: Global, sends: &[u8], treated: Treated) -> Result<Became, Fail> {
    served_by(alloc, sends, treated, &TickingClock::new(7, 3))
}

fn served_by<C: Clock>(
    alloc: Global,
    sends: &[u8],
    treated: Treated,
    clock: &C,
) -> Result<Became, Fail> {
    let failing = [treated.failing].as_slice().to_vec(alloc)?;
    let mut link = TextLink {
        input: TextSource::new(sends.to_vec(alloc)?, failing, treated.greatest.max(1)),
        output: TextSink::new(alloc, treated.room, Vec::new(alloc))?,
    };
    let mut asked = Asked::nothing(alloc, treated.ticks);
    let links = serve_link(
        alloc,
        &Counter,
        &mut asked,
        &mut link,
        clock,
        &OpenGate,
        treated.requests.max(1).min(MOST_REQUESTS),
    );
    Ok(Became { links, asked, link })
}

fn joined(alloc: Global, parts: &[&[u8]]) -> Result<Vec<u8>, Fail> {
    let mut bytes = Vec::new(alloc);
    for part in parts {
        bytes.extend_from_slice(part)?;
    }
    Ok(bytes)
}

// What a link sends, how many requests it may carry, what is written, and how it ends.
const STREAMS: &[(&[&[u8]], u32, &[&[u8]], LinkEnd)] = &[
    (
        &[FIRST, CLOSING, b"GET"],
        100,
        &[KEPT, LAST],
        LinkEnd::Closed,
    ),
    (&[FIRST, FIRST], 2, &[KEPT, LAST], LinkEnd::Closed),
    (&[FIRST, FIRST], 1, &[LAST], LinkEnd::Closed),
    (&[FIRST, FIRST], 3, &[KEPT, KEPT], LinkEnd::Idle),
    (&[], 3, &[], LinkEnd::Idle),
    (
        &[FIRST, CHUNKED, FIRST],
        100,
        &[KEPT, NOT_READ],
        LinkEnd::Refused(Refused::Chunked),
    ),
    (
        &[FIRST, CHUNKED],
        2,
        &[KEPT, NOT_READ],
        LinkEnd::Refused(Refused::Chunked),
    ),
    (
        &[FIRST, b"GET /servlets/ten HTTP/1.0\r\n\r\n", FIRST],
        100,
        &[KEPT, LAST],
        LinkEnd::Closed,
    ),
];

#[test]
fn a_link_carries_requests_whole_and_in_pieces(rt: HostRuntime) -> Result<(), Fail> {
    let alloc = rt.alloc();
    for (sends, requests, writes, end) in STREAMS {
        let sent = joined(alloc, sends)?;
        let written = joined(alloc, writes)?;
        for greatest in [1, 2, 7, 4096] {
            let treated = Treated {
                greatest,
                requests: *requests,
                ..FAIR
            };
            let became = served(alloc, &sent, treated)?;
            assert_eq!(rt; became.links.end, *end, "by {greatest}");
            assert_eq!(rt;
                became.link.output.handed(),
                written.as_slice(),
                "by {greatest}"
            );
            assert_eq!(rt; became.links.pages, became.asked.visits);
        }
    }
    Ok(())
}

// Ten requests, with the reply of each that is not the last one, and of each that is.
const TEN: &[(&[u8], &[u8], &[u8])] = &[
    (FIRST, KEPT, LAST),
    (FORM, KEPT_FAULT, LAST_FAULT),
    (FORM, KEPT_FAULT, LAST_FAULT),
    (FIRST, KEPT, LAST),
    (FORM, KEPT_FAULT, LAST_FAULT),
    (FIRST, KEPT, LAST),
    (FIRST, KEPT, LAST),
    (FIRST, KEPT, LAST),
    (FORM, KEPT_FAULT, LAST_FAULT),
    (FORM, KEPT_FAULT, LAST_FAULT),
];

fn ten_requests(alloc: Global) -> Result<Vec<u8>, Fail> {
    let mut bytes = Vec::new(alloc);
    for (request, _, _) in TEN {
        bytes.extend_from_slice(request)?;
    }
    Ok(bytes)
}

// The replies of those of the ten requests that stand in so many bytes whole, how many these are, and whether bytes are left.
#[derive(Drop)]
struct Due {
    replies: Vec<u8>,
    whole: u64,
    rest: bool,
}

fn due_of(alloc: Global, count: usize) -> Result<Due, Fail> {
    let mut replies = Vec::new(alloc);
    let mut whole: u64 = 0;
    let mut left = count;
    for (request, kept, _) in TEN {
        if left < request.len() {
            break;
        }
        left -= request.len();
        whole = whole.saturating_add(1);
        replies.extend_from_slice(kept)?;
    }
    Ok(Due {
        replies,
        whole,
        rest: left > 0,
    })
}

#[test]
fn ten_requests_are_answered_in_order_however_they_are_cut(rt: HostRuntime) -> Result<(), Fail> {
    let alloc = rt.alloc();
    let sent = ten_requests(alloc)?;
    let wanted = due_of(alloc, sent.len())?;
    let all = Links {
        pages: 5,
        refused: 5,
        end: LinkEnd::Idle,
    };
    for greatest in 1..=sent.len() {
        let became = served(alloc, &sent, Treated { greatest, ..FAIR })?;
        assert_eq!(rt; became.links, all, "by {greatest}");
        assert_eq!(rt;
            became.link.output.handed(),
            wanted.replies.as_slice(),
            "by {greatest}"
        );
        assert_eq!(rt; became.asked.ticks.len(), 11);
    }
    Ok(())
}

#[test]
fn shelves_are_swept_once_a_tick(rt: HostRuntime) -> Result<(), Fail> {
    let alloc = rt.alloc();
    let sent = ten_requests(alloc)?;
    let became = served_by(alloc, &sent, FAIR, &SetClock::new(7))?;
    assert_eq!(rt; became.asked.visits, 10);
    assert!(rt; became.asked.ticks.as_slice() == [7].as_slice());
    Ok(())
}

#[test]
fn a_link_that_ends_within_a_request_is_refused_behind_the_replies_before(
    rt: HostRuntime,
) -> Result<(), Fail> {
    let alloc = rt.alloc();
    let sent = ten_requests(alloc)?;
    for count in 0..=sent.len() {
        let mut wanted = due_of(alloc, count)?;
        let mut end = LinkEnd::Idle;
        if wanted.rest {
            wanted.replies.extend_from_slice(CUT_OFF)?;
            end = LinkEnd::Refused(Refused::BadRequest);
        }
        let became = served(alloc, &sent[..count], FAIR)?;
        assert_eq!(rt; became.links.end, end, "at {count}");
        assert_eq!(rt; became.asked.visits, wanted.whole, "at {count}");
        assert_eq!(rt;
            became.link.output.handed(),
            wanted.replies.as_slice(),
            "at {count}"
        );
    }
    Ok(())
}

#[test]
fn a_read_that_fails_leaves_the_visits_before(rt: HostRuntime) -> Result<(), Fail> {
    let alloc = rt.alloc();
    let sent = ten_requests(alloc)?;
    for count in 0..=sent.len() {
        let wanted = due_of(alloc, count)?;
        let treated = Treated {
            greatest: 1,
            failing: count as u64,
            ..FAIR
        };
        let became = served(alloc, &sent, treated)?;
        assert_eq!(rt; became.links.end, LinkEnd::ReadFault, "at {count}");
        assert_eq!(rt; became.asked.visits, wanted.whole, "at {count}");
        assert_eq!(rt;
            became.link.output.handed(),
            wanted.replies.as_slice(),
            "at {count}"
        );
    }
    Ok(())
}

#[test]
fn a_write_that_fails_leaves_a_front_of_the_replies(rt: HostRuntime) -> Result<(), Fail> {
    let alloc = rt.alloc();
    let sent = ten_requests(alloc)?;
    let wanted = due_of(alloc, sent.len())?;
    for room in 0..wanted.replies.len() {
        let became = served(alloc, &sent, Treated { room, ..FAIR })?;
        assert_eq!(rt; became.links.end, LinkEnd::WriteFault, "in {room}");
        assert_eq!(rt;
            became.link.output.bytes(),
            &wanted.replies[..room],
            "in {room}"
        );
        let Links { pages, refused, .. } = became.links;
        assert_eq!(rt; pages.saturating_add(refused), became.asked.visits);
    }
    Ok(())
}

// The replies of the first so many of the ten requests, after the last of which the link closes.
fn closing_replies(alloc: Global, requests: usize) -> Result<Vec<u8>, Fail> {
    let mut replies = Vec::new(alloc);
    for (number, (_, kept, last)) in TEN.iter().take(requests).enumerate() {
        let reply = if number + 1 == requests { last } else { kept };
        replies.extend_from_slice(reply)?;
    }
    Ok(replies)
}

#[test]
fn the_last_request_that_may_come_closes_the_link(rt: HostRuntime) -> Result<(), Fail> {
    let alloc = rt.alloc();
    let sent = ten_requests(alloc)?;
    for requests in 1..=10u32 {
        let became = served(alloc, &sent, Treated { requests, ..FAIR })?;
        let wanted = closing_replies(alloc, requests as usize)?;
        assert_eq!(rt; became.links.end, LinkEnd::Closed, "of {requests}");
        assert_eq!(rt; became.asked.visits, requests as u64);
        assert_eq!(rt;
            became.link.output.handed(),
            wanted.as_slice(),
            "of {requests}"
        );
    }
    Ok(())
}

#[test]
fn a_tick_without_memory_drops_the_rest_of_the_link(rt: HostRuntime) -> Result<(), Fail> {
    let alloc = rt.alloc();
    let sent = ten_requests(alloc)?;
    let wanted = due_of(alloc, sent.len())?;
    for ticks in 0..=10 {
        let became = served(alloc, &sent, Treated { ticks, ..FAIR })?;
        assert_eq!(rt; became.links.end, LinkEnd::Memory, "at {ticks}");
        assert_eq!(rt; became.asked.visits, ticks as u64);
        assert!(rt; wanted.replies.starts_with(became.link.output.handed()));
    }
    Ok(())
}
