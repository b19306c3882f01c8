use crate::counter::{Asked, Counter};
use request_workers::{Served, serve_link, serve_one};
use std::alloc::Global;
use std::test::Fail;
use web_outside::{OpenGate, SetClock, Sink, Source, TextLink, TextSink, TextSource, read_all};

// A link that sends these bytes in pieces of at most so many, and takes so many.
fn link(
    alloc: Global,
    bytes: &[u8],
    greatest: usize,
    reads: &[u64],
    room: usize,
    writes: &[u64],
) -> Result<TextLink, Fail> {
    if greatest == 0 {
        return Err(Fail::from("no pieces"));
    }
    Ok(TextLink {
        input: TextSource::new(bytes.to_vec(alloc)?, reads.to_vec(alloc)?, greatest),
        output: TextSink::new(alloc, room, writes.to_vec(alloc)?)?,
    })
}

// How the link was served, in a word, with the visits that were made and the bindings of the last.
fn told(alloc: Global, link: &mut TextLink) -> Result<String, Fail> {
    let mut asked = Asked::nothing(alloc, 1);
    let served = serve_one(alloc, &Counter, &mut asked, link, &OpenGate)?;
    let how = match served {
        Served::Answered(_) => "answered",
        Served::Refused(_) => "refused",
        Served::Idle => "idle",
        Served::ReadFault => "read fault",
        Served::WriteFault(None) => "write fault",
        Served::WriteFault(Some(_)) => "write fault behind a visit",
    };
    let (visits, bindings) = (asked.visits, asked.bindings);
    Ok(format!(in alloc; "{how} {visits} {bindings}")?)
}

// The bytes that were not read.
fn rest(alloc: Global, source: &mut TextSource) -> Result<Vec<u8>, Fail> {
    match read_all(alloc, source) {
        Ok(bytes) => Ok(bytes),
        Err(_) => Err(Fail::from("no rest")),
    }
}

const START: &[u8] = b"GET /servlets/ten HTTP/1.0\r\n\r\n";

const PAGE: &[u8] =
    b"HTTP/1.1 200 OK\r\nContent-Type: text/html; charset=utf-8\r\nContent-Length: 12\r\nConnection: close\r\n\r\n<p>12345</p>";

const FORM: &[u8] =
    b"POST /servlets/all;0*0*0*0000000000000000?n=1 HTTP/1.1\r\nHost: h\r\nContent-Type: application/x-www-form-urlencoded\r\nContent-Length: 3\r\n\r\nn=2";

// What a link sends, how it is served, what is written, and how many bytes are left.
const LINKS: &[(&[u8], &[u8], &str, &[u8])] = &[
    (
        START,
        b"GET /servlets/ten HTTP/1.0\r\n\r\n",
        "answered 1 0",
        PAGE,
    ),
    (
        FORM,
        b"n=3",
        "answered 1 2",
        b"HTTP/1.1 500 Internal Server Error\r\nContent-Type: text/plain; charset=utf-8\r\nContent-Length: 8\r\nConnection: close\r\n\r\nbinding\n",
    ),
    (
        b"GET / HTTP/1.0\n\n",
        b"",
        "answered 0 0",
        b"HTTP/1.1 404 Not Found\r\nContent-Type: text/plain; charset=utf-8\r\nContent-Length: 8\r\nConnection: close\r\n\r\nunknown\n",
    ),
    (
        b"HEAD /servlets/ten HTTP/1.0\r\n\r\n",
        b"x",
        "refused 0 0",
        b"HTTP/1.1 405 Method Not Allowed\r\nContent-Type: text/plain; charset=utf-8\r\nAllow: GET, POST\r\nContent-Length: 7\r\nConnection: close\r\n\r\nmethod\n",
    ),
    (
        b"POST /servlets/ten HTTP/1.0\r\nContent-Length: 65537\r\n\r\n",
        b"n=1",
        "refused 0 0",
        b"HTTP/1.1 413 Content Too Large\r\nContent-Type: text/plain; charset=utf-8\r\nContent-Length: 10\r\nConnection: close\r\n\r\ntoo-large\n",
    ),
    (b"", b"", "idle 0 0", b""),
    (
        b"GET /servlets/ten HTT",
        b"",
        "refused 0 0",
        b"HTTP/1.1 400 Bad Request\r\nContent-Type: text/plain; charset=utf-8\r\nContent-Length: 12\r\nConnection: close\r\n\r\nbad-request\n",
    ),
];

#[test]
fn a_link_is_served_whole_and_in_pieces(rt: HostRuntime) -> Result<(), Fail> {
    let alloc = rt.alloc();
    for (sent, behind, how, written) in LINKS {
        for greatest in [1, 2, 7, 100_000] {
            let mut bytes = sent.to_vec(alloc)?;
            bytes.extend_from_slice(behind)?;
            let mut link = link(alloc, &bytes, greatest, &[], 1_000, &[])?;
            assert_eq!(rt; told(alloc, &mut link)?.as_str(), *how, "by {greatest}");
            assert_eq!(rt; link.output.bytes(), *written, "by {greatest}");
            assert_eq!(rt; link.output.handed(), *written, "by {greatest}");
            let rest = rest(alloc, &mut link.input)?;
            assert_eq!(rt; rest.as_slice(), *behind, "by {greatest}");
        }
    }
    Ok(())
}

#[test]
fn a_link_that_may_carry_one_request_is_told_what_one_alone_is(
    rt: HostRuntime,
) -> Result<(), Fail> {
    let alloc = rt.alloc();
    for (sent, behind, _, written) in LINKS {
        for greatest in [1, 2, 7, 100_000] {
            let mut bytes = sent.to_vec(alloc)?;
            bytes.extend_from_slice(behind)?;
            let mut link = link(alloc, &bytes, greatest, &[], 1_000, &[])?;
            let mut asked = Asked::nothing(alloc, 1);
            let clock = SetClock::new(7);
            let _links = serve_link(alloc, &Counter, &mut asked, &mut link, &clock, &OpenGate, 1);
            assert_eq!(rt; link.output.handed(), *written, "by {greatest}");
        }
    }
    Ok(())
}

#[test]
fn a_read_that_fails_ends_before_a_visit(rt: HostRuntime) -> Result<(), Fail> {
    let alloc = rt.alloc();
    for failing in 0..START.len() as u64 {
        let mut link = link(alloc, START, 1, &[failing], 1_000, &[])?;
        assert_eq!(rt;
            told(alloc, &mut link)?.as_str(),
            "read fault 0 0",
            "at {failing}"
        );
        assert!(rt; link.output.bytes().is_empty());
        assert_eq!(rt; link.input.faults(), 1);
    }
    Ok(())
}

#[test]
fn a_write_that_fails_leaves_a_front_of_the_reply(rt: HostRuntime) -> Result<(), Fail> {
    let alloc = rt.alloc();
    for room in 0..PAGE.len() {
        let mut link = link(alloc, START, 100_000, &[], room, &[])?;
        let how = told(alloc, &mut link)?;
        assert_eq!(rt; how.as_str(), "write fault behind a visit 1 0", "in {room}");
        assert_eq!(rt; link.output.bytes(), &PAGE[..room]);
        assert_eq!(rt; link.output.faults(), 1);
    }
    let mut link = link(alloc, b"?", 1, &[], 1_000, &[0])?;
    assert_eq!(rt; told(alloc, &mut link)?.as_str(), "write fault 0 0");
    Ok(())
}
