use crate::texts::{outcome_text, request_text};
use http_forms::{Refused, Request, answer_of, body_length, path_and_query, request_of};
use page_names::parse_target;
use std::alloc::Global;
use std::test::Fail;

// Bytes, whether the link ended after them, and what they come to.
const REQUESTS: &[(&[u8], bool, &str)] = &[
    // A link that ended at once asks for nothing yet.
    (b"", true, "unfinished"),
    (b"", false, "unfinished"),
    (b"G", true, "400 Bad Request, bad-request"),
    (b"GET /servlets/ten HTTP/1.0\r\n", false, "unfinished"),
    (
        b"GET /servlets/ten HTTP/1.0\r\n\r",
        true,
        "400 Bad Request, bad-request",
    ),
    (b"GET /servlets/ten HTTP/1.0\r\n\r\n", false, "ten"),
    (b"GET /servlets/ten HTTP/1.0\n\n", false, "ten"),
    (b"GET /servlets/ten HTTP/1.0\n\r\n", false, "ten"),
    (
        b"\r\n\n\r\nGET /servlets/ten HTTP/1.0\r\n\r\n",
        false,
        "ten",
    ),
    (b"\r\n\r\n", false, "unfinished"),
    (b"\r\n\r\n", true, "400 Bad Request, bad-request"),
    // What stands after a request is not looked at.
    (b"GET /servlets/ten HTTP/1.0\r\n\r\n\0\xff", false, "ten"),
    (
        b"GET /servlets/a HTTP/1.1\r\nhOsT: h\r\n\r\nPUT / HTTP/1.1\r\n\r\n",
        false,
        "a",
    ),
    // Outside the grammar.
    (
        b"GET  / HTTP/1.0\r\n\r\n",
        false,
        "400 Bad Request, bad-request",
    ),
    (
        b"GET / HTTP/1.2\r\n\r\n",
        false,
        "400 Bad Request, bad-request",
    ),
    (
        b"GET / HTTP/2.0\r\n\r\n",
        false,
        "400 Bad Request, bad-request",
    ),
    (
        b"GET /\xff HTTP/1.0\r\n\r\n",
        false,
        "400 Bad Request, bad-request",
    ),
    (
        b"\rGET / HTTP/1.0\r\n\r\n",
        false,
        "400 Bad Request, bad-request",
    ),
    (
        b"GET / HTTP/1.0\r\nA : b\r\n\r\n",
        false,
        "400 Bad Request, bad-request",
    ),
    (
        b"GET / HTTP/1.0\r\nA: b\r\n c\r\n\r\n",
        false,
        "400 Bad Request, bad-request",
    ),
    // Host.
    (
        b"GET / HTTP/1.1\r\n\r\n",
        false,
        "400 Bad Request, bad-request",
    ),
    (
        b"GET / HTTP/1.1\r\nHost: a\r\nHost: a\r\n\r\n",
        false,
        "400 Bad Request, bad-request",
    ),
    (b"GET / HTTP/1.1\r\nHost:\r\n\r\n", false, "nothing"),
    // Transfer-Encoding, before what else is wrong.
    (
        b"PUT / HTTP/1.0\r\nTransfer-Encoding: chunked\r\nContent-Length: x\r\n\r\n",
        false,
        "501 Not Implemented, chunked",
    ),
    // Content-Length.
    (
        b"GET / HTTP/1.0\r\nContent-Length: \r\n\r\n",
        false,
        "400 Bad Request, bad-request",
    ),
    (
        b"GET / HTTP/1.0\r\nContent-Length: +1\r\n\r\n",
        false,
        "400 Bad Request, bad-request",
    ),
    (
        b"GET / HTTP/1.0\r\nContent-Length: 1 1\r\n\r\n",
        false,
        "400 Bad Request, bad-request",
    ),
    (
        b"PUT / HTTP/1.0\r\nContent-Length: 1\r\nContent-Length: 1\r\n\r\n",
        false,
        "400 Bad Request, bad-request",
    ),
    // Method, before the length of the body.
    (
        b"HEAD / HTTP/1.0\r\n\r\n",
        false,
        "405 Method Not Allowed, method",
    ),
    (
        b"get / HTTP/1.0\r\nContent-Length: 65537\r\n\r\n",
        false,
        "405 Method Not Allowed, method",
    ),
    (
        b"POST / HTTP/1.0\r\n\r\n",
        false,
        "411 Length Required, length",
    ),
    (
        b"POST / HTTP/1.0\r\nContent-Length: 65537\r\n\r\n",
        false,
        "413 Content Too Large, too-large",
    ),
    (
        b"GET / HTTP/1.0\r\nContent-Length: 999999999999999999999999999999\r\n\r\n",
        false,
        "413 Content Too Large, too-large",
    ),
    (
        b"GET /servlets/a HTTP/1.0\r\nContent-Length: 000000000000000000000000000001\r\n\r\n!",
        false,
        "a",
    ),
    // Content-Type.
    (
        b"POST / HTTP/1.0\r\nContent-Length: 1\r\n\r\n",
        false,
        "415 Unsupported Media Type, media-type",
    ),
    (
        b"POST / HTTP/1.0\r\nContent-Length: 1\r\nContent-Type: text/plain\r\n\r\n",
        false,
        "415 Unsupported Media Type, media-type",
    ),
    (
        b"POST / HTTP/1.0\r\nContent-Length: 1\r\nContent-Type: application/x-www-form-urlencoded\r\nContent-Type: a/b\r\n\r\n",
        false,
        "415 Unsupported Media Type, media-type",
    ),
    (
        b"POST /servlets/a?b HTTP/1.0\r\nContent-Length: 0\r\n\r\n",
        false,
        "a b=",
    ),
    // Bodies.
    (
        b"POST /servlets/a?n=1 HTTP/1.0\r\nContent-Length: 3\r\nContent-Type: application/X-WWW-form-urlencoded \t; a=b\r\n\r\nn=2&n=3",
        false,
        "a n=1 n=2",
    ),
    (
        b"POST /servlets/a HTTP/1.0\r\nContent-Length: 9\r\nContent-Type: application/x-www-form-urlencoded\r\n\r\na=b&a=c",
        false,
        "unfinished",
    ),
    (
        b"POST /servlets/a HTTP/1.0\r\nContent-Length: 9\r\nContent-Type: application/x-www-form-urlencoded\r\n\r\na=b&a=c",
        true,
        "400 Bad Request, bad-request",
    ),
    (
        b"GET /servlets/a?n=1 HTTP/1.0\r\nContent-Length: 3\r\n\r\nn=2",
        false,
        "a n=1",
    ),
    (
        b"GET /servlets/a HTTP/1.0\r\nContent-Length: 3\r\n\r\nn=",
        false,
        "unfinished",
    ),
    // Targets and pairs.
    (
        b"GET /servlets/a;0%2a1*2*00000000000000ff?a=b&&a=c?d HTTP/1.0\r\n\r\n",
        false,
        "/servlets/a;0*1*2*00000000000000ff a=b a=c?d",
    ),
    (
        b"GET http://h/servlets/a HTTP/1.0\r\n\r\n",
        false,
        "nothing",
    ),
    (
        b"OPTIONS * HTTP/1.0\r\n\r\n",
        false,
        "405 Method Not Allowed, method",
    ),
    (
        b"GET /servlets/a?x=%zz+%41&%ff=%e2%82 HTTP/1.0\r\n\r\n",
        false,
        "a x=%zz A \u{fffd}=\u{fffd}",
    ),
];

#[test]
fn bytes_come_to_the_first_row_that_holds(rt: HostRuntime) -> Result<(), Fail> {
    let alloc = rt.alloc();
    for (bytes, ended, wanted) in REQUESTS {
        let told = outcome_text(alloc, request_of(alloc, bytes, *ended))?;
        assert_eq!(rt; told.as_str(), *wanted, "{bytes:?}");
    }
    Ok(())
}

// A head of so many bytes, most of them in one field.
fn long_head(alloc: Global, length: usize) -> Result<Vec<u8>, Fail> {
    let mut head = b"GET /servlets/a HTTP/1.0\r\nA: ".to_vec(alloc)?;
    for _ in head.len() + 4..length {
        head.push(b'b')?;
    }
    head.extend_from_slice(b"\r\n\r\n")?;
    Ok(head)
}

#[test]
fn a_head_has_at_most_16384_bytes(rt: HostRuntime) -> Result<(), Fail> {
    let alloc = rt.alloc();
    let too_long = "431 Request Header Fields Too Large, head";
    for (length, wanted) in [(16_384, "a"), (16_385, too_long)] {
        let head = long_head(alloc, length)?;
        assert_eq!(rt; head.len(), length);
        let told = outcome_text(alloc, request_of(alloc, &head, false))?;
        assert_eq!(rt; told.as_str(), wanted, "{length}");
    }
    for (length, wanted) in [(16_383, "unfinished"), (16_384, too_long)] {
        let blank = vec![in alloc; b'\n'; length]?;
        let told = outcome_text(alloc, request_of(alloc, &blank, false))?;
        assert_eq!(rt; told.as_str(), wanted, "{length} line feeds");
    }
    Ok(())
}

// A head with so many fields, and these bytes after them.
fn many_fields(alloc: Global, count: usize, last: &[u8]) -> Result<Vec<u8>, Fail> {
    let mut head = b"GET /servlets/a HTTP/1.0\n".to_vec(alloc)?;
    for _ in 0..count {
        head.extend_from_slice(b"A:\r\n")?;
    }
    head.extend_from_slice(last)?;
    Ok(head)
}

#[test]
fn a_head_has_at_most_64_field_lines(rt: HostRuntime) -> Result<(), Fail> {
    let alloc = rt.alloc();
    let rows: &[(usize, &[u8], &str)] = &[
        (64, b"\r\n", "a"),
        (65, b"\r\n", "431 Request Header Fields Too Large, head"),
        // Lines that are no fields count too, before the grammar is looked at.
        (
            64,
            b" folded\n\n",
            "431 Request Header Fields Too Large, head",
        ),
        (63, b" folded\n\n", "400 Bad Request, bad-request"),
    ];
    for (count, last, wanted) in rows {
        let head = many_fields(alloc, *count, last)?;
        let told = outcome_text(alloc, request_of(alloc, &head, false))?;
        assert_eq!(rt; told.as_str(), *wanted, "{count}");
    }
    Ok(())
}

// A target, a body, and what they ask for.
const TARGETS: &[(&[u8], &[u8], &str)] = &[
    (b"/servlets/a", b"", "a"),
    (b"/servlets/a?", b"&&", "a"),
    (b"/servlets/a?b?c=d&e", b"b=f", "a b?c=d e= b=f"),
    (b"?/servlets/a", b"a%00", "nothing /servlets/a= a\0="),
];

#[test]
fn a_query_and_a_body_are_one_answer(rt: HostRuntime) -> Result<(), Fail> {
    let alloc = rt.alloc();
    for (target, body, wanted) in TARGETS {
        let (path, query) = path_and_query(target);
        let request = Request {
            target: parse_target(path),
            answer: answer_of(alloc, query, body)?,
            length: 0,
            closes: true,
        };
        let told = request_text(alloc, &request.try_clone(alloc)?)?;
        assert_eq!(rt; told.as_str(), *wanted);
    }
    Ok(())
}

#[test]
fn a_head_tells_the_length_of_its_body(rt: HostRuntime) -> Result<(), Fail> {
    assert_eq!(rt;
        body_length(b"GET / HTTP/1.0\nContent-Length: 65536\n\n"),
        Ok(65_536)
    );
    assert_eq!(rt; body_length(b"GET / HTTP/1.0\n\n"), Ok(0));
    let longest = long_head(rt.alloc(), 16_384)?;
    assert_eq!(rt; body_length(&longest), Ok(0));
    let longer = long_head(rt.alloc(), 16_385)?;
    assert_eq!(rt; body_length(&longer), Err(Refused::Head));
    assert_eq!(rt; body_length(b"GET / HTTP/1.0\n"), Err(Refused::BadRequest));
    assert_eq!(rt;
        body_length(b"GET / HTTP/1.0\n\n\n"),
        Err(Refused::BadRequest)
    );
    Ok(())
}

// Requests, how many bytes they have, and whether the connection closes after them.
const CLOSINGS: &[(&[u8], usize, bool)] = &[
    (b"GET / HTTP/1.0\n\nGET", 16, true),
    (b"\r\nGET / HTTP/1.1\nHost: h\n\n", 26, false),
    (b"GET / HTTP/1.1\nHost: h\nConnection: close\n\n", 42, true),
    (
        b"GET / HTTP/1.1\nHost: h\nconnection: keep-alive ,\tClose ,x\n\n",
        58,
        true,
    ),
    (
        b"GET / HTTP/1.1\nHost: h\nConnection: closed\n\n",
        43,
        false,
    ),
    (
        b"GET / HTTP/1.1\nHost: h\nConnection: a\nConnection: ,,close\n\n",
        58,
        true,
    ),
    (
        b"GET / HTTP/1.1\nHost: h\nX: close\nConnection:\n\n",
        45,
        false,
    ),
    (
        b"POST / HTTP/1.1\nHost: h\nContent-Length: 3\nContent-Type: application/x-www-form-urlencoded\n\nn=1&",
        94,
        false,
    ),
];

#[test]
fn a_request_tells_its_length_and_whether_it_closes(rt: HostRuntime) -> Result<(), Fail> {
    let alloc = rt.alloc();
    for (bytes, length, closes) in CLOSINGS {
        let Ok(Some(request)) = request_of(alloc, bytes, false) else {
            return Err(Fail::from("no request"));
        };
        assert_eq!(rt; request.length, *length, "{bytes:?}");
        assert_eq!(rt; request.closes, *closes, "{bytes:?}");
    }
    Ok(())
}
