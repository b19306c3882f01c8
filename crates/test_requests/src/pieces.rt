use crate::texts::{outcome_text, request_text};
use http_forms::{Incoming, RequestReader, RequestScanner, head_end};
use std::alloc::Global;
use std::test::Fail;
use web_outside::TextSource;

// What the first request of these bytes asks for, where each read gives what is wanted, but at most this piece; and how
// many bytes were read.
fn asked(alloc: Global, bytes: &[u8], greatest: usize) -> Result<String, Fail> {
    let mut scanner = RequestScanner::new();
    let mut read = Vec::new(alloc);
    let mut left = bytes;
    let mut wanted = scanner.wanted(&read);
    for _ in 0..bytes.len() {
        let (piece, behind) = left.split_at(wanted.min(greatest).min(left.len()));
        read.extend_from_slice(piece)?;
        left = behind;
        wanted = scanner.wanted(&read);
    }
    let told = outcome_text(alloc, scanner.request(alloc, &read, false))?;
    let count = read.len();
    Ok(format!(in alloc; "{count}: {told}")?)
}

const STREAMS: &[(&[u8], &str)] = &[
    (b"GET /servlets/ten HTTP/1.0\r\n\r\n", "30: ten"),
    // The second of two requests is left unread.
    (
        b"POST /servlets/a HTTP/1.0\nContent-Type: application/x-www-form-urlencoded\nContent-Length: 7\n\nx=1&y=2GET / HTTP/1.0\n\n",
        "100: a x=1 y=2",
    ),
    // The body of what is refused is left unread.
    (
        b"POST /servlets/a HTTP/1.0\nContent-Length: 7\n\nx=1&y=2",
        "45: 415 Unsupported Media Type, media-type",
    ),
    (
        b"GET /servlets/a HTTP/1.0\nContent-Length: 9\n\nx=1",
        "47: unfinished",
    ),
];

#[test]
fn no_byte_behind_a_request_is_read(rt: HostRuntime) -> Result<(), Fail> {
    let alloc = rt.alloc();
    for (bytes, wanted) in STREAMS {
        for greatest in [1, 2, 5, 1_000] {
            let told = asked(alloc, bytes, greatest)?;
            assert_eq!(rt; told.as_str(), *wanted, "in pieces of {greatest}");
        }
    }
    Ok(())
}

// What comes next over a link, or no text where nothing does.
fn next_text(
    alloc: Global,
    reader: &mut RequestReader,
    source: &mut TextSource,
) -> Result<String, Fail> {
    match reader.next(alloc, source) {
        Ok(Incoming::Visit(request)) => request_text(alloc, &request),
        Ok(Incoming::Refused(refused)) => Ok(String::from_str(alloc, refused.word())?),
        Ok(Incoming::Nothing) => Ok(String::new(alloc)),
        Err(_) => Err(Fail::from("reading failed")),
    }
}

// What links send, and what comes over them.
const LINKS: &[(&[u8], &[&str])] = &[
    (
        b"POST /servlets/a HTTP/1.0\nContent-Type: application/x-www-form-urlencoded\nContent-Length: 7\n\nx=1&y=2GET /servlets/ten HTTP/1.0\n\n",
        &["a x=1 y=2", "ten", ""],
    ),
    (
        b"GET /servlets/ten HTTP/1.0\n\n\nGET / HTTP/1.0\n\nGET",
        &["ten", "nothing", "bad-request", "bad-request"],
    ),
    (b"", &["", ""]),
];

#[test]
fn the_requests_of_a_link_come_one_behind_the_other(rt: HostRuntime) -> Result<(), Fail> {
    let alloc = rt.alloc();
    for (bytes, wanted) in LINKS {
        for greatest in [1, 2, 5, 1_000] {
            let mut source = TextSource::new(
                bytes.to_vec(alloc)?,
                Vec::new(alloc),
                greatest.max(1),
            );
            let mut reader = RequestReader::new(alloc);
            for text in wanted.iter() {
                let told = next_text(alloc, &mut reader, &mut source)?;
                assert_eq!(rt; told.as_str(), *text, "in pieces of {greatest}");
            }
        }
    }
    Ok(())
}

#[test]
fn a_head_ends_with_its_first_empty_line(rt: HostRuntime) {
    let rows: &[(&[u8], Option<usize>)] = &[
        (b"a\n\nb\n\n", Some(3)),
        (b"a\r\n\r\nb", Some(5)),
        (b"a\n\r", None),
        (b"a\n\r\r\n\n", Some(6)),
        (b"\n\r\n", None),
        (b"\n\r\n\ra\n\n", Some(7)),
    ];
    for (bytes, wanted) in rows {
        assert_eq!(rt; head_end(bytes), *wanted, "{bytes:?}");
    }
}
