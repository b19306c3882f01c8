use http_forms::{Answer, Refused, write_reply};
use script_value::{Bytes, Fault, Refusal, Reply, TxName};
use std::alloc::Global;
use std::test::Fail;
use web_outside::{Sink, TextSink};

// What is written of an answer, after which the connection closes or not.
fn sent(alloc: Global, answer: &Answer, closes: bool) -> Result<String, Fail> {
    let mut sink = TextSink::new(alloc, 1_000, Vec::new(alloc))?;
    let whole = write_reply(answer, closes, &mut sink).is_ok();
    let text = str::from_utf8(sink.bytes())?;
    let faults = sink.faults();
    let handed = sink.handed().len() == sink.bytes().len();
    Ok(format!(in alloc; "{whole} {faults} {handed} {text}")?)
}

fn bytes(alloc: Global, text: &str) -> Result<Bytes, Fail> {
    Ok(Bytes::new(text.as_bytes().to_vec(alloc)?))
}

#[test]
fn a_page_is_sent_as_html(rt: HostRuntime) -> Result<(), Fail> {
    let alloc = rt.alloc();
    let page = Reply::Page {
        bytes: bytes(alloc, "<p>12345</p>")?,
        url: bytes(alloc, "/servlets/ten")?,
    };
    let pages = [
        page,
        Reply::Finished(bytes(alloc, "<p>12345</p>")?),
        Reply::Ended(bytes(alloc, "<p>12345</p>")?),
    ];
    for reply in &pages {
        let answer = Answer::Reply(reply.try_clone(alloc)?).try_clone(alloc)?;
        for (closes, word) in [(true, "close"), (false, "keep-alive")] {
            let told = sent(alloc, &answer, closes)?;
            let wanted = format!(in alloc;
                "true 0 true HTTP/1.1 200 OK\r\nContent-Type: text/html; charset=utf-8\r\nContent-Length: 12\r\nConnection: {word}\r\n\r\n<p>12345</p>"
            )?;
            assert_eq!(rt; told.as_str(), wanted.as_str());
        }
    }
    Ok(())
}

// What is no page, with its status and its word.
fn words() -> [(Reply, &'static str, &'static str); 21] {
    [
        (Reply::Refused(Refusal::Unknown), "404 Not Found", "unknown"),
        (Reply::Refused(Refusal::Revoked), "410 Gone", "revoked"),
        (
            Reply::Refused(Refusal::Closed(TxName {
                ticket: 1,
                entry: 0,
            })),
            "410 Gone",
            "closed",
        ),
        (Reply::Refused(Refusal::Evicted(3)), "410 Gone", "evicted"),
        (Reply::Refused(Refusal::Expired(7)), "410 Gone", "expired"),
        (
            Reply::Fault(Fault::WrongType),
            "500 Internal Server Error",
            "type",
        ),
        (
            Reply::Fault(Fault::Overflow),
            "500 Internal Server Error",
            "overflow",
        ),
        (
            Reply::Fault(Fault::Zero),
            "500 Internal Server Error",
            "zero",
        ),
        (
            Reply::Fault(Fault::Bounds),
            "500 Internal Server Error",
            "bounds",
        ),
        (
            Reply::Fault(Fault::Deep),
            "500 Internal Server Error",
            "deep",
        ),
        (
            Reply::Fault(Fault::Binding),
            "500 Internal Server Error",
            "binding",
        ),
        (
            Reply::Fault(Fault::NotPage),
            "500 Internal Server Error",
            "page",
        ),
        (Reply::Fuel(100_001), "503 Service Unavailable", "fuel"),
        (Reply::ShelfFull(1), "503 Service Unavailable", "shelf-full"),
        (Reply::Oversize(1), "500 Internal Server Error", "oversize"),
        (
            Reply::JournalFull(1),
            "503 Service Unavailable",
            "journal-full",
        ),
        (Reply::DiskFault(1), "503 Service Unavailable", "disk"),
        (Reply::Down(1), "503 Service Unavailable", "down"),
        (Reply::Following, "503 Service Unavailable", "following"),
        (Reply::Worn, "503 Service Unavailable", "worn"),
        (Reply::Memory, "503 Service Unavailable", "memory"),
    ]
}

// What is sent of a word: its status, the line for other methods, and the word.
fn refusal_text(alloc: Global, status: &str, allow: &str, word: &str) -> Result<String, Fail> {
    let length = word.len() + 1;
    Ok(format!(in alloc;
        "true 0 true HTTP/1.1 {status}\r\nContent-Type: text/plain; charset=utf-8\r\n{allow}Content-Length: {length}\r\nConnection: close\r\n\r\n{word}\n"
    )?)
}

#[test]
fn what_is_no_page_is_sent_as_its_word(rt: HostRuntime) -> Result<(), Fail> {
    let alloc = rt.alloc();
    for (reply, status, word) in words() {
        let answer = Answer::Reply(reply);
        let told = sent(alloc, &answer, true)?;
        let wanted = refusal_text(alloc, status, "", word)?;
        assert_eq!(rt; told.as_str(), wanted.as_str());
    }
    let allow = "Allow: GET, POST\r\n";
    let refusals = [
        (Refused::BadRequest, "400 Bad Request", "", "bad-request"),
        (
            Refused::Head,
            "431 Request Header Fields Too Large",
            "",
            "head",
        ),
        (Refused::Chunked, "501 Not Implemented", "", "chunked"),
        (Refused::Method, "405 Method Not Allowed", allow, "method"),
        (Refused::Length, "411 Length Required", "", "length"),
        (Refused::TooLarge, "413 Content Too Large", "", "too-large"),
        (
            Refused::MediaType,
            "415 Unsupported Media Type",
            "",
            "media-type",
        ),
    ];
    for (refused, status, allow, word) in refusals {
        let told = sent(alloc, &Answer::Refused(refused), true)?;
        let wanted = refusal_text(alloc, status, allow, word)?;
        assert_eq!(rt; told.as_str(), wanted.as_str());
    }
    Ok(())
}

// Whether a reply was sent whole, and what was written.
fn tried(alloc: Global, room: usize, failing: &[u64], stuck: bool) -> Result<(bool, Bytes), Fail> {
    let mut sink = TextSink::new(alloc, room, failing.to_vec(alloc)?)?;
    if stuck {
        sink.stick();
    }
    let whole = write_reply(&Answer::Refused(Refused::Head), true, &mut sink).is_ok();
    Ok((whole, Bytes::new(sink.bytes().to_vec(alloc)?)))
}

#[test]
fn a_reply_breaks_off_where_a_write_fails(rt: HostRuntime) -> Result<(), Fail> {
    let alloc = rt.alloc();
    let (sent, text) = tried(alloc, 1_000, &[12], false)?;
    assert!(rt; sent);
    for failed in 0..12 {
        let (sent, front) = tried(alloc, 1_000, &[failed], false)?;
        assert!(rt; !sent && front.len() < text.len(), "write {failed}");
        assert!(rt;
            text.as_slice().starts_with(front.as_slice()),
            "write {failed}"
        );
    }
    for room in 0..text.len() {
        let (sent, front) = tried(alloc, room, &[], false)?;
        assert!(rt; !sent, "room for {room}");
        assert_eq!(rt; front.as_slice(), &text.as_slice()[..room]);
    }
    // What is written and not handed on is not sent.
    let (sent, stuck) = tried(alloc, 1_000, &[], true)?;
    assert!(rt; !sent);
    assert_eq!(rt; stuck.as_slice(), text.as_slice());
    Ok(())
}
