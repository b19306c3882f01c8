// Links over sockets: their times, what is kept of them, and how they end.
ghost use Rattle.std.specs.Prelude.{◌≡◌, true};

use machine_outside::{Patience, SocketDoor, SocketLink, SocketPorch};
use std::alloc::Global;
use std::io::{Read, Write};
use std::net::{Ipv4Addr, Shutdown, TcpStream};
use std::test::Fail;
use std::thread::{Threads, sleep};
use std::time::{Duration, Instant};
use std::{io, thread};
use web_outside::{Door, Failed, Link, Porch, Sink, Source, write_all};

// How many milliseconds each part of a request may take.
pub const CALM: u64 = 20_000;

const HASTY: u64 = 2_000;

// A part of the time that a hasty link has.
const PART: u64 = 1_250;

const GRACE: u64 = 500;

const REQUEST: &str = "GET / HTTP/1.1\r\nHost: a\r\n\r\n";

// The head of a form of four bytes.
const FORM: &str = "\r\nPOST / HTTP/1.1\r\nHost: a\r\nContent-Length: 4\r\n\
    Content-Type: application/x-www-form-urlencoded\r\n\r\n";

const REPLY: &str = "HTTP/1.1 200 OK\r\nContent-Length: 2\r\n\r\nok";

type RealPorch<'r> = SocketPorch<'r, HostRuntime>;

type Porches<'r> = Vec<RealPorch<'r>>;

type RealLink<'r> = SocketLink<&'r HostRuntime>;

pub fn patience(millis: u64) -> Patience {
    let time = Duration::from_millis(millis);
    Patience {
        head: time,
        body: time,
        reply: time,
        idle: time,
        grace: Duration::from_millis(GRACE),
    }
}

// A door that listens at a port that the machine chooses, with so many workers, and that port.
pub fn opened(rt: &HostRuntime, millis: u64, workers: u32) -> Result<(Porches<'_>, u16), Fail> {
    let mut door = SocketDoor {
        rt,
        patience: patience(millis),
        faults: 0,
    };
    let porches = door.listen(rt.alloc(), 0, workers, 3)?;
    let port = match porches.first() {
        Some(porch) => porch.listener().local_addr()?.port(),
        None => 0,
    };
    Ok((porches, port))
}

// Whether these bytes, and no others, are what a source gives next.
pub fn gives<S: Source>(source: &mut S, wanted: &[u8]) -> bool {
    let mut rest = wanted;
    for _ in 0..wanted.len() {
        let mut piece = [0u8; 64];
        // What may come after them is left.
        let most = rest.len().min(64);
        match source.read(&mut piece[..most]) {
            Ok(count) if count > 0 && rest.starts_with(&piece[..count]) => rest = &rest[count..],
            _ => return false,
        }
        if rest.is_empty() {
            return true;
        }
    }
    false
}

fn connect(rt: &HostRuntime, port: u16) -> Result<TcpStream, Fail> {
    Ok(TcpStream::connect(rt, (Ipv4Addr::LOCALHOST, port))?)
}

fn pause(rt: &HostRuntime) {
    sleep(rt, Duration::from_millis(PART));
}

// What a link gives next, and how long that took, in milliseconds.
fn wait(rt: &HostRuntime, link: &mut RealLink<'_>) -> Option<(Result<usize, Failed>, u128)> {
    let begun = Instant::now(rt).ok()?;
    let outcome = link.input().read(&mut [0u8; 9]);
    Some((outcome, begun.elapsed(rt).ok()?.as_millis()))
}

fn reply(link: &mut RealLink<'_>) -> Result<(), Failed> {
    write_all(link.output(), REPLY.as_bytes())?;
    link.output().flush()
}

// Whether the next that comes to this client is a reply.
fn has_reply(client: &mut TcpStream) -> bool {
    let mut text = [0u8; REPLY.len()];
    client.read_exact(&mut text).is_ok() && text.as_slice() == REPLY.as_bytes()
}

// Whether all that still comes to this client is this text.
fn has_rest(alloc: Global, client: &mut TcpStream, wanted: &str) -> bool {
    let mut rest = String::new(alloc);
    client.read_to_string(&mut rest).is_ok() && rest.as_str() == wanted
}

// Writes more than goes while the other side does not read. Says how that ended.
fn flood(link: &mut RealLink<'_>) -> Result<(), Failed> {
    let long = [b'x'; 60_000];
    let mut outcome = Ok(());
    for _ in 0..200 {
        if outcome.is_ok() {
            outcome = write_all(link.output(), &long);
        }
    }
    outcome?;
    link.output().flush()
}

// Whether a link waits for these bytes, which its client sends only after a while.
fn waits_for(
    threads: &impl Threads,
    rt: &HostRuntime,
    client: &mut TcpStream,
    link: &mut RealLink<'_>,
    bytes: &[u8],
) -> bool {
    let came = thread::join(
        threads,
        || gives(link.input(), bytes),
        || {
            pause(rt);
            client.write_all(bytes).is_ok()
        },
    );
    came.0 && came.1
}

// A client and the link that a worker has to it, and the first thing between them that was not as wanted.
#[derive(Drop)]
struct Talk<'r> {
    rt: &'r HostRuntime,
    port: u16,
    porch: RealPorch<'r>,
    client: TcpStream,
    link: RealLink<'r>,
    wrong: Option<&'static str>,
    ghost lent: { porch.lent ≡ true },
}

impl<'r> Talk<'r> {
    // Opens a door with one worker, and connects a client.
    fn begin(rt: &'r HostRuntime, millis: u64) -> Result<Talk<'r>, Fail> {
        let (mut porches, port) = opened(rt, millis, 1)?;
        let porch = porches.pop().ok_or("no porch")?;
        let client = connect(rt, port)?;
        Talk::over(rt, port, porch, client)
    }

    // The next link of a porch, which is this client's.
    fn over(
        rt: &'r HostRuntime,
        port: u16,
        porch: RealPorch<'r>,
        client: TcpStream,
    ) -> Result<Talk<'r>, Fail> {
        let mut porch = porch;
        let link = porch.next()?.ok_or("no link")?;
        Ok(Talk {
            rt,
            port,
            porch,
            client,
            link,
            wrong: None,
        })
    }

    fn wants(&mut self, right: bool, wrong: &'static str) {
        if !right && self.wrong.is_none() {
            self.wrong = Some(wrong);
        }
    }

    fn sends(&mut self, bytes: &[u8]) {
        let sent = self.client.write_all(bytes).is_ok();
        self.wants(sent, "the client cannot send");
    }

    fn reads(&mut self, bytes: &[u8]) {
        let came = gives(self.link.input(), bytes);
        self.wants(came, "the link does not give what was sent");
    }

    // What the client sends comes.
    fn passes(&mut self, bytes: &[u8]) {
        self.sends(bytes);
        self.reads(bytes);
    }

    // What the client sends after a while is waited for.
    fn passes_late(&mut self, threads: &impl Threads, bytes: &[u8]) {
        let came = waits_for(threads, self.rt, &mut self.client, &mut self.link, bytes);
        self.wants(came, "what comes late is not waited for");
    }

    fn replies(&mut self) {
        let sent = reply(&mut self.link).is_ok();
        self.wants(sent, "the reply cannot be sent");
    }

    // A request comes, and its reply goes.
    fn exchanges(&mut self) {
        self.passes(REQUEST.as_bytes());
        self.replies();
        let came = has_reply(&mut self.client);
        self.wants(came, "the client does not get the reply");
    }

    fn pauses(&self) {
        pause(self.rt);
    }

    // The client sends no more.
    fn shuts(&mut self) {
        let shut = self.client.shutdown(Shutdown::Write).is_ok();
        self.wants(shut, "the client cannot shut its side");
    }

    // The link fails, since what it waits for does not come in time.
    fn gives_up(&mut self) {
        let outcome = self.link.input().read(&mut [0u8; 9]);
        self.wants(outcome == Err(Failed), "the link is not given up");
        let faults = self.link.input().faults();
        self.wants(faults == 1, "the link has another count of faults");
    }

    // The link fails, since its reply is not read.
    fn gives_up_reply(&mut self) {
        let outcome = flood(&mut self.link);
        self.wants(outcome == Err(Failed), "the reply is not given up");
        let faults = self.link.output().faults();
        self.wants(faults == 1, "the reply has another count of faults");
    }

    // The link ends without a fault. Says how many milliseconds that took.
    fn is_over(&mut self) -> u128 {
        let waited = wait(self.rt, &mut self.link);
        let faults = self.link.input().faults();
        self.wants(faults == 0, "the link has a fault");
        match waited {
            Some((Ok(0), took)) => took,
            _ => {
                self.wants(false, "the link does not end");
                0
            }
        }
    }

    // The link ends long before its time is over.
    fn yields(&mut self) {
        let took = self.is_over();
        self.wants(took < 5_000, "the link ends late");
    }

    // Gives the link back, and takes the next one, which is this client's.
    fn goes_on(self, next: TcpStream) -> Result<Talk<'r>, Fail> {
        let Talk {
            rt,
            port,
            mut porch,
            client: _client,
            link,
            wrong,
        } = self;
        porch.back(link);
        let mut talk = Talk::over(rt, port, porch, next)?;
        talk.wrong = wrong;
        Ok(talk)
    }

    // Gives the link back. What was not as wanted.
    fn ends(self) -> Option<&'static str> {
        let Talk {
            rt: _,
            port: _,
            mut porch,
            client: _client,
            link,
            wrong,
        } = self;
        porch.back(link);
        wrong
    }

    // Gives the link back, after which the client gets this rest. What was not as wanted.
    fn ends_with(self, rest: &str) -> Option<&'static str> {
        let Talk {
            rt,
            port: _,
            mut porch,
            mut client,
            link,
            wrong,
        } = self;
        porch.back(link);
        if wrong.is_none() && !has_rest(rt.alloc(), &mut client, rest) {
            Some("the client gets another rest")
        } else if wrong.is_none() && porch.faults() != 0 {
            Some("the porch has a fault")
        } else {
            wrong
        }
    }
}

#[test]
fn a_request_in_pieces_is_replied_to(rt: HostRuntime) -> Result<(), Fail> {
    let mut talk = Talk::begin(&rt, CALM)?;
    talk.passes(b"GET / HT");
    talk.passes(b"TP/1.1\r");
    talk.passes(b"\nHost: a\r\n\r\n");
    talk.replies();
    // What still comes, and is not read, does not keep the reply from the other side.
    talk.sends(&[b'x'; 5_000]);
    assert_eq!(rt; talk.ends_with(REPLY), None);
    Ok(())
}

#[test]
fn a_silent_link_is_given_up(rt: HostRuntime) -> Result<(), Fail> {
    let mut talk = Talk::begin(&rt, HASTY)?;
    talk.gives_up();
    // A refusal has time of its own.
    talk.replies();
    assert_eq!(rt; talk.ends(), None);
    Ok(())
}

#[test]
fn a_head_that_trickles_is_given_up(rt: HostRuntime) -> Result<(), Fail> {
    let mut talk = Talk::begin(&rt, HASTY)?;
    talk.passes(b"G");
    talk.pauses();
    talk.passes(b"E");
    talk.pauses();
    talk.sends(b"T");
    talk.gives_up();
    assert_eq!(rt; talk.ends(), None);
    Ok(())
}

#[test]
fn a_body_has_time_of_its_own(rt: HostRuntime) -> Result<(), Fail> {
    let mut talk = Talk::begin(&rt, HASTY)?;
    talk.pauses();
    talk.passes(FORM.as_bytes());
    talk.pauses();
    talk.passes(b"a");
    talk.pauses();
    talk.sends(b"b");
    talk.gives_up();
    assert_eq!(rt; talk.ends(), None);
    Ok(())
}

#[test]
fn a_reply_has_its_time_from_its_first_byte(rt: HostRuntime) -> Result<(), Fail> {
    let mut talk = Talk::begin(&rt, HASTY)?;
    talk.passes(REQUEST.as_bytes());
    // A visit may take longer than that.
    talk.pauses();
    talk.pauses();
    talk.replies();
    // A reply that is not read is given up.
    talk.gives_up_reply();
    assert_eq!(rt; talk.ends(), None);
    Ok(())
}

#[test]
fn each_request_has_times_of_its_own(rt: HostRuntime) -> Result<(), Fail> {
    let mut talk = Talk::begin(&rt, HASTY)?;
    for _ in 0..3 {
        talk.exchanges();
        talk.pauses();
    }
    talk.is_over();
    let client = connect(&rt, talk.port)?;
    let mut talk = talk.goes_on(client)?;
    // A head that trickles after a reply is given up too.
    talk.exchanges();
    talk.pauses();
    talk.passes(b"G");
    talk.pauses();
    talk.passes(b"E");
    talk.pauses();
    talk.gives_up();
    assert_eq!(rt; talk.ends(), None);
    Ok(())
}

#[test]
fn an_idle_link_ends_without_a_fault(rt: HostRuntime) -> Result<(), Fail> {
    let mut talk = Talk::begin(&rt, HASTY)?;
    talk.exchanges();
    let took = talk.is_over();
    talk.wants(took >= u128::from(PART), "the link ends early");
    assert_eq!(rt; talk.ends_with(""), None);
    Ok(())
}

#[test]
fn an_idle_link_yields_to_a_visitor(rt: HostRuntime) -> Result<(), Fail> {
    let mut talk = Talk::begin(&rt, CALM)?;
    talk.exchanges();
    let visitor = connect(&rt, talk.port)?;
    // What has come is served first, in however many pieces it comes.
    talk.sends(REQUEST.as_bytes());
    talk.sends(b"GE");
    talk.reads(REQUEST.as_bytes());
    talk.replies();
    talk.reads(b"GE");
    talk.pauses();
    talk.passes(REQUEST.as_bytes().get(2..).unwrap_or(b""));
    talk.replies();
    talk.yields();
    let mut talk = talk.goes_on(visitor)?;
    talk.exchanges();
    assert_eq!(rt; talk.ends(), None);
    Ok(())
}

#[test]
fn a_link_that_has_not_asked_yields_to_a_visitor(rt: HostRuntime) -> Result<(), Fail> {
    let mut talk = Talk::begin(&rt, CALM)?;
    let visitor = connect(&rt, talk.port)?;
    let took = talk.is_over();
    talk.wants(took >= u128::from(GRACE), "the link ends early");
    talk.wants(took < 5_000, "the link ends late");
    let mut talk = talk.goes_on(visitor)?;
    // One that has begun to ask does not.
    talk.passes(b"GE");
    let _other = connect(&rt, talk.port)?;
    talk.passes_late(&rt, REQUEST.as_bytes().get(2..).unwrap_or(b""));
    talk.replies();
    assert_eq!(rt; talk.ends_with(REPLY), None);
    Ok(())
}

#[test]
fn a_link_that_has_not_asked_is_kept_where_nobody_waits(rt: HostRuntime) -> Result<(), Fail> {
    let mut talk = Talk::begin(&rt, CALM)?;
    talk.passes_late(&rt, REQUEST.as_bytes());
    talk.replies();
    assert_eq!(rt; talk.ends_with(REPLY), None);
    Ok(())
}

#[test]
fn a_body_does_not_hide_what_follows(rt: HostRuntime) -> Result<(), Fail> {
    let bytes = format!(in rt.alloc(); "{FORM}\n\nabGET / HT")?;
    let mut talk = Talk::begin(&rt, CALM)?;
    let _visitor = connect(&rt, talk.port)?;
    // The front of the next request comes with the body, and is waited for.
    talk.passes(bytes.as_bytes());
    talk.replies();
    talk.passes_late(&rt, b"TP");
    // After a body alone the link is idle.
    talk.passes(b"/1.1\r\nHost: a\r\n\r\n");
    talk.replies();
    talk.yields();
    assert_eq!(rt; talk.ends(), None);
    Ok(())
}

// Takes a link and ends it. Says whether one came.
fn takes_one(porch: &mut RealPorch<'_>) -> bool {
    match porch.next() {
        Ok(Some(link)) => {
            porch.back(link);
            true
        }
        Ok(None) | Err(Failed) => false,
    }
}

// Whether a free worker takes a visitor, after which this client still sends.
fn is_visited(
    threads: &impl Threads,
    rt: &HostRuntime,
    port: u16,
    free: &mut RealPorch<'_>,
    client: &mut TcpStream,
) -> bool {
    let came = thread::join(
        threads,
        || takes_one(free),
        || {
            pause(rt);
            let visitor = TcpStream::connect(rt, (Ipv4Addr::LOCALHOST, port));
            pause(rt);
            visitor.is_ok() && client.write_all(b"GET").is_ok()
        },
    );
    came.0 && came.1
}

#[test]
fn a_free_worker_takes_a_visitor(rt: HostRuntime) -> Result<(), Fail> {
    let (mut porches, port) = opened(&rt, CALM, 2)?;
    let mut second = porches.pop().ok_or("no porch")?;
    let first = porches.pop().ok_or("no porch")?;
    let client = connect(&rt, port)?;
    let mut talk = Talk::over(&rt, port, first, client)?;
    talk.exchanges();
    let came = is_visited(&rt, &rt, port, &mut second, &mut talk.client);
    talk.wants(came, "the visitor is not taken");
    talk.reads(b"GET");
    assert_eq!(rt; talk.ends(), None);
    Ok(())
}

// Whether each of two workers takes a visitor, where both come when both workers wait.
fn are_visited(
    threads: &(impl Threads + Sync),
    rt: &HostRuntime,
    port: u16,
    first: &mut RealPorch<'_>,
    second: &mut RealPorch<'_>,
) -> bool {
    let came = thread::join(
        threads,
        || thread::join(threads, || takes_one(first), || takes_one(second)),
        || {
            pause(rt);
            let visitor = TcpStream::connect(rt, (Ipv4Addr::LOCALHOST, port));
            let other = TcpStream::connect(rt, (Ipv4Addr::LOCALHOST, port));
            visitor.is_ok() && other.is_ok()
        },
    );
    came.0.0 && came.0.1 && came.1
}

#[test]
fn two_workers_that_wait_take_a_visitor_each(rt: HostRuntime) -> Result<(), Fail> {
    let (mut porches, port) = opened(&rt, CALM, 2)?;
    let mut second = porches.pop().ok_or("no porch")?;
    let mut first = porches.pop().ok_or("no porch")?;
    assert!(rt; are_visited(&rt, &rt, port, &mut first, &mut second));
    Ok(())
}

// Takes the link of a client that sends nothing, and ends it. What it gave.
fn takes_silent(
    rt: &HostRuntime,
    porch: &mut RealPorch<'_>,
    port: u16,
) -> Result<Result<usize, Failed>, Fail> {
    let client = connect(rt, port)?;
    client.shutdown(Shutdown::Write)?;
    let mut link = porch.next()?.ok_or("no link")?;
    let outcome = link.input().read(&mut [0u8; 9]);
    porch.back(link);
    Ok(outcome)
}

// Takes three links of a porch. Whether each ended at once, and the porch then gives no more and has no fault.
fn is_used_up(rt: &HostRuntime, porch: &mut RealPorch<'_>, port: u16) -> Result<bool, Fail> {
    let mut ended = true;
    for _ in 0..3 {
        ended &= takes_silent(rt, porch, port)? == Ok(0);
    }
    Ok(ended && porch.next()?.is_none() && porch.faults() == 0)
}

#[test]
fn a_porch_gives_no_more_than_its_links(rt: HostRuntime) -> Result<(), Fail> {
    let (mut porches, port) = opened(&rt, CALM, 1)?;
    let mut porch = porches.pop().ok_or("no porch")?;
    assert!(rt; is_used_up(&rt, &mut porch, port)?);
    Ok(())
}

#[test]
fn a_client_that_shuts_its_side_gets_its_replies(rt: HostRuntime) -> Result<(), Fail> {
    let requests = format!(in rt.alloc(); "{REQUEST}{REQUEST}")?;
    let replies = format!(in rt.alloc(); "{REPLY}{REPLY}")?;
    let mut talk = Talk::begin(&rt, CALM)?;
    talk.sends(requests.as_bytes());
    talk.shuts();
    let _visitor = connect(&rt, talk.port)?;
    talk.reads(requests.as_bytes());
    talk.replies();
    talk.replies();
    talk.is_over();
    assert_eq!(rt; talk.ends_with(&replies), None);
    Ok(())
}

// Sends many bytes, and then reads what comes.
fn upload(alloc: Global, client: &mut TcpStream) -> io::Result<String> {
    let piece = [b'x'; 10_000];
    for _ in 0..100 {
        client.write_all(&piece)?;
    }
    let mut text = String::new(alloc);
    client.read_to_string(&mut text)?;
    Ok(text)
}

// Answers the next link at once, and ends it. Says whether its bytes came, and the reply went.
fn refuse(porch: &mut RealPorch<'_>) -> bool {
    match porch.next() {
        Ok(Some(mut link)) => {
            let came = gives(link.input(), b"PUT");
            let sent = reply(&mut link).is_ok();
            porch.back(link);
            came && sent
        }
        Ok(None) | Err(Failed) => false,
    }
}

// Whether a client that is still sending gets the reply.
fn gets_refusal(
    threads: &impl Threads,
    alloc: Global,
    porch: &mut RealPorch<'_>,
    client: &mut TcpStream,
) -> bool {
    let outcome = thread::join(
        threads,
        || match upload(alloc, client) {
            Ok(text) => text.as_str() == REPLY,
            Err(_) => false,
        },
        || refuse(porch),
    );
    outcome.0 && outcome.1
}

#[test]
fn who_is_still_sending_gets_the_reply(rt: HostRuntime) -> Result<(), Fail> {
    let (mut porches, port) = opened(&rt, CALM, 1)?;
    let mut porch = porches.pop().ok_or("no porch")?;
    let mut client = connect(&rt, port)?;
    client.write_all(b"PUT")?;
    assert!(rt; gets_refusal(&rt, rt.alloc(), &mut porch, &mut client));
    Ok(())
}
