// What the machine can't be made to do: stand-ins for its streams, its listener, its files and its clock.
ghost use Rattle.std.specs.Prelude.{◌≤◌, IfOk};

use machine_outside::{Course, Lobby, MachineClock, MachineSeeds, Reading, Stage, Writing};
use std::alloc::Allocator;
use std::fmt::Display;
use std::fs::{File, Files, Metadata, OpenOptions};
use std::io::{Error, ErrorKind, Read, Write};
use std::net::{Ipv4Addr, OpenListener, SocketAddr, SocketAddrV4, TcpListener, TcpStream};
use std::os::fd::{AsRawFd, RawFd};
use std::sync::atomic::{AtomicU64, Ordering};
use std::test::Fail;
use std::time::Duration;
use std::{io, time};
use web_outside::{Clock, Failed, SeedFault, Seeds, Sink, Source};

const EINTR: i32 = 4;

// What a call of a stream does: it fails with this number, or takes or gives so many bytes.
#[derive(Clone, Copy)]
enum Call {
    Fails(i32),
    Moves(usize),
}

// A stream whose calls are told ahead. After them each fails.
#[derive(Drop)]
struct Told {
    calls: &'static [Call],
    made: usize,
}

impl Told {
    fn of(calls: &'static [Call]) -> Told {
        Told { calls, made: 0 }
    }

    fn next(&mut self, most: usize) -> io::Result<usize>
        ensures { IfOk result (λ count. count ≤ most) }
    {
        let call = self.calls.get(self.made).copied();
        self.made = self.made.saturating_add(1);
        match call {
            Some(Call::Moves(count)) => Ok(count.min(most)),
            Some(Call::Fails(code)) => Err(Error::from_raw_os_error(code)),
            None => Err(Error::from(ErrorKind::BrokenPipe)),
        }
    }
}

impl Read for Told {
    fn read(&mut self, buf: &mut [u8]) -> io::Result<usize> {
        self.next(buf.len())
    }
}

impl Write for Told {
    fn write(&mut self, buf: &[u8]) -> io::Result<usize> {
        self.next(buf.len())
    }

    fn flush(&mut self) -> io::Result<()> {
        self.next(0)?;
        Ok(())
    }
}

// What a call gave, and the count of faults after it.
type Outcome<T> = (Result<T, Failed>, u64);

fn two_reads(calls: &'static [Call]) -> [Outcome<usize>; 2] {
    let mut source = Reading {
        inner: Told::of(calls),
        count: 0,
    };
    let first = (source.read(&mut [0u8; 9]), source.faults());
    [first, (source.read(&mut [0u8; 9]), source.faults())]
}

fn two_writes(calls: &'static [Call]) -> [Outcome<usize>; 2] {
    let mut sink = Writing {
        inner: Told::of(calls),
        count: 0,
    };
    let first = (sink.write(b"abcd"), sink.faults());
    [first, (sink.write(b"d"), sink.faults())]
}

fn two_flushes(calls: &'static [Call]) -> [Outcome<()>; 2] {
    let mut sink = Writing {
        inner: Told::of(calls),
        count: 0,
    };
    let first = (sink.flush(), sink.faults());
    [first, (sink.flush(), sink.faults())]
}

#[test]
fn a_signal_ends_no_call(rt: HostRuntime) -> Result<(), Fail> {
    let calls = &[
        Call::Fails(EINTR),
        Call::Fails(EINTR),
        Call::Moves(3),
        Call::Fails(5),
    ];
    assert_eq!(rt; two_reads(calls), [(Ok(3), 0), (Err(Failed), 1)]);
    assert_eq!(rt; two_writes(calls), [(Ok(3), 0), (Err(Failed), 1)]);
    assert_eq!(rt; two_flushes(calls), [(Ok(()), 0), (Err(Failed), 1)]);
    Ok(())
}

#[test]
fn a_write_of_nothing_is_a_fault(rt: HostRuntime) -> Result<(), Fail> {
    let mut sink = Writing {
        inner: Told::of(&[Call::Moves(0), Call::Moves(0)]),
        count: 0,
    };
    assert_eq!(rt; sink.write(b""), Ok(0));
    assert_eq!(rt; sink.write(b"a"), Err(Failed));
    assert_eq!(rt; sink.faults(), 1);
    Ok(())
}

// A listener that fails with these numbers, one after the other, and then accepts by another.
#[derive(Drop)]
struct FailingListener {
    codes: &'static [i32],
    calls: AtomicU64,
    behind: TcpListener,
}

impl OpenListener for FailingListener {
    type Stream = TcpStream;

    fn accept(&self) -> io::Result<(TcpStream, SocketAddr)> {
        let call = self.calls.fetch_add(1, Ordering::SeqCst);
        match self.codes.get(call as usize) {
            Some(code) => Err(Error::from_raw_os_error(*code)),
            None => self.behind.accept(),
        }
    }
}

impl AsRawFd for FailingListener {
    fn as_raw_fd(&self) -> RawFd {
        self.behind.as_raw_fd()
    }
}

// A lobby whose listener fails so at first, with a client at its port.
fn lobby_of(
    rt: &HostRuntime,
    codes: &'static [i32],
) -> Result<(Lobby<FailingListener>, TcpStream), Fail> {
    let behind = TcpListener::bind(rt, (Ipv4Addr::LOCALHOST, 0))?;
    let client = TcpStream::connect(rt, behind.local_addr()?)?;
    let listener = FailingListener {
        codes,
        calls: AtomicU64::new(0),
        behind,
    };
    Ok((Lobby::new(listener), client))
}

// Whether the lobby is pressed until it gives this client's connection, and then no more.
fn gives_connection(
    rt: &HostRuntime,
    lobby: &Lobby<FailingListener>,
    client: &TcpStream,
) -> Result<bool, Fail> {
    let pressed = lobby.is_pressed(rt, rt.alloc());
    let socket = lobby.next(rt).ok_or("no connection")?;
    let given = socket.peer_addr()? == client.local_addr()?;
    Ok(pressed && given && !lobby.is_pressed(rt, rt.alloc()))
}

#[test]
fn a_worker_outlasts_faults_of_accepts(rt: HostRuntime) -> Result<(), Fail> {
    let (lobby, client) = lobby_of(&rt, &[103, 4, 24, 113, 105, 71])?;
    assert!(rt; gives_connection(&rt, &lobby, &client)?);
    drop((lobby, client));
    // EBADF is the listener's own fault, and ends it.
    let (lobby, _client) = lobby_of(&rt, &[103, 9])?;
    let ended = lobby.next(&rt).is_none();
    assert_eq!(rt;
        (ended, lobby.listener().calls.load(Ordering::SeqCst)),
        (true, 2)
    );
    Ok(())
}

// No file can be opened, and the clock was set before 1970.
struct Nothing;

impl Files for Nothing {
    type File = File;

    type Dir = <HostRuntime as Files>::Dir;

    fn open_file(&self, _how: &OpenOptions, _path: &str) -> io::Result<File> {
        Err(Error::from(ErrorKind::NotFound))
    }

    fn open_dir(&self, _path: &str) -> io::Result<<HostRuntime as Files>::Dir> {
        Err(Error::from(ErrorKind::NotFound))
    }

    fn metadata(&self, _path: &str) -> io::Result<Metadata> {
        Err(Error::from(ErrorKind::NotFound))
    }

    fn symlink_metadata(&self, _path: &str) -> io::Result<Metadata> {
        Err(Error::from(ErrorKind::NotFound))
    }

    fn copy(&self, _from: &str, _to: &str) -> io::Result<u64> {
        Err(Error::from(ErrorKind::NotFound))
    }

    fn rename(&self, _from: &str, _to: &str) -> io::Result<()> {
        Err(Error::from(ErrorKind::NotFound))
    }

    fn remove_file(&self, _path: &str) -> io::Result<()> {
        Err(Error::from(ErrorKind::NotFound))
    }

    fn create_dir(&self, _path: &str) -> io::Result<()> {
        Err(Error::from(ErrorKind::NotFound))
    }

    fn remove_dir(&self, _path: &str) -> io::Result<()> {
        Err(Error::from(ErrorKind::NotFound))
    }

    fn remove_dir_all<B: Allocator>(&self, _alloc: B, _path: &str) -> io::Result<()> {
        Err(Error::from(ErrorKind::NotFound))
    }
}

impl Eprint for Nothing {
    fn eprint<D: Display + Drop>(&self, _value: D) -> io::Result<()> {
        Ok(())
    }

    fn eprintln<D: Display + Drop>(&self, _value: D) -> io::Result<()> {
        Ok(())
    }
}

impl time::Clock for Nothing {
    fn monotonic(&self) -> io::Result<Duration> {
        Ok(Duration::ZERO)
    }

    fn since_1970(&self) -> io::Result<Duration> {
        Err(Error::from(ErrorKind::InvalidData))
    }
}

#[test]
fn a_key_that_cannot_be_drawn_is_a_fault(rt: HostRuntime) -> Result<(), Fail> {
    let mut seeds = MachineSeeds {
        rt: &Nothing,
        faults: 0,
    };
    for count in 1..3 {
        let drawn = seeds.draw(rt.alloc(), 2);
        assert_eq!(rt; drawn.err(), Some(SeedFault::Failed));
        assert_eq!(rt; seeds.faults(), count);
    }
    Ok(())
}

#[test]
fn a_clock_before_1970_shows_0(rt: HostRuntime) -> Result<(), Fail> {
    let clock = MachineClock { rt: &Nothing };
    assert_eq!(rt; clock.now(), 0);
    Ok(())
}

// Two requests and a third head.
const COURSE: &str = "\r\nGET / HTTP/1.1\r\nHost: a\r\n\r\n\
    POST / HTTP/1.1\nHost: a\nContent-Type: application/x-www-form-urlencoded\n\
    Content-Length: 4\n\n\n\nabG\n\r\r\nA\n\n";

// Where a course that passed so many bytes of these is.
fn stage_at(place: usize) -> Stage {
    match place {
        // Where the two requests and the third head end.
        29 | 124 | 132 => Stage::Between,
        // After the second head.
        120..=123 => Stage::Body,
        _ => Stage::Head,
    }
}

// Passes the requests in pieces of so many bytes. Where the course was elsewhere than it should be.
fn first_astray(course: &mut Course, step: usize) -> Result<Option<usize>, Fail> {
    let mut place = 0usize;
    let mut astray = None;
    for piece in COURSE.as_bytes().chunks(step.max(1)) {
        course.pass(piece)?;
        place = place.saturating_add(piece.len());
        if astray.is_none() && course.stage() != stage_at(place) {
            astray = Some(place);
        }
    }
    Ok(astray)
}

#[test]
fn a_course_follows_the_requests(rt: HostRuntime) -> Result<(), Fail> {
    assert_eq!(rt; COURSE.len(), 132);
    for step in [1usize, 2, 3, 7, 100] {
        let mut course = Course::new(rt.alloc());
        assert_eq!(rt; course.stage(), Stage::Between);
        assert_eq!(rt; first_astray(&mut course, step)?, None, "{step}");
    }
    Ok(())
}
