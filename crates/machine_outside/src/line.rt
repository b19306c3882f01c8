// A connection, which is waited for no longer than its requests have time.
use crate::course::{Course, Stage};
use crate::lobby::Lobby;
use std::alloc::Global;
use std::io::{self, ErrorKind, Read, Write};
use std::net::{Net, Shutdown, TcpListener, TcpStream};
use std::sync::Arc;
use std::sync::atomic::{AtomicBool, Ordering};
use std::time::{Clock, Duration, Instant};

// So many milliseconds a call of the socket waits at most. Then the times are looked at.
const TICK: u64 = 10;

// What still comes at the end of a line is read and dropped, for so many seconds and bytes at most, and as long as no so
// many milliseconds pass without a byte.
const LAST_SECONDS: u64 = 5;

const LAST_BYTES: usize = 16_777_216;

const LAST_WAIT: u64 = 100;

/// How long each part of a request may take, whatever trickles.
#[derive(Clone, Copy, Debug, PartialEq, Eq)]
pub struct Patience {
    /// From its first byte to the end of its head; of the first request from the link's acceptance.
    pub head: Duration,
    /// For its body.
    pub body: Duration,
    /// For its reply, from the reply's first byte.
    pub reply: Duration,
    /// How long nothing may come between two requests.
    pub idle: Duration,
    /// How long a link of which no byte came yet keeps its worker from another that waits for one.
    pub grace: Duration,
}

/// A socket of a listener.
#[derive(Drop)]
pub struct Line<C> {
    rt: C,
    alloc: Global,
    socket: TcpStream,
    lobby: Arc<Lobby<TcpListener>>,
    patience: Patience,
    // A reply was sent since the last read.
    replied: AtomicBool,
    // Nothing comes any more that has to be read before the end.
    ended: AtomicBool,
}

impl<C: Clock + Net + Drop> Line<C> {
    /// A line of which nothing was read yet.
    pub fn new(
        rt: C,
        alloc: Global,
        socket: TcpStream,
        lobby: Arc<Lobby<TcpListener>>,
        patience: Patience,
    ) -> io::Result<Line<C>> {
        let tick = Some(Duration::from_millis(TICK));
        socket.set_nodelay(true)?;
        socket.set_read_timeout(tick)?;
        socket.set_write_timeout(tick)?;
        Ok(Line {
            rt,
            alloc,
            socket,
            lobby,
            patience,
            replied: AtomicBool::new(false),
            ended: AtomicBool::new(false),
        })
    }

    /// The moment on its clock.
    pub fn now(&self) -> io::Result<Instant> {
        Instant::now(&self.rt)
    }

    // Whether so long a time is over that began then.
    fn is_over(&self, begun: Instant, time: Duration) -> io::Result<bool> {
        Ok(begun.elapsed(&self.rt)? >= time)
    }

    // Fails where such a time is over.
    fn check(&self, begun: Instant, time: Duration) -> io::Result<()> {
        if self.is_over(begun, time)? {
            return Err(io::Error::from(ErrorKind::TimedOut));
        }
        Ok(())
    }

    // Whether another connection waits, and no worker is free for it.
    fn is_pressed(&self) -> bool {
        self.lobby.is_pressed(&self.rt, self.alloc)
    }

    /// Ends the line so that what was written reaches the other side even if that is still sending.
    pub fn close_gently(&self) -> io::Result<()> {
        if self.ended.load(Ordering::SeqCst) {
            return Ok(());
        }
        self.socket.shutdown(Shutdown::Write)?;
        let wait = Duration::from_millis(LAST_WAIT);
        self.socket.set_read_timeout(Some(wait))?;
        let begun = self.now()?;
        let mut rest = [0u8; 16_384];
        let mut left = LAST_BYTES;
        while left > 0 {
            let count = (&mut &self.socket).read(&mut rest)?;
            if count == 0 || self.is_over(begun, Duration::from_secs(LAST_SECONDS))? {
                break;
            }
            left = left.saturating_sub(count);
        }
        Ok(())
    }
}

// Whether a call of the socket waited for its time, and found nothing.
fn found_nothing<T>(outcome: &io::Result<T>) -> bool {
    match outcome {
        Err(fault) => fault.kind() == ErrorKind::WouldBlock,
        Ok(_) => false,
    }
}

/// What a line's other side sends.
#[derive(Drop)]
pub struct Heard<C> {
    line: Arc<Line<C>>,
    course: Course,
    // A byte came.
    asked: bool,
    // What is waited for, and since when.
    stage: Stage,
    begun: Instant,
}

impl<C: Clock + Net + Drop> Heard<C> {
    /// Nothing was read yet. The first head is waited for from now on.
    pub fn new(line: Arc<Line<C>>) -> io::Result<Heard<C>> {
        let begun = line.now()?;
        let course = Course::new(line.alloc);
        Ok(Heard {
            line,
            course,
            asked: false,
            stage: Stage::Head,
            begun,
        })
    }

    // How long it is waited for.
    fn time(&self) -> Duration {
        let patience = self.line.patience;
        match self.stage {
            Stage::Between => patience.idle,
            Stage::Head => patience.head,
            Stage::Body => patience.body,
        }
    }

    // Another stage is waited for from now on.
    fn begin(&mut self) -> io::Result<()> {
        self.stage = self.course.stage();
        self.begun = self.line.now()?;
        Ok(())
    }

    // Fails where the time of a request is over.
    fn check(&self) -> io::Result<()> {
        if self.stage == Stage::Between {
            return Ok(());
        }
        self.line.check(self.begun, self.time())
    }

    // Whether the line is to end since it is idle.
    fn yields(&self) -> io::Result<bool> {
        let line = &*self.line;
        if !self.asked {
            return Ok(line.is_over(self.begun, line.patience.grace)? && line.is_pressed());
        }
        if self.stage != Stage::Between {
            return Ok(false);
        }
        Ok(line.is_pressed() || line.is_over(self.begun, self.time())?)
    }

    // These bytes came.
    fn pass(&mut self, bytes: &[u8]) -> io::Result<()> {
        self.course.pass(bytes)?;
        if bytes.is_empty() {
            self.line.ended.store(true, Ordering::SeqCst);
            return Ok(());
        }
        self.asked = true;
        if self.course.stage() != self.stage {
            self.begin()?;
        }
        Ok(())
    }
}

impl<C: Clock + Net + Drop> Read for Heard<C> {
    // Before the first byte, and between two requests, the end comes also where another connection is pressing, and
    // between two requests where nothing came for long.
    fn read(&mut self, buf: &mut [u8]) -> io::Result<usize> {
        if self.line.replied.swap(false, Ordering::SeqCst) {
            self.begin()?;
        }
        for _ in 0..u64::MAX {
            self.check()?;
            let outcome = (&mut &self.line.socket).read(buf);
            if !found_nothing(&outcome) {
                let count = outcome?;
                self.pass(&buf[..count])?;
                return Ok(count);
            }
            if self.yields()? {
                self.line.ended.store(true, Ordering::SeqCst);
                return Ok(0);
            }
        }
        Err(io::Error::from(ErrorKind::TimedOut))
    }
}

/// What a line's other side is sent.
#[derive(Drop)]
pub struct Told<C> {
    line: Arc<Line<C>>,
    // When the reply began that is being sent.
    begun: Option<Instant>,
}

impl<C: Clock + Net + Drop> Told<C> {
    /// Nothing was written yet.
    pub fn new(line: Arc<Line<C>>) -> Told<C> {
        Told { line, begun: None }
    }

    // When the reply began, which is now where it did not before. Fails where its time is over.
    fn beginning(&mut self) -> io::Result<Instant> {
        let line = &*self.line;
        if let Some(begun) = self.begun {
            line.check(begun, line.patience.reply)?;
            return Ok(begun);
        }
        let begun = line.now()?;
        self.begun = Some(begun);
        Ok(begun)
    }
}

impl<C: Clock + Net + Drop> Write for Told<C> {
    fn write(&mut self, piece: &[u8]) -> io::Result<usize> {
        let begun = self.beginning()?;
        let line = &*self.line;
        for _ in 0..u64::MAX {
            let outcome = (&mut &line.socket).write(piece);
            if !found_nothing(&outcome) {
                return outcome;
            }
            line.check(begun, line.patience.reply)?;
        }
        Err(io::Error::from(ErrorKind::TimedOut))
    }

    // The reply was sent.
    fn flush(&mut self) -> io::Result<()> {
        self.begun = None;
        self.line.replied.store(true, Ordering::SeqCst);
        Ok(())
    }
}
