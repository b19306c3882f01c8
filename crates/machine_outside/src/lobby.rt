// Where connections wait to be accepted.
ghost use Rattle.std.specs.Prelude.{◌≡◌};
ghost use Rattle.machine_outside.specs.Accepts.{fault_of};

use mio::unix::SourceFd;
use mio::{Events, Interest, Poll, Token};
use std::alloc::Global;
use std::io;
use std::net::{Net, OpenListener, TcpStream};
use std::os::fd::AsRawFd;
use std::sync::atomic::{AtomicU64, Ordering};
use std::thread::sleep;
use std::time::{Clock, Duration};

/// How long the machine is given to find room for another connection, in milliseconds.
pub const MOMENT: u64 = 100;

/// What an error of an accept says.
#[derive(Clone, Copy, Debug, PartialEq, Eq)]
pub enum AcceptFault {
    /// A connection was over before it was one, or its network failed.
    Connection,
    /// The machine has no room for a connection at the moment.
    Room,
    /// The listener failed.
    Listener,
}

impl AcceptFault {
    /// What the machine's number of an error says.
    pub fn of(code: Option<i32>) -> AcceptFault
        ensures { result ≡ fault_of code }
    {
        let Some(number) = code else {
            return AcceptFault::Listener;
        };
        // EPERM, EINTR, ENONET, EPROTO, ENOPROTOOPT, EOPNOTSUPP, ENETDOWN, ENETUNREACH, ECONNABORTED, ECONNRESET, ETIMEDOUT,
        // EHOSTDOWN, EHOSTUNREACH
        if [1, 4, 64, 71, 92, 95, 100, 101, 103, 104, 110, 112, 113].contains(&number) {
            return AcceptFault::Connection;
        }
        // ENOMEM, ENFILE, EMFILE, ENOBUFS
        if [12, 23, 24, 105].contains(&number) {
            return AcceptFault::Room;
        }
        AcceptFault::Listener
    }
}

/// The listener of all workers, and how many of them wait at it.
#[derive(Drop)]
pub struct Lobby<L> {
    listener: L,
    free: AtomicU64,
}

impl<L: OpenListener<Stream = TcpStream> + AsRawFd> Lobby<L> {
    /// No worker waits yet.
    pub fn new(listener: L) -> Lobby<L> {
        Lobby {
            listener,
            free: AtomicU64::new(0),
        }
    }

    /// The listener.
    pub fn listener(&self) -> &L {
        &self.listener
    }

    // A connection. Up to it the worker is free.
    fn accept(&self) -> io::Result<TcpStream> {
        self.free.fetch_add(1, Ordering::SeqCst);
        let outcome = self.listener.accept();
        self.free.fetch_sub(1, Ordering::SeqCst);
        let (socket, _) = outcome?;
        Ok(socket)
    }

    /// The next connection. What fails of a single one is passed over, and where the machine has no room for one, it is
    /// given a moment. None where the listener fails, which is told.
    pub fn next<R: Clock + Eprint>(&self, rt: &R) -> Option<TcpStream> {
        for _ in 0..u64::MAX {
            let fault = match self.accept() {
                Ok(socket) => return Some(socket),
                Err(fault) => fault,
            };
            match AcceptFault::of(fault.raw_os_error()) {
                AcceptFault::Connection => {}
                AcceptFault::Room => sleep(rt, Duration::from_millis(MOMENT)),
                AcceptFault::Listener => {
                    let _ = eprintln!(rt; "cannot accept a connection: {fault}");
                    return None;
                }
            }
        }
        None
    }

    // Whether a connection waits at the listener.
    fn holds_one<R: Net>(&self, rt: &R, alloc: Global) -> io::Result<bool> {
        let mut poll = Poll::new(rt)?;
        let listener = self.listener.as_raw_fd();
        let registry = poll.registry();
        registry.register(&mut SourceFd(&listener), Token(0), Interest::READABLE)?;
        let mut events = Events::with_capacity(alloc, 1)?;
        poll.poll(&mut events, Some(Duration::ZERO))?;
        Ok(!events.is_empty())
    }

    /// Whether a connection waits to be accepted, and no worker is free for it.
    pub fn is_pressed<R: Net>(&self, rt: &R, alloc: Global) -> bool {
        self.free.load(Ordering::SeqCst) == 0 && matches!(self.holds_one(rt, alloc), Ok(true))
    }
}
