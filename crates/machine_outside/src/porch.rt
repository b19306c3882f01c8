// Where a worker accepts links.
ghost use Rattle.std.specs.Prelude.{◌≡◌, ◌≤◌};
ghost use Rattle.web_outside.specs.Causes.{HasCause};

use crate::line::Patience;
use crate::link::SocketLink;
use crate::lobby::{Lobby, MOMENT};
use std::alloc::Global;
use std::io;
use std::net::{Net, TcpListener, TcpStream};
use std::sync::Arc;
use std::thread::sleep;
use std::time::{Clock, Duration};
use web_outside::{CONNECTION_LIMIT, Failed, Porch};

/// Where one worker accepts connections.
#[derive(Drop)]
pub struct SocketPorch<'r, R> {
    rt: &'r R,
    alloc: Global,
    lobby: Arc<Lobby<TcpListener>>,
    patience: Patience,
    given: u64,
    most: u64,
    lent: bool,
    faults: u64,
    ghost within: { given ≤ most },
    ghost bounded: { most ≤ 1000000 },
}

impl<'r, R: Clock + Eprint + Net> SocketPorch<'r, R> {
    /// A porch of this lobby, which gives at most so many links.
    pub fn new(
        rt: &'r R,
        alloc: Global,
        lobby: Arc<Lobby<TcpListener>>,
        patience: Patience,
        connections: u64,
    ) -> SocketPorch<'r, R>
        requires { connections ≤ CONNECTION_LIMIT }
        ensures given { result.given ≡ 0 }
        ensures most { result.most ≡ connections }
        ensures faults { result.faults ≡ 0 }
    {
        SocketPorch {
            rt,
            alloc,
            lobby,
            patience,
            given: 0,
            most: connections,
            lent: false,
            faults: 0,
        }
    }

    /// The listener.
    pub fn listener(&self) -> &TcpListener {
        self.lobby.listener()
    }

    // A connection as a link.
    fn made(&self, socket: TcpStream) -> io::Result<SocketLink<&'r R>> {
        let lobby = self.lobby.clone()?;
        SocketLink::new(self.rt, self.alloc, socket, lobby, self.patience)
    }

    // The link of a connection; none where it could not be made one, which is counted.
    fn link_over(&mut self, socket: TcpStream) -> Option<SocketLink<&'r R>>
        ensures given { self.new.given ≡ self.old.given }
        ensures most { self.new.most ≡ self.old.most }
        ensures lent { self.new.lent ≡ self.old.lent }
        ensures faults { self.old.faults ≤ self.new.faults }
    {
        match self.made(socket) {
            Ok(link) => Some(link),
            Err(_) => {
                self.faults = self.faults.saturating_add(1);
                None
            }
        }
    }

    // The next link. Where one could not be made, the machine is given a moment.
    fn accept(&mut self) -> Result<SocketLink<&'r R>, Failed>
        ensures given { self.new.given ≡ self.old.given }
        ensures most { self.new.most ≡ self.old.most }
        ensures lent { self.new.lent ≡ self.old.lent }
        ensures cause { HasCause self.old.faults self.new.faults result }
    {
        'tries: for _ in 0..u64::MAX {
            let Some(socket) = self.lobby.next(self.rt) else {
                break 'tries;
            };
            if let Some(link) = self.link_over(socket) {
                return Ok(link);
            }
            sleep(self.rt, Duration::from_millis(MOMENT));
        }
        self.faults = self.faults.saturating_add(1);
        Err(Failed)
    }
}

impl<'r, R: Clock + Eprint + Net> Porch for SocketPorch<'r, R> {
    type Link = SocketLink<&'r R>;

    ghost use Rattle.machine_outside.specs.Sockets.{porch_view};

    ghost view = { porch_view };

    fn faults(&self) -> u64 {
        self.faults
    }

    fn next(&mut self) -> Result<Option<SocketLink<&'r R>>, Failed> {
        if self.given == self.most {
            return Ok(None);
        }
        let link = self.accept()?;
        self.given += 1;
        self.lent = true;
        Ok(Some(link))
    }

    fn back(&mut self, link: SocketLink<&'r R>) {
        self.lent = false;
        let _ = link.close_gently();
    }
}
