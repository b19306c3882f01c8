// The real door: one listener for all workers.
ghost use Rattle.std.specs.Prelude.{◌≡◌, ◌≤◌, ◌+◌, ◌-◌, ◌^◌, None, All, min, vec_len, IfOk};
ghost use Rattle.machine_outside.specs.Sockets.{IsOpened, faults_in};

use crate::line::Patience;
use crate::lobby::Lobby;
use crate::porch::SocketPorch;
use std::alloc::{AllocError, Global};
use std::io;
use std::net::{Ipv4Addr, Net, TcpListener, TcpStream};
use std::sync::Arc;
use std::time::Clock;
use web_outside::{CONNECTION_LIMIT, Door, DoorFault, Porch};

/// Listens at a port of this machine's own address, 127.0.0.1, and says where on the standard error.
#[derive(Drop)]
pub struct SocketDoor<'r, R> {
    pub rt: &'r R,
    pub patience: Patience,
    pub faults: u64,
}

// A listener at this port. Where it listens is said, since the machine chooses where the port is 0.
fn listener_at<R>(rt: &R, port: u16) -> io::Result<TcpListener>
where
    R: Net<Listener = TcpListener, Stream = TcpStream> + Eprint,
{
    let listener = TcpListener::bind(rt, (Ipv4Addr::LOCALHOST, port))?;
    let address = listener.local_addr()?;
    let _ = eprintln!(rt; "listening on {address}");
    Ok(listener)
}

impl<'r, R> SocketDoor<'r, R>
where
    R: Net<Listener = TcpListener, Stream = TcpStream> + Eprint + Clock,
{
    // A porch for each worker, all of one listener.
    fn porches_of(
        &self,
        alloc: Global,
        listener: TcpListener,
        workers: u32,
        connections: u64,
    ) -> Result<Vec<SocketPorch<'r, R>>, AllocError>
        requires { connections ≤ CONNECTION_LIMIT }
        ensures count { IfOk result (λ porches. vec_len porches ≡ workers) }
        ensures opened { IfOk result (λ porches. All (IsOpened connections) porches.items) }
    {
        let lobby = Arc::new(alloc, Lobby::new(listener))?;
        let mut porches = Vec::new(alloc);
        for _ in 0..workers {
            let lobby = lobby.clone()?;
            let porch = SocketPorch::new(self.rt, alloc, lobby, self.patience, connections);
            porches.push(porch)?;
        }
        Ok(porches)
    }
}

// The faults of the porches, up to the type's end.
fn faults_of<R: Clock + Eprint + Net>(porches: &[SocketPorch<'_, R>]) -> u64
    ensures { result ≡ min (faults_in porches.now) (2 ^ 64 - 1) }
{
    match porches {
        [] => 0,
        [first, rest @ ..] => first.faults().saturating_add(faults_of(rest)),
    }
}

impl<'r, R> Door for SocketDoor<'r, R>
where
    R: Net<Listener = TcpListener, Stream = TcpStream> + Eprint + Clock,
{
    type Porch = SocketPorch<'r, R>;

    ghost view = { λ door. record { links = λ _. None; closed = None; faults = door.faults } };

    fn faults(&self) -> u64 {
        self.faults
    }

    fn listen(
        &mut self,
        alloc: Global,
        port: u16,
        workers: u32,
        connections: u64,
    ) -> Result<Vec<SocketPorch<'r, R>>, DoorFault> {
        let listener = match listener_at(self.rt, port) {
            Ok(listener) => listener,
            Err(fault) => {
                let _ = eprintln!(self.rt; "cannot listen on port {port}: {fault}");
                self.faults = self.faults.saturating_add(1);
                return Err(DoorFault::Failed);
            }
        };
        match self.porches_of(alloc, listener, workers, connections) {
            Ok(porches) => Ok(porches),
            Err(_) => Err(DoorFault::Memory),
        }
    }

    fn close(&mut self, porches: Vec<SocketPorch<'r, R>>)
        ensures { self.new.faults ≡ min (self.old.faults + faults_in porches.entry.items) (2 ^ 64 - 1) }
    {
        self.faults = self.faults.saturating_add(faults_of(&porches));
    }
}
