// A connection as a link.
ghost use Rattle.std.specs.Prelude.{refl};
ghost use Rattle.machine_outside.specs.Sockets.{link_view};

use crate::adapters::{Reading, Writing};
use crate::buffers::{ReadAhead, Together};
use crate::line::{Heard, Line, Patience, Told};
use crate::lobby::Lobby;
use std::alloc::Global;
use std::io;
use std::net::{Net, TcpListener, TcpStream};
use std::sync::Arc;
use std::time::Clock;
use web_outside::Link;

/// What a link reads from.
pub type Hearing<C> = ReadAhead<Reading<Heard<C>>>;

/// What a link writes to.
pub type Telling<C> = Together<Writing<Told<C>>>;

/// A connection. Its halves are one line.
#[derive(Drop)]
pub struct SocketLink<C> {
    input: Hearing<C>,
    output: Telling<C>,
    line: Arc<Line<C>>,
}

impl<C: Clock + Net + Drop> Link for SocketLink<C> {
    type Input = Hearing<C>;

    type Output = Telling<C>;

    ghost view = { link_view };

    ghost with_input = { λ link half. record link { input = half } };

    ghost with_output = { λ link half. record link { output = half } };

    fn input(&mut self) -> &mut Hearing<C> {
        &mut self.input
    }

    fn output(&mut self) -> &mut Telling<C> {
        &mut self.output
    }

    ghost input_set = { λ _ _. refl };

    ghost output_set = { λ _ _. refl };
}

impl<C: Clock + Net + Drop> SocketLink<C> {
    /// A link over a socket that was accepted just now.
    pub fn new(
        rt: C,
        alloc: Global,
        socket: TcpStream,
        lobby: Arc<Lobby<TcpListener>>,
        patience: Patience,
    ) -> io::Result<SocketLink<C>> {
        let line = Line::new(rt, alloc, socket, lobby, patience)?;
        let line = Arc::new(alloc, line)?;
        let input = Reading {
            inner: Heard::new(line.clone()?)?,
            count: 0,
        };
        let output = Writing {
            inner: Told::new(line.clone()?),
            count: 0,
        };
        Ok(SocketLink {
            input: ReadAhead::new(input),
            output: Together::new(alloc, output),
            line,
        })
    }

    /// Ends the link so that what was written reaches the other side even if that is still sending.
    pub fn close_gently(&self) -> io::Result<()> {
        self.line.close_gently()
    }
}
