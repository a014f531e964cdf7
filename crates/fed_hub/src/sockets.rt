//! Connections over TCP, many at once: the one body of `Peers` beside those of tests. No clause says what a socket gives or takes, nor what
//! the system reports: these calls are trusted.
ghost use Rattle.std.specs.Prelude.{◌≡◌, IfErr};

use crate::peers::{NotNow, Peer, Peers, PeersFault, Ready, Waited};
use mio::net::{TcpListener, TcpStream};
use mio::{Events, Interest, Poll, Token};
use std::alloc::Global;
use std::io;
use std::io::{ErrorKind, Read, Write};
use std::net::{IpAddr, Ipv4Addr, Net, SocketAddr};
use std::time::Duration;
use thiserror::Error;

/// The most reports of one wait.
const MOST_EVENTS: usize = 512;

/// The token of the listener; that of a connection is its place.
const DOOR: usize = 1_048_576;

/// How often a call is made again that was interrupted.
const TRIES: u32 = 1_000;

/// The program cannot listen on this port, or wait for what is ready.
#[derive(Clone, Copy, Debug, PartialEq, Eq, Error)]
#[error("cannot listen on port {port}")]
pub struct CannotListen {
    pub port: u16,
}

/// The connections to a port of 127.0.0.1.
#[derive(Drop)]
pub struct Sockets {
    poll: Poll,
    events: Events,
    reported: usize,
    listener: TcpListener,
    silence: Option<Duration>,
}

impl Sockets {
    /// Listens on this port of 127.0.0.1. A wait for this long in which nothing is ready is silence, where a time is given.
    ///
    /// Fails where the port cannot be bound, where the system waits for nothing more, and where memory was refused.
    pub fn bind<N: Net>(
        alloc: Global,
        net: &N,
        port: u16,
        silence: Option<Duration>,
    ) -> Result<Sockets, CannotListen>
        ensures { IfErr result (λ fault. fault.port ≡ port) }
    {
        match listening(alloc, net, port, silence) {
            Ok(sockets) => Ok(sockets),
            Err(_) => Err(CannotListen { port }),
        }
    }
}

// Listens on this port of 127.0.0.1.
fn listening<N: Net>(
    alloc: Global,
    net: &N,
    port: u16,
    silence: Option<Duration>,
) -> io::Result<Sockets> {
    let poll = Poll::new(net)?;
    let address = SocketAddr::new(IpAddr::V4(Ipv4Addr::new(127, 0, 0, 1)), port);
    let mut listener = TcpListener::bind(net, address)?;
    poll.registry()
        .register(&mut listener, Token(DOOR), Interest::READABLE)?;
    let events = Events::with_capacity(alloc, MOST_EVENTS)?;
    Ok(Sockets {
        poll,
        events,
        reported: 0,
        listener,
        silence,
    })
}

// Returns why a call did nothing, or `None` where it is to be made again.
fn told(kind: ErrorKind) -> Option<NotNow> {
    match kind {
        ErrorKind::Interrupted => None,
        ErrorKind::WouldBlock => Some(NotNow::Later),
        _ => Some(NotNow::Failed),
    }
}

impl Peer for TcpStream {
    ghost use Rattle.std.specs.Prelude.{None};

    ghost remaining = { λ _. None };

    ghost contents = { λ _. None };

    fn read_now(&mut self, piece: &mut [u8]) -> Result<usize, NotNow> {
        for _ in 0..TRIES {
            match self.read(piece) {
                Ok(count) => return Ok(count),
                Err(error) => match told(error.kind()) {
                    Some(fault) => return Err(fault),
                    None => {}
                },
            }
        }
        Err(NotNow::Failed)
    }

    fn write_now(&mut self, bytes: &[u8]) -> Result<usize, NotNow> {
        for _ in 0..TRIES {
            match self.write(bytes) {
                Ok(count) => return Ok(count),
                Err(error) => match told(error.kind()) {
                    Some(fault) => return Err(fault),
                    None => {}
                },
            }
        }
        Err(NotNow::Failed)
    }
}

impl Peers for Sockets {
    type Peer = TcpStream;

    fn take(&mut self, place: usize) -> Result<Option<TcpStream>, PeersFault> {
        match self.listener.accept() {
            Ok((mut stream, _)) => {
                let _ = stream.set_nodelay(true);
                let both = Interest::READABLE | Interest::WRITABLE;
                match self
                    .poll
                    .registry()
                    .register(&mut stream, Token(place), both)
                {
                    Ok(()) => Ok(Some(stream)),
                    Err(_) => Err(PeersFault),
                }
            }
            Err(error) => match error.kind() {
                ErrorKind::WouldBlock => Ok(None),
                _ => Err(PeersFault),
            },
        }
    }

    fn wait(&mut self, is_busy: bool) -> Result<Waited, PeersFault> {
        let time = if is_busy {
            Some(Duration::from_secs(0))
        } else {
            self.silence
        };
        self.reported = 0;
        match self.poll.poll(&mut self.events, time) {
            Ok(()) if self.events.is_empty() && !is_busy && self.silence.is_some() => {
                Ok(Waited::Silent)
            }
            Ok(()) => Ok(Waited::Woken),
            Err(_) => Err(PeersFault),
        }
    }

    fn next_ready(&mut self) -> Option<Ready> {
        let event = self.events.iter().nth(self.reported)?;
        self.reported = self.reported.saturating_add(1);
        let Token(place) = event.token();
        if place == DOOR {
            return Some(Ready::Door);
        }
        Some(Ready::Place {
            place,
            ends: event.is_read_closed() || event.is_error(),
        })
    }
}
