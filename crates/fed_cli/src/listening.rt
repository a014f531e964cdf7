//! Connections over TCP.
ghost use Rattle.std.specs.Prelude.{◌≡◌, ◌<◌, Err, IfOk, IfErr, is_ok};
ghost use Rattle.std.specs.Net.Socket.{socket_port};
ghost use Rattle.std.specs.declared.net.socket_addr.SocketAddr.{SocketAddr};
ghost use Rattle.fed_stream.specs.Guards.{IsFresh};
ghost use Rattle.fed_stream.specs.Streams.{stream};
ghost use Rattle.fed_cli.specs.Exits.{TellsText};
ghost use Rattle.fed_stream.specs.Known.{Known};
ghost use Rattle.fed_stream.specs.declared.source.GivenUp.{GivenUp};
ghost use Rattle.fed_cli.specs.Listens.{CallsPort, IsAtPort, IsLocal, Listens, listened, port_line};
ghost use Rattle.med_session.specs.Prelude.{IsSound, shown};

use crate::turns::{AcceptFault, Connections, Kept, serve_connections};
use fdw_api::wishes::Wrapper2;
use fed_stream::{GivenUp, Guarded, Sink, flush, write_line};
use itoa::Buffer;
use med_session::Engine;
use std::alloc::Global;
use std::error::Error;
use std::fmt;
use std::io::{self, ErrorKind, Read};
use std::net::{IpAddr, Ipv4Addr, Net, OpenListener, OpenStream, Shutdown, SocketAddr};
use std::time::{Clock, Duration, Instant};

/// For how long a closed connection is drained before its last read, in milliseconds.
const LAST_TIME: u64 = 990;

/// How long each read of a closed connection waits at most, in milliseconds: so all of them take a second at most.
const LAST_WAIT: u64 = 10;

/// The most bytes of one of these reads.
const LAST_PIECE: usize = 16_384;

/// Why connections to a port were not all served.
#[derive(Clone, Copy, Debug, PartialEq, Eq)]
pub enum ListenFault {
    /// The program cannot listen on this port.
    CannotListen(u16),
    /// The line that says so could not be written.
    Write,
    /// No connection could be taken.
    Accept,
}

impl fmt::Display for ListenFault {
    ghost use Rattle.std.specs.Prelude.{Some};
    ghost use Rattle.fed_cli.specs.Listens.{listen_text};

    ghost output = { λ fault. Some (listen_text fault) };

    fn fmt<W: fmt::Write>(&self, f: &mut fmt::Formatter<W>) -> fmt::Result {
        match self {
            ListenFault::CannotListen(port) => write!(f, "cannot listen on port {port}"),
            ListenFault::Write => f.write_str("write fault"),
            ListenFault::Accept => f.write_str("accept fault"),
        }
    }
}

impl Error for ListenFault {}

/// Where a program listens: its runtime, or what a test has in its place. What the system does at an address is not known: that a listener
/// takes the connections to the address it was asked for is trusted.
pub trait Ports: Net {
    /// This listener takes the connections to this address.
    ghost listens_at: { Self.Listener → SocketAddr → Type 0 };

    /// Listens at an address. The error is the system's.
    fn listen(&self, address: SocketAddr) -> io::Result<Self::Listener>
        ensures { IfOk result (λ listener. listens_at listener address) };
}

impl Ports for HostRuntime {
    ghost listens_at = { λ _ _. Unit {0} };

    fn listen(&self, address: SocketAddr) -> io::Result<Self::Listener> {
        self.bind(address)
    }
}

/// The connections to a port. Each is guarded: one that begins with a request line of HTTP gives no byte. What is taken, and what a
/// connection gives, is the peers' doing: nothing else is promised of it.
#[derive(Drop)]
pub struct Listening<'a, N: Net> {
    alloc: Global,
    clock: &'a N,
    listener: N::Listener,
}

impl<'a, N: Ports> Listening<'a, N> {
    /// Listens on this port of 127.0.0.1 alone. Fails with `CannotListen` where the port cannot be bound.
    pub fn bind(alloc: Global, net: &'a N, port: u16) -> Result<Self, ListenFault>
        ensures at { IfOk result (λ listening. IsAtPort N.listens_at port listening.listener) }
        ensures err { IfErr result (λ fault. fault ≡ ListenFault.CannotListen port) }
    {
        match net.listen(local_address(port)) {
            Ok(listener) => Ok(Listening {
                alloc,
                clock: net,
                listener,
            }),
            Err(_) => Err(ListenFault::CannotListen(port)),
        }
    }
}

impl<N: Net + Clock> Connections for Listening<'_, N> {
    type Reader = Guarded<N::Stream>;

    type Writer = N::Stream;

    ghost accepts = { λ _ reader _ _. IsFresh reader };

    ghost refuses = { λ _ _. Unit {0} };

    ghost closes = { λ _ _ _ _. Unit {0} };

    fn accept(&mut self) -> Result<(Guarded<N::Stream>, N::Stream), AcceptFault> {
        let Ok((reader, _)) = self.listener.accept() else {
            return Err(AcceptFault);
        };
        match reader.try_clone() {
            Ok(writer) => Ok((Guarded::new(self.alloc, reader), writer)),
            Err(_) => Err(AcceptFault),
        }
    }

    /// The peer gets the end of what was written. What it still sends is read for a second at most, in pieces of any size, and dropped:
    /// else the system would reset the connection, and the peer could lose what was written.
    fn close(&mut self, reader: Guarded<N::Stream>, writer: N::Stream) {
        let _ = writer.shutdown(Shutdown::Write);
        let mut left = reader.into_inner();
        let wait = Duration::from_millis(LAST_WAIT);
        if left.set_read_timeout(Some(wait)).is_ok() {
            drain(&mut left, self.clock);
        }
    }
}

// Reads what a peer still sends, and drops it, until the peer ends, a read fails or the time is over.
fn drain<R: Read, C: Clock>(reader: &mut R, clock: &C) {
    let Ok(start) = Instant::now(clock) else {
        return;
    };
    let mut piece = [0u8; LAST_PIECE];
    for _ in 0..u32::MAX {
        match reader.read(&mut piece) {
            Ok(0) => return,
            Ok(_) => {}
            Err(error) => match error.kind() {
                ErrorKind::WouldBlock | ErrorKind::TimedOut | ErrorKind::Interrupted => {}
                _ => return,
            },
        }
        if is_over(&start, clock) {
            return;
        }
    }
}

// Whether so much time has passed since a start that no read is made any more, or the clock fails.
fn is_over<C: Clock>(start: &Instant, clock: &C) -> bool {
    match start.elapsed(clock) {
        Ok(time) => time >= Duration::from_millis(LAST_TIME),
        Err(_) => true,
    }
}

// This port of 127.0.0.1.
fn local_address(port: u16) -> SocketAddr
    ensures local { IsLocal result }
    ensures port { socket_port result ≡ port }
{
    SocketAddr::new(IpAddr::V4(Ipv4Addr::new(127, 0, 0, 1)), port)
}

/// Listens on a port of 127.0.0.1, reports it by the line `fedq: listening on 127.0.0.1:PORT`, and serves this number of connections by
/// the engine, one after the other, as `serve_connections` does.
///
/// Of what peers send and get nothing can be said: they are others. Nothing is served where the port cannot be bound or the line could
/// not be written: then a front of it was, and where the output reports its calls one of them failed, or 4,294,967,295 were interrupted.
pub fn listen_and_serve<B: Wrapper2, V: AllocGlobal + Ports + Clock, O: Sink, E: Sink>(
    rt: &V,
    engine: Engine<B>,
    port: u16,
    count: u16,
    output: &mut O,
    errors: &mut E,
) -> Kept<B, ListenFault>
    requires sound { IsSound (shown B.meaning engine) }
    requires port { 0 < port }
    ensures listens { Listens V.Stream.remaining V.Stream.contents (shown B.meaning engine) port count result.came
        (shown B.meaning result.engine) result.is_told
        (stream (O.contents output.old) (O.contents output.new)) (stream (E.contents errors.old) (E.contents errors.new)) }
    ensures sound { IsSound (shown B.meaning result.engine) }
    ensures writes { result.came ≡ Err ListenFault.Write
        → Known (O.outlet output.old) (O.outlet output.new) (λ old new. (fault : GivenUp) × CallsPort old new (Err fault)) }
{
    let mut listening = match Listening::<V>::bind(rt.alloc(), rt, port) {
        Ok(listening) => listening,
        Err(fault) => {
            return Kept {
                came: Err(fault),
                is_told: true,
                engine,
            };
        }
    };
    match tell_port(port, output) {
        Ok(()) => {}
        Err(_) => {
            return Kept {
                came: Err(ListenFault::Write),
                is_told: true,
                engine,
            };
        }
    }
    let kept = serve_connections(rt.alloc(), engine, &mut listening, count, errors);
    Kept {
        came: listened(kept.came),
        is_told: kept.is_told,
        engine: kept.engine,
    }
}

// Tells the port on standard output, and flushes it. A write or flush that is interrupted is tried again.
fn tell_port<O: Sink>(port: u16, output: &mut O) -> Result<(), GivenUp>
    ensures told { TellsText (is_ok result) (stream (O.contents output.old) (O.contents output.new)) (port_line port) }
    ensures calls { Known (O.outlet output.old) (O.outlet output.new) (λ old new. CallsPort old new result) }
{
    let mut digits = Buffer::new();
    match write_line(output, &["listening on 127.0.0.1:", digits.format(port)]) {
        Ok(()) => flush(output),
        Err(fault) => Err(fault),
    }
}

// What it came to that the connections to a port were served.
fn listened(came: Result<(), AcceptFault>) -> Result<(), ListenFault>
    ensures { result ≡ listened came }
{
    match came {
        Ok(()) => Ok(()),
        Err(_) => Err(ListenFault::Accept),
    }
}
