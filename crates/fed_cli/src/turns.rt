//! Connections, one after the other.
ghost use Rattle.std.specs.Prelude.{List, length, IfOk, OnErr};
ghost use Rattle.fed_stream.specs.Streams.{stream};
ghost use Rattle.fed_cli.specs.Turns.{Turn, AreTaken, Ends, AreServed};
ghost use Rattle.med_session.specs.Prelude.{IsSound, shown};

use crate::kept::serve_kept;
use crate::telling::tell_run;
use crate::told::told;
use fdw_api::wishes::Wrapper2;
use fed_stream::Sink;
use med_session::Engine;
use std::alloc::Global;
use std::io::{Read, Write};
use thiserror::Error;

/// No connection could be taken.
#[derive(Clone, Copy, Debug, PartialEq, Eq, Error)]
#[error("accept fault")]
pub struct AcceptFault;

/// Where connections come from.
pub trait Connections {
    /// What the peer of a connection sends.
    type Reader: Read + Drop;

    /// What is sent to it.
    type Writer: Write + Drop;

    /// In the first state this connection may be taken, which leaves the last state.
    ghost accepts: { Self → Self.Reader → Self.Writer → Self → Type 0 };

    /// In the first state it may be that none can be taken, which leaves the second state.
    ghost refuses: { Self → Self → Type 0 };

    /// In the first state this connection may be given back, which leaves the last state.
    ghost closes: { Self → Self.Reader → Self.Writer → Self → Type 0 };

    /// Takes the next connection. It may wait for one.
    fn accept(&mut self) -> Result<(Self::Reader, Self::Writer), AcceptFault>
        ensures taken { IfOk result (λ connection. accepts self.old connection.0 connection.1 self.new) }
        ensures refused { OnErr result (refuses self.old self.new) };

    /// Gives a connection back, which ends it.
    fn close(&mut self, reader: Self::Reader, writer: Self::Writer)
        ensures { closes self.old reader writer self.new };
}

/// What it came to that connections were served.
#[derive(Drop)]
pub struct Kept<B, F> {
    /// All were served, or why not.
    pub came: Result<(), F>,
    /// Whether all that was to be told of connections could be written.
    pub is_told: bool,
    /// The engine that served them.
    pub engine: Engine<B>,
}

/// Serves so many connections by one engine, one after the other, and hands the engine back.
///
/// Objects stay between connections, and sessions do not. A connection that ends otherwise than with its input is told by one line on
/// `errors`, and the next is taken. Where no connection can be taken, no further one is.
pub fn serve_connections<B: Wrapper2, C: Connections, E: Sink>(
    alloc: Global,
    engine: Engine<B>,
    connections: &mut C,
    count: u16,
    errors: &mut E,
) -> Kept<B, AcceptFault>
    requires { IsSound (shown B.meaning engine) }
    ensures turns { (turns : List (Turn C.Reader C.Writer)) × (last : C)
        × AreTaken C.accepts C.closes connections.old turns last
        × Ends C.refuses count (length turns) last result.came connections.new
        × AreServed C.Reader.remaining C.Writer.contents (shown B.meaning engine) turns (shown B.meaning result.engine)
        result.is_told (stream (E.contents errors.old) (E.contents errors.new)) }
    ensures sound { IsSound (shown B.meaning result.engine) }
{
    let mut kept = engine;
    let mut is_told = true;
    for _ in 0..count {
        let (mut reader, mut writer) = match connections.accept() {
            Ok(connection) => connection,
            Err(fault) => {
                return Kept {
                    came: Err(fault),
                    is_told,
                    engine: kept,
                };
            }
        };
        let (ended, after) = serve_kept(alloc, kept, &mut reader, &mut writer);
        connections.close(reader, writer);
        kept = after;
        is_told &= tell_run(told(ended), errors).is_ok();
    }
    Kept {
        came: Ok(()),
        is_told,
        engine: kept,
    }
}
