//! An engine between a reader and a writer, which is kept.
ghost use Rattle.std.specs.Prelude.{[]};
ghost use Rattle.session_wire.specs.Engines.{EngineSteps, EngineEnds};
ghost use Rattle.fed_stream.specs.Known.{Known};
ghost use Rattle.fed_stream.specs.Calls.{ReadsStream, WritesStream};
ghost use Rattle.fed_stream.specs.Prompt.{Prompt, moment, seen};
ghost use Rattle.fed_stream.specs.Streams.{stream};
ghost use Rattle.fed_cli.specs.Kept.{KeepsServed};
ghost use Rattle.med_session.specs.Prelude.{IsSound, Agrees, shown, World};

use crate::worlds::served_worlds_follow;
use crate::{Ended, StreamFault, serve_stream};
use fdw_api::wishes::Wrapper2;
use fed_stream::{Sink, Source};
use med_session::Engine;
use session_wire::Server;
use std::alloc::Global;

/// Serves an input by an engine to its end, as `serve_stream` does, and hands the engine back with every session closed, so that it can
/// serve the next input. What else the engine has stays: its objects, its sources and their rows.
///
/// For each world that agrees with the engine, the bytes that were read lead by a run of the SQL meaning to the text that was written,
/// and to a world that, with its sessions ended, agrees with the engine that is handed back. `NoRoom` comes also where there is no room
/// for a server: then nothing was read. Of the calls of a source and a sink that report them, and of what is answered at each read, it
/// says what `serve_stream` does.
pub fn serve_kept<B: Wrapper2, R: Source, W: Sink>(
    alloc: Global,
    engine: Engine<B>,
    reader: &mut R,
    writer: &mut W,
) -> (Result<Ended, StreamFault>, Engine<B>)
    requires { IsSound (shown B.meaning engine) }
    ensures worlds { (w : World) → Agrees (shown B.meaning engine) w
        → (after : World) × KeepsServed (shown B.meaning engine) (shown B.meaning result.1) w after
        (stream (R.remaining reader.old) (R.remaining reader.new))
        (stream (W.contents writer.old) (W.contents writer.new)) result.0 }
    ensures sound { IsSound (shown B.meaning result.1) }
    ensures reads { Known (R.inlet reader.old) (R.inlet reader.new) (λ old new. ReadsStream old new result.0) }
    ensures writes { Known (W.outlet writer.old) (W.outlet writer.new) (λ old new. WritesStream old new result.0) }
    ensures prompt { (last : Engine B) × Prompt (EngineSteps B.meaning) (EngineEnds B.meaning)
        (seen R.remaining R.inlet W.contents W.outlet) (moment engine [] reader.old writer.old)
        (moment last [] reader.new writer.new) result.0 }
{
    served_worlds_follow::<B>();
    let mut server = match Server::new(alloc, engine) {
        Ok(server) => server,
        Err((mut engine, _)) => {
            engine.close_sessions();
            return (Err(StreamFault::NoRoom), engine);
        }
    };
    let ended = serve_stream(alloc, &mut server, reader, writer);
    (ended, server.finish())
}
