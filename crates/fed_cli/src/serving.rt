//! An engine between a reader and a writer.
ghost use Rattle.std.specs.Prelude.{[]};
ghost use Rattle.session_wire.specs.Engines.{EngineSteps, EngineEnds};
ghost use Rattle.fed_cli.specs.Answered.{ServesWorld};
ghost use Rattle.fed_stream.specs.Known.{Known};
ghost use Rattle.fed_stream.specs.Calls.{ReadsStream, WritesStream};
ghost use Rattle.fed_stream.specs.Prompt.{Prompt, moment, seen};
ghost use Rattle.fed_stream.specs.Streams.{stream};
ghost use Rattle.med_exec.specs.Slots.{states};
ghost use Rattle.med_session.specs.Prelude.{IsSound, Agrees, EachBox, IsAtRest, shown, World};

use crate::worlds::{fed_cursors_keep_their_tables, served_worlds_follow};
use fdw_api::wishes::Wrapper2;
use fed_stream::{Ended, Sink, Source, StreamFault, serve_stream};
use med_session::{Engine, Sources};
use session_wire::Server;
use std::alloc::Global;

/// Serves an input by an engine to its end, as `serve_stream` does, and hands the sources back.
///
/// For each world that agrees with the engine, the bytes that were read lead by a run of the SQL meaning to
/// the text that was written, and to the world that the sources then stand for, whatever pieces the bytes
/// came in. Every scan begun has been ended, and nothing is staged. `NoRoom` comes also where there is no
/// room for a server: then nothing was read. Of the calls of a source and a sink that report them, and of what is answered at each read,
/// it says what `serve_stream` does.
pub fn serve_engine<B: Wrapper2, R: Source, W: Sink>(
    alloc: Global,
    engine: Engine<B>,
    reader: &mut R,
    writer: &mut W,
) -> (Result<Ended, StreamFault>, Sources<B>)
    requires { IsSound (shown B.meaning engine) }
    ensures worlds { (w : World) → Agrees (shown B.meaning engine) w
        → ServesWorld (shown B.meaning engine).boxes (states B.meaning result.1.slots.items) w
        (stream (R.remaining reader.old) (R.remaining reader.new))
        (stream (W.contents writer.old) (W.contents writer.new)) result.0 }
    ensures at_rest { EachBox IsAtRest (states B.meaning result.1.slots.items) }
    ensures reads { Known (R.inlet reader.old) (R.inlet reader.new) (λ old new. ReadsStream old new result.0) }
    ensures writes { Known (W.outlet writer.old) (W.outlet writer.new) (λ old new. WritesStream old new result.0) }
    ensures prompt { (last : Engine B) × Prompt (EngineSteps B.meaning) (EngineEnds B.meaning)
        (seen R.remaining R.inlet W.contents W.outlet) (moment engine [] reader.old writer.old)
        (moment last [] reader.new writer.new) result.0 }
{
    served_worlds_follow::<B>();
    fed_cursors_keep_their_tables();
    let mut server = match Server::new(alloc, engine) {
        Ok(server) => server,
        Err((mut engine, _)) => {
            engine.close_sessions();
            return (Err(StreamFault::NoRoom), engine.finish());
        }
    };
    let ended = serve_stream(alloc, &mut server, reader, writer);
    (ended, server.finish().finish())
}
