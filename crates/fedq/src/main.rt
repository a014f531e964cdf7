//! The program `fedq`: one SQL front over tables that live elsewhere.
#![tactic(auto)]

ghost use Rattle.fed_cli.specs.ProgramExits.{ExitsBy};
ghost use Rattle.fed_setup.specs.Setup.{outside_of};
ghost use Rattle.fed_stream.specs.Streams.{stream};

use blob_store::Disks;
use fdw_api::interface::Wrapper;
use fed_cli::{ArgsFault, Ports, run};
use fed_setup::inputs::ReadsInputs;
use fed_setup::sources::Source;
use sqlite_writes::Databases;
use std::env;
use std::io::{ErrorKind, Read, Write};
use std::process::ExitCode;
use std::rt::Env;
use std::time::Clock;

// The words of the environment.
fn own_words<V: AllocGlobal + Env>(rt: &V) -> Result<Vec<String>, ArgsFault> {
    match env::args(rt) {
        Ok(args) => args.collect(rt.alloc()).map_err(|_| ArgsFault::NoMemory),
        Err(error) if error.kind() == ErrorKind::InvalidData => Err(ArgsFault::NotText),
        Err(_) => Err(ArgsFault::NoMemory),
    }
}

// Runs the program over a runtime, whose allocations, databases, disks, inputs and network it takes: what it finds outside itself is what
// these tell.
fn run_on<
    V: AllocGlobal + Databases + Disks + ReadsInputs + Ports + Clock,
    I: Read,
    O: Write,
    E: Write,
>(
    rt: &V,
    words: Result<Vec<String>, ArgsFault>,
    input: &mut I,
    output: &mut O,
    errors: &mut E,
) -> u8
    ensures { ExitsBy (outside_of V.Store.SourceStore.honest (V.Databases.stands rt.now) (V.Disks.stands rt.now) (V.inputs rt.now))
        ⟦<Source<V> as Wrapper>⟧.meaning V.Stream.remaining V.Stream.contents words result
        (stream (I.remaining input.old) (I.remaining input.new)) (stream (O.contents output.old) (O.contents output.new))
        (stream (E.contents errors.old) (E.contents errors.new)) }
{
    run(rt, words, input, output, errors)
}

fn main(rt: HostRuntime) -> ExitCode {
    let words = own_words(&rt);
    let status = run_on(
        &rt,
        words,
        &mut rt.reader(),
        &mut rt.stdout(),
        &mut rt.stderr(),
    );
    ExitCode::from(status)
}
