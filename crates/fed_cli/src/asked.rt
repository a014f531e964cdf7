//! The program: what it serves, and how it ends.
ghost use Rattle.std.specs.Prelude.{◌≡◌, ◌<◌, Err, None, map, string_bytes};
ghost use Rattle.med_session.specs.Requests.{IsUser};
ghost use Rattle.fed_cli.specs.Exits.{TellsRun};
ghost use Rattle.fed_stream.specs.Streams.{stream};
ghost use Rattle.fed_cli.specs.Told.{run_status};
ghost use Rattle.fed_cli.specs.ProgramExits.{Exits, ExitsBy, ServesAsked, WritesListened, listen_status};

use crate::listening::Ports;
use crate::program::run_asked;
use crate::telling::{tell_run, tell_words};
use crate::told::status;
use crate::{ListenFault, listen_and_serve};
use fed_setup::program::{NotBegun, begin};
use fed_setup::surroundings::Surroundings;
use fed_stream::{GivenUp, Sink, write_front, write_line};
use fed_words::words::{AskedRun, Service, read_words};
use itoa::Buffer;
use med_session::Sources;
use std::io::{Read, Write};
use std::time::Clock;

/// How the program exits.
#[derive(Drop)]
pub struct Exit<W> {
    /// The exit status.
    pub status: u8,
    /// Whether each message of the program could be written whole.
    pub is_told: bool,
    /// The bytes of the init file, if they were read.
    pub script: Option<Vec<u8>>,
    /// The sources that were served, handed back.
    pub sources: Option<Sources<W>>,
}

// Tells on standard error what it came to that connections were served, by one line if not all were.
fn tell_listened<E: Sink>(came: Result<(), ListenFault>, errors: &mut E) -> Result<(), GivenUp>
    ensures { WritesListened came result (E.contents errors.old) (E.contents errors.new) (E.outlet errors.old) (E.outlet errors.new) }
{
    match came {
        Ok(()) => Ok(()),
        Err(ListenFault::CannotListen(port)) => {
            let mut digits = Buffer::new();
            write_line(errors, &["cannot listen on port ", digits.format(port)])
        }
        Err(ListenFault::Write) => write_line(errors, &["write fault"]),
        Err(ListenFault::Accept) => write_line(errors, &["accept fault"]),
    }
}

// The exit status of a program that served connections and came to this.
fn listen_status(came: Result<(), ListenFault>) -> u8
    ensures { result ≡ listen_status came }
{
    match came {
        Ok(()) => 0,
        Err(_) => 1,
    }
}

// How a program exits that did not begin, and tells why.
fn not_begun<'a, W: Drop, E: Sink>(refused: NotBegun<'a>, errors: &mut E) -> Exit<W>
    ensures told { TellsRun (Err refused.entry.fault) result.is_told (stream (E.contents errors.old) (E.contents errors.new)) }
    ensures status { result.status ≡ run_status (Err refused.entry.fault) }
    ensures script { result.script ≡ refused.entry.script }
    ensures sources { result.sources ≡ None }
{
    let is_told = tell_run(Err(refused.fault), errors).is_ok();
    Exit {
        status: status(Err(refused.fault)),
        is_told,
        script: refused.script,
        sources: None,
    }
}

/// Serves this number of connections to a port for what is asked: it begins as `begin` says, and then the connections are served as
/// `listen_and_serve` does. If not all were served, one line on the second output says why.
///
/// Where it does not begin, nothing is listened to and nothing is written to the first output.
pub fn serve_asked<V: AllocGlobal + Surroundings + Ports + Clock, O: Write, E: Write>(
    rt: &V,
    asked: AskedRun<'_>,
    port: u16,
    count: u16,
    output: &mut O,
    errors: &mut E,
) -> Exit<V::Source>
    requires owner { IsUser asked.owner.now }
    requires port { 0 < port }
    ensures { ServesAsked (V.outside rt.now) V.Source.meaning
        V.Stream.remaining V.Stream.contents asked.entry port count result (stream (O.contents output.old) (O.contents output.new))
        (stream (E.contents errors.old) (E.contents errors.new)) }
{
    let begun = match begin(rt, &asked) {
        Ok(begun) => begun,
        Err(refused) => return not_begun(refused, errors),
    };
    let kept = listen_and_serve(rt, begun.engine, port, count, output, errors);
    let is_told = tell_listened(kept.came, errors).is_ok();
    Exit {
        status: listen_status(kept.came),
        is_told: kept.is_told & is_told,
        script: begun.script,
        sources: Some(kept.engine.finish()),
    }
}

/// Does what the program's words ask: it answers an input on an output, or connections to a port, or prints help on the output, and tells
/// on a second output how it failed.
pub fn run_words<V: AllocGlobal + Surroundings + Ports + Clock, I: Read, O: Write, E: Write>(
    rt: &V,
    words: &[String],
    input: &mut I,
    output: &mut O,
    errors: &mut E,
) -> Exit<V::Source>
    ensures { Exits (V.outside rt.now) V.Source.meaning
        V.Stream.remaining V.Stream.contents (map string_bytes words.now) result
        (stream (I.remaining input.old) (I.remaining input.new)) (stream (O.contents output.old) (O.contents output.new))
        (stream (E.contents errors.old) (E.contents errors.new)) }
{
    let asked = match read_words(rt.alloc(), words) {
        Ok(asked) => asked,
        Err(fault) => {
            let is_told = tell_words(&fault, output, errors).is_ok();
            let refused = fault.told_status(is_told);
            return Exit {
                status: refused,
                is_told,
                script: None,
                sources: None,
            };
        }
    };
    match asked.service {
        Service::Connections { port, count } => {
            serve_asked(rt, asked, port, count, output, errors)
        }
        Service::StandardInput => {
            let ran = run_asked(rt, asked, input, output);
            let is_told = tell_run(ran.came, errors).is_ok();
            let status = status(ran.came);
            Exit {
                status,
                is_told,
                script: ran.script,
                sources: ran.sources,
            }
        }
    }
}

/// Why the environment gives no words.
#[derive(Clone, Copy, Debug, PartialEq, Eq)]
pub enum ArgsFault {
    /// A word is no text.
    NotText,
    /// Memory was refused.
    NoMemory,
}

/// Runs the program with these words, and gives its exit status: 0 where the input ended or the help that was asked was written, 2 where
/// the words are refused, and 1 else, with one line on standard error, but for help that could not be written.
pub fn run<V: AllocGlobal + Surroundings + Ports + Clock, I: Read, O: Write, E: Write>(
    rt: &V,
    words: Result<Vec<String>, ArgsFault>,
    input: &mut I,
    output: &mut O,
    errors: &mut E,
) -> u8
    ensures { ExitsBy (V.outside rt.now) V.Source.meaning V.Stream.remaining V.Stream.contents words result
        (stream (I.remaining input.old) (I.remaining input.new)) (stream (O.contents output.old) (O.contents output.new))
        (stream (E.contents errors.old) (E.contents errors.new)) }
{
    match words {
        Ok(words) => run_words(rt, &words, input, output, errors).status,
        Err(ArgsFault::NotText) => {
            let _ = write_front(
                errors,
                b"error: invalid UTF-8 was detected in one or more arguments\n",
            );
            2
        }
        Err(ArgsFault::NoMemory) => {
            let _ = write_front(errors, b"fedq: out of memory\n");
            1
        }
    }
}
