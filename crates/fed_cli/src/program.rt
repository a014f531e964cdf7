//! A run of the program.
ghost use Rattle.std.specs.Prelude.{◌≡◌, Err, None, option_map};
ghost use Rattle.med_session.specs.Requests.{IsUser};
ghost use Rattle.fed_cli.specs.Exits.{Runs};
ghost use Rattle.fed_stream.specs.Streams.{stream};

use crate::serving::serve_engine;
use crate::told::told;
use fed_setup::program::begin;
use fed_setup::surroundings::Surroundings;
use fed_setup::told::RunFault;
use fed_words::words::AskedRun;
use med_session::Sources;
use std::io::{Read, Write};

/// What a run came to.
#[derive(Drop)]
pub struct Ran<'a, W> {
    /// The end of its input, or a fault.
    pub came: Result<(), RunFault<'a>>,
    /// The bytes of the init file, if they were read.
    pub script: Option<Vec<u8>>,
    /// The sources that were served, handed back: none where the run did not begin.
    pub sources: Option<Sources<W>>,
}

impl<'a, W: Drop> Ran<'a, W> {
    // A run that did not begin.
    fn not_begun(fault: RunFault<'a>, script: Option<Vec<u8>>) -> Self
        ensures came { result.came ≡ Err fault.entry }
        ensures script { result.script ≡ script }
        ensures sources { result.sources ≡ None }
    {
        Ran {
            came: Err(fault),
            script,
            sources: None,
        }
    }
}

/// Answers the request lines of an input: it begins as `begin` says, and then the input is served.
///
/// Where it does not begin, nothing of the input is read and nothing is written.
pub fn run_asked<'a, V: AllocGlobal + Surroundings, R: Read, W: Write>(
    rt: &V,
    asked: AskedRun<'a>,
    reader: &mut R,
    writer: &mut W,
) -> Ran<'a, V::Source>
    requires { IsUser asked.owner.now }
    ensures { Runs (V.outside rt.now) V.Source.meaning asked.entry result.came (option_map (λ v. v.items) result.script) result.sources
        (stream (R.remaining reader.old) (R.remaining reader.new)) (stream (W.contents writer.old) (W.contents writer.new)) }
{
    let begun = match begin(rt, &asked) {
        Ok(begun) => begun,
        Err(refused) => return Ran::not_begun(refused.fault, refused.script),
    };
    let (ended, sources) = serve_engine(rt.alloc(), begun.engine, reader, writer);
    Ran {
        came: told(ended),
        script: begun.script,
        sources: Some(sources),
    }
}
