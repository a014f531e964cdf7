//! The replay of a script.
ghost use Rattle.std.specs.Prelude.{◌≡◌, None, IfErr, OnOk};
ghost use Rattle.med_session.specs.Prelude.{asked, World, IsSound, Agrees, shown};
ghost use Rattle.med_world.specs.Seats.{user_of};
ghost use Rattle.session_wire.specs.Engines.{EngineRises};
ghost use Rattle.session_wire.specs.Worlds.{scene_of};
ghost use Rattle.fed_setup.specs.Scripts.{statement_lines};
ghost use Rattle.fed_setup.specs.Replays.{session, IsDone, Ends, Runs, Replays};
ghost use Rattle.fed_setup.specs.Engines.{EngineAnswers, EngineCloses, SceneAnswers, SceneCloses};

use crate::lines::{is_blank, next_line};
use fdw_api::wishes::Wrapper2;
use med_session::{Engine, Request, Sid};
use med_statements::Outcome;
use med_value::Cause;
use thiserror::Error;

/// Why a replay ended before the end of its script.
#[derive(Clone, Copy, Debug, PartialEq, Eq, Error)]
pub enum ScriptFault {
    /// Memory was refused.
    #[error("out of memory")]
    NoMemory,
    /// The script is not UTF-8. Nothing of it was run.
    #[error("not UTF-8")]
    NotText,
    /// The line of this number was refused with this cause, which is not want of memory. The lines before it stay done. Number 0 stands for
    /// the opening of the session.
    #[error("line {0}: {code} {name}", code = .1.code(), name = .1.name())]
    Line(u64, Cause),
}

/// Runs each line of a script that has more than spaces and TABs as a statement of this user in session 64, up to the first that is
/// refused, and answers how many lines ran.
///
/// A line ends in LF or with the script, and one CR at its end is dropped. All lines are counted from 1. The session is opened first and
/// closed at the end, also after a refusal; the lines before a refused one stay done. No reply is written. Where the session is open
/// before, or this is no user, the opening is refused.
///
/// `NotText` exactly where the script is not UTF-8: then nothing is done. `NoMemory` where a request is answered 53200. What was done is
/// the same run of each world that agrees with the engine before.
pub fn replay<W: Wrapper2>(
    engine: &mut Engine<W>,
    owner: &str,
    script: &[u8],
) -> Result<u64, ScriptFault>
    requires { IsSound (shown W.meaning engine.old) }
    ensures sound { IsSound (shown W.meaning engine.new) }
    ensures replays { Replays (EngineAnswers W.meaning) (EngineCloses W.meaning) engine.old owner.now script.now result engine.new }
    ensures worlds { (w : World) → Agrees (shown W.meaning engine.old) w
        → (after : World) × Replays SceneAnswers SceneCloses (scene_of W.meaning engine.old w) owner.now script.now result
        (scene_of W.meaning engine.new after) × Agrees (shown W.meaning engine.new) after
        × (user_of (shown W.meaning engine.old).seats session ≡ None → after.sessions session ≡ None) }
    ensures rises { EngineRises W.meaning engine.old engine.new }
{
    let Ok(text) = str::from_utf8(script) else {
        return Err(ScriptFault::NotText);
    };
    let ran = run(engine, owner, text);
    engine.close_session(Sid { number: 64 });
    ran
}

// Opens the session, and runs the statements of a script in it.
fn run<W: Wrapper2>(engine: &mut Engine<W>, owner: &str, script: &str) -> Result<u64, ScriptFault>
    requires { IsSound (shown W.meaning engine.old) }
    ensures sound { IsSound (shown W.meaning engine.new) }
    ensures runs { Runs (EngineAnswers W.meaning) engine.old owner.now (statement_lines script.now) result engine.new }
{
    request(engine, 0, Request::Open(owner))?;
    let mut rest = Some(script);
    let mut number = 0;
    let mut count = 0;
    while let Some(text) = rest {
        let (line, after) = next_line(text);
        rest = after;
        number += 1;
        if !is_blank(line) {
            request(engine, number, Request::Sql(line))?;
            count += 1;
        }
    }
    Ok(count)
}

// Does one request of a replay, of the line of this number.
fn request<W: Wrapper2>(
    engine: &mut Engine<W>,
    number: u64,
    request: Request<'_>,
) -> Result<(), ScriptFault>
    requires { IsSound (shown W.meaning engine.old) }
    ensures sound { IsSound (shown W.meaning engine.new) }
    ensures done { OnOk result (IsDone (EngineAnswers W.meaning) engine.old (asked request.entry) engine.new) }
    ensures ends { IfErr result (λ why. Ends (EngineAnswers W.meaning) engine.old (number, asked request.entry) why engine.new) }
{
    match engine.answer(Sid { number: 64 }, request) {
        Outcome::Refused(Cause::OutOfMemory) => Err(ScriptFault::NoMemory),
        Outcome::Refused(cause) => Err(ScriptFault::Line(number, cause)),
        _ => Ok(()),
    }
}
