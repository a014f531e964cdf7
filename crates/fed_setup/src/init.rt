//! The init file: how it is read, and how its script is replayed.
ghost use Rattle.std.specs.Prelude.{IfOk, IfErr, option_map};
ghost use Rattle.med_session.specs.Prelude.{World, IsSound, Agrees, shown};
ghost use Rattle.session_wire.specs.Worlds.{scene_of};
ghost use Rattle.fed_setup.specs.Setup.{IsReadOf, ReadsNot, ReplaysInit};

use crate::replay;
use crate::surroundings::Surroundings;
use crate::told::{RunFault, replay_told};
use blob_store::disk::DiskFault;
use fdw_api::wishes::Wrapper2;
use med_session::Engine;

/// The bytes of the init file, if one is asked: those that reading its path to its end gives.
///
/// # Errors
///
/// [`RunFault::CannotReadInit`] where it cannot be read, and [`RunFault::NoMemory`] where memory was refused: so ends a file whose bytes
/// have no end.
pub fn read_init<'a, V: Surroundings>(
    rt: &V,
    init: Option<&'a str>,
) -> Result<Option<Vec<u8>>, RunFault<'a>>
    ensures read { IfOk result (λ script. IsReadOf (V.outside rt.now) init.entry (option_map (λ v. v.items) script)) }
    ensures refused { IfErr result (ReadsNot init.entry) }
{
    let Some(path) = init else {
        return Ok(None);
    };
    match rt.script(path) {
        Ok(script) => Ok(Some(script)),
        Err(DiskFault::NoMemory) => Err(RunFault::NoMemory),
        Err(DiskFault::Failed) => Err(RunFault::CannotReadInit(path)),
    }
}

/// Replays the script of the init file, if there is one, as this owner.
///
/// What was done is, for each world that agrees with the engine, the replay of the script from there. A script that is not UTF-8, a line
/// that is refused, and want of memory are told.
pub fn replay_init<'a, W: Wrapper2>(
    engine: &mut Engine<W>,
    owner: &str,
    script: &Option<Vec<u8>>,
) -> Result<(), RunFault<'a>>
    requires { IsSound (shown W.meaning engine.old) }
    ensures sound { IsSound (shown W.meaning engine.new) }
    ensures worlds { (w : World) → Agrees (shown W.meaning engine.old) w
        → (after : World) × ReplaysInit (scene_of W.meaning engine.old w) owner.now (option_map (λ v. v.items) script.now) result
        (scene_of W.meaning engine.new after) × Agrees (shown W.meaning engine.new) after }
{
    match script {
        Some(script) => replay_told(replay(engine, owner, script)),
        None => Ok(()),
    }
}
