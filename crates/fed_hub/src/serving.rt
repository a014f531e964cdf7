//! An engine before many connections at once.
ghost use Rattle.std.specs.Prelude.{List};
ghost use Rattle.med_session.specs.Prelude.{World, Agrees, IsSound, shown};
ghost use Rattle.med_session.specs.declared.engine.Engine.{Engine};
ghost use Rattle.session_wire.specs.Engines.{EngineSteps};
ghost use Rattle.session_wire.specs.Exchanges.{Exchange, Exchanged};
ghost use Rattle.session_wire.specs.Worlds.{scene_of, SceneSteps};
ghost use Rattle.fed_hub.specs.Worlds.{ServesWorlds};

use crate::hub::{HubEnd, HubFault, serve_peers};
use crate::peers::{Peer, Peers};
use fdw_api::wishes::Wrapper2;
use med_session::Engine;
use session_wire::law::cursors_keep_their_tables;
use std::alloc::Global;

/// The law of worlds: request lines that lead by steps from engine to engine lead, from each world that agrees with the first, by steps of
/// the SQL meaning over the engine's boxes to a world that agrees with the last.
pub fn exchanged_worlds_follow<W: Wrapper2>()
    ensures { (old new : Engine W) (es : List Exchange) → Exchanged (EngineSteps W.meaning) old es new
        → (w : World) → Agrees (shown W.meaning old) w
        → (after : World) × Exchanged SceneSteps (scene_of W.meaning old w) es (scene_of W.meaning new after)
        × Agrees (shown W.meaning new) after }
{}

/// Serves this number of connections by an engine, up to 256 of them at once, each as one session, as `serve_peers` does.
///
/// For each world that agrees with the engine, the lines of all connections with their replies are one list that leads by steps of the SQL
/// meaning to a world that agrees with the engine after; of each session it has the lines of the connections that were this session, and
/// after each of them its closing. Each cursor keeps its tables over the lines of all, and its FETCHes give one answer.
pub fn serve_hub<B: Wrapper2, C: Peers>(
    alloc: Global,
    engine: &mut Engine<B>,
    peers: &mut C,
    count: u32,
) -> Result<HubEnd, HubFault>
    requires { IsSound (shown B.meaning engine.old) }
    ensures worlds { ServesWorlds B.meaning C.Peer.remaining C.Peer.contents engine.old engine.new }
    ensures sound { IsSound (shown B.meaning engine.new) }
{
    exchanged_worlds_follow::<B>();
    cursors_keep_their_tables();
    serve_peers(alloc, engine, peers, count)
}
