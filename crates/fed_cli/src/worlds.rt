//! What a stream served over an engine is, in the direct meaning of SQL over worlds.
ghost use Rattle.std.specs.Prelude.{◌≡◌, ◌++◌, ℕ, List, Option, Result};
ghost use Rattle.session_wire.specs.Exchanges.{Exchange, Exchanged, texts_in, replies_in, texts_of, end_reply};
ghost use Rattle.session_wire.specs.Runs.{KeepsCursors};
ghost use Rattle.med_session.specs.Prelude.{World, Agrees, shown};
ghost use Rattle.med_session.specs.declared.engine.Engine.{Engine};
ghost use Rattle.session_wire.specs.Engines.{EngineSteps, EngineEnds};
ghost use Rattle.session_wire.specs.Lines.{lines_of};
ghost use Rattle.session_wire.specs.Run.{Fed};
ghost use Rattle.session_wire.specs.Worlds.{Scene, scene_of, SceneSteps, SceneEnds};
ghost use Rattle.fed_stream.specs.declared.stream.Ended.{Ended};
ghost use Rattle.fed_stream.specs.declared.stream.StreamFault.{StreamFault};
ghost use Rattle.fed_stream.specs.Served.{Serves};
ghost use Rattle.fed_stream.specs.Streams.{Stream};

use fdw_api::wishes::Wrapper2;
use session_wire::law::cursors_keep_their_tables;
use session_wire::worlds::worlds_follow;

/// The law of worlds: what `serve_stream` answers over an engine is, for each world that agrees with the
/// engine before, what a run of worlds over the engine's boxes answers, and leads to a world that agrees
/// with the engine after. A source's failure befalls a line only where a box counted a fault in that line,
/// or its count stands at its end after it.
pub fn served_worlds_follow<W: Wrapper2>()
    ensures { (old new : Engine W) (before : List ℕ)
        (left : Option (List ℕ)) (input output : Stream) (result : Result Ended StreamFault)
        → Serves (EngineSteps W.meaning) (EngineEnds W.meaning) old before new left input output result
        → (w : World) → Agrees (shown W.meaning old) w
        → (after : World) × Serves SceneSteps SceneEnds (scene_of W.meaning old w) before
        (scene_of W.meaning new after) left input output result
        × Agrees (shown W.meaning new) after }
{
    worlds_follow::<W>();
}

/// The law of leases over what is fed: the lines with their replies are a list, and at each DECLARE in it that was done, the rows that the
/// FETCHes from its cursor gave, joined, begin one answer over the tables as they stood there, and are all of it once one FETCH gave fewer
/// rows than it was asked for.
pub fn fed_cursors_keep_their_tables()
    ensures { (old new : Scene) (bytes text : List ℕ) (left : Option (List ℕ)) → Fed SceneSteps SceneEnds old bytes text new left
        → (es : List Exchange) × (last : Scene) × Exchanged SceneSteps old es last × (texts_in es ≡ texts_of (lines_of bytes))
        × (text ≡ replies_in es ++ end_reply (lines_of bytes)) × KeepsCursors old es last }
{
    cursors_keep_their_tables();
}
