//! What a stream before an engine is answered, in the direct meaning of SQL over worlds.
ghost use Rattle.std.specs.Prelude.{ℕ, List, Option};
ghost use Rattle.med_session.specs.Prelude.{World, Agrees, shown};
ghost use Rattle.med_session.specs.declared.engine.Engine.{Engine};
ghost use Rattle.session_wire.specs.Engines.{EngineSteps, EngineEnds, EngineRises};
ghost use Rattle.session_wire.specs.Run.{Fed, BrokenOff};
ghost use Rattle.session_wire.specs.Worlds.{scene_of, SceneSteps, SceneEnds};

use fdw_api::wishes::Wrapper2;

/// The law of worlds: what a server feeds to an engine is, for each world that agrees with the engine
/// before, a run of worlds over the engine's boxes that leads to the same text, to the boxes of the engine
/// after, and to a world that agrees with it. A source's failure befalls a line only where a box counted a
/// fault in that line, or its count stands at its end after it. So what is fed piece by piece is one run of
/// worlds.
pub fn worlds_follow<W: Wrapper2>()
    ensures fed { (old new : Engine W) (bytes text : List ℕ) (left : Option (List ℕ))
        → Fed (EngineSteps W.meaning) (EngineEnds W.meaning) old bytes text new left
        → (w : World) → Agrees (shown W.meaning old) w
        → (after : World) × Fed SceneSteps SceneEnds
        (scene_of W.meaning old w) bytes text (scene_of W.meaning new after) left
        × Agrees (shown W.meaning new) after }
    ensures broken { (old new : Engine W) (bytes text : List ℕ)
        → BrokenOff (EngineSteps W.meaning) (EngineEnds W.meaning) old bytes text new
        → (w : World) → Agrees (shown W.meaning old) w
        → (after : World) × BrokenOff SceneSteps SceneEnds
        (scene_of W.meaning old w) bytes text (scene_of W.meaning new after)
        × Agrees (shown W.meaning new) after }
{}

/// The law of boxes: while a server feeds an engine no box comes, one goes only idle and for good, what each
/// counts goes up alone, and boxes that rise twice have risen.
pub fn boxes_rise<W: Wrapper2>()
    ensures same { (e : Engine W) → EngineRises W.meaning e e }
    ensures fed { (old new : Engine W) (bytes text : List ℕ) (left : Option (List ℕ))
        → Fed (EngineSteps W.meaning) (EngineEnds W.meaning) old bytes text new left
        → EngineRises W.meaning old new }
    ensures broken { (old new : Engine W) (bytes text : List ℕ)
        → BrokenOff (EngineSteps W.meaning) (EngineEnds W.meaning) old bytes text new
        → EngineRises W.meaning old new }
{}
