//! The laws of cursors over runs of lines: each is the contract of a function that does nothing.

ghost use Rattle.std.specs.Prelude.{◌≡◌, ℕ, List, [], ◌∷◌, ◌++◌, Some};
ghost use Rattle.med_syntax.specs.Prelude.{Name, SelectTree};
ghost use Rattle.sql_meaning.specs.Prelude.{IsSid, Session, Cursor, cursor_named, new_cursor};
ghost use Rattle.session_wire.specs.Lines.{Lines};
ghost use Rattle.session_wire.specs.Run.{Run, RunFront};
ghost use Rattle.session_wire.specs.Worlds.{Scene, SceneSteps, SceneEnds};
ghost use Rattle.session_wire.specs.Exchanges.{Exchange, Exchanged, texts_in, replies_in, texts_of, end_reply};
ghost use Rattle.session_wire.specs.Fetching.{Declares, GivesOneAnswer};
ghost use Rattle.session_wire.specs.Leases.{KeepsRows, KeepsLeased};
ghost use Rattle.session_wire.specs.Runs.{KeepsCursors};

use med_parser::one_tree;
use med_world::law::fetches_join;

/// Among the lines of any sessions, the FETCHes from one session's cursor give one answer, where it reads no shared source: from a scene in
/// which the session has the cursor and it has handed nothing out, and from a DECLARE on that was done. Writes, statements on objects and
/// other cursors may stand between.
pub fn fetches_give_one_answer()
    ensures open { (old new : Scene) (es : List Exchange) (sid : ℕ) (s : Session) (c : Cursor) → Exchanged SceneSteps old es new
        → old.world.sessions sid ≡ Some s → cursor_named c.name s ≡ Some c → c.handed ≡ [] → GivesOneAnswer sid c es }
    ensures declared { (old new : Scene) (e : Exchange) (es : List Exchange) (sid : ℕ) (name : Name) (q : SelectTree)
        → Exchanged SceneSteps old (e ∷ es) new → Declares sid name q e → GivesOneAnswer sid (new_cursor old.world name q) es }
{
    one_tree();
    fetches_join();
}

/// Leased tables stay: while a cursor is open, each foreign table that it reads stands with the rows with which it stood, since no write to
/// it and no DROP of it is done; from a DECLARE on that was done these are the rows that the cursor reads. The lines are of any sessions.
pub fn leased_tables_stay()
    ensures open { (old new : Scene) (es : List Exchange) (sid : ℕ) (s : Session) (c : Cursor) → IsSid sid → Exchanged SceneSteps old es new
        → old.world.sessions sid ≡ Some s → cursor_named c.name s ≡ Some c → KeepsRows old es new sid c }
    ensures declared { (old new : Scene) (e : Exchange) (es : List Exchange) (sid : ℕ) (name : Name) (q : SelectTree)
        → Exchanged SceneSteps old (e ∷ es) new → Declares sid name q e → KeepsLeased old es new sid (new_cursor old.world name q) }
{
    one_tree();
}

/// The law of leases: a run of the lines of all sessions is a list of lines with their replies, whose replies joined are those of the run;
/// and at each DECLARE in it that was done, the rows that the FETCHes from its cursor gave, joined, begin one answer over the tables as
/// they stood there, and are all of it once one FETCH gave fewer rows than it was asked for, where it reads no shared source; and as long
/// as the cursor is open, behind each line these tables have the rows that it reads. This holds of each list of lines with their replies
/// that leads from scene to scene, whichever it is.
pub fn cursors_keep_their_tables()
    ensures each { (old new : Scene) (es : List Exchange) → Exchanged SceneSteps old es new → KeepsCursors old es new }
    ensures run { (old new : Scene) (lines : Lines) (replies : List ℕ) → Run SceneSteps SceneEnds old lines replies new
        → (es : List Exchange) × (last : Scene) × Exchanged SceneSteps old es last × (texts_in es ≡ texts_of lines)
        × (replies ≡ replies_in es ++ end_reply lines) × KeepsCursors old es last }
    ensures front { (old new : Scene) (lines : Lines) (replies : List ℕ) → RunFront SceneSteps old lines replies new
        → (es : List Exchange) × (unread : List (List ℕ)) × Exchanged SceneSteps old es new × (texts_of lines ≡ texts_in es ++ unread)
        × (replies ≡ replies_in es) × KeepsCursors old es new }
{
    fetches_give_one_answer();
    leased_tables_stay();
}
