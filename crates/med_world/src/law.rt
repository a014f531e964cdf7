//! The laws of requests: each is the contract of a function that does nothing. A request leads from what an engine shows before it to what
//! it shows after it, for every world that agrees.
#![tactic(auto)]

ghost use Rattle.std.specs.Prelude.{◌≡◌, ◌-◌, ◌⊎◌, ℕ, Bool, true, false, List, [], ◌∷◌, ◌++◌, Contains, Option, Some, None, is_some, length, slice_get, slice_set, replicate, codes};
ghost use Rattle.med_value.specs.Prelude.{Tuple, session_count};
ghost use Rattle.med_value.specs.declared.cause.Cause.{Cause as AnyCause};
ghost use Rattle.med_value.specs.declared.cause.Cause.TheVariants.{OutOfMemory, Protocol, NoConnection, InUse, DuplicateCursor, InvalidCursorName};
ghost use Rattle.med_syntax.specs.Prelude.{Name, SelectTree, select, DdlTree, WriteTree, CountTree, CursorTree, declare, fetch, close};
ghost use Rattle.med_query.specs.Query.{IsAnswer};
ghost use Rattle.bind_write.specs.Meaning.{target_of};
ghost use Rattle.med_parser.specs.CommandTree.{on_data, on_rows, on_cursors, on_objects};
ghost use Rattle.med_parser.specs.CommandCauses.{SyntaxCauses};
ghost use Rattle.fdw_api.specs.Prelude.{BoxState, IsIdle, CanBind, CanUnbind, NoScan};
ghost use Rattle.med_exec.specs.Prelude.{BoxAt, ServesRun, none_held};
ghost use Rattle.med_exec.specs.declared.running.Run.{Run};
ghost use Rattle.med_world.specs.Open.{Opened, Seated, is_full, opened_named, without_named, with_run, held_by, AreHeld, AreOwn, all_cursors};
ghost use Rattle.med_world.specs.Starting.{Starts, StartFails};
ghost use Rattle.med_world.specs.Fetching.{GivesRows, GivesNone, HasRisen, PullsFetched, PullsEnded};
ghost use Rattle.med_catalog.specs.Prelude.{TableObject, Objects, ObjectChange, new_table, no_table, no_server, Asks};
ghost use Rattle.med_catalog.specs.DdlCauses.{IsTold as IsToldBy, NoneStands, nothing_leased, ddl_rows};
ghost use Rattle.med_catalog.specs.declared.kind.SourceKind.{SourceKind as AnyKind};
ghost use Rattle.med_binder.specs.Places.{Attached};
ghost use Rattle.sql_meaning.specs.Prelude.{IsTold, Pick, AskedLine, opening, sql, bye, IsSid, IsUser, World, Cursor, with_source, empty_world, rows_leased, Fetched, AreFetched, IsLast, rows_fetched, done, answered, refused, TakesMemory, write_tag, ddl_tag};
ghost use Rattle.med_world.specs.Seats.{seat_of, user_of, new_seat};
ghost use Rattle.med_world.specs.Engine.{Shown, leased, EachBox, IsAtRest, IsSound, IsServerAt, TakesAs, state_of, Agrees, Leads, Closes, ClosesAll};
ghost use Rattle.med_world.specs.Turning.{new_opened, with_cursors, having_asked, IsOfOpen, Ends};
ghost use Rattle.med_world.specs.Altering.{IsAllowed, IsAltered, NotAltered};
ghost use Rattle.med_world.specs.Selecting.{Selects, SelectFails};
ghost use Rattle.med_world.specs.Writing.{IsTargetAt, WritesRows, WriteFails};
ghost use Rattle.med_world.specs.Adding.{Adds};
ghost use Rattle.med_world.specs.Laws.{IsRead, with_seats, with_boxes, empty_shown};

use fdw_api::law::tables_stay_sound;

/// An engine without objects and sources, whose sessions are closed, is sound, and stands for the empty world.
pub fn engines_begin()
    ensures sound { (owner : Name) (seats : List (Option Seated)) → IsUser owner → seats ≡ replicate session_count None
        → IsSound (empty_shown owner seats) }
    ensures agrees { (owner : Name) (seats : List (Option Seated)) → seats ≡ replicate session_count None
        → Agrees (empty_shown owner seats) (empty_world owner) }
{}

/// A source that is added leaves an engine sound, and in agreement with the worlds that have it too: shared where its box is not honest.
pub fn sources_are_added()
    ensures sound { (e n : Shown) (name : List ℕ) (kind : AnyKind) (b : BoxState) → Adds e name kind b n → IsSound e → IsIdle b
        → TakesAs kind b → IsSound n }
    ensures agrees { (e n : Shown) (name : List ℕ) (kind : AnyKind) (b : BoxState) → Adds e name kind b n → IsSound e → IsIdle b
        → (w : World) → Agrees e w → Agrees n (with_source w name kind (state_of (Some b))) }
{
    tables_stay_sound();
}

/// OPEN and BYE: by a session's being open, and the user's name; and any request but BYE for which memory is refused. BYE ends the runs of
/// the session's cursors.
pub fn sessions_lead()
    ensures opened { (e : Shown) (sid : ℕ) (user : Name) → IsSid sid → IsUser user → length e.seats ≡ session_count
        → is_some (user_of e.seats sid) ≡ false
        → Leads e sid (opening user) (done (codes "OPEN")) (with_seats e (slice_set e.seats (sid - 1) (Some (new_seat user)))) }
    ensures not_opened { (e : Shown) (sid : ℕ) (user : Name) → IsSid sid → (is_some (user_of e.seats sid) ≡ true) ⊎ (IsUser user → ⊥)
        → Leads e sid (opening user) (refused Protocol) e }
    ensures closed { (e : Shown) (new : List (Option BoxState)) (sid : ℕ) (seat : Seated) → IsSid sid → length e.seats ≡ session_count
        → seat_of e.seats sid ≡ Some seat → ServesRun (held_by seat.cursors) none_held e.boxes new
        → Leads e sid bye (done (codes "BYE")) (with_boxes (with_seats e (slice_set e.seats (sid - 1) None)) new) }
    ensures not_closed { (e : Shown) (sid : ℕ) → IsSid sid → is_some (user_of e.seats sid) ≡ false
        → Leads e sid bye (refused NoConnection) e }
    ensures no_memory { (e : Shown) (sid : ℕ) (request : AskedLine) → TakesMemory request → Leads e sid request (refused OutOfMemory) e }
    ensures opened_sound { (e : Shown) (sid : ℕ) (user : Name) → IsSid sid → IsSound e → is_some (user_of e.seats sid) ≡ false
        → IsSound (with_seats e (slice_set e.seats (sid - 1) (Some (new_seat user)))) }
    ensures closed_sound { (e : Shown) (new : List (Option BoxState)) (sid : ℕ) (seat : Seated) → IsSid sid → IsSound e
        → seat_of e.seats sid ≡ Some seat → ServesRun (held_by seat.cursors) none_held e.boxes new
        → IsSound (with_boxes (with_seats e (slice_set e.seats (sid - 1) None)) new) }
{}

/// Sessions that are closed without a request: one that is open, one that is not, and all. The runs of their cursors are ended.
pub fn sessions_end()
    ensures one { (e : Shown) (new : List (Option BoxState)) (sid : ℕ) (seat : Seated) → IsSid sid → length e.seats ≡ session_count
        → seat_of e.seats sid ≡ Some seat → ServesRun (held_by seat.cursors) none_held e.boxes new
        → Closes e sid (with_boxes (with_seats e (slice_set e.seats (sid - 1) None)) new) }
    ensures none { (e : Shown) (sid : ℕ) → IsSid sid → length e.seats ≡ session_count
        → seat_of e.seats sid ≡ None → Closes e sid (with_seats e (slice_set e.seats (sid - 1) None)) }
    ensures all { (e : Shown) (new : List (Option BoxState)) (seats : List (Option Seated)) → seats ≡ replicate session_count None
        → ServesRun (held_by (all_cursors e.seats)) none_held e.boxes new → ClosesAll e (with_boxes (with_seats e seats) new) }
    ensures one_sound { (e : Shown) (new : List (Option BoxState)) (sid : ℕ) (seat : Seated) → IsSid sid → IsSound e
        → seat_of e.seats sid ≡ Some seat → ServesRun (held_by seat.cursors) none_held e.boxes new
        → IsSound (with_boxes (with_seats e (slice_set e.seats (sid - 1) None)) new) }
    ensures none_sound { (e : Shown) (sid : ℕ) → IsSid sid → IsSound e → seat_of e.seats sid ≡ None
        → IsSound (with_seats e (slice_set e.seats (sid - 1) None)) }
    ensures all_sound { (e : Shown) (new : List (Option BoxState)) (seats : List (Option Seated)) → IsSound e
        → seats ≡ replicate session_count None → ServesRun (held_by (all_cursors e.seats)) none_held e.boxes new
        → IsSound (with_boxes (with_seats e seats) new) }
    ensures at_rest { (e : Shown) → IsSound e → e.seats ≡ replicate session_count None → EachBox IsAtRest e.boxes }
{}

/// The cursors of an open session, and those of all, may be closed one after the other: each scan that they hold is live, and is held once.
pub fn cursors_may_close()
    ensures one { (e : Shown) (sid : ℕ) (seat : Seated) → IsSound e → seat_of e.seats sid ≡ Some seat
        → AreHeld seat.cursors e.boxes × AreOwn seat.cursors }
    ensures all { (e : Shown) → IsSound e → AreHeld (all_cursors e.seats) e.boxes × AreOwn (all_cursors e.seats) }
{}

/// A statement of a session that is not open, and a text that is not read.
pub fn statements_are_refused()
    ensures not_open { (e : Shown) (sid : ℕ) (text : List ℕ) → IsSid sid → is_some (user_of e.seats sid) ≡ false
        → Leads e sid (sql text) (refused NoConnection) e }
    ensures not_read { (e : Shown) (sid : ℕ) (text : List ℕ) (c : AnyCause) → IsSid sid → is_some (user_of e.seats sid) ≡ true
        → (c ≡ OutOfMemory) ⊎ SyntaxCauses text c → Leads e sid (sql text) (refused c) e }
{
    med_binder::law::causes_have_their_phase();
    med_catalog::law::causes_have_their_phase();
    bind_write::parts_law::causes_have_their_phase();
}

/// Where a cause of syntax stands against a text, what is picked does not matter: the cause that is told under one pick is told under every
/// other. So that a pick is owed of well formed texts alone takes no cause away and adds none.
pub fn syntax_asks_no_pick()
    ensures { (w : World) (sid : ℕ) (p q : Pick) (text : List ℕ) (x c : AnyCause) → SyntaxCauses text x → IsTold w sid p (sql text) c
        → IsTold w sid q (sql text) c }
{
    med_binder::law::causes_have_their_phase();
    med_catalog::law::causes_have_their_phase();
    bind_write::parts_law::causes_have_their_phase();
}

/// A query that is answered, or refused.
pub fn queries_lead()
    ensures answered { (e : Shown) (new : List (Option BoxState)) (sid : ℕ) (text : List ℕ) (user : Name) (q : SelectTree)
        (names : List Name) (given : List Tuple) → IsRead e sid text user (on_data (select q)) → IsSound e
        → Selects e.catalog user e.bound q e.boxes names given new
        → Leads e sid (sql text) (answered (codes "SELECT") names given) (with_boxes e new) }
    ensures refused { (e : Shown) (new : List (Option BoxState)) (sid : ℕ) (text : List ℕ) (user : Name) (q : SelectTree) (c : AnyCause)
        → IsRead e sid text user (on_data (select q)) → IsSound e → SelectFails e.catalog user e.bound q e.boxes c new
        → Leads e sid (sql text) (refused c) (with_boxes e new) }
    ensures answered_sound { (e : Shown) (new : List (Option BoxState)) (user : Name) (q : SelectTree) (names : List Name)
        (given : List Tuple) → IsSound e → Selects e.catalog user e.bound q e.boxes names given new → IsSound (with_boxes e new) }
    ensures refused_sound { (e : Shown) (new : List (Option BoxState)) (user : Name) (q : SelectTree) (c : AnyCause)
        → IsSound e → SelectFails e.catalog user e.bound q e.boxes c new → IsSound (with_boxes e new) }
{
    med_binder::law::causes_have_their_phase();
}

/// A statement that writes rows, done or refused.
pub fn writes_lead()
    ensures done { (e : Shown) (new : List (Option BoxState)) (sid : ℕ) (text : List ℕ) (user : Name) (t : WriteTree) (count : ℕ)
        → IsRead e sid text user (on_rows t) → IsSound e → WritesRows e.catalog user e.bound t (leased e (target_of t)) e.boxes count new
        → Leads e sid (sql text) (done (write_tag t count)) (with_boxes e new) }
    ensures refused { (e : Shown) (new : List (Option BoxState)) (sid : ℕ) (text : List ℕ) (user : Name) (t : WriteTree) (c : AnyCause)
        → IsRead e sid text user (on_rows t) → IsSound e → WriteFails e.catalog user e.bound t (leased e (target_of t)) e.boxes c new
        → Leads e sid (sql text) (refused c) (with_boxes e new) }
    ensures done_sound { (e : Shown) (new : List (Option BoxState)) (user : Name) (t : WriteTree) (count : ℕ)
        → IsSound e → WritesRows e.catalog user e.bound t (leased e (target_of t)) e.boxes count new → IsSound (with_boxes e new) }
    ensures refused_sound { (e : Shown) (new : List (Option BoxState)) (user : Name) (t : WriteTree) (c : AnyCause)
        → IsSound e → WriteFails e.catalog user e.bound t (leased e (target_of t)) e.boxes c new → IsSound (with_boxes e new) }
{
    bind_write::parts_law::causes_have_their_phase();
}

/// DECLARE, FETCH and CLOSE, done or refused. A FETCH that fails takes its cursor away.
pub fn cursors_lead()
    ensures declared { (e : Shown) (new : List (Option BoxState)) (sid : ℕ) (text : List ℕ) (seat : Seated) (name : Name) (q : SelectTree)
        (names : List Name) (run : Run) → IsRead e sid text seat.user (on_cursors (declare name (select q)))
        → seat_of e.seats sid ≡ Some seat → IsSound e → opened_named name seat.cursors ≡ None
        → Starts e.catalog seat.user e.bound q (is_full seat.cursors) e.boxes names run new
        → Leads e sid (sql text) (done (codes "DECLARE CURSOR"))
        (with_cursors e sid seat (seat.cursors ++ new_opened name names q run ∷ []) new) }
    ensures not_declared { (e : Shown) (new : List (Option BoxState)) (sid : ℕ) (text : List ℕ) (seat : Seated) (name : Name)
        (q : SelectTree) (c : AnyCause) → IsRead e sid text seat.user (on_cursors (declare name (select q)))
        → seat_of e.seats sid ≡ Some seat → IsSound e → opened_named name seat.cursors ≡ None
        → StartFails e.catalog seat.user e.bound q (is_full seat.cursors) e.boxes c new
        → Leads e sid (sql text) (refused c) (with_boxes e new) }
    ensures exists { (e : Shown) (sid : ℕ) (text : List ℕ) (seat : Seated) (name : Name) (q : SelectTree)
        → IsRead e sid text seat.user (on_cursors (declare name (select q)))
        → seat_of e.seats sid ≡ Some seat → is_some (opened_named name seat.cursors) ≡ true
        → Leads e sid (sql text) (refused DuplicateCursor) e }
    ensures fetched { (e : Shown) (new : List (Option BoxState)) (sid : ℕ) (text : List ℕ) (seat : Seated) (name : Name)
        (asked : CountTree) (o : Opened) (rows : List Tuple) (after : Run) (count : ℕ)
        → IsRead e sid text seat.user (on_cursors (fetch asked name)) → seat_of e.seats sid ≡ Some seat → IsSound e
        → opened_named name seat.cursors ≡ Some o → GivesRows o.run asked e.boxes rows after new
        → PullsFetched asked o.run e.boxes seat.asked after new count → Leads e sid (sql text) (answered (codes "FETCH") o.names rows)
        (with_cursors e sid (having_asked seat count) (with_run name after seat.cursors) new) }
    ensures not_fetched { (e : Shown) (new : List (Option BoxState)) (sid : ℕ) (text : List ℕ) (seat : Seated) (name : Name)
        (asked : CountTree) (o : Opened) (c : AnyCause) (count : ℕ)
        → IsRead e sid text seat.user (on_cursors (fetch asked name)) → seat_of e.seats sid ≡ Some seat → IsSound e
        → opened_named name seat.cursors ≡ Some o → GivesNone c e.boxes new → Ends o.run e.boxes new → PullsEnded asked o.run e.boxes new
        → HasRisen seat.asked count → Leads e sid (sql text) (refused c)
        (with_cursors e sid (having_asked seat count) (without_named name seat.cursors) new) }
    ensures closed { (e : Shown) (new : List (Option BoxState)) (sid : ℕ) (text : List ℕ) (seat : Seated) (name : Name) (o : Opened)
        → IsRead e sid text seat.user (on_cursors (close name)) → seat_of e.seats sid ≡ Some seat → IsSound e
        → opened_named name seat.cursors ≡ Some o → Ends o.run e.boxes new
        → Leads e sid (sql text) (done (codes "CLOSE CURSOR")) (with_cursors e sid seat (without_named name seat.cursors) new) }
    ensures unknown { (e : Shown) (sid : ℕ) (text : List ℕ) (seat : Seated) (name : Name) (t : CursorTree) → IsOfOpen name t
        → IsRead e sid text seat.user (on_cursors t) → seat_of e.seats sid ≡ Some seat → opened_named name seat.cursors ≡ None
        → Leads e sid (sql text) (refused InvalidCursorName) e }
    ensures declared_sound { (e : Shown) (new : List (Option BoxState)) (sid : ℕ) (seat : Seated) (name : Name) (q : SelectTree)
        (names : List Name) (run : Run) → IsSid sid → IsSound e → seat_of e.seats sid ≡ Some seat → opened_named name seat.cursors ≡ None
        → Starts e.catalog seat.user e.bound q (is_full seat.cursors) e.boxes names run new
        → IsSound (with_cursors e sid seat (seat.cursors ++ new_opened name names q run ∷ []) new) }
    ensures not_declared_sound { (e : Shown) (new : List (Option BoxState)) (seat : Seated) (q : SelectTree) (c : AnyCause) → IsSound e
        → StartFails e.catalog seat.user e.bound q (is_full seat.cursors) e.boxes c new → IsSound (with_boxes e new) }
    ensures fetched_sound { (e : Shown) (new : List (Option BoxState)) (sid : ℕ) (seat : Seated) (name : Name) (asked : CountTree)
        (o : Opened) (rows : List Tuple) (after : Run) (count : ℕ) → IsSid sid → IsSound e → seat_of e.seats sid ≡ Some seat
        → opened_named name seat.cursors ≡ Some o → GivesRows o.run asked e.boxes rows after new
        → IsSound (with_cursors e sid (having_asked seat count) (with_run name after seat.cursors) new) }
    ensures ended_sound { (e : Shown) (new : List (Option BoxState)) (sid : ℕ) (seat : Seated) (name : Name) (o : Opened) (asked : ℕ)
        → IsSid sid → IsSound e → seat_of e.seats sid ≡ Some seat → opened_named name seat.cursors ≡ Some o → Ends o.run e.boxes new
        → IsSound (with_cursors e sid (having_asked seat asked) (without_named name seat.cursors) new) }
{
    med_binder::law::causes_have_their_phase();
}

/// The rows that the FETCHes of one cursor gave, joined, begin one answer to its query over its tables as they stood at DECLARE; and they
/// are all of it once one FETCH gave fewer rows than it was asked for, or was asked for ALL.
pub fn fetches_join()
    ensures begins { (c : Cursor) (f : Fetched) (fs : List Fetched) → c.handed ≡ [] → AreFetched c (f ∷ fs)
        → (left : List Tuple) × IsAnswer c.query (rows_leased c.reads) (rows_fetched (f ∷ fs) ++ left) }
    ensures all { (c : Cursor) (f : Fetched) (fs : List Fetched) → c.handed ≡ [] → AreFetched c fs → Contains fs f → IsLast f.asked f.rows
        → IsAnswer c.query (rows_leased c.reads) (rows_fetched fs) }
{}

/// The catalogue alone, where nothing is leased, tells what a statement on objects shows where tables are leased, but for the DROP of a
/// leased table against which nothing else stands: that is in use.
pub fn leases_bar_drops()
    ensures told { (o : Objects) (leased : Name → Bool) (user : Name) (d : DdlTree) (c : AnyCause)
        → IsToldBy (ddl_rows o nothing_leased user d) c → IsToldBy (ddl_rows o leased user d) c }
    ensures barred { (o : Objects) (leased : Name → Bool) (user : Name) (d : DdlTree) (name : Name)
        → NoneStands (ddl_rows o nothing_leased user d) → Asks o user d (no_table name) → leased name ≡ true
        → IsToldBy (ddl_rows o leased user d) InUse }
    ensures clear { (o : Objects) (leased : Name → Bool) (user : Name) (d : DdlTree) (change : ObjectChange)
        → NoneStands (ddl_rows o nothing_leased user d) → Asks o user d change
        → ((name : Name) → change ≡ no_table name → leased name ≡ false) → NoneStands (ddl_rows o leased user d) }
{
    med_catalog::law::causes_have_their_phase();
}

/// A statement on objects that is done, or refused.
pub fn changes_lead()
    ensures done { (e n : Shown) (sid : ℕ) (text : List ℕ) (user : Name) (d : DdlTree) → IsRead e sid text user (on_objects d) → IsSound e
        → IsAltered e user d n → Leads e sid (sql text) (done (ddl_tag d)) n }
    ensures refused { (e n : Shown) (sid : ℕ) (text : List ℕ) (user : Name) (d : DdlTree) (c : AnyCause)
        → IsRead e sid text user (on_objects d) → IsSound e → NotAltered e user d c n → Leads e sid (sql text) (refused c) n }
    ensures done_sound { (e n : Shown) (user : Name) (d : DdlTree) → IsSound e → IsAltered e user d n → IsSound n }
    ensures refused_sound { (e n : Shown) (user : Name) (d : DdlTree) (c : AnyCause) → IsSound e → NotAltered e user d c n → IsSound n }
{
    med_catalog::law::causes_have_their_phase();
    tables_stay_sound();
}

/// What the calls of boxes ask holds, where the catalogue shows no cause: the source of a server has its box; a table may be bound there; a
/// bound table that is not leased may be unbound, and has no live scan as it is written; and the box of a server that is dropped is idle.
pub fn boxes_are_ready()
    ensures there { (e : Shown) (server : Name) (place : ℕ) → IsSound e → IsServerAt e server place
        → (s : BoxState) × (slice_get e.boxes place ≡ Some (Some s)) }
    ensures binds { (e : Shown) (user : Name) (d : DdlTree) (t : TableObject) (place : ℕ) (s : BoxState) → IsSound e
        → IsAllowed e user d (new_table t) → IsServerAt e t.server place → slice_get e.boxes place ≡ Some (Some s)
        → CanBind s t.remote t.columns t.settings }
    ensures unbinds { (e : Shown) (t : TableObject) (k : ℕ) (a : Attached) → IsSound e → slice_get e.catalog.tables k ≡ Some t
        → slice_get e.bound k ≡ Some a → leased e t.name ≡ false → BoxAt e.boxes a.source (λ s. CanUnbind s a.number) }
    ensures unread { (e : Shown) (t : WriteTree) (a : Attached) (s : BoxState) → IsSound e → leased e (target_of t) ≡ false
        → IsTargetAt e.catalog e.bound t a → slice_get e.boxes a.source ≡ Some (Some s) → NoScan s a.number }
    ensures idle { (e : Shown) (user : Name) (d : DdlTree) (name : Name) (place : ℕ) (s : BoxState) → IsSound e
        → IsAllowed e user d (no_server name) → IsServerAt e name place → slice_get e.boxes place ≡ Some (Some s) → IsIdle s }
{}
