//! Statements on cursors: DECLARE, FETCH and CLOSE in the session that asks them.
ghost use Rattle.std.specs.Prelude.{ℕ, List, IsSome, string_bytes};
ghost use Rattle.med_syntax.specs.CursorTree.{declare as declare_tree, fetch as fetch_tree, close as close_tree};
ghost use Rattle.med_syntax.specs.Prelude.{count_tree, cursor_tree, statement_tree, Name};
ghost use Rattle.med_parser.specs.CommandTree.{on_cursors};
ghost use Rattle.med_world.specs.Prelude.{IsRead, seat_of};
ghost use Rattle.sql_meaning.specs.Requests.{sql};

use crate::cursors::{end_cursor, fetch_rows, open_cursor};
use crate::engine::Engine;
use crate::places::{put_seat, take_seat};
use crate::session::Sid;
use fdw_api::wishes::Wrapper2;
use med_statements::Outcome;
use med_syntax::{CursorStatement, Declare, Fetch};
use med_world::law::{cursors_lead, sessions_lead};

impl<W: Wrapper2> Engine<W> {
    ghost use Rattle.med_session.specs.Cursors.{HasCursor, LosesCursor, IfFetched, MayBeUntold};
    ghost use Rattle.med_statements.specs.Outcomes.{reply_of};
    ghost use Rattle.med_session.specs.Shows.{shown};
    ghost use Rattle.med_world.specs.Engine.{IsSound, Leads};

    // DECLARE in an open session.
    fn declare(&mut self, sid: Sid, declare: &Declare) -> Outcome
        requires sound { IsSound (shown W.meaning self.old) }
        requires open { IsSome (seat_of (shown W.meaning self.old).seats sid.number) }
        ensures sound { IsSound (shown W.meaning self.new) }
        ensures leads { (text : List ℕ) (user : Name) → IsRead (shown W.meaning self.old) sid.number text user
            (on_cursors (declare_tree (string_bytes declare.now.name) (statement_tree declare.now.query)))
            → Leads (shown W.meaning self.old) sid.number (sql text) (reply_of result) (shown W.meaning self.new) }
        ensures told { IfFetched result (λ name. ⊥) }
    {
        sessions_lead();
        cursors_lead();
        let alloc = *self.seats.allocator();
        let Some(mut seat) = take_seat(&mut self.seats, sid) else {
            unreachable!()
        };
        let (slots, catalog) = (&mut self.slots, &self.catalog);
        let opened = open_cursor(&mut seat, slots, catalog, &self.bound, alloc, declare);
        put_seat(&mut self.seats, sid, seat);
        match opened {
            Ok(()) => Outcome::Declared,
            Err(cause) => Outcome::Refused(cause),
        }
    }

    // FETCH in an open session.
    fn fetch(&mut self, sid: Sid, asked: Fetch) -> Outcome
        requires sound { IsSound (shown W.meaning self.old) }
        requires open { IsSome (seat_of (shown W.meaning self.old).seats sid.number) }
        ensures sound { IsSound (shown W.meaning self.new) }
        ensures leads { (text : List ℕ) (user : Name) → IsRead (shown W.meaning self.old) sid.number text user
            (on_cursors (fetch_tree (count_tree asked.count) (string_bytes asked.name)))
            → Leads (shown W.meaning self.old) sid.number (sql text) (reply_of result) (shown W.meaning self.new) }
        ensures untold { (text : List ℕ) (user : Name) → IsRead (shown W.meaning self.old) sid.number text user
            (on_cursors (fetch_tree (count_tree asked.count) (string_bytes asked.name)))
            → IfFetched result (λ name. MayBeUntold (shown W.meaning self.old) sid.number (sql text) name (shown W.meaning self.new)) }
    {
        sessions_lead();
        cursors_lead();
        let alloc = *self.seats.allocator();
        let Some(mut seat) = take_seat(&mut self.seats, sid) else {
            unreachable!()
        };
        let Fetch { count, name } = asked;
        let given = fetch_rows(&mut seat, &mut self.slots, alloc, name.as_str(), count);
        put_seat(&mut self.seats, sid, seat);
        match given {
            Ok(set) => Outcome::Fetched(name, set),
            Err(fault) => Outcome::Refused(fault.cause()),
        }
    }

    // CLOSE in an open session.
    fn close(&mut self, sid: Sid, name: &str) -> Outcome
        requires sound { IsSound (shown W.meaning self.old) }
        requires open { IsSome (seat_of (shown W.meaning self.old).seats sid.number) }
        ensures sound { IsSound (shown W.meaning self.new) }
        ensures leads { (text : List ℕ) (user : Name) → IsRead (shown W.meaning self.old) sid.number text user
            (on_cursors (close_tree name.now))
            → Leads (shown W.meaning self.old) sid.number (sql text) (reply_of result) (shown W.meaning self.new) }
        ensures told { IfFetched result (λ name. ⊥) }
    {
        cursors_lead();
        let Some(mut seat) = take_seat(&mut self.seats, sid) else {
            unreachable!()
        };
        let ended = end_cursor(&mut seat, &mut self.slots, name);
        put_seat(&mut self.seats, sid, seat);
        match ended {
            Ok(()) => Outcome::Ended,
            Err(cause) => Outcome::Refused(cause),
        }
    }

    // Closes a cursor whose rows could not be told.
    pub(crate) fn lose(&mut self, sid: Sid, name: &str)
        requires sound { IsSound (shown W.meaning self.old) }
        requires there { HasCursor (shown W.meaning self.old) sid.number name.now }
        ensures sound { IsSound (shown W.meaning self.new) }
        ensures lost { LosesCursor (shown W.meaning self.old) sid.number name.now (shown W.meaning self.new) }
    {
        cursors_lead();
        let Some(mut seat) = take_seat(&mut self.seats, sid) else {
            unreachable!()
        };
        match end_cursor(&mut seat, &mut self.slots, name) {
            Ok(()) => put_seat(&mut self.seats, sid, seat),
            Err(_) => unreachable!(),
        }
    }

    // Does a statement on a cursor of an open session.
    pub(crate) fn turn(&mut self, sid: Sid, statement: CursorStatement) -> Outcome
        requires sound { IsSound (shown W.meaning self.old) }
        requires open { IsSome (seat_of (shown W.meaning self.old).seats sid.number) }
        ensures sound { IsSound (shown W.meaning self.new) }
        ensures leads { (text : List ℕ) (user : Name)
            → IsRead (shown W.meaning self.old) sid.number text user (on_cursors (cursor_tree statement))
            → Leads (shown W.meaning self.old) sid.number (sql text) (reply_of result) (shown W.meaning self.new) }
        ensures untold { (text : List ℕ) (user : Name)
            → IsRead (shown W.meaning self.old) sid.number text user (on_cursors (cursor_tree statement))
            → IfFetched result (λ name. MayBeUntold (shown W.meaning self.old) sid.number (sql text) name (shown W.meaning self.new)) }
    {
        match statement {
            CursorStatement::Declare(declare) => {
                let outcome = self.declare(sid, &declare);
                drop(declare);
                outcome
            }
            CursorStatement::Fetch(fetch) => self.fetch(sid, fetch),
            CursorStatement::Close(close) => self.close(sid, close.name.as_str()),
        }
    }
}
