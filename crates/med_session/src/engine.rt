//! The engine.
ghost use Rattle.std.specs.Prelude.{◌≡◌, ◌<◌, ◌+◌, ◌++◌, ℕ, List, None, replicate, vec_len, vec_capacity, IfOk, IfErr, OnOk, OnErr, IsErrOf};

use crate::places::{close_seats, closed_sessions, is_open, put_seat, take_seat, user_in};
use crate::session::{NoRoom, Request, Sid};
use crate::sources::NamedSource;
use crate::users::is_user;
use fdw_api::wishes::Wrapper2;
use med_binder::BoundTable;
use med_catalog::Catalog;
use med_parser::{Command, one_tree, parse};
use med_statements::text_laws::texts_are_clean;
use med_statements::{Outcome, run_select, run_write, table_of, word_of, write_reply};
use med_value::Cause;
use med_world::law::{
    boxes_are_ready, changes_lead, cursors_may_close, engines_begin, queries_lead, sessions_end,
    sessions_lead, statements_are_refused, writes_lead,
};
use med_world::{Asked, Seat, close_all, is_leased};
use std::alloc::Global;
use thiserror::Error;

/// The room in the output that is taken before a request is begun.
const ROOM: usize = 128;

/// An engine over boxed sources: the catalogue of their objects, where its foreign tables are bound, and 256 sessions.
#[derive(Drop)]
pub struct Engine<W> {
    pub(crate) catalog: Catalog,
    pub(crate) sources: Vec<NamedSource>,
    pub(crate) slots: Vec<Option<W>>,
    pub(crate) bound: Vec<BoundTable>,
    pub(crate) seats: Vec<Option<Seat>>,
}

/// Why no engine was made.
#[derive(Clone, Copy, Debug, PartialEq, Eq, Error)]
pub enum NewFault {
    /// Memory was refused.
    #[error("out of memory")]
    NoMemory,
    /// The owner is no user's name.
    #[error("bad name")]
    BadName,
}

impl<W: Wrapper2> Engine<W> {
    ghost use Rattle.med_session.specs.Asking.{asked};
    ghost use Rattle.med_session.specs.Cursors.{IfFetched, MayBeUntold};
    ghost use Rattle.med_statements.specs.Outcomes.{reply_of};
    ghost use Rattle.med_session.specs.Shows.{shown};
    ghost use Rattle.med_value.specs.Limits.{session_count};
    ghost use Rattle.med_world.specs.Engine.{IsSound, Agrees, Leads, IsAnswered, Closes, ClosesAll};
    ghost use Rattle.sql_meaning.specs.Prelude.{IsUser, opening, sql, bye, empty_world};

    /// An engine with no object and no source, and every session closed.
    ///
    /// `BadName` exactly where the owner is no user: `[a-z_][a-z0-9_]*` of 1 to 63 bytes, and neither `public`, `user` nor
    /// `current_user`.
    pub fn new(alloc: Global, owner: &str) -> Result<Engine<W>, NewFault>
        ensures sound { IfOk result (λ e. IsSound (shown W.meaning e)) }
        ensures empty { IfOk result (λ e. Agrees (shown W.meaning e) (empty_world owner.now)) }
        ensures owner { IfOk result (λ e. (shown W.meaning e).catalog.owner ≡ owner.now) }
        ensures bad_name { IfErr result (λ fault. fault ≡ NewFault.BadName → IsUser owner.now → ⊥) }
        ensures no_user { (IsUser owner.now → ⊥) → IsErrOf result NewFault.BadName }
    {
        if !is_user(owner) {
            return Err(NewFault::BadName);
        }
        engines_begin();
        let Ok(catalog) = Catalog::new(alloc, owner) else {
            return Err(NewFault::NoMemory);
        };
        let Ok(seats) = closed_sessions(alloc) else {
            return Err(NewFault::NoMemory);
        };
        Ok(Engine {
            catalog,
            sources: Vec::new(alloc),
            slots: Vec::new(alloc),
            bound: Vec::new(alloc),
            seats,
        })
    }

    /// The user who may make and drop objects.
    pub fn owner(&self) -> &str
        ensures { result.now ≡ (shown W.meaning self.now).catalog.owner }
    {
        self.catalog.owner()
    }

    /// Does one request of a session as `answer` does, and puts the reply behind what `out` has.
    ///
    /// `NoRoom` where room for 128 bytes is refused before the request is begun. Then nothing was done, and the output had not the
    /// room for 128 bytes more: a caller that leaves that room never meets it. Where a later growth is refused, the reply is 53200,
    /// for which that room is enough.
    ///
    /// What a query or a FETCH that gives rows asked the boxes for is part of the answer (`AsksBoxes`): no more rows of the one table of
    /// `ORDER BY key LIMIT n OFFSET m` than n + m, where its box took over the order and all conditions; and no more than n for FETCH n of
    /// a cursor over all rows of one table.
    pub fn request(
        &mut self,
        sid: Sid,
        request: Request<'_>,
        out: &mut Vec<u8>,
    ) -> Result<(), NoRoom>
        requires { IsSound (shown W.meaning self.old) }
        ensures sound { IsSound (shown W.meaning self.new) }
        ensures answered { OnOk result ((text : List ℕ) × (out.new.items ≡ out.old.items ++ text)
            × IsAnswered (shown W.meaning self.old) sid.number (asked request.entry) text (shown W.meaning self.new)) }
        ensures no_room { OnErr result ((self.new ≡ self.old) × (out.new.items ≡ out.old.items)) }
        ensures full { OnErr result (vec_capacity out.old < vec_len out.old + 128) }
    {
        if out.reserve(ROOM).is_err() {
            return Err(NoRoom);
        }
        let outcome = self.answer(sid, request);
        if write_reply(*self.seats.allocator(), sid.number, &outcome, out) {
            drop(outcome);
            return Ok(());
        }
        if let Outcome::Fetched(name, _) = &outcome {
            self.lose(sid, name.as_str());
        }
        drop(outcome);
        Ok(())
    }

    /// Closes a session, and its cursors with it. It always succeeds, also where the session is closed.
    pub fn close_session(&mut self, sid: Sid)
        requires { IsSound (shown W.meaning self.old) }
        ensures sound { IsSound (shown W.meaning self.new) }
        ensures closes { Closes (shown W.meaning self.old) sid.number (shown W.meaning self.new) }
    {
        sessions_end();
        cursors_may_close();
        match take_seat(&mut self.seats, sid) {
            Some(seat) => close_all(seat.cursors, &mut self.slots),
            None => {}
        }
    }

    /// Closes every session, and every cursor with it. It always succeeds.
    pub fn close_sessions(&mut self)
        requires { IsSound (shown W.meaning self.old) }
        ensures sound { IsSound (shown W.meaning self.new) }
        ensures closes { ClosesAll (shown W.meaning self.old) (shown W.meaning self.new) }
        ensures closed { (shown W.meaning self.new).seats ≡ replicate session_count None }
    {
        sessions_end();
        cursors_may_close();
        close_seats(&mut self.seats, &mut self.slots);
    }

    /// Does one request of a session, and answers what it came to. No reply is written.
    ///
    /// Of a FETCH that gave rows the cursor is still there, and once it is closed as well the request is answered 53200 (`MayBeUntold`).
    pub fn answer(&mut self, sid: Sid, request: Request<'_>) -> Outcome
        requires { IsSound (shown W.meaning self.old) }
        ensures sound { IsSound (shown W.meaning self.new) }
        ensures leads { Leads (shown W.meaning self.old) sid.number (asked request.entry) (reply_of result) (shown W.meaning self.new) }
        ensures untold { IfFetched result (λ name. MayBeUntold (shown W.meaning self.old) sid.number (asked request.entry) name
            (shown W.meaning self.new)) }
    {
        match request {
            Request::Open(user) => self.open(sid, user),
            Request::Sql(text) => self.statement(sid, text),
            Request::Bye => self.bye(sid),
        }
    }

    // Opens a session.
    fn open(&mut self, sid: Sid, user: &str) -> Outcome
        requires { IsSound (shown W.meaning self.old) }
        ensures sound { IsSound (shown W.meaning self.new) }
        ensures leads { Leads (shown W.meaning self.old) sid.number (opening user.now) (reply_of result) (shown W.meaning self.new) }
        ensures told { IfFetched result (λ name. ⊥) }
    {
        sessions_lead();
        if is_open(&self.seats, sid) || !is_user(user) {
            return Outcome::Refused(Cause::Protocol);
        }
        let alloc = *self.seats.allocator();
        match String::from_str(alloc, user) {
            Ok(user) => {
                let cursors = Vec::new(alloc);
                let asked = Asked::never();
                put_seat(
                    &mut self.seats,
                    sid,
                    Seat {
                        user,
                        cursors,
                        asked,
                    },
                );
                Outcome::Opened
            }
            Err(_) => Outcome::Refused(Cause::OutOfMemory),
        }
    }

    // Closes a session, and its cursors with it.
    fn bye(&mut self, sid: Sid) -> Outcome
        requires { IsSound (shown W.meaning self.old) }
        ensures sound { IsSound (shown W.meaning self.new) }
        ensures leads { Leads (shown W.meaning self.old) sid.number bye (reply_of result) (shown W.meaning self.new) }
        ensures told { IfFetched result (λ name. ⊥) }
    {
        sessions_lead();
        cursors_may_close();
        match take_seat(&mut self.seats, sid) {
            Some(seat) => {
                close_all(seat.cursors, &mut self.slots);
                Outcome::Closed
            }
            None => Outcome::Refused(Cause::NoConnection),
        }
    }

    // Does a statement.
    fn statement(&mut self, sid: Sid, text: &str) -> Outcome
        requires { IsSound (shown W.meaning self.old) }
        ensures sound { IsSound (shown W.meaning self.new) }
        ensures leads { Leads (shown W.meaning self.old) sid.number (sql text.now) (reply_of result) (shown W.meaning self.new) }
        ensures untold { IfFetched result (λ name. MayBeUntold (shown W.meaning self.old) sid.number (sql text.now) name
            (shown W.meaning self.new)) }
    {
        statements_are_refused();
        let Some(user) = user_in(&self.seats, sid) else {
            return Outcome::Refused(Cause::NoConnection);
        };
        let alloc = *self.seats.allocator();
        one_tree();
        let command = match parse(alloc, text) {
            Ok(command) => command,
            Err(cause) => return Outcome::Refused(cause),
        };
        queries_lead();
        writes_lead();
        boxes_are_ready();
        texts_are_clean();
        changes_lead();
        sessions_lead();
        match command {
            Command::Data(query) => {
                let slots = &mut self.slots;
                match run_select(slots, &self.catalog, &self.bound, alloc, user, &query) {
                    Ok(set) => {
                        drop(query);
                        Outcome::Rows(set)
                    }
                    Err(cause) => {
                        drop(query);
                        Outcome::Refused(cause)
                    }
                }
            }
            Command::Rows(write) => {
                let word = word_of(&write);
                let leased = is_leased(&self.seats, table_of(&write));
                let slots = &mut self.slots;
                match run_write(
                    slots,
                    &self.catalog,
                    &self.bound,
                    alloc,
                    user,
                    write,
                    leased,
                ) {
                    Ok(count) => Outcome::Written(word, count),
                    Err(cause) => Outcome::Refused(cause),
                }
            }
            Command::Cursor(statement) => self.turn(sid, statement),
            Command::Ddl(ddl) => {
                let Ok(name) = String::from_str(alloc, user) else {
                    drop(ddl);
                    return Outcome::Refused(Cause::OutOfMemory);
                };
                match self.alter(alloc, name.as_str(), &ddl) {
                    Ok(()) => Outcome::Changed(ddl),
                    Err(cause) => {
                        drop(ddl);
                        Outcome::Refused(cause)
                    }
                }
            }
        }
    }
}
