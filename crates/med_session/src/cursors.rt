//! The cursors of a session: DECLARE, FETCH and CLOSE (SQL:2016, part 2, 14 "Data manipulation").
ghost use Rattle.std.specs.Prelude.{◌≡◌, Contains, length, map, IfOk, OnOk, IfErr, OnErr, string_bytes};
ghost use Rattle.med_value.specs.Datum.{tuple};
ghost use Rattle.med_syntax.specs.Prelude.{statement_tree, count_tree};
ghost use Rattle.med_binder.specs.Prelude.{query_in, attached, AreNamedOnce};
ghost use Rattle.med_catalog.specs.View.{objects};
ghost use Rattle.med_exec.specs.Prelude.{states};
ghost use Rattle.med_exec.specs.Rests.{IsRunning};
ghost use Rattle.med_statements.specs.Ready.{AreReady};
ghost use Rattle.med_world.specs.Prelude.{Opened, seated, IsSoundSeat};
ghost use Rattle.med_session.specs.Cursors.{Opens, OpensNone, Fetched, NotFetched, Ended, NotEnded, cause_in};

use fdw_api::wishes::Wrapper2;
use med_binder::BoundTable;
use med_catalog::Catalog;
use med_exec::law::{running_is_held, services_join};
use med_statements::{RowSet, Started, cause_of, start_select};
use med_syntax::{Declare, FetchCount};
use med_value::{Cause, NoMemory};
use med_world::{OpenCursor, Seat, Unfetched, close_cursor, fetch, is_full, position, take};
use std::alloc::Global;

// The names of columns, once more.
fn copy_names(alloc: Global, names: &[String]) -> Result<Vec<String>, NoMemory>
    ensures { IfOk result (λ copies. map string_bytes copies.items ≡ map string_bytes names.now) }
{
    let mut copies = Vec::new(alloc);
    for name in names {
        copies.push(String::from_str(alloc, name.as_str())?)?;
    }
    Ok(copies)
}

// Opens a cursor over the tables as they stand, behind those that the session has. Room for it is taken before its query is begun.
pub(crate) fn open_cursor<W: Wrapper2>(
    seat: &mut Seat,
    slots: &mut Vec<Option<W>>,
    catalog: &Catalog,
    bound: &[BoundTable],
    alloc: Global,
    declare: &Declare,
) -> Result<(), Cause>
    requires many { length bound.now ≡ length (objects catalog.now).tables }
    requires once { AreNamedOnce (objects catalog.now) }
    requires ready { AreReady (objects catalog.now) (map attached bound.now) (states W.meaning slots.old.items) }
    ensures ok { OnOk result (Opens (objects catalog.now) (map attached bound.now) (string_bytes declare.now.name)
        (query_in (statement_tree declare.now.query)) (seated seat.old) (states W.meaning slots.old.items) (seated seat.new)
        (states W.meaning slots.new.items)) }
    ensures err { IfErr result (λ c. OpensNone (objects catalog.now) (map attached bound.now) (string_bytes declare.now.name)
        (query_in (statement_tree declare.now.query)) (seated seat.old) (states W.meaning slots.old.items) c
        (states W.meaning slots.new.items)) }
    ensures kept { OnErr result (seated seat.new ≡ seated seat.old) }
{
    if position(&seat.cursors, declare.name.as_str()).is_some() {
        return Err(Cause::DuplicateCursor);
    }
    let Ok(name) = String::from_str(alloc, declare.name.as_str()) else {
        return Err(Cause::OutOfMemory);
    };
    if seat.cursors.reserve(1).is_err() {
        return Err(Cause::OutOfMemory);
    }
    let full = is_full(&seat.cursors);
    let user = seat.user.as_str();
    let Started { names, leases, run } = match start_select(
        slots,
        catalog,
        bound,
        alloc,
        user,
        &declare.query,
        full,
    ) {
        Ok(started) => started,
        Err(cause) => return Err(cause),
    };
    let cursor = OpenCursor {
        name,
        names,
        leases,
        run,
    };
    if seat.cursors.push(cursor).is_err() {
        unreachable!()
    }
    Ok(())
}

// Why a FETCH gave no rows.
pub(crate) enum FetchFault {
    // No cursor was asked for a row, and all is as it was.
    Unasked(Cause),
    // The cursor was asked, and is gone. Nothing but `fetch` makes what it holds.
    Failed(Unfetched),
}

impl FetchFault {
    // The cause that it is told by.
    pub(crate) fn cause(self) -> Cause
        ensures { result ≡ cause_in self }
    {
        match self {
            FetchFault::Unasked(cause) => cause,
            FetchFault::Failed(unfetched) => cause_of(unfetched.fault()),
        }
    }
}

// Gives rows of a cursor. One that fails, once it was asked for a row, is closed and gone.
pub(crate) fn fetch_rows<W: Wrapper2>(
    seat: &mut Seat,
    slots: &mut Vec<Option<W>>,
    alloc: Global,
    name: &str,
    asked: FetchCount,
) -> Result<RowSet, FetchFault>
    requires sound { IsSoundSeat (seated seat.old) }
    requires running { (c : Opened) → Contains (seated seat.old).cursors c → IsRunning c.run (states W.meaning slots.old.items) }
    ensures ok { IfOk result (λ set. Fetched name.now (count_tree asked) (seated seat.old) (states W.meaning slots.old.items)
        (map string_bytes set.names.items) (map tuple set.rows.items) (seated seat.new) (states W.meaning slots.new.items)) }
    ensures err { IfErr result (λ f. NotFetched name.now (count_tree asked) (seated seat.old) (states W.meaning slots.old.items) f
        (seated seat.new) (states W.meaning slots.new.items)) }
{
    running_is_held();
    services_join();
    let Some(place) = position(&seat.cursors, name) else {
        return Err(FetchFault::Unasked(Cause::InvalidCursorName));
    };
    let Ok(names) = copy_names(alloc, &seat.cursors[place].names) else {
        return Err(FetchFault::Unasked(Cause::OutOfMemory));
    };
    let count = &mut seat.asked;
    match fetch(&mut seat.cursors[place].run, slots, alloc, asked, count) {
        Ok(rows) => Ok(RowSet { names, rows }),
        Err(unfetched) => {
            close_cursor(seat.cursors.remove(place), slots);
            Err(FetchFault::Failed(unfetched))
        }
    }
}

// Closes a cursor, which is gone then. Where there is none of the name, nothing is done.
pub(crate) fn end_cursor<W: Wrapper2>(
    seat: &mut Seat,
    slots: &mut Vec<Option<W>>,
    name: &str,
) -> Result<(), Cause>
    requires sound { IsSoundSeat (seated seat.old) }
    requires running { (c : Opened) → Contains (seated seat.old).cursors c → IsRunning c.run (states W.meaning slots.old.items) }
    ensures ok { OnOk result (Ended name.now (seated seat.old) (states W.meaning slots.old.items) (seated seat.new)
        (states W.meaning slots.new.items)) }
    ensures err { IfErr result (λ c. NotEnded name.now (seated seat.old) (states W.meaning slots.old.items) c (seated seat.new)
        (states W.meaning slots.new.items)) }
{
    running_is_held();
    match take(&mut seat.cursors, name) {
        Some(cursor) => {
            close_cursor(cursor, slots);
            Ok(())
        }
        None => Err(Cause::InvalidCursorName),
    }
}
