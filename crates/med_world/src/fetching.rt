//! FETCH and CLOSE: rows of an open cursor, and its end.
ghost use Rattle.std.specs.Prelude.{◌≡◌, map, IfOk, IfErr};
ghost use Rattle.med_value.specs.Datum.{tuple};
ghost use Rattle.med_syntax.specs.CursorView.{count_tree};
ghost use Rattle.med_exec.specs.Prelude.{states, BeginsScans, PullsNone, ServesRun, Breaks, none_held};
ghost use Rattle.med_exec.specs.Rests.{held, IsRunning, IsHeld};
ghost use Rattle.med_world.specs.Open.{opened, held_by, AreHeld, AreOwn};
ghost use Rattle.med_world.specs.Fetching.{has_enough, GivesRows, GivesNone, HasRisen, PullsFetched, cause_of};
ghost use Rattle.scan_loops.specs.Counting.{none_in};

use crate::cursors::{Asked, OpenCursor};
use fdw_api::interface::Fault;
use fdw_api::wishes::Wrapper2;
use med_exec::Run;
use med_exec::law::{other_runs_are_left, running_is_held, runs_have_rests, services_join};
use med_syntax::FetchCount;
use med_value::Row;
use std::alloc::Global;

// Whether so many rows are as many as were asked for.
fn is_enough(asked: FetchCount, given: usize) -> bool
    ensures { result ≡ has_enough (count_tree asked) given }
{
    match asked {
        FetchCount::Rows(count) => given as u64 >= count,
        FetchCount::All => false,
    }
}

/// Why a run that was asked for rows did not give them. Nothing but [`fetch`] makes one, once it has asked the run: so who gives a cursor
/// up by it has asked the cursor for a row.
#[derive(Clone, Copy, Debug, PartialEq, Eq)]
pub struct Unfetched {
    fault: Fault,
}

impl Unfetched {
    /// The fault: [`Fault::NoMemory`] or [`Fault::Source`].
    pub fn fault(self) -> Fault
        ensures { result ≡ self.fault }
    {
        self.fault
    }
}

/// Gives as many rows of a run as are asked for, or all that are left where they are fewer, in their order. It asks the run for no row
/// beyond them, counts each time that it asks, and the next FETCH goes on behind them. No scan is begun. No box gives a row where the run
/// holds its answer; where it holds the scan of one table of whose rows nothing is checked again, its box gives no more rows than are
/// asked for, after those that OFFSET passes.
///
/// After a fault the run is good for its close alone. Until the run is asked nothing can fail.
///
/// # Errors
///
/// [`Fault::NoMemory`] where memory was asked for and refused, and [`Fault::Source`] where a source failed.
///
/// SQL:2016, 14.5 <fetch statement>.
pub fn fetch<W: Wrapper2>(
    run: &mut Run,
    slots: &mut Vec<Option<W>>,
    alloc: Global,
    asked: FetchCount,
    count: &mut Asked,
) -> Result<Vec<Row>, Unfetched>
    requires { IsRunning run.old (states W.meaning slots.old.items) }
    ensures boxes { ServesRun (held run.old) (held run.new) (states W.meaning slots.old.items) (states W.meaning slots.new.items) }
    ensures same { held run.new ≡ held run.old }
    ensures held { IsHeld run.new (states W.meaning slots.new.items) }
    ensures begins { BeginsScans none_in (states W.meaning slots.old.items) (states W.meaning slots.new.items) }
    ensures pulls { PullsFetched (count_tree asked) run.old (states W.meaning slots.old.items) count.old.times
        run.new (states W.meaning slots.new.items) count.new.times }
    ensures asked { IfErr result (λ _. HasRisen count.old.times count.new.times) }
    ensures ok { IfOk result (λ rows. GivesRows run.old (count_tree asked) (states W.meaning slots.old.items) (map tuple rows.items)
        run.new (states W.meaning slots.new.items)) }
    ensures err { IfErr result (λ u. GivesNone (cause_of u.fault)
        (states W.meaning slots.old.items) (states W.meaning slots.new.items)) }
    ensures breaks { IfErr result (λ u. Breaks u.fault (states W.meaning slots.old.items) (states W.meaning slots.new.items)) }
{
    runs_have_rests();
    services_join();
    running_is_held();
    let mut rows = Vec::new(alloc);
    while !is_enough(asked, rows.len()) {
        count.count();
        let row = match run.next(alloc, slots) {
            Ok(Some(row)) => row,
            Ok(None) => return Ok(rows),
            Err(fault) => return Err(Unfetched { fault }),
        };
        if rows.push(row).is_err() {
            return Err(Unfetched {
                fault: Fault::NoMemory,
            });
        }
    }
    Ok(rows)
}

/// Closes a cursor: each scan that its run holds is ended, and the boxes hold what they held besides. No box gives a row (SQL:2016, 14.6
/// <close statement>).
pub fn close_cursor<W: Wrapper2>(cursor: OpenCursor, slots: &mut Vec<Option<W>>)
    requires { IsHeld cursor.run (states W.meaning slots.old.items) }
    ensures boxes { ServesRun (held cursor.run) none_held (states W.meaning slots.old.items) (states W.meaning slots.new.items) }
    ensures pulls { PullsNone (states W.meaning slots.old.items) (states W.meaning slots.new.items) }
{
    let OpenCursor {
        name: _,
        names: _,
        leases: _,
        run,
    } = cursor;
    run.close(slots);
}

/// Closes each of these cursors. No two of them hold one scan, so that the close of one leaves those of the others live.
pub fn close_all<W: Wrapper2>(mut cursors: Vec<OpenCursor>, slots: &mut Vec<Option<W>>)
    requires held { AreHeld (map opened cursors.items) (states W.meaning slots.old.items) }
    requires own { AreOwn (map opened cursors.items) }
    ensures { ServesRun (held_by (map opened cursors.items)) none_held
        (states W.meaning slots.old.items) (states W.meaning slots.new.items) }
{
    services_join();
    other_runs_are_left();
    while let Some(cursor) = cursors.pop() {
        close_cursor(cursor, slots);
    }
    cursors.destroy_empty();
}
