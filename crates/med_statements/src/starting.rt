//! Queries of cursors: bound, and begun without a row being read from their runs.
ghost use Rattle.med_binder.specs.Prelude.{query_in, attached, AreNamedOnce};
ghost use Rattle.med_catalog.specs.View.{objects};
ghost use Rattle.med_exec.specs.Slots.{states};
ghost use Rattle.med_statements.specs.Ready.{AreReady};
ghost use Rattle.med_syntax.specs.QueryView.{statement_tree};
ghost use Rattle.med_world.specs.Starting.{leases_of, Starts, StartFails};
ghost use Rattle.std.specs.Prelude.{◌≡◌, length, map, IfOk, IfErr, string_bytes};

use crate::fault::cause_of;
use crate::law::bound_queries_are_ready;
use crate::leasing::leased_tables;
use crate::risk::is_risky_query;
use crate::sizes::is_large_query;
use fdw_api::wishes::Wrapper2;
use med_binder::{BoundTable, bind};
use med_catalog::Catalog;
use med_exec::law::services_join;
use med_exec::running::Run;
use med_exec::start_bound;
use med_planner::law::causes_ignore_order;
use med_query::law::{answers_ignore_order, expressions_ignore_order};
use med_syntax::Statement;
use med_value::Cause;
use std::alloc::Global;
use std::mem;

/// A query that is begun. Its run must be spent by [`Run::close`].
pub struct Started {
    /// The names of the columns of its rows.
    pub names: Vec<String>,
    /// The tables that it reads, one for each entry of FROM of each core, in their order.
    pub leases: Vec<String>,
    /// The rows that it has to give.
    pub run: Run,
}

/// Begins a query over the tables of a catalogue, each of which is bound in the box of its source, for a cursor of a session that
/// `is_full` or not: its names, rights and types, its loops with what the boxes agree to, and the start of its run. No row of it is given.
///
/// # Errors
///
/// A cause of names, rights or types; 0A000 where an expression of it may fault; 54000 where the session is full, where the query has more
/// than 8 cores or FROM of one more than 8 entries; 53200, HV000 and 54000 where memory was refused, a source failed, and a box has given
/// all its ticket numbers; and what the query shows over the rows of its tables.
///
/// SQL:2016, 14.1 <declare cursor>.
pub fn start_select<W: Wrapper2>(
    slots: &mut Vec<Option<W>>,
    catalog: &Catalog,
    bound: &[BoundTable],
    alloc: Global,
    user: &str,
    statement: &Statement,
    is_full: bool,
) -> Result<Started, Cause>
    requires many { length bound.now ≡ length (objects catalog.now).tables }
    requires once { AreNamedOnce (objects catalog.now) }
    requires ready { AreReady (objects catalog.now) (map attached bound.now) (states W.meaning slots.old.items) }
    ensures ok { IfOk result (λ s. Starts (objects catalog.now) user.now (map attached bound.now)
        (query_in (statement_tree statement.now)) is_full (states W.meaning slots.old.items) (map string_bytes s.names.items)
        s.run (states W.meaning slots.new.items)) }
    ensures leases { IfOk result (λ s. map string_bytes s.leases.items ≡ leases_of (query_in (statement_tree statement.now))) }
    ensures err { IfErr result (λ c. StartFails (objects catalog.now) user.now (map attached bound.now)
        (query_in (statement_tree statement.now)) is_full (states W.meaning slots.old.items) c (states W.meaning slots.new.items)) }
{
    expressions_ignore_order();
    answers_ignore_order();
    causes_ignore_order();
    services_join();
    bound_queries_are_ready();
    let mut query = bind(alloc, statement, catalog, bound, user)?;
    if is_risky_query(&query.select) {
        return Err(Cause::FeatureNotSupported);
    }
    if is_full || is_large_query(&query.select) {
        return Err(Cause::LimitExceeded);
    }
    let leases = match leased_tables(alloc, statement) {
        Ok(leases) => leases,
        Err(cause) => return Err(cause),
    };
    let names = mem::replace(&mut query.names, Vec::new(alloc));
    let run = match start_bound(slots, alloc, query) {
        Ok(run) => run,
        Err(fault) => return Err(cause_of(fault)),
    };
    Ok(Started { names, leases, run })
}
