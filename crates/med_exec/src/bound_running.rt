//! Runs of bound queries.
ghost use Rattle.std.specs.Prelude.{◌≡◌, map, IfOk, IfErr};
ghost use Rattle.med_value.specs.Datum.{tuple};
ghost use Rattle.med_query.specs.Select.{query_of};
ghost use Rattle.fdw_api.specs.declared.interface.Fault.TheVariants.{NoMemory as WantOfMemory};
ghost use Rattle.med_binder.specs.Place.{entry_place};
ghost use Rattle.med_exec.specs.Counting.{BeginsScans};
ghost use Rattle.med_exec.specs.Holding.{HoldsOf};
ghost use Rattle.med_exec.specs.Rests.{Rests, held, IsRunning};
ghost use Rattle.med_exec.specs.Running.{ServesRun, AllServed, Stops, Begun, none_held};
ghost use Rattle.scan_loops.specs.Slots.{states};
ghost use Rattle.med_planner.specs.Premises.{HasPlaces};
ghost use Rattle.med_exec.specs.BoundCounting.{scans_of, BeginsAtMost};
ghost use Rattle.med_exec.specs.BoundPulling.{PullsRows};
ghost use Rattle.med_exec.specs.BoundRunning.{IsReady, IsPlanFor, RunAnswers};
ghost use Rattle.med_exec.specs.Starting.{HoldsFor, AsksNone, ShowsAll, OpensScans};

use crate::Run;
use crate::law::runs_have_rests;
use crate::places::has_places;
use crate::query_loops::plan_loops;
use fdw_api::interface::Fault;
use fdw_api::wishes::Wrapper2;
use loop_runs::{LoopPlan, is_shown, run_plan, start_plan};
use med_binder::BoundQuery;
use med_planner::plan_laws::{
    bound_cores_are_in_view, bound_levels_can_start, bound_rows_are_wide, plans_are_loop_plans,
    wished_rows_come_in_order,
};
use med_value::Row;
use std::alloc::Global;

// The plan of a bound query, once the boxes said how they scan.
fn planned<W: Wrapper2>(
    slots: &Vec<Option<W>>,
    alloc: Global,
    bound: BoundQuery,
) -> Result<LoopPlan, Fault>
    requires ready { IsReady (states W.meaning slots.now.items) bound }
    requires places { HasPlaces bound.entries.items }
    ensures ok { IfOk result (λ plan. IsPlanFor (states W.meaning slots.now.items) bound plan) }
    ensures err { IfErr result (λ fault. fault ≡ WantOfMemory) }
{
    bound_cores_are_in_view();
    bound_rows_are_wide();
    bound_levels_can_start();
    plans_are_loop_plans();
    wished_rows_come_in_order();
    let loops = match plan_loops(slots, alloc, &bound) {
        Ok(loops) => loops,
        Err(fault) => return Err(fault),
    };
    let BoundQuery { select, .. } = bound;
    Ok(LoopPlan { loops, select })
}

// The same, where a joined row has places for all its columns.
fn plan_of<W: Wrapper2>(
    slots: &Vec<Option<W>>,
    alloc: Global,
    bound: BoundQuery,
) -> Result<LoopPlan, Fault>
    requires ready { IsReady (states W.meaning slots.now.items) bound }
    ensures ok { IfOk result (λ plan. IsPlanFor (states W.meaning slots.now.items) bound plan) }
    ensures err { IfErr result (λ fault. fault ≡ WantOfMemory) }
{
    if !has_places(bound.entries.as_slice()) {
        return Err(Fault::NoMemory);
    }
    planned(slots, alloc, bound)
}

/// Answers a bound query from the boxes of its entries, by loops over their scans, whatever these take over of its conditions, and of the
/// order and the limit that are wished of them. For each entry of each core one scan is begun, and no other; where the run stops, no more
/// than these. None is live afterwards. Where the boxes agreed to a scan whose rows are shown as they come, LIMIT bounds how many are asked
/// for, also where the run stops.
///
/// # Errors
///
/// [`Fault::NoMemory`] where memory was asked for and refused, or where a joined row would have no place for all its columns;
/// [`Fault::Source`] where a source failed; and [`Fault::Refused`] by 54000 where a box's ticket numbers are used up or the query groups
/// over more than 2^62 kept rows, and by 22003 and 22012 where the query has such a fault.
pub fn run_bound<W: Wrapper2>(
    slots: &mut Vec<Option<W>>,
    alloc: Global,
    bound: BoundQuery,
) -> Result<Vec<Row>, Fault>
    requires ready { IsReady (states W.meaning slots.old.items) bound }
    ensures served { AllServed (states W.meaning slots.old.items) (states W.meaning slots.new.items) }
    ensures ok { IfOk result (λ rows. RunAnswers (query_of bound.select) (map entry_place bound.entries.items)
        (states W.meaning slots.old.items) (map tuple rows.items)) }
    ensures err { IfErr result (λ fault. Stops (query_of bound.select) (map entry_place bound.entries.items) fault
        (states W.meaning slots.old.items) (states W.meaning slots.new.items)) }
    ensures begins { IfOk result (λ _. BeginsScans (scans_of bound) (states W.meaning slots.old.items)
        (states W.meaning slots.new.items)) }
    ensures at_most { IfErr result (λ _. BeginsAtMost (scans_of bound) (states W.meaning slots.old.items)
        (states W.meaning slots.new.items)) }
    ensures pulls { PullsRows bound (states W.meaning slots.old.items) (states W.meaning slots.new.items) }
{
    let plan = match plan_of(slots, alloc, bound) {
        Ok(plan) => plan,
        Err(fault) => return Err(fault),
    };
    run_plan(alloc, plan, slots)
}

/// Begins the run of a bound query over the boxes of its entries. For each entry of each core one scan is begun, and no other; where it is
/// refused, no more than these, and none is then live. Where the rows of the plan are shown as they come, the run holds these scans, each
/// of its entry's table, and no row is asked for: so are those of a query with FROM that does not group, order or leave out equal rows, and
/// has no part that may fault. Each scan of such a query is open, for the columns that are wanted of its entry, and was offered just the
/// restrictions that are its entry's. A query of all rows of one table shows each as it comes.
/// Any other plan is run to its end, and the run holds its answer.
///
/// # Errors
///
/// As of [`run_bound`].
///
/// PostgreSQL: Writing a Foreign Data Wrapper, `BeginForeignScan`.
pub fn start_bound<W: Wrapper2>(
    slots: &mut Vec<Option<W>>,
    alloc: Global,
    bound: BoundQuery,
) -> Result<Run, Fault>
    requires ready { IsReady (states W.meaning slots.old.items) bound }
    ensures boxes { IfOk result (λ run. ServesRun none_held (held run) (states W.meaning slots.old.items)
        (states W.meaning slots.new.items)) }
    ensures running { IfOk result (λ run. IsRunning run (states W.meaning slots.new.items)) }
    ensures holds { IfOk result (λ run. HoldsOf (map entry_place bound.entries.items) run (states W.meaning slots.new.items)) }
    ensures ok { IfOk result (λ run. Begun (query_of bound.select) (map entry_place bound.entries.items)
        (Rests run (states W.meaning slots.new.items)) (states W.meaning slots.old.items)) }
    ensures begins { IfOk result (λ _. BeginsScans (scans_of bound) (states W.meaning slots.old.items)
        (states W.meaning slots.new.items)) }
    ensures scans { IfOk result (λ run. HoldsFor bound (states W.meaning slots.old.items) run (states W.meaning slots.new.items)) }
    ensures plain { IfOk result (λ _. AsksNone bound (states W.meaning slots.old.items) (states W.meaning slots.new.items)) }
    ensures bare { IfOk result (λ run. ShowsAll bound run) }
    ensures opens { IfOk result (λ run. OpensScans bound run (states W.meaning slots.new.items)) }
    ensures ended { IfErr result (λ _. AllServed (states W.meaning slots.old.items) (states W.meaning slots.new.items)) }
    ensures err { IfErr result (λ fault. Stops (query_of bound.select) (map entry_place bound.entries.items) fault
        (states W.meaning slots.old.items) (states W.meaning slots.new.items)) }
    ensures at_most { IfErr result (λ _. BeginsAtMost (scans_of bound) (states W.meaning slots.old.items)
        (states W.meaning slots.new.items)) }
    ensures pulls { IfErr result (λ _. PullsRows bound (states W.meaning slots.old.items) (states W.meaning slots.new.items)) }
{
    runs_have_rests();
    let plan = match plan_of(slots, alloc, bound) {
        Ok(plan) => plan,
        Err(fault) => return Err(fault),
    };
    if is_shown(&plan) {
        return match start_plan(alloc, plan, slots) {
            Ok(run) => Ok(Run::streamed(run)),
            Err(fault) => Err(fault),
        };
    }
    match run_plan(alloc, plan, slots) {
        Ok(rows) => Ok(Run::held(rows)),
        Err(fault) => Err(fault),
    }
}
