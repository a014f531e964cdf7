//! Which queries are shown row by row, and what a core without FROM joins.
ghost use Rattle.std.specs.Prelude.{◌≡◌, ◌↔◌, ◌∷◌, [], false, IsTrue, IfOk, length};
ghost use Rattle.med_value.specs.Datum.{tuple};
ghost use Rattle.med_query.specs.Query.{keeps, senses};
ghost use Rattle.tri_expr.specs.TreeParts.{is_risky};
ghost use Rattle.pushdown.specs.Joins.{Each};
ghost use Rattle.scan_loops.specs.Prelude.{safe_of, IsShownCore, all_safe, IsStreamedCore, IsStreamed};
ghost use Rattle.loop_runs.specs.Gathering.{levels_in, AreDecided};

use med_query::{Select, SelectCore};
use med_value::{NoMemory, Row};
use scan_loops::LoopLevel;
use std::alloc::Global;
use std::slice;
use tri_expr::law::safe_expression_has_value;
use tri_expr::{Expr, is_risky, verdict};

// Whether none of the expressions may fault.
fn are_safe(es: &[Expr]) -> bool
    ensures { result ≡ all_safe es.now }
{
    for e in es {
        if is_risky(e) {
            return false;
        }
    }
    true
}

/// Whether a core's rows can be shown as they are joined, where they come in the order of its keys.
pub(crate) fn is_shown_core(core: &SelectCore) -> bool
    ensures { IsTrue result ↔ IsShownCore core.now }
{
    are_safe(core.conditions.as_slice())
        && core.grouping.is_none()
        && are_safe(core.items.as_slice())
        && !core.distinct
}

// Whether they can be shown in any order.
fn is_streamed_core(core: &SelectCore) -> bool
    ensures { IsTrue result ↔ IsStreamedCore core.now }
{
    is_shown_core(core) && core.keys.is_empty()
}

// The same of each core.
fn are_streamed_cores(cores: &[SelectCore]) -> bool
    ensures { IsTrue result ↔ Each IsStreamedCore cores.now }
{
    for core in cores {
        if !is_streamed_core(core) {
            return false;
        }
    }
    true
}

/// Whether the rows of a query can be shown as they are joined, one by one: it does not group, order or leave out equal rows, and no part
/// of it may fault.
pub(crate) fn is_streamed(select: &Select) -> bool
    ensures { IsTrue result ↔ IsStreamed select.now }
{
    are_streamed_cores(select.cores.as_slice()) && select.directions.is_empty()
}

// Whether an expression that may not fault is true of a row.
fn holds(e: &Expr, row: &Row) -> bool
    requires { is_risky e.now ≡ false }
    ensures { result ≡ keeps (senses [] (e.now ∷ [])) (tuple row.now) }
{
    safe_expression_has_value();
    match verdict(slice::from_ref(e), row, &[]) {
        Ok(met) => met,
        Err(_) => unreachable!(),
    }
}

// Whether all conjuncts that may not fault are true of a row.
fn safe_ones_hold(conjuncts: &[Expr], row: &Row) -> bool
    ensures { result ≡ keeps (senses [] (safe_of conjuncts.now)) (tuple row.now) }
{
    for conjunct in conjuncts {
        if !is_risky(conjunct) && !holds(conjunct, row) {
            return false;
        }
    }
    true
}

/// Of each core without loops, whether the conjuncts of WHERE that may not fault are true of the row of no columns.
///
/// Refused only for want of memory.
pub(crate) fn decide_each(
    alloc: Global,
    cores: &[SelectCore],
    loops: &[Vec<LoopLevel>],
) -> Result<Vec<bool>, NoMemory>
    requires { length loops.now ≡ length cores.now }
    ensures { IfOk result (λ held. AreDecided cores.now (levels_in loops.now) held.items) }
{
    let row = Row {
        cells: Vec::new(alloc),
    };
    let mut held = Vec::new(alloc);
    let mut coming = loops;
    for core in cores {
        let Some((levels, more)) = coming.split_first() else {
            unreachable!()
        };
        held.push(!levels.is_empty() || safe_ones_hold(core.conditions.as_slice(), &row))?;
        coming = more;
    }
    Ok(held)
}
