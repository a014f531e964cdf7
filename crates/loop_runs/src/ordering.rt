//! Which plans give their rows in the order that their query asks for.
ghost use Rattle.std.specs.Prelude.{◌≡◌, ◌↔◌, ◌∷◌, [], true, All, Contains, IsTrue, Some, None, map};
ghost use Rattle.med_query.specs.Form.{direction_of};
ghost use Rattle.fdw_api.specs.Wishes.{key_form, spec2_of};
ghost use Rattle.tri_expr.specs.Tree.{tree};
ghost use Rattle.scan_loops.specs.Pulling.{IsBare};
ghost use Rattle.scan_loops.specs.Ordered.{key_column as spec_key_column, order_of, IsEnough, ComesInOrder};
ghost use Rattle.loop_runs.specs.Ordering.{PlanInOrder};

use crate::deciding::is_shown_core;
use crate::running::LoopPlan;
use fdw_api::wishes::{OrderKey, ScanSpec2};
use med_query::{Select, SelectCore, SortDirection};
use scan_loops::LoopLevel;
use tri_expr::Expr;

// The column that an order key is, parentheses being looked through.
fn key_column(key: &Expr) -> Option<usize>
    ensures { result ≡ spec_key_column (tree key.now) }
{
    match key {
        Expr::Column(at) => Some(*at),
        Expr::Parenthesised(inner) => key_column(inner),
        _ => None,
    }
}

// Whether a key of a scan's order is what a key of ORDER BY asks for.
fn is_key(direction: &SortDirection, key: &Expr, promised: &OrderKey) -> bool
    ensures { IsTrue result ↔ (order_of (direction_of direction.now ∷ []) (tree key.now ∷ []) ≡ Some (key_form promised.now ∷ [])) }
{
    match key_column(key) {
        Some(column) => {
            column == promised.column
                && direction.descending == promised.desc
                && direction.nulls_first == promised.nulls_first
        }
        None => false,
    }
}

// Whether a scan's order is what ORDER BY asks for.
fn is_order(directions: &[SortDirection], keys: &[Expr], promised: &[OrderKey]) -> bool
    ensures { IsTrue result ↔ (order_of (map direction_of directions.now) (map tree keys.now) ≡ Some (map key_form promised.now)) }
{
    if directions.len() != promised.len() || keys.len() != promised.len() {
        return false;
    }
    for at in 0..promised.len() {
        if !is_key(&directions[at], &keys[at], &promised[at]) {
            return false;
        }
    }
    true
}

// Whether a scan promises the order that ORDER BY asks for.
fn is_promised(directions: &[SortDirection], keys: &[Expr], spec: &ScanSpec2) -> bool
    ensures { IsTrue result ↔ (order_of (map direction_of directions.now) (map tree keys.now) ≡ Some (spec2_of spec.now).order) }
{
    if spec.ordered {
        is_order(directions, keys, spec.wish.order.as_slice())
    } else {
        is_order(directions, keys, &[])
    }
}

// Whether a column is among these.
fn is_wanted(column: usize, wanted: &[usize]) -> bool
    ensures { IsTrue result ↔ Contains wanted.now column }
{
    wanted.contains(&column)
}

// Whether the columns of an order are among these.
fn are_wanted(order: &[OrderKey], wanted: &[usize]) -> bool
    ensures { IsTrue result ↔ All (λ k. Contains wanted.now k.column) (map key_form order.now) }
{
    for key in order {
        if !is_wanted(key.column, wanted) {
            return false;
        }
    }
    true
}

// The promised columns of an order, as far as a level shows wanted columns alone.
fn are_shown(level: &LoopLevel) -> bool
    ensures { IsTrue result ↔ (level.now.spec.base.agreement.narrow ≡ true
        → All (λ k. Contains level.now.spec.base.wanted.items k.column) (spec2_of level.now.spec).order) }
{
    if level.spec.base.agreement.narrow && level.spec.ordered {
        are_wanted(
            level.spec.wish.order.as_slice(),
            level.spec.base.wanted.as_slice(),
        )
    } else {
        true
    }
}

// Whether the first so many rows, where that is promised, are all that OFFSET and LIMIT ask for.
fn is_enough(select: &Select, promised: Option<u64>) -> bool
    ensures { IsTrue result ↔ IsEnough select.now promised }
{
    match promised {
        None => true,
        Some(given) => match select.limit {
            None => false,
            Some(most) => most as u64 <= given && select.offset as u64 <= given - most as u64,
        },
    }
}

// Whether nothing is checked again of a level's rows.
fn is_bare(level: &LoopLevel) -> bool
    ensures { IsTrue result ↔ IsBare level.now }
{
    !level.outer && level.on.is_empty() && level.conditions.is_empty()
}

// Whether no limit of a level's rows is promised, or one that leaves out none that the query asks for.
fn has_all(select: &Select, level: &LoopLevel) -> bool
    ensures { IsTrue result ↔ (IsEnough select.now (spec2_of level.now.spec).limit
        × (((spec2_of level.now.spec).limit ≡ None → ⊥) → IsBare level.now)) }
{
    if !level.spec.limited || level.spec.wish.limit.is_none() {
        return true;
    }
    is_bare(level) && is_enough(select, level.spec.wish.limit)
}

// Whether the rows of the one core over this level come in the order that the query asks for.
fn stand_in_order(select: &Select, core: &SelectCore, level: &LoopLevel) -> bool
    requires { select.now.cores.items ≡ core.now ∷ [] }
    ensures { IsTrue result ↔ ComesInOrder select.now core.now level.now }
{
    is_shown_core(core)
        && !level.outer
        && is_promised(
            select.directions.as_slice(),
            core.keys.as_slice(),
            &level.spec,
        )
        && are_shown(level)
        && has_all(select, level)
}

/// Whether the rows of a plan come in the order that its query asks for: of one core over one level, whose scan promises that order, and
/// no fewer rows than the query shows.
pub(crate) fn comes_in_order(plan: &LoopPlan) -> bool
    ensures { IsTrue result ↔ PlanInOrder plan.now }
{
    if plan.select.cores.len() != 1 || plan.loops.len() != 1 {
        return false;
    }
    let levels = plan.loops[0].as_slice();
    if levels.len() != 1 {
        return false;
    }
    stand_in_order(&plan.select, &plan.select.cores[0], &levels[0])
}
