//! What is wished of a query's scans: the order of their rows, and how many of them are enough.

ghost use Rattle.std.specs.Prelude.{◌≡◌, IfOk, map, option_map};
ghost use Rattle.std.specs.List.{list_all};
ghost use Rattle.tri_expr.specs.Tree.{tree};
ghost use Rattle.med_query.specs.Form.{direction_of};
ghost use Rattle.fdw_api.specs.Wishes.{key_form, wish_form};
ghost use Rattle.scan_loops.specs.Ordered.{key_column as spec_key_column, order_of as spec_order_of};
ghost use Rattle.scan_loops.specs.Streamed.{all_safe};
ghost use Rattle.med_planner.specs.Offered.{offer_form};
ghost use Rattle.med_planner.specs.Wished.{no_wish as spec_no_wish, is_shown_core as spec_is_shown_core, rows_enough as spec_rows_enough};
ghost use Rattle.med_planner.specs.Wished.{core_wish as spec_core_wish, wish_of as spec_wish_of};

use crate::offering::LoopOffer;
use fdw_api::wishes::{OrderKey, Wish};
use med_query::{Select, SelectCore, SortDirection};
use med_value::NoMemory;
use std::alloc::Global;
use tri_expr::{Expr, is_risky};

// Nothing is wished.
fn no_wish(alloc: Global) -> Wish
    ensures { wish_form result ≡ spec_no_wish }
{
    Wish {
        order: Vec::new(alloc),
        limit: None,
    }
}

// Whether none of the expressions may fault.
fn are_safe(es: &[Expr]) -> bool
    ensures { result ≡ all_safe es.now }
{
    for e in es {
        if is_risky(e) {
            return false;
        }
    }
    true
}

// Whether a core's rows can be shown as they come.
fn is_shown_core(core: &SelectCore) -> bool
    ensures { result ≡ spec_is_shown_core core.now }
{
    are_safe(core.conditions.as_slice())
        && core.grouping.is_none()
        && are_safe(core.items.as_slice())
        && !core.distinct
}

// The column that an order key is, parentheses being looked through; none where it is another expression.
fn key_column(key: &Expr) -> Option<usize>
    ensures { result ≡ spec_key_column (tree key.now) }
{
    match key {
        Expr::Column(at) => Some(*at),
        Expr::Parenthesised(inner) => key_column(inner),
        _ => None,
    }
}

// The order of a table's rows that ORDER BY asks for, where each of its keys is a column.
fn order_of(
    alloc: Global,
    directions: &[SortDirection],
    keys: &[Expr],
) -> Result<Option<Vec<OrderKey>>, NoMemory>
    ensures { IfOk result (λ o. option_map (λ v. map key_form v.items) o
        ≡ spec_order_of (map direction_of directions.now) (map tree keys.now)) }
{
    let mut order = Vec::new(alloc);
    let mut left = directions;
    for key in keys {
        let Some((direction, more)) = left.split_first() else {
            return Ok(None);
        };
        let Some(column) = key_column(key) else {
            return Ok(None);
        };
        order.push(OrderKey {
            column,
            desc: direction.descending,
            nulls_first: direction.nulls_first,
        })?;
        left = more;
    }
    if left.is_empty() {
        Ok(Some(order))
    } else {
        Ok(None)
    }
}

// The rows that OFFSET leaves out, with as many as LIMIT lets through.
fn rows_enough(offset: usize, limit: Option<usize>) -> Option<u64>
    ensures { result ≡ spec_rows_enough offset limit }
{
    match limit {
        None => None,
        Some(most) => match offset.checked_add(most) {
            None => None,
            Some(enough) => Some(enough as u64),
        },
    }
}

// Whether each of these marks is set.
fn are_set(marks: &[bool]) -> bool
    ensures { result ≡ list_all (λ b. b) marks.now }
{
    for mark in marks {
        if !*mark {
            return false;
        }
    }
    true
}

// What is wished of the scan of a query's only entry.
fn core_wish(
    alloc: Global,
    select: &Select,
    core: &SelectCore,
    offer: &LoopOffer,
) -> Result<Wish, NoMemory>
    ensures { IfOk result (λ w. wish_form w ≡ spec_core_wish select.now core.now (offer_form offer.now)) }
{
    if !is_shown_core(core) {
        return Ok(no_wish(alloc));
    }
    match order_of(alloc, select.directions.as_slice(), core.keys.as_slice())? {
        None => Ok(no_wish(alloc)),
        Some(order) => {
            let limit = if are_set(offer.entry.offered.as_slice()) {
                rows_enough(select.offset, select.limit)
            } else {
                None
            };
            Ok(Wish { order, limit })
        }
    }
}

/// What is wished of the scans of a query, where these are the offers of its cores. A query of one core with one entry of FROM, that does
/// not group or leave out equal rows and of which no part may fault, wishes its order where each of its keys is a column (parentheses are
/// looked through), and then with LIMIT, where each condition is offered to the scan, as many rows as OFFSET and LIMIT take together, if
/// there is such a number. Of any other query nothing is wished: an empty order, and no limit.
///
/// Refused only for want of memory.
///
/// PostgreSQL: Writing a Foreign Data Wrapper, `GetForeignPaths`.
pub fn wish_of(alloc: Global, select: &Select, offers: &[Vec<LoopOffer>]) -> Result<Wish, NoMemory>
    ensures { IfOk result (λ w. wish_form w ≡ spec_wish_of select.now (map (λ os. map offer_form os.items) offers.now)) }
{
    match (select.cores.as_slice(), offers) {
        ([core], [offered]) => match offered.as_slice() {
            [offer] => core_wish(alloc, select, core, offer),
            _ => Ok(no_wish(alloc)),
        },
        _ => Ok(no_wish(alloc)),
    }
}
