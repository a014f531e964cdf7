//! The names of a query.
#![tactic(auto, using(bind_names::proofs::Causes::tells_left, bind_names::proofs::Causes::tells_right, bind_names::proofs::Causes::tells_memory, bind_names::proofs::Causes::tells_one, bind_names::proofs::Causes::none_of_two))]

ghost use Rattle.bind_names.specs.Prelude.{limit_of, core_alias_causes, entry_causes, query_entries, table_shape, Passes};
ghost use Rattle.med_binder.specs.Looking.{LooksUp};
ghost use Rattle.med_syntax.specs.QueryView.{core_tree, select_tree, limit_tree};
ghost use Rattle.std.specs.Prelude.{◌≡◌, [], map, flat_map, option_map, unwrap_or};

use crate::bound::{BoundEntry, BoundQuery};
use crate::cores::{first_core, resolved_cores};
use bind_names::{TableView, check_names, from_in_view};
use bind_query::keys::directions;
use med_query::Select as Resolved;
use med_syntax::{Core, Limit, Select};
use med_value::Cause;
use std::alloc::Global;

// 42712 where two entries of a core have one name.
fn check_core_names(alloc: Global, tables: &[TableView<'_>], core: &Core) -> Result<(), Cause>
    ensures { Passes (core_alias_causes (core_tree core.now)) result }
{
    let scope = from_in_view(alloc, tables, core.from.as_slice())?;
    check_names(scope.as_slice())
}

// The same of each core.
fn check_each_names(alloc: Global, tables: &[TableView<'_>], cores: &[Core]) -> Result<(), Cause>
    ensures { Passes (flat_map core_alias_causes (map core_tree cores.now)) result }
{
    for core in cores {
        check_core_names(alloc, tables, core)?;
    }
    Ok(())
}

// How many rows LIMIT leaves at most: without it, and by ALL, there is no bound.
fn rows_left(limit: &Option<Limit>) -> Option<usize>
    ensures { result ≡ limit_of (option_map limit_tree limit.now) }
{
    match limit {
        None => None,
        Some(limit) => match limit {
            Limit::All => None,
            Limit::Rows(n) => Some(*n as usize),
        },
    }
}

// How many rows OFFSET skips; 0 without it.
fn rows_skipped(offset: &Option<u64>) -> usize
    ensures { result ≡ unwrap_or offset.now 0 }
{
    match offset {
        None => 0,
        Some(n) => *n as usize,
    }
}

/// Looks the names of a query up whose tables are known, and which has these entries: 42P01 where a qualifier names no visible entry,
/// 42712 where two entries of a core have one name, 42703 where a name means no column, 42702 where it can mean several columns or
/// outputs, 42601 for `*` without FROM, 42P10 for an order key that is the position of no output, that is no output under DISTINCT, or
/// that is none of a query with UNION ALL.
pub(crate) fn look_up(
    alloc: Global,
    select: &Select,
    tables: &[TableView<'_>],
    entries: Vec<BoundEntry>,
) -> Result<BoundQuery, Cause>
    requires { flat_map (entry_causes (map table_shape tables.now)) (query_entries (select_tree select.now)) ≡ [] }
    ensures { LooksUp (map table_shape tables.now) (select_tree select.now) entries.items result }
{
    let seen = from_in_view(alloc, tables, select.core.from.as_slice())?;
    check_names(seen.as_slice())?;
    check_each_names(alloc, tables, select.others.as_slice())?;
    let first = first_core(alloc, tables, seen.as_slice(), select)?;
    let found = resolved_cores(alloc, tables, first.found, &first.sorting, select)?;
    let directions = directions(alloc, select.keys.as_slice())?;
    Ok(BoundQuery {
        names: first.names,
        entries,
        select: Resolved {
            cores: found.cores,
            directions,
            offset: rows_skipped(&select.offset),
            limit: rows_left(&select.limit),
        },
        kinds: found.kinds,
    })
}
