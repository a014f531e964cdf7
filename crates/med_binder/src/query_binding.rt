//! Queries over tables that are known, bound.

ghost use Rattle.bind_names.specs.Prelude.{meant_in, entry_causes, select_name_causes, query_entries, table_shape, Passes};
ghost use Rattle.bind_types.specs.Typing.{answer_types, select_type_causes};
ghost use Rattle.med_binder.specs.Binding.{bound_kinds};
ghost use Rattle.med_binder.specs.Looking.{IsLookedUp};
ghost use Rattle.med_binder.specs.Turns.{BindsKnown};
ghost use Rattle.med_query.specs.Select.{are_safe_cores};
ghost use Rattle.med_syntax.specs.QueryView.{select_tree};
ghost use Rattle.std.specs.Prelude.{◌≡◌, [], flat_map, map, true, IfOk, OnOk};

use crate::bound::{BoundEntry, BoundQuery};
use crate::look_up::look_up;
use bind_names::TableView;
use bind_types::{check_form, check_outputs, check_written};
use med_syntax::Select;
use med_value::Cause;
use std::alloc::Global;

/// Checks the types of a query over tables that have each that its FROM names, its names being resolved: the types of what it writes, then
/// where its aggregates and columns stand, then the outputs of its cores.
pub(crate) fn check_types(
    alloc: Global,
    select: &Select,
    tables: &[TableView<'_>],
    bound: &BoundQuery,
) -> Result<(), Cause>
    ensures passes { IsLookedUp (map table_shape tables.now) (select_tree select.now) bound.now.entries.items bound.now
        → Passes (select_type_causes (map table_shape tables.now) (select_tree select.now)) result }
    ensures safe { OnOk result (are_safe_cores bound.now.select.cores.items ≡ true) }
{
    check_written(alloc, select, tables)?;
    check_form(&bound.select)?;
    check_outputs(bound.kinds.as_slice(), bound.names.len())
}

/// A query over tables that have each that its FROM names, and its entries: its names, then its types.
pub(crate) fn bind_known(
    alloc: Global,
    select: &Select,
    tables: &[TableView<'_>],
    entries: Vec<BoundEntry>,
) -> Result<BoundQuery, Cause>
    requires { flat_map (entry_causes (map table_shape tables.now)) (query_entries (select_tree select.now)) ≡ [] }
    ensures binds { BindsKnown (select_name_causes (map table_shape tables.now) (select_tree select.now))
        (select_type_causes (map table_shape tables.now) (select_tree select.now))
        (meant_in (map table_shape tables.now) (select_tree select.now)) entries.items result }
    ensures kinds { IfOk result (λ b. bound_kinds b ≡ answer_types (map table_shape tables.now) (select_tree select.now)) }
    ensures safe { IfOk result (λ b. are_safe_cores b.select.cores.items ≡ true) }
{
    let bound = look_up(alloc, select, tables, entries)?;
    check_types(alloc, select, tables, &bound)?;
    Ok(bound)
}
