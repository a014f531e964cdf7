//! The types of what a query writes.
#![tactic(auto, using(bind_names::proofs::Causes::tells_left, bind_names::proofs::Causes::tells_right, bind_names::proofs::Causes::tells_memory, bind_names::proofs::Causes::tells_one, bind_names::proofs::Causes::none_of_two))]

ghost use Rattle.std.specs.Prelude.{◌≡◌, ◌++◌, ◌∷◌, [], map, flat_map};
ghost use Rattle.med_syntax.specs.Prelude.{expr_tree, item_tree, join_tree, chain_tree, key_tree, core_tree, select_tree};
ghost use Rattle.bind_names.specs.Prelude.{scope_of, table_shape, visible, Passes};
ghost use Rattle.bind_types.specs.Typing as spec;
ghost use Rattle.bind_types.specs.Kinds.{written_key_causes, asked_type_causes};

use crate::typing::{operand, type_of};
use crate::values::type_where;
use bind_names::{TableView, Visible, from_in_view, joined_entry, visible_of};
use med_syntax::{Chain, Core, Expr as Written, Item, Join, OrderKey, Select};
use med_value::{Cause, ColType};
use std::alloc::Global;

// Refuses a condition of ON by its types.
fn check_on(scope: &[Visible<'_>], on: &Written) -> Result<(), Cause>
    ensures { Passes (spec.as_where (scope_of scope.now) (expr_tree on.now)) result }
{
    operand(scope, on, ColType::Bool, Cause::DatatypeMismatch)
}

// Refuses a join by the types of its ON, if it has one.
fn check_join(scope: &[Visible<'_>], join: &Join) -> Result<(), Cause>
    ensures { Passes (spec.on_type_causes (scope_of scope.now) (join_tree join.now)) result }
{
    match join {
        Join::Inner(_, on) => check_on(scope, on),
        Join::Left(_, on) => check_on(scope, on),
        Join::Cross(_) => Ok(()),
    }
}

// Refuses an ON by its types. It sees what stands on its left in its own chain, and its own entry. Of one entry alone no list is made.
fn check_joins<'a>(
    alloc: Global,
    first: Visible<'a>,
    joins: &'a [Join],
    tables: &'a [TableView<'a>],
) -> Result<(), Cause>
    ensures { Passes (spec.joins_type_causes (map table_shape tables.now) (visible first.entry ∷ []) (map join_tree joins.now)) result }
{
    if joins.is_empty() {
        return Ok(());
    }
    let mut seen = Vec::new(alloc);
    seen.push(first)?;
    for join in joins {
        seen.push(visible_of(tables, joined_entry(join)))?;
        check_join(seen.as_slice(), join)?;
    }
    Ok(())
}

// Refuses a chain by the types of each ON.
fn check_chain(alloc: Global, chain: &Chain, tables: &[TableView<'_>]) -> Result<(), Cause>
    ensures { Passes (spec.chain_type_causes (map table_shape tables.now) (chain_tree chain.now)) result }
{
    check_joins(
        alloc,
        visible_of(tables, &chain.first),
        chain.joins.as_slice(),
        tables,
    )
}

// Refuses FROM by the types of each ON.
fn check_from(alloc: Global, chains: &[Chain], tables: &[TableView<'_>]) -> Result<(), Cause>
    ensures { Passes (flat_map (spec.chain_type_causes (map table_shape tables.now)) (map chain_tree chains.now)) result }
{
    for chain in chains {
        check_chain(alloc, chain, tables)?;
    }
    Ok(())
}

// Refuses an item by the types of its expression, if it has one.
fn check_item(scope: &[Visible<'_>], item: &Item) -> Result<(), Cause>
    ensures { Passes (spec.item_type_causes (scope_of scope.now) (item_tree item.now)) result }
{
    match item {
        Item::All | Item::AllOf(_) => Ok(()),
        Item::Expression(e, _) => {
            type_of(scope, e)?;
            Ok(())
        }
    }
}

// The same of each item.
fn check_items(scope: &[Visible<'_>], items: &[Item]) -> Result<(), Cause>
    ensures { Passes (flat_map (spec.item_type_causes (scope_of scope.now)) (map item_tree items.now)) result }
{
    for item in items {
        check_item(scope, item)?;
    }
    Ok(())
}

// Refuses an order key by its types: the position and the name of an output have none.
fn check_key(scope: &[Visible<'_>], key: &OrderKey) -> Result<(), Cause>
    ensures { Passes (written_key_causes (scope_of scope.now) (key_tree key.now)) result }
{
    type_of(scope, &key.key)?;
    Ok(())
}

// Refuses ORDER BY by the types of its keys.
fn check_keys(scope: &[Visible<'_>], keys: &[OrderKey]) -> Result<(), Cause>
    ensures { Passes (flat_map (written_key_causes (scope_of scope.now)) (map key_tree keys.now)) result }
{
    for key in keys {
        check_key(scope, key)?;
    }
    Ok(())
}

// Refuses what a core asks of its entries by its types.
fn check_asked(scope: &[Visible<'_>], core: &Core) -> Result<(), Cause>
    ensures { Passes (asked_type_causes (scope_of scope.now) (core_tree core.now)) result }
{
    check_items(scope, core.items.as_slice())?;
    type_where(scope, &core.condition)?;
    type_where(scope, &core.having)
}

// Refuses a core by the types of what it writes.
fn check_core(alloc: Global, core: &Core, tables: &[TableView<'_>]) -> Result<(), Cause>
    ensures { Passes (spec.core_written_causes (map table_shape tables.now) (core_tree core.now)) result }
{
    check_from(alloc, core.from.as_slice(), tables)?;
    let seen = from_in_view(alloc, tables, core.from.as_slice())?;
    check_asked(seen.as_slice(), core)
}

// The same of each core.
fn check_cores(alloc: Global, cores: &[Core], tables: &[TableView<'_>]) -> Result<(), Cause>
    ensures { Passes (flat_map (spec.core_written_causes (map table_shape tables.now)) (map core_tree cores.now)) result }
{
    for core in cores {
        check_core(alloc, core, tables)?;
    }
    Ok(())
}

// Refuses ORDER BY by the types of its keys, which see what the first core has in view; where there are none, no list of that is made.
fn check_order(alloc: Global, select: &Select, tables: &[TableView<'_>]) -> Result<(), Cause>
    ensures { Passes (spec.order_type_causes (map table_shape tables.now) (select_tree select.now)) result }
{
    let keys = select.keys.as_slice();
    if keys.is_empty() {
        return Ok(());
    }
    let seen = from_in_view(alloc, tables, select.core.from.as_slice())?;
    check_keys(seen.as_slice(), keys)
}

/// Refuses a query by the types of what it writes: 42804 where a condition is not boolean, 42883 where an operator or a function has no
/// such operands, 22025 where a pattern of LIKE ends in a lone backslash; and 53200 where memory was refused, or more columns are in view
/// than there are places.
pub fn check_written(alloc: Global, select: &Select, tables: &[TableView<'_>]) -> Result<(), Cause>
    ensures { Passes (spec.written_type_causes (map table_shape tables.now) (select_tree select.now)) result }
{
    check_core(alloc, &select.core, tables)?;
    check_cores(alloc, select.others.as_slice(), tables)?;
    check_order(alloc, select, tables)
}
