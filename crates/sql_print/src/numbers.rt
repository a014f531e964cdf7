//! Whether each number of a query is one that a value can have: at most 2^63 - 1, and directly behind a unary minus at most 2^63.

ghost use Rattle.med_syntax.specs.Prelude.{in_range, expr_tree, item_tree, items_tree, join_tree, chain_tree, core_tree, key_tree, limit_tree, select_tree, statement_tree, all_in_range, perhaps_in_range, item_in_range, join_in_range, chain_in_range, key_in_range, limit_in_range, count_in_range, core_in_range, select_in_range, statement_in_range};
ghost use Rattle.std.specs.Prelude.{◌≡◌, map, option_map};

use med_syntax::number_range::is_in_range;
use med_syntax::{Chain, Core, Expr, Item, Join, Limit, OrderKey, Select, Statement};

/// The greatest number of LIMIT and OFFSET.
const MAX_COUNT: u64 = 9223372036854775807;

/// Whether each number of the item is in range.
fn is_item_in_range(item: &Item) -> bool
    ensures { result ≡ item_in_range (item_tree item.now) }
{
    match item {
        Item::All | Item::AllOf(_) => true,
        Item::Expression(expr, _) => is_in_range(expr),
    }
}

/// Whether each number of the items is in range.
fn are_items_in_range(items: &[Item]) -> bool
    ensures { result ≡ all_in_range item_in_range (items_tree items.now) }
{
    let mut left = items;
    while let [item, rest @ ..] = left {
        if !is_item_in_range(item) {
            return false;
        }
        left = rest;
    }
    true
}

/// Whether each number of the join is in range.
fn is_join_in_range(join: &Join) -> bool
    ensures { result ≡ join_in_range (join_tree join.now) }
{
    match join {
        Join::Inner(_, on) | Join::Left(_, on) => is_in_range(on),
        Join::Cross(_) => true,
    }
}

/// Whether each number of the joins is in range.
fn are_joins_in_range(joins: &[Join]) -> bool
    ensures { result ≡ all_in_range join_in_range (map join_tree joins.now) }
{
    let mut left = joins;
    while let [join, rest @ ..] = left {
        if !is_join_in_range(join) {
            return false;
        }
        left = rest;
    }
    true
}

/// Whether each number of the chain is in range.
fn is_chain_in_range(chain: &Chain) -> bool
    ensures { result ≡ chain_in_range (chain_tree chain.now) }
{
    are_joins_in_range(&chain.joins)
}

/// Whether each number of the chains is in range.
fn are_chains_in_range(chains: &[Chain]) -> bool
    ensures { result ≡ all_in_range chain_in_range (map chain_tree chains.now) }
{
    let mut left = chains;
    while let [chain, rest @ ..] = left {
        if !is_chain_in_range(chain) {
            return false;
        }
        left = rest;
    }
    true
}

/// Whether each number of the condition is in range.
pub fn is_condition_in_range(condition: &Option<Expr>) -> bool
    ensures { result ≡ perhaps_in_range in_range (option_map expr_tree condition.now) }
{
    match condition {
        Some(condition) => is_in_range(condition),
        None => true,
    }
}

/// Whether each number of the core is in range.
fn is_core_in_range(core: &Core) -> bool
    ensures { result ≡ core_in_range (core_tree core.now) }
{
    are_items_in_range(&core.items)
        && (are_chains_in_range(&core.from)
            && (is_condition_in_range(&core.condition) && is_condition_in_range(&core.having)))
}

/// Whether each number of the cores is in range.
fn are_cores_in_range(cores: &[Core]) -> bool
    ensures { result ≡ all_in_range core_in_range (map core_tree cores.now) }
{
    let mut left = cores;
    while let [core, rest @ ..] = left {
        if !is_core_in_range(core) {
            return false;
        }
        left = rest;
    }
    true
}

/// Whether each number of the keys is in range.
fn are_keys_in_range(keys: &[OrderKey]) -> bool
    ensures { result ≡ all_in_range key_in_range (map key_tree keys.now) }
{
    let mut left = keys;
    while let [key, rest @ ..] = left {
        if !is_in_range(&key.key) {
            return false;
        }
        left = rest;
    }
    true
}

/// Whether the number of LIMIT is in range.
fn is_limit_in_range(limit: Option<Limit>) -> bool
    ensures { result ≡ perhaps_in_range limit_in_range (option_map limit_tree limit) }
{
    match limit {
        Some(Limit::Rows(rows)) => rows <= MAX_COUNT,
        _ => true,
    }
}

/// Whether the number of OFFSET is in range.
fn is_offset_in_range(offset: Option<u64>) -> bool
    ensures { result ≡ perhaps_in_range count_in_range offset }
{
    match offset {
        Some(rows) => rows <= MAX_COUNT,
        None => true,
    }
}

/// Whether each number of the query is in range.
fn is_select_in_range(select: &Select) -> bool
    ensures { result ≡ select_in_range (select_tree select.now) }
{
    is_core_in_range(&select.core)
        && are_cores_in_range(&select.others)
        && (are_keys_in_range(&select.keys)
            && (is_limit_in_range(select.limit) && is_offset_in_range(select.offset)))
}

/// Whether each number of the statement is in range.
pub fn is_statement_in_range(statement: &Statement) -> bool
    ensures { result ≡ statement_in_range (statement_tree statement.now) }
{
    match statement {
        Statement::Select(select) => is_select_in_range(select),
    }
}
