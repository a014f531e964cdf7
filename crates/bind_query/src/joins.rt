//! What the joins of FROM mean.
#![tactic(auto, using(
// a cause of a part is one of the whole
bind_names::proofs::Causes::tells_left, bind_names::proofs::Causes::tells_right,
// refused memory, and one cause alone
bind_names::proofs::Causes::tells_memory, bind_names::proofs::Causes::tells_one,
// no cause in either part
bind_names::proofs::Causes::none_of_two))]

ghost use Rattle.bind_names.specs.Prelude.{scope_of, shapes_of, chain_entries, Means};
ghost use Rattle.bind_query.specs.Resolving.{ResolvesCondition, ResolvesJoin, ResolvesJoins, ResolvesChain, ResolvesChains};
ghost use Rattle.bind_query.specs.Steps.{AddsJoin};
ghost use Rattle.med_syntax.specs.Prelude.{expr_tree, entry_tree, join_tree, chain_tree};
ghost use Rattle.std.specs.Prelude.{ℕ, ◌+◌, [], map, length, option_map, Some};

use crate::resolve::resolve;
use bind_names::{TableView, Visible, joined_entry, visible_of};
use med_query::{Join, JoinChain};
use med_syntax::{Chain, Entry, Expr as Written, Join as WrittenJoin};
use med_value::Cause;
use std::alloc::Global;
use tri_expr::{Expr, conjuncts};

// The conjuncts of a condition.
fn conjuncts_of(
    alloc: Global,
    scope: &[Visible<'_>],
    condition: &Written,
) -> Result<Vec<Expr>, Cause>
    ensures { ResolvesCondition (scope_of scope.now) (Some (expr_tree condition.now)) result }
{
    let resolved = resolve(alloc, scope, condition)?;
    let parts = conjuncts(alloc, &resolved);
    drop(resolved);
    Ok(parts?)
}

/// The conjuncts of WHERE or HAVING; none without it.
pub fn conditions(
    alloc: Global,
    scope: &[Visible<'_>],
    condition: &Option<Written>,
) -> Result<Vec<Expr>, Cause>
    ensures { ResolvesCondition (scope_of scope.now) (option_map expr_tree condition.now) result }
{
    match condition {
        None => Ok(Vec::new(alloc)),
        Some(e) => conjuncts_of(alloc, scope, e),
    }
}

// A join with the entry of this number.
fn join(
    alloc: Global,
    scope: &[Visible<'_>],
    table: usize,
    width: usize,
    join: &WrittenJoin,
) -> Result<Join, Cause>
    ensures { ResolvesJoin (scope_of scope.now) table width (join_tree join.now) result }
{
    match join {
        WrittenJoin::Inner(_, on) => {
            let on = conjuncts_of(alloc, scope, on)?;
            Ok(Join::Inner { table, on })
        }
        WrittenJoin::Left(_, on) => {
            let on = conjuncts_of(alloc, scope, on)?;
            Ok(Join::Left { table, width, on })
        }
        WrittenJoin::Cross(_) => Ok(Join::Cross { table }),
    }
}

// One join more, behind the entry of a number; what its entry brings stands behind the scope. Answers the number of its entry.
fn push_join<'a>(
    alloc: Global,
    tables: &'a [TableView<'a>],
    written: &'a WrittenJoin,
    last: usize,
    scope: &mut Vec<Visible<'a>>,
    out: &mut Vec<Join>,
) -> Result<usize, Cause>
    ensures { AddsJoin (shapes_of tables.now) last (join_tree written.now)
        scope.old.items scope.new.items out.old.items out.new.items result }
{
    let table = match last.checked_add(1) {
        Some(table) => table,
        None => return Err(Cause::OutOfMemory),
    };
    let visible = visible_of(tables, joined_entry(written));
    let width = visible.columns.len();
    scope.push(visible)?;
    let joined = join(alloc, scope.as_slice(), table, width, written)?;
    out.push(joined)?;
    Ok(table)
}

// The joins behind the entry of this number. ON sees what stands on its left in its own chain, and its own entry.
fn joins<'a>(
    alloc: Global,
    tables: &'a [TableView<'a>],
    first: &'a Entry,
    number: usize,
    joins: &'a [WrittenJoin],
) -> Result<Vec<Join>, Cause>
    ensures { ResolvesJoins (shapes_of tables.now) (entry_tree first.now) number (map join_tree joins.now) result }
{
    let mut scope = Vec::new(alloc);
    scope.push(visible_of(tables, first))?;
    let mut out = Vec::new(alloc);
    let mut last = number;
    for written in joins {
        last = push_join(alloc, tables, written, last, &mut scope, &mut out)?;
    }
    Ok(out)
}

// A chain whose first entry has this number.
fn chain(
    alloc: Global,
    tables: &[TableView<'_>],
    number: usize,
    chain: &Chain,
) -> Result<JoinChain, Cause>
    ensures { ResolvesChain (shapes_of tables.now) number (chain_tree chain.now) result }
{
    let joins = joins(alloc, tables, &chain.first, number, chain.joins.as_slice())?;
    Ok(JoinChain {
        first: number,
        joins,
    })
}

// The number of the first entry behind a chain.
#[tactic(auto, using(bind_names::proofs::Causes::tells_memory, crate::proofs::JoinSteps::after_chain))]
fn after_chain(number: usize, chain: &Chain) -> Result<usize, Cause>
    ensures { Means (λ (n : ℕ). n) [] (number + length (chain_entries (chain_tree chain.now))) result }
{
    let last = match number.checked_add(chain.joins.as_slice().len()) {
        Some(last) => last,
        None => return Err(Cause::OutOfMemory),
    };
    match last.checked_add(1) {
        Some(next) => Ok(next),
        None => Err(Cause::OutOfMemory),
    }
}

/// The chains of FROM; their entries are counted over all of them, from this number.
pub fn chains(
    alloc: Global,
    tables: &[TableView<'_>],
    first: usize,
    chains: &[Chain],
) -> Result<Vec<JoinChain>, Cause>
    ensures { ResolvesChains (shapes_of tables.now) first (map chain_tree chains.now) result }
{
    let mut out = Vec::new(alloc);
    let mut number = first;
    for written in chains {
        let chain = chain(alloc, tables, number, written)?;
        out.push(chain)?;
        number = after_chain(number, written)?;
    }
    Ok(out)
}
