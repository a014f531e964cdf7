//! What is left of a query over the rows that its loops gave.
ghost use Rattle.std.specs.Prelude.{◌≡◌, IfOk, map, true};
ghost use Rattle.med_query.specs.Select.{core_of, query_of, is_safe_from, are_safe_cores};
ghost use Rattle.scan_loops.specs.Conjuncts.{risky_of};
ghost use Rattle.loop_runs.specs.Leaving.{IsOneTable};
ghost use Rattle.scan_loops.specs.Gathered.{left_core as spec_left_core, left_cores as spec_left_cores, left_query};

use med_query::{JoinChain, Select, SelectCore};
use med_value::NoMemory;
use std::alloc::Global;
use tri_expr::{Expr, is_risky};

// The conjuncts that may fault, in their order.
fn risky_ones(alloc: Global, conditions: Vec<Expr>) -> Result<Vec<Expr>, NoMemory>
    ensures { IfOk result (λ out. out.items ≡ risky_of conditions.items) }
{
    let mut left = conditions.into_iter();
    let mut out = Vec::new(alloc);
    while let Some(condition) = left.next() {
        if is_risky(&condition) {
            out.push(condition)?;
        }
    }
    Ok(out)
}

// FROM of the table of this number alone.
fn one_table(alloc: Global, table: usize) -> Result<Vec<JoinChain>, NoMemory>
    ensures { IfOk result (λ from. IsOneTable table from.items) }
{
    let mut from = Vec::new(alloc);
    from.push(JoinChain {
        first: table,
        joins: Vec::new(alloc),
    })?;
    Ok(from)
}

// What is left of a core over the table of this number.
fn left_core(alloc: Global, table: usize, core: SelectCore) -> Result<SelectCore, NoMemory>
    ensures is { IfOk result (λ left. core_of left ≡ spec_left_core table core) }
    ensures safe { IfOk result (λ left. is_safe_from left.from.items ≡ true) }
{
    let SelectCore {
        from: _from,
        conditions,
        grouping,
        items,
        distinct,
        keys,
    } = core;
    let from = one_table(alloc, table)?;
    let conditions = risky_ones(alloc, conditions)?;
    Ok(SelectCore {
        from,
        conditions,
        grouping,
        items,
        distinct,
        keys,
    })
}

// What is left of each of several cores, over one table after another.
fn left_cores(alloc: Global, cores: Vec<SelectCore>) -> Result<Vec<SelectCore>, NoMemory>
    ensures are { IfOk result (λ left. map core_of left.items ≡ spec_left_cores 0 cores.items) }
    ensures safe { IfOk result (λ left. are_safe_cores left.items ≡ true) }
{
    let mut coming = cores.into_iter();
    let mut out = Vec::new(alloc);
    while let Some(core) = coming.next() {
        let left = left_core(alloc, out.len(), core)?;
        out.push(left)?;
    }
    Ok(out)
}

/// What is left of a query over the rows that the loops of its cores gave, each core over the table of its number: what its parts mean, but
/// FROM and the conjuncts of WHERE that the loops decided.
///
/// Refused only for want of memory.
pub(crate) fn left_select(alloc: Global, select: Select) -> Result<Select, NoMemory>
    ensures is { IfOk result (λ left. query_of left ≡ left_query select) }
    ensures safe { IfOk result (λ left. are_safe_cores left.cores.items ≡ true) }
{
    let Select {
        cores,
        directions,
        offset,
        limit,
    } = select;
    let cores = left_cores(alloc, cores)?;
    Ok(Select {
        cores,
        directions,
        offset,
        limit,
    })
}
