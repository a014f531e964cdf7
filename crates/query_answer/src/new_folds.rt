//! The groups of a core before any row came.
ghost use Rattle.std.specs.Prelude.{◌≡◌, [], IfOk};
ghost use Rattle.query_answer.specs.Folding.{classes_so_far, Folds, IsLifted};
ghost use Rattle.query_answer.specs.Running.{ClassesRun, runnings_in};

use crate::group_folds::GroupFold;
use crate::leaves::{Leaf, all_lifted};
use crate::row_keys::empty_key;
use crate::running::{Running, all_fresh};
use indexmap::IndexSet;
use med_value::NoMemory;
use std::alloc::Global;
use tri_expr::Expr;

// The groups of no rows: one where there is no column, else none.
fn no_rows(alloc: Global, columns: &[usize], leaves: &[Leaf]) -> Result<Vec<Vec<Running>>, NoMemory>
    ensures { IfOk result (λ groups. ClassesRun leaves.now (classes_so_far columns.now []) (runnings_in groups.items)) }
{
    let mut groups = Vec::new(alloc);
    if columns.is_empty() {
        groups.push(all_fresh(alloc, leaves)?)?;
    }
    Ok(groups)
}

/// The groups of no rows, of which these expressions ask. Refused only for want of memory.
pub(crate) fn new_fold<'a>(
    alloc: Global,
    columns: &'a [usize],
    having: &[Expr],
    keys: &[Expr],
    items: &[Expr],
) -> Result<GroupFold<'a>, NoMemory>
    ensures columns { IfOk result (λ f. f.columns.now ≡ columns.now) }
    ensures folds { IfOk result (λ f. Folds [] f) }
    ensures lifted { IfOk result (λ f. IsLifted having.now keys.now items.now f) }
{
    let mut leaves = Vec::new(alloc);
    let having = all_lifted(alloc, having, &mut leaves)?;
    let keys = all_lifted(alloc, keys, &mut leaves)?;
    let items = all_lifted(alloc, items, &mut leaves)?;
    let groups = no_rows(alloc, columns, leaves.as_slice())?;
    Ok(GroupFold {
        columns,
        leaves,
        having,
        keys,
        items,
        count: 0,
        seen: IndexSet::new(alloc),
        groups,
        last: empty_key(alloc),
        is_whole: true,
    })
}
