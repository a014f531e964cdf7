//! Expressions over what is in view: a row of VALUES, which sees no column, and SET and WHERE, which see those of one table.
#![tactic(auto, using(
// a cause of a part is one of the whole
bind_names::proofs::Causes::tells_left, bind_names::proofs::Causes::tells_right,
// one cause alone
bind_names::proofs::Causes::tells_one,
// no cause in either part
bind_names::proofs::Causes::none_of_two))]

ghost use Rattle.std.specs.Prelude.{◌≡◌, map, option_map};
ghost use Rattle.bind_names.specs.Prelude.{scope_of, visible, Passes};
ghost use Rattle.bind_types.specs.Typing.{no_aggregate};
ghost use Rattle.med_syntax.specs.Prelude.{expr_tree, entry_tree};
ghost use Rattle.med_value.specs.Column.{column_of};
ghost use Rattle.tri_expr.specs.Tree.{tree};
ghost use Rattle.bind_write.specs.Asking.{BindsValues, types_over, view_of};

use bind_names::{Visible, any_has_aggregate};
use bind_query::joins::conditions;
use bind_query::values::resolve_values;
use bind_types::{type_values, type_where};
use med_syntax::{Entry, Expr as Written};
use med_value::{Cause, ColumnDef};
use std::alloc::Global;
use tri_expr::Expr;

/// Expressions with their names resolved, and the conjuncts of WHERE.
#[derive(Debug, Drop)]
pub struct BoundValues {
    /// The expressions, in their order.
    pub values: Vec<Expr>,
    /// The conjuncts of WHERE; none without it.
    pub conditions: Vec<Expr>,
}

/// What SET and WHERE see: the columns of the table, under the entry's alias or else its name.
pub fn table_in_view<'a>(entry: &'a Entry, columns: &'a [ColumnDef]) -> Visible<'a>
    ensures { visible result ≡ view_of (entry_tree entry.now) (map column_of columns.now) }
{
    let name = match &entry.alias {
        Some(alias) => alias.as_str(),
        None => entry.table.as_str(),
    };
    Visible { name, columns }
}

// 42803 for an aggregate.
fn check_no_aggregate(values: &[Expr]) -> Result<(), Cause>
    ensures { Passes (no_aggregate (map tree values.now)) result }
{
    if any_has_aggregate(values) {
        Err(Cause::Grouping)
    } else {
        Ok(())
    }
}

/// Refuses expressions and a WHERE by their types, and by an aggregate in what they mean: `values`, and `conditions` as the conjuncts of
/// WHERE. It takes no memory.
///
/// # Errors
///
/// A cause of types, or 42803 for an aggregate.
pub fn check_types(
    scope: &[Visible<'_>],
    written: &[Written],
    condition: &Option<Written>,
    values: &[Expr],
    conditions: &[Expr],
) -> Result<(), Cause>
    ensures { Passes (types_over (scope_of scope.now) (map expr_tree written.now) (option_map expr_tree condition.now)
        (map tree values.now) (map tree conditions.now)) result }
{
    type_values(scope, written)?;
    type_where(scope, condition)?;
    check_no_aggregate(conditions)?;
    check_no_aggregate(values)
}

/// Expressions and a WHERE that see this, with their names resolved (SQL:2016, 14.9 <delete statement: searched>, 14.14 <update statement:
/// searched>).
///
/// # Errors
///
/// A cause of names; where none stands a cause of types, or 42803 for an aggregate; and 53200 where memory was refused.
pub fn bind_values(
    alloc: Global,
    scope: &[Visible<'_>],
    values: &[Written],
    condition: &Option<Written>,
) -> Result<BoundValues, Cause>
    ensures { BindsValues (scope_of scope.now) (map expr_tree values.now) (option_map expr_tree condition.now) result }
{
    let found = BoundValues {
        values: resolve_values(alloc, scope, values)?,
        conditions: conditions(alloc, scope, condition)?,
    };
    check_types(
        scope,
        values,
        condition,
        found.values.as_slice(),
        found.conditions.as_slice(),
    )?;
    Ok(found)
}
