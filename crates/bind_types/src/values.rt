//! The types of expressions that no query has as its items, as in VALUES and SET, and of a WHERE beside them.
#![tactic(auto, using(bind_names::proofs::Causes::tells_left))]

ghost use Rattle.std.specs.Prelude.{[], map, flat_map, option_map};
ghost use Rattle.bind_names.specs.Prelude.{scope_of, Passes};
ghost use Rattle.bind_types.specs.Typing.{condition_type_causes, type_causes};
ghost use Rattle.med_syntax.specs.ExprView.{expr_tree};

use crate::typing::{operand, type_of};
use bind_names::Visible;
use med_syntax::Expr as Written;
use med_value::{Cause, ColType};

/// Refuses expressions by their types, as `check_written` does the items of a query.
pub fn type_values(scope: &[Visible<'_>], values: &[Written]) -> Result<(), Cause>
    ensures { Passes (flat_map (type_causes (scope_of scope.now)) (map expr_tree values.now)) result }
{
    for value in values {
        type_of(scope, value)?;
    }
    Ok(())
}

/// Refuses WHERE by its types: 42804 where it is not boolean.
pub fn type_where(scope: &[Visible<'_>], condition: &Option<Written>) -> Result<(), Cause>
    ensures { Passes (condition_type_causes (scope_of scope.now) (option_map expr_tree condition.now)) result }
{
    match condition {
        None => Ok(()),
        Some(e) => operand(scope, e, ColType::Bool, Cause::DatatypeMismatch),
    }
}
