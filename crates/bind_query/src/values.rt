//! Expressions that no query has as its items: a row of VALUES, and what SET writes.
#![tactic(auto, using(bind_names::proofs::Causes::tells_memory))]

ghost use Rattle.bind_names.specs.Prelude.{resolved, name_causes, scope_of, Means};
ghost use Rattle.med_syntax.specs.ExprView.{expr_tree};
ghost use Rattle.std.specs.Prelude.{map, flat_map};
ghost use Rattle.tri_expr.specs.Tree.{tree};

use crate::resolve::resolve;
use bind_names::Visible;
use med_syntax::Expr as Written;
use med_value::Cause;
use std::alloc::Global;
use tri_expr::Expr;

/// The expressions with their names resolved, or why a name in one is refused. The list takes one block of memory, however long it is.
pub fn resolve_values(
    alloc: Global,
    scope: &[Visible<'_>],
    values: &[Written],
) -> Result<Vec<Expr>, Cause>
    ensures { Means (λ v. map tree v.items) (flat_map (name_causes (scope_of scope.now)) (map expr_tree values.now))
        (map (resolved (scope_of scope.now)) (map expr_tree values.now)) result }
{
    let mut out = Vec::with_capacity(alloc, values.len())?;
    for written in values {
        let value = resolve(alloc, scope, written)?;
        out.push(value)?;
    }
    Ok(out)
}
