//! The conjuncts of a condition.

ghost use Rattle.std.specs.Prelude.{◌≡◌, IfOk, map, ◌++◌};
ghost use Rattle.tri_expr.specs.Tree.{tree, trees, conjunct_trees, conjuncts_of_all};

use crate::Expr;
use med_value::NoMemory;
use std::alloc::Global;

// Appends the conjuncts of several conditions, one condition after another.
#[cycle(conjuncts)]
fn push_all(alloc: Global, parts: &[Expr], out: &mut Vec<Expr>) -> Result<(), NoMemory>
    ensures { IfOk result (λ _. map tree out.new.items ≡ map tree out.old.items ++ conjuncts_of_all (trees (map tree parts.now))) }
{
    for part in parts {
        push_conjuncts(alloc, part, out)?;
    }
    Ok(())
}

// Appends the conjuncts of a condition.
#[cycle(conjuncts)]
fn push_conjuncts(alloc: Global, e: &Expr, out: &mut Vec<Expr>) -> Result<(), NoMemory>
    ensures { IfOk result (λ _. map tree out.new.items ≡ map tree out.old.items ++ conjunct_trees (tree e.now)) }
{
    match e {
        Expr::And(parts) => push_all(alloc, parts, out),
        Expr::Parenthesised(a) => push_conjuncts(alloc, a, out),
        _ => {
            out.push(e.copy(alloc)?)?;
            Ok(())
        }
    }
}

/// The conjuncts of a condition: its parts at top-level ANDs, through parentheses, in the order in which they are
/// written. Any other condition is one part, a BETWEEN too. Refused only for want of memory.
pub fn conjuncts(alloc: Global, e: &Expr) -> Result<Vec<Expr>, NoMemory>
    ensures { IfOk result (λ v. map tree v.items ≡ conjunct_trees (tree e.now)) }
{
    let mut out = Vec::new(alloc);
    push_conjuncts(alloc, e, &mut out)?;
    Ok(out)
}
