//! The arguments of an expression's aggregates.

ghost use Rattle.std.specs.Prelude.{◌≡◌, IfOk, map, ◌++◌};
ghost use Rattle.tri_expr.specs.Tree.{tree, trees};
ghost use Rattle.tri_expr.specs.TreeParts.{arguments_in, arguments_in_all};

use crate::Expr;
use med_value::NoMemory;
use std::alloc::Global;

// Appends the arguments of the aggregates of several expressions, one expression after another.
#[cycle(arguments)]
fn push_all(alloc: Global, parts: &[Expr], out: &mut Vec<Expr>) -> Result<(), NoMemory>
    ensures { IfOk result (λ _. map tree out.new.items ≡ map tree out.old.items ++ arguments_in_all (trees (map tree parts.now))) }
{
    for part in parts {
        push_arguments(alloc, part, out)?;
    }
    Ok(())
}

// Appends the argument of each aggregate of an expression, from the left on.
#[cycle(arguments)]
fn push_arguments(alloc: Global, e: &Expr, out: &mut Vec<Expr>) -> Result<(), NoMemory>
    ensures { IfOk result (λ _. map tree out.new.items ≡ map tree out.old.items ++ arguments_in (tree e.now)) }
{
    match e {
        Expr::Column(_) | Expr::Parameter(_) | Expr::Literal(_) | Expr::CountRows => Ok(()),
        Expr::Compare(_, a, b) | Expr::Compute(_, a, b) => {
            push_arguments(alloc, a, out)?;
            push_arguments(alloc, b, out)
        }
        Expr::And(parts) | Expr::Or(parts) => push_all(alloc, parts, out),
        Expr::Between(_, x, low, high) => {
            push_arguments(alloc, x, out)?;
            push_arguments(alloc, low, out)?;
            push_arguments(alloc, high, out)
        }
        Expr::In(_, x, parts) => {
            push_arguments(alloc, x, out)?;
            push_all(alloc, parts, out)
        }
        Expr::Negate(a) | Expr::Not(a) | Expr::Parenthesised(a) => push_arguments(alloc, a, out),
        Expr::Is(_, _, a) | Expr::Like(_, a, _) => push_arguments(alloc, a, out),
        Expr::Aggregate(_, a) => {
            out.push(a.copy(alloc)?)?;
            push_arguments(alloc, a, out)
        }
    }
}

/// A copy of the argument of each aggregate of an expression, from the left on; the arguments of an aggregate that stands in
/// an argument come behind that one. Refused only for want of memory.
pub fn arguments(alloc: Global, e: &Expr) -> Result<Vec<Expr>, NoMemory>
    ensures { IfOk result (λ v. map tree v.items ≡ arguments_in (tree e.now)) }
{
    let mut out = Vec::new(alloc);
    push_arguments(alloc, e, &mut out)?;
    Ok(out)
}
