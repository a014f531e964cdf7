//! Which expressions may fault.

ghost use Rattle.std.specs.Prelude.{◌≡◌, map};
ghost use Rattle.tri_expr.specs.Tree.{tree, trees};
ghost use Rattle.tri_expr.specs.TreeParts as spec;

use crate::expr::{Expr, SetFunction};

// Whether one of the expressions may fault.
#[cycle(is_risky)]
fn some_risky(parts: &[Expr]) -> bool
    ensures { result ≡ spec.has_risky_tree (trees (map tree parts.now)) }
{
    for part in parts {
        if is_risky(part) {
            return true;
        }
    }
    false
}

/// Whether an expression may fault: it has `+ - * / %`, a unary minus on anything but a number, or `sum`.
/// Evaluating one that is not risky never answers `OutOfRange` or `ZeroDivisor`.
#[cycle(is_risky)]
pub fn is_risky(e: &Expr) -> bool
    ensures { result ≡ spec.is_risky e.now }
{
    match e {
        Expr::Column(_) => false,
        Expr::Parameter(_) => false,
        Expr::Literal(_) => false,
        Expr::Compare(_, a, b) => is_risky(a) || is_risky(b),
        Expr::Compute(_, _, _) => true,
        Expr::Negate(_) => true,
        Expr::And(parts) => some_risky(parts),
        Expr::Or(parts) => some_risky(parts),
        Expr::Not(a) => is_risky(a),
        Expr::Is(_, _, a) => is_risky(a),
        Expr::Between(_, x, low, high) => is_risky(x) || is_risky(low) || is_risky(high),
        Expr::In(_, x, parts) => is_risky(x) || some_risky(parts),
        Expr::Like(_, x, _) => is_risky(x),
        Expr::Parenthesised(a) => is_risky(a),
        Expr::CountRows => false,
        Expr::Aggregate(function, a) => matches!(function, SetFunction::Sum) || is_risky(a),
    }
}
