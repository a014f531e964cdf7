//! Aggregates in resolved expressions.

ghost use Rattle.bind_names.specs.Aggregates as spec;
ghost use Rattle.std.specs.List.{list_any};
ghost use Rattle.std.specs.Prelude.{◌≡◌, map};
ghost use Rattle.tri_expr.specs.Tree.{tree, trees};

use tri_expr::Expr;

// Whether an aggregate stands in one of the parts.
#[cycle(has_aggregate)]
fn some_have_aggregate(parts: &[Expr]) -> bool
    ensures { result ≡ spec.some_have_aggregate (trees (map tree parts.now)) }
{
    for part in parts {
        if has_aggregate(part) {
            return true;
        }
    }
    false
}

/// Whether an aggregate stands in the expression.
#[cycle(has_aggregate)]
pub fn has_aggregate(e: &Expr) -> bool
    ensures { result ≡ spec.has_aggregate (tree e.now) }
{
    match e {
        Expr::Column(_) => false,
        Expr::Parameter(_) => false,
        Expr::Literal(_) => false,
        Expr::Compare(_, a, b) => has_aggregate(a) || has_aggregate(b),
        Expr::Compute(_, a, b) => has_aggregate(a) || has_aggregate(b),
        Expr::Negate(a) => has_aggregate(a),
        Expr::And(parts) => some_have_aggregate(parts),
        Expr::Or(parts) => some_have_aggregate(parts),
        Expr::Not(a) => has_aggregate(a),
        Expr::Is(_, _, a) => has_aggregate(a),
        Expr::Between(_, x, low, high) => {
            has_aggregate(x) || has_aggregate(low) || has_aggregate(high)
        }
        Expr::In(_, x, parts) => has_aggregate(x) || some_have_aggregate(parts),
        Expr::Like(_, x, _) => has_aggregate(x),
        Expr::Parenthesised(a) => has_aggregate(a),
        Expr::CountRows => true,
        Expr::Aggregate(_, _) => true,
    }
}

/// Whether an aggregate stands in one of the expressions.
pub fn any_has_aggregate(es: &[Expr]) -> bool
    ensures { result ≡ list_any spec.has_aggregate (map tree es.now) }
{
    for e in es {
        if has_aggregate(e) {
            return true;
        }
    }
    false
}
