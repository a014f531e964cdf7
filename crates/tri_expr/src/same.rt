//! Whether two expressions are the same.

ghost use Rattle.std.specs.Prelude.{◌≡◌, false, map};
ghost use Rattle.tri_expr.specs.Tree.{tree, trees};
ghost use Rattle.tri_expr.specs.TreeParts.{is_parenthesised, bare, bare_all, same_tree, trees_eq};

use crate::Expr;
use med_value::order::compare_values;
use std::cmp::Ordering;

/// What stands in an expression's outer parentheses.
fn inner(e: &Expr) -> &Expr
    ensures same { bare (tree result.now) ≡ bare (tree e.now) }
    ensures open { is_parenthesised (tree result.now) ≡ false }
{
    match e {
        Expr::Parenthesised(a) => inner(a),
        _ => e,
    }
}

// Whether two lists have the same expressions one by one, written with or without parentheses.
#[cycle(same)]
fn are_same(a: &[Expr], b: &[Expr]) -> bool
    ensures { result ≡ trees_eq (bare_all (trees (map tree a.now))) (bare_all (trees (map tree b.now))) }
{
    if a.len() != b.len() {
        return false;
    }
    for (i, x) in a.iter().enumerate() {
        if !is_same(x, &b[i]) {
            return false;
        }
    }
    true
}

/// Whether two expressions are the same, written with or without parentheses: the same form with the same parts, where two
/// literals are the same if neither is distinct from the other.
#[cycle(same)]
pub fn is_same(a: &Expr, b: &Expr) -> bool
    ensures { result ≡ same_tree (tree a.now) (tree b.now) }
{
    let plain = inner(b);
    match (a, plain) {
        (Expr::Parenthesised(a), b) => is_same(a, b),
        (Expr::Column(at), Expr::Column(other)) | (Expr::Parameter(at), Expr::Parameter(other)) =>
            at == other,
        (Expr::Literal(v), Expr::Literal(w)) => matches!(compare_values(v, w), Ordering::Equal),
        (Expr::Compare(op, a, c), Expr::Compare(other, b, d)) => {
            op == other && is_same(a, b) && is_same(c, d)
        }
        (Expr::Compute(op, a, c), Expr::Compute(other, b, d)) => {
            op == other && is_same(a, b) && is_same(c, d)
        }
        (Expr::Negate(a), Expr::Negate(b)) | (Expr::Not(a), Expr::Not(b)) => is_same(a, b),
        (Expr::And(parts), Expr::And(others)) | (Expr::Or(parts), Expr::Or(others)) => {
            are_same(parts, others)
        }
        (Expr::Is(test, negative, a), Expr::Is(other, turned, b)) => {
            test == other && negative == turned && is_same(a, b)
        }
        (Expr::Between(negative, x, low, high), Expr::Between(turned, y, least, most)) => {
            negative == turned && is_same(x, y) && is_same(low, least) && is_same(high, most)
        }
        (Expr::In(negative, x, parts), Expr::In(turned, y, others)) => {
            negative == turned && is_same(x, y) && are_same(parts, others)
        }
        (Expr::Like(negative, x, pattern), Expr::Like(turned, y, other)) => {
            negative == turned && is_same(x, y) && pattern.as_bytes() == other.as_bytes()
        }
        (Expr::CountRows, Expr::CountRows) => true,
        (Expr::Aggregate(function, a), Expr::Aggregate(other, b)) => {
            function == other && is_same(a, b)
        }
        _ => false,
    }
}
