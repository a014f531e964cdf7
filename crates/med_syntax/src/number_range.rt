//! Whether the numbers of expressions are in range.

ghost use Rattle.std.specs.Prelude.{◌≡◌};
ghost use Rattle.med_syntax.specs.ExprGrammar.{in_range, are_in_range};
ghost use Rattle.med_syntax.specs.ExprView.{expr_tree, expr_trees};

use crate::Expr;

/// Whether each number of the expression is in range.
#[cycle(range)]
pub fn is_in_range(expr: &Expr) -> bool
    ensures { result ≡ in_range (expr_tree expr.now) }
{
    match expr {
        Expr::Number(n) => *n <= 9223372036854775807,
        Expr::Negative(n) => *n <= 9223372036854775808,
        Expr::Text(_) | Expr::Truth(_) | Expr::Null | Expr::Column(_, _) | Expr::CallAll(_) => true,
        Expr::Call(_, parts) => are_all_in_range(parts),
        Expr::Paren(e) | Expr::Minus(e) | Expr::Not(e) => is_in_range(e),
        Expr::Like(_, e, _) | Expr::Is(_, e, _) => is_in_range(e),
        Expr::Binary(_, a, b) | Expr::Compare(_, a, b) => is_in_range(a) && is_in_range(b),
        Expr::Between(_, e, low, high) => {
            is_in_range(e) && (is_in_range(low) && is_in_range(high))
        }
        Expr::In(_, e, first, others) => {
            is_in_range(e) && (is_in_range(first) && are_all_in_range(others))
        }
        Expr::Chain(_, first, others) => is_in_range(first) && are_all_in_range(others),
    }
}

/// Whether each number of the expressions is in range.
#[cycle(range)]
fn are_all_in_range(exprs: &[Expr]) -> bool
    ensures { result ≡ are_in_range (expr_trees exprs.now) }
{
    let mut left = exprs;
    while let [expr, rest @ ..] = left {
        if !is_in_range(expr) {
            return false;
        }
        left = rest;
    }
    true
}
