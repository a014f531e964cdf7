//! Expressions to text.

ghost use Rattle.std.specs.Prelude.{◌≡◌, ℕ, List, IfOk, true};
ghost use Rattle.std.specs.String.{string_bytes};
ghost use Rattle.med_syntax.specs.Prelude.{HasExpr, in_range, expr_tree};
ghost use Rattle.expr_writer.specs.ExprPrinting.{printed_expr};

use crate::expr_laws::printed_expression;
use expr_writer::write;
use med_syntax::Expr;
use std::alloc::{AllocError, Global};

/// The expression written out: keywords in upper case, every name in double quotes, and one space between tokens.
pub fn print_expression(alloc: Global, expr: &Expr) -> Result<String, AllocError>
    // Its tokens are those that spell the tree.
    ensures written { IfOk result (λ s. string_bytes s ≡ printed_expr (expr_tree expr.now)) }
    // What is written of a text's expression is that expression.
    ensures again { (text : List ℕ) → HasExpr text (expr_tree expr.now) → in_range (expr_tree expr.now) ≡ true
        → IfOk result (λ s. HasExpr (string_bytes s) (expr_tree expr.now)) }
{
    printed_expression();
    let mut out = String::new(alloc);
    write(alloc, expr, &mut out)?;
    let _ = out.remove(0);
    Ok(out)
}
