//! Laws of expressions. Each is the contract of a function that does nothing.

ghost use Rattle.std.specs.Prelude.{◌≡◌, ℕ, true, List};
ghost use Rattle.med_syntax.specs.Prelude.{ExprTree, HasExpr, in_range};
ghost use Rattle.expr_writer.specs.ExprPrinting.{printed_expr};

use med_lexer::{one_list, printed_again, tokens_can_be_printed};

/// A text is at most one expression.
pub fn one_expression()
    ensures { (text : List ℕ) (d e : ExprTree) → HasExpr text d → HasExpr text e → d ≡ e }
{
    one_list();
}

/// What is written of an expression whose numbers are in range, with one space between tokens, is that expression.
pub fn printed_expression()
    ensures { (text : List ℕ) (e : ExprTree) → HasExpr text e → in_range e ≡ true → HasExpr (printed_expr e) e }
{
    tokens_can_be_printed();
    printed_again();
}
