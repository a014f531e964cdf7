//! The law of printed statements: the contract of a function that does nothing.

ghost use Rattle.std.specs.Prelude.{◌≡◌, ℕ, true, List};
ghost use Rattle.med_syntax.specs.Prelude.{StatementTree, HasStatement, statement_in_range};
ghost use Rattle.sql_print.specs.QueryPrinting as printing;

use med_lexer::{printed_again, tokens_can_be_printed};

/// What is written of a statement whose numbers are in range, with one space between tokens, is that statement.
pub fn printed_statement()
    ensures { (text : List ℕ) (s : StatementTree) → HasStatement text s → statement_in_range s ≡ true
        → HasStatement (printing.printed_statement s) s }
{
    tokens_can_be_printed();
    printed_again();
}
