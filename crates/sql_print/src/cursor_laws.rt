//! The law of printed statements on cursors: the contract of a function that does nothing.

ghost use Rattle.write_parser.specs.CursorCauses.{cursor_in_range};
ghost use Rattle.write_parser.specs.CursorGrammar.{HasCursor};
ghost use Rattle.sql_print.specs.CursorPrinting as printing;
ghost use Rattle.med_syntax.specs.CursorTree.{CursorTree};
ghost use Rattle.std.specs.Prelude.{◌≡◌, ℕ, true, List};

use med_lexer::{printed_again, tokens_can_be_printed};

/// What is written of a statement whose numbers are in range, with one space between tokens, is that statement.
pub fn printed_cursor()
    ensures { (text : List ℕ) (c : CursorTree) → HasCursor text c → cursor_in_range c ≡ true → HasCursor (printing.printed_cursor c) c }
{
    tokens_can_be_printed();
    printed_again();
}
