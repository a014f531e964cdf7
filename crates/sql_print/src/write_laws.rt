//! The law of printed statements: the contract of a function that does nothing.

ghost use Rattle.std.specs.Prelude.{◌≡◌, ℕ, true, List};
ghost use Rattle.write_parser.specs.WriteCauses.{write_in_range};
ghost use Rattle.write_parser.specs.WriteGrammar.{HasWrite};
ghost use Rattle.sql_print.specs.WritePrinting as printing;
ghost use Rattle.med_syntax.specs.WriteTree.{WriteTree};

use med_lexer::{printed_again, tokens_can_be_printed};

/// What is written of a statement that writes rows whose numbers are in range, with one space between tokens, is that statement.
pub fn printed_write()
    ensures { (text : List ℕ) (w : WriteTree) → HasWrite text w → write_in_range w ≡ true → HasWrite (printing.printed_write w) w }
{
    tokens_can_be_printed();
    printed_again();
}
