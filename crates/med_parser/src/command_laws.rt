//! The laws that a text has one tree, and that what is printed is read again: contracts of functions that do nothing.

ghost use Rattle.med_parser.specs.CommandCauses.{command_in_range};
ghost use Rattle.med_parser.specs.CommandGrammar.{HasCommand};
ghost use Rattle.med_parser.specs.CommandPrinting as printing;
ghost use Rattle.med_parser.specs.CommandTree.{CommandTree};
ghost use Rattle.std.specs.Prelude.{◌≡◌, ℕ, true, List};

use ddl_parser::printed_ddl;
use med_lexer::one_list;
use sql_print::{printed_cursor, printed_statement, printed_write};

/// A text has at most one tree.
pub fn one_tree()
    ensures { (text : List ℕ) (a b : CommandTree) → HasCommand text a → HasCommand text b → a ≡ b }
{
    one_list();
}

/// What is written of a command whose numbers are in range, with one space between tokens, is that command.
pub fn printed_command()
    ensures { (text : List ℕ) (c : CommandTree) → HasCommand text c → command_in_range c ≡ true
        → HasCommand (printing.printed_command c) c }
{
    printed_statement();
    printed_write();
    printed_cursor();
    printed_ddl();
}
