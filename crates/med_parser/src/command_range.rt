//! Whether the numbers of a command are in range, and whether it is FETCH 0.

ghost use Rattle.med_parser.specs.CommandCauses as causes;
ghost use Rattle.med_parser.specs.CommandCauses.{command_in_range};
ghost use Rattle.med_parser.specs.CommandTree.{command_tree};
ghost use Rattle.std.specs.Prelude.{◌≡◌};

use crate::command::Command;
use sql_print::{is_cursor_in_range, is_statement_in_range, is_write_in_range};
use write_parser::is_fetch_zero;

/// Whether each number of the command is in range; a statement on objects has none.
pub fn is_command_in_range(command: &Command) -> bool
    ensures { result ≡ command_in_range (command_tree command.now) }
{
    match command {
        Command::Data(statement) => is_statement_in_range(statement),
        Command::Rows(statement) => is_write_in_range(statement),
        Command::Cursor(statement) => is_cursor_in_range(statement),
        Command::Ddl(_) => true,
    }
}

/// Whether the command is FETCH 0.
pub fn is_fetch_zero_command(command: &Command) -> bool
    ensures { result ≡ causes.is_fetch_zero_command (command_tree command.now) }
{
    match command {
        Command::Cursor(statement) => is_fetch_zero(statement),
        _ => false,
    }
}
