//! Commands written out.

ghost use Rattle.med_parser.specs.CommandCauses.{command_in_range};
ghost use Rattle.med_parser.specs.CommandGrammar.{HasCommand};
ghost use Rattle.med_parser.specs.CommandPrinting.{printed_command};
ghost use Rattle.med_parser.specs.CommandTree.{command_tree};
ghost use Rattle.std.specs.Prelude.{◌≡◌, ℕ, IfOk, List, true};
ghost use Rattle.std.specs.String.{string_bytes};

use crate::command::Command;
use ddl_parser::print_ddl;
use med_value::NoMemory;
use std::alloc::Global;

/// The command written out: keywords in upper case, every name in double quotes, AS before each alias, and one space between tokens.
pub fn print(alloc: Global, command: &Command) -> Result<String, NoMemory>
    // Its tokens are those that the tree is written by.
    ensures written { IfOk result (λ s. string_bytes s ≡ printed_command (command_tree command.now)) }
    // What is written of a text's command is that command.
    ensures again { (text : List ℕ) → HasCommand text (command_tree command.now)
        → command_in_range (command_tree command.now) ≡ true
        → IfOk result (λ s. HasCommand (string_bytes s) (command_tree command.now)) }
{
    match command {
        Command::Data(statement) => sql_print::query_writer::print(alloc, statement),
        Command::Rows(statement) => sql_print::write_writer::print(alloc, statement),
        Command::Cursor(statement) => sql_print::cursor_writer::print(alloc, statement),
        Command::Ddl(ddl) => print_ddl(alloc, ddl),
    }
}
