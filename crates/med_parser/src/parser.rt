//! Text to commands.

ghost use Rattle.med_syntax.specs.Prelude.{cause_of_read, AreReadable, shapes_of};
ghost use Rattle.med_syntax.specs.declared.refusal.ReadFault.TheVariants as faults;
ghost use Rattle.med_lexer.specs.Printing.{AreShapes};
ghost use Rattle.med_parser.specs.CommandCauses.{SyntaxCauses, TokenCauses};
ghost use Rattle.med_parser.specs.CommandGrammar.{HasCommand, IsCommand};
ghost use Rattle.med_parser.specs.CommandKinds.{kind_of_tree};
ghost use Rattle.med_parser.specs.CommandTree.{CommandTree, command_height, command_tree};
ghost use Rattle.med_parser.specs.declared.command_kind.CommandKind.TheVariants as kinds;
ghost use Rattle.med_value.specs.declared.cause.Cause.{Cause};
ghost use Rattle.med_value.specs.Limits.{height_limit};
ghost use Rattle.std.specs.Prelude.{◌≡◌, ◌≤◌, ◌⊎◌, IfErr, IfOk, OnOk};

use crate::command::Command;
use crate::command_kind::{CommandKind, kind_of};
use crate::command_range::{is_command_in_range, is_fetch_zero_command};
use ddl_parser::ddl_of;
use med_lexer::tokens_can_be_printed;
use med_syntax::ParseFault;
use med_syntax::expr_symbols::has_unreadable;
use med_syntax::refusal::{ReadFault, Refusal};
use med_syntax::token_list::{Tokens, has_long_name, tokens_of};
use med_value::Cause;
use query_reader::statement_of;
use std::alloc::Global;
use write_parser::{cursor_of, write_of};

/// The statement on objects that all of the tokens are.
fn objects_of(alloc: Global, tokens: Tokens<'_>) -> Result<Command, ReadFault>
    requires { (c : CommandTree) → IsCommand (shapes_of tokens.now) c → kind_of_tree c ≡ kinds.Objects }
    ensures found { IfOk result (λ c. IsCommand (shapes_of tokens.now) (command_tree c)) }
    ensures low { IfOk result (λ c. command_height (command_tree c) ≤ height_limit) }
    ensures refused { IfErr result (λ f. (f ≡ faults.NoMemory) ⊎ TokenCauses (shapes_of tokens.now) (cause_of_read f)) }
{
    match ddl_of(alloc, tokens) {
        Ok(ddl) => Ok(Command::Ddl(ddl)),
        Err(ParseFault::NoMemory) => Err(ReadFault::NoMemory),
        Err(ParseFault::Syntax) => Err(ReadFault::Refused(Refusal::Syntax)),
    }
}

/// The command that all of the tokens are, read by the reader of the one kind that they can be of: the one door for statements.
fn command_of(alloc: Global, tokens: Tokens<'_>) -> Result<Command, ReadFault>
    requires { AreReadable (shapes_of tokens.now) }
    ensures found { IfOk result (λ c. IsCommand (shapes_of tokens.now) (command_tree c)) }
    ensures low { IfOk result (λ c. command_height (command_tree c) ≤ height_limit) }
    ensures refused { IfErr result (λ f. (f ≡ faults.NoMemory) ⊎ TokenCauses (shapes_of tokens.now) (cause_of_read f)) }
{
    match kind_of(tokens) {
        CommandKind::Objects => objects_of(alloc, tokens),
        CommandKind::Rows => match write_of(alloc, tokens) {
            Ok(write) => Ok(Command::Rows(write)),
            Err(fault) => Err(fault),
        },
        CommandKind::Cursor => match cursor_of(alloc, tokens) {
            Ok(cursor) => Ok(Command::Cursor(cursor)),
            Err(fault) => Err(fault),
        },
        CommandKind::Data => match statement_of(alloc, tokens) {
            Ok(query) => Ok(Command::Data(query)),
            Err(fault) => Err(fault),
        },
    }
}

/// The command that all of the tokens are, or why it is refused.
fn checked_command(alloc: Global, tokens: Tokens<'_>) -> Result<Command, Cause>
    requires { AreShapes (shapes_of tokens.now) }
    ensures found { IfOk result (λ c. IsCommand (shapes_of tokens.now) (command_tree c)) }
    ensures clear { OnOk result ((c : Cause) → TokenCauses (shapes_of tokens.now) c → ⊥) }
    ensures refused { IfErr result (λ c. (c ≡ Cause.OutOfMemory) ⊎ TokenCauses (shapes_of tokens.now) c) }
    ensures syntax { TokenCauses (shapes_of tokens.now) Cause.Syntax → IfErr result (λ c. c ≡ Cause.NameTooLong → ⊥) }
{
    if has_unreadable(tokens) {
        return Err(Cause::LiteralOutOfRange);
    }
    let command = command_of(alloc, tokens)?;
    if has_long_name(tokens) {
        return Err(Cause::NameTooLong);
    }
    if !is_command_in_range(&command) {
        return Err(Cause::LiteralOutOfRange);
    }
    if is_fetch_zero_command(&command) {
        Err(Cause::FetchZero)
    } else {
        Ok(command)
    }
}

/// The command of a text, or why it is refused: 42601 where the text is not in the grammar, 22003 where a number is out of range,
/// 42622 where a name has over 63 bytes, 54000 where an expression is higher than 64, or the text is not in the grammar and has over 64 of
/// the tokens `( + - * / %` and NOT, 0A000 for FETCH 0, and 53200 where memory was refused. Where several stand, any of them may be told,
/// but of a text that is not in the grammar never 42622.
pub fn parse(alloc: Global, text: &str) -> Result<Command, Cause>
    // What is answered is the text's one tree.
    ensures found { IfOk result (λ c. HasCommand text.now (command_tree c)) }
    // A text for which a cause of this phase stands is not answered.
    ensures clear { OnOk result ((c : Cause) → SyntaxCauses text.now c → ⊥) }
    // A refusal tells a cause that stands for the text, or that memory was refused.
    ensures refused { IfErr result (λ c. (c ≡ Cause.OutOfMemory) ⊎ SyntaxCauses text.now c) }
    // Where no cause stands, only memory can be refused.
    ensures read { ((c : Cause) → SyntaxCauses text.now c → ⊥) → IfErr result (λ c. c ≡ Cause.OutOfMemory) }
    // Of a text that is not in the grammar a long name is not told.
    ensures syntax { SyntaxCauses text.now Cause.Syntax → IfErr result (λ c. c ≡ Cause.NameTooLong → ⊥) }
{
    let tokens = tokens_of(alloc, text)?;
    tokens_can_be_printed();
    checked_command(alloc, &tokens)
}
