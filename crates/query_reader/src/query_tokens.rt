//! Tokens to statements.

ghost use Rattle.med_syntax.specs.Prelude.{ReadsAs, AreReadable, terminals_of, shapes_of, statement_tree, words_at};
ghost use Rattle.query_reader.specs.QueryReading.{bounded_line};
ghost use Rattle.std.specs.Prelude.{false};

use crate::query_statement::line;
use med_syntax::refusal::{ReadFault, Refusal};
use med_syntax::symbols::Symbols;
use med_syntax::token_list::Tokens;
use med_syntax::weighing::{ROOM, weight};
use med_syntax::{Place, Statement, words_of};
use med_value::limits::HEIGHT_LIMIT;
use std::alloc::Global;

/// The statement that all of the symbols are. Where few of them are heavy, what is told to be too high is a statement.
#[tactic(auto, unfolding(crate::specs::QueryReading::bounded_line))]
fn bounded(alloc: Global, symbols: Symbols<'_>) -> Result<Statement, ReadFault>
    ensures { ReadsAs statement_tree result (bounded_line (terminals_of symbols.now)) }
{
    match line(alloc, HEIGHT_LIMIT, symbols) {
        Err(ReadFault::Refused(Refusal::TooHigh)) => {
            if weight(symbols) > HEIGHT_LIMIT as usize {
                return Err(ReadFault::Refused(Refusal::TooHigh));
            }
            match line(alloc, ROOM, symbols) {
                Ok(statement) => {
                    drop(statement);
                    Err(ReadFault::Refused(Refusal::TooHigh))
                }
                Err(ReadFault::Refused(_)) => Err(ReadFault::Refused(Refusal::Syntax)),
                Err(ReadFault::NoMemory) => Err(ReadFault::NoMemory),
            }
        }
        Err(fault) => Err(fault),
        Ok(statement) => Ok(statement),
    }
}

/// The statement that all of the tokens are.
pub fn statement_of(alloc: Global, tokens: Tokens<'_>) -> Result<Statement, ReadFault>
    requires { AreReadable (shapes_of tokens.now) }
    ensures { ReadsAs statement_tree result (bounded_line (words_at (Place.Before false) false (shapes_of tokens.now))) }
{
    let symbols = words_of(alloc, tokens)?;
    bounded(alloc, &symbols)
}
