//! Tokens to statements that write rows.

ghost use Rattle.med_syntax.specs.Prelude.{AreReadable, shapes_of, write_height, write_tree};
ghost use Rattle.std.specs.Prelude.{◌≤◌, IfOk, IfErr};
ghost use Rattle.med_value.specs.Limits.{height_limit};
ghost use Rattle.write_parser.specs.WriteCauses.{Refuses};
ghost use Rattle.write_parser.specs.WriteGrammar.{IsWrite};

use crate::write_clauses::{bounded, query_at};
use med_syntax::expr_symbols::symbols_of;
use med_syntax::refusal::ReadFault;
use med_syntax::token_list::Tokens;
use med_syntax::{Given, Insert, WriteStatement};
use query_reader::statement_of;
use std::alloc::Global;

/// The statement that writes rows that all of the tokens are, or why they are refused: they are none, or one of its expressions is too
/// high, or memory was refused.
pub fn write_of(alloc: Global, tokens: Tokens<'_>) -> Result<WriteStatement, ReadFault>
    requires { AreReadable (shapes_of tokens.now) }
    // What is answered is the tokens' tree.
    ensures found { IfOk result (λ w. IsWrite (shapes_of tokens.now) (write_tree w)) }
    // No expression of it is higher than 64.
    ensures low { IfOk result (λ w. write_height (write_tree w) ≤ height_limit) }
    // A refusal says what stands against the tokens.
    ensures refused { IfErr result (Refuses (shapes_of tokens.now)) }
{
    let symbols = symbols_of(alloc, tokens)?;
    match query_at(alloc, &symbols) {
        Err(ReadFault::NoMemory) => Err(ReadFault::NoMemory),
        Err(ReadFault::Refused(_)) => bounded(alloc, &symbols),
        Ok((table, columns, rest)) => {
            let behind = tokens.len() - rest.len();
            let given = Given::Rows(statement_of(alloc, &tokens[behind..])?);
            Ok(WriteStatement::Insert(Insert {
                table,
                columns,
                given,
            }))
        }
    }
}
