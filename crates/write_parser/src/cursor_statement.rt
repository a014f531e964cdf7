//! Statements on cursors, by recursive descent.
#![tactic(auto, unfolding(ddl_parser::specs::DdlReading::seq))]

ghost use Rattle.write_parser.specs.CursorCauses as causes;
ghost use Rattle.write_parser.specs.CursorCauses.{Refuses};
ghost use Rattle.write_parser.specs.CursorGrammar.{IsCursor};
ghost use Rattle.write_parser.specs.CursorReading as reading;
ghost use Rattle.med_syntax.specs.Prelude.{cursor_height, count_tree, cursor_tree, ReadsAs, AreReadable, shapes_of};
ghost use Rattle.std.specs.Prelude.{◌≡◌, ◌≤◌, IfErr, IfOk};
ghost use Rattle.std.specs.String.{string_bytes};
ghost use Rattle.med_value.specs.Limits.{height_limit};

use crate::cursor_tokens::{
    behind_from, behind_word, count, expect, is_end, name, two_if, word_if,
};
use med_syntax::refusal::{ReadFault, Refusal};
use med_syntax::token_list::Tokens;
use med_syntax::{Close, CursorStatement, Declare, Fetch, FetchCount};
use query_reader::statement_of;
use std::alloc::Global;

/// The greatest number of FETCH.
const MAX_COUNT: u64 = 9223372036854775807;

/// The tokens behind CURSOR [WITH HOLD] FOR, which has to stand in front.
#[tactic(auto, unfolding(ddl_parser::specs::DdlReading::seq, crate::specs::CursorReading::held_of))]
fn behind_held(tokens: Tokens<'_>) -> Result<Tokens<'_>, ReadFault>
    ensures { ReadsAs (λ x. (tt, shapes_of x.now)) result (reading.held_of (shapes_of tokens.now)) }
{
    let rest = expect("cursor", tokens)?;
    let (_, rest) = two_if("with", "hold", rest);
    expect("for", rest)
}

/// The tokens behind what stands between a cursor's name and its query.
#[tactic(auto, unfolding(ddl_parser::specs::DdlReading::seq, crate::specs::CursorReading::properties_of))]
fn behind_properties(tokens: Tokens<'_>) -> Result<Tokens<'_>, ReadFault>
    ensures { ReadsAs (λ x. (tt, shapes_of x.now)) result (reading.properties_of (shapes_of tokens.now)) }
{
    let (_, rest) = word_if("insensitive", tokens);
    let (_, rest) = two_if("no", "scroll", rest);
    behind_held(rest)
}

/// The name of the cursor that is declared, and the tokens of its query.
#[tactic(auto, unfolding(ddl_parser::specs::DdlReading::seq, crate::specs::CursorReading::declared_of))]
fn declared(alloc: Global, tokens: Tokens<'_>) -> Result<(String, Tokens<'_>), ReadFault>
    ensures { ReadsAs (λ x. (string_bytes x.0, shapes_of x.1.now)) result (reading.declared_of (shapes_of tokens.now)) }
{
    let rest = expect("declare", tokens)?;
    let (name, rest) = name(alloc, rest)?;
    let rest = behind_properties(rest)?;
    Ok((name, rest))
}

/// The FETCH behind FETCH.
#[tactic(auto, unfolding(ddl_parser::specs::DdlReading::seq, crate::specs::CursorReading::fetch_of))]
fn fetch(alloc: Global, tokens: Tokens<'_>) -> Result<(CursorStatement, Tokens<'_>), ReadFault>
    requires { AreReadable (shapes_of tokens.now) }
    ensures { ReadsAs (λ x. (cursor_tree x.0, shapes_of x.1.now)) result (reading.fetch_of (shapes_of tokens.now)) }
{
    let (count, rest) = count(tokens);
    let (name, rest) = name(alloc, behind_from(rest))?;
    Ok((CursorStatement::Fetch(Fetch { count, name }), rest))
}

/// The CLOSE behind CLOSE.
#[tactic(auto, unfolding(ddl_parser::specs::DdlReading::seq, crate::specs::CursorReading::close_of))]
fn close(alloc: Global, tokens: Tokens<'_>) -> Result<(CursorStatement, Tokens<'_>), ReadFault>
    ensures { ReadsAs (λ x. (cursor_tree x.0, shapes_of x.1.now)) result (reading.close_of (shapes_of tokens.now)) }
{
    let (name, rest) = name(alloc, tokens)?;
    Ok((CursorStatement::Close(Close { name }), rest))
}

/// The statement without a query at the front, and the tokens behind it.
#[tactic(auto, unfolding(crate::specs::CursorReading::plain_of))]
fn plain(alloc: Global, tokens: Tokens<'_>) -> Result<(CursorStatement, Tokens<'_>), ReadFault>
    requires { AreReadable (shapes_of tokens.now) }
    ensures { ReadsAs (λ x. (cursor_tree x.0, shapes_of x.1.now)) result (reading.plain_of (shapes_of tokens.now)) }
{
    if let Some(after) = behind_word("fetch", tokens) {
        return fetch(alloc, after);
    }
    match behind_word("close", tokens) {
        Some(after) => close(alloc, after),
        None => Err(ReadFault::Refused(Refusal::Syntax)),
    }
}

/// The statement without a query that all of the tokens are.
#[tactic(auto, unfolding(crate::specs::CursorReading::plain_line))]
fn plain_line(alloc: Global, tokens: Tokens<'_>) -> Result<CursorStatement, ReadFault>
    requires { AreReadable (shapes_of tokens.now) }
    ensures { ReadsAs cursor_tree result (reading.plain_line (shapes_of tokens.now)) }
{
    match plain(alloc, tokens) {
        Ok((statement, rest)) if is_end(rest) => Ok(statement),
        Ok((statement, _)) => {
            drop(statement);
            Err(ReadFault::Refused(Refusal::Syntax))
        }
        Err(ReadFault::NoMemory) => Err(ReadFault::NoMemory),
        Err(ReadFault::Refused(_)) => Err(ReadFault::Refused(Refusal::Syntax)),
    }
}

/// The cursor of that name for the query that all of the tokens are.
#[tactic(auto, unfolding(crate::specs::CursorReading::query_of))]
fn query(alloc: Global, name: String, tokens: Tokens<'_>) -> Result<CursorStatement, ReadFault>
    requires { AreReadable (shapes_of tokens.now) }
    ensures { ReadsAs cursor_tree result (reading.query_of (string_bytes name) (shapes_of tokens.now)) }
{
    let query = statement_of(alloc, tokens)?;
    Ok(CursorStatement::Declare(Declare { name, query }))
}

/// The statement that all of the tokens are.
#[tactic(auto, unfolding(crate::specs::CursorReading::line_of))]
fn line(alloc: Global, tokens: Tokens<'_>) -> Result<CursorStatement, ReadFault>
    requires { AreReadable (shapes_of tokens.now) }
    ensures { ReadsAs cursor_tree result (reading.line_of (shapes_of tokens.now)) }
{
    let (name, rest) = match declared(alloc, tokens) {
        Ok(found) => found,
        Err(ReadFault::NoMemory) => return Err(ReadFault::NoMemory),
        Err(ReadFault::Refused(_)) => return plain_line(alloc, tokens),
    };
    query(alloc, name, rest)
}

/// The statement on cursors that all of the tokens are, or why they are refused: they are none, or an expression of the query is too high,
/// or memory was refused.
pub fn cursor_of(alloc: Global, tokens: Tokens<'_>) -> Result<CursorStatement, ReadFault>
    requires { AreReadable (shapes_of tokens.now) }
    // What is answered is the tokens' tree.
    ensures found { IfOk result (λ c. IsCursor (shapes_of tokens.now) (cursor_tree c)) }
    // No expression of it is higher than 64.
    ensures low { IfOk result (λ c. cursor_height (cursor_tree c) ≤ height_limit) }
    // A refusal says what stands against the tokens.
    ensures refused { IfErr result (Refuses (shapes_of tokens.now)) }
{
    line(alloc, tokens)
}

/// Whether the number of FETCH, where there is one, is in range.
pub fn is_count_in_range(count: FetchCount) -> bool
    ensures { result ≡ causes.fetched_in_range (count_tree count) }
{
    match count {
        FetchCount::Rows(rows) => rows <= MAX_COUNT,
        FetchCount::All => true,
    }
}

/// Whether the statement is FETCH 0.
pub fn is_fetch_zero(statement: &CursorStatement) -> bool
    ensures { result ≡ causes.is_fetch_zero (cursor_tree statement.now) }
{
    match statement {
        CursorStatement::Fetch(fetch) => matches!(fetch.count, FetchCount::Rows(0)),
        _ => false,
    }
}
