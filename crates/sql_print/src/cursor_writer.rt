//! Writes statements on cursors out, each token behind a space.
#![tactic(auto, using(crate::proofs::CursorWriting::wrote_name, crate::proofs::CursorWriting::wrote_number))]

ghost use Rattle.write_parser.specs.CursorCauses.{cursor_in_range};
ghost use Rattle.write_parser.specs.CursorGrammar.{HasCursor};
ghost use Rattle.sql_print.specs.CursorPrinting.{count_written, cursor_written, query_written, printed_cursor};
ghost use Rattle.med_syntax.specs.Prelude.{fetch, count_tree, cursor_tree, statement_tree};
ghost use Rattle.ddl_parser.specs.DdlPrinting.{Writes};
ghost use Rattle.med_lexer.specs.Lexemes.{quoted, word};
ghost use Rattle.std.specs.Prelude.{◌≡◌, ◌∷◌, [], ℕ, IfOk, List, codes, true};
ghost use Rattle.std.specs.String.{string_bytes};

use crate::cursor_laws::printed_cursor;
use crate::write_statement;
use expr_writer::{write_name, write_number};
use med_syntax::{CursorStatement, Declare, Fetch, FetchCount, Statement};
use med_value::NoMemory;
use std::alloc::{AllocError, Global};

/// Writes a space and the keyword.
fn write_word(alloc: Global, keyword: &str, out: &mut String) -> Result<(), AllocError>
    ensures { Writes result out.old out.new (word keyword.now ∷ []) }
{
    let upper = keyword.to_ascii_uppercase(alloc)?;
    out.push(' ')?;
    out.push_str(&upper)
}

/// Writes a space and the name in double quotes.
fn write_called(name: &String, out: &mut String) -> Result<(), AllocError>
    ensures { Writes result out.old out.new (quoted (string_bytes name.now) ∷ []) }
{
    write_name(name, out)
}

/// Writes the number of rows, or ALL.
fn write_count(alloc: Global, count: FetchCount, out: &mut String) -> Result<(), AllocError>
    ensures { Writes result out.old out.new (count_written (count_tree count) ∷ []) }
{
    match count {
        FetchCount::Rows(rows) => write_number(alloc, rows, out),
        FetchCount::All => write_word(alloc, "all", out),
    }
}

/// Writes the query.
fn write_query(alloc: Global, query: &Statement, out: &mut String) -> Result<(), AllocError>
    ensures { Writes result out.old out.new (query_written (statement_tree query.now)) }
{
    write_statement(alloc, query, out)
}

/// Writes DECLARE, the name, CURSOR FOR and the query.
fn write_declare(alloc: Global, declare: &Declare, out: &mut String) -> Result<(), AllocError>
    ensures { Writes result out.old out.new (word (codes "declare") ∷ quoted (string_bytes declare.now.name) ∷ word (codes "cursor")
        ∷ word (codes "for") ∷ query_written (statement_tree declare.now.query)) }
{
    write_word(alloc, "declare", out)?;
    write_called(&declare.name, out)?;
    write_word(alloc, "cursor", out)?;
    write_word(alloc, "for", out)?;
    write_query(alloc, &declare.query, out)
}

/// Writes FETCH, how many rows, FROM and the name.
fn write_fetch(alloc: Global, it: &Fetch, out: &mut String) -> Result<(), AllocError>
    ensures { Writes result out.old out.new (cursor_written (fetch (count_tree it.now.count) (string_bytes it.now.name))) }
{
    write_word(alloc, "fetch", out)?;
    write_count(alloc, it.count, out)?;
    write_word(alloc, "from", out)?;
    write_called(&it.name, out)
}

/// Writes CLOSE and the name.
fn write_close(alloc: Global, name: &String, out: &mut String) -> Result<(), AllocError>
    ensures { Writes result out.old out.new (word (codes "close") ∷ quoted (string_bytes name.now) ∷ []) }
{
    write_word(alloc, "close", out)?;
    write_called(name, out)
}

/// Writes the statement, each of its tokens behind a space.
fn write_cursor(
    alloc: Global,
    statement: &CursorStatement,
    out: &mut String,
) -> Result<(), AllocError>
    ensures { Writes result out.old out.new (cursor_written (cursor_tree statement.now)) }
{
    match statement {
        CursorStatement::Declare(it) => write_declare(alloc, it, out),
        CursorStatement::Fetch(it) => write_fetch(alloc, it, out),
        CursorStatement::Close(it) => write_close(alloc, &it.name, out),
    }
}

/// The statement written out: keywords in upper case, every name in double quotes, and one space between tokens.
pub fn print(alloc: Global, statement: &CursorStatement) -> Result<String, NoMemory>
    // Its tokens are those that the tree is written by.
    ensures written { IfOk result (λ s. string_bytes s ≡ printed_cursor (cursor_tree statement.now)) }
    // What is written of a text's statement is that statement.
    ensures again { (text : List ℕ) → HasCursor text (cursor_tree statement.now) → cursor_in_range (cursor_tree statement.now) ≡ true
        → IfOk result (λ s. HasCursor (string_bytes s) (cursor_tree statement.now)) }
{
    printed_cursor();
    let mut out = String::new(alloc);
    write_cursor(alloc, statement, &mut out)?;
    let _ = out.remove(0);
    Ok(out)
}
