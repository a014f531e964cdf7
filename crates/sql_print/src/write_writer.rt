//! Writes the statements that write rows out.
#![tactic(auto, using(crate::proofs::Writing::wrote_one, crate::proofs::Writing::wrote_none, crate::proofs::Writing::wrote_then, crate::proofs::Writing::wrote_more, crate::proofs::Writing::then_if, crate::proofs::Writing::more_if, crate::proofs::Writing::wrote_all))]

ghost use Rattle.expr_writer.specs.ExprPrinting.{Writes};
ghost use Rattle.std.specs.Prelude.{◌≡◌, ℕ, List, IfOk, map, option_map, true};
ghost use Rattle.std.specs.String.{string_bytes};
ghost use Rattle.write_parser.specs.WriteCauses.{write_in_range};
ghost use Rattle.write_parser.specs.WriteGrammar.{HasWrite};
ghost use Rattle.sql_print.specs.WritePrinting.{delete_written, given_written, insert_written, printed_write, sets_written, target_written, update_written, write_written};
ghost use Rattle.med_syntax.specs.Prelude.{values, delete_tree, given_tree, insert_tree, names_tree, row_tree, update_tree, write_tree};

use crate::write_laws::printed_write;
use crate::write_lists::{write_columns, write_rows, write_sets};
use crate::{Keyword, write_condition, write_entry, write_keyword, write_statement};
use expr_writer::write_name;
use med_syntax::{Delete, Expr, Given, Insert, Update, WriteStatement};
use med_value::NoMemory;
use std::alloc::{AllocError, Global};

/// Writes INSERT INTO, the table and its columns.
fn write_target(
    table: &String,
    columns: &Option<Vec<String>>,
    out: &mut String,
) -> Result<(), AllocError>
    ensures { Writes result out.old out.new (target_written (string_bytes table.now) (option_map names_tree columns.now)) }
{
    write_keyword(Keyword::Insert, out)?;
    write_keyword(Keyword::Into, out)?;
    write_name(table, out)?;
    write_columns(columns, out)
}

/// Writes VALUES and the rows.
fn write_given_rows(alloc: Global, rows: &[Vec<Expr>], out: &mut String) -> Result<(), AllocError>
    ensures { Writes result out.old out.new (given_written (values (map row_tree rows.now))) }
{
    write_keyword(Keyword::Values, out)?;
    write_rows(alloc, rows, out)
}

/// Writes what gives the rows.
fn write_given(alloc: Global, given: &Given, out: &mut String) -> Result<(), AllocError>
    ensures { Writes result out.old out.new (given_written (given_tree given.now)) }
{
    match given {
        Given::Values(rows) => write_given_rows(alloc, rows, out),
        Given::Rows(query) => write_statement(alloc, query, out),
    }
}

/// Writes the INSERT.
fn write_insert(alloc: Global, insert: &Insert, out: &mut String) -> Result<(), AllocError>
    ensures { Writes result out.old out.new (insert_written (insert_tree insert.now)) }
{
    write_target(&insert.table, &insert.columns, out)?;
    write_given(alloc, &insert.given, out)
}

/// Writes SET, the columns with their new values, and the condition.
fn write_changes(alloc: Global, update: &Update, out: &mut String) -> Result<(), AllocError>
    ensures { Writes result out.old out.new (sets_written (update_tree update.now)) }
{
    write_keyword(Keyword::Set, out)?;
    write_sets(alloc, &update.sets, out)?;
    write_condition(alloc, Keyword::Where, &update.condition, out)
}

/// Writes the UPDATE.
fn write_update(alloc: Global, update: &Update, out: &mut String) -> Result<(), AllocError>
    ensures { Writes result out.old out.new (update_written (update_tree update.now)) }
{
    write_keyword(Keyword::Update, out)?;
    write_entry(&update.entry, out)?;
    write_changes(alloc, update, out)
}

/// Writes the DELETE.
fn write_delete(alloc: Global, delete: &Delete, out: &mut String) -> Result<(), AllocError>
    ensures { Writes result out.old out.new (delete_written (delete_tree delete.now)) }
{
    write_keyword(Keyword::Delete, out)?;
    write_keyword(Keyword::From, out)?;
    write_entry(&delete.entry, out)?;
    write_condition(alloc, Keyword::Where, &delete.condition, out)
}

/// Writes the statement, each of its tokens behind a space.
fn write_tokens(
    alloc: Global,
    statement: &WriteStatement,
    out: &mut String,
) -> Result<(), AllocError>
    ensures { Writes result out.old out.new (write_written (write_tree statement.now)) }
{
    match statement {
        WriteStatement::Insert(insert) => write_insert(alloc, insert, out),
        WriteStatement::Update(update) => write_update(alloc, update, out),
        WriteStatement::Delete(delete) => write_delete(alloc, delete, out),
    }
}

/// The statement written out: keywords in upper case, every name in double quotes, AS before each alias, and one space between tokens
/// (SQL:2016, <insert statement>, <update statement: searched>, <delete statement: searched>). It fails where memory is refused.
pub fn print(alloc: Global, statement: &WriteStatement) -> Result<String, NoMemory>
    // Its tokens are those that the tree is written by.
    ensures written { IfOk result (λ s. string_bytes s ≡ printed_write (write_tree statement.now)) }
    // What is written of a text's statement is that statement.
    ensures again { (text : List ℕ) → HasWrite text (write_tree statement.now) → write_in_range (write_tree statement.now) ≡ true
        → IfOk result (λ s. HasWrite (string_bytes s) (write_tree statement.now)) }
{
    printed_write();
    let mut out = String::new(alloc);
    write_tokens(alloc, statement, &mut out)?;
    let _ = out.remove(0);
    Ok(out)
}
