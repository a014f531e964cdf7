//! Writes the lists of a statement that writes rows out: columns, rows, and columns with their new values.
#![tactic(auto, using(crate::proofs::Writing::wrote_one, crate::proofs::Writing::wrote_none, crate::proofs::Writing::wrote_then, crate::proofs::Writing::wrote_more, crate::proofs::Writing::then_if, crate::proofs::Writing::more_if, crate::proofs::Writing::wrote_all))]

ghost use Rattle.expr_writer.specs.ExprPrinting.{Writes};
ghost use Rattle.med_syntax.specs.Prelude.{spelling, expr_tree, names_tree, row_tree, set_tree};
ghost use Rattle.sql_print.specs.QueryPrinting.{list_written, others_written};
ghost use Rattle.std.specs.Prelude.{◌++◌, map, option_map};
ghost use Rattle.std.specs.String.{string_bytes};
ghost use Rattle.sql_print.specs.WritePrinting.{columns_written, name_written, row_written, set_written, tuple_written};

use expr_writer::{Fixed, write, write_fixed, write_name};
use med_syntax::{Expr, SetClause};
use med_value::Comparison;
use std::alloc::{AllocError, Global};

/// Writes each of the names behind a comma.
fn write_other_names(names: &[String], out: &mut String) -> Result<(), AllocError>
    ensures { Writes result out.old out.new (others_written name_written (map string_bytes names.now)) }
{
    let mut left = names;
    while let Some((name, rest)) = left.split_first() {
        write_fixed(Fixed::Comma, out)?;
        write_name(name, out)?;
        left = rest;
    }
    Ok(())
}

/// Writes the names with a comma between each two.
fn write_names(names: &[String], out: &mut String) -> Result<(), AllocError>
    ensures { Writes result out.old out.new (list_written name_written (map string_bytes names.now)) }
{
    match names {
        [] => Ok(()),
        [first, others @ ..] => {
            write_name(first, out)?;
            write_other_names(others, out)
        }
    }
}

/// Writes the names in parentheses.
fn write_name_tuple(names: &[String], out: &mut String) -> Result<(), AllocError>
    ensures { Writes result out.old out.new (tuple_written name_written (map string_bytes names.now)) }
{
    write_fixed(Fixed::LeftParen, out)?;
    write_names(names, out)?;
    write_fixed(Fixed::RightParen, out)
}

/// Writes the columns in parentheses, where they are written.
pub fn write_columns(columns: &Option<Vec<String>>, out: &mut String) -> Result<(), AllocError>
    ensures { Writes result out.old out.new (columns_written (option_map names_tree columns.now)) }
{
    match columns {
        None => Ok(()),
        Some(names) => write_name_tuple(names, out),
    }
}

/// Writes each of the expressions behind a comma.
fn write_other_values(alloc: Global, values: &[Expr], out: &mut String) -> Result<(), AllocError>
    ensures { Writes result out.old out.new (others_written spelling (map expr_tree values.now)) }
{
    let mut left = values;
    while let Some((value, rest)) = left.split_first() {
        write_fixed(Fixed::Comma, out)?;
        write(alloc, value, out)?;
        left = rest;
    }
    Ok(())
}

/// Writes the expression, and each of the others behind a comma.
fn write_value_list(
    alloc: Global,
    first: &Expr,
    others: &[Expr],
    out: &mut String,
) -> Result<(), AllocError>
    ensures { Writes result out.old out.new (spelling (expr_tree first.now) ++ others_written spelling (map expr_tree others.now)) }
{
    write(alloc, first, out)?;
    write_other_values(alloc, others, out)
}

/// Writes the expressions with a comma between each two.
fn write_values(alloc: Global, values: &[Expr], out: &mut String) -> Result<(), AllocError>
    ensures { Writes result out.old out.new (list_written spelling (map expr_tree values.now)) }
{
    match values {
        [] => Ok(()),
        [first, others @ ..] => write_value_list(alloc, first, others, out),
    }
}

/// Writes the row: its expressions in parentheses.
fn write_row(alloc: Global, row: &Vec<Expr>, out: &mut String) -> Result<(), AllocError>
    ensures { Writes result out.old out.new (row_written (row_tree row.now)) }
{
    write_fixed(Fixed::LeftParen, out)?;
    write_values(alloc, row, out)?;
    write_fixed(Fixed::RightParen, out)
}

/// Writes each of the rows behind a comma.
fn write_other_rows(alloc: Global, rows: &[Vec<Expr>], out: &mut String) -> Result<(), AllocError>
    ensures { Writes result out.old out.new (others_written row_written (map row_tree rows.now)) }
{
    let mut left = rows;
    while let Some((row, rest)) = left.split_first() {
        write_fixed(Fixed::Comma, out)?;
        write_row(alloc, row, out)?;
        left = rest;
    }
    Ok(())
}

/// Writes the row, and each of the others behind a comma.
fn write_row_list(
    alloc: Global,
    first: &Vec<Expr>,
    others: &[Vec<Expr>],
    out: &mut String,
) -> Result<(), AllocError>
    ensures { Writes result out.old out.new (row_written (row_tree first.now) ++ others_written row_written (map row_tree others.now)) }
{
    write_row(alloc, first, out)?;
    write_other_rows(alloc, others, out)
}

/// Writes the rows with a comma between each two.
pub fn write_rows(alloc: Global, rows: &[Vec<Expr>], out: &mut String) -> Result<(), AllocError>
    ensures { Writes result out.old out.new (list_written row_written (map row_tree rows.now)) }
{
    match rows {
        [] => Ok(()),
        [first, others @ ..] => write_row_list(alloc, first, others, out),
    }
}

/// Writes the column, an equals sign and its new value.
fn write_set(alloc: Global, set: &SetClause, out: &mut String) -> Result<(), AllocError>
    ensures { Writes result out.old out.new (set_written (set_tree set.now)) }
{
    write_name(&set.column, out)?;
    write_fixed(Fixed::Compare(Comparison::Equal), out)?;
    write(alloc, &set.value, out)
}

/// Writes each of the columns with its new value behind a comma.
fn write_other_sets(alloc: Global, sets: &[SetClause], out: &mut String) -> Result<(), AllocError>
    ensures { Writes result out.old out.new (others_written set_written (map set_tree sets.now)) }
{
    let mut left = sets;
    while let Some((set, rest)) = left.split_first() {
        write_fixed(Fixed::Comma, out)?;
        write_set(alloc, set, out)?;
        left = rest;
    }
    Ok(())
}

/// Writes the column with its new value, and each of the others behind a comma.
fn write_set_list(
    alloc: Global,
    first: &SetClause,
    others: &[SetClause],
    out: &mut String,
) -> Result<(), AllocError>
    ensures { Writes result out.old out.new (set_written (set_tree first.now) ++ others_written set_written (map set_tree others.now)) }
{
    write_set(alloc, first, out)?;
    write_other_sets(alloc, others, out)
}

/// Writes the columns with their new values, with a comma between each two.
pub fn write_sets(alloc: Global, sets: &[SetClause], out: &mut String) -> Result<(), AllocError>
    ensures { Writes result out.old out.new (list_written set_written (map set_tree sets.now)) }
{
    match sets {
        [] => Ok(()),
        [first, others @ ..] => write_set_list(alloc, first, others, out),
    }
}
