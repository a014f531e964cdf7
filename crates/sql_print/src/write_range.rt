//! Whether the numbers of a statement that writes rows are in range.

ghost use Rattle.med_syntax.specs.Prelude.{in_range, expr_tree, all_in_range, given_tree, row_tree, set_tree, write_tree};
ghost use Rattle.std.specs.Prelude.{◌≡◌, map};
ghost use Rattle.write_parser.specs.WriteCauses.{given_in_range, row_in_range, set_in_range, write_in_range};

use crate::{is_condition_in_range, is_statement_in_range};
use med_syntax::number_range::is_in_range;
use med_syntax::{Expr, Given, SetClause, WriteStatement};

/// Whether each number of the row is in range.
fn is_row_in_range(row: &[Expr]) -> bool
    ensures { result ≡ all_in_range in_range (map expr_tree row.now) }
{
    let mut left = row;
    while let [value, rest @ ..] = left {
        if !is_in_range(value) {
            return false;
        }
        left = rest;
    }
    true
}

/// Whether each number of the rows is in range.
fn are_rows_in_range(rows: &[Vec<Expr>]) -> bool
    ensures { result ≡ all_in_range row_in_range (map row_tree rows.now) }
{
    let mut left = rows;
    while let [row, rest @ ..] = left {
        if !is_row_in_range(row) {
            return false;
        }
        left = rest;
    }
    true
}

/// Whether each number of what gives the rows is in range.
#[tactic(auto, using(crate::proofs::WriteParts::query_in_range))]
fn is_given_in_range(given: &Given) -> bool
    ensures { result ≡ given_in_range (given_tree given.now) }
{
    match given {
        Given::Values(rows) => are_rows_in_range(rows),
        Given::Rows(query) => is_statement_in_range(query),
    }
}

/// Whether each number of the columns' new values is in range.
fn are_sets_in_range(sets: &[SetClause]) -> bool
    ensures { result ≡ all_in_range set_in_range (map set_tree sets.now) }
{
    let mut left = sets;
    while let [set, rest @ ..] = left {
        if !is_in_range(&set.value) {
            return false;
        }
        left = rest;
    }
    true
}

/// Whether each number of the statement is in range: at most 2^63 - 1, and directly behind a unary minus at most 2^63.
pub fn is_write_in_range(statement: &WriteStatement) -> bool
    ensures { result ≡ write_in_range (write_tree statement.now) }
{
    match statement {
        WriteStatement::Insert(insert) => is_given_in_range(&insert.given),
        WriteStatement::Update(update) => {
            are_sets_in_range(&update.sets) && is_condition_in_range(&update.condition)
        }
        WriteStatement::Delete(delete) => is_condition_in_range(&delete.condition),
    }
}
