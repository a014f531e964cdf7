//! The changes that a write asks of a source.
ghost use Rattle.std.specs.Prelude.{◌≡◌, [], IfOk, IfErr, List, map, option_map};
ghost use Rattle.med_value.specs.Datum.{Tuple, tuple};
ghost use Rattle.tri_expr.specs.Tree.{tree};
ghost use Rattle.fdw_api.specs.Prelude.{row_of, GivenRow};
ghost use Rattle.med_write.specs.Form.{form_of, given_form, insert_form, update_form, delete_form, change_of};
ghost use Rattle.med_write.specs.Making.{cells_of, IsWriteFault, AreChanges};

use crate::choosing::chosen_rows;
use crate::making::{deletes, inserts_of_answer, inserts_of_values, updates};
use crate::write::{BoundWrite, Given, RowChange, RowWrite, WriteFault, WrittenColumn};
use fdw_api::SourceRow;
use med_value::Row;
use std::alloc::Global;
use tri_expr::Expr;

// The changes of an INSERT: a new row for each given one.
fn insert(
    alloc: Global,
    columns: &[WrittenColumn],
    places: &[Option<usize>],
    given: &Given,
    answer: &[Row],
) -> Result<Vec<RowChange>, WriteFault>
    ensures ok { IfOk result (λ v. (rows : List GivenRow)
        → AreChanges columns.now (insert_form places.now (given_form given.now)) rows (map tuple answer.now) (map change_of v.items)) }
    ensures err { IfErr result (λ fault. (rows : List Tuple)
        → IsWriteFault fault columns.now (insert_form places.now (given_form given.now)) rows (map tuple answer.now)) }
{
    match given {
        Given::Values(tuples) => inserts_of_values(alloc, columns, places, tuples.as_slice()),
        Given::Answer => inserts_of_answer(alloc, columns, places, answer),
    }
}

// The changes of an UPDATE: a row in the place of each of which WHERE is true.
fn update(
    alloc: Global,
    columns: &[WrittenColumn],
    conditions: &[Expr],
    sets: &[Option<Expr>],
    rows: Vec<SourceRow>,
) -> Result<Vec<RowChange>, WriteFault>
    ensures ok { IfOk result (λ v. (answer : List Tuple)
        → AreChanges columns.now (update_form (map tree conditions.now) (map (option_map tree) sets.now))
        (map row_of rows.items) answer (map change_of v.items)) }
    ensures err { IfErr result (λ fault. (answer : List Tuple)
        → IsWriteFault fault columns.now (update_form (map tree conditions.now) (map (option_map tree) sets.now))
        (cells_of (map row_of rows.items)) answer) }
{
    match chosen_rows(alloc, conditions, rows) {
        Ok(chosen) => updates(alloc, columns, sets, chosen.as_slice()),
        Err(fault) => Err(WriteFault::Evaluation(fault)),
    }
}

// The changes of a DELETE: each row goes of which WHERE is true.
fn delete(
    alloc: Global,
    columns: &[WrittenColumn],
    conditions: &[Expr],
    rows: Vec<SourceRow>,
) -> Result<Vec<RowChange>, WriteFault>
    ensures ok { IfOk result (λ v. (answer : List Tuple)
        → AreChanges columns.now (delete_form (map tree conditions.now)) (map row_of rows.items) answer (map change_of v.items)) }
    ensures err { IfErr result (λ fault. (answer : List Tuple)
        → IsWriteFault fault columns.now (delete_form (map tree conditions.now)) (cells_of (map row_of rows.items)) answer) }
{
    match chosen_rows(alloc, conditions, rows) {
        Ok(chosen) => deletes(alloc, chosen.as_slice()),
        Err(fault) => Err(WriteFault::Evaluation(fault)),
    }
}

/// The changes that a write asks of a source (SQL standard, <insert statement>, <update statement: searched>,
/// <delete statement: searched>), from the rows of its table and the rows of an INSERT's query, both as they were before it. Rows of its
/// table may be missing of which a conjunct of WHERE is false or unknown ([`crate::law::rows_out_change_nothing`]).
///
/// An INSERT adds a row for each given one. An UPDATE makes each row of which WHERE is true anew, each cell by SET on the old row or the
/// old cell. A DELETE takes out the rows of which WHERE is true. They are as many as the rows that the write is told of, and come only
/// where no expression has a fault and no written row has NULL in a NOT NULL column.
///
/// # Errors
///
/// [`WriteFault::Evaluation`] with a fault that may be told: of WHERE on a row of the table, or of a cell that is written. Want of memory
/// may stand in the place of anything. [`WriteFault::NotNull`] where a written row has NULL in a NOT NULL column, and only there.
pub fn changes(
    alloc: Global,
    write: &BoundWrite,
    rows: Vec<SourceRow>,
    answer: &[Row],
) -> Result<Vec<RowChange>, WriteFault>
    ensures ok { IfOk result (λ v. AreChanges write.now.columns.items (form_of write.now.rows)
        (map row_of rows.items) (map tuple answer.now) (map change_of v.items)) }
    ensures err { IfErr result (λ fault. IsWriteFault fault write.now.columns.items (form_of write.now.rows)
        (cells_of (map row_of rows.items)) (map tuple answer.now)) }
{
    let columns = write.columns.as_slice();
    match &write.rows {
        RowWrite::Insert { places, given } => insert(alloc, columns, places, given, answer),
        RowWrite::Update { conditions, cells } => update(alloc, columns, conditions, cells, rows),
        RowWrite::Delete { conditions } => delete(alloc, columns, conditions, rows),
    }
}
