//! The changes that are made of rows, one by one.
ghost use Rattle.std.specs.Prelude.{◌≡◌, ◌∷◌, ◌++◌, [], IfOk, IfErr, map, option_map, List};
ghost use Rattle.med_value.specs.Datum.{tuple};
ghost use Rattle.tri_expr.specs.Prelude.{tree, Outcome};
ghost use Rattle.fdw_api.specs.Prelude.{Inserts, Updates, Deletes, row_of};
ghost use Rattle.med_write.specs.Form.{trees_of, change_of};
ghost use Rattle.med_write.specs.Writing.{outcomes_on, outcomes_of, new_cells, row_made, lacks_value};
ghost use Rattle.med_write.specs.Making.{IsRow, IsRowFault, IsFaultOf, Makes};
ghost use Rattle.med_write.specs.declared.write.WrittenColumn.{WrittenColumn as Target};

use crate::cells::{lacks_value, row_of_answer, row_of_update, row_of_values};
use crate::write::{RowChange, WriteFault, WrittenColumn};
use fdw_api::SourceRow;
use med_value::Row;
use std::alloc::Global;
use tri_expr::{EvalFault, Expr};

// Appends a change. Refused only for want of memory.
fn push_change(change: RowChange, out: &mut Vec<RowChange>) -> Result<(), WriteFault>
    ensures ok { IfOk result (λ _. map change_of out.new.items ≡ map change_of out.old.items ++ change_of change ∷ []) }
    ensures err { IfErr result (λ fault. (columns : List Target) (rows : List (List Outcome)) → IsFaultOf fault columns rows) }
{
    match out.push(change) {
        Ok(()) => Ok(()),
        Err(_) => Err(WriteFault::Evaluation(EvalFault::NoMemory)),
    }
}

// A row whose cells have values, where it may be written.
fn whole_row(columns: &[WrittenColumn], row: Row) -> Result<Row, WriteFault>
    ensures ok { IfOk result (λ r. IsRow columns.now (outcomes_of (tuple row)) (tuple r)) }
    ensures err { IfErr result (λ fault. IsRowFault fault columns.now (outcomes_of (tuple row))) }
{
    if lacks_value(columns, &row) {
        Err(WriteFault::NotNull)
    } else {
        Ok(row)
    }
}

// The new row of a list of VALUES, where it may be written.
fn inserted_values(
    alloc: Global,
    columns: &[WrittenColumn],
    places: &[Option<usize>],
    given: &[Expr],
) -> Result<Row, WriteFault>
    ensures ok { IfOk result (λ r. IsRow columns.now (new_cells places.now (outcomes_on [] (map tree given.now))) (tuple r)) }
    ensures err { IfErr result (λ fault. IsRowFault fault columns.now (new_cells places.now (outcomes_on [] (map tree given.now)))) }
{
    let nothing = Row {
        cells: Vec::new(alloc),
    };
    match row_of_values(alloc, places, given, &nothing) {
        Ok(row) => whole_row(columns, row),
        Err(fault) => Err(WriteFault::Evaluation(fault)),
    }
}

// The new row of a row of a query's answer, where it may be written.
fn inserted_answer(
    alloc: Global,
    columns: &[WrittenColumn],
    places: &[Option<usize>],
    given: &Row,
) -> Result<Row, WriteFault>
    ensures ok { IfOk result (λ r. IsRow columns.now (new_cells places.now (outcomes_of (tuple given.now))) (tuple r)) }
    ensures err { IfErr result (λ fault. IsRowFault fault columns.now (new_cells places.now (outcomes_of (tuple given.now)))) }
{
    match row_of_answer(alloc, places, given) {
        Ok(row) => whole_row(columns, row),
        Err(fault) => Err(WriteFault::Evaluation(fault)),
    }
}

// The row that an UPDATE makes of an old one, where it may be written.
fn updated_row(
    alloc: Global,
    columns: &[WrittenColumn],
    sets: &[Option<Expr>],
    old: &Row,
) -> Result<Row, WriteFault>
    ensures ok { IfOk result (λ r. IsRow columns.now (row_made (map (option_map tree) sets.now) (tuple old.now)) (tuple r)) }
    ensures err { IfErr result (λ fault. IsRowFault fault columns.now (row_made (map (option_map tree) sets.now) (tuple old.now))) }
{
    match row_of_update(alloc, sets, old) {
        Ok(row) => whole_row(columns, row),
        Err(fault) => Err(WriteFault::Evaluation(fault)),
    }
}

/// A new row for each list of VALUES.
pub(crate) fn inserts_of_values(
    alloc: Global,
    columns: &[WrittenColumn],
    places: &[Option<usize>],
    tuples: &[Vec<Expr>],
) -> Result<Vec<RowChange>, WriteFault>
    ensures ok { IfOk result (λ v. Makes columns.now (λ ts. new_cells places.now (outcomes_on [] ts)) (λ ts row. Inserts row)
        (map trees_of tuples.now) (map change_of v.items)) }
    ensures err { IfErr result (λ fault. IsFaultOf fault columns.now
        (map (λ ts. new_cells places.now (outcomes_on [] ts)) (map trees_of tuples.now))) }
{
    let mut out = Vec::new(alloc);
    for given in tuples {
        let row = match inserted_values(alloc, columns, places, given.as_slice()) {
            Ok(row) => row,
            Err(fault) => return Err(fault),
        };
        push_change(RowChange::Inserted(row), &mut out)?;
    }
    Ok(out)
}

/// A new row for each row of a query's answer.
pub(crate) fn inserts_of_answer(
    alloc: Global,
    columns: &[WrittenColumn],
    places: &[Option<usize>],
    answer: &[Row],
) -> Result<Vec<RowChange>, WriteFault>
    ensures ok { IfOk result (λ v. Makes columns.now (λ vs. new_cells places.now (outcomes_of vs)) (λ vs row. Inserts row)
        (map tuple answer.now) (map change_of v.items)) }
    ensures err { IfErr result (λ fault. IsFaultOf fault columns.now
        (map (λ vs. new_cells places.now (outcomes_of vs)) (map tuple answer.now))) }
{
    let mut out = Vec::new(alloc);
    for given in answer {
        let row = match inserted_answer(alloc, columns, places, given) {
            Ok(row) => row,
            Err(fault) => return Err(fault),
        };
        push_change(RowChange::Inserted(row), &mut out)?;
    }
    Ok(out)
}

/// A row in the place of each of these.
pub(crate) fn updates(
    alloc: Global,
    columns: &[WrittenColumn],
    sets: &[Option<Expr>],
    chosen: &[SourceRow],
) -> Result<Vec<RowChange>, WriteFault>
    ensures ok { IfOk result (λ v. Makes columns.now (λ r. row_made (map (option_map tree) sets.now) r.cells) (λ r row. Updates r.id row)
        (map row_of chosen.now) (map change_of v.items)) }
    ensures err { IfErr result (λ fault. IsFaultOf fault columns.now
        (map (λ r. row_made (map (option_map tree) sets.now) r.cells) (map row_of chosen.now))) }
{
    let mut out = Vec::new(alloc);
    for old in chosen {
        let row = match updated_row(alloc, columns, sets, &old.cells) {
            Ok(row) => row,
            Err(fault) => return Err(fault),
        };
        push_change(RowChange::Updated(old.id, row), &mut out)?;
    }
    Ok(out)
}

/// Each of these rows goes.
pub(crate) fn deletes(alloc: Global, chosen: &[SourceRow]) -> Result<Vec<RowChange>, WriteFault>
    ensures ok { IfOk result (λ v. map change_of v.items ≡ map (λ r. Deletes r.id) (map row_of chosen.now)) }
    ensures err { IfErr result (λ fault. (columns : List Target) (rows : List (List Outcome)) → IsFaultOf fault columns rows) }
{
    let mut out = Vec::new(alloc);
    for old in chosen {
        push_change(RowChange::Deleted(old.id), &mut out)?;
    }
    Ok(out)
}
