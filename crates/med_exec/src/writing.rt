//! INSERT, UPDATE and DELETE on a table of the box in a slot.
ghost use Rattle.std.specs.Prelude.{◌≡◌, ◌↔◌, IfOk, IfErr, IsTrue, IsSome, map, nat_eq};
ghost use Rattle.std.specs.BTreeSet.{IsFromIterResult};
ghost use Rattle.std.specs.List.{IsDistinct};
ghost use Rattle.std.specs.Ordering.{nat_cmp};
ghost use Rattle.med_value.specs.Datum.{tuple};
ghost use Rattle.fdw_api.specs.Prelude.{row_of, table_of};
ghost use Rattle.fdw_api.specs.declared.interface.Fault.TheVariants.{NoMemory};
ghost use Rattle.med_exec.specs.Slots.{states, BoxAt, ChangesAt};
ghost use Rattle.med_write.specs.Form.{form_of};
ghost use Rattle.med_exec.specs.Rising.{are_rising};
ghost use Rattle.med_exec.specs.Writing.{CanWrite, ReadsFor, FailsRead, write_refusal, Writes, RefusesWrite};

use crate::reading::table_rows;
use crate::staging::make_changes;
use fdw_api::interface::{Fault, SourceRow};
use fdw_api::wishes::Wrapper2;
use med_value::{Cause, Row, TableNo};
use med_write::law::rows_out_change_nothing;
use med_write::{BoundWrite, RowWrite, WriteFault, changes};
use pushdown::law::tests_decide;
use std::alloc::{AllocError, Global};
use std::collections::BTreeSet;
use tri_expr::EvalFault;
use tri_expr::law::bare_tree_means_the_same;

// How a fault of a write is told.
fn told(fault: WriteFault) -> Fault
    ensures { result ≡ write_refusal fault }
{
    match fault {
        WriteFault::Evaluation(EvalFault::OutOfRange) => Fault::Refused(Cause::OutOfRange),
        WriteFault::Evaluation(EvalFault::ZeroDivisor) => Fault::Refused(Cause::DivisionByZero),
        WriteFault::Evaluation(EvalFault::NoMemory) => Fault::NoMemory,
        WriteFault::NotNull => Fault::Refused(Cause::NotNull),
    }
}

// The ids of rows, each once.
fn ids_of(alloc: Global, rows: &[SourceRow]) -> Result<BTreeSet<u64>, AllocError>
    ensures { IfOk result (IsFromIterResult nat_cmp (map (λ r. r.id.number) rows.now)) }
{
    rows.iter().map(|row| row.id.number).collect(alloc)
}

// Whether each id is above the one before it: then no two are the same.
fn are_rising(rows: &[SourceRow]) -> bool
    ensures { result ≡ are_rising (map (λ r. r.id.number) rows.now) }
{
    let Some((first, rest)) = rows.split_first() else {
        return true;
    };
    let mut last = first.id.number;
    let mut left = rest;
    while let Some((row, further)) = left.split_first() {
        if row.id.number <= last {
            return false;
        }
        last = row.id.number;
        left = further;
    }
    true
}

// Whether no two rows have one id. The ids of a list's rows rise, and are read once; a set of them is made only where they do not.
fn are_distinct(alloc: Global, rows: &[SourceRow]) -> Result<bool, Fault>
    ensures ok { IfOk result (λ b. IsTrue b ↔ IsDistinct nat_eq (map (λ r. r.id) (map row_of rows.now))) }
    ensures err { IfErr result (λ fault. fault ≡ NoMemory) }
{
    if are_rising(rows) {
        return Ok(true);
    }
    let ids = ids_of(alloc, rows)?;
    Ok(ids.len() == rows.len())
}

// The rows from which a write is made: of its table those that WHERE may keep, none for an INSERT.
fn rows_for<W: Wrapper2>(
    b: &mut W,
    alloc: Global,
    table: TableNo,
    write: &BoundWrite,
) -> Result<Vec<SourceRow>, Fault>
    requires { IsSome (table_of (W.meaning b.old) table.number) }
    ensures ok { IfOk result (λ rows. ReadsFor (form_of write.now.rows) (W.meaning b.old) table.number (map row_of rows.items)
        (W.meaning b.new)) }
    ensures err { IfErr result (λ fault. FailsRead (form_of write.now.rows) fault (W.meaning b.old) (W.meaning b.new)) }
{
    let width = write.columns.len();
    match &write.rows {
        RowWrite::Insert { .. } => Ok(Vec::new(alloc)),
        RowWrite::Update { conditions, .. } => table_rows(b, alloc, table, conditions, width),
        RowWrite::Delete { conditions } => table_rows(b, alloc, table, conditions, width),
    }
}

// Does a write to a table of a box, and answers how many rows it is told of.
fn write_box<W: Wrapper2>(
    b: &mut W,
    alloc: Global,
    table: TableNo,
    write: &BoundWrite,
    answer: &[Row],
) -> Result<u64, Fault>
    requires { CanWrite (W.meaning b.old) table.number (form_of write.now.rows) (map tuple answer.now) }
    ensures ok { IfOk result (λ count. Writes write.now.columns.items (form_of write.now.rows) (map tuple answer.now)
        (W.meaning b.old) table.number count (W.meaning b.new)) }
    ensures err { IfErr result (λ fault. RefusesWrite write.now.columns.items (form_of write.now.rows) (map tuple answer.now)
        (W.meaning b.old) table.number fault (W.meaning b.new)) }
{
    rows_out_change_nothing();
    tests_decide();
    bare_tree_means_the_same();
    let rows = rows_for(b, alloc, table, write)?;
    if !are_distinct(alloc, rows.as_slice())? {
        return Err(Fault::Source);
    }
    let staged = match changes(alloc, write, rows, answer) {
        Ok(staged) => staged,
        Err(fault) => return Err(told(fault)),
    };
    let count = staged.len() as u64;
    make_changes(b, alloc, table, staged)?;
    Ok(count)
}

/// Does a write to a table of the box in a slot, and answers how many rows it is told of (SQL standard, <insert statement>,
/// <update statement: searched>, <delete statement: searched>).
///
/// The conjuncts of WHERE that are tests of a column are offered to the scan of the table, and all of WHERE is judged of each row that
/// comes: also of a row that a box which others may write to gave against its word. All rows that come are read, and all changes and faults
/// computed, before the first change is staged: so a SET and a WHERE see the rows as they were. The rows of an INSERT's query are given, and
/// were taken before. The box makes exactly the changes of the write, all of them or none; all other tables and boxes are as they were.
///
/// It asks for a bound table without live scans, that nothing is staged, and that the written rows are of the columns' types.
///
/// # Errors
///
/// [`Fault::NoMemory`] where memory was asked for and refused; [`Fault::Source`] where the source failed, or gave two rows of one id;
/// [`Fault::Refused`] by 54000 where ticket numbers are used up, by 22003 and 22012 for a fault of an expression, by 23502 for NULL in a
/// NOT NULL column, and by what the kind of the box says of all changes together. Every table is then as it was.
///
/// PostgreSQL: Writing a Foreign Data Wrapper, `BeginForeignModify`, `ExecForeignInsert`, `ExecForeignUpdate`, `ExecForeignDelete`,
/// `EndForeignModify`.
pub fn write<W: Wrapper2>(
    slots: &mut Vec<Option<W>>,
    alloc: Global,
    slot: usize,
    table: TableNo,
    write: &BoundWrite,
    answer: &[Row],
) -> Result<u64, Fault>
    requires { BoxAt (states W.meaning slots.old.items) slot
        (λ s. CanWrite s table.number (form_of write.now.rows) (map tuple answer.now)) }
    ensures ok { IfOk result (λ count. ChangesAt (states W.meaning slots.old.items) slot
        (λ old new. Writes write.now.columns.items (form_of write.now.rows) (map tuple answer.now) old table.number count new)
        (states W.meaning slots.new.items)) }
    ensures err { IfErr result (λ fault. ChangesAt (states W.meaning slots.old.items) slot
        (λ old new. RefusesWrite write.now.columns.items (form_of write.now.rows) (map tuple answer.now) old table.number fault new)
        (states W.meaning slots.new.items)) }
{
    match &mut slots[slot] {
        Some(b) => write_box(b, alloc, table, write, answer),
        None => unreachable!(),
    }
}
