//! Whether the first column of a table rises.
ghost use Rattle.std.specs.Prelude.{◌≡◌, ◌<◌, ◌∷◌, ◌≤ℤ◌, true, List, map, FitsSigned, IfSome};
ghost use Rattle.std.specs.Int.{w64};
ghost use Rattle.std.specs.String.{string_bytes};
ghost use Rattle.med_value.specs.Datum.{Whole, cell, tuple};
ghost use Rattle.fdw_api.specs.Prelude.{Change, rows_after};
ghost use Rattle.wrapper_parts.specs.Staged.{change_is};
ghost use Rattle.wrapper_parts.specs.Rising.{AreRising};
ghost use Rattle.csv_tables.specs.Cells.{line_of};
ghost use Rattle.csv_tables.specs.Rewriting.{rows_in};
ghost use Rattle.csv_tables.specs.Rises.{IsKey, RiseUpTo, KeepRising, first_column, first_cells};

use crate::table::CsvTable;
use med_value::{Row, Value};
use std::alloc::Global;
use wrapper_parts::{RowChange, value_at};

// The integer in the first column of the record at a place. There is none where the cell is another value, or memory is wanting for it.
fn key_at(alloc: Global, table: &CsvTable, at: usize) -> Option<i64>
    requires { at < table.now.rows.count }
    ensures { IfSome result (λ key. IsKey (cell (first_column table.now) at) key) }
{
    match table.value(alloc, at, 0) {
        Ok(Value::Int(key)) => Some(key),
        _ => None,
    }
}

/// Whether the first column of a table rises: each of its cells is an integer, and none is less than the one before it. Where memory is
/// wanting to tell, it is not said to rise.
pub fn first_rises(alloc: Global, table: &CsvTable) -> bool
    ensures { result ≡ true → AreRising (first_column table.now) }
{
    let mut low = i64::MIN;
    for at in 0..table.rows.count {
        let Some(key) = key_at(alloc, table, at) else {
            return false;
        };
        if key < low {
            return false;
        }
        low = key;
    }
    true
}

// The key of the last record, which in a column that rises none is over. Where there is no record that is the least key.
fn last_key(alloc: Global, table: &CsvTable) -> Option<i64>
    ensures { IfSome result (λ key. AreRising (first_column table.now) → RiseUpTo (first_column table.now) key table.now.rows.count) }
{
    let count = table.rows.count;
    if count == 0 {
        return Some(i64::MIN);
    }
    key_at(alloc, table, count - 1)
}

// The integer that is the first value of a row.
fn first_key(row: &Row) -> Option<i64>
    ensures { IfSome result (λ key. IsKey (cell (tuple row.now) 0) key) }
{
    let missing = Value::Null;
    match value_at(&row.cells, 0, &missing) {
        Value::Int(key) => Some(*key),
        _ => None,
    }
}

// Whether a row has the first cell of the record in the place of which it comes.
fn keeps_key(alloc: Global, table: &CsvTable, id: u64, row: &Row) -> bool
    ensures { result ≡ true → cell (tuple row.now) 0 ≡ cell (first_column table.now) id }
{
    let at = id as usize;
    if at >= table.rows.count {
        return false;
    }
    let Some(new) = first_key(row) else {
        return false;
    };
    let Some(old) = key_at(alloc, table, at) else {
        return false;
    };
    new == old
}

// The key that new rows have to reach after a change, where they had to reach this one before it, if the change lets a first column rise.
fn key_after(alloc: Global, table: &CsvTable, low: i64, change: &RowChange) -> Option<i64>
    ensures { IfSome result (λ key. (more : List Change) → KeepRising (first_column table.now) (Whole key) more
        → KeepRising (first_column table.now) (Whole low) (change_is change.now ∷ more)) }
{
    match change {
        RowChange::Insert(row) => match first_key(row) {
            Some(key) if key >= low => Some(key),
            _ => None,
        },
        RowChange::Update(id, row) => {
            if keeps_key(alloc, table, *id, row) {
                Some(low)
            } else {
                None
            }
        }
        RowChange::Delete(_) => Some(low),
    }
}

/// Whether the first column of a table, of which it may be known that it rises, rises after changes too, as these tell without a look at
/// the records that stay: each record that is changed keeps its first cell, and the new ones begin with integers that are not less than the
/// last record's, nor than the ones before them. Where memory is wanting to tell, it is not said to rise.
pub fn stays_rising(alloc: Global, table: &CsvTable, rises: bool, changes: &[RowChange]) -> bool
    ensures { result ≡ true → (rises ≡ true → AreRising (first_column table.now))
        → AreRising (first_cells (rows_after (line_of (string_bytes table.now.layout.null)) (rows_in table.now) (map change_is changes.now))) }
{
    if !rises {
        return false;
    }
    let Some(last) = last_key(alloc, table) else {
        return false;
    };
    let mut low = last;
    let mut changes = changes;
    while let Some((change, others)) = changes.split_first() {
        let Some(key) = key_after(alloc, table, low, change) else {
            return false;
        };
        low = key;
        changes = others;
    }
    true
}
