//! Whether the first column of a table rises.
ghost use Rattle.std.specs.Prelude.{◌≡◌, ◌<◌, ◌∷◌, true, List, map, length, IfSome};
ghost use Rattle.med_value.specs.Datum.{Whole, cell, tuple};
ghost use Rattle.fdw_api.specs.Prelude.{Change, rows_after};
ghost use Rattle.wrapper_parts.specs.Staged.{change_is};
ghost use Rattle.wrapper_parts.specs.Rising.{AreRising};
ghost use Rattle.wrapper_parts.specs.KeepingRise.{IsKey, RiseUpTo, KeepRising};
ghost use Rattle.jsonl_wrapper.specs.Contents.{json_line};
ghost use Rattle.jsonl_wrapper.specs.Tables.{readers_in, lines_in, rows_in};
ghost use Rattle.jsonl_wrapper.specs.Rises.{first_column, first_cells};

use crate::known::known_cell;
use crate::table::JsonTable;
use med_value::{Row, Value};
use wrapper_parts::{RowChange, value_at};

// The integer in the first column of the line at a place. There is none where the cell is another value.
fn key_at(table: &JsonTable, at: usize) -> Option<i64>
    requires { at < length table.now.lines.items }
    ensures { IfSome result (λ key. IsKey (cell (first_column (readers_in table.now) (lines_in table.now)) at) key) }
{
    match known_cell(table, at, 0) {
        Some(Value::Int(key)) => Some(key),
        _ => None,
    }
}

/// Whether the first column of a table rises: each of its cells is an integer, and none is less than the one before it.
pub(crate) fn first_rises(table: &JsonTable) -> bool
    ensures { result ≡ true → AreRising (first_column (readers_in table.now) (lines_in table.now)) }
{
    let mut low = i64::MIN;
    for at in 0..table.lines.len() {
        let Some(key) = key_at(table, at) else {
            return false;
        };
        if key < low {
            return false;
        }
        low = key;
    }
    true
}

/// The table, with the mark whether its first column rises.
pub(crate) fn marked(table: JsonTable) -> JsonTable
    ensures remote { result.remote ≡ table.remote }
    ensures fields { result.fields ≡ table.fields }
    ensures content { result.content ≡ table.content }
    ensures lines { result.lines ≡ table.lines }
{
    let rises = first_rises(&table);
    let JsonTable {
        remote,
        fields,
        content,
        lines,
        is_image,
        wholes,
        rises: _,
        buffer,
    } = table;
    JsonTable {
        remote,
        fields,
        content,
        lines,
        is_image,
        wholes,
        rises,
        buffer,
    }
}

// The key of the last line, which in a column that rises none is over. Where there is no line that is the least key.
fn last_key(table: &JsonTable) -> Option<i64>
    ensures { IfSome result (λ key. AreRising (first_column (readers_in table.now) (lines_in table.now))
        → RiseUpTo (first_column (readers_in table.now) (lines_in table.now)) key (length (lines_in table.now))) }
{
    let count = table.lines.len();
    if count == 0 {
        return Some(i64::MIN);
    }
    key_at(table, count - 1)
}

// The integer that is the first value of a row.
fn first_key(row: &Row) -> Option<i64>
    ensures { IfSome result (λ key. IsKey (cell (tuple row.now) 0) key) }
{
    let missing = Value::Null;
    match value_at(&row.cells, 0, &missing) {
        Value::Int(key) => Some(*key),
        _ => None,
    }
}

// Whether a row has the first cell of the line in the place of which it comes.
fn keeps_key(table: &JsonTable, id: u64, row: &Row) -> bool
    ensures { result ≡ true → cell (tuple row.now) 0 ≡ cell (first_column (readers_in table.now) (lines_in table.now)) id }
{
    let at = id as usize;
    if at >= table.lines.len() {
        return false;
    }
    let Some(new) = first_key(row) else {
        return false;
    };
    let Some(old) = key_at(table, at) else {
        return false;
    };
    new == old
}

// The key that new rows have to reach after a change, where they had to reach this one before it, if the change lets a first column rise.
fn key_after(table: &JsonTable, low: i64, change: &RowChange) -> Option<i64>
    ensures { IfSome result (λ key. (more : List Change)
        → KeepRising (first_column (readers_in table.now) (lines_in table.now)) (Whole key) more
        → KeepRising (first_column (readers_in table.now) (lines_in table.now)) (Whole low) (change_is change.now ∷ more)) }
{
    match change {
        RowChange::Insert(row) => match first_key(row) {
            Some(key) if key >= low => Some(key),
            _ => None,
        },
        RowChange::Update(id, row) => {
            if keeps_key(table, *id, row) {
                Some(low)
            } else {
                None
            }
        }
        RowChange::Delete(_) => Some(low),
    }
}

/// Whether the first column of a table, of which it may be known that it rises, rises after changes too, as these tell without a look at
/// the lines that stay: each line that is changed keeps its first cell, and the new ones begin with integers that are not less than the
/// last line's, nor than the ones before them.
pub(crate) fn stays_rising(table: &JsonTable, changes: &[RowChange]) -> bool
    ensures { result ≡ true
        → AreRising (first_cells (rows_after (json_line (readers_in table.now)) (rows_in table.now) (map change_is changes.now))) }
{
    if !table.rises {
        return false;
    }
    let Some(last) = last_key(table) else {
        return false;
    };
    let mut low = last;
    let mut changes = changes;
    while let Some((change, others)) = changes.split_first() {
        let Some(key) = key_after(table, low, change) else {
            return false;
        };
        low = key;
        changes = others;
    }
    true
}
