//! Whether the first column of a list rises.
ghost use Rattle.std.specs.Prelude.{◌≡◌, ◌∷◌, ◌≤ℤ◌, true, List, map, length, IfOk, IfSome};
ghost use Rattle.med_value.specs.Datum.{Whole, cell, tuple};
ghost use Rattle.fdw_api.specs.Kinds.{Change};
ghost use Rattle.wrapper_parts.specs.Rising.{AreRising};
ghost use Rattle.wrapper_parts.specs.KeepingRise.{IsKey, RiseUpTo, KeepRising, KeepsRise};
ghost use Rattle.list_wrapper.specs.Changes.{change_is};
ghost use Rattle.list_wrapper.specs.Scans.{keys_of, Rises};

use crate::changes::ListChange;
use crate::held_rows::Rows;
use crate::held_tables::Table;
use med_value::{NoMemory, Row, Value};
use std::alloc::Global;
use wrapper_parts::value_at;

// The integer that is the first value of a row.
fn first_key(row: &Row) -> Option<i64>
    ensures { IfSome result (λ key. IsKey (cell (tuple row.now) 0) key) }
{
    let missing = Value::Null;
    match value_at(&row.cells, 0, &missing) {
        Value::Int(key) => Some(*key),
        _ => None,
    }
}

// The integer that is the first value of a row, if it is not less than another.
fn key_from(low: i64, row: &Row) -> Option<i64>
    ensures { IfSome result (λ key. IsKey (cell (tuple row.now) 0) key × (low ≤ℤ key)) }
{
    match first_key(row) {
        Some(key) if key >= low => Some(key),
        _ => None,
    }
}

/// Whether the first column of rows rises: each of its cells is an integer, and none is less than the one before it.
pub(crate) fn first_rises(rows: &Rows) -> bool
    ensures { result ≡ true → AreRising (keys_of rows.now.items) }
{
    let mut low = i64::MIN;
    let mut at = 0;
    while at < rows.len() {
        let Some(key) = key_from(low, rows.at(at)) else {
            return false;
        };
        low = key;
        at += 1;
    }
    true
}

/// Of each table whether its first column rises.
pub(crate) fn rising_tables(alloc: Global, tables: &Vec<Table>) -> Result<Vec<bool>, NoMemory>
    ensures marked { IfOk result (λ rising. length rising.items ≡ length tables.now.items) }
    ensures rises { IfOk result (λ rising. Rises tables.now.items rising.items) }
{
    let mut rising = Vec::new(alloc);
    let mut at = 0;
    while at < tables.len() {
        rising.push(first_rises(&tables[at].rows))?;
        at += 1;
    }
    Ok(rising)
}

// The key of the last row, which in a column that rises none is over. Where there is no row that is the least key.
fn last_key(rows: &Rows) -> Option<i64>
    ensures { IfSome result (λ key. AreRising (keys_of rows.now.items) → RiseUpTo (keys_of rows.now.items) key (length (keys_of rows.now.items))) }
{
    let count = rows.len();
    if count == 0 {
        return Some(i64::MIN);
    }
    first_key(rows.at(count - 1))
}

// Whether a row begins with the integer with which the row begins in the place of which it comes.
fn keeps_key(rows: &Rows, id: u64, row: &Row) -> bool
    ensures { result ≡ true → cell (tuple row.now) 0 ≡ cell (keys_of rows.now.items) id }
{
    let at = id as usize;
    if at >= rows.len() {
        return false;
    }
    let Some(old) = first_key(rows.at(at)) else {
        return false;
    };
    let Some(new) = first_key(row) else {
        return false;
    };
    new == old
}

// The key that new rows have to reach after a change, where they had to reach this one before it, if the change lets a first column rise.
fn key_after(rows: &Rows, low: i64, change: &ListChange) -> Option<i64>
    ensures { IfSome result (λ key. (more : List Change) → KeepRising (keys_of rows.now.items) (Whole key) more
        → KeepRising (keys_of rows.now.items) (Whole low) (change_is change.now ∷ more)) }
{
    match change {
        ListChange::Insert(row) => key_from(low, row),
        ListChange::Update(id, row) => {
            if keeps_key(rows, *id, row) {
                Some(low)
            } else {
                None
            }
        }
        ListChange::Delete(_) => Some(low),
    }
}

/// Whether the first column of rows, of which it may be known that it rises, does so after changes too, as these tell without a look at
/// the rows that stay: each row that is changed keeps its first cell, and the new ones begin with integers that are not less than the last
/// row's, nor than the ones before them.
pub(crate) fn stays_rising(rows: &Rows, rises: bool, changes: &[ListChange]) -> bool
    ensures { result ≡ true → (rises ≡ true → AreRising (keys_of rows.now.items))
        → KeepsRise (keys_of rows.now.items) (map change_is changes.now) }
{
    if !rises {
        return false;
    }
    let Some(last) = last_key(rows) else {
        return false;
    };
    let mut low = last;
    let mut changes = changes;
    while let Some((change, others)) = changes.split_first() {
        let Some(key) = key_after(rows, low, change) else {
            return false;
        };
        low = key;
        changes = others;
    }
    true
}

/// Whether the first column of rows rises after a write: where it took rows out, and so went over all of them, as these tell, and else as
/// the changes told.
pub(crate) fn rises_after(rows: &Rows, gone: &[bool], told: bool) -> bool
    ensures { (told ≡ true → AreRising (keys_of rows.now.items)) → result ≡ true → AreRising (keys_of rows.now.items) }
{
    if gone.is_empty() {
        told
    } else {
        first_rises(rows)
    }
}
