//! The rows of a table that have a value in a column.
ghost use Rattle.std.specs.Prelude.{◌≡◌, ◌++◌, ◌≤◌, [], ◌∷◌, List, true, false, map, take, length, IfOk, IfErr, IfSome};
ghost use Rattle.sqlite.specs.Held.{state};
ghost use Rattle.sqlite.specs.Order.{Row as SqlRow};
ghost use Rattle.sqlite.specs.View.{IsShaped};
ghost use Rattle.sqlite_trees.specs.declared.store.Shape.TheVariants as stored;
ghost use Rattle.med_value.specs.Datum.{datum};
ghost use Rattle.fdw_api.specs.Calls.{not_refused};
ghost use Rattle.sqlite_looks.specs.Pages.{range_of};
ghost use Rattle.sqlite_tables.specs.Layouts.{places};
ghost use Rattle.sqlite_tables.specs.Cells.{row_in};
ghost use Rattle.sqlite_tables.specs.Tables.{IsKnown, IsSure, ReadsOnly, entries_of};
ghost use Rattle.sqlite_tables.specs.Lookups.{IsLookup, rows_with};
ghost use Rattle.sqlite_tables.specs.Texts.{page_size};

use crate::reading::Lookup;
use crate::{Shape, SourceStore, page_between};
use fdw_api::interface::Fault;
use med_value::Value;
use sqlite::{Connection, Row};
use std::alloc::Global;

// Returns the row of a key. Fails as the source where there is none.
fn row_of_key<S: SourceStore>(
    conn: &mut Connection<S>,
    shape: &Shape,
    key: i64,
) -> Result<Row, Fault>
    requires idle { conn.old.in_transaction ≡ false }
    requires known { S.honest ≡ true → ∥ IsKnown conn.old.schema shape.now ∥₁ }
    ensures last { S.honest ≡ true → IfOk result (λ row. (before : List SqlRow)
        × (take page_size (range_of (places shape.now) key key (entries_of (state S.Store conn.old).now shape.now))
        ≡ before ++ row ∷ [])) }
    ensures refused { IfErr result not_refused }
    ensures same { S.honest ≡ true → (state S.Store conn.new).now ≡ (state S.Store conn.old).now }
    ensures sure_last { IsSure (state S.Store conn.old) (state S.Store conn.new) shape.now
        → IfOk result (λ row. (before : List SqlRow)
        × (take page_size (range_of (places shape.now) key key (entries_of (state S.Store conn.old).now shape.now))
        ≡ before ++ row ∷ [])) }
    ensures reads { ReadsOnly (state S.Store conn.old) (state S.Store conn.new) shape.now }
    ensures idle { conn.new.in_transaction ≡ false }
{
    let mut page = match page_between(conn, shape, key, key) {
        Err(fault) => return Err(fault),
        Ok(page) => page,
    };
    match page.pop() {
        Some(row) => Ok(row),
        None => Err(Fault::Source),
    }
}

// Whether at most 64 rows have a value, by the lookup.
fn is_rare(lookup: &Lookup, value: &Value) -> bool {
    let mut at = lookup.index.next_place(value, 0);
    for _place in 0..64 {
        if at >= lookup.keys.len() {
            return true;
        }
        at = lookup.index.next_place(value, at + 1);
    }
    at >= lookup.keys.len()
}

/// Returns the rows of a table whose cell in the lookup's column is equal to a value, in the order of their keys; None where they are more
/// than 64.
///
/// Each is read by its key. Fails as the source where one is not there. Nothing changes, also where it fails. This holds over a store that
/// always returns what was written, and of each call by itself that is sure (`IsSure`), by a lookup of the table's rows.
pub fn rows_with<S: SourceStore>(
    alloc: Global,
    conn: &mut Connection<S>,
    shape: &Shape,
    lookup: &Lookup,
    value: &Value,
) -> Result<Option<Vec<Row>>, Fault>
    requires idle { conn.old.in_transaction ≡ false }
    requires known { S.honest ≡ true → ∥ IsKnown conn.old.schema shape.now ∥₁ }
    requires shaped { S.honest ≡ true → IsShaped stored.Table (entries_of (state S.Store conn.old).now shape.now) }
    requires is { S.honest ≡ true → IsLookup shape.now (entries_of (state S.Store conn.old).now shape.now) lookup.now }
    ensures rows { S.honest ≡ true → IfOk result (λ found. IfSome found (λ rows. map (row_in shape.now) rows.items
        ≡ rows_with shape.now lookup.now.column (datum value.now) (entries_of (state S.Store conn.old).now shape.now))) }
    ensures few { IfOk result (λ found. IfSome found (λ rows. length rows.items ≤ 64)) }
    ensures refused { IfErr result not_refused }
    ensures same { S.honest ≡ true → (state S.Store conn.new).now ≡ (state S.Store conn.old).now }
    ensures sure_rows { IsSure (state S.Store conn.old) (state S.Store conn.new) shape.now
        → IsLookup shape.now (entries_of (state S.Store conn.old).now shape.now) lookup.now
        → IfOk result (λ found. IfSome found (λ rows. map (row_in shape.now) rows.items
        ≡ rows_with shape.now lookup.now.column (datum value.now) (entries_of (state S.Store conn.old).now shape.now))) }
    ensures reads { ReadsOnly (state S.Store conn.old) (state S.Store conn.new) shape.now }
    ensures idle { conn.new.in_transaction ≡ false }
{
    if !is_rare(lookup, value) {
        return Ok(None);
    }
    let mut rows = Vec::new(alloc);
    let mut at = lookup.index.next_place(value, 0);
    while at < lookup.keys.len() {
        if rows.len() == 64 {
            return Ok(None);
        }
        match row_of_key(conn, shape, lookup.keys[at]) {
            Err(fault) => return Err(fault),
            Ok(row) => rows.push(row)?,
        }
        at = lookup.index.next_place(value, at + 1);
    }
    Ok(Some(rows))
}
