//! A column of a table read whole: page by page, up to 1,000,000 rows.
ghost use Rattle.std.specs.Prelude.{◌≡◌, true, false, [], ◌∷◌, Some, None, List, map, IfOk, IfErr, OnOk};
ghost use Rattle.sqlite.specs.Held.{state};
ghost use Rattle.sqlite.specs.Order.{Row as SqlRow};
ghost use Rattle.med_value.specs.Datum.{datum, tuple, cell};
ghost use Rattle.fdw_api.specs.Calls.{not_refused};
ghost use Rattle.wrapper_parts.specs.Indexes.{IsIndexFrom};
ghost use Rattle.sqlite_tables.specs.Cells.{key_in};
ghost use Rattle.sqlite_tables.specs.Tables.{IsKnown, IsSure, ReadsOnly, entries_of};
ghost use Rattle.sqlite_tables.specs.Surveys.{last_key};
ghost use Rattle.sqlite_tables.specs.Lookups.{Adds, Parts, IsRead, IsLookup};

use crate::{Keyed, Misread, Shape, SourceStore, key_and_cells, next_after, page_between};
use fdw_api::interface::Fault;
use med_value::{NoMemory, Row as Tuple, Value};
use sqlite::{Connection, Row};
use std::alloc::Global;
use wrapper_parts::{PlaceIndex, value_at};

// How many pages a table may have: 1,000,000 rows are on 15,625 full ones, after which one more shows that none follows.
const PAGE_LIMIT: u64 = 15_626;

/// The rows of a table by the values of one of its columns: the keys of all its rows in their order, and the places among them of each
/// value.
///
/// It holds two numbers for each row, and for each distinct value that value and a number.
#[derive(Drop)]
pub struct Lookup {
    pub(crate) column: usize,
    pub(crate) keys: Vec<i64>,
    pub(crate) index: PlaceIndex,
}

impl Lookup {
    /// Returns the number of the column by whose values it leads to rows, counted from 0.
    pub fn column(&self) -> usize
        ensures { result ≡ self.now.column }
    {
        self.column
    }
}

// What was read of a table: the key of each row, and its value in a column.
#[derive(Drop)]
struct ColumnRead {
    keys: Vec<i64>,
    values: Vec<Value>,
}

// Returns what a row that could not be read is to a table that was bound.
fn fault_of_misread(misread: Misread) -> Fault
    ensures { not_refused result }
{
    match misread {
        Misread::NoMemory => Fault::NoMemory,
        Misread::Stray | Misread::NoRow => Fault::Source,
    }
}

// Returns a copy of a row's cell, NULL where there is no such column.
fn cell_of(alloc: Global, row: &Tuple, column: usize) -> Result<Value, NoMemory>
    ensures { IfOk result (λ v. datum v ≡ cell (tuple row.now) column) }
{
    let missing = Value::Null;
    value_at(&row.cells, column, &missing).copy(alloc)
}

// Adds a row to what was read, and returns its key.
fn add_row(
    alloc: Global,
    shape: &Shape,
    column: usize,
    row: &Row,
    read: &mut ColumnRead,
) -> Result<i64, Fault>
    ensures key { IfOk result (λ key. key ≡ key_in row.now) }
    ensures adds { OnOk result (Adds shape.now column (row.now ∷ []) read.old read.new) }
    ensures refused { IfErr result not_refused }
{
    let Keyed { key, cells } = match key_and_cells(alloc, shape, row) {
        Ok(keyed) => keyed,
        Err(misread) => return Err(fault_of_misread(misread)),
    };
    let value = cell_of(alloc, &cells, column)?;
    read.keys.push(key)?;
    read.values.push(value)?;
    Ok(key)
}

// Adds the rows of a page to what was read, and returns the key of the last one.
fn add_page(
    alloc: Global,
    shape: &Shape,
    column: usize,
    page: &[Row],
    read: &mut ColumnRead,
) -> Result<Option<i64>, Fault>
    ensures last { IfOk result (λ last. last ≡ last_key page.now) }
    ensures adds { OnOk result (Adds shape.now column page.now read.old read.new) }
    ensures refused { IfErr result not_refused }
{
    let mut last = None;
    for row in page {
        match add_row(alloc, shape, column, row, read) {
            Err(fault) => return Err(fault),
            Ok(key) => last = Some(key),
        }
    }
    Ok(last)
}

// Adds the page that begins at a key to what was read, and returns the key where the next one begins.
fn read_page<S: SourceStore>(
    alloc: Global,
    conn: &mut Connection<S>,
    shape: &Shape,
    column: usize,
    low: i64,
    read: &mut ColumnRead,
) -> Result<Option<i64>, Fault>
    requires idle { conn.old.in_transaction ≡ false }
    requires known { S.honest ≡ true → ∥ IsKnown conn.old.schema shape.now ∥₁ }
    ensures adds { S.honest ≡ true → IfOk result (λ next. (page : List SqlRow)
        × Parts shape.now (entries_of (state S.Store conn.old).now shape.now) (Some low) page next
        × Adds shape.now column page read.old read.new) }
    ensures refused { IfErr result not_refused }
    ensures same { S.honest ≡ true → (state S.Store conn.new).now ≡ (state S.Store conn.old).now }
    ensures sure_adds { IsSure (state S.Store conn.old) (state S.Store conn.new) shape.now
        → IfOk result (λ next. (page : List SqlRow)
        × Parts shape.now (entries_of (state S.Store conn.old).now shape.now) (Some low) page next
        × Adds shape.now column page read.old read.new) }
    ensures reads { ReadsOnly (state S.Store conn.old) (state S.Store conn.new) shape.now }
    ensures idle { conn.new.in_transaction ≡ false }
{
    let page = match page_between(conn, shape, low, i64::MAX) {
        Err(fault) => return Err(fault),
        Ok(page) => page,
    };
    match add_page(alloc, shape, column, &page, read) {
        Err(fault) => Err(fault),
        Ok(last) => Ok(next_after(page.len(), last)),
    }
}

// Reads the keys of a table, and the values of a column of it. Fails as the source where the table has more than 1,000,000 rows, or a cell
// that is not of its column's type.
fn read_column<S: SourceStore>(
    alloc: Global,
    conn: &mut Connection<S>,
    shape: &Shape,
    column: usize,
) -> Result<ColumnRead, Fault>
    requires idle { conn.old.in_transaction ≡ false }
    requires known { S.honest ≡ true → ∥ IsKnown conn.old.schema shape.now ∥₁ }
    ensures read { S.honest ≡ true
        → IfOk result (IsRead shape.now column (entries_of (state S.Store conn.old).now shape.now) None) }
    ensures refused { IfErr result not_refused }
    ensures same { S.honest ≡ true → (state S.Store conn.new).now ≡ (state S.Store conn.old).now }
    ensures sure_read { IsSure (state S.Store conn.old) (state S.Store conn.new) shape.now
        → IfOk result (IsRead shape.now column (entries_of (state S.Store conn.old).now shape.now) None) }
    ensures reads { ReadsOnly (state S.Store conn.old) (state S.Store conn.new) shape.now }
    ensures idle { conn.new.in_transaction ≡ false }
{
    let mut read = ColumnRead {
        keys: Vec::new(alloc),
        values: Vec::new(alloc),
    };
    let mut next = Some(i64::MIN);
    for _page in 0..PAGE_LIMIT {
        let Some(low) = next else {
            return Ok(read);
        };
        match read_page(alloc, conn, shape, column, low, &mut read) {
            Err(fault) => return Err(fault),
            Ok(further) => next = further,
        }
    }
    match next {
        None => Ok(read),
        Some(_) => Err(Fault::Source),
    }
}

// Returns the index of these values.
fn index_of(alloc: Global, values: Vec<Value>) -> Result<PlaceIndex, NoMemory>
    ensures { IfOk result (λ x. IsIndexFrom 0 (map datum values.items) x) }
{
    let mut left = values;
    let mut index = PlaceIndex::new(alloc, left.len())?;
    while let Some(value) = left.pop() {
        index.add(left.len(), value)?;
    }
    Ok(index)
}

/// Reads the keys of a table and the values of one of its columns, so that its rows can be found by that value.
///
/// Fails as the source where the table has more than 1,000,000 rows, or a cell that is not of its column's type. Nothing changes, also
/// where it fails. This holds over a store that always returns what was written, and of each call by itself that is sure (`IsSure`).
pub fn read_lookup<S: SourceStore>(
    alloc: Global,
    conn: &mut Connection<S>,
    shape: &Shape,
    column: usize,
) -> Result<Lookup, Fault>
    requires idle { conn.old.in_transaction ≡ false }
    requires known { S.honest ≡ true → ∥ IsKnown conn.old.schema shape.now ∥₁ }
    ensures is { S.honest ≡ true → IfOk result (IsLookup shape.now (entries_of (state S.Store conn.old).now shape.now)) }
    ensures column { IfOk result (λ x. x.column ≡ column) }
    ensures refused { IfErr result not_refused }
    ensures same { S.honest ≡ true → (state S.Store conn.new).now ≡ (state S.Store conn.old).now }
    ensures sure_is { IsSure (state S.Store conn.old) (state S.Store conn.new) shape.now
        → IfOk result (IsLookup shape.now (entries_of (state S.Store conn.old).now shape.now)) }
    ensures reads { ReadsOnly (state S.Store conn.old) (state S.Store conn.new) shape.now }
    ensures idle { conn.new.in_transaction ≡ false }
{
    let ColumnRead { keys, values } = match read_column(alloc, conn, shape, column) {
        Err(fault) => return Err(fault),
        Ok(read) => read,
    };
    let index = index_of(alloc, values)?;
    Ok(Lookup {
        column,
        keys,
        index,
    })
}
