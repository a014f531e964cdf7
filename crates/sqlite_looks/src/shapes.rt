//! Tables as statements see them: a table is looked at once, with the texts by which it is to be read and changed, and its shape holds
//! what was found.
ghost use Rattle.std.specs.Prelude.{◌≡◌, ◌+◌, ◌^◌, ◌<◌, ◌≤◌, Some, true, map, is_some, slice_get, string_bytes, IfOk, IfSome};
ghost use Rattle.std.specs.List.{list_all};
ghost use Rattle.sqlite_schema.specs.declared.schema.Table.{Table};
ghost use Rattle.sqlite_looks.specs.Looks.{means_page};
ghost use Rattle.sqlite_looks.specs.Shapes as spec;

use crate::foreign::tables_are_free;
use crate::looks::{puts_in, reads_page, takes_out};
use sqlite_schema::schema::{Column, Kind, Schema, Table};
use sqlite_value::value::Bytes;
use std::alloc::{AllocError, Global};

/// How many rows a page has at most.
pub const PAGE_SIZE: u32 = 64;

/// A column of a table.
#[derive(Debug, Drop)]
pub struct ShapeColumn {
    /// Its stored name.
    pub name: Bytes,
    /// Its type, or its affinity where the table is not STRICT.
    pub kind: Kind,
    /// Where a row has its value: 0, where the rowid is its value.
    pub place: usize,
}

/// Why a table is read and not written.
#[derive(Clone, Copy, Debug, PartialEq, Eq)]
pub enum ReadOnly {
    /// It is AUTOINCREMENT.
    Counted,
    /// A default reads the time.
    Stamped,
    /// A foreign key refers to it.
    Referenced,
    /// The text for DELETE or INSERT does not mean what is wanted.
    OtherMeaning,
}

/// The texts by which a table is to be read and changed.
#[derive(Debug, Drop)]
pub struct Texts {
    /// The text that reads a page of the rows whose rowids are from ?1 to ?2.
    pub page: String,
    /// The text that takes the row of the rowid ?1 out.
    pub delete: String,
    /// The text that puts a row in.
    pub insert: String,
}

/// A table that can be read.
#[derive(Debug, Drop)]
pub struct Shape {
    /// Its stored name.
    pub name: Bytes,
    /// Its place in the schema.
    pub table: usize,
    /// The tree that has its rows.
    pub tree: u32,
    /// All its columns, in the order in which they are stored.
    pub columns: Vec<ShapeColumn>,
    /// The column that is the INTEGER PRIMARY KEY, by its number.
    pub key: Option<usize>,
    /// What a page shows of each row: the places of the rowid and of the columns that are wanted.
    pub places: Vec<usize>,
    /// The cells of a new row, the rowid first: each is the value of a parameter, by its index, or NULL.
    pub cells: Vec<Option<usize>>,
    /// The texts by which it is read and changed.
    pub texts: Texts,
    /// Why it is not changed; `None`, where it may be.
    pub read_only: Option<ReadOnly>,
}

// The places of the rowid and of these columns; `None` where one is not there.
fn places_of(
    alloc: Global,
    table: &Table,
    wanted: &[usize],
) -> Result<Option<Vec<usize>>, AllocError>
    ensures places { IfOk result (λ found. IfSome found (λ places. places.items ≡ spec.places_of table.now wanted.now)) }
    ensures there { IfOk result (λ found. is_some found ≡ list_all (spec.is_there table.now) wanted.now) }
{
    let count = table.columns.len();
    let mut places = Vec::new(alloc);
    places.push(0)?;
    let mut left = wanted;
    while let Some((at, others)) = left.split_first() {
        if *at >= count {
            return Ok(None);
        }
        places.push(table.place_of(*at))?;
        left = others;
    }
    Ok(Some(places))
}

// The places that a page shows, where its text reads one that shows them.
fn reading(
    alloc: Global,
    schema: &Schema,
    table: &Table,
    wanted: &[usize],
    page: &str,
) -> Result<Option<Vec<usize>>, AllocError>
    ensures places { IfOk result (λ found. IfSome found (λ places. places.items ≡ spec.places_of table.now wanted.now)) }
    ensures reads { IfOk result (λ found. is_some found ≡ spec.can_read schema.now table.now wanted.now page.now) }
    ensures page { IfOk result (λ found. IfSome found (λ _.
        means_page schema.now page.now table.now.tree (spec.places_of table.now wanted.now) 64 ≡ true)) }
{
    let Some(places) = places_of(alloc, table, wanted)? else {
        return Ok(None);
    };
    let reads = reads_page(
        alloc,
        schema,
        page.as_bytes(),
        table.tree,
        &places,
        PAGE_SIZE,
    )?;
    if reads { Ok(Some(places)) } else { Ok(None) }
}

// A column of a table as a shape has it.
fn column_of(
    alloc: Global,
    key: Option<usize>,
    at: usize,
    column: &Column,
) -> Result<ShapeColumn, AllocError>
    requires { at + 1 < 2 ^ 64 }
    ensures { IfOk result (λ shown. spec.entry_of shown ≡ spec.entry_at key at column.now) }
{
    let name = Bytes::from_slice(alloc, column.name.as_slice())?;
    let place = if key == Some(at) { 0 } else { at + 1 };
    let kind = column.kind;
    Ok(ShapeColumn { name, kind, place })
}

// The columns of a table.
fn columns_of(alloc: Global, table: &Table) -> Result<Vec<ShapeColumn>, AllocError>
    ensures { IfOk result (λ columns. map spec.entry_of columns.items ≡ spec.entries_of table.now) }
{
    let _count = table.columns.len();
    let mut columns = Vec::new(alloc);
    let mut at: usize = 0;
    let mut left = table.columns.as_slice();
    while let Some((column, others)) = left.split_first() {
        columns.push(column_of(alloc, table.key, at, column)?)?;
        at += 1;
        left = others;
    }
    Ok(columns)
}

// The cell of a new row in the column at this number, and the parameter that comes next.
fn cell_at(key: Option<usize>, at: usize, parameter: usize) -> (Option<usize>, usize)
    requires { parameter + 1 < 2 ^ 64 }
    ensures cell { result ≡ spec.cell_at key at parameter }
    ensures few { result.1 ≤ parameter + 1 }
{
    if key == Some(at) {
        (None, parameter)
    } else {
        (Some(parameter), parameter + 1)
    }
}

// The cells of a new row of a table.
fn cells_of(alloc: Global, table: &Table) -> Result<Vec<Option<usize>>, AllocError>
    ensures { IfOk result (λ cells. cells.items ≡ spec.cells_of table.now) }
{
    let _count = table.columns.len();
    let mut cells = Vec::new(alloc);
    cells.push(Some(0))?;
    let mut parameter: usize = 1;
    let mut at: usize = 0;
    let mut left = table.columns.as_slice();
    while let Some((_column, others)) = left.split_first() {
        let (cell, next) = cell_at(table.key, at, parameter);
        cells.push(cell)?;
        parameter = next;
        at += 1;
        left = others;
    }
    Ok(cells)
}

// Why a table is not written, whatever its texts mean.
fn barred(schema: &Schema, table: &Table) -> Option<ReadOnly>
    ensures { result ≡ spec.barred schema.now table.now }
{
    if table.is_counted {
        Some(ReadOnly::Counted)
    } else if !table.stamps.terms.roots.is_empty() {
        Some(ReadOnly::Stamped)
    } else if !tables_are_free(schema, table.tree) {
        Some(ReadOnly::Referenced)
    } else {
        None
    }
}

// Whether the texts take one row out of the table at this place, and put one of these cells in.
fn can_change(
    alloc: Global,
    schema: &Schema,
    at: usize,
    tree: u32,
    cells: &[Option<usize>],
    texts: &Texts,
) -> Result<bool, AllocError>
    ensures { IfOk result (λ can. can ≡ spec.can_change schema.now at tree cells.now texts.now) }
{
    if !takes_out(alloc, schema, texts.delete.as_bytes(), at, tree)? {
        return Ok(false);
    }
    puts_in(
        alloc,
        schema,
        texts.insert.as_bytes(),
        at,
        cells,
        cells.len(),
    )
}

// Why the table at this place is not written by these texts, if it is not.
fn read_only(
    alloc: Global,
    schema: &Schema,
    at: usize,
    table: &Table,
    cells: &[Option<usize>],
    texts: &Texts,
) -> Result<Option<ReadOnly>, AllocError>
    requires { cells.now ≡ spec.cells_of table.now }
    ensures { IfOk result (λ why. why ≡ spec.read_only schema.now at table.now texts.now) }
{
    if let Some(reason) = barred(schema, table) {
        return Ok(Some(reason));
    }
    let can = can_change(alloc, schema, at, table.tree, cells, texts)?;
    Ok(if can {
        None
    } else {
        Some(ReadOnly::OtherMeaning)
    })
}

// The shape of the table at this place, with the places that its pages show.
fn shape_of(
    alloc: Global,
    schema: &Schema,
    at: usize,
    table: &Table,
    places: Vec<usize>,
    texts: Texts,
) -> Result<Shape, AllocError>
    ensures shape { IfOk result (λ shape. (wanted : _) → places.items ≡ spec.places_of table.now wanted
        → spec.IsShapeOf schema.now at table.now wanted shape) }
    ensures texts { IfOk result (λ shape. shape.texts ≡ texts) }
{
    let name = Bytes::from_slice(alloc, table.name.as_slice())?;
    let columns = columns_of(alloc, table)?;
    let cells = cells_of(alloc, table)?;
    let read_only = read_only(alloc, schema, at, table, &cells, &texts)?;
    Ok(Shape {
        name,
        table: at,
        tree: table.tree,
        columns,
        key: table.key,
        places,
        cells,
        texts,
        read_only,
    })
}

/// Looks at the table at a place of the schema, of which these columns are wanted, by their numbers, in this order, and at the texts by
/// which it is to be read and changed. The texts may be any texts.
///
/// Returns `None` just where there is no such table or no such column, or where the page text does not mean the page of it that shows
/// these columns under this schema. Whether it may be changed, too, the shape says. Fails out of memory alone.
pub fn look_at(
    alloc: Global,
    schema: &Schema,
    at: usize,
    wanted: &[usize],
    texts: Texts,
) -> Result<Option<Shape>, AllocError>
    ensures found { IfOk result (λ found. is_some found
        ≡ spec.can_look schema.now (slice_get schema.now.tables at) wanted.now (string_bytes texts.page)) }
    ensures looked { (table : Table) → slice_get schema.now.tables at ≡ Some table
        → IfOk result (λ found. IfSome found (spec.IsShapeOf schema.now at table wanted.now)) }
    ensures page { (table : Table) → slice_get schema.now.tables at ≡ Some table
        → IfOk result (λ found. IfSome found (λ shape. spec.shows_pages schema.now table wanted.now shape ≡ true)) }
    ensures texts { IfOk result (λ found. IfSome found (λ shape. shape.texts ≡ texts)) }
{
    let Some(table) = schema.tables.get(at) else {
        return Ok(None);
    };
    match reading(alloc, schema, table, wanted, texts.page.as_str())? {
        Some(places) => Ok(Some(shape_of(alloc, schema, at, table, places, texts)?)),
        None => Ok(None),
    }
}
