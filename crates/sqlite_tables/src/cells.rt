//! Stored cells as values.
ghost use Rattle.std.specs.Prelude.{◌≡◌, ◌≢◌, ◌≤◌, ◌++◌, [], ◌∷◌, true, false, Some, None, map, length, IfOk, IfErr, IfSome, OnOk};
ghost use Rattle.sqlite.specs.Order.{column};
ghost use Rattle.med_value.specs.Prelude.{datum, tuple};
ghost use Rattle.fdw_api.specs.Prelude.{cell_fits, row_fits};
ghost use Rattle.sqlite.specs.declared.types.Value.TheVariants.{Text};
ghost use Rattle.sqlite_tables.specs.Layouts.{kinds_at, kinds_in};
ghost use Rattle.sqlite_tables.specs.Cells.{truth_of, cell_of, cells_at, are_below, page_cells, key_in, has_key, is_row};

use crate::{PageColumn, Shape};
use med_value::{ColType, Row as Tuple, Value};
use sqlite::Row;
use sqlite::types::ValueRef;
use std::alloc::{AllocError, Global};

/// Why a stored cell does not read as a value of its column.
#[derive(Clone, Copy, Debug, PartialEq, Eq)]
pub enum Misread {
    /// Out of memory.
    NoMemory,
    /// A cell is of another storage class, is a number other than 0 and 1 in a column of truth values, is not UTF-8, or has U+0000.
    Stray,
    /// The row is no row of a page: it has no integer key, or no cell in the place of a column.
    NoRow,
}

impl From<AllocError> for Misread {
    ghost use Rattle.sqlite_tables.specs.declared.cells.Misread.TheVariants.{NoMemory};

    ghost from_gives = { λ _ fault. fault ≡ NoMemory };

    fn from(_: AllocError) -> Misread {
        Misread::NoMemory
    }
}

fn truth(number: i64) -> Result<Value, Misread>
    ensures value { IfOk result (λ v. datum v ≡ truth_of number) }
    ensures fits { IfOk result (λ v. cell_fits (Some ColType.Bool) (datum v) ≡ true) }
    ensures stray { IfErr result (λ m. (m ≡ Misread.Stray) × (cell_fits (Some ColType.Bool) (truth_of number) ≡ false)) }
{
    if number == 0 {
        return Ok(Value::Bool(false));
    }
    if number == 1 {
        return Ok(Value::Bool(true));
    }
    Err(Misread::Stray)
}

fn text(alloc: Global, bytes: &[u8]) -> Result<Value, Misread>
    ensures value { IfOk result (λ v. datum v ≡ cell_of ColType.Text (Text bytes.now)) }
    ensures fits { IfOk result (λ v. cell_fits (Some ColType.Text) (datum v) ≡ true) }
    ensures is_row { IfErr result (λ m. m ≢ Misread.NoRow) }
    ensures stray { IfErr result (λ m. m ≡ Misread.Stray → cell_fits (Some ColType.Text) (cell_of ColType.Text (Text bytes.now)) ≡ false) }
{
    let Ok(text) = std::str::from_utf8(bytes) else {
        return Err(Misread::Stray);
    };
    if bytes.contains(&0) {
        return Err(Misread::Stray);
    }
    Ok(Value::Text(String::from_str(alloc, text)?))
}

// The cell of a column as a value of its type.
fn cell(alloc: Global, kind: ColType, row: &Row, at: usize) -> Result<Value, Misread>
    ensures value { IfOk result (λ v. datum v ≡ cell_of kind (column row.now at)) }
    ensures fits { IfOk result (λ v. cell_fits (Some kind) (datum v) ≡ true) }
    ensures stray { IfErr result (λ m. m ≡ Misread.Stray → cell_fits (Some kind) (cell_of kind (column row.now at)) ≡ false) }
    ensures no_row { IfErr result (λ m. m ≡ Misread.NoRow → length row.now ≤ at) }
{
    let Ok(stored) = row.get_ref(at) else {
        return Err(Misread::NoRow);
    };
    match stored {
        ValueRef::Null => Ok(Value::Null),
        ValueRef::Int(number) => match kind {
            ColType::Int => Ok(Value::Int(number)),
            ColType::Bool => truth(number),
            ColType::Text => Err(Misread::Stray),
        },
        ValueRef::Text(bytes) => match kind {
            ColType::Text => text(alloc, bytes),
            _ => Err(Misread::Stray),
        },
        ValueRef::Real(_) | ValueRef::Blob(_) => Err(Misread::Stray),
    }
}

/// A row of a page as its key and the values of its columns.
#[derive(Debug, Drop)]
pub struct Keyed {
    /// Its key.
    pub key: i64,
    /// The values of its columns, in their order.
    pub cells: Tuple,
}

// The key of a row of a page: an integer, in its first place.
fn key_at(row: &Row) -> Option<i64>
    ensures key { IfSome result (λ k. k ≡ key_in row.now) }
    ensures none { result ≡ None → has_key row.now ≡ false }
{
    match row.get_ref(0) {
        Ok(ValueRef::Int(key)) => Some(key),
        _ => None,
    }
}

fn push(values: &mut Vec<Value>, value: Value) -> Result<(), AllocError>
    ensures { OnOk result (map datum values.new.items ≡ map datum values.old.items ++ datum value ∷ []) }
{
    values.push(value)?;
    Ok(())
}

// The values of columns in a row of a page.
fn values_at(alloc: Global, columns: &[PageColumn], row: &Row) -> Result<Vec<Value>, Misread>
    ensures values { IfOk result (λ values. map datum values.items ≡ cells_at columns.now row.now) }
    ensures fits { IfOk result (λ _. row_fits (kinds_at columns.now) (cells_at columns.now row.now) ≡ true) }
    ensures stray { IfErr result (λ m. m ≡ Misread.Stray
        → row_fits (kinds_at columns.now) (cells_at columns.now row.now) ≡ false) }
    ensures no_row { IfErr result (λ m. m ≡ Misread.NoRow → are_below (length row.now) columns.now ≡ false) }
{
    let mut values = Vec::with_capacity(alloc, columns.len())?;
    let mut left = columns;
    while let Some((column, others)) = left.split_first() {
        match cell(alloc, column.kind, row, column.place) {
            Ok(value) => push(&mut values, value)?,
            Err(misread) => return Err(misread),
        }
        left = others;
    }
    Ok(values)
}

/// Returns a row of a page of a table as its key and the values of its columns.
///
/// Fails as stray where a cell is not of its column's type, as no row where the row is none of a page, and when out of memory.
pub fn key_and_cells(alloc: Global, shape: &Shape, row: &Row) -> Result<Keyed, Misread>
    ensures key { IfOk result (λ k. k.key ≡ key_in row.now) }
    ensures cells { IfOk result (λ k. tuple k.cells ≡ page_cells shape.now row.now) }
    ensures fits { IfOk result (λ k. row_fits (kinds_in shape.now) (tuple k.cells) ≡ true) }
    ensures stray { IfErr result (λ m. m ≡ Misread.Stray
        → row_fits (kinds_in shape.now) (page_cells shape.now row.now) ≡ false) }
    ensures no_row { IfErr result (λ m. m ≡ Misread.NoRow → is_row shape.now row.now ≡ false) }
{
    let Some(key) = key_at(row) else {
        return Err(Misread::NoRow);
    };
    match values_at(alloc, shape.columns(), row) {
        Ok(cells) => Ok(Keyed {
            key,
            cells: Tuple { cells },
        }),
        Err(misread) => Err(misread),
    }
}
