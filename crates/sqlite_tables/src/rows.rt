//! Rows of a table that is looked at: their keys, and whether their cells are of its columns' types. No value is made of a cell.
ghost use Rattle.std.specs.Prelude.{◌≡◌, ◌≢◌, ◌≤◌, true, false, Some, length, IfOk, IfErr, OnOk};
ghost use Rattle.sqlite.specs.Order.{column};
ghost use Rattle.sqlite.specs.declared.types.Value.TheVariants.{Text};
ghost use Rattle.fdw_api.specs.Scan.{cell_fits, row_fits};
ghost use Rattle.sqlite_tables.specs.Layouts.{kinds_at};
ghost use Rattle.sqlite_tables.specs.Cells.{truth_of, cell_of, cells_at, are_below, key_in, is_row};
ghost use Rattle.sqlite_tables.specs.Surveys.{fits_in};

use crate::{Misread, PageColumn, Shape};
use med_value::ColType;
use sqlite::Row;
use sqlite::types::ValueRef;

// Whether a number is a truth value.
fn is_truth(number: i64) -> bool
    ensures { result ≡ cell_fits (Some ColType.Bool) (truth_of number) }
{
    number == 0 || number == 1
}

// Whether bytes are a text without U+0000.
fn is_text(bytes: &[u8]) -> bool
    ensures { result ≡ cell_fits (Some ColType.Text) (cell_of ColType.Text (Text bytes.now)) }
{
    let Ok(_text) = std::str::from_utf8(bytes) else {
        return false;
    };
    !bytes.contains(&0)
}

// Fails as stray where a cell does not fit its column.
fn stray_unless(fits: bool) -> Result<(), Misread>
    ensures fits { OnOk result (fits ≡ true) }
    ensures stray { IfErr result (λ m. (m ≡ Misread.Stray) × (fits ≡ false)) }
{
    if fits { Ok(()) } else { Err(Misread::Stray) }
}

// Looks at the cell of a column of a type.
fn check_cell(kind: ColType, row: &Row, at: usize) -> Result<(), Misread>
    ensures fits { OnOk result (cell_fits (Some kind) (cell_of kind (column row.now at)) ≡ true) }
    ensures stray { IfErr result (λ m. m ≡ Misread.Stray → cell_fits (Some kind) (cell_of kind (column row.now at)) ≡ false) }
    ensures no_row { IfErr result (λ m. m ≡ Misread.NoRow → length row.now ≤ at) }
    ensures memory { IfErr result (λ m. m ≢ Misread.NoMemory) }
{
    let Ok(stored) = row.get_ref(at) else {
        return Err(Misread::NoRow);
    };
    match stored {
        ValueRef::Null => Ok(()),
        ValueRef::Int(number) => match kind {
            ColType::Int => Ok(()),
            ColType::Bool => stray_unless(is_truth(number)),
            ColType::Text => Err(Misread::Stray),
        },
        ValueRef::Text(bytes) => match kind {
            ColType::Text => stray_unless(is_text(bytes)),
            _ => Err(Misread::Stray),
        },
        ValueRef::Real(_) | ValueRef::Blob(_) => Err(Misread::Stray),
    }
}

// Looks at the cells of columns in a row of a page.
fn check_cells(columns: &[PageColumn], row: &Row) -> Result<(), Misread>
    ensures fits { OnOk result (row_fits (kinds_at columns.now) (cells_at columns.now row.now) ≡ true) }
    ensures stray { IfErr result (λ m. m ≡ Misread.Stray
        → row_fits (kinds_at columns.now) (cells_at columns.now row.now) ≡ false) }
    ensures no_row { IfErr result (λ m. m ≡ Misread.NoRow → are_below (length row.now) columns.now ≡ false) }
    ensures memory { IfErr result (λ m. m ≢ Misread.NoMemory) }
{
    let mut left = columns;
    while let Some((column, others)) = left.split_first() {
        match check_cell(column.kind, row, column.place) {
            Ok(()) => {}
            Err(misread) => return Err(misread),
        }
        left = others;
    }
    Ok(())
}

/// Looks at a row of a page of a table, and returns its key.
///
/// Fails as stray where a cell is not of its column's type, and as no row where the row is none of a page. No memory is taken.
pub(crate) fn check_row(shape: &Shape, row: &Row) -> Result<i64, Misread>
    ensures key { IfOk result (λ key. key ≡ key_in row.now) }
    ensures fits { OnOk result (fits_in shape.now row.now ≡ true) }
    ensures stray { IfErr result (λ m. m ≡ Misread.Stray → fits_in shape.now row.now ≡ false) }
    ensures no_row { IfErr result (λ m. m ≡ Misread.NoRow → is_row shape.now row.now ≡ false) }
    ensures memory { IfErr result (λ m. m ≢ Misread.NoMemory) }
{
    let key = match row.get_ref(0) {
        Ok(ValueRef::Int(key)) => key,
        _ => return Err(Misread::NoRow),
    };
    match check_cells(shape.columns(), row) {
        Ok(()) => Ok(key),
        Err(misread) => Err(misread),
    }
}
