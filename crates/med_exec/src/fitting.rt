//! Whether the rows that a query answered may be inserted.
ghost use Rattle.std.specs.Prelude.{◌≡◌, ◌&&◌, ℕ, List, Option, map};
ghost use Rattle.med_value.specs.Datum.{datum, tuple};
ghost use Rattle.fdw_api.specs.Scan.{has_kind, is_clean, row_fits};
ghost use Rattle.med_write.specs.Form.{form_of, insert_form, answer_form};
ghost use Rattle.med_exec.specs.Fitting.{kinds_written, value_placed, row_placed, answer_fits};

use med_value::{ColType, Row, Value};
use med_write::{BoundWrite, RowWrite, WrittenColumn};

// Whether a value is of a column's type, or NULL; and a text without U+0000.
fn value_fits(kind: ColType, value: &Value) -> bool
    ensures { result ≡ (has_kind kind (datum value.now) && is_clean (datum value.now)) }
{
    match value {
        Value::Null => true,
        Value::Int(_) => kind == ColType::Int,
        Value::Text(text) => kind == ColType::Text && !text.as_bytes().contains(&0),
        Value::Bool(_) => kind == ColType::Bool,
    }
}

// The same of what a row has in the place of a column's value.
fn placed_fits(kind: ColType, place: Option<usize>, row: &Row) -> bool
    ensures { result ≡ (has_kind kind (value_placed (tuple row.now) place) && is_clean (value_placed (tuple row.now) place)) }
{
    match place {
        None => true,
        Some(at) => match row.cells.get(at) {
            Some(value) => value_fits(kind, value),
            None => true,
        },
    }
}

// Whether the row that an INSERT makes of an answered one is of the columns' types.
fn row_fits(columns: &[WrittenColumn], places: &[Option<usize>], row: &Row) -> bool
    ensures { result ≡ row_fits (kinds_written columns.now) (row_placed places.now (tuple row.now)) }
{
    let mut columns = columns;
    let mut places = places;
    while let Some((column, further)) = columns.split_first() {
        let Some((place, others)) = places.split_first() else {
            return false;
        };
        if !placed_fits(column.kind, *place, row) {
            return false;
        }
        columns = further;
        places = others;
    }
    places.is_empty()
}

// The same of each row.
fn rows_fit(columns: &[WrittenColumn], places: &[Option<usize>], answer: &[Row]) -> bool
    ensures { result ≡ answer_fits (kinds_written columns.now) places.now (map tuple answer.now) }
{
    for row in answer {
        if !row_fits(columns, places, row) {
            return false;
        }
    }
    true
}

/// Whether the rows that an INSERT makes of an answer are of the columns' types, without U+0000.
pub fn fits(write: &BoundWrite, answer: &[Row]) -> bool
    ensures { (places : List (Option ℕ)) → form_of write.now.rows ≡ insert_form places answer_form
        → result ≡ answer_fits (kinds_written write.now.columns.items) places (map tuple answer.now) }
{
    match &write.rows {
        RowWrite::Insert { places, given: _ } => {
            rows_fit(write.columns.as_slice(), places.as_slice(), answer)
        }
        RowWrite::Update { .. } | RowWrite::Delete { .. } => false,
    }
}
