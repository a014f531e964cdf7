//! The places over which a scan has to go, where the first column of its table rises.
ghost use Rattle.std.specs.Prelude.{◌≡◌, ◌<◌, ℕ, true, false, map, length, IfOk, Some};
ghost use Rattle.med_value.specs.Datum.{datum, cell};
ghost use Rattle.fdw_api.specs.Scan.{spec_of};
ghost use Rattle.wrapper_parts.specs.Scans.{column_cells};
ghost use Rattle.wrapper_parts.specs.Rising.{AreRising};
ghost use Rattle.wrapper_parts.specs.Halves.{is_under, Parts, IsBeyond, IsAround};
ghost use Rattle.place_wrapper.specs.Boxes.{table_at, Spans};

use crate::format::PlacedTable;
use crate::tables::table_at;
use fdw_api::scan::ScanSpec;
use med_value::{NoMemory, Value};
use std::alloc::Global;
use wrapper_parts::{KeyRange, range_around};

/// Places of a table, from the first to the end, which is none of them.
#[derive(Clone, Copy)]
pub(crate) struct Span {
    pub first: usize,
    pub end: usize,
}

// Whether a value is an integer below a key.
fn is_under(key: i64, value: &Value) -> bool
    ensures { result ≡ is_under key (datum value.now) }
{
    match value {
        Value::Int(n) => *n < key,
        _ => false,
    }
}

// Whether the key at a place is below this one.
fn key_under<T: PlacedTable>(
    alloc: Global,
    table: &T,
    at: usize,
    key: i64,
) -> Result<bool, NoMemory>
    requires { at < length (T.form.rows table.now) }
    ensures { IfOk result (λ under. under ≡ is_under key (cell (column_cells 0 (T.form.rows table.now)) at)) }
{
    let cell = table.cell(alloc, at, 0)?;
    Ok(is_under(key, &cell))
}

/// The first place of a key that is at least this one, found by halves, and the number of rows where there is none.
fn first_at_least<T: PlacedTable>(alloc: Global, table: &T, key: i64) -> Result<usize, NoMemory>
    requires { AreRising (column_cells 0 (T.form.rows table.now)) }
    ensures { IfOk result (λ at. Parts (column_cells 0 (T.form.rows table.now)) key at) }
{
    let mut first = 0;
    let mut end = table.count();
    while first < end {
        let middle = first + (end - first) / 2;
        if key_under(alloc, table, middle, key)? {
            first = middle + 1;
        } else {
            end = middle;
        }
    }
    Ok(first)
}

/// The first place of a key that is over this one, and the number of rows where there is none.
fn first_over<T: PlacedTable>(alloc: Global, table: &T, key: i64) -> Result<usize, NoMemory>
    requires { AreRising (column_cells 0 (T.form.rows table.now)) }
    ensures { IfOk result (λ end. IsBeyond (column_cells 0 (T.form.rows table.now)) key end) }
{
    if key == i64::MAX {
        return Ok(table.count());
    }
    first_at_least(alloc, table, key + 1)
}

/// The places of the keys of a range.
fn places_of<T: PlacedTable>(alloc: Global, table: &T, range: KeyRange) -> Result<Span, NoMemory>
    requires { AreRising (column_cells 0 (T.form.rows table.now)) }
    ensures { IfOk result (λ span. IsAround (column_cells 0 (T.form.rows table.now)) range span.first span.end) }
{
    if !range.open {
        return Ok(Span { first: 0, end: 0 });
    }
    let first = first_at_least(alloc, table, range.low)?;
    let end = first_over(alloc, table, range.high)?;
    Ok(Span { first, end })
}

/// The places over which a scan has to go of a table that rises: those of the keys of the range around it, and where memory is wanting for
/// these, all.
fn rising_span<T: PlacedTable>(alloc: Global, table: &T, spec: &ScanSpec, params: &[Value]) -> Span
    requires { AreRising (column_cells 0 (T.form.rows table.now)) }
    ensures { Spans T.form (Some table.now) (spec_of spec.now) (map datum params.now) result.first result.end }
{
    let range = range_around(&spec.offered, &spec.agreement.answers, params);
    match places_of(alloc, table, range) {
        Ok(span) => span,
        Err(_) => Span {
            first: 0,
            end: table.count(),
        },
    }
}

/// The places over which a scan has to go. They are all where nothing is offered to it, or it goes by an index.
pub(crate) fn span_of<T: PlacedTable>(
    alloc: Global,
    tables: &Vec<Option<T>>,
    number: usize,
    spec: &ScanSpec,
    params: &[Value],
    indexed: bool,
) -> Span
    ensures spans { Spans T.form (table_at tables.now.items number) (spec_of spec.now) (map datum params.now) result.first result.end }
    ensures indexed { indexed ≡ true → result.first ≡ 0 }
{
    let Some(table) = table_at(tables, number) else {
        return Span { first: 0, end: 0 };
    };
    if indexed || spec.offered.is_empty() || !table.rises() {
        return Span {
            first: 0,
            end: table.count(),
        };
    }
    rising_span(alloc, table, spec, params)
}
