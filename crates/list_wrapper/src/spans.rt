//! The places over which a scan has to go, where the first column of its table rises.
ghost use Rattle.std.specs.Prelude.{◌≡◌, ◌<◌, map, length};
ghost use Rattle.med_value.specs.Datum.{datum, cell};
ghost use Rattle.fdw_api.specs.Scan.{spec_of};
ghost use Rattle.wrapper_parts.specs.Rising.{AreRising};
ghost use Rattle.wrapper_parts.specs.Halves.{is_under, Parts, IsBeyond, IsAround};
ghost use Rattle.list_wrapper.specs.Scans.{numbered, keys_of, Spans};

use crate::held_rows::Rows;
use fdw_api::scan::ScanSpec;
use med_value::Value;
use wrapper_parts::{KeyRange, range_around, value_at};

/// Places of a table, from the first to the end, which is none of them.
#[derive(Clone, Copy)]
pub(crate) struct Span {
    pub(crate) first: usize,
    pub(crate) end: usize,
}

// Whether a value is an integer below a key.
fn is_under(key: i64, value: &Value) -> bool
    ensures { result ≡ is_under key (datum value.now) }
{
    match value {
        Value::Int(n) => *n < key,
        _ => false,
    }
}

// Whether the key at a place is below this one.
fn key_under(rows: &Rows, at: usize, key: i64) -> bool
    requires { at < length rows.now.items }
    ensures { result ≡ is_under key (cell (keys_of rows.now.items) at) }
{
    let missing = Value::Null;
    is_under(key, value_at(&rows.at(at).cells, 0, &missing))
}

/// The first place of a key that is at least this one, found by halves, and the number of rows where there is none.
fn first_at_least(rows: &Rows, key: i64) -> usize
    requires { AreRising (keys_of rows.now.items) }
    ensures { Parts (keys_of rows.now.items) key result }
{
    let mut first = 0;
    let mut end = rows.len();
    while first < end {
        let middle = first + (end - first) / 2;
        if key_under(rows, middle, key) {
            first = middle + 1;
        } else {
            end = middle;
        }
    }
    first
}

/// The first place of a key that is over this one, and the number of rows where there is none.
fn first_over(rows: &Rows, key: i64) -> usize
    requires { AreRising (keys_of rows.now.items) }
    ensures { IsBeyond (keys_of rows.now.items) key result }
{
    if key == i64::MAX {
        return rows.len();
    }
    first_at_least(rows, key + 1)
}

/// The places of the keys of a range.
fn places_of(rows: &Rows, range: KeyRange) -> Span
    requires { AreRising (keys_of rows.now.items) }
    ensures { IsAround (keys_of rows.now.items) range result.first result.end }
{
    if !range.open {
        return Span { first: 0, end: 0 };
    }
    let first = first_at_least(rows, range.low);
    let end = first_over(rows, range.high);
    Span { first, end }
}

/// The places over which a scan has to go of rows whose first cells rise: those of the keys of the range around it.
pub(crate) fn span_of(rows: &Rows, spec: &ScanSpec, params: &[Value]) -> Span
    requires { AreRising (keys_of rows.now.items) }
    ensures { Spans (spec_of spec.now) (map datum params.now) (numbered 0 rows.now.items) result.first result.end }
{
    let range = range_around(&spec.offered, &spec.agreement.answers, params);
    places_of(rows, range)
}
