//! What a scan looks for.
ghost use Rattle.std.specs.Prelude.{◌≡◌, map, option_map, true, IfSome};
ghost use Rattle.med_value.specs.Datum.{datum, tuple, cell, NoValue};
ghost use Rattle.fdw_api.specs.Scan.{restriction_form, spec_of};
ghost use Rattle.wrapper_parts.specs.Places.{equals};
ghost use Rattle.wrapper_parts.specs.Scans.{form_of, sought, sought_by, takes, Leads};

use crate::index::PlaceIndex;
use fdw_api::scan::{Agree, Operand, Restriction, ScanSpec, Test, meets_taken};
use med_value::{Comparison, Row, Value};

/// What a scan looks for: that the cell of a column is equal to a parameter, as `column = parameter` says.
#[derive(Clone, Copy, Debug, PartialEq, Eq)]
pub struct Sought {
    /// The column, counted from 0.
    pub column: usize,
    /// The parameter's number, counted from 0.
    pub parameter: usize,
}

/// An index by which a scan goes: of the cells of a column, each of which is looked for by its value under a parameter.
#[derive(Drop)]
pub struct SoughtIndex {
    /// The column, and the parameter.
    pub found: Sought,
    /// The places of the column's cells.
    pub places: PlaceIndex,
}

impl Sought {
    /// Whether it looks for the same parameter in the same column.
    pub fn is_of(self, other: Sought) -> bool
        ensures { result ≡ true → form_of self ≡ form_of other }
    {
        self.column == other.column && self.parameter == other.parameter
    }
}

// What a restriction looks for.
fn sought_by(restriction: &Restriction) -> Option<Sought>
    ensures { option_map form_of result ≡ sought_by (restriction_form restriction.now) }
{
    match &restriction.test {
        Test::Compare(Comparison::Equal, Operand::Parameter(parameter)) => Some(Sought {
            column: restriction.column,
            parameter: *parameter,
        }),
        _ => None,
    }
}

/// What the first restriction looks for that compares a column with a parameter by `=`.
pub fn sought_in(offered: &[Restriction]) -> Option<Sought>
    ensures { option_map form_of result ≡ sought (map restriction_form offered.now) }
{
    let mut offered = offered;
    while let Some((restriction, further)) = offered.split_first() {
        if let Some(found) = sought_by(restriction) {
            return Some(found);
        }
        offered = further;
    }
    None
}

/// What the restriction at a place looks for, if it was answered Exact: each row that the scan takes has it.
pub fn exact_at(spec: &ScanSpec, at: usize) -> Option<Sought>
    ensures { IfSome result (λ s. Leads (spec_of spec.now) (form_of s)) }
{
    let Some(restriction) = spec.offered.get(at) else {
        return None;
    };
    match spec.agreement.answers.get(at) {
        Some(Agree::Exact) => sought_by(restriction),
        _ => None,
    }
}

/// What a scan looks for first: each row that it takes has it.
pub fn first_lead(spec: &ScanSpec) -> Option<Sought>
    ensures { IfSome result (λ s. Leads (spec_of spec.now) (form_of s)) }
{
    sought_in(&spec.offered)
}

/// The value at a place, and where there is none the one that is given for it, NULL.
pub fn value_at<'a>(values: &'a [Value], at: usize, missing: &'a Value) -> &'a Value
    requires { datum missing.now ≡ NoValue }
    ensures { datum result.now ≡ cell (map datum values.now) at }
{
    match values.get(at) {
        Some(value) => value,
        None => missing,
    }
}

// Whether a row has what is looked for.
fn has(found: Sought, params: &[Value], row: &Row) -> bool
    ensures { result ≡ equals (cell (map datum params.now) found.parameter) (cell (tuple row.now) found.column) }
{
    let missing = Value::Null;
    let value = value_at(params, found.parameter, &missing);
    Comparison::Equal.is_true(value_at(&row.cells, found.column, &missing), value)
}

/// Whether a scan takes a row: it has what the scan looks for, and meets what was answered Exact.
pub fn takes(spec: &ScanSpec, found: Option<Sought>, params: &[Value], row: &Row) -> bool
    requires { option_map form_of found ≡ sought (map restriction_form spec.now.offered.items) }
    ensures { result ≡ takes (spec_of spec.now) (map datum params.now) (tuple row.now) }
{
    if let Some(found) = found
        && !has(found, params, row)
    {
        return false;
    }
    meets_taken(&spec.offered, &spec.agreement.answers, row, params)
}
