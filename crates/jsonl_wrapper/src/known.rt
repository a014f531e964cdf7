//! What the integer columns of a row tell of it, without its line.
ghost use Rattle.std.specs.Prelude.{◌≡◌, ◌<◌, ◌≤◌, ◌∷◌, [], true, None, Some, if◌then◌else◌, length, map, option_map, IfSome};
ghost use Rattle.std.specs.List.{slice_range};
ghost use Rattle.med_value.specs.Datum.{datum, cell};
ghost use Rattle.fdw_api.specs.Scan.{restriction_form, spec_of, meets_exact};
ghost use Rattle.wrapper_parts.specs.Places.{equals};
ghost use Rattle.wrapper_parts.specs.Scans.{form_of, sought, takes};
ghost use Rattle.jsonl_wrapper.specs.Tables.{readers_in, lines_in, line_in, row_cells};
ghost use Rattle.jsonl_wrapper.specs.Wholes.{whole_is, wholes_at, wholes_of};

use crate::table::JsonTable;
use crate::wholes::count_wholes;
use fdw_api::scan::{Agree, Restriction, ScanSpec};
use med_value::{ColType, Comparison, Value};
use wrapper_parts::{Sought, value_at};

/// What the integer columns read in the line of a row.
pub(crate) fn kept_wholes<'a>(table: &'a JsonTable, at: usize) -> &'a [Option<i64>]
    requires { at < length table.now.lines.items }
    ensures { map whole_is result.now ≡ wholes_at (readers_in table.now) (line_in table.now at) }
{
    let width = count_wholes(&table.fields);
    &table.wholes[at * width..at * width + width]
}

/// What the integer columns read in the lines from a place on up to another.
pub(crate) fn wholes_between<'a>(table: &'a JsonTable, from: usize, to: usize) -> &'a [Option<i64>]
    requires ordered { from ≤ to }
    requires within { to ≤ length table.now.lines.items }
    ensures { map whole_is result.now ≡ wholes_of (readers_in table.now) (slice_range (lines_in table.now) from to) }
{
    let width = count_wholes(&table.fields);
    &table.wholes[from * width..to * width]
}

/// A kept cell as a value, NULL where there is none.
fn whole_at(kept: &[Option<i64>], slot: usize) -> Value
    ensures { datum result ≡ cell (map whole_is kept.now) slot }
{
    match kept.get(slot) {
        Some(Some(number)) => Value::Int(*number),
        Some(None) => Value::Null,
        None => Value::Null,
    }
}

/// The cell of a row in a column, where that is a column of integers or is not there.
pub(crate) fn known_cell(table: &JsonTable, at: usize, column: usize) -> Option<Value>
    requires { at < length table.now.lines.items }
    ensures { IfSome result (λ v. datum v ≡ cell (row_cells table.now at) column) }
{
    if column >= table.fields.len() {
        return Some(Value::Null);
    }
    match table.fields[column].kind {
        ColType::Int => {
            let slot = count_wholes(&table.fields[..column]);
            Some(whole_at(kept_wholes(table, at), slot))
        }
        ColType::Text | ColType::Bool => None,
    }
}

/// Whether a row meets one restriction where that was answered Exact, if its integer columns tell.
fn meets_known(
    table: &JsonTable,
    at: usize,
    restriction: &Restriction,
    answer: Agree,
    params: &[Value],
) -> Option<bool>
    requires { at < length table.now.lines.items }
    ensures { IfSome result (λ b. b ≡ meets_exact (restriction_form restriction.now ∷ []) (answer ∷ []) (map datum params.now)
        (row_cells table.now at)) }
{
    match answer {
        Agree::Exact => match known_cell(table, at, restriction.column) {
            Some(value) => Some(restriction.is_met_by(&value, params)),
            None => None,
        },
        Agree::Hint | Agree::Ignored => Some(true),
    }
}

/// True where that is certain.
fn true_if(certain: bool) -> Option<bool>
    ensures { result ≡ (if certain then Some true else None) }
{
    if certain { Some(true) } else { None }
}

/// Whether a row meets what was answered Exact, if its integer columns tell.
fn all_known(
    table: &JsonTable,
    at: usize,
    offered: &[Restriction],
    answers: &[Agree],
    params: &[Value],
) -> Option<bool>
    requires { at < length table.now.lines.items }
    ensures { IfSome result (λ b. b
        ≡ meets_exact (map restriction_form offered.now) answers.now (map datum params.now) (row_cells table.now at)) }
{
    let mut offered = offered;
    let mut answers = answers;
    let mut certain = true;
    while let Some((restriction, further)) = offered.split_first() {
        let Some((answer, others)) = answers.split_first() else {
            return true_if(certain);
        };
        match meets_known(table, at, restriction, *answer, params) {
            Some(true) => {}
            Some(false) => return Some(false),
            None => certain = false,
        }
        offered = further;
        answers = others;
    }
    true_if(certain)
}

/// Whether a row has what is looked for, if its integer columns tell.
fn has_known(table: &JsonTable, at: usize, found: Sought, params: &[Value]) -> Option<bool>
    requires { at < length table.now.lines.items }
    ensures { IfSome result (λ b. b ≡ equals (cell (map datum params.now) found.parameter) (cell (row_cells table.now at) found.column)) }
{
    let missing = Value::Null;
    match known_cell(table, at, found.column) {
        Some(cell) => {
            let value = value_at(params, found.parameter, &missing);
            Some(Comparison::Equal.is_true(&cell, value))
        }
        None => None,
    }
}

/// Whether a scan takes a row, if its integer columns tell.
pub(crate) fn takes_known(
    table: &JsonTable,
    at: usize,
    spec: &ScanSpec,
    found: Option<Sought>,
    params: &[Value],
) -> Option<bool>
    requires within { at < length table.now.lines.items }
    requires found { option_map form_of found ≡ sought (map restriction_form spec.now.offered.items) }
    ensures { IfSome result (λ b. b ≡ takes (spec_of spec.now) (map datum params.now) (row_cells table.now at)) }
{
    let has = match found {
        Some(found) => has_known(table, at, found, params),
        None => Some(true),
    };
    match has {
        Some(false) => Some(false),
        Some(true) => all_known(table, at, &spec.offered, &spec.agreement.answers, params),
        None => match all_known(table, at, &spec.offered, &spec.agreement.answers, params) {
            Some(false) => Some(false),
            Some(true) => None,
            None => None,
        },
    }
}
