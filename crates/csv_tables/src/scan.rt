//! Which records of a table a scan takes, and as what it shows them.
ghost use Rattle.std.specs.Prelude.{◌≡◌, ◌<◌, ◌∷◌, [], IfOk, map};
ghost use Rattle.med_value.specs.Datum.{datum, tuple};
ghost use Rattle.fdw_api.specs.Scan.{restriction_form, test_form, spec_of, shown_cells};
ghost use Rattle.csv_tables.specs.Tables.{cells_at, fields_at};
ghost use Rattle.csv_tables.specs.Scans.{may_equal, may_meet, comes, answer_by};

use crate::table::CsvTable;
use fdw_api::scan::{Agree, Operand, Restriction, ScanSpec, Test};
use med_value::{ColType, Comparison, NoMemory, Row, Value};
use std::alloc::Global;

/// What a table of these columns answers to a restriction.
pub fn answer_to(kinds: &[ColType], restriction: &Restriction) -> Agree
    ensures { result ≡ answer_by kinds.now (restriction_form restriction.now) }
{
    if matches!(restriction.test, Test::IsNull | Test::IsNotNull) {
        return Agree::Exact;
    }
    if restriction.column >= kinds.len() {
        return Agree::Ignored;
    }
    match kinds[restriction.column] {
        ColType::Int | ColType::Bool => Agree::Exact,
        ColType::Text => match restriction.test {
            Test::Compare(Comparison::Equal, _) => Agree::Hint,
            _ => Agree::Ignored,
        },
    }
}

/// Whether a text of this many bytes may be equal to a value: not to NULL, and to no text of another length.
pub fn may_equal(size: usize, value: &Value) -> bool
    ensures { result ≡ may_equal size (datum value.now) }
{
    match value {
        Value::Null => false,
        Value::Text(text) => size == text.len(),
        Value::Int(_) | Value::Bool(_) => true,
    }
}

/// Whether a field of this many bytes may meet a test, as far as its length tells.
fn may_meet(size: usize, test: &Test, params: &[Value]) -> bool
    ensures { result ≡ may_meet (map datum params.now) size (test_form test.now) }
{
    match test {
        Test::Compare(Comparison::Equal, Operand::Constant(value)) => may_equal(size, value),
        Test::Compare(Comparison::Equal, Operand::Parameter(at)) => match params.get(*at) {
            Some(value) => may_equal(size, value),
            None => false,
        },
        _ => true,
    }
}

/// Whether a record comes under one restriction.
fn passes(
    alloc: Global,
    table: &CsvTable,
    at: usize,
    restriction: &Restriction,
    answer: Agree,
    params: &[Value],
) -> Result<bool, NoMemory>
    requires { at < table.now.rows.count }
    ensures { IfOk result (λ b. b ≡ comes (restriction_form restriction.now ∷ []) (answer ∷ []) (map datum params.now)
        (cells_at table.now at) (fields_at table.now at)) }
{
    match answer {
        Agree::Exact => {
            let value = table.value(alloc, at, restriction.column)?;
            Ok(restriction.is_met_by(&value, params))
        }
        Agree::Hint => {
            let size = table.field_size(at, restriction.column);
            Ok(may_meet(size, &restriction.test, params))
        }
        Agree::Ignored => Ok(true),
    }
}

/// Whether a record comes: each restriction answered Exact is true of it, and each answered Hint may be, as far as the length of its field
/// tells. It fails for want of memory alone.
#[inline(never)]
pub fn comes(
    alloc: Global,
    table: &CsvTable,
    at: usize,
    spec: &ScanSpec,
    params: &[Value],
) -> Result<bool, NoMemory>
    requires { at < table.now.rows.count }
    ensures { IfOk result (λ b. b
        ≡ comes (map restriction_form spec.now.offered.items) spec.now.agreement.answers.items (map datum params.now)
        (cells_at table.now at) (fields_at table.now at)) }
{
    let mut offered = spec.offered.as_slice();
    let mut answers = spec.agreement.answers.as_slice();
    while let Some((restriction, further)) = offered.split_first() {
        let Some((answer, others)) = answers.split_first() else {
            return Ok(true);
        };
        if !passes(alloc, table, at, restriction, *answer, params)? {
            return Ok(false);
        }
        offered = further;
        answers = others;
    }
    Ok(true)
}

/// A record as a scan shows it. It fails for want of memory alone.
pub fn show(alloc: Global, table: &CsvTable, at: usize, spec: &ScanSpec) -> Result<Row, NoMemory>
    requires { at < table.now.rows.count }
    ensures { IfOk result (λ r. tuple r ≡ shown_cells (spec_of spec.now) (cells_at table.now at)) }
{
    if spec.agreement.narrow {
        table.picked(alloc, at, &spec.wanted)
    } else {
        table.row(alloc, at)
    }
}
