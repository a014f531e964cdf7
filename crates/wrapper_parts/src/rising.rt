//! The range of keys around the rows of a scan, whatever else is tested.
ghost use Rattle.std.specs.Prelude.{◌≡◌, ◌∷◌, [], ℤ, true, map, FitsSigned};
ghost use Rattle.std.specs.Int.{w64};
ghost use Rattle.med_value.specs.Datum.{Tuple, Whole, datum};
ghost use Rattle.fdw_api.specs.Scan.{restriction_form, operand_form, test_form, operand_value, meets_exact};
ghost use Rattle.wrapper_parts.specs.Ranges.{has_key, is_key_value, is_typed_check, asks_key};

use crate::ranges::KeyRange;
use crate::tests_of_keys::{is_apart, narrowed};
use fdw_api::scan::{Agree, Operand, Restriction, Test};
use med_value::Value;

// Whether a key may be compared with a value.
fn is_key_value(value: &Value) -> bool
    ensures { result ≡ is_key_value (datum value.now) }
{
    matches!(value, Value::Null | Value::Int(_))
}

// Whether a key may be compared with what an operand is under these parameters.
fn is_key_operand(operand: &Operand, params: &[Value]) -> bool
    ensures { result ≡ is_key_value (operand_value (map datum params.now) (operand_form operand.now)) }
{
    match operand {
        Operand::Constant(value) => is_key_value(value),
        Operand::Parameter(at) => match params.get(*at) {
            Some(value) => is_key_value(value),
            None => true,
        },
    }
}

// Whether a range answers a test under these parameters.
fn is_typed_check(test: &Test, params: &[Value]) -> bool
    ensures { result ≡ is_typed_check (map datum params.now) (test_form test.now) }
{
    match test {
        Test::Compare(comparison, operand) => {
            !is_apart(*comparison) && is_key_operand(operand, params)
        }
        Test::IsNull => true,
        Test::IsNotNull => true,
    }
}

// Whether a restriction is of the key, by such a test.
fn asks_key(restriction: &Restriction, params: &[Value]) -> bool
    ensures { result ≡ asks_key (map datum params.now) (restriction_form restriction.now) }
{
    restriction.column == 0 && is_typed_check(&restriction.test, params)
}

// Those of the keys of which a restriction may be true, if it is answered Exact.
fn narrowed_by(
    range: KeyRange,
    restriction: &Restriction,
    answer: &Agree,
    params: &[Value],
) -> KeyRange
    ensures { (k : ℤ) (rest : Tuple) → FitsSigned w64 k → has_key range k ≡ true
        → meets_exact (restriction_form restriction.now ∷ []) (answer.now ∷ []) (map datum params.now) (Whole k ∷ rest) ≡ true
        → has_key result k ≡ true }
{
    match answer {
        Agree::Exact if asks_key(restriction, params) => narrowed(range, restriction, params),
        _ => range,
    }
}

/// A range with each key of which all restrictions that are answered Exact may be true. It is narrowed by the tests of the first column
/// that a range answers, and passes over all others.
pub fn range_around(offered: &[Restriction], answers: &[Agree], params: &[Value]) -> KeyRange
    ensures { (k : ℤ) (rest : Tuple) → FitsSigned w64 k
        → meets_exact (map restriction_form offered.now) answers.now (map datum params.now) (Whole k ∷ rest) ≡ true
        → has_key result k ≡ true }
{
    let mut range = KeyRange::all();
    let mut offered = offered;
    let mut answers = answers;
    while let Some((restriction, further)) = offered.split_first() {
        let Some((answer, others)) = answers.split_first() else {
            return range;
        };
        range = narrowed_by(range, restriction, answer, params);
        offered = further;
        answers = others;
    }
    range
}
