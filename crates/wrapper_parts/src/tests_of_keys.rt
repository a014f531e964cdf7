//! Which restrictions of a scan a range of keys answers, and the range that they ask for.
ghost use Rattle.std.specs.Prelude.{◌≡◌, ◌&&◌, [], ◌∷◌, ℤ, true, false, map, length, FitsSigned, IfOk};
ghost use Rattle.std.specs.Int.{w64};
ghost use Rattle.med_value.specs.Prelude.{Tuple, Whole, datum, cell, compares_true};
ghost use Rattle.fdw_api.specs.Scan.{restriction_form, operand_form, test_form, checks, meets, meets_exact};
ghost use Rattle.wrapper_parts.specs.Ranges.{has_key, is_apart, is_key_value, is_key_other, is_range_check, is_key_test, answer_of, is_typed_check, asks_key, only_key_tests, only_keys};

use crate::ranges::KeyRange;
use fdw_api::scan::{Agree, Operand, Restriction, Test};
use med_value::{Comparison, NoMemory, Value};
use std::alloc::Global;

pub(crate) fn is_apart(comparison: Comparison) -> bool
    ensures { result ≡ is_apart comparison }
{
    matches!(comparison, Comparison::Apart)
}

fn is_key_other(operand: &Operand) -> bool
    ensures { result ≡ is_key_other (operand_form operand.now) }
{
    match operand {
        Operand::Constant(value) => matches!(value, Value::Null | Value::Int(_)),
        Operand::Parameter(_) => true,
    }
}

fn is_range_check(test: &Test) -> bool
    ensures { result ≡ is_range_check (test_form test.now) }
{
    match test {
        Test::Compare(comparison, operand) => !is_apart(*comparison) && is_key_other(operand),
        Test::IsNull => true,
        Test::IsNotNull => true,
    }
}

fn is_key_test(restriction: &Restriction) -> bool
    ensures { result ≡ is_key_test (restriction_form restriction.now) }
{
    restriction.column == 0 && is_range_check(&restriction.test)
}

/// Exact for a restriction of the key that a range answers, else Ignored.
fn answer_for(restriction: &Restriction) -> Agree
    ensures allowed { only_key_tests (restriction_form restriction.now ∷ []) (result ∷ []) ≡ true }
    ensures exact { result ≡ answer_of (restriction_form restriction.now) }
{
    if is_key_test(restriction) {
        Agree::Exact
    } else {
        Agree::Ignored
    }
}

/// Exact for each restriction of the key that a range answers, Ignored for the rest.
pub fn answers_for(alloc: Global, offered: &[Restriction]) -> Result<Vec<Agree>, NoMemory>
    ensures allowed { IfOk result (λ answers. only_key_tests (map restriction_form offered.now) answers.items ≡ true) }
    ensures each { IfOk result (λ answers. length answers.items ≡ length offered.now) }
    ensures exact { IfOk result (λ answers. answers.items ≡ map answer_of (map restriction_form offered.now)) }
{
    let mut answers = Vec::new(alloc);
    for restriction in offered {
        answers.push(answer_for(restriction))?;
    }
    Ok(answers)
}

fn compared_at(range: KeyRange, comparison: Comparison, params: &[Value], at: usize) -> KeyRange
    requires op { is_apart comparison ≡ false }
    requires key { is_key_value (cell (map datum params.now) at) ≡ true }
    ensures { (k : ℤ) → FitsSigned w64 k → has_key result k
        ≡ (has_key range k && compares_true comparison (Whole k) (cell (map datum params.now) at)) }
{
    match params.get(at) {
        Some(value) => range.compared(comparison, value),
        None => range.compared(comparison, &Value::Null),
    }
}

fn tested(range: KeyRange, test: &Test, params: &[Value]) -> KeyRange
    requires { is_typed_check (map datum params.now) (test_form test.now) ≡ true }
    ensures { (k : ℤ) → FitsSigned w64 k → has_key result k
        ≡ (has_key range k && checks (map datum params.now) (test_form test.now) (Whole k)) }
{
    match test {
        Test::Compare(comparison, Operand::Constant(value)) => range.compared(*comparison, value),
        Test::Compare(comparison, Operand::Parameter(at)) => compared_at(
            range,
            *comparison,
            params,
            *at,
        ),
        Test::IsNull => KeyRange::none(),
        Test::IsNotNull => range,
    }
}

pub(crate) fn narrowed(range: KeyRange, restriction: &Restriction, params: &[Value]) -> KeyRange
    requires { asks_key (map datum params.now) (restriction_form restriction.now) ≡ true }
    ensures { (k : ℤ) (rest : Tuple) → FitsSigned w64 k
        → has_key result k ≡ (has_key range k && meets (map datum params.now) (Whole k ∷ rest) (restriction_form restriction.now)) }
{
    tested(range, &restriction.test, params)
}

fn after_answer(
    range: KeyRange,
    restriction: &Restriction,
    answer: &Agree,
    params: &[Value],
) -> KeyRange
    requires { only_keys (map datum params.now) (restriction_form restriction.now ∷ []) (answer.now ∷ []) ≡ true }
    ensures { (k : ℤ) (rest : Tuple) → FitsSigned w64 k
        → has_key result k ≡ (has_key range k && meets_exact (restriction_form restriction.now ∷ []) (answer.now ∷ [])
        (map datum params.now) (Whole k ∷ rest)) }
{
    match answer {
        Agree::Exact => narrowed(range, restriction, params),
        Agree::Ignored => range,
        Agree::Hint => range,
    }
}

/// The keys of which all restrictions that are answered Exact are true.
pub fn range_of(offered: &[Restriction], answers: &[Agree], params: &[Value]) -> KeyRange
    requires { only_keys (map datum params.now) (map restriction_form offered.now) answers.now ≡ true }
    ensures { (k : ℤ) (rest : Tuple) → FitsSigned w64 k
        → has_key result k ≡ meets_exact (map restriction_form offered.now) answers.now (map datum params.now) (Whole k ∷ rest) }
{
    let mut range = KeyRange::all();
    let mut offered = offered;
    let mut answers = answers;
    while let Some((restriction, further)) = offered.split_first() {
        let Some((answer, others)) = answers.split_first() else {
            return range;
        };
        range = after_answer(range, restriction, answer, params);
        offered = further;
        answers = others;
    }
    range
}
