//! The fields of a record as values, and values as fields.
ghost use Rattle.std.specs.Prelude.{◌≡◌, ◌≤◌, ◌-◌, ◌^◌, ◌&&◌, ℕ, true, length, nat_lt, nat_le};
ghost use Rattle.std.specs.Prelude.{IfOk, option_map, is_some, pos, neg_ℤ, IsUtf8};
ghost use Rattle.std.specs.Str.{all_ascii_digits};
ghost use Rattle.std.specs.String.{string_bytes};
ghost use Rattle.med_value.specs.Datum.{datum};
ghost use Rattle.csv_tables.specs.Rewriting.{is_storable};
ghost use Rattle.csv_tables.specs.Cells.{skip_spaces, without_spaces, number_up_to, integer_of, is_among, true_words};
ghost use Rattle.csv_tables.specs.Cells.{false_words, truth_of, cell_of, field_of, reads_as_null};

use med_value::{ColType, NoMemory, Value};
use std::alloc::Global;
use std::str::from_utf8_unchecked;

fn skip_spaces(text: &[u8]) -> &[u8]
    ensures { result.now ≡ skip_spaces text.now }
{
    let mut text = text;
    while let Some((first, others)) = text.split_first() {
        if *first != b' ' {
            break;
        }
        text = others;
    }
    text
}

fn without_spaces(text: &[u8]) -> &[u8]
    ensures { result.now ≡ without_spaces text.now }
{
    let mut text = skip_spaces(text);
    while let Some((last, others)) = text.split_last() {
        if *last != b' ' {
            break;
        }
        text = others;
    }
    text
}

// The number that a text of at most 18 digits writes, which no test of a greater number is needed for.
fn short_number(text: &[u8]) -> Option<u64>
    requires { length text.now ≤ 18 }
    ensures { (most : ℕ) → 10 ^ 18 ≤ most → result ≡ number_up_to most text.now }
{
    if text.is_empty() {
        return None;
    }
    let mut text = text;
    let mut value = 0;
    while let Some((first, others)) = text.split_first() {
        if !first.is_ascii_digit() {
            return None;
        }
        value = value * 10 + u64::from(*first - b'0');
        text = others;
    }
    Some(value)
}

// The number that a text of digits writes, where it is at most this one.
fn long_number(text: &[u8], most: u64) -> Option<u64>
    requires { most ≤ 2 ^ 63 }
    ensures { result ≡ number_up_to most text.now }
{
    if text.is_empty() {
        return None;
    }
    let mut text = text;
    let mut number = 0;
    while let Some((first, others)) = text.split_first() {
        if !first.is_ascii_digit() {
            return None;
        }
        if number > most / 10 {
            return None;
        }
        number = number * 10 + u64::from(*first - b'0');
        text = others;
    }
    if number > most { None } else { Some(number) }
}

// The same, where numbers of 18 digits are at most this one.
fn number(text: &[u8], most: u64) -> Option<u64>
    requires above { 10 ^ 18 ≤ most }
    requires within { most ≤ 2 ^ 63 }
    ensures { result ≡ number_up_to most text.now }
{
    if text.len() <= 18 {
        short_number(text)
    } else {
        long_number(text, most)
    }
}

// The number that a text of digits writes.
fn plain_integer(text: &[u8]) -> Option<i64>
    ensures { result ≡ option_map pos (number_up_to (2 ^ 63 - 1) text.now) }
{
    match number(text, 9_223_372_036_854_775_807) {
        Some(number) => Some(number as i64),
        None => None,
    }
}

// The number that a minus and a text of digits write.
fn minus_integer(text: &[u8]) -> Option<i64>
    ensures { result ≡ option_map (λ n. neg_ℤ (pos n)) (number_up_to (2 ^ 63) text.now) }
{
    match number(text, 9_223_372_036_854_775_808) {
        Some(9_223_372_036_854_775_808) => Some(i64::MIN),
        Some(number) => Some(-(number as i64)),
        None => None,
    }
}

#[inline(always)]
fn integer(text: &[u8]) -> Option<i64>
    ensures { result ≡ integer_of text.now }
{
    let Some((first, others)) = text.split_first() else {
        return None;
    };
    match *first {
        b'-' => minus_integer(others),
        b'+' => plain_integer(others),
        _ => plain_integer(text),
    }
}

// Whether a text writes an integer that at most 18 digits and nothing else write.
fn is_short_number(text: &[u8]) -> bool
    ensures { result ≡ (nat_lt 0 (length text.now) && nat_le (length text.now) 18 && all_ascii_digits text.now) }
{
    if text.is_empty() || text.len() > 18 {
        return false;
    }
    let mut text = text;
    while let Some((first, others)) = text.split_first() {
        if !first.is_ascii_digit() {
            return false;
        }
        text = others;
    }
    true
}

// Whether a text writes an integer, which may have spaces around it. Of most texts it takes a look at the digits alone.
fn is_integer(text: &[u8]) -> bool
    ensures { result ≡ is_some (integer_of (without_spaces text.now)) }
{
    is_short_number(text) || integer(without_spaces(text)).is_some()
}

fn is_true_word(text: &[u8]) -> bool
    ensures { result ≡ is_among true_words text.now }
{
    text.eq_ignore_ascii_case(b"t")
        || text.eq_ignore_ascii_case(b"true")
        || text.eq_ignore_ascii_case(b"y")
        || text.eq_ignore_ascii_case(b"yes")
        || text.eq_ignore_ascii_case(b"on")
        || text.eq_ignore_ascii_case(b"1")
}

fn is_false_word(text: &[u8]) -> bool
    ensures { result ≡ is_among false_words text.now }
{
    text.eq_ignore_ascii_case(b"f")
        || text.eq_ignore_ascii_case(b"false")
        || text.eq_ignore_ascii_case(b"n")
        || text.eq_ignore_ascii_case(b"no")
        || text.eq_ignore_ascii_case(b"off")
        || text.eq_ignore_ascii_case(b"0")
}

// The truth value that a word writes.
fn worded_truth(text: &[u8]) -> Option<bool>
    ensures { result ≡ truth_of text.now }
{
    if is_true_word(text) {
        Some(true)
    } else if is_false_word(text) {
        Some(false)
    } else {
        None
    }
}

// The same, where the two letters as which truth values are written cost the least.
fn truth(text: &[u8]) -> Option<bool>
    ensures { result ≡ truth_of text.now }
{
    match text {
        b"t" => Some(true),
        b"f" => Some(false),
        _ => worded_truth(text),
    }
}

// The text of bytes that are UTF-8, without a look at them.
fn known_text(field: &[u8]) -> &str
    requires { IsUtf8 field.now }
    ensures { result.now ≡ field.now }
{
    unsafe { from_utf8_unchecked(field) }
}

/// What a field that is UTF-8 means in a column of this type; None where it is not of the type.
#[inline(always)]
pub(crate) fn cell(
    alloc: Global,
    null: &str,
    kind: ColType,
    field: &[u8],
) -> Result<Option<Value>, NoMemory>
    requires { IsUtf8 field.now }
    ensures { IfOk result (λ cell. option_map datum cell ≡ cell_of null.now kind field.now) }
{
    let text = known_text(field);
    if text == null {
        return Ok(Some(Value::Null));
    }
    match kind {
        ColType::Text => {
            if field.contains(&0) {
                return Ok(None);
            }
            Ok(Some(Value::Text(text.to_string(alloc)?)))
        }
        ColType::Int if field.is_empty() => Ok(Some(Value::Null)),
        ColType::Int => match integer(without_spaces(field)) {
            Some(number) => Ok(Some(Value::Int(number))),
            None => Ok(None),
        },
        ColType::Bool if field.is_empty() => Ok(Some(Value::Null)),
        ColType::Bool => match truth(field) {
            Some(truth) => Ok(Some(Value::Bool(truth))),
            None => Ok(None),
        },
    }
}

/// Whether a field that is UTF-8 is of this type.
pub(crate) fn is_cell(null: &str, kind: ColType, field: &[u8]) -> bool
    requires { IsUtf8 field.now }
    ensures { result ≡ is_some (cell_of null.now kind field.now) }
{
    let text = known_text(field);
    if text == null {
        return true;
    }
    match kind {
        ColType::Text => !field.contains(&0),
        ColType::Int => field.is_empty() || is_integer(field),
        ColType::Bool => field.is_empty() || truth(field).is_some(),
    }
}

/// The field as which a value is written.
pub(crate) fn field_text(alloc: Global, null: &str, value: &Value) -> Result<String, NoMemory>
    ensures field { IfOk result (λ text. string_bytes text ≡ field_of null.now (datum value.now)) }
    ensures storable { IfOk result (λ text. is_storable (datum value.now) ≡ true) }
{
    match value {
        Value::Null => Ok(null.to_string(alloc)?),
        Value::Int(number) => {
            let number = *number;
            Ok(number.to_string(alloc)?)
        }
        Value::Text(text) => Ok(text.as_str().to_string(alloc)?),
        Value::Bool(true) => Ok("t".to_string(alloc)?),
        Value::Bool(false) => Ok("f".to_string(alloc)?),
    }
}

/// Whether a value other than NULL is written as this text, which would be read as NULL.
pub(crate) fn reads_as_null(null: &str, value: &Value, text: &str) -> bool
    requires { text.now ≡ field_of null.now (datum value.now) }
    ensures { result ≡ reads_as_null null.now (datum value.now) }
{
    match value {
        Value::Null => false,
        _ => text == null,
    }
}
