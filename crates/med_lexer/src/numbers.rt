//! The value of a number token.

ghost use Rattle.std.specs.Prelude.{◌^◌, ◌≤◌, SomeIff};
ghost use Rattle.std.specs.Str.Parse.{digits_value};
ghost use Rattle.med_lexer.specs.Lexemes.{IsDigits};

/// The number that the digits write, where it is at most 2^63. A literal may be at most 2^63 - 1, and 2^63 directly behind
/// a unary minus.
pub fn number_value(digits: &str) -> Option<u64>
    ensures { SomeIff result (IsDigits digits.now × (digits_value 10 digits.now ≤ 2 ^ 63)) (digits_value 10 digits.now) }
{
    let bytes = digits.as_bytes();
    if bytes.is_empty() || bytes[0] == b'+' {
        return None;
    }
    match digits.parse::<u64>() {
        Ok(n) => { if n <= 1 << 63 { Some(n) } else { None } }
        Err(_) => None,
    }
}
