//! Number literals.

ghost use Rattle.std.specs.Prelude.{◌≡◌};
ghost use Rattle.bind_names.specs.Meaning.{number_of, negative_of};

/// The number, or the greatest of the type.
pub fn number(n: u64) -> i64
    ensures { result ≡ number_of n }
{
    if n < 9223372036854775807 {
        n as i64
    } else {
        i64::MAX
    }
}

/// The number with a minus, or the least of the type.
pub fn negative(n: u64) -> i64
    ensures { result ≡ negative_of n }
{
    if n < 9223372036854775808 {
        -(n as i64)
    } else {
        i64::MIN
    }
}
