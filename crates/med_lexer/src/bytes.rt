//! Runs of bytes at the front of a text.

ghost use Rattle.std.specs.Prelude.{◌≡◌, ◌↔◌, ℕ, ◌≤◌, ◌<◌, IsTrue, length, slice_index, true, false, option_map};
ghost use Rattle.std.specs.Str.{str_to_ascii_lowercase};
ghost use Rattle.med_lexer.specs.Lexemes as spec;
ghost use Rattle.med_lexer.specs.Cutting as cutting;

/// What a byte of a run is.
#[derive(Clone, Copy, Drop)]
pub enum Class {
    /// a letter, a digit, `_` or `$`
    Part,
    /// a digit
    Digit,
    /// anything but U+0000
    Text,
    /// anything but U+0000 and this quote
    Plain(u8),
}

/// Does the byte part tokens?
pub fn is_blank(b: u8) -> bool
    ensures { result ≡ spec.is_blank b }
{
    b == b' ' || b == b'\t' || b == b'\r' || b == b'\n'
}

/// Does a word begin with the byte?
pub fn is_start(b: u8) -> bool
    ensures { result ≡ spec.is_start b }
{
    b.is_ascii_alphabetic() || b == b'_'
}

/// Does a word go on with the byte?
fn is_part(b: u8) -> bool
    ensures { result ≡ spec.is_part b }
{
    is_start(b) || b.is_ascii_digit() || b == b'$'
}

/// Is the byte of the class?
fn in_class(class: Class, b: u8) -> bool
    ensures { result ≡ cutting.in_class class b }
{
    match class {
        Class::Part => is_part(b),
        Class::Digit => b.is_ascii_digit(),
        Class::Text => b != 0,
        Class::Plain(quote) => b != 0 && b != quote,
    }
}

/// How many bytes at the front are of the class.
fn run_len(bytes: &[u8], class: Class) -> usize
    ensures within { result ≤ length bytes.now }
    ensures all { (i : ℕ) → i < result → cutting.in_class class (slice_index bytes.now i) ≡ true }
    ensures stops { result < length bytes.now → cutting.in_class class (slice_index bytes.now result) ≡ false }
{
    let mut n = 0;
    while n < bytes.len() && in_class(class, bytes[n]) {
        n += 1;
    }
    n
}

/// The run at the front, and the text behind it.
pub fn cut_run(text: &str, class: Class) -> (&str, &str)
    requires { cutting.IsAscii class }
    ensures { (result.0.now, result.1.now) ≡ cutting.run (cutting.in_class class) text.now }
{
    text.split_at(run_len(text.as_bytes(), class))
}

/// The first byte, and the text behind it, where the first byte is this one.
pub fn strip(text: &str, b: u8) -> Option<(&str, &str)>
    requires { b < 128 }
    ensures { cutting.strip_of b text.now ≡ option_map (λ x. (x.0.now, x.1.now)) result }
{
    let bytes = text.as_bytes();
    if !bytes.is_empty() && bytes[0] == b {
        Some(text.split_at(1))
    } else {
        None
    }
}

/// The text behind a first byte in ASCII.
pub fn behind(text: &str) -> &str
    requires { (0 < length text.now) × (slice_index text.now 0 < 128) }
    ensures { result.now ≡ cutting.behind text.now }
{
    let (_, after) = text.split_at(1);
    after
}

/// The first byte, or 0.
pub fn first(bytes: &[u8]) -> u8
    ensures { result ≡ cutting.first bytes.now }
{
    if bytes.is_empty() { 0 } else { bytes[0] }
}

/// Does the text stay as it is in lower case?
pub fn is_folded(text: &str) -> bool
    ensures { IsTrue result ↔ (str_to_ascii_lowercase text.now ≡ text.now) }
{
    text.as_bytes().iter().all(|b| b.to_ascii_lowercase() == *b)
}
