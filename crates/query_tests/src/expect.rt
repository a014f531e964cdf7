//! What came beside what was wanted.
use std::str::from_utf8;
use std::test::Fail;

/// Fails where another text came than was wanted.
pub fn same_text(case: &str, came: &[u8], wanted: &str) -> Result<(), Fail> {
    if came == wanted.as_bytes() {
        return Ok(());
    }
    let came = from_utf8(came).unwrap_or("no text");
    Err(Fail::new(format_args!("{case}: wanted {wanted}, came {came}")))
}

/// What is wanted of a row `wanted | query`, and the query.
pub fn cut(row: &str) -> Result<(&str, &str), Fail> {
    Ok(row.split_once(" | ").ok_or(row)?)
}
