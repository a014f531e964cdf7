//! What came beside what was wanted.
use std::str::from_utf8;
use std::test::Fail;

/// Fails where another text came than was wanted.
pub fn same_text(case: &str, came: &[u8], wanted: &[u8]) -> Result<(), Fail> {
    if came == wanted {
        return Ok(());
    }
    let came = from_utf8(came).unwrap_or("no text");
    let wanted = from_utf8(wanted).unwrap_or("no text");
    Err(Fail::new(format_args!("{case}: wanted {wanted}, came {came}")))
}
