//! Rows of cases, many in one text literal: a row is a text, ` => ` and the answer that is wanted of it.
use std::alloc::Global;
use std::process::Abort;
use std::test::Fail;

/// A question that is asked of each row's text.
pub trait Answer {
    fn answer(alloc: Global, text: &str) -> Result<String, Fail>;
}

/// Stops where another answer comes than the row wants.
pub fn assert_row<A: Answer>(alloc: Global, rt: &impl Abort, row: &str) -> Result<(), Fail> {
    let (text, wanted) = row.split_once(" => ").ok_or(row)?;
    let came = A::answer(alloc, text)?;
    assert_eq!(rt; came.as_str(), wanted, "in {text}");
    Ok(())
}

/// The same of each line.
pub fn assert_rows<A: Answer>(alloc: Global, rt: &impl Abort, rows: &str) -> Result<(), Fail> {
    for row in rows.lines() {
        assert_row::<A>(alloc, rt, row)?;
    }
    Ok(())
}
