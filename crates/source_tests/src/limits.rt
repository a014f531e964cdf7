//! Writes and scans of a database each statement of which may take a number of steps alone, and of one in a box that fails at a call.
ghost use Rattle.std.specs.Prelude.{◌≡◌, [], List};
ghost use Rattle.fdw_api.specs.Prelude.{Column, IsIdle};

use crate::asked::{Asked, compared};
use crate::boxes::in_failing;
use crate::orders::{bind_orders, new_source};
use crate::writes::{Came, write_and_read};
use fdw_api::interface::{Fault, Wrapper};
use med_value::Comparison;
use std::alloc::Global;
use std::test::Fail;

const KEYS: [i64; 9] = [1, 2, 3, 4, 5, 6, 7, 8, 9];

/// What reads of no order give, twice.
const NONE: &[u8] = b"e whole: again ";
/// What reads of nine orders give, twice.
const NINE: &[u8] =
    b"e whole: 1\t1\t1 2\t1\t1 3\t1\t1 4\t1\t1 5\t1\t1 6\t1\t1 7\t1\t1 8\t1\t1 9\t1\t1 again 1\t1\t1 2\t1\t1 3\t1\t1 4\t1\t1 5\t1\t1 6\t1\t1 7\t1\t1 8\t1\t1 9\t1\t1 ";

/// Writes the orders of the keys from 1 to 9 to a new source, and reads by a scan, also where the write failed.
fn write_nine<W: Wrapper>(source: W, alloc: Global, asked: Asked) -> Came
    requires idle { IsIdle (W.meaning source) }
    requires free { (columns : List Column) → (W.meaning source).nature.kind.objections columns [] ≡ [] }
{
    let mut source = source;
    match bind_orders(&mut source, alloc) {
        Ok(table) => write_and_read(&mut source, alloc, table, &KEYS, asked),
        Err(fault) => Came {
            written: Err(fault),
            read: Err(fault),
            out: Vec::new(alloc),
        },
    }
}

/// What came, in words: of the write, and of the rows, which are those from before it or from after it.
fn told(came: &Came, before: &[u8], after: &[u8]) -> (&'static str, &'static str) {
    let written = match came.written {
        Ok(()) => "written",
        Err(Fault::Source) => "failed",
        Err(_) => "refused",
    };
    let out = came.out.as_slice();
    let read = match came.read {
        Err(Fault::Source) => "failed",
        Err(_) => "refused",
        Ok(()) if out == before => "before",
        Ok(()) if out == after => "after",
        Ok(()) => "other rows",
    };
    (written, read)
}

/// What comes of nine orders under a limit on steps: of the write, and of the rows that a restriction keeps.
fn under(alloc: Global, steps: u64, asked: Asked) -> Result<(&'static str, &'static str), Fail> {
    let source = new_source(alloc, Some(steps))?;
    let came = write_nine(source, alloc, asked);
    Ok(told(&came, NONE, NINE))
}

/// Fails where a scan under a limit on steps does not give the rows of none.
fn check_none(alloc: Global, steps: u64, asked: Asked) -> Result<(), Fail> {
    let (_, read) = under(alloc, steps, asked)?;
    if read == "before" {
        return Ok(());
    }
    Err(format!(in alloc; "{steps}: {read}")?)?
}

/// Fails where a write under a limit on steps is made in part, or where a scan of no key runs a statement. Tells whether one ran none.
fn check_limit(alloc: Global, steps: u64) -> Result<bool, Fail> {
    let (written, read) = under(alloc, steps, compared(alloc, Comparison::AtLeast, 0)?)?;
    match (written, read) {
        ("written", "after" | "failed") | ("failed", "before" | "failed") => {}
        _ => return Err(format!(in alloc; "{steps}: {written}, {read}")?)?,
    }
    if written != "written" || read != "failed" {
        return Ok(false);
    }
    check_none(alloc, steps, compared(alloc, Comparison::Above, i64::MAX)?)?;
    check_none(alloc, steps, compared(alloc, Comparison::Below, i64::MIN)?)?;
    Ok(true)
}

// Below some limit nothing is bound or written, and from some on all is. Between them the orders are written, one statement for each, but a
// statement that reads them all takes too many steps: a scan that no key can meet answers there too, since it runs none.
#[test]
fn write_under_a_limit_on_steps_is_made_whole_or_not_at_all(rt: HostRuntime) -> Result<(), Fail> {
    let alloc = rt.alloc();
    let mut runs_nothing = false;
    for steps in 0..30 {
        runs_nothing |= check_limit(alloc, steps)?;
    }
    assert!(rt; runs_nothing);
    assert!(rt; under(alloc, 0, compared(alloc, Comparison::AtLeast, 0)?)? == ("failed", "failed"));
    assert!(rt;
        under(alloc, 30, compared(alloc, Comparison::AtLeast, 0)?)? == ("written", "after")
    );
    Ok(())
}

// From a limit of 30 on all is done, up to 2,000.
#[test]
fn write_under_a_greater_limit_on_steps_is_made_whole(rt: HostRuntime) -> Result<(), Fail> {
    let alloc = rt.alloc();
    for tens in 3..201 {
        let came = under(alloc, 10 * tens, compared(alloc, Comparison::AtLeast, 0)?)?;
        assert!(rt; came == ("written", "after"));
    }
    Ok(())
}

/// What comes of nine orders in a box that fails behind so many calls.
fn failing_after(alloc: Global, passes: u64) -> Result<(&'static str, &'static str), Fail> {
    let source = in_failing(new_source(alloc, None)?, passes);
    let came = write_nine(source, alloc, compared(alloc, Comparison::AtLeast, 0)?);
    Ok(told(&came, NONE, NINE))
}

// The calls are the bind, eleven of the write, and those of the scan. A write that fails at any of its calls leaves no row.
#[test]
fn failure_of_any_call_is_told(rt: HostRuntime) -> Result<(), Fail> {
    let alloc = rt.alloc();
    assert!(rt; failing_after(alloc, 0)? == ("failed", "failed"));
    for passes in 1..12 {
        assert!(rt; failing_after(alloc, passes)? == ("failed", "before"));
    }
    for passes in 12..16 {
        assert!(rt; failing_after(alloc, passes)? == ("written", "failed"));
    }
    assert!(rt; failing_after(alloc, 200)? == ("written", "after"));
    Ok(())
}
