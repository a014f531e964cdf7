//! Scans of the orders of a SQLite database by their keys, alone and in wrappers round it, and what they give: what the source agrees to,
//! the rows of two rounds, and the counts of the next ticket, the live scans, the rows given and the faults.
ghost use Rattle.std.specs.Prelude.{◌≡◌, [], List};
ghost use Rattle.fdw_api.specs.Prelude.{Column, IsIdle};

use crate::asked::{Asked, between, compared, n_is, null_and_then};
use crate::boxes::{in_counting, in_shuffled};
use crate::orders::{bind_orders, new_source};
use crate::scans::write_counts;
use crate::writes::{Came, write_and_read};
use fdw_api::interface::Wrapper;
use med_value::Comparison;
use std::alloc::Global;
use std::str::from_utf8;
use std::test::Fail;

/// What a scan of the orders gives on a new source after these keys were written, and what the source counts then.
fn answered<W: Wrapper>(
    source: W,
    alloc: Global,
    keys: &[i64],
    asked: Asked,
) -> Result<Vec<u8>, Fail>
    requires idle { IsIdle (W.meaning source) }
    requires free { (columns : List Column) → (W.meaning source).nature.kind.objections columns [] ≡ [] }
{
    let mut source = source;
    let table = bind_orders(&mut source, alloc)?;
    let Came { written, read, out } = write_and_read(&mut source, alloc, table, keys, asked);
    written?;
    read?;
    let mut out = out;
    write_counts(alloc, source.ledger(), &mut out)?;
    Ok(out)
}

/// What the orders of 10, 11 and 12 give in a box that counts the rows that it pulls.
fn counted(alloc: Global, asked: Asked) -> Result<Vec<u8>, Fail> {
    let source = new_source(alloc, None)?;
    answered(in_counting(source), alloc, &[10, 11, 12], asked)
}

/// What they give in a box that turns the order of rows.
fn shuffled(alloc: Global, asked: Asked) -> Result<Vec<u8>, Fail> {
    let source = new_source(alloc, None)?;
    answered(in_shuffled(alloc, source), alloc, &[10, 11, 12], asked)
}

/// What the orders from 1 on to a last one give.
fn up_to(alloc: Global, last: i64, asked: Asked) -> Result<Vec<u8>, Fail> {
    let mut keys = Vec::new(alloc);
    for key in 1..=last {
        keys.push(key)?;
    }
    let source = new_source(alloc, None)?;
    answered(source, alloc, &keys, asked)
}

/// Fails where what came does not end so.
fn expect(alloc: Global, found: &[u8], want: &str) -> Result<(), Fail> {
    if found.ends_with(want.as_bytes()) {
        return Ok(());
    }
    let found = from_utf8(found)?;
    Err(format!(in alloc; "{found} came, and not {want}")?)?
}

// A source that always failed would meet its contracts too.
#[test]
fn one_row_is_pulled_for_a_range_of_one_key(rt: HostRuntime) -> Result<(), Fail> {
    let alloc = rt.alloc();
    let found = counted(alloc, between(alloc, 11, 12)?)?;
    expect(alloc, &found, "ee whole: 11\t1\t1 again 11\t1\t1 1/0/2/0")
}

#[test]
fn no_row_is_pulled_where_no_key_can_be(rt: HostRuntime) -> Result<(), Fail> {
    let alloc = rt.alloc();
    let above = counted(alloc, compared(alloc, Comparison::Above, i64::MAX)?)?;
    expect(alloc, &above, "e whole: again 1/0/0/0")?;
    let below = counted(alloc, compared(alloc, Comparison::Below, i64::MIN)?)?;
    expect(alloc, &below, "e whole: again 1/0/0/0")
}

#[test]
fn no_row_is_pulled_for_a_parameter_that_is_null(rt: HostRuntime) -> Result<(), Fail> {
    let alloc = rt.alloc();
    let found = counted(alloc, null_and_then(alloc, 12)?)?;
    expect(alloc, &found, "e whole: again 12\t1\t1 1/0/1/0")
}

// The second page begins one above the last key of a full one.
#[test]
fn pages_give_each_row_once(rt: HostRuntime) -> Result<(), Fail> {
    let alloc = rt.alloc();
    let longer = up_to(alloc, 65, compared(alloc, Comparison::AtLeast, 0)?)?;
    expect(alloc, &longer, " 64\t1\t1 65\t1\t1 1/0/130/0")?;
    let full = up_to(alloc, 64, compared(alloc, Comparison::AtLeast, 0)?)?;
    expect(alloc, &full, " 63\t1\t1 64\t1\t1 1/0/128/0")
}

// A scan is turned one place more than the one before.
#[test]
fn shuffled_rows_come_in_another_order(rt: HostRuntime) -> Result<(), Fail> {
    let alloc = rt.alloc();
    let found = shuffled(alloc, compared(alloc, Comparison::Above, 9)?)?;
    expect(
        alloc,
        &found,
        "e whole: 11\t1\t1 12\t1\t1 10\t1\t1 again 12\t1\t1 10\t1\t1 11\t1\t1 1/0/6/0",
    )
}

// A scan that is begun again gives no row without the value that it looks for, and each row that has it where they are at most 64.
#[test]
fn rows_of_a_value_are_found_again(rt: HostRuntime) -> Result<(), Fail> {
    let alloc = rt.alloc();
    let other = counted(alloc, n_is(alloc, 1, 2)?)?;
    expect(alloc, &other, " 12\t1\t1 again 1/0/3/0")?;
    let same = counted(alloc, n_is(alloc, 2, 1)?)?;
    expect(alloc, &same, " again 10\t1\t1 11\t1\t1 12\t1\t1 1/0/6/0")?;
    let many = up_to(alloc, 65, n_is(alloc, 1, 1)?)?;
    expect(alloc, &many, " 64\t1\t1 65\t1\t1 1/0/130/0")?;
    let few = up_to(alloc, 64, n_is(alloc, 1, 1)?)?;
    expect(alloc, &few, " 63\t1\t1 64\t1\t1 1/0/128/0")
}
