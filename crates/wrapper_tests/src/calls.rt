//! Rows of calls on lists and on wrappers round them, and what they answer.
//!
//! A row has five fields: the wrapper round the list, the wrapper round that, how the orders are bound, how they are read then, and what that
//! gives, with the counts of the next ticket, the live scans, the rows given and the faults at its end.
use crate::boxes::{
    Calls, answered, answered_round_list, in_counting, in_failing, in_shuffled, in_shy,
};
use crate::orders::{bind_orders, new_list};
use crate::reads::read;
use fdw_api::interface::{Fault, Wrapper};
use std::alloc::Global;
use std::str::from_utf8;
use std::test::Fail;

/// Nothing where calls answered what a row wants, and else what came.
pub fn checked(alloc: Global, row: &str, found: &[u8], want: &str) -> Result<(), Fail> {
    if found == want.as_bytes() {
        return Ok(());
    }
    let found = from_utf8(found)?;
    Err(format!(in alloc; "{row}: {found} came, and not {want}")?)?
}

fn check_row(alloc: Global, row: &str) -> Result<(), Fail> {
    let fields: Vec<&str> = row.split('|').collect(alloc)?;
    match fields.as_slice() {
        [inner, outer, first, then, want] => {
            let found = answered_round_list(alloc, inner, outer, Calls { first, then })?;
            checked(alloc, row, &found, want)
        }
        _ => Err(row.to_string(alloc)?)?,
    }
}

fn check_rows(alloc: Global, rows: &str) -> Result<(), Fail> {
    for row in rows.lines() {
        check_row(alloc, row)?;
    }
    Ok(())
}

#[test]
fn scan_gives_rows_in_list_order(rt: HostRuntime) -> Result<(), Fail> {
    check_rows(
        rt.alloc(),
        "||rebind|read|10\t1\t4 11\t1\t6 12\t9\t1 end 1/0/3/0
||bind|turn|10\t1\t4 10\t1\t4 11\t1\t6 11\t1\t6 12\t9\t1 12\t9\t1 end end 2/0/6/0",
    )
}

#[test]
fn two_scans_of_a_boxed_list_give_its_rows_in_turn(rt: HostRuntime) -> Result<(), Fail> {
    let alloc = rt.alloc();
    let source: Box<dyn Wrapper> = Box::new(alloc, new_list(alloc)?)?;
    let calls = Calls {
        first: "bind",
        then: "turn",
    };
    let found = answered(source, alloc, calls)?;
    let want = "10\t1\t4 10\t1\t4 11\t1\t6 11\t1\t6 12\t9\t1 12\t9\t1 end end 2/0/6/0";
    checked(alloc, "boxed list|bind|turn", &found, want)
}

#[test]
fn list_takes_over_what_shy_and_vague_leave(rt: HostRuntime) -> Result<(), Fail> {
    check_rows(
        rt.alloc(),
        "||bind|above|10 11 end end 1/0/2/0
shy||bind|above|10\t1\t4 11\t1\t6 12\t9\t1 end 1/0/3/0
vague||bind|above|10\t1\t4 11\t1\t6 12\t9\t1 end 1/0/3/0",
    )
}

#[test]
fn each_wrapper_reads_as_the_list_and_begins_again(rt: HostRuntime) -> Result<(), Fail> {
    check_rows(
        rt.alloc(),
        "||bind|again|10\t1\t4 11\t1\t6 12\t9\t1 end 10\t1\t4 1/0/4/0
counting||bind|again|10\t1\t4 11\t1\t6 12\t9\t1 end 10\t1\t4 1/0/4/0
shy||bind|again|10\t1\t4 11\t1\t6 12\t9\t1 end 10\t1\t4 1/0/4/0
vague||bind|again|10\t1\t4 11\t1\t6 12\t9\t1 end 10\t1\t4 1/0/4/0
9||bind|again|10\t1\t4 11\t1\t6 12\t9\t1 end 10\t1\t4 1/0/4/0
counting|counting|bind|again|10\t1\t4 11\t1\t6 12\t9\t1 end 10\t1\t4 1/0/4/0
shy|counting|bind|again|10\t1\t4 11\t1\t6 12\t9\t1 end 10\t1\t4 1/0/4/0
9|counting|bind|again|10\t1\t4 11\t1\t6 12\t9\t1 end 10\t1\t4 1/0/4/0
counting|shy|bind|again|10\t1\t4 11\t1\t6 12\t9\t1 end 10\t1\t4 1/0/4/0
shy|shy|bind|again|10\t1\t4 11\t1\t6 12\t9\t1 end 10\t1\t4 1/0/4/0
9|shy|bind|again|10\t1\t4 11\t1\t6 12\t9\t1 end 10\t1\t4 1/0/4/0
counting|9|bind|again|10\t1\t4 11\t1\t6 12\t9\t1 end 10\t1\t4 1/0/4/0
shy|9|bind|again|10\t1\t4 11\t1\t6 12\t9\t1 end 10\t1\t4 1/0/4/0
9|9|bind|again|10\t1\t4 11\t1\t6 12\t9\t1 end 10\t1\t4 1/0/4/0",
    )
}

#[test]
fn failing_passes_one_call_and_fails_at_the_next(rt: HostRuntime) -> Result<(), Fail> {
    check_rows(
        rt.alloc(),
        "1||bind|begin|failed 0/0/0/1 begun 1/0/0/1 1/0/0/1",
    )
}

#[test]
fn scan_by_a_parameter_gives_the_rows_that_equal_it(rt: HostRuntime) -> Result<(), Fail> {
    check_rows(
        rt.alloc(),
        "||bind|part|12\t9 end end 1/0/1/0
counting||bind|part|12\t9 end end 1/0/1/0
shy||bind|part|10\t1\t4 11\t1\t6 10\t1\t4 1/0/3/0
vague||bind|part|10\t1\t4 11\t1\t6 10\t1\t4 1/0/3/0",
    )
}

#[test]
fn kept_write_is_read(rt: HostRuntime) -> Result<(), Fail> {
    check_rows(
        rt.alloc(),
        "||delete|read|11\t1\t6 12\t9\t1 end end 2/0/3/0
shy||delete|read|11\t1\t6 12\t9\t1 end end 2/0/3/0
vague||delete|read|11\t1\t6 12\t9\t1 end end 2/0/3/0
vague||insert|read|10\t1\t4 11\t1\t6 12\t9\t1 13\t9\t2 1/0/4/0
shuffled||insert|read|11\t1\t6 12\t9\t1 13\t9\t2 10\t1\t4 1/0/4/0",
    )
}

#[test]
fn kept_write_inside_three_wrappers_is_read(rt: HostRuntime) -> Result<(), Fail> {
    let alloc = rt.alloc();
    let source = in_failing(in_shy(alloc, in_counting(new_list(alloc)?)), 20);
    let calls = Calls {
        first: "insert",
        then: "again",
    };
    let found = answered(source, alloc, calls)?;
    let want = "10\t1\t4 11\t1\t6 12\t9\t1 13\t9\t2 10\t1\t4 1/0/5/0";
    checked(alloc, "counting|shy|20|insert|again", &found, want)
}

// Each begin and each rescan turns its rows by one place more than the one before.
#[test]
fn each_scan_is_turned_one_place_more(rt: HostRuntime) -> Result<(), Fail> {
    check_rows(
        rt.alloc(),
        "shuffled||bind|again|11\t1\t6 12\t9\t1 10\t1\t4 end 12\t9\t1 1/0/4/0
shuffled|shy|bind|two|11\t1\t6 12\t9\t1 10\t1\t4 end 12\t9\t1 10\t1\t4 11\t1\t6 end 2/0/6/0
shuffled|shuffled|bind|two|12\t9\t1 10\t1\t4 11\t1\t6 end 11\t1\t6 12\t9\t1 10\t1\t4 end 2/0/6/0
shy|shuffled|bind|two|11\t1\t6 12\t9\t1 10\t1\t4 end 12\t9\t1 10\t1\t4 11\t1\t6 end 2/0/6/0
counting|shuffled|bind|two|11\t1\t6 12\t9\t1 10\t1\t4 end 12\t9\t1 10\t1\t4 11\t1\t6 end 2/0/6/0
99|shuffled|bind|two|11\t1\t6 12\t9\t1 10\t1\t4 end 12\t9\t1 10\t1\t4 11\t1\t6 end 2/0/6/0
shuffled|counting|bind|two|11\t1\t6 12\t9\t1 10\t1\t4 end 12\t9\t1 10\t1\t4 11\t1\t6 end 2/0/6/0
shuffled|99|bind|two|11\t1\t6 12\t9\t1 10\t1\t4 end 12\t9\t1 10\t1\t4 11\t1\t6 end 2/0/6/0",
    )
}

// Holds whichever allocation is refused: `rt try --test --fail-alloc N` refuses the Nth.
#[test]
fn refused_allocation_leaves_no_scan(rt: HostRuntime) -> Result<(), Fail> {
    let alloc = rt.alloc();
    let Ok(list) = new_list(alloc) else {
        return Ok(());
    };
    let mut source = in_shuffled(alloc, in_shy(alloc, in_counting(list)));
    let Ok(table) = bind_orders(&mut source, alloc) else {
        return Ok(());
    };
    let mut out = Vec::new(alloc);
    match read(&mut source, alloc, table, &mut out) {
        Ok(()) => assert_eq!(rt;
            out.as_slice(),
            b"11\t1\t6 12\t9\t1 10\t1\t4 end ".as_slice()
        ),
        Err(fault) => assert_eq!(rt; fault, Fault::NoMemory),
    }
    assert_eq!(rt; source.ledger().live, 0);
    assert_eq!(rt; source.ledger().faults, 0);
    Ok(())
}
