//! A scan of the orders of a SQLite database by version 2 of the interface, with a wish.
ghost use Rattle.std.specs.Prelude.{◌≡◌, [], List, IsSome, OnOk};
ghost use Rattle.fdw_api.specs.Prelude.{Column, IsIdle, scan_of, table_of, IsOpen};

use crate::orders::{bind_orders, new_source, write_keys};
use crate::scans::{write_counts, write_row};
use fdw_api::interface::{Fault, Ticket, Wrapper};
use fdw_api::scan::ScanSpec;
use fdw_api::wishes::{Agreement2, OrderKey, ScanSpec2, Wish, Wrapper2};
use med_value::TableNo;
use std::alloc::Global;
use std::str::from_utf8;
use std::test::Fail;

/// The rows in the ascending or the descending order of their keys, and of them so many.
fn by_key(alloc: Global, desc: bool, limit: u64) -> Result<Wish, Fault> {
    let key = OrderKey {
        column: 0,
        desc,
        nulls_first: false,
    };
    Ok(Wish {
        order: vec![in alloc; key]?,
        limit: Some(limit),
    })
}

/// Writes the next row of a scan.
fn take_row<W: Wrapper>(
    source: &mut W,
    alloc: Global,
    ticket: &Ticket,
    out: &mut Vec<u8>,
) -> Result<(), Fault>
    requires { IsOpen (W.meaning source.old) ticket.now.number }
    ensures open { OnOk result (IsOpen (W.meaning source.new) ticket.now.number) }
    ensures live { IsSome (scan_of (W.meaning source.new) ticket.now.number) }
{
    let row = source.iterate(alloc, ticket)?;
    write_row(row, out)
}

/// Takes up to four rows of a scan.
fn take_four<W: Wrapper>(
    source: &mut W,
    alloc: Global,
    ticket: &Ticket,
    out: &mut Vec<u8>,
) -> Result<(), Fault>
    requires { IsOpen (W.meaning source.old) ticket.now.number }
    ensures { IsSome (scan_of (W.meaning source.new) ticket.now.number) }
{
    for _ in 0..4 {
        take_row(source, alloc, ticket, out)?;
    }
    Ok(())
}

/// Reads the orders as they are wished by one scan under the source's own agreement.
fn read_wished<W: Wrapper2>(
    source: &mut W,
    alloc: Global,
    table: TableNo,
    wish: Wish,
    out: &mut Vec<u8>,
) -> Result<(), Fault>
    requires { IsSome (table_of (W.meaning source.old) table.number) }
{
    let wanted = vec![in alloc; 0]?;
    let offered = Vec::new(alloc);
    let agreement = source.plan2(alloc, table, &wanted, &offered, &wish)?;
    let Agreement2 {
        base,
        ordered,
        limited,
    } = agreement;
    out.extend_from_slice(match (ordered, limited) {
        (true, true) => b"order and limit: ",
        (true, false) => b"order: ",
        (false, true) => b"limit: ",
        (false, false) => b"nothing promised: ",
    })?;
    let spec = ScanSpec2 {
        base: ScanSpec {
            wanted,
            offered,
            agreement: base,
        },
        wish,
        ordered,
        limited,
    };
    let ticket = source.begin2(alloc, table, &spec, &[])?;
    let taken = take_four(source, alloc, &ticket, out);
    source.end(ticket);
    taken
}

/// What a scan of the orders 10, 11 and 12 gives on a new source under a wish, and what the source counts then.
fn answered<W: Wrapper2>(source: W, alloc: Global, wish: Wish) -> Result<Vec<u8>, Fail>
    requires idle { IsIdle (W.meaning source) }
    requires free { (columns : List Column) → (W.meaning source).nature.kind.objections columns [] ≡ [] }
{
    let mut source = source;
    let table = bind_orders(&mut source, alloc)?;
    write_keys(&mut source, alloc, table, &[12, 10, 11])?;
    let mut out = Vec::new(alloc);
    read_wished(&mut source, alloc, table, wish, &mut out)?;
    write_counts(alloc, source.ledger(), &mut out)?;
    Ok(out)
}

/// What they give in a database.
fn told(alloc: Global, wish: Wish) -> Result<Vec<u8>, Fail> {
    let source = new_source(alloc, None)?;
    answered(source, alloc, wish)
}

// The descending order of the keys is not promised, and so no limit is: all rows come, by their keys.
#[test]
fn no_other_order_is_promised(rt: HostRuntime) -> Result<(), Fail> {
    let alloc = rt.alloc();
    let out = told(alloc, by_key(alloc, true, 1)?)?;
    assert_eq!(rt;
        from_utf8(&out)?,
        "nothing promised: 10\t1\t1 11\t1\t1 12\t1\t1 1/0/3/0"
    );
    Ok(())
}

// The order of the keys is promised and the limit too: the two least come, and no more.
#[test]
fn order_of_keys_and_limit_are_promised(rt: HostRuntime) -> Result<(), Fail> {
    let alloc = rt.alloc();
    let out = told(alloc, by_key(alloc, false, 2)?)?;
    assert_eq!(rt;
        from_utf8(&out)?,
        "order and limit: 10\t1\t1 11\t1\t1 1/0/2/0"
    );
    Ok(())
}

// A limit of no row lets none come.
#[test]
fn limit_of_none_gives_no_row(rt: HostRuntime) -> Result<(), Fail> {
    let alloc = rt.alloc();
    let out = told(alloc, by_key(alloc, false, 0)?)?;
    assert_eq!(rt; from_utf8(&out)?, "order and limit: 1/0/0/0");
    Ok(())
}
