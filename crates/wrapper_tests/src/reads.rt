//! Scans of the orders, and the text of what they give: of each row its fields, of an end the word `end`, and a space after each.
ghost use Rattle.std.specs.Prelude.{◌≡◌, ◌≢◌, [], ℕ, OnOk, IsSome};
ghost use Rattle.med_value.specs.Datum.{Tuple};
ghost use Rattle.fdw_api.specs.Prelude.{table_of, scan_of, IsOpen, CanRescan};

use fdw_api::interface::{Counts, Fault, SourceRow, Ticket, Wrapper};
use fdw_api::scan::{Operand, Restriction, ScanSpec, Test};
use med_value::text::row_text;
use med_value::{Comparison, TableNo, Value};
use std::alloc::Global;

/// Appends a row, or the word `end` where there is none.
fn write_row(row: Option<SourceRow>, out: &mut Vec<u8>) -> Result<(), Fault> {
    match row {
        None => out.extend_from_slice(b"end")?,
        Some(row) => row_text(&row.cells, out)?,
    }
    out.push(b' ')?;
    Ok(())
}

/// Appends what a source counts: the next ticket, the live scans, the rows given and the faults.
pub fn write_counts(alloc: Global, counts: Counts, out: &mut Vec<u8>) -> Result<(), Fault> {
    let Counts {
        next,
        live,
        pulled,
        faults,
    } = counts;
    let text = format!(in alloc; "{next}/{live}/{pulled}/{faults}")?;
    out.extend_from_slice(text.as_bytes())?;
    Ok(())
}

/// Writes the next row of a scan.
pub fn take_row<W: Wrapper>(
    source: &mut W,
    alloc: Global,
    ticket: &Ticket,
    out: &mut Vec<u8>,
) -> Result<(), Fault>
    requires { IsOpen (W.meaning source.old) ticket.now.number }
    ensures open { OnOk result (IsOpen (W.meaning source.new) ticket.now.number) }
    ensures again { OnOk result ((params : Tuple) → CanRescan (W.meaning source.old) ticket.now.number params → CanRescan (W.meaning source.new) ticket.now.number params) }
    ensures live { IsSome (scan_of (W.meaning source.new) ticket.now.number) }
    ensures tables { (t : ℕ) → table_of (W.meaning source.new) t ≡ table_of (W.meaning source.old) t }
    ensures others { (q : ℕ) → q ≢ ticket.now.number → scan_of (W.meaning source.new) q ≡ scan_of (W.meaning source.old) q }
{
    let row = source.iterate(alloc, ticket)?;
    write_row(row, out)
}

/// Takes four rows of a scan.
pub fn take_four<W: Wrapper>(
    source: &mut W,
    alloc: Global,
    ticket: &Ticket,
    out: &mut Vec<u8>,
) -> Result<(), Fault>
    requires { IsOpen (W.meaning source.old) ticket.now.number }
    ensures live { IsSome (scan_of (W.meaning source.new) ticket.now.number) }
    ensures tables { (t : ℕ) → table_of (W.meaning source.new) t ≡ table_of (W.meaning source.old) t }
{
    for _ in 0..4 {
        take_row(source, alloc, ticket, out)?;
    }
    Ok(())
}

/// Takes four rows of each of two scans, in turn.
fn take_in_turn<W: Wrapper>(
    source: &mut W,
    alloc: Global,
    first: &Ticket,
    second: &Ticket,
    out: &mut Vec<u8>,
) -> Result<(), Fault>
    requires first { IsOpen (W.meaning source.old) first.now.number }
    requires second { IsOpen (W.meaning source.old) second.now.number }
    requires differ { first.now.number ≢ second.now.number }
    ensures first { IsSome (scan_of (W.meaning source.new) first.now.number) }
    ensures second { IsSome (scan_of (W.meaning source.new) second.now.number) }
{
    for _ in 0..4 {
        take_row(source, alloc, first, out)?;
        take_row(source, alloc, second, out)?;
    }
    Ok(())
}

/// Reads a table by one scan.
pub fn read<W: Wrapper>(
    source: &mut W,
    alloc: Global,
    table: TableNo,
    out: &mut Vec<u8>,
) -> Result<(), Fault>
    requires { IsSome (table_of (W.meaning source.old) table.number) }
    ensures { OnOk result (IsSome (table_of (W.meaning source.new) table.number)) }
{
    let ticket = source.begin(alloc, table, &ScanSpec::plain(alloc), &[])?;
    let taken = take_four(source, alloc, &ticket, out);
    source.end(ticket);
    taken
}

/// Reads a table by one scan after another.
pub fn read_two<W: Wrapper>(
    source: &mut W,
    alloc: Global,
    table: TableNo,
    out: &mut Vec<u8>,
) -> Result<(), Fault>
    requires { IsSome (table_of (W.meaning source.old) table.number) }
{
    read(source, alloc, table, out)?;
    read(source, alloc, table, out)
}

/// Reads a table by two scans in turn.
pub fn read_in_turn<W: Wrapper>(
    source: &mut W,
    alloc: Global,
    table: TableNo,
    out: &mut Vec<u8>,
) -> Result<(), Fault>
    requires { IsSome (table_of (W.meaning source.old) table.number) }
{
    let spec = ScanSpec::plain(alloc);
    let first = source.begin(alloc, table, &spec, &[])?;
    let second = match source.begin(alloc, table, &spec, &[]) {
        Ok(second) => second,
        Err(fault) => {
            source.end(first);
            return Err(fault);
        }
    };
    let taken = take_in_turn(source, alloc, &first, &second, out);
    source.end(first);
    source.end(second);
    taken
}

/// Takes four rows of a scan that may begin again.
fn take_four_again<W: Wrapper>(
    source: &mut W,
    alloc: Global,
    ticket: &Ticket,
    out: &mut Vec<u8>,
) -> Result<(), Fault>
    requires { CanRescan (W.meaning source.old) ticket.now.number [] }
    ensures again { OnOk result (CanRescan (W.meaning source.new) ticket.now.number []) }
    ensures live { IsSome (scan_of (W.meaning source.new) ticket.now.number) }
{
    for _ in 0..4 {
        take_row(source, alloc, ticket, out)?;
    }
    Ok(())
}

/// Takes four rows of a scan, begins it again and takes one row more.
fn take_and_begin_again<W: Wrapper>(
    source: &mut W,
    alloc: Global,
    ticket: &Ticket,
    out: &mut Vec<u8>,
) -> Result<(), Fault>
    requires { CanRescan (W.meaning source.old) ticket.now.number [] }
    ensures { IsSome (scan_of (W.meaning source.new) ticket.now.number) }
{
    take_four_again(source, alloc, ticket, out)?;
    source.rescan(alloc, ticket, &[])?;
    take_row(source, alloc, ticket, out)
}

/// Reads a table by one scan under the source's own agreement, and begins it again.
pub fn read_again<W: Wrapper>(
    source: &mut W,
    alloc: Global,
    table: TableNo,
    out: &mut Vec<u8>,
) -> Result<(), Fault>
    requires { IsSome (table_of (W.meaning source.old) table.number) }
{
    let wanted = vec![in alloc; 0, 1, 2]?;
    let offered = Vec::new(alloc);
    let agreement = source.plan(alloc, table, &wanted, &offered)?;
    let spec = ScanSpec {
        wanted,
        offered,
        agreement,
    };
    let ticket = source.begin(alloc, table, &spec, &[])?;
    let taken = take_and_begin_again(source, alloc, &ticket, out);
    source.end(ticket);
    taken
}

/// Reads the first column of the orders of more than 1, by one scan under the source's own agreement.
pub fn read_above_one<W: Wrapper>(
    source: &mut W,
    alloc: Global,
    table: TableNo,
    out: &mut Vec<u8>,
) -> Result<(), Fault>
    requires { IsSome (table_of (W.meaning source.old) table.number) }
{
    let above_one = Restriction {
        column: 2,
        test: Test::Compare(Comparison::Above, Operand::Constant(Value::Int(1))),
    };
    let wanted = vec![in alloc; 0]?;
    let offered = vec![in alloc; above_one]?;
    let agreement = source.plan(alloc, table, &wanted, &offered)?;
    let spec = ScanSpec {
        wanted,
        offered,
        agreement,
    };
    let ticket = source.begin(alloc, table, &spec, &[])?;
    let taken = take_four(source, alloc, &ticket, out);
    source.end(ticket);
    taken
}

/// Begins a scan of a table and ends it.
fn begin_and_end<W: Wrapper>(source: &mut W, alloc: Global, table: TableNo) -> Result<(), Fault>
    requires { IsSome (table_of (W.meaning source.old) table.number) }
    ensures { IsSome (table_of (W.meaning source.new) table.number) }
{
    let ticket = source.begin(alloc, table, &ScanSpec::plain(alloc), &[])?;
    source.end(ticket);
    Ok(())
}

/// Begins a scan and ends it, and tells what the source counts then.
pub fn begin<W: Wrapper>(
    source: &mut W,
    alloc: Global,
    table: TableNo,
    out: &mut Vec<u8>,
) -> Result<(), Fault>
    requires { IsSome (table_of (W.meaning source.old) table.number) }
    ensures { IsSome (table_of (W.meaning source.new) table.number) }
{
    match begin_and_end(source, alloc, table) {
        Ok(()) => out.extend_from_slice(b"begun ")?,
        Err(Fault::Source) => out.extend_from_slice(b"failed ")?,
        Err(fault) => return Err(fault),
    }
    write_counts(alloc, source.ledger(), out)?;
    out.push(b' ')?;
    Ok(())
}

/// Begins two scans, one after the other is ended.
pub fn begin_two<W: Wrapper>(
    source: &mut W,
    alloc: Global,
    table: TableNo,
    out: &mut Vec<u8>,
) -> Result<(), Fault>
    requires { IsSome (table_of (W.meaning source.old) table.number) }
{
    begin(source, alloc, table, out)?;
    begin(source, alloc, table, out)
}
