//! Scans by `name = $1` that are begun again, over a blob of tab-separated lines: the wrapper goes by an index of the column then.
ghost use Rattle.std.specs.Prelude.{◌≡◌, [], map, IfOk, OnOk, IsSome};
ghost use Rattle.fdw_api.specs.Prelude.{restriction_form, column_of, kinds_of, IsIdle, scan_of};
ghost use Rattle.tab_tests.specs.Tabs.{texts};
ghost use Rattle.tab_tests.specs.TabForms.{tab_kind};
ghost use Rattle.tab_tests.specs.Going.{IsGoing, IsTabTable, by_name};

use crate::parts::{PARTS, columns};
use crate::tabs::TabTable;
use blob_store::MemoryBlobs;
use fdw_api::interface::{Fault, SourceRow, Ticket, Wrapper};
use fdw_api::scan::{Operand, Restriction, ScanSpec, Test};
use med_value::text::row_text;
use med_value::{ColumnDef, Comparison, NoMemory, TableNo, Value};
use place_wrapper::PlaceWrapper;
use std::alloc::Global;
use std::test::Fail;

// A source of one blob, `parts`.
fn new_tabs(alloc: Global) -> Result<PlaceWrapper<MemoryBlobs, TabTable>, Fail>
    ensures idle { IfOk result (λ w. IsIdle (⟦<PlaceWrapper<MemoryBlobs, TabTable> as Wrapper>⟧.meaning w)) }
    ensures kind { IfOk result (λ w. (⟦<PlaceWrapper<MemoryBlobs, TabTable> as Wrapper>⟧.meaning w).nature.kind ≡ tab_kind) }
{
    let mut blobs = MemoryBlobs::new(alloc);
    blobs.put(alloc, "parts", PARTS)?;
    Ok(PlaceWrapper::new(alloc, blobs))
}

// Binds the blob.
fn bind_parts<W: Wrapper>(
    source: &mut W,
    alloc: Global,
    columns: &[ColumnDef],
) -> Result<TableNo, Fault>
    requires idle { IsIdle (W.meaning source.old) }
    requires free { (W.meaning source.old).nature.kind.objections (map column_of columns.now) [] ≡ [] }
    requires kinds { kinds_of (map column_of columns.now) ≡ texts 2 }
    ensures { IfOk result (λ t. IsTabTable (W.meaning source.new) t.number) }
{
    source.bind(alloc, "parts", columns, &[])
}

// `name = $1`.
fn by_name(alloc: Global) -> Result<Vec<Restriction>, NoMemory>
    ensures { IfOk result (λ offered. map restriction_form offered.items ≡ by_name) }
{
    Ok(vec![in alloc;
        Restriction {
            column: 0,
            test: Test::Compare(Comparison::Equal, Operand::Parameter(0)),
        },
    ]?)
}

// Begins a scan by NULL, which no row has.
fn begin_scan<W: Wrapper>(source: &mut W, alloc: Global, table: TableNo) -> Result<Ticket, Fault>
    requires { IsTabTable (W.meaning source.old) table.number }
    ensures { IfOk result (λ ticket. IsGoing (W.meaning source.new) ticket.number) }
{
    let wanted = vec![in alloc; 0, 1]?;
    let offered = by_name(alloc)?;
    let agreement = source.plan(alloc, table, &wanted, &offered)?;
    let spec = ScanSpec {
        wanted,
        offered,
        agreement,
    };
    source.begin(alloc, table, &spec, &[Value::Null])
}

// Begins a scan again by a name.
fn begin_again<W: Wrapper>(
    source: &mut W,
    alloc: Global,
    ticket: &Ticket,
    name: &str,
) -> Result<(), Fault>
    requires { IsGoing (W.meaning source.old) ticket.now.number }
    ensures going { OnOk result (IsGoing (W.meaning source.new) ticket.now.number) }
    ensures live { IsSome (scan_of (W.meaning source.new) ticket.now.number) }
{
    let name = name.to_string(alloc)?;
    source.rescan(alloc, ticket, &[Value::Text(name)])
}

// Appends a row and a space, and nothing where there is none.
fn write_row(row: Option<SourceRow>, out: &mut Vec<u8>) -> Result<(), Fault> {
    if let Some(row) = row {
        row_text(&row.cells, out)?;
        out.push(b' ')?;
    }
    Ok(())
}

// Writes the next row of a scan.
fn take_row<W: Wrapper>(
    source: &mut W,
    alloc: Global,
    ticket: &Ticket,
    out: &mut Vec<u8>,
) -> Result<(), Fault>
    requires { IsGoing (W.meaning source.old) ticket.now.number }
    ensures going { OnOk result (IsGoing (W.meaning source.new) ticket.now.number) }
    ensures live { IsSome (scan_of (W.meaning source.new) ticket.now.number) }
{
    let row = source.iterate(alloc, ticket)?;
    write_row(row, out)
}

// Takes five rows, more than there are.
fn take_all<W: Wrapper>(
    source: &mut W,
    alloc: Global,
    ticket: &Ticket,
    out: &mut Vec<u8>,
) -> Result<(), Fault>
    requires { IsGoing (W.meaning source.old) ticket.now.number }
    ensures going { OnOk result (IsGoing (W.meaning source.new) ticket.now.number) }
    ensures live { IsSome (scan_of (W.meaning source.new) ticket.now.number) }
{
    for _ in 0..5 {
        take_row(source, alloc, ticket, out)?;
    }
    Ok(())
}

// Begins a scan again by a name, and fails where other rows come than these.
fn check_name<W: Wrapper>(
    source: &mut W,
    alloc: Global,
    ticket: &Ticket,
    name: &str,
    want: &str,
) -> Result<(), Fault>
    requires { IsGoing (W.meaning source.old) ticket.now.number }
    ensures going { OnOk result (IsGoing (W.meaning source.new) ticket.now.number) }
    ensures live { IsSome (scan_of (W.meaning source.new) ticket.now.number) }
{
    let mut out = Vec::new(alloc);
    begin_again(source, alloc, ticket, name)?;
    take_all(source, alloc, ticket, &mut out)?;
    if out.as_slice() == want.as_bytes() {
        Ok(())
    } else {
        Err(Fault::Source)
    }
}

// Begins a scan again three times.
fn check_names<W: Wrapper>(source: &mut W, alloc: Global, ticket: &Ticket) -> Result<(), Fault>
    requires { IsGoing (W.meaning source.old) ticket.now.number }
    ensures { IsSome (scan_of (W.meaning source.new) ticket.now.number) }
{
    check_name(source, alloc, ticket, "bolt", "bolt\tred bolt\tblue ")?;
    check_name(source, alloc, ticket, "gear", "")?;
    check_name(source, alloc, ticket, "nut", "nut\t\\N ")
}

fn check_table<W: Wrapper>(source: &mut W, alloc: Global, table: TableNo) -> Result<(), Fault>
    requires { IsTabTable (W.meaning source.old) table.number }
{
    let ticket = begin_scan(source, alloc, table)?;
    let checked = check_names(source, alloc, &ticket);
    source.end(ticket);
    checked
}

#[test]
fn rows_come_by_an_index_of_their_column(rt: HostRuntime) -> Result<(), Fail> {
    let alloc = rt.alloc();
    let mut source = new_tabs(alloc)?;
    let columns = columns(alloc)?;
    let table = bind_parts(&mut source, alloc, &columns)?;
    check_table(&mut source, alloc, table)?;
    Ok(())
}
