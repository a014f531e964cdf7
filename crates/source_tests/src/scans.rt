//! Scans under a source's own agreement, and the text of what they give.
ghost use Rattle.std.specs.Prelude.{◌≡◌, [], map, Some, IfOk, OnOk, IsSome};
ghost use Rattle.med_value.specs.Datum.{datum};
ghost use Rattle.fdw_api.specs.Prelude.{column_of, kinds_of, test_form, restriction_form, test_fits, params_fit, has_kind, BoxTable, IsIdle, table_of, scan_of, CanRescan, CanModify};

use crate::asked::Asked;
use fdw_api::interface::{Counts, Fault, SourceRow, Ticket, Wrapper};
use fdw_api::scan::{Agree, Agreement, Operand, Restriction, ScanSpec, Test};
use med_value::text::row_text;
use med_value::{ColType, ColumnDef, TableNo, Value};
use std::alloc::Global;
use std::test::Fail;

/// Appends a row and a space, and nothing where there is none.
pub fn write_row(row: Option<SourceRow>, out: &mut Vec<u8>) -> Result<(), Fault> {
    if let Some(row) = row {
        row_text(&row.cells, out)?;
        out.push(b' ')?;
    }
    Ok(())
}

/// Appends a letter for each answer, `e` for Exact, `h` for Hint and `i` for Ignored, and whether rows hold the wanted columns only.
fn write_agreement(agreement: &Agreement, out: &mut Vec<u8>) -> Result<(), Fault> {
    for answer in &agreement.answers {
        out.push(match answer {
            Agree::Exact => b'e',
            Agree::Hint => b'h',
            Agree::Ignored => b'i',
        })?;
    }
    out.extend_from_slice(if agreement.narrow {
        b" narrow: "
    } else {
        b" whole: "
    })?;
    Ok(())
}

/// Appends the next ticket, the live scans, the rows given and the faults.
pub fn write_counts(alloc: Global, counts: Counts, out: &mut Vec<u8>) -> Result<(), Fail> {
    let Counts {
        next,
        live,
        pulled,
        faults,
    } = counts;
    let text = format!(in alloc; "{next}/{live}/{pulled}/{faults}")?;
    out.extend_from_slice(text.as_bytes())?;
    Ok(())
}

fn has_kind(kind: ColType, value: &Value) -> bool
    ensures { result ≡ has_kind kind (datum value.now) }
{
    match value {
        Value::Null => true,
        Value::Int(_) => matches!(kind, ColType::Int),
        Value::Text(_) => matches!(kind, ColType::Text),
        Value::Bool(_) => matches!(kind, ColType::Bool),
    }
}

/// Whether the parameter that a restriction names is there, with a value of its column's type.
fn fits_one(kinds: &[ColType], restriction: &Restriction, params: &[Value]) -> bool
    ensures { result ≡ test_fits kinds.now (map datum params.now) restriction.now.column (test_form restriction.now.test) }
{
    match &restriction.test {
        Test::Compare(_, Operand::Parameter(at)) => match params.get(*at) {
            Some(value) => match kinds.get(restriction.column) {
                Some(kind) => has_kind(*kind, value),
                None => false,
            },
            None => false,
        },
        _ => true,
    }
}

/// Whether all parameters that restrictions name are there, with values of their columns' types.
pub fn fits(kinds: &[ColType], offered: &[Restriction], params: &[Value]) -> bool
    ensures { result ≡ params_fit kinds.now (map restriction_form offered.now) (map datum params.now) }
{
    let mut offered = offered;
    while let Some((restriction, others)) = offered.split_first() {
        if !fits_one(kinds, restriction, params) {
            return false;
        }
        offered = others;
    }
    true
}

/// Writes the next row of a scan.
fn take_row<W: Wrapper>(
    source: &mut W,
    alloc: Global,
    ticket: &Ticket,
    again: &[Value],
    out: &mut Vec<u8>,
) -> Result<(), Fault>
    requires { CanRescan (W.meaning source.old) ticket.now.number (map datum again.now) }
    ensures again { OnOk result (CanRescan (W.meaning source.new) ticket.now.number (map datum again.now)) }
    ensures live { IsSome (scan_of (W.meaning source.new) ticket.now.number) }
{
    let _params = again.len();
    let row = source.iterate(alloc, ticket)?;
    write_row(row, out)
}

/// Takes up to eighty rows of a scan.
fn take_all<W: Wrapper>(
    source: &mut W,
    alloc: Global,
    ticket: &Ticket,
    again: &[Value],
    out: &mut Vec<u8>,
) -> Result<(), Fault>
    requires { CanRescan (W.meaning source.old) ticket.now.number (map datum again.now) }
    ensures again { OnOk result (CanRescan (W.meaning source.new) ticket.now.number (map datum again.now)) }
    ensures live { IsSome (scan_of (W.meaning source.new) ticket.now.number) }
{
    for _ in 0..80 {
        take_row(source, alloc, ticket, again, out)?;
    }
    Ok(())
}

/// Reads a scan, begins it again with other parameters, and reads it then.
fn take_twice<W: Wrapper>(
    source: &mut W,
    alloc: Global,
    ticket: &Ticket,
    again: &[Value],
    out: &mut Vec<u8>,
) -> Result<(), Fault>
    requires { CanRescan (W.meaning source.old) ticket.now.number (map datum again.now) }
    ensures { IsSome (scan_of (W.meaning source.new) ticket.now.number) }
{
    take_all(source, alloc, ticket, again, out)?;
    source.rescan(alloc, ticket, again)?;
    out.extend_from_slice(b"again ")?;
    take_all(source, alloc, ticket, again, out)
}

/// Reads a table by a scan under the source's own agreement. It fails where a parameter is not of its column's type.
pub fn scan<W: Wrapper>(
    source: &mut W,
    alloc: Global,
    table: TableNo,
    kinds: &[ColType],
    asked: Asked,
    out: &mut Vec<u8>,
) -> Result<(), Fault>
    requires bound { IsSome (table_of (W.meaning source.old) table.number) }
    requires kinds { (bound : BoxTable) → table_of (W.meaning source.old) table.number ≡ Some bound → bound.kinds ≡ kinds.now }
{
    let Asked {
        wanted,
        offered,
        params,
        again,
    } = asked;
    let agreement = source.plan(alloc, table, &wanted, &offered)?;
    write_agreement(&agreement, out)?;
    if !fits(kinds, &offered, &params) {
        return Err(Fault::Source);
    }
    if !fits(kinds, &offered, &again) {
        return Err(Fault::Source);
    }
    let spec = ScanSpec {
        wanted,
        offered,
        agreement,
    };
    let ticket = source.begin(alloc, table, &spec, &params)?;
    let taken = take_twice(source, alloc, &ticket, &again, out);
    source.end(ticket);
    taken
}

/// Binds a remote table on a new source.
pub fn bind_new<W: Wrapper>(
    source: &mut W,
    alloc: Global,
    remote: &str,
    columns: &[ColumnDef],
) -> Result<TableNo, Fault>
    requires idle { IsIdle (W.meaning source.old) }
    requires free { (W.meaning source.old).nature.kind.objections (map column_of columns.now) [] ≡ [] }
    ensures bound { IfOk result (λ t. IsSome (table_of (W.meaning source.new) t.number)) }
    ensures modify { IfOk result (λ t. CanModify (W.meaning source.new) t.number) }
    ensures kinds { IfOk result (λ t. (bound : BoxTable) → table_of (W.meaning source.new) t.number ≡ Some bound
        → bound.kinds ≡ kinds_of (map column_of columns.now)) }
{
    source.bind(alloc, remote, columns, &[])
}

/// What a scan of a remote table gives on a new source, and what the source counts then.
pub fn answered<W: Wrapper>(
    source: W,
    alloc: Global,
    remote: &str,
    columns: &[ColumnDef],
    kinds: &[ColType],
    asked: Asked,
) -> Result<Vec<u8>, Fail>
    requires idle { IsIdle (W.meaning source) }
    requires free { (W.meaning source).nature.kind.objections (map column_of columns.now) [] ≡ [] }
    requires kinds { kinds.now ≡ kinds_of (map column_of columns.now) }
{
    let mut source = source;
    let mut out = Vec::new(alloc);
    let table = bind_new(&mut source, alloc, remote, columns)?;
    scan(&mut source, alloc, table, kinds, asked, &mut out)?;
    write_counts(alloc, source.ledger(), &mut out)?;
    Ok(out)
}
