//! Scans of the orders by a parameter.
ghost use Rattle.std.specs.Prelude.{◌≡◌, ◌∷◌, [], Some, IsSome};
ghost use Rattle.med_value.specs.Datum.{NoValue};
ghost use Rattle.med_value.specs.declared.value.ColType.TheVariants.{Int};
ghost use Rattle.fdw_api.specs.Prelude.{BoxTable, table_of, scan_of, CanRescan};

use crate::reads::take_row;
use fdw_api::interface::{Fault, Ticket, Wrapper};
use fdw_api::scan::{Operand, Restriction, ScanSpec, Test};
use med_value::{Comparison, TableNo, Value};
use std::alloc::Global;

/// Takes two rows of a scan, begins it again with NULL and takes a row more.
fn take_again_with_null<W: Wrapper>(
    source: &mut W,
    alloc: Global,
    ticket: &Ticket,
    out: &mut Vec<u8>,
) -> Result<(), Fault>
    requires { CanRescan (W.meaning source.old) ticket.now.number (NoValue ∷ []) }
    ensures { IsSome (scan_of (W.meaning source.new) ticket.now.number) }
{
    take_row(source, alloc, ticket, out)?;
    take_row(source, alloc, ticket, out)?;
    source.rescan(alloc, ticket, &[Value::Null])?;
    take_row(source, alloc, ticket, out)
}

/// Reads the first two columns of the orders of part 9, by one scan under the source's own agreement, which then begins again with NULL.
pub fn read_by_part<W: Wrapper>(
    source: &mut W,
    alloc: Global,
    table: TableNo,
    out: &mut Vec<u8>,
) -> Result<(), Fault>
    requires bound { IsSome (table_of (W.meaning source.old) table.number) }
    requires kinds { (bound : BoxTable) → table_of (W.meaning source.old) table.number ≡ Some bound → bound.kinds ≡ Int ∷ Int ∷ Int ∷ [] }
{
    let by_part = Restriction {
        column: 1,
        test: Test::Compare(Comparison::Equal, Operand::Parameter(0)),
    };
    let wanted = vec![in alloc; 0, 1]?;
    let offered = vec![in alloc; by_part]?;
    let agreement = source.plan(alloc, table, &wanted, &offered)?;
    let spec = ScanSpec {
        wanted,
        offered,
        agreement,
    };
    let ticket = source.begin(alloc, table, &spec, &[Value::Int(9)])?;
    let taken = take_again_with_null(source, alloc, &ticket, out);
    source.end(ticket);
    taken
}
