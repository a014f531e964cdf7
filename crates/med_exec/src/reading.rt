//! The rows of a table with their ids.
ghost use Rattle.std.specs.Prelude.{◌≡◌, [], List, Some, IsSome, IfOk, IfErr, map};
ghost use Rattle.med_value.specs.declared.value.ColType.{ColType as Kind};
ghost use Rattle.tri_expr.specs.Tree.{tree};
ghost use Rattle.fdw_api.specs.Prelude.{spec_of, CanBegin, IsOpen, row_of, table_of};
ghost use Rattle.fdw_api.specs.declared.interface.Fault.TheVariants.{NoMemory};
ghost use Rattle.med_exec.specs.Reading.{StopsBy};
ghost use Rattle.med_exec.specs.Scanning.{FailsScan};
ghost use Rattle.med_exec.specs.WriteReading.{OffersWhere, ReadsWhole, GivesRows, ReadsTable};

use fdw_api::interface::{Fault, SourceRow, Ticket};
use fdw_api::scan::{Agreement, ScanSpec};
use fdw_api::wishes::Wrapper2;
use med_value::TableNo;
use pushdown::law::tests_decide;
use pushdown::{EntryOffer, offer_entry};
use std::alloc::Global;
use tri_expr::Expr;
use tri_expr::law::bare_tree_means_the_same;

// Reads a scan of whole rows to its end. The scan stays live.
fn read_rows<W: Wrapper2>(
    b: &mut W,
    alloc: Global,
    ticket: &Ticket,
) -> Result<Vec<SourceRow>, Fault>
    requires { IsOpen (W.meaning b.old) ticket.now.number }
    ensures ok { IfOk result (λ rows. (kinds : List Kind) → ReadsWhole (W.meaning b.old) ticket.now.number kinds
        → GivesRows ticket.now.number kinds (W.meaning b.old) (map row_of rows.items) (W.meaning b.new)) }
    ensures err { IfErr result (λ fault. StopsBy ticket.now.number fault (W.meaning b.old) (W.meaning b.new)) }
{
    let mut rows = Vec::new(alloc);
    while let Some(row) = b.iterate(alloc, ticket)? {
        rows.push(row)?;
    }
    Ok(rows)
}

// The scan of whole rows to which the box agrees that is offered these conjuncts.
fn scan_by<W: Wrapper2>(
    b: &W,
    alloc: Global,
    table: TableNo,
    conditions: &[Expr],
    width: usize,
) -> Result<ScanSpec, Fault>
    requires { IsSome (table_of (W.meaning b.now) table.number) }
    ensures offers { IfOk result (λ spec. OffersWhere width (map tree conditions.now) (spec_of spec)) }
    ensures allowed { IfOk result (λ spec. CanBegin (W.meaning b.now) table.number spec []) }
    ensures err { IfErr result (λ fault. fault ≡ NoMemory) }
{
    tests_decide();
    bare_tree_means_the_same();
    let EntryOffer { restrictions, .. } = offer_entry(alloc, conditions, 0, width)?;
    let agreement = b.plan(alloc, table, &[], restrictions.as_slice())?;
    Ok(ScanSpec {
        wanted: Vec::new(alloc),
        offered: restrictions,
        agreement: Agreement {
            answers: agreement.answers,
            narrow: false,
        },
    })
}

/// Reads the rows of a table of a box, of so many columns, which come by a scan that is offered these conjuncts. Rows may come of which
/// they are not true: none is left out but of which one is false or unknown. One scan is begun and ended, also where it fails.
///
/// # Errors
///
/// [`Fault::NoMemory`] where memory was asked for and refused, [`Fault::Source`] where the source failed, and [`Fault::Refused`] by 54000
/// alone, where the box's ticket numbers are used up.
///
/// PostgreSQL: Writing a Foreign Data Wrapper, `GetForeignPlan`, `BeginForeignScan`, `IterateForeignScan`, `EndForeignScan`.
pub(crate) fn table_rows<W: Wrapper2>(
    b: &mut W,
    alloc: Global,
    table: TableNo,
    conditions: &[Expr],
    width: usize,
) -> Result<Vec<SourceRow>, Fault>
    requires { IsSome (table_of (W.meaning b.old) table.number) }
    ensures ok { IfOk result (λ rows. ReadsTable (map tree conditions.now) (W.meaning b.old) table.number (map row_of rows.items)
        (W.meaning b.new)) }
    ensures err { IfErr result (λ fault. FailsScan fault (W.meaning b.old) (W.meaning b.new)) }
{
    let spec = scan_by(b, alloc, table, conditions, width)?;
    let ticket = b.begin(alloc, table, &spec, &[])?;
    let rows = read_rows(b, alloc, &ticket);
    b.end(ticket);
    rows
}
