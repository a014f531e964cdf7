//! Live scans, and the rows that they give.
ghost use Rattle.std.specs.Prelude.{◌≡◌, ◌+◌, ◌<◌, ℕ, true, map, length, slice_get};
ghost use Rattle.std.specs.Prelude.{option_map, IfOk, IfErr, IfSome, IsSome, Option, Some, []};
ghost use Rattle.med_value.specs.Datum.{datum};
ghost use Rattle.fdw_api.specs.Scan.{spec_of, restriction_form};
ghost use Rattle.fdw_api.specs.declared.interface.Fault.TheVariants.{NoMemory as OutOfMemory};
ghost use Rattle.wrapper_parts.specs.Scans.{Serves, Stands, sought, form_of, column_cells};
ghost use Rattle.wrapper_parts.specs.Indexes.{IsIndexFrom};
ghost use Rattle.place_wrapper.specs.Forms.{GivesAt};
ghost use Rattle.wrapper_parts.specs.declared.sought.SoughtIndex.{SoughtIndex};
ghost use Rattle.place_wrapper.specs.declared.scans.LiveScan.{LiveScan};
ghost use Rattle.place_wrapper.specs.Mapped.{live_at, Updates, numbers, Rise};
ghost use Rattle.place_wrapper.specs.Boxes.{NextIs, Moves, ScanFits, Pulls, Restarts, table_at, rows_held, newer};

use crate::format::PlacedTable;
use crate::spans::span_of;
use crate::tables::table_at;
use fdw_api::interface::{Fault, RowId, SourceRow};
use fdw_api::scan::ScanSpec;
use med_value::{NoMemory, Row, Value};
use std::alloc::Global;
use wrapper_parts::{PlaceIndex, Sought, SoughtIndex, exact_at, first_lead, sought_in, value_at};

/// A live scan: what it was asked for, and the place from which it goes on to its end. Once it is begun again it has an index of a column
/// in which it looks for a parameter, if there is one. A broken one is good for `end` alone.
#[derive(Drop)]
pub struct LiveScan {
    pub table: usize,
    pub spec: ScanSpec,
    pub params: Vec<Value>,
    pub at: usize,
    pub end: usize,
    pub index: Option<SoughtIndex>,
    pub broken: bool,
}

/// The place of the live scan of a number. A query mostly goes on with the one that was begun last, so that it is looked at first; any
/// other is looked for by halves, as the numbers rise.
pub(crate) fn place_of(scans: &Vec<(u64, LiveScan)>, number: u64) -> usize
    requires live { IsSome (live_at scans.now.items number) }
    requires rising { (next : ℕ) × Rise 0 next (numbers scans.now.items) }
    ensures { (s : LiveScan) × (slice_get scans.now.items result ≡ Some (number, s)) }
{
    let last = scans.len() - 1;
    if scans[last].0 == number {
        return last;
    }
    let mut first = 0;
    let mut end = last;
    while first < end {
        let middle = first + (end - first) / 2;
        if scans[middle].0 < number {
            first = middle + 1;
        } else {
            end = middle;
        }
    }
    first
}

/// Marks a scan as good for `end` alone.
pub(crate) fn spoil(scans: &mut Vec<(u64, LiveScan)>, number: u64)
    requires live { IsSome (live_at scans.old.items number) }
    requires rising { (next : ℕ) × Rise 0 next (numbers scans.old.items) }
    ensures breaks { IfSome (live_at scans.old.items number)
        (λ s. Updates scans.old.items scans.new.items number (Some (record s { broken = true }))) }
    ensures same { numbers scans.new.items ≡ numbers scans.old.items }
{
    let at = place_of(scans, number);
    let scan = &mut scans[at].1;
    scan.broken = true;
}

/// An index of a column of a table.
fn index_of_column<T: PlacedTable>(
    alloc: Global,
    table: &T,
    column: usize,
) -> Result<PlaceIndex, NoMemory>
    ensures { IfOk result (λ x. IsIndexFrom 0 (column_cells column (T.form.rows table.now)) x) }
{
    let mut index = PlaceIndex::new(alloc, table.count())?;
    let mut at = table.count();
    while at > 0 {
        at -= 1;
        index.add(at, table.cell(alloc, at, column)?)?;
    }
    Ok(index)
}

/// An index of the column with most distinct values among those that lead a scan: that of what the scan looks for first, or of an equality
/// that was answered Exact. None is looked for behind one that leaves two places to a value. It holds two indexes at a time at most.
fn best_index<T: PlacedTable>(
    alloc: Global,
    table: &T,
    spec: &ScanSpec,
) -> Result<Option<SoughtIndex>, NoMemory>
    ensures { IfOk result (λ index. Serves (spec_of spec.now) (T.form.rows table.now) index) }
{
    let Some(found) = first_lead(spec) else {
        return Ok(None);
    };
    let places = index_of_column(alloc, table, found.column)?;
    let mut best = SoughtIndex { found, places };
    let mut at = 0;
    while at < spec.offered.len() && !best.places.is_sharp() {
        if let Some(found) = exact_at(spec, at)
            && found.column != best.found.column
        {
            let places = index_of_column(alloc, table, found.column)?;
            if best.places.distinct() < places.distinct() {
                best = SoughtIndex { found, places };
            }
        }
        at += 1;
    }
    Ok(Some(best))
}

/// The first place from a place on at which there may be a row that a scan takes.
fn place_from<T: PlacedTable>(_table: &T, scan: &LiveScan, at: usize) -> usize
    requires serves { Serves (spec_of scan.now.spec) (T.form.rows _table.now) scan.now.index }
    requires stands { Stands (spec_of scan.now.spec) (map datum scan.now.params.items) (T.form.rows _table.now) at scan.now.index }
    ensures { Moves T.form _table.now (spec_of scan.now.spec) (map datum scan.now.params.items) scan.now.index at result }
{
    match &scan.index {
        Some(index) => {
            let missing = Value::Null;
            let value = value_at(&scan.params, index.found.parameter, &missing);
            index.places.next_place(value, at)
        }
        None => at,
    }
}

/// The row at a place as a scan shows it, None where the scan does not take it. What an index has found is not looked for once more.
fn row_at<T: PlacedTable>(
    alloc: Global,
    table: &T,
    scan: &LiveScan,
    found: Option<Sought>,
    at: usize,
) -> Result<Option<Row>, NoMemory>
    requires within { at < length (T.form.rows table.now) }
    requires found { option_map form_of found ≡ sought (map restriction_form scan.now.spec.offered.items) }
    requires stands { Stands (spec_of scan.now.spec) (map datum scan.now.params.items) (T.form.rows table.now) (at + 1) scan.now.index }
    ensures { IfOk result (λ given. GivesAt T.form table.now (spec_of scan.now.spec) (map datum scan.now.params.items) at given) }
{
    match (&scan.index, found) {
        (Some(index), Some(found)) if index.found.is_of(found) => {
            table.give_found(alloc, at, &scan.spec, found, &scan.params)
        }
        _ => table.give(alloc, at, &scan.spec, found, &scan.params),
    }
}

// The place at which a scan ends.
fn end_of(scan: &LiveScan) -> usize
    ensures { result ≡ scan.now.end }
{
    scan.end
}

/// The next row of a scan of a table, from its place to its end.
fn next_row<T: PlacedTable>(
    alloc: Global,
    table: &T,
    scan: &LiveScan,
) -> Result<Option<SourceRow>, Fault>
    requires { ScanFits T.form (Some table.now) scan.now }
    ensures next { IfOk result (λ next. NextIs T.form (Some table.now) (spec_of scan.now.spec) (map datum scan.now.params.items)
        scan.now.at next) }
    ensures on { IfOk result (λ next. IfSome next (λ row. Stands (spec_of scan.now.spec) (map datum scan.now.params.items)
        (T.form.rows table.now) (row.id.number + 1) scan.now.index)) }
    ensures err { IfErr result (λ fault. fault ≡ OutOfMemory) }
{
    let found = sought_in(&scan.spec.offered);
    let end = end_of(scan);
    let mut at = place_from(table, scan, scan.at);
    while at < end {
        if let Some(cells) = row_at(alloc, table, scan, found, at)? {
            return Ok(Some(SourceRow {
                id: RowId { number: at as u64 },
                cells,
            }));
        }
        at = place_from(table, scan, at + 1);
    }
    Ok(None)
}

/// The next row of a scan to which nothing is offered, from its place on.
fn plain_row<T: PlacedTable>(
    alloc: Global,
    table: &T,
    scan: &LiveScan,
) -> Result<Option<SourceRow>, Fault>
    requires plain { scan.now.spec.offered.items ≡ [] }
    requires serves { Serves (spec_of scan.now.spec) (T.form.rows table.now) scan.now.index }
    ensures next { IfOk result (λ next. NextIs T.form (Some table.now) (spec_of scan.now.spec) (map datum scan.now.params.items)
        scan.now.at next) }
    ensures on { IfOk result (λ next. IfSome next (λ row. Stands (spec_of scan.now.spec) (map datum scan.now.params.items)
        (T.form.rows table.now) (row.id.number + 1) scan.now.index)) }
    ensures err { IfErr result (λ fault. fault ≡ OutOfMemory) }
{
    let mut place = scan.at;
    while place < table.count() {
        if let Some(cells) = table.give(alloc, place, &scan.spec, None, &scan.params)? {
            return Ok(Some(SourceRow {
                id: RowId {
                    number: place as u64,
                },
                cells,
            }));
        }
        place += 1;
    }
    Ok(None)
}

/// The next row of a scan of one of these tables, from its place on.
fn row_of_scan<T: PlacedTable>(
    alloc: Global,
    tables: &Vec<Option<T>>,
    scan: &LiveScan,
) -> Result<Option<SourceRow>, Fault>
    requires { ScanFits T.form (table_at tables.now.items scan.now.table) scan.now }
    ensures next { IfOk result (λ next. NextIs T.form (table_at tables.now.items scan.now.table) (spec_of scan.now.spec)
        (map datum scan.now.params.items) scan.now.at next) }
    ensures on { IfOk result (λ next. IfSome next (λ row. Stands (spec_of scan.now.spec) (map datum scan.now.params.items)
        (rows_held T.form (table_at tables.now.items scan.now.table)) (row.id.number + 1) scan.now.index)) }
    ensures err { IfErr result (λ fault. fault ≡ OutOfMemory) }
{
    match table_at(tables, scan.table) {
        Some(table) if scan.spec.offered.is_empty() => plain_row(alloc, table, scan),
        Some(table) => next_row(alloc, table, scan),
        None => unreachable!(),
    }
}

/// The next row of a scan, which stands behind that row then. Where memory is wanting the scan is broken.
fn pull_row<T: PlacedTable>(
    alloc: Global,
    tables: &Vec<Option<T>>,
    scan: &mut LiveScan,
) -> Result<Option<SourceRow>, Fault>
    requires { ScanFits T.form (table_at tables.now.items scan.old.table) scan.old }
    ensures pulls { Pulls T.form (table_at tables.now.items scan.old.table) scan.old result scan.new }
    ensures err { IfErr result (λ fault. fault ≡ OutOfMemory) }
{
    let next = row_of_scan(alloc, tables, scan);
    match &next {
        Ok(Some(row)) => scan.at = row.id.number as usize + 1,
        Ok(None) => {}
        Err(_) => scan.broken = true,
    }
    next
}

/// The next row of the live scan of a number, which stands behind that row then. Where memory is wanting the scan is broken.
pub(crate) fn pull<T: PlacedTable>(
    alloc: Global,
    tables: &Vec<Option<T>>,
    scans: &mut Vec<(u64, LiveScan)>,
    number: u64,
) -> Result<Option<SourceRow>, Fault>
    requires live { IsSome (live_at scans.old.items number) }
    requires rising { (next : ℕ) × Rise 0 next (numbers scans.old.items) }
    requires fits { IfSome (live_at scans.old.items number) (λ s. ScanFits T.form (table_at tables.now.items s.table) s) }
    ensures pulls { IfSome (live_at scans.old.items number) (λ s. (after : LiveScan) × Pulls T.form (table_at tables.now.items s.table)
        s result after × Updates scans.old.items scans.new.items number (Some after)) }
    ensures same { numbers scans.new.items ≡ numbers scans.old.items }
    ensures err { IfErr result (λ fault. fault ≡ OutOfMemory) }
{
    let at = place_of(scans, number);
    pull_row(alloc, tables, &mut scans[at].1)
}

/// Makes an index for a scan that looks for a parameter and has none yet.
fn add_index<T: PlacedTable>(
    alloc: Global,
    tables: &Vec<Option<T>>,
    scan: &mut LiveScan,
) -> Result<(), NoMemory>
    ensures ok { IfOk result (λ _. (index : Option SoughtIndex) × Serves (spec_of scan.old.spec)
        (rows_held T.form (table_at tables.now.items scan.old.table)) index
        × (scan.new ≡ record scan.old { index = newer index scan.old.index })) }
    ensures err { IfErr result (λ _. scan.new ≡ scan.old) }
{
    if scan.index.is_some() {
        return Ok(());
    }
    if let Some(table) = table_at(tables, scan.table) {
        scan.index = best_index(alloc, table, &scan.spec)?;
    }
    Ok(())
}

/// Begins a scan again by these parameters, at the first of the places over which it has to go. It makes an index where it looks for a parameter and has none yet. Where memory is wanting the
/// scan is broken.
fn restart<T: PlacedTable>(
    alloc: Global,
    tables: &Vec<Option<T>>,
    scan: &mut LiveScan,
    params: Vec<Value>,
) -> Result<(), NoMemory>
    ensures { Restarts T.form (table_at tables.now.items scan.old.table) params scan.old result scan.new }
{
    if add_index(alloc, tables, scan).is_err() {
        scan.broken = true;
        return Err(NoMemory);
    }
    let span = span_of(
        alloc,
        tables,
        scan.table,
        &scan.spec,
        &params,
        scan.index.is_some(),
    );
    scan.params = params;
    scan.at = span.first;
    scan.end = span.end;
    Ok(())
}

/// Begins the live scan of a number again by these parameters. Where memory is wanting the scan is broken.
pub(crate) fn begin_again<T: PlacedTable>(
    alloc: Global,
    tables: &Vec<Option<T>>,
    scans: &mut Vec<(u64, LiveScan)>,
    number: u64,
    params: Vec<Value>,
) -> Result<(), NoMemory>
    requires live { IsSome (live_at scans.old.items number) }
    requires rising { (next : ℕ) × Rise 0 next (numbers scans.old.items) }
    ensures begins { IfSome (live_at scans.old.items number) (λ s. (after : LiveScan) × Restarts T.form (table_at tables.now.items s.table)
        params s result after × Updates scans.old.items scans.new.items number (Some after)) }
    ensures same { numbers scans.new.items ≡ numbers scans.old.items }
{
    let at = place_of(scans, number);
    restart(alloc, tables, &mut scans[at].1, params)
}
