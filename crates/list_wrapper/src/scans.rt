//! Live scans of lists, and the rows that they give.
ghost use Rattle.std.specs.Prelude.{◌≡◌, max, [], true, false, None, map, option_map, slice_index_or, IfOk, IfSome, IfNone, IsSome, Some};
ghost use Rattle.std.specs.Ordering.{nat_cmp};
ghost use Rattle.std.specs.BTreeMap as tree;
ghost use Rattle.med_value.specs.Datum.{datum, tuple, cell};
ghost use Rattle.fdw_api.specs.Prelude.{restriction_form, spec_of, key_form};
ghost use Rattle.wrapper_parts.specs.Scans.{Serves, Stands, sought, form_of, column_cells};
ghost use Rattle.wrapper_parts.specs.Indexes.{IsIndexFrom};
ghost use Rattle.wrapper_parts.specs.Rising.{AreRising};
ghost use Rattle.list_wrapper.specs.Scans.{NextIs, NextOf, left_in_turn, left_by_keys, Arranges, Turns, Spans, Rises, is_spent, StandsAfter, Moves, ScanFits, spec_is, params_of, index_of, newer, index_in, one_less, numbered, keys_of, rows_at};

use crate::held_rows::Rows;
use crate::held_tables::Table;
use crate::sorting::sorted_places;
use crate::spans::{Span, span_of};
use fdw_api::interface::{RowId, SourceRow};
use fdw_api::scan::ScanSpec;
use fdw_api::wishes::OrderKey;
use med_value::{NoMemory, Row, Value};
use std::alloc::Global;
use std::collections::BTreeMap;
use wrapper_parts::{PlaceIndex, SoughtIndex, exact_at, first_lead, sought_in, takes, value_at};

/// How a scan goes over the rows of its table.
#[derive(Drop)]
pub(crate) enum Walk {
    /// In list order.
    InTurn,
    /// In list order, over these places alone.
    Within(Span),
    /// In list order, from place to place of the value that it looks for.
    ByIndex(SoughtIndex),
    /// From place to place in the order that is promised: those of the rows that it takes.
    ByKeys(Vec<usize>),
}

/// A live scan: what it was asked for, and the place from which it goes on.
#[derive(Drop)]
pub(crate) struct ListScan {
    pub(crate) table: usize,
    pub(crate) spec: ScanSpec,
    /// The keys of the order that is promised, none where no order is.
    pub(crate) order: Vec<OrderKey>,
    /// How many rows are promised to be all that come.
    pub(crate) limit: Option<u64>,
    pub(crate) params: Vec<Value>,
    pub(crate) walk: Walk,
    pub(crate) at: usize,
    /// How many rows may still come, where a limit is promised.
    pub(crate) more: Option<u64>,
    pub(crate) broken: bool,
}

/// A row of a scan, and the place from which the scan goes on after it.
#[derive(Drop)]
pub(crate) struct Step {
    pub(crate) row: SourceRow,
    pub(crate) after: usize,
}

/// Whether no more rows may come.
fn is_spent(more: Option<u64>) -> bool
    ensures { result ≡ is_spent more }
{
    match more {
        None => false,
        Some(count) => count == 0,
    }
}

/// One row fewer may come.
fn one_less(more: Option<u64>) -> Option<u64>
    ensures { result ≡ one_less more }
{
    match more {
        None => None,
        Some(count) => Some(count.saturating_sub(1)),
    }
}

/// Moves a scan on to a place, behind a row that it gave.
pub(crate) fn advance(scans: &mut BTreeMap<u64, ListScan>, number: u64, at: usize)
    requires { IsSome (tree.get nat_cmp scans.old number) }
    ensures { IfSome (tree.get nat_cmp scans.old number)
        (λ s. tree.Updates nat_cmp scans.old scans.new number (Some (record s { at = at; more = one_less s.more }))) }
{
    match scans.get_mut(&number) {
        Some(scan) => {
            scan.at = at;
            scan.more = one_less(scan.more);
        }
        None => unreachable!(),
    }
}

/// Marks a scan as good for `end` alone.
pub(crate) fn spoil(scans: &mut BTreeMap<u64, ListScan>, number: u64)
    requires { IsSome (tree.get nat_cmp scans.old number) }
    ensures { IfSome (tree.get nat_cmp scans.old number)
        (λ s. tree.Updates nat_cmp scans.old scans.new number (Some (record s { broken = true }))) }
{
    match scans.get_mut(&number) {
        Some(scan) => scan.broken = true,
        None => unreachable!(),
    }
}

/// Begins a scan again by these parameters, on a new walk if there is one.
pub(crate) fn restart(
    scans: &mut BTreeMap<u64, ListScan>,
    number: u64,
    params: Vec<Value>,
    walk: Option<Walk>,
)
    requires { IsSome (tree.get nat_cmp scans.old number) }
    ensures { IfSome (tree.get nat_cmp scans.old number) (λ s. tree.Updates nat_cmp scans.old scans.new number
        (Some (record s { params = params; walk = newer walk s.walk; at = 0; more = s.limit }))) }
{
    match scans.get_mut(&number) {
        Some(scan) => {
            scan.params = params;
            if let Some(walk) = walk {
                scan.walk = walk;
            }
            scan.at = 0;
            scan.more = scan.limit;
        }
        None => unreachable!(),
    }
}

/// A copy of a row's cell, NULL where there is no such column.
fn cell_of(alloc: Global, row: &Row, column: usize) -> Result<Value, NoMemory>
    ensures { IfOk result (λ v. datum v ≡ cell (tuple row.now) column) }
{
    let missing = Value::Null;
    value_at(&row.cells, column, &missing).copy(alloc)
}

/// An index of a column of a list.
fn index_of_column(alloc: Global, rows: &Rows, column: usize) -> Result<PlaceIndex, NoMemory>
    ensures { IfOk result (λ x. IsIndexFrom 0 (column_cells column (numbered 0 rows.now.items)) x) }
{
    let mut index = PlaceIndex::new(alloc, rows.len())?;
    let mut at = rows.len();
    while at > 0 {
        at -= 1;
        index.add(at, cell_of(alloc, rows.at(at), column)?)?;
    }
    Ok(index)
}

/// An index of the column with most distinct values among those that lead a scan: that of what the scan looks for first, or of an equality
/// that was answered Exact. None is looked for behind one that leaves two places to a value. It holds two indexes at a time at most.
fn best_index(alloc: Global, rows: &Rows, spec: &ScanSpec) -> Result<Option<SoughtIndex>, NoMemory>
    ensures { IfOk result (λ index. Serves (spec_of spec.now) (numbered 0 rows.now.items) index) }
{
    let Some(found) = first_lead(spec) else {
        return Ok(None);
    };
    let places = index_of_column(alloc, rows, found.column)?;
    let mut best = SoughtIndex { found, places };
    let mut at = 0;
    while at < spec.offered.len() && !best.places.is_sharp() {
        if let Some(found) = exact_at(spec, at)
            && found.column != best.found.column
        {
            let places = index_of_column(alloc, rows, found.column)?;
            if best.places.distinct() < places.distinct() {
                best = SoughtIndex { found, places };
            }
        }
        at += 1;
    }
    Ok(Some(best))
}

/// The first place from a place on at which there may be a row that a scan takes.
fn place_from(_rows: &Rows, scan: &ListScan, at: usize) -> usize
    requires serves { Serves (spec_is scan.now) (numbered 0 _rows.now.items) (index_of scan.now.walk) }
    requires stands { Stands (spec_is scan.now) (params_of scan.now) (numbered 0 _rows.now.items) at (index_of scan.now.walk) }
    ensures { Moves (spec_is scan.now) (params_of scan.now) (numbered 0 _rows.now.items) (index_of scan.now.walk) at result }
{
    match &scan.walk {
        Walk::ByIndex(index) => {
            let missing = Value::Null;
            let value = value_at(&scan.params, index.found.parameter, &missing);
            index.places.next_place(value, at)
        }
        _ => at,
    }
}

/// The next row of a scan that goes over a list in its order.
fn next_in_turn(alloc: Global, rows: &Rows, scan: &ListScan) -> Result<Option<Step>, NoMemory>
    requires { ScanFits rows.now.items scan.now }
    ensures next { IfOk result (NextOf (spec_is scan.now) (left_in_turn (spec_is scan.now) (params_of scan.now) (numbered 0 rows.now.items))
        scan.now.at None) }
    ensures on { IfOk result (StandsAfter rows.now.items scan.now) }
{
    let found = sought_in(&scan.spec.offered);
    let mut at = place_from(rows, scan, scan.at);
    while at < rows.len() {
        let next = rows.at(at);
        if takes(&scan.spec, found, &scan.params, next) {
            let cells = scan.spec.show(alloc, next)?;
            let row = SourceRow {
                id: RowId { number: at as u64 },
                cells,
            };
            return Ok(Some(Step { row, after: at + 1 }));
        }
        at = place_from(rows, scan, at + 1);
    }
    Ok(None)
}

/// The later of two places.
fn later_of(at: usize, other: usize) -> usize
    ensures { result ≡ max at other }
{
    if at < other { other } else { at }
}

/// The next row of a scan that goes over these places of a list, in its order.
fn next_within(
    alloc: Global,
    rows: &Rows,
    scan: &ListScan,
    span: Span,
) -> Result<Option<Step>, NoMemory>
    requires { Spans (spec_is scan.now) (params_of scan.now) (numbered 0 rows.now.items) span.first span.end }
    ensures { IfOk result (NextOf (spec_is scan.now) (left_in_turn (spec_is scan.now) (params_of scan.now) (numbered 0 rows.now.items))
        scan.now.at None) }
{
    let found = sought_in(&scan.spec.offered);
    let mut at = later_of(scan.at, span.first);
    while at < span.end {
        let here = rows.at(at);
        if takes(&scan.spec, found, &scan.params, here) {
            let cells = scan.spec.show(alloc, here)?;
            let id = RowId { number: at as u64 };
            let row = SourceRow { id, cells };
            let after = at + 1;
            return Ok(Some(Step { row, after }));
        }
        at += 1;
    }
    Ok(None)
}

/// The next row of a scan that goes over these places.
fn next_by_keys(
    alloc: Global,
    rows: &Rows,
    scan: &ListScan,
    places: &[usize],
) -> Result<Option<Step>, NoMemory>
    ensures { IfOk result (NextOf (spec_is scan.now) (left_by_keys places.now (numbered 0 rows.now.items)) scan.now.at None) }
{
    let mut at = scan.at;
    while at < places.len() {
        let place = places[at];
        if place < rows.len() {
            let cells = scan.spec.show(alloc, rows.at(place))?;
            let row = SourceRow {
                id: RowId {
                    number: place as u64,
                },
                cells,
            };
            return Ok(Some(Step { row, after: at + 1 }));
        }
        at += 1;
    }
    Ok(None)
}

/// The next row of a scan, from its place on.
fn next_row(alloc: Global, rows: &Rows, scan: &ListScan) -> Result<Option<Step>, NoMemory>
    requires { ScanFits rows.now.items scan.now }
    ensures next { IfOk result (NextIs (spec_is scan.now) (params_of scan.now) (numbered 0 rows.now.items) scan.now.walk
        scan.now.at scan.now.more) }
    ensures on { IfOk result (StandsAfter rows.now.items scan.now) }
{
    if is_spent(scan.more) {
        return Ok(None);
    }
    match &scan.walk {
        Walk::InTurn => next_in_turn(alloc, rows, scan),
        Walk::Within(span) => next_within(alloc, rows, scan, *span),
        Walk::ByIndex(_) => next_in_turn(alloc, rows, scan),
        Walk::ByKeys(places) => next_by_keys(alloc, rows, scan, places),
    }
}

/// The live scan of a number.
fn live_scan(scans: &BTreeMap<u64, ListScan>, number: u64) -> &ListScan
    requires { IsSome (tree.get nat_cmp scans.now number) }
    ensures { tree.get nat_cmp scans.now number ≡ Some result.now }
{
    match scans.get(&number) {
        Some(scan) => scan,
        None => unreachable!(),
    }
}

/// The rows of the table at a place, if there is a table.
fn rows_of(tables: &Vec<Table>, at: usize) -> Option<&Rows>
    ensures some { IfSome result (λ rows. rows.now.items ≡ rows_at tables.now.items at) }
    ensures none { IfNone result (rows_at tables.now.items at ≡ []) }
{
    match tables.get(at) {
        Some(table) => Some(&table.rows),
        None => None,
    }
}

/// The next row of a live scan.
pub(crate) fn row_of_scan(
    alloc: Global,
    tables: &Vec<Table>,
    scans: &BTreeMap<u64, ListScan>,
    number: u64,
) -> Result<Option<Step>, NoMemory>
    requires live { IsSome (tree.get nat_cmp scans.now number) }
    requires fits { IfSome (tree.get nat_cmp scans.now number) (λ s. ScanFits (rows_at tables.now.items s.table) s) }
    ensures next { IfOk result (λ next. IfSome (tree.get nat_cmp scans.now number)
        (λ s. NextIs (spec_is s) (params_of s) (numbered 0 (rows_at tables.now.items s.table)) s.walk s.at s.more next)) }
    ensures on { IfOk result (λ next. IfSome (tree.get nat_cmp scans.now number)
        (λ s. StandsAfter (rows_at tables.now.items s.table) s next)) }
{
    let scan = live_scan(scans, number);
    match rows_of(tables, scan.table) {
        Some(rows) => next_row(alloc, rows, scan),
        None => Ok(None),
    }
}

/// Whether the table at a place is marked as rising.
pub(crate) fn is_rising(rising: &[bool], at: usize) -> bool
    ensures { result ≡ slice_index_or rising.now at false }
{
    match rising.get(at) {
        Some(mark) => *mark,
        None => false,
    }
}

/// How a scan that needs no index goes over a list in its order: where the first column rises, over the places of its keys alone.
fn turn_walk(rows: &Rows, rises: bool, spec: &ScanSpec, params: &[Value]) -> Walk
    requires { rises ≡ true → AreRising (keys_of rows.now.items) }
    ensures { Turns (spec_of spec.now) (map datum params.now) (numbered 0 rows.now.items) result }
{
    if !rises || spec.offered.is_empty() {
        return Walk::InTurn;
    }
    Walk::Within(span_of(rows, spec, params))
}

/// How a scan that begins goes over a list.
pub(crate) fn first_walk(
    alloc: Global,
    rows: &Rows,
    rises: bool,
    spec: &ScanSpec,
    order: &[OrderKey],
    params: &[Value],
) -> Result<Walk, NoMemory>
    requires { rises ≡ true → AreRising (keys_of rows.now.items) }
    ensures arranges { IfOk result (Arranges (record (spec_of spec.now) { order = map key_form order.now }) (map datum params.now)
        (numbered 0 rows.now.items)) }
    ensures no_index { IfOk result (λ walk. index_of walk ≡ None) }
{
    if order.is_empty() {
        return Ok(turn_walk(rows, rises, spec, params));
    }
    Ok(Walk::ByKeys(sorted_places(alloc, rows, spec, order, params)?))
}

/// How a live scan goes over its table once it is begun again by these parameters, where it is not to go on as before.
pub(crate) fn new_walk(
    alloc: Global,
    tables: &Vec<Table>,
    rising: &[bool],
    scans: &BTreeMap<u64, ListScan>,
    number: u64,
    params: &[Value],
) -> Result<Option<Walk>, NoMemory>
    requires live { IsSome (tree.get nat_cmp scans.now number) }
    requires rises { Rises tables.now.items rising.now }
    ensures serves { IfOk result (λ walk. IfSome (tree.get nat_cmp scans.now number)
        (λ s. Serves (spec_is s) (numbered 0 (rows_at tables.now.items s.table)) (index_in walk))) }
    ensures arranges { IfOk result (λ walk. IfSome (tree.get nat_cmp scans.now number)
        (λ s. Arranges (spec_is s) (map datum params.now) (numbered 0 (rows_at tables.now.items s.table)) (newer walk s.walk))) }
{
    let scan = live_scan(scans, number);
    let Some(rows) = rows_of(tables, scan.table) else {
        return Ok(Some(Walk::InTurn));
    };
    let rises = is_rising(rising, scan.table);
    if !scan.order.is_empty() {
        let walk = first_walk(alloc, rows, rises, &scan.spec, &scan.order, params)?;
        return Ok(Some(walk));
    }
    if matches!(scan.walk, Walk::ByIndex(_)) {
        return Ok(None);
    }
    match best_index(alloc, rows, &scan.spec)? {
        Some(index) => Ok(Some(Walk::ByIndex(index))),
        None => Ok(Some(turn_walk(rows, rises, &scan.spec, params))),
    }
}
