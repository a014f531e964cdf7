//! Scans that are begun again and look for a parameter: the rows that have its value are found, and no page is turned.
ghost use Rattle.std.specs.Prelude.{◌≡◌, ◌⊎◌, true, false, Some, None, nat_lt, IfOk, IfErr, IfSome, IfNone, IsSome};
ghost use Rattle.std.specs.Ordering.{nat_cmp};
ghost use Rattle.std.specs.BTreeMap as tree;
ghost use Rattle.sqlite.specs.Held.{state};
ghost use Rattle.sqlite.specs.View.{IsShaped};
ghost use Rattle.sqlite_trees.specs.declared.store.Shape.TheVariants as stored;
ghost use Rattle.fdw_api.specs.Calls.{not_refused};
ghost use Rattle.wrapper_parts.specs.Scans.{form_of};
ghost use Rattle.sqlite_tables.specs.Prelude.{layout_at, layout_count, layouts, IsKnown, IsSure, ReadsOnly, entries_of, IsLookup};
ghost use Rattle.sqlite_writes.specs.Watched.{Looks};
ghost use Rattle.sqlite_wrapper.specs.Boxes.{scan_is};
ghost use Rattle.sqlite_wrapper.specs.Looks.{IsFree, LooksFor, IsAnswered};

use crate::numbers::shape_of;
use crate::scans::KeyScan;
use fdw_api::interface::Fault;
use med_value::Value;
use sqlite::{Connection, Row};
use sqlite_tables::{Lookup, Shape, SourceStore, read_lookup, rows_with};
use sqlite_writes::Watch;
use std::alloc::Global;
use std::collections::BTreeMap;
use wrapper_parts::{Sought, sought_in, value_at};

/// Takes the lookup of a live scan away from it.
pub(crate) fn take_lookup(scans: &mut BTreeMap<u64, KeyScan>, number: u64) -> Option<Lookup>
    requires { IsSome (tree.get nat_cmp scans.old number) }
    ensures lookup { IfSome (tree.get nat_cmp scans.old number) (λ s. result ≡ s.lookup) }
    ensures scans { IfSome (tree.get nat_cmp scans.old number)
        (λ s. tree.Updates nat_cmp scans.old scans.new number (Some (record s { lookup = None }))) }
{
    match scans.get_mut(&number) {
        Some(scan) => scan.lookup.take(),
        None => unreachable!(),
    }
}

// Whether a scan is asked for all keys, and no order and no limit is promised of its rows.
fn is_free(scan: &KeyScan) -> bool
    ensures { result ≡ true → IsFree scan.now }
{
    scan.open
        && scan.low == i64::MIN
        && scan.high == i64::MAX
        && scan.order.is_empty()
        && scan.limit.is_none()
}

// What a scan looks for, where it may give just the rows that have it.
fn looks_for(scan: &KeyScan) -> Option<Sought>
    ensures { IfSome result (λ found. LooksFor scan.now (form_of found)) }
{
    if is_free(scan) {
        sought_in(&scan.spec.offered)
    } else {
        None
    }
}

// The lookup of a scan for this column: the one that it had, if it is of this column, and else one that is read.
fn lookup_of<S: SourceStore>(
    alloc: Global,
    conn: &mut Connection<S>,
    shape: &Shape,
    column: usize,
    had: Option<Lookup>,
) -> Result<Lookup, Fault>
    requires idle { conn.old.in_transaction ≡ false }
    requires known { S.honest ≡ true → ∥ IsKnown conn.old.schema shape.now ∥₁ }
    requires had { S.honest ≡ true → IfSome had (IsLookup shape.now (entries_of (state S.Store conn.old).now shape.now)) }
    ensures is { S.honest ≡ true → IfOk result (IsLookup shape.now (entries_of (state S.Store conn.old).now shape.now)) }
    ensures column { IfOk result (λ x. x.column ≡ column) }
    ensures refused { IfErr result not_refused }
    ensures same { S.honest ≡ true → (state S.Store conn.new).now ≡ (state S.Store conn.old).now }
    ensures sure_is { IsSure (state S.Store conn.old) (state S.Store conn.new) shape.now
        → IfSome had (IsLookup shape.now (entries_of (state S.Store conn.old).now shape.now))
        → IfOk result (IsLookup shape.now (entries_of (state S.Store conn.old).now shape.now)) }
    ensures reads { ReadsOnly (state S.Store conn.old) (state S.Store conn.new) shape.now }
    ensures idle { conn.new.in_transaction ≡ false }
{
    if let Some(lookup) = had
        && lookup.column() == column
    {
        return Ok(lookup);
    }
    read_lookup(alloc, conn, shape, column)
}

// A scan that has just begun, with a lookup and with the rows that were found by it, if they are few.
fn with_rows(scan: KeyScan, lookup: Lookup, found: Option<Vec<Row>>) -> KeyScan
    ensures shows { scan_is result ≡ scan_is scan }
    ensures lookup { result.lookup ≡ Some lookup }
    ensures none { IfNone found (result ≡ record scan { lookup = result.lookup }) }
    ensures filled { IfSome found (λ page. (result ≡ record scan { page = result.page; full = false; lookup = result.lookup })
        × (result.page.items ≡ page.items)) }
{
    let mut scan = scan;
    scan.lookup = Some(lookup);
    if let Some(page) = found {
        scan.page = page;
        scan.full = false;
    }
    scan
}

// A scan that has just begun, where it looks for a parameter: with the rows that have its value as its only page, if they are at most 64.
// Where they are more, or it looks for none, its pages are turned as ever. The lookup is the one that the scan had before it was begun
// again. It fails, and does not use the connection, where the files of the database are not those that were opened.
fn look_in<S: SourceStore>(
    alloc: Global,
    conn: &mut Connection<S>,
    watch: &mut Watch,
    shape: &Shape,
    scan: KeyScan,
    had: Option<Lookup>,
) -> Result<KeyScan, Fault>
    requires idle { conn.old.in_transaction ≡ false }
    requires known { S.honest ≡ true → ∥ IsKnown conn.old.schema shape.now ∥₁ }
    requires shaped { S.honest ≡ true → IsShaped stored.Table (entries_of (state S.Store conn.old).now shape.now) }
    requires had { S.honest ≡ true
        → IfSome had (IsLookup shape.now (entries_of (state S.Store conn.old).now shape.now)) }
    ensures answered { IfOk result (IsAnswered S.honest shape.now (entries_of (state S.Store conn.old).now shape.now) scan) }
    ensures refused { IfErr result not_refused }
    ensures same { S.honest ≡ true → (state S.Store conn.new).now ≡ (state S.Store conn.old).now }
    ensures sure_answered { IsSure (state S.Store conn.old) (state S.Store conn.new) shape.now
        → IfSome had (IsLookup shape.now (entries_of (state S.Store conn.old).now shape.now))
        → IfOk result (IsAnswered true shape.now (entries_of (state S.Store conn.old).now shape.now) scan) }
    ensures reads { ReadsOnly (state S.Store conn.old) (state S.Store conn.new) shape.now }
    ensures idle { conn.new.in_transaction ≡ false }
    ensures looked { (conn.new ≡ conn.old) ⊎ Looks watch.old watch.new true }
{
    let Some(found) = looks_for(&scan) else {
        let mut scan = scan;
        scan.lookup = had;
        return Ok(scan);
    };
    watch.look()?;
    let lookup = match lookup_of(alloc, conn, shape, found.column, had) {
        Err(fault) => return Err(fault),
        Ok(lookup) => lookup,
    };
    let missing = Value::Null;
    let value = value_at(&scan.params, found.parameter, &missing);
    match rows_with(alloc, conn, shape, &lookup, value) {
        Err(fault) => Err(fault),
        Ok(rows) => Ok(with_rows(scan, lookup, rows)),
    }
}

/// A scan that has just begun, where it looks for a parameter: with the rows that have its value as its only page, if they are at most 64.
/// Where they are more, or it looks for none, its pages are turned as ever. The lookup is the one that the scan had before it was begun
/// again. It fails, and does not use the connection, where the files of the database are not those that were opened.
pub(crate) fn look_up<S: SourceStore>(
    alloc: Global,
    conn: &mut Connection<S>,
    watch: &mut Watch,
    shapes: &[Shape],
    scan: KeyScan,
    had: Option<Lookup>,
) -> Result<KeyScan, Fault>
    requires shapes { shapes.now ≡ layouts }
    requires within { nat_lt scan.table layout_count ≡ true }
    requires idle { conn.old.in_transaction ≡ false }
    requires known { S.honest ≡ true → ∥ IsKnown conn.old.schema (layout_at scan.table) ∥₁ }
    requires shaped { S.honest ≡ true → IsShaped stored.Table (entries_of (state S.Store conn.old).now (layout_at scan.table)) }
    requires had { S.honest ≡ true
        → IfSome had (IsLookup (layout_at scan.table) (entries_of (state S.Store conn.old).now (layout_at scan.table))) }
    ensures answered { IfOk result
        (IsAnswered S.honest (layout_at scan.table) (entries_of (state S.Store conn.old).now (layout_at scan.table)) scan) }
    ensures refused { IfErr result not_refused }
    ensures same { S.honest ≡ true → (state S.Store conn.new).now ≡ (state S.Store conn.old).now }
    ensures sure_answered { IsSure (state S.Store conn.old) (state S.Store conn.new) (layout_at scan.table)
        → IfSome had (IsLookup (layout_at scan.table) (entries_of (state S.Store conn.old).now (layout_at scan.table)))
        → IfOk result (IsAnswered true (layout_at scan.table) (entries_of (state S.Store conn.old).now (layout_at scan.table)) scan) }
    ensures reads { ReadsOnly (state S.Store conn.old) (state S.Store conn.new) (layout_at scan.table) }
    ensures idle { conn.new.in_transaction ≡ false }
    ensures looked { (conn.new ≡ conn.old) ⊎ Looks watch.old watch.new true }
{
    let shape = shape_of(shapes, scan.table);
    look_in(alloc, conn, watch, shape, scan, had)
}
