//! The rows of live scans: pages are read, and rows given.
ghost use Rattle.std.specs.Prelude.{◌≡◌, ◌⊎◌, true, false, Some, slice_get, nat_lt, IfOk, IfErr, IfSome, IsSome, OnOk, OnErr};
ghost use Rattle.std.specs.Ordering.{nat_cmp};
ghost use Rattle.std.specs.BTreeMap as tree;
ghost use Rattle.fdw_api.specs.Calls.{faults_after, not_refused};
ghost use Rattle.sqlite.specs.Held.{state};
ghost use Rattle.sqlite_wrapper.specs.declared.scans.KeyScan.{KeyScan};
ghost use Rattle.sqlite_tables.specs.Prelude.{layout_at, layout_count, layouts, IsKnown, IsSure, ReadsOnly, entries_of};
ghost use Rattle.sqlite_writes.specs.Watched.{Looks};
ghost use Rattle.sqlite_wrapper.specs.Boxes.{Sets};
ghost use Rattle.sqlite_wrapper.specs.Pages.{IsNext, IsStuck, Turns};

use crate::numbers::shape_of;
use crate::scans::{KeyScan, is_spent, page_wanted, turn_page};
use fdw_api::interface::{Fault, RowId, SourceRow};
use fdw_api::law::rows_are_typed;
use sqlite::Connection;
use sqlite_tables::{Keyed, Misread, Shape, SourceStore, key_and_cells, page_between};
use sqlite_writes::Watch;
use std::alloc::Global;
use std::collections::BTreeMap;

/// The next row of a scan, with its key.
#[derive(Debug, Drop)]
pub(crate) struct GivenNext {
    pub(crate) key: i64,
    pub(crate) row: SourceRow,
}

/// Returns the count of failures after this fault.
pub(crate) fn faults_after(faults: u64, fault: Fault) -> u64
    ensures { result ≡ faults_after fault faults }
{
    match fault {
        Fault::Source => faults.saturating_add(1),
        Fault::NoMemory => faults,
        Fault::Refused(_) => faults,
    }
}

fn fault_of_misread(misread: Misread) -> Fault
    ensures no_cause { not_refused result }
    ensures memory { misread ≡ Misread.NoMemory → result ≡ Fault.NoMemory }
{
    match misread {
        Misread::NoMemory => Fault::NoMemory,
        Misread::Stray | Misread::NoRow => Fault::Source,
    }
}

fn given_next(alloc: Global, shape: &Shape, scan: &KeyScan) -> Result<Option<GivenNext>, Fault>
    requires shape { shape.now ≡ layout_at scan.now.table }
    ensures ok { IfOk result (IsNext scan.now) }
    ensures err { IfErr result not_refused }
    ensures source { IfErr result (λ f. f ≡ Fault.Source → IsStuck scan.now) }
{
    if is_spent(scan.room) {
        return Ok(None);
    }
    if scan.page.len() <= scan.at {
        return Ok(None);
    }
    let Keyed { key, cells } = match key_and_cells(alloc, shape, &scan.page[scan.at]) {
        Ok(read) => read,
        Err(misread) => return Err(fault_of_misread(misread)),
    };
    if !scan.open || key < scan.low || scan.high < key {
        return Err(Fault::Source);
    }
    rows_are_typed();
    match scan.spec.show(alloc, &cells) {
        Err(_) => Err(Fault::NoMemory),
        Ok(cells) => Ok(Some(GivenNext {
            key,
            row: SourceRow {
                id: RowId {
                    number: key.cast_unsigned(),
                },
                cells,
            },
        })),
    }
}

/// The next row of the page of a live scan.
pub(crate) fn next_of(
    alloc: Global,
    shapes: &[Shape],
    scans: &BTreeMap<u64, KeyScan>,
    number: u64,
) -> Result<Option<GivenNext>, Fault>
    requires shapes { shapes.now ≡ layouts }
    requires within { IfSome (tree.get nat_cmp scans.now number) (λ s. nat_lt s.table layout_count ≡ true) }
    requires there { IsSome (tree.get nat_cmp scans.now number) }
    ensures ok { IfOk result (λ next. IfSome (tree.get nat_cmp scans.now number) (λ s. IsNext s next)) }
    ensures err { IfErr result not_refused }
    ensures source { IfErr result (λ f. f ≡ Fault.Source → IfSome (tree.get nat_cmp scans.now number) IsStuck) }
{
    match scans.get(&number) {
        None => unreachable!(),
        Some(scan) => given_next(alloc, shape_of(shapes, scan.table), scan),
    }
}

/// Reads the next page of a live scan, where it has given all rows of its last one and one may follow. The rows that it has still to give
/// stay the same. It fails, and does not use the connection, where the files of the database are not those that were opened.
pub(crate) fn read_page<S: SourceStore>(
    conn: &mut Connection<S>,
    watch: &mut Watch,
    shapes: &[Shape],
    scans: &mut BTreeMap<u64, KeyScan>,
    number: u64,
) -> Result<(), Fault>
    requires shapes { shapes.now ≡ layouts }
    requires within { IfSome (tree.get nat_cmp scans.old number) (λ s. nat_lt s.table layout_count ≡ true) }
    requires there { IsSome (tree.get nat_cmp scans.old number) }
    requires idle { conn.old.in_transaction ≡ false }
    requires known { S.honest ≡ true → IfSome (tree.get nat_cmp scans.old number) (λ s. ∥ IsKnown conn.old.schema (layout_at s.table) ∥₁) }
    ensures turned { OnOk result (IfSome (tree.get nat_cmp scans.old number) (λ s. (n : KeyScan)
        × Sets scans.old scans.new number (Some n) × Turns S.honest (entries_of (state S.Store conn.old).now (layout_at s.table)) s n)) }
    ensures refused { IfErr result not_refused }
    ensures same_scans { OnErr result (scans.new.entries ≡ scans.old.entries) }
    ensures same { S.honest ≡ true → (state S.Store conn.new).now ≡ (state S.Store conn.old).now }
    ensures sure_turned { OnOk result (IfSome (tree.get nat_cmp scans.old number)
        (λ s. IsSure (state S.Store conn.old) (state S.Store conn.new) (layout_at s.table) → (n : KeyScan)
        × Sets scans.old scans.new number (Some n) × Turns true (entries_of (state S.Store conn.old).now (layout_at s.table)) s n)) }
    ensures reads { IfSome (tree.get nat_cmp scans.old number)
        (λ s. ReadsOnly (state S.Store conn.old) (state S.Store conn.new) (layout_at s.table)) }
    ensures idle { conn.new.in_transaction ≡ false }
    ensures looked { (conn.new ≡ conn.old) ⊎ Looks watch.old watch.new true }
{
    let Some(wanted) = page_wanted(scans, number) else {
        return Ok(());
    };
    watch.look()?;
    let shape = shape_of(shapes, wanted.table);
    match page_between(conn, shape, wanted.low, wanted.high) {
        Err(fault) => Err(fault),
        Ok(page) => {
            turn_page(scans, number, page);
            Ok(())
        }
    }
}
