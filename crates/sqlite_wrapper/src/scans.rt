//! Live scans of remote tables: ranges of keys, read page by page.
ghost use Rattle.std.specs.Prelude.{◌≡◌, ◌-◌, ◌<◌, ◌≤ℤ◌, ◌&&◌, true, Some, map, option_map, length, nat_eq, int_le, IfOk, IfSome, IsSome};
ghost use Rattle.std.specs.Ordering.{nat_cmp};
ghost use Rattle.std.specs.BTreeMap as tree;
ghost use Rattle.med_value.specs.Datum.{datum};
ghost use Rattle.fdw_api.specs.Scan.{spec_of};
ghost use Rattle.wrapper_parts.specs.Ranges.{only_keys};
ghost use Rattle.sqlite_wrapper.specs.Boxes.{IsBegun, asked_of, promised};
ghost use Rattle.sqlite_wrapper.specs.Pages.{is_spent, wanted_by, passed};

use fdw_api::scan::{ScanSpec, copy_values};
use fdw_api::wishes::OrderKey;
use med_value::{NoMemory, Value};
use sqlite::Row;
use sqlite_tables::Lookup;
use std::alloc::Global;
use std::collections::BTreeMap;
use wrapper_parts::{KeyRange, range_of};

/// A live scan: what it was asked for, the keys that may come yet, and the last page with the place from which it goes on.
#[derive(Drop)]
pub(crate) struct KeyScan {
    pub(crate) table: u64,
    pub(crate) spec: ScanSpec,
    pub(crate) params: Vec<Value>,
    /// What of a wish is promised: the order of the rows, none where it is empty, and how many come at most.
    pub(crate) order: Vec<OrderKey>,
    pub(crate) limit: Option<u64>,
    /// How many rows may come yet, where a limit is promised.
    pub(crate) room: Option<u64>,
    /// The keys from `low` to `high` may come yet, if it is open.
    pub(crate) low: i64,
    pub(crate) high: i64,
    pub(crate) open: bool,
    /// The last page, and the place in it of the next row.
    pub(crate) page: Vec<Row>,
    pub(crate) at: usize,
    /// Whether a page may follow.
    pub(crate) full: bool,
    /// The rows of its table by the values of the column in which it looks for a parameter, once it was begun again.
    pub(crate) lookup: Option<Lookup>,
    pub(crate) broken: bool,
}

/// Marks a scan as good for `end` alone.
pub(crate) fn spoil(scans: &mut BTreeMap<u64, KeyScan>, number: u64)
    requires { IsSome (tree.get nat_cmp scans.old number) }
    ensures { IfSome (tree.get nat_cmp scans.old number)
        (λ s. tree.Updates nat_cmp scans.old scans.new number (Some (record s { broken = true }))) }
{
    match scans.get_mut(&number) {
        Some(scan) => scan.broken = true,
        None => unreachable!(),
    }
}

/// Whether no row may come any more, as all came that a limit lets come.
pub(crate) fn is_spent(room: Option<u64>) -> bool
    ensures { result ≡ is_spent room }
{
    match room {
        None => false,
        Some(left) => left == 0,
    }
}

/// Returns how many rows may come after a row that came.
fn room_behind(room: Option<u64>) -> Option<u64>
    ensures { result ≡ option_map (λ n. n - 1) room }
{
    match room {
        None => None,
        Some(left) => Some(left.saturating_sub(1)),
    }
}

fn has_keys(range: &KeyRange) -> bool
    ensures { result ≡ (range.now.open && int_le range.now.low range.now.high) }
{
    range.open && range.low <= range.high
}

/// A scan that has just begun.
pub(crate) fn new_scan(
    alloc: Global,
    table: u64,
    spec: ScanSpec,
    order: Vec<OrderKey>,
    limit: Option<u64>,
    params: Vec<Value>,
) -> KeyScan
    requires { only_keys (map datum params.items) (spec_of spec).offered (spec_of spec).answers ≡ true }
    ensures { IsBegun result table (promised (spec_of spec) order.items limit) (map datum params.items) }
{
    let range = range_of(&spec.offered, &spec.agreement.answers, &params);
    let open = has_keys(&range);
    KeyScan {
        table,
        spec,
        params,
        order,
        limit,
        room: limit,
        low: range.low,
        high: range.high,
        open,
        page: Vec::new(alloc),
        at: 0,
        full: true,
        lookup: None,
        broken: false,
    }
}

/// A live scan as one that has just begun with these parameters.
pub(crate) fn begun_again(
    alloc: Global,
    scans: &BTreeMap<u64, KeyScan>,
    number: u64,
    params: &[Value],
) -> Result<KeyScan, NoMemory>
    requires there { IsSome (tree.get nat_cmp scans.now number) }
    requires keys { IfSome (tree.get nat_cmp scans.now number)
        (λ s. only_keys (map datum params.now) (spec_of s.spec).offered (spec_of s.spec).answers ≡ true) }
    ensures { IfOk result (λ n. IfSome (tree.get nat_cmp scans.now number)
        (λ s. IsBegun n s.table (asked_of s) (map datum params.now))) }
{
    match scans.get(&number) {
        None => unreachable!(),
        Some(scan) => {
            let spec = scan.spec.copy(alloc)?;
            let params = copy_values(alloc, params)?;
            let order = scan.order.clone()?;
            Ok(new_scan(alloc, scan.table, spec, order, scan.limit, params))
        }
    }
}

/// Puts a scan in the place of a live one.
pub(crate) fn put_scan(scans: &mut BTreeMap<u64, KeyScan>, number: u64, scan: KeyScan)
    requires { IsSome (tree.get nat_cmp scans.old number) }
    ensures { tree.Updates nat_cmp scans.old scans.new number (Some scan) }
{
    match scans.get_mut(&number) {
        Some(place) => *place = scan,
        None => unreachable!(),
    }
}

/// A page that a scan asks for: of this table, the keys from `low` to `high`.
#[derive(Clone, Copy, Debug, PartialEq, Eq)]
pub(crate) struct PageWanted {
    pub(crate) table: u64,
    pub(crate) low: i64,
    pub(crate) high: i64,
}

/// The page that a live scan asks for, where it has given all rows of its last one and one may follow.
pub(crate) fn page_wanted(scans: &BTreeMap<u64, KeyScan>, number: u64) -> Option<PageWanted>
    requires { IsSome (tree.get nat_cmp scans.now number) }
    ensures { IfSome (tree.get nat_cmp scans.now number) (λ s. result ≡ wanted_by s) }
{
    match scans.get(&number) {
        None => unreachable!(),
        Some(scan) => {
            if is_spent(scan.room) || scan.at < scan.page.len() || !scan.full || !scan.open {
                return None;
            }
            Some(PageWanted {
                table: scan.table,
                low: scan.low,
                high: scan.high,
            })
        }
    }
}

/// Puts a page that was read after the rows that a scan has given.
pub(crate) fn turn_page(scans: &mut BTreeMap<u64, KeyScan>, number: u64, page: Vec<Row>)
    requires { IsSome (tree.get nat_cmp scans.old number) }
    ensures { IfSome (tree.get nat_cmp scans.old number)
        (λ s. tree.Updates nat_cmp scans.old scans.new number
        (Some (record s { page = page; at = 0; full = nat_eq (length page.items) 64 }))) }
{
    let full = page.len() == 64;
    match scans.get_mut(&number) {
        Some(scan) => {
            scan.page = page;
            scan.at = 0;
            scan.full = full;
        }
        None => unreachable!(),
    }
}

/// Moves a scan past the next row of its page, which has this key.
pub(crate) fn pass_row(scans: &mut BTreeMap<u64, KeyScan>, number: u64, key: i64)
    requires there { IsSome (tree.get nat_cmp scans.old number) }
    requires more { IfSome (tree.get nat_cmp scans.old number) (λ s. s.at < length s.page.items) }
    requires below { IfSome (tree.get nat_cmp scans.old number) (λ s. key ≤ℤ s.high) }
    ensures { IfSome (tree.get nat_cmp scans.old number)
        (λ s. tree.Updates nat_cmp scans.old scans.new number (Some (passed s key))) }
{
    match scans.get_mut(&number) {
        Some(scan) => {
            scan.at += 1;
            scan.room = room_behind(scan.room);
            if key < scan.high {
                scan.low = key + 1;
            } else {
                scan.open = false;
            }
        }
        None => unreachable!(),
    }
}
