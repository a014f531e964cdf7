//! The records that a write puts in the place of a range of a table's.
ghost use Rattle.std.specs.Prelude.{◌≡◌, ◌++◌, ◌+◌, ◌-◌, ◌^◌, ◌<◌, ◌≤◌, ℕ, List, [], ◌∷◌, true, length, map, take, drop, nat_lt, nat_le, IfOk, IfErr, OnOk};
ghost use Rattle.std.specs.List.{list_all, AllByRecursion};
ghost use Rattle.std.specs.Map.{keys_of};
ghost use Rattle.csv.specs.Records.{fields_of, partial_of};
ghost use Rattle.med_value.specs.Prelude.{row_limit};
ghost use Rattle.med_value.specs.declared.cause.Cause.TheVariants.{TooLarge};
ghost use Rattle.csv_tables.specs.CsvRecords.{Record, is_whole};
ghost use Rattle.csv_tables.specs.Shapes.{unless};
ghost use Rattle.csv_tables.specs.Content.{TellsCause};
ghost use Rattle.csv_tables.specs.Tables.{records_of};
ghost use Rattle.csv_tables.specs.Rewriting.{fates_of, AllWide, left_by, Gathers, Replaces, all_left, records_with};

use crate::content::push_fields;
use crate::flat_fields::Fields;
use crate::plain::stay_plain;
use crate::table::Rows;
use csv::ByteRecord;
use fdw_api::interface::Fault;
use med_value::limits::ROW_LIMIT;
use med_value::{Cause, NoMemory};
use std::alloc::Global;
use std::collections::BTreeMap;

/// A sorted write: what stands in the place of an old record, None for nothing, and the new records.
#[derive(Drop)]
pub(crate) struct Sorted {
    pub changed: BTreeMap<u64, Option<ByteRecord>>,
    pub fresh: Vec<ByteRecord>,
    /// How many bytes of a text the records take that are new, in the place of an old one or not.
    pub size: usize,
}

/// Records that are put together: their fields, how many they are, and whether each is known to be what the writer would write as it stands.
#[derive(Drop)]
struct Gathered {
    fields: Fields,
    count: usize,
    plain: bool,
}

/// The records that come in the place of those of a table from one place up to another.
#[derive(Drop)]
pub(crate) struct Middle {
    pub from: usize,
    pub to: usize,
    pub rows: Rows,
}

/// Appends a record.
fn gather(gathered: &mut Gathered, row: &ByteRecord) -> Result<(), NoMemory>
    requires partial { partial_of gathered.old.fields ≡ [] }
    requires room { gathered.old.count + 1 < 2 ^ 64 }
    ensures partial { OnOk result (partial_of gathered.new.fields ≡ []) }
    ensures count { OnOk result (gathered.new.count ≡ gathered.old.count + 1) }
    ensures rows { OnOk result ((width : ℕ) (rows : List Record) → Gathers width rows gathered.old
        → is_whole width (fields_of row.now) ≡ true → Gathers width (rows ++ fields_of row.now ∷ []) gathered.new) }
{
    push_fields(&mut gathered.fields, row)?;
    gathered.count += 1;
    gathered.plain = stay_plain(gathered.plain, row);
    Ok(())
}

/// Appends the records of a table from a place up to another, as they stand in its text.
fn with_kept(gathered: Gathered, rows: &Rows, from: usize, to: usize) -> Result<Gathered, NoMemory>
    requires order { from ≤ to }
    requires within { to ≤ rows.now.count }
    requires room { gathered.count + (to - from) < 2 ^ 64 }
    requires partial { partial_of gathered.fields ≡ [] }
    ensures count { IfOk result (λ g. g.count ≡ gathered.count + (to - from)) }
    ensures partial { IfOk result (λ g. partial_of g.fields ≡ []) }
    ensures rows { (done : List Record) → Gathers rows.now.width done gathered
        → IfOk result (λ g. Gathers rows.now.width (done ++ take (to - from) (drop from (records_of rows.now))) g) }
{
    let Gathered {
        fields,
        count,
        plain,
    } = gathered;
    let _fields = rows.fields.len();
    let fields = fields.with_range(&rows.fields, from * rows.width, to * rows.width)?;
    Ok(Gathered {
        fields,
        count: count + (to - from),
        plain: plain && rows.plain,
    })
}

/// No records, with room for so many of so many fields, which take so many bytes.
fn with_room(alloc: Global, width: usize, count: usize, size: usize) -> Result<Gathered, NoMemory>
    ensures none { IfOk result (λ g. g.count ≡ 0) }
    ensures rows { IfOk result (λ g. Gathers width [] g) }
{
    Ok(Gathered {
        fields: Fields::with_room(alloc, size, count.saturating_mul(width))?,
        count: 0,
        plain: true,
    })
}

/// The place of the first record that is changed, or that behind the last one.
fn first_changed(changed: &BTreeMap<u64, Option<ByteRecord>>, count: usize) -> usize
    ensures within { result ≤ count }
    ensures first { AllByRecursion (λ place. result ≤ place) (keys_of changed.now.entries) }
{
    match changed.first_key_value() {
        Some((first, _)) => (*first as usize).min(count),
        None => count,
    }
}

/// What is left of the records of a table from a place on, and the place behind the last one of them that is changed: so far it goes. Those
/// between two changed ones are copied at once, as they stand, and none of them is looked at.
fn rewritten(
    none: Gathered,
    rows: &Rows,
    from: usize,
    changed: BTreeMap<u64, Option<ByteRecord>>,
) -> Result<(Gathered, usize), NoMemory>
    requires none { none.count ≡ 0 }
    requires gathers { Gathers rows.now.width [] none }
    requires wide { AllWide rows.now.width changed }
    requires within { from ≤ rows.now.count }
    requires first { AllByRecursion (λ place. from ≤ place) (keys_of changed.entries) }
    ensures order { IfOk result (λ g. (from + g.0.count ≤ g.1) × (g.1 ≤ rows.now.count)) }
    ensures rows { IfOk result (λ g. Replaces rows.now (left_by (fates_of changed rows.now.count) (records_of rows.now)) from g.1 g.0) }
{
    let mut gathered = none;
    let mut at = from;
    for (id, line) in changed {
        let place = id as usize;
        if place < rows.count {
            gathered = with_kept(gathered, rows, at, place)?;
            match line {
                Some(new) => gather(&mut gathered, &new)?,
                None => {}
            }
            at = place + 1;
        }
    }
    Ok((gathered, at))
}

/// Whether these are too many rows for a table.
fn are_too_many(kept: usize, fresh: usize) -> bool
    ensures { result ≡ nat_lt row_limit (kept + fresh) }
{
    kept > ROW_LIMIT || fresh > ROW_LIMIT - kept
}

/// Appends new records.
fn with_fresh(gathered: Gathered, fresh: Vec<ByteRecord>) -> Result<Gathered, NoMemory>
    requires partial { partial_of gathered.fields ≡ [] }
    requires few { gathered.count + length fresh.items ≤ row_limit }
    ensures { (width : ℕ) (rows : List Record) → Gathers width rows gathered → list_all (is_whole width) (map fields_of fresh.items) ≡ true
        → IfOk result (λ g. Gathers width (rows ++ map fields_of fresh.items) g) }
{
    let mut gathered = gathered;
    for line in fresh {
        gather(&mut gathered, &line)?;
    }
    Ok(gathered)
}

/// The records that stand behind a place, and then new ones, behind those that were put together, and up to where that is: no record is
/// taken where none is new.
fn up_to_fresh(
    gathered: Gathered,
    rows: &Rows,
    to: usize,
    fresh: Vec<ByteRecord>,
) -> Result<(Gathered, usize), NoMemory>
    requires partial { partial_of gathered.fields ≡ [] }
    requires within { to ≤ rows.now.count }
    requires few { gathered.count + (rows.now.count - to) + length fresh.items ≤ row_limit }
    requires wide { list_all (is_whole rows.now.width) (map fields_of fresh.items) ≡ true }
    ensures order { IfOk result (λ g. (to ≤ g.1) × (g.1 ≤ rows.now.count)) }
    ensures rows { (all : List Record) (from : ℕ) → Replaces rows.now all from to gathered
        → IfOk result (λ g. Replaces rows.now (all ++ map fields_of fresh.items) from g.1 g.0) }
{
    if fresh.is_empty() {
        return Ok((gathered, to));
    }
    let kept = with_kept(gathered, rows, to, rows.count)?;
    let all = with_fresh(kept, fresh)?;
    Ok((all, rows.count))
}

/// Records that were put together, as those of a table.
fn as_rows(width: usize, gathered: Gathered) -> Rows
    requires { (rows : List Record) × Gathers width rows gathered × (length rows < 2 ^ 64) }
    ensures width { result.width ≡ width }
    ensures count { result.count ≡ gathered.count }
    ensures rows { (rows : List Record) → Gathers width rows gathered → records_of result ≡ rows }
{
    let Gathered {
        fields,
        count,
        plain,
    } = gathered;
    Rows {
        width,
        fields,
        count,
        plain,
    }
}

/// What a sorted write puts in the place of a range of a table's records. It is refused by `TooLarge` (54000) over 1,000,000 rows, and fails
/// besides for want of memory alone.
pub(crate) fn middle_of(alloc: Global, rows: &Rows, sorted: Sorted) -> Result<Middle, Fault>
    requires wide { AllWide rows.now.width sorted.changed }
    requires fresh_wide { list_all (is_whole rows.now.width) (map fields_of sorted.fresh.items) ≡ true }
    ensures order { IfOk result (λ m. (m.from ≤ m.to) × (m.to ≤ rows.now.count)) }
    ensures width { IfOk result (λ m. m.rows.width ≡ rows.now.width) }
    ensures rows { IfOk result (λ m. records_with rows.now m ≡ all_left rows.now sorted) }
    ensures few { IfOk result (λ m. length (all_left rows.now sorted) ≤ row_limit) }
    ensures err { IfErr result (λ fault. TellsCause fault (unless (nat_le (length (all_left rows.now sorted)) row_limit) TooLarge [])) }
{
    let Sorted {
        changed,
        fresh,
        size,
    } = sorted;
    let from = first_changed(&changed, rows.count);
    let none = with_room(
        alloc,
        rows.width,
        changed.len().saturating_add(fresh.len()),
        size,
    )?;
    let (kept, to) = rewritten(none, rows, from, changed)?;
    let left = from + kept.count + (rows.count - to);
    if are_too_many(left, fresh.len()) {
        return Err(Fault::Refused(Cause::TooLarge));
    }
    let (gathered, to) = up_to_fresh(kept, rows, to, fresh)?;
    Ok(Middle {
        from,
        to,
        rows: as_rows(rows.width, gathered),
    })
}
