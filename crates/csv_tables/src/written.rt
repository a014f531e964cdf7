//! What a kept write makes of a table, and the blob as which it is written.
ghost use Rattle.std.specs.Prelude.{◌≡◌, ◌++◌, ◌<◌, ℕ, List, [], true, false, not, length, map, flat_map, replicate, IfOk, IfErr};
ghost use Rattle.std.specs.List.{list_all, list_any};
ghost use Rattle.std.specs.Str.{is_utf8};
ghost use Rattle.std.specs.String.{string_bytes};
ghost use Rattle.csv.specs.Records.{fields_of};
ghost use Rattle.med_value.specs.Prelude.{tuple};
ghost use Rattle.med_value.specs.declared.cause.Cause.TheVariants.{NotInState};
ghost use Rattle.fdw_api.specs.Prelude.{Change, row_fits, inserted, row_of_change_fits};
ghost use Rattle.wrapper_parts.specs.Staged.{change_is};
ghost use Rattle.wrapper_parts.specs.declared.fates.Fate.{Fate};
ghost use Rattle.csv_tables.specs.Cells.{line_of, record_cells, reads_as_null};
ghost use Rattle.csv_tables.specs.CsvRecords.{Record, is_whole};
ghost use Rattle.csv_tables.specs.Shapes.{read_row, unless, hides_value, causes_behind};
ghost use Rattle.csv_tables.specs.Content.{TellsCause};
ghost use Rattle.csv_tables.specs.Flat.{header_in};
ghost use Rattle.csv_tables.specs.Tables.{shape_is, records_of};
ghost use Rattle.csv_tables.specs.Rewriting.{fates_of, AllWide, left_by, rows_left, Rewrites, rows_in};
ghost use Rattle.csv_tables.specs.Drafted.{IsPlan, IsBefore, IsLike, records_kept, image_of};

use crate::cells::{field_text, reads_as_null};
use crate::content::first_header;
use crate::draft::TableDraft;
use crate::image::{Head, head_of, is_too_large};
use crate::layout::Layout;
use crate::middle::{Middle, Sorted, middle_of};
use crate::rows_draft::RowsDraft;
use crate::table::CsvTable;
use csv::ByteRecord;
use fdw_api::interface::Fault;
use med_value::{Cause, ColType, NoMemory, Row};
use std::alloc::Global;
use std::collections::BTreeMap;
use wrapper_parts::RowChange;

/// What a write puts in the place of what stands.
#[derive(Drop)]
pub(crate) struct Plan {
    middle: Middle,
    head: Head,
    /// The header that is read of the image.
    header: Option<ByteRecord>,
}

/// A table whose changes were refused, and why.
#[derive(Drop)]
pub struct Unchanged {
    /// The table as it was.
    pub table: CsvTable,
    pub fault: Fault,
}

/// A row as a record. It is refused by `Cause::NotInState` (55000) where a value would be read as NULL.
fn record_of(alloc: Global, null: &str, row: &Row) -> Result<ByteRecord, Fault>
    ensures line { IfOk result (λ r. fields_of r ≡ line_of null.now (tuple row.now)) }
    ensures texts { IfOk result (λ r. list_all is_utf8 (fields_of r) ≡ true) }
    ensures clear { IfOk result (λ r. list_any (reads_as_null null.now) (tuple row.now) ≡ false) }
    ensures back { IfOk result (λ r. (kinds : List ColType) → row_fits kinds (tuple row.now) ≡ true
        → record_cells null.now kinds (line_of null.now (tuple row.now)) ≡ tuple row.now) }
    ensures err { IfErr result (λ fault. TellsCause fault
        (unless (not (list_any (reads_as_null null.now) (tuple row.now))) NotInState [])) }
{
    let mut fields = ByteRecord::new(alloc);
    for value in &row.cells {
        let text = field_text(alloc, null, value)?;
        if reads_as_null(null, value, &text) {
            return Err(Fault::Refused(Cause::NotInState));
        }
        fields.push_field(text.as_bytes())?;
    }
    Ok(fields)
}

/// How many bytes of a text so many bytes and a record take, or the greatest number where they are more.
fn with_size(size: usize, row: &ByteRecord) -> usize {
    size.saturating_add(row.as_slice().len())
        .saturating_add(row.len())
}

/// Sorts changes by the records that they name, and makes records of the new rows.
fn sort_changes(alloc: Global, layout: &Layout, changes: Vec<RowChange>) -> Result<Sorted, Fault>
    requires { list_all (row_of_change_fits layout.now.kinds.items) (map change_is changes.items) ≡ true }
    ensures fates { IfOk result (λ s. (count : ℕ) (rows : List Record)
        → map (read_row (shape_is layout.now)) (left_by (fates_of s.changed count) rows)
        ≡ rows_left (shape_is layout.now) rows (replicate count Fate.Keep) (map change_is changes.items)) }
    ensures fresh { IfOk result (λ s. map (read_row (shape_is layout.now)) (map fields_of s.fresh.items)
        ≡ flat_map (inserted (line_of (string_bytes layout.now.null))) (map change_is changes.items)) }
    ensures wide { IfOk result (λ s. AllWide (length layout.now.kinds.items) s.changed) }
    ensures fresh_wide { IfOk result (λ s. list_all (is_whole (length layout.now.kinds.items)) (map fields_of s.fresh.items) ≡ true) }
    ensures clear { IfOk result (λ s. list_any (hides_value (string_bytes layout.now.null)) (map change_is changes.items) ≡ false) }
    ensures err { IfErr result (λ fault. TellsCause fault
        (unless (not (list_any (hides_value (string_bytes layout.now.null)) (map change_is changes.items))) NotInState [])) }
{
    let mut changed = BTreeMap::new(alloc);
    let mut fresh = Vec::new(alloc);
    let mut size = 0;
    for change in changes {
        match change {
            RowChange::Insert(row) => {
                let line = record_of(alloc, &layout.null, &row)?;
                size = with_size(size, &line);
                fresh.push(line)?;
            }
            RowChange::Update(id, row) => {
                let line = record_of(alloc, &layout.null, &row)?;
                size = with_size(size, &line);
                changed.insert(id, Some(line))?;
            }
            RowChange::Delete(id) => {
                changed.insert(id, None)?;
            }
        }
    }
    Ok(Sorted {
        changed,
        fresh,
        size,
    })
}

/// What changes put in the place of what stands in a table. It is refused as `apply_changes` is.
fn planned(alloc: Global, table: &CsvTable, changes: Vec<RowChange>) -> Result<Plan, Fault>
    requires { list_all (row_of_change_fits table.now.layout.kinds.items) (map change_is changes.items) ≡ true }
    ensures ok { IfOk result (λ p. IsPlan table.now (map change_is changes.items) p) }
    ensures err { IfErr result (λ fault. TellsCause fault (causes_behind (shape_is table.now.layout) (header_in table.now.header)
        (rows_in table.now) (map change_is changes.items))) }
{
    let sorted = sort_changes(alloc, &table.layout, changes)?;
    let middle = middle_of(alloc, &table.rows, sorted)?;
    let head = head_of(alloc, &table.header, &table.rows, &middle)?;
    if is_too_large(&head, &table.rows, &middle) {
        return Err(Fault::Refused(Cause::TooLarge));
    }
    let header = first_header(alloc, &table.layout, &head.bytes)?;
    Ok(Plan {
        middle,
        head,
        header,
    })
}

/// A table of which a planned write is under way. It fails for want of memory alone, and then the table comes back.
fn drafted(table: CsvTable, plan: Plan) -> Result<TableDraft, CsvTable>
    requires { (changes : List Change) × IsPlan table changes plan }
    ensures before { IfOk result (λ w. IsBefore w table) }
    ensures after { (changes : List Change) → IsPlan table changes plan
        → IfOk result (λ w. Rewrites table changes (header_in w.after) (records_kept w.rows) (image_of w)) }
    ensures err { IfErr result (λ same. IsLike table same) }
{
    let CsvTable {
        remote,
        layout,
        header: before,
        rows,
    } = table;
    let Plan {
        middle,
        head,
        header: after,
    } = plan;
    match RowsDraft::new(rows, middle) {
        Ok(rows) => Ok(TableDraft {
            remote,
            layout,
            before,
            after,
            rows,
            head: head.bytes,
            in_pieces: head.in_pieces,
        }),
        Err(rows) => Err(CsvTable {
            remote,
            layout,
            header: before,
            rows,
        }),
    }
}

/// Makes changes of a table: its header and rows after them, and the blob in which they stand.
///
/// It is refused by a cause that stands for the changes (`causes_behind`): `NotInState` (55000) where a value would be read as NULL,
/// `TooLarge` (54000) over 1,000,000 rows or 67,108,864 bytes. It fails besides for want of memory alone. Then the table comes back.
pub fn apply_changes(
    alloc: Global,
    table: CsvTable,
    changes: Vec<RowChange>,
) -> Result<TableDraft, Unchanged>
    requires { list_all (row_of_change_fits table.layout.kinds.items) (map change_is changes.items) ≡ true }
    ensures ok { IfOk result (λ w. Rewrites table (map change_is changes.items) (header_in w.after) (records_kept w.rows) (image_of w)) }
    ensures before { IfOk result (λ w. IsBefore w table) }
    ensures same { IfErr result (λ e. IsLike table e.table) }
    ensures err { IfErr result (λ e. TellsCause e.fault (causes_behind (shape_is table.layout) (header_in table.header)
        (rows_in table) (map change_is changes.items))) }
{
    let plan = match planned(alloc, &table, changes) {
        Ok(plan) => plan,
        Err(fault) => return Err(Unchanged { table, fault }),
    };
    match drafted(table, plan) {
        Ok(written) => Ok(written),
        Err(table) => Err(Unchanged {
            table,
            fault: Fault::NoMemory,
        }),
    }
}
