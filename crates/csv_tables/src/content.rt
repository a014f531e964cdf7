//! The records of a blob, checked as they are read.
ghost use Rattle.std.specs.Prelude.{◌≡◌, ◌++◌, ◌∷◌, [], ◌<◌, ℕ, List, map, length, true, false, not, ◌&&◌, is_some, IfOk, IfErr, OnOk, OnErr};
ghost use Rattle.std.specs.List.{list_all};
ghost use Rattle.std.specs.Str.{is_utf8};
ghost use Rattle.std.specs.String.{string_bytes};
ghost use Rattle.csv.specs.Reading.{has_failed};
ghost use Rattle.csv.specs.Records.{fields_of, partial_of};
ghost use Rattle.csv_tables.specs.Cells.{is_readable};
ghost use Rattle.csv_tables.specs.CsvRecords.{Record, csv_records, is_whole, heading};
ghost use Rattle.csv_tables.specs.Shapes.{content_causes};
ghost use Rattle.csv_tables.specs.Held.{end_of, ended};
ghost use Rattle.csv_tables.specs.Flat.{header_in};
ghost use Rattle.csv_tables.specs.Tables.{shape_is, records_of};
ghost use Rattle.csv_tables.specs.Content.{HasRead, ReadsOn, TellsCause, IsDraft, IsContent, records_so_far};

use crate::cells::is_cell;
use crate::flat_fields::Fields;
use crate::layout::Layout;
use crate::plain::are_plain;
use crate::table::Rows;
use csv::{ByteRecord, Reader, ReaderBuilder};
use fdw_api::interface::Fault;
use med_value::limits::{BYTE_LIMIT, ROW_LIMIT};
use med_value::{Cause, NoMemory};
use std::alloc::Global;
use std::str::from_utf8;

/// What a blob gives a table: its first record, if the table has a header, and its rows.
#[derive(Drop)]
pub struct Content {
    pub header: Option<ByteRecord>,
    pub rows: Rows,
}

/// What was read so far: the header, if the table has one, and the fields of the rows.
#[derive(Drop)]
pub(crate) struct Draft {
    header: Option<ByteRecord>,
    fields: Fields,
    count: usize,
}

/// A reader of the records of a blob.
fn reader_of(alloc: Global, bytes: &[u8]) -> Reader<&[u8]>
    ensures { HasRead bytes.now [] result }
{
    ReaderBuilder::new()
        .has_headers(false)
        .flexible(true)
        .from_reader(alloc, bytes)
}

/// Reads the next record, if there is one. It is refused only where the reader itself has failed, which the length of a record is no cause
/// of: over memory, a reader of records of any length fails for want of memory alone.
fn next_record(rdr: &mut Reader<&[u8]>, row: &mut ByteRecord) -> Result<bool, NoMemory>
    ensures found { IfOk result (λ found. (bytes : List ℕ) (rows : List Record) → HasRead bytes rows rdr.old → ReadsOn bytes rows found
        (fields_of row.new) rdr.new) }
    ensures err { OnErr result ((bytes : List ℕ) (rows : List Record) → HasRead bytes rows rdr.old → has_failed rdr.new ≡ true) }
{
    let Ok(found) = rdr.read_byte_record(row) else {
        return Err(NoMemory);
    };
    Ok(found)
}

/// Whether a record has this many fields, and each is UTF-8.
fn is_whole(width: usize, row: &ByteRecord) -> bool
    ensures { result ≡ is_whole width (fields_of row.now) }
{
    row.len() == width && has_text(row)
}

// Whether each field of a record is UTF-8. All of them are where no byte of the record is beyond ASCII.
fn has_text(row: &ByteRecord) -> bool
    ensures { result ≡ list_all is_utf8 (fields_of row.now) }
{
    row.as_slice().is_ascii() || are_texts(row)
}

fn are_texts(row: &ByteRecord) -> bool
    ensures { result ≡ list_all is_utf8 (fields_of row.now) }
{
    let mut at = 0;
    while let Some(field) = row.get(at) {
        if from_utf8(field).is_err() {
            return false;
        }
        at += 1;
    }
    true
}

// The byte behind a field.
#[inline(always)]
fn end_of(last: bool) -> u8
    ensures { result ≡ end_of last }
{
    if last { b'\n' } else { b',' }
}

/// Appends the fields of a record, one for each column and all of them UTF-8, if each is of its column's type: whether it is.
fn take_fields(layout: &Layout, fields: &mut Fields, row: &ByteRecord) -> Result<bool, NoMemory>
    requires texts { list_all is_utf8 (fields_of row.now) ≡ true }
    requires width { length (fields_of row.now) ≡ length layout.now.kinds.items }
    requires partial { partial_of fields.old ≡ [] }
    ensures readable { IfOk result (λ b. b ≡ is_readable (string_bytes layout.now.null) layout.now.kinds.items (fields_of row.now)) }
    ensures fields { IfOk result (λ b. b ≡ true → fields_of fields.new ≡ fields_of fields.old ++ ended (fields_of row.now)) }
    ensures partial { IfOk result (λ b. b ≡ true → partial_of fields.new ≡ []) }
{
    let count = row.len();
    let mut at = 0;
    while let Some(field) = row.get(at) {
        if !is_cell(&layout.null, layout.kinds[at], field) {
            return Ok(false);
        }
        fields.push_field(field, end_of(at + 1 == count))?;
        at += 1;
    }
    Ok(true)
}

/// Appends the fields of a record.
pub(crate) fn push_fields(fields: &mut Fields, row: &ByteRecord) -> Result<(), NoMemory>
    requires { partial_of fields.old ≡ [] }
    ensures fields { OnOk result (fields_of fields.new ≡ fields_of fields.old ++ ended (fields_of row.now)) }
    ensures partial { OnOk result (partial_of fields.new ≡ []) }
{
    let count = row.len();
    let mut at = 0;
    while let Some(field) = row.get(at) {
        fields.push_field(field, end_of(at + 1 == count))?;
        at += 1;
    }
    Ok(())
}

/// Whether the next record is the header.
fn awaits_header(layout: &Layout, draft: &Draft) -> bool
    ensures { result ≡ (layout.now.header && not (is_some draft.now.header)) }
{
    layout.header && draft.header.is_none()
}

/// Takes a record in as the header or as a row.
fn add_record(layout: &Layout, draft: &mut Draft, row: &ByteRecord) -> Result<(), Fault>
    requires { IsDraft (shape_is layout.now) draft.old }
    ensures draft { OnOk result (IsDraft (shape_is layout.now) draft.new) }
    ensures records { OnOk result (records_so_far (shape_is layout.now) draft.new ≡ records_so_far
        (shape_is layout.now) draft.old ++ fields_of row.now ∷ []) }
    ensures err { IfErr result (λ fault. (bytes : List ℕ) (more : List Record)
        → csv_records bytes ≡ records_so_far (shape_is layout.now) draft.old ++ fields_of row.now ∷ more
        → TellsCause fault (content_causes (shape_is layout.now) bytes)) }
{
    if !is_whole(layout.kinds.len(), row) {
        return Err(Fault::Refused(Cause::InvalidFormat));
    }
    if awaits_header(layout, draft) {
        draft.header = Some(row.clone()?);
        return Ok(());
    }
    if !take_fields(layout, &mut draft.fields, row)? {
        return Err(Fault::Refused(Cause::InvalidText));
    }
    if draft.count == ROW_LIMIT {
        return Err(Fault::Refused(Cause::TooLarge));
    }
    draft.count += 1;
    Ok(())
}

/// The column names as a record.
fn names_record(alloc: Global, names: &[String]) -> Result<ByteRecord, NoMemory>
    ensures { IfOk result (λ r. fields_of r ≡ map string_bytes names.now) }
{
    let mut row = ByteRecord::new(alloc);
    for name in names {
        row.push_field(name.as_bytes())?;
    }
    Ok(row)
}

/// The header of a blob whose first record this is: the column names where it has none.
fn header_or_names(
    alloc: Global,
    layout: &Layout,
    first: Option<ByteRecord>,
) -> Result<Option<ByteRecord>, NoMemory>
    requires { layout.now.header ≡ false → header_in first ≡ [] }
    ensures { IfOk result (λ header. header_in header ≡ heading layout.now.header (map string_bytes layout.now.names.items)
        (header_in first)) }
{
    if layout.header && first.is_none() {
        return Ok(Some(names_record(alloc, &layout.names)?));
    }
    Ok(first)
}

/// The header of a blob: its first record, or the column names where it has none.
pub(crate) fn first_header(
    alloc: Global,
    layout: &Layout,
    bytes: &[u8],
) -> Result<Option<ByteRecord>, NoMemory>
    ensures { IfOk result (λ header. header_in header ≡ heading layout.now.header (map string_bytes layout.now.names.items)
        (csv_records bytes.now)) }
{
    if !layout.header {
        return Ok(None);
    }
    let mut rdr = reader_of(alloc, bytes);
    let mut row = ByteRecord::new(alloc);
    if next_record(&mut rdr, &mut row)? {
        Ok(Some(row))
    } else {
        Ok(Some(names_record(alloc, &layout.names)?))
    }
}

/// The content of a blob, which has no header where the table has none, and the column names as one where it has no record.
///
/// It is refused by a cause that stands for the blob (`content_causes`): `TooLarge` (54000) over 67,108,864 bytes or 1,000,000 rows,
/// `InvalidFormat` (HV00A) where a record is not whole, `InvalidText` (22P02) where a cell is not of its column's type. It fails besides
/// for want of memory alone.
pub fn read_content(alloc: Global, layout: &Layout, bytes: &[u8]) -> Result<Content, Fault>
    ensures ok { IfOk result (λ c. IsContent (shape_is layout.now) bytes.now (header_in c.header) (records_of c.rows)) }
    ensures width { IfOk result (λ c. c.rows.width ≡ length layout.now.kinds.items) }
    ensures err { IfErr result (λ fault. TellsCause fault (content_causes (shape_is layout.now) bytes.now)) }
{
    if bytes.len() > BYTE_LIMIT {
        return Err(Fault::Refused(Cause::TooLarge));
    }
    if layout.kinds.is_empty() {
        return Err(Fault::Refused(Cause::InvalidFormat));
    }
    let draft = read_draft(alloc, layout, bytes)?;
    let Draft {
        header,
        fields,
        count,
    } = draft;
    let header = header_or_names(alloc, layout, header)?;
    let width = layout.kinds.len();
    let plain = are_plain(width, &fields);
    Ok(Content {
        header,
        rows: Rows {
            width,
            fields,
            count,
            plain,
        },
    })
}

/// All records of a blob, for which no cause stands.
fn read_draft(alloc: Global, layout: &Layout, bytes: &[u8]) -> Result<Draft, Fault>
    requires { 0 < length layout.now.kinds.items }
    ensures draft { IfOk result (λ d. IsDraft (shape_is layout.now) d) }
    ensures all { IfOk result (λ d. csv_records bytes.now ≡ records_so_far (shape_is layout.now) d) }
    ensures err { IfErr result (λ fault. TellsCause fault (content_causes (shape_is layout.now) bytes.now)) }
{
    let mut draft = Draft {
        header: None,
        fields: Fields::with_room(alloc, bytes.len() + 1, 0)?,
        count: 0,
    };
    let mut rdr = reader_of(alloc, bytes);
    let mut row = ByteRecord::new(alloc);
    for _ in 0..u64::MAX {
        if !next_record(&mut rdr, &mut row)? {
            return Ok(draft);
        }
        match add_record(layout, &mut draft, &row) {
            Ok(()) => {}
            Err(fault) => return Err(fault),
        }
    }
    Err(Fault::NoMemory)
}
