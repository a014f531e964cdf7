//! The blob as which a table is written with other records in the place of a range.
ghost use Rattle.std.specs.Prelude.{◌≡◌, ◌++◌, ◌-◌, ◌<◌, ◌≤◌, ◌^◌, ℕ, Bool, List, true, length, min, take, drop, nat_lt, IfOk, OnOk};
ghost use Rattle.std.specs.List.{list_all};
ghost use Rattle.csv.specs.Records.{fields_of};
ghost use Rattle.csv.specs.Writing.{default_writer, row_text};
ghost use Rattle.med_value.specs.Prelude.{byte_limit};
ghost use Rattle.csv_tables.specs.CsvRecords.{Record, csv_records, csv_text, heading, is_header};
ghost use Rattle.csv_tables.specs.Flat.{header_in};
ghost use Rattle.csv_tables.specs.Tables.{record_at, records_of};
ghost use Rattle.csv_tables.specs.Rewriting.{HasWritten, records_with, image_by, held_text};

use crate::middle::Middle;
use crate::table::Rows;
use csv::{ByteRecord, Writer};
use med_value::NoMemory;
use med_value::limits::BYTE_LIMIT;
use std::alloc::Global;

/// The bytes with which an image begins.
#[derive(Drop)]
pub(crate) struct Head {
    pub bytes: Vec<u8>,
    /// Whether the text of the records stands behind them; else they are all of the image.
    pub in_pieces: bool,
}

/// Writes a record.
fn write_line(wtr: &mut Writer<Vec<u8>>, row: &ByteRecord) -> Result<(), NoMemory>
    ensures { OnOk result ((text : List ℕ) → HasWritten text wtr.old
        → HasWritten (text ++ row_text default_writer (fields_of row.now)) wtr.new) }
{
    let Ok(()) = wtr.write_byte_record(row) else {
        return Err(NoMemory);
    };
    Ok(())
}

/// The fields of a record of a table.
fn record_at(rows: &Rows, at: usize, row: &mut ByteRecord) -> Result<(), NoMemory>
    requires { at < rows.now.count }
    ensures { OnOk result (fields_of row.new ≡ record_at rows.now at) }
{
    let _fields = rows.fields.len();
    row.clear();
    for column in 0..rows.width {
        if let Some(field) = rows.fields.get(at * rows.width + column) {
            row.push_field(field)?;
        }
    }
    Ok(())
}

/// Writes the records of a table from a place up to another, each anew.
fn write_rows(
    alloc: Global,
    wtr: &mut Writer<Vec<u8>>,
    rows: &Rows,
    from: usize,
    to: usize,
) -> Result<(), NoMemory>
    requires order { from ≤ to }
    requires within { to ≤ rows.now.count }
    ensures { OnOk result ((text : List ℕ) → HasWritten text wtr.old
        → HasWritten (text ++ csv_text (take (to - from) (drop from (records_of rows.now)))) wtr.new) }
{
    let mut line = ByteRecord::new(alloc);
    for at in from..to {
        record_at(rows, at, &mut line)?;
        write_line(wtr, &line)?;
    }
    Ok(())
}

/// A record as the writer writes it.
fn line_anew(alloc: Global, row: &ByteRecord) -> Result<Vec<u8>, NoMemory>
    ensures { IfOk result (λ line. line.items ≡ row_text default_writer (fields_of row.now)) }
{
    let mut wtr = Writer::from_writer(Vec::new(alloc));
    write_line(&mut wtr, row)?;
    match wtr.into_inner() {
        Ok(line) => Ok(line),
        Err(_) => Err(NoMemory),
    }
}

/// The blob of a header and of the records of a table with others in the place of a range, of which the writer writes each anew.
fn image_anew(
    alloc: Global,
    header: &Option<ByteRecord>,
    rows: &Rows,
    middle: &Middle,
) -> Result<Vec<u8>, NoMemory>
    requires order { middle.now.from ≤ middle.now.to }
    requires within { middle.now.to ≤ rows.now.count }
    ensures { IfOk result (λ image. image.items ≡ csv_text (header_in header.now ++ records_with rows.now middle.now)) }
{
    let mut wtr = Writer::from_writer(Vec::new(alloc));
    if let Some(header) = header {
        write_line(&mut wtr, header)?;
    }
    write_rows(alloc, &mut wtr, rows, 0, middle.from)?;
    write_rows(alloc, &mut wtr, &middle.rows, 0, middle.rows.count)?;
    write_rows(alloc, &mut wtr, rows, middle.to, rows.count)?;
    match wtr.into_inner() {
        Ok(image) => Ok(image),
        Err(_) => Err(NoMemory),
    }
}

/// The blob of a header alone.
fn header_line(alloc: Global, header: &Option<ByteRecord>) -> Result<Vec<u8>, NoMemory>
    ensures { IfOk result (λ line. line.items ≡ csv_text (header_in header.now)) }
{
    match header {
        Some(header) => line_anew(alloc, header),
        None => Ok(Vec::new(alloc)),
    }
}

/// Whether a header is read of its line as it is read of a whole blob, as one of two fields or more is.
fn is_told_by_line(header: &Option<ByteRecord>) -> bool
    ensures { result ≡ list_all (λ fields. nat_lt 1 (length fields)) (header_in header.now) }
{
    match header {
        Some(header) => header.len() > 1,
        None => true,
    }
}

/// The beginning of the blob of a header and of the records of a table with others in the place of a range: the header's line where all
/// records stand as the writer would write them.
pub(crate) fn head_of(
    alloc: Global,
    header: &Option<ByteRecord>,
    rows: &Rows,
    middle: &Middle,
) -> Result<Head, NoMemory>
    requires order { middle.now.from ≤ middle.now.to }
    requires within { middle.now.to ≤ rows.now.count }
    ensures image { IfOk result (λ head. image_by head.in_pieces head.bytes.items (held_text (records_with rows.now middle.now))
        ≡ csv_text (header_in header.now ++ records_with rows.now middle.now)) }
    ensures header { (flag : Bool) (names : Record) → is_header flag (header_in header.now) ≡ true
        → IfOk result (λ head. heading flag names (csv_records (csv_text (header_in header.now ++ records_with rows.now middle.now)))
        ≡ heading flag names (csv_records head.bytes.items)) }
{
    if rows.plain && middle.rows.plain && is_told_by_line(header) {
        let bytes = header_line(alloc, header)?;
        return Ok(Head {
            bytes,
            in_pieces: true,
        });
    }
    let bytes = image_anew(alloc, header, rows, middle)?;
    Ok(Head {
        bytes,
        in_pieces: false,
    })
}

/// How many bytes the text of records has with others in the place of a range, or the greatest number where they are more.
fn text_size(rows: &Rows, middle: &Middle) -> usize
    requires order { middle.now.from ≤ middle.now.to }
    requires within { middle.now.to ≤ rows.now.count }
    ensures { result ≡ min (length (held_text (records_with rows.now middle.now))) (2 ^ 64 - 1) }
{
    let all = rows.fields.len();
    let new = middle.rows.fields.len();
    let front = rows.fields.text(0, middle.from * rows.width).len();
    let back = rows.fields.text(middle.to * rows.width, all).len();
    let more = middle.rows.fields.text(0, new).len();
    front.saturating_add(more).saturating_add(back)
}

/// Whether an image is too large, of which this is the beginning.
pub(crate) fn is_too_large(head: &Head, rows: &Rows, middle: &Middle) -> bool
    requires order { middle.now.from ≤ middle.now.to }
    requires within { middle.now.to ≤ rows.now.count }
    ensures { result ≡ nat_lt byte_limit (length (image_by head.now.in_pieces head.now.bytes.items
        (held_text (records_with rows.now middle.now)))) }
{
    if head.in_pieces {
        head.bytes.len().saturating_add(text_size(rows, middle)) > BYTE_LIMIT
    } else {
        head.bytes.len() > BYTE_LIMIT
    }
}
