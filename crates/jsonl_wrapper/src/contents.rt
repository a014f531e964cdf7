//! Contents: their lines, which are checked when a table is bound, and the rows that these are.
ghost use Rattle.std.specs.Prelude.{◌≡◌, ◌<◌, ◌∷◌, [], true, false, length, map, IfOk, IfErr, OnOk};
ghost use Rattle.std.specs.List.{list_all};
ghost use Rattle.json.specs.Scratch.{room};
ghost use Rattle.med_value.specs.Datum.{Datum, datum, tuple};
ghost use Rattle.serde_json.specs.Data.{no_members};
ghost use Rattle.jsonl_wrapper.specs.Lines.{content_lines, lines_at};
ghost use Rattle.jsonl_wrapper.specs.Fields.{reader_of};
ghost use Rattle.jsonl_wrapper.specs.Objects.{is_object, is_typed, cells_at, json_of, read_cell};
ghost use Rattle.jsonl_wrapper.specs.Wholes.{whole_is, wholes_at, wholes_of};
ghost use Rattle.jsonl_wrapper.specs.Notes.{marks_of, wholes_in};
ghost use Rattle.jsonl_wrapper.specs.Contents.{is_too_large, LineRefused, ContentRefused};

use crate::fields::Field;
use crate::lines::{Span, is_blank, line_at, line_from};
use crate::notes::{Cells, Marks, are_typed, blank_cells, blank_marks};
use crate::objects::read_line;
use crate::wholes::push_marks;
use fdw_api::interface::Fault;
use json::Scratch;
use json_members::ObjectFault;
use med_value::limits::{BYTE_LIMIT, ROW_LIMIT};
use med_value::{Cause, NoMemory, Row, Value};
use std::alloc::Global;
use std::slice;

/// The lines of a content that was read.
#[derive(Drop)]
pub struct LinesRead {
    /// Where they stand.
    pub spans: Vec<Span>,
    /// What the integer columns read in them, line by line; None is NULL.
    pub wholes: Vec<Option<i64>>,
}

/// Marks the columns of a line. Fails where the line is no object, where a member is not of its column's type, and with `NoMemory` only
/// where the buffer had less room than the line takes.
fn check_line(scratch: &mut Scratch, line: &[u8], notes: &mut Marks<'_>) -> Result<(), Fault>
    requires { notes.old.marks.items ≡ marks_of (map reader_of notes.old.fields.now) no_members }
    ensures wholes { OnOk result (map whole_is (wholes_in (map reader_of notes.old.fields.now) notes.new.marks.items)
        ≡ wholes_at (map reader_of notes.old.fields.now) line.now) }
    ensures object { OnOk result (is_object line.now ≡ true) }
    ensures typed { OnOk result (is_typed (map reader_of notes.old.fields.now) line.now ≡ true) }
    ensures err { IfErr result (λ fault. LineRefused (map reader_of notes.old.fields.now) line.now fault) }
    ensures memory { IfErr result (λ fault. fault ≡ Fault.NoMemory → room scratch.old < length line.now) }
{
    match read_line(scratch, line, notes) {
        Err(ObjectFault::NoMemory) => Err(Fault::NoMemory),
        Err(ObjectFault::NotObject) => Err(Fault::Refused(Cause::InvalidFormat)),
        Ok(()) => {
            if are_typed(&notes.marks) {
                Ok(())
            } else {
                Err(Fault::Refused(Cause::InvalidText))
            }
        }
    }
}

/// The lines of a content, each of which is checked: refused by `TooLarge` (54000), `InvalidFormat` (HV00A) or `InvalidText` (22P02), each
/// where the content shows it, or for want of memory.
pub fn read_lines(alloc: Global, content: &[u8], fields: &[Field]) -> Result<LinesRead, Fault>
    ensures lines { IfOk result (λ read. lines_at content.now read.spans.items ≡ content_lines content.now) }
    ensures wholes { IfOk result (λ read. map whole_is read.wholes.items ≡ wholes_of (map reader_of fields.now) (content_lines content.now)) }
    ensures objects { IfOk result (λ read. list_all is_object (content_lines content.now) ≡ true) }
    ensures typed { IfOk result (λ read. list_all (is_typed (map reader_of fields.now)) (content_lines content.now) ≡ true) }
    ensures few { IfOk result (λ read. is_too_large (length (content_lines content.now)) (length content.now) ≡ false) }
    ensures err { IfErr result (λ fault. ContentRefused (map reader_of fields.now) content.now fault) }
{
    if content.len() > BYTE_LIMIT {
        return Err(Fault::Refused(Cause::TooLarge));
    }
    let mut spans = Vec::new(alloc);
    let mut wholes = Vec::new(alloc);
    let mut scratch = Scratch::new(alloc);
    let mut start = 0;
    while start <= content.len() {
        let span = line_from(content, start);
        let line = line_at(content, span);
        if !is_blank(line) {
            let marks = blank_marks(alloc, fields)?;
            let mut notes = Marks { fields, marks };
            check_line(&mut scratch, line, &mut notes)?;
            if spans.len() == ROW_LIMIT {
                return Err(Fault::Refused(Cause::TooLarge));
            }
            push_marks(&mut wholes, fields, &notes.marks)?;
            spans.push(span)?;
        }
        start = span.end + 1;
    }
    Ok(LinesRead { spans, wholes })
}

/// The row that was noted. Fails where memory for a cell was refused.
fn noted_row(notes: Cells<'_>) -> Result<Row, NoMemory>
    ensures { IfOk result (λ row. (notes.entry.is_short ≡ false) × (tuple row ≡ map datum notes.entry.cells.items)) }
{
    if notes.is_short {
        return Err(NoMemory);
    }
    Ok(Row { cells: notes.cells })
}

/// The cell of a row of one cell.
fn only_cell(row: Row) -> Value
    ensures { (v : Datum) → tuple row ≡ v ∷ [] → datum result ≡ v }
{
    let mut cells = row.cells;
    match cells.pop() {
        Some(cell) => cell,
        None => Value::Null,
    }
}

/// The row that a line is: in each column the value of its member, NULL where that is absent or of another type. A line that is no object
/// is reported as out of memory: each line was read when its table was bound, so memory alone can be missing then. The buffer is kept from
/// line to line.
pub fn row_of_line(
    alloc: Global,
    scratch: &mut Scratch,
    line: &[u8],
    fields: &[Field],
) -> Result<Row, NoMemory>
    ensures { IfOk result (λ row. tuple row ≡ cells_at (map reader_of fields.now) line.now) }
{
    let cells = blank_cells(alloc, fields)?;
    let mut notes = Cells {
        alloc,
        fields,
        cells,
        is_short: false,
    };
    match read_line(scratch, line, &mut notes) {
        Ok(()) => noted_row(notes),
        Err(_) => Err(NoMemory),
    }
}

/// The cell of one column in a line: the value of its member, NULL where that is absent or of another type. A line that is no object is
/// reported as out of memory, as `row_of_line` reports it.
pub fn cell_of_line(
    alloc: Global,
    scratch: &mut Scratch,
    line: &[u8],
    field: &Field,
) -> Result<Value, NoMemory>
    ensures { IfOk result (λ cell. datum cell ≡ read_cell (json_of line.now) (reader_of field.now)) }
{
    let row = row_of_line(alloc, scratch, line, slice::from_ref(field))?;
    Ok(only_cell(row))
}
