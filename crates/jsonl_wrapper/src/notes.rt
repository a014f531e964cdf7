//! What is noted of a line's members: whether each is of its column's type and which integers they are, the cells of a row, and whether
//! there is a member that no column reads.
ghost use Rattle.std.specs.Prelude.{◌≡◌, ◌≤◌, ◌<◌, ◌||◌, not, map, length, slice_set, bytes_eq, string_bytes, unwrap_or, is_some, if◌then◌else◌, IfOk, OnOk};
ghost use Rattle.std.specs.List.{list_all};
ghost use Rattle.med_value.specs.Datum.{datum, NoValue};
ghost use Rattle.serde_json.specs.Data.{no_members};
ghost use Rattle.json_members.specs.Scalars.{seen_of};
ghost use Rattle.jsonl_wrapper.specs.Fields.{reader_of, reads_member};
ghost use Rattle.jsonl_wrapper.specs.Objects.{is_clean};
ghost use Rattle.jsonl_wrapper.specs.Notes.{cell_seen, mark_of, marks_of, row_of, at_member};

use crate::fields::Field;
use json_members::{Notes, Scalar};
use med_value::{ColType, NoMemory, Value};
use std::alloc::Global;

/// What is noted of a column: None where its member is not of its type, else the integer that it is, if it is one.
pub(crate) type Mark = Option<Option<i64>>;

/// Whether a text has no U+0000.
fn is_clean(text: &str) -> bool
    ensures { result ≡ is_clean text.now }
{
    for byte in text.as_bytes() {
        if 0 == *byte {
            return false;
        }
    }
    true
}

/// The mark of a column of this type, from its member.
fn mark_from(kind: ColType, scalar: Scalar<'_>) -> Mark
    ensures { result ≡ mark_of (cell_seen (seen_of scalar.entry) kind) }
{
    match kind {
        ColType::Int => match scalar {
            Scalar::Null => Some(None),
            Scalar::Whole(number) => Some(Some(number)),
            Scalar::Bool(_) | Scalar::Real | Scalar::Text(_) | Scalar::Nested => None,
        },
        ColType::Text => match scalar {
            Scalar::Null => Some(None),
            Scalar::Text(text) => { if is_clean(text) { Some(None) } else { None } }
            Scalar::Bool(_) | Scalar::Whole(_) | Scalar::Real | Scalar::Nested => None,
        },
        ColType::Bool => match scalar {
            Scalar::Null => Some(None),
            Scalar::Bool(_) => Some(None),
            Scalar::Whole(_) | Scalar::Real | Scalar::Text(_) | Scalar::Nested => None,
        },
    }
}

/// The cell of a column of this type, from its member: NULL where that is of another type.
fn cell_from(alloc: Global, kind: ColType, scalar: Scalar<'_>) -> Result<Value, NoMemory>
    ensures { IfOk result (λ cell. datum cell ≡ unwrap_or (cell_seen (seen_of scalar.entry) kind) NoValue) }
{
    match kind {
        ColType::Int => match scalar {
            Scalar::Whole(number) => Ok(Value::Int(number)),
            Scalar::Null | Scalar::Bool(_) | Scalar::Real | Scalar::Text(_) | Scalar::Nested => {
                Ok(Value::Null)
            }
        },
        ColType::Text => match scalar {
            Scalar::Text(text) => {
                if is_clean(text) {
                    Ok(Value::Text(text.to_string(alloc)?))
                } else {
                    Ok(Value::Null)
                }
            }
            Scalar::Null | Scalar::Bool(_) | Scalar::Whole(_) | Scalar::Real | Scalar::Nested => {
                Ok(Value::Null)
            }
        },
        ColType::Bool => match scalar {
            Scalar::Bool(truth) => Ok(Value::Bool(truth)),
            Scalar::Null | Scalar::Whole(_) | Scalar::Real | Scalar::Text(_) | Scalar::Nested => {
                Ok(Value::Null)
            }
        },
    }
}

/// Marks the column at a place, if it reads a member.
fn mark_at(field: &Field, marks: &mut [Mark], at: usize, name: &str, scalar: Scalar<'_>)
    requires { at < length marks.old }
    ensures { marks.new ≡ (if bytes_eq (string_bytes field.now.member) name.now
        then slice_set marks.old at (mark_of (cell_seen (seen_of scalar.entry) field.now.kind)) else marks.old) }
{
    if field.member.as_str() == name {
        marks[at] = mark_from(field.kind, scalar);
    }
}

/// Marks the columns that read a member.
fn mark_member(fields: &[Field], marks: &mut [Mark], name: &str, scalar: Scalar<'_>)
    ensures { length fields.now ≤ length marks.old → marks.new ≡ at_member name.now
        (λ kind. mark_of (cell_seen (seen_of scalar.entry) kind)) (map reader_of fields.now) marks.old }
{
    if marks.len() < fields.len() {
        return;
    }
    for (at, field) in fields.iter().enumerate() {
        mark_at(field, marks, at, name, scalar);
    }
}

/// Puts a member into the cell of the column at a place, if the column reads it.
fn put_at(
    alloc: Global,
    field: &Field,
    cells: &mut [Value],
    at: usize,
    name: &str,
    scalar: Scalar<'_>,
) -> Result<(), NoMemory>
    requires { at < length cells.old }
    ensures { OnOk result (map datum cells.new ≡ (if bytes_eq (string_bytes field.now.member) name.now
        then slice_set (map datum cells.old) at (unwrap_or (cell_seen (seen_of scalar.entry) field.now.kind) NoValue)
        else map datum cells.old)) }
{
    if field.member.as_str() == name {
        cells[at] = cell_from(alloc, field.kind, scalar)?;
    }
    Ok(())
}

/// Puts a member into the cells of the columns that read it.
fn put_member(
    alloc: Global,
    fields: &[Field],
    cells: &mut [Value],
    name: &str,
    scalar: Scalar<'_>,
) -> Result<(), NoMemory>
    ensures { OnOk result (length fields.now ≤ length cells.old → map datum cells.new ≡ at_member name.now
        (λ kind. unwrap_or (cell_seen (seen_of scalar.entry) kind) NoValue) (map reader_of fields.now) (map datum cells.old)) }
{
    if cells.len() < fields.len() {
        return Ok(());
    }
    for (at, field) in fields.iter().enumerate() {
        put_at(alloc, field, cells, at, name, scalar)?;
    }
    Ok(())
}

/// Whether there is a member that no column reads, from whether there was one before this member.
fn is_other(name: &str, fields: &[Field], is_wider: bool) -> bool
    ensures { result ≡ (not (reads_member (map reader_of fields.now) name.now) || is_wider) }
{
    if is_member(name, fields) {
        is_wider
    } else {
        true
    }
}

/// Whether some column reads this member.
fn is_member(name: &str, fields: &[Field]) -> bool
    ensures { result ≡ reads_member (map reader_of fields.now) name.now }
{
    for field in fields {
        if field.member.as_str() == name {
            return true;
        }
    }
    false
}

/// The marks of the columns of a table.
#[derive(Drop)]
pub(crate) struct Marks<'a> {
    pub(crate) fields: &'a [Field],
    pub(crate) marks: Vec<Mark>,
}

/// The marks of an object with no members.
pub(crate) fn blank_marks(alloc: Global, fields: &[Field]) -> Result<Vec<Mark>, NoMemory>
    ensures { IfOk result (λ marks. marks.items ≡ marks_of (map reader_of fields.now) no_members) }
{
    let mut marks = Vec::with_capacity(alloc, fields.len())?;
    for field in fields {
        marks.push(mark_from(field.kind, Scalar::Null))?;
    }
    Ok(marks)
}

/// Whether each member is of its column's type.
pub(crate) fn are_typed(marks: &[Mark]) -> bool
    ensures { result ≡ list_all is_some marks.now }
{
    for mark in marks {
        if mark.is_none() {
            return false;
        }
    }
    true
}

impl<'a> Notes for Marks<'a> {
    ghost use Rattle.jsonl_wrapper.specs.Noted.{MarksAfter};

    ghost after = { MarksAfter };

    fn note(&mut self, name: &str, scalar: Scalar<'_>) {
        mark_member(self.fields, &mut self.marks, name, scalar);
    }
}

/// The cells of a row.
#[derive(Drop)]
pub(crate) struct Cells<'a> {
    pub(crate) alloc: Global,
    pub(crate) fields: &'a [Field],
    pub(crate) cells: Vec<Value>,
    /// Whether memory for a cell was refused. The cells are not those of the line then.
    pub(crate) is_short: bool,
}

/// The cells of an object with no members: each is NULL.
pub(crate) fn blank_cells(alloc: Global, fields: &[Field]) -> Result<Vec<Value>, NoMemory>
    ensures { IfOk result (λ cells. map datum cells.items ≡ row_of (map reader_of fields.now) no_members) }
{
    let mut cells = Vec::with_capacity(alloc, fields.len())?;
    for field in fields {
        cells.push(cell_from(alloc, field.kind, Scalar::Null)?)?;
    }
    Ok(cells)
}

impl<'a> Notes for Cells<'a> {
    ghost use Rattle.jsonl_wrapper.specs.Noted.{CellsAfter};

    ghost after = { CellsAfter };

    fn note(&mut self, name: &str, scalar: Scalar<'_>) {
        match put_member(self.alloc, self.fields, &mut self.cells, name, scalar) {
            Ok(()) => {}
            Err(_) => self.is_short = true,
        }
    }
}

/// Whether there is a member that no column reads.
#[derive(Drop)]
pub(crate) struct Others<'a> {
    pub(crate) fields: &'a [Field],
    pub(crate) is_wider: bool,
}

impl<'a> Notes for Others<'a> {
    ghost use Rattle.jsonl_wrapper.specs.Noted.{OthersAfter};

    ghost after = { OthersAfter };

    fn note(&mut self, name: &str, _scalar: Scalar<'_>) {
        self.is_wider = is_other(name, self.fields, self.is_wider);
    }
}
