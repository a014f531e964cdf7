//! The cells of integer columns, which a table keeps.
ghost use Rattle.std.specs.Prelude.{◌≡◌, ◌++◌, map, length, OnOk};
ghost use Rattle.jsonl_wrapper.specs.Fields.{reader_of};
ghost use Rattle.jsonl_wrapper.specs.Wholes.{whole_is, whole_readers, wholes_at};
ghost use Rattle.jsonl_wrapper.specs.Notes.{kept_of, wholes_in};

use crate::fields::Field;
use crate::notes::{Mark, Marks, blank_marks};
use crate::objects::read_line;
use json::Scratch;
use med_value::{ColType, NoMemory};
use std::alloc::Global;

/// What is kept of a column of integers.
fn kept_of(mark: Mark) -> Option<i64>
    ensures { result ≡ kept_of mark }
{
    match mark {
        Some(whole) => whole,
        None => None,
    }
}

/// How many of these columns are of integers.
pub(crate) fn count_wholes(fields: &[Field]) -> usize
    ensures { result ≡ length (whole_readers (map reader_of fields.now)) }
{
    let mut count = 0;
    for field in fields {
        match field.kind {
            ColType::Int => count += 1,
            ColType::Text | ColType::Bool => {}
        }
    }
    count
}

/// Adds the integers that the marks of a line's columns have, for each column of integers.
pub(crate) fn push_marks(
    wholes: &mut Vec<Option<i64>>,
    fields: &[Field],
    marks: &[Mark],
) -> Result<(), NoMemory>
    ensures { OnOk result (map whole_is wholes.new.items
        ≡ map whole_is wholes.old.items ++ map whole_is (wholes_in (map reader_of fields.now) marks.now)) }
{
    let mut fields = fields;
    let mut marks = marks;
    while let Some((field, further)) = fields.split_first() {
        let Some((mark, others)) = marks.split_first() else {
            return Ok(());
        };
        match field.kind {
            ColType::Int => wholes.push(kept_of(*mark))?,
            ColType::Text | ColType::Bool => {}
        }
        fields = further;
        marks = others;
    }
    Ok(())
}

/// Adds what the integer columns read in a line. A line that is no object is reported as out of memory: each line was read when its table
/// was bound, or is one that was written, so memory alone can be missing.
pub(crate) fn push_line(
    alloc: Global,
    scratch: &mut Scratch,
    wholes: &mut Vec<Option<i64>>,
    line: &[u8],
    fields: &[Field],
) -> Result<(), NoMemory>
    ensures { OnOk result (map whole_is wholes.new.items ≡ map whole_is wholes.old.items ++ wholes_at (map reader_of fields.now) line.now) }
{
    let marks = blank_marks(alloc, fields)?;
    let mut notes = Marks { fields, marks };
    match read_line(scratch, line, &mut notes) {
        Ok(()) => push_marks(wholes, fields, &notes.marks),
        Err(_) => Err(NoMemory),
    }
}
