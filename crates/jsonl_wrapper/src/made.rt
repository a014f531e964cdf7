//! Lines as they are written, and what the integer columns read in them.
ghost use Rattle.std.specs.Prelude.{◌∷◌, ◌++◌, [], ◌≤◌, ℕ, List, length, map, string_bytes, IfOk, OnOk};
ghost use Rattle.std.specs.List.{slice_range};
ghost use Rattle.jsonl_wrapper.specs.Fields.{Reader, reader_of};
ghost use Rattle.jsonl_wrapper.specs.Changes.{IsWritten};
ghost use Rattle.jsonl_wrapper.specs.Tables.{readers_in, lines_in};

use crate::fields::Field;
use crate::known::wholes_between;
use crate::lines::Image;
use crate::ranges::push_range;
use crate::table::JsonTable;
use crate::wholes::push_line;
use json::Scratch;
use med_value::NoMemory;
use std::alloc::Global;

/// Lines that a write makes, and what the integer columns read in them.
#[derive(Drop)]
pub struct LinesWritten {
    pub image: Image,
    /// Line by line; None is NULL.
    pub wholes: Vec<Option<i64>>,
}

impl LinesWritten {
    /// No lines, with room for so many bytes, lines and integers. It fails for want of memory alone.
    pub(crate) fn with_room(
        alloc: Global,
        bytes: usize,
        count: usize,
        wholes: usize,
    ) -> Result<LinesWritten, NoMemory>
        ensures { IfOk result (λ made. (readers : List Reader) → IsWritten readers made []) }
    {
        Ok(LinesWritten {
            image: Image::with_room(alloc, bytes, count)?,
            wholes: Vec::with_capacity(alloc, wholes)?,
        })
    }

    /// One line more.
    pub(crate) fn push(
        &mut self,
        alloc: Global,
        scratch: &mut Scratch,
        line: &[u8],
        fields: &[Field],
    ) -> Result<(), NoMemory>
        ensures { OnOk result ((lines : List (List ℕ)) → IsWritten (map reader_of fields.now) self.old lines
            → IsWritten (map reader_of fields.now) self.new (lines ++ line.now ∷ [])) }
    {
        self.image.push(line)?;
        push_line(alloc, scratch, &mut self.wholes, line, fields)
    }

    /// The lines of a table from a place on up to another, byte for byte, none of which is read.
    pub(crate) fn push_range(
        &mut self,
        table: &JsonTable,
        from: usize,
        to: usize,
    ) -> Result<(), NoMemory>
        requires ordered { from ≤ to }
        requires within { to ≤ length table.now.lines.items }
        ensures { OnOk result ((lines : List (List ℕ)) → IsWritten (readers_in table.now) self.old lines
            → IsWritten (readers_in table.now) self.new (lines ++ slice_range (lines_in table.now) from to)) }
    {
        push_range(&mut self.image, table, from, to)?;
        self.wholes
            .extend_from_slice(wholes_between(table, from, to))?;
        Ok(())
    }

    /// These lines more.
    pub(crate) fn push_all(
        &mut self,
        alloc: Global,
        scratch: &mut Scratch,
        fresh: &[String],
        fields: &[Field],
    ) -> Result<(), NoMemory>
        ensures { OnOk result ((lines : List (List ℕ)) → IsWritten (map reader_of fields.now) self.old lines
            → IsWritten (map reader_of fields.now) self.new (lines ++ map string_bytes fresh.now)) }
    {
        for line in fresh {
            self.push(alloc, scratch, line.as_bytes(), fields)?;
        }
        Ok(())
    }
}
