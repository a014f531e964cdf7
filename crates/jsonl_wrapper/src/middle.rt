//! The lines that come into the place of a range of a table's lines.
ghost use Rattle.std.specs.Prelude.{◌≡◌, ◌≤◌, ◌<◌, ◌+◌, ◌++◌, [], ℕ, List, length, map, string_bytes, IfOk, OnOk};
ghost use Rattle.std.specs.List.{slice_range};
ghost use Rattle.jsonl_wrapper.specs.Tables.{readers_in, lines_in};
ghost use Rattle.jsonl_wrapper.specs.Changes.{IsWritten, Leads, Leaves, Replaces, set_lines};

use crate::made::LinesWritten;
use crate::table::JsonTable;
use crate::wholes::count_wholes;
use json::Scratch;
use med_value::NoMemory;
use std::alloc::Global;

/// A range of a table's lines, from one up to another, and the lines that come into its place.
#[derive(Drop)]
pub struct Middle {
    pub from: usize,
    pub to: usize,
    pub made: LinesWritten,
}

// No lines, with room for so many new ones of so many bytes, and for those of a table that is written as a whole.
fn room_for(
    alloc: Global,
    table: &JsonTable,
    fresh: usize,
    size: usize,
) -> Result<LinesWritten, NoMemory>
    ensures { IfOk result (λ made. IsWritten (readers_in table.now) made []) }
{
    // One byte more for the last line of a content, which may have no line feed.
    let (bytes, lines, wholes) = if table.is_image {
        (0, 0, 0)
    } else {
        (
            table.content.len().saturating_add(1),
            table.lines.len(),
            table.wholes.len(),
        )
    };
    let cells = fresh.saturating_mul(count_wholes(&table.fields));
    LinesWritten::with_room(
        alloc,
        bytes.saturating_add(size),
        lines.saturating_add(fresh),
        wholes.saturating_add(cells),
    )
}

impl Middle {
    /// No line in the place of none, with room for so many new lines of so many bytes, and for those of a table that is written as a whole.
    /// It fails for want of memory alone.
    pub(crate) fn with_room(
        alloc: Global,
        table: &JsonTable,
        fresh: usize,
        size: usize,
    ) -> Result<Middle, NoMemory>
        ensures none { IfOk result (λ m. Leads table.now m []) }
        ensures to { IfOk result (λ m. m.to ≡ 0) }
    {
        let made = room_for(alloc, table, fresh, size)?;
        Ok(Middle {
            from: 0,
            to: 0,
            made,
        })
    }

    /// Goes on to a place of the table: the lines up to it stay. In front of the first change they are left where they stand, if the
    /// content is the lines as they are written.
    pub(crate) fn go_to(&mut self, table: &JsonTable, place: usize) -> Result<(), NoMemory>
        requires ordered { self.old.to ≤ place }
        requires within { place ≤ length table.now.lines.items }
        ensures leads { OnOk result ((lines : List (List ℕ)) → Leads table.now self.old lines
            → Leads table.now self.new (lines ++ slice_range (lines_in table.now) self.old.to place)) }
        ensures to { OnOk result (self.new.to ≡ place) }
    {
        let is_first = table.is_image && self.from == self.to;
        if is_first {
            self.from = place;
            self.to = place;
            return Ok(());
        }
        self.made.push_range(table, self.to, place)?;
        self.to = place;
        Ok(())
    }

    /// Puts another line, or none, into the place of the next one.
    pub(crate) fn put(
        &mut self,
        alloc: Global,
        scratch: &mut Scratch,
        table: &JsonTable,
        line: Option<String>,
    ) -> Result<(), NoMemory>
        requires { self.old.to < length table.now.lines.items }
        ensures leads { OnOk result ((lines : List (List ℕ)) → Leads table.now self.old lines
            → Leads table.now self.new (lines ++ set_lines line)) }
        ensures to { OnOk result (self.new.to ≡ self.old.to + 1) }
    {
        if let Some(line) = line {
            self.made
                .push(alloc, scratch, line.as_bytes(), &table.fields)?;
        }
        self.to += 1;
        Ok(())
    }

    /// Adds new lines behind those of the table. Where there is none, the lines behind the last change are left where they stand, if the
    /// content is the lines as they are written.
    pub(crate) fn close(
        &mut self,
        alloc: Global,
        scratch: &mut Scratch,
        table: &JsonTable,
        fresh: &[String],
    ) -> Result<(), NoMemory>
        requires { self.old.to ≤ length table.now.lines.items }
        ensures { OnOk result ((lines : List (List ℕ)) → Leaves table.now self.old lines
            → Replaces table.now self.new (lines ++ map string_bytes fresh.now)) }
    {
        if table.is_image && fresh.is_empty() {
            return Ok(());
        }
        self.go_to(table, table.lines.len())?;
        self.made.push_all(alloc, scratch, fresh, &table.fields)
    }
}
