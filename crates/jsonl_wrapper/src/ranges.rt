//! Lines of a table that stay, as ranges of its bytes.
ghost use Rattle.std.specs.Prelude.{◌≡◌, ◌++◌, ◌≤◌, ℕ, List, true, length, map, take, OnOk};
ghost use Rattle.std.specs.List.{list_all, slice_range};
ghost use Rattle.jsonl_wrapper.specs.Lines.{text_of, moved, is_movable, IsImage};
ghost use Rattle.jsonl_wrapper.specs.Tables.{lines_in};

use crate::lines::{Image, Span, line_at};
use crate::table::JsonTable;
use med_value::NoMemory;

/// Where the line of a place begins, or what stands behind the last one.
pub(crate) fn start_of(table: &JsonTable, at: usize) -> usize
    requires image { table.now.is_image ≡ true }
    requires within { at ≤ length table.now.lines.items }
    ensures { result ≡ length (text_of (take at (lines_in table.now))) }
{
    if at < table.lines.len() {
        table.lines[at].start
    } else {
        table.content.len()
    }
}

/// Adds places that are as far behind `to` as these are behind `from`.
fn push_moved(lines: &mut Vec<Span>, spans: &[Span], from: usize, to: usize) -> Result<(), NoMemory>
    requires { list_all (is_movable from to) spans.now ≡ true }
    ensures { OnOk result (lines.new.items ≡ lines.old.items ++ map (moved from to) spans.now) }
{
    if from == to {
        lines.extend_from_slice(spans)?;
        return Ok(());
    }
    for span in spans {
        lines.push(Span {
            start: span.start - from + to,
            end: span.end - from + to,
        })?;
    }
    Ok(())
}

/// Adds lines of a table whose bytes are its lines as they are written, as one range of them.
fn push_bytes(image: &mut Image, table: &JsonTable, from: usize, to: usize) -> Result<(), NoMemory>
    requires image { table.now.is_image ≡ true }
    requires ordered { from ≤ to }
    requires within { to ≤ length table.now.lines.items }
    ensures { OnOk result ((lines : List (List ℕ)) → IsImage image.old.content.items image.old.lines.items lines
        → IsImage image.new.content.items image.new.lines.items (lines ++ slice_range (lines_in table.now) from to)) }
{
    let first = start_of(table, from);
    let end = start_of(table, to);
    let base = image.content.len();
    image.content.extend_from_slice(&table.content[first..end])?;
    let _size = image.content.len();
    push_moved(&mut image.lines, &table.lines[from..to], first, base)?;
    Ok(())
}

/// Adds lines of a table, one by one.
fn push_each(image: &mut Image, table: &JsonTable, from: usize, to: usize) -> Result<(), NoMemory>
    requires ordered { from ≤ to }
    requires within { to ≤ length table.now.lines.items }
    ensures { OnOk result ((lines : List (List ℕ)) → IsImage image.old.content.items image.old.lines.items lines
        → IsImage image.new.content.items image.new.lines.items (lines ++ slice_range (lines_in table.now) from to)) }
{
    for at in from..to {
        image.push(line_at(&table.content, table.lines[at]))?;
    }
    Ok(())
}

/// Adds the lines from a place on up to another, byte for byte.
pub(crate) fn push_range(
    image: &mut Image,
    table: &JsonTable,
    from: usize,
    to: usize,
) -> Result<(), NoMemory>
    requires ordered { from ≤ to }
    requires within { to ≤ length table.now.lines.items }
    ensures { OnOk result ((lines : List (List ℕ)) → IsImage image.old.content.items image.old.lines.items lines
        → IsImage image.new.content.items image.new.lines.items (lines ++ slice_range (lines_in table.now) from to)) }
{
    if table.is_image {
        push_bytes(image, table, from, to)
    } else {
        push_each(image, table, from, to)
    }
}
