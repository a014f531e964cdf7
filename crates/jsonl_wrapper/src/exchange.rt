//! What a write exchanges of a table: a range of its lines, of its bytes and of its integers.
ghost use Rattle.std.specs.Prelude.{◌≡◌, ◌≤◌, ◌<◌, ◌+◌, ◌++◌, ◌^◌, true, length, map, take, drop};
ghost use Rattle.std.specs.List.{list_all};
ghost use Rattle.jsonl_wrapper.specs.Lines.{moved, is_movable};
ghost use Rattle.jsonl_wrapper.specs.Changes.{IsCut};

use crate::lines::{Image, Span};
use crate::made::LinesWritten;
use crate::middle::Middle;
use crate::ranges::start_of;
use crate::table::JsonTable;

/// The bytes of a range of lines: from this one up to that.
#[derive(Clone, Copy)]
pub struct Cut {
    pub first: usize,
    pub end: usize,
}

/// The lines that come into the place of those from one up to another, with the bytes from `first` up to `end`. The bytes behind these are
/// moved to `base`.
#[derive(Drop)]
pub struct Exchange {
    pub from: usize,
    pub to: usize,
    pub first: usize,
    pub end: usize,
    pub base: usize,
    pub made: LinesWritten,
}

/// The bytes of the lines from a place on up to another; all bytes, where the content is not the lines as they are written.
pub(crate) fn cut_of(table: &JsonTable, from: usize, to: usize) -> Cut
    requires order { from ≤ to }
    requires within { to ≤ length table.now.lines.items }
    ensures { IsCut table.now from to result }
{
    if table.is_image {
        Cut {
            first: start_of(table, from),
            end: start_of(table, to),
        }
    } else {
        Cut {
            first: 0,
            end: table.content.len(),
        }
    }
}

// Moves places that are behind `from` as far behind `to`.
fn move_each(spans: &mut [Span], from: usize, to: usize)
    requires { list_all (is_movable from to) spans.old ≡ true }
    ensures { spans.new ≡ map (moved from to) spans.old }
{
    for span in spans.iter_mut() {
        *span = Span {
            start: span.start - from + to,
            end: span.end - from + to,
        };
    }
}

/// Moves the places from one on, which are behind `from`, as far behind `to`.
pub(crate) fn move_behind(spans: &mut Vec<Span>, at: usize, from: usize, to: usize)
    requires within { at ≤ length spans.old.items }
    requires movable { list_all (is_movable from to) (drop at spans.old.items) ≡ true }
    ensures { spans.new.items ≡ take at spans.old.items ++ map (moved from to) (drop at spans.old.items) }
{
    if from != to {
        move_each(spans.slice_mut(at..), from, to);
    }
}

/// The exchange of the lines of a range, and of the bytes of these, for a middle.
pub(crate) fn exchange_of(middle: Middle, cut: Cut) -> Exchange
    requires movable { list_all (is_movable 0 cut.first) middle.made.image.lines.items ≡ true }
    requires room { cut.first + length middle.made.image.content.items < 2 ^ 64 }
    ensures from { result.from ≡ middle.from }
    ensures to { result.to ≡ middle.to }
    ensures first { result.first ≡ cut.first }
    ensures end { result.end ≡ cut.end }
    ensures base { result.base ≡ cut.first + length middle.made.image.content.items }
    ensures content { result.made.image.content.items ≡ middle.made.image.content.items }
    ensures lines { result.made.image.lines.items ≡ map (moved 0 cut.first) middle.made.image.lines.items }
    ensures wholes { result.made.wholes.items ≡ middle.made.wholes.items }
{
    let Middle { from, to, made } = middle;
    let LinesWritten { image, wholes } = made;
    let Image { content, mut lines } = image;
    move_behind(&mut lines, 0, 0, cut.first);
    let base = cut.first + content.len();
    Exchange {
        from,
        to,
        first: cut.first,
        end: cut.end,
        base,
        made: LinesWritten {
            image: Image { content, lines },
            wholes,
        },
    }
}
