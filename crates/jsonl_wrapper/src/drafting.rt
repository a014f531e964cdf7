//! The way of a table into a draft, and out of it.
ghost use Rattle.std.specs.Prelude.{◌≡◌, ◌≤◌, ◌*◌, true, ℕ, List, length, IfOk, IfErr};
ghost use Rattle.std.specs.List.{list_all};
ghost use Rattle.wrapper_parts.specs.Splices.{back_of};
ghost use Rattle.jsonl_wrapper.specs.Lines.{is_movable};
ghost use Rattle.jsonl_wrapper.specs.Tables.{readers_in};
ghost use Rattle.jsonl_wrapper.specs.Rises.{first_column, AreTold};
ghost use Rattle.jsonl_wrapper.specs.Changes.{Exchanges};
ghost use Rattle.jsonl_wrapper.specs.Drafts.{places_after};
ghost use Rattle.jsonl_wrapper.specs.Keeping.{AreSpliced, IsAgain, IsDraft, Leaves, Makes};

use crate::draft::JsonDraft;
use crate::exchange::{Exchange, move_behind};
use crate::lines::{Image, Span};
use crate::made::LinesWritten;
use crate::table::JsonTable;
use crate::wholes::count_wholes;
use wrapper_parts::Splice;

// The bytes, the places and the integers of a table; and these with what is to come into the place of a range of each.
#[derive(Drop)]
struct Parts {
    content: Vec<u8>,
    lines: Vec<Span>,
    wholes: Vec<Option<i64>>,
}

#[derive(Drop)]
struct Splices {
    content: Splice<u8>,
    lines: Splice<Span>,
    wholes: Splice<Option<i64>>,
}

// The ranges of an exchange, each to be replaced by what comes; a line has so many integers. Where memory is wanting all of it comes back.
fn splices_of(parts: Parts, exchange: Exchange, width: usize) -> Result<Splices, Parts>
    requires cut { exchange.first ≤ exchange.end }
    requires inside { exchange.end ≤ length parts.content.items }
    requires order { exchange.from ≤ exchange.to }
    requires within { exchange.to ≤ length parts.lines.items }
    requires cells { exchange.to * width ≤ length parts.wholes.items }
    ensures ok { IfOk result (λ s. AreSpliced parts exchange width s) }
    ensures content { IfErr result (λ back. back.content.items ≡ parts.content.items) }
    ensures lines { IfErr result (λ back. back.lines.items ≡ parts.lines.items) }
    ensures wholes { IfErr result (λ back. back.wholes.items ≡ parts.wholes.items) }
{
    let Parts {
        content,
        lines,
        wholes,
    } = parts;
    let (from, to) = (exchange.from, exchange.to);
    let (first, end) = (exchange.first, exchange.end);
    let LinesWritten {
        image,
        wholes: cells,
    } = exchange.made;
    let Image {
        content: bytes,
        lines: places,
    } = image;
    let content = match Splice::new(content, first, end, bytes) {
        Ok(content) => content,
        Err(content) => return Err(Parts {
            content,
            lines,
            wholes,
        }),
    };
    let lines = match Splice::new(lines, from, to, places) {
        Ok(lines) => lines,
        Err(lines) => return Err(Parts {
            content: content.given_up(),
            lines,
            wholes,
        }),
    };
    match Splice::new(wholes, from * width, to * width, cells) {
        Ok(wholes) => Ok(Splices {
            content,
            lines,
            wholes,
        }),
        Err(wholes) => Err(Parts {
            content: content.given_up(),
            lines: lines.given_up(),
            wholes,
        }),
    }
}

/// A draft of a table for an exchange. `stays` tells whether the first column is known to rise after it. It fails for want of memory alone,
/// and then the table comes back.
pub(crate) fn draft_of(
    table: JsonTable,
    exchange: Exchange,
    stays: bool,
) -> Result<JsonDraft, JsonTable>
    requires { (lines : List (List ℕ)) × Exchanges table exchange lines
        × (stays ≡ true → AreTold (first_column (readers_in table) lines)) }
    ensures ok { IfOk result (λ d. IsDraft table exchange d) }
    ensures err { IfErr result (λ again. IsAgain table again) }
{
    let width = count_wholes(&table.fields);
    let (end, base) = (exchange.end, exchange.base);
    let JsonTable {
        remote,
        fields,
        content,
        lines,
        is_image,
        wholes,
        rises,
        buffer,
    } = table;
    match splices_of(
        Parts {
            content,
            lines,
            wholes,
        },
        exchange,
        width,
    ) {
        Ok(splices) => {
            let Splices {
                content,
                lines,
                wholes,
            } = splices;
            Ok(JsonDraft {
                remote,
                fields,
                content,
                lines,
                wholes,
                end,
                base,
                is_image,
                rises,
                stays,
                buffer,
            })
        }
        Err(
            Parts {
                content,
                lines,
                wholes,
            },
        ) => Err(JsonTable {
            remote,
            fields,
            content,
            lines,
            is_image,
            wholes,
            rises,
            buffer,
        }),
    }
}

// The places of the lines after a write.
fn places_kept(lines: Splice<Span>, end: usize, base: usize) -> Vec<Span>
    requires { list_all (is_movable end base) (back_of lines) ≡ true }
    ensures { result.items ≡ places_after lines end base }
{
    let behind = lines.back().len();
    let mut places = lines.kept();
    let at = places.len() - behind;
    move_behind(&mut places, at, end, base);
    places
}

/// The table with the changes of its draft.
pub(crate) fn kept(draft: JsonDraft) -> JsonTable
    ensures { Makes draft result }
{
    let JsonDraft {
        remote,
        fields,
        content,
        lines,
        wholes,
        end,
        base,
        is_image: _,
        rises: _,
        stays,
        buffer,
    } = draft;
    JsonTable {
        remote,
        fields,
        content: content.kept(),
        lines: places_kept(lines, end, base),
        is_image: true,
        wholes: wholes.kept(),
        rises: stays,
        buffer,
    }
}

/// The table without the changes of its draft.
pub(crate) fn given_up(draft: JsonDraft) -> JsonTable
    ensures { Leaves draft result }
{
    let JsonDraft {
        remote,
        fields,
        content,
        lines,
        wholes,
        end: _,
        base: _,
        is_image,
        rises,
        stays: _,
        buffer,
    } = draft;
    JsonTable {
        remote,
        fields,
        content: content.given_up(),
        lines: lines.given_up(),
        is_image,
        wholes: wholes.given_up(),
        rises,
        buffer,
    }
}
