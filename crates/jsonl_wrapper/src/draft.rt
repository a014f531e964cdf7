//! Tables of which a write is under way.
ghost use Rattle.std.specs.Prelude.{◌≡◌, true, map, string_bytes};
ghost use Rattle.std.specs.List.{list_all};
ghost use Rattle.blob_store.specs.Names.{is_blob_name};
ghost use Rattle.wrapper_parts.specs.Splices.{before_of, after_of, back_of};
ghost use Rattle.jsonl_wrapper.specs.Fields.{reader_of, members_differ};
ghost use Rattle.jsonl_wrapper.specs.Lines.{IsImage, is_movable};
ghost use Rattle.jsonl_wrapper.specs.Wholes.{whole_is, wholes_of};
ghost use Rattle.jsonl_wrapper.specs.Rises.{first_column, AreTold};
ghost use Rattle.jsonl_wrapper.specs.Drafts.{places_after, lines_before, lines_after};

use crate::fields::Field;
use crate::lines::Span;
use crate::reading::LineBuffer;
use wrapper_parts::Splice;

/// A table with what is to come into the place of its bytes, its places and its integers. The places behind those are to be moved, from
/// behind `end` to behind `base`. It stands as it was, and the room for what comes is there.
#[derive(Drop)]
pub struct JsonDraft {
    pub remote: String,
    pub fields: Vec<Field>,
    pub content: Splice<u8>,
    pub lines: Splice<Span>,
    pub wholes: Splice<Option<i64>>,
    pub end: usize,
    pub base: usize,
    /// Whether the bytes are the lines as they are written, and whether the first column is known to rise, before the write.
    pub is_image: bool,
    pub rises: bool,
    /// Whether the first column is known to rise after it.
    pub stays: bool,
    pub buffer: LineBuffer,
    pub ghost named: { is_blob_name (string_bytes remote) ≡ true },
    pub ghost apart: { members_differ (map reader_of fields.items) ≡ true },
    pub ghost image: { is_image ≡ true → IsImage (before_of content) (before_of lines) (lines_before content lines) },
    pub ghost kept: { map whole_is (before_of wholes) ≡ wholes_of (map reader_of fields.items) (lines_before content lines) },
    pub ghost risen: { rises ≡ true → AreTold (first_column (map reader_of fields.items) (lines_before content lines)) },
    pub ghost movable: { list_all (is_movable end base) (back_of lines) ≡ true },
    pub ghost image_after: { IsImage (after_of content) (places_after lines end base) (lines_after content lines end base) },
    pub ghost kept_after: { map whole_is (after_of wholes) ≡ wholes_of (map reader_of fields.items) (lines_after content lines end base) },
    pub ghost risen_after: { stays ≡ true → AreTold (first_column (map reader_of fields.items) (lines_after content lines end base)) },
}
