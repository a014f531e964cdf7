//! A table of which a write is under way.
ghost use Rattle.std.specs.Prelude.{◌≡◌, ◌<◌, true, length, flat_map, IfOk};
ghost use Rattle.csv_tables.specs.CsvRecords.{is_header};
ghost use Rattle.csv_tables.specs.Flat.{header_in};

use crate::layout::Layout;
use crate::rows_draft::RowsDraft;
use crate::table::CsvTable;
use csv::ByteRecord;
use med_value::NoMemory;
use std::alloc::Global;

/// A table of which a write is under way: all that can fail is done, but for the write of its image.
#[derive(Drop)]
pub struct TableDraft {
    pub(crate) remote: String,
    pub(crate) layout: Layout,
    /// The header as it was, and as it is once the write is kept.
    pub(crate) before: Option<ByteRecord>,
    pub(crate) after: Option<ByteRecord>,
    pub(crate) rows: RowsDraft,
    /// The bytes with which the image begins, and whether the text of the records stands behind them.
    pub(crate) head: Vec<u8>,
    pub(crate) in_pieces: bool,
    ghost sized: { rows.width ≡ length layout.kinds.items },
    ghost named: { 0 < length layout.names.items },
    ghost headed: { is_header layout.header (header_in before) ≡ true },
    ghost stays_headed: { is_header layout.header (header_in after) ≡ true },
}

impl TableDraft {
    ghost use Rattle.csv_tables.specs.Drafted.{IsBefore, IsAfter, image_of};

    /// The image, in pieces.
    pub fn pieces(&self, alloc: Global) -> Result<Vec<&[u8]>, NoMemory>
        ensures { IfOk result (λ pieces. flat_map (λ piece. piece.now) pieces.items ≡ image_of self.now) }
    {
        let mut pieces = Vec::with_capacity(alloc, 4)?;
        pieces.push(self.head.as_slice())?;
        if self.in_pieces {
            let (front, middle, back) = self.rows.text();
            pieces.push(front)?;
            pieces.push(middle)?;
            pieces.push(back)?;
        }
        Ok(pieces)
    }

    /// The table with its changes. It cannot fail.
    pub fn kept(self) -> CsvTable
        ensures { IsAfter self result }
    {
        CsvTable {
            remote: self.remote,
            layout: self.layout,
            header: self.after,
            rows: self.rows.kept(),
        }
    }

    /// The table as it was. It cannot fail.
    pub fn given_up(self) -> CsvTable
        ensures { IsBefore self result }
    {
        CsvTable {
            remote: self.remote,
            layout: self.layout,
            header: self.before,
            rows: self.rows.given_up(),
        }
    }
}
