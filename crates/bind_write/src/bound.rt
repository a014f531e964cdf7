//! Writes with their names resolved.

use med_binder::BoundQuery;
use med_value::TableNo;
use med_write::BoundWrite;

/// A write to a table of a catalogue: its names are places, and its types fit.
#[derive(Debug, Drop)]
pub struct TableWrite {
    /// The place of the table in the catalogue.
    pub place: usize,
    /// The place of the table's source.
    pub source: usize,
    /// The table's number in its source's box.
    pub table: TableNo,
    /// What is done to its rows.
    pub write: BoundWrite,
    /// The query of an INSERT that has one.
    pub query: Option<BoundQuery>,
}
