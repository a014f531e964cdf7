//! Queries with their names resolved.

use med_query::Select;
use med_value::{ColType, TableNo};

/// An entry of FROM: the table that it stands for.
#[derive(Clone, Copy, Debug, PartialEq, Eq, Drop)]
pub struct BoundEntry {
    /// The place of the table in the list of tables.
    pub place: usize,
    /// The place of the table's source.
    pub source: usize,
    /// The table's number in its source's box.
    pub table: TableNo,
    /// How many columns it has.
    pub width: usize,
}

/// A query over tables: its names are places, and its types fit.
#[derive(Debug, Drop)]
pub struct BoundQuery {
    /// The names of the answer's columns.
    pub names: Vec<String>,
    /// The entries of FROM in their order, all chains and all cores together. The query counts its tables by them, from 0.
    pub entries: Vec<BoundEntry>,
    /// The query.
    pub select: Select,
    /// The types of what each core answers; none for a NULL literal.
    pub kinds: Vec<Vec<Option<ColType>>>,
}
