//! Where foreign tables are bound.

use med_value::TableNo;

/// Where a foreign table is bound: the place of its source, and its number in the source's box.
#[derive(Clone, Copy, Debug, PartialEq, Eq, Drop)]
pub struct BoundTable {
    /// The place of its source.
    pub source: usize,
    /// Its number in the source's box.
    pub number: TableNo,
}
