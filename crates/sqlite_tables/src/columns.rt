//! Columns of remote tables, by the places that they have in a row of a page.
use med_value::ColType;

/// A column of a remote table.
#[derive(Clone, Copy, Debug, PartialEq, Eq)]
pub struct PageColumn {
    /// Its place in a row of a page, counted from 0: the column at place 0 is the key.
    pub place: usize,
    /// Its type.
    pub kind: ColType,
}
