//! Foreign tables, as statements name them.

use med_value::{ColumnDef, TableNo};

/// A foreign table as binding looks at it: it borrows the name and the columns, and says where the rows are.
#[derive(Clone, Copy)]
pub struct TableView<'a> {
    /// The name, folded to lower case where it was not quoted.
    pub name: &'a str,
    /// The columns, in their order.
    pub columns: &'a [ColumnDef],
    /// The place of its source.
    pub source: usize,
    /// Its number in the source's box.
    pub number: TableNo,
}
