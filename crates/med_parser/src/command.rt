//! What a line may ask: a statement on data, one that writes rows, one on a cursor, or one on the objects of the catalogue.

use med_syntax::{CursorStatement, Ddl, Statement, WriteStatement};

/// A statement of any kind.
#[derive(Drop)]
pub enum Command {
    /// A statement on data.
    Data(Statement),
    /// A statement that writes rows.
    Rows(WriteStatement),
    /// A statement on a cursor.
    Cursor(CursorStatement),
    /// A statement on the objects of the catalogue.
    Ddl(Ddl),
}
