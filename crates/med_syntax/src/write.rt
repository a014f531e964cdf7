//! Statements that write rows, as they are written (SQL:2016, part 2, 14 "Data manipulation"). A name that was not quoted is in lower case.

use crate::{Entry, Expr, Statement};

/// A statement that adds, changes or takes out rows of one table.
#[derive(Debug, Drop)]
pub enum WriteStatement {
    /// `INSERT INTO ..`
    Insert(Insert),
    /// `UPDATE ..`
    Update(Update),
    /// `DELETE FROM ..`
    Delete(Delete),
}

/// `INSERT INTO table [( columns )] given` (SQL:2016, <insert statement>).
#[derive(Debug, Drop)]
pub struct Insert {
    pub table: String,
    /// None where no list of columns is written.
    pub columns: Option<Vec<String>>,
    /// Where the rows come from.
    pub given: Given,
}

/// Where the rows of an INSERT come from (SQL:2016, <insert columns and source>).
#[derive(Debug, Drop)]
pub enum Given {
    /// `VALUES ( e {, e} ) {, ( e {, e} )}`
    Values(Vec<Vec<Expr>>),
    /// A query.
    Rows(Statement),
}

/// `UPDATE entry SET sets [WHERE condition]` (SQL:2016, <update statement: searched>).
#[derive(Debug, Drop)]
pub struct Update {
    pub entry: Entry,
    pub sets: Vec<SetClause>,
    /// WHERE.
    pub condition: Option<Expr>,
}

/// `column = value`, in SET (SQL:2016, <set clause>).
#[derive(Debug, Drop)]
pub struct SetClause {
    pub column: String,
    pub value: Expr,
}

/// `DELETE FROM entry [WHERE condition]` (SQL:2016, <delete statement: searched>).
#[derive(Debug, Drop)]
pub struct Delete {
    pub entry: Entry,
    /// WHERE.
    pub condition: Option<Expr>,
}
