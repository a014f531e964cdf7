//! Statements on cursors, as they are written (SQL:2016, part 2, 14 "Data manipulation"). A name that was not quoted is in lower case.

use crate::Statement;

/// A statement on a cursor of the session.
#[derive(Debug, Drop)]
pub enum CursorStatement {
    /// `DECLARE ..`
    Declare(Declare),
    /// `FETCH ..`
    Fetch(Fetch),
    /// `CLOSE ..`
    Close(Close),
}

/// `DECLARE name [INSENSITIVE] [NO SCROLL] CURSOR [WITH HOLD] FOR query` (SQL:2016, 14.1 <declare cursor>). Each cursor of this profile
/// is so, written or not.
#[derive(Debug, Drop)]
pub struct Declare {
    pub name: String,
    pub query: Statement,
}

/// `FETCH [NEXT | num | ALL] [FROM | IN] name` (SQL:2016, 14.5 <fetch statement>).
#[derive(Debug, Drop)]
pub struct Fetch {
    pub count: FetchCount,
    pub name: String,
}

/// How many rows FETCH asks for.
#[derive(Clone, Copy, Debug, Drop)]
pub enum FetchCount {
    /// So many: one where NEXT is written, or nothing.
    Rows(u64),
    /// `ALL` that are left.
    All,
}

/// `CLOSE name` (SQL:2016, 14.6 <close statement>).
#[derive(Debug, Drop)]
pub struct Close {
    pub name: String,
}
