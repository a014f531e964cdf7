//! Statements, as they are written. A name that was not quoted is in lower case.

use crate::expr::Expr;

/// A statement.
#[derive(Debug, Drop)]
pub enum Statement {
    Select(Select),
}

/// A core of a query: SELECT .. HAVING (SQL:2016, 7.16 <query specification>).
#[derive(Debug, Drop)]
pub struct Core {
    /// Whether DISTINCT is written.
    pub distinct: bool,
    /// What is answered.
    pub items: Vec<Item>,
    /// FROM: a comma stands between two chains; none where there is no FROM.
    pub from: Vec<Chain>,
    /// WHERE.
    pub condition: Option<Expr>,
    /// GROUP BY; none where it is not written.
    pub groups: Vec<GroupColumn>,
    /// HAVING.
    pub having: Option<Expr>,
}

/// A query: its cores, which UNION ALL joins, an order and what is cut (SQL:2016, 7.17 <query expression>).
#[derive(Debug, Drop)]
pub struct Select {
    /// The first core.
    pub core: Core,
    /// The cores behind it, each behind a UNION ALL.
    pub others: Vec<Core>,
    /// ORDER BY; none where it is not written.
    pub keys: Vec<OrderKey>,
    /// LIMIT.
    pub limit: Option<Limit>,
    /// OFFSET.
    pub offset: Option<u64>,
}

/// What a query answers (SQL:2016, 7.16 <select sublist>).
#[derive(Debug, Drop)]
pub enum Item {
    /// `*`
    All,
    /// `name . *`
    AllOf(String),
    /// `e [AS alias]`
    Expression(Expr, Option<String>),
}

/// `table [AS alias]` (SQL:2016, 7.6 <table primary>).
#[derive(Debug, Drop)]
pub struct Entry {
    pub table: String,
    pub alias: Option<String>,
}

/// One entry of FROM, and what is joined to it, from the left on (SQL:2016, 7.10 <joined table>).
#[derive(Debug, Drop)]
pub struct Chain {
    pub first: Entry,
    pub joins: Vec<Join>,
}

/// A join with one more entry.
#[derive(Debug, Drop)]
pub enum Join {
    /// `[INNER] JOIN entry ON e`
    Inner(Entry, Expr),
    /// `LEFT [OUTER] JOIN entry ON e`
    Left(Entry, Expr),
    /// `CROSS JOIN entry`
    Cross(Entry),
}

/// `[qualifier .] column`, in GROUP BY (SQL:2016, 7.13 <grouping column reference>).
#[derive(Debug, Drop)]
pub struct GroupColumn {
    pub qualifier: Option<String>,
    pub name: String,
}

/// A key of ORDER BY (SQL:2016, 10.10 <sort specification>). What is not written is as SQL has it: ASC, which puts NULL last; DESC puts it
/// first.
#[derive(Debug, Drop)]
pub struct OrderKey {
    pub key: Expr,
    pub descending: bool,
    pub nulls_first: bool,
}

/// How many rows LIMIT leaves.
#[derive(Clone, Copy, Debug, Drop)]
pub enum Limit {
    /// `ALL`
    All,
    /// So many.
    Rows(u64),
}
