//! Writes whose names were resolved, the changes that they ask of a source, and why they are refused.
use fdw_api::RowId;
use med_value::{ColType, Row};
use thiserror::Error;
use tri_expr::{EvalFault, Expr};

/// A column of the table that is written.
#[derive(Clone, Copy, Debug, PartialEq, Eq)]
pub struct WrittenColumn {
    /// The type.
    pub kind: ColType,
    /// Whether a written row must have a value here.
    pub not_null: bool,
}

/// The rows that an INSERT is given.
#[derive(Debug, Drop)]
pub enum Given {
    /// VALUES: a list of expressions for each row.
    Values(Vec<Vec<Expr>>),
    /// The rows of a query's answer.
    Answer,
}

/// What a write does to rows (SQL standard, <insert statement>, <update statement: searched>, <delete statement: searched>).
#[derive(Debug, Drop)]
pub enum RowWrite {
    /// INSERT.
    Insert {
        /// For each column of the table the place of its value in a given row, counted from 0; none where the column is not named.
        places: Vec<Option<usize>>,
        /// The given rows.
        given: Given,
    },
    /// UPDATE.
    Update {
        /// The conjuncts of WHERE.
        conditions: Vec<Expr>,
        /// For each column of the table what SET says of it, over the old row; none where the old cell stays.
        cells: Vec<Option<Expr>>,
    },
    /// DELETE.
    Delete {
        /// The conjuncts of WHERE.
        conditions: Vec<Expr>,
    },
}

/// A write to a table.
#[derive(Debug, Drop)]
pub struct BoundWrite {
    /// The columns of the table.
    pub columns: Vec<WrittenColumn>,
    /// What is done to its rows.
    pub rows: RowWrite,
}

/// A change of one row.
#[derive(Debug, Drop)]
pub enum RowChange {
    /// A new row.
    Inserted(Row),
    /// Another row in the place of one.
    Updated(RowId, Row),
    /// A row that goes.
    Deleted(RowId),
}

/// Why a write is not done.
#[derive(Clone, Copy, Debug, PartialEq, Eq, Error)]
pub enum WriteFault {
    /// A fault of WHERE on a row of the table, or of a cell that is written.
    #[error("{0}")]
    Evaluation(EvalFault),
    /// 23502: a written row has NULL in a NOT NULL column.
    #[error("NULL in a NOT NULL column")]
    NotNull,
}
