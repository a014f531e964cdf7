//! Why a query has no answer.
use thiserror::Error;
use tri_expr::EvalFault;

/// Why a query over tables has no answer.
#[derive(Clone, Copy, Debug, PartialEq, Eq, Error)]
pub enum AnswerFault {
    /// An expression has a fault on some row or group, or memory was refused.
    #[error("{0}")]
    Evaluation(EvalFault),
    /// A core of the query groups over more than 2^62 kept rows.
    #[error("too many rows")]
    TooManyRows,
}
