//! The answer of a SELECT whose names were resolved, over the joined rows of its cores, which come one after another and are not kept:
//! WHERE, groups, DISTINCT, order and limits.
#![tactic(auto)]

pub mod answers;
mod behind;
mod filtering;
pub mod gathering;
mod group_folds;
mod grouping;
mod leaves;
mod new_folds;
mod ordering;
pub mod outputs;
mod prefixes;
mod ranking;
mod row_counts;
mod row_keys;
mod running;
mod staged;
mod staging;
mod values;
mod waiting;

pub use answers::{answer, answer_row};
pub use gathering::Gathering;
pub use outputs::AnswerFault;
