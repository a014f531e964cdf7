//! Expressions over rows: three-valued logic, exact whole numbers, and faults that only an answer that needs them tells.
//!
//! The parts of expressions: conjuncts, the arguments of aggregates, and which expressions are the same.
#![tactic(auto)]

pub mod aggregates;
mod arithmetic;
pub mod condition;
pub mod copy;
pub mod evaluate;
pub mod expr;
pub mod law;
mod like;
mod logic;
pub mod risk;
pub mod same;
mod tally;
pub mod verdicts;
mod view;

pub use aggregates::arguments;
pub use condition::conjuncts;
pub use evaluate::{eval, eval_class};
pub use expr::{EvalFault, Expr, Fault, SetFunction};
pub use risk::is_risky;
pub use same::is_same;
pub use verdicts::{verdict, verdict_class};
