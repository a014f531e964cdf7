//! INSERT, UPDATE and DELETE whose names were resolved: their form, the definition of what they write, and the program that makes the
//! changes of a source out of them.
#![tactic(auto)]

mod cells;
pub mod changing;
mod choosing;
pub mod law;
mod making;
pub mod write;

pub use changing::changes;
pub use write::{BoundWrite, Given, RowChange, RowWrite, WriteFault, WrittenColumn};
