//! Lists of rows in memory, as a source of foreign tables.
#![tactic(auto)]

mod changes;
mod held_rows;
mod held_tables;
pub mod list;
mod rises;
mod runs;
mod scans;
mod sorting;
mod spans;

pub use list::{ListTable, ListWrapper};
