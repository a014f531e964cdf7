//! SQLite databases as sources of foreign tables.
#![tactic(auto)]

mod counts;
mod lookups;
mod numbers;
mod promises;
mod rows;
mod scans;
mod watched;
pub mod wrapper;
mod writing;

pub use wrapper::SqliteWrapper;
