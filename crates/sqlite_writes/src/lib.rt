//! Writes to the tables of SQLite databases: a row taken out, a row put in, and many of them as one transaction; the changes of a write as
//! keys of rows that go and rows that come; and databases that are opened as sources.
#![tactic(auto)]

pub mod files;
pub mod law;
pub mod made;
pub mod rewriting;
pub mod rows;
pub mod split;
mod statements;
pub mod system;
pub mod watch;

pub use files::{Databases, Opened, open_database};
pub use made::memory_database;
pub use rewriting::{entries_rise, rewrite};
pub use rows::{delete_row, insert_row};
pub use split::{Split, split_changes};
pub use watch::Watch;
