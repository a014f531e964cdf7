//! CSV blobs as tables: what a blob is read as, the cells of its records, and what a write leaves of it.
#![tactic(auto)]

mod cells;
pub mod content;
pub mod draft;
pub mod flat_fields;
mod image;
pub mod law;
pub mod layout;
mod middle;
mod plain;
pub mod rises;
pub mod rows_draft;
pub mod scan;
pub mod table;
pub mod written;
