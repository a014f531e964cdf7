//! What scans are offered: the conditions of a query that are tests of one column of an entry.
//!
//! Nested loops over scans that choose their rows, against the joined rows of their tables.
//!
//! The columns that a query reads of its tables: over rows with the same cells there it has the same answers, faults and counts.
#![tactic(auto)]

pub mod column_laws;
pub mod law;
pub mod loop_laws;
pub mod offers;
pub mod tests;

pub use offers::{EntryOffer, offer_entry, still_checked};
pub use tests::{ColumnTest, column_test};
