//! Reads statements, by recursive descent.
//!
//! The readers are functions on lists of terminals in `specs/QueryReading.antt`, and are proved to find each tree of the grammar
//! (`proofs/QueryComplete.antt`), and no other (`proofs/QuerySound.antt`).
#![tactic(auto)]

mod query_keys;
mod query_source;
mod query_statement;
mod query_tokens;

pub use query_tokens::statement_of;
