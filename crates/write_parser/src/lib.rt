//! Reads and writes the statements that write rows:
//! `INSERT INTO name [( name {, name} )] (VALUES ( expr {, expr} ) {, ( expr {, expr} )} | select)`,
//! `UPDATE entry SET name = expr {, name = expr} [WHERE expr]` and `DELETE FROM entry [WHERE expr]`, each with perhaps a semicolon.
//!
//! The grammar stands apart from the readers: `specs/WriteGrammar.antt` says which tokens spell which tree. The readers are functions on
//! lists of terminals in `specs/WriteReading.antt`, and are proved to find each of these trees, and no other; the query of an INSERT is
//! read by the crate of queries.
//!
//! Reads the statements on cursors: `DECLARE name [INSENSITIVE] [NO SCROLL] CURSOR [WITH HOLD] FOR select`,
//! `FETCH [NEXT | num | ALL] [FROM | IN] name` and `CLOSE name`, each with perhaps a semicolon.
//!
//! The grammar stands apart from the readers: `specs/CursorGrammar.antt` says which tokens spell which tree. The readers are functions on
//! lists of tokens in `specs/CursorReading.antt`, and are proved to find each of these trees (`proofs/CursorComplete.antt`), and no other
//! (`proofs/CursorSound.antt`); the query of DECLARE is read by the crate of queries.
//!
//! FETCH 0 is a statement of the grammar: `is_fetch_zero` tells it, so that it can be refused as what it is.
#![tactic(auto)]

mod cursor_laws;
mod cursor_statement;
mod cursor_tokens;
mod write_clauses;
mod write_laws;
mod write_lists;
mod write_tokens;
mod write_words;

pub use cursor_laws::{no_statement, one_cursor};
pub use cursor_statement::{cursor_of, is_count_in_range, is_fetch_zero};
pub use write_laws::one_write;
pub use write_tokens::write_of;
