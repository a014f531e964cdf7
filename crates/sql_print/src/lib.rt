//! Writes statements out, so that what is written is read as the same tree.
//!
//! What a tree is written by stands in `specs/QueryPrinting.antt`: of a word that is optional in the text, it has the printed spelling. The
//! parts that statements of other kinds have in common with queries are written by `write_keyword`, `write_entry`, `write_condition` and
//! `write_statement`.
//!
//! Whether the numbers of queries are in range (SQL:2016, <exact numeric literal>: a value of the type of whole numbers).
//!
//! The definitions stand with the grammar of queries (`QueryCauses.antt`): these functions are their tests.
//!
//! Writes the statements that write rows out, so that what is written is read as the same tree, and says whether their numbers are in
//! range.
//!
//! What a tree is written by stands in `specs/WritePrinting.antt`: of a word that is optional in the text, it has the printed spelling.
//!
//! Writes the statements on cursors out, so that what is written is read as the same tree, and says whether their numbers are in range.
//!
//! What a tree is written by stands in `specs/CursorPrinting.antt`.
#![tactic(auto)]

mod cursor_laws;
mod cursor_range;
pub mod cursor_writer;
mod numbers;
mod query_items;
mod query_keys;
mod query_laws;
mod query_source;
mod query_words;
pub mod query_writer;
mod write_laws;
mod write_lists;
mod write_range;
pub mod write_writer;

pub use cursor_laws::printed_cursor;
pub use cursor_range::is_cursor_in_range;
pub use numbers::{is_condition_in_range, is_statement_in_range};
pub use query_laws::printed_statement;
pub use query_source::write_entry;
pub use query_words::{Keyword, write_keyword};
pub use query_writer::{write_condition, write_statement};
pub use write_laws::printed_write;
pub use write_range::is_write_in_range;
