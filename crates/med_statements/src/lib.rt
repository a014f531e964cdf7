//! Laws of the types of written rows: what the binder of writes has to show to those who do them.
//!
//! `specs/Typed.antt` says what is asked of the statement's texts and of the tables that are read.
//!
//! The texts of statements that write rows, as they were read: none has U+0000.
//!
//! Queries answered from the boxes of their sources: bound over the tables of a catalogue, and run by loops; and begun, for cursors.
//!
//! INSERT, UPDATE and DELETE done to the boxes of their sources: bound over the tables of a catalogue, and written.
//!
//! What the requests of a session are answered with, and its text.
#![tactic(auto)]

mod fault;
pub mod law;
mod leasing;
pub mod order_law;
pub mod replies;
mod risk;
mod running;
mod selecting;
mod sizes;
mod starting;
pub mod text_laws;
pub mod typed_law;
mod writing;

pub use fault::cause_of;
pub use leasing::leased_tables;
pub use replies::{Outcome, RowsWord, table_of, word_of, write_reply};
pub use risk::is_risky_query;
pub use running::run_write;
pub use selecting::{RowSet, run_query, run_select};
pub use sizes::is_large_query;
pub use starting::{Started, start_select};
pub use writing::write_rows;
