//! Texts of statements over the tables of a SQLite database, looked at by what they mean under its schema: whether a text reads a page of
//! a table, takes a row out of it, or puts one in; whether a foreign key refers to such a table; the shape of a table that was looked at;
//! and pages of it by such texts.
#![tactic(auto)]

pub mod foreign;
pub mod law;
pub mod looks;
mod naming;
pub mod plans;
pub mod reading;
pub mod shapes;
pub mod shaping;
pub mod terms;
pub mod texts;

pub use foreign::tables_are_free;
pub use looks::{puts_in, reads_page, takes_out};
pub use reading::{page, rows_between};
pub use shapes::{ReadOnly, Shape, ShapeColumn, Texts, look_at};
pub use shaping::{shape_at, shape_called, table_called};
pub use texts::{delete_text, insert_text, page_text};
