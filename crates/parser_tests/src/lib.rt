//! Reads expressions, and writes them out. `expression` reads the text of one expression, `print_expression` writes a tree; the readers and
//! writers of statements stand on the same crates below: `med_syntax`, `expr_reader` and `expr_writer`.
//!
//! Tests of texts that are read and written out, by public functions alone: tokens, expressions and statements. They stand apart, so that no
//! crate is proved a second time for its tests.
#![tactic(auto)]

#[cfg(test)]
mod cursors;
mod expr_laws;
mod expr_print;
mod expr_text;
#[cfg(test)]
mod expressions_read;
#[cfg(test)]
mod rows;
#[cfg(test)]
mod statement_sizes;
#[cfg(test)]
mod statements;
#[cfg(test)]
mod tokens;
#[cfg(test)]
mod writes;

pub use expr_laws::{one_expression, printed_expression};
pub use expr_print::print_expression;
pub use expr_text::expression;
pub use med_syntax::ParseFault;
