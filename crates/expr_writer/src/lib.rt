//! Writes expressions and their parts, each token behind a space.
#![tactic(auto)]

mod writer;

pub use writer::{Fixed, write, write_column, write_fixed, write_name, write_number};
