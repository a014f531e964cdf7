//! What wrappers are made of: the staged changes of a write to a remote table and what they make of its rows, the places of rows by the
//! value of one column for scans that look for equal parameters, and the ranges of keys that the restrictions of a scan ask for.
//!
//! A wrapper that is of one kind or of another.
#![tactic(auto)]

pub mod changes;
mod either;
pub mod fates;
pub mod index;
pub mod law;
pub mod ranges;
pub mod rising;
pub mod sought;
pub mod splice;
pub mod tests_of_keys;

pub use changes::{RowChange, StagedWrite, add_change};
pub use either::EitherSource;
pub use fates::{Fate, keep_all, set_fate};
pub use index::PlaceIndex;
pub use ranges::KeyRange;
pub use rising::range_around;
pub use sought::{Sought, SoughtIndex, exact_at, first_lead, sought_in, takes, value_at};
pub use splice::Splice;
pub use tests_of_keys::{answers_for, range_of};
