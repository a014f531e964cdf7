//! SELECTs whose names were resolved: their form, the definition of what they answer, and its laws.
#![tactic(auto)]

pub mod law;
pub mod select;

pub use select::{Grouping, Join, JoinChain, Select, SelectCore, SortDirection, is_safe_from};
