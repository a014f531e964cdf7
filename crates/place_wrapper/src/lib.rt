//! One wrapper over blobs that are read as tables of rows at places, whatever their format is.
#![tactic(auto)]

pub mod faults;
pub mod format;
pub mod scans;
pub mod spans;
pub mod tables;
pub mod wrapper;
pub mod writes;

pub use format::{PlacedTable, Unwritten};
pub use wrapper::PlaceWrapper;
