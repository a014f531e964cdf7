//! Tests of blobs and of tables in them: of a folder, over a disk in memory that tells what stands on it and fails at one of its calls; and of
//! tables of tab-separated lines, which keep their rows as rows and show how little a kind of file takes. They stand apart, so that no crate
//! is proved a second time for its tests.
#![tactic(auto)]

pub mod disk;
pub mod files;
#[cfg(test)]
mod folders;
#[cfg(test)]
mod parts;
pub mod rows;
#[cfg(test)]
mod scans;
#[cfg(test)]
mod steps;
pub mod tabs;
#[cfg(test)]
mod writes;

pub use rows::rows_after;
pub use tabs::TabTable;
