//! The order in which the entries of FROM are joined.
//!
//! Entries that commas and inner joins join are taken as they are written, but an entry that no equality of columns binds to those before
//! it waits until one does. So a cross product comes only where the query requires one. [`reorder`] puts a SELECT into that order, and the
//! law in [`law`] says that its answers stay.
#![tactic(auto)]

mod choosing;
mod cores;
mod entries;
pub mod law;
mod moving;
mod ons;
mod places;
pub mod reordering;

pub use reordering::{Reordered, reorder};
