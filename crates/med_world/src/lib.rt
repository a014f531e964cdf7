//! Cursors that are open: their runs, what they lease, and what FETCH and CLOSE do to the boxes.
//!
//! A cursor holds a run, and a run must be spent: so no cursor is dropped without its close.
//!
//! The direct meaning of requests: worlds of objects, sources and rows, the causes of refusal that stand in them, and the steps from one
//! world to the next; and what an engine shows when it stands for a world. The definitions are in `specs/`, the laws in [`law`].
#![tactic(auto)]

mod cursors;
mod fetching;
pub mod law;
mod leases;
mod named;

pub use cursors::{Asked, OpenCursor, Seat, is_full};
pub use fetching::{Unfetched, close_all, close_cursor, fetch};
pub use leases::is_leased;
pub use named::{position, take};
