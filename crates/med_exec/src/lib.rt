//! Runs of queries: what stands between the interface of boxed wrappers and the engine.
//!
//! A run ([`Run`]) holds its answer, gives it row by row, and needs no box for it; or it holds the scans of its loops, and asks their boxes
//! for its rows one by one.
//!
//! All calls on boxes are generic over the box. They take the engine's slots, in which a slot whose box was dropped holds `None`. What a
//! box holds stays as it is: a run changes nothing but the counts and its own scans, and leaves none live once it is closed.
//!
//! Runs of bound queries by loops: what stands between a query over tables of boxes and the runs that answer it.
//!
//! The scans of a query's entries are offered the conditions that they may take over ([`med_planner::offer_core`]), each to the box of its
//! own source, with the order and the limit that are wished of them ([`med_planner::wish_of`]); what the boxes answered makes the loops of
//! each core ([`plan_loops`]). [`run_bound`] plans a query so, and runs it; [`start_bound`] begins it for a cursor.
//!
//! Writes to tables of wrappers in slots: the rows are read, all changes and faults are computed, and then the changes are staged and made
//! together.
//!
//! Whether the rows that a query answered may be inserted: a test of their types at run time, for sources that are not trusted.
#![tactic(auto)]

mod agreeing;
mod bound_running;
mod fitting;
pub mod law;
mod places;
mod query_loops;
mod reading;
pub mod running;
pub mod slots;
mod staging;
pub mod write_law;
pub mod writing;

pub use bound_running::{run_bound, start_bound};
pub use fitting::fits;
pub use query_loops::plan_loops;
pub use running::Run;
pub use slots::{bind_at, ledger_at, unbind_at};
pub use writing::write;
