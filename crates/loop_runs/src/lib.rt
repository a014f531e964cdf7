//! Runs of whole queries by loops: each core's levels are run, and what they give is shown row by row, or gathered and then answered.
//!
//! A query of one core of which no part may fault, and which does not group, order or leave out equal rows, is shown row by row: LIMIT
//! then ends its scans early. So is an ordered one over one table whose scan promises that order. Of any other the whole joined rows of
//! each core are gathered, and what is left of the query is answered over them. No scan of the run is live afterwards. A query that is
//! shown row by row may also be started alone ([`start_plan`]): its run then holds its scans, and is asked for its rows one by one.
#![tactic(auto)]

mod deciding;
mod gathering;
mod leaving;
mod ordering;
pub mod running;

pub use running::{LoopPlan, is_shown, run_plan, start_plan};
