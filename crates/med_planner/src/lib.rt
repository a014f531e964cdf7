//! Definitions that planning and running a query share, and the law of its causes: where the tables of its entries are, the rows that they
//! show, and the causes of the phase of the run that it shows over them.
//!
//! Plans of nested loops: what each core of a bound query is to the runs that answer it.
#![tactic(auto)]

pub mod accepting;
pub mod flat;
pub mod law;
pub mod offering;
pub mod places;
pub mod plan_laws;
pub mod wishing;

pub use accepting::accept_core;
pub use flat::{FlatEntry, FlatFrom, flat_from};
pub use offering::{LoopOffer, offer_core};
pub use places::{columns, shifted, shifted_all};
pub use wishing::wish_of;
