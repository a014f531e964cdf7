//! The laws that each kind of source takes what the catalogue lets pass for it.
#![tactic(auto)]

pub mod law;
