//! A bound query in the order in which its entries are joined: [`ordered`] puts it into that order, and the law in [`law`] says that it is
//! bound as it was.
#![tactic(auto)]

pub mod law;
pub mod ordering;

pub use ordering::ordered;
