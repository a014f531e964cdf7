//! Reads terminal symbols as expressions, by recursive descent. Each function is proved to give what the list reader of the crate
//! `med_syntax` gives for the terminals of its symbols.
#![tactic(auto)]

mod arithmetic;
mod build;
mod conditions;
mod found;
mod operands;
mod predicates;

pub use conditions::whole;
pub use found::FoundExpr;
