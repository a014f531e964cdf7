//! A text read as one JSON object, with no tree: its members are noted as they come, and what is noted is what `serde_json` would read.
#![tactic(auto)]

mod numbers;
mod object;
mod scalar;
mod walk;

pub use object::{ObjectFault, read_object};
pub use scalar::{Notes, Scalar};
