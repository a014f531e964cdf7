//! Scripts of SQL lines that are run before an engine is served.
//!
//! The sources of a program, and how an engine begins with them.
#![tactic(auto)]

pub mod demo;
pub mod init;
pub mod inputs;
mod lines;
pub mod program;
pub mod script;
pub mod sources;
pub mod surroundings;
pub mod told;

pub use script::{ScriptFault, replay};
