//! The engine: sessions over a catalogue of objects and boxed sources.
#![tactic(auto)]

pub mod adding;
mod altering;
mod binding;
mod cursors;
pub mod engine;
mod places;
pub mod session;
pub mod sources;
mod turning;
pub mod users;

pub use adding::{AddFault, Sources};
pub use engine::{Engine, NewFault};
pub use med_catalog::SourceKind;
pub use med_statements::Outcome;
pub use session::{NoRoom, Request, Sid};
