//! What the program's words ask.
#![tactic(auto)]

pub mod places;
pub mod words;

pub use places::{AskedPlace, PlaceFault, PlaceKind};
pub use words::{AskedRun, WordsFault, read_words};
