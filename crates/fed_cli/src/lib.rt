//! What a run is made of.
//!
//! Connections that are served one after the other by one engine.
//!
//! The program: what it answers by its words, and how it exits.
#![tactic(auto)]

pub mod asked;
pub mod kept;
pub mod listening;
pub mod program;
pub mod serving;
pub mod telling;
pub mod told;
pub mod turns;
pub mod worlds;

pub use asked::{ArgsFault, Exit, run, run_words, serve_asked};
pub use fed_stream::{Ended, StreamFault, serve_stream, serve_stream_within};
pub use kept::serve_kept;
pub use listening::{ListenFault, Listening, Ports, listen_and_serve};
pub use turns::{AcceptFault, Connections, Kept, serve_connections};
