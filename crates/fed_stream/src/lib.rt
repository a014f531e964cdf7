//! Sources of bytes and sinks for them, whose calls say what became of each byte, and what they were asked.
//!
//! A stream of request lines, served from a source to a sink.
#![tactic(auto)]

pub mod devices;
pub mod guarded;
pub mod memory;
pub mod sink;
pub mod source;
pub mod stream;
mod telling;

pub use guarded::Guarded;
pub use memory::{MemorySink, MemorySource};
pub use sink::{Sink, flush, write_front};
pub use source::{Arrival, CallFault, GivenUp, Source, read_piece};
pub use stream::{Ended, StreamFault, serve_stream, serve_stream_within};
pub use telling::{write_line, write_parts};
