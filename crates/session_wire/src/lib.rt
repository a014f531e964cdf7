//! Request lines of a byte stream: how bytes are cut into lines, the grammar of a line, and a server
//! that answers each line by a handler.
//!
//! What holds of the cursors of all sessions over a run of their lines: laws alone.
#![tactic(auto)]

mod answers;
mod engine;
pub mod frames;
pub mod handler;
pub mod law;
pub mod lines;
mod replies;
pub mod server;
pub mod worlds;

pub use frames::{BadFrame, frame};
pub use handler::Handler;
pub use server::{FeedFault, Server};
