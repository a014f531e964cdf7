//! A hub: many connections at once, each of them one session of what answers requests.
#![tactic(auto)]

mod bare;
mod guest;
pub mod hub;
mod inbox;
mod link;
mod outbox;
pub mod peers;
mod places;
mod requests;
pub mod serving;
pub mod sockets;

pub use hub::{HubEnd, HubFault, serve_peers};
pub use peers::{NotNow, Peer, Peers, PeersFault, Ready, Waited};
pub use serving::serve_hub;
