//! A hub: many connections at once before one handler.
ghost use Rattle.std.specs.Prelude.{◌≡◌, List, vec_len};
ghost use Rattle.med_value.specs.Limits.{session_count};
ghost use Rattle.fed_hub.specs.Said.{Said};
ghost use Rattle.fed_hub.specs.Accounts.{ServesHub};
ghost use Rattle.fed_hub.specs.Places.{Advances, AllStand};

use crate::guest::Guest;
use crate::peers::{Peer, Peers, PeersFault, Ready, Waited};
use crate::places::{are_free, free_places, leave_each, take_some, turn_each, wake_at};
use med_value::NoMemory;
use session_wire::Handler;
use std::alloc::Global;
use thiserror::Error;

/// The most reports of what is ready that are read between two turns.
const MOST_READY: u32 = 4_096;

/// How a hub ended.
#[derive(Clone, Copy, Debug, PartialEq, Eq)]
pub enum HubEnd {
    /// As many connections as were wanted were taken, and each was let go.
    Served,
    /// Nothing was ready for as long as the hub may be silent.
    Silent,
}

/// Why a hub ended before.
#[derive(Clone, Copy, Debug, PartialEq, Eq, Error)]
pub enum HubFault {
    /// Memory was refused for its places: no connection was taken.
    #[error("out of memory")]
    NoMemory,
    /// It could not be waited for what is ready.
    #[error("connection fault")]
    Wait,
    /// 2^64 - 1 turns were made.
    #[error("too many turns")]
    TooLong,
}

/// Serves this number of connections, up to 256 of them at once, each as one session of the handler.
///
/// A connection's session is its place, which is given back when it is let go; it is closed at the connection's end. Its lines are those
/// of its own session without the number, and so are its replies. All that was requested of the handler is one list of request lines: what
/// each session has of it is the lines of the connections that had it, one after the other, and after each of them its closing. What is
/// sent to a connection is the replies to its own lines: a prefix of them was written to it. Which connection is ready when, and which is
/// taken, is any choice.
///
/// Fails with `NoMemory` where memory was refused for its places, with `Wait` where a wait failed, and with `TooLong` after 2^64 - 1
/// turns. However it ends, each connection was let go, and its session is closed.
pub fn serve_peers<H: Handler, C: Peers>(
    alloc: Global,
    handler: &mut H,
    peers: &mut C,
    count: u32,
) -> Result<HubEnd, HubFault>
    requires { H.sound handler.old }
    ensures served { ServesHub H.step C.Peer.remaining C.Peer.contents handler.old handler.new }
    ensures sound { H.sound handler.new }
{
    let mut places = match free_places(alloc) {
        Ok(places) => places,
        Err(NoMemory) => return Err(HubFault::NoMemory),
    };
    let came = serve_places(alloc, &mut places, handler, peers, count);
    leave_each(&mut places, handler);
    came
}

// Serves them until as many as were wanted were let go, or a wait came to silence or a fault.
fn serve_places<H: Handler, C: Peers>(
    alloc: Global,
    places: &mut Vec<Option<Guest<C::Peer>>>,
    handler: &mut H,
    peers: &mut C,
    count: u32,
) -> Result<HubEnd, HubFault>
    requires sound { H.sound handler.old }
    requires count { vec_len places.old ≡ session_count }
    ensures said { Advances H.step C.Peer.remaining C.Peer.contents handler.old places.old.items handler.new places.new.items }
    ensures count { vec_len places.new ≡ session_count }
    ensures sound { H.sound handler.new }
{
    let mut reply = Vec::new(alloc);
    let mut left = count;
    let mut is_busy = false;
    let mut is_door_open = true;
    for _ in 0..u64::MAX {
        if left == 0 && are_free(places) {
            return Ok(HubEnd::Served);
        }
        match peers.wait(is_busy) {
            Ok(Waited::Woken) => {}
            Ok(Waited::Silent) => return Ok(HubEnd::Silent),
            Err(PeersFault) => return Err(HubFault::Wait),
        }
        if wake_ready(places, peers) {
            is_door_open = true;
        }
        if is_door_open {
            is_door_open = take_some(alloc, places, peers, &mut left);
        }
        is_busy = turn_each(alloc, places, handler, &mut reply);
    }
    Err(HubFault::TooLong)
}

// Notes what is reported to be ready. Returns whether a connection may be taken.
fn wake_ready<C: Peers>(places: &mut Vec<Option<Guest<C::Peer>>>, peers: &mut C) -> bool
    ensures stand { (said : List Said) → AllStand C.Peer.remaining C.Peer.contents places.old.items said
        → AllStand C.Peer.remaining C.Peer.contents places.new.items said }
    ensures count { vec_len places.new ≡ vec_len places.old }
{
    let mut is_door = false;
    for _ in 0..MOST_READY {
        match peers.next_ready() {
            Some(Ready::Door) => is_door = true,
            Some(Ready::Place { place, ends }) => wake_at(places, place, ends),
            None => return is_door,
        }
    }
    is_door
}
