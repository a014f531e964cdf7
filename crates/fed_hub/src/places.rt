// The places of a hub, one for each session, and the connections in them.
ghost use Rattle.std.specs.Prelude.{◌≡◌, ◌<◌, ◌++◌, ℕ, List, [], Some, None, IfOk, slice_get, vec_len};
ghost use Rattle.session_wire.specs.Exchanges.{Exchanged};
ghost use Rattle.med_value.specs.Limits.{session_count};
ghost use Rattle.fed_hub.specs.Said.{Said, AreOf, exchanges_of};
ghost use Rattle.fed_hub.specs.Places.{Stands, AllStand, Advances};

use crate::guest::{Fate, Guest};
use crate::peers::{Peer, Peers, PeersFault};
use med_session::Sid;
use med_value::NoMemory;
use med_value::limits::SESSION_COUNT;
use session_wire::Handler;
use std::alloc::Global;

// What is sent to a connection for which there is no place.
const TURNED_AWAY: &[u8] = b"E 53300 too_many_connections\n";

// The most connections that are taken before those that are there have their turn.
const MOST_TAKEN: u32 = 64;

// A place for each session, all free. Fails only where memory was refused.
pub(crate) fn free_places<P: Peer>(alloc: Global) -> Result<Vec<Option<Guest<P>>>, NoMemory>
    ensures count { IfOk result (λ places. vec_len places ≡ session_count) }
    ensures free { IfOk result (λ places. AllStand P.remaining P.contents places.items []) }
{
    let mut places = Vec::new(alloc);
    for _ in 0..SESSION_COUNT {
        places.push(None).map_err(|_| NoMemory)?;
    }
    Ok(places)
}

// One turn of the connection in a place, where one is there. Returns whether it could go on at once.
fn turn_at<H: Handler, P: Peer>(
    alloc: Global,
    sid: Sid,
    place: &mut Option<Guest<P>>,
    handler: &mut H,
    reply: &mut Vec<u8>,
) -> bool
    requires { H.sound handler.old }
    ensures said { (more : List Said) × AreOf sid.number more × Exchanged H.step handler.old (exchanges_of more) handler.new
        × ((part : List Said) → Stands P.remaining P.contents sid.number place.old part
        → Stands P.remaining P.contents sid.number place.new (part ++ more)) }
    ensures sound { H.sound handler.new }
{
    let Some(mut guest) = place.take() else {
        return false;
    };
    match guest.turn(alloc, sid, handler, reply) {
        Fate::Stays => {
            let is_busy = guest.is_busy();
            *place = Some(guest);
            is_busy
        }
        Fate::Goes => false,
    }
}

// Lets the connection in a place go, where one is there.
fn leave_at<H: Handler, P: Peer>(sid: Sid, place: &mut Option<Guest<P>>, handler: &mut H)
    requires { H.sound handler.old }
    ensures said { (more : List Said) × AreOf sid.number more × Exchanged H.step handler.old (exchanges_of more) handler.new
        × ((part : List Said) → Stands P.remaining P.contents sid.number place.old part
        → Stands P.remaining P.contents sid.number place.new (part ++ more)) }
    ensures free { place.new ≡ None }
    ensures sound { H.sound handler.new }
{
    match place.take() {
        Some(mut guest) => guest.leave(sid, handler),
        None => {}
    }
}

// One turn of each connection, in order. Returns whether one of them could go on at once.
pub(crate) fn turn_each<H: Handler, P: Peer>(
    alloc: Global,
    places: &mut Vec<Option<Guest<P>>>,
    handler: &mut H,
    reply: &mut Vec<u8>,
) -> bool
    requires sound { H.sound handler.old }
    requires count { vec_len places.old ≡ session_count }
    ensures said { Advances H.step P.remaining P.contents handler.old places.old.items handler.new places.new.items }
    ensures count { vec_len places.new ≡ session_count }
    ensures sound { H.sound handler.new }
{
    let mut is_busy = false;
    for at in 0..places.len() {
        let Some(sid) = Sid::new(at as u16 + 1) else {
            return is_busy;
        };
        let place = &mut places[at];
        if turn_at(alloc, sid, place, handler, reply) {
            is_busy = true;
        }
    }
    is_busy
}

// Lets each connection go.
pub(crate) fn leave_each<H: Handler, P: Peer>(places: &mut Vec<Option<Guest<P>>>, handler: &mut H)
    requires sound { H.sound handler.old }
    requires count { vec_len places.old ≡ session_count }
    ensures said { Advances H.step P.remaining P.contents handler.old places.old.items handler.new places.new.items }
    ensures free { (k : ℕ) → k < session_count → slice_get places.new.items k ≡ Some None }
    ensures sound { H.sound handler.new }
{
    for at in 0..places.len() {
        let Some(sid) = Sid::new(at as u16 + 1) else {
            return;
        };
        let place = &mut places[at];
        leave_at(sid, place, handler);
    }
}

// Notes that the connection in a place was reported to be ready.
pub(crate) fn wake_at<P: Peer>(places: &mut Vec<Option<Guest<P>>>, at: usize, ends: bool)
    ensures stand { (said : List Said) → AllStand P.remaining P.contents places.old.items said
        → AllStand P.remaining P.contents places.new.items said }
    ensures count { vec_len places.new ≡ vec_len places.old }
{
    if at < places.len() {
        let place = &mut places[at];
        match place.take() {
            Some(mut guest) => {
                guest.wake(ends);
                *place = Some(guest);
            }
            None => {}
        }
    }
}

// Puts a connection into a free place, or drops it where memory is refused.
fn put_at<P: Peer>(alloc: Global, places: &mut Vec<Option<Guest<P>>>, at: usize, peer: P)
    ensures stand { (said : List Said) → AllStand P.remaining P.contents places.old.items said
        → AllStand P.remaining P.contents places.new.items said }
    ensures count { vec_len places.new ≡ vec_len places.old }
{
    if at < places.len() && places[at].is_none() {
        match Guest::new(alloc, peer) {
            Ok(guest) => places[at] = Some(guest),
            Err(NoMemory) => {}
        }
    }
}

// Returns the first free place.
fn free_place<P: Peer>(places: &Vec<Option<Guest<P>>>) -> Option<usize> {
    places.iter().position(|place| place.is_none())
}

// Returns whether no connection is there.
pub(crate) fn are_free<P: Peer>(places: &Vec<Option<Guest<P>>>) -> bool {
    places.iter().all(|place| place.is_none())
}

// Takes connections that are there, no more than are left to be taken. One for which there is no place is sent that, and is closed.
// Returns whether one more may be there.
pub(crate) fn take_some<C: Peers>(
    alloc: Global,
    places: &mut Vec<Option<Guest<C::Peer>>>,
    peers: &mut C,
    left: &mut u32,
) -> bool
    ensures stand { (said : List Said) → AllStand C.Peer.remaining C.Peer.contents places.old.items said
        → AllStand C.Peer.remaining C.Peer.contents places.new.items said }
    ensures count { vec_len places.new ≡ vec_len places.old }
{
    for _ in 0..MOST_TAKEN {
        if *left == 0 {
            return true;
        }
        let free = free_place(places);
        match peers.take(free.unwrap_or(SESSION_COUNT)) {
            Ok(Some(mut peer)) => {
                *left -= 1;
                match free {
                    Some(at) => put_at(alloc, places, at, peer),
                    None => {
                        let _ = peer.write_now(TURNED_AWAY);
                    }
                }
            }
            Ok(None) => return false,
            Err(PeersFault) => return true,
        }
    }
    true
}
