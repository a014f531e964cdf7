// A connection that was taken, as one session.
ghost use Rattle.std.specs.Prelude.{◌≡◌, ◌≤◌, [], vec_capacity};

use crate::inbox::Inbox;
use crate::link::{Link, Turn};
use crate::outbox::Outbox;
use crate::peers::{NotNow, Peer};
use med_session::{Request, Sid};
use med_value::NoMemory;
use session_wire::Handler;
use std::alloc::Global;

// The room for the reply to the closing of a session, which is taken before it is opened.
const ROOM: usize = 128;

// Whether a connection stays.
#[derive(Clone, Copy, Debug, PartialEq, Eq)]
pub(crate) enum Fate {
    Stays,
    Goes,
}

// The room by which a session can be closed whatever memory is refused.
#[derive(Drop)]
pub(crate) struct Farewell {
    pub room: Vec<u8>,
    pub ghost is_empty: { room.items ≡ [] },
    pub ghost is_enough: { 128 ≤ vec_capacity room },
}

// A connection, and the room for the closing of its session: none where that was closed.
#[derive(Drop)]
pub(crate) struct Guest<P> {
    pub link: Link<P>,
    pub farewell: Option<Farewell>,
}

impl Farewell {
    ghost use Rattle.std.specs.Prelude.{ℕ, List, ◌∷◌};
    ghost use Rattle.session_wire.specs.Exchanges.{Exchanged};
    ghost use Rattle.fed_hub.specs.Said.{bye_of, exchanges_of};

    // Closes a session.
    fn say<H: Handler>(self, sid: Sid, handler: &mut H)
        requires { H.sound handler.old }
        ensures said { (reply : List ℕ) × Exchanged H.step handler.old (exchanges_of (bye_of sid.number reply ∷ [])) handler.new }
        ensures sound { H.sound handler.new }
    {
        let mut room = self.room;
        let _ = handler.request(sid, Request::Bye, &mut room);
    }
}

impl<P: Peer> Guest<P> {
    ghost use Rattle.std.specs.Prelude.{◌++◌, ℕ, List, IfOk};
    ghost use Rattle.session_wire.specs.Exchanges.{Exchanged};
    ghost use Rattle.fed_hub.specs.Said.{Said, AreOf, exchanges_of};
    ghost use Rattle.fed_hub.specs.Guests.{IsHere, IsGone, Fares};

    // A connection before anything was read from it. Fails only where memory was refused: then it is dropped.
    pub fn new(alloc: Global, peer: P) -> Result<Guest<P>, NoMemory>
        ensures { (sid : ℕ) → IfOk result (λ guest. IsHere P.remaining P.contents sid peer guest []) }
    {
        let inbox = Inbox::new(alloc)?;
        let Ok(room) = Vec::with_capacity(alloc, ROOM) else {
            return Err(NoMemory);
        };
        Ok(Guest {
            link: Link {
                peer,
                inbox,
                outbox: Outbox::new(alloc),
                is_opened: false,
                has_ended: false,
                may_read: true,
                may_write: true,
                ends: false,
            },
            farewell: Some(Farewell { room }),
        })
    }

    // Returns whether it could go on at once.
    pub fn is_busy(&self) -> bool {
        self.farewell.is_some() && self.link.is_busy()
    }

    // Notes that it was reported to be ready, and whether its end comes.
    pub fn wake(&mut self, ends: bool)
        ensures { (sid : ℕ) (taken : P) (part : List Said) → IsHere P.remaining P.contents sid taken self.old part
            → IsHere P.remaining P.contents sid taken self.new part }
    {
        self.link.may_read = true;
        self.link.may_write = true;
        self.link.ends = self.link.ends || ends;
    }

    // One turn: reads, answers one line, and writes what it takes.
    pub fn turn<H: Handler>(
        &mut self,
        alloc: Global,
        sid: Sid,
        handler: &mut H,
        reply: &mut Vec<u8>,
    ) -> Fate
        requires { H.sound handler.old }
        ensures said { (more : List Said) × AreOf sid.number more × Exchanged H.step handler.old (exchanges_of more) handler.new
            × ((taken : P) (part : List Said) → IsHere P.remaining P.contents sid.number taken self.old part
            → Fares P.remaining P.contents sid.number result taken self.new (part ++ more)) }
        ensures sound { H.sound handler.new }
    {
        match self.step(alloc, sid, handler, reply) {
            Fate::Goes => return Fate::Goes,
            Fate::Stays => {}
        }
        let is_well = self.send();
        if is_well && (self.farewell.is_some() || self.link.outbox.len() > 0) {
            return Fate::Stays;
        }
        self.leave(sid, handler);
        Fate::Goes
    }

    // Reads and answers one line, where its session is open to it.
    fn step<H: Handler>(
        &mut self,
        alloc: Global,
        sid: Sid,
        handler: &mut H,
        reply: &mut Vec<u8>,
    ) -> Fate
        requires { H.sound handler.old }
        ensures said { (more : List Said) × AreOf sid.number more × Exchanged H.step handler.old (exchanges_of more) handler.new
            × ((taken : P) (part : List Said) → IsHere P.remaining P.contents sid.number taken self.old part
            → Fares P.remaining P.contents sid.number result taken self.new (part ++ more)) }
        ensures sound { H.sound handler.new }
    {
        let Some(farewell) = self.farewell.take() else {
            return Fate::Stays;
        };
        match self.link.turn(alloc, sid, handler, reply) {
            Turn::GoesOn => {
                self.farewell = Some(farewell);
                Fate::Stays
            }
            Turn::PartsNow => {
                farewell.say(sid, handler);
                Fate::Stays
            }
            Turn::Breaks => {
                farewell.say(sid, handler);
                Fate::Goes
            }
        }
    }

    // Writes as much of what is to be sent as it takes now. Returns whether it did not fail.
    fn send(&mut self) -> bool
        ensures { (sid : ℕ) (taken : P) (part : List Said) → IsHere P.remaining P.contents sid taken self.old part
            → IsHere P.remaining P.contents sid taken self.new part }
    {
        if !self.link.may_write {
            return true;
        }
        match self.link.outbox.send(&mut self.link.peer) {
            Ok(()) => true,
            Err(NotNow::Later) => {
                self.link.may_write = false;
                true
            }
            Err(NotNow::Failed) => false,
        }
    }

    // Closes its session, where it is open to it.
    pub fn leave<H: Handler>(&mut self, sid: Sid, handler: &mut H)
        requires { H.sound handler.old }
        ensures said { (more : List Said) × AreOf sid.number more × Exchanged H.step handler.old (exchanges_of more) handler.new
            × ((taken : P) (part : List Said) → IsHere P.remaining P.contents sid.number taken self.old part
            → IsGone P.remaining P.contents sid.number taken (part ++ more)) }
        ensures sound { H.sound handler.new }
    {
        match self.farewell.take() {
            Some(farewell) => farewell.say(sid, handler),
            None => {}
        }
    }
}
