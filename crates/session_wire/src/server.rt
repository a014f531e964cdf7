//! A stream of request lines before a handler.
ghost use Rattle.std.specs.Prelude.{◌≡◌, ◌++◌, ℕ, List, [], Option, Some, None, false};
ghost use Rattle.session_wire.specs.Lines.{IsFrontOfLine, lines_of, unread_after};
ghost use Rattle.session_wire.specs.Run.{Fed, BrokenOff, RefusesNext};

use crate::answers::{End, answer_piece};
use crate::handler::Handler;
use bytes::BytesMut;
use med_session::NoRoom;
use med_value::NoMemory;
use std::alloc::Global;
use thiserror::Error;

/// Room for the first unread bytes, taken when a server is made.
const FIRST_ROOM: usize = 8_192;

/// Why a piece was refused.
#[derive(Clone, Copy, Debug, PartialEq, Eq, Error)]
pub enum FeedFault {
    /// Room was refused. The stream is closed, and its sessions are ended.
    #[error("out of memory")]
    NoRoom,
    /// The stream was closed before.
    #[error("the stream is closed")]
    Closed,
}

/// A stream of request lines, in pieces of any size, before a handler that answers them.
#[derive(Drop)]
pub struct Server<H> {
    handler: H,
    unread: BytesMut,
    is_closed: bool,
    pub ghost between: { is_closed ≡ false → IsFrontOfLine unread.items },
}

impl<H: Handler> Server<H> {
    ghost use Rattle.std.specs.Prelude.{◌↔◌, ◌<◌, ◌⊎◌, true, Err, length, IfOk, IfErr, OnOk};
    ghost use Rattle.session_wire.specs.Servers.{handler_of, is_closed, held_back, spare_of, unread_of};

    /// A server at the start of a stream. Refused for want of memory, it hands the handler back.
    pub fn new(alloc: Global, handler: H) -> Result<Server<H>, (H, NoMemory)>
        requires { H.sound handler }
        ensures ok { IfOk result (λ server.
            (handler_of server ≡ handler) × (unread_of server ≡ Some [])) }
        ensures sound { IfOk result (λ server. H.sound (handler_of server)) }
        ensures refused { IfErr result (λ back. back.0 ≡ handler) }
    {
        match BytesMut::with_capacity(alloc, FIRST_ROOM) {
            Ok(unread) => Ok(Server {
                handler,
                unread,
                is_closed: false,
            }),
            Err(_) => Err((handler, NoMemory)),
        }
    }

    /// Whether the stream is closed.
    pub fn is_closed(&self) -> bool
        ensures { result ≡ is_closed self.now }
    {
        self.is_closed
    }

    /// Answers the next piece of the stream: `out` grows by the replies to the lines that the piece
    /// makes with the bytes held back before it.
    ///
    /// What pieces are answered depends on their bytes alone, and not on where they are cut (`runs_join`).
    ///
    /// `NoRoom` where room was refused, for the bytes held back, for a line's text or by the handler: the
    /// lines answered before were a run, then the sessions were ended, and the stream is closed. A piece
    /// that ends no line is refused only where the room for the bytes held back was less than it. The clause
    /// `cause` says which room was refused: that for the bytes held back, which was less than the piece, and then
    /// no line was answered; or else that a line is next, a whole one or one that closes the stream. `Closed` where
    /// the stream was closed before: nothing changes.
    pub fn feed(&mut self, piece: &[u8], out: &mut Vec<u8>) -> Result<(), FeedFault>
        requires { H.sound (handler_of self.old) }
        ensures ok { OnOk result ((is_closed self.old ≡ false)
            × ((text : List ℕ) × (out.new.items ≡ out.old.items ++ text)
            × Fed H.step H.ended (handler_of self.old) (held_back self.old ++ piece.now) text
            (handler_of self.new) (unread_of self.new))) }
        ensures no_room { result ≡ Err FeedFault.NoRoom → (is_closed self.new ≡ true)
            × ((text : List ℕ) × (out.new.items ≡ out.old.items ++ text)
            × BrokenOff H.step H.ended (handler_of self.old) (held_back self.old ++ piece.now) text
            (handler_of self.new)) }
        ensures room { result ≡ Err FeedFault.NoRoom → IsFrontOfLine (held_back self.old ++ piece.now)
            → spare_of self.old < length piece.now }
        ensures cause { result ≡ Err FeedFault.NoRoom
            → ((spare_of self.old < length piece.now) × (out.new.items ≡ out.old.items)
            × H.ended (handler_of self.old) (handler_of self.new))
            ⊎ ((text : List ℕ) × (out.new.items ≡ out.old.items ++ text)
            × RefusesNext H.step H.ended (handler_of self.old) (held_back self.old ++ piece.now) text
            (handler_of self.new)) }
        ensures closed { (result ≡ Err FeedFault.Closed) ↔ (is_closed self.old ≡ true) }
        ensures unchanged { result ≡ Err FeedFault.Closed
            → (handler_of self.new ≡ handler_of self.old) × (is_closed self.new ≡ true)
            × (out.new.items ≡ out.old.items) }
        ensures sound { H.sound (handler_of self.new) }
    {
        if self.is_closed {
            return Err(FeedFault::Closed);
        }
        match answer_piece(&mut self.handler, &mut self.unread, piece, out) {
            Ok(End::Open) => Ok(()),
            Ok(End::Closed) => {
                self.is_closed = true;
                Ok(())
            }
            Err(NoRoom) => {
                self.handler.close_sessions();
                self.is_closed = true;
                Err(FeedFault::NoRoom)
            }
        }
    }

    /// Ends the stream and every session, and hands the handler back. Bytes held back are dropped.
    pub fn finish(self) -> H
        requires { H.sound (handler_of self) }
        ensures ended { H.ended (handler_of self) result }
        ensures sound { H.sound result }
    {
        let Server {
            mut handler,
            unread: _,
            is_closed: _,
        } = self;
        handler.close_sessions();
        handler
    }
}

/// The law of runs: the front of a line leads to no reply; a run of the lines of some bytes, and then one
/// of what their rest and more bytes make, is a run of the lines of all of them; and each run of the lines
/// of all of them is two such runs. Behind a line that closes the stream no byte is answered, and what was
/// broken off at a piece was broken off in the bytes with those before and behind it.
pub fn runs_join<H: Handler>()
    ensures none { (old : H) (bytes : List ℕ) → IsFrontOfLine bytes
        → Fed H.step H.ended old bytes [] old (Some bytes) }
    ensures joined { (old mid new : H) (bytes more text others after : List ℕ)
        (left : Option (List ℕ)) → Fed H.step H.ended old bytes text mid (Some after)
        → Fed H.step H.ended mid (after ++ more) others new left
        → Fed H.step H.ended old (bytes ++ more) (text ++ others) new left }
    ensures parted { (old new : H) (bytes more all after : List ℕ) (left : Option (List ℕ))
        → unread_after (lines_of bytes) ≡ Some after
        → Fed H.step H.ended old (bytes ++ more) all new left
        → (mid : H) × (text : List ℕ) × (others : List ℕ)
        × Fed H.step H.ended old bytes text mid (Some after)
        × Fed H.step H.ended mid (after ++ more) others new left × (all ≡ text ++ others) }
    ensures closed { (old new : H) (bytes more text : List ℕ)
        → Fed H.step H.ended old bytes text new None
        → Fed H.step H.ended old (bytes ++ more) text new None }
    ensures broken { (old mid new : H) (bytes piece more text others after : List ℕ)
        → Fed H.step H.ended old bytes text mid (Some after)
        → BrokenOff H.step H.ended mid (after ++ piece) others new
        → BrokenOff H.step H.ended old ((bytes ++ piece) ++ more) (text ++ others) new }
{}
