// A connection whose lines are answered.
ghost use Rattle.std.specs.Prelude.{◌≡◌, ◌⊎◌, ◌++◌, List};
ghost use Rattle.session_wire.specs.Lines.{line, lines_of};
ghost use Rattle.session_wire.specs.Exchanges.{Exchanged};
ghost use Rattle.fed_hub.specs.Said.{Said, AreOf, exchanges_of};
ghost use Rattle.fed_hub.specs.Accounts.{closing_lines};
ghost use Rattle.fed_hub.specs.Boxes.{unread_in, unsent_in};
ghost use Rattle.fed_hub.specs.Guests.{IsOpen, IsOpenAt, Turns};

use crate::inbox::Inbox;
use crate::outbox::Outbox;
use crate::peers::{NotNow, Peer};
use crate::requests::{ask, opens};
use med_session::Sid;
use med_value::NoMemory;
use session_wire::Handler;
use session_wire::lines::FoundLine;
use std::alloc::Global;

// The most bytes of one read.
const PIECE: usize = 8_192;

// Where as many bytes are still to be written to a connection, none of its lines is answered.
const MOST_UNSENT: usize = 1_048_576;

// What is sent to a connection before it is closed for what it sent.
const CLOSING: &[u8] = b"E 08P01 protocol_violation\nT CLOSED\n";

// What became of a connection in its turn.
#[derive(Clone, Copy, Debug, PartialEq, Eq)]
pub(crate) enum Turn {
    // It goes on.
    GoesOn,
    // None of its lines is answered any more. What is to be sent still has to be written.
    PartsNow,
    // It failed, or memory was refused.
    Breaks,
}

// A connection, and what is between it and its session.
#[derive(Drop)]
pub(crate) struct Link<P> {
    pub peer: P,
    pub inbox: Inbox,
    pub outbox: Outbox,
    // Whether its first line was answered.
    pub is_opened: bool,
    // Whether its end was read.
    pub has_ended: bool,
    // Whether it may be ready to be read, and to be written.
    pub may_read: bool,
    pub may_write: bool,
    // Whether it was reported that its end comes.
    pub ends: bool,
}

impl<P: Peer> Link<P> {
    // Returns whether it could go on at once.
    pub fn is_busy(&self) -> bool {
        self.outbox.len() < MOST_UNSENT
            && (self.may_read || self.has_ended || self.inbox.has_some())
    }

    // One turn: reads what is there, where no line is left, and answers one line.
    pub fn turn<H: Handler>(
        &mut self,
        alloc: Global,
        sid: Sid,
        handler: &mut H,
        reply: &mut Vec<u8>,
    ) -> Turn
        requires { H.sound handler.old }
        ensures said { (more : List Said) × AreOf sid.number more × Exchanged H.step handler.old (exchanges_of more) handler.new
            × ((taken : P) (part : List Said) → IsOpen P.remaining P.contents taken self.old part
            → Turns P.remaining P.contents result taken self.new (part ++ more)) }
        ensures sound { H.sound handler.new }
    {
        match self.hear() {
            Turn::GoesOn => self.answer(alloc, sid, handler, reply),
            Turn::PartsNow => Turn::PartsNow,
            Turn::Breaks => Turn::Breaks,
        }
    }

    // Reads a piece, where one may be there, no line is left, and the connection takes what is sent.
    fn hear(&mut self) -> Turn
        ensures { (taken : P) (part : List Said) → IsOpen P.remaining P.contents taken self.old part
            → Turns P.remaining P.contents result taken self.new part }
    {
        if self.has_ended {
            return Turn::GoesOn;
        }
        if !self.may_read || self.inbox.has_some() || self.outbox.len() >= MOST_UNSENT {
            return Turn::GoesOn;
        }
        let mut piece = [0u8; PIECE];
        match self.peer.read_now(&mut piece) {
            Ok(0) => {
                self.has_ended = true;
                Turn::GoesOn
            }
            Ok(count) => {
                self.may_read = self.ends || count == PIECE;
                match self.inbox.put(&piece[..count]) {
                    Ok(()) => Turn::GoesOn,
                    Err(NoMemory) => Turn::Breaks,
                }
            }
            Err(NotNow::Later) => {
                self.may_read = false;
                Turn::GoesOn
            }
            Err(NotNow::Failed) => Turn::Breaks,
        }
    }

    // Answers one line, where one is left and the connection takes what is sent.
    fn answer<H: Handler>(
        &mut self,
        alloc: Global,
        sid: Sid,
        handler: &mut H,
        reply: &mut Vec<u8>,
    ) -> Turn
        requires { H.sound handler.old }
        ensures said { (more : List Said) × AreOf sid.number more × Exchanged H.step handler.old (exchanges_of more) handler.new
            × ((taken : P) (part : List Said) → IsOpen P.remaining P.contents taken self.old part
            → Turns P.remaining P.contents result taken self.new (part ++ more)) }
        ensures sound { H.sound handler.new }
    {
        if self.outbox.len() >= MOST_UNSENT {
            return Turn::GoesOn;
        }
        if !self.inbox.has_some() {
            return if self.has_ended {
                Turn::PartsNow
            } else {
                Turn::GoesOn
            };
        }
        match self.inbox.take() {
            Ok(FoundLine::Line(text)) => {
                self.answer_line(alloc, sid, text.as_str(), handler, reply)
            }
            Ok(FoundLine::Nothing) => Turn::GoesOn,
            Ok(FoundLine::Closing) => self.close(),
            Err(NoMemory) => Turn::Breaks,
        }
    }

    // Answers a line that was taken. A first line that opens no session closes the connection.
    fn answer_line<H: Handler>(
        &mut self,
        alloc: Global,
        sid: Sid,
        text: &str,
        handler: &mut H,
        reply: &mut Vec<u8>,
    ) -> Turn
        requires { H.sound handler.old }
        ensures said { (more : List Said) × AreOf sid.number more × Exchanged H.step handler.old (exchanges_of more) handler.new
            × ((taken : P) (part : List Said)
            → IsOpenAt P.remaining P.contents taken self.old (line text.now (lines_of (unread_in self.old.inbox))) part
            → Turns P.remaining P.contents result taken self.new (part ++ more)) }
        ensures sound { H.sound handler.new }
    {
        if !self.is_opened && !opens(text) {
            return self.close();
        }
        match ask(alloc, sid, text, handler, reply) {
            Ok(()) => {}
            Err(_) => return Turn::Breaks,
        }
        self.is_opened = true;
        match self.outbox.put_bare(reply.as_slice()) {
            Ok(()) => Turn::GoesOn,
            Err(NoMemory) => Turn::Breaks,
        }
    }

    // Sends that it is closed.
    fn close(&mut self) -> Turn
        ensures told { result ≡ Turn.PartsNow → unsent_in self.new.outbox ≡ unsent_in self.old.outbox ++ closing_lines }
        ensures same { self.new ≡ record self.old { outbox = self.new.outbox } }
        ensures parts { (result ≡ Turn.PartsNow) ⊎ (result ≡ Turn.Breaks) }
    {
        match self.outbox.put(CLOSING) {
            Ok(()) => Turn::PartsNow,
            Err(NoMemory) => Turn::Breaks,
        }
    }
}
