//! A hub over connections in memory: what each is sent, and that each session is closed.
ghost use Rattle.std.specs.Prelude.{None, ⊤};

use fed_hub::{HubEnd, HubFault, NotNow, Peer, Peers, PeersFault, Ready, Waited, serve_peers};
use med_session::{NoRoom, Request, Sid};
use session_wire::Handler;
use std::alloc::Global;
use std::cell::Cell;
use std::test::Fail;

const CLOSING: &[u8] = b"E 08P01 protocol_violation\nT CLOSED\n";

const OPENED: &[u8] = b"1 T OPEN\n";

const SELECTED: &[u8] = b"1 H\ta b\n1 R\t1 2\n1 T SELECT 1\n";

const CLOSED: &[u8] = b"1 T BYE\n";

// Answers each request of session 1 by what it is, and counts how often a session is closed.
#[derive(Drop)]
struct Echo {
    closed: u32,
}

impl Handler for Echo {
    ghost step = { λ _ _ _ _ _. ⊤ };

    ghost ended = { λ _ _. ⊤ };

    ghost sound = { λ _. ⊤ };

    fn request(
        &mut self,
        _sid: Sid,
        request: Request<'_>,
        out: &mut Vec<u8>,
    ) -> Result<(), NoRoom> {
        let (reply, closed) = match request {
            Request::Open(_) => (OPENED, 0),
            Request::Sql(_) => (SELECTED, 0),
            Request::Bye => (CLOSED, 1),
        };
        match out.extend_from_slice(reply) {
            Ok(()) => {
                self.closed = self.closed.saturating_add(closed);
                Ok(())
            }
            Err(_) => Err(NoRoom),
        }
    }

    fn close_sessions(&mut self) {}
}

// A connection that sends this, two bytes a read, and then ends or fails. It notes how many bytes it was sent of those that are wanted.
#[derive(Drop)]
struct Wire<'a> {
    sends: &'a [u8],
    fails: bool,
    wanted: &'a [u8],
    right: &'a Cell<usize>,
}

impl Peer for Wire<'_> {
    ghost remaining = { λ _. None };

    ghost contents = { λ _. None };

    fn read_now(&mut self, piece: &mut [u8]) -> Result<usize, NotNow> {
        let count = self.sends.len().min(piece.len()).min(2);
        if count == 0 && self.fails {
            return Err(NotNow::Failed);
        }
        let sends = self.sends;
        piece[..count].copy_from_slice(&sends[..count]);
        self.sends = &sends[count..];
        Ok(count)
    }

    fn write_now(&mut self, bytes: &[u8]) -> Result<usize, NotNow> {
        let count = bytes.len().min(3);
        let right = self.right.get();
        if right <= self.wanted.len() && self.wanted[right..].starts_with(&bytes[..count]) {
            self.right.set(right.saturating_add(count));
            return Ok(count);
        }
        self.right.set(usize::MAX);
        Err(NotNow::Failed)
    }
}

// Connections that come one after the other, and n waits before silence. After each wait the last that came is ready.
#[derive(Drop)]
struct Wires<'a> {
    comes: Vec<Wire<'a>>,
    waits: u32,
    ready: Option<usize>,
    place: usize,
}

impl<'a> Peers for Wires<'a> {
    type Peer = Wire<'a>;

    fn take(&mut self, place: usize) -> Result<Option<Wire<'a>>, PeersFault> {
        self.place = place;
        Ok(self.comes.pop())
    }

    fn wait(&mut self, _is_busy: bool) -> Result<Waited, PeersFault> {
        if self.waits == 0 {
            return Ok(Waited::Silent);
        }
        self.waits = self.waits.saturating_sub(1);
        self.ready = Some(self.place);
        Ok(Waited::Woken)
    }

    fn next_ready(&mut self) -> Option<Ready> {
        let place = self.ready.take()?;
        Some(Ready::Place { place, ends: false })
    }
}

// Serves one connection that sends this and wants this sent, until it is let go or this number of waits is over. One session is closed.
fn serve_one(
    alloc: Global,
    sends: &[u8],
    fails: bool,
    wanted: &[u8],
    waits: u32,
) -> Result<HubEnd, Fail> {
    let right = Cell::new(0);
    let mut comes = Vec::new(alloc);
    comes.push(Wire {
        sends,
        fails,
        wanted,
        right: &right,
    })?;
    let mut wires = Wires {
        comes,
        waits,
        ready: None,
        place: 0,
    };
    let mut echo = Echo { closed: 0 };
    let came = serve_peers(alloc, &mut echo, &mut wires, 1);
    if right.get() != wanted.len() {
        return Err("other bytes were sent than are wanted".into());
    }
    if echo.closed != 1 {
        return Err("not one session was closed".into());
    }
    match came {
        Ok(end) => Ok(end),
        Err(HubFault::NoMemory) => Err("out of memory".into()),
        Err(HubFault::Wait) => Err("a wait failed".into()),
        Err(HubFault::TooLong) => Err("too many turns".into()),
    }
}

#[test]
fn replies_have_no_number(rt: HostRuntime) -> Result<(), Fail> {
    let sends = b"OPEN ann\nQ one 2\r\nwhat\nQ rest";
    let wanted = b"T OPEN\nH\ta b\nR\t1 2\nT SELECT 1\nE 08P01 protocol_violation\n";
    let end = serve_one(rt.alloc(), sends, false, wanted, 100)?;
    same("end", &end, &HubEnd::Served)
}

#[test]
fn first_line_opens_a_session(rt: HostRuntime) -> Result<(), Fail> {
    let sends = b"GET / HTTP/1.1\r\nQ one\n";
    let end = serve_one(rt.alloc(), sends, false, CLOSING, 100)?;
    same("end", &end, &HubEnd::Served)
}

#[test]
fn line_that_is_no_text_closes(rt: HostRuntime) -> Result<(), Fail> {
    let sends = b"OPEN ann\n\xff\nQ one\n";
    let wanted = b"T OPEN\nE 08P01 protocol_violation\nT CLOSED\n";
    let end = serve_one(rt.alloc(), sends, false, wanted, 100)?;
    same("end", &end, &HubEnd::Served)
}

#[test]
fn failed_connection_is_let_go(rt: HostRuntime) -> Result<(), Fail> {
    let end = serve_one(rt.alloc(), b"OPEN ann\nQ o", true, b"T OPEN\n", 100)?;
    same("end", &end, &HubEnd::Served)
}

#[test]
fn silence_closes_what_is_open(rt: HostRuntime) -> Result<(), Fail> {
    let sends = b"OPEN ann\nQ one\nQ two\n";
    let end = serve_one(rt.alloc(), sends, false, b"T OPEN\n", 7)?;
    same("end", &end, &HubEnd::Silent)
}

// Fails where the hub ended otherwise than is wanted.
fn same(case: &str, came: &HubEnd, wanted: &HubEnd) -> Result<(), Fail> {
    if came == wanted {
        return Ok(());
    }
    Err(Fail::new(format_args!("{case}: wanted {wanted:?}, came {came:?}")))
}
