//! Streams that end, close or go on in the middle, by reads that fail, by a count of reads and where there is no room; and scripts.
ghost use Rattle.list_wrapper.specs.ListBoxes.{box_of};
ghost use Rattle.med_session.specs.Prelude.{IsSound, shown};
ghost use Rattle.session_wire.specs.Servers.{handler_of};
ghost use Rattle.std.specs.Prelude.{◌≡◌, ⊤, true, IfOk};

use crate::expect::{same, same_text};
use crate::list::demo_engine;
use fed_cli::{Ended, StreamFault, serve_stream, serve_stream_within};
use fed_setup::told::RunFault;
use fed_setup::{ScriptFault, replay};
use list_wrapper::ListWrapper;
use med_exec::ledger_at;
use med_session::{Engine, NoRoom, Request, Sid};
use med_value::Cause;
use session_wire::{FeedFault, Handler, Server};
use std::alloc::Global;
use std::io;
use std::io::{ErrorKind, Read};
use std::test::Fail;

const INPUT: &[u8] = b"1 OPEN ann\nx\n2 BYE\n1 Q rest";

const ANSWER: &[u8] = b"01\n0 E 08P01 protocol_violation\n02\n";

const CLOSED: &[u8] = b"0 E 08P01 protocol_violation\n0 T CLOSED\n";

// Answers each request by the last two digits of its session.
#[derive(Drop)]
struct Echo {
    is_ended: bool,
}

impl Handler for Echo {
    ghost step = { λ _ _ _ _ _. ⊤ };

    ghost ended = { λ _ new. new.is_ended ≡ true };

    ghost sound = { λ _. ⊤ };

    fn request(
        &mut self,
        sid: Sid,
        _request: Request<'_>,
        out: &mut Vec<u8>,
    ) -> Result<(), NoRoom> {
        let ten = (sid.number / 10 % 10) as u8;
        let unit = (sid.number % 10) as u8;
        let reply = [b'0' + ten, b'0' + unit, b'\n'];
        out.extend_from_slice(&reply).map_err(|_| NoRoom)
    }

    fn close_sessions(&mut self) {
        self.is_ended = true;
    }
}

// A server that echoes.
fn echo_server(alloc: Global) -> Result<Server<Echo>, Fail> {
    match Server::new(alloc, Echo { is_ended: false }) {
        Ok(server) => Ok(server),
        Err(_) => Err("no room for a server".into()),
    }
}

// Gives at most `step` bytes a read, and fails once, at the read after so many.
#[derive(Drop)]
struct Failing {
    bytes: &'static [u8],
    step: usize,
    before: Option<usize>,
}

impl Read for Failing {
    fn read(&mut self, buf: &mut [u8]) -> io::Result<usize> {
        if self.before == Some(0) {
            self.before = None;
            return Err(ErrorKind::Other.into());
        }
        self.before = self.before.map(|reads| reads.saturating_sub(1));
        let count = buf.len().min(self.bytes.len()).min(self.step);
        buf[..count].copy_from_slice(&self.bytes[..count]);
        self.bytes = &self.bytes[count..];
        Ok(count)
    }
}

// Fails where a stream does not go on behind a read that failed, after so many of one byte.
fn goes_on_after(alloc: Global, reads: usize) -> Result<(), Fail> {
    let case = format!(in alloc; "at read {reads}")?;
    let mut server = echo_server(alloc)?;
    let mut out = Vec::new(alloc);
    let mut reader = Failing {
        bytes: INPUT,
        step: 1,
        before: Some(reads),
    };
    let failed = serve_stream(alloc, &mut server, &mut reader, &mut out);
    let ended = serve_stream(alloc, &mut server, &mut reader, &mut out);
    same(
        &case,
        &(failed, ended),
        &(Err(StreamFault::Read), Ok(Ended::Eof)),
    )?;
    same_text(&case, &out, ANSWER)
}

#[test]
fn stream_goes_on_after_a_read_that_failed(rt: HostRuntime) -> Result<(), Fail> {
    for reads in 0..=INPUT.len() {
        goes_on_after(rt.alloc(), reads)?;
    }
    Ok(())
}

// The line that closes, and what stands behind it, is answered once.
#[test]
fn closing_line_ends_the_stream(rt: HostRuntime) -> Result<(), Fail> {
    let alloc = rt.alloc();
    let mut server = echo_server(alloc)?;
    let mut out = Vec::new(alloc);
    let mut reader = Failing {
        bytes: b"\xff\n1 BYE\n",
        step: 2,
        before: None,
    };
    let first = serve_stream(alloc, &mut server, &mut reader, &mut out);
    let second = serve_stream(alloc, &mut server, &mut reader, &mut out);
    same(
        "the ends",
        &(first, second),
        &(Ok(Ended::Closed), Ok(Ended::Closed)),
    )?;
    same_text("the replies", &out, CLOSED)?;
    same_text("what is left", reader.bytes, b"1 BYE\n")?;
    let fed = server.feed(b"1 BYE\n", &mut out);
    same("a line more", &fed, &Err(FeedFault::Closed))?;
    same("sessions ended", &server.finish().is_ended, &true)
}

// Is interrupted so many times, and then gives the input.
#[derive(Drop)]
struct Interrupted {
    times: u32,
    bytes: &'static [u8],
}

impl Read for Interrupted {
    fn read(&mut self, buf: &mut [u8]) -> io::Result<usize> {
        if self.times > 0 {
            self.times -= 1;
            return Err(ErrorKind::Interrupted.into());
        }
        self.bytes.read(buf)
    }
}

// Fails where so many reads of an input that is interrupted so often do not end so, with this text written.
fn ends_within(
    alloc: Global,
    reads: u32,
    times: u32,
    ended: Result<Ended, StreamFault>,
    text: &[u8],
) -> Result<(), Fail> {
    let case = format!(in alloc; "{reads} reads, {times} interruptions")?;
    let mut server = echo_server(alloc)?;
    let mut reader = Interrupted {
        times,
        bytes: INPUT,
    };
    let mut output = Vec::new(alloc);
    let came = serve_stream_within(alloc, &mut server, &mut reader, &mut output, reads);
    same(&case, &came, &ended)?;
    same(&case, &server.is_closed(), &false)?;
    same_text(&case, &output, text)
}

#[test]
fn reads_are_counted(rt: HostRuntime) -> Result<(), Fail> {
    let alloc = rt.alloc();
    let long = Err(StreamFault::TooLong);
    ends_within(alloc, 0, 0, long, b"")?;
    ends_within(alloc, 3, 4_294_967_295, long, b"")?;
    ends_within(alloc, 1, 0, long, ANSWER)?;
    ends_within(alloc, 2, 0, Ok(Ended::Eof), ANSWER)?;
    ends_within(alloc, 4, 3, long, ANSWER)?;
    ends_within(alloc, 5, 3, Ok(Ended::Eof), ANSWER)
}

// Leaves so many requests to another handler, each with no more room in the output than its reply takes. Then it asks for no room,
// and refuses where 128 bytes more have none.
#[derive(Drop)]
struct Tight<H> {
    inner: H,
    before: usize,
}

impl<H: Handler> Handler for Tight<H> {
    ghost step = { λ old sid request text new. H.step old.inner sid request text new.inner };

    ghost ended = { λ old new. H.ended old.inner new.inner };

    ghost sound = { λ handler. H.sound handler.inner };

    fn request(&mut self, sid: Sid, request: Request<'_>, out: &mut Vec<u8>) -> Result<(), NoRoom> {
        if self.before == 0 && out.capacity() - out.len() < 128 {
            return Err(NoRoom);
        }
        match self.inner.request(sid, request, out) {
            Ok(()) => {
                out.shrink_to_fit();
                self.before = self.before.saturating_sub(1);
                Ok(())
            }
            Err(NoRoom) => Err(NoRoom),
        }
    }

    fn close_sessions(&mut self) {
        self.inner.close_sessions()
    }
}

// A server over the demo list that has no room for a request after so many.
fn tight_server(
    alloc: Global,
    before: usize,
) -> Result<Server<Tight<Engine<ListWrapper>>>, RunFault<'static>>
    ensures { IfOk result (λ server. IsSound (shown box_of (handler_of server).inner)) }
{
    let handler = Tight {
        inner: demo_engine(alloc)?,
        before,
    };
    match Server::new(alloc, handler) {
        Ok(server) => Ok(server),
        Err(refused) => {
            drop(refused);
            Err(RunFault::NoMemory)
        }
    }
}

// The stored stream and the answers to its lines.
const STORED: &[u8] = b"1 OPEN ann\n1 Q SELECT id FROM parts WHERE id = 1\n";

const ALL: &[u8] = b"1 T OPEN\n1 H\tid\n1 R\t1\n1 T SELECT 1\n1 T BYE\n";

// With room for so many requests: how two feeds end, of the stored stream and of a BYE, how many bytes of all answers come, and how many scans were begun.
type Fed = (
    usize,
    Result<(), FeedFault>,
    Result<(), FeedFault>,
    usize,
    u64,
);

const FEDS: [Fed; 4] = [
    (0, Err(FeedFault::NoRoom), Err(FeedFault::Closed), 0, 0),
    (1, Err(FeedFault::NoRoom), Err(FeedFault::Closed), 9, 0),
    (2, Ok(()), Err(FeedFault::NoRoom), 35, 1),
    (3, Ok(()), Ok(()), 43, 1),
];

// Fails where two feeds end, answer or count otherwise, or leave a scan live.
fn feeds(alloc: Global, wanted: Fed) -> Result<(), Fail> {
    let (before, first, second, length, scans) = wanted;
    let case = format!(in alloc; "with room for {before}")?;
    let mut out = Vec::new(alloc);
    let mut server = tight_server(alloc, before)?;
    let came = (
        server.feed(STORED, &mut out),
        server.feed(b"1 BYE\n", &mut out),
    );
    let counts = ledger_at(&server.finish().inner.finish().slots, 0);
    same(&case, &came, &(first, second))?;
    same_text(&case, &out, &ALL[..length.min(ALL.len())])?;
    let counted = counts.map(|counts| (counts.next, counts.live));
    same(&case, &counted, &Some((scans, 0)))
}

#[test]
fn no_room_for_a_request_closes_the_stream(rt: HostRuntime) -> Result<(), Fail> {
    for wanted in FEDS {
        feeds(rt.alloc(), wanted)?;
    }
    Ok(())
}

#[test]
fn no_room_for_a_request_ends_the_stream_before_its_reply(rt: HostRuntime) -> Result<(), Fail> {
    let mut server = tight_server(rt.alloc(), 1)?;
    let mut out = Vec::new(rt.alloc());
    let mut input = STORED;
    let ended = serve_stream(rt.alloc(), &mut server, &mut input, &mut out);
    let is_closed = server.is_closed();
    drop(server);
    same("the end", &ended, &Err(StreamFault::NoRoom))?;
    same("closed", &is_closed, &true)?;
    same_text("the replies", &out, b"1 T OPEN\n")
}

// Scripts, and what they come to.
const SCRIPTS: [(&[u8], Result<u64, ScriptFault>); 5] = [
    (b"SELECT 1\n\n \t\nSELECT 2\r\nSELECT 3\r", Ok(3)),
    (
        b"\r\nSELECT 1\n\nSELEC 1\nSELECT 1\n",
        Err(ScriptFault::Line(4, Cause::Syntax)),
    ),
    (b"SELECT 1\n\xff", Err(ScriptFault::NotText)),
    (b"", Ok(0)),
    (
        b"SELECT 1\nSELECT id FROM parts\nDROP FOREIGN TABLE parts\nSELECT 1\nSELECT 1",
        Ok(5),
    ),
];

// What a script comes to over the demo list, and the reply to a user who opens session 64 after it.
fn came(alloc: Global, script: &[u8]) -> Result<(Result<u64, ScriptFault>, Vec<u8>), Fail> {
    let mut engine = demo_engine(alloc)?;
    let came = replay(&mut engine, "admin", script);
    let mut out = Vec::new(alloc);
    let asked = engine.request(Sid { number: 64 }, Request::Open("ann"), &mut out);
    drop(engine);
    asked?;
    Ok((came, out))
}

#[test]
fn lines_of_scripts_are_cut_and_counted(rt: HostRuntime) -> Result<(), Fail> {
    for (script, wanted) in SCRIPTS {
        let (ended, out) = came(rt.alloc(), script)?;
        same("the script", &ended, &wanted)?;
        same_text("the session", &out, b"64 T OPEN\n")?;
    }
    Ok(())
}
