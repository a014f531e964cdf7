// A connection's line as a request of its session.
ghost use Rattle.std.specs.Prelude.{◌≡◌, ◌++◌, ◌↔◌, ℕ, List, IsTrue, IfOk, OnOk, OnErr, string_bytes};
ghost use Rattle.sql_meaning.specs.Requests.{opening};
ghost use Rattle.session_wire.specs.Frames.{IsRequest};
ghost use Rattle.session_wire.specs.Replies.{refusal};
ghost use Rattle.session_wire.specs.Run.{IsAnswered};
ghost use Rattle.fed_hub.specs.Said.{numbered, Opens};

use itoa::Buffer;
use med_session::users::is_user;
use med_session::{NoRoom, Sid};
use session_wire::{Handler, frame};
use std::alloc::Global;

// Returns whether a connection's line opens a session.
pub(crate) fn opens(text: &str) -> bool
    ensures { IsTrue result ↔ Opens text.now }
{
    match text.strip_prefix("OPEN ") {
        Some(user) => is_user(user),
        None => false,
    }
}

// Returns the request line of a session for a connection's line. Fails only where memory was refused.
fn numbered(alloc: Global, sid: Sid, text: &str) -> Result<String, NoRoom>
    ensures { IfOk result (λ line. string_bytes line ≡ numbered sid.number text.now) }
{
    let mut line = String::new(alloc);
    let mut digits = Buffer::new();
    let number = digits.format(sid.number);
    match line.push_str(number) {
        Ok(()) => {}
        Err(_) => return Err(NoRoom),
    }
    match line.push(' ') {
        Ok(()) => {}
        Err(_) => return Err(NoRoom),
    }
    match line.push_str(text) {
        Ok(()) => Ok(line),
        Err(_) => Err(NoRoom),
    }
}

// Writes the reply to a line that is not in the grammar.
fn write_refusal(sid: u16, out: &mut Vec<u8>) -> Result<(), NoRoom>
    ensures { OnOk result (out.new.items ≡ out.old.items ++ refusal sid) }
{
    let mut digits = Buffer::new();
    let number = digits.format(sid).as_bytes();
    match out.extend_from_slice(number) {
        Ok(()) => {}
        Err(_) => return Err(NoRoom),
    }
    out.extend_from_slice(b" E 08P01 protocol_violation\n")
        .map_err(|_| NoRoom)
}

// Requests in a connection's session what its line says. `reply` has the reply then, and nothing else.
//
// Fails only where memory was refused: then nothing was done.
pub(crate) fn ask<H: Handler>(
    alloc: Global,
    sid: Sid,
    text: &str,
    handler: &mut H,
    reply: &mut Vec<u8>,
) -> Result<(), NoRoom>
    requires { H.sound handler.old }
    ensures ok { OnOk result (IsAnswered H.step handler.old (numbered sid.number text.now) reply.new.items handler.new) }
    ensures refused { OnErr result (handler.new ≡ handler.old) }
    ensures sound { H.sound handler.new }
{
    reply.clear();
    let line = numbered(alloc, sid, text)?;
    match frame(line.as_str()) {
        Ok((own, request)) => handler.request(own, request, reply),
        Err(bad) => write_refusal(bad.sid, reply),
    }
}
