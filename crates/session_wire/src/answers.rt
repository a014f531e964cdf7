// What a piece of a stream is answered.
ghost use Rattle.std.specs.Prelude.{◌≡◌, ◌++◌, ◌+◌, ◌<◌, ◌⊎◌, ℕ, List, length, IfOk, OnOk, OnErr, vec_len, vec_capacity};
ghost use Rattle.session_wire.specs.Lines.{IsFrontOfLine, Lines, lines_of};
ghost use Rattle.session_wire.specs.Run.{IsAnswered, IsNext, Run, RunFront, RunUpTo};
ghost use Rattle.session_wire.specs.Ends.{Leaves};

use crate::frames::frame;
use crate::handler::Handler;
use crate::lines::{FoundLine, new_codec, next_line};
use crate::replies::{write_closing, write_refusal};
use bytes::BytesMut;
use med_session::NoRoom;
use med_value::limits::LINE_LIMIT;

// How the lines of a piece end.
#[derive(Clone, Copy, Debug)]
pub(crate) enum End {
    // The stream goes on.
    Open,
    // A line closed it.
    Closed,
}

// Answers the lines that a piece makes with the unread bytes before it.
pub(crate) fn answer_piece<H: Handler>(
    handler: &mut H,
    unread: &mut BytesMut,
    piece: &[u8],
    out: &mut Vec<u8>,
) -> Result<End, NoRoom>
    requires sound { H.sound handler.old }
    requires front { IsFrontOfLine unread.old.items }
    ensures ok { IfOk result (λ end. (text : List ℕ) × (out.new.items ≡ out.old.items ++ text)
        × Run H.step H.ended handler.old (lines_of (unread.old.items ++ piece.now)) text handler.new
        × Leaves end (lines_of (unread.old.items ++ piece.now)) unread.new.items) }
    ensures err { OnErr result ((text : List ℕ) × (out.new.items ≡ out.old.items ++ text)
        × RunFront H.step handler.old (lines_of (unread.old.items ++ piece.now)) text handler.new) }
    ensures room { OnErr result (IsFrontOfLine (unread.old.items ++ piece.now) → unread.old.spare < length piece.now) }
    ensures cause { OnErr result (((unread.old.spare < length piece.now) × (out.new.items ≡ out.old.items) × (handler.new ≡ handler.old))
        ⊎ ((text : List ℕ) × (out.new.items ≡ out.old.items ++ text)
        × ((left : Lines) × RunUpTo H.step handler.old (lines_of (unread.old.items ++ piece.now)) text handler.new left × IsNext left))) }
    ensures sound { H.sound handler.new }
{
    // Bytes that end no line are not searched again when more come.
    let is_front = piece.len() <= LINE_LIMIT - unread.len() && !piece.contains(&b'\n');
    if unread.extend_from_slice(piece).is_err() {
        return Err(NoRoom);
    }
    if is_front {
        return Ok(End::Open);
    }
    answer_lines(handler, unread, out)
}

// Answers the whole lines that stand at the front of the unread bytes, and leaves the rest.
fn answer_lines<H: Handler>(
    handler: &mut H,
    unread: &mut BytesMut,
    out: &mut Vec<u8>,
) -> Result<End, NoRoom>
    requires { H.sound handler.old }
    ensures ok { IfOk result (λ end. (text : List ℕ) × (out.new.items ≡ out.old.items ++ text)
        × Run H.step H.ended handler.old (lines_of unread.old.items) text handler.new
        × Leaves end (lines_of unread.old.items) unread.new.items) }
    ensures err { OnErr result ((text : List ℕ) × (out.new.items ≡ out.old.items ++ text)
        × RunFront H.step handler.old (lines_of unread.old.items) text handler.new) }
    ensures cause { OnErr result ((text : List ℕ) × (out.new.items ≡ out.old.items ++ text)
        × ((left : Lines) × RunUpTo H.step handler.old (lines_of unread.old.items) text handler.new left × IsNext left)) }
    ensures sound { H.sound handler.new }
{
    let mut codec = new_codec();
    loop {
        let Ok(found) = next_line(&mut codec, unread) else {
            return Err(NoRoom);
        };
        match found {
            FoundLine::Line(text) => answer_line(handler, text.as_str(), out)?,
            FoundLine::Nothing => return Ok(End::Open),
            FoundLine::Closing => {
                write_closing(out)?;
                handler.close_sessions();
                return Ok(End::Closed);
            }
        }
    }
}

// Answers one line.
fn answer_line<H: Handler>(handler: &mut H, line: &str, out: &mut Vec<u8>) -> Result<(), NoRoom>
    requires { H.sound handler.old }
    ensures ok { OnOk result ((reply : List ℕ) × (out.new.items ≡ out.old.items ++ reply)
        × IsAnswered H.step handler.old line.now reply handler.new) }
    ensures refused { OnErr result ((handler.new ≡ handler.old) × (out.new.items ≡ out.old.items)) }
    ensures full { OnErr result (vec_capacity out.old < vec_len out.old + 128) }
    ensures sound { H.sound handler.new }
{
    match frame(line) {
        Ok((sid, request)) => handler.request(sid, request, out),
        Err(bad) => write_refusal(bad.sid, out),
    }
}
