//! A server between a source and a sink.
ghost use Rattle.std.specs.Prelude.{◌≡◌, ◌==◌, ◌<◌, ◌≤◌, ◌+◌, ◌++◌, ◌⊎◌, ℕ, List, length, position, Option, IfSome, MatchOption, true, false, Ok, Err, OnOk, IfErr};
ghost use Rattle.std.specs.Io.KnownBytes.{Appends, Consumes};
ghost use Rattle.session_wire.specs.Run.{Fed};
ghost use Rattle.session_wire.specs.Servers.{handler_of, is_closed, held_back, unread_of};
ghost use Rattle.fed_stream.specs.Known.{Known};
ghost use Rattle.fed_stream.specs.Calls.{ReadsStream, ReadsWithin, WritesStream};
ghost use Rattle.fed_stream.specs.Prompt.{Prompt, moment, seen};
ghost use Rattle.fed_stream.specs.Served.{Serves, Fails};
ghost use Rattle.fed_stream.specs.Streams.{stream};

use crate::{GivenUp, Sink, Source, flush, read_piece, write_front};
use session_wire::server::runs_join;
use session_wire::{Handler, Server};
use std::alloc::Global;
use thiserror::Error;

/// The most bytes of one read.
const PIECE: usize = 8_192;

/// The most reads of one stream.
const READS: u32 = 4_294_967_295;

/// How a stream ended.
#[derive(Clone, Copy, Debug, PartialEq, Eq)]
pub enum Ended {
    /// The input ended.
    Eof,
    /// A line closed the stream.
    Closed,
}

/// Why a stream was given up.
#[derive(Clone, Copy, Debug, PartialEq, Eq, Error)]
pub enum StreamFault {
    /// The input could not be read.
    #[error("read fault")]
    Read,
    /// A reply could not be written.
    #[error("write fault")]
    Write,
    /// The input did not end in as many reads as were allowed.
    #[error("too many reads")]
    TooLong,
    /// Room for a piece or its replies was refused.
    #[error("out of memory")]
    NoRoom,
}

/// Serves an input as [`serve_stream_within`] does, and reads at most 4,294,967,295 times.
pub fn serve_stream<H: Handler, R: Source, W: Sink>(
    alloc: Global,
    server: &mut Server<H>,
    reader: &mut R,
    writer: &mut W,
) -> Result<Ended, StreamFault>
    requires { H.sound (handler_of server.old) }
    ensures serves { is_closed server.old ≡ false
        → Serves H.step H.ended (handler_of server.old) (held_back server.old)
        (handler_of server.new) (unread_of server.new)
        (stream (R.remaining reader.old) (R.remaining reader.new))
        (stream (W.contents writer.old) (W.contents writer.new)) result }
    ensures reads { is_closed server.old ≡ false
        → Known (R.inlet reader.old) (R.inlet reader.new) (λ old new. ReadsStream old new result) }
    ensures writes { Known (W.outlet writer.old) (W.outlet writer.new) (λ old new. WritesStream old new result) }
    ensures prompt { is_closed server.old ≡ false
        → Prompt H.step H.ended (seen R.remaining R.inlet W.contents W.outlet)
        (moment (handler_of server.old) (held_back server.old) reader.old writer.old)
        (moment (handler_of server.new) (held_back server.new) reader.new writer.new) result }
    ensures closed_before { is_closed server.old ≡ true → (result ≡ Ok Ended.Closed)
        × (handler_of server.new ≡ handler_of server.old) × (is_closed server.new ≡ true)
        × (R.remaining reader.new ≡ R.remaining reader.old)
        × (W.contents writer.new ≡ W.contents writer.old) }
    ensures untouched { is_closed server.old ≡ true → (reader.new ≡ reader.old) × (writer.new ≡ writer.old) }
    ensures sound { H.sound (handler_of server.new) }
{
    serve_stream_within(alloc, server, reader, writer, READS)
}

/// Serves an input to its end, or to the line that closes the stream.
///
/// It reads pieces of at most 8,192 bytes, and answers each line by line: the replies to a line are written
/// and flushed before the next line is answered. It reads at most as many times as `reads` says, and an interrupted
/// read counts and is tried again. Of a server that is closed before, nothing is read.
///
/// After `Eof` the sink has got the text of the run of all bytes that the source had; after `Closed` of
/// those up to the closing line. After `Read` and `TooLong` what was read is a run, and its text was
/// written; after `NoRoom` too, but for the last piece. After `Write` what was read before the line whose reply could not be written was
/// served, and the run ends with that line: a front of its reply was written, and what came after it in the last piece is dropped.
///
/// Where the source tells what comes, `Eof` is answered only where nothing comes any more, `Read` only
/// after the one read that failed, and `TooLong` only after all the reads that are allowed. Where the sink tells its calls,
/// `Write` is answered only where one of them failed or 4,294,967,295 were interrupted, and after any other
/// end all that was written is flushed.
///
/// From one state of the source and the sink to the next one read gave a piece, the text of its lines was written and what was written was
/// flushed (`prompt`). Source and sink have no common order of calls, so that no clause says which of a read and a write came first.
pub fn serve_stream_within<H: Handler, R: Source, W: Sink>(
    alloc: Global,
    server: &mut Server<H>,
    reader: &mut R,
    writer: &mut W,
    reads: u32,
) -> Result<Ended, StreamFault>
    requires { H.sound (handler_of server.old) }
    ensures serves { is_closed server.old ≡ false
        → Serves H.step H.ended (handler_of server.old) (held_back server.old)
        (handler_of server.new) (unread_of server.new)
        (stream (R.remaining reader.old) (R.remaining reader.new))
        (stream (W.contents writer.old) (W.contents writer.new)) result }
    ensures reads { is_closed server.old ≡ false
        → Known (R.inlet reader.old) (R.inlet reader.new) (λ old new. ReadsWithin reads old new result) }
    ensures writes { Known (W.outlet writer.old) (W.outlet writer.new) (λ old new. WritesStream old new result) }
    ensures prompt { is_closed server.old ≡ false
        → Prompt H.step H.ended (seen R.remaining R.inlet W.contents W.outlet)
        (moment (handler_of server.old) (held_back server.old) reader.old writer.old)
        (moment (handler_of server.new) (held_back server.new) reader.new writer.new) result }
    ensures closed_before { is_closed server.old ≡ true → (result ≡ Ok Ended.Closed)
        × (handler_of server.new ≡ handler_of server.old) × (is_closed server.new ≡ true)
        × (R.remaining reader.new ≡ R.remaining reader.old)
        × (W.contents writer.new ≡ W.contents writer.old) }
    ensures untouched { is_closed server.old ≡ true → (reader.new ≡ reader.old) × (writer.new ≡ writer.old) }
    ensures sound { H.sound (handler_of server.new) }
{
    if server.is_closed() {
        return Ok(Ended::Closed);
    }
    runs_join::<H>();
    let mut piece = [0u8; PIECE];
    let mut out = Vec::new(alloc);
    let mut granted = reads;
    while granted > 0 {
        let count = match read_piece(reader, &mut piece, &mut granted) {
            Ok(0) => return Ok(Ended::Eof),
            Ok(count) => count,
            Err(GivenUp::Failed) => return Err(StreamFault::Read),
            Err(GivenUp::TooMany) => return Err(StreamFault::TooLong),
        };
        match answer_parts(server, &piece[..count], &mut out, writer) {
            Ok(()) => {}
            Err(fault) => return Err(fault),
        }
        if server.is_closed() {
            return Ok(Ended::Closed);
        }
    }
    Err(StreamFault::TooLong)
}

// Answers one piece, and writes the answer to each of its lines before the next is answered.
fn answer_parts<H: Handler, W: Sink>(
    server: &mut Server<H>,
    piece: &[u8],
    out: &mut Vec<u8>,
    writer: &mut W,
) -> Result<(), StreamFault>
    requires is_open { is_closed server.old ≡ false }
    requires sound { H.sound (handler_of server.old) }
    requires piece { length piece.now ≤ 8192 }
    ensures ok { OnOk result ((text : List ℕ)
        × Appends (W.contents writer.old) (W.contents writer.new) text
        × Fed H.step H.ended (handler_of server.old) (held_back server.old ++ piece.now) text
        (handler_of server.new) (unread_of server.new)) }
    ensures fault { IfErr result (λ fault. (had has : Option (List ℕ)) → Consumes had has piece.now
        → Serves H.step H.ended (handler_of server.old) (held_back server.old)
        (handler_of server.new) (unread_of server.new) (stream had has)
        (stream (W.contents writer.old) (W.contents writer.new)) (Err fault)) }
    ensures kind { IfErr result (λ fault. (fault ≡ StreamFault.Write) ⊎ (fault ≡ StreamFault.NoRoom)) }
    ensures writes { Known (W.outlet writer.old) (W.outlet writer.new) (λ old new. WritesStream old new result) }
    ensures sound { H.sound (handler_of server.new) }
{
    runs_join::<H>();
    let mut rest = piece;
    while !rest.is_empty() {
        let (part, others) = rest.split_at(first_line(rest));
        rest = others;
        match answer_piece(server, part, out, writer) {
            Ok(()) => {}
            Err(fault) => return Err(fault),
        }
        if server.is_closed() {
            return Ok(());
        }
    }
    Ok(())
}

// How long the first line of a piece is with its end, or the whole piece where it ends no line.
fn first_line(piece: &[u8]) -> usize
    ensures line { MatchOption (position (λ byte. byte == 10) piece.now)
        (result ≡ length piece.now) (λ place. result ≡ place + 1) }
    ensures within { result ≤ length piece.now }
    ensures onward { 0 < length piece.now → 0 < result }
{
    match line_feed(piece) {
        Some(place) => place + 1,
        None => piece.len(),
    }
}

// The place of the first line feed.
fn line_feed(piece: &[u8]) -> Option<usize>
    ensures place { result ≡ position (λ byte. byte == 10) piece.now }
    ensures within { IfSome result (λ place. place < length piece.now) }
{
    piece.iter().position(|byte| *byte == b'\n')
}

// Answers one part of a piece, and writes the answer.
fn answer_piece<H: Handler, W: Sink>(
    server: &mut Server<H>,
    piece: &[u8],
    out: &mut Vec<u8>,
    writer: &mut W,
) -> Result<(), StreamFault>
    requires open { is_closed server.old ≡ false }
    requires sound { H.sound (handler_of server.old) }
    ensures ok { OnOk result ((text : List ℕ)
        × Appends (W.contents writer.old) (W.contents writer.new) text
        × Fed H.step H.ended (handler_of server.old) (held_back server.old ++ piece.now) text
        (handler_of server.new) (unread_of server.new)) }
    ensures fault { IfErr result (Fails H.step H.ended (handler_of server.old)
        (held_back server.old ++ piece.now) (handler_of server.new) (unread_of server.new)
        (stream (W.contents writer.old) (W.contents writer.new))) }
    ensures kind { IfErr result (λ fault. (fault ≡ StreamFault.Write) ⊎ (fault ≡ StreamFault.NoRoom)) }
    ensures writes { Known (W.outlet writer.old) (W.outlet writer.new) (λ old new. WritesStream old new result) }
    ensures sound { H.sound (handler_of server.new) }
{
    out.clear();
    match server.feed(piece, out) {
        Ok(()) => {}
        Err(_) => return Err(StreamFault::NoRoom),
    }
    match write_front(writer, out.as_slice()) {
        Ok(()) => {}
        Err(_) => return Err(StreamFault::Write),
    }
    match flush(writer) {
        Ok(()) => Ok(()),
        Err(_) => Err(StreamFault::Write),
    }
}
