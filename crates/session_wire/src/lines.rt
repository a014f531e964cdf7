//! How a stream of bytes is cut into request lines.
//!
//! A line ends in LF, and one CR before it is dropped. It has at most 1,048,576 bytes before its LF, the
//! CR counted, and is UTF-8. A line that is longer, as soon as that is seen, or that is no UTF-8 closes
//! the stream. `LinesCodec` of `tokio_util` cuts the lines.
ghost use Rattle.std.specs.Prelude.{◌≡◌, ◌++◌, List, ℕ, IfOk, OnErr};
ghost use Rattle.med_value.specs.Limits.{line_limit};
ghost use Rattle.session_wire.specs.Lines.{lines_of, go_on};
ghost use Rattle.session_wire.specs.Finds.{Finds, HasLine, IsReady};

use bytes::BytesMut;
use med_value::NoMemory;
use med_value::limits::LINE_LIMIT;
use std::io;
use tokio_util::codec::{Decoder, LinesCodec, LinesCodecError};

/// What stands at the front of some bytes.
#[derive(Drop)]
pub enum FoundLine {
    /// The text of a whole line.
    Line(String),
    /// No whole line yet.
    Nothing,
    /// A line that closes the stream.
    Closing,
}

/// A codec for the lines of a stream of which nothing is read yet.
pub fn new_codec() -> LinesCodec
    ensures { (xs : List ℕ) → IsReady line_limit result xs }
{
    LinesCodec::new_with_max_length(LINE_LIMIT)
}

/// Takes the next line from the front of some bytes, and leaves the bytes where there is none yet.
///
/// Refused only for want of memory, and only where a whole line that does not close the stream stands at the front: the codec takes memory
/// for the text of such a line alone. Nothing of the bytes that are left is promised then.
pub fn next_line(codec: &mut LinesCodec, unread: &mut BytesMut) -> Result<FoundLine, NoMemory>
    requires { IsReady line_limit codec.old unread.old.items }
    ensures found { IfOk result (λ found. Finds found unread.old.items codec.new unread.new.items) }
    ensures memory { OnErr result (HasLine (lines_of unread.old.items)) }
{
    match codec.decode(unread) {
        Ok(Some(text)) => Ok(FoundLine::Line(text)),
        Ok(None) => Ok(FoundLine::Nothing),
        Err(LinesCodecError::MaxLineLengthExceeded) => Ok(FoundLine::Closing),
        Err(LinesCodecError::Io(error)) => match error.kind() {
            io::ErrorKind::InvalidData => Ok(FoundLine::Closing),
            _ => Err(NoMemory),
        },
    }
}

/// The law of pieces: the lines of two pieces joined are those of the first, and then those of its rest
/// with the second.
pub fn pieces_join()
    ensures { (xs ys : List ℕ)
        → lines_of (xs ++ ys) ≡ go_on (lines_of xs) (λ after. lines_of (after ++ ys)) }
{}
