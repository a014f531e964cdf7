//! Texts in parts, that are written to a sink.
ghost use Rattle.fed_stream.specs.Outlets.{FrontWritten};
ghost use Rattle.fed_stream.specs.Parts.{joined, line_of};

use crate::{GivenUp, Sink, write_front};

/// Writes these parts one after the other, or a front of that text and then a call was given up. An interrupted write is tried again.
///
/// `Failed` where a write failed, and `TooMany` where 4,294,967,295 writes of the same bytes were interrupted.
pub fn write_parts<S: Sink>(sink: &mut S, parts: &[&str]) -> Result<(), GivenUp>
    ensures { FrontWritten (S.contents sink.old) (S.contents sink.new) (S.outlet sink.old) (S.outlet sink.new) result (joined parts.now) }
{
    let Some((part, others)) = parts.split_first() else {
        return Ok(());
    };
    match write_front(sink, part.as_bytes()) {
        Ok(()) => write_parts(sink, others),
        Err(fault) => Err(fault),
    }
}

/// Writes the program's line of these parts: its name comes before them, and a line feed after them. It ends as `write_parts` does.
pub fn write_line<S: Sink>(sink: &mut S, parts: &[&str]) -> Result<(), GivenUp>
    ensures { FrontWritten (S.contents sink.old) (S.contents sink.new) (S.outlet sink.old) (S.outlet sink.new) result (line_of parts.now) }
{
    match write_front(sink, b"fedq: ") {
        Ok(()) => {}
        Err(fault) => return Err(fault),
    }
    match write_parts(sink, parts) {
        Ok(()) => {}
        Err(fault) => return Err(fault),
    }
    write_front(sink, b"\n")
}
