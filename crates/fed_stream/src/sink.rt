//! What is written.
ghost use Rattle.std.specs.Prelude.{◌<◌, ℕ, List, Option, length, IfOk};
ghost use Rattle.std.specs.Io.{WritesAtMost};
ghost use Rattle.std.specs.Io.KnownBytes.{Keeps, WriteAppends};
ghost use Rattle.fed_stream.specs.Known.{Known};
ghost use Rattle.fed_stream.specs.Outlets.{Outlet, Writes, WritesOnce, Flushes, FlushesAtLast, FrontWritten};

use crate::source::{CallFault, GivenUp};

/// The most calls that are made of a sink for one answer.
const TRIES: u32 = 4_294_967_295;

/// What takes bytes.
pub trait Sink {
    /// The bytes that it was given, where they are known.
    ghost contents: { Self → Option (List ℕ) };

    /// The bytes that it took, how many of them were flushed, and which calls of it did nothing, where that is known.
    ghost outlet: { Self → Option Outlet };

    /// Writes once: a front of these bytes is put behind what was written before, and the answer is how many.
    ///
    /// Of some bytes at least one is taken. A call that was interrupted or failed took none.
    fn write_some(&mut self, bytes: &[u8]) -> Result<usize, CallFault>
        ensures bound { WritesAtMost result bytes.now }
        ensures onward { IfOk result (λ count. 0 < length bytes.now → 0 < count) }
        ensures bytes { WriteAppends (contents self.old) (contents self.new) result bytes.now }
        ensures done { Known (outlet self.old) (outlet self.new) (λ old new. Writes old new result bytes.now) };

    /// Flushes once: all bytes that it took have gone on then, unless the call was interrupted or failed.
    fn flush_some(&mut self) -> Result<(), CallFault>
        ensures bytes { Keeps (contents self.old) (contents self.new) }
        ensures done { Known (outlet self.old) (outlet self.new) (λ old new. Flushes old new result) };
}

/// Writes until the sink took some of these bytes, or failed. An interrupted write is tried again, up to 4,294,967,295 writes.
fn write_once<S: Sink>(sink: &mut S, bytes: &[u8]) -> Result<usize, GivenUp>
    ensures bound { WritesAtMost result bytes.now }
    ensures onward { IfOk result (λ count. 0 < length bytes.now → 0 < count) }
    ensures bytes { WriteAppends (S.contents sink.old) (S.contents sink.new) result bytes.now }
    ensures done { Known (S.outlet sink.old) (S.outlet sink.new) (λ old new. WritesOnce old new result bytes.now) }
{
    let mut left = TRIES;
    while left > 0 {
        left -= 1;
        match sink.write_some(bytes) {
            Ok(count) => return Ok(count),
            Err(CallFault::Interrupted) => {}
            Err(CallFault::Failed) => return Err(GivenUp::Failed),
        }
    }
    Err(GivenUp::TooMany)
}

/// Writes all of these bytes, or a front of them and then a call was given up. An interrupted write is tried again.
///
/// `Failed` where a write failed, and `TooMany` where 4,294,967,295 writes of the same bytes were interrupted.
pub fn write_front<S: Sink>(sink: &mut S, bytes: &[u8]) -> Result<(), GivenUp>
    ensures { FrontWritten (S.contents sink.old) (S.contents sink.new) (S.outlet sink.old) (S.outlet sink.new) result bytes.now }
{
    let mut rest = bytes;
    while !rest.is_empty() {
        match write_once(sink, rest) {
            Ok(count) => rest = &rest[count..],
            Err(fault) => return Err(fault),
        }
    }
    Ok(())
}

/// Flushes what was written. An interrupted flush is tried again.
///
/// `Failed` where a flush failed, and `TooMany` where 4,294,967,295 were interrupted.
pub fn flush<S: Sink>(sink: &mut S) -> Result<(), GivenUp>
    ensures bytes { Keeps (S.contents sink.old) (S.contents sink.new) }
    ensures done { Known (S.outlet sink.old) (S.outlet sink.new) (λ old new. FlushesAtLast old new result) }
{
    let mut left = TRIES;
    while left > 0 {
        left -= 1;
        match sink.flush_some() {
            Ok(()) => return Ok(()),
            Err(CallFault::Interrupted) => {}
            Err(CallFault::Failed) => return Err(GivenUp::Failed),
        }
    }
    Err(GivenUp::TooMany)
}
