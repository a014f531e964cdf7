//! Readers and writers of the library as sources and sinks.
//!
//! They tell the bytes that their own clauses tell, and nothing more: which calls fail and which are interrupted, how many there
//! are, and what a flush does is not known of them.
ghost use Rattle.std.specs.Prelude.{None};

use crate::sink::Sink;
use crate::source::{CallFault, Source};
use std::io;
use std::io::{ErrorKind, Read, Write};

/// How a call that ended in this error is told.
fn fault_of(error: io::Error) -> CallFault {
    match error.kind() {
        ErrorKind::Interrupted => CallFault::Interrupted,
        _ => CallFault::Failed,
    }
}

impl<R: Read> Source for R {
    ghost remaining = { λ reader. R.remaining reader };

    ghost inlet = { λ _. None };

    fn read_some(&mut self, piece: &mut [u8]) -> Result<usize, CallFault> {
        match self.read(piece) {
            Ok(count) => Ok(count),
            Err(error) => Err(fault_of(error)),
        }
    }
}

impl<W: Write> Sink for W {
    ghost contents = { λ writer. W.contents writer };

    ghost outlet = { λ _. None };

    /// A writer that takes none of some bytes failed.
    fn write_some(&mut self, bytes: &[u8]) -> Result<usize, CallFault> {
        match self.write(bytes) {
            Ok(0) if !bytes.is_empty() => Err(CallFault::Failed),
            Ok(count) => Ok(count),
            Err(error) => Err(fault_of(error)),
        }
    }

    fn flush_some(&mut self) -> Result<(), CallFault> {
        match self.flush() {
            Ok(()) => Ok(()),
            Err(error) => Err(fault_of(error)),
        }
    }
}
