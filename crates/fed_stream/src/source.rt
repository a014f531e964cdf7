//! What is read.
ghost use Rattle.std.specs.Prelude.{◌≡◌, ◌<◌, ◌≤◌, ◌-◌, ℕ, List, Option, length, Ok, Err, IfOk};
ghost use Rattle.std.specs.Io.{ReadsAtMost};
ghost use Rattle.std.specs.Io.KnownBytes.{ReadConsumes};
ghost use Rattle.fed_stream.specs.Known.{Known};
ghost use Rattle.fed_stream.specs.Inlets.{Inlet, Reads, ReadsPiece};

use thiserror::Error;

/// Why a call of a source or a sink did nothing.
#[derive(Clone, Copy, Debug, PartialEq, Eq, Error)]
pub enum CallFault {
    /// It was interrupted: the same call may be made again.
    #[error("interrupted")]
    Interrupted,
    /// It failed.
    #[error("failed")]
    Failed,
}

/// Why reads or writes were given up.
#[derive(Clone, Copy, Debug, PartialEq, Eq, Error)]
pub enum GivenUp {
    /// A call failed.
    #[error("failed")]
    Failed,
    /// As many calls were made as were granted, and each was interrupted.
    #[error("too many calls")]
    TooMany,
}

/// What a read of a source meets next.
#[derive(Clone, Copy, Debug, PartialEq, Eq)]
pub enum Arrival {
    /// This byte.
    Byte(u8),
    /// An interruption: one read gives nothing, and may be tried again.
    Interruption,
    /// A fault: one read fails.
    Fault,
}

/// What gives bytes.
pub trait Source {
    /// The bytes that reads will give from here on, where they are known.
    ghost remaining: { Self → Option (List ℕ) };

    /// What reads will meet from here on, and how many were made, where that is known.
    ghost inlet: { Self → Option Inlet };

    /// Reads once: the bytes are put at the front of the piece, and the answer is how many.
    ///
    /// Where the piece has room, no byte is answered only at the end. A call that was interrupted or failed gave none. Where what
    /// comes is known, an interruption is told only where one stands next, a failure only where a fault does, and the end only
    /// where nothing comes.
    fn read_some(&mut self, piece: &mut [u8]) -> Result<usize, CallFault>
        ensures bound { ReadsAtMost result piece.new }
        ensures bytes { ReadConsumes (remaining self.old) (remaining self.new) result piece.new }
        ensures met { Known (inlet self.old) (inlet self.new) (λ old new. Reads old new result piece.new) };
}

/// Reads until bytes came, the source ended or failed, or no read is left of those that are granted. An interrupted read is tried again.
///
/// The answer is how many bytes stand at the front of the piece: 0 at the end of the source alone. `Failed` where a read failed, and
/// `TooMany` where every read that was granted was interrupted. Each read takes one from `granted`.
pub fn read_piece<S: Source>(
    source: &mut S,
    piece: &mut [u8],
    granted: &mut u32,
) -> Result<usize, GivenUp>
    requires room { 0 < length piece.old }
    ensures bound { ReadsAtMost result piece.new }
    ensures bytes { ReadConsumes (S.remaining source.old) (S.remaining source.new) result piece.new }
    ensures met { Known (S.inlet source.old) (S.inlet source.new)
        (λ old new. ReadsPiece old new granted.old granted.new result piece.new) }
    ensures fewer { granted.new ≤ granted.old }
    ensures one { IfOk result (λ _. granted.new < granted.old) }
    ensures none_left { result ≡ Err GivenUp.TooMany → granted.new ≡ 0 }
{
    while *granted > 0 {
        *granted -= 1;
        match source.read_some(piece) {
            Ok(count) => return Ok(count),
            Err(CallFault::Interrupted) => {}
            Err(CallFault::Failed) => return Err(GivenUp::Failed),
        }
    }
    Err(GivenUp::TooMany)
}
