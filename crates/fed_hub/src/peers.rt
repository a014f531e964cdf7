//! Where connections come from, and what a hub does with one: nothing that it calls waits, but `wait`.
ghost use Rattle.std.specs.Prelude.{◌≡◌, ℕ, List, Option, IfOk, OnErr};
ghost use Rattle.std.specs.Io.{ReadsAtMost, WritesAtMost};
ghost use Rattle.std.specs.Io.KnownBytes.{ReadConsumes, WriteAppends};

use thiserror::Error;

/// Why a call did nothing.
#[derive(Clone, Copy, Debug, PartialEq, Eq, Error)]
pub enum NotNow {
    /// It would have waited: what is ready is reported later.
    #[error("not ready")]
    Later,
    /// It failed.
    #[error("failed")]
    Failed,
}

/// A connection.
pub trait Peer: Drop {
    /// The bytes that reads will give from here on, where they are known.
    ghost remaining: { Self → Option (List ℕ) };

    /// The bytes that were written to it, where they are known.
    ghost contents: { Self → Option (List ℕ) };

    /// Reads what is there into the beginning of the piece, and returns how many bytes that were.
    ///
    /// Where the piece has room, it returns 0 only at the end. Fails with `Later` where nothing is there yet, and with `Failed` where the
    /// connection failed: then none was read.
    fn read_now(&mut self, piece: &mut [u8]) -> Result<usize, NotNow>
        ensures bound { ReadsAtMost result piece.new }
        ensures bytes { ReadConsumes (remaining self.old) (remaining self.new) result piece.new }
        ensures kept { contents self.new ≡ contents self.old };

    /// Writes as many of these bytes as it takes now, from the first on, and returns how many.
    ///
    /// Fails with `Later` where it takes none yet, and with `Failed` where the connection failed: then none was written.
    fn write_now(&mut self, bytes: &[u8]) -> Result<usize, NotNow>
        ensures bound { WritesAtMost result bytes.now }
        ensures bytes { WriteAppends (contents self.old) (contents self.new) result bytes.now }
        ensures kept { remaining self.new ≡ remaining self.old };
}

/// What is ready: the next connection, or one that was taken.
#[derive(Clone, Copy, Debug, PartialEq, Eq)]
pub enum Ready {
    /// A connection may be taken.
    Door,
    /// The connection in this place may be read or written, and its end comes or not.
    Place { place: usize, ends: bool },
}

/// What a wait came to.
#[derive(Clone, Copy, Debug, PartialEq, Eq)]
pub enum Waited {
    /// Something may be ready.
    Woken,
    /// Nothing was ready for as long as the hub may be silent.
    Silent,
}

/// No connection could be taken, or it could not be waited for one.
#[derive(Clone, Copy, Debug, PartialEq, Eq, Error)]
#[error("connection fault")]
pub struct PeersFault;

/// Where connections come from. Which of them is ready, and when, is any choice: no clause speaks of it.
pub trait Peers {
    /// A connection.
    type Peer: Peer;

    /// Takes the next connection, which is known by this place from here on. Returns `None` where none is there yet, and fails where none
    /// could be taken.
    fn take(&mut self, place: usize) -> Result<Option<Self::Peer>, PeersFault>;

    /// Waits until something may be ready. It does not wait where the hub is busy. Fails where the system cannot wait.
    fn wait(&mut self, is_busy: bool) -> Result<Waited, PeersFault>;

    /// Returns what else may be ready since the last wait, or `None`.
    fn next_ready(&mut self) -> Option<Ready>;
}
