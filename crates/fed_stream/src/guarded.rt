//! A reader that counts as empty where it begins with a request line of HTTP.
//!
//! A page that is open in a browser can have the browser send requests to any port of the machine. The protocol would answer each of their
//! header lines as a bad line, and then run the lines of the body.
ghost use Rattle.std.specs.Prelude.{◌≡◌, ◌==◌, ◌<◌, ◌≤◌, ◌++◌, if◌then◌else◌, nat_lt, OnOk, IfOk, IfSome, length, take, drop, position};
ghost use Rattle.std.specs.List.{before_first, after_first, list_all};
ghost use Rattle.std.specs.Io.KnownBytes.{Keeps, ReadConsumes, prepend_known};
ghost use Rattle.std.specs.Io.{ReadsAtMost};
ghost use Rattle.fed_stream.specs.Guards.{IsFresh, begins_upper, first_line, guarded, is_method, is_request_line, is_upper, is_version};

use std::alloc::Global;
use std::io;
use std::io::{ErrorKind, Read};

/// The most bytes of one read while the first line is held back.
const PIECE: usize = 8_192;

/// The most bytes of a first line that count: one more than a line of the protocol may have before its line feed. A longer line closes the
/// protocol's stream.
const MOST: usize = 1_048_577;

/// How far a guard has come.
#[derive(Clone, Copy, Debug, PartialEq, Eq)]
pub enum Stage {
    /// The first line is held back: nothing was handed on yet.
    Begins,
    /// The first line is no request line: all bytes are handed on.
    Passes,
    /// The first line is a request line: no byte is handed on.
    Refused,
}

/// A reader over another one: it hands on all bytes of that one, or none, where these begin with a request line of HTTP.
///
/// A request line is a method of upper-case letters, a target and a version that begins with `HTTP/`, with a space between two of them.
/// The first line is held back until its line feed or the end has come, or as soon as it begins otherwise than with an upper-case letter.
#[derive(Drop)]
pub struct Guarded<R> {
    inner: R,
    held: Vec<u8>,
    given: usize,
    stage: Stage,
}

impl<R> Guarded<R> {
    /// A guard over this reader, of which nothing was read by it.
    pub fn new(alloc: Global, inner: R) -> Self
        ensures fresh { IsFresh result }
        ensures inner { result.inner ≡ inner }
    {
        Guarded {
            inner,
            held: Vec::new(alloc),
            given: 0,
            stage: Stage::Begins,
        }
    }

    /// The reader that it guards. What is held back is lost.
    pub fn into_inner(self) -> R
        ensures { result ≡ self.inner }
    {
        self.inner
    }

    // Hands on bytes that are held back: as many as the piece has room for.
    fn give(&mut self, piece: &mut [u8]) -> usize
        requires some { self.old.given < length self.old.held.items }
        ensures bound { result ≤ length piece.new }
        ensures given { drop self.old.given self.old.held.items ≡ take result piece.new ++ drop self.new.given self.old.held.items }
        ensures onward { 0 < length piece.old → 0 < result }
        ensures inner { self.new.inner ≡ self.old.inner }
        ensures held { self.new.held ≡ self.old.held }
        ensures stage { self.new.stage ≡ self.old.stage }
    {
        let (_, rest) = self.held.as_slice().split_at(self.given);
        let count = rest.len().min(piece.len());
        piece[..count].copy_from_slice(&rest[..count]);
        self.given += count;
        count
    }
}

impl<R: Read> Guarded<R> {
    // Whether bytes are handed on: it is known, or the first line is read.
    fn passes(&mut self) -> io::Result<bool>
        ensures kept { Keeps (guarded R.remaining self.old) (guarded R.remaining self.new) }
        ensures stage { IfOk result (λ passes. self.new.stage ≡ (if passes then Stage.Passes else Stage.Refused)) }
    {
        match self.stage {
            Stage::Passes => return Ok(true),
            Stage::Refused => return Ok(false),
            Stage::Begins => {}
        }
        match hold_line(&mut self.inner, &mut self.held) {
            Ok(()) => {}
            Err(error) => return Err(error),
        }
        self.given = 0;
        if begins_with_request(&self.held) {
            self.stage = Stage::Refused;
            return Ok(false);
        }
        self.stage = Stage::Passes;
        Ok(true)
    }

    // Hands bytes on: what is held back first.
    fn pass(&mut self, piece: &mut [u8]) -> io::Result<usize>
        requires { self.old.stage ≡ Stage.Passes }
        ensures bound { ReadsAtMost result piece.new }
        ensures bytes { ReadConsumes (guarded R.remaining self.old) (guarded R.remaining self.new) result piece.new }
    {
        if self.given < self.held.len() {
            return Ok(self.give(piece));
        }
        self.inner.read(piece)
    }
}

impl<R: Read> Read for Guarded<R> {
    ghost use Rattle.fed_stream.specs.Guards.{guarded};

    ghost remaining = { λ g. guarded R.remaining g };

    /// Fails as the reader that it guards does, and with `OutOfMemory` where room for the first line is refused; then the bytes are there
    /// still.
    fn read(&mut self, buf: &mut [u8]) -> io::Result<usize> {
        if buf.is_empty() {
            return Ok(0);
        }
        match self.passes() {
            Ok(true) => self.pass(buf),
            Ok(false) => Ok(0),
            Err(error) => Err(error),
        }
    }
}

// Reads until what is held shows whether the first line is a request line, whatever comes behind it.
fn hold_line<R: Read>(inner: &mut R, held: &mut Vec<u8>) -> io::Result<()>
    ensures kept { Keeps (prepend_known held.old.items (R.remaining inner.old)) (prepend_known held.new.items (R.remaining inner.new)) }
    ensures shown { OnOk result (IfSome (R.remaining inner.new) (λ rest. is_request_line (first_line (held.new.items ++ rest))
        ≡ is_request_line (first_line held.new.items))) }
{
    let mut piece = [0u8; PIECE];
    while held.len() < MOST {
        match held.reserve(PIECE) {
            Ok(()) => {}
            Err(_) => return Err(io::Error::from(ErrorKind::OutOfMemory)),
        }
        let count = match inner.read(&mut piece) {
            Ok(0) => return Ok(()),
            Ok(count) => count,
            Err(error) => return Err(error),
        };
        let more = &piece[..count];
        let _ = held.extend_from_slice(more);
        if more.contains(&b'\n') {
            return Ok(());
        }
        if !begins_upper(held) {
            return Ok(());
        }
    }
    Ok(())
}

// Whether some bytes begin with an upper-case letter.
fn begins_upper(bytes: &[u8]) -> bool
    ensures { result ≡ begins_upper bytes.now }
{
    match bytes.first() {
        Some(byte) => is_upper(*byte),
        None => false,
    }
}

// Whether some bytes begin with a request line.
fn begins_with_request(bytes: &[u8]) -> bool
    ensures { result ≡ is_request_line (first_line bytes.now) }
{
    let (line, _) = parted(counted(bytes), b'\n');
    is_request_line(line)
}

// Those of the bytes that count for the first line.
fn counted(bytes: &[u8]) -> &[u8]
    ensures { result.now ≡ take 1048577 bytes.now }
{
    if bytes.len() < MOST {
        return bytes;
    }
    &bytes[..MOST]
}

// Whether a line is a request line.
fn is_request_line(line: &[u8]) -> bool
    ensures { result ≡ is_request_line line.now }
{
    let (method, rest) = parted(line, b' ');
    let (target, version) = parted(rest, b' ');
    is_method(method) & (is_word(target) & is_version(version))
}

// Whether this is a method's name.
fn is_method(name: &[u8]) -> bool
    ensures { result ≡ is_method name.now }
{
    is_word(name) && all_upper(name)
}

// Whether there is any byte.
fn is_word(bytes: &[u8]) -> bool
    ensures { result ≡ nat_lt 0 (length bytes.now) }
{
    !bytes.is_empty()
}

fn all_upper(name: &[u8]) -> bool
    ensures { result ≡ list_all is_upper name.now }
{
    name.iter().all(|byte| is_upper(*byte))
}

fn is_upper(byte: u8) -> bool
    ensures { result ≡ is_upper byte }
{
    byte.is_ascii_uppercase()
}

// Whether this begins as a version.
fn is_version(version: &[u8]) -> bool
    ensures { result ≡ is_version version.now }
{
    version.starts_with(b"HTTP/")
}

// What stands before the first such byte, and behind it: all and nothing where there is none.
fn parted(bytes: &[u8], separator: u8) -> (&[u8], &[u8])
    ensures before { result.0.now ≡ before_first (λ byte. byte == separator) bytes.now }
    ensures after { result.1.now ≡ after_first (λ byte. byte == separator) bytes.now }
{
    match place_of(bytes, separator) {
        Some(place) => (&bytes[..place], &bytes[place + 1..]),
        None => (bytes, &[]),
    }
}

// The place of the first such byte.
fn place_of(bytes: &[u8], separator: u8) -> Option<usize>
    ensures place { result ≡ position (λ byte. byte == separator) bytes.now }
    ensures within { IfSome result (λ place. place < length bytes.now) }
{
    bytes.iter().position(|byte| *byte == separator)
}
