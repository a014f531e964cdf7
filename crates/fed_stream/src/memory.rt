//! Sources and sinks in memory, that tests stand on.
ghost use Rattle.std.specs.Prelude.{◌≡◌, ◌<◌, ◌≤◌, Option, None, Some, length, take, map};
ghost use Rattle.fed_stream.specs.declared.source.Arrival.TheVariants.{Byte};

use crate::sink::Sink;
use crate::source::{Arrival, CallFault, Source};
use std::alloc::Global;

/// A source of which it is known what comes. It counts its reads.
#[derive(Drop)]
pub struct MemorySource<'a> {
    comes: &'a [Arrival],
    reads: u64,
}

impl<'a> MemorySource<'a> {
    ghost use Rattle.fed_stream.specs.Memory.{inlet_of};

    /// A source to which this comes, and of which nothing was read.
    pub fn new(comes: &'a [Arrival]) -> Self
        ensures comes { (inlet_of result).comes ≡ comes.now }
        ensures reads { (inlet_of result).reads ≡ 0 }
    {
        MemorySource { comes, reads: 0 }
    }

    /// How many reads were made, up to 2^64 - 1.
    pub fn reads(&self) -> u64
        ensures { result ≡ (inlet_of self.now).reads }
    {
        self.reads
    }

    /// What comes next.
    pub fn comes(&self) -> &'a [Arrival]
        ensures { result.now ≡ (inlet_of self.now).comes }
    {
        self.comes
    }
}

// Copies the bytes that come first, of which the first was copied already, to the front of a piece: as many as it has room for.
fn copy_bytes(comes: &[Arrival], piece: &mut [u8]) -> usize
    requires some { 0 < length comes.now }
    requires room { 0 < length piece.old }
    requires first { take 1 comes.now ≡ map Byte (take 1 piece.old) }
    ensures some { 0 < result }
    ensures within { result ≤ length comes.now }
    ensures fits { result ≤ length piece.new }
    ensures copied { take result comes.now ≡ map Byte (take result piece.new) }
{
    let mut count = 1;
    while count < comes.len() && count < piece.len() {
        let Arrival::Byte(byte) = comes[count] else {
            return count;
        };
        piece[count] = byte;
        count += 1;
    }
    count
}

impl Source for MemorySource<'_> {
    ghost use Rattle.fed_stream.specs.Inlets.{bytes_of};
    ghost use Rattle.fed_stream.specs.Memory.{inlet_of};

    ghost remaining = { λ s. Some (bytes_of (inlet_of s).comes) };

    ghost inlet = { λ s. Some (inlet_of s) };

    fn read_some(&mut self, piece: &mut [u8]) -> Result<usize, CallFault> {
        self.reads = self.reads.saturating_add(1);
        if piece.is_empty() {
            return Ok(0);
        }
        let comes = self.comes;
        let Some((first, others)) = comes.split_first() else {
            return Ok(0);
        };
        match first {
            Arrival::Byte(byte) => {
                piece[0] = *byte;
                let count = copy_bytes(comes, piece);
                self.comes = &comes[count..];
                Ok(count)
            }
            Arrival::Interruption => {
                self.comes = others;
                Err(CallFault::Interrupted)
            }
            Arrival::Fault => {
                self.comes = others;
                Err(CallFault::Failed)
            }
        }
    }
}

/// What a call of a sink in memory does.
#[derive(Clone, Copy, Debug, PartialEq, Eq)]
pub enum Answer {
    /// A write takes one byte alone; a flush is done.
    TakesOne,
    /// The call is interrupted.
    Interruption,
    /// The call fails.
    Fault,
}

/// A sink that keeps what it takes, and counts what it is asked.
///
/// Its calls do what is asked of them one after the other, and behind the last of these each takes all and is done, unless memory is
/// refused: then the call failed.
#[derive(Drop)]
pub struct MemorySink<'a> {
    answers: &'a [Answer],
    bytes: Vec<u8>,
    flushed: usize,
    interruptions: u64,
    faults: u64,
}

impl<'a> MemorySink<'a> {
    ghost use Rattle.fed_stream.specs.Memory.{outlet_of};
    ghost use Rattle.std.specs.Prelude.{[]};
    ghost use Rattle.fed_stream.specs.Outlets.{Does, nothing_done};

    /// A sink that took nothing, of which the next calls answer so.
    pub fn new(alloc: Global, answers: &'a [Answer]) -> Self
        ensures { outlet_of result ≡ nothing_done }
    {
        MemorySink {
            answers,
            bytes: Vec::new(alloc),
            flushed: 0,
            interruptions: 0,
            faults: 0,
        }
    }

    /// The bytes that it took.
    pub fn bytes(&self) -> &[u8]
        ensures { result.now ≡ (outlet_of self.now).bytes }
    {
        self.bytes.as_slice()
    }

    /// How many of its bytes were flushed.
    pub fn flushed(&self) -> usize
        ensures { result ≡ (outlet_of self.now).flushed }
    {
        self.flushed
    }

    /// How many of its calls were interrupted, up to 2^64 - 1.
    pub fn interruptions(&self) -> u64
        ensures { result ≡ (outlet_of self.now).interruptions }
    {
        self.interruptions
    }

    /// How many of its calls failed, up to 2^64 - 1.
    pub fn faults(&self) -> u64
        ensures { result ≡ (outlet_of self.now).faults }
    {
        self.faults
    }

    // What the next call does, if it was said.
    fn next_answer(&mut self) -> Option<Answer>
        ensures { outlet_of self.new ≡ outlet_of self.old }
    {
        let answers = self.answers;
        let (first, others) = answers.split_first()?;
        self.answers = others;
        Some(*first)
    }

    // Counts a call that failed.
    fn count_fault(&mut self) -> CallFault
        ensures fault { result ≡ CallFault.Failed }
        ensures counted { Does (outlet_of self.old) (outlet_of self.new) [] 0 1 }
        ensures flushed { self.new.flushed ≡ self.old.flushed }
    {
        self.faults = self.faults.saturating_add(1);
        CallFault::Failed
    }
}

impl Sink for MemorySink<'_> {
    ghost use Rattle.fed_stream.specs.Memory.{outlet_of};

    ghost contents = { λ s. Some (outlet_of s).bytes };

    ghost outlet = { λ s. Some (outlet_of s) };

    fn write_some(&mut self, bytes: &[u8]) -> Result<usize, CallFault> {
        let count = match self.next_answer() {
            None => bytes.len(),
            Some(Answer::TakesOne) => bytes.len().min(1),
            Some(Answer::Interruption) => {
                self.interruptions = self.interruptions.saturating_add(1);
                return Err(CallFault::Interrupted);
            }
            Some(Answer::Fault) => return Err(self.count_fault()),
        };
        match self.bytes.extend_from_slice(&bytes[..count]) {
            Ok(()) => Ok(count),
            Err(_) => Err(self.count_fault()),
        }
    }

    fn flush_some(&mut self) -> Result<(), CallFault> {
        match self.next_answer() {
            None | Some(Answer::TakesOne) => {
                self.flushed = self.bytes.len();
                Ok(())
            }
            Some(Answer::Interruption) => {
                self.interruptions = self.interruptions.saturating_add(1);
                Err(CallFault::Interrupted)
            }
            Some(Answer::Fault) => Err(self.count_fault()),
        }
    }
}
