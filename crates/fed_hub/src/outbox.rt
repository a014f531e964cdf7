// What is to be sent to a connection and was not written yet.
ghost use Rattle.std.specs.Prelude.{◌≤◌, vec_len};

use crate::bare::put_bare;
use crate::peers::{NotNow, Peer};
use med_value::NoMemory;
use std::alloc::Global;

// Bytes that are to be sent, and how many of them were written.
#[derive(Drop)]
pub(crate) struct Outbox {
    pub bytes: Vec<u8>,
    pub sent: usize,
    pub ghost within: { sent ≤ vec_len bytes },
}

impl Outbox {
    ghost use Rattle.std.specs.Prelude.{◌≡◌, ◌++◌, ℕ, List, [], length, OnOk};
    ghost use Rattle.std.specs.Io.KnownBytes.{Appends};
    ghost use Rattle.fed_hub.specs.Bare.{bare};
    ghost use Rattle.fed_hub.specs.Boxes.{unsent_in};

    // Nothing is to be sent yet.
    pub fn new(alloc: Global) -> Outbox
        ensures { unsent_in result ≡ [] }
    {
        Outbox {
            bytes: Vec::new(alloc),
            sent: 0,
        }
    }

    // Returns how many bytes are to be written.
    pub fn len(&self) -> usize
        ensures { result ≡ length (unsent_in self.now) }
    {
        self.bytes.len() - self.sent
    }

    // Drops what was written, once that is no less than what is left.
    fn pack(&mut self)
        ensures { unsent_in self.new ≡ unsent_in self.old }
    {
        if self.sent >= self.bytes.len() - self.sent {
            self.bytes.drain(..self.sent);
            self.sent = 0;
        }
    }

    // Adds a reply without the number of its session. Fails only where memory was refused.
    pub fn put_bare(&mut self, reply: &[u8]) -> Result<(), NoMemory>
        ensures { OnOk result (unsent_in self.new ≡ unsent_in self.old ++ bare reply.now) }
    {
        self.pack();
        put_bare(reply, &mut self.bytes)
    }

    // Adds these bytes. Fails only where memory was refused.
    pub fn put(&mut self, bytes: &[u8]) -> Result<(), NoMemory>
        ensures { OnOk result (unsent_in self.new ≡ unsent_in self.old ++ bytes.now) }
    {
        self.pack();
        self.bytes.extend_from_slice(bytes).map_err(|_| NoMemory)
    }

    // Writes as much as the connection takes now. Fails with `Later` where it takes no more yet, and with `Failed` where it failed.
    pub fn send<P: Peer>(&mut self, peer: &mut P) -> Result<(), NotNow>
        ensures wrote { (front : List ℕ) × (unsent_in self.old ≡ front ++ unsent_in self.new)
            × Appends (P.contents peer.old) (P.contents peer.new) front }
        ensures all { OnOk result (unsent_in self.new ≡ []) }
        ensures kept { P.remaining peer.new ≡ P.remaining peer.old }
    {
        while self.sent < self.bytes.len() {
            match peer.write_now(&self.bytes[self.sent..]) {
                Ok(0) => return Err(NotNow::Failed),
                Ok(count) => self.sent += count,
                Err(fault) => return Err(fault),
            }
        }
        Ok(())
    }
}
