//! Blobs in memory whose device fails once.
ghost use Rattle.std.specs.Prelude.{◌≡◌, ◌↔◌, ◌+◌, ℕ, Some, None, option_map, IsTrue};
ghost use Rattle.blob_store.specs.Memory.{bytes_under};
ghost use Rattle.blob_store.specs.Faulty.{faulty};

use crate::blobs::{BlobFault, Blobs};
use crate::memory::MemoryBlobs;
use std::alloc::Global;

/// Blobs in memory, of which one call of `read` and `replace` answers `BlobFault::Device`.
#[derive(Drop)]
pub struct FaultyBlobs {
    inner: MemoryBlobs,
    /// How many calls pass before the one that fails; none once it has.
    passes: Option<u64>,
    failures: u64,
}

impl FaultyBlobs {
    /// A store over these blobs that has this count of failures, passes this many calls, fails at the next, and then passes all. At
    /// 2^64 - 1 failures every call answers `BlobFault::Worn`.
    pub fn new(inner: MemoryBlobs, passes: u64, failures: u64) -> Self
        ensures shows { faulty result.inner result.failures ≡ faulty inner failures }
        ensures passes { result.passes ≡ Some passes }
    {
        FaultyBlobs {
            inner,
            passes: Some(passes),
            failures,
        }
    }

    /// The bytes of a blob, as they stand in the inner store.
    pub fn bytes_of(&self, name: &str) -> Option<&[u8]>
        ensures { option_map (λ bytes. bytes.now) result ≡ bytes_under self.now.inner name.now }
    {
        self.inner.bytes_of(name)
    }

    // Counts a call, and tells whether it is the one that fails.
    fn is_due(&mut self) -> bool
        ensures due { IsTrue result ↔ self.old.passes ≡ Some 0 }
        ensures left { (n : ℕ) → self.old.passes ≡ Some (n + 1) → self.new.passes ≡ Some n }
        ensures once { IsTrue result → self.new.passes ≡ None }
        ensures spent { self.old.passes ≡ None → self.new.passes ≡ None }
        ensures same { (self.new.inner ≡ self.old.inner) × (self.new.failures ≡ self.old.failures) }
    {
        match self.passes {
            None => false,
            Some(0) => {
                self.passes = None;
                true
            }
            Some(left) => {
                self.passes = Some(left - 1);
                false
            }
        }
    }
}

impl Blobs for FaultyBlobs {
    ghost meaning = { λ f. faulty f.inner f.failures };

    fn read(&mut self, alloc: Global, name: &str) -> Result<Option<Vec<u8>>, BlobFault> {
        if self.failures == u64::MAX {
            return Err(BlobFault::Worn);
        }
        if self.is_due() {
            self.failures += 1;
            return Err(BlobFault::Device);
        }
        self.inner.read(alloc, name)
    }

    fn replace(&mut self, alloc: Global, name: &str, pieces: &[&[u8]]) -> Result<(), BlobFault> {
        if self.failures == u64::MAX {
            return Err(BlobFault::Worn);
        }
        if self.is_due() {
            self.failures += 1;
            return Err(BlobFault::Device);
        }
        self.inner.replace(alloc, name, pieces)
    }

    fn failures(&self) -> u64 {
        self.failures
    }
}
