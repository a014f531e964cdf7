//! Files that are read to their end: what each call gives.
//!
//! The system tells nothing: whoever else writes the files, and what a pipe or a device gives, is not known. That a read gives what stands
//! under its path, to its end, is trusted.
ghost use Rattle.std.specs.Prelude.{◌≡◌, Some, None, Option, IfOk};
ghost use Rattle.blob_store.specs.Known.{Sure};
ghost use Rattle.fed_setup.specs.Inputs.{Inputs};

use blob_store::disk::DiskFault;
use std::fs;
use std::io::ErrorKind;

/// What reads files to their end, pipes and devices too: a program's runtime, or what a test has in its place.
pub trait ReadsInputs {
    /// What reading each path to its end gives, where that is known.
    ghost inputs: { Self → Option Inputs };

    /// Reads what stands under a path to its end: a regular file, a pipe or a device, or the one that a link leads to. Bytes that have no
    /// end end by want of memory. The errors are those of [`DiskFault`].
    fn read_input(&self, path: &str) -> Result<Vec<u8>, DiskFault>
        ensures { Sure (inputs self.now) (λ known. IfOk result (λ bytes. known path.now ≡ Some bytes.items)) };
}

impl ReadsInputs for HostRuntime {
    ghost inputs = { λ _. None };

    fn read_input(&self, path: &str) -> Result<Vec<u8>, DiskFault> {
        match fs::read(self, path) {
            Ok(bytes) => Ok(bytes),
            Err(error) if error.kind() == ErrorKind::OutOfMemory => Err(DiskFault::NoMemory),
            Err(_) => Err(DiskFault::Failed),
        }
    }
}
