//! Faults of blobs as faults of a source.
ghost use Rattle.std.specs.Prelude.{◌≡◌};
ghost use Rattle.place_wrapper.specs.Holdings.{fault_is};

use blob_store::BlobFault;
use fdw_api::interface::Fault;

/// What a fault of the blobs is told as: want of memory as itself, and one of the device or of worn out blobs as `Fault::Source`.
pub fn fault_of(fault: BlobFault) -> Fault
    ensures { result ≡ fault_is fault }
{
    match fault {
        BlobFault::NoMemory => Fault::NoMemory,
        BlobFault::Device | BlobFault::Worn => Fault::Source,
    }
}
