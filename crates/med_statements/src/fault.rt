//! Faults of boxes as causes.
ghost use Rattle.std.specs.Prelude.{◌≡◌};
ghost use Rattle.med_world.specs.Fetching.{cause_of};

use fdw_api::interface::Fault;
use med_value::Cause;

/// The cause that a fault of a box is told by: want of memory, a source's fault, or the cause by which the box refuses.
pub fn cause_of(fault: Fault) -> Cause
    ensures { result ≡ cause_of fault }
{
    match fault {
        Fault::NoMemory => Cause::OutOfMemory,
        Fault::Source => Cause::SourceFault,
        Fault::Refused(cause) => cause,
    }
}
