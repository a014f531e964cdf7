//! What an error of a database is to its caller.
ghost use Rattle.std.specs.Prelude.{◌≡◌};
ghost use Rattle.fdw_api.specs.Calls.{not_refused};
ghost use Rattle.sqlite_tables.specs.Reporting.{IsFailureOf};

use fdw_api::interface::Fault;
use sqlite::{Error, ErrorCode};

/// Returns what an error of the database is to its caller: out of memory is itself, and any other error is a failure of the source.
pub fn fault_of(error: Error) -> Fault
    ensures memory { error ≡ Error.SqliteFailure ErrorCode.OutOfMemory → result ≡ Fault.NoMemory }
    ensures other { (error ≡ Error.SqliteFailure ErrorCode.OutOfMemory → ⊥) → result ≡ Fault.Source }
    ensures no_cause { not_refused result }
    ensures is { IsFailureOf error result }
{
    match error {
        Error::SqliteFailure(ErrorCode::OutOfMemory) => Fault::NoMemory,
        _ => Fault::Source,
    }
}
