//! What a stream and a run are told as.
ghost use Rattle.std.specs.Prelude.{◌≡◌};
ghost use Rattle.fed_cli.specs.Told.{told_of, run_status};

use fed_setup::told::RunFault;
use fed_stream::{Ended, StreamFault};

/// How a stream that ended so is told.
pub fn told<'a>(ended: Result<Ended, StreamFault>) -> Result<(), RunFault<'a>>
    ensures { result ≡ told_of ended }
{
    match ended {
        Ok(Ended::Eof) => Ok(()),
        Ok(Ended::Closed) => Err(RunFault::ProtocolViolation),
        Err(StreamFault::Read) => Err(RunFault::Read),
        Err(StreamFault::Write) => Err(RunFault::Write),
        Err(StreamFault::TooLong) => Err(RunFault::TooManyReads),
        Err(StreamFault::NoRoom) => Err(RunFault::NoMemory),
    }
}

/// The exit status of a run that came to this.
pub fn status(came: Result<(), RunFault<'_>>) -> u8
    ensures { result ≡ run_status came.entry }
{
    match came {
        Ok(()) => 0,
        Err(_) => 1,
    }
}
