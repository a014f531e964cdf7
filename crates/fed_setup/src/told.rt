//! Why an input is not served to its end, and what the beginning of a program is told as.
ghost use Rattle.std.specs.Prelude.{◌≡◌};
ghost use Rattle.fed_setup.specs.Told.{added_of, setup_told, replay_told};

use crate::ScriptFault;
use med_session::AddFault;
use med_value::{Cause, NoMemory};
use std::error::Error;
use std::fmt;

/// Why the input was not served to its end.
#[derive(Clone, Copy, Debug, PartialEq, Eq)]
pub enum RunFault<'a> {
    /// Memory was refused.
    NoMemory,
    /// The input could not be read.
    Read,
    /// A reply could not be written.
    Write,
    /// The input did not end in 4,294,967,295 reads.
    TooManyReads,
    /// A line closed the stream.
    ProtocolViolation,
    /// A source of this name is there already.
    NameTaken(&'a str),
    /// There are 64 sources already.
    TooManySources(&'a str),
    /// A line of the set-up of the source was refused.
    CannotOpen(&'a str),
    /// The init file at this path could not be read.
    CannotReadInit(&'a str),
    /// The init file is not UTF-8.
    InitNotText,
    /// The line of this number of the init file was refused with this cause.
    InitLine(u64, Cause),
}

impl fmt::Display for RunFault<'_> {
    ghost use Rattle.std.specs.Prelude.{Some};
    ghost use Rattle.fed_setup.specs.Told.{fault_text};

    ghost output = { λ fault. Some (fault_text fault) };

    fn fmt<W: fmt::Write>(&self, f: &mut fmt::Formatter<W>) -> fmt::Result {
        match self {
            RunFault::NoMemory => f.write_str("out of memory"),
            RunFault::Read => f.write_str("read fault"),
            RunFault::Write => f.write_str("write fault"),
            RunFault::TooManyReads => f.write_str("too many reads"),
            RunFault::ProtocolViolation => f.write_str("protocol violation"),
            RunFault::NameTaken(name) => write!(f, "source {name}: name taken"),
            RunFault::TooManySources(name) => write!(f, "source {name}: too many sources"),
            RunFault::CannotOpen(name) => write!(f, "source {name}: cannot open"),
            RunFault::CannotReadInit(path) => write!(f, "cannot read init {path}"),
            RunFault::InitNotText => f.write_str("init is not UTF-8"),
            RunFault::InitLine(number, cause) => {
                let code = cause.code();
                let name = cause.name();
                write!(f, "init line {number}: {code} {name}")
            }
        }
    }
}

impl Error for RunFault<'_> {}

impl From<NoMemory> for RunFault<'_> {
    ghost use Rattle.fed_setup.specs.declared.told.RunFault.TheVariants as faults;

    ghost from_gives = { λ _ fault. fault ≡ faults.NoMemory };

    fn from(_: NoMemory) -> Self {
        RunFault::NoMemory
    }
}

/// Why the source of this name was not added.
pub fn add_fault(name: &str, fault: AddFault) -> RunFault<'_>
    ensures { result ≡ added_of name.entry fault }
{
    match fault {
        AddFault::NoMemory => RunFault::NoMemory,
        AddFault::Taken => RunFault::NameTaken(name),
        AddFault::TooMany => RunFault::TooManySources(name),
    }
}

/// How the set-up of the source of this name that came to this is told.
pub fn setup_told(name: &str, came: Result<u64, ScriptFault>) -> Result<(), RunFault<'_>>
    ensures { result ≡ setup_told name.entry came }
{
    match came {
        Ok(_) => Ok(()),
        Err(ScriptFault::NoMemory) => Err(RunFault::NoMemory),
        Err(_) => Err(RunFault::CannotOpen(name)),
    }
}

/// How the replay of an init file that came to this is told.
pub fn replay_told<'a>(came: Result<u64, ScriptFault>) -> Result<(), RunFault<'a>>
    ensures { result ≡ replay_told came }
{
    match came {
        Ok(_) => Ok(()),
        Err(ScriptFault::NoMemory) => Err(RunFault::NoMemory),
        Err(ScriptFault::NotText) => Err(RunFault::InitNotText),
        Err(ScriptFault::Line(number, cause)) => Err(RunFault::InitLine(number, cause)),
    }
}
