//! What is told of the end of a run, and of words that ask no run.
ghost use Rattle.std.specs.Prelude.{Err, not};
ghost use Rattle.fed_cli.specs.Exits.{WritesRun, WritesIf, is_help};
ghost use Rattle.fed_cli.specs.Told.{run_line};
ghost use Rattle.fed_stream.specs.Outlets.{FrontWritten};
ghost use Rattle.fed_words.specs.Told.{words_text};

use fed_setup::told::RunFault;
use fed_stream::{GivenUp, Sink, write_front, write_line};
use fed_words::words::WordsFault;
use itoa::Buffer;

/// Tells on standard error what a run came to, by one line if it did not end with the input. An interrupted write is tried again.
///
/// `Failed` where a write failed, and `TooMany` where 4,294,967,295 writes of the same bytes were interrupted: then a front was written.
pub fn tell_run<E: Sink>(came: Result<(), RunFault<'_>>, errors: &mut E) -> Result<(), GivenUp>
    ensures { WritesRun came.entry result (E.contents errors.old) (E.contents errors.new) (E.outlet errors.old) (E.outlet errors.new) }
{
    match came {
        Ok(()) => Ok(()),
        Err(fault) => tell_fault(fault, errors),
    }
}

// Writes the line of a fault.
fn tell_fault<E: Sink>(fault: RunFault<'_>, errors: &mut E) -> Result<(), GivenUp>
    ensures { FrontWritten (E.contents errors.old) (E.contents errors.new) (E.outlet errors.old) (E.outlet errors.new) result
        (run_line (Err fault.entry)) }
{
    match fault {
        RunFault::NoMemory => write_line(errors, &["out of memory"]),
        RunFault::Read => write_line(errors, &["read fault"]),
        RunFault::Write => write_line(errors, &["write fault"]),
        RunFault::TooManyReads => write_line(errors, &["too many reads"]),
        RunFault::ProtocolViolation => write_line(errors, &["protocol violation"]),
        RunFault::NameTaken(name) => write_line(errors, &["source ", name, ": name taken"]),
        RunFault::TooManySources(name) => {
            write_line(errors, &["source ", name, ": too many sources"])
        }
        RunFault::CannotOpen(name) => write_line(errors, &["source ", name, ": cannot open"]),
        RunFault::CannotReadInit(path) => write_line(errors, &["cannot read init ", path]),
        RunFault::InitNotText => write_line(errors, &["init is not UTF-8"]),
        RunFault::InitLine(number, cause) => {
            let mut digits = Buffer::new();
            write_line(
                errors,
                &[
                    "init line ",
                    digits.format(number),
                    ": ",
                    cause.code(),
                    " ",
                    cause.name(),
                ],
            )
        }
    }
}

/// Tells help on standard output, and why words are refused on standard error. An interrupted write is tried again.
///
/// `Failed` where a write failed, and `TooMany` where 4,294,967,295 writes of the same bytes were interrupted: then a front was written.
pub fn tell_words<O: Sink, E: Sink>(
    fault: &WordsFault<'_>,
    output: &mut O,
    errors: &mut E,
) -> Result<(), GivenUp>
    ensures output { WritesIf (is_help fault.now) (words_text fault.now) result
        (O.contents output.old) (O.contents output.new) (O.outlet output.old) (O.outlet output.new) }
    ensures errors { WritesIf (not (is_help fault.now)) (words_text fault.now) result
        (E.contents errors.old) (E.contents errors.new) (E.outlet errors.old) (E.outlet errors.new) }
{
    match fault {
        WordsFault::Help(text) => write_front(output, text.as_bytes()),
        WordsFault::Usage(text) => write_front(errors, text.as_bytes()),
        WordsFault::NoPath(value) => write_line(errors, &["NAME=PATH expected: ", value]),
        WordsFault::BadName(name) => write_line(errors, &["bad name: ", name]),
        WordsFault::NoMemory => write_line(errors, &["out of memory"]),
    }
}
