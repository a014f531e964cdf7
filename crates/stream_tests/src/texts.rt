//! What each fault says: a text may not be that of another fault.
use crate::expect::same_text;
use fdw_api::Fault;
use fed_cli::StreamFault;
use med_lexer::LexFault;
use med_session::{AddFault, NewFault};
use med_value::{Cause, NoMemory};
use query_answer::AnswerFault;
use session_wire::{BadFrame, FeedFault};
use std::alloc::Global;
use std::fmt::{Debug, Display};
use std::test::Fail;
use tri_expr::EvalFault;

// A line for each fault: what it is of, its name, and its text.
const TEXTS: &[u8] = b"memory NoMemory: out of memory
tokens NoMemory: out of memory
tokens BadToken: a part of the text is no token
expression Range: number out of range
expression Zero: division by zero
evaluation OutOfRange: number out of range
evaluation ZeroDivisor: division by zero
evaluation NoMemory: out of memory
answer Evaluation(ZeroDivisor): division by zero
answer TooManyRows: too many rows
call NoMemory: out of memory
call Source: the source failed
call Refused(InUse): refused by 55006
engine NoMemory: out of memory
engine BadName: bad name
adding NoMemory: out of memory
adding Taken: name taken
adding TooMany: too many sources
frame BadFrame { sid: 7 }: protocol violation
feed NoRoom: out of memory
feed Closed: the stream is closed
stream Read: read fault
stream Write: write fault
stream TooLong: too many reads
stream NoRoom: out of memory
";

// Writes a line for each fault.
fn tell<T: Debug + Display>(
    alloc: Global,
    of: &str,
    faults: &[T],
    out: &mut String,
) -> Result<(), Fail> {
    for fault in faults {
        out.push_str(&format!(in alloc; "{of} {fault:?}: {fault}\n")?)?;
    }
    Ok(())
}

// The faults of what stands below the engine.
fn tell_below(alloc: Global, out: &mut String) -> Result<(), Fail> {
    tell(alloc, "memory", &[NoMemory], out)?;
    tell(
        alloc,
        "tokens",
        &[LexFault::NoMemory, LexFault::BadToken],
        out,
    )?;
    tell(
        alloc,
        "expression",
        &[tri_expr::Fault::Range, tri_expr::Fault::Zero],
        out,
    )?;
    let faults = [
        EvalFault::OutOfRange,
        EvalFault::ZeroDivisor,
        EvalFault::NoMemory,
    ];
    tell(alloc, "evaluation", &faults, out)?;
    let faults = [
        AnswerFault::Evaluation(EvalFault::ZeroDivisor),
        AnswerFault::TooManyRows,
    ];
    tell(alloc, "answer", &faults, out)?;
    let faults = [Fault::NoMemory, Fault::Source, Fault::Refused(Cause::InUse)];
    tell(alloc, "call", &faults, out)
}

// The faults of the engine and of its streams.
fn tell_served(alloc: Global, out: &mut String) -> Result<(), Fail> {
    tell(
        alloc,
        "engine",
        &[NewFault::NoMemory, NewFault::BadName],
        out,
    )?;
    let faults = [AddFault::NoMemory, AddFault::Taken, AddFault::TooMany];
    tell(alloc, "adding", &faults, out)?;
    tell(alloc, "frame", &[BadFrame { sid: 7 }], out)?;
    tell(alloc, "feed", &[FeedFault::NoRoom, FeedFault::Closed], out)?;
    let faults = [
        StreamFault::Read,
        StreamFault::Write,
        StreamFault::TooLong,
        StreamFault::NoRoom,
    ];
    tell(alloc, "stream", &faults, out)
}

#[test]
fn faults_say_their_texts(rt: HostRuntime) -> Result<(), Fail> {
    let alloc = rt.alloc();
    let mut out = String::new(alloc);
    tell_below(alloc, &mut out)?;
    tell_served(alloc, &mut out)?;
    same_text("texts", out.as_bytes(), TEXTS)
}
