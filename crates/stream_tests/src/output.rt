//! What reads of a source and writes to a sink in memory meet: interruptions, faults, short writes and the end.
use crate::expect::{same, same_text};
use fed_stream::memory::Answer;
use fed_stream::{Arrival, GivenUp, MemorySink, MemorySource, flush, read_piece, write_front};
use std::test::Fail;

// Two bytes, two interruptions, a byte and a fault, and then a byte more.
const COMES: [Arrival; 7] = [
    Arrival::Byte(b'a'),
    Arrival::Byte(b'b'),
    Arrival::Interruption,
    Arrival::Interruption,
    Arrival::Byte(b'c'),
    Arrival::Fault,
    Arrival::Byte(b'd'),
];

// What reads give, one behind the other, and how many more are granted then.
const READS: [(Result<usize, GivenUp>, u32); 6] = [
    (Ok(2), 9),
    (Ok(1), 6),
    (Err(GivenUp::Failed), 5),
    (Ok(1), 4),
    (Ok(0), 3),
    (Ok(0), 2),
];

#[test]
fn interruptions_are_tried_again_and_a_fault_is_told_once() -> Result<(), Fail> {
    let mut source = MemorySource::new(&COMES);
    let mut piece = [0; 8];
    let mut granted = 10;
    for wanted in READS {
        let came = read_piece(&mut source, &mut piece, &mut granted);
        same("a read", &(came, granted), &wanted)?;
    }
    same_text("the last byte", &piece[..1], b"d")
}

#[test]
fn no_more_reads_than_are_granted() -> Result<(), Fail> {
    let mut source = MemorySource::new(&COMES[2..]);
    let mut piece = [0; 4];
    let mut granted = 2;
    let came = read_piece(&mut source, &mut piece, &mut granted);
    same("too many", &came, &Err(GivenUp::TooMany))?;
    same("reads", &(source.reads(), source.comes().len()), &(2, 3))
}

#[test]
fn front_is_written_before_a_fault(rt: HostRuntime) -> Result<(), Fail> {
    let answers = [
        Answer::TakesOne,
        Answer::Interruption,
        Answer::TakesOne,
        Answer::Fault,
    ];
    let mut sink = MemorySink::new(rt.alloc(), &answers);
    let came = write_front(&mut sink, b"abcd");
    same("a fault", &came, &Err(GivenUp::Failed))?;
    same_text("a front", sink.bytes(), b"ab")?;
    let counts = (sink.interruptions(), sink.faults(), sink.flushed());
    same("nothing is flushed", &counts, &(1, 1, 0))
}

#[test]
fn interrupted_flush_is_tried_again(rt: HostRuntime) -> Result<(), Fail> {
    let answers = [
        Answer::TakesOne,
        Answer::Interruption,
        Answer::TakesOne,
        Answer::Fault,
    ];
    let mut sink = MemorySink::new(rt.alloc(), &answers);
    let came = (write_front(&mut sink, b"a"), flush(&mut sink));
    same("written and flushed", &came, &(Ok(()), Ok(())))?;
    let counts = (sink.interruptions(), sink.flushed());
    same(
        "a fault",
        &(flush(&mut sink), counts),
        &(Err(GivenUp::Failed), (1, 1)),
    )?;
    same_text("written", sink.bytes(), b"a")
}
