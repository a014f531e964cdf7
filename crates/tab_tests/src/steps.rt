//! A file that is replaced on a disk in memory, each of whose calls fails in turn.
use crate::disk::{MemoryDisk, NOW};
use crate::folders::{disk, stored};
use blob_store::disk::{Kind, Stamp};
use blob_store::marks::Mark;
use blob_store::steps::{PutFault, put_file};
use std::alloc::Global;
use std::test::Fail;

// What was seen last of `d/a`.
const SEEN: Mark = Mark::Seen(Stamp {
    device: 1,
    inode: 101,
    length: 5,
    written: NOW,
    changed: NOW,
});

// Replaces `d/a`, by two pieces.
fn put(disk: &mut MemoryDisk, mark: Mark) -> Result<Mark, PutFault> {
    let pieces: [&[u8]; 2] = [b"new", b" a"];
    put_file(disk, "d", "d/.fedq.tmp", "d/a", mark, &pieces)
}

// Whether a file has this mode and these bytes.
fn is_file(disk: &MemoryDisk, path: &str, mode: u32, bytes: &[u8]) -> bool {
    match disk.files().get(path) {
        Some(stored) => stored.told.mode == mode && stored.bytes.as_slice() == bytes,
        None => false,
    }
}

// Whether the files are as they were, and no draft stands there.
fn is_as_before(disk: &MemoryDisk) -> bool {
    is_file(disk, "d/a", 0o640, b"old a") && is_beside(disk)
}

// Whether the other file is as it was, no draft stands there, and the folder is released.
fn is_beside(disk: &MemoryDisk) -> bool {
    let (is_held, _, _) = disk.state();
    is_file(disk, "d/b", 0o600, b"old b") && disk.files().get("d/.fedq.tmp").is_none() && !is_held
}

// Replaces `d/a` while the call after so many fails: it is told, and the files are as they were; or else the file is replaced whole.
fn check(alloc: Global, has_locks: bool, passes: u64, calls: u64) -> Result<(), Fail> {
    let needed = calls.saturating_sub(2);
    let mut disk = disk(alloc, has_locks, Some(passes))?;
    let answer = put(&mut disk, SEEN);
    let (_, is_settled, faults) = disk.state();
    let is_right = match answer {
        Err(fault) => fault == PutFault::Failed && is_as_before(&disk) && passes < needed,
        Ok(_) => is_file(&disk, "d/a", 0o640, b"new a") && is_beside(&disk) && passes >= needed,
    };
    if is_right
        && is_settled == (passes >= needed && passes != calls.saturating_sub(1))
        && faults == u64::from(passes < calls)
    {
        return Ok(());
    }
    Err(format!(in alloc; "{passes} calls passed: {answer:?}")?)?
}

// open, lock, look, probe, remove, create, stat, group, mode, write, write, sync, stat, look, look, rename, stat, settle: of these the last
// two may fail when all is done
#[test]
fn each_call_fails_in_turn(rt: HostRuntime) -> Result<(), Fail> {
    for passes in 0..20 {
        check(rt.alloc(), true, passes, 18)?;
    }
    Ok(())
}

// the same without remove
#[test]
fn each_call_fails_in_turn_without_locks(rt: HostRuntime) -> Result<(), Fail> {
    for passes in 0..20 {
        check(rt.alloc(), false, passes, 17)?;
    }
    Ok(())
}

// A draft that another program left is in nobody's way where the folder is locked. Where it cannot be, it is another's.
#[test]
fn a_draft_is_removed_under_the_lock_alone(rt: HostRuntime) -> Result<(), Fail> {
    let alloc = rt.alloc();
    for has_locks in [true, false] {
        let mut disk = disk(alloc, has_locks, None)?;
        let left = stored(alloc, Kind::Link, 0o777, 103, b"left")?;
        disk.files_mut().put(alloc, "d/.fedq.tmp", left)?;
        let answer = put(&mut disk, SEEN);
        if has_locks {
            assert!(rt;
                answer.is_ok() && is_file(&disk, "d/a", 0o640, b"new a") && is_beside(&disk)
            );
        } else {
            assert!(rt; answer == Err(PutFault::Failed) && is_file(&disk, "d/a", 0o640, b"old a"));
            assert!(rt; is_file(&disk, "d/.fedq.tmp", 0o777, b"left"));
        }
    }
    Ok(())
}

// Puts a file of this kind, mode and number in the place of `d/a`, and fails where it is replaced.
fn bars(alloc: Global, kind: Kind, mode: u32, inode: u64, mark: Mark) -> Result<(), Fail> {
    let mut disk = disk(alloc, true, None)?;
    let other = stored(alloc, kind, mode, inode, b"other")?;
    disk.files_mut().put(alloc, "d/a", other)?;
    let answer = put(&mut disk, mark);
    if answer == Err(PutFault::Barred)
        && is_file(&disk, "d/a", mode, b"other")
        && is_beside(&disk)
    {
        return Ok(());
    }
    Err(format!(in alloc; "{kind:?} {mode} {inode} {mark:?}: {answer:?}")?)?
}

#[test]
fn what_is_not_to_be_replaced_stays(rt: HostRuntime) -> Result<(), Fail> {
    let alloc = rt.alloc();
    bars(alloc, Kind::Regular, 0o640, 104, SEEN)?;
    bars(alloc, Kind::Regular, 0o640, 101, Mark::Absent)?;
    bars(alloc, Kind::Regular, 0o440, 101, SEEN)?;
    bars(alloc, Kind::Link, 0o777, 101, SEEN)?;
    bars(alloc, Kind::Other, 0o777, 101, Mark::Never)?;
    Ok(())
}

#[test]
fn a_file_that_is_gone_stays_gone(rt: HostRuntime) -> Result<(), Fail> {
    let alloc = rt.alloc();
    let mut disk = disk(alloc, true, None)?;
    disk.files_mut().remove("d/a");
    assert!(rt; put(&mut disk, SEEN) == Err(PutFault::Barred));
    assert!(rt; disk.files().get("d/a").is_none() && is_beside(&disk));
    assert!(rt; put(&mut disk, Mark::Absent).is_ok());
    assert!(rt; is_file(&disk, "d/a", 0o644, b"new a") && is_beside(&disk));
    Ok(())
}
