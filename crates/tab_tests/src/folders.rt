//! Blobs of a folder on a disk in memory.
use crate::disk::{MemoryDisk, NOW};
use crate::files::Stored;
use blob_store::disk::{Kind, Stamp, Told};
use blob_store::{BlobFault, Blobs, Folder, is_blob_name};
use std::alloc::Global;
use std::test::Fail;

/// A file of these bytes, as another program has written it.
pub fn stored(
    alloc: Global,
    kind: Kind,
    mode: u32,
    inode: u64,
    bytes: &[u8],
) -> Result<Stored, Fail> {
    Ok(Stored {
        told: Told {
            kind,
            mode,
            owner: 7,
            group: 8,
            stamp: Stamp {
                device: 1,
                inode,
                length: bytes.len() as u64,
                written: NOW,
                changed: NOW,
            },
        },
        bytes: Vec::from_slice(alloc, bytes)?,
        synced: true,
    })
}

/// A disk with the files `d/a` and `d/b`.
pub fn disk(alloc: Global, has_locks: bool, passes: Option<u64>) -> Result<MemoryDisk, Fail> {
    let mut disk = MemoryDisk::new(alloc, has_locks, passes);
    let files = disk.files_mut();
    files.put(
        alloc,
        "d/a",
        stored(alloc, Kind::Regular, 0o640, 101, b"old a")?,
    )?;
    files.put(
        alloc,
        "d/b",
        stored(alloc, Kind::Regular, 0o600, 102, b"old b")?,
    )?;
    Ok(disk)
}

// What is put, and what is read then: nothing where no bytes are named.
const ROWS: &str = "\
read a=old a
read b=old b
read c
put a=new
put c=
read a=new
read b=old b
read c=
put a=newer
read a=newer
";

fn halves(bytes: &[u8]) -> (&[u8], &[u8]) {
    bytes.split_at(bytes.len() / 2)
}

// Does what a row says, and tells whether its bytes are there.
fn does(alloc: Global, folder: &mut Folder<MemoryDisk>, row: &str) -> Result<bool, Fail> {
    let (call, file) = row.split_once(' ').ok_or(row)?;
    let (name, bytes) = match file.split_once('=') {
        Some((name, bytes)) => (name, Some(bytes.as_bytes())),
        None => (file, None),
    };
    if !is_blob_name(name) {
        return Err(row.into());
    }
    if call == "put" {
        let (front, back) = halves(bytes.unwrap_or(b""));
        folder.replace(alloc, name, &[front, back])?;
        return Ok(true);
    }
    Ok(folder.read(alloc, name)?.as_deref() == bytes)
}

#[test]
fn blobs_are_the_bytes_of_their_files(rt: HostRuntime) -> Result<(), Fail> {
    let mut folder = Folder::over(rt.alloc(), disk(rt.alloc(), true, None)?, "d")?;
    for row in ROWS.lines() {
        assert!(rt; does(rt.alloc(), &mut folder, row)?);
    }
    assert_eq!(rt; folder.failures(), 0);
    Ok(())
}

#[test]
fn a_call_that_fails_is_told_and_counted(rt: HostRuntime) -> Result<(), Fail> {
    let mut folder = Folder::over(rt.alloc(), disk(rt.alloc(), true, Some(0))?, "d")?;
    let fault = folder.read(rt.alloc(), "a").err();
    assert!(rt; fault == Some(BlobFault::Device) && folder.failures() == 1);
    assert!(rt; does(rt.alloc(), &mut folder, "read a=old a")?);
    Ok(())
}
