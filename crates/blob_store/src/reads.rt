//! How a file is read: what is told of it is the same before and after.
ghost use Rattle.std.specs.Prelude.{◌≡◌, ◌≢◌, ◌↔◌, Some, None, IsTrue};
ghost use Rattle.blob_store.specs.Known.{KnownBoth, Sure};
ghost use Rattle.blob_store.specs.Drives.{told_at};
ghost use Rattle.blob_store.specs.Files.{ReadsFile, TriesFile, FindsThere, SeesRegular};
ghost use Rattle.blob_store.specs.Logs.{IsSameFile, IsSameTime, IsSameStamp, IsSameTold};
ghost use Rattle.blob_store.specs.ReadLogs.{ReadsBy, ReadsThere, TriesBy, IsOpened, ReadsOpen, opens};

use crate::disk::{Disk, DiskFault, Kind, Stamp, Time, Told};
use std::alloc::Global;

// How often a file is read that changes meanwhile.
const READS: u32 = 3;

/// What a read found.
#[derive(Debug, Drop)]
pub struct Found {
    /// What is told of the file that was read.
    pub told: Told,
    /// Its first bytes.
    pub bytes: Vec<u8>,
}

/// Whether two tell of one file, by its device and its number there.
pub fn is_same_file(a: Stamp, b: Stamp) -> bool
    ensures { IsTrue result ↔ IsSameFile a b }
{
    a.device == b.device && a.inode == b.inode
}

// Whether two times are one.
fn is_same_time(a: Time, b: Time) -> bool
    ensures { IsTrue result ↔ IsSameTime a b }
{
    a.seconds == b.seconds && a.nanoseconds == b.nanoseconds
}

/// Whether two stamps are one.
pub fn is_same_stamp(a: Stamp, b: Stamp) -> bool
    ensures { IsTrue result ↔ IsSameStamp a b }
{
    is_same_file(a, b)
        && a.length == b.length
        && is_same_time(a.written, b.written)
        && is_same_time(a.changed, b.changed)
}

/// Whether nothing changed between two looks at a file: its stamp, its mode and its kind.
pub fn is_same_told(a: Told, b: Told) -> bool
    ensures { IsTrue result ↔ IsSameTold a b }
{
    is_same_stamp(a.stamp, b.stamp) && a.mode == b.mode && a.kind == b.kind
}

// Sees that a regular file stands there, or a link to one: a pipe is not opened, since that would wait for a writer.
fn see_regular<D: Disk>(disk: &mut D, path: &str, told: Told) -> Result<(), DiskFault>
    requires { Sure (D.drive disk.old) (λ d. told_at d path.now ≡ Some told) }
    ensures drive { KnownBoth (D.drive disk.old) (D.drive disk.new) (λ old new. SeesRegular old new path.now result) }
    ensures log { KnownBoth (D.log disk.old) (D.log disk.new) (λ old new. opens new ≡ opens old) }
{
    match told.kind {
        Kind::Regular => Ok(()),
        Kind::Other => Err(DiskFault::Failed),
        Kind::Link => {
            let target = disk.follow(path)?;
            match target.kind {
                Kind::Regular => Ok(()),
                Kind::Link | Kind::Other => Err(DiskFault::Failed),
            }
        }
    }
}

// Reads the file that is open, and sees that it is a regular one. None where it changed meanwhile.
fn read_open<D: Disk>(
    disk: &mut D,
    alloc: Global,
    path: &str,
    most: u64,
) -> Result<Option<Found>, DiskFault>
    requires there { Sure (D.drive disk.old) (λ d. told_at d path.now ≢ None) }
    requires opened { Sure (D.log disk.old) (λ log. IsOpened log path.now) }
    ensures drive { KnownBoth (D.drive disk.old) (D.drive disk.new) (λ old new. TriesFile old new path.now most result) }
    ensures log { KnownBoth (D.log disk.old) (D.log disk.new) (λ old new. ReadsOpen old new most result) }
{
    let told = disk.stat_file(path)?;
    if told.kind != Kind::Regular {
        return Err(DiskFault::Failed);
    }
    let bytes = disk.read(alloc, path, most)?;
    let again = disk.stat_file(path)?;
    if is_same_told(told, again) {
        return Ok(Some(Found { told, bytes }));
    }
    Ok(None)
}

// Opens a file, reads it and closes it. None where it changed meanwhile.
fn read_once<D: Disk>(
    disk: &mut D,
    alloc: Global,
    path: &str,
    most: u64,
) -> Result<Option<Found>, DiskFault>
    requires { Sure (D.drive disk.old) (λ d. told_at d path.now ≢ None) }
    ensures drive { KnownBoth (D.drive disk.old) (D.drive disk.new) (λ old new. TriesFile old new path.now most result) }
    ensures log { KnownBoth (D.log disk.old) (D.log disk.new) (λ old new. TriesBy 1 old new path.now most result) }
{
    disk.open_file(path)?;
    let found = read_open(disk, alloc, path, most);
    disk.close_file();
    match found {
        Ok(found) => Ok(found),
        Err(fault) => Err(fault),
    }
}

// Reads a file in at most three tries.
fn read_tries<D: Disk>(
    disk: &mut D,
    alloc: Global,
    path: &str,
    most: u64,
) -> Result<Found, DiskFault>
    requires { Sure (D.drive disk.old) (λ d. told_at d path.now ≢ None) }
    ensures drive { KnownBoth (D.drive disk.old) (D.drive disk.new) (λ old new. FindsThere old new path.now most result) }
    ensures log { KnownBoth (D.log disk.old) (D.log disk.new) (λ old new. ReadsThere old new path.now most result) }
{
    for tried in 0..READS {
        let _ = tried;
        if let Some(found) = read_once(disk, alloc, path, most)? {
            return Ok(found);
        }
    }
    Err(DiskFault::Failed)
}

/// Reads at most so many bytes of a regular file, or of the one that a link leads to. None where nothing stands there.
///
/// What is told of the file is the same before the read and after it; where not, it is read again, at most three times in all.
///
/// # Errors
///
/// [`DiskFault::Failed`] where it is no regular file, where it changed during each read, and where a call failed; and
/// [`DiskFault::NoMemory`] where memory was refused.
pub fn read_file<D: Disk>(
    disk: &mut D,
    alloc: Global,
    path: &str,
    most: u64,
) -> Result<Option<Found>, DiskFault>
    ensures drive { KnownBoth (D.drive disk.old) (D.drive disk.new) (λ old new. ReadsFile old new path.now most result) }
    ensures log { KnownBoth (D.log disk.old) (D.log disk.new) (λ old new. ReadsBy old new path.now most result) }
{
    let Some(told) = disk.look(path)? else {
        return Ok(None);
    };
    see_regular(disk, path, told)?;
    match read_tries(disk, alloc, path, most) {
        Ok(found) => Ok(Some(found)),
        Err(fault) => Err(fault),
    }
}
