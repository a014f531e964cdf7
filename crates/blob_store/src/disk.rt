//! Calls on files: what each does to what stands under paths, and the log of them.
ghost use Rattle.std.specs.Prelude.{◌≡◌, ◌≢◌, true, false, Option, List, None, Err, IfOk};
ghost use Rattle.blob_store.specs.Known.{KnownBoth, Sure};
ghost use Rattle.blob_store.specs.Drives.{Drive, Does, LooksAt, FollowsAt, Opens, Tries, Creates, TellsDraft, SetsMode, Alters};
ghost use Rattle.blob_store.specs.Drives.{Writes, Syncs, Renames, Removes, OpensFile, TellsFile, ReadsAt, IsDraft, IsWhole, IsInHeld, MayRemove};
ghost use Rattle.blob_store.specs.Logs.{Call, Notes, Says, Drops, MayRename, MayDrop, MayRead};
ghost use Rattle.blob_store.specs.Logs.{Looked, Followed, Probed, OpenedFolder, Tried, Waited, Created, ToldDraft, SetMode, SetGroup, SetOwner};
ghost use Rattle.blob_store.specs.Logs.{Wrote, Synced, Renamed, Settled, Released, OpenedFile, ToldFile, ReadFile, ClosedFile};

use std::alloc::{AllocError, Global};
use thiserror::Error;

/// Why a call of a disk did nothing.
#[derive(Clone, Copy, Debug, PartialEq, Eq, Error)]
pub enum DiskFault {
    /// Memory was asked for and refused.
    #[error("out of memory")]
    NoMemory,
    /// The call failed.
    #[error("failed")]
    Failed,
}

/// What stands under a path.
#[derive(Clone, Copy, Debug, PartialEq, Eq)]
pub enum Kind {
    /// A regular file.
    Regular,
    /// A symbolic link.
    Link,
    /// A folder, a pipe, a device or a socket.
    Other,
}

/// A time of the system's clock.
#[derive(Clone, Copy, Debug, PartialEq, Eq)]
pub struct Time {
    /// Its seconds.
    pub seconds: i64,
    /// The nanoseconds beyond them.
    pub nanoseconds: i64,
}

/// Which file stands under a path, how long it is, and when it was written and changed last.
#[derive(Clone, Copy, Debug, PartialEq, Eq)]
pub struct Stamp {
    /// The device that it is on.
    pub device: u64,
    /// Its number there.
    pub inode: u64,
    /// How many bytes it has.
    pub length: u64,
    /// When its bytes were written last (mtime).
    pub written: Time,
    /// When its bytes, its rights or its names changed last (ctime). No program can set it.
    pub changed: Time,
}

/// What is told of what stands under a path.
#[derive(Clone, Copy, Debug, PartialEq, Eq)]
pub struct Told {
    /// Whether it is a file, a link or another thing.
    pub kind: Kind,
    /// Who may read and write it: the twelve bits of a mode.
    pub mode: u32,
    /// The number of the user whose it is.
    pub owner: u32,
    /// The number of the group whose it is.
    pub group: u32,
    /// Which file it is, and as of when.
    pub stamp: Stamp,
}

/// What came of asking for the lock of a folder, without waiting for it.
#[derive(Clone, Copy, Debug, PartialEq, Eq)]
pub enum LockTry {
    /// It is held now.
    Taken,
    /// Another program holds it.
    Busy,
    /// The system refused it, with this error number.
    Refused(u32),
}

/// Files under paths. Each method is one call of the system.
///
/// One folder is open, one file is in the making (the draft) and one file is open to be read at a time, each by a handle.
///
/// `drive` is what stands under the paths, where that is known. A call that was refused did nothing, but a write may have written a prefix
/// of its bytes. `log` is the list of the calls with their answers, the last first, where that is known: it stays true while other
/// programs write the same files. The errors are those of [`DiskFault`].
pub trait Disk: Drop {
    ghost drive: { Self → Option Drive };

    ghost log: { Self → Option (List Call) };

    /// Looks at what stands under a path, and follows no link (lstat). None where nothing stands there.
    fn look(&mut self, path: &str) -> Result<Option<Told>, DiskFault>
        ensures drive { KnownBoth (drive self.old) (drive self.new) (λ old new. Does old new result (λ told. LooksAt old new path.now told)) }
        ensures log { KnownBoth (log self.old) (log self.new) (λ old new. Says old new result (λ told. Looked path.now told)) };

    /// Looks at what stands under a path, as `look` does, and never fails for want of memory.
    fn look_draft(&mut self, path: &str) -> Result<Option<Told>, DiskFault>
        ensures drive { KnownBoth (drive self.old) (drive self.new) (λ old new. Does old new result (λ told. LooksAt old new path.now told)) }
        ensures log { KnownBoth (log self.old) (log self.new) (λ old new. Says old new result (λ told. Looked path.now told)) }
        ensures memory { result ≢ Err DiskFault.NoMemory };

    /// Looks at the file that a link leads to (stat).
    fn follow(&mut self, path: &str) -> Result<Told, DiskFault>
        ensures drive { KnownBoth (drive self.old) (drive self.new) (λ old new. Does old new result (λ told. FollowsAt old new path.now told)) }
        ensures log { KnownBoth (log self.old) (log self.new) (λ old new. Says old new result (λ told. Followed path.now told)) };

    /// Opens a file to read and write, and closes it: fails where that is not allowed.
    fn probe(&mut self, path: &str) -> Result<(), DiskFault>
        ensures drive { KnownBoth (drive self.old) (drive self.new) (λ old new. Does old new result (λ _. new ≡ old)) }
        ensures log { KnownBoth (log self.old) (log self.new) (λ old new. Says old new result (λ _. Probed path.now)) };

    /// Opens a folder.
    fn open_folder(&mut self, folder: &str) -> Result<(), DiskFault>
        ensures drive { KnownBoth (drive self.old) (drive self.new) (λ old new. Does old new result (λ _. Opens old new folder.now)) }
        ensures log { KnownBoth (log self.old) (log self.new) (λ old new. Says old new result (λ _. OpenedFolder folder.now)) };

    /// Asks for the lock of the folder that is open, and does not wait for it. Once it is taken, no other program that asks for it gets it
    /// until the folder is released. Not every file system has locks for folders.
    fn try_lock(&mut self) -> LockTry
        ensures drive { KnownBoth (drive self.old) (drive self.new) (λ old new. Tries old new result) }
        ensures log { KnownBoth (log self.old) (log self.new) (λ old new. Notes old new (Tried result)) };

    /// Waits ten milliseconds.
    fn wait(&mut self)
        ensures drive { KnownBoth (drive self.old) (drive self.new) (λ old new. new ≡ old) }
        ensures log { KnownBoth (log self.old) (log self.new) (λ old new. Notes old new Waited) };

    /// Makes a new file with this mode, the draft. Fails where anything stands there.
    fn create(&mut self, path: &str, mode: u32) -> Result<(), DiskFault>
        requires held { Sure (drive self.old) (λ d. IsInHeld d path.now) }
        ensures drive { KnownBoth (drive self.old) (drive self.new) (λ old new. Does old new result (λ _. Creates old new path.now)) }
        ensures log { KnownBoth (log self.old) (log self.new) (λ old new. Says old new result (λ _. Created path.now mode)) };

    /// Looks at the draft by its handle (fstat). `path` is the path under which it stands, for the clauses alone, here and below.
    fn stat_draft(&mut self, path: &str) -> Result<Told, DiskFault>
        requires making { Sure (drive self.old) (λ d. IsDraft d path.now) }
        ensures drive { KnownBoth (drive self.old) (drive self.new) (λ old new. Does old new result (λ told. TellsDraft old new path.now told)) }
        ensures log { KnownBoth (log self.old) (log self.new) (λ old new. Says old new result (λ told. ToldDraft told)) }
        ensures memory { result ≢ Err DiskFault.NoMemory };

    /// Gives the draft this mode.
    fn set_mode(&mut self, path: &str, mode: u32) -> Result<(), DiskFault>
        requires making { Sure (drive self.old) (λ d. IsDraft d path.now) }
        ensures drive { KnownBoth (drive self.old) (drive self.new) (λ old new. Does old new result (λ _. SetsMode old new path.now mode)) }
        ensures log { KnownBoth (log self.old) (log self.new) (λ old new. Says old new result (λ _. SetMode mode)) };

    /// Gives the draft this group. Its mode may change with it.
    fn set_group(&mut self, path: &str, group: u32) -> Result<(), DiskFault>
        requires making { Sure (drive self.old) (λ d. IsDraft d path.now) }
        ensures drive { KnownBoth (drive self.old) (drive self.new) (λ old new. Does old new result (λ _. Alters old new path.now)) }
        ensures log { KnownBoth (log self.old) (log self.new) (λ old new. Says old new result (λ _. SetGroup group)) };

    /// Gives the draft this owner, and returns whether the program may. Its mode may change with it.
    fn set_owner(&mut self, path: &str, owner: u32) -> bool
        requires making { Sure (drive self.old) (λ d. IsDraft d path.now) }
        ensures drive { KnownBoth (drive self.old) (drive self.new) (λ old new. Alters old new path.now) }
        ensures log { KnownBoth (log self.old) (log self.new) (λ old new. Notes old new (SetOwner owner result)) };

    /// Writes after the bytes of the draft.
    fn write(&mut self, path: &str, bytes: &[u8]) -> Result<(), DiskFault>
        requires making { Sure (drive self.old) (λ d. IsDraft d path.now) }
        ensures drive { KnownBoth (drive self.old) (drive self.new) (λ old new. Writes old new path.now bytes.now result) }
        ensures log { KnownBoth (log self.old) (log self.new) (λ old new. Says old new result (λ _. Wrote bytes.now)) };

    /// Syncs the draft: its bytes are on the device then.
    fn sync(&mut self, path: &str) -> Result<(), DiskFault>
        requires making { Sure (drive self.old) (λ d. IsDraft d path.now) }
        ensures drive { KnownBoth (drive self.old) (drive self.new) (λ old new. Does old new result (λ _. Syncs old new path.now)) }
        ensures log { KnownBoth (log self.old) (log self.new) (λ old new. Says old new result (λ _. Synced)) };

    /// Puts the draft, whose bytes were synced, in the place of a file, in one step. The last calls were: sync, a look at the draft by its
    /// handle and by its path, which showed one file, and a look at the place.
    fn rename(&mut self, from: &str, to: &str) -> Result<(), DiskFault>
        requires whole { Sure (drive self.old) (λ d. IsWhole d from.now) }
        requires apart { from.now ≢ to.now }
        requires held { Sure (drive self.old) (λ d. IsInHeld d to.now) }
        requires looked { Sure (log self.old) (λ calls. MayRename calls from.now to.now) }
        ensures drive { KnownBoth (drive self.old) (drive self.new) (λ old new. Does old new result (λ _. Renames old new from.now to.now)) }
        ensures log { KnownBoth (log self.old) (log self.new) (λ old new. Says old new result (λ _. Renamed from.now to.now)) };

    /// Removes what stands under a path, and follows no link. It is done, too, where nothing stands there. Without the lock it may only be
    /// the draft, which the last two calls saw there.
    fn remove(&mut self, path: &str) -> Result<(), DiskFault>
        requires may { Sure (drive self.old) (λ d. MayRemove d path.now) }
        requires held { Sure (drive self.old) (λ d. IsInHeld d path.now) }
        requires looked { Sure (log self.old) (λ calls. MayDrop calls path.now) }
        ensures drive { KnownBoth (drive self.old) (drive self.new) (λ old new. Does old new result (λ _. Removes old new path.now)) }
        ensures log { KnownBoth (log self.old) (log self.new) (λ old new. Drops old new path.now result) }
        ensures memory { result ≢ Err DiskFault.NoMemory };

    /// Syncs the folder that is open: a rename in it is on the device then.
    fn settle(&mut self) -> Result<(), DiskFault>
        requires held { Sure (drive self.old) (λ d. d.held ≢ None) }
        ensures drive { KnownBoth (drive self.old) (drive self.new)
            (λ old new. Does old new result (λ _. new ≡ record old { settled = true })) }
        ensures log { KnownBoth (log self.old) (log self.new) (λ old new. Says old new result (λ _. Settled)) }
        ensures memory { result ≢ Err DiskFault.NoMemory };

    /// Closes the draft and the folder, which releases its lock.
    fn release(&mut self)
        ensures drive { KnownBoth (drive self.old) (drive self.new)
            (λ old new. new ≡ record old { held = None; locked = false; making = None }) }
        ensures log { KnownBoth (log self.old) (log self.new) (λ old new. Notes old new Released) };

    /// Opens a file to read it.
    fn open_file(&mut self, path: &str) -> Result<(), DiskFault>
        ensures drive { KnownBoth (drive self.old) (drive self.new) (λ old new. Does old new result (λ _. OpensFile old new path.now)) }
        ensures log { KnownBoth (log self.old) (log self.new) (λ old new. Says old new result (λ _. OpenedFile path.now)) };

    /// Looks at the file that is open, by its handle (fstat).
    fn stat_file(&mut self, path: &str) -> Result<Told, DiskFault>
        ensures drive { KnownBoth (drive self.old) (drive self.new) (λ old new. Does old new result (λ told. TellsFile old new path.now told)) }
        ensures log { KnownBoth (log self.old) (log self.new) (λ old new. Says old new result (λ told. ToldFile told)) };

    /// Reads at most so many bytes of the file that is open, from its start. The last two calls opened it and saw a regular file.
    fn read(&mut self, alloc: Global, path: &str, most: u64) -> Result<Vec<u8>, DiskFault>
        requires regular { Sure (log self.old) (λ calls. MayRead calls path.now) }
        ensures drive { KnownBoth (drive self.old) (drive self.new) (λ old new. Does old new result (λ bytes. ReadsAt old new path.now most bytes)) }
        ensures log { KnownBoth (log self.old) (log self.new) (λ old new. Says old new result (λ bytes. ReadFile most bytes.items)) };

    /// Closes the file that is open.
    fn close_file(&mut self)
        ensures drive { KnownBoth (drive self.old) (drive self.new) (λ old new. new ≡ old) }
        ensures log { KnownBoth (log self.old) (log self.new) (λ old new. Notes old new ClosedFile) };
}

/// What makes disks: a program's runtime, or what a test has in its place.
pub trait Disks {
    /// Such a disk.
    type Disk: Disk;

    /// What stands on a new disk, where that is known.
    ghost stands: { Self → Option Drive };

    /// A new disk, on which nothing is open. Fails where memory is refused.
    fn disk(&self) -> Result<Self::Disk, AllocError>
        ensures { IfOk result (λ disk. Self.Disk.Disk.drive disk ≡ stands self.now) };
}
