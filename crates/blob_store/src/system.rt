//! The files of the system as a disk: each method is one call of the kit, without a loop and without a comparison of what it found.
//!
//! Nothing is known of them: who else writes the files, what the system does and what it keeps. That each call does what `Disk` says is
//! trusted.
ghost use Rattle.std.specs.Prelude.{None};

use crate::disk::{Disk, DiskFault, Disks, Kind, LockTry, Stamp, Time, Told};
use std::alloc::{AllocError, Global};
use std::fs::{File, Metadata, OpenOptions, Permissions, TryLockError};
use std::io::{Read, Write};
use std::os::unix::fs::{MetadataExt, OpenOptionsExt, PermissionsExt, fchown};
use std::time::Duration;
use std::{fs, io, thread};

/// The files of the system, by their handles: the folder that is open, the draft, and the file that is read.
#[derive(Drop)]
pub struct SystemCalls {
    rt: HostRuntime,
    folder: Option<File>,
    draft: Option<File>,
    file: Option<File>,
}

impl Disks for HostRuntime {
    type Disk = SystemCalls;

    ghost stands = { λ _. None };

    fn disk(&self) -> Result<SystemCalls, AllocError> {
        Ok(SystemCalls {
            rt: self.clone()?,
            folder: None,
            draft: None,
            file: None,
        })
    }
}

// The answer of a call of the kit.
fn answer<T: Drop>(outcome: io::Result<T>) -> Result<T, DiskFault> {
    match outcome {
        Ok(it) => Ok(it),
        Err(error) => match error.kind() {
            io::ErrorKind::OutOfMemory => Err(DiskFault::NoMemory),
            _ => Err(DiskFault::Failed),
        },
    }
}

// What the system tells of a file.
fn told_of(metadata: &Metadata) -> Told {
    let kind = if metadata.is_file() {
        Kind::Regular
    } else if metadata.is_symlink() {
        Kind::Link
    } else {
        Kind::Other
    };
    Told {
        kind,
        mode: metadata.mode() & 0o7777,
        owner: metadata.uid(),
        group: metadata.gid(),
        stamp: Stamp {
            device: metadata.dev(),
            inode: metadata.ino(),
            length: metadata.len(),
            written: Time {
                seconds: metadata.mtime(),
                nanoseconds: metadata.mtime_nsec(),
            },
            changed: Time {
                seconds: metadata.ctime(),
                nanoseconds: metadata.ctime_nsec(),
            },
        },
    }
}

impl SystemCalls {
    fn draft(&self) -> Result<&File, DiskFault> {
        self.draft.as_ref().ok_or(DiskFault::Failed)
    }
}

impl Disk for SystemCalls {
    ghost drive = { λ _. None };

    ghost log = { λ _. None };

    fn look(&mut self, path: &str) -> Result<Option<Told>, DiskFault> {
        match fs::symlink_metadata(&self.rt, path) {
            Err(error) if error.kind() == io::ErrorKind::NotFound => Ok(None),
            outcome => Ok(Some(told_of(&answer(outcome)?))),
        }
    }

    fn look_draft(&mut self, path: &str) -> Result<Option<Told>, DiskFault> {
        match fs::symlink_metadata(&self.rt, path) {
            Ok(metadata) => Ok(Some(told_of(&metadata))),
            Err(error) if error.kind() == io::ErrorKind::NotFound => Ok(None),
            Err(_) => Err(DiskFault::Failed),
        }
    }

    fn follow(&mut self, path: &str) -> Result<Told, DiskFault> {
        Ok(told_of(&answer(fs::metadata(&self.rt, path))?))
    }

    fn probe(&mut self, path: &str) -> Result<(), DiskFault> {
        // (to read, too: then no pipe waits for a reader)
        let mut options = OpenOptions::new();
        options.read(true).write(true);
        answer(options.open(&self.rt, path))?;
        Ok(())
    }

    fn open_folder(&mut self, folder: &str) -> Result<(), DiskFault> {
        self.folder = Some(answer(File::open(&self.rt, folder))?);
        Ok(())
    }

    fn try_lock(&mut self) -> LockTry {
        let Some(folder) = &self.folder else {
            return LockTry::Refused(0);
        };
        match folder.try_lock() {
            Ok(()) => LockTry::Taken,
            Err(TryLockError::WouldBlock) => LockTry::Busy,
            Err(TryLockError::Error(error)) => match error.raw_os_error() {
                Some(code) => LockTry::Refused(code.unsigned_abs()),
                None => LockTry::Refused(0),
            },
        }
    }

    fn wait(&mut self) {
        thread::sleep(&self.rt, Duration::from_millis(10));
    }

    fn create(&mut self, path: &str, mode: u32) -> Result<(), DiskFault> {
        let mut options = OpenOptions::new();
        options.write(true).create_new(true).mode(mode);
        self.draft = Some(answer(options.open(&self.rt, path))?);
        Ok(())
    }

    fn stat_draft(&mut self, _path: &str) -> Result<Told, DiskFault> {
        let Some(draft) = &self.draft else {
            return Err(DiskFault::Failed);
        };
        match draft.metadata() {
            Ok(metadata) => Ok(told_of(&metadata)),
            Err(_) => Err(DiskFault::Failed),
        }
    }

    fn set_mode(&mut self, _path: &str, mode: u32) -> Result<(), DiskFault> {
        answer(self.draft()?.set_permissions(Permissions::from_mode(mode)))
    }

    fn set_group(&mut self, _path: &str, group: u32) -> Result<(), DiskFault> {
        answer(fchown(self.draft()?, None, Some(group)))
    }

    fn set_owner(&mut self, _path: &str, owner: u32) -> bool {
        match &self.draft {
            Some(draft) => fchown(draft, Some(owner), None).is_ok(),
            None => false,
        }
    }

    fn write(&mut self, _path: &str, bytes: &[u8]) -> Result<(), DiskFault> {
        match &mut self.draft {
            Some(draft) => answer(draft.write_all(bytes)),
            None => Err(DiskFault::Failed),
        }
    }

    fn sync(&mut self, _path: &str) -> Result<(), DiskFault> {
        answer(self.draft()?.sync_all())
    }

    fn rename(&mut self, from: &str, to: &str) -> Result<(), DiskFault> {
        answer(fs::rename(&self.rt, from, to))
    }

    fn remove(&mut self, path: &str) -> Result<(), DiskFault> {
        match fs::remove_file(&self.rt, path) {
            Ok(()) => Ok(()),
            Err(error) if error.kind() == io::ErrorKind::NotFound => Ok(()),
            Err(_) => Err(DiskFault::Failed),
        }
    }

    fn settle(&mut self) -> Result<(), DiskFault> {
        let Some(folder) = &self.folder else {
            return Err(DiskFault::Failed);
        };
        match folder.sync_all() {
            Ok(()) => Ok(()),
            Err(_) => Err(DiskFault::Failed),
        }
    }

    fn release(&mut self) {
        self.draft = None;
        self.folder = None;
    }

    fn open_file(&mut self, path: &str) -> Result<(), DiskFault> {
        self.file = Some(answer(File::open(&self.rt, path))?);
        Ok(())
    }

    fn stat_file(&mut self, _path: &str) -> Result<Told, DiskFault> {
        match &self.file {
            Some(file) => Ok(told_of(&answer(file.metadata())?)),
            None => Err(DiskFault::Failed),
        }
    }

    fn read(&mut self, alloc: Global, _path: &str, most: u64) -> Result<Vec<u8>, DiskFault> {
        let Some(file) = &mut self.file else {
            return Err(DiskFault::Failed);
        };
        let mut bytes = Vec::new(alloc);
        answer(Read::by_ref(file).take(most).read_to_end(&mut bytes))?;
        Ok(bytes)
    }

    fn close_file(&mut self) {
        self.file = None;
    }
}
