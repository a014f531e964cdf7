//! A disk in memory.
ghost use Rattle.std.specs.Prelude.{◌≡◌, ◌+◌, true, false, take, Some, None, IsTrue, IfOk, IfErr, IfSome};
ghost use Rattle.tab_tests.specs.Drives.{at_path, ChangesAt};

use crate::files::{Files, Stored};
use blob_store::Disk;
use blob_store::disk::{DiskFault, Kind, LockTry, Stamp, Time, Told};
use std::alloc::Global;

// The first bytes of some, at most so many.
fn first_bytes(bytes: &[u8], most: u64) -> &[u8]
    ensures { result.now ≡ take most bytes.now }
{
    if bytes.len() as u64 <= most {
        return bytes;
    }
    &bytes[..most as usize]
}

// Counts a call, and tells whether it is the one that fails: then that is counted.
fn is_due(passes: &mut Option<u64>, faults: &mut u64) -> bool
    ensures due { IsTrue result → faults.new ≡ faults.old + 1 }
    ensures passed { result ≡ false → faults.new ≡ faults.old }
{
    match *passes {
        Some(0) if *faults < u64::MAX => {
            *passes = None;
            *faults += 1;
            true
        }
        Some(left) => {
            *passes = Some(left.saturating_sub(1));
            false
        }
        None => false,
    }
}

// Refuses a call, and counts it where it can be counted.
fn refusal(faults: &mut u64) -> DiskFault
    ensures failed { result ≡ DiskFault.Failed → faults.new ≡ faults.old + 1 }
    ensures refused { result ≡ DiskFault.NoMemory → faults.new ≡ faults.old }
{
    if *faults == u64::MAX {
        return DiskFault::NoMemory;
    }
    *faults += 1;
    DiskFault::Failed
}

// Writes behind the bytes of the file under a path. Refused, it changes nothing.
fn change(
    files: &mut Files,
    alloc: Global,
    path: &str,
    bytes: &[u8],
    synced: bool,
) -> Result<(), DiskFault>
    ensures done { IfOk result (λ _. ChangesAt (at_path files.old) (at_path files.new) path.now bytes.now synced) }
    ensures refused { IfErr result (λ fault. (fault ≡ DiskFault.NoMemory) × (at_path files.new ≡ at_path files.old)) }
{
    let Some(stored) = files.get(path) else {
        return Err(DiskFault::NoMemory);
    };
    let Ok(stored) = stored.with(alloc, bytes, synced) else {
        return Err(DiskFault::NoMemory);
    };
    match files.put(alloc, path, stored) {
        Ok(()) => Ok(()),
        Err(_) => Err(DiskFault::NoMemory),
    }
}

/// A moment of the clock of a disk in memory.
pub const NOW: Time = Time {
    seconds: 5,
    nanoseconds: 0,
};

// What is told of a new file.
fn new_told(next: &mut u64) -> Told
    ensures { result.kind ≡ Kind.Regular }
{
    let inode = *next;
    *next = next.saturating_add(1);
    Told {
        kind: Kind::Regular,
        mode: 0o644,
        owner: 0,
        group: 0,
        stamp: Stamp {
            device: 1,
            inode,
            length: 0,
            written: NOW,
            changed: NOW,
        },
    }
}

// What is told of a regular file.
fn regular(told: Told) -> Told
    ensures { told.kind ≡ Kind.Regular → result ≡ told }
{
    match told.kind {
        Kind::Link => Told {
            kind: Kind::Regular,
            ..told
        },
        Kind::Regular | Kind::Other => told,
    }
}

/// A disk in memory, one of whose calls fails.
#[derive(Drop)]
pub struct MemoryDisk {
    alloc: Global,
    files: Files,
    held: Option<String>,
    locked: bool,
    waits: u64,
    making: Option<String>,
    settled: bool,
    faults: u64,
    /// Whether folders have locks.
    has_locks: bool,
    /// How many calls pass before the one that fails; none once it has.
    passes: Option<u64>,
    /// The number of the file that is made next.
    next: u64,
}

impl MemoryDisk {
    /// A disk without files, which passes this many calls and fails at the next, or at none.
    pub fn new(alloc: Global, has_locks: bool, passes: Option<u64>) -> Self {
        MemoryDisk {
            alloc,
            files: Files::new(alloc),
            held: None,
            locked: false,
            waits: 0,
            making: None,
            settled: false,
            faults: 0,
            has_locks,
            passes,
            next: 1,
        }
    }

    /// The files.
    pub fn files(&self) -> &Files {
        &self.files
    }

    /// The files, for another program's hands.
    pub fn files_mut(&mut self) -> &mut Files {
        &mut self.files
    }

    /// Whether a folder is held, the last rename was synced, and how many calls failed.
    pub fn state(&self) -> (bool, bool, u64) {
        (self.held.is_some(), self.settled, self.faults)
    }
}

impl Disk for MemoryDisk {
    ghost use Rattle.tab_tests.specs.Drives.{drive_of};

    ghost drive = { λ d. Some (drive_of d) };

    ghost log = { λ _. None };

    fn look(&mut self, path: &str) -> Result<Option<Told>, DiskFault> {
        if is_due(&mut self.passes, &mut self.faults) {
            return Err(DiskFault::Failed);
        }
        match self.files.get(path) {
            Some(stored) => Ok(Some(stored.told)),
            None => Ok(None),
        }
    }

    fn look_draft(&mut self, path: &str) -> Result<Option<Told>, DiskFault> {
        if is_due(&mut self.passes, &mut self.faults) {
            return Err(DiskFault::Failed);
        }
        match self.files.get(path) {
            Some(stored) => Ok(Some(stored.told)),
            None => Ok(None),
        }
    }

    fn follow(&mut self, path: &str) -> Result<Told, DiskFault> {
        if is_due(&mut self.passes, &mut self.faults) {
            return Err(DiskFault::Failed);
        }
        match self.files.get(path) {
            Some(stored) => Ok(regular(stored.told)),
            None => Err(refusal(&mut self.faults)),
        }
    }

    fn open_folder(&mut self, folder: &str) -> Result<(), DiskFault> {
        if is_due(&mut self.passes, &mut self.faults) {
            return Err(DiskFault::Failed);
        }
        match String::from_str(self.alloc, folder) {
            Ok(folder) => {
                self.held = Some(folder);
                self.locked = false;
                self.waits = 0;
                Ok(())
            }
            Err(_) => Err(DiskFault::NoMemory),
        }
    }

    fn probe(&mut self, _path: &str) -> Result<(), DiskFault> {
        if is_due(&mut self.passes, &mut self.faults) {
            return Err(DiskFault::Failed);
        }
        Ok(())
    }

    fn try_lock(&mut self) -> LockTry {
        if is_due(&mut self.passes, &mut self.faults) {
            return LockTry::Refused(5);
        }
        if !self.has_locks {
            return LockTry::Refused(95);
        }
        self.locked = true;
        LockTry::Taken
    }

    fn wait(&mut self) {}

    fn create(&mut self, path: &str, _mode: u32) -> Result<(), DiskFault> {
        if is_due(&mut self.passes, &mut self.faults) {
            return Err(DiskFault::Failed);
        }
        if self.files.get(path).is_some() {
            return Err(refusal(&mut self.faults));
        }
        let Ok(making) = String::from_str(self.alloc, path) else {
            return Err(DiskFault::NoMemory);
        };
        let stored = Stored {
            told: new_told(&mut self.next),
            bytes: Vec::new(self.alloc),
            synced: false,
        };
        match self.files.put(self.alloc, path, stored) {
            Ok(()) => {
                self.making = Some(making);
                Ok(())
            }
            Err(_) => Err(DiskFault::NoMemory),
        }
    }

    fn stat_draft(&mut self, path: &str) -> Result<Told, DiskFault> {
        if is_due(&mut self.passes, &mut self.faults) {
            return Err(DiskFault::Failed);
        }
        match self.files.get(path) {
            Some(stored) => Ok(stored.told),
            None => Err(DiskFault::Failed),
        }
    }

    fn set_mode(&mut self, path: &str, mode: u32) -> Result<(), DiskFault> {
        if is_due(&mut self.passes, &mut self.faults) {
            return Err(DiskFault::Failed);
        }
        let Some(stored) = self.files.get(path) else {
            return Err(DiskFault::NoMemory);
        };
        let told = Told {
            mode,
            ..stored.told
        };
        let Ok(bytes) = Vec::from_slice(self.alloc, &stored.bytes) else {
            return Err(DiskFault::NoMemory);
        };
        let stored = Stored {
            told,
            bytes,
            synced: stored.synced,
        };
        match self.files.put(self.alloc, path, stored) {
            Ok(()) => Ok(()),
            Err(_) => Err(DiskFault::NoMemory),
        }
    }

    fn set_group(&mut self, path: &str, group: u32) -> Result<(), DiskFault> {
        if is_due(&mut self.passes, &mut self.faults) {
            return Err(DiskFault::Failed);
        }
        let Some(stored) = self.files.get(path) else {
            return Err(DiskFault::NoMemory);
        };
        let told = Told {
            group,
            ..stored.told
        };
        let Ok(bytes) = Vec::from_slice(self.alloc, &stored.bytes) else {
            return Err(DiskFault::NoMemory);
        };
        let stored = Stored {
            told,
            bytes,
            synced: stored.synced,
        };
        match self.files.put(self.alloc, path, stored) {
            Ok(()) => Ok(()),
            Err(_) => Err(DiskFault::NoMemory),
        }
    }

    fn set_owner(&mut self, _path: &str, _owner: u32) -> bool {
        false
    }

    fn write(&mut self, path: &str, bytes: &[u8]) -> Result<(), DiskFault> {
        if is_due(&mut self.passes, &mut self.faults) {
            return Err(DiskFault::Failed);
        }
        match change(&mut self.files, self.alloc, path, bytes, false) {
            Ok(()) => Ok(()),
            Err(_) => Err(DiskFault::NoMemory),
        }
    }

    fn sync(&mut self, path: &str) -> Result<(), DiskFault> {
        if is_due(&mut self.passes, &mut self.faults) {
            return Err(DiskFault::Failed);
        }
        change(&mut self.files, self.alloc, path, b"", true)
    }

    fn rename(&mut self, from: &str, to: &str) -> Result<(), DiskFault> {
        if is_due(&mut self.passes, &mut self.faults) {
            return Err(DiskFault::Failed);
        }
        let Some(stored) = self.files.get(from) else {
            return Err(refusal(&mut self.faults));
        };
        let Ok(stored) = stored.with(self.alloc, b"", stored.synced) else {
            return Err(DiskFault::NoMemory);
        };
        let Ok(making) = String::from_str(self.alloc, to) else {
            return Err(DiskFault::NoMemory);
        };
        match self.files.put(self.alloc, to, stored) {
            Ok(()) => {
                self.files.remove(from);
                self.settled = false;
                self.making = Some(making);
                Ok(())
            }
            Err(_) => Err(DiskFault::NoMemory),
        }
    }

    fn remove(&mut self, path: &str) -> Result<(), DiskFault> {
        if is_due(&mut self.passes, &mut self.faults) {
            return Err(DiskFault::Failed);
        }
        self.files.remove(path);
        Ok(())
    }

    fn settle(&mut self) -> Result<(), DiskFault> {
        if is_due(&mut self.passes, &mut self.faults) {
            return Err(DiskFault::Failed);
        }
        self.settled = true;
        Ok(())
    }

    fn release(&mut self) {
        self.held = None;
        self.locked = false;
        self.making = None;
    }

    fn open_file(&mut self, path: &str) -> Result<(), DiskFault> {
        if is_due(&mut self.passes, &mut self.faults) {
            return Err(DiskFault::Failed);
        }
        match self.files.get(path) {
            Some(_) => Ok(()),
            None => Err(refusal(&mut self.faults)),
        }
    }

    fn stat_file(&mut self, path: &str) -> Result<Told, DiskFault> {
        if is_due(&mut self.passes, &mut self.faults) {
            return Err(DiskFault::Failed);
        }
        match self.files.get(path) {
            Some(stored) => Ok(regular(stored.told)),
            None => Err(refusal(&mut self.faults)),
        }
    }

    fn read(&mut self, alloc: Global, path: &str, most: u64) -> Result<Vec<u8>, DiskFault> {
        if is_due(&mut self.passes, &mut self.faults) {
            return Err(DiskFault::Failed);
        }
        let Some(stored) = self.files.get(path) else {
            return Err(refusal(&mut self.faults));
        };
        match Vec::from_slice(alloc, first_bytes(&stored.bytes, most)) {
            Ok(bytes) => Ok(bytes),
            Err(_) => Err(DiskFault::NoMemory),
        }
    }

    fn close_file(&mut self) {}
}
