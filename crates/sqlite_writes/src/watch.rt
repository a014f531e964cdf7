//! Whether the files of an open database are still those at its path: another program may move another file there, or remove it.
ghost use Rattle.std.specs.Prelude.{◌≡◌, is_ok, IfErr, None};
ghost use Rattle.fdw_api.specs.Calls.{not_refused};
ghost use Rattle.sqlite_writes.specs.Watched.{Looks, are_files, are_found, is_file};

use fdw_api::interface::Fault;
use med_value::NoMemory;
use std::fs;
use std::io::{self, ErrorKind};
use std::os::unix::fs::MetadataExt;

/// A file of the system by its device and its inode: no two files that are there have both in common.
#[derive(Clone, Copy, Debug)]
pub struct FileId {
    /// The number of its device.
    pub device: u64,
    /// The number of its inode.
    pub inode: u64,
}

/// The files of a database.
#[derive(Clone, Copy, Debug)]
pub struct FilePair {
    /// The database file.
    pub db: FileId,
    /// The log beside it.
    pub log: FileId,
}

/// Where the files of a database are, and which files were opened there.
#[derive(Drop)]
pub struct Place {
    rt: HostRuntime,
    path: String,
    log_path: String,
    files: FilePair,
}

/// Looks whether the files at the path of a database are those that were opened. A database in memory has no path.
#[derive(Drop)]
pub struct Watch {
    place: Option<Place>,
    /// How many looks there were, modulo 2^64.
    looks: u64,
    /// What the last look found: none where one of the two files is missing.
    found: Option<FilePair>,
}

// The file at a path: one call of the system. None where no file is found. A link is followed.
fn file_at(rt: &HostRuntime, path: &str) -> Result<Option<FileId>, NoMemory> {
    match fs::metadata(rt, path) {
        Ok(metadata) => Ok(Some(FileId {
            device: metadata.dev(),
            inode: metadata.ino(),
        })),
        Err(error) if error.kind() == ErrorKind::OutOfMemory => Err(NoMemory),
        Err(_) => Ok(None),
    }
}

// The files of the database at a path, with its log at another.
fn files_at(rt: &HostRuntime, path: &str, log_path: &str) -> Result<Option<FilePair>, NoMemory> {
    let Some(db) = file_at(rt, path)? else {
        return Ok(None);
    };
    let Some(log) = file_at(rt, log_path)? else {
        return Ok(None);
    };
    Ok(Some(FilePair { db, log }))
}

// Whether two names are of one file.
fn is_file(a: FileId, b: FileId) -> bool
    ensures { result ≡ is_file a b }
{
    a.device == b.device && a.inode == b.inode
}

// Whether both files are the same.
fn are_files(a: FilePair, b: FilePair) -> bool
    ensures { result ≡ are_files a b }
{
    is_file(a.db, b.db) && is_file(a.log, b.log)
}

// Whether these files were found.
fn are_found(files: FilePair, found: Option<FilePair>) -> bool
    ensures { result ≡ are_found files found }
{
    match found {
        None => false,
        Some(found) => are_files(files, found),
    }
}

// Where the log of the database at a path is. As in SQLite, it lies beside the file to which a link leads.
fn log_path_of(rt: &HostRuntime, path: &str) -> io::Result<String> {
    let real = fs::canonicalize(rt, path)?;
    Ok(format!(in rt.alloc(); "{}-wal", real.as_str())?)
}

impl Watch {
    /// The watch of a database in memory.
    pub fn of_memory() -> Self
        ensures { result.place ≡ None }
    {
        Watch {
            place: None,
            looks: 0,
            found: None,
        }
    }

    /// The watch over the files of the database at a path, where both are there.
    ///
    /// # Errors
    ///
    /// Memory was refused.
    pub(crate) fn over(rt: &HostRuntime, path: &str) -> Result<Option<Self>, NoMemory> {
        let log_path = match log_path_of(rt, path) {
            Ok(log_path) => log_path,
            Err(error) if error.kind() == ErrorKind::OutOfMemory => return Err(NoMemory),
            Err(_) => return Ok(None),
        };
        let Some(files) = files_at(rt, path, log_path.as_str())? else {
            return Ok(None);
        };
        let place = Place {
            rt: rt.clone()?,
            path: format!(in rt.alloc(); "{}", path)?,
            log_path,
            files,
        };
        Ok(Some(Watch {
            place: Some(place),
            looks: 0,
            found: None,
        }))
    }

    /// Looks at the path, and fails where the files there are not those that were opened. Of a database in memory it never fails.
    ///
    /// # Errors
    ///
    /// [`Fault::Source`] where the files are others, or one is missing; [`Fault::NoMemory`] where memory was refused.
    pub fn look(&mut self) -> Result<(), Fault>
        ensures looked { Looks self.old self.new (is_ok result) }
        ensures refused { IfErr result not_refused }
    {
        let Some(place) = &self.place else {
            return Ok(());
        };
        let answer = files_at(&place.rt, place.path.as_str(), place.log_path.as_str());
        let files = place.files;
        self.looks = self.looks.wrapping_add(1);
        match answer {
            Err(_) => {
                self.found = None;
                Err(Fault::NoMemory)
            }
            Ok(found) => {
                self.found = found;
                if are_found(files, found) {
                    Ok(())
                } else {
                    Err(Fault::Source)
                }
            }
        }
    }
}
