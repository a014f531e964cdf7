//! The databases of the system's files.
//!
//! Which files are at a path is not known: others may write them, and what the system does is not known. That `open_files` opens the
//! files at its path is trusted; that `connect` opens the database in the files that it is given is proved.
ghost use Rattle.std.specs.Prelude.{◌≡◌, ℕ, true, false, Some, None, IsTrue, IfOk};
ghost use Rattle.sqlite_std_file.specs.File.{file_is_usable};
ghost use Rattle.sqlite.specs.Files.{file_state, image_of};
ghost use Rattle.sqlite_tables.specs.Prelude.{layout_at, IsKnown};
ghost use Rattle.sqlite_writes.specs.Writable.{AreApart, IsWritable};
ghost use Rattle.sqlite_writes.specs.Found.{ShowsImage};

use crate::files::{DatabaseFiles, Databases, Opened};
use crate::watch::Watch;
use fdw_api::interface::Fault;
use sqlite::{Connection, Error, ErrorCode, File, FileStore, Files, Options, Start, Unknown};
use sqlite_disk::Disk;
use sqlite_std_file::OpenError;
use sqlite_tables::SourceStore;
use std::hash::{BuildHasher, RandomState};
use std::io::ErrorKind;

const NO_MEMORY: Error = Error::SqliteFailure(ErrorCode::OutOfMemory);

const CANNOT_OPEN: Error = Error::SqliteFailure(ErrorCode::CannotOpen);

/// The files of a database of the system: its log and its database file. No sync of the two has failed.
#[derive(Drop)]
pub struct SystemFiles {
    pair: Files<File>,
    watch: Watch,
    ghost log: { IsTrue (file_is_usable ⟦<Unknown as Start>⟧ pair.log) },
    ghost db: { IsTrue (file_is_usable ⟦<Unknown as Start>⟧ pair.db) },
}

impl DatabaseFiles for SystemFiles {
    ghost image = { λ f. Some (image_of ⟦<File as Disk>⟧ f.pair) };

    ghost refuses = { λ _ _. Unit {0} };
}

// Why files are not opened.
fn error_of(error: OpenError) -> Error {
    match error {
        OpenError::OutOfMemory => NO_MEMORY,
        OpenError::Busy => Error::SqliteFailure(ErrorCode::DatabaseBusy),
        OpenError::Io(error) if error.kind() == ErrorKind::OutOfMemory => NO_MEMORY,
        _ => CANNOT_OPEN,
    }
}

// How a database is opened: with a random seed of its own.
fn options(rt: &HostRuntime) -> Result<Options, Error> {
    match RandomState::new(rt) {
        Ok(state) => Ok(Options::new(state.hash_one(&0u8))),
        Err(_) => Err(CANNOT_OPEN),
    }
}

// What looks at the files of a database. Those that are missing are made, as each opening does.
fn watch_over(rt: &HostRuntime, path: &str) -> Result<Watch, Error> {
    if let Some(watch) = found_watch(rt, path)? {
        return Ok(watch);
    }
    match sqlite_std_file::open(rt, path, Unknown) {
        Ok(_) => {}
        Err(error) => return Err(error_of(error)),
    }
    match found_watch(rt, path)? {
        Some(watch) => Ok(watch),
        None => Err(CANNOT_OPEN),
    }
}

// What looks at the files of a database that is there.
fn found_watch(rt: &HostRuntime, path: &str) -> Result<Option<Watch>, Error> {
    match Watch::over(rt, path) {
        Ok(found) => Ok(found),
        Err(_) => Err(NO_MEMORY),
    }
}

// Refuses files that are not those that the watch saw before they were opened.
fn same_files(pair: Files<File>, watch: Watch) -> Result<SystemFiles, Error>
    requires log { IsTrue (file_is_usable ⟦<Unknown as Start>⟧ pair.log) }
    requires db { IsTrue (file_is_usable ⟦<Unknown as Start>⟧ pair.db) }
{
    let mut watch = watch;
    match watch.look() {
        Ok(()) => Ok(SystemFiles { pair, watch }),
        Err(Fault::NoMemory) => Err(NO_MEMORY),
        Err(_) => Err(CANNOT_OPEN),
    }
}

impl Databases for HostRuntime {
    type Files = SystemFiles;

    type Store = FileStore<File>;

    ghost stands = { λ _ _. None };

    ghost refuses = { λ _ _ _. Unit {0} };

    fn open_files(&self, path: &str) -> Result<SystemFiles, Error> {
        // (neither is the path of a file, as for SQLite)
        if path == ":memory:" || path.starts_with("file:") {
            return Err(CANNOT_OPEN);
        }
        let watch = watch_over(self, path)?;
        match sqlite_std_file::open(self, path, Unknown) {
            Ok(pair) => same_files(pair, watch),
            Err(error) => Err(error_of(error)),
        }
    }

    fn connect(&self, files: SystemFiles) -> Result<Opened<FileStore<File>>, Error>
        ensures found { IfOk result (λ o. ShowsImage (image_of ⟦<File as Disk>⟧ files.pair) (file_state o.conn)) }
        ensures known { (table : ℕ) → ⟦<FileStore<File> as SourceStore>⟧.honest ≡ true
            → IfOk result (λ o. ∥ IsKnown o.conn.schema (layout_at table) ∥₁) }
        ensures writable { (table : ℕ) → ⟦<FileStore<File> as SourceStore>⟧.honest ≡ true
            → IfOk result (λ o. ∥ IsWritable o.conn.schema (layout_at table) ∥₁) }
        ensures apart { ⟦<FileStore<File> as SourceStore>⟧.honest ≡ true → IfOk result (λ o. AreApart o.conn.schema) }
        ensures idle { IfOk result (λ o. o.conn.in_transaction ≡ false) }
    {
        let options = options(self)?;
        let SystemFiles { pair, watch } = files;
        match Connection::open_files_with(self.alloc(), pair, options, false) {
            Ok(mut conn) => {
                conn.set_clock(self);
                Ok(Opened { conn, watch })
            }
            Err((error, _)) => Err(error),
        }
    }
}
