//! Databases in files.
ghost use Rattle.std.specs.Prelude.{◌≡◌, ℕ, true, false, List, Option, Some, IfSome, IfOk, IfErr};
ghost use Rattle.sqlite_wal.specs.Recovery.{Image};
ghost use Rattle.sqlite.specs.Held.{state};
ghost use Rattle.sqlite_tables.specs.Prelude.{layout_at, IsKnown};
ghost use Rattle.sqlite_writes.specs.Writable.{AreApart, IsWritable};
ghost use Rattle.sqlite_writes.specs.Found.{Errors, Follows, IsFoundAt, ShowsAt, ShowsKnown};

use crate::watch::Watch;
use sqlite::{Connection, Error};
use sqlite_tables::SourceStore;

/// The files of a database, opened and locked. Nothing of them was read yet.
///
/// `image` is what they hold, where that is known: the bytes of the log and of the database file. `refuses` has the errors that may be
/// reported in place of the database in them.
pub trait DatabaseFiles: Drop {
    ghost image: { Self → Option Image };

    ghost refuses: { Self → Errors };
}

/// A database that was opened, and what looks whether its files are still those at its path.
#[derive(Drop)]
pub struct Opened<S: SourceStore + Drop> {
    /// The connection to the database.
    pub conn: Connection<S>,
    /// What looks at its files.
    pub watch: Watch,
}

/// What opens the databases of a program: its runtime, or what a test has in its place.
///
/// `stands` has the files of a database at each path, where these are known: a file that is missing has no bytes. `refuses` has the errors
/// that may be reported in place of the database at a path.
pub trait Databases {
    /// The files of such a database.
    type Files: DatabaseFiles;

    /// The store of such a database.
    type Store: SourceStore + Drop;

    ghost stands: { Self → List ℕ → Option Image };

    ghost refuses: { Self → List ℕ → Errors };

    /// The files of the database at this path. Those that are missing are made.
    ///
    /// Fails with an error of `refuses` where they cannot be opened.
    fn open_files(&self, path: &str) -> Result<Self::Files, Error>
        ensures found { IfSome (stands self.now path.now) (λ image. IfOk result (λ files. Self.Files.DatabaseFiles.image files
            ≡ Some image)) }
        ensures told { IfOk result (λ files. Follows (Self.Files.DatabaseFiles.refuses files) (refuses self.now path.now)) }
        ensures err { IfErr result (refuses self.now path.now) };

    /// The database in these files, in no transaction, with what looks at them. Of one whose store always returns what was written each
    /// layout's three texts are for one table, of no two layouts the same, or are not understood.
    ///
    /// Fails with an error of the files' `refuses` where it cannot be read.
    fn connect(&self, files: Self::Files) -> Result<Opened<Self::Store>, Error>
        ensures found { IfOk result (λ o. ShowsKnown (Self.Files.DatabaseFiles.image files) (state Self.Store.Store o.conn)) }
        ensures known { (table : ℕ) → Self.Store.SourceStore.honest ≡ true
            → IfOk result (λ o. ∥ IsKnown o.conn.schema (layout_at table) ∥₁) }
        ensures writable { (table : ℕ) → Self.Store.SourceStore.honest ≡ true
            → IfOk result (λ o. ∥ IsWritable o.conn.schema (layout_at table) ∥₁) }
        ensures apart { Self.Store.SourceStore.honest ≡ true → IfOk result (λ o. AreApart o.conn.schema) }
        ensures idle { IfOk result (λ o. o.conn.in_transaction ≡ false) }
        ensures err { IfErr result (Self.Files.DatabaseFiles.refuses files) };
}

/// Returns the database at this path, in no transaction, with what looks at its files. It is that of the files at the path, where these are
/// known. Where its store always returns what was written this holds whatever its disk did, and each layout's three texts are for one
/// table, of no two layouts the same, or are not understood.
///
/// # Errors
///
/// The database cannot be opened or read: the error is the one that was reported of its path, or of its files.
pub fn open_database<V: Databases>(rt: &V, path: &str) -> Result<Opened<V::Store>, Error>
    ensures file { IfOk result (λ o. ShowsAt V.Store.Store (V.stands rt.now) path.now o.conn) }
    ensures there { V.Store.SourceStore.honest ≡ true
        → IfOk result (λ o. IsFoundAt (V.stands rt.now) path.now (state V.Store.Store o.conn).now) }
    ensures known { (table : ℕ) → V.Store.SourceStore.honest ≡ true → IfOk result (λ o. ∥ IsKnown o.conn.schema (layout_at table) ∥₁) }
    ensures writable { (table : ℕ) → V.Store.SourceStore.honest ≡ true
        → IfOk result (λ o. ∥ IsWritable o.conn.schema (layout_at table) ∥₁) }
    ensures apart { V.Store.SourceStore.honest ≡ true → IfOk result (λ o. AreApart o.conn.schema) }
    ensures idle { IfOk result (λ o. o.conn.in_transaction ≡ false) }
    ensures err { IfErr result (V.refuses rt.now path.now) }
{
    let files = rt.open_files(path)?;
    let opened = rt.connect(files)?;
    let _idle = opened.conn.is_autocommit();
    let _schema = opened.conn.schema();
    Ok(opened)
}
