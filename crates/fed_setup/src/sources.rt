//! A source of any kind that a program serves, and how one of each is made.
ghost use Rattle.std.specs.Prelude.{◌≡◌, true, false, Some, IfOk, IfErr, IsSomeAnd, option_map, string_bytes};
ghost use Rattle.fdw_api.specs.State.{IsIdle};
ghost use Rattle.blob_store.specs.Files.{folder_shelf};
ghost use Rattle.med_catalog.specs.declared.kind.SourceKind.TheVariants.{Csv, JsonLines, Sqlite, List as Lists};
ghost use Rattle.med_world.specs.Engine.{TakesAs};
ghost use Rattle.list_wrapper.specs.ListBoxes.{box_of};
ghost use Rattle.csv_wrapper.specs.CsvBoxes.{IsNewCsv};
ghost use Rattle.jsonl_wrapper.specs.Boxes.{IsNewJsonl};
ghost use Rattle.sqlite_writes.specs.Found.{ShowsAt};
ghost use Rattle.fed_setup.specs.Databases.{IsNewDatabase, IsNewFile, IsNewMemory, ToldNotOpened, database_in, open_fault};
ghost use Rattle.fed_words.specs.Places.{is_memory};
ghost use Rattle.fed_setup.specs.Folders.{folder_in};

use blob_store::{Disks, Folder};
use csv_wrapper::CsvWrapper;
use fdw_api::Lift;
use fdw_api::interface::Wrapper;
use jsonl_wrapper::JsonlWrapper;
use list_wrapper::ListWrapper;
use med_value::NoMemory;
use source_kinds::law::{
    csv_takes_its_tables, jsonl_takes_its_tables, lists_take_their_tables, sqlite_takes_its_tables,
};
use sqlite::{Error as DatabaseError, ErrorCode, MemStore};
use sqlite_wrapper::SqliteWrapper;
use sqlite_writes::{Databases, Opened, Watch, memory_database, open_database};
use std::alloc::Global;
use thiserror::Error;
use wrapper_parts::EitherSource;

/// The files of a folder, on a disk of the runtime.
type Files<V> = Folder<<V as Disks>::Disk>;

/// A folder of CSV files or of JSON lines.
type FolderSource<V> = EitherSource<Lift<CsvWrapper<Files<V>>>, Lift<JsonlWrapper<Files<V>>>>;

/// A SQLite database in memory, or in a file.
type DatabaseSource<V> = EitherSource<
    SqliteWrapper<MemStore>,
    SqliteWrapper<<V as Databases>::Store>,
>;

/// A source: a list, a folder of CSV files or of JSON lines, or a SQLite database.
pub type Source<V> = EitherSource<ListWrapper, EitherSource<FolderSource<V>, DatabaseSource<V>>>;

/// Why a database is not opened.
#[derive(Clone, Copy, Debug, PartialEq, Eq, Error)]
pub enum OpenFault {
    /// Memory was refused.
    #[error("out of memory")]
    NoMemory,
    /// The database could not be opened.
    #[error("cannot open")]
    CannotOpen,
}

/// A list as a source. It shows what the list shows.
pub fn of_list<V: Databases + Disks>(list: ListWrapper) -> Source<V>
    ensures is { ⟦<Source<V> as Wrapper>⟧.meaning result ≡ box_of list }
    ensures takes { TakesAs Lists (⟦<Source<V> as Wrapper>⟧.meaning result) }
{
    lists_take_their_tables();
    EitherSource::First(list)
}

/// The CSV files of the folder at this path as a source, on which nothing is bound yet: what a new disk has there is what it shows.
///
/// # Errors
///
/// Memory was refused.
pub fn of_csv<V: Databases + Disks>(
    alloc: Global,
    rt: &V,
    path: &str,
) -> Result<Source<V>, NoMemory>
    ensures new { IfOk result (λ s. IsNewCsv (⟦<Source<V> as Wrapper>⟧.meaning s) (folder_shelf (V.Disks.stands rt.now) path.now 0)) }
    ensures idle { IfOk result (λ s. IsIdle (⟦<Source<V> as Wrapper>⟧.meaning s)) }
    ensures takes { IfOk result (λ s. TakesAs Csv (⟦<Source<V> as Wrapper>⟧.meaning s)) }
    ensures path { IfOk result (λ s. option_map (λ f. string_bytes f.path) (folder_in s) ≡ Some path.now) }
{
    csv_takes_its_tables();
    let files = Folder::new(alloc, rt, path)?;
    let csv = CsvWrapper::new(alloc, files);
    Ok(EitherSource::Second(EitherSource::First(EitherSource::First(Lift::new(csv)))))
}

/// The files of JSON lines of the folder at this path as a source, on which nothing is bound yet: what a new disk has there is what it
/// shows.
///
/// # Errors
///
/// Memory was refused.
pub fn of_jsonl<V: Databases + Disks>(
    alloc: Global,
    rt: &V,
    path: &str,
) -> Result<Source<V>, NoMemory>
    ensures new { IfOk result (λ s. IsNewJsonl (⟦<Source<V> as Wrapper>⟧.meaning s) (folder_shelf (V.Disks.stands rt.now) path.now 0)) }
    ensures idle { IfOk result (λ s. IsIdle (⟦<Source<V> as Wrapper>⟧.meaning s)) }
    ensures takes { IfOk result (λ s. TakesAs JsonLines (⟦<Source<V> as Wrapper>⟧.meaning s)) }
    ensures path { IfOk result (λ s. option_map (λ f. string_bytes f.path) (folder_in s) ≡ Some path.now) }
{
    jsonl_takes_its_tables();
    let files = Folder::new(alloc, rt, path)?;
    let jsonl = JsonlWrapper::new(alloc, files);
    Ok(EitherSource::Second(EitherSource::First(EitherSource::Second(Lift::new(jsonl)))))
}

// Why the database of an error is not opened.
fn open_fault(error: DatabaseError) -> OpenFault
    ensures { result ≡ open_fault error }
{
    match error {
        DatabaseError::SqliteFailure(ErrorCode::OutOfMemory) => OpenFault::NoMemory,
        _ => OpenFault::CannotOpen,
    }
}

// A new database in memory as a source. Nothing is opened for it, and the two texts that make its tables are good: whatever it is refused
// for is told as want of memory.
fn of_memory<V: Databases + Disks>(alloc: Global) -> Result<Source<V>, OpenFault>
    ensures new { IfOk result (λ s. IsNewMemory (⟦<Source<V> as Wrapper>⟧.meaning s)) }
    ensures err { IfErr result (λ fault. fault ≡ OpenFault.NoMemory) }
{
    let Ok(conn) = memory_database(alloc) else {
        return Err(OpenFault::NoMemory);
    };
    match SqliteWrapper::new(alloc, conn, Watch::of_memory()) {
        Ok(memory) => Ok(EitherSource::Second(EitherSource::Second(EitherSource::First(memory)))),
        Err(_) => Err(OpenFault::NoMemory),
    }
}

// The database in the file at this path as a source. Of an error that opening it tells `open_fault` is told.
fn of_file<V: Databases + Disks>(alloc: Global, rt: &V, path: &str) -> Result<Source<V>, OpenFault>
    ensures new { IfOk result (λ s. IsNewFile V.Store.SourceStore.honest (V.Databases.stands rt.now) path.now
        (⟦<Source<V> as Wrapper>⟧.meaning s)) }
    ensures file { IfOk result (λ s. IsSomeAnd (database_in s) (ShowsAt V.Store.Store (V.Databases.stands rt.now) path.now)) }
    ensures err { IfErr result (λ fault. fault ≡ OpenFault.CannotOpen → ToldNotOpened (V.Databases.refuses rt.now path.now)) }
{
    let Opened { conn, watch } = match open_database(rt, path) {
        Ok(opened) => opened,
        Err(error) => return Err(open_fault(error)),
    };
    match SqliteWrapper::new(alloc, conn, watch) {
        Ok(file) => Ok(EitherSource::Second(EitherSource::Second(EitherSource::Second(file)))),
        Err(_) => Err(OpenFault::NoMemory),
    }
}

/// The SQLite database at this path as a source, on which nothing is bound yet: `:memory:` is a new database in memory, with the tables of
/// orders and people, which have no rows. Any other path is that of a file, whose database is the source's, where it is known what stands
/// there.
///
/// # Errors
///
/// [`OpenFault::CannotOpen`] where opening the database of a file told an error that is no want of memory, and of `:memory:` never;
/// [`OpenFault::NoMemory`] where memory was refused.
pub fn of_sqlite<V: Databases + Disks>(
    alloc: Global,
    rt: &V,
    path: &str,
) -> Result<Source<V>, OpenFault>
    ensures new { IfOk result (λ s. IsNewDatabase V.Store.SourceStore.honest (V.Databases.stands rt.now) path.now
        (⟦<Source<V> as Wrapper>⟧.meaning s)) }
    ensures idle { IfOk result (λ s. IsIdle (⟦<Source<V> as Wrapper>⟧.meaning s)) }
    ensures takes { IfOk result (λ s. TakesAs Sqlite (⟦<Source<V> as Wrapper>⟧.meaning s)) }
    ensures file { is_memory path.now ≡ false → IfOk result (λ s. IsSomeAnd (database_in s)
        (ShowsAt V.Store.Store (V.Databases.stands rt.now) path.now)) }
    ensures memory { is_memory path.now ≡ true → IfErr result (λ fault. fault ≡ OpenFault.NoMemory) }
    ensures err { IfErr result (λ fault. fault ≡ OpenFault.CannotOpen → ToldNotOpened (V.Databases.refuses rt.now path.now)) }
{
    sqlite_takes_its_tables();
    if path == ":memory:" {
        of_memory::<V>(alloc)
    } else {
        of_file(alloc, rt, path)
    }
}
