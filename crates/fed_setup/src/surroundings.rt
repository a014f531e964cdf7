//! What a program is run in: it makes the sources that are asked, and reads the init file.
ghost use Rattle.std.specs.Prelude.{◌≡◌, ℕ, false, List, Some, IfOk, IsSomeAnd};
ghost use Rattle.fdw_api.specs.State.{IsIdle};
ghost use Rattle.blob_store.specs.Known.{Sure};
ghost use Rattle.list_wrapper.specs.ListBoxes.{box_of};
ghost use Rattle.sqlite_writes.specs.Found.{ShowsAt};
ghost use Rattle.fed_setup.specs.Databases.{database_in};
ghost use Rattle.fed_words.specs.Places.{is_memory};
ghost use Rattle.fed_words.specs.declared.places.PlaceKind.TheVariants.{Csv, JsonLines, Sqlite};
ghost use Rattle.fed_setup.specs.Setup.{Outside, outside_of, IsNewAt};

use crate::inputs::ReadsInputs;
use crate::sources::{OpenFault, Source, of_csv, of_jsonl, of_list, of_sqlite};
use blob_store::Disks;
use blob_store::disk::DiskFault;
use fdw_api::wishes::Wrapper2;
use list_wrapper::ListWrapper;
use med_value::NoMemory;
use sqlite_writes::Databases;

/// What a program is run in: its runtime, or what a test has in its place.
pub trait Surroundings {
    /// A source of any kind that a program serves.
    type Source: Wrapper2;

    /// What a program finds outside itself.
    ghost outside: { Self → Outside };

    /// A source's connection shows the database in the files at a path.
    ghost shows_file: { Self → List ℕ → Self.Source → Type 0 };

    /// A list as a source. It shows what the list shows.
    fn list_source(&self, list: ListWrapper) -> Self::Source
        ensures { Self.Source.meaning result ≡ box_of list };

    /// The CSV files of the folder at this path as a source, on which nothing is bound yet. It is refused where memory is.
    fn csv_source(&self, path: &str) -> Result<Self::Source, NoMemory>
        ensures new { IfOk result (λ s. IsNewAt (outside self.now) Csv path.now (Self.Source.meaning s)) }
        ensures idle { IfOk result (λ s. IsIdle (Self.Source.meaning s)) };

    /// The files of JSON lines of the folder at this path as a source, on which nothing is bound yet. It is refused where memory is.
    fn jsonl_source(&self, path: &str) -> Result<Self::Source, NoMemory>
        ensures new { IfOk result (λ s. IsNewAt (outside self.now) JsonLines path.now (Self.Source.meaning s)) }
        ensures idle { IfOk result (λ s. IsIdle (Self.Source.meaning s)) };

    /// The SQLite database at this path as a source, on which nothing is bound yet: but for `:memory:` that of the files there. The errors
    /// are those of [`OpenFault`].
    fn sqlite_source(&self, path: &str) -> Result<Self::Source, OpenFault>
        ensures new { IfOk result (λ s. IsNewAt (outside self.now) Sqlite path.now (Self.Source.meaning s)) }
        ensures idle { IfOk result (λ s. IsIdle (Self.Source.meaning s)) }
        ensures file { is_memory path.now ≡ false → IfOk result (shows_file self.now path.now) };

    /// The bytes of a script: what reading this path to its end gives. The errors are those of [`DiskFault`].
    fn script(&self, path: &str) -> Result<Vec<u8>, DiskFault>
        ensures { Sure (outside self.now).inputs (λ known. IfOk result (λ bytes. known path.now ≡ Some bytes.items)) };
}

impl<V: AllocGlobal + Databases + Disks + ReadsInputs> Surroundings for V {
    type Source = Source<V>;

    ghost outside = { λ rt. outside_of V.Store.SourceStore.honest (V.Databases.stands rt) (V.Disks.stands rt) (V.inputs rt) };

    ghost shows_file = { λ rt path s. IsSomeAnd (database_in s) (ShowsAt V.Store.Store (V.Databases.stands rt) path) };

    fn list_source(&self, list: ListWrapper) -> Source<V> {
        of_list::<V>(list)
    }

    fn csv_source(&self, path: &str) -> Result<Source<V>, NoMemory> {
        of_csv(self.alloc(), self, path)
    }

    fn jsonl_source(&self, path: &str) -> Result<Source<V>, NoMemory> {
        of_jsonl(self.alloc(), self, path)
    }

    fn sqlite_source(&self, path: &str) -> Result<Source<V>, OpenFault> {
        of_sqlite(self.alloc(), self, path)
    }

    fn script(&self, path: &str) -> Result<Vec<u8>, DiskFault> {
        self.read_input(path)
    }
}

/// The law of what a runtime finds outside itself: how honest its store of databases in files is, what stands at paths as databases and on
/// its disks, and what its inputs give. Where it shows the database in files, the source's connection does.
pub fn finds_its_own<V: AllocGlobal + Databases + Disks + ReadsInputs>(_rt: &V)
    ensures outside { ⟦<V as Surroundings>⟧.outside _rt.now
        ≡ outside_of V.Store.SourceStore.honest (V.Databases.stands _rt.now) (V.Disks.stands _rt.now) (V.inputs _rt.now) }
    ensures file { (path : List ℕ) (s : _) → ⟦<V as Surroundings>⟧.shows_file _rt.now path s
        → IsSomeAnd (database_in s) (ShowsAt V.Store.Store (V.Databases.stands _rt.now) path) }
{}
