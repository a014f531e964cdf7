//! The laws of what kinds of sources take: each is the contract of a function that does nothing. A box of a kind objects to no table that
//! the catalogue lets pass for it: the rules of names, options and types are the kind's.
ghost use Rattle.std.specs.Prelude.{◌≡◌, List};
ghost use Rattle.fdw_api.specs.State.{BoxState};
ghost use Rattle.blob_store.specs.Shelves.{Shelf};
ghost use Rattle.med_catalog.specs.declared.kind.SourceKind.TheVariants.{Csv, JsonLines, Sqlite, List as Lists};
ghost use Rattle.med_world.specs.Engine.{TakesAs};
ghost use Rattle.list_wrapper.specs.Lists.{Listed, list_kind, IsNewList};
ghost use Rattle.csv_wrapper.specs.CsvKind.{csv_kind};
ghost use Rattle.csv_wrapper.specs.CsvBoxes.{IsNewCsv};
ghost use Rattle.jsonl_wrapper.specs.Jsonl.{json_kind};
ghost use Rattle.jsonl_wrapper.specs.Boxes.{IsNewJsonl};
ghost use Rattle.sqlite_wrapper.specs.Kinds.{sqlite_kind};

use med_catalog::law::lists_are_told_nothing;

/// Lists take what the catalogue lets pass: a table's remote name is its one option, and its columns have none.
pub fn lists_take_their_tables()
    ensures all { (s : BoxState) → s.nature.kind ≡ list_kind → TakesAs Lists s }
    ensures new { (s : BoxState) (tables : List Listed) → IsNewList s tables → TakesAs Lists s }
{
    lists_are_told_nothing();
}

/// CSV blobs do: a table has besides the options `header`, which says whether, and `null`, any text, and its columns have none.
pub fn csv_takes_its_tables()
    ensures all { (s : BoxState) → s.nature.kind ≡ csv_kind → TakesAs Csv s }
    ensures new { (s : BoxState) (shelf : Shelf) → IsNewCsv s shelf → TakesAs Csv s }
{}

/// Blobs of JSON lines do: each column may have the option `member`, and no two columns read one member.
pub fn jsonl_takes_its_tables()
    ensures all { (s : BoxState) → s.nature.kind ≡ json_kind → TakesAs JsonLines s }
    ensures new { (s : BoxState) (shelf : Shelf) → IsNewJsonl s shelf → TakesAs JsonLines s }
{}

/// SQLite databases do: a table's remote name is its one option, and its columns have none.
pub fn sqlite_takes_its_tables()
    ensures { (s : BoxState) → s.nature.kind ≡ sqlite_kind → TakesAs Sqlite s }
{}
