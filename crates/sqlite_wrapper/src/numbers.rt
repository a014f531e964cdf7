//! The tables of a source by their numbers, which are the places of their shapes.
ghost use Rattle.std.specs.Prelude.{◌≡◌, true, nat_lt};
ghost use Rattle.sqlite.specs.Held.{state};
ghost use Rattle.sqlite.specs.View.{IsShaped};
ghost use Rattle.sqlite_trees.specs.declared.store.Shape.TheVariants as stored;
ghost use Rattle.sqlite_tables.specs.Prelude.{layout_at, layout_count, layouts, place_of, entries_of};
ghost use Rattle.sqlite_writes.specs.Writable.{IsWritable};

use sqlite::Connection;
use sqlite_tables::{Shape, SourceStore, place_of};
use sqlite_writes::entries_rise;

/// The number of the table of a name, and none for a name of no shape.
pub(crate) fn number_of(shapes: &[Shape], name: &str) -> Option<u64>
    requires shapes { shapes.now ≡ layouts }
    ensures { result ≡ place_of name.now }
{
    place_of(shapes, name)
}

/// The shape of the table of a number.
pub(crate) fn shape_of(shapes: &[Shape], table: u64) -> &Shape
    requires shapes { shapes.now ≡ layouts }
    requires within { nat_lt table layout_count ≡ true }
    ensures { result.now ≡ layout_at table }
{
    &shapes[table as usize]
}

/// The entries of the table of a number are in the order of their keys, where its store always returns what was written.
pub(crate) fn table_rises<S: SourceStore>(conn: &Connection<S>, shapes: &[Shape], table: u64)
    requires shapes { shapes.now ≡ layouts }
    requires within { nat_lt table layout_count ≡ true }
    requires writable { S.honest ≡ true → ∥ IsWritable conn.now.schema (layout_at table) ∥₁ }
    ensures { S.honest ≡ true → IsShaped stored.Table (entries_of (state S.Store conn.now).now (layout_at table)) }
{
    entries_rise(conn, shape_of(shapes, table));
}
