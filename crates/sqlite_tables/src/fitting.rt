//! Stored tables by what a schema says of them: those that are of the shape of a layout.
ghost use Rattle.std.specs.Prelude.{◌≡◌};
ghost use Rattle.std.specs.List.{list_any};
ghost use Rattle.sqlite_schema.specs.Names.{same_name, table_named};
ghost use Rattle.sqlite_tables.specs.Fitting.{is_keyed, is_keyed_at, refers_to, is_parent, is_of_shape};

use crate::Shape;
use sqlite_schema::names::same_name;
use sqlite_schema::schema::{Reference, Schema, Table};

// The name of the column that is the key.
const KEY: &str = "id";

// Whether the INTEGER PRIMARY KEY of a table is its column id, beside which there are two columns and no more.
fn is_keyed(table: &Table) -> bool
    ensures { result ≡ is_keyed table.now }
{
    match table.column_named(KEY.as_bytes()) {
        Some(at) => table.key == Some(at) && table.columns.len() == 3,
        None => false,
    }
}

// Whether the table of a name is there, and is so keyed.
fn has_keyed(schema: &Schema, name: &[u8]) -> bool
    ensures { result ≡ is_keyed_at schema.now (table_named schema.now name.now) }
{
    let Some(place) = schema.table_named(name) else {
        return false;
    };
    match schema.tables.get(place) {
        Some(table) => is_keyed(table),
        None => false,
    }
}

// Whether one of these foreign keys refers to the table of a name.
fn refer_to(references: &[Reference], name: &[u8]) -> bool
    ensures { result ≡ list_any (λ r. same_name r.parent name.now) references.now }
{
    let mut left = references;
    while let Some((reference, others)) = left.split_first() {
        if same_name(reference.parent.as_slice(), name) {
            return true;
        }
        left = others;
    }
    false
}

// Whether one of these tables refers to the table of a name.
fn is_parent(tables: &[Table], name: &[u8]) -> bool
    ensures { result ≡ list_any (refers_to name.now) tables.now }
{
    let mut left = tables;
    while let Some((table, others)) = left.split_first() {
        if refer_to(table.references.as_slice(), name) {
            return true;
        }
        left = others;
    }
    false
}

/// Whether the stored table of a layout is of its shape: keyed by its column id, with two further columns, named by no view, and referred
/// to by no table of the database.
pub fn is_of_shape(schema: &Schema, shape: &Shape) -> bool
    ensures { result ≡ is_of_shape schema.now shape.now }
{
    let name = shape.name().as_bytes();
    has_keyed(schema, name)
        && !is_parent(schema.tables.as_slice(), name)
        && schema.view_named(name).is_none()
}
