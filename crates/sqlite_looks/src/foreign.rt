//! Tables that no foreign key refers to.
ghost use Rattle.std.specs.Prelude.{◌≡◌, find};
ghost use Rattle.std.specs.List.{list_any};
ghost use Rattle.sqlite_schema.specs.Names.{same_name};
ghost use Rattle.sqlite_looks.specs.Free as spec;

use sqlite_schema::names::same_name;
use sqlite_schema::schema::{Reference, Schema, Table};

// Whether the first of these tables that has this name is the one in this tree.
fn is_named_in(tables: &[Table], tree: u32, name: &[u8]) -> bool
    ensures { result ≡ spec.is_in tree (find (λ t. same_name t.name name.now) tables.now) }
{
    let mut left = tables;
    while let Some((table, others)) = left.split_first() {
        if same_name(table.name.as_slice(), name) {
            return table.tree == tree;
        }
        left = others;
    }
    false
}

// Whether the parent of a foreign key is the table in this tree.
fn leads_to(tables: &[Table], tree: u32, reference: &Reference) -> bool
    ensures { result ≡ spec.leads_to tables.now tree reference.now }
{
    is_named_in(tables, tree, reference.parent.as_slice())
}

// Whether one of these foreign keys leads to the table in this tree.
fn lead_to(tables: &[Table], tree: u32, references: &[Reference]) -> bool
    ensures { result ≡ list_any (spec.leads_to tables.now tree) references.now }
{
    let mut left = references;
    while let Some((reference, others)) = left.split_first() {
        if leads_to(tables, tree, reference) {
            return true;
        }
        left = others;
    }
    false
}

// Whether a foreign key of one of these children leads to the table in this tree.
fn is_parent(tables: &[Table], tree: u32, children: &[Table]) -> bool
    ensures { result ≡ spec.is_parent tables.now tree children.now }
{
    let mut left = children;
    while let Some((child, others)) = left.split_first() {
        if lead_to(tables, tree, child.references.as_slice()) {
            return true;
        }
        left = others;
    }
    false
}

/// Whether no foreign key of the schema refers to the table in this tree, so that no row of another table is looked at or changed where
/// a row of this one goes or comes.
pub fn tables_are_free(schema: &Schema, tree: u32) -> bool
    ensures { result ≡ spec.is_free schema.now tree }
{
    let tables = schema.tables.as_slice();
    !is_parent(tables, tree, tables)
}
