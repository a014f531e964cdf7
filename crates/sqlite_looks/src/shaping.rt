//! Shapes of tables by the texts that are built of their stored names.
ghost use Rattle.std.specs.Prelude.{◌≡◌, Some, true, slice_get, IfOk, IfSome};
ghost use Rattle.std.specs.Option.{option_map};
ghost use Rattle.sqlite_schema.specs.declared.schema.Table.{Table};
ghost use Rattle.sqlite_looks.specs.Found as spec;
ghost use Rattle.sqlite_looks.specs.Shapes.{IsShapeOf, shows_pages};

use crate::naming::{every_column, texts_of};
use crate::shapes::{Shape, look_at};
use sqlite_schema::schema::Schema;
use std::alloc::{AllocError, Global};

// The shape of the table at this place by a name of the rowid, where its page text passes its look.
fn shape_by(
    alloc: Global,
    schema: &Schema,
    at: usize,
    wanted: &[usize],
    rowid_name: &str,
) -> Result<Option<Shape>, AllocError>
    ensures found { IfOk result (λ found. option_map (λ shape. spec.spelled shape.texts) found
        ≡ spec.found_by schema.now (slice_get schema.now.tables at) wanted.now rowid_name.now) }
    ensures looked { (table : Table) → slice_get schema.now.tables at ≡ Some table
        → IfOk result (λ found. IfSome found (IsShapeOf schema.now at table wanted.now)) }
    ensures page { (table : Table) → slice_get schema.now.tables at ≡ Some table
        → IfOk result (λ found. IfSome found (λ shape. shows_pages schema.now table wanted.now shape ≡ true)) }
{
    let Some(table) = schema.tables.get(at) else {
        return Ok(None);
    };
    match texts_of(alloc, table, wanted, rowid_name)? {
        Some(texts) => look_at(alloc, schema, at, wanted, texts),
        None => Ok(None),
    }
}

/// Looks at the table at a place of the schema, of which these columns are wanted, by texts that are built of its stored names: under the
/// first name of the rowid, of `rowid`, `_rowid_` and `oid`, by which its page text means the page that is wanted.
///
/// Returns `None` just where there is no such table or no such column, where a name is not UTF-8, or where no such page text means that:
/// which it is, and by which texts the table is read and changed, the schema determines. Fails out of memory alone.
pub fn shape_at(
    alloc: Global,
    schema: &Schema,
    at: usize,
    wanted: &[usize],
) -> Result<Option<Shape>, AllocError>
    ensures found { IfOk result (λ found. option_map (λ shape. spec.spelled shape.texts) found ≡ spec.found_at schema.now at wanted.now) }
    ensures looked { (table : Table) → slice_get schema.now.tables at ≡ Some table
        → IfOk result (λ found. IfSome found (IsShapeOf schema.now at table wanted.now)) }
    ensures page { (table : Table) → slice_get schema.now.tables at ≡ Some table
        → IfOk result (λ found. IfSome found (λ shape. shows_pages schema.now table wanted.now shape ≡ true)) }
{
    if let Some(shape) = shape_by(alloc, schema, at, wanted, "rowid")? {
        return Ok(Some(shape));
    }
    if let Some(shape) = shape_by(alloc, schema, at, wanted, "_rowid_")? {
        return Ok(Some(shape));
    }
    shape_by(alloc, schema, at, wanted, "oid")
}

/// The place in the schema of the table of this stored name, byte for byte.
pub fn table_called(schema: &Schema, name: &[u8]) -> Option<usize>
    ensures { result ≡ spec.table_called schema.now name.now }
{
    schema
        .tables
        .as_slice()
        .iter()
        .position(|table| table.name.as_slice() == name)
}

// The shape of the table at this place, of which all columns are wanted.
fn whole_shape(alloc: Global, schema: &Schema, at: usize) -> Result<Option<Shape>, AllocError>
    ensures found { IfOk result (λ found. option_map (λ shape. spec.spelled shape.texts) found
        ≡ spec.whole schema.now (slice_get schema.now.tables at)) }
    ensures looked { (table : Table) → slice_get schema.now.tables at ≡ Some table
        → IfOk result (λ found. IfSome found (IsShapeOf schema.now at table (spec.every_column table))) }
    ensures page { (table : Table) → slice_get schema.now.tables at ≡ Some table
        → IfOk result (λ found. IfSome found (λ shape. shows_pages schema.now table (spec.every_column table) shape ≡ true)) }
{
    let Some(table) = schema.tables.get(at) else {
        return Ok(None);
    };
    let wanted = every_column(alloc, table)?;
    shape_at(alloc, schema, at, &wanted)
}

/// Looks at the table of this stored name, byte for byte, of which all columns are wanted, as `shape_at` looks at the one at a place.
///
/// Returns `None` just where there is no such table, or `shape_at` finds none. Fails out of memory alone.
pub fn shape_called(
    alloc: Global,
    schema: &Schema,
    name: &[u8],
) -> Result<Option<Shape>, AllocError>
    ensures found { IfOk result (λ found. option_map (λ shape. spec.spelled shape.texts) found ≡ spec.found_called schema.now name.now) }
    ensures looked { (at : _) (table : Table) → spec.table_called schema.now name.now ≡ Some at
        → slice_get schema.now.tables at ≡ Some table
        → IfOk result (λ found. IfSome found (IsShapeOf schema.now at table (spec.every_column table))) }
    ensures page { (at : _) (table : Table) → spec.table_called schema.now name.now ≡ Some at
        → slice_get schema.now.tables at ≡ Some table
        → IfOk result (λ found. IfSome found (λ shape. shows_pages schema.now table (spec.every_column table) shape ≡ true)) }
{
    match table_called(schema, name) {
        Some(at) => whole_shape(alloc, schema, at),
        None => Ok(None),
    }
}
