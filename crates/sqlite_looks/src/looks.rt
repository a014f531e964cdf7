//! Texts of statements, looked at by what they mean under a schema.
ghost use Rattle.std.specs.Prelude.{◌≡◌, ◌≢◌, false, IfOk};
ghost use Rattle.sqlite_resolve.specs.declared.error.CompileError.TheVariants.{OutOfMemory};
ghost use Rattle.sqlite_looks.specs.Looks.{means_page, means_delete, means_insert};

use crate::plans::{is_delete, is_insert, is_page};
use sqlite_resolve::{CompileError, compile};
use sqlite_schema::schema::Schema;
use std::alloc::{AllocError, Global};

// A text that is not understood means nothing that is wanted; out of memory, what it means is not known.
fn refused(error: CompileError) -> Result<bool, AllocError>
    ensures { IfOk result (λ is. (is ≡ false) × (error ≢ OutOfMemory)) }
{
    match error {
        CompileError::OutOfMemory => Err(AllocError),
        _ => Ok(false),
    }
}

/// Whether, under this schema, a text reads a page of `size` rows of the table in this tree: of each row the columns at these places, of
/// which 0 is the rowid. Its two parameters are the ends of the key range.
///
/// Fails out of memory alone.
pub fn reads_page(
    alloc: Global,
    schema: &Schema,
    text: &[u8],
    tree: u32,
    places: &[usize],
    size: u32,
) -> Result<bool, AllocError>
    ensures { IfOk result (λ is. is ≡ means_page schema.now text.now tree places.now size) }
{
    match compile(alloc, schema, text) {
        Ok(compiled) => is_page(alloc, &compiled, tree, places, size),
        Err(error) => refused(error),
    }
}

/// Whether, under this schema, a text takes the row of the rowid that is its one parameter out of the table at this place of the schema,
/// which has its rows in this tree.
///
/// Fails out of memory alone.
pub fn takes_out(
    alloc: Global,
    schema: &Schema,
    text: &[u8],
    place: usize,
    tree: u32,
) -> Result<bool, AllocError>
    ensures { IfOk result (λ is. is ≡ means_delete schema.now text.now place tree) }
{
    match compile(alloc, schema, text) {
        Ok(compiled) => is_delete(alloc, &compiled, place, tree),
        Err(error) => refused(error),
    }
}

/// Whether, under this schema, a text puts one row of `width` cells into the table at this place of the schema. The cells are the rowid
/// and then the columns: each is the value of a parameter, by its index, or NULL.
///
/// Fails out of memory alone.
pub fn puts_in(
    alloc: Global,
    schema: &Schema,
    text: &[u8],
    place: usize,
    cells: &[Option<usize>],
    width: usize,
) -> Result<bool, AllocError>
    ensures { IfOk result (λ is. is ≡ means_insert schema.now text.now place cells.now width) }
{
    match compile(alloc, schema, text) {
        Ok(compiled) => is_insert(alloc, &compiled, place, cells, width),
        Err(error) => refused(error),
    }
}
