//! Shapes by their names, and the types of declared columns against those of a shape.
ghost use Rattle.std.specs.Prelude.{◌≡◌, map};
ghost use Rattle.fdw_api.specs.Kinds.{column_of, kinds_of};
ghost use Rattle.sqlite_tables.specs.Layouts.{place_in, kinds_at, kinds_in, types_match};

use crate::{PageColumn, Shape};
use med_value::ColumnDef;

/// The place of the first shape of a name, and none for a name of no shape.
pub fn place_of(shapes: &[Shape], name: &str) -> Option<u64>
    ensures { result ≡ place_in shapes.now name.now }
{
    for place in 0..shapes.len() {
        if shapes[place].name() == name {
            return Some(place as u64);
        }
    }
    None
}

// Whether declared columns are as many as these, each of the same type.
fn have_types(own: &[PageColumn], columns: &[ColumnDef]) -> bool
    ensures { result ≡ types_match (kinds_at own.now) (kinds_of (map column_of columns.now)) }
{
    let mut own = own;
    let mut columns = columns;
    while let Some((one, own_after)) = own.split_first() {
        let Some((column, columns_after)) = columns.split_first() else {
            return false;
        };
        if one.kind != column.kind {
            return false;
        }
        own = own_after;
        columns = columns_after;
    }
    columns.is_empty()
}

/// Whether declared columns are as many as those of a table of a shape, each of the same type. Their names are free.
pub fn types_match(shape: &Shape, columns: &[ColumnDef]) -> bool
    ensures { result ≡ types_match (kinds_in shape.now) (kinds_of (map column_of columns.now)) }
{
    have_types(shape.columns(), columns)
}
