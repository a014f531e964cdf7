//! DELETE.

ghost use Rattle.std.specs.Prelude.{◌≡◌, length, map};
ghost use Rattle.med_catalog.specs.View.{objects};
ghost use Rattle.med_binder.specs.Prelude.{AreNamedOnce, attached};
ghost use Rattle.med_syntax.specs.Prelude.{delete, delete_tree};
ghost use Rattle.bind_write.specs.Steps.{BindsWrite};

use crate::bound::TableWrite;
use crate::{bind_values, find_target, table_in_view, written_columns};
use med_binder::BoundTable;
use med_catalog::Catalog;
use med_syntax::Delete;
use med_value::Cause;
use med_write::{BoundWrite, RowWrite};
use std::alloc::Global;

/// A DELETE over the tables of the catalogue, or why it is refused.
pub(crate) fn delete_over(
    alloc: Global,
    statement: &Delete,
    catalog: &Catalog,
    bound: &[BoundTable],
    user: &str,
) -> Result<TableWrite, Cause>
    requires many { length bound.now ≡ length (objects catalog.now).tables }
    requires once { AreNamedOnce (objects catalog.now) }
    ensures { BindsWrite (objects catalog.now) (map attached bound.now) user.now (delete (delete_tree statement.now)) result }
{
    let Delete { entry, condition } = statement;
    let target = find_target(catalog, bound, user, entry.table.as_str())?;
    let columns = written_columns(alloc, target.columns)?;
    let scope = [table_in_view(entry, target.columns)];
    let found = bind_values(alloc, &scope, &[], condition)?;
    Ok(TableWrite {
        place: target.place,
        source: target.source,
        table: target.table,
        write: BoundWrite {
            columns,
            rows: RowWrite::Delete {
                conditions: found.conditions,
            },
        },
        query: None,
    })
}
