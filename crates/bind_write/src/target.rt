//! The table that is written.
#![tactic(auto, using(bind_names::proofs::Causes::tells_one))]

ghost use Rattle.std.specs.Prelude.{◌≡◌, map, length, IfOk};
ghost use Rattle.med_value.specs.Column.{column_of};
ghost use Rattle.bind_names.specs.Telling.{Passes};
ghost use Rattle.med_catalog.specs.View.{objects};
ghost use Rattle.med_binder.specs.Prelude.{writing_causes, AreNamedOnce, attached};
ghost use Rattle.bind_write.specs.Meaning.{written_column};
ghost use Rattle.bind_write.specs.Asking.{FindsTarget};

use med_binder::BoundTable;
use med_catalog::{Catalog, Mode};
use med_value::{Cause, ColumnDef, NoMemory, TableNo};
use med_write::WrittenColumn;
use std::alloc::Global;

/// The table that is written: its place in the catalogue, where its rows are, and its columns.
#[derive(Clone, Copy, Debug)]
pub struct Target<'a> {
    /// The place of the table in the catalogue.
    pub place: usize,
    /// The place of the table's source.
    pub source: usize,
    /// The table's number in its source's box.
    pub table: TableNo,
    /// The table's columns.
    pub columns: &'a [ColumnDef],
}

// 42704 without a mapping, 42501 under one of mode read.
fn check_mode(mode: Option<Mode>) -> Result<(), Cause>
    ensures { Passes (writing_causes mode) result }
{
    match mode {
        None => Err(Cause::UndefinedObject),
        Some(Mode::Read) => Err(Cause::NoPrivilege),
        Some(Mode::Write) => Ok(()),
    }
}

/// The table of this name, which the user may write to, and where its rows are. It takes no memory.
///
/// # Errors
///
/// 42P01 where there is no such table, 42704 where the user, the owner too, has no mapping on its server, and 42501 where that is of mode
/// read.
pub fn find_target<'a>(
    catalog: &'a Catalog,
    bound: &[BoundTable],
    user: &str,
    name: &str,
) -> Result<Target<'a>, Cause>
    requires many { length bound.now ≡ length (objects catalog.now).tables }
    requires once { AreNamedOnce (objects catalog.now) }
    ensures { FindsTarget (objects catalog.now) (map attached bound.now) user.now name.now result }
{
    match catalog.table_at(name) {
        None => Err(Cause::UndefinedTable),
        Some((place, table)) => {
            let BoundTable { source, number } = bound[place];
            check_mode(catalog.mapping_of(user, table.server.as_str()))?;
            Ok(Target {
                place,
                source,
                table: number,
                columns: table.columns.as_slice(),
            })
        }
    }
}

/// What a write has to know of the columns.
pub fn written_columns(alloc: Global, columns: &[ColumnDef]) -> Result<Vec<WrittenColumn>, NoMemory>
    ensures { IfOk result (λ v. v.items ≡ map written_column (map column_of columns.now)) }
{
    let mut out = Vec::new(alloc);
    for column in columns {
        out.push(WrittenColumn {
            kind: column.kind,
            not_null: column.not_null,
        })?;
    }
    Ok(out)
}
