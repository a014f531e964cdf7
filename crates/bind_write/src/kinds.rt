//! What a column takes.
#![tactic(auto, using(bind_names::proofs::Causes::tells_memory, bind_names::proofs::Causes::tells_one))]

ghost use Rattle.std.specs.Prelude.{◌≡◌, map, IfOk, option_map};
ghost use Rattle.med_value.specs.Column.{column_of};
ghost use Rattle.bind_names.specs.Telling.{Passes};
ghost use Rattle.bind_types.specs.TreeTypes.{tree_type};
ghost use Rattle.tri_expr.specs.Tree.{tree};
ghost use Rattle.bind_write.specs.Typing.{column_causes, cells_causes};

use bind_types::{kind_of, takes};
use med_value::{Cause, ColType, ColumnDef, NoMemory};
use std::alloc::Global;
use tri_expr::Expr;

// 42804 for a value of another type than the column's.
pub(crate) fn check_column(column: &ColumnDef, given: Option<Option<ColType>>) -> Result<(), Cause>
    ensures { Passes (column_causes (column_of column.now) given) result }
{
    match given {
        None => Ok(()),
        Some(kind) => {
            if takes(column.kind, kind) {
                Ok(())
            } else {
                Err(Cause::DatatypeMismatch)
            }
        }
    }
}

/// Whether what is written to each column is of its type; nothing is asked of a column to which nothing is written, nor of NULL
/// (SQL:2016, 9.2 "Store assignment").
///
/// # Errors
///
/// 42804 for a column to which a value of another type is written.
pub fn check_cells(columns: &[ColumnDef], given: &[Option<Option<ColType>>]) -> Result<(), Cause>
    ensures { Passes (cells_causes (map column_of columns.now) given.now) result }
{
    for (place, column) in columns.iter().enumerate() {
        match given.get(place) {
            None => return Ok(()),
            Some(kind) => check_column(column, *kind)?,
        }
    }
    Ok(())
}

/// The types of what is written, column by column; none where nothing is. The expressions see rows whose cells are of the types given.
pub fn cell_kinds(
    alloc: Global,
    kinds: &[ColType],
    cells: &[Option<Expr>],
) -> Result<Vec<Option<Option<ColType>>>, NoMemory>
    ensures { IfOk result (λ v. v.items ≡ map (option_map (tree_type kinds.now)) (map (option_map tree) cells.now)) }
{
    let mut out = Vec::new(alloc);
    for cell in cells {
        out.push(match cell {
            None => None,
            Some(e) => Some(kind_of(kinds, e)),
        })?;
    }
    Ok(out)
}
