//! UPDATE.
#![tactic(auto, using(bind_names::proofs::Causes::tells_memory, bind_names::proofs::Causes::tells_one))]

ghost use Rattle.std.specs.Prelude.{◌≡◌, length, map, option_map, slice_get, string_bytes, IfOk};
ghost use Rattle.std.specs.Option.{option_and_then};
ghost use Rattle.med_value.specs.Column.{Column, column_of};
ghost use Rattle.med_catalog.specs.View.{objects};
ghost use Rattle.med_binder.specs.Prelude.{AreNamedOnce, attached};
ghost use Rattle.tri_expr.specs.Tree.{tree};
ghost use Rattle.med_syntax.specs.Prelude.{entry_tree, expr_tree, update, set_tree};
ghost use Rattle.bind_write.specs.Meaning.{name_place};
ghost use Rattle.bind_write.specs.Steps.{BindsWrite, SplitsSets};

use crate::bound::TableWrite;
use crate::{
    bind_values, cell_kinds, check_cells, check_list, find_target, name_place, table_in_view,
    written_columns,
};
use bind_types::kinds_of;
use med_binder::BoundTable;
use med_catalog::Catalog;
use med_syntax::{Entry, Expr as Written, SetClause};
use med_value::{Cause, ColumnDef, NoMemory};
use med_write::{BoundWrite, RowWrite};
use std::alloc::Global;
use tri_expr::Expr;

/// The columns of SET, and the expressions for them.
pub(crate) struct SetList {
    pub names: Vec<String>,
    pub values: Vec<Written>,
}

// The columns of SET, and the expressions.
fn split(alloc: Global, sets: Vec<SetClause>) -> Result<SetList, Cause>
    ensures { SplitsSets (map set_tree sets.items) result }
{
    let mut names = Vec::new(alloc);
    let mut values = Vec::new(alloc);
    for set in sets {
        let SetClause { column, value } = set;
        names.push(column)?;
        values.push(value)?;
    }
    Ok(SetList { names, values })
}

// What SET says of a column: the expression in the place of its name.
fn cell_for(
    alloc: Global,
    names: &[String],
    values: &[Expr],
    column: &str,
) -> Result<Option<Expr>, NoMemory>
    ensures { IfOk result (λ r. option_map tree r
        ≡ option_and_then (slice_get (map tree values.now)) (name_place 0 (map string_bytes names.now) column.now)) }
{
    match name_place(names, column) {
        None => Ok(None),
        Some(place) => match values.get(place) {
            None => Ok(None),
            Some(value) => Ok(Some(value.copy(alloc)?)),
        },
    }
}

// What SET says of each column.
fn cells_for(
    alloc: Global,
    names: &[String],
    values: &[Expr],
    columns: &[ColumnDef],
) -> Result<Vec<Option<Expr>>, NoMemory>
    ensures { IfOk result (λ v. map (option_map tree) v.items
        ≡ map (λ (c : Column). option_and_then (slice_get (map tree values.now)) (name_place 0 (map string_bytes names.now) c.name))
        (map column_of columns.now)) }
{
    let mut out = Vec::new(alloc);
    for column in columns {
        let cell = cell_for(alloc, names, values, column.name.as_str())?;
        out.push(cell)?;
    }
    Ok(out)
}

/// An UPDATE over the tables of the catalogue, or why it is refused.
pub(crate) fn update_over(
    alloc: Global,
    entry: &Entry,
    sets: Vec<SetClause>,
    condition: &Option<Written>,
    catalog: &Catalog,
    bound: &[BoundTable],
    user: &str,
) -> Result<TableWrite, Cause>
    requires many { length bound.now ≡ length (objects catalog.now).tables }
    requires once { AreNamedOnce (objects catalog.now) }
    ensures { BindsWrite (objects catalog.now) (map attached bound.now) user.now (update (record {
      entry = entry_tree entry.now;
      sets = map set_tree sets.items;
      condition = option_map expr_tree condition.now;
    })) result }
{
    let target = find_target(catalog, bound, user, entry.table.as_str())?;
    let SetList { names, values } = split(alloc, sets)?;
    check_list(Cause::MisplacedName, target.columns, names.as_slice())?;
    let scope = [table_in_view(entry, target.columns)];
    let found = bind_values(alloc, &scope, values.as_slice(), condition)?;
    let cells = cells_for(
        alloc,
        names.as_slice(),
        found.values.as_slice(),
        target.columns,
    )?;
    let kinds = kinds_of(alloc, target.columns)?;
    let given = cell_kinds(alloc, kinds.as_slice(), cells.as_slice())?;
    check_cells(target.columns, given.as_slice())?;
    Ok(TableWrite {
        place: target.place,
        source: target.source,
        table: target.table,
        write: BoundWrite {
            columns: written_columns(alloc, target.columns)?,
            rows: RowWrite::Update {
                conditions: found.conditions,
                cells,
            },
        },
        query: None,
    })
}
