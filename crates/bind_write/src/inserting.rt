//! INSERT.
#![tactic(auto, using(bind_names::proofs::Causes::tells_memory))]

ghost use Rattle.std.specs.Prelude.{◌≡◌, length, map, option_map, string_bytes};
ghost use Rattle.med_catalog.specs.View.{objects};
ghost use Rattle.med_binder.specs.Prelude.{AreNamedOnce, attached, query_in};
ghost use Rattle.med_syntax.specs.Prelude.{statement_tree, insert, insert_tree, names_tree, row_tree};
ghost use Rattle.bind_write.specs.Binding.{values_write, query_write};
ghost use Rattle.bind_write.specs.Steps.{BindsWrite};

use crate::bound::TableWrite;
use crate::querying::{ask_query, check_answer};
use crate::values::{check_rows, resolve_rows};
use crate::{check_named, find_target, places_for, written_columns};
use med_binder::BoundTable;
use med_catalog::Catalog;
use med_syntax::{Expr as Written, Given, Insert, Statement};
use med_value::Cause;
use med_write::{BoundWrite, Given as GivenRows, RowWrite};
use std::alloc::Global;

// An INSERT of VALUES over the tables of the catalogue, or why it is refused.
fn values_over(
    alloc: Global,
    table: &str,
    names: &Option<Vec<String>>,
    rows: &[Vec<Written>],
    catalog: &Catalog,
    bound: &[BoundTable],
    user: &str,
) -> Result<TableWrite, Cause>
    requires many { length bound.now ≡ length (objects catalog.now).tables }
    requires once { AreNamedOnce (objects catalog.now) }
    ensures { BindsWrite (objects catalog.now) (map attached bound.now) user.now
        (values_write table.now (option_map names_tree names.now) (map row_tree rows.now)) result }
{
    let target = find_target(catalog, bound, user, table)?;
    check_named(target.columns, names)?;
    let given = resolve_rows(alloc, rows)?;
    check_rows(target.columns, names, rows, given.as_slice())?;
    Ok(TableWrite {
        place: target.place,
        source: target.source,
        table: target.table,
        write: BoundWrite {
            columns: written_columns(alloc, target.columns)?,
            rows: RowWrite::Insert {
                places: places_for(alloc, names, target.columns)?,
                given: GivenRows::Values(given),
            },
        },
        query: None,
    })
}

// An INSERT of a query's rows over the tables of the catalogue, or why it is refused.
fn query_over(
    alloc: Global,
    table: &str,
    names: &Option<Vec<String>>,
    query: &Statement,
    catalog: &Catalog,
    bound: &[BoundTable],
    user: &str,
) -> Result<TableWrite, Cause>
    requires many { length bound.now ≡ length (objects catalog.now).tables }
    requires once { AreNamedOnce (objects catalog.now) }
    ensures { BindsWrite (objects catalog.now) (map attached bound.now) user.now
        (query_write table.now (option_map names_tree names.now) (query_in (statement_tree query.now))) result }
{
    let target = find_target(catalog, bound, user, table)?;
    let found = ask_query(alloc, catalog, bound, user, target.columns, names, query)?;
    check_answer(target.columns, names, found.kinds.as_slice())?;
    Ok(TableWrite {
        place: target.place,
        source: target.source,
        table: target.table,
        write: BoundWrite {
            columns: written_columns(alloc, target.columns)?,
            rows: RowWrite::Insert {
                places: places_for(alloc, names, target.columns)?,
                given: GivenRows::Answer,
            },
        },
        query: Some(found),
    })
}

/// An INSERT over the tables of the catalogue, or why it is refused.
pub(crate) fn insert_over(
    alloc: Global,
    statement: &Insert,
    catalog: &Catalog,
    bound: &[BoundTable],
    user: &str,
) -> Result<TableWrite, Cause>
    requires many { length bound.now ≡ length (objects catalog.now).tables }
    requires once { AreNamedOnce (objects catalog.now) }
    ensures { BindsWrite (objects catalog.now) (map attached bound.now) user.now (insert (insert_tree statement.now)) result }
{
    let Insert {
        table,
        columns,
        given,
    } = statement;
    match given {
        Given::Values(rows) => values_over(
            alloc,
            table.as_str(),
            columns,
            rows.as_slice(),
            catalog,
            bound,
            user,
        ),
        Given::Rows(query) => query_over(
            alloc,
            table.as_str(),
            columns,
            query,
            catalog,
            bound,
            user,
        ),
    }
}
