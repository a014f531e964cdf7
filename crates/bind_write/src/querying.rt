//! The query of an INSERT.
#![tactic(auto, using(bind_names::proofs::Causes::tells_memory))]

ghost use Rattle.std.specs.Prelude.{◌≡◌, length, map, flat_map, option_map};
ghost use Rattle.med_value.specs.Column.{column_of};
ghost use Rattle.med_syntax.specs.Prelude.{statement_tree, names_tree};
ghost use Rattle.bind_names.specs.Telling.{Passes};
ghost use Rattle.bind_types.specs.Kinds.{types_in};
ghost use Rattle.med_catalog.specs.View.{objects};
ghost use Rattle.med_binder.specs.Prelude.{query_in, attached, AreNamedOnce};
ghost use Rattle.bind_write.specs.Typing.{row_fit_causes};
ghost use Rattle.bind_write.specs.Steps.{AsksQuery};

use crate::{check_fit, check_named};
use med_binder::{BoundQuery, BoundTable, named_query, typed_query};
use med_catalog::Catalog;
use med_syntax::Statement;
use med_value::{Cause, ColType, ColumnDef};
use std::alloc::Global;

/// The query with its names resolved, and the list of columns; or why they are refused. Columns are looked up once the tables of FROM are
/// known, and types are judged last.
pub(crate) fn ask_query(
    alloc: Global,
    catalog: &Catalog,
    bound: &[BoundTable],
    user: &str,
    columns: &[ColumnDef],
    names: &Option<Vec<String>>,
    query: &Statement,
) -> Result<BoundQuery, Cause>
    requires many { length bound.now ≡ length (objects catalog.now).tables }
    requires once { AreNamedOnce (objects catalog.now) }
    ensures { AsksQuery (objects catalog.now) (map attached bound.now) user.now (map column_of columns.now)
        (option_map names_tree names.now) (query_in (statement_tree query.now)) result }
{
    let found = named_query(alloc, query, catalog, bound, user)?;
    check_named(columns, names)?;
    typed_query(alloc, found)
}

/// Whether the rows that a query answers can be inserted, whose cores answer values of these types: 42601 for more values than columns and
/// for not as many as named columns, 42804 for a value of another type than its column.
pub(crate) fn check_answer(
    columns: &[ColumnDef],
    names: &Option<Vec<String>>,
    kinds: &[Vec<Option<ColType>>],
) -> Result<(), Cause>
    ensures { Passes (flat_map (row_fit_causes (map column_of columns.now) (option_map names_tree names.now)) (map types_in kinds.now))
        result }
{
    for row in kinds {
        check_fit(columns, names, row.as_slice())?;
    }
    Ok(())
}
