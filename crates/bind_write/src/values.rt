//! The rows of VALUES.
#![tactic(auto, using(bind_names::proofs::Causes::tells_left, bind_names::proofs::Causes::tells_right, bind_names::proofs::Causes::tells_memory, bind_names::proofs::Causes::tells_one, bind_names::proofs::Causes::none_of_two))]

ghost use Rattle.std.specs.Prelude.{◌≡◌, ◌++◌, map, flat_map, length, option_map};
ghost use Rattle.std.specs.List.{list_all};
ghost use Rattle.med_value.specs.Column.{column_of};
ghost use Rattle.bind_names.specs.Telling.{Means, Passes};
ghost use Rattle.med_syntax.specs.WriteView.{row_tree, names_tree};
ghost use Rattle.tri_expr.specs.Tree.{tree};
ghost use Rattle.med_write.specs.Form.{trees_of};
ghost use Rattle.bind_write.specs.Meaning.{places_meant, row_meant};
ghost use Rattle.bind_write.specs.Naming.{row_name_causes};
ghost use Rattle.bind_write.specs.Typing.{cells_causes, length_causes, row_fit_causes, row_type_causes, row_types, rows_fit_causes, type_at};

use crate::check_types;
use crate::kinds::check_column;
use crate::places::{check_count, place_of};
use bind_query::values::resolve_values;
use bind_types::kind_of;
use med_syntax::Expr as Written;
use med_value::{Cause, ColType, ColumnDef};
use std::alloc::Global;
use tri_expr::Expr;

/// The rows of VALUES, which see no column, with their names resolved; or why a name in one is refused.
pub(crate) fn resolve_rows(alloc: Global, rows: &[Vec<Written>]) -> Result<Vec<Vec<Expr>>, Cause>
    ensures { Means (λ v. map trees_of v.items) (flat_map row_name_causes (map row_tree rows.now))
        (map row_meant (map row_tree rows.now)) result }
{
    let mut out = Vec::with_capacity(alloc, rows.len())?;
    for row in rows {
        let values = resolve_values(alloc, &[], row.as_slice())?;
        out.push(values)?;
    }
    Ok(out)
}

// Refuses a row by the types of its expressions, whose names are resolved.
fn check_row_types(row: &Vec<Written>, values: &Vec<Expr>) -> Result<(), Cause>
    requires { trees_of values.now ≡ row_meant (row_tree row.now) }
    ensures { Passes (row_type_causes (row_tree row.now)) result }
{
    check_types(&[], row.as_slice(), &None, values.as_slice(), &[])
}

// The same of each row.
fn check_each_types(rows: &[Vec<Written>], resolved: &[Vec<Expr>]) -> Result<(), Cause>
    requires { map trees_of resolved.now ≡ map row_meant (map row_tree rows.now) }
    ensures { Passes (flat_map row_type_causes (map row_tree rows.now)) result }
{
    for (place, row) in rows.iter().enumerate() {
        check_row_types(row, &resolved[place])?;
    }
    Ok(())
}

// Whether all rows are so long.
fn are_so_long(rows: &[Vec<Expr>], count: usize) -> bool
    ensures { result ≡ list_all (λ ts. Rattle.std.specs.Prelude.nat_eq (length ts) count) (map trees_of rows.now) }
{
    for row in rows {
        if row.len() != count {
            return false;
        }
    }
    true
}

// 42601 for rows of different lengths.
fn check_lengths(rows: &[Vec<Expr>]) -> Result<(), Cause>
    ensures { Passes (length_causes (map trees_of rows.now)) result }
{
    match rows {
        [] => Ok(()),
        [first, others @ ..] => {
            if are_so_long(others, first.as_slice().len()) {
                Ok(())
            } else {
                Err(Cause::ValuesSyntax)
            }
        }
    }
}

// The type of the expression in a place, which sees no column.
fn kind_in(values: &[Expr], place: Option<usize>) -> Option<Option<ColType>>
    ensures { result ≡ type_at (row_types (map tree values.now)) place }
{
    match place {
        None => None,
        Some(place) => match values.get(place) {
            None => None,
            Some(value) => Some(kind_of(&[], value)),
        },
    }
}

// 42804 for a value of another type than its column's.
fn check_values(
    columns: &[ColumnDef],
    names: &Option<Vec<String>>,
    values: &[Expr],
) -> Result<(), Cause>
    ensures { Passes (cells_causes (map column_of columns.now)
        (map (type_at (row_types (map tree values.now))) (places_meant (option_map names_tree names.now) (map column_of columns.now))))
        result }
{
    for (place, column) in columns.iter().enumerate() {
        check_column(column, kind_in(values, place_of(names, columns, place)))?;
    }
    Ok(())
}

// Whether a row fits the columns.
fn check_row(
    columns: &[ColumnDef],
    names: &Option<Vec<String>>,
    row: &Vec<Expr>,
) -> Result<(), Cause>
    ensures { Passes (row_fit_causes (map column_of columns.now) (option_map names_tree names.now) (row_types (trees_of row.now))) result }
{
    check_count(columns, names, row.len())?;
    check_values(columns, names, row.as_slice())
}

// The same of each row.
fn check_each(
    columns: &[ColumnDef],
    names: &Option<Vec<String>>,
    rows: &[Vec<Expr>],
) -> Result<(), Cause>
    ensures { Passes (flat_map (λ ts. row_fit_causes (map column_of columns.now) (option_map names_tree names.now) (row_types ts))
        (map trees_of rows.now)) result }
{
    for row in rows {
        check_row(columns, names, row)?;
    }
    Ok(())
}

/// Refuses rows of VALUES by their types, once their names are resolved: a cause of the types of an expression, 42803 for an aggregate;
/// 42601 for rows of different lengths, for more values than columns and for not as many as named columns; 42804 for a value of another
/// type than its column's.
pub(crate) fn check_rows(
    columns: &[ColumnDef],
    names: &Option<Vec<String>>,
    rows: &[Vec<Written>],
    resolved: &[Vec<Expr>],
) -> Result<(), Cause>
    requires { map trees_of resolved.now ≡ map row_meant (map row_tree rows.now) }
    ensures { Passes (flat_map row_type_causes (map row_tree rows.now)
        ++ rows_fit_causes (map column_of columns.now) (option_map names_tree names.now) (map trees_of resolved.now)) result }
{
    check_each_types(rows, resolved)?;
    check_lengths(resolved)?;
    check_each(columns, names, resolved)
}
