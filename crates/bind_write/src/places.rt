//! The columns that an INSERT names, and whether its values fit them.
#![tactic(auto, using(bind_names::proofs::Causes::tells_left, bind_names::proofs::Causes::tells_right, bind_names::proofs::Causes::tells_memory, bind_names::proofs::Causes::tells_one, bind_names::proofs::Causes::none_of_two))]

ghost use Rattle.std.specs.Prelude.{◌≡◌, ◌<◌, Some, map, option_map, slice_get, length, IfOk};
ghost use Rattle.med_value.specs.Column.{column_of};
ghost use Rattle.bind_names.specs.Telling.{Passes};
ghost use Rattle.med_syntax.specs.WriteView.{names_tree};
ghost use Rattle.bind_write.specs.Meaning.{places_meant};
ghost use Rattle.bind_write.specs.Naming.{named_causes};
ghost use Rattle.bind_write.specs.Typing as typing;
ghost use Rattle.bind_write.specs.Typing.{cells_causes, count_causes, row_fit_causes};

use crate::columns::{check_list, name_place};
use crate::kinds::check_column;
use med_value::{Cause, ColType, ColumnDef, NoMemory};
use std::alloc::Global;

/// Whether the list of columns of an INSERT, if there is one, names columns of the table, each once (SQL:2016, <insert column list>).
///
/// # Errors
///
/// 42703 for a name that is none of a column, 42701 for one that stands twice.
pub fn check_named(columns: &[ColumnDef], names: &Option<Vec<String>>) -> Result<(), Cause>
    ensures { Passes (named_causes (map column_of columns.now) (option_map names_tree names.now)) result }
{
    match names {
        None => Ok(()),
        Some(names) => check_list(Cause::DuplicateColumn, columns, names.as_slice()),
    }
}

// The place of the value of the column in this place: that of its name in the list of columns, without a list its own.
pub(crate) fn place_of(
    names: &Option<Vec<String>>,
    columns: &[ColumnDef],
    place: usize,
) -> Option<usize>
    requires { place < length columns.now }
    ensures { slice_get (places_meant (option_map names_tree names.now) (map column_of columns.now)) place ≡ Some result }
{
    match names {
        None => Some(place),
        Some(names) => name_place(names.as_slice(), columns[place].name.as_str()),
    }
}

/// For each column of the table the place of its value among those of an INSERT: of its name in the list of columns, none where it is not
/// named; without a list the values stand in the columns' order (SQL:2016, <insert statement>).
pub fn places_for(
    alloc: Global,
    names: &Option<Vec<String>>,
    columns: &[ColumnDef],
) -> Result<Vec<Option<usize>>, NoMemory>
    ensures { IfOk result (λ v. v.items ≡ places_meant (option_map names_tree names.now) (map column_of columns.now)) }
{
    let mut out = Vec::with_capacity(alloc, columns.len())?;
    for place in 0..columns.len() {
        out.push(place_of(names, columns, place))?;
    }
    Ok(out)
}

// 42601 for more values than columns, or not as many as named columns.
pub(crate) fn check_count(
    columns: &[ColumnDef],
    names: &Option<Vec<String>>,
    count: usize,
) -> Result<(), Cause>
    ensures { Passes (count_causes (map column_of columns.now) (option_map names_tree names.now) count) result }
{
    let fits = match names {
        None => count <= columns.len(),
        Some(names) => count == names.len(),
    };
    if fits {
        Ok(())
    } else {
        Err(Cause::ValuesSyntax)
    }
}

// The type of the value in a place.
fn kind_at(kinds: &[Option<ColType>], place: Option<usize>) -> Option<Option<ColType>>
    ensures { result ≡ typing.type_at kinds.now place }
{
    match place {
        None => None,
        Some(place) => match kinds.get(place) {
            None => None,
            Some(kind) => Some(*kind),
        },
    }
}

// 42804 for a value of another type than its column's.
fn check_kinds(
    columns: &[ColumnDef],
    names: &Option<Vec<String>>,
    kinds: &[Option<ColType>],
) -> Result<(), Cause>
    ensures { Passes (cells_causes (map column_of columns.now)
        (map (typing.type_at kinds.now) (places_meant (option_map names_tree names.now) (map column_of columns.now)))) result }
{
    for (place, column) in columns.iter().enumerate() {
        check_column(column, kind_at(kinds, place_of(names, columns, place)))?;
    }
    Ok(())
}

/// Whether a row of values of these types can be inserted (SQL:2016, <insert statement>). It takes no memory.
///
/// # Errors
///
/// 42601 for more values than columns, or not as many as named columns; 42804 for a value of another type than its column's.
pub fn check_fit(
    columns: &[ColumnDef],
    names: &Option<Vec<String>>,
    kinds: &[Option<ColType>],
) -> Result<(), Cause>
    ensures { Passes (row_fit_causes (map column_of columns.now) (option_map names_tree names.now) kinds.now) result }
{
    check_count(columns, names, kinds.len())?;
    check_kinds(columns, names, kinds)
}
