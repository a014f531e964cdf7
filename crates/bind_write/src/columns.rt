//! Lists of columns, as INSERT and SET have them.
#![tactic(auto, using(
// a cause of a part is one of the whole
bind_names::proofs::Causes::tells_left, bind_names::proofs::Causes::tells_right,
// one cause alone
bind_names::proofs::Causes::tells_one,
// no cause in either part
bind_names::proofs::Causes::none_of_two))]

ghost use Rattle.std.specs.Prelude.{◌≡◌, [], ◌∷◌, bytes_eq, if◌then◌else◌, map, flat_map, string_bytes};
ghost use Rattle.std.specs.List.{list_any};
ghost use Rattle.med_value.specs.Column.{column_of};
ghost use Rattle.med_catalog.specs.Options.{repeats};
ghost use Rattle.bind_names.specs.Telling.{Passes};
ghost use Rattle.bind_write.specs.Meaning as meaning;
ghost use Rattle.bind_write.specs.Naming.{is_column, column_unknown, list_causes};

use med_value::{Cause, ColumnDef};

// Whether a column has this name.
fn is_column(columns: &[ColumnDef], name: &str) -> bool
    ensures { result ≡ is_column (map column_of columns.now) name.now }
{
    for column in columns {
        if column.name.as_str() == name {
            return true;
        }
    }
    false
}

// 42703 for a name that is none of a column.
fn check_name(columns: &[ColumnDef], name: &str) -> Result<(), Cause>
    ensures { Passes (column_unknown (map column_of columns.now) name.now) result }
{
    if is_column(columns, name) {
        Ok(())
    } else {
        Err(Cause::UndefinedColumn)
    }
}

// The same of each name.
fn check_known(columns: &[ColumnDef], names: &[String]) -> Result<(), Cause>
    ensures { Passes (flat_map (column_unknown (map column_of columns.now)) (map string_bytes names.now)) result }
{
    for name in names {
        check_name(columns, name.as_str())?;
    }
    Ok(())
}

// Whether the name is one of these.
fn is_among(name: &str, names: &[String]) -> bool
    ensures { result ≡ list_any (bytes_eq name.now) (map string_bytes names.now) }
{
    for other in names {
        if name == other.as_str() {
            return true;
        }
    }
    false
}

// Refuses by the cause where a name stands twice.
fn check_once(twice: Cause, names: &[String]) -> Result<(), Cause>
    ensures { Passes (if repeats (map string_bytes names.now) then twice ∷ [] else []) result }
{
    for (place, name) in names.iter().enumerate() {
        if is_among(name.as_str(), &names[place + 1..]) {
            return Err(twice);
        }
    }
    Ok(())
}

/// Whether a list of columns names columns of the table, each once (SQL:2016, <insert column list>, <set clause list>).
///
/// # Errors
///
/// 42703 for a name that is none of a column, and the given cause where one stands twice; either may be told where both stand.
pub fn check_list(twice: Cause, columns: &[ColumnDef], names: &[String]) -> Result<(), Cause>
    ensures { Passes (list_causes twice (map column_of columns.now) (map string_bytes names.now)) result }
{
    check_known(columns, names)?;
    check_once(twice, names)
}

/// The place of a name among these, the first that it has; none where it does not stand there.
pub fn name_place(names: &[String], name: &str) -> Option<usize>
    ensures { result ≡ meaning.name_place 0 (map string_bytes names.now) name.now }
{
    for (place, other) in names.iter().enumerate() {
        if other.as_str() == name {
            return Some(place);
        }
    }
    None
}
