//! What is in view, and which column a name means.

ghost use Rattle.std.specs.Prelude.{◌≡◌, ◌+◌, ◌≤◌, map, length, option_map, string_bytes, Some, IfErr};
ghost use Rattle.med_value.specs.Column.{column_of};
ghost use Rattle.med_value.specs.declared.cause.Cause.TheVariants.{OutOfMemory};
ghost use Rattle.bind_names.specs.Scope.{scope_of, is_meant, visible, places_from, places_under, kind_there, kind_at, has_entry};
ghost use Rattle.std.specs.List.{list_any};
ghost use Rattle.bind_names.specs.Telling.{with_place, with_places, Gathers, FindsColumn, FindsNamed, IsOverfull};

use med_value::{Cause, ColType, ColumnDef};

/// An entry of FROM that is in view, under the name by which it is called there.
#[derive(Clone, Copy)]
pub struct Visible<'a> {
    /// Its alias, or else its table's name.
    pub name: &'a str,
    /// The columns of its table.
    pub columns: &'a [ColumnDef],
}

/// The columns of a name that were found.
#[derive(Clone, Copy)]
pub enum FoundPlaces {
    /// None so far.
    Nothing,
    /// The one in this place.
    One(usize),
    /// More than one.
    Several,
}

/// One more was found in this place.
pub fn one_more(found: FoundPlaces, place: usize) -> FoundPlaces
    ensures { result ≡ with_place found place }
{
    match found {
        FoundPlaces::Nothing => FoundPlaces::One(place),
        FoundPlaces::One(_) | FoundPlaces::Several => FoundPlaces::Several,
    }
}

// What was found, with the columns of this name, the first column standing at a place.
#[tactic(auto, using(crate::proofs::Places::found_then))]
fn find_in(columns: &[ColumnDef], name: &str, at: usize, found: FoundPlaces) -> FoundPlaces
    requires { at + length columns.now ≤ 18446744073709551615 }
    ensures { result ≡ with_places found (places_from at (map column_of columns.now) name.now) }
{
    let mut found = found;
    for (place, column) in columns.iter().enumerate() {
        if column.name.as_str() == name {
            found = one_more(found, at + place);
        }
    }
    found
}

/// Whether the name is the entry's.
pub fn is_named(entry: Visible<'_>, name: &str) -> bool
    ensures { result ≡ is_meant (Some name.now) (visible entry.entry) }
{
    entry.name == name
}

// Whether the qualifier, if there is one, names the entry.
fn is_called(entry: Visible<'_>, qualifier: &Option<String>) -> bool
    ensures { result ≡ is_meant (option_map string_bytes qualifier.now) (visible entry.entry) }
{
    match qualifier {
        None => true,
        Some(name) => is_named(entry, name.as_str()),
    }
}

/// Whether an entry in view has this name.
pub fn is_any_named(scope: &[Visible<'_>], name: &str) -> bool
    ensures { result ≡ list_any (is_meant (Some name.now)) (scope_of scope.now) }
{
    for entry in scope {
        if is_named(*entry, name) {
            return true;
        }
    }
    false
}

// Whether the qualifier, if there is one, names an entry in view.
fn has_entry(scope: &[Visible<'_>], qualifier: &Option<String>) -> bool
    ensures { result ≡ has_entry (scope_of scope.now) (option_map string_bytes qualifier.now) }
{
    match qualifier {
        None => true,
        Some(name) => is_any_named(scope, name.as_str()),
    }
}

// The same in an entry, where it is meant.
fn find_under(
    entry: Visible<'_>,
    qualifier: &Option<String>,
    name: &str,
    at: usize,
    found: FoundPlaces,
) -> FoundPlaces
    requires { at + length entry.columns.now ≤ 18446744073709551615 }
    ensures { result ≡ with_places found (places_under at (visible entry.entry) (option_map string_bytes qualifier.now) name.now) }
{
    if is_called(entry, qualifier) {
        find_in(entry.columns, name, at, found)
    } else {
        found
    }
}

// The columns that a name can mean. Refused only where there are more columns in view than places.
#[tactic(auto, using(crate::proofs::Places::found_past_entry, crate::proofs::Places::overfull_there))]
fn gather(
    scope: &[Visible<'_>],
    qualifier: &Option<String>,
    name: &str,
) -> Result<FoundPlaces, Cause>
    ensures { Gathers (scope_of scope.now) (option_map string_bytes qualifier.now) name.now result }
{
    let mut found = FoundPlaces::Nothing;
    let mut at: usize = 0;
    for entry in scope {
        let end = match at.checked_add(entry.columns.len()) {
            Some(end) => end,
            None => return Err(Cause::OutOfMemory),
        };
        found = find_under(*entry, qualifier, name, at, found);
        at = end;
    }
    Ok(found)
}

/// The place of the one column that a name means, or why it means none. 42P01 where the qualifier names no entry, 42703 where there is no
/// such column, 42702 where there are several, and 53200 where more columns are in view than there are places.
#[tactic(auto, using(
// refused memory, and one cause alone
crate::proofs::Causes::tells_memory, crate::proofs::Causes::tells_one,
// columns of a name
crate::proofs::Places::column_missing, crate::proofs::Places::column_there, crate::proofs::Places::column_unclear,
// the qualifier
crate::proofs::Places::entry_missing))]
pub fn find_column(
    scope: &[Visible<'_>],
    qualifier: &Option<String>,
    name: &String,
) -> Result<usize, Cause>
    ensures finds { FindsColumn (scope_of scope.now) (option_map string_bytes qualifier.now) (string_bytes name.now) result }
    ensures memory { IfErr result (λ c. c ≡ OutOfMemory → IsOverfull (scope_of scope.now)) }
{
    if !has_entry(scope, qualifier) {
        return Err(Cause::UndefinedTable);
    }
    match gather(scope, qualifier, name.as_str())? {
        FoundPlaces::Nothing => Err(Cause::UndefinedColumn),
        FoundPlaces::One(place) => Ok(place),
        FoundPlaces::Several => Err(Cause::AmbiguousColumn),
    }
}

// The type of the column at a place among these; none past the end.
fn kind_in(columns: &[ColumnDef], place: usize) -> Option<ColType>
    ensures { result ≡ kind_there (map column_of columns.now) place }
{
    match columns.get(place) {
        None => None,
        Some(column) => Some(column.kind),
    }
}

// The type of the column at a place.
#[tactic(auto, using(crate::proofs::Places::kind_at_entry, crate::proofs::Places::kind_past_entry))]
fn kind_of(scope: &[Visible<'_>], place: usize) -> Option<ColType>
    ensures { result ≡ kind_at (scope_of scope.now) place }
{
    let mut rest = place;
    for entry in scope {
        if rest < entry.columns.len() {
            return kind_in(entry.columns, rest);
        }
        rest -= entry.columns.len();
    }
    None
}

/// The type of the one column that a name means; none where it means none. Refused only with 53200, where more columns are in view than
/// there are places.
#[tactic(auto, using(crate::proofs::Places::found_one))]
pub fn column_kind(
    scope: &[Visible<'_>],
    qualifier: &Option<String>,
    name: &String,
) -> Result<Option<ColType>, Cause>
    ensures { FindsNamed (scope_of scope.now) (option_map string_bytes qualifier.now) (string_bytes name.now) result }
{
    match gather(scope, qualifier, name.as_str())? {
        FoundPlaces::One(place) => Ok(kind_of(scope, place)),
        FoundPlaces::Nothing | FoundPlaces::Several => Ok(None),
    }
}
