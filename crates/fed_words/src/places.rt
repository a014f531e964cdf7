//! The folders and databases that the program's words name as sources, each with its place.
ghost use Rattle.std.specs.Prelude.{◌≡◌, ◌++◌, IfOk, IfErr, OnOk, map};
ghost use Rattle.fed_words.specs.Places.{AreGood, AreRefused, IsGood, IsRefused, place_in, place_of, source_kind};

use crate::words::is_source_name;
use med_catalog::SourceKind;

/// What stands at a place.
#[derive(Clone, Copy, Debug, PartialEq, Eq)]
pub enum PlaceKind {
    /// A folder of CSV files.
    Csv,
    /// A folder of files of JSON objects, one a line.
    JsonLines,
    /// A SQLite database.
    Sqlite,
}

impl PlaceKind {
    /// The kind of source that it is.
    pub fn source_kind(self) -> SourceKind
        ensures { result ≡ source_kind self }
    {
        match self {
            PlaceKind::Csv => SourceKind::Csv,
            PlaceKind::JsonLines => SourceKind::JsonLines,
            PlaceKind::Sqlite => SourceKind::Sqlite,
        }
    }
}

/// What is to be a source, by its place.
#[derive(Clone, Copy, Debug, PartialEq, Eq)]
pub struct AskedPlace<'a> {
    /// What stands there.
    pub kind: PlaceKind,
    /// The name of the source.
    pub name: &'a str,
    /// The path of the folder or of the database.
    pub path: &'a str,
}

/// Why a value names no place.
#[derive(Clone, Copy, Debug, PartialEq, Eq)]
pub enum PlaceFault<'a> {
    /// Nothing stands after the first `=` of this value, or it has none.
    NoPath(&'a str),
    /// What stands before the first `=` of this value may not name a source.
    BadName(&'a str),
    /// Memory was refused.
    NoMemory,
}

/// The place that a value `NAME=PATH` names: its name ends before the first `=`.
pub fn read_place<'a>(kind: PlaceKind, value: &'a str) -> Result<AskedPlace<'a>, PlaceFault<'a>>
    ensures good { IfOk result (λ f. (place_of f ≡ place_in kind value.now) × IsGood value.now) }
    ensures bad { IfErr result (IsRefused value.now) }
{
    let Some((name, path)) = value.split_once('=') else {
        return Err(PlaceFault::NoPath(value));
    };
    if path.is_empty() {
        return Err(PlaceFault::NoPath(value));
    }
    if !is_source_name(name) {
        return Err(PlaceFault::BadName(value));
    }
    Ok(AskedPlace { kind, name, path })
}

/// Adds the places of this kind that some values name, in order, to others.
///
/// # Errors
///
/// The first value that is not taken, and why.
pub fn read_places<'a>(
    places: &mut Vec<AskedPlace<'a>>,
    kind: PlaceKind,
    values: &[&'a str],
) -> Result<(), PlaceFault<'a>>
    ensures read { OnOk result (map place_of places.new.items
        ≡ map place_of places.old.items ++ map (place_in kind) (map (λ s. s.now) values.now)) }
    ensures good { OnOk result (AreGood (map (λ s. s.now) values.now)) }
    ensures bad { IfErr result (AreRefused (map (λ s. s.now) values.now)) }
{
    for value in values {
        let place = match read_place(kind, value) {
            Ok(place) => place,
            Err(fault) => return Err(fault),
        };
        if places.push(place).is_err() {
            return Err(PlaceFault::NoMemory);
        }
    }
    Ok(())
}
