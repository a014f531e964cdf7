//! The types of the outputs of cores that UNION ALL joins.
#![tactic(auto, using(bind_names::proofs::Causes::tells_left, bind_names::proofs::Causes::tells_right, bind_names::proofs::Causes::tells_one, bind_names::proofs::Causes::none_of_two))]

ghost use Rattle.std.specs.Prelude.{◌≡◌, ◌&&◌, ℕ, List, Option, None, nat_eq, length, map, flat_map, slice_index_or};
ghost use Rattle.std.specs.List.{list_all, range_with_len};
ghost use Rattle.med_value.specs.declared.value.ColType.{ColType as Kind};
ghost use Rattle.bind_names.specs.Telling.{Passes};
ghost use Rattle.bind_types.specs.Kinds.{types_in};
ghost use Rattle.bind_types.specs.Typing as spec;

use crate::typing::takes;
use med_value::{Cause, ColType};

// Whether each core has so many outputs.
fn are_so_many(rows: &[Vec<Option<ColType>>], width: usize) -> bool
    ensures { result ≡ list_all (λ (ts : List (Option Kind)). nat_eq (length ts) width) (map types_in rows.now) }
{
    for row in rows {
        if row.len() != width {
            return false;
        }
    }
    true
}

// 42601 where a core has not as many outputs.
fn check_widths(rows: &[Vec<Option<ColType>>], width: usize) -> Result<(), Cause>
    ensures { Passes (spec.unless (list_all (λ (ts : List (Option Kind)). nat_eq (length ts) width) (map types_in rows.now))
        Cause.ValuesSyntax) result }
{
    if are_so_many(rows, width) {
        Ok(())
    } else {
        Err(Cause::ValuesSyntax)
    }
}

// The type in a place; none past the end.
fn kind_in(row: &[Option<ColType>], place: usize) -> Option<ColType>
    ensures { result ≡ slice_index_or row.now place None }
{
    match row.get(place) {
        None => None,
        Some(kind) => *kind,
    }
}

// The type of the output in a place.
fn place_kind(rows: &[Vec<Option<ColType>>], place: usize) -> ColType
    ensures { result ≡ spec.place_type (spec.in_place (map types_in rows.now) place) }
{
    for row in rows {
        if let Some(kind) = kind_in(row.as_slice(), place) {
            return kind;
        }
    }
    ColType::Text
}

// Whether what each core has in a place is of this type.
fn all_take(kind: ColType, rows: &[Vec<Option<ColType>>], place: usize) -> bool
    ensures { result ≡ list_all (spec.takes kind) (spec.in_place (map types_in rows.now) place) }
{
    for row in rows {
        if !takes(kind, kind_in(row.as_slice(), place)) {
            return false;
        }
    }
    true
}

// 42804 for outputs of different types in a place.
fn check_place(rows: &[Vec<Option<ColType>>], place: usize) -> Result<(), Cause>
    ensures { Passes (spec.place_causes (spec.in_place (map types_in rows.now) place)) result }
{
    if all_take(place_kind(rows, place), rows, place) {
        Ok(())
    } else {
        Err(Cause::DatatypeMismatch)
    }
}

// The same of each of so many places.
fn check_places(rows: &[Vec<Option<ColType>>], width: usize) -> Result<(), Cause>
    ensures { Passes (flat_map (λ (place : ℕ). spec.place_causes (spec.in_place (map types_in rows.now) place))
        (range_with_len 0 width)) result }
{
    for place in 0..width {
        check_place(rows, place)?;
    }
    Ok(())
}

/// Refuses cores whose outputs are of these types, the first having so many: 42601 where another has not as many, 42804 where one is of
/// another type than the output of the query in its place.
pub fn check_outputs(rows: &[Vec<Option<ColType>>], width: usize) -> Result<(), Cause>
    ensures { Passes (spec.union_causes width (map types_in rows.now)) result }
{
    check_widths(rows, width)?;
    check_places(rows, width)
}
