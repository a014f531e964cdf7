//! By what the rows of each core of a query are sorted.
#![tactic(auto, using(bind_names::proofs::Causes::tells_memory, bind_names::proofs::Added::added_end))]

ghost use Rattle.bind_names.specs.Meaning as meaning;
ghost use Rattle.bind_names.specs.Prelude.{item_at, key_meant, key_place, keys_sorting, key_name_causes, place_name_causes, scope_of, Means};
ghost use Rattle.bind_query.specs.Resolving.{SortsRows, sorting_form};
ghost use Rattle.bind_query.specs.Shown.{output_of};
ghost use Rattle.med_syntax.specs.QueryView.{key_tree, select_tree};
ghost use Rattle.std.specs.Prelude.{[], map, flat_map};
ghost use Rattle.tri_expr.specs.Tree.{tree};

use crate::keys::{keys, output_places};
use crate::outputs::Shown;
use bind_names::Visible;
use med_syntax::{OrderKey, Select};
use med_value::{Cause, Value};
use std::alloc::Global;
use tri_expr::Expr;

/// By what the rows of a core are sorted.
#[derive(Drop)]
pub enum Sorting {
    /// By these expressions over what it has in view.
    Keys(Vec<Expr>),
    /// By what it shows in these places.
    Places(Vec<usize>),
}

// By what the keys mean over what is in view.
fn by_keys(
    alloc: Global,
    scope: &[Visible<'_>],
    distinct: bool,
    outputs: &[Shown],
    written: &[OrderKey],
) -> Result<Sorting, Cause>
    ensures { Means sorting_form (flat_map (key_name_causes (scope_of scope.now) distinct (map output_of outputs.now)) (map key_tree written.now))
        (meaning.by_keys (map (key_meant (scope_of scope.now) (map output_of outputs.now)) (map key_tree written.now))) result }
{
    let found = keys(alloc, scope, distinct, outputs, written)?;
    Ok(Sorting::Keys(found))
}

// By the outputs that the keys mean.
fn by_places(alloc: Global, outputs: &[Shown], written: &[OrderKey]) -> Result<Sorting, Cause>
    ensures { Means sorting_form (flat_map (place_name_causes (map output_of outputs.now)) (map key_tree written.now))
        (meaning.by_places (map (key_place (map output_of outputs.now)) (map key_tree written.now))) result }
{
    let found = output_places(alloc, outputs, written)?;
    Ok(Sorting::Places(found))
}

/// By what the rows of a query are sorted, whose first core has this in view and these outputs: where it is the only one, by what the keys
/// mean there, and else by its outputs.
///
/// # Errors
///
/// What `keys` tells of a query of one core, and `output_places` of one with UNION ALL.
pub fn sorting_for(
    alloc: Global,
    scope: &[Visible<'_>],
    outputs: &[Shown],
    select: &Select,
) -> Result<Sorting, Cause>
    ensures { SortsRows (scope_of scope.now) (map output_of outputs.now) (select_tree select.now) result }
{
    let written = select.keys.as_slice();
    if select.others.as_slice().is_empty() {
        by_keys(alloc, scope, select.core.distinct, outputs, written)
    } else {
        by_places(alloc, outputs, written)
    }
}

// Equal expressions.
fn copies(alloc: Global, es: &[Expr]) -> Result<Vec<Expr>, Cause>
    ensures { Means (λ v. map tree v.items) [] (map tree es.now) result }
{
    let mut out = Vec::new(alloc);
    for e in es {
        out.push(e.copy(alloc)?)?;
    }
    Ok(out)
}

// What stands in a place; NULL past the end.
#[tactic(auto, using(bind_names::proofs::Causes::tells_memory, crate::proofs::KeySteps::item_missing, crate::proofs::KeySteps::item_there))]
fn item_in(alloc: Global, items: &[Expr], place: usize) -> Result<Expr, Cause>
    ensures { Means tree [] (item_at (map tree items.now) place) result }
{
    match items.get(place) {
        None => Ok(Expr::Literal(Value::Null)),
        Some(e) => Ok(e.copy(alloc)?),
    }
}

// What stands in each of these places.
fn items_in(alloc: Global, items: &[Expr], places: &[usize]) -> Result<Vec<Expr>, Cause>
    ensures { Means (λ v. map tree v.items) [] (map (item_at (map tree items.now)) places.now) result }
{
    let mut out = Vec::new(alloc);
    for place in places {
        out.push(item_in(alloc, items, *place)?)?;
    }
    Ok(out)
}

/// By what the rows of a core with these items are sorted. Refused only where memory is.
pub fn sorting_keys(alloc: Global, sorting: &Sorting, items: &[Expr]) -> Result<Vec<Expr>, Cause>
    ensures { Means (λ v. map tree v.items) [] (keys_sorting (sorting_form sorting.now) (map tree items.now)) result }
{
    match sorting {
        Sorting::Keys(keys) => copies(alloc, keys.as_slice()),
        Sorting::Places(places) => items_in(alloc, items, places.as_slice()),
    }
}
