//! The keys of ORDER BY and of GROUP BY.
#![tactic(auto, using(
// a cause of a part is one of the whole
bind_names::proofs::Causes::tells_left, bind_names::proofs::Causes::tells_right,
// refused memory, and one cause alone
bind_names::proofs::Causes::tells_memory, bind_names::proofs::Causes::tells_one,
// no cause in either part
bind_names::proofs::Causes::none_of_two))]

ghost use Rattle.bind_names.specs.Meaning as spec;
ghost use Rattle.bind_names.specs.Prelude.{Output, first_value, sort_key, position, output_name, expression, key_direction, position_causes, output_name_causes, output_key_causes, distinct_causes, scope_of, Means, Passes, with_places};
ghost use Rattle.bind_names.specs.declared.scope.FoundPlaces.TheVariants.{Nothing};
ghost use Rattle.bind_query.specs.Resolving.{key_form, outputs_named, SortsBy, ResolvesKeys, PlacesKeys, FindsPlaces};
ghost use Rattle.bind_query.specs.Shown.{output_of};
ghost use Rattle.bind_query.specs.Steps.{IsFirst};
ghost use Rattle.med_query.specs.Form.{direction_of};
ghost use Rattle.med_syntax.specs.Prelude.{expr_tree, key_tree, group_tree};
ghost use Rattle.std.specs.List.{list_any, list_all};
ghost use Rattle.std.specs.Prelude.{◌≡◌, ◌-◌, ℕ, [], map, drop};
ghost use Rattle.tri_expr.specs.Prelude.{tree, same_tree};

use crate::outputs::Shown;
use crate::resolve::resolve;
use bind_names::{FoundPlaces, Visible, find_column, one_more};
use med_query::SortDirection;
use med_syntax::{Expr as Written, GroupColumn, OrderKey};
use med_value::{Cause, Value};
use std::alloc::Global;
use tri_expr::law::same_trees_are_equal;
use tri_expr::{Expr, is_same};

// Whether an output has this name.
fn is_output(outputs: &[Shown], name: &str) -> bool
    ensures { result ≡ list_any (spec.is_named name.now) (map output_of outputs.now) }
{
    for output in outputs {
        if output.name.as_str() == name {
            return true;
        }
    }
    false
}

// What the output in this position shows, counted from 1: 42P10 where there is none.
#[tactic(auto, using(
// refused memory, and one cause alone
bind_names::proofs::Causes::tells_memory, bind_names::proofs::Causes::tells_one,
// positions of outputs
crate::proofs::KeySteps::position_zero, crate::proofs::KeySteps::position_past,
// what stands there
crate::proofs::KeySteps::position_value, crate::proofs::KeySteps::position_there))]
fn at_position(alloc: Global, outputs: &[Shown], number: u64) -> Result<Expr, Cause>
    ensures { Means tree (position_causes (map output_of outputs.now) number)
        (first_value (drop (number - 1) (map output_of outputs.now))) result }
{
    if number == 0 {
        return Err(Cause::InvalidColumnReference);
    }
    let place = (number - 1) as usize;
    if place >= outputs.len() {
        return Err(Cause::InvalidColumnReference);
    }
    Ok(outputs[place].value.copy(alloc)?)
}

// Whether an output shows the same.
fn shows(outputs: &[Shown], value: &Expr) -> bool
    ensures { result ≡ list_any (λ (o : Output). same_tree o.value (tree value.now)) (map output_of outputs.now) }
{
    for output in outputs {
        if is_same(&output.value, value) {
            return true;
        }
    }
    false
}

// What the first output of this name shows.
fn first_named<'a>(outputs: &'a [Shown], name: &str) -> Option<&'a Expr>
    ensures { IsFirst (outputs_named name.now outputs.now) result }
{
    for output in outputs {
        if output.name.as_str() == name {
            return Some(&output.value);
        }
    }
    None
}

// Whether each output of this name shows the same.
fn are_same(outputs: &[Shown], name: &str, value: &Expr) -> bool
    ensures { result ≡ list_all (λ (o : Output). same_tree (tree value.now) o.value) (outputs_named name.now outputs.now) }
{
    for output in outputs {
        if output.name.as_str() == name && !is_same(value, &output.value) {
            return false;
        }
    }
    true
}

// What the outputs of this name show: 42702 where two are not the same.
#[tactic(auto, using(
// refused memory, and one cause alone
bind_names::proofs::Causes::tells_memory, bind_names::proofs::Causes::tells_one,
// names of outputs
crate::proofs::KeySteps::no_output, crate::proofs::KeySteps::outputs_agree, crate::proofs::KeySteps::outputs_differ))]
fn named(alloc: Global, outputs: &[Shown], name: &str) -> Result<Expr, Cause>
    ensures { Means tree (output_name_causes (map output_of outputs.now) name.now)
        (first_value (outputs_named name.now outputs.now)) result }
{
    same_trees_are_equal();
    match first_named(outputs, name) {
        None => Ok(Expr::Literal(Value::Null)),
        Some(value) => {
            if !are_same(outputs, name, value) {
                return Err(Cause::AmbiguousColumn);
            }
            Ok(value.copy(alloc)?)
        }
    }
}

// An expression over what is in view: 42P10 under DISTINCT where no output shows it.
fn expressed(
    alloc: Global,
    scope: &[Visible<'_>],
    distinct: bool,
    outputs: &[Shown],
    e: &Written,
) -> Result<Expr, Cause>
    ensures { SortsBy (scope_of scope.now) distinct (map output_of outputs.now) (expression (expr_tree e.now)) result }
{
    let value = resolve(alloc, scope, e)?;
    match check_shown(distinct, outputs, &value) {
        Ok(()) => Ok(value),
        Err(cause) => {
            drop(value);
            Err(cause)
        }
    }
}

// 42P10 under DISTINCT where no output shows this.
fn check_shown(distinct: bool, outputs: &[Shown], value: &Expr) -> Result<(), Cause>
    ensures { Passes (distinct_causes distinct (map output_of outputs.now) (tree value.now)) result }
{
    if !distinct {
        return Ok(());
    }
    if shows(outputs, value) {
        Ok(())
    } else {
        Err(Cause::InvalidColumnReference)
    }
}

// What a key of ORDER BY is.
#[derive(Clone, Copy)]
enum KeyForm<'a> {
    // The position of an output, from 1 on.
    Position(u64),
    // The name of an output.
    Named(&'a str),
    // An expression over what is in view.
    Expressed(&'a Written),
}

// What a key is; parentheses are looked through.
#[tactic(auto)]
fn form_of_key<'a>(outputs: &[Shown], e: &'a Written) -> KeyForm<'a>
    ensures { key_form result ≡ sort_key (map output_of outputs.now) (expr_tree e.now) }
{
    match e {
        Written::Paren(inner) => form_of_key(outputs, inner),
        Written::Number(number) => KeyForm::Position(*number),
        Written::Column(qualifier, name) => match qualifier {
            Some(_) => KeyForm::Expressed(e),
            None => {
                if is_output(outputs, name.as_str()) {
                    KeyForm::Named(name.as_str())
                } else {
                    KeyForm::Expressed(e)
                }
            }
        },
        Written::Negative(_) => KeyForm::Expressed(e),
        Written::Text(_) => KeyForm::Expressed(e),
        Written::Truth(_) => KeyForm::Expressed(e),
        Written::Null => KeyForm::Expressed(e),
        Written::CallAll(_) => KeyForm::Expressed(e),
        Written::Call(_, _) => KeyForm::Expressed(e),
        Written::Minus(_) => KeyForm::Expressed(e),
        Written::Binary(_, _, _) => KeyForm::Expressed(e),
        Written::Between(_, _, _, _) => KeyForm::Expressed(e),
        Written::In(_, _, _, _) => KeyForm::Expressed(e),
        Written::Like(_, _, _) => KeyForm::Expressed(e),
        Written::Compare(_, _, _) => KeyForm::Expressed(e),
        Written::Is(_, _, _) => KeyForm::Expressed(e),
        Written::Not(_) => KeyForm::Expressed(e),
        Written::Chain(_, _, _) => KeyForm::Expressed(e),
    }
}

// A key of ORDER BY: the position of an output, the name of one, or an expression.
fn key(
    alloc: Global,
    scope: &[Visible<'_>],
    distinct: bool,
    outputs: &[Shown],
    e: &Written,
) -> Result<Expr, Cause>
    ensures { SortsBy (scope_of scope.now) distinct (map output_of outputs.now)
        (sort_key (map output_of outputs.now) (expr_tree e.now)) result }
{
    match form_of_key(outputs, e) {
        KeyForm::Position(number) => at_position(alloc, outputs, number),
        KeyForm::Named(name) => named(alloc, outputs, name),
        KeyForm::Expressed(value) => expressed(alloc, scope, distinct, outputs, value),
    }
}

/// The keys of ORDER BY.
pub fn keys(
    alloc: Global,
    scope: &[Visible<'_>],
    distinct: bool,
    outputs: &[Shown],
    keys: &[OrderKey],
) -> Result<Vec<Expr>, Cause>
    ensures { ResolvesKeys (scope_of scope.now) distinct (map output_of outputs.now) (map key_tree keys.now) result }
{
    let mut out = Vec::new(alloc);
    for written in keys {
        let value = key(alloc, scope, distinct, outputs, &written.key)?;
        out.push(value)?;
    }
    Ok(out)
}

// The places of the outputs of this name.
fn places_named(outputs: &[Shown], name: &str) -> FoundPlaces
    ensures { result ≡ with_places Nothing (spec.places_named 0 name.now (map output_of outputs.now)) }
{
    let mut found = FoundPlaces::Nothing;
    for (place, output) in outputs.iter().enumerate() {
        if output.name.as_str() == name {
            found = one_more(found, place);
        }
    }
    found
}

// The place of the output of this name: 42702 where there are several.
#[tactic(auto, using(
// one cause alone
bind_names::proofs::Causes::tells_one,
// outputs by their places
crate::proofs::KeySteps::place_none, crate::proofs::KeySteps::place_one, crate::proofs::KeySteps::place_several))]
fn place_named(outputs: &[Shown], name: &str) -> Result<usize, Cause>
    ensures { Means (λ (p : ℕ). p) (output_key_causes (map output_of outputs.now) (output_name name.now))
        (spec.output_place (map output_of outputs.now) (output_name name.now)) result }
{
    match places_named(outputs, name) {
        FoundPlaces::Nothing => Ok(0),
        FoundPlaces::One(place) => Ok(place),
        FoundPlaces::Several => Err(Cause::AmbiguousColumn),
    }
}

// The place of the output in this position, counted from 1: 42P10 where there is none.
#[tactic(auto, using(
// one cause alone
bind_names::proofs::Causes::tells_one,
// positions of outputs
crate::proofs::KeySteps::position_zero, crate::proofs::KeySteps::position_past, crate::proofs::KeySteps::position_there))]
fn place_at(outputs: &[Shown], number: u64) -> Result<usize, Cause>
    ensures { Means (λ (p : ℕ). p) (output_key_causes (map output_of outputs.now) (position number))
        (spec.output_place (map output_of outputs.now) (position number)) result }
{
    if number == 0 {
        return Err(Cause::InvalidColumnReference);
    }
    let place = (number - 1) as usize;
    if place >= outputs.len() {
        return Err(Cause::InvalidColumnReference);
    }
    Ok(place)
}

// The place of the output that a key means: 42P10 for a key that is no output.
fn place_of(outputs: &[Shown], e: &Written) -> Result<usize, Cause>
    ensures { Means (λ (p : ℕ). p) (output_key_causes (map output_of outputs.now) (sort_key (map output_of outputs.now) (expr_tree e.now)))
        (spec.output_place (map output_of outputs.now) (sort_key (map output_of outputs.now) (expr_tree e.now))) result }
{
    match form_of_key(outputs, e) {
        KeyForm::Position(number) => place_at(outputs, number),
        KeyForm::Named(name) => place_named(outputs, name),
        KeyForm::Expressed(_) => Err(Cause::InvalidColumnReference),
    }
}

/// The places of the outputs that the keys of ORDER BY mean in a query with UNION ALL: 42P10 for a key that is no output, 42702 for a name
/// that several outputs have.
pub fn output_places(
    alloc: Global,
    outputs: &[Shown],
    keys: &[OrderKey],
) -> Result<Vec<usize>, Cause>
    ensures { PlacesKeys (map output_of outputs.now) (map key_tree keys.now) result }
{
    let mut out = Vec::new(alloc);
    for written in keys {
        let found = place_of(outputs, &written.key)?;
        out.push(found)?;
    }
    Ok(out)
}

/// Their directions.
pub fn directions(alloc: Global, keys: &[OrderKey]) -> Result<Vec<SortDirection>, Cause>
    ensures { Means (λ v. map direction_of v.items) [] (map key_direction (map key_tree keys.now)) result }
{
    let mut out = Vec::new(alloc);
    for key in keys {
        out.push(SortDirection {
            descending: key.descending,
            nulls_first: key.nulls_first,
        })?;
    }
    Ok(out)
}

/// The places of the columns of GROUP BY.
#[tactic(auto, using(bind_names::proofs::Causes::tells_memory, crate::proofs::KeySteps::place_found))]
pub fn places(
    alloc: Global,
    scope: &[Visible<'_>],
    groups: &[GroupColumn],
) -> Result<Vec<usize>, Cause>
    ensures { FindsPlaces (scope_of scope.now) (map group_tree groups.now) result }
{
    let mut out = Vec::new(alloc);
    for group in groups {
        let place = find_column(scope, &group.qualifier, &group.name)?;
        out.push(place)?;
    }
    Ok(out)
}
