//! Groups.
#![tactic(auto, using(bind_names::proofs::Causes::tells_memory, bind_names::proofs::Added::added_end))]

ghost use Rattle.bind_names.specs.Prelude.{groups_rows, Means, Adds};
ghost use Rattle.bind_query.specs.Resolving.{GroupsBy, shown_trees};
ghost use Rattle.med_syntax.specs.QueryView.{core_tree};
ghost use Rattle.std.specs.Option.{is_some};
ghost use Rattle.std.specs.Prelude.{◌≡◌, ◌++◌, [], ◌||◌, map, flat_map};
ghost use Rattle.tri_expr.specs.Prelude.{tree, arguments_in};

use bind_names::any_has_aggregate;
use med_query::Grouping;
use med_syntax::Core;
use med_value::Cause;
use std::alloc::Global;
use tri_expr::{Expr, arguments};

// Appends the arguments of the aggregates of the expressions.
fn push_arguments(alloc: Global, es: &[Expr], out: &mut Vec<Expr>) -> Result<(), Cause>
    ensures { Adds [] (flat_map arguments_in (map tree es.now)) (map tree out.old.items) (map tree out.new.items) result }
{
    for e in es {
        let mut more = arguments(alloc, e)?;
        out.append(&mut more)?;
    }
    Ok(())
}

// The arguments of the aggregates of HAVING, order keys and items.
fn all_arguments(
    alloc: Global,
    having: &[Expr],
    keys: &[Expr],
    items: &[Expr],
) -> Result<Vec<Expr>, Cause>
    ensures { Means (λ v. map tree v.items) [] (flat_map arguments_in (map tree having.now ++ shown_trees keys.now items.now)) result }
{
    let mut out = Vec::new(alloc);
    push_arguments(alloc, having, &mut out)?;
    push_arguments(alloc, keys, &mut out)?;
    push_arguments(alloc, items, &mut out)?;
    Ok(out)
}

// Whether a core groups: it has GROUP BY, HAVING or an aggregate.
fn groups_rows(core: &Core, keys: &[Expr], items: &[Expr]) -> bool
    ensures { result ≡ groups_rows (core_tree core.now) (shown_trees keys.now items.now) }
{
    !core.groups.as_slice().is_empty()
        || core.having.is_some()
        || any_has_aggregate(keys)
        || any_has_aggregate(items)
}

/// The groups of a core, if it groups: by the columns in these places, with these conjuncts of HAVING.
pub fn grouping(
    alloc: Global,
    core: &Core,
    places: Vec<usize>,
    having: Vec<Expr>,
    keys: &[Expr],
    items: &[Expr],
) -> Result<Option<Grouping>, Cause>
    ensures { GroupsBy (core_tree core.now) places.items having.items (shown_trees keys.now items.now) result }
{
    if !groups_rows(core, keys, items) {
        return Ok(None);
    }
    let arguments = all_arguments(alloc, having.as_slice(), keys, items)?;
    Ok(Some(Grouping {
        keys: places,
        arguments,
        having,
    }))
}
