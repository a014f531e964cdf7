//! Where aggregates and columns stand in a query whose names are places, and which ON may fault.
#![tactic(auto, using(bind_names::proofs::Causes::tells_left, bind_names::proofs::Causes::tells_right, bind_names::proofs::Causes::tells_one, bind_names::proofs::Causes::none_of_two))]

ghost use Rattle.bind_names.specs.Aggregates as spec;
ghost use Rattle.bind_names.specs.Telling.{Passes};
ghost use Rattle.bind_types.specs.Typing as causes;
ghost use Rattle.med_query.specs.Prelude.{join_form, chain_form, group_form, core_form, form_of, are_safe_cores};
ghost use Rattle.std.specs.List.{list_any};
ghost use Rattle.std.specs.Prelude.{◌≡◌, ◌++◌, map, flat_map, option_map, true, IfOk, OnOk};
ghost use Rattle.tri_expr.specs.Tree.{tree, trees};
ghost use Rattle.tri_expr.specs.TreeParts.{is_risky_tree};

use bind_names::{any_has_aggregate, has_aggregate};
use med_query::{Grouping, Join, JoinChain, Select, SelectCore};
use med_value::Cause;
use tri_expr::{Expr, is_risky};

// Whether an expression has no one meaning over groups with these keys, given that it is a column.
fn is_no_key(keys: &[usize], place: usize) -> bool
    ensures { result ≡ spec.is_ungrouped keys.now (Rattle.tri_expr.specs.Tree.column place) }
{
    for key in keys {
        if *key == place {
            return false;
        }
    }
    true
}

// Whether one of the parts has no one meaning over groups with these keys.
#[cycle(is_ungrouped)]
fn some_ungrouped(keys: &[usize], parts: &[Expr]) -> bool
    ensures { result ≡ spec.some_ungrouped keys.now (trees (map tree parts.now)) }
{
    for part in parts {
        if is_ungrouped(keys, part) {
            return true;
        }
    }
    false
}

// Whether an expression has no one meaning over groups with these keys: a column outside aggregates is no key, or an aggregate stands in
// an aggregate (SQL:2016, 7.13 <group by clause>, 10.9 <aggregate function>).
#[cycle(is_ungrouped)]
fn is_ungrouped(keys: &[usize], e: &Expr) -> bool
    ensures { result ≡ spec.is_ungrouped keys.now (tree e.now) }
{
    match e {
        Expr::Column(place) => is_no_key(keys, *place),
        Expr::Parameter(_) => false,
        Expr::Literal(_) => false,
        Expr::Compare(_, a, b) => is_ungrouped(keys, a) || is_ungrouped(keys, b),
        Expr::Compute(_, a, b) => is_ungrouped(keys, a) || is_ungrouped(keys, b),
        Expr::Negate(a) => is_ungrouped(keys, a),
        Expr::And(parts) => some_ungrouped(keys, parts),
        Expr::Or(parts) => some_ungrouped(keys, parts),
        Expr::Not(a) => is_ungrouped(keys, a),
        Expr::Is(_, _, a) => is_ungrouped(keys, a),
        Expr::Between(_, x, low, high) => {
            is_ungrouped(keys, x) || is_ungrouped(keys, low) || is_ungrouped(keys, high)
        }
        Expr::In(_, x, parts) => is_ungrouped(keys, x) || some_ungrouped(keys, parts),
        Expr::Like(_, x, _) => is_ungrouped(keys, x),
        Expr::Parenthesised(a) => is_ungrouped(keys, a),
        Expr::CountRows => false,
        Expr::Aggregate(_, a) => has_aggregate(a),
    }
}

// Whether one of the expressions has no one meaning over groups with these keys.
fn any_ungrouped(keys: &[usize], shown: &[Expr]) -> bool
    ensures { result ≡ list_any (spec.is_ungrouped keys.now) (map tree shown.now) }
{
    for e in shown {
        if is_ungrouped(keys, e) {
            return true;
        }
    }
    false
}

// Whether one of the conjuncts may fault.
fn any_fault(conjuncts: &[Expr]) -> bool
    ensures { result ≡ list_any is_risky_tree (map tree conjuncts.now) }
{
    for conjunct in conjuncts {
        if is_risky(conjunct) {
            return true;
        }
    }
    false
}

/// 42803 for an aggregate in one of the expressions, as in WHERE or ON. It takes no memory.
pub fn check_no_aggregate(conjuncts: &[Expr]) -> Result<(), Cause>
    ensures { Passes (causes.no_aggregate (map tree conjuncts.now)) result }
{
    if any_has_aggregate(conjuncts) {
        Err(Cause::Grouping)
    } else {
        Ok(())
    }
}

// Refuses an ON that may fault.
fn check_no_risk(conjuncts: &[Expr]) -> Result<(), Cause>
    ensures { Passes (causes.no_risk (map tree conjuncts.now)) result }
{
    if any_fault(conjuncts) {
        Err(Cause::FeatureNotSupported)
    } else {
        Ok(())
    }
}

// Refuses an aggregate in ON, and an ON that may fault.
fn check_on(conjuncts: &[Expr]) -> Result<(), Cause>
    ensures { Passes (causes.no_aggregate (map tree conjuncts.now) ++ causes.no_risk (map tree conjuncts.now)) result }
{
    check_no_aggregate(conjuncts)?;
    check_no_risk(conjuncts)
}

// The same of a join's ON, if it has one.
fn check_join(join: &Join) -> Result<(), Cause>
    ensures { Passes (causes.join_causes (join_form join.now)) result }
{
    match join {
        Join::Cross { .. } => Ok(()),
        Join::Inner { on, .. } => check_on(on),
        Join::Left { on, .. } => check_on(on),
    }
}

// The same of each of the joins.
fn check_joins(joins: &[Join]) -> Result<(), Cause>
    ensures { Passes (flat_map causes.join_causes (map join_form joins.now)) result }
{
    for join in joins {
        check_join(join)?;
    }
    Ok(())
}

// The same of the joins of a chain.
fn check_chain(chain: &JoinChain) -> Result<(), Cause>
    ensures { Passes (causes.chain_causes (chain_form chain.now)) result }
{
    check_joins(chain.joins.as_slice())
}

// The same of each chain of FROM.
fn check_from(chains: &[JoinChain]) -> Result<(), Cause>
    ensures { Passes (flat_map causes.chain_causes (map chain_form chains.now)) result }
{
    for chain in chains {
        check_chain(chain)?;
    }
    Ok(())
}

// Refuses what has no one meaning over groups.
fn check_groups(groups: &Grouping, keys: &[Expr], items: &[Expr]) -> Result<(), Cause>
    ensures { Passes (causes.unless (Rattle.std.specs.Prelude.not (list_any (spec.is_ungrouped (group_form groups.now).keys)
        ((group_form groups.now).having ++ (map tree keys.now ++ map tree items.now)))) Cause.Grouping) result }
{
    let places = groups.keys.as_slice();
    if any_ungrouped(places, groups.having.as_slice())
        || any_ungrouped(places, keys)
        || any_ungrouped(places, items)
    {
        Err(Cause::Grouping)
    } else {
        Ok(())
    }
}

// Refuses what has no one meaning over groups, where the query groups.
fn check_grouping(grouping: &Option<Grouping>, keys: &[Expr], items: &[Expr]) -> Result<(), Cause>
    ensures { Passes (causes.grouping_causes (option_map group_form grouping.now) (map tree keys.now ++ map tree items.now)) result }
{
    match grouping {
        None => Ok(()),
        Some(groups) => check_groups(groups, keys, items),
    }
}

// Refuses an aggregate in WHERE, and what has no one meaning over groups.
fn check_rest(core: &SelectCore) -> Result<(), Cause>
    ensures { Passes (causes.no_aggregate (core_form core.now).conditions
        ++ causes.grouping_causes (core_form core.now).group ((core_form core.now).keys ++ (core_form core.now).items)) result }
{
    check_no_aggregate(core.conditions.as_slice())?;
    check_grouping(&core.grouping, core.keys.as_slice(), core.items.as_slice())
}

// Refuses a core by where its aggregates and columns stand, and by an ON that may fault.
fn check_core(core: &SelectCore) -> Result<(), Cause>
    ensures { Passes (causes.core_causes (core_form core.now)) result }
{
    check_from(core.from.as_slice())?;
    check_rest(core)
}

// The same of each core.
fn check_cores(cores: &[SelectCore]) -> Result<(), Cause>
    ensures { Passes (flat_map causes.core_causes (map core_form cores.now)) result }
{
    for core in cores {
        check_core(core)?;
    }
    Ok(())
}

/// Refuses a query by where its aggregates and columns stand, and by an ON that may fault: 42803 for an aggregate in WHERE or ON, and in a
/// query that groups for a column outside aggregates that is no key and for an aggregate in an aggregate; 0A000 for an ON with an operator
/// that may fault.
pub fn check_form(select: &Select) -> Result<(), Cause>
    ensures passes { Passes (causes.form_causes (form_of select.now)) result }
    // No ON of a query that passes may fault.
    ensures safe { OnOk result (are_safe_cores select.now.cores.items ≡ true) }
{
    check_cores(select.cores.as_slice())
}
