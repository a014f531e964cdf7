//! Whether a row stands behind an output, by its order keys alone.
ghost use Rattle.std.specs.Prelude.{◌≡◌, ◌∷◌, [], IfSome, List, false, map, not, true};
ghost use Rattle.std.specs.List.{list_all};
ghost use Rattle.std.specs.Ordering.{is_lt};
ghost use Rattle.med_value.specs.Prelude.{datum, tuple, Tuple, key_cmp};
ghost use Rattle.tri_expr.specs.Prelude.{meaning, over, value_of, fault_list};
ghost use Rattle.tri_expr.specs.TreeParts.{is_risky as spec_is_risky};
ghost use Rattle.med_query.specs.Prelude.{direction_of, keys_cmp, on_row, senses};
ghost use Rattle.query_answer.specs.Staging.{HasNoFault};

use crate::ordering::compare_key;
use med_query::{SelectCore, SortDirection};
use med_value::{Row, Value};
use std::alloc::Global;
use std::cmp::Ordering;
use tri_expr::law::safe_expression_has_value;
use tri_expr::{Expr, eval, is_risky};

// Whether none of these expressions is risky.
fn is_none_risky(parts: &[Expr]) -> bool
    ensures { result ≡ list_all (λ e. not (spec_is_risky e)) parts.now }
{
    match parts.split_first() {
        None => true,
        Some((part, later)) => !is_risky(part) && is_none_risky(later),
    }
}

// Whether none of these expressions may have a fault.
fn are_safe(parts: &[Expr]) -> bool
    ensures { (result ≡ true) → (class : List Tuple) → fault_list (over (senses [] parts.now) class) ≡ [] }
{
    safe_expression_has_value();
    is_none_risky(parts)
}

/// Whether no order key and no item of a core may have a fault.
pub(crate) fn is_safe(core: &SelectCore) -> bool
    ensures { (result ≡ true) → HasNoFault core.now }
{
    are_safe(core.keys.as_slice()) && are_safe(core.items.as_slice())
}

// The order of a row's key and a value. None is told where the key has a fault, or memory was refused.
fn compare_row(
    alloc: Global,
    direction: &SortDirection,
    key: &Expr,
    row: &Row,
    value: &Value,
) -> Option<Ordering>
    ensures { IfSome result (λ order. order ≡ key_cmp direction.now.descending direction.now.nulls_first
        (value_of (meaning [] key.now (tuple row.now ∷ []))) (datum value.now)) }
{
    if let Expr::Column(at) = key {
        return match row.cells.get(*at) {
            Some(own) => Some(compare_key(direction, own, value)),
            None => Some(compare_key(direction, &Value::Null, value)),
        };
    }
    match eval(alloc, key, row, &[]) {
        Ok(own) => Some(compare_key(direction, &own, value)),
        Err(_) => None,
    }
}

/// Whether a row does not come before an output of these keys. Not where a key that tells them apart has a fault, or memory was refused.
pub(crate) fn is_behind(
    alloc: Global,
    directions: &[SortDirection],
    keys: &[Expr],
    row: &Row,
    last: &[Value],
) -> bool
    ensures { (result ≡ true) → is_lt (keys_cmp (map direction_of directions.now)
        (map value_of (on_row (senses [] keys.now) (tuple row.now))) (map datum last.now)) ≡ false }
{
    let missing = Value::Null;
    match (directions.split_first(), keys.split_first()) {
        (None, _) => true,
        (Some(_), None) => false,
        (Some((direction, later)), Some((key, more))) => {
            let (value, rest) = match last.split_first() {
                Some((value, rest)) => (value, rest),
                None => (&missing, last),
            };
            match compare_row(alloc, direction, key, row, value) {
                Some(Ordering::Equal) => is_behind(alloc, later, more, row, rest),
                Some(Ordering::Greater) => true,
                _ => false,
            }
        }
    }
}
