//! Comparisons, NOT, IS and BETWEEN on values.

ghost use Rattle.std.specs.Prelude.{◌≡◌, false, [], ◌∷◌};
ghost use Rattle.med_value.specs.declared.order.Comparison.TheVariants.{AtLeast, AtMost};
ghost use Rattle.tri_expr.specs.Outcome.{Outcome, Is, compared, compared_values, opposite_value, passes, settled, tested, turned, value_of};
ghost use Rattle.tri_expr.specs.View.{seen, Sees};

use crate::expr::Fault;
use crate::view::{View, compare_views};
use med_value::{Comparison, Status};

/// A comparison; with NULL on either side unknown.
pub fn compare(op: Comparison, a: View<'_>, b: View<'_>) -> View<'static>
    ensures { compared_values op (seen a.entry) (seen b.entry) ≡ Is (seen result) }
{
    match (a, b) {
        (View::Null, _) => View::Null,
        (_, View::Null) => View::Null,
        _ => {
            let order = compare_views(a, b);
            View::Bool(op.holds(order))
        }
    }
}

/// A comparison of two operands; of two faults the left one is told.
pub fn compare_both(
    op: Comparison,
    left: Result<View<'_>, Fault>,
    right: Result<View<'_>, Fault>,
) -> Result<View<'static>, Fault>
    ensures { (a b : Outcome) → Sees left.entry a → Sees right.entry b → Sees result (compared op a b) }
{
    match left {
        Ok(v) => match right {
            Ok(w) => Ok(compare(op, v, w)),
            Err(fault) => Err(fault),
        },
        Err(fault) => Err(fault),
    }
}

/// NOT; of unknown it is unknown.
pub fn opposite(a: View<'_>) -> View<'static>
    ensures { opposite_value (seen a.entry) ≡ Is (seen result) }
{
    match a {
        View::Bool(b) => View::Bool(!b),
        _ => View::Null,
    }
}

// Whether IS finds what it asks for.
fn does_pass(test: Status, a: View<'_>) -> bool
    ensures { result ≡ passes test (seen a.entry) }
{
    match test {
        Status::Null => matches!(a, View::Null),
        Status::Unknown => matches!(a, View::Null),
        Status::True => matches!(a, View::Bool(true)),
        Status::False => matches!(a, View::Bool(false)),
    }
}

/// IS and its test, or under NOT what it does not find.
pub fn ask(
    test: Status,
    negative: bool,
    answer: Result<View<'_>, Fault>,
) -> Result<View<'static>, Fault>
    ensures { (o : Outcome) → Sees answer.entry o → Sees result (tested test negative o) }
{
    match answer {
        Ok(v) => {
            let passed = does_pass(test, v);
            Ok(View::Bool(if negative { !passed } else { passed }))
        }
        Err(fault) => Err(fault),
    }
}

/// The answer itself, or its opposite.
pub fn turn<'a>(negative: bool, answer: Result<View<'a>, Fault>) -> Result<View<'a>, Fault>
    ensures { (o : Outcome) → Sees answer.entry o → Sees result (turned negative o) }
{
    match answer {
        Ok(v) => { if negative { Ok(opposite(v)) } else { Ok(v) } }
        Err(fault) => Err(fault),
    }
}

/// What BETWEEN makes of its value and its two bounds.
pub fn between(
    value: Result<View<'_>, Fault>,
    low: Result<View<'_>, Fault>,
    high: Result<View<'_>, Fault>,
) -> Result<View<'static>, Fault>
    ensures { (o a b : Outcome) → Sees value.entry o → Sees low.entry a → Sees high.entry b
        → Sees result (settled false (compared AtLeast o a ∷ compared AtMost o b ∷ [])) }
{
    let first = compare_both(Comparison::AtLeast, value, low);
    let second = compare_both(Comparison::AtMost, value, high);
    both(first, second)
}

// AND of two operands
fn both(
    first: Result<View<'static>, Fault>,
    second: Result<View<'static>, Fault>,
) -> Result<View<'static>, Fault>
    ensures { (a b : Outcome) → Sees first.entry a → Sees second.entry b → Sees result (settled false (a ∷ b ∷ [])) }
{
    match first {
        Ok(View::Bool(true)) => match second {
            Ok(View::Bool(q)) => Ok(View::Bool(q)),
            Ok(_) => Ok(View::Null),
            Err(fault) => Err(fault),
        },
        Ok(View::Bool(false)) => Ok(View::Bool(false)),
        Ok(_) => match second {
            Ok(View::Bool(false)) => Ok(View::Bool(false)),
            Ok(_) => Ok(View::Null),
            Err(fault) => Err(fault),
        },
        Err(fault) => match second {
            Ok(View::Bool(false)) => Ok(View::Bool(false)),
            _ => Err(fault),
        },
    }
}

/// What an aggregate sees of its argument on a row: a fault counts as NULL there, and is told by itself.
pub fn argument<'a>(answer: Result<View<'a>, Fault>) -> View<'a>
    ensures { (o : Outcome) → Sees answer.entry o → seen result ≡ value_of o }
{
    match answer {
        Ok(v) => v,
        Err(_) => View::Null,
    }
}
