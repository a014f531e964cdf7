//! Exact arithmetic on 64-bit whole numbers.

ghost use Rattle.med_value.specs.declared.operators.Operation.TheVariants.{Divide};
ghost use Rattle.tri_expr.specs.Outcome.{Outcome, computed, computed_numbers, computed_values, negated, negated_value};
ghost use Rattle.tri_expr.specs.View.{seen, Sees};

use crate::expr::Fault;
use crate::view::View;
use med_value::Operation;

// Exact arithmetic on two whole numbers: a result out of range and a divisor of zero are faults.
fn compute_numbers(op: Operation, a: i64, b: i64) -> Result<View<'static>, Fault>
    ensures { Sees result (computed_numbers op a b) }
{
    match op {
        Operation::Add => match a.checked_add(b) {
            Some(n) => Ok(View::Int(n)),
            None => Err(Fault::Range),
        },
        Operation::Subtract => match a.checked_sub(b) {
            Some(n) => Ok(View::Int(n)),
            None => Err(Fault::Range),
        },
        Operation::Multiply => match a.checked_mul(b) {
            Some(n) => Ok(View::Int(n)),
            None => Err(Fault::Range),
        },
        Operation::Divide => divide(a, b),
        Operation::Remainder => {
            if b == 0 {
                return Err(Fault::Zero);
            }
            match a.checked_rem(b) {
                Some(n) => Ok(View::Int(n)),
                // the least number and -1
                None => Ok(View::Int(0)),
            }
        }
    }
}

// The quotient, truncated towards zero: a divisor of zero and a quotient out of range are faults.
fn divide(a: i64, b: i64) -> Result<View<'static>, Fault>
    ensures { Sees result (computed_numbers Divide a b) }
{
    if b == 0 {
        return Err(Fault::Zero);
    }
    match a.checked_div(b) {
        Some(n) => Ok(View::Int(n)),
        None => Err(Fault::Range),
    }
}

// with NULL on either side NULL
fn compute_values(op: Operation, a: View<'_>, b: View<'_>) -> Result<View<'static>, Fault>
    ensures { Sees result (computed_values op (seen a.entry) (seen b.entry)) }
{
    match (a, b) {
        (View::Int(m), View::Int(n)) => compute_numbers(op, m, n),
        _ => Ok(View::Null),
    }
}

/// `+ - * / %`; with NULL on either side NULL, and of two faults the left one is told.
pub fn compute(
    op: Operation,
    left: Result<View<'_>, Fault>,
    right: Result<View<'_>, Fault>,
) -> Result<View<'static>, Fault>
    ensures { (a b : Outcome) → Sees left.entry a → Sees right.entry b → Sees result (computed op a b) }
{
    match left {
        Ok(v) => match right {
            Ok(w) => compute_values(op, v, w),
            Err(fault) => Err(fault),
        },
        Err(fault) => Err(fault),
    }
}

// NULL stays
fn negate_value(a: View<'_>) -> Result<View<'static>, Fault>
    ensures { Sees result (negated_value (seen a.entry)) }
{
    match a {
        View::Int(n) => match n.checked_neg() {
            Some(n) => Ok(View::Int(n)),
            None => Err(Fault::Range),
        },
        _ => Ok(View::Null),
    }
}

/// Unary minus.
pub fn negate(answer: Result<View<'_>, Fault>) -> Result<View<'static>, Fault>
    ensures { (o : Outcome) → Sees answer.entry o → Sees result (negated o) }
{
    match answer {
        Ok(v) => negate_value(v),
        Err(fault) => Err(fault),
    }
}
