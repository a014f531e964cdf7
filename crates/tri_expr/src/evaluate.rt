//! The value of an expression.

ghost use Rattle.std.specs.Prelude.{◌≡◌, length, pos, map, slice_index_or, [], ◌∷◌, false, true};
ghost use Rattle.std.specs.List.{list_all};
ghost use Rattle.med_value.specs.Datum.{datum, tuple, NoValue, Whole};
ghost use Rattle.tri_expr.specs.Outcome.{Answers, Outcome, Is, settled, strict, compared, over};
ghost use Rattle.tri_expr.specs.View.{seen, Sees};
ghost use Rattle.tri_expr.specs.Aggregate.{aggregated};
ghost use Rattle.tri_expr.specs.Meaning.{liked, meaning, parts_mean};
ghost use Rattle.tri_expr.specs.Meaning.{shared as spec_shared, has_cell as spec_has_cell, argument as spec_argument};
ghost use Rattle.med_value.specs.declared.order.Comparison.TheVariants.{Equal};

use crate::arithmetic::{compute, negate};
use crate::expr::{EvalFault, Expr, Fault, SetFunction};
use crate::like::is_like;
use crate::logic::{argument, ask, between, compare, compare_both, turn};
use crate::tally::Tally;
use crate::view::{View, compare_views, owned, view_of};
use med_value::{Comparison, Row, Value};
use std::alloc::Global;
use std::slice;

// NULL past the end
fn cell(cells: &[Value], at: usize) -> View<'_>
    ensures { seen result ≡ slice_index_or (map datum cells.now) at NoValue }
{
    match cells.get(at) {
        Some(v) => view_of(v),
        None => View::Null,
    }
}

// Whether a row has this value at a place, NULL being equal to NULL.
fn has_cell(row: &Row, at: usize, v: View<'_>) -> bool
    ensures { result ≡ spec_has_cell at (seen v.entry) (tuple row.now) }
{
    compare_views(cell(&row.cells, at), v).is_eq()
}

// Whether all rows have this value at a place.
fn all_have(rows: &[Row], at: usize, v: View<'_>) -> bool
    ensures { result ≡ list_all (spec_has_cell at (seen v.entry)) (map tuple rows.now) }
{
    for row in rows {
        if !has_cell(row, at, v) {
            return false;
        }
    }
    true
}

// The value that the first row and the rest have at a place; NULL where they differ.
fn shared_of<'a>(first: &'a Row, rest: &[Row], at: usize) -> View<'a>
    ensures { seen result ≡ spec_shared at (tuple first.now ∷ map tuple rest.now) }
{
    let v = cell(&first.cells, at);
    if all_have(rest, at, v) { v } else { View::Null }
}

// The value that all rows have at a place; NULL where they differ.
fn shared(class: &[Row], at: usize) -> View<'_>
    ensures { seen result ≡ spec_shared at (map tuple class.now) }
{
    match class.split_first() {
        None => View::Null,
        Some((first, rest)) => shared_of(first, rest, at),
    }
}

// LIKE of an operand, whose fault stays: NULL is unknown.
fn like(pattern: &str, answer: Result<View<'_>, Fault>) -> Result<View<'static>, Fault>
    ensures { (o : Outcome) → Sees answer.entry o → Sees result (strict (liked pattern.now) o) }
{
    match answer {
        Ok(View::Text(text)) => Ok(View::Bool(is_like(pattern, text))),
        Ok(_) => Ok(View::Null),
        Err(fault) => Err(fault),
    }
}

fn count_rows(class: &[Row]) -> View<'static>
    ensures { seen result ≡ Whole (pos (length class.now)) }
{
    View::Int(class.len() as i64)
}

// An aggregate of the argument over each row of the class.
#[cycle(look)]
fn look_aggregate<'a>(
    function: SetFunction,
    e: &'a Expr,
    class: &'a [Row],
    params: &'a [Value],
) -> Result<View<'a>, Fault>
    ensures { Sees result (aggregated function (spec_argument (meaning (map datum params.now) e.now) (map tuple class.now))) }
{
    let mut tally = Tally::new(function);
    for row in class {
        let v = argument(look(e, slice::from_ref(row), params));
        tally.add(v);
    }
    tally.finish()
}

// `v IN (parts)`; stops at the first part that is equal.
#[cycle(look)]
fn look_in<'a>(
    v: View<'_>,
    parts: &'a [Expr],
    class: &'a [Row],
    params: &'a [Value],
) -> Result<View<'a>, Fault>
    ensures { Sees result (settled true (map (compared Equal (Is (seen v.entry)))
        (over (parts_mean (map datum params.now) parts.now) (map tuple class.now)))) }
{
    let mut told: Option<Fault> = None;
    let mut all = true;
    for part in parts {
        match look(part, class, params) {
            Ok(w) => match compare(Comparison::Equal, v, w) {
                View::Bool(true) => return Ok(View::Bool(true)),
                View::Bool(false) => {}
                _ => all = false,
            },
            Err(fault) => {
                if told.is_none() {
                    told = Some(fault);
                }
            }
        }
    }
    match told {
        Some(fault) => Err(fault),
        None => {
            if all {
                Ok(View::Bool(false))
            } else {
                Ok(View::Null)
            }
        }
    }
}

// AND (`by` false) or OR (`by` true) of the parts; stops at the first part that decides.
#[cycle(look)]
fn look_chain<'a>(
    by: bool,
    parts: &'a [Expr],
    class: &'a [Row],
    params: &'a [Value],
) -> Result<View<'a>, Fault>
    ensures { Sees result (settled by (over (parts_mean (map datum params.now) parts.now) (map tuple class.now))) }
{
    let mut told: Option<Fault> = None;
    let mut all = true;
    for part in parts {
        match look(part, class, params) {
            Ok(View::Bool(b)) => {
                if b == by {
                    return Ok(View::Bool(by));
                }
            }
            Ok(_) => all = false,
            Err(fault) => {
                if told.is_none() {
                    told = Some(fault);
                }
            }
        }
    }
    match told {
        Some(fault) => Err(fault),
        None => {
            if all {
                Ok(View::Bool(!by))
            } else {
                Ok(View::Null)
            }
        }
    }
}

/// The value of an expression over a class of rows, its text left where it is.
///
/// A leaf, which most parts of an expression are, is looked at here at once: what `look_parts` keeps of a form's parts takes time to
/// set up on each row.
#[cycle(look)]
pub(crate) fn look<'a>(
    e: &'a Expr,
    class: &'a [Row],
    params: &'a [Value],
) -> Result<View<'a>, Fault>
    ensures { Sees result (meaning (map datum params.now) e.now (map tuple class.now)) }
{
    match e {
        Expr::Column(at) => Ok(shared(class, *at)),
        Expr::Parameter(at) => Ok(cell(params, *at)),
        Expr::Literal(v) => Ok(view_of(v)),
        _ => look_parts(e, class, params),
    }
}

// The value of an expression from those of its parts.
#[cycle(look)]
fn look_parts<'a>(e: &'a Expr, class: &'a [Row], params: &'a [Value]) -> Result<View<'a>, Fault>
    ensures { Sees result (meaning (map datum params.now) e.now (map tuple class.now)) }
{
    match e {
        Expr::Column(at) => Ok(shared(class, *at)),
        Expr::Parameter(at) => Ok(cell(params, *at)),
        Expr::Literal(v) => Ok(view_of(v)),
        Expr::Compare(op, a, b) => {
            let left = look(a, class, params);
            let right = look(b, class, params);
            compare_both(*op, left, right)
        }
        Expr::Compute(op, a, b) => {
            let left = look(a, class, params);
            let right = look(b, class, params);
            compute(*op, left, right)
        }
        Expr::Negate(a) => negate(look(a, class, params)),
        Expr::And(parts) => look_chain(false, parts, class, params),
        Expr::Or(parts) => look_chain(true, parts, class, params),
        Expr::Not(a) => turn(true, look(a, class, params)),
        Expr::Is(test, negative, a) => ask(*test, *negative, look(a, class, params)),
        Expr::Between(negative, x, low, high) => {
            let v = look(x, class, params);
            let least = look(low, class, params);
            let most = look(high, class, params);
            turn(*negative, between(v, least, most))
        }
        Expr::In(negative, x, parts) => match look(x, class, params) {
            Ok(v) => turn(*negative, look_in(v, parts, class, params)),
            Err(fault) => Err(fault),
        },
        Expr::Like(negative, x, pattern) => {
            let v = look(x, class, params);
            turn(*negative, like(pattern.as_str(), v))
        }
        Expr::Parenthesised(a) => look(a, class, params),
        Expr::CountRows => Ok(count_rows(class)),
        Expr::Aggregate(function, a) => look_aggregate(*function, a, class, params),
    }
}

/// The value of an expression over a class of rows: what `eval` is over one row. Aggregates go over the rows of the
/// class; a column outside them is the value that all rows share. Refused as `eval` is.
pub fn eval_class(
    alloc: Global,
    e: &Expr,
    class: &[Row],
    params: &[Value],
) -> Result<Value, EvalFault>
    ensures { Answers result (meaning (map datum params.now) e.now (map tuple class.now)) }
{
    match look(e, class, params) {
        Ok(v) => match owned(alloc, v) {
            Ok(value) => Ok(value),
            Err(_) => Err(EvalFault::NoMemory),
        },
        Err(Fault::Range) => Err(EvalFault::OutOfRange),
        Err(Fault::Zero) => Err(EvalFault::ZeroDivisor),
    }
}

/// The value of an expression over a row (SQL standard, 6.28 <value expression>).
///
/// A false operand of AND and a true operand of OR decide, whatever faults stand beside them. Otherwise a fault of an
/// operand, `OutOfRange` or `ZeroDivisor`, is the fault of the expression, of two the left one. `NoMemory` may stand in
/// the place of a text alone, for its copy: a text that is only compared is not copied.
pub fn eval(alloc: Global, e: &Expr, row: &Row, params: &[Value]) -> Result<Value, EvalFault>
    ensures { Answers result (meaning (map datum params.now) e.now (tuple row.now ∷ [])) }
{
    eval_class(alloc, e, slice::from_ref(row), params)
}
