//! Expressions with their names resolved.
#![tactic(auto, using(
// a cause of a part is one of the whole
bind_names::proofs::Causes::tells_left, bind_names::proofs::Causes::tells_right,
// refused memory, and one cause alone
bind_names::proofs::Causes::tells_memory, bind_names::proofs::Causes::tells_one,
// no cause in either part
bind_names::proofs::Causes::none_of_two))]

ghost use Rattle.bind_names.specs.Prelude.{joined, aggregate_of, scope_of, Means};
ghost use Rattle.bind_query.specs.Resolving.{Resolves, ResolvesBy, ResolvesAll, ResolvesBehind};
ghost use Rattle.med_syntax.specs.ExprTree as w;
ghost use Rattle.med_syntax.specs.ExprView.{expr_tree, expr_trees};
ghost use Rattle.med_value.specs.Datum.{NoValue};
ghost use Rattle.std.specs.Prelude.{◌≡◌, [], map, bytes_eq, codes, if◌then◌else◌, Some};
ghost use Rattle.tri_expr.specs.Tree.{tree, trees, literal, count_rows};

use crate::numbers::{negative, number};
use bind_names::{Visible, find_column, function_named};
use med_syntax::{Expr as Written, Joint};
use med_value::{Cause, Comparison, Operation, Value};
use std::alloc::Global;
use tri_expr::{Expr, SetFunction};

// The parts with AND or OR between them.
fn chain(joint: Joint, parts: Vec<Expr>) -> Expr
    ensures { tree result ≡ joined joint (trees (map tree parts.items)) }
{
    match joint {
        Joint::And => Expr::And(parts),
        Joint::Or => Expr::Or(parts),
    }
}

// `count(*)`.
fn count_of_rows(name: &str) -> Expr
    ensures { tree result ≡ (if bytes_eq name.now (codes "count") then count_rows else literal NoValue) }
{
    if name == "count" {
        Expr::CountRows
    } else {
        Expr::Literal(Value::Null)
    }
}

// What stands for a call that is refused.
fn nothing() -> Expr
    ensures { tree result ≡ literal NoValue }
{
    Expr::Literal(Value::Null)
}

// A call of a function.
fn applied(alloc: Global, function: SetFunction, mut arguments: Vec<Expr>) -> Result<Expr, Cause>
    ensures { Means tree [] (aggregate_of (Some function) (trees (map tree arguments.items))) result }
{
    let count = arguments.as_slice().len();
    if count != 1 {
        return Ok(nothing());
    }
    match arguments.pop() {
        Some(argument) => Ok(Expr::Aggregate(function, Box::new(alloc, argument)?)),
        None => Ok(nothing()),
    }
}

// A call.
fn aggregate(
    alloc: Global,
    function: Option<SetFunction>,
    arguments: Vec<Expr>,
) -> Result<Expr, Cause>
    ensures { Means tree [] (aggregate_of function (trees (map tree arguments.items))) result }
{
    match function {
        Some(function) => applied(alloc, function, arguments),
        None => Ok(nothing()),
    }
}

// The expression with its names resolved, in a box.
#[cycle(resolve)]
fn boxed(alloc: Global, scope: &[Visible<'_>], e: &Written) -> Result<Box<Expr>, Cause>
    ensures { ResolvesBy (λ b. tree b.value) (scope_of scope.now) (expr_tree e.now) result }
{
    let resolved = resolve(alloc, scope, e)?;
    Ok(Box::new(alloc, resolved)?)
}

// Each of them, resolved.
#[cycle(resolve)]
fn arguments(alloc: Global, scope: &[Visible<'_>], written: &[Written]) -> Result<Vec<Expr>, Cause>
    ensures { ResolvesAll (scope_of scope.now) (expr_trees written.now) result }
{
    let mut parts = Vec::new(alloc);
    for e in written {
        let part = resolve(alloc, scope, e)?;
        parts.push(part)?;
    }
    Ok(parts)
}

// A list that begins with this expression and goes on with the others, resolved.
#[cycle(resolve)]
fn listed(
    alloc: Global,
    scope: &[Visible<'_>],
    first: Expr,
    others: &[Written],
) -> Result<Vec<Expr>, Cause>
    ensures { ResolvesBehind (tree first) (scope_of scope.now) (expr_trees others.now) result }
{
    let mut parts = Vec::new(alloc);
    parts.push(first)?;
    for other in others {
        let part = resolve(alloc, scope, other)?;
        parts.push(part)?;
    }
    Ok(parts)
}

// A comparison of the two, resolved.
#[cycle(resolve)]
fn compared(
    alloc: Global,
    scope: &[Visible<'_>],
    op: Comparison,
    a: &Written,
    b: &Written,
) -> Result<Expr, Cause>
    ensures { Resolves (scope_of scope.now) (w.compare op (expr_tree a.now) (expr_tree b.now)) result }
{
    let a = boxed(alloc, scope, a)?;
    let b = boxed(alloc, scope, b)?;
    Ok(Expr::Compare(op, a, b))
}

// An operation on the two, resolved.
#[cycle(resolve)]
fn computed(
    alloc: Global,
    scope: &[Visible<'_>],
    op: Operation,
    a: &Written,
    b: &Written,
) -> Result<Expr, Cause>
    ensures { Resolves (scope_of scope.now) (w.binary op (expr_tree a.now) (expr_tree b.now)) result }
{
    let a = boxed(alloc, scope, a)?;
    let b = boxed(alloc, scope, b)?;
    Ok(Expr::Compute(op, a, b))
}

// A call of this name with its parts resolved.
#[cycle(resolve)]
fn called(
    alloc: Global,
    scope: &[Visible<'_>],
    name: &str,
    written: &[Written],
) -> Result<Expr, Cause>
    ensures { Resolves (scope_of scope.now) (w.call name.now (expr_trees written.now)) result }
{
    let parts = arguments(alloc, scope, written)?;
    aggregate(alloc, function_named(name), parts)
}

// BETWEEN, its operands resolved.
#[cycle(resolve)]
fn bounded(
    alloc: Global,
    scope: &[Visible<'_>],
    negated: bool,
    e: &Written,
    low: &Written,
    high: &Written,
) -> Result<Expr, Cause>
    ensures { Resolves (scope_of scope.now) (w.between negated (expr_tree e.now) (expr_tree low.now) (expr_tree high.now)) result }
{
    let e = boxed(alloc, scope, e)?;
    let low = boxed(alloc, scope, low)?;
    let high = boxed(alloc, scope, high)?;
    Ok(Expr::Between(negated, e, low, high))
}

// IN, its operands resolved.
#[cycle(resolve)]
fn contained(
    alloc: Global,
    scope: &[Visible<'_>],
    negated: bool,
    e: &Written,
    first: &Written,
    others: &[Written],
) -> Result<Expr, Cause>
    ensures { Resolves (scope_of scope.now) (w.among negated (expr_tree e.now) (expr_tree first.now) (expr_trees others.now)) result }
{
    let e = boxed(alloc, scope, e)?;
    let first = resolve(alloc, scope, first)?;
    let parts = listed(alloc, scope, first, others)?;
    Ok(Expr::In(negated, e, parts))
}

// AND or OR, its operands resolved.
#[cycle(resolve)]
fn chained(
    alloc: Global,
    scope: &[Visible<'_>],
    joint: Joint,
    first: &Written,
    others: &[Written],
) -> Result<Expr, Cause>
    ensures { Resolves (scope_of scope.now) (w.chain joint (expr_tree first.now) (expr_trees others.now)) result }
{
    let first = resolve(alloc, scope, first)?;
    let parts = listed(alloc, scope, first, others)?;
    Ok(chain(joint, parts))
}

/// The expression with its names resolved, or why a name in it is refused.
#[cycle(resolve)]
pub fn resolve(alloc: Global, scope: &[Visible<'_>], e: &Written) -> Result<Expr, Cause>
    ensures { Resolves (scope_of scope.now) (expr_tree e.now) result }
{
    match e {
        Written::Number(n) => Ok(Expr::Literal(Value::Int(number(*n)))),
        Written::Negative(n) => Ok(Expr::Literal(Value::Int(negative(*n)))),
        Written::Text(text) => Ok(Expr::Literal(Value::Text(text.as_str().to_string(alloc)?))),
        Written::Truth(b) => Ok(Expr::Literal(Value::Bool(*b))),
        Written::Null => Ok(Expr::Literal(Value::Null)),
        Written::Column(qualifier, name) => {
            Ok(Expr::Column(find_column(scope, qualifier, name)?))
        }
        Written::CallAll(name) => Ok(count_of_rows(name.as_str())),
        Written::Call(name, arguments) => called(alloc, scope, name.as_str(), arguments),
        Written::Paren(e) => Ok(Expr::Parenthesised(boxed(alloc, scope, e)?)),
        Written::Minus(e) => Ok(Expr::Negate(boxed(alloc, scope, e)?)),
        Written::Binary(op, a, b) => computed(alloc, scope, *op, a, b),
        Written::Between(negated, e, low, high) => bounded(alloc, scope, *negated, e, low, high),
        Written::In(negated, e, first, others) => {
            contained(alloc, scope, *negated, e, first, others)
        }
        Written::Like(negated, e, pattern) => {
            let e = boxed(alloc, scope, e)?;
            let pattern = pattern.as_str().to_string(alloc)?;
            Ok(Expr::Like(*negated, e, pattern))
        }
        Written::Compare(op, a, b) => compared(alloc, scope, *op, a, b),
        Written::Is(negated, e, status) => {
            Ok(Expr::Is(*status, *negated, boxed(alloc, scope, e)?))
        }
        Written::Not(e) => Ok(Expr::Not(boxed(alloc, scope, e)?)),
        Written::Chain(joint, first, others) => chained(alloc, scope, *joint, first, others),
    }
}
