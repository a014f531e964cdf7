//! The leaves of an expression over a class of rows: what it looks at in the rows, which can be kept while rows come and go.
ghost use Rattle.std.specs.Prelude.{◌≡◌, ◌<◌, ◌+◌, ◌^◌, ◌++◌, ◌∷◌, [], IfOk, List};
ghost use Rattle.med_value.specs.Datum.{Tuple, cell};
ghost use Rattle.tri_expr.specs.Prelude.{aggregated, Is, meaning};
ghost use Rattle.tri_expr.specs.declared.expr.SetFunction.TheVariants.{Sum};
ghost use Rattle.query_answer.specs.declared.leaves.Leaf.{Leaf};
ghost use Rattle.query_answer.specs.Leaves.{argument_values, leaf_beyond, leaf_value, leaf_values, AllLift, AreMore, Lifts};

use med_value::{NoMemory, Operation, Value};
use std::alloc::Global;
use tri_expr::{Expr, SetFunction};

/// What an expression over a class looks at in its rows.
#[derive(Drop)]
pub(crate) enum Leaf {
    /// A column outside aggregates.
    Column(usize),
    /// `count(*)`.
    Rows,
    /// `count`, `min` or `max` of an argument.
    Aggregate(SetFunction, Expr),
    /// `sum` of an argument, in two numbers: the last one that is in range where it is out of range; and 0, or where it is out of range 1
    /// or -1, which added to the first is out of range too.
    Total(Expr),
}

// One more leaf: at which place its value stands among what all give.
fn put_leaf(leaf: Leaf, leaves: &mut Vec<Leaf>) -> Result<usize, NoMemory>
    ensures more { IfOk result (λ _. leaves.new.items ≡ leaves.old.items ++ leaf ∷ []) }
    ensures value { IfOk result (λ at. (more : List Leaf) (c : List Tuple)
        → cell (leaf_values (leaves.new.items ++ more) c) at ≡ leaf_value leaf c) }
    ensures beyond { IfOk result (λ at. (more : List Leaf) (c : List Tuple)
        → cell (leaf_values (leaves.new.items ++ more) c) (at + 1) ≡ leaf_beyond leaf c) }
    ensures small { IfOk result (λ at. at + 1 < 2 ^ 64) }
{
    let at = 2 * leaves.len();
    leaves.push(leaf)?;
    Ok(at)
}

// The value of one more leaf, as a parameter.
fn one_leaf(leaf: Leaf, leaves: &mut Vec<Leaf>) -> Result<Expr, NoMemory>
    ensures more { IfOk result (λ _. leaves.new.items ≡ leaves.old.items ++ leaf ∷ []) }
    ensures value { IfOk result (λ e. (more : List Leaf) (c : List Tuple)
        → meaning (leaf_values (leaves.new.items ++ more) c) e [] ≡ Is (leaf_value leaf c)) }
{
    let at = put_leaf(leaf, leaves)?;
    Ok(Expr::Parameter(at))
}

// SUM of an argument: what its total has in range, and what it has beyond.
fn lifted_sum(alloc: Global, argument: &Expr, leaves: &mut Vec<Leaf>) -> Result<Expr, NoMemory>
    ensures more { IfOk result (λ _. AreMore leaves.old.items leaves.new.items) }
    ensures lifts { IfOk result (λ e. (more : List Leaf) (c : List Tuple)
        → meaning (leaf_values (leaves.new.items ++ more) c) e [] ≡ aggregated Sum (argument_values argument.now c)) }
{
    let at = put_leaf(Leaf::Total(argument.copy(alloc)?), leaves)?;
    let total = Box::new(alloc, Expr::Parameter(at))?;
    let excess = Box::new(alloc, Expr::Parameter(at + 1))?;
    Ok(Expr::Compute(Operation::Add, total, excess))
}

// An aggregate of an argument.
fn lifted_aggregate(
    alloc: Global,
    function: SetFunction,
    argument: &Expr,
    leaves: &mut Vec<Leaf>,
) -> Result<Expr, NoMemory>
    ensures more { IfOk result (λ _. AreMore leaves.old.items leaves.new.items) }
    ensures lifts { IfOk result (λ e. (more : List Leaf) (c : List Tuple)
        → meaning (leaf_values (leaves.new.items ++ more) c) e [] ≡ aggregated function (argument_values argument.now c)) }
{
    if function == SetFunction::Sum {
        return lifted_sum(alloc, argument, leaves);
    }
    one_leaf(Leaf::Aggregate(function, argument.copy(alloc)?), leaves)
}

// A part of an expression over the values of leaves, in a box.
#[cycle(lift)]
fn boxed(alloc: Global, e: &Expr, leaves: &mut Vec<Leaf>) -> Result<Box<Expr>, NoMemory>
    ensures more { IfOk result (λ _. AreMore leaves.old.items leaves.new.items) }
    ensures lifts { IfOk result (λ b. Lifts leaves.new.items e.now b.value) }
{
    let lifted = lifted(alloc, e, leaves)?;
    Ok(Box::new(alloc, lifted)?)
}

/// Expressions over the values of their leaves, which stand behind those that there were. Refused only for want of memory.
#[cycle(lift)]
pub(crate) fn all_lifted(
    alloc: Global,
    parts: &[Expr],
    leaves: &mut Vec<Leaf>,
) -> Result<Vec<Expr>, NoMemory>
    ensures more { IfOk result (λ _. AreMore leaves.old.items leaves.new.items) }
    ensures lift { IfOk result (λ es. AllLift leaves.new.items parts.now es.items) }
{
    let mut all = Vec::new(alloc);
    for part in parts {
        all.push(lifted(alloc, part, leaves)?)?;
    }
    Ok(all)
}

// An expression over the values of its leaves, which stand behind those that there were. Refused only for want of memory.
#[cycle(lift)]
fn lifted(alloc: Global, e: &Expr, leaves: &mut Vec<Leaf>) -> Result<Expr, NoMemory>
    ensures more { IfOk result (λ _. AreMore leaves.old.items leaves.new.items) }
    ensures lifts { IfOk result (λ lifted. Lifts leaves.new.items e.now lifted) }
{
    match e {
        Expr::Column(at) => one_leaf(Leaf::Column(*at), leaves),
        Expr::Parameter(_) => Ok(Expr::Literal(Value::Null)),
        Expr::Literal(v) => Ok(Expr::Literal(v.copy(alloc)?)),
        Expr::Compare(op, a, b) => {
            let a = boxed(alloc, a, leaves)?;
            let b = boxed(alloc, b, leaves)?;
            Ok(Expr::Compare(*op, a, b))
        }
        Expr::Compute(op, a, b) => {
            let a = boxed(alloc, a, leaves)?;
            let b = boxed(alloc, b, leaves)?;
            Ok(Expr::Compute(*op, a, b))
        }
        Expr::Negate(a) => Ok(Expr::Negate(boxed(alloc, a, leaves)?)),
        Expr::And(parts) => Ok(Expr::And(all_lifted(alloc, parts, leaves)?)),
        Expr::Or(parts) => Ok(Expr::Or(all_lifted(alloc, parts, leaves)?)),
        Expr::Not(a) => Ok(Expr::Not(boxed(alloc, a, leaves)?)),
        Expr::Is(test, negative, a) => Ok(Expr::Is(*test, *negative, boxed(alloc, a, leaves)?)),
        Expr::Between(negative, x, low, high) => {
            let x = boxed(alloc, x, leaves)?;
            let low = boxed(alloc, low, leaves)?;
            let high = boxed(alloc, high, leaves)?;
            Ok(Expr::Between(*negative, x, low, high))
        }
        Expr::In(negative, x, parts) => {
            let x = boxed(alloc, x, leaves)?;
            let parts = all_lifted(alloc, parts, leaves)?;
            Ok(Expr::In(*negative, x, parts))
        }
        Expr::Like(negative, x, pattern) => {
            let x = boxed(alloc, x, leaves)?;
            let pattern = pattern.as_str().to_string(alloc)?;
            Ok(Expr::Like(*negative, x, pattern))
        }
        Expr::Parenthesised(a) => Ok(Expr::Parenthesised(boxed(alloc, a, leaves)?)),
        Expr::CountRows => one_leaf(Leaf::Rows, leaves),
        Expr::Aggregate(function, a) => lifted_aggregate(alloc, *function, a, leaves),
    }
}
