//! What is kept of the leaves of a class while its rows come and go.
ghost use Rattle.std.specs.Prelude.{◌≡◌, ◌≤◌, ◌*◌, ◌^◌, ◌==◌, ℕ, suc, if◌then◌else◌};
ghost use Rattle.std.specs.Prelude.{◌++◌, ◌∷◌, [], IfOk, List, map, length, All};
ghost use Rattle.med_value.specs.Datum.{cell, datum, tuple, Datum, NoValue, Whole, Tuple};
ghost use Rattle.tri_expr.specs.declared.expr.SetFunction.TheVariants.{Sum};
ghost use Rattle.tri_expr.specs.Prelude.{whole_of, meaning, shared, value_of, better_of, finished, magnitude};
ghost use Rattle.query_answer.specs.Leaves.{leaf_beyond, leaf_value, leaf_values, number_beyond, number_within};
ghost use Rattle.query_answer.specs.Running.{AllRun, HasRoom, IsSmall, Runs, SharesSoFar, TalliesIn, TalliesSoFar, counted};

use crate::leaves::Leaf;
use crate::row_keys::is_same;
use med_value::order::{compare_values, is_missing};
use med_value::{NoMemory, Row, Value};
use std::alloc::Global;
use tri_expr::{EvalFault, Expr, SetFunction, eval};

/// The values of an aggregate's argument so far: how many there are, their exact total, and the best of them.
#[derive(Drop)]
pub(crate) struct Tally {
    pub count: u64,
    pub total: i128,
    pub best: Value,
}

/// What is kept of a leaf over the rows so far.
#[derive(Drop)]
pub(crate) enum Running {
    /// Of a column the value of the first row, and whether all rows have it.
    Shared(Option<Value>, bool),
    /// Of `count(*)` the number of rows.
    Counted(u64),
    /// Of an aggregate its values.
    Tallied(Tally),
}

// Nothing, of a leaf over no rows.
fn fresh(leaf: &Leaf) -> Running
    ensures { Runs leaf.now [] result }
{
    match leaf {
        Leaf::Column(_) => Running::Shared(None, true),
        Leaf::Rows => Running::Counted(0),
        _ => Running::Tallied(Tally {
            count: 0,
            total: 0,
            best: Value::Null,
        }),
    }
}

/// What is kept of these leaves over no rows. Refused only for want of memory.
pub(crate) fn all_fresh(alloc: Global, leaves: &[Leaf]) -> Result<Vec<Running>, NoMemory>
    ensures { IfOk result (λ all. AllRun leaves.now [] all.items) }
{
    let mut all = Vec::with_capacity(alloc, leaves.len())?;
    for leaf in leaves {
        all.push(fresh(leaf))?;
    }
    Ok(all)
}

// One more row of a column: the first one's value is kept, and the others are compared with it.
#[inline(always)]
fn share(
    alloc: Global,
    at: usize,
    row: &Row,
    first: &mut Option<Value>,
    same: &mut bool,
) -> Result<(), NoMemory>
    ensures { IfOk result (λ _. (c : List Tuple) → SharesSoFar at c first.old same.old
        → SharesSoFar at (c ++ tuple row.now ∷ []) first.new same.new) }
{
    let missing = Value::Null;
    let value = match row.cells.get(at) {
        Some(value) => value,
        None => &missing,
    };
    match first {
        None => *first = Some(value.copy(alloc)?),
        Some(kept) => *same = *same && is_same(value, kept),
    }
    Ok(())
}

// Whether MIN or MAX holds this value in the place of its best one; the others hold none.
fn is_better(function: SetFunction, value: &Value, best: &Value) -> bool
    ensures { (if result then datum value.now else datum best.now) ≡ better_of function (datum best.now) (datum value.now) }
{
    if is_missing(value) {
        return false;
    }
    match function {
        SetFunction::Min => is_missing(best) || compare_values(value, best).is_lt(),
        SetFunction::Max => is_missing(best) || compare_values(best, value).is_lt(),
        SetFunction::Count => false,
        SetFunction::Sum => false,
    }
}

// The number that a value adds to a total; 0 for a value that is no number.
fn whole(value: &Value) -> i128
    ensures is { result ≡ whole_of (datum value.now) }
    ensures small { magnitude result ≤ 2 ^ 63 }
{
    match value {
        Value::Int(n) => *n as i128,
        _ => 0,
    }
}

// One more value of an aggregate; NULL is skipped. Refused only for want of memory.
fn add_value(
    alloc: Global,
    function: SetFunction,
    value: &Value,
    tally: &mut Tally,
) -> Result<(), NoMemory>
    requires few { suc tally.old.count ≤ 2 ^ 62 }
    requires small { magnitude tally.old.total ≤ tally.old.count * 2 ^ 63 }
    ensures { IfOk result (λ _. (vs : List Datum) → TalliesSoFar function vs tally.old
        → TalliesSoFar function (vs ++ datum value.now ∷ []) tally.new) }
{
    if is_missing(value) {
        return Ok(());
    }
    tally.count += 1;
    tally.total += whole(value);
    if is_better(function, value, &tally.best) {
        tally.best = value.copy(alloc)?;
    }
    Ok(())
}

// One more row of an aggregate of a column, which is read where it stands; NULL past the end.
fn tally_cell(
    alloc: Global,
    function: SetFunction,
    at: usize,
    row: &Row,
    tally: &mut Tally,
) -> Result<(), NoMemory>
    requires few { suc tally.old.count ≤ 2 ^ 62 }
    requires small { magnitude tally.old.total ≤ tally.old.count * 2 ^ 63 }
    ensures { IfOk result (λ _. (vs : List Datum) → TalliesSoFar function vs tally.old
        → TalliesSoFar function (vs ++ cell (tuple row.now) at ∷ []) tally.new) }
{
    match row.cells.get(at) {
        Some(value) => add_value(alloc, function, value, tally),
        None => add_value(alloc, function, &Value::Null, tally),
    }
}

// The value of an aggregate's argument on a row; a fault of it is told by itself, and counts as NULL here. Refused only for want of memory.
fn argument_value(alloc: Global, argument: &Expr, row: &Row) -> Result<Value, NoMemory>
    ensures { IfOk result (λ v. datum v ≡ value_of (meaning [] argument.now (tuple row.now ∷ []))) }
{
    match eval(alloc, argument, row, &[]) {
        Ok(value) => Ok(value),
        Err(EvalFault::NoMemory) => Err(NoMemory),
        Err(_) => Ok(Value::Null),
    }
}

// One more row of an aggregate.
#[inline(never)]
fn tally_row(
    alloc: Global,
    function: SetFunction,
    argument: &Expr,
    row: &Row,
    running: &mut Running,
) -> Result<(), NoMemory>
    requires room { HasRoom running.old }
    requires small { IsSmall running.old }
    ensures { IfOk result (λ _. (vs : List Datum) → TalliesIn function vs running.old
        → TalliesIn function (vs ++ value_of (meaning [] argument.now (tuple row.now ∷ [])) ∷ []) running.new) }
{
    if let Running::Tallied(so_far) = running {
        if let Expr::Column(at) = argument {
            return tally_cell(alloc, function, *at, row, so_far);
        }
        let value = argument_value(alloc, argument, row)?;
        return add_value(alloc, function, &value, so_far);
    }
    Ok(())
}

// One more value of SUM; NULL is skipped.
#[inline(always)]
fn add_number(value: &Value, tally: &mut Tally)
    requires few { suc tally.old.count ≤ 2 ^ 62 }
    requires small { magnitude tally.old.total ≤ tally.old.count * 2 ^ 63 }
    ensures { (vs : List Datum) → TalliesSoFar Sum vs tally.old → TalliesSoFar Sum (vs ++ datum value.now ∷ []) tally.new }
{
    if is_missing(value) {
        return;
    }
    let number = whole(value);
    tally.count += 1;
    tally.total += number;
}

// One more row of SUM of a column, which is read where it stands; NULL past the end.
#[inline(always)]
fn total_cell(at: usize, row: &Row, tally: &mut Tally)
    requires few { suc tally.old.count ≤ 2 ^ 62 }
    requires small { magnitude tally.old.total ≤ tally.old.count * 2 ^ 63 }
    ensures { (vs : List Datum) → TalliesSoFar Sum vs tally.old → TalliesSoFar Sum (vs ++ cell (tuple row.now) at ∷ []) tally.new }
{
    match row.cells.get(at) {
        Some(value) => add_number(value, tally),
        None => add_number(&Value::Null, tally),
    }
}

// One more row of SUM.
#[inline(always)]
fn total_row(
    alloc: Global,
    argument: &Expr,
    row: &Row,
    running: &mut Running,
) -> Result<(), NoMemory>
    requires room { HasRoom running.old }
    requires small { IsSmall running.old }
    ensures { IfOk result (λ _. (vs : List Datum) → TalliesIn Sum vs running.old
        → TalliesIn Sum (vs ++ value_of (meaning [] argument.now (tuple row.now ∷ [])) ∷ []) running.new) }
{
    if let Running::Tallied(so_far) = running {
        match argument {
            Expr::Column(at) => total_cell(*at, row, so_far),
            _ => add_number(&argument_value(alloc, argument, row)?, so_far),
        }
    }
    Ok(())
}

// One more row of a leaf.
#[inline(always)]
fn add(alloc: Global, leaf: &Leaf, row: &Row, running: &mut Running) -> Result<(), NoMemory>
    requires room { HasRoom running.old }
    requires small { IsSmall running.old }
    ensures { IfOk result (λ _. (c : List Tuple) → Runs leaf.now c running.old
        → Runs leaf.now (c ++ tuple row.now ∷ []) running.new) }
{
    match leaf {
        Leaf::Column(at) => {
            if let Running::Shared(first, same) = running {
                share(alloc, *at, row, first, same)?;
            }
        }
        Leaf::Rows => {
            if let Running::Counted(rows) = running {
                *rows += 1;
            }
        }
        Leaf::Aggregate(function, argument) => tally_row(alloc, *function, argument, row, running)?,
        Leaf::Total(argument) => total_row(alloc, argument, row, running)?,
    }
    Ok(())
}

/// One more row of a class. Refused only for want of memory.
#[inline(always)]
pub(crate) fn add_row(
    alloc: Global,
    leaves: &[Leaf],
    row: &Row,
    all: &mut Vec<Running>,
) -> Result<(), NoMemory>
    requires many { length leaves.now ≡ length all.old.items }
    requires room { All HasRoom all.old.items }
    requires small { All IsSmall all.old.items }
    ensures { IfOk result (λ _. (c : List Tuple) → AllRun leaves.now c all.old.items
        → AllRun leaves.now (c ++ tuple row.now ∷ []) all.new.items) }
{
    for at in 0..leaves.len() {
        add(alloc, &leaves[at], row, &mut all[at])?;
    }
    Ok(())
}

// SUM, as far as it is in range.
fn total_in_range(tally: &Tally) -> Value
    ensures { datum result ≡ (if tally.now.count == 0 then NoValue else Whole (number_within tally.now.total)) }
{
    if tally.count == 0 {
        return Value::Null;
    }
    match i64::try_from(tally.total) {
        Ok(n) => Value::Int(n),
        Err(_) => Value::Int(if tally.total < 0 { i64::MIN } else { i64::MAX }),
    }
}

// By how much SUM is out of range: 1, 0 or -1.
fn excess(sum: i128) -> Value
    ensures { datum result ≡ Whole (number_beyond sum) }
{
    match i64::try_from(sum) {
        Ok(_) => Value::Int(0),
        Err(_) => Value::Int(if sum < 0 { -1 } else { 1 }),
    }
}

// What an aggregate ends in; NULL where that is a fault. Refused only for want of memory.
fn aggregate_value(alloc: Global, function: SetFunction, tally: &Tally) -> Result<Value, NoMemory>
    requires { tally.now.count ≤ 2 ^ 62 }
    ensures { IfOk result (λ v. datum v ≡ value_of (finished function tally.now.count tally.now.total (datum tally.now.best))) }
{
    match function {
        SetFunction::Count => Ok(Value::Int(tally.count as i64)),
        SetFunction::Sum => match i64::try_from(tally.total) {
            Ok(n) if tally.count > 0 => Ok(Value::Int(n)),
            _ => Ok(Value::Null),
        },
        SetFunction::Min => tally.best.copy(alloc),
        SetFunction::Max => tally.best.copy(alloc),
    }
}

// The value of a column that all rows have; NULL where they differ, and where there is none.
fn shared_value(alloc: Global, first: &Option<Value>, same: bool) -> Result<Value, NoMemory>
    ensures { IfOk result (λ v. (at : ℕ) (c : List Tuple) → SharesSoFar at c first.now same → datum v ≡ shared at c) }
{
    match first {
        Some(value) if same => value.copy(alloc),
        _ => Ok(Value::Null),
    }
}

// The value of a leaf over the rows that came.
fn value(alloc: Global, leaf: &Leaf, running: &Running) -> Result<Value, NoMemory>
    requires { counted running.now ≤ 2 ^ 62 }
    ensures { IfOk result (λ v. (c : List Tuple) → Runs leaf.now c running.now → datum v ≡ leaf_value leaf.now c) }
{
    match (leaf, running) {
        (Leaf::Column(_), Running::Shared(first, same)) => shared_value(alloc, first, *same),
        (Leaf::Rows, Running::Counted(rows)) => Ok(Value::Int(*rows as i64)),
        (Leaf::Aggregate(function, _), Running::Tallied(tally)) => {
            aggregate_value(alloc, *function, tally)
        }
        (Leaf::Total(_), Running::Tallied(tally)) => Ok(total_in_range(tally)),
        _ => Ok(Value::Null),
    }
}

// What a leaf has beyond its value, over the rows that came.
fn beyond(leaf: &Leaf, running: &Running) -> Value
    ensures { (c : List Tuple) → Runs leaf.now c running.now → datum result ≡ leaf_beyond leaf.now c }
{
    match (leaf, running) {
        (Leaf::Total(_), Running::Tallied(tally)) => excess(tally.total),
        _ => Value::Null,
    }
}

// Appends what a leaf gives over the rows that came. Refused only for want of memory.
fn put_values(
    alloc: Global,
    leaf: &Leaf,
    running: &Running,
    out: &mut Vec<Value>,
) -> Result<(), NoMemory>
    requires { counted running.now ≤ 2 ^ 62 }
    ensures { IfOk result (λ _. (c : List Tuple) → Runs leaf.now c running.now
        → map datum out.new.items ≡ map datum out.old.items ++ leaf_value leaf.now c ∷ leaf_beyond leaf.now c ∷ []) }
{
    out.push(value(alloc, leaf, running)?)?;
    out.push(beyond(leaf, running))?;
    Ok(())
}

/// Puts what the leaves of a class give over the rows that came in the place of other values, whose room it takes. Refused only for want
/// of memory.
pub(crate) fn values(
    alloc: Global,
    leaves: &[Leaf],
    all: &[Running],
    out: &mut Vec<Value>,
) -> Result<(), NoMemory>
    requires many { length leaves.now ≡ length all.now }
    requires few { All (λ r. counted r ≤ 2 ^ 62) all.now }
    ensures { IfOk result (λ _. (c : List Tuple) → AllRun leaves.now c all.now → map datum out.new.items ≡ leaf_values leaves.now c) }
{
    out.clear();
    for at in 0..leaves.len() {
        put_values(alloc, &leaves[at], &all[at], out)?;
    }
    Ok(())
}
