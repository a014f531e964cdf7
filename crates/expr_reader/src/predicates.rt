//! Comparisons, BETWEEN, IN and LIKE.

ghost use Rattle.std.specs.Prelude.{◌≡◌, ◌≤◌, ◌<◌, ◌-◌, max};
ghost use Rattle.med_syntax.specs.ExprTree.{between as spec_between, compare, height as spec_height};
ghost use Rattle.med_syntax.specs.ExprReading as reading;
ghost use Rattle.med_syntax.specs.ExprView.{expr_tree};
ghost use Rattle.med_syntax.specs.SymbolView.{terminals_of};
ghost use Rattle.expr_reader.specs.ReaderAnswers.{Answers};

use crate::arithmetic::{boxed_sum, chain};
use crate::build::{between, comparison, likeness, membership};
use crate::conditions::{boxed_whole, others};
use crate::found::{Boxed, FoundExpr, within};
use med_syntax::refusal::{ReadFault, Refusal};
use med_syntax::symbols::{Level, Separator, Symbol, Symbols};
use med_syntax::{Expr, Joint};
use med_value::Comparison;
use std::alloc::Global;

// An operand of a comparison, perhaps compared with another.
#[cycle(reader)]
#[tactic(auto, unfolding(med_syntax::specs::ExprReading::compare_of))]
pub(crate) fn compared(
    alloc: Global,
    room: u32,
    symbols: Symbols<'_>,
) -> Result<FoundExpr<'_>, ReadFault>
    requires some { 1 ≤ room }
    requires few { room < 1000 }
    ensures { Answers room result (reading.compare_of (reading.below (room - 1)) room (terminals_of symbols.now)) }
{
    let left = ranged(alloc, room, symbols)?;
    match left.rest {
        [Symbol::Compare(op), after @ ..] => {
            let left_expr = Box::new(alloc, left.expr)?;
            let right = ranged(alloc, room, after)?;
            comparison_made(alloc, room, *op, left_expr, left.height, right)
        }
        _ => Ok(left),
    }
}

/// The comparison of the two, if it has room.
fn comparison_made(
    alloc: Global,
    room: u32,
    op: Comparison,
    left: Box<Expr>,
    left_height: u32,
    right: FoundExpr<'_>,
) -> Result<FoundExpr<'_>, ReadFault>
    requires few { room < 1000 }
    requires height { left_height ≡ spec_height (expr_tree left.value) }
    requires right_height { right.height ≡ spec_height (expr_tree right.expr) }
    requires low { (left_height ≤ room) × (right.height ≤ room) }
    ensures { Answers room result
        (reading.within room (compare op (expr_tree left.value) (expr_tree right.entry.expr)) (terminals_of right.entry.rest.now)) }
{
    let height = 1 + left_height.max(right.height);
    within(
        room,
        comparison(alloc, op, left, right.expr)?,
        height,
        right.rest,
    )
}

// A sum, perhaps NOT, BETWEEN, IN or LIKE what follows.
#[cycle(reader)]
#[tactic(auto, unfolding(med_syntax::specs::ExprReading::range_of))]
fn ranged(alloc: Global, room: u32, symbols: Symbols<'_>) -> Result<FoundExpr<'_>, ReadFault>
    requires some { 1 ≤ room }
    requires few { room < 1000 }
    ensures { Answers room result (reading.range_of (reading.below (room - 1)) room (terminals_of symbols.now)) }
{
    let value = chain(alloc, Level::Sum, room, symbols)?;
    match value.rest {
        [Symbol::Not, after @ ..] => in_range(
            alloc,
            room,
            true,
            Box::new(alloc, value.expr)?,
            value.height,
            after,
        ),
        [Symbol::Between | Symbol::In | Symbol::Like, ..] => in_range(
            alloc,
            room,
            false,
            Box::new(alloc, value.expr)?,
            value.height,
            value.rest,
        ),
        _ => Ok(value),
    }
}

/// The value, perhaps NOT, BETWEEN, IN or LIKE what follows.
#[cycle(reader)]
#[tactic(auto, using(crate::proofs::ExprLoops::chained_many, crate::proofs::ExprLoops::whole_some, crate::proofs::ExprLoops::negated_some, crate::proofs::ExprLoops::signed_some, crate::proofs::ExprLoops::whole_none, crate::proofs::ExprLoops::negated_none, crate::proofs::ExprLoops::signed_none), unfolding(med_syntax::specs::ExprReading::left_of, med_syntax::specs::ExprReading::chain_of, med_syntax::specs::ExprReading::range_of, med_syntax::specs::ExprReading::compare_of, med_syntax::specs::ExprReading::is_of))]
fn in_range(
    alloc: Global,
    room: u32,
    negated: bool,
    value: Box<Expr>,
    value_height: u32,
    symbols: Symbols<'_>,
) -> Result<FoundExpr<'_>, ReadFault>
    requires some { 1 ≤ room }
    requires few { room < 1000 }
    requires height { value_height ≡ spec_height (expr_tree value.value) }
    requires low { value_height ≤ room }
    ensures { Answers room result
        (reading.test_after (reading.below (room - 1)) room negated (expr_tree value.value) (terminals_of symbols.now)) }
{
    match symbols {
        [Symbol::Between, after @ ..] => in_bounds(
            alloc,
            room,
            negated,
            value,
            value_height,
            after,
        ),
        [Symbol::In, after @ ..] => match after {
            [Symbol::LeftParen, after @ ..] => in_list(
                alloc,
                room,
                negated,
                value,
                value_height,
                after,
            ),
            _ => Err(ReadFault::Refused(Refusal::Syntax)),
        },
        [Symbol::Like, after @ ..] => match after {
            [Symbol::Text(pattern), rest @ ..] => within(
                room,
                likeness(alloc, negated, value, pattern)?,
                value_height + 1,
                rest,
            ),
            _ => Err(ReadFault::Refused(Refusal::Syntax)),
        },
        _ => Err(ReadFault::Refused(Refusal::Syntax)),
    }
}

/// The value between the two that follow.
#[cycle(reader)]
#[tactic(auto, using(crate::proofs::ExprLoops::chained_many, crate::proofs::ExprLoops::whole_some, crate::proofs::ExprLoops::negated_some, crate::proofs::ExprLoops::signed_some, crate::proofs::ExprLoops::whole_none, crate::proofs::ExprLoops::negated_none, crate::proofs::ExprLoops::signed_none), unfolding(med_syntax::specs::ExprReading::left_of, med_syntax::specs::ExprReading::chain_of, med_syntax::specs::ExprReading::range_of, med_syntax::specs::ExprReading::compare_of, med_syntax::specs::ExprReading::is_of))]
fn in_bounds(
    alloc: Global,
    room: u32,
    negated: bool,
    value: Box<Expr>,
    value_height: u32,
    symbols: Symbols<'_>,
) -> Result<FoundExpr<'_>, ReadFault>
    requires some { 1 ≤ room }
    requires few { room < 1000 }
    requires height { value_height ≡ spec_height (expr_tree value.value) }
    requires low { value_height ≤ room }
    ensures { Answers room result
        (reading.bounds_after (reading.below (room - 1)) room negated (expr_tree value.value) (terminals_of symbols.now)) }
{
    let low = boxed_sum(alloc, room, symbols)?;
    match low.rest {
        [Symbol::Joint(Joint::And), after @ ..] => {
            let high = boxed_sum(alloc, room, after)?;
            let below_high = value_height.max(low.height);
            bounds_made(room, negated, value, low.expr, below_high, high)
        }
        _ => Err(ReadFault::Refused(Refusal::Syntax)),
    }
}

/// The value between the two bounds, if it has room.
fn bounds_made(
    room: u32,
    negated: bool,
    value: Box<Expr>,
    low: Box<Expr>,
    below_high: u32,
    high: Boxed<'_>,
) -> Result<FoundExpr<'_>, ReadFault>
    requires few { room < 1000 }
    requires height { below_high ≡ max (spec_height (expr_tree value.value)) (spec_height (expr_tree low.value)) }
    requires high_height { high.height ≡ spec_height (expr_tree high.expr.value) }
    requires low { (below_high ≤ room) × (high.height ≤ room) }
    ensures { Answers room result
        (reading.within room (spec_between negated (expr_tree value.value) (expr_tree low.value) (expr_tree high.entry.expr.value))
        (terminals_of high.entry.rest.now)) }
{
    let height = 1 + below_high.max(high.height);
    within(
        room,
        between(negated, value, low, high.expr),
        height,
        high.rest,
    )
}

/// The value among those that follow, up to the closing parenthesis.
#[cycle(reader)]
fn in_list(
    alloc: Global,
    room: u32,
    negated: bool,
    value: Box<Expr>,
    value_height: u32,
    symbols: Symbols<'_>,
) -> Result<FoundExpr<'_>, ReadFault>
    requires some { 1 ≤ room }
    requires few { room < 1000 }
    requires height { value_height ≡ spec_height (expr_tree value.value) }
    requires low { value_height ≤ room }
    ensures { Answers room result
        (reading.list_after (reading.below (room - 1)) room negated (expr_tree value.value) (terminals_of symbols.now)) }
{
    let first = boxed_whole(alloc, room - 1, symbols)?;
    let others = others(alloc, Separator::Comma, room, first.rest)?;
    match others.rest {
        [Symbol::RightParen, rest @ ..] => {
            let height = 1 + value_height.max(first.height.max(others.highest));
            within(
                room,
                membership(negated, value, first.expr, others.list),
                height,
                rest,
            )
        }
        _ => Err(ReadFault::Refused(Refusal::Syntax)),
    }
}
