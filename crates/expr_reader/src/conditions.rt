//! Conditions: what OR, AND, NOT and IS make, and lists with commas.

ghost use Rattle.std.specs.Prelude.{◌≡◌, ◌≤◌, ◌<◌, ◌-◌};
ghost use Rattle.med_syntax.specs.ExprTree.{height as spec_height, highest as spec_highest};
ghost use Rattle.med_syntax.specs.ExprReading as reading;
ghost use Rattle.med_syntax.specs.ExprView.{expr_tree, expr_trees};
ghost use Rattle.med_syntax.specs.SymbolView.{terminals_of};
ghost use Rattle.med_syntax.specs.ExprSteps as steps;
ghost use Rattle.expr_reader.specs.ReaderSteps.{others_of};
ghost use Rattle.expr_reader.specs.ReaderAnswers.{Answers, AnswersAll, AnswersBoxed};

use crate::build::{chained, inverted, test};
use crate::found::{Boxed, FoundExpr, Items, within};
use crate::predicates::compared;
use med_syntax::refusal::{ReadFault, Refusal};
use med_syntax::symbols::{Separator, Symbol, Symbols, behind, onward, status};
use med_syntax::{Expr, Joint};
use std::alloc::Global;

/// The expression that the symbols begin with, if it has room.
#[cycle(reader)]
#[tactic(auto, using(crate::proofs::ExprLoops::whole_some, crate::proofs::ExprLoops::whole_none))]
pub fn whole(alloc: Global, room: u32, symbols: Symbols<'_>) -> Result<FoundExpr<'_>, ReadFault>
    requires { room < 1000 }
    ensures { Answers room result ((reading.below room).whole (terminals_of symbols.now)) }
{
    if room == 0 {
        return Err(ReadFault::Refused(Refusal::TooHigh));
    }
    joined(alloc, Joint::Or, room, symbols)
}

/// The whole expression, in a box.
#[cycle(reader)]
pub(crate) fn boxed_whole(
    alloc: Global,
    room: u32,
    symbols: Symbols<'_>,
) -> Result<Boxed<'_>, ReadFault>
    requires { room < 1000 }
    ensures { AnswersBoxed room result ((reading.below room).whole (terminals_of symbols.now)) }
{
    let found = whole(alloc, room, symbols)?;
    Ok(Boxed {
        expr: Box::new(alloc, found.expr)?,
        height: found.height,
        rest: found.rest,
    })
}

/// Items and the joint between them, or one item.
#[cycle(reader)]
#[tactic(auto, unfolding(med_syntax::specs::ExprReading::chain_of))]
fn joined(
    alloc: Global,
    joint: Joint,
    room: u32,
    symbols: Symbols<'_>,
) -> Result<FoundExpr<'_>, ReadFault>
    requires some { 1 ≤ room }
    requires few { room < 1000 }
    ensures { Answers room result (steps.joined_of joint (reading.below (room - 1)) room (terminals_of symbols.now)) }
{
    let first = item(alloc, Separator::Between(joint), room, symbols)?;
    match others(alloc, Separator::Between(joint), room, first.rest) {
        Ok(others) => chain_made(alloc, joint, room, first.expr, first.height, others),
        Err(fault) => {
            drop(first);
            Err(fault)
        }
    }
}

/// The chain of these, or the first where it is alone.
fn chain_made(
    alloc: Global,
    joint: Joint,
    room: u32,
    first: Expr,
    first_height: u32,
    others: Items<'_>,
) -> Result<FoundExpr<'_>, ReadFault>
    requires few { room < 1000 }
    requires height { first_height ≡ spec_height (expr_tree first) }
    requires highest { others.highest ≡ spec_highest (expr_trees others.list.items) }
    requires low { (first_height ≤ room) × (others.highest ≤ room) }
    ensures { Answers room result
        (reading.chained joint room (expr_tree first) (expr_trees others.entry.list.items) (terminals_of others.entry.rest.now)) }
{
    if others.list.is_empty() {
        return Ok(FoundExpr {
            expr: first,
            height: first_height,
            rest: others.rest,
        });
    }
    let height = 1 + first_height.max(others.highest);
    within(
        room,
        chained(alloc, joint, first, others.list)?,
        height,
        others.rest,
    )
}

/// What a separator parts.
#[cycle(reader)]
#[tactic(auto, using(crate::proofs::ExprLoops::chained_many, crate::proofs::ExprLoops::whole_some, crate::proofs::ExprLoops::negated_some, crate::proofs::ExprLoops::signed_some, crate::proofs::ExprLoops::whole_none, crate::proofs::ExprLoops::negated_none, crate::proofs::ExprLoops::signed_none), unfolding(med_syntax::specs::ExprReading::left_of, med_syntax::specs::ExprReading::chain_of, med_syntax::specs::ExprReading::range_of, med_syntax::specs::ExprReading::compare_of, med_syntax::specs::ExprReading::is_of))]
fn item(
    alloc: Global,
    separator: Separator,
    room: u32,
    symbols: Symbols<'_>,
) -> Result<FoundExpr<'_>, ReadFault>
    requires some { 1 ≤ room }
    requires few { room < 1000 }
    ensures { Answers room result (steps.item_of separator (reading.below (room - 1)) room (terminals_of symbols.now)) }
{
    match separator {
        Separator::Between(Joint::Or) => joined(alloc, Joint::And, room, symbols),
        Separator::Between(Joint::And) => inversion_here(alloc, room, symbols),
        Separator::Comma => whole(alloc, room - 1, symbols),
    }
}

/// Each further item, behind its separator.
#[cycle(reader)]
pub(crate) fn others(
    alloc: Global,
    separator: Separator,
    room: u32,
    symbols: Symbols<'_>,
) -> Result<Items<'_>, ReadFault>
    requires some { 1 ≤ room }
    requires few { room < 1000 }
    ensures { AnswersAll room result (others_of separator (reading.below (room - 1)) room (terminals_of symbols.now)) }
{
    let mut list = Vec::new(alloc);
    let mut highest: u32 = 0;
    let mut rest = onward(symbols);
    while let Some(after) = behind(separator, rest) {
        let next = item(alloc, separator, room, after)?;
        list.push(next.expr)?;
        highest = highest.max(next.height);
        rest = onward(next.rest);
    }
    Ok(Items {
        list,
        highest,
        rest,
    })
}

// What AND stands between, if it has room.
#[cycle(reader)]
#[tactic(auto, using(crate::proofs::ExprLoops::negated_some, crate::proofs::ExprLoops::negated_none))]
fn inversion(alloc: Global, room: u32, symbols: Symbols<'_>) -> Result<FoundExpr<'_>, ReadFault>
    requires { room < 1000 }
    ensures { Answers room result ((reading.below room).negated (terminals_of symbols.now)) }
{
    if room == 0 {
        return Err(ReadFault::Refused(Refusal::TooHigh));
    }
    inversion_here(alloc, room, symbols)
}

// The same where there is room: perhaps behind NOT.
#[cycle(reader)]
fn inversion_here(
    alloc: Global,
    room: u32,
    symbols: Symbols<'_>,
) -> Result<FoundExpr<'_>, ReadFault>
    requires some { 1 ≤ room }
    requires few { room < 1000 }
    ensures { Answers room result (reading.negated_of (reading.below (room - 1)) room (terminals_of symbols.now)) }
{
    match symbols {
        [Symbol::Not, rest @ ..] => {
            let inner = inversion(alloc, room - 1, rest)?;
            Ok(FoundExpr {
                expr: inverted(alloc, inner.expr)?,
                height: inner.height + 1,
                rest: inner.rest,
            })
        }
        _ => checked(alloc, room, symbols),
    }
}

// A comparison, perhaps IS what follows.
#[cycle(reader)]
#[tactic(auto, unfolding(med_syntax::specs::ExprReading::is_of))]
fn checked(alloc: Global, room: u32, symbols: Symbols<'_>) -> Result<FoundExpr<'_>, ReadFault>
    requires some { 1 ≤ room }
    requires few { room < 1000 }
    ensures { Answers room result (reading.is_of (reading.below (room - 1)) room (terminals_of symbols.now)) }
{
    let value = compared(alloc, room, symbols)?;
    match value.rest {
        [Symbol::Is, Symbol::Not, after @ ..] => is_status(
            room,
            true,
            Box::new(alloc, value.expr)?,
            value.height,
            after,
        ),
        [Symbol::Is, after @ ..] => is_status(
            room,
            false,
            Box::new(alloc, value.expr)?,
            value.height,
            after,
        ),
        _ => Ok(value),
    }
}

/// The value IS what follows.
fn is_status(
    room: u32,
    negated: bool,
    value: Box<Expr>,
    value_height: u32,
    symbols: Symbols<'_>,
) -> Result<FoundExpr<'_>, ReadFault>
    requires few { room < 1000 }
    requires height { value_height ≡ spec_height (expr_tree value.value) }
    requires low { value_height ≤ room }
    ensures { Answers room result (reading.status_after room negated (expr_tree value.value) (terminals_of symbols.now)) }
{
    let [symbol, rest @ ..] = symbols else {
        return Err(ReadFault::Refused(Refusal::Syntax));
    };
    match status(symbol) {
        Some(status) => within(room, test(negated, value, status), value_height + 1, rest),
        None => Err(ReadFault::Refused(Refusal::Syntax)),
    }
}
