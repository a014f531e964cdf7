//! Sums and products.

ghost use Rattle.std.specs.Prelude.{◌≡◌, ◌≤◌, ◌<◌, ◌-◌};
ghost use Rattle.med_syntax.specs.ExprTree.{binary, height as spec_height};
ghost use Rattle.med_syntax.specs.ExprReading as reading;
ghost use Rattle.med_syntax.specs.ExprView.{expr_tree};
ghost use Rattle.med_syntax.specs.SymbolView.{terminals_of};
ghost use Rattle.med_syntax.specs.ExprSteps as steps;
ghost use Rattle.expr_reader.specs.ReaderAnswers.{Answers, AnswersBoxed};

use crate::build::operation;
use crate::found::{Boxed, FoundExpr, within};
use crate::operands::signed_here;
use med_syntax::Expr;
use med_syntax::refusal::ReadFault;
use med_syntax::symbols::{Level, Symbols, operator};
use med_value::Operation;
use std::alloc::Global;

/// The sum, in a box.
#[cycle(reader)]
pub(crate) fn boxed_sum(
    alloc: Global,
    room: u32,
    symbols: Symbols<'_>,
) -> Result<Boxed<'_>, ReadFault>
    requires some { 1 ≤ room }
    requires few { room < 1000 }
    ensures { AnswersBoxed room result (reading.sum_of (reading.below (room - 1)) room (terminals_of symbols.now)) }
{
    let found = chain(alloc, Level::Sum, room, symbols)?;
    Ok(Boxed {
        expr: Box::new(alloc, found.expr)?,
        height: found.height,
        rest: found.rest,
    })
}

/// What an operator of the level stands between.
#[cycle(reader)]
fn operand(
    alloc: Global,
    level: Level,
    room: u32,
    symbols: Symbols<'_>,
) -> Result<FoundExpr<'_>, ReadFault>
    requires some { 1 ≤ room }
    requires few { room < 1000 }
    ensures { Answers room result (steps.operand_of level (reading.below (room - 1)) room (terminals_of symbols.now)) }
{
    match level {
        Level::Sum => chain(alloc, Level::Product, room, symbols),
        Level::Product => signed_here(alloc, room, symbols),
    }
}

// The operands of the level with its operators between them, taken together from the left on.
#[cycle(reader)]
#[tactic(auto, unfolding(med_syntax::specs::ExprReading::left_of))]
pub(crate) fn chain(
    alloc: Global,
    level: Level,
    room: u32,
    symbols: Symbols<'_>,
) -> Result<FoundExpr<'_>, ReadFault>
    requires some { 1 ≤ room }
    requires few { room < 1000 }
    ensures { Answers room result
        (reading.left_of (steps.op_of level) (steps.operand_of level (reading.below (room - 1)) room) room (terminals_of symbols.now)) }
{
    let mut found = operand(alloc, level, room, symbols)?;
    while let Some((op, after)) = operator(level, found.rest) {
        let left = Box::new(alloc, found.expr)?;
        let right = operand(alloc, level, room, after)?;
        found = operation_made(alloc, room, op, left, found.height, right)?;
    }
    Ok(found)
}

/// The operation on the two, if it has room.
fn operation_made(
    alloc: Global,
    room: u32,
    op: Operation,
    left: Box<Expr>,
    left_height: u32,
    right: FoundExpr<'_>,
) -> Result<FoundExpr<'_>, ReadFault>
    requires few { room < 1000 }
    requires height { left_height ≡ spec_height (expr_tree left.value) }
    requires right_height { right.height ≡ spec_height (expr_tree right.expr) }
    requires low { (left_height ≤ room) × (right.height ≤ room) }
    ensures { Answers room result
        (reading.within room (binary op (expr_tree left.value) (expr_tree right.entry.expr)) (terminals_of right.entry.rest.now)) }
{
    let height = 1 + left_height.max(right.height);
    within(
        room,
        operation(alloc, op, left, right.expr)?,
        height,
        right.rest,
    )
}
