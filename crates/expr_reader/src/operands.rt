//! What the operators of a product stand between: literals, columns, calls and parentheses, perhaps behind a minus.

ghost use Rattle.std.specs.Prelude.{◌≡◌, ◌≤◌, ◌<◌, ◌-◌};
ghost use Rattle.med_syntax.specs.ExprTree.{height as spec_height, highest as spec_highest};
ghost use Rattle.med_syntax.specs.ExprReading as reading;
ghost use Rattle.med_syntax.specs.ExprView.{expr_tree, expr_trees};
ghost use Rattle.med_syntax.specs.SymbolView.{terminals_of};
ghost use Rattle.expr_reader.specs.ReaderSteps.{parens_of};
ghost use Rattle.expr_reader.specs.ReaderAnswers.{Answers};

use crate::build::{
    call_all, call_of, call_of_nothing, column, column_of, in_parens, negated, negative_number,
    null, number, text, truth,
};
use crate::conditions::{boxed_whole, others};
use crate::found::{FoundExpr, Items, leaf};
use med_syntax::Expr;
use med_syntax::refusal::{ReadFault, Refusal};
use med_syntax::symbols::{Separator, Symbol, Symbols, behind_minus};
use med_value::Operation;
use std::alloc::Global;

// What the operators of a product stand between, if it has room.
#[cycle(reader)]
#[tactic(auto, using(crate::proofs::ExprLoops::signed_some, crate::proofs::ExprLoops::signed_none))]
fn signed(alloc: Global, room: u32, symbols: Symbols<'_>) -> Result<FoundExpr<'_>, ReadFault>
    requires { room < 1000 }
    ensures { Answers room result ((reading.below room).signed (terminals_of symbols.now)) }
{
    if room == 0 {
        return Err(ReadFault::Refused(Refusal::TooHigh));
    }
    signed_here(alloc, room, symbols)
}

// The same where there is room: perhaps behind a minus.
#[cycle(reader)]
pub(crate) fn signed_here(
    alloc: Global,
    room: u32,
    symbols: Symbols<'_>,
) -> Result<FoundExpr<'_>, ReadFault>
    requires some { 1 ≤ room }
    requires few { room < 1000 }
    ensures { Answers room result (reading.signed_of (reading.below (room - 1)) (terminals_of symbols.now)) }
{
    match behind_minus(symbols) {
        Some(rest) => minus(alloc, room, rest),
        None => primary(alloc, room, symbols),
    }
}

/// What stands behind a minus.
#[cycle(reader)]
fn minus(alloc: Global, room: u32, symbols: Symbols<'_>) -> Result<FoundExpr<'_>, ReadFault>
    requires some { 1 ≤ room }
    requires few { room < 1000 }
    ensures { Answers room result (reading.after_minus (reading.below (room - 1)) (terminals_of symbols.now)) }
{
    match symbols {
        [Symbol::Number(n), rest @ ..] => Ok(leaf(negative_number(*n), rest)),
        _ => {
            let inner = signed(alloc, room - 1, symbols)?;
            Ok(FoundExpr {
                expr: negated(alloc, inner.expr)?,
                height: inner.height + 1,
                rest: inner.rest,
            })
        }
    }
}

// A literal, a column, a call, or an expression in parentheses.
#[cycle(reader)]
fn primary(alloc: Global, room: u32, symbols: Symbols<'_>) -> Result<FoundExpr<'_>, ReadFault>
    requires some { 1 ≤ room }
    requires few { room < 1000 }
    ensures { Answers room result (reading.primary_of (reading.below (room - 1)) (terminals_of symbols.now)) }
{
    match symbols {
        [Symbol::Number(n), rest @ ..] => Ok(leaf(number(*n), rest)),
        [Symbol::Text(value), rest @ ..] => Ok(leaf(text(alloc, value)?, rest)),
        [Symbol::Truth(value), rest @ ..] => Ok(leaf(truth(*value), rest)),
        [Symbol::Null, rest @ ..] => Ok(leaf(null(), rest)),
        [Symbol::Name(name), rest @ ..] => named(alloc, room, name, rest),
        [Symbol::LeftParen, rest @ ..] => parens(alloc, room, rest),
        _ => Err(ReadFault::Refused(Refusal::Syntax)),
    }
}

/// What stands in parentheses, behind the opening one.
#[cycle(reader)]
fn parens(alloc: Global, room: u32, symbols: Symbols<'_>) -> Result<FoundExpr<'_>, ReadFault>
    requires some { 1 ≤ room }
    requires few { room < 1000 }
    ensures { Answers room result (parens_of (reading.below (room - 1)) (terminals_of symbols.now)) }
{
    let inner = boxed_whole(alloc, room - 1, symbols)?;
    match inner.rest {
        [Symbol::RightParen, rest @ ..] => {
            Ok(FoundExpr {
                expr: in_parens(inner.expr),
                height: inner.height + 1,
                rest,
            })
        }
        _ => Err(ReadFault::Refused(Refusal::Syntax)),
    }
}

/// The call or the column whose name is read.
#[cycle(reader)]
fn named<'a>(
    alloc: Global,
    room: u32,
    name: &str,
    symbols: Symbols<'a>,
) -> Result<FoundExpr<'a>, ReadFault>
    requires some { 1 ≤ room }
    requires few { room < 1000 }
    ensures { Answers room result (reading.named_after (reading.below (room - 1)) name.now (terminals_of symbols.now)) }
{
    match symbols {
        [Symbol::LeftParen, rest @ ..] => call(alloc, room, name, rest),
        [Symbol::Dot, Symbol::Name(column), rest @ ..] => Ok(leaf(
            column_of(alloc, name, column)?,
            rest,
        )),
        [Symbol::Dot, ..] => Err(ReadFault::Refused(Refusal::Syntax)),
        _ => Ok(leaf(column(alloc, name)?, symbols)),
    }
}

/// The call of the function, behind its opening parenthesis.
#[cycle(reader)]
fn call<'a>(
    alloc: Global,
    room: u32,
    function: &str,
    symbols: Symbols<'a>,
) -> Result<FoundExpr<'a>, ReadFault>
    requires some { 1 ≤ room }
    requires few { room < 1000 }
    ensures { Answers room result (reading.call_after (reading.below (room - 1)) function.now (terminals_of symbols.now)) }
{
    match symbols {
        [
            Symbol::Binary(Operation::Multiply),
            Symbol::RightParen,
            rest @ ..,
        ] => { Ok(leaf(call_all(alloc, function)?, rest)) }
        [Symbol::Binary(Operation::Multiply), ..] => Err(ReadFault::Refused(Refusal::Syntax)),
        [Symbol::RightParen, rest @ ..] => Ok(leaf(call_of_nothing(alloc, function)?, rest)),
        _ => call_of_parts(alloc, room, function, symbols),
    }
}

/// The call of the function with the parts that follow, up to the closing parenthesis.
#[cycle(reader)]
fn call_of_parts<'a>(
    alloc: Global,
    room: u32,
    function: &str,
    symbols: Symbols<'a>,
) -> Result<FoundExpr<'a>, ReadFault>
    requires some { 1 ≤ room }
    requires few { room < 1000 }
    ensures { Answers room result (reading.parts_after (reading.below (room - 1)) function.now (terminals_of symbols.now)) }
{
    let first = boxed_whole(alloc, room - 1, symbols)?;
    let others = others(alloc, Separator::Comma, room, first.rest)?;
    call_made(alloc, room, function, first.expr, first.height, others)
}

/// The call of the function with these parts, where they are closed.
fn call_made<'a>(
    alloc: Global,
    room: u32,
    function: &str,
    first: Box<Expr>,
    first_height: u32,
    others: Items<'a>,
) -> Result<FoundExpr<'a>, ReadFault>
    requires few { room < 1000 }
    requires height { first_height ≡ spec_height (expr_tree first.value) }
    requires highest { others.highest ≡ spec_highest (expr_trees others.list.items) }
    requires low { (first_height < room) × (others.highest < room) }
    ensures { Answers room result
        (reading.closed_call function.now (expr_tree first.value) (expr_trees others.entry.list.items)
        (terminals_of others.entry.rest.now)) }
{
    match others.rest {
        [Symbol::RightParen, rest @ ..] => {
            let height = 1 + first_height.max(others.highest);
            Ok(FoundExpr {
                expr: call_of(alloc, function, first, others.list)?,
                height,
                rest,
            })
        }
        _ => Err(ReadFault::Refused(Refusal::Syntax)),
    }
}
