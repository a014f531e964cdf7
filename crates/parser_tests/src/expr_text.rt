//! Text to expressions.

ghost use Rattle.std.specs.Prelude.{◌≡◌, ◌⊎◌, ◌<◌, IfOk, OnOk, IfErr, false};
ghost use Rattle.med_value.specs.declared.cause.Cause.{Cause};
ghost use Rattle.med_syntax.specs.ExprReading.{all_of};
ghost use Rattle.med_syntax.specs.ExprWeight as spec;
ghost use Rattle.med_lexer.specs.Printing.{AreShapes};
ghost use Rattle.med_syntax.specs.Prelude.{HasExpr, ExprCauses, IsExpression, TokenCauses, AreReadable, terminals_at, shapes_of, expr_tree, terminals_of, ReadsAs};

use expr_reader::whole;
use med_lexer::tokens_can_be_printed;
use med_syntax::Expr;
use med_syntax::expr_symbols::{has_unreadable, symbols_of};
use med_syntax::number_range::is_in_range;
use med_syntax::refusal::{ReadFault, Refusal};
use med_syntax::symbols::Symbols;
use med_syntax::token_list::{Tokens, has_long_name, tokens_of};
use med_syntax::weighing::{ROOM, weight};
use med_value::Cause;
use med_value::limits::HEIGHT_LIMIT;
use std::alloc::Global;

/// The expression that all of the symbols are, where it is no higher than the room.
#[tactic(auto, unfolding(med_syntax::specs::ExprReading::all_of))]
fn all(alloc: Global, room: u32, symbols: Symbols<'_>) -> Result<Expr, ReadFault>
    requires { room < 1000 }
    ensures { ReadsAs expr_tree result (all_of room (terminals_of symbols.now)) }
{
    let found = whole(alloc, room, symbols)?;
    if found.rest.is_empty() {
        Ok(found.expr)
    } else {
        Err(ReadFault::Refused(Refusal::Syntax))
    }
}

/// The expression that all of the symbols are. Where few of them are heavy, what is told to be too high is an expression.
#[tactic(auto, unfolding(med_syntax::specs::ExprWeight::bounded_of))]
fn bounded(alloc: Global, symbols: Symbols<'_>) -> Result<Expr, ReadFault>
    ensures { ReadsAs expr_tree result (spec.bounded_of (terminals_of symbols.now)) }
{
    match all(alloc, HEIGHT_LIMIT, symbols) {
        Err(ReadFault::Refused(Refusal::TooHigh)) => {
            if weight(symbols) > HEIGHT_LIMIT as usize {
                return Err(ReadFault::Refused(Refusal::TooHigh));
            }
            match all(alloc, ROOM, symbols) {
                Ok(_) => Err(ReadFault::Refused(Refusal::TooHigh)),
                Err(ReadFault::Refused(_)) => Err(ReadFault::Refused(Refusal::Syntax)),
                Err(ReadFault::NoMemory) => Err(ReadFault::NoMemory),
            }
        }
        Err(fault) => Err(fault),
        Ok(expr) => Ok(expr),
    }
}

/// The expression that all of the tokens are.
fn expr_of(alloc: Global, tokens: Tokens<'_>) -> Result<Expr, ReadFault>
    requires { AreReadable (shapes_of tokens.now) }
    ensures { ReadsAs expr_tree result (spec.bounded_of (terminals_at false (shapes_of tokens.now))) }
{
    let symbols = symbols_of(alloc, tokens)?;
    bounded(alloc, &symbols)
}

/// The expression that all of the tokens are, or why it is refused.
fn checked_expr(alloc: Global, tokens: Tokens<'_>) -> Result<Expr, Cause>
    requires { AreShapes (shapes_of tokens.now) }
    ensures found { IfOk result (λ e. IsExpression (shapes_of tokens.now) (expr_tree e)) }
    ensures clear { OnOk result ((c : Cause) → TokenCauses (shapes_of tokens.now) c → ⊥) }
    ensures refused { IfErr result (λ c. (c ≡ Cause.OutOfMemory) ⊎ TokenCauses (shapes_of tokens.now) c) }
{
    if has_long_name(tokens) {
        return Err(Cause::NameTooLong);
    }
    if has_unreadable(tokens) {
        return Err(Cause::LiteralOutOfRange);
    }
    let expr = expr_of(alloc, tokens)?;
    if is_in_range(&expr) {
        Ok(expr)
    } else {
        Err(Cause::LiteralOutOfRange)
    }
}

/// The expression that a text is, or why it is refused: 42601 where the text is not in the grammar of expressions, 22003 where a number
/// is out of range, 42622 where a name has over 63 bytes, 54000 where the expression is higher than 64, or is none and has over 64 of
/// the tokens `( + - * / %` and NOT, and 53200 where memory was refused. Where several stand, any of them may be told.
pub fn expression(alloc: Global, text: &str) -> Result<Expr, Cause>
    // What is answered is the text's one tree.
    ensures found { IfOk result (λ e. HasExpr text.now (expr_tree e)) }
    // A text for which a cause of this phase stands is not answered.
    ensures clear { OnOk result ((c : Cause) → ExprCauses text.now c → ⊥) }
    // A refusal tells a cause that stands for the text, or that memory was refused.
    ensures refused { IfErr result (λ c. (c ≡ Cause.OutOfMemory) ⊎ ExprCauses text.now c) }
    // Where no cause stands, only memory can be refused.
    ensures read { ((c : Cause) → ExprCauses text.now c → ⊥) → IfErr result (λ c. c ≡ Cause.OutOfMemory) }
{
    let tokens = tokens_of(alloc, text)?;
    tokens_can_be_printed();
    checked_expr(alloc, &tokens)
}
