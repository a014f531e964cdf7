//! What the functions of the reader return.

ghost use Rattle.std.specs.Prelude.{◌≡◌};
ghost use Rattle.med_syntax.specs.ExprTree.{height as spec_height};
ghost use Rattle.med_syntax.specs.ExprReading as reading;
ghost use Rattle.med_syntax.specs.ExprView.{expr_tree};
ghost use Rattle.med_syntax.specs.SymbolView.{terminals_of};
ghost use Rattle.expr_reader.specs.ReaderAnswers.{Answers};

use med_syntax::Expr;
use med_syntax::refusal::{ReadFault, Refusal};
use med_syntax::symbols::Symbols;

/// An expression, its height, and the symbols behind it.
#[derive(Drop)]
pub struct FoundExpr<'a> {
    pub expr: Expr,
    pub height: u32,
    pub rest: Symbols<'a>,
}

/// A FoundExpr whose expression is in a box, where it waits for what follows.
#[derive(Drop)]
pub(crate) struct Boxed<'a> {
    pub(crate) expr: Box<Expr>,
    pub(crate) height: u32,
    pub(crate) rest: Symbols<'a>,
}

/// Expressions, the height of the highest, and the symbols behind them.
#[derive(Drop)]
pub(crate) struct Items<'a> {
    pub(crate) list: Vec<Expr>,
    pub(crate) highest: u32,
    pub(crate) rest: Symbols<'a>,
}

/// The expression, if it has room.
pub(crate) fn within(
    room: u32,
    expr: Expr,
    height: u32,
    rest: Symbols<'_>,
) -> Result<FoundExpr<'_>, ReadFault>
    requires { height ≡ spec_height (expr_tree expr) }
    ensures { Answers room result (reading.within room (expr_tree expr) (terminals_of rest.now)) }
{
    if height <= room {
        Ok(FoundExpr { expr, height, rest })
    } else {
        drop(expr);
        Err(ReadFault::Refused(Refusal::TooHigh))
    }
}

/// An expression without parts.
pub(crate) fn leaf(expr: Expr, rest: Symbols<'_>) -> FoundExpr<'_>
    ensures expr { result.expr ≡ expr }
    ensures height { result.height ≡ 1 }
    ensures rest { result.rest.now ≡ rest.now }
{
    FoundExpr {
        expr,
        height: 1,
        rest,
    }
}
