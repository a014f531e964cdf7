//! How many symbols an expression can get deeper by.

ghost use Rattle.std.specs.Prelude.{◌≡◌};
ghost use Rattle.med_syntax.specs.ExprWeight as spec;
ghost use Rattle.med_syntax.specs.SymbolView.{terminal_of_symbol, terminals_of};

use crate::symbols::{Symbol, Symbols};

/// Higher than any expression of few heavy symbols.
pub const ROOM: u32 = 455;

/// Whether an expression can get deeper without bound by such symbols.
fn is_heavy(symbol: &Symbol<'_>) -> bool
    ensures { result ≡ spec.is_heavy (terminal_of_symbol symbol.now) }
{
    matches!(symbol, Symbol::LeftParen | Symbol::Binary(_) | Symbol::Not)
}

/// How many symbols are heavy.
pub fn weight(symbols: Symbols<'_>) -> usize
    ensures { result ≡ spec.weight (terminals_of symbols.now) }
{
    let mut heavy = 0;
    let mut left = symbols;
    while let [symbol, rest @ ..] = left {
        heavy = if is_heavy(symbol) { heavy + 1 } else { heavy };
        left = rest;
    }
    heavy
}
