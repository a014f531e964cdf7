//! The terminal symbols that tokens are in an expression.

ghost use Rattle.std.specs.Prelude.{◌≡◌, ◌↔◌, IfOk, IsTrue, Any, false};
ghost use Rattle.med_lexer.specs.declared.Token.{Token};
ghost use Rattle.med_lexer.specs.View.{shape_of};
ghost use Rattle.med_syntax.specs.Terminal.{mark_terminal, plain_word, word_terminal};
ghost use Rattle.med_syntax.specs.ExprTerminals as spec;
ghost use Rattle.med_syntax.specs.SymbolView.{terminal_of_symbol, terminals_of};
ghost use Rattle.med_syntax.specs.View.{shapes_of};

use crate::symbols::Symbol;
use crate::token_list::Tokens;
use crate::{Joint, is_reserved};
use med_lexer::{Mark, TokenKind, number_value};
use med_value::{Comparison, Operation};
use std::alloc::{AllocError, Global};

/// The symbol of a mark.
fn mark_symbol(mark: Mark) -> Symbol<'static>
    ensures { terminal_of_symbol result ≡ mark_terminal mark }
{
    match mark {
        Mark::LeftParen => Symbol::LeftParen,
        Mark::RightParen => Symbol::RightParen,
        Mark::Comma => Symbol::Comma,
        Mark::Dot => Symbol::Dot,
        Mark::Semicolon => Symbol::Semicolon,
        Mark::Star => Symbol::Binary(Operation::Multiply),
        Mark::Plus => Symbol::Binary(Operation::Add),
        Mark::Minus => Symbol::Binary(Operation::Subtract),
        Mark::Slash => Symbol::Binary(Operation::Divide),
        Mark::Percent => Symbol::Binary(Operation::Remainder),
        Mark::Equal => Symbol::Compare(Comparison::Equal),
        Mark::Apart => Symbol::Compare(Comparison::Apart),
        Mark::Below => Symbol::Compare(Comparison::Below),
        Mark::AtMost => Symbol::Compare(Comparison::AtMost),
        Mark::Above => Symbol::Compare(Comparison::Above),
        Mark::AtLeast => Symbol::Compare(Comparison::AtLeast),
    }
}

/// The symbol of a word that no expression has as a keyword.
fn plain_symbol(word: &str) -> Symbol<'_>
    ensures { terminal_of_symbol result ≡ plain_word word.now }
{
    if is_reserved(word) {
        Symbol::Reserved(word)
    } else {
        Symbol::Name(word)
    }
}

/// The symbol of a word that is not UNKNOWN behind IS.
fn word_symbol(word: &str) -> Symbol<'_>
    ensures { terminal_of_symbol result ≡ word_terminal word.now }
{
    match word {
        "and" => Symbol::Joint(Joint::And),
        "or" => Symbol::Joint(Joint::Or),
        "not" => Symbol::Not,
        "between" => Symbol::Between,
        "in" => Symbol::In,
        "is" => Symbol::Is,
        "like" => Symbol::Like,
        "null" => Symbol::Null,
        "true" => Symbol::Truth(true),
        "false" => Symbol::Truth(false),
        _ => plain_symbol(word),
    }
}

/// Whether UNKNOWN is a keyword behind the symbol. Before it the answer was the given one.
pub fn follows_is(before: bool, symbol: &Symbol<'_>) -> bool
    ensures { result ≡ spec.follows before (terminal_of_symbol symbol.now) }
{
    match symbol {
        Symbol::Is => true,
        Symbol::Not => before,
        _ => false,
    }
}

/// The symbol of a token.
pub fn symbol<'a>(behind_is: bool, kind: &'a TokenKind<'_>) -> Symbol<'a>
    requires { spec.IsReadable (shape_of kind.now) }
    ensures { terminal_of_symbol result ≡ spec.terminal_at behind_is (shape_of kind.now) }
{
    match kind {
        TokenKind::Word(word) if behind_is && word.as_str() == "unknown" => Symbol::Unknown,
        TokenKind::Word(word) => word_symbol(word.as_str()),
        TokenKind::Quoted(name) => Symbol::Name(name.as_str()),
        TokenKind::Literal(text) => Symbol::Text(text.as_str()),
        TokenKind::Number(digits) => Symbol::Number(number_value(digits).unwrap_or(0)),
        TokenKind::Mark(mark) => mark_symbol(*mark),
    }
}

/// The symbols of tokens, one by one.
pub fn symbols_of(alloc: Global, tokens: Tokens<'_>) -> Result<Vec<Symbol<'_>>, AllocError>
    requires { spec.AreReadable (shapes_of tokens.now) }
    ensures { IfOk result (λ v. terminals_of v.items ≡ spec.terminals_at false (shapes_of tokens.now)) }
{
    let mut symbols = Vec::with_capacity(alloc, tokens.len())?;
    let mut behind_is = false;
    let mut left = tokens;
    while let [token, rest @ ..] = left {
        let symbol = symbol(behind_is, &token.kind);
        behind_is = follows_is(behind_is, &symbol);
        symbols.push(symbol)?;
        left = rest;
    }
    Ok(symbols)
}

/// Whether the token is a number that cannot be read.
fn is_unreadable(kind: &TokenKind<'_>) -> bool
    ensures { IsTrue result ↔ (spec.IsReadable (shape_of kind.now) → ⊥) }
{
    match kind {
        TokenKind::Number(digits) => number_value(digits).is_none(),
        _ => false,
    }
}

/// Whether one of the tokens is a number that cannot be read.
pub fn has_unreadable(tokens: Tokens<'_>) -> bool
    ensures { IsTrue result ↔ Any (λ (t : Token). spec.IsReadable (shape_of t.kind) → ⊥) tokens.now }
{
    tokens.iter().any(|token| is_unreadable(&token.kind))
}
