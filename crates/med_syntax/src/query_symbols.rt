//! The terminal symbols that tokens are in a statement.
#![tactic(auto)]

ghost use Rattle.med_syntax.specs.ExprTerminals.{AreReadable, IsReadable};
ghost use Rattle.med_syntax.specs.SymbolView.{terminal_of_symbol, terminals_of};
ghost use Rattle.med_syntax.specs.View.{shapes_of};
ghost use Rattle.med_lexer.specs.View.{shape_of};
ghost use Rattle.med_syntax.specs.QueryTerminals as spec;
ghost use Rattle.std.specs.Prelude.{◌≡◌, IfOk, false};

use crate::expr_symbols::{follows_is, symbol};
use crate::symbols::Symbol;
use crate::token_list::Tokens;
use med_lexer::TokenKind;
use std::alloc::{AllocError, Global};

/// What the next token stands behind, as far as keywords that are not reserved need it. The truth value says whether it is among the keys
/// of ORDER BY.
#[derive(Clone, Copy, Drop)]
pub enum Place {
    /// An operand is to come.
    Before(bool),
    /// An operand, or ASC or DESC.
    Behind(bool),
    /// AS.
    Label,
    /// NULLS.
    Nulls,
    /// OFFSET.
    Offset,
    /// OFFSET and a number.
    Counted,
}

/// Whether the word is a keyword at the place, though not reserved.
fn is_keyword(place: Place, word: &str) -> bool
    ensures { result ≡ spec.is_one_of (spec.keywords_at place) word.now }
{
    match place {
        Place::Behind(true) => matches!(word, "nulls"),
        Place::Nulls => matches!(word, "first" | "last"),
        Place::Counted => matches!(word, "row" | "rows"),
        _ => false,
    }
}

/// Whether the place is among the keys of ORDER BY, or behind them.
fn is_ordering(place: Place) -> bool
    ensures { result ≡ spec.is_ordering place }
{
    match place {
        Place::Before(ordering) | Place::Behind(ordering) => ordering,
        Place::Nulls => true,
        _ => false,
    }
}

/// The place behind a keyword that no expression has.
fn behind_reserved(ordering: bool, word: &str) -> Place
    ensures { result ≡ spec.behind_reserved ordering word.now }
{
    match word {
        "as" => Place::Label,
        "order" => Place::Before(true),
        "offset" => Place::Offset,
        "nulls" => Place::Nulls,
        "asc" | "desc" => Place::Behind(ordering),
        _ => Place::Before(ordering),
    }
}

/// The place behind the symbol.
fn behind_symbol(ordering: bool, symbol: &Symbol<'_>) -> Place
    ensures { result ≡ spec.behind_terminal ordering (terminal_of_symbol symbol.now) }
{
    match symbol {
        Symbol::Reserved(word) => behind_reserved(ordering, word),
        Symbol::Name(_)
        | Symbol::Number(_)
        | Symbol::Text(_)
        | Symbol::Truth(_)
        | Symbol::Null
        | Symbol::Unknown
        | Symbol::RightParen => Place::Behind(ordering),
        _ => Place::Before(ordering),
    }
}

/// The place behind the symbol at the place.
fn place_behind(place: Place, symbol: &Symbol<'_>) -> Place
    ensures { result ≡ spec.place_behind place (terminal_of_symbol symbol.now) }
{
    match (place, symbol) {
        (Place::Label, _) => Place::Behind(false),
        (Place::Offset, Symbol::Number(_)) => Place::Counted,
        _ => behind_symbol(is_ordering(place), symbol),
    }
}

/// The symbol of a token at the place.
fn word_symbol<'a>(place: Place, behind_is: bool, kind: &'a TokenKind<'_>) -> Symbol<'a>
    requires { IsReadable (shape_of kind.now) }
    ensures { terminal_of_symbol result ≡ spec.word_at place behind_is (shape_of kind.now) }
{
    match kind {
        TokenKind::Word(word) if is_keyword(place, word.as_str()) => Symbol::Reserved(
            word.as_str(),
        ),
        _ => symbol(behind_is, kind),
    }
}

/// The symbols of the tokens of a statement, one by one.
pub fn words_of(alloc: Global, tokens: Tokens<'_>) -> Result<Vec<Symbol<'_>>, AllocError>
    requires { AreReadable (shapes_of tokens.now) }
    ensures { IfOk result (λ v. terminals_of v.items ≡ spec.words_at (Place.Before false) false (shapes_of tokens.now)) }
{
    let mut symbols = Vec::with_capacity(alloc, tokens.len())?;
    let mut place = Place::Before(false);
    let mut behind_is = false;
    let mut left = tokens;
    while let [token, rest @ ..] = left {
        let symbol = word_symbol(place, behind_is, &token.kind);
        place = place_behind(place, &symbol);
        behind_is = follows_is(behind_is, &symbol);
        symbols.push(symbol)?;
        left = rest;
    }
    Ok(symbols)
}
