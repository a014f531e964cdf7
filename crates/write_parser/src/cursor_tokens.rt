//! Keywords, names and counts at the front of tokens.

ghost use Rattle.write_parser.specs.CursorReading as reading;
ghost use Rattle.med_syntax.specs.Prelude.{count_tree, ReadsAs, AreReadable, shapes_of};
ghost use Rattle.ddl_parser.specs.DdlReading as ddl;
ghost use Rattle.std.specs.Prelude.{◌≡◌, ◌∷◌, [], Ok, IfOk, map, option_map};
ghost use Rattle.std.specs.String.{string_bytes};

use med_lexer::{Mark, Token, TokenKind, number_value};
use med_syntax::refusal::{ReadFault, Refusal};
use med_syntax::token_list::Tokens;
use med_syntax::{FetchCount, is_reserved};
use std::alloc::Global;

/// The tokens behind the keyword, where it comes first.
pub fn behind_word<'a>(word: &str, tokens: Tokens<'a>) -> Option<Tokens<'a>>
    ensures { ddl.behind_word word.now (shapes_of tokens.now) ≡ option_map (λ x. shapes_of x.now) result }
{
    match tokens {
        [first, rest @ ..] => match &first.kind {
            TokenKind::Word(found) if found.as_str() == word => Some(rest),
            _ => None,
        },
        [] => None,
    }
}

/// The tokens behind two keywords, where they come first.
fn behind_two<'a>(first: &str, second: &str, tokens: Tokens<'a>) -> Option<Tokens<'a>>
    ensures { ddl.behind_words (first.now ∷ second.now ∷ []) (shapes_of tokens.now) ≡ option_map (λ x. shapes_of x.now) result }
{
    match behind_word(first, tokens) {
        Some(after) => behind_word(second, after),
        None => None,
    }
}

/// The tokens behind the keyword, which has to stand in front.
#[tactic(auto, unfolding(ddl_parser::specs::DdlReading::expect))]
pub fn expect<'a>(word: &str, tokens: Tokens<'a>) -> Result<Tokens<'a>, ReadFault>
    ensures { ReadsAs (λ x. (tt, shapes_of x.now)) result (ddl.expect (word.now ∷ []) (shapes_of tokens.now)) }
{
    match behind_word(word, tokens) {
        Some(after) => Ok(after),
        None => Err(ReadFault::Refused(Refusal::Syntax)),
    }
}

/// Whether the keyword stands in front, and the tokens behind it.
#[tactic(auto, unfolding(ddl_parser::specs::DdlReading::words_if))]
pub fn word_if<'a>(word: &str, tokens: Tokens<'a>) -> (bool, Tokens<'a>)
    ensures { ddl.words_if (word.now ∷ []) (shapes_of tokens.now) ≡ Ok (result.0, shapes_of result.1.now) }
{
    match behind_word(word, tokens) {
        Some(after) => (true, after),
        None => (false, tokens),
    }
}

/// Whether the two keywords stand in front, and the tokens behind them.
#[tactic(auto, unfolding(ddl_parser::specs::DdlReading::words_if))]
pub fn two_if<'a>(first: &str, second: &str, tokens: Tokens<'a>) -> (bool, Tokens<'a>)
    ensures { ddl.words_if (first.now ∷ second.now ∷ []) (shapes_of tokens.now) ≡ Ok (result.0, shapes_of result.1.now) }
{
    match behind_two(first, second, tokens) {
        Some(after) => (true, after),
        None => (false, tokens),
    }
}

/// The name at the front, and the tokens behind it.
pub fn name(alloc: Global, tokens: Tokens<'_>) -> Result<(String, Tokens<'_>), ReadFault>
    ensures { ReadsAs (λ x. (string_bytes x.0, shapes_of x.1.now)) result (ddl.name_of (shapes_of tokens.now)) }
{
    match tokens {
        [first, rest @ ..] => match &first.kind {
            TokenKind::Quoted(name) => Ok((String::from_str(alloc, name.as_str())?, rest)),
            TokenKind::Word(name) if !is_reserved(name.as_str()) => {
                Ok((String::from_str(alloc, name.as_str())?, rest))
            }
            _ => Err(ReadFault::Refused(Refusal::Syntax)),
        },
        [] => Err(ReadFault::Refused(Refusal::Syntax)),
    }
}

/// Whether nothing is left but perhaps one semicolon.
pub fn is_end(tokens: Tokens<'_>) -> bool
    ensures { result ≡ ddl.is_end (shapes_of tokens.now) }
{
    matches!(
        tokens,
        [] | [Token {
            kind: TokenKind::Mark(Mark::Semicolon),
            ..
        }]
    )
}

/// One row, and the tokens behind NEXT, where it is no name.
#[tactic(auto, unfolding(crate::specs::CursorReading::next_of))]
fn next(tokens: Tokens<'_>) -> (FetchCount, Tokens<'_>)
    ensures { reading.next_of (shapes_of tokens.now) ≡ Ok (count_tree result.0, shapes_of result.1.now) }
{
    match behind_word("next", tokens) {
        Some(after) if !is_end(after) => (FetchCount::Rows(1), after),
        _ => (FetchCount::Rows(1), tokens),
    }
}

/// The count that is no number, and the tokens behind it.
#[tactic(auto, unfolding(crate::specs::CursorReading::word_count_of))]
fn word_count(tokens: Tokens<'_>) -> (FetchCount, Tokens<'_>)
    ensures { reading.word_count_of (shapes_of tokens.now) ≡ Ok (count_tree result.0, shapes_of result.1.now) }
{
    match behind_word("all", tokens) {
        Some(after) => (FetchCount::All, after),
        None => next(tokens),
    }
}

/// How many rows are asked for, and the tokens behind it.
pub fn count(tokens: Tokens<'_>) -> (FetchCount, Tokens<'_>)
    requires { AreReadable (shapes_of tokens.now) }
    ensures { reading.count_of (shapes_of tokens.now) ≡ Ok (count_tree result.0, shapes_of result.1.now) }
{
    match tokens {
        [first, rest @ ..] => match &first.kind {
            TokenKind::Number(digits) => {
                (FetchCount::Rows(number_value(digits).unwrap_or(0)), rest)
            }
            _ => word_count(tokens),
        },
        [] => word_count(tokens),
    }
}

/// The tokens behind FROM or IN, where one of them stands in front.
#[tactic(auto, unfolding(crate::specs::CursorReading::from_of))]
pub fn behind_from(tokens: Tokens<'_>) -> Tokens<'_>
    ensures { reading.from_of (shapes_of tokens.now) ≡ Ok (tt, shapes_of result.now) }
{
    let Some(after) = behind_word("from", tokens) else {
        let Some(after) = behind_word("in", tokens) else {
            return tokens;
        };
        return after;
    };
    after
}
