//! Words, names and tables at the front of symbols.

ghost use Rattle.med_syntax.specs.Prelude.{ReadsAs, terminals_of, expr_tree, entry_tree};
ghost use Rattle.med_syntax.specs.ExprReading.{below};
ghost use Rattle.query_reader.specs.QueryReading as query;
ghost use Rattle.std.specs.Prelude.{◌≡◌, ◌<◌, ◌∷◌, [], option_map};
ghost use Rattle.std.specs.String.{string_bytes};
ghost use Rattle.write_parser.specs.WriteReading as reading;

use expr_reader::whole;
use med_syntax::refusal::{ReadFault, Refusal};
use med_syntax::symbols::{Symbol, Symbols};
use med_syntax::{Entry, Expr};
use med_value::Comparison;
use std::alloc::Global;

/// The symbols behind the keyword, where it comes first.
pub fn behind_word<'a>(word: &str, symbols: Symbols<'a>) -> Option<Symbols<'a>>
    ensures { query.behind_word word.now (terminals_of symbols.now) ≡ option_map (λ x. terminals_of x.now) result }
{
    match symbols {
        [Symbol::Reserved(reserved), rest @ ..] if *reserved == word => Some(rest),
        _ => None,
    }
}

/// The symbols behind two keywords, where they come first.
pub fn behind_two<'a>(first: &str, second: &str, symbols: Symbols<'a>) -> Option<Symbols<'a>>
    ensures { query.behind_words (first.now ∷ second.now ∷ []) (terminals_of symbols.now) ≡ option_map (λ x. terminals_of x.now) result }
{
    match behind_word(first, symbols) {
        Some(after) => behind_word(second, after),
        None => None,
    }
}

/// The symbols behind a left parenthesis, where it comes first.
pub fn behind_left(symbols: Symbols<'_>) -> Option<Symbols<'_>>
    ensures { reading.behind_left (terminals_of symbols.now) ≡ option_map (λ x. terminals_of x.now) result }
{
    match symbols {
        [Symbol::LeftParen, rest @ ..] => Some(rest),
        _ => None,
    }
}

/// The symbols behind a right parenthesis, which has to come first.
pub fn behind_right(symbols: Symbols<'_>) -> Result<Symbols<'_>, ReadFault>
    ensures { ReadsAs (λ x. terminals_of x.now) result (reading.behind_right (terminals_of symbols.now)) }
{
    match symbols {
        [Symbol::RightParen, rest @ ..] => Ok(rest),
        _ => Err(ReadFault::Refused(Refusal::Syntax)),
    }
}

/// The name at the front, and the symbols behind it.
pub fn name(alloc: Global, symbols: Symbols<'_>) -> Result<(String, Symbols<'_>), ReadFault>
    ensures { ReadsAs (λ x. (string_bytes x.0, terminals_of x.1.now)) result (query.read_name (terminals_of symbols.now)) }
{
    match symbols {
        [Symbol::Name(name), rest @ ..] => Ok((String::from_str(alloc, name)?, rest)),
        _ => Err(ReadFault::Refused(Refusal::Syntax)),
    }
}

/// The name at the front, where there is one.
fn perhaps_name(
    alloc: Global,
    symbols: Symbols<'_>,
) -> Result<(Option<String>, Symbols<'_>), ReadFault>
    ensures { ReadsAs (λ x. (option_map string_bytes x.0, terminals_of x.1.now)) result (query.perhaps_name (terminals_of symbols.now)) }
{
    match symbols {
        [Symbol::Name(name), rest @ ..] => Ok((Some(String::from_str(alloc, name)?), rest)),
        _ => Ok((None, symbols)),
    }
}

/// The name that a table has in the statement, where it has one of its own.
#[tactic(auto, unfolding(query_reader::specs::QueryReading::alias_after))]
fn alias(alloc: Global, symbols: Symbols<'_>) -> Result<(Option<String>, Symbols<'_>), ReadFault>
    ensures { ReadsAs (λ x. (option_map string_bytes x.0, terminals_of x.1.now)) result (query.alias_after (terminals_of symbols.now)) }
{
    match behind_word("as", symbols) {
        Some(after) => {
            let (name, rest) = name(alloc, after)?;
            Ok((Some(name), rest))
        }
        None => perhaps_name(alloc, symbols),
    }
}

/// The entry at the front, and the symbols behind it.
#[tactic(auto, unfolding(query_reader::specs::QueryReading::entry_of))]
pub fn entry(alloc: Global, symbols: Symbols<'_>) -> Result<(Entry, Symbols<'_>), ReadFault>
    ensures { ReadsAs (λ x. (entry_tree x.0, terminals_of x.1.now)) result (query.entry_of (terminals_of symbols.now)) }
{
    let (table, rest) = name(alloc, symbols)?;
    let (alias, rest) = alias(alloc, rest)?;
    Ok((Entry { table, alias }, rest))
}

/// The column that a name and an equals sign at the front set, and the symbols behind them.
pub fn set_at(alloc: Global, symbols: Symbols<'_>) -> Result<(String, Symbols<'_>), ReadFault>
    ensures { ReadsAs (λ x. (string_bytes x.0, terminals_of x.1.now)) result (reading.set_at (terminals_of symbols.now)) }
{
    match symbols {
        [
            Symbol::Name(name),
            Symbol::Compare(Comparison::Equal),
            rest @ ..,
        ] => Ok((String::from_str(alloc, name)?, rest)),
        _ => Err(ReadFault::Refused(Refusal::Syntax)),
    }
}

/// The expression at the front, and the symbols behind it.
pub fn expr(
    alloc: Global,
    room: u32,
    symbols: Symbols<'_>,
) -> Result<(Expr, Symbols<'_>), ReadFault>
    requires { room < 1000 }
    ensures { ReadsAs (λ x. (expr_tree x.0, terminals_of x.1.now)) result ((below room).whole (terminals_of symbols.now)) }
{
    let found = whole(alloc, room, symbols)?;
    Ok((found.expr, found.rest))
}
