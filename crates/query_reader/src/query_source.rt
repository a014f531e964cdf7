//! What stands behind FROM, by recursive descent.

ghost use Rattle.med_syntax.specs.Prelude.{ReadsAs, terminals_of, expr_tree, chain_tree, entry_tree, join_tree};
ghost use Rattle.query_reader.specs.QueryReading as reading;
ghost use Rattle.std.specs.Prelude.{◌≡◌, ◌<◌, ◌∷◌, [], codes, option_map, map};
ghost use Rattle.std.specs.String.{string_bytes};

use crate::query_statement::{behind_three, behind_two, behind_word, name, perhaps_name};
use expr_reader::whole;
use med_syntax::refusal::{ReadFault, Refusal};
use med_syntax::symbols::{Separator, Symbols, behind, onward};
use med_syntax::{Chain, Entry, Expr, Join};
use std::alloc::Global;

/// How an entry is joined.
#[derive(Clone, Copy, Debug, Drop)]
pub enum JoinWay {
    Inner,
    Left,
    Cross,
}

/// The name that a table has in the statement, where it has one of its own.
#[tactic(auto, unfolding(crate::specs::QueryReading::alias_after))]
fn alias(alloc: Global, symbols: Symbols<'_>) -> Result<(Option<String>, Symbols<'_>), ReadFault>
    ensures { ReadsAs (λ x. (option_map string_bytes x.0, terminals_of x.1.now)) result (reading.alias_after (terminals_of symbols.now)) }
{
    match behind_word("as", symbols) {
        Some(after) => {
            let (name, rest) = name(alloc, after)?;
            Ok((Some(name), rest))
        }
        None => perhaps_name(alloc, symbols),
    }
}

/// The entry at the front, and the symbols behind it.
#[tactic(auto, unfolding(crate::specs::QueryReading::entry_of))]
fn entry(alloc: Global, symbols: Symbols<'_>) -> Result<(Entry, Symbols<'_>), ReadFault>
    ensures { ReadsAs (λ x. (entry_tree x.0, terminals_of x.1.now)) result (reading.entry_of (terminals_of symbols.now)) }
{
    let (table, rest) = name(alloc, symbols)?;
    let (alias, rest) = alias(alloc, rest)?;
    Ok((Entry { table, alias }, rest))
}

/// The join that the words in front begin, and the symbols behind them.
#[tactic(auto, unfolding(crate::specs::QueryReading::join_words))]
fn join_words(symbols: Symbols<'_>) -> Option<(JoinWay, Symbols<'_>)>
    ensures { reading.join_words (terminals_of symbols.now) ≡ option_map (λ x. (x.0, terminals_of x.1.now)) result }
{
    if let Some(after) = behind_word("join", symbols) {
        return Some((JoinWay::Inner, after));
    }
    if let Some(after) = behind_two("inner", "join", symbols) {
        return Some((JoinWay::Inner, after));
    }
    if let Some(after) = behind_two("left", "join", symbols) {
        return Some((JoinWay::Left, after));
    }
    if let Some(after) = behind_three("left", "outer", "join", symbols) {
        return Some((JoinWay::Left, after));
    }
    match behind_two("cross", "join", symbols) {
        Some(after) => Some((JoinWay::Cross, after)),
        None => None,
    }
}

/// The entry at the front and the condition behind ON.
#[tactic(auto, unfolding(crate::specs::QueryReading::on_of))]
fn entry_on(
    alloc: Global,
    room: u32,
    symbols: Symbols<'_>,
) -> Result<(Entry, Expr, Symbols<'_>), ReadFault>
    requires { room < 1000 }
    ensures { ReadsAs (λ x. ((entry_tree x.0, expr_tree x.1), terminals_of x.2.now)) result
        (reading.on_of room (terminals_of symbols.now)) }
{
    let (entry, rest) = entry(alloc, symbols)?;
    match behind_word("on", rest) {
        Some(after) => {
            let found = whole(alloc, room, after)?;
            Ok((entry, found.expr, found.rest))
        }
        None => Err(ReadFault::Refused(Refusal::Syntax)),
    }
}

/// The join behind its words.
fn join(
    alloc: Global,
    way: JoinWay,
    room: u32,
    symbols: Symbols<'_>,
) -> Result<(Join, Symbols<'_>), ReadFault>
    requires { room < 1000 }
    ensures { ReadsAs (λ x. (join_tree x.0, terminals_of x.1.now)) result (reading.join_of way room (terminals_of symbols.now)) }
{
    match way {
        JoinWay::Inner => {
            let (entry, on, rest) = entry_on(alloc, room, symbols)?;
            Ok((Join::Inner(entry, on), rest))
        }
        JoinWay::Left => {
            let (entry, on, rest) = entry_on(alloc, room, symbols)?;
            Ok((Join::Left(entry, on), rest))
        }
        JoinWay::Cross => {
            let (entry, rest) = entry(alloc, symbols)?;
            Ok((Join::Cross(entry), rest))
        }
    }
}

/// The joins at the front, and the symbols behind them.
#[tactic(auto, unfolding(crate::specs::QueryReading::all_joins_of))]
fn joins(
    alloc: Global,
    room: u32,
    symbols: Symbols<'_>,
) -> Result<(Vec<Join>, Symbols<'_>), ReadFault>
    requires { room < 1000 }
    ensures { ReadsAs (λ x. (map join_tree x.0.items, terminals_of x.1.now)) result (reading.all_joins_of room (terminals_of symbols.now)) }
{
    let mut list = Vec::new(alloc);
    let mut rest = onward(symbols);
    while let Some((way, after)) = join_words(rest) {
        let (next, more) = join(alloc, way, room, after)?;
        list.push(next)?;
        rest = onward(more);
    }
    Ok((list, rest))
}

/// The entry at the front with its joins.
#[tactic(auto, unfolding(crate::specs::QueryReading::source_of))]
fn chain(alloc: Global, room: u32, symbols: Symbols<'_>) -> Result<(Chain, Symbols<'_>), ReadFault>
    requires { room < 1000 }
    ensures { ReadsAs (λ x. (chain_tree x.0, terminals_of x.1.now)) result (reading.source_of room (terminals_of symbols.now)) }
{
    let (first, rest) = entry(alloc, symbols)?;
    let (joins, rest) = joins(alloc, room, rest)?;
    Ok((Chain { first, joins }, rest))
}

/// The chains at the front, with a comma between each two, and the symbols behind them.
fn chain_list(
    alloc: Global,
    room: u32,
    symbols: Symbols<'_>,
) -> Result<(Vec<Chain>, Symbols<'_>), ReadFault>
    requires { room < 1000 }
    ensures { ReadsAs (λ x. (map chain_tree x.0.items, terminals_of x.1.now))
        result (reading.list_of (reading.source_of room) (terminals_of symbols.now)) }
{
    let mut list = Vec::new(alloc);
    let (first, behind_first) = chain(alloc, room, symbols)?;
    list.push(first)?;
    let mut rest = behind_first;
    while let Some(after) = behind(Separator::Comma, rest) {
        let (next, more) = chain(alloc, room, after)?;
        list.push(next)?;
        rest = more;
    }
    Ok((list, rest))
}

/// The chains behind FROM; none where there is no FROM.
#[tactic(auto, unfolding(crate::specs::QueryReading::listed_of))]
pub fn chains(
    alloc: Global,
    room: u32,
    symbols: Symbols<'_>,
) -> Result<(Vec<Chain>, Symbols<'_>), ReadFault>
    requires { room < 1000 }
    ensures { ReadsAs (λ x. (map chain_tree x.0.items, terminals_of x.1.now))
        result (reading.listed_of (codes "from" ∷ []) (reading.source_of room) (terminals_of symbols.now)) }
{
    match behind_word("from", symbols) {
        Some(after) => chain_list(alloc, room, after),
        None => Ok((Vec::new(alloc), symbols)),
    }
}
