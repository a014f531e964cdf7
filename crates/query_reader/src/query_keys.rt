//! GROUP BY, ORDER BY, LIMIT and OFFSET, by recursive descent.

ghost use Rattle.med_syntax.specs.Prelude.{ReadsAs, terminals_of, expr_tree, group_tree, key_tree, limit_tree};
ghost use Rattle.query_reader.specs.QueryReading as reading;
ghost use Rattle.std.specs.Prelude.{◌≡◌, ◌<◌, ◌∷◌, [], codes, option_map, map};

use crate::query_statement::{behind_two, behind_word};
use expr_reader::whole;
use med_syntax::refusal::{ReadFault, Refusal};
use med_syntax::symbols::{Separator, Symbol, Symbols, behind};
use med_syntax::{Expr, GroupColumn, Limit, OrderKey};
use std::alloc::Global;

/// Whether the first word stands in front, and the symbols behind it, or behind the other word in its place.
#[tactic(auto, unfolding(crate::specs::QueryReading::flag_of))]
pub fn flag<'a>(one: &str, other: &str, symbols: Symbols<'a>) -> (bool, Symbols<'a>)
    ensures { reading.flag_of one.now other.now (terminals_of symbols.now) ≡ (result.0, terminals_of result.1.now) }
{
    if let Some(after) = behind_word(one, symbols) {
        return (true, after);
    }
    match behind_word(other, symbols) {
        Some(after) => (false, after),
        None => (false, symbols),
    }
}

// ---- GROUP BY

/// The column at the front, and the symbols behind it.
fn group(alloc: Global, symbols: Symbols<'_>) -> Result<(GroupColumn, Symbols<'_>), ReadFault>
    ensures { ReadsAs (λ x. (group_tree x.0, terminals_of x.1.now)) result (reading.group_of (terminals_of symbols.now)) }
{
    match symbols {
        [
            Symbol::Name(table),
            Symbol::Dot,
            Symbol::Name(name),
            rest @ ..,
        ] => {
            let qualifier = Some(String::from_str(alloc, table)?);
            Ok((
                GroupColumn {
                    qualifier,
                    name: String::from_str(alloc, name)?,
                },
                rest,
            ))
        }
        [Symbol::Name(name), rest @ ..] => Ok((
            GroupColumn {
                qualifier: None,
                name: String::from_str(alloc, name)?,
            },
            rest,
        )),
        _ => Err(ReadFault::Refused(Refusal::Syntax)),
    }
}

/// The columns at the front, with a comma between each two, and the symbols behind them.
fn group_list(
    alloc: Global,
    symbols: Symbols<'_>,
) -> Result<(Vec<GroupColumn>, Symbols<'_>), ReadFault>
    ensures { ReadsAs (λ x. (map group_tree x.0.items, terminals_of x.1.now))
        result (reading.list_of reading.group_of (terminals_of symbols.now)) }
{
    let mut list = Vec::new(alloc);
    let (first, behind_first) = group(alloc, symbols)?;
    list.push(first)?;
    let mut rest = behind_first;
    while let Some(after) = behind(Separator::Comma, rest) {
        let (next, more) = group(alloc, after)?;
        list.push(next)?;
        rest = more;
    }
    Ok((list, rest))
}

/// The columns behind GROUP BY; none where it is not written.
#[tactic(auto, unfolding(crate::specs::QueryReading::listed_of))]
pub fn groups(
    alloc: Global,
    symbols: Symbols<'_>,
) -> Result<(Vec<GroupColumn>, Symbols<'_>), ReadFault>
    ensures { ReadsAs (λ x. (map group_tree x.0.items, terminals_of x.1.now))
        result (reading.listed_of (codes "group" ∷ codes "by" ∷ []) reading.group_of (terminals_of symbols.now)) }
{
    match behind_two("group", "by", symbols) {
        Some(after) => group_list(alloc, after),
        None => Ok((Vec::new(alloc), symbols)),
    }
}

// ---- ORDER BY

/// Whether NULL comes first, where nothing says so as given, and the symbols behind NULLS FIRST or NULLS LAST.
#[tactic(auto, unfolding(crate::specs::QueryReading::nulls_of))]
fn nulls(absent: bool, symbols: Symbols<'_>) -> (bool, Symbols<'_>)
    ensures { reading.nulls_of absent (terminals_of symbols.now) ≡ (result.0, terminals_of result.1.now) }
{
    if let Some(after) = behind_two("nulls", "first", symbols) {
        return (true, after);
    }
    match behind_two("nulls", "last", symbols) {
        Some(after) => (false, after),
        None => (absent, symbols),
    }
}

/// The key of the expression, by what stands behind it.
#[tactic(auto, unfolding(crate::specs::QueryReading::key_after))]
fn directed(key: Expr, symbols: Symbols<'_>) -> (OrderKey, Symbols<'_>)
    ensures { reading.key_after (expr_tree key) (terminals_of symbols.now) ≡ (key_tree result.0, terminals_of result.1.now) }
{
    let (descending, rest) = flag("desc", "asc", symbols);
    let (nulls_first, rest) = nulls(descending, rest);
    (
        OrderKey {
            key,
            descending,
            nulls_first,
        },
        rest,
    )
}

/// The key at the front, and the symbols behind it.
#[tactic(auto, unfolding(crate::specs::QueryReading::key_of))]
fn key(alloc: Global, room: u32, symbols: Symbols<'_>) -> Result<(OrderKey, Symbols<'_>), ReadFault>
    requires { room < 1000 }
    ensures { ReadsAs (λ x. (key_tree x.0, terminals_of x.1.now)) result (reading.key_of room (terminals_of symbols.now)) }
{
    let found = whole(alloc, room, symbols)?;
    Ok(directed(found.expr, found.rest))
}

/// The keys at the front, with a comma between each two, and the symbols behind them.
fn key_list(
    alloc: Global,
    room: u32,
    symbols: Symbols<'_>,
) -> Result<(Vec<OrderKey>, Symbols<'_>), ReadFault>
    requires { room < 1000 }
    ensures { ReadsAs (λ x. (map key_tree x.0.items, terminals_of x.1.now))
        result (reading.list_of (reading.key_of room) (terminals_of symbols.now)) }
{
    let mut list = Vec::new(alloc);
    let (first, behind_first) = key(alloc, room, symbols)?;
    list.push(first)?;
    let mut rest = behind_first;
    while let Some(after) = behind(Separator::Comma, rest) {
        let (next, more) = key(alloc, room, after)?;
        list.push(next)?;
        rest = more;
    }
    Ok((list, rest))
}

/// The keys behind ORDER BY; none where it is not written.
#[tactic(auto, unfolding(crate::specs::QueryReading::listed_of))]
pub fn keys(
    alloc: Global,
    room: u32,
    symbols: Symbols<'_>,
) -> Result<(Vec<OrderKey>, Symbols<'_>), ReadFault>
    requires { room < 1000 }
    ensures { ReadsAs (λ x. (map key_tree x.0.items, terminals_of x.1.now))
        result (reading.listed_of (codes "order" ∷ codes "by" ∷ []) (reading.key_of room) (terminals_of symbols.now)) }
{
    match behind_two("order", "by", symbols) {
        Some(after) => key_list(alloc, room, after),
        None => Ok((Vec::new(alloc), symbols)),
    }
}

// ---- LIMIT and OFFSET

/// The number at the front, and the symbols behind it.
fn number(symbols: Symbols<'_>) -> Result<(u64, Symbols<'_>), ReadFault>
    ensures { ReadsAs (λ x. (x.0, terminals_of x.1.now)) result (reading.number_of (terminals_of symbols.now)) }
{
    match symbols {
        [Symbol::Number(number), rest @ ..] => Ok((*number, rest)),
        _ => Err(ReadFault::Refused(Refusal::Syntax)),
    }
}

/// The limit behind LIMIT.
#[tactic(auto, unfolding(crate::specs::QueryReading::limit_at))]
fn limit_at(symbols: Symbols<'_>) -> Result<(Option<Limit>, Symbols<'_>), ReadFault>
    ensures { ReadsAs (λ x. (option_map limit_tree x.0, terminals_of x.1.now)) result (reading.limit_at (terminals_of symbols.now)) }
{
    match behind_word("all", symbols) {
        Some(after) => Ok((Some(Limit::All), after)),
        None => {
            let (rows, rest) = number(symbols)?;
            Ok((Some(Limit::Rows(rows)), rest))
        }
    }
}

/// The limit, where LIMIT stands in front.
#[tactic(auto, unfolding(crate::specs::QueryReading::limit_of))]
fn limit(symbols: Symbols<'_>) -> Result<(Option<Limit>, Symbols<'_>), ReadFault>
    ensures { ReadsAs (λ x. (option_map limit_tree x.0, terminals_of x.1.now)) result (reading.limit_of (terminals_of symbols.now)) }
{
    match behind_word("limit", symbols) {
        Some(after) => limit_at(after),
        None => Ok((None, symbols)),
    }
}

/// The symbols behind ROW or ROWS, where one of them stands in front.
#[tactic(auto, unfolding(crate::specs::QueryReading::behind_unit))]
fn behind_unit(symbols: Symbols<'_>) -> Symbols<'_>
    ensures { reading.behind_unit (terminals_of symbols.now) ≡ terminals_of result.now }
{
    if let Some(after) = behind_word("row", symbols) {
        return after;
    }
    if let Some(after) = behind_word("rows", symbols) {
        return after;
    }
    symbols
}

/// How many rows are left out, where OFFSET stands in front.
#[tactic(auto, unfolding(crate::specs::QueryReading::offset_of))]
fn offset(symbols: Symbols<'_>) -> Result<(Option<u64>, Symbols<'_>), ReadFault>
    ensures { ReadsAs (λ x. (x.0, terminals_of x.1.now)) result (reading.offset_of (terminals_of symbols.now)) }
{
    match behind_word("offset", symbols) {
        Some(after) => {
            let (rows, rest) = number(after)?;
            Ok((Some(rows), behind_unit(rest)))
        }
        None => Ok((None, symbols)),
    }
}

/// The limit that stands behind OFFSET, where there was none before it.
fn limit_after(
    before: Option<Limit>,
    symbols: Symbols<'_>,
) -> Result<(Option<Limit>, Symbols<'_>), ReadFault>
    ensures { ReadsAs (λ x. (option_map limit_tree x.0, terminals_of x.1.now))
        result (reading.limit_after (option_map limit_tree before) (terminals_of symbols.now)) }
{
    match before {
        Some(limit) => Ok((Some(limit), symbols)),
        None => limit(symbols),
    }
}

/// LIMIT and OFFSET in either order, and the symbols behind them.
#[tactic(auto, unfolding(crate::specs::QueryReading::limits_of))]
pub fn limits(symbols: Symbols<'_>) -> Result<(Option<Limit>, Option<u64>, Symbols<'_>), ReadFault>
    ensures { ReadsAs (λ x. ((option_map limit_tree x.0, x.1), terminals_of x.2.now)) result
        (reading.limits_of (terminals_of symbols.now)) }
{
    let (before, rest) = limit(symbols)?;
    let (offset, rest) = offset(rest)?;
    let (limit, rest) = limit_after(before, rest)?;
    Ok((limit, offset, rest))
}
