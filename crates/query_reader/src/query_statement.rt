//! Statements, by recursive descent.

ghost use Rattle.med_syntax.specs.Prelude.{ReadsAs, terminal_of_symbol, terminals_of, expr_tree, core_tree, item_tree, items_tree, select_tree, statement_tree, label_of};
ghost use Rattle.med_syntax.specs.ExprReading.{below};
ghost use Rattle.query_reader.specs.QueryReading as reading;
ghost use Rattle.std.specs.Prelude.{◌≡◌, ◌<◌, ◌∷◌, [], map, option_map};
ghost use Rattle.std.specs.String.{string_bytes};

use crate::query_keys::{flag, groups, keys, limits};
use crate::query_source::chains;
use expr_reader::whole;
use med_syntax::refusal::{ReadFault, Refusal};
use med_syntax::symbols::{Separator, Symbol, Symbols, behind, onward};
use med_syntax::{Core, Expr, Item, Joint, Select, Statement, is_reserved};
use med_value::Operation;
use std::alloc::Global;

/// The symbols behind the keyword, where it comes first.
pub fn behind_word<'a>(word: &str, symbols: Symbols<'a>) -> Option<Symbols<'a>>
    ensures { reading.behind_word word.now (terminals_of symbols.now) ≡ option_map (λ x. terminals_of x.now) result }
{
    match symbols {
        [Symbol::Reserved(reserved), rest @ ..] if *reserved == word => Some(rest),
        _ => None,
    }
}

/// The symbols behind two keywords, where they come first.
pub fn behind_two<'a>(first: &str, second: &str, symbols: Symbols<'a>) -> Option<Symbols<'a>>
    ensures { reading.behind_words (first.now ∷ second.now ∷ []) (terminals_of symbols.now) ≡ option_map (λ x. terminals_of x.now) result }
{
    match behind_word(first, symbols) {
        Some(after) => behind_word(second, after),
        None => None,
    }
}

/// The symbols behind three keywords, where they come first.
pub fn behind_three<'a>(
    first: &str,
    second: &str,
    third: &str,
    symbols: Symbols<'a>,
) -> Option<Symbols<'a>>
    ensures { reading.behind_words (first.now ∷ second.now ∷ third.now ∷ []) (terminals_of symbols.now)
        ≡ option_map (λ x. terminals_of x.now) result }
{
    match behind_word(first, symbols) {
        Some(after) => behind_two(second, third, after),
        None => None,
    }
}

/// The name at the front, and the symbols behind it.
pub fn name(alloc: Global, symbols: Symbols<'_>) -> Result<(String, Symbols<'_>), ReadFault>
    ensures { ReadsAs (λ x. (string_bytes x.0, terminals_of x.1.now)) result (reading.read_name (terminals_of symbols.now)) }
{
    match symbols {
        [Symbol::Name(name), rest @ ..] => Ok((String::from_str(alloc, name)?, rest)),
        _ => Err(ReadFault::Refused(Refusal::Syntax)),
    }
}

/// The name at the front, where there is one.
pub fn perhaps_name(
    alloc: Global,
    symbols: Symbols<'_>,
) -> Result<(Option<String>, Symbols<'_>), ReadFault>
    ensures { ReadsAs (λ x. (option_map string_bytes x.0, terminals_of x.1.now)) result (reading.perhaps_name (terminals_of symbols.now)) }
{
    match symbols {
        [Symbol::Name(name), rest @ ..] => Ok((Some(String::from_str(alloc, name)?), rest)),
        _ => Ok((None, symbols)),
    }
}

/// The word that the symbol is, or its name.
fn word_of<'a>(symbol: &Symbol<'a>) -> Option<&'a str>
    ensures { label_of (terminal_of_symbol symbol.now) ≡ option_map (λ w. w.now) result }
{
    match symbol {
        Symbol::Joint(Joint::And) => Some("and"),
        Symbol::Joint(Joint::Or) => Some("or"),
        Symbol::Not => Some("not"),
        Symbol::Between => Some("between"),
        Symbol::In => Some("in"),
        Symbol::Is => Some("is"),
        Symbol::Like => Some("like"),
        Symbol::Null => Some("null"),
        Symbol::Truth(true) => Some("true"),
        Symbol::Truth(false) => Some("false"),
        Symbol::Name(name) => Some(*name),
        Symbol::Reserved(word) if is_reserved(word) => Some(*word),
        _ => None,
    }
}

/// The label behind AS.
fn label_at(alloc: Global, symbols: Symbols<'_>) -> Result<(Option<String>, Symbols<'_>), ReadFault>
    ensures { ReadsAs (λ x. (option_map string_bytes x.0, terminals_of x.1.now)) result (reading.label_at (terminals_of symbols.now)) }
{
    let [symbol, rest @ ..] = symbols else {
        return Err(ReadFault::Refused(Refusal::Syntax));
    };
    match word_of(symbol) {
        Some(word) => Ok((Some(String::from_str(alloc, word)?), rest)),
        None => Err(ReadFault::Refused(Refusal::Syntax)),
    }
}

/// The label of an item: behind AS any word or a name, and else perhaps a name.
#[tactic(auto, unfolding(crate::specs::QueryReading::label_after))]
fn label(alloc: Global, symbols: Symbols<'_>) -> Result<(Option<String>, Symbols<'_>), ReadFault>
    ensures { ReadsAs (λ x. (option_map string_bytes x.0, terminals_of x.1.now)) result (reading.label_after (terminals_of symbols.now)) }
{
    match behind_word("as", symbols) {
        Some(after) => label_at(alloc, after),
        None => perhaps_name(alloc, symbols),
    }
}

/// The expression at the front with its label.
#[tactic(auto, unfolding(crate::specs::QueryReading::value_item))]
fn value(alloc: Global, room: u32, symbols: Symbols<'_>) -> Result<(Item, Symbols<'_>), ReadFault>
    requires { room < 1000 }
    ensures { ReadsAs (λ x. (item_tree x.0, terminals_of x.1.now)) result (reading.value_item room (terminals_of symbols.now)) }
{
    let found = whole(alloc, room, symbols)?;
    match label(alloc, found.rest) {
        Ok((label, rest)) => Ok((Item::Expression(found.expr, label), rest)),
        Err(fault) => {
            drop(found);
            Err(fault)
        }
    }
}

/// The item at the front, and the symbols behind it.
#[tactic(auto)]
fn item(alloc: Global, room: u32, symbols: Symbols<'_>) -> Result<(Item, Symbols<'_>), ReadFault>
    requires { room < 1000 }
    ensures { ReadsAs (λ x. (item_tree x.0, terminals_of x.1.now)) result (reading.item_of room (terminals_of symbols.now)) }
{
    match symbols {
        [Symbol::Binary(Operation::Multiply), rest @ ..] => Ok((Item::All, rest)),
        [
            Symbol::Name(name),
            Symbol::Dot,
            Symbol::Binary(Operation::Multiply),
            rest @ ..,
        ] => Ok((Item::AllOf(String::from_str(alloc, name)?), rest)),
        _ => value(alloc, room, symbols),
    }
}

/// The items at the front, with a comma between each two, and the symbols behind them.
fn items(
    alloc: Global,
    room: u32,
    symbols: Symbols<'_>,
) -> Result<(Vec<Item>, Symbols<'_>), ReadFault>
    requires { room < 1000 }
    ensures { ReadsAs (λ x. (items_tree x.0.items, terminals_of x.1.now))
        result (reading.list_of (reading.item_of room) (terminals_of symbols.now)) }
{
    let mut list = Vec::new(alloc);
    let (first, behind_first) = item(alloc, room, symbols)?;
    list.push(first)?;
    let mut rest = behind_first;
    while let Some(after) = behind(Separator::Comma, rest) {
        let (next, more) = item(alloc, room, after)?;
        list.push(next)?;
        rest = more;
    }
    Ok((list, rest))
}

/// The condition behind the word, where it stands in front.
#[tactic(auto, unfolding(crate::specs::QueryReading::perhaps_of))]
fn clause<'a>(
    alloc: Global,
    room: u32,
    word: &str,
    symbols: Symbols<'a>,
) -> Result<(Option<Expr>, Symbols<'a>), ReadFault>
    requires { room < 1000 }
    ensures { ReadsAs (λ x. (option_map expr_tree x.0, terminals_of x.1.now))
        result (reading.perhaps_of (word.now ∷ []) (below room).whole (terminals_of symbols.now)) }
{
    match behind_word(word, symbols) {
        Some(after) => {
            let found = whole(alloc, room, after)?;
            Ok((Some(found.expr), found.rest))
        }
        None => Ok((None, symbols)),
    }
}

/// The core behind SELECT and its quantifier.
#[tactic(auto, unfolding(crate::specs::QueryReading::seq, crate::specs::QueryReading::quantified_of))]
fn quantified(
    alloc: Global,
    distinct: bool,
    room: u32,
    symbols: Symbols<'_>,
) -> Result<(Core, Symbols<'_>), ReadFault>
    requires { room < 1000 }
    ensures { ReadsAs (λ x. (core_tree x.0, terminals_of x.1.now)) result
        (reading.quantified_of distinct room (terminals_of symbols.now)) }
{
    let (items, rest) = items(alloc, room, symbols)?;
    let (from, rest) = chains(alloc, room, rest)?;
    let (condition, rest) = clause(alloc, room, "where", rest)?;
    let (groups, rest) = groups(alloc, rest)?;
    let (having, rest) = clause(alloc, room, "having", rest)?;
    Ok((
        Core {
            distinct,
            items,
            from,
            condition,
            groups,
            having,
        },
        rest,
    ))
}

/// The core behind SELECT.
#[tactic(auto, unfolding(crate::specs::QueryReading::selected_of))]
fn selected(
    alloc: Global,
    room: u32,
    symbols: Symbols<'_>,
) -> Result<(Core, Symbols<'_>), ReadFault>
    requires { room < 1000 }
    ensures { ReadsAs (λ x. (core_tree x.0, terminals_of x.1.now)) result (reading.selected_of room (terminals_of symbols.now)) }
{
    let (distinct, rest) = flag("distinct", "all", symbols);
    quantified(alloc, distinct, room, rest)
}

/// The core at the front, and the symbols behind it.
#[tactic(auto, unfolding(crate::specs::QueryReading::core_of))]
fn core(alloc: Global, room: u32, symbols: Symbols<'_>) -> Result<(Core, Symbols<'_>), ReadFault>
    requires { room < 1000 }
    ensures { ReadsAs (λ x. (core_tree x.0, terminals_of x.1.now)) result (reading.core_of room (terminals_of symbols.now)) }
{
    match behind_word("select", symbols) {
        Some(after) => selected(alloc, room, after),
        None => Err(ReadFault::Refused(Refusal::Syntax)),
    }
}

/// The cores at the front, each behind a UNION ALL, and the symbols behind them.
fn unions(
    alloc: Global,
    room: u32,
    symbols: Symbols<'_>,
) -> Result<(Vec<Core>, Symbols<'_>), ReadFault>
    requires { room < 1000 }
    ensures { ReadsAs (λ x. (map core_tree x.0.items, terminals_of x.1.now)) result
        (reading.all_unions_of room (terminals_of symbols.now)) }
{
    let mut others = Vec::new(alloc);
    let mut rest = onward(symbols);
    while let Some(after) = behind_two("union", "all", rest) {
        let (next, more) = core(alloc, room, after)?;
        others.push(next)?;
        rest = onward(more);
    }
    Ok((others, rest))
}

/// The query at the front, and the symbols behind it.
#[tactic(auto, unfolding(crate::specs::QueryReading::seq, crate::specs::QueryReading::query_of))]
fn query(alloc: Global, room: u32, symbols: Symbols<'_>) -> Result<(Select, Symbols<'_>), ReadFault>
    requires { room < 1000 }
    ensures { ReadsAs (λ x. (select_tree x.0, terminals_of x.1.now)) result (reading.query_of room (terminals_of symbols.now)) }
{
    let (core, rest) = core(alloc, room, symbols)?;
    let (others, rest) = unions(alloc, room, rest)?;
    let (keys, rest) = keys(alloc, room, rest)?;
    let (limit, offset, rest) = limits(rest)?;
    Ok((
        Select {
            core,
            others,
            keys,
            limit,
            offset,
        },
        rest,
    ))
}

/// The statement at the front, and the symbols behind it.
#[tactic(auto, unfolding(crate::specs::QueryReading::statement_of))]
fn statement(
    alloc: Global,
    room: u32,
    symbols: Symbols<'_>,
) -> Result<(Statement, Symbols<'_>), ReadFault>
    requires { room < 1000 }
    ensures { ReadsAs (λ x. (statement_tree x.0, terminals_of x.1.now)) result (reading.statement_of room (terminals_of symbols.now)) }
{
    let (query, rest) = query(alloc, room, symbols)?;
    Ok((Statement::Select(query), rest))
}

/// Whether nothing is left but perhaps one semicolon.
fn is_end(symbols: Symbols<'_>) -> bool
    ensures { result ≡ reading.is_end (terminals_of symbols.now) }
{
    matches!(symbols, [] | [Symbol::Semicolon])
}

/// The statement that all of the symbols are, where no expression is higher than the room.
#[tactic(auto, unfolding(crate::specs::QueryReading::line_of))]
pub fn line(alloc: Global, room: u32, symbols: Symbols<'_>) -> Result<Statement, ReadFault>
    requires { room < 1000 }
    ensures { ReadsAs statement_tree result (reading.line_of room (terminals_of symbols.now)) }
{
    let (statement, rest) = statement(alloc, room, symbols)?;
    if is_end(rest) {
        Ok(statement)
    } else {
        drop(statement);
        Err(ReadFault::Refused(Refusal::Syntax))
    }
}
