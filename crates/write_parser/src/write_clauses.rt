//! Statements that write rows, by recursive descent.

ghost use Rattle.med_syntax.specs.Prelude.{ReadsAs, again, terminals_of, expr_tree, names_tree, set_tree, write_tree};
ghost use Rattle.query_reader.specs.QueryReading.{is_end};
ghost use Rattle.std.specs.Prelude.{◌≡◌, ◌<◌, map, option_map, Err};
ghost use Rattle.std.specs.String.{string_bytes};
ghost use Rattle.write_parser.specs.WriteReading as reading;

use crate::write_lists::{columns, row_list, set_list};
use crate::write_words::{behind_two, behind_word, entry, expr, name};
use med_syntax::refusal::{ReadFault, Refusal};
use med_syntax::symbols::{Symbol, Symbols};
use med_syntax::weighing::{ROOM, weight};
use med_syntax::{Delete, Expr, Given, Insert, SetClause, Update, WriteStatement};
use med_value::limits::HEIGHT_LIMIT;
use std::alloc::Global;

/// The table and the columns behind INSERT INTO, and the symbols behind them.
#[tactic(auto, unfolding(crate::specs::WriteReading::target_of))]
fn target(
    alloc: Global,
    symbols: Symbols<'_>,
) -> Result<(String, Option<Vec<String>>, Symbols<'_>), ReadFault>
    ensures { ReadsAs (λ x. ((string_bytes x.0, option_map names_tree x.1), terminals_of x.2.now))
        result (reading.target_of (terminals_of symbols.now)) }
{
    let (table, rest) = name(alloc, symbols)?;
    let (columns, rest) = columns(alloc, rest)?;
    Ok((table, columns, rest))
}

/// The table and the columns of an INSERT of a query, and the symbols of the query.
#[tactic(auto, unfolding(crate::specs::WriteReading::query_at))]
pub fn query_at(
    alloc: Global,
    symbols: Symbols<'_>,
) -> Result<(String, Option<Vec<String>>, Symbols<'_>), ReadFault>
    ensures { ReadsAs (λ x. ((string_bytes x.0, option_map names_tree x.1), terminals_of x.2.now))
        result (reading.query_at (terminals_of symbols.now)) }
{
    match behind_two("insert", "into", symbols) {
        None => Err(ReadFault::Refused(Refusal::Syntax)),
        Some(after) => {
            let (table, columns, rest) = target(alloc, after)?;
            match behind_word("select", rest) {
                None => Err(ReadFault::Refused(Refusal::Syntax)),
                Some(_) => Ok((table, columns, rest)),
            }
        }
    }
}

/// The INSERT behind INSERT INTO, where it has VALUES.
#[tactic(auto, unfolding(crate::specs::WriteReading::insert_of))]
fn insert(
    alloc: Global,
    room: u32,
    symbols: Symbols<'_>,
) -> Result<(WriteStatement, Symbols<'_>), ReadFault>
    requires { room < 1000 }
    ensures { ReadsAs (λ x. (write_tree x.0, terminals_of x.1.now)) result (reading.insert_of room (terminals_of symbols.now)) }
{
    let (table, columns, rest) = target(alloc, symbols)?;
    match behind_word("values", rest) {
        None => Err(ReadFault::Refused(Refusal::Syntax)),
        Some(after) => {
            let (rows, rest) = row_list(alloc, room, after)?;
            let given = Given::Values(rows);
            Ok((
                WriteStatement::Insert(Insert {
                    table,
                    columns,
                    given,
                }),
                rest,
            ))
        }
    }
}

/// The condition behind WHERE, where it stands in front.
#[tactic(auto, unfolding(query_reader::specs::QueryReading::perhaps_of))]
fn condition(
    alloc: Global,
    room: u32,
    symbols: Symbols<'_>,
) -> Result<(Option<Expr>, Symbols<'_>), ReadFault>
    requires { room < 1000 }
    ensures { ReadsAs (λ x. (option_map expr_tree x.0, terminals_of x.1.now)) result (reading.where_of room (terminals_of symbols.now)) }
{
    match behind_word("where", symbols) {
        Some(after) => {
            let (condition, rest) = expr(alloc, room, after)?;
            Ok((Some(condition), rest))
        }
        None => Ok((None, symbols)),
    }
}

/// What is set behind SET, and the condition.
#[tactic(auto, unfolding(crate::specs::WriteReading::sets_of))]
fn sets(
    alloc: Global,
    room: u32,
    symbols: Symbols<'_>,
) -> Result<(Vec<SetClause>, Option<Expr>, Symbols<'_>), ReadFault>
    requires { room < 1000 }
    ensures { ReadsAs (λ x. ((map set_tree x.0.items, option_map expr_tree x.1), terminals_of x.2.now))
        result (reading.sets_of room (terminals_of symbols.now)) }
{
    let (sets, rest) = set_list(alloc, room, symbols)?;
    let (condition, rest) = condition(alloc, room, rest)?;
    Ok((sets, condition, rest))
}

/// The UPDATE behind UPDATE.
#[tactic(auto, unfolding(crate::specs::WriteReading::update_of))]
fn update(
    alloc: Global,
    room: u32,
    symbols: Symbols<'_>,
) -> Result<(WriteStatement, Symbols<'_>), ReadFault>
    requires { room < 1000 }
    ensures { ReadsAs (λ x. (write_tree x.0, terminals_of x.1.now)) result (reading.update_of room (terminals_of symbols.now)) }
{
    let (entry, rest) = entry(alloc, symbols)?;
    match behind_word("set", rest) {
        None => Err(ReadFault::Refused(Refusal::Syntax)),
        Some(after) => {
            let (sets, condition, rest) = sets(alloc, room, after)?;
            Ok((
                WriteStatement::Update(Update {
                    entry,
                    sets,
                    condition,
                }),
                rest,
            ))
        }
    }
}

/// The DELETE behind DELETE FROM.
#[tactic(auto, unfolding(crate::specs::WriteReading::delete_of))]
fn delete(
    alloc: Global,
    room: u32,
    symbols: Symbols<'_>,
) -> Result<(WriteStatement, Symbols<'_>), ReadFault>
    requires { room < 1000 }
    ensures { ReadsAs (λ x. (write_tree x.0, terminals_of x.1.now)) result (reading.delete_of room (terminals_of symbols.now)) }
{
    let (entry, rest) = entry(alloc, symbols)?;
    let (condition, rest) = condition(alloc, room, rest)?;
    Ok((WriteStatement::Delete(Delete { entry, condition }), rest))
}

/// The statement without a query at the front, and the symbols behind it.
#[tactic(auto, unfolding(crate::specs::WriteReading::plain_of))]
fn plain(
    alloc: Global,
    room: u32,
    symbols: Symbols<'_>,
) -> Result<(WriteStatement, Symbols<'_>), ReadFault>
    requires { room < 1000 }
    ensures { ReadsAs (λ x. (write_tree x.0, terminals_of x.1.now)) result (reading.plain_of room (terminals_of symbols.now)) }
{
    if let Some(after) = behind_two("insert", "into", symbols) {
        return insert(alloc, room, after);
    }
    if let Some(after) = behind_two("delete", "from", symbols) {
        return delete(alloc, room, after);
    }
    match behind_word("update", symbols) {
        Some(after) => update(alloc, room, after),
        None => Err(ReadFault::Refused(Refusal::Syntax)),
    }
}

/// Whether nothing is left but perhaps one semicolon.
fn ends(symbols: Symbols<'_>) -> bool
    ensures { result ≡ is_end (terminals_of symbols.now) }
{
    matches!(symbols, [] | [Symbol::Semicolon])
}

/// The statement without a query that all of the symbols are, where no expression is higher than the room.
#[tactic(auto, unfolding(crate::specs::WriteReading::plain_line))]
fn line(alloc: Global, room: u32, symbols: Symbols<'_>) -> Result<WriteStatement, ReadFault>
    requires { room < 1000 }
    ensures { ReadsAs write_tree result (reading.plain_line room (terminals_of symbols.now)) }
{
    let (statement, rest) = plain(alloc, room, symbols)?;
    if ends(rest) {
        Ok(statement)
    } else {
        drop(statement);
        Err(ReadFault::Refused(Refusal::Syntax))
    }
}

/// Why symbols of few heavy ones are refused that have no room: they are a statement, or they are none.
fn wide_fault(alloc: Global, symbols: Symbols<'_>) -> ReadFault
    ensures { ReadsAs write_tree (Err result) (again (reading.plain_line 455 (terminals_of symbols.now))) }
{
    match line(alloc, ROOM, symbols) {
        Ok(statement) => {
            drop(statement);
            ReadFault::Refused(Refusal::TooHigh)
        }
        Err(ReadFault::Refused(_)) => ReadFault::Refused(Refusal::Syntax),
        Err(ReadFault::NoMemory) => ReadFault::NoMemory,
    }
}

/// The statement without a query that all of the symbols are. Where few of them are heavy, what is told to be too high is a statement.
#[tactic(auto, unfolding(crate::specs::WriteReading::bounded_plain))]
pub fn bounded(alloc: Global, symbols: Symbols<'_>) -> Result<WriteStatement, ReadFault>
    ensures { ReadsAs write_tree result (reading.bounded_plain (terminals_of symbols.now)) }
{
    match line(alloc, HEIGHT_LIMIT, symbols) {
        Err(ReadFault::Refused(Refusal::TooHigh)) => {
            if weight(symbols) > HEIGHT_LIMIT as usize {
                Err(ReadFault::Refused(Refusal::TooHigh))
            } else {
                Err(wide_fault(alloc, symbols))
            }
        }
        Err(fault) => Err(fault),
        Ok(statement) => Ok(statement),
    }
}
