//! Lists with a comma between each two.

ghost use Rattle.med_syntax.specs.Prelude.{ReadsAs, terminals_of, expr_tree, names_tree, row_tree, set_tree};
ghost use Rattle.med_syntax.specs.ExprReading.{below};
ghost use Rattle.query_reader.specs.QueryReading.{list_of, read_name};
ghost use Rattle.std.specs.Prelude.{◌≡◌, ◌<◌, map, option_map};
ghost use Rattle.std.specs.String.{string_bytes};
ghost use Rattle.write_parser.specs.WriteReading as reading;

use crate::write_words::{behind_left, behind_right, expr, name, set_at};
use med_syntax::refusal::{ReadFault, Refusal};
use med_syntax::symbols::{Separator, Symbols, behind};
use med_syntax::{Expr, SetClause};
use std::alloc::Global;

/// The names at the front, and the symbols behind them.
fn name_list(alloc: Global, symbols: Symbols<'_>) -> Result<(Vec<String>, Symbols<'_>), ReadFault>
    ensures { ReadsAs (λ x. (map string_bytes x.0.items, terminals_of x.1.now)) result (list_of read_name (terminals_of symbols.now)) }
{
    let mut list = Vec::new(alloc);
    let (first, behind_first) = name(alloc, symbols)?;
    list.push(first)?;
    let mut rest = behind_first;
    while let Some(after) = behind(Separator::Comma, rest) {
        let (next, more) = name(alloc, after)?;
        list.push(next)?;
        rest = more;
    }
    Ok((list, rest))
}

/// The names in parentheses, where a left parenthesis stands in front.
#[tactic(auto, unfolding(crate::specs::WriteReading::columns_of, crate::specs::WriteReading::inside))]
pub fn columns(
    alloc: Global,
    symbols: Symbols<'_>,
) -> Result<(Option<Vec<String>>, Symbols<'_>), ReadFault>
    ensures { ReadsAs (λ x. (option_map names_tree x.0, terminals_of x.1.now)) result (reading.columns_of (terminals_of symbols.now)) }
{
    match behind_left(symbols) {
        None => Ok((None, symbols)),
        Some(after) => {
            let (names, rest) = name_list(alloc, after)?;
            let rest = behind_right(rest)?;
            Ok((Some(names), rest))
        }
    }
}

/// The expressions at the front, and the symbols behind them.
fn expr_list(
    alloc: Global,
    room: u32,
    symbols: Symbols<'_>,
) -> Result<(Vec<Expr>, Symbols<'_>), ReadFault>
    requires { room < 1000 }
    ensures { ReadsAs (λ x. (map expr_tree x.0.items, terminals_of x.1.now)) result
        (list_of (below room).whole (terminals_of symbols.now)) }
{
    let mut list = Vec::new(alloc);
    let (first, behind_first) = expr(alloc, room, symbols)?;
    list.push(first)?;
    let mut rest = behind_first;
    while let Some(after) = behind(Separator::Comma, rest) {
        let (next, more) = expr(alloc, room, after)?;
        list.push(next)?;
        rest = more;
    }
    Ok((list, rest))
}

/// The row at the front, in parentheses, and the symbols behind it.
#[tactic(auto, unfolding(crate::specs::WriteReading::row_of, crate::specs::WriteReading::inside))]
fn row(
    alloc: Global,
    room: u32,
    symbols: Symbols<'_>,
) -> Result<(Vec<Expr>, Symbols<'_>), ReadFault>
    requires { room < 1000 }
    ensures { ReadsAs (λ x. (row_tree x.0, terminals_of x.1.now)) result (reading.row_of room (terminals_of symbols.now)) }
{
    match behind_left(symbols) {
        None => Err(ReadFault::Refused(Refusal::Syntax)),
        Some(after) => {
            let (exprs, rest) = expr_list(alloc, room, after)?;
            let rest = behind_right(rest)?;
            Ok((exprs, rest))
        }
    }
}

/// The rows at the front, and the symbols behind them.
pub fn row_list(
    alloc: Global,
    room: u32,
    symbols: Symbols<'_>,
) -> Result<(Vec<Vec<Expr>>, Symbols<'_>), ReadFault>
    requires { room < 1000 }
    ensures { ReadsAs (λ x. (map row_tree x.0.items, terminals_of x.1.now)) result
        (list_of (reading.row_of room) (terminals_of symbols.now)) }
{
    let mut list = Vec::new(alloc);
    let (first, behind_first) = row(alloc, room, symbols)?;
    list.push(first)?;
    let mut rest = behind_first;
    while let Some(after) = behind(Separator::Comma, rest) {
        let (next, more) = row(alloc, room, after)?;
        list.push(next)?;
        rest = more;
    }
    Ok((list, rest))
}

/// The column that is set at the front, with its value, and the symbols behind it.
#[tactic(auto, unfolding(crate::specs::WriteReading::set_of))]
fn set(
    alloc: Global,
    room: u32,
    symbols: Symbols<'_>,
) -> Result<(SetClause, Symbols<'_>), ReadFault>
    requires { room < 1000 }
    ensures { ReadsAs (λ x. (set_tree x.0, terminals_of x.1.now)) result (reading.set_of room (terminals_of symbols.now)) }
{
    let (column, rest) = set_at(alloc, symbols)?;
    let (value, rest) = expr(alloc, room, rest)?;
    Ok((SetClause { column, value }, rest))
}

/// The columns that are set at the front, and the symbols behind them.
pub fn set_list(
    alloc: Global,
    room: u32,
    symbols: Symbols<'_>,
) -> Result<(Vec<SetClause>, Symbols<'_>), ReadFault>
    requires { room < 1000 }
    ensures { ReadsAs (λ x. (map set_tree x.0.items, terminals_of x.1.now)) result
        (list_of (reading.set_of room) (terminals_of symbols.now)) }
{
    let mut list = Vec::new(alloc);
    let (first, behind_first) = set(alloc, room, symbols)?;
    list.push(first)?;
    let mut rest = behind_first;
    while let Some(after) = behind(Separator::Comma, rest) {
        let (next, more) = set(alloc, room, after)?;
        list.push(next)?;
        rest = more;
    }
    Ok((list, rest))
}
