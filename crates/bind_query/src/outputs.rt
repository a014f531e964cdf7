//! What a query answers of a row, and under which names.
#![tactic(auto, using(
// a cause of a part is one of the whole
bind_names::proofs::Causes::tells_left, bind_names::proofs::Causes::tells_right,
// refused memory, and one cause alone
bind_names::proofs::Causes::tells_memory, bind_names::proofs::Causes::tells_one,
// no cause in either part
bind_names::proofs::Causes::none_of_two,
// what is added, and what stands in a place
bind_names::proofs::Added::added_end))]

ghost use Rattle.bind_names.specs.Prelude.{columns_from, starred, starred_in, expression_name, shown_name, scope_of, visible};
ghost use Rattle.bind_query.specs.Resolving.{AddsShown, AddsItem, AddsItems, ResolvesItems};
ghost use Rattle.med_syntax.specs.Prelude.{expr_tree, value, item_tree};
ghost use Rattle.med_value.specs.Column.{column_of};
ghost use Rattle.med_value.specs.declared.cause.Cause.TheVariants.{OutOfMemory};
ghost use Rattle.std.specs.Prelude.{◌≡◌, ◌+◌, ◌≤◌, [], map, length, option_map, string_bytes, Some, None, IfOk, IfErr};

use crate::resolve::resolve;
use bind_names::{Visible, is_any_named, is_named};
use med_syntax::{Expr as Written, Item};
use med_value::{Cause, ColumnDef};
use std::alloc::Global;
use tri_expr::Expr;

/// What a query answers in one place of its rows, and its name there.
#[derive(Drop)]
pub struct Shown {
    /// The name.
    pub name: String,
    /// The expression.
    pub value: Expr,
}

// Each column, in order, the first standing at a place.
fn push_columns(
    alloc: Global,
    at: usize,
    columns: &[ColumnDef],
    out: &mut Vec<Shown>,
) -> Result<(), Cause>
    requires { at + length columns.now ≤ 18446744073709551615 }
    ensures { AddsShown [] (columns_from at (map column_of columns.now)) out.old.items out.new.items result }
{
    for (place, column) in columns.iter().enumerate() {
        let name = column.name.as_str().to_string(alloc)?;
        let value = Expr::Column(at + place);
        out.push(Shown { name, value })?;
    }
    Ok(())
}

// `*`: each column of each entry.
fn push_all(alloc: Global, scope: &[Visible<'_>], out: &mut Vec<Shown>) -> Result<(), Cause>
    ensures { AddsShown [] (starred 0 None (scope_of scope.now)) out.old.items out.new.items result }
{
    let mut at: usize = 0;
    for entry in scope {
        let end = match at.checked_add(entry.columns.len()) {
            Some(end) => end,
            None => return Err(Cause::OutOfMemory),
        };
        push_columns(alloc, at, entry.columns, out)?;
        at = end;
    }
    Ok(())
}

// The columns of an entry, if it has this name.
fn push_named(
    alloc: Global,
    at: usize,
    entry: Visible<'_>,
    name: &str,
    out: &mut Vec<Shown>,
) -> Result<(), Cause>
    requires { at + length entry.columns.now ≤ 18446744073709551615 }
    ensures { AddsShown [] (starred_in at (Some name.now) (visible entry.entry)) out.old.items out.new.items result }
{
    if is_named(entry, name) {
        push_columns(alloc, at, entry.columns, out)
    } else {
        Ok(())
    }
}

// `name.*`: each column of each entry of this name.
fn push_all_of(
    alloc: Global,
    scope: &[Visible<'_>],
    name: &str,
    out: &mut Vec<Shown>,
) -> Result<(), Cause>
    ensures { AddsShown [] (starred 0 (Some name.now) (scope_of scope.now)) out.old.items out.new.items result }
{
    let mut at: usize = 0;
    for entry in scope {
        let end = match at.checked_add(entry.columns.len()) {
            Some(end) => end,
            None => return Err(Cause::OutOfMemory),
        };
        push_named(alloc, at, *entry, name, out)?;
        at = end;
    }
    Ok(())
}

// The name of an expression without an alias: the column's name, else the function's, parentheses looked through.
fn expression_name(e: &Written) -> &str
    ensures { result.now ≡ expression_name (expr_tree e.now) }
{
    match e {
        Written::Column(_, name) => name.as_str(),
        Written::CallAll(name) => name.as_str(),
        Written::Call(name, _) => name.as_str(),
        Written::Paren(e) => expression_name(e),
        _ => "?column?",
    }
}

// The name of an item.
fn output_name(alloc: Global, e: &Written, alias: &Option<String>) -> Result<String, Cause>
    ensures ok { IfOk result (λ name. string_bytes name ≡ shown_name (expr_tree e.now) (option_map string_bytes alias.now)) }
    ensures err { IfErr result (λ c. c ≡ OutOfMemory) }
{
    match alias {
        Some(alias) => Ok(alias.as_str().to_string(alloc)?),
        None => Ok(expression_name(e).to_string(alloc)?),
    }
}

// An expression as an item.
fn push_value(
    alloc: Global,
    scope: &[Visible<'_>],
    e: &Written,
    alias: &Option<String>,
    out: &mut Vec<Shown>,
) -> Result<(), Cause>
    ensures { let item = value (expr_tree e.now) (option_map string_bytes alias.now) in
        AddsItem (scope_of scope.now) item out.old.items out.new.items result }
{
    let value = resolve(alloc, scope, e)?;
    match output_name(alloc, e, alias) {
        Ok(name) => {
            out.push(Shown { name, value })?;
            Ok(())
        }
        Err(cause) => {
            drop(value);
            Err(cause)
        }
    }
}

// What an item stands for.
fn push_item(
    alloc: Global,
    scope: &[Visible<'_>],
    item: &Item,
    out: &mut Vec<Shown>,
) -> Result<(), Cause>
    ensures { AddsItem (scope_of scope.now) (item_tree item.now) out.old.items out.new.items result }
{
    match item {
        Item::All => {
            if scope.is_empty() {
                return Err(Cause::MisplacedName);
            }
            push_all(alloc, scope, out)
        }
        Item::AllOf(name) => {
            if !is_any_named(scope, name.as_str()) {
                return Err(Cause::UndefinedTable);
            }
            push_all_of(alloc, scope, name.as_str(), out)
        }
        Item::Expression(e, alias) => push_value(alloc, scope, e, alias, out),
    }
}

// Appends what the items stand for.
fn push_items(
    alloc: Global,
    scope: &[Visible<'_>],
    items: &[Item],
    out: &mut Vec<Shown>,
) -> Result<(), Cause>
    ensures { AddsItems (scope_of scope.now) (map item_tree items.now) out.old.items out.new.items result }
{
    for item in items {
        push_item(alloc, scope, item, out)?;
    }
    Ok(())
}

/// What the items of a select list stand for, or why a name in one is refused: 42601 for `*` without FROM, 42P01 for `name.*` where no
/// entry has the name, and what `resolve` tells.
pub fn outputs_of(alloc: Global, scope: &[Visible<'_>], items: &[Item]) -> Result<Vec<Shown>, Cause>
    ensures { ResolvesItems (scope_of scope.now) (map item_tree items.now) result }
{
    let mut out = Vec::new(alloc);
    push_items(alloc, scope, items, &mut out)?;
    Ok(out)
}
