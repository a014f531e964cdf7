//! FROM: the tables that it names, and what they bring into view.
#![tactic(auto, using(
// a cause of a part is one of the whole
crate::proofs::Causes::tells_left, crate::proofs::Causes::tells_right,
// refused memory, and one cause alone
crate::proofs::Causes::tells_memory, crate::proofs::Causes::tells_one,
// no cause in either part
crate::proofs::Causes::none_of_two,
// what is added, and what stands in a place
crate::proofs::Added::added_end, crate::proofs::Tables::get_read,
// columns of a table
crate::proofs::Tables::columns_missing, crate::proofs::Tables::columns_found, crate::proofs::Tables::found_at))]

ghost use Rattle.std.specs.Prelude.{◌≡◌, ◌∷◌, [], map, flat_map, bytes_eq};
ghost use Rattle.std.specs.List.{list_any};
ghost use Rattle.med_value.specs.Column.{column_of};
ghost use Rattle.med_syntax.specs.Prelude.{entry_tree, join_tree, chain_tree, core_tree, select_tree, CoreTree};
ghost use Rattle.bind_names.specs.Scope as spec;
ghost use Rattle.bind_names.specs.Scope.{table_shape, visible, entry_shape, entry_columns, chain_entries, from_scope};
ghost use Rattle.bind_names.specs.Naming.{alias_causes};
ghost use Rattle.bind_names.specs.Telling.{Means, Passes};
ghost use Rattle.bind_names.specs.Seen.{seen_entry, AddsEntries, name_of, FindsTable};

use crate::scope::Visible;
use crate::table::TableView;
use med_syntax::{Chain, Core, Entry, Join, Select};
use med_value::{Cause, ColumnDef};
use std::alloc::Global;

/// A table, and its place in the list of tables.
#[derive(Clone, Copy)]
pub struct Located<'a> {
    /// The place.
    pub place: usize,
    /// The table.
    pub table: &'a TableView<'a>,
}

/// The first table of this name.
pub fn table_named<'a>(tables: &'a [TableView<'a>], name: &str) -> Option<Located<'a>>
    ensures { FindsTable tables.now name.now result }
{
    for (place, table) in tables.iter().enumerate() {
        if table.name == name {
            return Some(Located { place, table });
        }
    }
    None
}

// The name by which an entry is called.
fn exposed_name(entry: &Entry) -> &str
    ensures { result.now ≡ spec.exposed_name (entry_tree entry.now) }
{
    match &entry.alias {
        Some(alias) => alias.as_str(),
        None => entry.table.as_str(),
    }
}

/// The entry that a join brings.
pub fn joined_entry(join: &Join) -> &Entry
    ensures { entry_tree result.now ≡ spec.joined_entry (join_tree join.now) }
{
    match join {
        Join::Inner(entry, _) => entry,
        Join::Left(entry, _) => entry,
        Join::Cross(entry) => entry,
    }
}

// Appends the entries that the joins bring.
fn push_joined<'a>(joins: &'a [Join], out: &mut Vec<&'a Entry>) -> Result<(), Cause>
    ensures { AddsEntries (map spec.joined_entry (map join_tree joins.now)) out.old.items out.new.items result }
{
    for join in joins {
        out.push(joined_entry(join))?;
    }
    Ok(())
}

// Appends the entries of a chain.
fn push_chain<'a>(chain: &'a Chain, out: &mut Vec<&'a Entry>) -> Result<(), Cause>
    ensures { AddsEntries (chain_entries (chain_tree chain.now)) out.old.items out.new.items result }
{
    out.push(&chain.first)?;
    push_joined(chain.joins.as_slice(), out)
}

// Appends the entries of the chains, one chain after another.
fn push_chains<'a>(chains: &'a [Chain], out: &mut Vec<&'a Entry>) -> Result<(), Cause>
    ensures { AddsEntries (spec.entries_of (map chain_tree chains.now)) out.old.items out.new.items result }
{
    for chain in chains {
        push_chain(chain, out)?;
    }
    Ok(())
}

/// The entries of FROM, in the order in which they are written.
pub fn entries_of(alloc: Global, chains: &[Chain]) -> Result<Vec<&Entry>, Cause>
    ensures { Means (λ v. map seen_entry v.items) [] (spec.entries_of (map chain_tree chains.now)) result }
{
    let mut out = Vec::new(alloc);
    push_chains(chains, &mut out)?;
    Ok(out)
}

// Appends the entries of each core.
fn push_cores<'a>(cores: &'a [Core], out: &mut Vec<&'a Entry>) -> Result<(), Cause>
    ensures { AddsEntries (flat_map (λ (c : CoreTree). spec.entries_of c.from) (map core_tree cores.now))
        out.old.items out.new.items result }
{
    for core in cores {
        push_chains(core.from.as_slice(), out)?;
    }
    Ok(())
}

/// The entries of a query: those of FROM of each core, one core after another.
pub fn query_entries(alloc: Global, select: &Select) -> Result<Vec<&Entry>, Cause>
    ensures { Means (λ v. map seen_entry v.items) [] (spec.query_entries (select_tree select.now)) result }
{
    let mut out = Vec::new(alloc);
    push_chains(select.core.from.as_slice(), &mut out)?;
    push_cores(select.others.as_slice(), &mut out)?;
    Ok(out)
}

// The columns of an entry's table; none where there is no such table.
fn columns_of<'a>(tables: &'a [TableView<'a>], entry: &Entry) -> &'a [ColumnDef]
    ensures { map column_of result.now ≡ entry_columns (map table_shape tables.now) (entry_tree entry.now) }
{
    match table_named(tables, entry.table.as_str()) {
        None => &[],
        Some(found) => found.table.columns,
    }
}

/// What an entry brings into view.
pub fn visible_of<'a>(tables: &'a [TableView<'a>], entry: &'a Entry) -> Visible<'a>
    ensures { visible result ≡ entry_shape (map table_shape tables.now) (entry_tree entry.now) }
{
    Visible {
        name: exposed_name(entry),
        columns: columns_of(tables, entry),
    }
}

/// What the entries bring into view.
pub fn scope_of<'a>(
    alloc: Global,
    tables: &'a [TableView<'a>],
    entries: &[&'a Entry],
) -> Result<Vec<Visible<'a>>, Cause>
    ensures { Means (λ v. map visible v.items) [] (map (entry_shape (map table_shape tables.now)) (map seen_entry entries.now)) result }
{
    let mut out = Vec::new(alloc);
    for entry in entries {
        out.push(visible_of(tables, *entry))?;
    }
    Ok(out)
}

/// What FROM brings into view. Refused only where memory is.
pub fn from_in_view<'a>(
    alloc: Global,
    tables: &'a [TableView<'a>],
    chains: &'a [Chain],
) -> Result<Vec<Visible<'a>>, Cause>
    ensures { Means (λ v. map visible v.items) [] (from_scope (map table_shape tables.now) (map chain_tree chains.now)) result }
{
    let written = entries_of(alloc, chains)?;
    scope_of(alloc, tables, written.as_slice())
}

// Whether one of the entries has this name.
fn is_among(name: &str, scope: &[Visible<'_>]) -> bool
    ensures { result ≡ list_any (bytes_eq name.now) (map name_of scope.now) }
{
    for entry in scope {
        if name == entry.name {
            return true;
        }
    }
    false
}

/// 42712 where two entries have one name.
pub fn check_names(scope: &[Visible<'_>]) -> Result<(), Cause>
    ensures { Passes (alias_causes (map name_of scope.now)) result }
{
    for (place, entry) in scope.iter().enumerate() {
        if is_among(entry.name, &scope[place + 1..]) {
            return Err(Cause::DuplicateAlias);
        }
    }
    Ok(())
}
