//! The tables that the entries of FROM stand for.
#![tactic(auto, using(bind_names::proofs::Causes::tells_memory, bind_names::proofs::Causes::tells_one, bind_names::proofs::Tables::get_read, crate::proofs::EntrySteps::entry_unknown, crate::proofs::EntrySteps::entry_known, crate::proofs::EntrySteps::entry_placed))]

ghost use Rattle.std.specs.Prelude.{map};
ghost use Rattle.med_syntax.specs.QueryView.{entry_tree};
ghost use Rattle.bind_names.specs.Seen.{seen_entry};
ghost use Rattle.med_binder.specs.Entries.{BindsEntry, BindsEntries};

use crate::bound::BoundEntry;
use bind_names::{TableView, table_named};
use med_syntax::Entry;
use med_value::Cause;
use std::alloc::Global;

// The table that an entry stands for.
fn bound_entry(tables: &[TableView<'_>], entry: &Entry) -> Result<BoundEntry, Cause>
    ensures { BindsEntry tables.now (entry_tree entry.now) result }
{
    match table_named(tables, entry.table.as_str()) {
        None => Err(Cause::UndefinedTable),
        Some(found) => Ok(BoundEntry {
            place: found.place,
            source: found.table.source,
            table: found.table.number,
            width: found.table.columns.len(),
        }),
    }
}

/// The tables that the entries stand for: 42P01 where there is no such table.
pub fn bound_entries(
    alloc: Global,
    tables: &[TableView<'_>],
    entries: &[&Entry],
) -> Result<Vec<BoundEntry>, Cause>
    ensures { BindsEntries tables.now (map seen_entry entries.now) result }
{
    let mut out = Vec::new(alloc);
    for entry in entries {
        let bound = bound_entry(tables, *entry)?;
        out.push(bound)?;
    }
    Ok(out)
}
