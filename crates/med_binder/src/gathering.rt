//! The tables that the entries of FROM stand for, each looked up in the catalogue by its name.
#![tactic(auto, using(bind_names::proofs::Causes::tells_memory, bind_names::proofs::Causes::tells_one))]

ghost use Rattle.std.specs.Prelude.{◌≡◌, length, map, flat_map, Some, IfOk};
ghost use Rattle.med_syntax.specs.QueryView.{entry_tree};
ghost use Rattle.bind_names.specs.Prelude.{table_shape, entry_causes, seen_entry, Means};
ghost use Rattle.med_catalog.specs.View.{objects};
ghost use Rattle.med_binder.specs.Tables.{shapes, AreNamedOnce};
ghost use Rattle.med_binder.specs.Places.{attached};
ghost use Rattle.med_binder.specs.Looked.{IsEntryAt, AreEntriesAt, gathered_shape, view_place, place_bound};

use crate::bound::BoundEntry;
use crate::bound_table::BoundTable;
use bind_names::TableView;
use med_catalog::Catalog;
use med_syntax::Entry;
use med_value::Cause;
use std::alloc::Global;

// The table of an entry: under the name by which the entry has it, and where it stands and its rows are.
#[derive(Clone, Copy)]
struct FoundTable<'a> {
    table: TableView<'a>,
    entry: BoundEntry,
}

// The table that an entry stands for, looked up once.
fn found_table<'a>(
    catalog: &'a Catalog,
    bound: &[BoundTable],
    entry: &'a Entry,
) -> Result<FoundTable<'a>, Cause>
    requires many { length bound.now ≡ length (objects catalog.now).tables }
    requires once { AreNamedOnce (objects catalog.now) }
    ensures table { Means (λ f. table_shape f.table) (entry_causes (shapes (objects catalog.now)) (entry_tree entry.now))
        (gathered_shape (shapes (objects catalog.now)) (entry_tree entry.now)) result }
    ensures place { IfOk result (λ f. Some (view_place f.table)
        ≡ place_bound (objects catalog.now) (map attached bound.now) (entry_tree entry.now)) }
    ensures entry { IfOk result (λ f. IsEntryAt (objects catalog.now) (map attached bound.now) (entry_tree entry.now) f.entry) }
{
    let name = entry.table.as_str();
    match catalog.table_at(name) {
        None => Err(Cause::UndefinedTable),
        Some((place, table)) => {
            let columns = table.columns.as_slice();
            let BoundTable { source, number } = bound[place];
            Ok(FoundTable {
                table: TableView {
                    name,
                    columns,
                    source,
                    number,
                },
                entry: BoundEntry {
                    place,
                    source,
                    table: number,
                    width: columns.len(),
                },
            })
        }
    }
}

/// The tables that entries stand for, once for each entry, and the entries themselves.
#[derive(Drop)]
pub(crate) struct GatheredTables<'a> {
    /// The tables. Nothing of the catalogue is copied.
    pub(crate) tables: Vec<TableView<'a>>,
    /// Where each stands in the catalogue, and where its rows are.
    pub(crate) entries: Vec<BoundEntry>,
}

/// The tables that the entries stand for, and where their rows are: 42P01 where there is no such table.
pub(crate) fn gathered<'a>(
    alloc: Global,
    catalog: &'a Catalog,
    bound: &[BoundTable],
    written: &[&'a Entry],
) -> Result<GatheredTables<'a>, Cause>
    requires many { length bound.now ≡ length (objects catalog.now).tables }
    requires once { AreNamedOnce (objects catalog.now) }
    ensures tables { Means (λ g. map table_shape g.tables.items)
        (flat_map (entry_causes (shapes (objects catalog.now))) (map seen_entry written.now))
        (map (gathered_shape (shapes (objects catalog.now))) (map seen_entry written.now)) result }
    ensures places { IfOk result (λ g. map (λ t. Some (view_place t)) g.tables.items
        ≡ map (place_bound (objects catalog.now) (map attached bound.now)) (map seen_entry written.now)) }
    ensures entries { IfOk result (λ g. AreEntriesAt (objects catalog.now) (map attached bound.now) (map seen_entry written.now)
        g.entries.items) }
{
    let mut tables = Vec::new(alloc);
    let mut entries = Vec::new(alloc);
    for entry in written {
        let found = found_table(catalog, bound, *entry)?;
        tables.push(found.table)?;
        entries.push(found.entry)?;
    }
    Ok(GatheredTables { tables, entries })
}
