//! What a user may do with the tables of a query.
#![tactic(auto, using(bind_names::proofs::Causes::tells_memory, bind_names::proofs::Causes::tells_one))]

ghost use Rattle.std.specs.Prelude.{map, flat_map};
ghost use Rattle.med_syntax.specs.Prelude.{EntryTree, entry_tree};
ghost use Rattle.bind_names.specs.Prelude.{seen_entry, Passes};
ghost use Rattle.med_catalog.specs.Prelude.{table_named, objects};
ghost use Rattle.med_binder.specs.Barred.{table_causes, reading_causes};

use med_catalog::Catalog;
use med_syntax::Entry;
use med_value::Cause;

// 42704 where the user has no mapping on the server of the entry's table.
fn check_right(catalog: &Catalog, entry: &Entry, user: &str) -> Result<(), Cause>
    ensures { Passes (table_causes reading_causes (objects catalog.now) user.now
        (table_named (objects catalog.now) (entry_tree entry.now).table)) result }
{
    match catalog.table(entry.table.as_str()) {
        None => Ok(()),
        Some(table) => match catalog.mapping_of(user, table.server.as_str()) {
            None => Err(Cause::UndefinedObject),
            Some(_) => Ok(()),
        },
    }
}

/// 42704 where the user, the owner too, has no mapping on the server of a table. It takes no memory.
pub fn check_rights(catalog: &Catalog, entries: &[&Entry], user: &str) -> Result<(), Cause>
    ensures { Passes (flat_map (λ (e : EntryTree).
        table_causes reading_causes (objects catalog.now) user.now (table_named (objects catalog.now) e.table))
        (map seen_entry entries.now)) result }
{
    for entry in entries {
        check_right(catalog, *entry, user)?;
    }
    Ok(())
}
