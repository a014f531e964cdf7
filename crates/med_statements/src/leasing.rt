//! The tables that a query reads, by their names.
ghost use Rattle.std.specs.Prelude.{◌≡◌, map, IfOk, IfErr, string_bytes};
ghost use Rattle.med_value.specs.declared.cause.Cause.TheVariants.{OutOfMemory};
ghost use Rattle.med_syntax.specs.Prelude.{EntryTree, statement_tree};
ghost use Rattle.bind_names.specs.Seen.{seen_entry};
ghost use Rattle.med_binder.specs.Looked.{query_in};
ghost use Rattle.med_world.specs.Starting.{leases_of};

use bind_names::query_entries;
use med_syntax::{Entry, Statement};
use med_value::Cause;
use std::alloc::Global;

// The names of the tables of these entries, in their order.
fn tables_of(alloc: Global, entries: &[&Entry]) -> Result<Vec<String>, Cause>
    ensures ok { IfOk result (λ names. map string_bytes names.items ≡ map (λ (e : EntryTree). e.table) (map seen_entry entries.now)) }
    ensures err { IfErr result (λ c. c ≡ OutOfMemory) }
{
    let mut names = Vec::new(alloc);
    for entry in entries {
        let name = entry.table.clone()?;
        names.push(name)?;
    }
    Ok(names)
}

/// The names of the tables of the entries of FROM of each core, in their order. Refused only where memory is.
pub fn leased_tables(alloc: Global, statement: &Statement) -> Result<Vec<String>, Cause>
    ensures ok { IfOk result (λ names. map string_bytes names.items ≡ leases_of (query_in (statement_tree statement.now))) }
    ensures err { IfErr result (λ c. c ≡ OutOfMemory) }
{
    let Statement::Select(query) = statement;
    let entries = query_entries(alloc, query)?;
    tables_of(alloc, entries.as_slice())
}
