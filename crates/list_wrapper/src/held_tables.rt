//! The tables of a list source, as it holds them.
ghost use Rattle.std.specs.Prelude.{◌≡◌, map, IfOk};
ghost use Rattle.list_wrapper.specs.Lists.{listed};
ghost use Rattle.list_wrapper.specs.Scans.{table_listed};

use crate::held_rows::Rows;
use crate::list::ListTable;
use med_value::{ColType, NoMemory};
use std::alloc::Global;

/// A table: the name under which it is bound, the types of its columns, and its rows in list order.
#[derive(Drop)]
pub(crate) struct Table {
    pub(crate) name: String,
    pub(crate) kinds: Vec<ColType>,
    pub(crate) rows: Rows,
}

/// These tables, each with its rows in runs.
pub(crate) fn tables_of(alloc: Global, tables: Vec<ListTable>) -> Result<Vec<Table>, NoMemory>
    ensures { IfOk result (λ held. map table_listed held.items ≡ map listed tables.items) }
{
    let mut held = Vec::new(alloc);
    for table in tables {
        let ListTable { name, kinds, rows } = table;
        let rows = Rows::new(alloc, rows)?;
        held.push(Table { name, kinds, rows })?;
    }
    Ok(held)
}
