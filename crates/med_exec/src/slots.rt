//! Calls of the box in a slot, over any kind of box.
ghost use Rattle.std.specs.Prelude.{◌≡◌, map, IfOk, IfErr};
ghost use Rattle.fdw_api.specs.Prelude.{CanBind, Binds, RefusesBind, CanUnbind, Unbinds, column_of, option_form};
ghost use Rattle.med_exec.specs.Slots.{states, BoxAt, ChangesAt, counts_at};

use fdw_api::interface::{Counts, Fault, TableOption};
use fdw_api::wishes::Wrapper2;
use med_value::{ColumnDef, TableNo};
use std::alloc::Global;

/// Binds a foreign table of the slot's box to what its source holds under a remote name.
///
/// Refuses as [`Wrapper::bind`] does.
pub fn bind_at<W: Wrapper2>(
    slots: &mut Vec<Option<W>>,
    alloc: Global,
    slot: usize,
    remote: &str,
    columns: &[ColumnDef],
    options: &[TableOption],
) -> Result<TableNo, Fault>
    requires { BoxAt (states W.meaning slots.old.items) slot
        (λ s. CanBind s remote.now (map column_of columns.now) (map option_form options.now)) }
    ensures ok { IfOk result (λ t. ChangesAt (states W.meaning slots.old.items) slot
        (λ old new. Binds old remote.now (map column_of columns.now) (map option_form options.now) t.number new)
        (states W.meaning slots.new.items)) }
    ensures err { IfErr result (λ fault. ChangesAt (states W.meaning slots.old.items) slot
        (λ old new. RefusesBind old remote.now (map column_of columns.now) (map option_form options.now) fault new)
        (states W.meaning slots.new.items)) }
{
    match &mut slots[slot] {
        Some(b) => b.bind(alloc, remote, columns, options),
        None => unreachable!(),
    }
}

/// Unbinds a table of the slot's box. It always succeeds.
pub fn unbind_at<W: Wrapper2>(slots: &mut Vec<Option<W>>, slot: usize, table: TableNo)
    requires { BoxAt (states W.meaning slots.old.items) slot (λ s. CanUnbind s table.number) }
    ensures { ChangesAt (states W.meaning slots.old.items) slot (λ old new. Unbinds old table.number new)
        (states W.meaning slots.new.items) }
{
    match &mut slots[slot] {
        Some(b) => b.unbind(table),
        None => unreachable!(),
    }
}

/// The counts of the slot's box, or `None` where there is no such slot or its box was dropped.
pub fn ledger_at<W: Wrapper2>(slots: &Vec<Option<W>>, slot: usize) -> Option<Counts>
    ensures { result ≡ counts_at (states W.meaning slots.now.items) slot }
{
    match slots.get(slot) {
        Some(Some(b)) => Some(b.ledger()),
        _ => None,
    }
}
