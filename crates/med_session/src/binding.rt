//! Foreign tables that are bound in the boxes of their sources, or let go, and boxes that are dropped.
ghost use Rattle.med_binder.specs.Places.{attached};
ghost use Rattle.med_binder.specs.declared.bound_table.BoundTable.{BoundTable};
ghost use Rattle.fdw_api.specs.Prelude.{CanBind, CanUnbind, Unbinds, column_of, option_form, IsIdle};
ghost use Rattle.med_exec.specs.Slots.{states, BoxAt, ChangesAt};
ghost use Rattle.med_session.specs.Binding.{BindsLast, BindFails};
ghost use Rattle.std.specs.Prelude.{◌≡◌, ◌<◌, None, Some, map, remove, slice_get, slice_set, length, IfErr, OnOk, OnErr};

use fdw_api::interface::TableOption;
use fdw_api::wishes::Wrapper2;
use med_binder::BoundTable;
use med_exec::slots::{bind_at, unbind_at};
use med_statements::cause_of;
use med_value::{Cause, ColumnDef};
use std::alloc::Global;

// Drops the box in this place, which is idle. The place stays empty.
pub(crate) fn drop_at<W: Wrapper2>(slots: &mut Vec<Option<W>>, place: usize)
    requires { BoxAt (states W.meaning slots.old.items) place IsIdle }
    ensures { states W.meaning slots.new.items ≡ slice_set (states W.meaning slots.old.items) place None }
{
    slots[place] = None;
}

// Binds a foreign table of the source in this place, and notes where it is bound: refused by want of memory, and by the causes of the box.
// Then no table is bound.
pub(crate) fn bind_table<W: Wrapper2>(
    slots: &mut Vec<Option<W>>,
    bound: &mut Vec<BoundTable>,
    alloc: Global,
    place: usize,
    remote: &str,
    columns: &[ColumnDef],
    options: &[TableOption],
) -> Result<(), Cause>
    requires { BoxAt (states W.meaning slots.old.items) place
        (λ s. CanBind s remote.now (map column_of columns.now) (map option_form options.now)) }
    ensures ok { OnOk result (BindsLast place remote.now (map column_of columns.now) (map option_form options.now)
        (states W.meaning slots.old.items) (map attached bound.old.items)
        (states W.meaning slots.new.items) (map attached bound.new.items)) }
    ensures err { IfErr result (λ c. BindFails place remote.now (map column_of columns.now) (map option_form options.now) c
        (states W.meaning slots.old.items) (states W.meaning slots.new.items)) }
    ensures kept { OnErr result (bound.new.items ≡ bound.old.items) }
{
    if bound.reserve(1).is_err() {
        return Err(Cause::OutOfMemory);
    }
    let number = match bind_at(slots, alloc, place, remote, columns, options) {
        Ok(number) => number,
        Err(fault) => return Err(cause_of(fault)),
    };
    let table = BoundTable {
        source: place,
        number,
    };
    if bound.push(table).is_err() {
        unreachable!()
    }
    Ok(())
}

// Lets the foreign table in this place go: unbinds it in the box of its source.
pub(crate) fn unbind_table<W: Wrapper2>(
    slots: &mut Vec<Option<W>>,
    bound: &mut Vec<BoundTable>,
    place: usize,
)
    requires within { place < length bound.old.items }
    requires unbinds { (t : BoundTable) → slice_get bound.old.items place ≡ Some t
        → BoxAt (states W.meaning slots.old.items) t.source (λ s. CanUnbind s t.number.number) }
    ensures unbound { (t : BoundTable) → slice_get bound.old.items place ≡ Some t
        → ChangesAt (states W.meaning slots.old.items) t.source
        (λ old new. Unbinds old t.number.number new) (states W.meaning slots.new.items) }
    ensures left { bound.new.items ≡ remove bound.old.items place }
{
    let table = bound.remove(place);
    unbind_at(slots, table.source, table.number);
}
