//! Changes of a table of a box, staged one by one and made together.
ghost use Rattle.std.specs.Prelude.{◌≡◌, [], true, IfOk, IfErr, map};
ghost use Rattle.fdw_api.specs.Writes.{CanModify, CanChange, Stages, RefusesChange};
ghost use Rattle.med_write.specs.Form.{change_of};
ghost use Rattle.med_exec.specs.Staging.{AreStageable, IsStaged, BreaksStaging, MakesChanges, MakesNone};

use fdw_api::interface::Fault;
use fdw_api::wishes::Wrapper2;
use med_value::TableNo;
use med_write::RowChange;
use std::alloc::Global;

// Stages one change of a write that is under way.
fn stage_change<W: Wrapper2>(b: &mut W, alloc: Global, change: RowChange) -> Result<(), Fault>
    requires { CanChange (W.meaning b.old) (change_of change) }
    ensures ok { IfOk result (λ _. Stages (W.meaning b.old) (change_of change) (W.meaning b.new)) }
    ensures err { IfErr result (λ fault. RefusesChange (W.meaning b.old) (change_of change) fault (W.meaning b.new)) }
{
    match change {
        RowChange::Inserted(row) => b.insert(alloc, row),
        RowChange::Updated(id, row) => b.update(alloc, id, row),
        RowChange::Deleted(id) => b.delete(alloc, id),
    }
}

// Stages all changes of a write that was just begun. The first that is refused breaks it.
fn stage_all<W: Wrapper2>(
    b: &mut W,
    alloc: Global,
    table: TableNo,
    changes: Vec<RowChange>,
) -> Result<(), Fault>
    requires begun { IsStaged (W.meaning b.old) table.number [] (W.meaning b.old) }
    requires stageable { AreStageable (W.meaning b.old) table.number (map change_of changes.items) }
    ensures ok { IfOk result (λ _. IsStaged (W.meaning b.old) table.number (map change_of changes.items) (W.meaning b.new)) }
    ensures err { IfErr result (λ fault. BreaksStaging (W.meaning b.old) table.number (map change_of changes.items) fault
        (W.meaning b.new)) }
{
    for change in changes {
        match stage_change(b, alloc, change) {
            Ok(()) => {}
            Err(fault) => return Err(fault),
        }
    }
    Ok(())
}

/// Makes these changes of a table, all of them or none.
pub(crate) fn make_changes<W: Wrapper2>(
    b: &mut W,
    alloc: Global,
    table: TableNo,
    changes: Vec<RowChange>,
) -> Result<(), Fault>
    requires can { CanModify (W.meaning b.old) table.number }
    requires stageable { AreStageable (W.meaning b.old) table.number (map change_of changes.items) }
    ensures ok { IfOk result (λ _. MakesChanges (W.meaning b.old) table.number (map change_of changes.items) (W.meaning b.new)) }
    ensures err { IfErr result (λ fault. MakesNone (W.meaning b.old) table.number (map change_of changes.items) fault
        (W.meaning b.new)) }
{
    b.begin_modify(alloc, table)?;
    match stage_all(b, alloc, table, changes) {
        Ok(()) => b.end_modify(alloc, true),
        Err(fault) => match b.end_modify(alloc, false) {
            Ok(()) => Err(fault),
            Err(_) => unreachable!(),
        },
    }
}
