//! Changes that are staged, one after the other.
ghost use Rattle.std.specs.Prelude.{◌≡◌, Some, option_map, IfErr, IfSome, IsSome, OnOk};
ghost use Rattle.wrapper_parts.specs.Staged.{change_is, write_is, with_change, broken_write};

use fdw_api::interface::Fault;
use med_value::Row;

/// A staged change of a row: a new row, another row in the place of the one with this id, or none in its place.
#[derive(Drop)]
pub enum RowChange {
    Insert(Row),
    Update(u64, Row),
    Delete(u64),
}

/// A write that is under way: its table and its changes, in the order in which they came. A broken write is one that lost a change.
#[derive(Drop)]
pub struct StagedWrite {
    pub table: u64,
    pub changes: Vec<RowChange>,
    pub broken: bool,
}

/// Stages a change behind those that are staged. Where memory is refused the change is lost, and the write is broken.
pub fn add_change(staged: &mut Option<StagedWrite>, change: RowChange) -> Result<(), Fault>
    requires { IsSome staged.old }
    ensures ok { OnOk result (IfSome staged.old (λ s. option_map write_is staged.new ≡ Some (with_change s (change_is change)))) }
    ensures err { IfErr result (λ fault. (fault ≡ Fault.NoMemory)
        × IfSome staged.old (λ s. option_map write_is staged.new ≡ Some (broken_write s))) }
{
    match staged {
        None => unreachable!(),
        Some(write) => match write.changes.push(change) {
            Ok(()) => Ok(()),
            Err(_) => {
                write.broken = true;
                Err(Fault::NoMemory)
            }
        },
    }
}
