//! Writes that were bound, done to the table of their box.
ghost use Rattle.std.specs.Prelude.{◌≡◌, IfOk, IfErr, map};
ghost use Rattle.med_value.specs.Datum.{tuple};
ghost use Rattle.fdw_api.specs.declared.interface.Fault.{Fault as Failure};
ghost use Rattle.med_exec.specs.Prelude.{states, BoxAt, ChangesAt, CanWrite, Writes, RefusesWrite};
ghost use Rattle.med_write.specs.Form.{form_of};
ghost use Rattle.med_world.specs.Fetching.{cause_of as cause_told};

use crate::cause_of;
use bind_write::TableWrite;
use fdw_api::wishes::Wrapper2;
use med_exec::write;
use med_value::{Cause, Row};
use std::alloc::Global;

/// Does a write that was bound to the table of its box, and answers how many rows it is told of. `answer` has the rows that the query of an
/// INSERT gave; VALUES, UPDATE and DELETE are given none.
///
/// # Errors
///
/// What the write shows over the rows of its table, and what the kind of the box refuses; 53200, HV000 and 54000 where memory was refused,
/// the source failed, and the box has given all its ticket numbers. No table has changed then.
pub fn write_rows<W: Wrapper2>(
    slots: &mut Vec<Option<W>>,
    alloc: Global,
    bound: &TableWrite,
    answer: &[Row],
) -> Result<u64, Cause>
    requires { BoxAt (states W.meaning slots.old.items) bound.now.source
        (λ s. CanWrite s bound.now.table.number (form_of bound.now.write.rows) (map tuple answer.now)) }
    ensures ok { IfOk result (λ count. ChangesAt (states W.meaning slots.old.items) bound.now.source
        (λ old new. Writes bound.now.write.columns.items (form_of bound.now.write.rows) (map tuple answer.now) old
        bound.now.table.number count new) (states W.meaning slots.new.items)) }
    ensures err { IfErr result (λ c. (fault : Failure) × (c ≡ cause_told fault) × ChangesAt (states W.meaning slots.old.items)
        bound.now.source (λ old new. RefusesWrite bound.now.write.columns.items (form_of bound.now.write.rows) (map tuple answer.now)
        old bound.now.table.number fault new) (states W.meaning slots.new.items)) }
{
    match write(
        slots,
        alloc,
        bound.source,
        bound.table,
        &bound.write,
        answer,
    ) {
        Ok(count) => Ok(count),
        Err(fault) => Err(cause_of(fault)),
    }
}
