//! Statements that write rows: bound, and done to the box of their table.
ghost use Rattle.std.specs.Prelude.{◌≡◌, false, length, map, IfOk, IfErr};
ghost use Rattle.med_binder.specs.Prelude.{attached, AreNamedOnce};
ghost use Rattle.med_catalog.specs.View.{objects};
ghost use Rattle.med_exec.specs.Slots.{states};
ghost use Rattle.med_world.specs.Writing.{WritesRows, WriteFails};
ghost use Rattle.med_syntax.specs.WriteView.{write_tree};
ghost use Rattle.med_statements.specs.Typed.{IsClean};
ghost use Rattle.med_statements.specs.ReadyWrites.{IsReady, IsUnread};

use crate::law::bound_queries_are_ready;
use crate::typed_law::written_rows_are_typed;
use crate::writing::write_rows;
use crate::{is_large_query, run_query};
use bind_write::bind_write;
use fdw_api::wishes::Wrapper2;
use med_binder::BoundTable;
use med_catalog::Catalog;
use med_exec::fits;
use med_syntax::WriteStatement;
use med_value::Cause;
use std::alloc::Global;

/// Does an INSERT, UPDATE or DELETE over the tables of a catalogue, each of which is bound in the box of its source, and answers how many
/// rows it is told of (SQL standard, <insert statement>, <update statement: searched>, <delete statement: searched>).
///
/// The query of an INSERT is answered before the first row is written, and so sees the tables as they were. All changes are made, or none.
/// `is_leased` says whether an open cursor reads the table that is written; where none does, no scan of it may be live.
///
/// # Errors
///
/// A cause of names, rights or types; 55006 where the table is leased, and 54000 where an INSERT's query has more than 8 cores or FROM of
/// one more than 8 entries; what the query shows over the rows of its tables, and the write over the rows of its own; what the kind of the
/// box refuses; and 53200, HV000 and 54000 where memory was refused, a source failed, and a box has given all its ticket numbers. HV000 too
/// where a source gives values of other types than its tables have. No table has changed then.
pub fn run_write<W: Wrapper2>(
    slots: &mut Vec<Option<W>>,
    catalog: &Catalog,
    bound: &[BoundTable],
    alloc: Global,
    user: &str,
    statement: WriteStatement,
    is_leased: bool,
) -> Result<u64, Cause>
    requires many { length bound.now ≡ length (objects catalog.now).tables }
    requires once { AreNamedOnce (objects catalog.now) }
    requires ready { IsReady (objects catalog.now) (map attached bound.now) (states W.meaning slots.old.items) }
    requires unread { is_leased ≡ false → IsUnread (objects catalog.now) (map attached bound.now) (write_tree statement)
        (states W.meaning slots.old.items) }
    requires clean { IsClean (write_tree statement) }
    ensures ok { IfOk result (λ count. WritesRows (objects catalog.now) user.now (map attached bound.now) (write_tree statement) is_leased
        (states W.meaning slots.old.items) count (states W.meaning slots.new.items)) }
    ensures err { IfErr result (λ c. WriteFails (objects catalog.now) user.now (map attached bound.now) (write_tree statement) is_leased
        (states W.meaning slots.old.items) c (states W.meaning slots.new.items)) }
{
    written_rows_are_typed();
    bound_queries_are_ready();
    let mut write = match bind_write(alloc, statement, catalog, bound, user) {
        Ok(write) => write,
        Err(cause) => return Err(cause),
    };
    if is_leased {
        return Err(Cause::InUse);
    }
    let Some(query) = write.query.take() else {
        return write_rows(slots, alloc, &write, &[]);
    };
    if is_large_query(&query.select) {
        return Err(Cause::LimitExceeded);
    }
    let rows = match run_query(slots, alloc, query) {
        Ok(rows) => rows,
        Err(cause) => return Err(cause),
    };
    if !fits(&write.write, rows.as_slice()) {
        return Err(Cause::SourceFault);
    }
    write_rows(slots, alloc, &write, rows.as_slice())
}
