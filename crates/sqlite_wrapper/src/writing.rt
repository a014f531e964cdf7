//! Writes to the tables of a database, whole or not at all.
ghost use Rattle.std.specs.Prelude.{
  ◌≡◌,
  ◌≢◌,
  ◌≤◌,
  ◌⊎◌,
  true,
  false,
  None,
  map,
  nat_lt,
  length,
  IfOk,
  IfErr,
  IfSome,
  OnOk,
  OnErr,
  Contains,
};
ghost use Rattle.std.specs.List.{list_all};
ghost use Rattle.sqlite.specs.Held.{state};
ghost use Rattle.med_value.specs.Prelude.{phase_of, row_limit};
ghost use Rattle.fdw_api.specs.Prelude.{not_refused, is_of_run, row_of_change_fits, id_is_there};
ghost use Rattle.sqlite_tables.specs.Prelude.{
  kinds_in,
  layout_at,
  layout_count,
  layouts,
  OnlyBy,
  IsKnown,
  IsSure,
  ReadsOnly,
  rows_of,
  tree_found,
};
ghost use Rattle.sqlite_writes.specs.Kinds.{write_causes};
ghost use Rattle.sqlite_writes.specs.Watched.{Looks};
ghost use Rattle.sqlite_writes.specs.Splitting.{IsNamedOnce};
ghost use Rattle.sqlite_writes.specs.Writable.{IsWritable, IsSureWrite};
ghost use Rattle.wrapper_parts.specs.Staged.{change_is};
ghost use Rattle.sqlite_wrapper.specs.Clean.{IsSureChange};
ghost use Rattle.sqlite_wrapper.specs.Failing.{FailsToFind, FailsToWrite};
ghost use Rattle.sqlite_wrapper.specs.Rewrites.{Rewrites};

use crate::counts::with_room;
use crate::numbers::shape_of;
use fdw_api::interface::Fault;
use med_value::Cause;
use med_value::limits::ROW_LIMIT;
use sqlite::Connection;
use sqlite_tables::{Shape, SourceStore, count_rows, find_table};
use sqlite_writes::law::changes_are_a_rewrite;
use sqlite_writes::{Split, Watch, entries_rise, rewrite, split_changes};
use std::alloc::Global;
use wrapper_parts::RowChange;

// Returns the number of rows of a table that is there, of its shape: what is held for it, and where nothing is, they are counted.
//
// Fails when out of memory, or as the source, as `FailsToFind` says.
fn rows_there<S: SourceStore>(
    conn: &mut Connection<S>,
    shape: &Shape,
    held: Option<usize>,
) -> Result<usize, Fault>
    requires idle { conn.old.in_transaction ≡ false }
    requires known { S.honest ≡ true → ∥ IsKnown conn.old.schema shape.now ∥₁ }
    requires held { S.honest ≡ true → IfSome held (λ n. n ≡ length (rows_of (state S.Store conn.old).now shape.now)) }
    requires few { IfSome held (λ n. n ≤ row_limit) }
    ensures there { S.honest ≡ true → OnOk result (tree_found (state S.Store conn.old).now.schema shape.now ≢ None) }
    ensures count { S.honest ≡ true → IfOk result (λ n. n ≡ length (rows_of (state S.Store conn.old).now shape.now)) }
    ensures few { IfOk result (λ n. n ≤ row_limit) }
    ensures refused { IfErr result not_refused }
    ensures same { S.honest ≡ true → (state S.Store conn.new).now ≡ (state S.Store conn.old).now }
    ensures sure_there { IsSure (state S.Store conn.old) (state S.Store conn.new) shape.now
        → OnOk result (tree_found (state S.Store conn.old).now.schema shape.now ≢ None) }
    ensures sure_count { IsSure (state S.Store conn.old) (state S.Store conn.new) shape.now
        → IfSome held (λ n. n ≡ length (rows_of (state S.Store conn.old).now shape.now))
        → IfOk result (λ n. n ≡ length (rows_of (state S.Store conn.old).now shape.now)) }
    ensures reported { IfErr result (FailsToFind S.Store S.honest shape.now (state S.Store conn.old) (state S.Store conn.new)) }
    ensures reads { ReadsOnly (state S.Store conn.old) (state S.Store conn.new) shape.now }
    ensures idle { conn.new.in_transaction ≡ false }
{
    match find_table(conn, shape) {
        Ok(()) => {}
        Err(Fault::NoMemory) => return Err(Fault::NoMemory),
        Err(Fault::Source) => return Err(Fault::Source),
        Err(Fault::Refused(_)) => return Err(Fault::Source),
    }
    match held {
        Some(count) => Ok(count),
        None => count_rows(conn, shape),
    }
}

// Makes the changes of a write to a table, whole or not at all, as one transaction, and returns how many rows it has then. What is held
// of its number of rows before is taken for it, where it leaves room for the write.
//
// Refused by 23502 where a new row has no key, by 54000 where more than 1,000,000 rows would be left, and by 23505 where two would have
// one key; then the rows are as they were. It fails, and does not use the connection, where the files of the database are not those that
// were opened. Each failure is one of `FailsToWrite`: the source has failed only where these files are others, the table cannot be read,
// or the connection reported an error that is neither a repeated key nor out of memory.
fn write_shape<S: SourceStore>(
    alloc: Global,
    conn: &mut Connection<S>,
    watch: &mut Watch,
    shape: &Shape,
    held: Option<usize>,
    changes: Vec<RowChange>,
) -> Result<usize, Fault>
    requires idle { conn.old.in_transaction ≡ false }
    requires writable { S.honest ≡ true → ∥ IsWritable conn.old.schema shape.now ∥₁ }
    requires known { S.honest ≡ true → ∥ IsKnown conn.old.schema shape.now ∥₁ }
    requires fits { list_all (row_of_change_fits (kinds_in shape.now)) (map change_is changes.items) ≡ true }
    requires once { IsNamedOnce (map change_is changes.items) }
    requires there { S.honest ≡ true
        → list_all (id_is_there (rows_of (state S.Store conn.old).now shape.now)) (map change_is changes.items) ≡ true }
    requires held { S.honest ≡ true → IfSome held (λ n. n ≡ length (rows_of (state S.Store conn.old).now shape.now)) }
    requires few { IfSome held (λ n. n ≤ row_limit) }
    ensures made { S.honest ≡ true → OnOk result (Rewrites (state S.Store conn.old).now (state S.Store conn.new).now shape.now
        (map change_is changes.items)) }
    ensures count { S.honest ≡ true → IfOk result (λ n. n ≡ length (rows_of (state S.Store conn.new).now shape.now)) }
    ensures few { IfOk result (λ n. n ≤ row_limit) }
    ensures schema { S.honest ≡ true → conn.new.schema ≡ conn.old.schema }
    ensures refused { IfErr result (OnlyBy (λ c. (is_of_run (phase_of c) ≡ true) × (S.honest ≡ true
        → Contains (write_causes (rows_of (state S.Store conn.old).now shape.now) (map change_is changes.items)) c))) }
    ensures same { S.honest ≡ true → OnErr result ((state S.Store conn.new).now ≡ (state S.Store conn.old).now) }
    ensures sure_made { IsSureChange (state S.Store conn.old) (state S.Store conn.new) shape.now held (map change_is changes.items)
        → OnOk result (Rewrites (state S.Store conn.old).now (state S.Store conn.new).now shape.now (map change_is changes.items)) }
    ensures sure_refused { IfErr result (OnlyBy (λ c.
        IsSureChange (state S.Store conn.old) (state S.Store conn.new) shape.now held (map change_is changes.items)
        → Contains (write_causes (rows_of (state S.Store conn.old).now shape.now) (map change_is changes.items)) c)) }
    ensures sure_same { IsSureWrite (state S.Store conn.old) (state S.Store conn.new) shape.now
        → OnErr result ((state S.Store conn.new).now ≡ (state S.Store conn.old).now) }
    ensures reported { S.honest ≡ true → IfErr result (FailsToWrite S.Store S.honest shape.now (map change_is changes.items)
        watch.old watch.new conn.old conn.new) }
    ensures sure_reported { IsSureWrite (state S.Store conn.old) (state S.Store conn.new) shape.now
        → IfErr result (FailsToWrite S.Store S.honest shape.now (map change_is changes.items)
        watch.old watch.new conn.old conn.new) }
    ensures idle { conn.new.in_transaction ≡ false }
    ensures looked { (conn.new ≡ conn.old) ⊎ Looks watch.old watch.new true }
    ensures seen { OnOk result (Looks watch.old watch.new true) }
{
    changes_are_a_rewrite();
    let split = match split_changes(alloc, shape, changes) {
        Ok(split) => split,
        Err(fault) => return Err(fault),
    };
    watch.look()?;
    entries_rise(conn, shape);
    let fresh = split.fresh.len();
    let gone = split.gone.len();
    let held = with_room(held, fresh, gone);
    let count = match rows_there(conn, shape, held) {
        Ok(count) => count,
        Err(fault) => return Err(fault),
    };
    if count + fresh > ROW_LIMIT + gone {
        return Err(Fault::Refused(Cause::TooLarge));
    }
    let left = (count + fresh).saturating_sub(gone);
    match rewrite(conn, shape, &split.gone, &split.fresh) {
        Ok(()) => Ok(left),
        Err(fault) => Err(fault),
    }
}

/// Makes the changes of a write to a table, whole or not at all, as one transaction, and returns how many rows it has then. What is held
/// of its number of rows before is taken for it, where it leaves room for the write.
///
/// Refused by 23502 where a new row has no key, by 54000 where more than 1,000,000 rows would be left, and by 23505 where two would have
/// one key; then the rows are as they were. It fails, and does not use the connection, where the files of the database are not those that
/// were opened. Each failure is one of `FailsToWrite`: the source has failed only where these files are others, the table cannot be read,
/// or the connection reported an error that is neither a repeated key nor out of memory.
pub(crate) fn write_rows<S: SourceStore>(
    alloc: Global,
    conn: &mut Connection<S>,
    watch: &mut Watch,
    shapes: &[Shape],
    table: u64,
    held: Option<usize>,
    changes: Vec<RowChange>,
) -> Result<usize, Fault>
    requires shapes { shapes.now ≡ layouts }
    requires within { nat_lt table layout_count ≡ true }
    requires idle { conn.old.in_transaction ≡ false }
    requires writable { S.honest ≡ true → ∥ IsWritable conn.old.schema (layout_at table) ∥₁ }
    requires known { S.honest ≡ true → ∥ IsKnown conn.old.schema (layout_at table) ∥₁ }
    requires fits { list_all (row_of_change_fits (kinds_in (layout_at table))) (map change_is changes.items) ≡ true }
    requires once { IsNamedOnce (map change_is changes.items) }
    requires there { S.honest ≡ true
        → list_all (id_is_there (rows_of (state S.Store conn.old).now (layout_at table))) (map change_is changes.items) ≡ true }
    requires held { S.honest ≡ true → IfSome held (λ n. n ≡ length (rows_of (state S.Store conn.old).now (layout_at table))) }
    requires few { IfSome held (λ n. n ≤ row_limit) }
    ensures made { S.honest ≡ true → OnOk result (Rewrites (state S.Store conn.old).now (state S.Store conn.new).now (layout_at table)
        (map change_is changes.items)) }
    ensures count { S.honest ≡ true → IfOk result (λ n. n ≡ length (rows_of (state S.Store conn.new).now (layout_at table))) }
    ensures few { IfOk result (λ n. n ≤ row_limit) }
    ensures schema { S.honest ≡ true → conn.new.schema ≡ conn.old.schema }
    ensures refused { IfErr result (OnlyBy (λ c. (is_of_run (phase_of c) ≡ true) × (S.honest ≡ true
        → Contains (write_causes (rows_of (state S.Store conn.old).now (layout_at table)) (map change_is changes.items)) c))) }
    ensures same { S.honest ≡ true → OnErr result ((state S.Store conn.new).now ≡ (state S.Store conn.old).now) }
    ensures sure_made { IsSureChange (state S.Store conn.old) (state S.Store conn.new) (layout_at table) held (map change_is changes.items)
        → OnOk result (Rewrites (state S.Store conn.old).now (state S.Store conn.new).now (layout_at table)
        (map change_is changes.items)) }
    ensures sure_refused { IfErr result (OnlyBy (λ c.
        IsSureChange (state S.Store conn.old) (state S.Store conn.new) (layout_at table) held (map change_is changes.items)
        → Contains (write_causes (rows_of (state S.Store conn.old).now (layout_at table)) (map change_is changes.items)) c)) }
    ensures sure_same { IsSureWrite (state S.Store conn.old) (state S.Store conn.new) (layout_at table)
        → OnErr result ((state S.Store conn.new).now ≡ (state S.Store conn.old).now) }
    ensures reported { S.honest ≡ true → IfErr result (FailsToWrite S.Store S.honest (layout_at table) (map change_is changes.items)
        watch.old watch.new conn.old conn.new) }
    ensures sure_reported { IsSureWrite (state S.Store conn.old) (state S.Store conn.new) (layout_at table)
        → IfErr result (FailsToWrite S.Store S.honest (layout_at table) (map change_is changes.items)
        watch.old watch.new conn.old conn.new) }
    ensures idle { conn.new.in_transaction ≡ false }
    ensures looked { (conn.new ≡ conn.old) ⊎ Looks watch.old watch.new true }
    ensures seen { OnOk result (Looks watch.old watch.new true) }
{
    let shape = shape_of(shapes, table);
    write_shape(alloc, conn, watch, shape, held, changes)
}
