//! Rows that are taken out of a table and put into one, inside a transaction.
ghost use Rattle.std.specs.Prelude.{◌≡◌, ◌<◌, ◌≤◌, true, false, [], ◌∷◌, length, Err, IsTrue, IfErr, OnOk};
ghost use Rattle.sqlite.specs.declared.types.Value.TheVariants as sql;
ghost use Rattle.sqlite.specs.Held.{state};
ghost use Rattle.sqlite.specs.View.{IsShaped};
ghost use Rattle.sqlite.specs.Tree.{without_rowid, put_row};
ghost use Rattle.sqlite.specs.Edit.{is_taken};
ghost use Rattle.sqlite_trees.specs.declared.store.Shape.TheVariants as stored;
ghost use Rattle.med_value.specs.Datum.{tuple};
ghost use Rattle.med_value.specs.declared.cause.Cause.TheVariants.{NotUnique};
ghost use Rattle.fdw_api.specs.Prelude.{not_refused};
ghost use Rattle.sqlite_tables.specs.Prelude.{IsCleanAfter, IsFailureOf, OnlyBy, entries_of};
ghost use Rattle.sqlite_writes.specs.Writable.{IsWritable, IsSureStep, KeepsTables, StepsTo};
ghost use Rattle.sqlite_writes.specs.Failing.{GoesOn, IsReportedFailure};
ghost use Rattle.sqlite_writes.specs.Rewriting.{has_place, stored_cells};
ghost use Rattle.sqlite_writes.specs.Stored.{IsFaultOf, IsReported, column_limit, inserted_cells, taken_key};

use crate::statements::{COLUMN_LIMIT, delete, insert};
use fdw_api::interface::Fault;
use med_value::{Cause, Row};
use sqlite::{Constraint, Error, ErrorCode, Transaction};
use sqlite_tables::{Shape, SourceStore, fault_of};

/// Takes the row of a key out of a table, inside a transaction: where there is none, nothing changes.
///
/// Fails when out of memory, or as the source, as the error is that the connection reported (`IsReportedFailure`); no cause of refusal is
/// reported. What was committed last stays so. This holds over a store that always returns what was written, and of each call by itself
/// that is sure (`IsSureStep`).
pub fn delete_row<S: SourceStore>(
    tx: &mut Transaction<'_, S>,
    shape: &Shape,
    key: i64,
) -> Result<(), Fault>
    requires inside { S.honest ≡ true → IsTrue tx.old.conn.now.in_transaction }
    requires writable { S.honest ≡ true → ∥ IsWritable tx.old.conn.now.schema shape.now ∥₁ }
    requires ordered { S.honest ≡ true → IsShaped stored.Table (entries_of (state S.Store tx.old.conn.now).now shape.now) }
    ensures same_reference { tx.new.conn.ghost_name ≡ tx.old.conn.ghost_name }
    ensures rows { S.honest ≡ true → OnOk result (entries_of (state S.Store tx.new.conn.now).now shape.now
        ≡ without_rowid key (entries_of (state S.Store tx.old.conn.now).now shape.now)) }
    ensures ordered { S.honest ≡ true → OnOk result (IsShaped stored.Table (entries_of (state S.Store tx.new.conn.now).now shape.now)) }
    ensures schema { S.honest ≡ true → OnOk result (tx.new.conn.now.schema ≡ tx.old.conn.now.schema) }
    ensures others { S.honest ≡ true →
        OnOk result (KeepsTables (state S.Store tx.old.conn.now).now (state S.Store tx.new.conn.now).now shape.now) }
    ensures refused { IfErr result not_refused }
    ensures inside { S.honest ≡ true → OnOk result (IsTrue tx.new.conn.now.in_transaction) }
    ensures kept { S.honest ≡ true → (state S.Store tx.new.conn.now).committed ≡ (state S.Store tx.old.conn.now).committed }
    ensures sure_rows { IsSureStep (state S.Store tx.old.conn.now) (state S.Store tx.new.conn.now) shape.now
        → OnOk result (entries_of (state S.Store tx.new.conn.now).now shape.now
        ≡ without_rowid key (entries_of (state S.Store tx.old.conn.now).now shape.now)) }
    ensures sure_steps { IsSureStep (state S.Store tx.old.conn.now) (state S.Store tx.new.conn.now) shape.now
        → OnOk result (StepsTo (state S.Store tx.old.conn.now) (state S.Store tx.new.conn.now) shape.now) }
    ensures sure_kept { IsSureStep (state S.Store tx.old.conn.now) (state S.Store tx.new.conn.now) shape.now
        → (state S.Store tx.new.conn.now).committed ≡ (state S.Store tx.old.conn.now).committed }
    ensures was_clean { IsCleanAfter (state S.Store tx.new.conn.now) → IsCleanAfter (state S.Store tx.old.conn.now) }
    ensures reported { IfErr result (IsReportedFailure shape.now.deleting (sql.Int key ∷ [])
        (state S.Store tx.old.conn.now) (state S.Store tx.new.conn.now)) }
    ensures goes_on { GoesOn (state S.Store tx.old.conn.now) (state S.Store tx.new.conn.now) }
{
    match delete(tx, shape.delete_text(), key) {
        Ok(()) => Ok(()),
        Err(error) => Err(failure_of(error)),
    }
}

// What a refusal of a DELETE or of a COMMIT is to its caller: out of memory, else a failure of the source.
pub(crate) fn failure_of(error: Error) -> Fault
    ensures no_cause { not_refused result }
    ensures is { IsFailureOf error result }
{
    fault_of(error)
}

// What a refusal of an INSERT is to its caller: a repeated key (23505), out of memory, else a failure of the source.
fn fault_of_insert(error: Error) -> Fault
    ensures taken { error ≡ taken_key → result ≡ Fault.Refused NotUnique }
    ensures memory { error ≡ Error.SqliteFailure ErrorCode.OutOfMemory → result ≡ Fault.NoMemory }
    ensures refused { OnlyBy (λ c. (c ≡ NotUnique) × (error ≡ taken_key)) result }
    ensures is { IsFaultOf error result }
{
    match error {
        Error::SqliteFailure(ErrorCode::ConstraintViolation(Constraint::PrimaryKey)) =>
            Fault::Refused(Cause::NotUnique),
        other => fault_of(other),
    }
}

/// Puts a row into a table, in its place by key, inside a transaction. The row's first cell is its key.
///
/// Refused by 23505, the table has a row of this key; no other cause is reported. It fails as the source where the connection reported an
/// error that is neither a repeated key nor out of memory (`IsReported`), and where the row has more than 2,000 cells, which no table of
/// SQLite has; then nothing changes. What was committed last stays so. This holds over a store that always returns what was written, and of
/// each call by itself that is sure (`IsSureStep`). It allocates nothing beside what the statement does.
pub fn insert_row<S: SourceStore>(
    tx: &mut Transaction<'_, S>,
    shape: &Shape,
    row: &Row,
) -> Result<(), Fault>
    requires inside { S.honest ≡ true → IsTrue tx.old.conn.now.in_transaction }
    requires writable { S.honest ≡ true → ∥ IsWritable tx.old.conn.now.schema shape.now ∥₁ }
    requires ordered { S.honest ≡ true → IsShaped stored.Table (entries_of (state S.Store tx.old.conn.now).now shape.now) }
    requires fits { has_place shape.now (tuple row.now) ≡ true }
    ensures same_reference { tx.new.conn.ghost_name ≡ tx.old.conn.ghost_name }
    ensures rows { S.honest ≡ true → OnOk result (entries_of (state S.Store tx.new.conn.now).now shape.now
        ≡ put_row (stored_cells shape.now (tuple row.now)) (entries_of (state S.Store tx.old.conn.now).now shape.now)) }
    ensures free { S.honest ≡ true → OnOk result (is_taken (entries_of (state S.Store tx.old.conn.now).now shape.now)
        (stored_cells shape.now (tuple row.now)) ≡ false) }
    ensures ordered { S.honest ≡ true → OnOk result (IsShaped stored.Table (entries_of (state S.Store tx.new.conn.now).now shape.now)) }
    ensures schema { S.honest ≡ true → OnOk result (tx.new.conn.now.schema ≡ tx.old.conn.now.schema) }
    ensures others { S.honest ≡ true →
        OnOk result (KeepsTables (state S.Store tx.old.conn.now).now (state S.Store tx.new.conn.now).now shape.now) }
    ensures refused { IfErr result (OnlyBy (λ c. (c ≡ NotUnique)
        × (S.honest ≡ true → is_taken (entries_of (state S.Store tx.old.conn.now).now shape.now)
        (stored_cells shape.now (tuple row.now)) ≡ true))) }
    ensures inside { S.honest ≡ true → OnOk result (IsTrue tx.new.conn.now.in_transaction) }
    ensures kept { S.honest ≡ true → (state S.Store tx.new.conn.now).committed ≡ (state S.Store tx.old.conn.now).committed }
    ensures sure_rows { IsSureStep (state S.Store tx.old.conn.now) (state S.Store tx.new.conn.now) shape.now
        → OnOk result (entries_of (state S.Store tx.new.conn.now).now shape.now
        ≡ put_row (stored_cells shape.now (tuple row.now)) (entries_of (state S.Store tx.old.conn.now).now shape.now)) }
    ensures sure_free { IsSureStep (state S.Store tx.old.conn.now) (state S.Store tx.new.conn.now) shape.now
        → OnOk result (is_taken (entries_of (state S.Store tx.old.conn.now).now shape.now)
        (stored_cells shape.now (tuple row.now)) ≡ false) }
    ensures sure_refused { IfErr result (OnlyBy (λ _. IsSureStep (state S.Store tx.old.conn.now) (state S.Store tx.new.conn.now) shape.now
        → is_taken (entries_of (state S.Store tx.old.conn.now).now shape.now) (stored_cells shape.now (tuple row.now)) ≡ true)) }
    ensures sure_steps { IsSureStep (state S.Store tx.old.conn.now) (state S.Store tx.new.conn.now) shape.now
        → OnOk result (StepsTo (state S.Store tx.old.conn.now) (state S.Store tx.new.conn.now) shape.now) }
    ensures sure_kept { IsSureStep (state S.Store tx.old.conn.now) (state S.Store tx.new.conn.now) shape.now
        → (state S.Store tx.new.conn.now).committed ≡ (state S.Store tx.old.conn.now).committed }
    ensures wide { column_limit < length shape.now.columns → (result ≡ Err Fault.Source) × (tx.new.conn.now ≡ tx.old.conn.now) }
    ensures reported { length shape.now.columns ≤ column_limit
        → IfErr result (IsReported shape.now.inserting (inserted_cells (tuple row.now))
        (state S.Store tx.old.conn.now) (state S.Store tx.new.conn.now)) }
    ensures was_clean { IsCleanAfter (state S.Store tx.new.conn.now) → IsCleanAfter (state S.Store tx.old.conn.now) }
    ensures goes_on { GoesOn (state S.Store tx.old.conn.now) (state S.Store tx.new.conn.now) }
{
    if row.cells.len() > COLUMN_LIMIT {
        return Err(Fault::Source);
    }
    match insert(tx, shape.insert_text(), row) {
        Ok(()) => Ok(()),
        Err(error) => Err(fault_of_insert(error)),
    }
}
