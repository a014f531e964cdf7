//! The rows of a table changed at once, as one transaction.
ghost use Rattle.std.specs.Prelude.{◌≡◌, true, false, [], map, All, IsTrue, IfErr, OnOk, OnErr};
ghost use Rattle.sqlite.specs.Held.{state};
ghost use Rattle.sqlite.specs.View.{IsShaped};
ghost use Rattle.sqlite.specs.Edit.{without_all, put_all, are_fresh};
ghost use Rattle.sqlite_trees.specs.declared.store.Shape.TheVariants as stored;
ghost use Rattle.med_value.specs.Datum.{tuple};
ghost use Rattle.med_value.specs.declared.cause.Cause.TheVariants.{NotUnique};
ghost use Rattle.fdw_api.specs.Calls.{not_refused};
ghost use Rattle.sqlite_tables.specs.Prelude.{IsCleanAfter, entries_of, OnlyBy};
ghost use Rattle.sqlite_writes.specs.Writable.{IsWritable, IsSureStep, IsSureWrite, KeepsTables, StepsTo};
ghost use Rattle.sqlite_writes.specs.Failing.{FailsToChange, FailsToDelete, FailsToInsert, FailsToRewrite, GoesOn};
ghost use Rattle.sqlite_writes.specs.Rewriting.{has_place, stored_cells, rewritten, repeats_key};

use crate::rows::{delete_row, failure_of, insert_row};
use fdw_api::interface::Fault;
use med_value::Row;
use sqlite::{Connection, Transaction};
use sqlite_tables::{Shape, SourceStore};

// Takes the rows of some keys out.
fn delete_all<S: SourceStore>(
    tx: &mut Transaction<'_, S>,
    shape: &Shape,
    gone: &[i64],
) -> Result<(), Fault>
    requires inside { S.honest ≡ true → IsTrue tx.old.conn.now.in_transaction }
    requires writable { S.honest ≡ true → ∥ IsWritable tx.old.conn.now.schema shape.now ∥₁ }
    requires ordered { S.honest ≡ true → IsShaped stored.Table (entries_of (state S.Store tx.old.conn.now).now shape.now) }
    ensures same_reference { tx.new.conn.ghost_name ≡ tx.old.conn.ghost_name }
    ensures rows { S.honest ≡ true → OnOk result (entries_of (state S.Store tx.new.conn.now).now shape.now
        ≡ without_all (entries_of (state S.Store tx.old.conn.now).now shape.now) gone.now) }
    ensures ordered { S.honest ≡ true → OnOk result (IsShaped stored.Table (entries_of (state S.Store tx.new.conn.now).now shape.now)) }
    ensures schema { S.honest ≡ true → OnOk result (tx.new.conn.now.schema ≡ tx.old.conn.now.schema) }
    ensures others { S.honest ≡ true →
        OnOk result (KeepsTables (state S.Store tx.old.conn.now).now (state S.Store tx.new.conn.now).now shape.now) }
    ensures refused { IfErr result not_refused }
    ensures inside { S.honest ≡ true → OnOk result (IsTrue tx.new.conn.now.in_transaction) }
    ensures kept { S.honest ≡ true → (state S.Store tx.new.conn.now).committed ≡ (state S.Store tx.old.conn.now).committed }
    ensures sure_rows { IsSureStep (state S.Store tx.old.conn.now) (state S.Store tx.new.conn.now) shape.now
        → OnOk result (entries_of (state S.Store tx.new.conn.now).now shape.now
        ≡ without_all (entries_of (state S.Store tx.old.conn.now).now shape.now) gone.now) }
    ensures sure_steps { IsSureStep (state S.Store tx.old.conn.now) (state S.Store tx.new.conn.now) shape.now
        → OnOk result (StepsTo (state S.Store tx.old.conn.now) (state S.Store tx.new.conn.now) shape.now) }
    ensures sure_kept { IsSureStep (state S.Store tx.old.conn.now) (state S.Store tx.new.conn.now) shape.now
        → (state S.Store tx.new.conn.now).committed ≡ (state S.Store tx.old.conn.now).committed }
    ensures was_clean { IsCleanAfter (state S.Store tx.new.conn.now) → IsCleanAfter (state S.Store tx.old.conn.now) }
    ensures sure_failed { IsSureStep (state S.Store tx.old.conn.now) (state S.Store tx.new.conn.now) shape.now → IfErr result
        (FailsToDelete S.Store shape.now (state S.Store tx.old.conn.now) (state S.Store tx.new.conn.now) gone.now) }
    ensures goes_on { GoesOn (state S.Store tx.old.conn.now) (state S.Store tx.new.conn.now) }
{
    for key in gone {
        match delete_row(tx, shape, *key) {
            Ok(()) => {}
            Err(fault) => return Err(fault),
        }
    }
    Ok(())
}

// Puts rows in.
fn insert_all<S: SourceStore>(
    tx: &mut Transaction<'_, S>,
    shape: &Shape,
    fresh: &[Row],
) -> Result<(), Fault>
    requires inside { S.honest ≡ true → IsTrue tx.old.conn.now.in_transaction }
    requires writable { S.honest ≡ true → ∥ IsWritable tx.old.conn.now.schema shape.now ∥₁ }
    requires ordered { S.honest ≡ true → IsShaped stored.Table (entries_of (state S.Store tx.old.conn.now).now shape.now) }
    requires fits { All (λ r. has_place shape.now (tuple r) ≡ true) fresh.now }
    ensures same_reference { tx.new.conn.ghost_name ≡ tx.old.conn.ghost_name }
    ensures rows { S.honest ≡ true → OnOk result (entries_of (state S.Store tx.new.conn.now).now shape.now
        ≡ put_all (entries_of (state S.Store tx.old.conn.now).now shape.now) (map (stored_cells shape.now) (map tuple fresh.now))) }
    ensures free { S.honest ≡ true → OnOk result (are_fresh (entries_of (state S.Store tx.old.conn.now).now shape.now)
        (map (stored_cells shape.now) (map tuple fresh.now)) ≡ true) }
    ensures schema { S.honest ≡ true → OnOk result (tx.new.conn.now.schema ≡ tx.old.conn.now.schema) }
    ensures others { S.honest ≡ true →
        OnOk result (KeepsTables (state S.Store tx.old.conn.now).now (state S.Store tx.new.conn.now).now shape.now) }
    ensures refused { IfErr result (OnlyBy (λ c. (c ≡ NotUnique)
        × (S.honest ≡ true → are_fresh (entries_of (state S.Store tx.old.conn.now).now shape.now)
        (map (stored_cells shape.now) (map tuple fresh.now)) ≡ false))) }
    ensures inside { S.honest ≡ true → OnOk result (IsTrue tx.new.conn.now.in_transaction) }
    ensures kept { S.honest ≡ true → (state S.Store tx.new.conn.now).committed ≡ (state S.Store tx.old.conn.now).committed }
    ensures sure_rows { IsSureStep (state S.Store tx.old.conn.now) (state S.Store tx.new.conn.now) shape.now
        → OnOk result (entries_of (state S.Store tx.new.conn.now).now shape.now
        ≡ put_all (entries_of (state S.Store tx.old.conn.now).now shape.now) (map (stored_cells shape.now) (map tuple fresh.now))) }
    ensures sure_free { IsSureStep (state S.Store tx.old.conn.now) (state S.Store tx.new.conn.now) shape.now
        → OnOk result (are_fresh (entries_of (state S.Store tx.old.conn.now).now shape.now)
        (map (stored_cells shape.now) (map tuple fresh.now)) ≡ true) }
    ensures sure_refused { IfErr result (OnlyBy (λ _. IsSureStep (state S.Store tx.old.conn.now) (state S.Store tx.new.conn.now) shape.now
        → are_fresh (entries_of (state S.Store tx.old.conn.now).now shape.now)
        (map (stored_cells shape.now) (map tuple fresh.now)) ≡ false)) }
    ensures sure_steps { IsSureStep (state S.Store tx.old.conn.now) (state S.Store tx.new.conn.now) shape.now
        → OnOk result (StepsTo (state S.Store tx.old.conn.now) (state S.Store tx.new.conn.now) shape.now) }
    ensures sure_kept { IsSureStep (state S.Store tx.old.conn.now) (state S.Store tx.new.conn.now) shape.now
        → (state S.Store tx.new.conn.now).committed ≡ (state S.Store tx.old.conn.now).committed }
    ensures was_clean { IsCleanAfter (state S.Store tx.new.conn.now) → IsCleanAfter (state S.Store tx.old.conn.now) }
    ensures sure_failed { IsSureStep (state S.Store tx.old.conn.now) (state S.Store tx.new.conn.now) shape.now → IfErr result
        (FailsToInsert S.Store shape.now (state S.Store tx.old.conn.now) (state S.Store tx.new.conn.now) [] (map tuple fresh.now)) }
    ensures goes_on { GoesOn (state S.Store tx.old.conn.now) (state S.Store tx.new.conn.now) }
{
    for row in fresh {
        match insert_row(tx, shape, row) {
            Ok(()) => {}
            Err(fault) => return Err(fault),
        }
    }
    Ok(())
}

// Takes the rows of some keys out, then puts rows in.
fn change_rows<S: SourceStore>(
    tx: &mut Transaction<'_, S>,
    shape: &Shape,
    gone: &[i64],
    fresh: &[Row],
) -> Result<(), Fault>
    requires inside { S.honest ≡ true → IsTrue tx.old.conn.now.in_transaction }
    requires writable { S.honest ≡ true → ∥ IsWritable tx.old.conn.now.schema shape.now ∥₁ }
    requires ordered { S.honest ≡ true → IsShaped stored.Table (entries_of (state S.Store tx.old.conn.now).now shape.now) }
    requires fits { All (λ r. has_place shape.now (tuple r) ≡ true) fresh.now }
    ensures same_reference { tx.new.conn.ghost_name ≡ tx.old.conn.ghost_name }
    ensures rows { S.honest ≡ true → OnOk result (entries_of (state S.Store tx.new.conn.now).now shape.now
        ≡ rewritten shape.now gone.now (map tuple fresh.now) (entries_of (state S.Store tx.old.conn.now).now shape.now)) }
    ensures free { S.honest ≡ true
        → OnOk result (repeats_key shape.now gone.now (map tuple fresh.now)
        (entries_of (state S.Store tx.old.conn.now).now shape.now) ≡ false) }
    ensures schema { S.honest ≡ true → OnOk result (tx.new.conn.now.schema ≡ tx.old.conn.now.schema) }
    ensures others { S.honest ≡ true →
        OnOk result (KeepsTables (state S.Store tx.old.conn.now).now (state S.Store tx.new.conn.now).now shape.now) }
    ensures refused { IfErr result (OnlyBy (λ c. (c ≡ NotUnique)
        × (S.honest ≡ true → repeats_key shape.now gone.now (map tuple fresh.now)
        (entries_of (state S.Store tx.old.conn.now).now shape.now) ≡ true))) }
    ensures inside { S.honest ≡ true → OnOk result (IsTrue tx.new.conn.now.in_transaction) }
    ensures kept { S.honest ≡ true → (state S.Store tx.new.conn.now).committed ≡ (state S.Store tx.old.conn.now).committed }
    ensures sure_rows { IsSureStep (state S.Store tx.old.conn.now) (state S.Store tx.new.conn.now) shape.now
        → OnOk result (entries_of (state S.Store tx.new.conn.now).now shape.now
        ≡ rewritten shape.now gone.now (map tuple fresh.now) (entries_of (state S.Store tx.old.conn.now).now shape.now)) }
    ensures sure_free { IsSureStep (state S.Store tx.old.conn.now) (state S.Store tx.new.conn.now) shape.now
        → OnOk result (repeats_key shape.now gone.now (map tuple fresh.now)
        (entries_of (state S.Store tx.old.conn.now).now shape.now) ≡ false) }
    ensures sure_refused { IfErr result (OnlyBy (λ _. IsSureStep (state S.Store tx.old.conn.now) (state S.Store tx.new.conn.now) shape.now
        → repeats_key shape.now gone.now (map tuple fresh.now) (entries_of (state S.Store tx.old.conn.now).now shape.now) ≡ true)) }
    ensures sure_steps { IsSureStep (state S.Store tx.old.conn.now) (state S.Store tx.new.conn.now) shape.now
        → OnOk result (StepsTo (state S.Store tx.old.conn.now) (state S.Store tx.new.conn.now) shape.now) }
    ensures sure_kept { IsSureStep (state S.Store tx.old.conn.now) (state S.Store tx.new.conn.now) shape.now
        → (state S.Store tx.new.conn.now).committed ≡ (state S.Store tx.old.conn.now).committed }
    ensures was_clean { IsCleanAfter (state S.Store tx.new.conn.now) → IsCleanAfter (state S.Store tx.old.conn.now) }
    ensures sure_failed { IsSureStep (state S.Store tx.old.conn.now) (state S.Store tx.new.conn.now) shape.now → IfErr result
        (FailsToChange S.Store shape.now (state S.Store tx.old.conn.now) (state S.Store tx.new.conn.now) gone.now (map tuple fresh.now)) }
    ensures goes_on { GoesOn (state S.Store tx.old.conn.now) (state S.Store tx.new.conn.now) }
{
    match delete_all(tx, shape, gone) {
        Ok(()) => insert_all(tx, shape, fresh),
        Err(fault) => Err(fault),
    }
}

/// Changes the rows of a table as one transaction: those of some keys are taken out, then these rows are put in, each in its place by key.
///
/// Each new row is of the table's types and has a key. No key is then there twice. Where it fails, the rows are as they were. Refused by
/// 23505 alone, where two new rows have one key or a new row has the key of a row that stays. Each failure is that of an error that the
/// connection reported of one of its statements (`FailsToRewrite`): the source only where that error is neither a repeated key of an INSERT
/// nor out of memory. No transaction is under way after it. This holds over a store that always returns what was written, and of each call
/// by itself that is sure (`IsSureWrite`).
pub fn rewrite<S: SourceStore>(
    conn: &mut Connection<S>,
    shape: &Shape,
    gone: &[i64],
    fresh: &[Row],
) -> Result<(), Fault>
    requires idle { conn.old.in_transaction ≡ false }
    requires writable { S.honest ≡ true → ∥ IsWritable conn.old.schema shape.now ∥₁ }
    requires fits { All (λ r. has_place shape.now (tuple r) ≡ true) fresh.now }
    ensures rows { S.honest ≡ true → OnOk result (entries_of (state S.Store conn.new).now shape.now
        ≡ rewritten shape.now gone.now (map tuple fresh.now) (entries_of (state S.Store conn.old).now shape.now)) }
    ensures free { S.honest ≡ true
        → OnOk result (repeats_key shape.now gone.now (map tuple fresh.now) (entries_of (state S.Store conn.old).now shape.now) ≡ false) }
    ensures lasts { S.honest ≡ true → OnOk result ((state S.Store conn.new).committed ≡ (state S.Store conn.new).now) }
    ensures schema { S.honest ≡ true → conn.new.schema ≡ conn.old.schema }
    ensures others { S.honest ≡ true → OnOk result (KeepsTables (state S.Store conn.old).now (state S.Store conn.new).now shape.now) }
    ensures same { S.honest ≡ true → OnErr result ((state S.Store conn.new).now ≡ (state S.Store conn.old).now) }
    ensures refused { IfErr result (OnlyBy (λ c. (c ≡ NotUnique)
        × (S.honest ≡ true → repeats_key shape.now gone.now (map tuple fresh.now)
        (entries_of (state S.Store conn.old).now shape.now) ≡ true))) }
    ensures sure_rows { IsSureWrite (state S.Store conn.old) (state S.Store conn.new) shape.now
        → OnOk result (entries_of (state S.Store conn.new).now shape.now
        ≡ rewritten shape.now gone.now (map tuple fresh.now) (entries_of (state S.Store conn.old).now shape.now)) }
    ensures sure_free { IsSureWrite (state S.Store conn.old) (state S.Store conn.new) shape.now
        → OnOk result (repeats_key shape.now gone.now (map tuple fresh.now) (entries_of (state S.Store conn.old).now shape.now) ≡ false) }
    ensures sure_lasts { IsCleanAfter (state S.Store conn.new)
        → OnOk result ((state S.Store conn.new).committed ≡ (state S.Store conn.new).now) }
    ensures sure_schema { IsSureWrite (state S.Store conn.old) (state S.Store conn.new) shape.now
        → OnOk result (conn.new.schema ≡ conn.old.schema) }
    ensures sure_others { IsSureWrite (state S.Store conn.old) (state S.Store conn.new) shape.now
        → OnOk result (KeepsTables (state S.Store conn.old).now (state S.Store conn.new).now shape.now) }
    ensures sure_same { IsSureWrite (state S.Store conn.old) (state S.Store conn.new) shape.now
        → OnErr result ((state S.Store conn.new).now ≡ (state S.Store conn.old).now) }
    ensures sure_refused { IfErr result (OnlyBy (λ _. IsSureWrite (state S.Store conn.old) (state S.Store conn.new) shape.now
        → repeats_key shape.now gone.now (map tuple fresh.now) (entries_of (state S.Store conn.old).now shape.now) ≡ true)) }
    ensures was_clean { IsCleanAfter (state S.Store conn.new) → IsCleanAfter (state S.Store conn.old) }
    ensures reported { S.honest ≡ true → IfErr result
        (FailsToRewrite S.Store shape.now gone.now (map tuple fresh.now) (state S.Store conn.old) (state S.Store conn.new)) }
    ensures sure_reported { IsSureWrite (state S.Store conn.old) (state S.Store conn.new) shape.now → IfErr result
        (FailsToRewrite S.Store shape.now gone.now (map tuple fresh.now) (state S.Store conn.old) (state S.Store conn.new)) }
    ensures idle { conn.new.in_transaction ≡ false }
{
    let _idle = conn.is_autocommit();
    let _schema = conn.schema();
    let mut tx = conn.transaction();
    if let Err(fault) = change_rows(&mut tx, shape, gone, fresh) {
        return Err(fault);
    }
    match tx.commit() {
        Ok(()) => Ok(()),
        Err(error) => Err(failure_of(error)),
    }
}

/// The entries of a table are in the order of their keys, where its store always returns what was written.
pub fn entries_rise<S: SourceStore>(conn: &Connection<S>, shape: &Shape)
    requires writable { S.honest ≡ true → ∥ IsWritable conn.now.schema shape.now ∥₁ }
    ensures { S.honest ≡ true → IsShaped stored.Table (entries_of (state S.Store conn.now).now shape.now) }
{
    let _shape = shape;
    let _schema = conn.schema();
}
