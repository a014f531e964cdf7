//! One statement that changes a row, by its text, inside a transaction.
ghost use Rattle.std.specs.Prelude.{◌≡◌, ◌≤◌, ℕ, true, false, List, [], ◌∷◌, map, take, length, Option, IsTrue, IfErr, OnOk};
ghost use Rattle.sqlite.specs.declared.types.Value.TheVariants as sql;
ghost use Rattle.sqlite.specs.Held.{state};
ghost use Rattle.sqlite.specs.State.{ExecutesInside, HasCleanDisk, Survives};
ghost use Rattle.sqlite.specs.View.{IsShaped};
ghost use Rattle.sqlite.specs.Edit.{is_taken};
ghost use Rattle.sqlite_trees.specs.declared.store.Shape.TheVariants as shape;
ghost use Rattle.sqlite_value.specs.Value.{owned};
ghost use Rattle.med_value.specs.Datum.{datum, tuple};
ghost use Rattle.med_value.specs.declared.value.ColType.{ColType};
ghost use Rattle.med_value.specs.declared.value.ColType.TheVariants.{Int as IntType};
ghost use Rattle.sqlite_tables.specs.Prelude.{IsCleanAfter, IsDeleteFrom, IsInsertInto, IsUnread};
ghost use Rattle.sqlite_writes.specs.Changes.{TakesOut, PutsIn};
ghost use Rattle.sqlite_writes.specs.Failing.{GoesOn};
ghost use Rattle.sqlite_writes.specs.Stored.{Reports, column_limit, inserted_cells, is_placed, stored, stored_row, taken_key};

use med_value::{Row, Value};
use sqlite::types::ValueRef;
use sqlite::{Error, Transaction, params};
use sqlite_tables::SourceStore;

/// How many columns a table of SQLite has at most.
pub(crate) const COLUMN_LIMIT: usize = 2000;

// Takes the row of a key out, where there is one.
pub(crate) fn delete<S: SourceStore>(
    tx: &mut Transaction<'_, S>,
    text: &str,
    key: i64,
) -> Result<(), Error>
    requires inside { S.honest ≡ true → IsTrue tx.old.conn.now.in_transaction }
    ensures same_reference { tx.new.conn.ghost_name ≡ tx.old.conn.ghost_name }
    ensures done { S.honest ≡ true → (tree : ℕ) → IsDeleteFrom tx.old.conn.now.schema text.now tree
        → IsShaped shape.Table ((state S.Store tx.old.conn.now).now.trees tree)
        → OnOk result (TakesOut (state S.Store tx.old.conn.now).now (state S.Store tx.new.conn.now).now tree key) }
    ensures unread { S.honest ≡ true → IsUnread tx.old.conn.now.schema text.now → OnOk result ⊥ }
    ensures inside { S.honest ≡ true → OnOk result (IsTrue tx.new.conn.now.in_transaction) }
    ensures kept { S.honest ≡ true → (state S.Store tx.new.conn.now).committed ≡ (state S.Store tx.old.conn.now).committed }
    ensures sure_done { IsCleanAfter (state S.Store tx.new.conn.now) → IsTrue tx.old.conn.now.in_transaction
        → (tree : ℕ) → IsDeleteFrom tx.old.conn.now.schema text.now tree
        → IsShaped shape.Table ((state S.Store tx.old.conn.now).now.trees tree)
        → OnOk result (TakesOut (state S.Store tx.old.conn.now).now (state S.Store tx.new.conn.now).now tree key) }
    ensures sure_unread { IsCleanAfter (state S.Store tx.new.conn.now) → IsTrue tx.old.conn.now.in_transaction
        → IsUnread tx.old.conn.now.schema text.now → OnOk result ⊥ }
    ensures sure_inside { IsCleanAfter (state S.Store tx.new.conn.now) → IsTrue tx.old.conn.now.in_transaction
        → OnOk result (IsTrue tx.new.conn.now.in_transaction) }
    ensures sure_kept { IsCleanAfter (state S.Store tx.new.conn.now) → IsTrue tx.old.conn.now.in_transaction
        → (state S.Store tx.new.conn.now).committed ≡ (state S.Store tx.old.conn.now).committed }
    ensures was_clean { IsCleanAfter (state S.Store tx.new.conn.now) → IsCleanAfter (state S.Store tx.old.conn.now) }
    ensures reported { IfErr result (Reports text.now (sql.Int key ∷ [])
        (state S.Store tx.old.conn.now) (state S.Store tx.new.conn.now)) }
    ensures goes_on { GoesOn (state S.Store tx.old.conn.now) (state S.Store tx.new.conn.now) }
{
    match tx.execute(text, params![key]) {
        Ok(_count) => Ok(()),
        Err(error) => Err(error),
    }
}

// A value as a cell of the database.
fn cell_of(value: &Value) -> ValueRef<'_>
    ensures { owned result ≡ stored (datum value.now) }
{
    match value {
        Value::Null => ValueRef::Null,
        Value::Int(number) => ValueRef::Int(*number),
        Value::Text(text) => ValueRef::Text(text.as_bytes()),
        Value::Bool(true) => ValueRef::Int(1),
        Value::Bool(false) => ValueRef::Int(0),
    }
}

// Writes the cells of a row into the first places of a slice, as cells of the database.
fn fill<'x>(cells: &mut [ValueRef<'x>], row: &'x Row)
    requires room { length (tuple row.now) ≤ length cells.old }
    ensures filled { map owned (take (length (tuple row.now)) cells.new) ≡ inserted_cells (tuple row.now) }
    ensures len { length cells.new ≡ length cells.old }
{
    for at in 0..row.cells.len() {
        cells[at] = cell_of(&row.cells[at]);
    }
}

// Runs a text whose parameters are the cells of a row of few columns.
fn execute_narrow<S: SourceStore>(
    tx: &mut Transaction<'_, S>,
    text: &str,
    row: &Row,
) -> Result<usize, Error>
    requires room { length (tuple row.now) ≤ 16 }
    ensures same_reference { tx.new.conn.ghost_name ≡ tx.old.conn.ghost_name }
    ensures ended { (state S.Store tx.old.conn.now).in_transaction ≡ false → tx.new.conn.now ≡ tx.old.conn.now }
    ensures runs { HasCleanDisk (state S.Store tx.new.conn.now) → IsTrue (state S.Store tx.old.conn.now).in_transaction
        → ExecutesInside 0 text.now (inserted_cells (tuple row.now))
        (state S.Store tx.old.conn.now) (state S.Store tx.new.conn.now) result }
    ensures survives { Survives (state S.Store tx.old.conn.now) (state S.Store tx.new.conn.now) (λ _. ⊥) }
{
    let mut narrow = [ValueRef::Null; 16];
    fill(&mut narrow, row);
    tx.execute(text, &narrow[..row.cells.len()])
}

// Runs a text whose parameters are the cells of a row of as many columns as a table has at most. It holds them on the stack, in 48 KB.
#[inline(never)]
fn execute_wide<S: SourceStore>(
    tx: &mut Transaction<'_, S>,
    text: &str,
    row: &Row,
) -> Result<usize, Error>
    requires room { length (tuple row.now) ≤ column_limit }
    ensures same_reference { tx.new.conn.ghost_name ≡ tx.old.conn.ghost_name }
    ensures ended { (state S.Store tx.old.conn.now).in_transaction ≡ false → tx.new.conn.now ≡ tx.old.conn.now }
    ensures runs { HasCleanDisk (state S.Store tx.new.conn.now) → IsTrue (state S.Store tx.old.conn.now).in_transaction
        → ExecutesInside 0 text.now (inserted_cells (tuple row.now))
        (state S.Store tx.old.conn.now) (state S.Store tx.new.conn.now) result }
    ensures survives { Survives (state S.Store tx.old.conn.now) (state S.Store tx.new.conn.now) (λ _. ⊥) }
{
    let mut wide = [ValueRef::Null; 2000];
    fill(&mut wide, row);
    tx.execute(text, &wide[..row.cells.len()])
}

// Runs a text whose parameters are the cells of a row. It allocates nothing beside what the statement does.
fn execute_row<S: SourceStore>(
    tx: &mut Transaction<'_, S>,
    text: &str,
    row: &Row,
) -> Result<usize, Error>
    requires few { length (tuple row.now) ≤ column_limit }
    ensures same_reference { tx.new.conn.ghost_name ≡ tx.old.conn.ghost_name }
    ensures ended { (state S.Store tx.old.conn.now).in_transaction ≡ false → tx.new.conn.now ≡ tx.old.conn.now }
    ensures runs { HasCleanDisk (state S.Store tx.new.conn.now) → IsTrue (state S.Store tx.old.conn.now).in_transaction
        → ExecutesInside 0 text.now (inserted_cells (tuple row.now))
        (state S.Store tx.old.conn.now) (state S.Store tx.new.conn.now) result }
    ensures survives { Survives (state S.Store tx.old.conn.now) (state S.Store tx.new.conn.now) (λ _. ⊥) }
{
    if row.cells.len() <= 16 {
        execute_narrow(tx, text, row)
    } else {
        execute_wide(tx, text, row)
    }
}

// Puts a row in, whose first cell is its key. No row may have that key.
pub(crate) fn insert<S: SourceStore>(
    tx: &mut Transaction<'_, S>,
    text: &str,
    row: &Row,
) -> Result<(), Error>
    requires few { length (tuple row.now) ≤ column_limit }
    requires inside { S.honest ≡ true → IsTrue tx.old.conn.now.in_transaction }
    ensures same_reference { tx.new.conn.ghost_name ≡ tx.old.conn.ghost_name }
    ensures done { S.honest ≡ true → (tree : ℕ) (cells : List (Option ℕ)) (kinds : List ColType)
        → IsInsertInto tx.old.conn.now.schema text.now tree cells kinds → is_placed (IntType ∷ kinds) (tuple row.now) ≡ true
        → OnOk result (PutsIn (state S.Store tx.old.conn.now).now (state S.Store tx.new.conn.now).now tree
        (stored_row cells (inserted_cells (tuple row.now)))) }
    ensures taken { S.honest ≡ true → (tree : ℕ) (cells : List (Option ℕ)) (kinds : List ColType)
        → IsInsertInto tx.old.conn.now.schema text.now tree cells kinds → is_placed (IntType ∷ kinds) (tuple row.now) ≡ true
        → IfErr result (λ e. e ≡ taken_key
        → is_taken ((state S.Store tx.old.conn.now).now.trees tree) (stored_row cells (inserted_cells (tuple row.now))) ≡ true) }
    ensures unread { S.honest ≡ true → IsUnread tx.old.conn.now.schema text.now → OnOk result ⊥ }
    ensures absent { S.honest ≡ true → IsUnread tx.old.conn.now.schema text.now
        → IfErr result (λ e. e ≡ taken_key → ⊥) }
    ensures inside { S.honest ≡ true → OnOk result (IsTrue tx.new.conn.now.in_transaction) }
    ensures kept { S.honest ≡ true → (state S.Store tx.new.conn.now).committed ≡ (state S.Store tx.old.conn.now).committed }
    ensures sure_done { IsCleanAfter (state S.Store tx.new.conn.now) → IsTrue tx.old.conn.now.in_transaction
        → (tree : ℕ) (cells : List (Option ℕ)) (kinds : List ColType)
        → IsInsertInto tx.old.conn.now.schema text.now tree cells kinds → is_placed (IntType ∷ kinds) (tuple row.now) ≡ true
        → OnOk result (PutsIn (state S.Store tx.old.conn.now).now (state S.Store tx.new.conn.now).now tree
        (stored_row cells (inserted_cells (tuple row.now)))) }
    ensures sure_taken { IsCleanAfter (state S.Store tx.new.conn.now) → IsTrue tx.old.conn.now.in_transaction
        → (tree : ℕ) (cells : List (Option ℕ)) (kinds : List ColType)
        → IsInsertInto tx.old.conn.now.schema text.now tree cells kinds → is_placed (IntType ∷ kinds) (tuple row.now) ≡ true
        → IfErr result (λ e. e ≡ taken_key
        → is_taken ((state S.Store tx.old.conn.now).now.trees tree) (stored_row cells (inserted_cells (tuple row.now))) ≡ true) }
    ensures sure_absent { IsCleanAfter (state S.Store tx.new.conn.now) → IsTrue tx.old.conn.now.in_transaction
        → IsUnread tx.old.conn.now.schema text.now → IfErr result (λ e. e ≡ taken_key → ⊥) }
    ensures sure_unread { IsCleanAfter (state S.Store tx.new.conn.now) → IsTrue tx.old.conn.now.in_transaction
        → IsUnread tx.old.conn.now.schema text.now → OnOk result ⊥ }
    ensures sure_inside { IsCleanAfter (state S.Store tx.new.conn.now) → IsTrue tx.old.conn.now.in_transaction
        → OnOk result (IsTrue tx.new.conn.now.in_transaction) }
    ensures sure_kept { IsCleanAfter (state S.Store tx.new.conn.now) → IsTrue tx.old.conn.now.in_transaction
        → (state S.Store tx.new.conn.now).committed ≡ (state S.Store tx.old.conn.now).committed }
    ensures reported { IfErr result (Reports text.now (inserted_cells (tuple row.now))
        (state S.Store tx.old.conn.now) (state S.Store tx.new.conn.now)) }
    ensures was_clean { IsCleanAfter (state S.Store tx.new.conn.now) → IsCleanAfter (state S.Store tx.old.conn.now) }
    ensures goes_on { GoesOn (state S.Store tx.old.conn.now) (state S.Store tx.new.conn.now) }
{
    match execute_row(tx, text, row) {
        Ok(_count) => Ok(()),
        Err(error) => Err(error),
    }
}
