//! The changes of a write, split into the keys of the rows that go and the rows that come.
ghost use Rattle.std.specs.Prelude.{◌≡◌, ℕ, true, false, not, map, All, IfOk, IfErr};
ghost use Rattle.std.specs.List.{list_all, list_any};
ghost use Rattle.med_value.specs.Prelude.{tuple, cell, is_missing};
ghost use Rattle.med_value.specs.declared.cause.Cause.TheVariants.{NotNull};
ghost use Rattle.fdw_api.specs.Prelude.{row_fits, row_of_change_fits};
ghost use Rattle.wrapper_parts.specs.Staged.{change_is};
ghost use Rattle.sqlite_tables.specs.Layouts.{Layout, kinds_in};
ghost use Rattle.sqlite_writes.specs.Rewriting.{has_place};
ghost use Rattle.sqlite_writes.specs.Kinds.{lacks_key};
ghost use Rattle.sqlite_writes.specs.Splitting.{keys_gone, rows_come, is_holdable, IsKeyless};

use fdw_api::interface::Fault;
use med_value::{Cause, Row, Value};
use sqlite_tables::Shape;
use std::alloc::Global;
use wrapper_parts::RowChange;

/// The changes of a write: the keys of the rows that go, and the rows that come, each in the changes' order.
#[derive(Drop)]
pub struct Split {
    pub gone: Vec<i64>,
    pub fresh: Vec<Row>,
}

// Whether a row of a table has a key.
fn has_key(row: &Row) -> bool
    ensures has { result ≡ not (is_missing (cell (tuple row.now) 0)) }
    ensures holdable { result ≡ true → is_holdable (tuple row.now) ≡ true }
{
    match row.cells.first() {
        None | Some(Value::Null) => false,
        Some(Value::Int(key)) => {
            let _key: i64 = *key;
            true
        }
        Some(Value::Text(_text)) => true,
        Some(Value::Bool(_truth)) => true,
    }
}

// Returns a row with a key; refuses one without by 23502.
fn keyed(row: Row) -> Result<Row, Fault>
    ensures same { IfOk result (λ r. r ≡ row) }
    ensures placed { (l : Layout) → row_fits (kinds_in l) (tuple row) ≡ true
        → IfOk result (λ r. has_place l (tuple row) ≡ true) }
    ensures holdable { IfOk result (λ r. is_holdable (tuple row) ≡ true) }
    ensures err { IfErr result (λ fault. (fault ≡ Fault.Refused NotNull) × (is_missing (cell (tuple row) 0) ≡ true)) }
{
    if has_key(&row) {
        Ok(row)
    } else {
        Err(Fault::Refused(Cause::NotNull))
    }
}

/// Splits the changes of a write to a table into the keys of the rows that go, which are the updated and the deleted ones, and the rows
/// that come, which are the inserted ones and those in the place of updated ones.
///
/// Each new row is of the table's types. Refused by 23502 where one has no key.
pub fn split_changes(alloc: Global, shape: &Shape, changes: Vec<RowChange>) -> Result<Split, Fault>
    requires fits { list_all (row_of_change_fits (kinds_in shape.now)) (map change_is changes.items) ≡ true }
    ensures gone { IfOk result (λ s. s.gone.items ≡ keys_gone (map change_is changes.items)) }
    ensures fresh { IfOk result (λ s. map tuple s.fresh.items ≡ rows_come (map change_is changes.items)) }
    ensures placed { IfOk result (λ s. All (λ r. has_place shape.now (tuple r) ≡ true) s.fresh.items) }
    ensures each_placed { IfOk result (λ s. list_all (has_place shape.now) (rows_come (map change_is changes.items)) ≡ true) }
    ensures holdable { IfOk result (λ s. list_all is_holdable (rows_come (map change_is changes.items)) ≡ true) }
    ensures keyed { IfOk result (λ s. list_any lacks_key (map change_is changes.items) ≡ false) }
    ensures refused { IfErr result (IsKeyless (map change_is changes.items)) }
{
    let mut gone = Vec::new(alloc);
    let mut fresh = Vec::new(alloc);
    for change in changes {
        match change {
            RowChange::Insert(row) => fresh.push(keyed(row)?)?,
            RowChange::Update(id, row) => {
                gone.push(id.cast_signed())?;
                fresh.push(keyed(row)?)?;
            }
            RowChange::Delete(id) => gone.push(id.cast_signed())?,
        }
    }
    Ok(Split { gone, fresh })
}
