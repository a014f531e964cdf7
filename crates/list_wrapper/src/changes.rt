//! The staged changes of a write to a list, and what they make of its rows.
ghost use Rattle.std.specs.Prelude.{◌≡◌, ◌<◌, ◌≤◌, ◌+◌, ◌++◌, ◌∷◌, [], ℕ, true, false, Some, map, length, drop, option_map, slice_set, slice_index_or, IfOk, IfErr, IfSome, IsSome, OnOk, OnErr};
ghost use Rattle.std.specs.List.{count_by, list_any};
ghost use Rattle.med_value.specs.declared.value.Row.{Row};
ghost use Rattle.fdw_api.specs.Prelude.{Deletes, rows_after};
ghost use Rattle.med_value.specs.Limits.{row_limit};
ghost use Rattle.list_wrapper.specs.Lists.{no_line};
ghost use Rattle.wrapper_parts.specs.Rising.{AreRising};
ghost use Rattle.list_wrapper.specs.Scans.{numbered, keys_of};
ghost use Rattle.list_wrapper.specs.Changes.{change_is, write_is, with_change, broken_write, as_held, is_insert, is_delete, is_yes, gone_after, row_changed, fresh_rows, StandsFor};

use crate::held_rows::Rows;
use crate::rises::{rises_after, stays_rising};
use fdw_api::interface::Fault;
use med_value::limits::ROW_LIMIT;
use med_value::{Cause, NoMemory, Row};
use std::alloc::Global;

/// A staged change.
#[derive(Drop)]
pub(crate) enum ListChange {
    Insert(Row),
    Update(u64, Row),
    Delete(u64),
}

/// A write that is under way: its table and its changes, in order.
#[derive(Drop)]
pub(crate) struct ListWrite {
    pub(crate) table: u64,
    pub(crate) changes: Vec<ListChange>,
    pub(crate) broken: bool,
}

/// Stages a change. Where memory is refused the write is broken.
pub(crate) fn add_change(staged: &mut Option<ListWrite>, change: ListChange) -> Result<(), Fault>
    requires { IsSome staged.old }
    ensures ok { OnOk result (IfSome staged.old (λ s. option_map write_is staged.new ≡ Some (with_change s (change_is change)))) }
    ensures err { IfErr result (λ fault. (fault ≡ Fault.NoMemory)
        × IfSome staged.old (λ s. option_map write_is staged.new ≡ Some (broken_write s))) }
{
    match staged {
        None => unreachable!(),
        Some(write) => match write.changes.push(change) {
            Ok(()) => Ok(()),
            Err(_) => {
                write.broken = true;
                Err(Fault::NoMemory)
            }
        },
    }
}

/// Whether a change brings a new row.
fn is_insert(change: &ListChange) -> bool
    ensures { result ≡ is_insert change.now }
{
    matches!(change, ListChange::Insert(_))
}

/// Whether a change takes a row out.
fn is_delete(change: &ListChange) -> bool
    ensures { result ≡ is_delete change.now }
{
    matches!(change, ListChange::Delete(_))
}

/// How many new rows changes bring.
fn count_fresh(changes: &[ListChange]) -> usize
    ensures { result ≡ count_by is_insert changes.now }
{
    let mut count = 0;
    for change in changes {
        if is_insert(change) {
            count += 1;
        }
    }
    count
}

/// Whether any of these changes takes a row out.
fn takes_out(changes: &[ListChange]) -> bool
    ensures { result ≡ list_any is_delete changes.now }
{
    for change in changes {
        if is_delete(change) {
            return true;
        }
    }
    false
}

/// Marks a row as gone or as there, if it is one of these.
fn mark(gone: &mut Vec<bool>, id: u64, mark: bool)
    ensures { gone.new.items ≡ slice_set gone.old.items id mark }
{
    let at = id as usize;
    if at < gone.len() {
        gone[at] = mark;
    }
}

/// Of each of so many rows whether it is gone after these changes. The list is empty where none is taken out.
fn gone_rows(alloc: Global, count: usize, changes: &[ListChange]) -> Result<Vec<bool>, NoMemory>
    ensures each { IfOk result (λ gone. (id : ℕ) → id < count → slice_index_or gone.items id false ≡ gone_after id changes.now false) }
    ensures within { IfOk result (λ gone. length gone.items ≤ count) }
{
    if !takes_out(changes) {
        return Ok(Vec::new(alloc));
    }
    let mut gone = vec![in alloc; false; count]?;
    for change in changes {
        match change {
            ListChange::Insert(_) => {}
            ListChange::Update(id, _) => mark(&mut gone, *id, false),
            ListChange::Delete(id) => mark(&mut gone, *id, true),
        }
    }
    Ok(gone)
}

/// How many rows are gone.
fn count_gone(gone: &[bool]) -> usize
    ensures { result ≡ count_by is_yes gone.now }
{
    let mut count = 0;
    for is_gone in gone {
        if *is_gone {
            count += 1;
        }
    }
    count
}

/// Puts a row in the place of another, if it is one of the first so many.
fn replace_row(rows: &mut Rows, count: usize, id: u64, row: Row)
    ensures here { id < count → count ≤ length rows.old.items → (d : Row) → slice_index_or rows.new.items id d ≡ row }
    ensures others { (i : ℕ) (d : Row) → (i ≡ id → ⊥) → slice_index_or rows.new.items i d ≡ slice_index_or rows.old.items i d }
    ensures behind { drop count rows.new.items ≡ drop count rows.old.items }
    ensures len { length rows.new.items ≡ length rows.old.items }
    ensures room { rows.new.room ≡ rows.old.room }
{
    let at = id as usize;
    if at < count && at < rows.len() {
        rows.replace(at, row);
    }
}

/// Puts changed rows in their places and new rows behind all, for which there is room. Rows that are gone stay for now.
fn write_rows(rows: &mut Rows, changes: Vec<ListChange>)
    requires { length (fresh_rows changes.items) ≤ rows.old.room }
    ensures changed { (i : ℕ) (d : Row) → i < length rows.old.items
        → slice_index_or rows.new.items i d ≡ row_changed i changes.items (slice_index_or rows.old.items i d) }
    ensures fresh { drop (length rows.old.items) rows.new.items ≡ fresh_rows changes.items }
    ensures longer { length rows.old.items ≤ length rows.new.items }
{
    let count = rows.len();
    for change in changes {
        match change {
            ListChange::Insert(row) => rows.push(row),
            ListChange::Update(id, row) => replace_row(rows, count, id, row),
            ListChange::Delete(_) => {}
        }
    }
}

/// Makes staged changes where the rows stand: those that are left in list order, and then the new ones. All that can fail comes first.
/// The mark whether they rise comes of the changes alone, and of the rows where any are taken out.
fn apply_all(
    alloc: Global,
    rows: &mut Rows,
    rises: &mut bool,
    changes: Vec<ListChange>,
) -> Result<(), Fault>
    ensures ok { OnOk result (map as_held rows.new.items ≡ rows_after no_line (numbered 0 rows.old.items) (map change_is changes.items)) }
    ensures rises { (rises.old ≡ true → AreRising (keys_of rows.old.items)) → rises.new ≡ true → AreRising (keys_of rows.new.items) }
    ensures few { OnOk result (length rows.new.items ≤ row_limit) }
    ensures same { OnErr result (rows.new.items ≡ rows.old.items) }
    ensures err { IfErr result (λ fault. StandsFor fault (rows_after no_line (numbered 0 rows.old.items) (map change_is changes.items))) }
{
    let gone = gone_rows(alloc, rows.len(), &changes)?;
    let fresh = count_fresh(&changes);
    let left = rows.len() - count_gone(&gone);
    if left.saturating_add(fresh) > ROW_LIMIT {
        return Err(Fault::Refused(Cause::TooLarge));
    }
    rows.reserve(alloc, fresh)?;
    let told = stays_rising(rows, *rises, &changes);
    write_rows(rows, changes);
    rows.take_out(&gone);
    rows.settle();
    *rises = rises_after(rows, &gone, told);
    Ok(())
}

/// The place of the row that changes take out, if they are this deletion alone, and the rows no more than may stay.
fn lone_deletion(count: usize, changes: &[ListChange]) -> Option<usize>
    ensures { IfSome result (λ at. (at < count) × (count ≤ row_limit) × (map change_is changes.now ≡ Deletes at ∷ [])) }
{
    if count > ROW_LIMIT || changes.len() != 1 {
        return None;
    }
    match &changes[0] {
        ListChange::Delete(id) if *id < count as u64 => Some(*id as usize),
        _ => None,
    }
}

/// Makes staged changes where the rows stand, as `apply_all` does. A deletion alone takes its row out, with no look at the others.
pub(crate) fn apply(
    alloc: Global,
    rows: &mut Rows,
    rises: &mut bool,
    changes: Vec<ListChange>,
) -> Result<(), Fault>
    ensures ok { OnOk result (map as_held rows.new.items ≡ rows_after no_line (numbered 0 rows.old.items) (map change_is changes.items)) }
    ensures rises { (rises.old ≡ true → AreRising (keys_of rows.old.items)) → rises.new ≡ true → AreRising (keys_of rows.new.items) }
    ensures few { OnOk result (length rows.new.items ≤ row_limit) }
    ensures same { OnErr result (rows.new.items ≡ rows.old.items) }
    ensures err { IfErr result (λ fault. StandsFor fault (rows_after no_line (numbered 0 rows.old.items) (map change_is changes.items))) }
{
    match lone_deletion(rows.len(), &changes) {
        Some(at) => {
            rows.remove(at);
            Ok(())
        }
        None => apply_all(alloc, rows, rises, changes),
    }
}
