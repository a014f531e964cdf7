//! Rows after staged changes.
ghost use Rattle.std.specs.Prelude.{◌≡◌, ◌++◌, List, map, flat_map, IfOk, OnOk};
ghost use Rattle.med_value.specs.Datum.{Tuple, tuple};
ghost use Rattle.fdw_api.specs.Writes.{inserted, rows_after};
ghost use Rattle.wrapper_parts.specs.Staged.{change_is};
ghost use Rattle.wrapper_parts.specs.Weaving.{outcome};
ghost use Rattle.tab_tests.specs.Kept.{no_line, as_held, numbered, left_by, rows_left};

use med_value::{NoMemory, Row};
use std::alloc::Global;
use wrapper_parts::{Fate, RowChange, keep_all, set_fate};

// A sorted write: what it makes of each old row, and its new rows.
#[derive(Drop)]
struct Sorted {
    fates: Vec<Fate<Row>>,
    fresh: Vec<Row>,
}

// Sorts changes by the rows that they name.
fn sort_changes(
    alloc: Global,
    fates: Vec<Fate<Row>>,
    changes: Vec<RowChange>,
) -> Result<Sorted, NoMemory>
    ensures fates { IfOk result (λ s. (rows : List Tuple) → map as_held (left_by s.fates.items rows)
        ≡ rows_left rows fates.items (map change_is changes.items)) }
    ensures fresh { IfOk result (λ s. map as_held (map tuple s.fresh.items) ≡ flat_map (inserted no_line) (map change_is changes.items)) }
{
    let mut fates = fates;
    let mut fresh = Vec::new(alloc);
    for change in changes {
        match change {
            RowChange::Insert(row) => fresh.push(row)?,
            RowChange::Update(id, row) => set_fate(&mut fates, id, Fate::Change(row)),
            RowChange::Delete(id) => set_fate(&mut fates, id, Fate::Gone),
        }
    }
    Ok(Sorted { fates, fresh })
}

// Appends what a fate leaves of an old row.
fn leave(alloc: Global, left: &mut Vec<Row>, row: &Row, fate: Fate<Row>) -> Result<(), NoMemory>
    ensures { OnOk result (map tuple left.new.items ≡ map tuple left.old.items ++ outcome tuple (tuple row.now) fate) }
{
    match fate {
        Fate::Keep => left.push(row.copy(alloc)?)?,
        Fate::Change(row) => left.push(row)?,
        Fate::Gone => {}
    }
    Ok(())
}

// The old rows that are left, as their fates say.
fn old_rows(alloc: Global, rows: &[Row], fates: Vec<Fate<Row>>) -> Result<Vec<Row>, NoMemory>
    ensures { IfOk result (λ left. map tuple left.items ≡ left_by fates.items (map tuple rows.now)) }
{
    let mut rows = rows;
    let mut left = Vec::new(alloc);
    for fate in fates {
        if let Some((row, others)) = rows.split_first() {
            leave(alloc, &mut left, row, fate)?;
            rows = others;
        }
    }
    Ok(left)
}

/// The rows of a table after staged changes, which name rows by their places: the old ones that are left, in their order, and then the new
/// ones. It fails for want of memory alone.
pub fn rows_after(
    alloc: Global,
    rows: &[Row],
    changes: Vec<RowChange>,
) -> Result<Vec<Row>, NoMemory>
    ensures { IfOk result (λ after. map as_held (map tuple after.items)
        ≡ rows_after no_line (numbered 0 (map tuple rows.now)) (map change_is changes.items)) }
{
    let fates = keep_all(alloc, rows.len())?;
    let Sorted { fates, fresh } = sort_changes(alloc, fates, changes)?;
    let mut after = old_rows(alloc, rows, fates)?;
    let mut fresh = fresh;
    after.append(&mut fresh)?;
    Ok(after)
}
