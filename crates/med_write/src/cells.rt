//! The cells of rows that are written.
ghost use Rattle.std.specs.Prelude.{◌≡◌, ◌∷◌, ◌++◌, [], IfOk, map, option_map};
ghost use Rattle.med_value.specs.Datum.{datum, tuple};
ghost use Rattle.tri_expr.specs.Prelude.{Is, tree, fault_list};
ghost use Rattle.med_query.specs.Query.{TellsFault};
ghost use Rattle.med_write.specs.Writing.{outcome_on, outcomes_on, outcomes_of, value_for, new_cells, cell_after, row_made};
ghost use Rattle.med_write.specs.Writing.{is_null, lacks_value};
ghost use Rattle.med_write.specs.Making.{GivesOutcome};

use crate::write::WrittenColumn;
use med_value::{Row, Value};
use std::alloc::Global;
use tri_expr::{EvalFault, Expr, eval};

// Appends a value. Refused only for want of memory.
fn push_value(v: Value, cells: &mut Vec<Value>) -> Result<(), EvalFault>
    ensures ok { IfOk result (λ _. cells.new.items ≡ cells.old.items ++ v ∷ []) }
    ensures told { TellsFault result [] }
{
    match cells.push(v) {
        Ok(()) => Ok(()),
        Err(_) => Err(EvalFault::NoMemory),
    }
}

// What an expression gives on a row.
fn value_on(alloc: Global, row: &Row, e: &Expr) -> Result<Value, EvalFault>
    ensures { GivesOutcome result (outcome_on (tuple row.now) (tree e.now)) }
{
    eval(alloc, e, row, &[])
}

// A copy of a value, which no fault stands for.
fn same_value(alloc: Global, v: &Value) -> Result<Value, EvalFault>
    ensures { GivesOutcome result (Is (datum v.now)) }
{
    match v.copy(alloc) {
        Ok(copy) => Ok(copy),
        Err(_) => Err(EvalFault::NoMemory),
    }
}

// What the expression at a place gives on a row, NULL without one.
fn placed_value(
    alloc: Global,
    given: &[Expr],
    place: Option<usize>,
    row: &Row,
) -> Result<Value, EvalFault>
    ensures { GivesOutcome result (value_for (outcomes_on (tuple row.now) (map tree given.now)) place) }
{
    match place {
        None => Ok(Value::Null),
        Some(at) => match given.get(at) {
            Some(e) => value_on(alloc, row, e),
            None => Ok(Value::Null),
        },
    }
}

// The value at a place of a row, NULL without one.
fn picked_value(alloc: Global, row: &Row, place: Option<usize>) -> Result<Value, EvalFault>
    ensures { GivesOutcome result (value_for (outcomes_of (tuple row.now)) place) }
{
    match place {
        None => Ok(Value::Null),
        Some(at) => match row.cells.get(at) {
            Some(v) => same_value(alloc, v),
            None => Ok(Value::Null),
        },
    }
}

// A cell by SET on the old row, or the old cell.
fn cell_value(
    alloc: Global,
    row: &Row,
    place: usize,
    set: &Option<Expr>,
) -> Result<Value, EvalFault>
    ensures { GivesOutcome result (cell_after (tuple row.now) place (option_map tree set.now)) }
{
    match set {
        Some(e) => value_on(alloc, row, e),
        None => match row.cells.get(place) {
            Some(v) => same_value(alloc, v),
            None => Ok(Value::Null),
        },
    }
}

/// A new row of VALUES: its expressions see a row of no cells.
pub(crate) fn row_of_values(
    alloc: Global,
    places: &[Option<usize>],
    given: &[Expr],
    nothing: &Row,
) -> Result<Row, EvalFault>
    ensures ok { IfOk result (λ r. new_cells places.now (outcomes_on (tuple nothing.now) (map tree given.now)) ≡ outcomes_of (tuple r)) }
    ensures told { TellsFault result (fault_list (new_cells places.now (outcomes_on (tuple nothing.now) (map tree given.now)))) }
{
    let mut cells = Vec::new(alloc);
    for place in places {
        let v = match placed_value(alloc, given, *place, nothing) {
            Ok(v) => v,
            Err(fault) => return Err(fault),
        };
        push_value(v, &mut cells)?;
    }
    Ok(Row { cells })
}

/// A new row of a query's answer.
pub(crate) fn row_of_answer(
    alloc: Global,
    places: &[Option<usize>],
    row: &Row,
) -> Result<Row, EvalFault>
    ensures ok { IfOk result (λ r. new_cells places.now (outcomes_of (tuple row.now)) ≡ outcomes_of (tuple r)) }
    ensures told { TellsFault result (fault_list (new_cells places.now (outcomes_of (tuple row.now)))) }
{
    let mut cells = Vec::new(alloc);
    for place in places {
        let v = match picked_value(alloc, row, *place) {
            Ok(v) => v,
            Err(fault) => return Err(fault),
        };
        push_value(v, &mut cells)?;
    }
    Ok(Row { cells })
}

/// The row that an UPDATE makes of an old one.
pub(crate) fn row_of_update(
    alloc: Global,
    sets: &[Option<Expr>],
    row: &Row,
) -> Result<Row, EvalFault>
    ensures ok { IfOk result (λ r. row_made (map (option_map tree) sets.now) (tuple row.now) ≡ outcomes_of (tuple r)) }
    ensures told { TellsFault result (fault_list (row_made (map (option_map tree) sets.now) (tuple row.now))) }
{
    let mut cells = Vec::new(alloc);
    for (place, set) in sets.iter().enumerate() {
        let v = match cell_value(alloc, row, place, set) {
            Ok(v) => v,
            Err(fault) => return Err(fault),
        };
        push_value(v, &mut cells)?;
    }
    Ok(Row { cells })
}

fn is_null(v: &Value) -> bool
    ensures { result ≡ is_null (Is (datum v.now)) }
{
    matches!(v, Value::Null)
}

/// Whether NULL stands in a NOT NULL column of a row.
pub(crate) fn lacks_value(columns: &[WrittenColumn], row: &Row) -> bool
    ensures { result ≡ lacks_value columns.now (outcomes_of (tuple row.now)) }
{
    let mut columns = columns;
    let mut cells = row.cells.as_slice();
    while let Some((column, further)) = columns.split_first() {
        let Some((cell, others)) = cells.split_first() else {
            return false;
        };
        if column.not_null && is_null(cell) {
            return true;
        }
        columns = further;
        cells = others;
    }
    false
}
