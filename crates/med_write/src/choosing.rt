//! WHERE, row by row.
ghost use Rattle.std.specs.Prelude.{◌≡◌, ◌++◌, ◌∷◌, [], if◌then◌else◌, IfOk, map, filter, flat_map};
ghost use Rattle.med_query.specs.Query.{TellsFault, senses};
ghost use Rattle.fdw_api.specs.Calls.{row_of};
ghost use Rattle.med_write.specs.Making.{is_chosen, chosen_faults};

use fdw_api::SourceRow;
use std::alloc::Global;
use tri_expr::{EvalFault, Expr, verdict};

// Appends a row, where WHERE is true of it.
fn push_chosen(
    conditions: &[Expr],
    row: SourceRow,
    out: &mut Vec<SourceRow>,
) -> Result<(), EvalFault>
    ensures chosen { IfOk result (λ _. map row_of out.new.items
        ≡ map row_of out.old.items ++ filter (is_chosen (senses [] conditions.now)) (row_of row ∷ [])) }
    ensures no_fault { IfOk result (λ _. chosen_faults (senses [] conditions.now) (row_of row) ≡ []) }
    ensures told { TellsFault result (chosen_faults (senses [] conditions.now) (row_of row)) }
{
    match verdict(conditions, &row.cells, &[]) {
        Ok(true) => match out.push(row) {
            Ok(()) => Ok(()),
            Err(_) => Err(EvalFault::NoMemory),
        },
        Ok(false) => Ok(()),
        Err(fault) => Err(fault),
    }
}

/// The rows of which WHERE is true: one that is false or unknown is out.
pub(crate) fn chosen_rows(
    alloc: Global,
    conditions: &[Expr],
    rows: Vec<SourceRow>,
) -> Result<Vec<SourceRow>, EvalFault>
    ensures chosen { IfOk result (λ out. map row_of out.items ≡ filter (is_chosen (senses [] conditions.now)) (map row_of rows.items)) }
    ensures no_fault { IfOk result (λ _. flat_map (chosen_faults (senses [] conditions.now)) (map row_of rows.items) ≡ []) }
    ensures told { TellsFault result (flat_map (chosen_faults (senses [] conditions.now)) (map row_of rows.items)) }
{
    let mut out = Vec::new(alloc);
    for row in rows {
        match push_chosen(conditions, row, &mut out) {
            Ok(()) => {}
            Err(fault) => return Err(fault),
        }
    }
    Ok(out)
}
