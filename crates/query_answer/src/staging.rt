//! What rows and groups are sorted by, and what they show.
ghost use Rattle.std.specs.Prelude.{◌≡◌, ◌∷◌, ◌++◌, [], IfOk, map, flat_map};
ghost use Rattle.med_value.specs.Datum.{datum, tuple};
ghost use Rattle.med_query.specs.Query.{TellsFault, senses, output_faults};
ghost use Rattle.query_answer.specs.Staging.{output_of, outputs_in, class_output};
ghost use Rattle.query_answer.specs.Staging.{class_staged, class_told, faults_by, outputs_by};

pub(crate) use crate::staged::Staged;
use crate::values::push_values;
use med_query::SelectCore;
use med_value::{Row, Value};
use std::alloc::Global;
use std::slice;
use tri_expr::{EvalFault, Expr, verdict_class};

// What a class is sorted by, and what it shows, with these parameters.
fn staged_output(
    alloc: Global,
    keys: &[Expr],
    items: &[Expr],
    class: &[Row],
    params: &[Value],
) -> Result<Staged, EvalFault>
    ensures output { IfOk result (λ s. output_of s
        ≡ class_output (senses (map datum params.now) keys.now) (senses (map datum params.now) items.now) (map tuple class.now)) }
    ensures no_fault { IfOk result (λ _. output_faults (senses (map datum params.now) keys.now)
        (senses (map datum params.now) items.now) (map tuple class.now) ≡ []) }
    ensures told { TellsFault result (output_faults (senses (map datum params.now) keys.now)
        (senses (map datum params.now) items.now) (map tuple class.now)) }
{
    let Ok(mut cells) = Vec::with_capacity(alloc, items.len() + keys.len()) else {
        return Err(EvalFault::NoMemory);
    };
    match push_values(alloc, items, class, params, &mut cells) {
        Ok(()) => {}
        Err(fault) => return Err(fault),
    }
    let width = cells.len();
    match push_values(alloc, keys, class, params, &mut cells) {
        Ok(()) => {}
        Err(bad) => return Err(bad),
    }
    Ok(Staged::new(cells, width))
}

/// What a class is sorted by and what it shows, where the conditions keep it, with these parameters.
pub(crate) fn staged_class(
    alloc: Global,
    conditions: &[Expr],
    keys: &[Expr],
    items: &[Expr],
    class: &[Row],
    params: &[Value],
) -> Result<Option<Staged>, EvalFault>
    ensures outputs { IfOk result (λ s. outputs_in s ≡ class_staged (senses (map datum params.now) conditions.now)
        (senses (map datum params.now) keys.now) (senses (map datum params.now) items.now) (map tuple class.now)) }
    ensures no_fault { IfOk result (λ _. class_told (senses (map datum params.now) conditions.now)
        (senses (map datum params.now) keys.now) (senses (map datum params.now) items.now) (map tuple class.now) ≡ []) }
    ensures told { TellsFault result (class_told (senses (map datum params.now) conditions.now)
        (senses (map datum params.now) keys.now) (senses (map datum params.now) items.now) (map tuple class.now)) }
{
    match verdict_class(conditions, class, params) {
        Ok(true) => {}
        Ok(false) => return Ok(None),
        Err(fault) => return Err(fault),
    }
    match staged_output(alloc, keys, items, class, params) {
        Ok(staged) => Ok(Some(staged)),
        Err(bad) => Err(bad),
    }
}

/// What a row of a core that does not group is sorted by and shows, where WHERE keeps it.
pub(crate) fn staged_row(
    alloc: Global,
    core: &SelectCore,
    row: &Row,
) -> Result<Option<Staged>, EvalFault>
    ensures outputs { IfOk result (λ s. outputs_in s ≡ outputs_by core.now (tuple row.now)) }
    ensures no_fault { IfOk result (λ _. faults_by core.now (tuple row.now) ≡ []) }
    ensures told { TellsFault result (faults_by core.now (tuple row.now)) }
{
    let conditions = core.conditions.as_slice();
    let keys = core.keys.as_slice();
    let items = core.items.as_slice();
    staged_class(alloc, conditions, keys, items, slice::from_ref(row), &[])
}

/// Appends what is staged, if anything is. Refused only for want of memory.
pub(crate) fn push_staged(staged: Option<Staged>, out: &mut Vec<Staged>) -> Result<(), EvalFault>
    ensures ok { IfOk result (λ _. map output_of out.new.items ≡ map output_of out.old.items ++ outputs_in staged) }
    ensures told { TellsFault result [] }
{
    match staged {
        None => Ok(()),
        Some(one) => match out.push(one) {
            Ok(()) => Ok(()),
            Err(_) => Err(EvalFault::NoMemory),
        },
    }
}
