//! The values of expressions over a class of rows.
ghost use Rattle.std.specs.Prelude.{◌≡◌, ◌∷◌, ◌++◌, [], IfOk, map};
ghost use Rattle.med_value.specs.Datum.{cell as spec_cell, datum, tuple};
ghost use Rattle.tri_expr.specs.Prelude.{meaning, Is, over, value_of, fault_list};
ghost use Rattle.med_query.specs.Query.{TellsFault, senses};

use crate::row_keys::cell_copy;
use med_value::{Row, Value};
use std::alloc::Global;
use tri_expr::{EvalFault, Expr, eval_class};

// The value of an expression over a class of rows with these parameters.
fn class_value(
    alloc: Global,
    part: &Expr,
    class: &[Row],
    params: &[Value],
) -> Result<Value, EvalFault>
    ensures value { IfOk result (λ v. meaning (map datum params.now) part.now (map tuple class.now) ≡ Is (datum v)) }
    ensures told { TellsFault result (fault_list (meaning (map datum params.now) part.now (map tuple class.now) ∷ [])) }
{
    match eval_class(alloc, part, class, params) {
        Ok(value) => Ok(value),
        Err(fault) => Err(fault),
    }
}

// A parameter; NULL past the end. Refused only for want of memory.
fn parameter_copy(alloc: Global, at: usize, params: &[Value]) -> Result<Value, EvalFault>
    ensures value { IfOk result (λ v. datum v ≡ spec_cell (map datum params.now) at) }
    ensures told { TellsFault result [] }
{
    match params.get(at) {
        Some(value) => match value.copy(alloc) {
            Ok(copied) => Ok(copied),
            Err(_) => Err(EvalFault::NoMemory),
        },
        None => Ok(Value::Null),
    }
}

// The same as `class_value`. A column of one row, and a parameter, are read where they stand.
fn value_over(
    alloc: Global,
    part: &Expr,
    class: &[Row],
    params: &[Value],
) -> Result<Value, EvalFault>
    ensures value { IfOk result (λ v. meaning (map datum params.now) part.now (map tuple class.now) ≡ Is (datum v)) }
    ensures told { TellsFault result (fault_list (meaning (map datum params.now) part.now (map tuple class.now) ∷ [])) }
{
    match (part, class.split_first()) {
        (Expr::Column(at), Some((row, rest))) if rest.is_empty() => {
            match cell_copy(alloc, *at, row) {
                Ok(value) => Ok(value),
                Err(_) => Err(EvalFault::NoMemory),
            }
        }
        (Expr::Parameter(at), _) => parameter_copy(alloc, *at, params),
        _ => class_value(alloc, part, class, params),
    }
}

/// Appends the values of expressions over a class of rows with these parameters, in their order; the first fault is told.
pub(crate) fn push_values(
    alloc: Global,
    parts: &[Expr],
    class: &[Row],
    params: &[Value],
    cells: &mut Vec<Value>,
) -> Result<(), EvalFault>
    ensures values { IfOk result (λ _. map datum cells.new.items ≡ map datum cells.old.items
        ++ map value_of (over (senses (map datum params.now) parts.now) (map tuple class.now))) }
    ensures no_fault { IfOk result (λ _. fault_list (over (senses (map datum params.now) parts.now) (map tuple class.now)) ≡ []) }
    ensures told { TellsFault result (fault_list (over (senses (map datum params.now) parts.now) (map tuple class.now))) }
{
    for part in parts {
        let v = match value_over(alloc, part, class, params) {
            Ok(v) => v,
            Err(fault) => return Err(fault),
        };
        push_value(v, cells)?;
    }
    Ok(())
}

// Appends a value. Refused only for want of memory.
fn push_value(v: Value, cells: &mut Vec<Value>) -> Result<(), EvalFault>
    ensures ok { IfOk result (λ _. cells.new.items ≡ cells.old.items ++ v ∷ []) }
    ensures told { TellsFault result [] }
{
    match cells.push(v) {
        Ok(()) => Ok(()),
        Err(_) => Err(EvalFault::NoMemory),
    }
}
