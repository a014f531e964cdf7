//! WHERE, and the arguments of aggregates, on one row.
ghost use Rattle.std.specs.Prelude.{◌≡◌, ◌∷◌, [], IfOk, if◌then◌else◌};
ghost use Rattle.med_value.specs.Datum.{tuple};
ghost use Rattle.med_query.specs.Query.{TellsFault, senses};
ghost use Rattle.query_answer.specs.Staging.{row_kept, where_told, arguments_told};

use med_value::Row;
use std::alloc::Global;
use tri_expr::law::safe_expression_has_value;
use tri_expr::{EvalFault, Expr, eval, is_risky, verdict};

/// Whether WHERE keeps a row.
pub(crate) fn is_kept(conditions: &[Expr], row: &Row) -> Result<bool, EvalFault>
    ensures kept { IfOk result (λ is. (if is then tuple row.now ∷ [] else []) ≡ row_kept (senses [] conditions.now) (tuple row.now)) }
    ensures no_fault { IfOk result (λ _. where_told (senses [] conditions.now) (tuple row.now) ≡ []) }
    ensures told { TellsFault result (where_told (senses [] conditions.now) (tuple row.now)) }
{
    verdict(conditions, row, &[])
}

// Whether an argument of an aggregate has a fault on the row. One that may not fault, as a column, is not evaluated.
fn check_argument(alloc: Global, argument: &Expr, row: &Row) -> Result<(), EvalFault>
    ensures no_fault { IfOk result (λ _. arguments_told (senses [] (argument.now ∷ [])) (tuple row.now) ≡ []) }
    ensures told { TellsFault result (arguments_told (senses [] (argument.now ∷ [])) (tuple row.now)) }
{
    safe_expression_has_value();
    if matches!(argument, Expr::Column(_)) || !is_risky(argument) {
        return Ok(());
    }
    match eval(alloc, argument, row, &[]) {
        Ok(_) => Ok(()),
        Err(fault) => Err(fault),
    }
}

/// Whether an argument of an aggregate has a fault on the row.
pub(crate) fn check_arguments(alloc: Global, arguments: &[Expr], row: &Row) -> Result<(), EvalFault>
    ensures no_fault { IfOk result (λ _. arguments_told (senses [] arguments.now) (tuple row.now) ≡ []) }
    ensures told { TellsFault result (arguments_told (senses [] arguments.now) (tuple row.now)) }
{
    for argument in arguments {
        match check_argument(alloc, argument, row) {
            Ok(()) => {}
            Err(fault) => return Err(fault),
        }
    }
    Ok(())
}
