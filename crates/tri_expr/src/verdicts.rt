//! The verdict of a condition on a row.

ghost use Rattle.std.specs.Prelude.{◌≡◌, map, [], ◌∷◌};
ghost use Rattle.med_value.specs.Datum.{datum, tuple};
ghost use Rattle.tri_expr.specs.Outcome.{Is, over};
ghost use Rattle.tri_expr.specs.View.{seen};
ghost use Rattle.tri_expr.specs.Meaning.{means};
ghost use Rattle.tri_expr.specs.Tree.{tree};
ghost use Rattle.tri_expr.specs.Verdict.{AnswersVerdict, Judges, is_met, or_some};

use crate::evaluate::look;
use crate::expr::{EvalFault, Expr, Fault};
use crate::view::View;
use med_value::{Row, Value};
use std::slice;

fn is_true(v: View<'_>) -> bool
    ensures { result ≡ is_met (Is (seen v.entry)) }
{
    matches!(v, View::Bool(true))
}

// The fault told before, or else this one.
fn first_told(told: Option<Fault>, fault: Fault) -> Option<Fault>
    ensures { result ≡ or_some told fault }
{
    match told {
        None => Some(fault),
        Some(before) => Some(before),
    }
}

// The verdict of conjuncts over a class of rows, or a fault that may be told.
#[tactic(auto, using(crate::proofs::Judged::judged_step, crate::proofs::Judged::step_met, crate::proofs::Judged::step_fault, crate::proofs::Judged::verdict_false, crate::proofs::Judged::verdict_true, crate::proofs::Judged::verdict_told))]
fn judge(conjuncts: &[Expr], class: &[Row], params: &[Value]) -> Result<bool, Fault>
    ensures { Judges result (over (means (map datum params.now) (map tree conjuncts.now)) (map tuple class.now)) }
{
    let mut told: Option<Fault> = None;
    for conjunct in conjuncts {
        match look(conjunct, class, params) {
            Ok(v) => {
                if !is_true(v) {
                    return Ok(false);
                }
            }
            Err(fault) => told = first_told(told, fault),
        }
    }
    match told {
        Some(fault) => Err(fault),
        None => Ok(true),
    }
}

/// The verdict of conjuncts over a class of rows: what `verdict` is over one row.
pub fn verdict_class(conjuncts: &[Expr], class: &[Row], params: &[Value]) -> Result<bool, EvalFault>
    ensures { AnswersVerdict result (over (means (map datum params.now) (map tree conjuncts.now)) (map tuple class.now)) }
{
    match judge(conjuncts, class, params) {
        Ok(verdict) => Ok(verdict),
        Err(Fault::Range) => Err(EvalFault::OutOfRange),
        Err(Fault::Zero) => Err(EvalFault::ZeroDivisor),
    }
}

/// The verdict of the conjuncts of a condition on a row: `Ok(false)` where one of them is false or unknown, whatever
/// faults the others have; else `OutOfRange` or `ZeroDivisor` where one of them has that fault; else `Ok(true)`.
/// It asks for no memory.
pub fn verdict(conjuncts: &[Expr], row: &Row, params: &[Value]) -> Result<bool, EvalFault>
    ensures { AnswersVerdict result (over (means (map datum params.now) (map tree conjuncts.now)) (tuple row.now ∷ [])) }
{
    verdict_class(conjuncts, slice::from_ref(row), params)
}
