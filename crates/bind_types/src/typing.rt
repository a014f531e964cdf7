//! The types of expressions.
#![tactic(auto, using(bind_names::proofs::Causes::tells_left, bind_names::proofs::Causes::tells_right, bind_names::proofs::Causes::tells_memory, bind_names::proofs::Causes::tells_one, bind_names::proofs::Causes::none_of_two))]

ghost use Rattle.bind_names.specs.Prelude.{function_named, scope_of, Means, Passes, FindsKind};
ghost use Rattle.bind_types.specs.Kinds.{Meets};
ghost use Rattle.bind_types.specs.Typing as spec;
ghost use Rattle.med_syntax.specs.ExprView.{expr_tree, expr_trees};
ghost use Rattle.std.specs.Prelude.{◌≡◌, ◌++◌, ◌∷◌, [], string_bytes};

use bind_names::{Visible, column_kind, function_named};
use med_syntax::Expr as Written;
use med_value::{Cause, ColType, Status};
use tri_expr::SetFunction;

/// Whether an operand of this type can stand where that one is asked.
pub fn takes(asked: ColType, kind: Option<ColType>) -> bool
    ensures { result ≡ spec.takes asked kind }
{
    match (asked, kind) {
        (_, None) => true,
        (ColType::Int, Some(ColType::Int)) => true,
        (ColType::Text, Some(ColType::Text)) => true,
        (ColType::Bool, Some(ColType::Bool)) => true,
        (_, Some(_)) => false,
    }
}

// Refuses by the cause, unless the operand can stand where the type is asked.
fn ask(asked: ColType, kind: Option<ColType>, cause: Cause) -> Result<(), Cause>
    ensures { Passes (spec.unless (spec.takes asked kind) cause) result }
{
    if takes(asked, kind) {
        Ok(())
    } else {
        Err(cause)
    }
}

// The type that both operands can have.
#[tactic(auto, using(crate::proofs::Types::meets_same, crate::proofs::Types::meets_apart))]
fn common(a: Option<ColType>, b: Option<ColType>) -> Result<Option<ColType>, Cause>
    ensures { Meets a b result }
{
    match (a, b) {
        (None, _) => Ok(b),
        (_, None) => Ok(a),
        (Some(asked), Some(_)) => {
            if takes(asked, b) {
                Ok(a)
            } else {
                Err(Cause::UndefinedFunction)
            }
        }
    }
}

// Refuses two operands of two types.
fn check_two(a: Option<ColType>, b: Option<ColType>) -> Result<(), Cause>
    ensures { Passes (spec.comparing (a ∷ b ∷ [])) result }
{
    match common(a, b) {
        Ok(_) => Ok(()),
        Err(cause) => Err(cause),
    }
}

// Refuses three operands of more than one type.
fn check_three(a: Option<ColType>, b: Option<ColType>, c: Option<ColType>) -> Result<(), Cause>
    ensures { Passes (spec.comparing (a ∷ b ∷ c ∷ [])) result }
{
    match common(a, b) {
        Ok(both) => check_two(both, c),
        Err(cause) => Err(cause),
    }
}

// Refuses a pattern of LIKE that ends in a lone backslash.
fn check_pattern(pattern: &str) -> Result<(), Cause>
    ensures { Passes (spec.as_pattern pattern.now) result }
{
    let mut escapes = false;
    for byte in pattern.as_bytes() {
        escapes = *byte == b'\\' && !escapes;
    }
    if escapes {
        Err(Cause::InvalidEscape)
    } else {
        Ok(())
    }
}

// The type of `name(*)`.
fn all_rows_kind(function: Option<SetFunction>) -> Option<ColType>
    ensures { result ≡ spec.all_rows_type function }
{
    match function {
        Some(SetFunction::Count) => Some(ColType::Int),
        _ => None,
    }
}

// The type of a call of one argument.
fn call_kind(function: Option<SetFunction>, argument: Option<ColType>) -> Option<ColType>
    ensures { result ≡ spec.call_type function (argument ∷ []) }
{
    match function {
        None => None,
        Some(SetFunction::Count) | Some(SetFunction::Sum) => Some(ColType::Int),
        Some(SetFunction::Min) | Some(SetFunction::Max) => match argument {
            Some(kind) => Some(kind),
            None => Some(ColType::Text),
        },
    }
}

// Refuses `name(*)`, unless it is `count(*)`.
fn check_call_all(function: Option<SetFunction>) -> Result<(), Cause>
    ensures { Passes (spec.as_call_all function) result }
{
    match function {
        Some(SetFunction::Count) => Ok(()),
        _ => Err(Cause::UndefinedFunction),
    }
}

// Refuses an argument that has no least and no greatest value.
fn check_ordered(kind: Option<ColType>) -> Result<(), Cause>
    ensures { Passes (spec.as_ordered kind) result }
{
    if takes(ColType::Int, kind) || takes(ColType::Text, kind) {
        Ok(())
    } else {
        Err(Cause::UndefinedFunction)
    }
}

// Refuses a call of one argument of this type, unless there is such a function.
fn check_call(function: Option<SetFunction>, argument: Option<ColType>) -> Result<(), Cause>
    ensures { Passes (spec.as_call function (argument ∷ [])) result }
{
    match function {
        None => Err(Cause::UndefinedFunction),
        Some(SetFunction::Count) => Ok(()),
        Some(SetFunction::Sum) => ask(ColType::Int, argument, Cause::UndefinedFunction),
        Some(SetFunction::Min) | Some(SetFunction::Max) => check_ordered(argument),
    }
}

// The type of a call; none where it is refused.
#[cycle(kind)]
#[tactic(auto, using(crate::proofs::Calls::several_untyped))]
fn called_kind(
    scope: &[Visible<'_>],
    name: &String,
    arguments: &[Written],
) -> Result<Option<ColType>, Cause>
    ensures { FindsKind (scope_of scope.now) (spec.call_type (function_named (string_bytes name.now))
        (spec.types_of (scope_of scope.now) (expr_trees arguments.now))) result }
{
    match arguments {
        [argument] => {
            let argument = kind(scope, argument)?;
            Ok(call_kind(function_named(name.as_str()), argument))
        }
        _ => Ok(None),
    }
}

// The type of an expression; none for NULL, which takes any. Refused only with 53200, where more columns are in view than there are places.
#[cycle(kind)]
fn kind(scope: &[Visible<'_>], e: &Written) -> Result<Option<ColType>, Cause>
    ensures { FindsKind (scope_of scope.now) (spec.type_of (scope_of scope.now) (expr_tree e.now)) result }
{
    match e {
        Written::Number(_) | Written::Negative(_) => Ok(Some(ColType::Int)),
        Written::Minus(_) | Written::Binary(_, _, _) => Ok(Some(ColType::Int)),
        Written::Text(_) => Ok(Some(ColType::Text)),
        Written::Null => Ok(None),
        Written::Column(qualifier, name) => column_kind(scope, qualifier, name),
        Written::CallAll(name) => Ok(all_rows_kind(function_named(name.as_str()))),
        Written::Call(name, arguments) => called_kind(scope, name, arguments),
        Written::Paren(e) => kind(scope, e),
        Written::Truth(_) | Written::Not(_) | Written::Chain(_, _, _) => Ok(Some(ColType::Bool)),
        Written::Between(_, _, _, _) | Written::In(_, _, _, _) => Ok(Some(ColType::Bool)),
        Written::Like(_, _, _) | Written::Compare(_, _, _) => Ok(Some(ColType::Bool)),
        Written::Is(_, _, _) => Ok(Some(ColType::Bool)),
    }
}

/// Refuses an operand by the cause, unless it can stand where the type is asked.
#[cycle(check)]
pub fn operand(
    scope: &[Visible<'_>],
    e: &Written,
    asked: ColType,
    cause: Cause,
) -> Result<(), Cause>
    ensures { Passes (spec.type_causes (scope_of scope.now) (expr_tree e.now)
        ++ spec.unless (spec.takes asked (spec.type_of (scope_of scope.now) (expr_tree e.now))) cause) result }
{
    let kind = type_of(scope, e)?;
    ask(asked, kind, cause)
}

// Refuses operands of arithmetic that are no whole numbers.
#[cycle(check)]
fn computed(scope: &[Visible<'_>], a: &Written, b: &Written) -> Result<(), Cause>
    ensures { Passes ((spec.type_causes (scope_of scope.now) (expr_tree a.now)
        ++ spec.as_number (spec.type_of (scope_of scope.now) (expr_tree a.now)))
        ++ (spec.type_causes (scope_of scope.now) (expr_tree b.now)
        ++ spec.as_number (spec.type_of (scope_of scope.now) (expr_tree b.now)))) result }
{
    operand(scope, a, ColType::Int, Cause::UndefinedFunction)?;
    operand(scope, b, ColType::Int, Cause::UndefinedFunction)
}

// Refuses operands of a comparison that have two types.
#[cycle(check)]
fn compared(scope: &[Visible<'_>], a: &Written, b: &Written) -> Result<(), Cause>
    ensures { Passes ((spec.type_causes (scope_of scope.now) (expr_tree a.now) ++ spec.type_causes (scope_of scope.now) (expr_tree b.now))
        ++ spec.comparing (spec.type_of (scope_of scope.now) (expr_tree a.now)
        ∷ spec.type_of (scope_of scope.now) (expr_tree b.now) ∷ [])) result }
{
    let a = type_of(scope, a)?;
    let b = type_of(scope, b)?;
    check_two(a, b)
}

// Refuses operands of BETWEEN that have more than one type.
#[cycle(check)]
fn bounded(scope: &[Visible<'_>], e: &Written, low: &Written, high: &Written) -> Result<(), Cause>
    ensures { Passes ((spec.type_causes (scope_of scope.now) (expr_tree e.now)
        ++ (spec.type_causes (scope_of scope.now) (expr_tree low.now) ++ spec.type_causes (scope_of scope.now) (expr_tree high.now)))
        ++ spec.comparing (spec.type_of (scope_of scope.now) (expr_tree e.now) ∷ spec.type_of (scope_of scope.now) (expr_tree low.now)
        ∷ spec.type_of (scope_of scope.now) (expr_tree high.now) ∷ [])) result }
{
    let e = type_of(scope, e)?;
    let low = type_of(scope, low)?;
    let high = type_of(scope, high)?;
    check_three(e, low, high)
}

// Refuses expressions that are compared with one of this type.
#[cycle(check)]
fn listed(scope: &[Visible<'_>], kind: Option<ColType>, others: &[Written]) -> Result<(), Cause>
    ensures { Passes (spec.type_causes_of_all (scope_of scope.now) (expr_trees others.now)
        ++ spec.comparing (kind ∷ spec.types_of (scope_of scope.now) (expr_trees others.now))) result }
{
    let mut all = kind;
    for other in others {
        let one = type_of(scope, other)?;
        all = common(all, one)?;
    }
    Ok(())
}

// Refuses operands of IN that have more than one type.
#[cycle(check)]
fn contained(
    scope: &[Visible<'_>],
    e: &Written,
    first: &Written,
    others: &[Written],
) -> Result<(), Cause>
    ensures { Passes ((spec.type_causes (scope_of scope.now) (expr_tree e.now)
        ++ (spec.type_causes (scope_of scope.now) (expr_tree first.now)
        ++ spec.type_causes_of_all (scope_of scope.now) (expr_trees others.now)))
        ++ spec.comparing (spec.type_of (scope_of scope.now) (expr_tree e.now) ∷ spec.type_of (scope_of scope.now) (expr_tree first.now)
        ∷ spec.types_of (scope_of scope.now) (expr_trees others.now))) result }
{
    let e = type_of(scope, e)?;
    let first = type_of(scope, first)?;
    let both = common(e, first)?;
    listed(scope, both, others)
}

// Refuses an operand of LIKE that is no text, and a pattern that ends in a lone backslash.
#[cycle(check)]
fn liked(scope: &[Visible<'_>], e: &Written, pattern: &String) -> Result<(), Cause>
    ensures { Passes ((spec.type_causes (scope_of scope.now) (expr_tree e.now)
        ++ spec.as_text (spec.type_of (scope_of scope.now) (expr_tree e.now))) ++ spec.as_pattern (string_bytes pattern.now)) result }
{
    operand(scope, e, ColType::Text, Cause::UndefinedFunction)?;
    check_pattern(pattern.as_str())
}

// Refuses an operand of IS TRUE, FALSE or UNKNOWN that is no condition.
#[cycle(check)]
fn tested(scope: &[Visible<'_>], e: &Written, status: Status) -> Result<(), Cause>
    ensures { Passes (spec.type_causes (scope_of scope.now) (expr_tree e.now)
        ++ spec.as_tested status (spec.type_of (scope_of scope.now) (expr_tree e.now))) result }
{
    match status {
        Status::Null => {
            type_of(scope, e)?;
            Ok(())
        }
        Status::True | Status::False | Status::Unknown => {
            operand(scope, e, ColType::Bool, Cause::DatatypeMismatch)
        }
    }
}

// Refuses expressions that are no conditions.
#[cycle(check)]
fn conditions(scope: &[Visible<'_>], others: &[Written]) -> Result<(), Cause>
    ensures { Passes (spec.condition_causes (scope_of scope.now) (expr_trees others.now)) result }
{
    for other in others {
        operand(scope, other, ColType::Bool, Cause::DatatypeMismatch)?;
    }
    Ok(())
}

// Refuses operands of AND or OR that are no conditions.
#[cycle(check)]
fn chained(scope: &[Visible<'_>], first: &Written, others: &[Written]) -> Result<(), Cause>
    ensures { Passes ((spec.type_causes (scope_of scope.now) (expr_tree first.now)
        ++ spec.as_condition (spec.type_of (scope_of scope.now) (expr_tree first.now)))
        ++ spec.condition_causes (scope_of scope.now) (expr_trees others.now)) result }
{
    operand(scope, first, ColType::Bool, Cause::DatatypeMismatch)?;
    conditions(scope, others)
}

// Refuses a call, unless it is one of a function of one argument.
#[cycle(check)]
fn called(scope: &[Visible<'_>], name: &String, arguments: &[Written]) -> Result<(), Cause>
    ensures { Passes (spec.type_causes_of_all (scope_of scope.now) (expr_trees arguments.now)
        ++ spec.as_call (function_named (string_bytes name.now)) (spec.types_of (scope_of scope.now) (expr_trees arguments.now))) result }
{
    match arguments {
        [argument] => called_with(scope, name, argument),
        _ => Err(Cause::UndefinedFunction),
    }
}

// Refuses a call of one argument.
#[cycle(check)]
fn called_with(scope: &[Visible<'_>], name: &String, argument: &Written) -> Result<(), Cause>
    ensures { Passes ((spec.type_causes (scope_of scope.now) (expr_tree argument.now) ++ [])
        ++ spec.as_call (function_named (string_bytes name.now)) (spec.type_of (scope_of scope.now) (expr_tree argument.now) ∷ [])) result }
{
    let argument = type_of(scope, argument)?;
    check_call(function_named(name.as_str()), argument)
}

// Refuses what stands at the parts of an expression.
#[cycle(check)]
fn check(scope: &[Visible<'_>], e: &Written) -> Result<(), Cause>
    ensures { Passes (spec.type_causes (scope_of scope.now) (expr_tree e.now)) result }
{
    match e {
        Written::Number(_) | Written::Negative(_) | Written::Text(_) => Ok(()),
        Written::Truth(_) | Written::Null | Written::Column(_, _) => Ok(()),
        Written::CallAll(name) => check_call_all(function_named(name.as_str())),
        Written::Call(name, arguments) => called(scope, name, arguments),
        Written::Paren(e) => check(scope, e),
        Written::Minus(e) => operand(scope, e, ColType::Int, Cause::UndefinedFunction),
        Written::Binary(_, a, b) => computed(scope, a, b),
        Written::Between(_, e, low, high) => bounded(scope, e, low, high),
        Written::In(_, e, first, others) => contained(scope, e, first, others),
        Written::Like(_, e, pattern) => liked(scope, e, pattern),
        Written::Compare(_, a, b) => compared(scope, a, b),
        Written::Is(_, e, status) => tested(scope, e, *status),
        Written::Not(e) => operand(scope, e, ColType::Bool, Cause::DatatypeMismatch),
        Written::Chain(_, first, others) => chained(scope, first, others),
    }
}

/// The type of an expression, or why a part of it is refused.
#[cycle(check)]
pub fn type_of(scope: &[Visible<'_>], e: &Written) -> Result<Option<ColType>, Cause>
    ensures { Means (λ t. t) (spec.type_causes (scope_of scope.now) (expr_tree e.now))
        (spec.type_of (scope_of scope.now) (expr_tree e.now)) result }
{
    check(scope, e)?;
    Ok(kind(scope, e)?)
}
