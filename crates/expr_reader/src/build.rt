//! Expressions of their parts.

ghost use Rattle.std.specs.Prelude.{◌≡◌, IfOk, Some, None};
ghost use Rattle.med_syntax.specs.ExprTree as spec;
ghost use Rattle.med_syntax.specs.ExprView.{expr_tree, expr_trees};

use med_syntax::{Expr, Joint};
use med_value::{Comparison, Operation, Status};
use std::alloc::{AllocError, Global};

/// A whole number.
pub fn number(n: u64) -> Expr
    ensures { expr_tree result ≡ spec.num n }
{
    Expr::Number(n)
}

/// A whole number behind a minus.
pub fn negative_number(n: u64) -> Expr
    ensures { expr_tree result ≡ spec.negative n }
{
    Expr::Negative(n)
}

/// A text.
pub fn text(alloc: Global, text: &str) -> Result<Expr, AllocError>
    ensures { IfOk result (λ x. expr_tree x ≡ spec.text text.now) }
{
    Ok(Expr::Text(String::from_str(alloc, text)?))
}

/// TRUE or FALSE.
pub fn truth(value: bool) -> Expr
    ensures { expr_tree result ≡ spec.truth value }
{
    Expr::Truth(value)
}

/// NULL.
pub fn null() -> Expr
    ensures { expr_tree result ≡ spec.null }
{
    Expr::Null
}

/// A column without a qualifier.
pub fn column(alloc: Global, name: &str) -> Result<Expr, AllocError>
    ensures { IfOk result (λ x. expr_tree x ≡ spec.column None name.now) }
{
    Ok(Expr::Column(None, String::from_str(alloc, name)?))
}

/// A column behind its qualifier.
pub fn column_of(alloc: Global, qualifier: &str, name: &str) -> Result<Expr, AllocError>
    ensures { IfOk result (λ x. expr_tree x ≡ spec.column (Some qualifier.now) name.now) }
{
    let qualifier = String::from_str(alloc, qualifier)?;
    Ok(Expr::Column(Some(qualifier), String::from_str(alloc, name)?))
}

/// The call of a function with `*`.
pub fn call_all(alloc: Global, function: &str) -> Result<Expr, AllocError>
    ensures { IfOk result (λ x. expr_tree x ≡ spec.call_all function.now) }
{
    Ok(Expr::CallAll(String::from_str(alloc, function)?))
}

/// The call of a function with no parts.
pub fn call_of_nothing(alloc: Global, function: &str) -> Result<Expr, AllocError>
    ensures { IfOk result (λ x. expr_tree x ≡ spec.call function.now spec.none) }
{
    Ok(Expr::Call(String::from_str(alloc, function)?, Vec::new(alloc)))
}

/// The call of a function with these parts.
pub fn call_of(
    alloc: Global,
    function: &str,
    first: Box<Expr>,
    others: Vec<Expr>,
) -> Result<Expr, AllocError>
    ensures { IfOk result
        (λ x. expr_tree x ≡ spec.call function.now (spec.more (expr_tree first.value) (expr_trees others.items))) }
{
    let mut parts = others;
    parts.insert(0, Box::into_inner(first))?;
    Ok(Expr::Call(String::from_str(alloc, function)?, parts))
}

/// The expression in parentheses.
pub fn in_parens(e: Box<Expr>) -> Expr
    ensures { expr_tree result ≡ spec.paren (expr_tree e.value) }
{
    Expr::Paren(e)
}

/// The expression behind a minus.
pub fn negated(alloc: Global, e: Expr) -> Result<Expr, AllocError>
    ensures { IfOk result (λ x. expr_tree x ≡ spec.minus (expr_tree e)) }
{
    Ok(Expr::Minus(Box::new(alloc, e)?))
}

/// The operation on the two.
pub fn operation(alloc: Global, op: Operation, a: Box<Expr>, b: Expr) -> Result<Expr, AllocError>
    ensures { IfOk result (λ x. expr_tree x ≡ spec.binary op (expr_tree a.value) (expr_tree b)) }
{
    Ok(Expr::Binary(op, a, Box::new(alloc, b)?))
}

/// The expression, perhaps NOT, BETWEEN the other two.
pub fn between(negated: bool, e: Box<Expr>, low: Box<Expr>, high: Box<Expr>) -> Expr
    ensures { expr_tree result ≡ spec.between negated (expr_tree e.value) (expr_tree low.value) (expr_tree high.value) }
{
    Expr::Between(negated, e, low, high)
}

/// The expression, perhaps NOT, IN the list of the others.
pub fn membership(negated: bool, e: Box<Expr>, first: Box<Expr>, others: Vec<Expr>) -> Expr
    ensures { expr_tree result ≡ spec.among negated (expr_tree e.value) (expr_tree first.value) (expr_trees others.items) }
{
    Expr::In(negated, e, first, others)
}

/// The expression, perhaps NOT, LIKE the pattern.
pub fn likeness(
    alloc: Global,
    negated: bool,
    e: Box<Expr>,
    pattern: &str,
) -> Result<Expr, AllocError>
    ensures { IfOk result (λ x. expr_tree x ≡ spec.like negated (expr_tree e.value) pattern.now) }
{
    Ok(Expr::Like(negated, e, String::from_str(alloc, pattern)?))
}

/// The comparison of the two.
pub fn comparison(alloc: Global, op: Comparison, a: Box<Expr>, b: Expr) -> Result<Expr, AllocError>
    ensures { IfOk result (λ x. expr_tree x ≡ spec.compare op (expr_tree a.value) (expr_tree b)) }
{
    Ok(Expr::Compare(op, a, Box::new(alloc, b)?))
}

/// The expression IS, perhaps NOT, of the status.
pub fn test(negated: bool, e: Box<Expr>, status: Status) -> Expr
    ensures { expr_tree result ≡ spec.tested negated (expr_tree e.value) status }
{
    Expr::Is(negated, e, status)
}

/// NOT of the expression.
pub fn inverted(alloc: Global, e: Expr) -> Result<Expr, AllocError>
    ensures { IfOk result (λ x. expr_tree x ≡ spec.negation (expr_tree e)) }
{
    Ok(Expr::Not(Box::new(alloc, e)?))
}

/// The expressions with the joint between each two.
pub fn chained(
    alloc: Global,
    joint: Joint,
    first: Expr,
    others: Vec<Expr>,
) -> Result<Expr, AllocError>
    ensures { IfOk result (λ x. expr_tree x ≡ spec.chain joint (expr_tree first) (expr_trees others.items)) }
{
    Ok(Expr::Chain(joint, Box::new(alloc, first)?, others))
}
