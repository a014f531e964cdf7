//! Expressions from their steps, and the rows that they are over.
use med_value::{Comparison, Operation, Row, Status, Value};
use std::alloc::Global;
use std::test::Fail;
use tri_expr::{Expr, SetFunction};

fn text(alloc: Global, s: &str) -> Result<Value, Fail> {
    Ok(Value::Text(s.to_string(alloc)?))
}

/// The rows (1, 'bolt', 10, true), (2, 'nut', NULL, true) and (3, NULL, 0, false): columns id, name, qty and live.
pub fn part(alloc: Global, id: &str) -> Result<Row, Fail> {
    let cells = match id {
        "1" => vec![in alloc;
            Value::Int(1),
            text(alloc, "bolt")?,
            Value::Int(10),
            Value::Bool(true),
        ]?,
        "2" => vec![in alloc;
            Value::Int(2),
            text(alloc, "nut")?,
            Value::Null,
            Value::Bool(true),
        ]?,
        _ => vec![in alloc;
            Value::Int(3),
            Value::Null,
            Value::Int(0),
            Value::Bool(false),
        ]?,
    };
    Ok(Row { cells })
}

/// The rows of these numbers.
pub fn class(alloc: Global, ids: &str) -> Result<Vec<Row>, Fail> {
    let mut rows = Vec::new(alloc);
    for id in ids.split_whitespace() {
        rows.push(part(alloc, id)?)?;
    }
    Ok(rows)
}

/// The parameters 5, NULL and 'wing'.
pub fn parameters(alloc: Global) -> Result<Vec<Value>, Fail> {
    Ok(vec![in alloc; Value::Int(5), Value::Null, text(alloc, "wing")?]?)
}

fn comparison(step: &str) -> Option<Comparison> {
    match step {
        "=" => Some(Comparison::Equal),
        "<>" => Some(Comparison::Apart),
        "<" => Some(Comparison::Below),
        "<=" => Some(Comparison::AtMost),
        ">" => Some(Comparison::Above),
        ">=" => Some(Comparison::AtLeast),
        _ => None,
    }
}

fn operation(step: &str) -> Option<Operation> {
    match step {
        "+" => Some(Operation::Add),
        "-" => Some(Operation::Subtract),
        "*" => Some(Operation::Multiply),
        "/" => Some(Operation::Divide),
        "%" => Some(Operation::Remainder),
        _ => None,
    }
}

fn set_function(step: &str) -> Option<SetFunction> {
    match step {
        "count" => Some(SetFunction::Count),
        "sum" => Some(SetFunction::Sum),
        "min" => Some(SetFunction::Min),
        "max" => Some(SetFunction::Max),
        _ => None,
    }
}

fn test(step: &str) -> Option<(Status, bool)> {
    match step {
        "is:null" => Some((Status::Null, false)),
        "is:not_null" => Some((Status::Null, true)),
        "is:true" => Some((Status::True, false)),
        "is:not_true" => Some((Status::True, true)),
        "is:false" => Some((Status::False, false)),
        "is:not_false" => Some((Status::False, true)),
        "is:unknown" => Some((Status::Unknown, false)),
        "is:not_unknown" => Some((Status::Unknown, true)),
        _ => None,
    }
}

fn leaf(alloc: Global, step: &str) -> Result<Expr, Fail> {
    Ok(match step {
        "id" => Expr::Column(0),
        "name" => Expr::Column(1),
        "qty" => Expr::Column(2),
        "live" => Expr::Column(3),
        "$1" => Expr::Parameter(0),
        "$2" => Expr::Parameter(1),
        "$3" => Expr::Parameter(2),
        "$4" => Expr::Parameter(3),
        "NULL" => Expr::Literal(Value::Null),
        "TRUE" => Expr::Literal(Value::Bool(true)),
        "FALSE" => Expr::Literal(Value::Bool(false)),
        "count(*)" => Expr::CountRows,
        _ => match step.strip_prefix('\'') {
            Some(rest) => Expr::Literal(text(alloc, rest.strip_suffix('\'').ok_or("no quote")?)?),
            None => Expr::Literal(Value::Int(step.parse()?)),
        },
    })
}

// The top of the stack.
fn top(stack: &mut Vec<Expr>) -> Result<Expr, Fail> {
    Ok(stack.pop().ok_or("too few parts")?)
}

// The top of the stack on the heap.
fn popped(alloc: Global, stack: &mut Vec<Expr>) -> Result<Box<Expr>, Fail> {
    Ok(Box::new(alloc, top(stack)?)?)
}

fn popped_parts(alloc: Global, count: &str, stack: &mut Vec<Expr>) -> Result<Vec<Expr>, Fail> {
    let count: u8 = count.parse()?;
    let mut parts = Vec::new(alloc);
    for _ in 0..count {
        parts.push(top(stack)?)?;
    }
    parts.reverse();
    Ok(parts)
}

fn between(alloc: Global, negative: bool, stack: &mut Vec<Expr>) -> Result<Expr, Fail> {
    let high = popped(alloc, stack)?;
    let low = popped(alloc, stack)?;
    let x = popped(alloc, stack)?;
    Ok(Expr::Between(negative, x, low, high))
}

fn within(alloc: Global, negative: bool, count: &str, stack: &mut Vec<Expr>) -> Result<Expr, Fail> {
    let parts = popped_parts(alloc, count, stack)?;
    let x = popped(alloc, stack)?;
    Ok(Expr::In(negative, x, parts))
}

fn like(alloc: Global, negative: bool, pattern: &str, stack: &mut Vec<Expr>) -> Result<Expr, Fail> {
    let pattern = pattern.to_string(alloc)?;
    let x = popped(alloc, stack)?;
    Ok(Expr::Like(negative, x, pattern))
}

fn long_form(alloc: Global, step: &str, stack: &mut Vec<Expr>) -> Result<Expr, Fail> {
    if let Some(count) = step.strip_prefix("and:") {
        return Ok(Expr::And(popped_parts(alloc, count, stack)?));
    }
    if let Some(count) = step.strip_prefix("or:") {
        return Ok(Expr::Or(popped_parts(alloc, count, stack)?));
    }
    if let Some(count) = step.strip_prefix("in:") {
        return within(alloc, false, count, stack);
    }
    if let Some(count) = step.strip_prefix("not_in:") {
        return within(alloc, true, count, stack);
    }
    if let Some(pattern) = step.strip_prefix("like:") {
        return like(alloc, false, pattern, stack);
    }
    if let Some(pattern) = step.strip_prefix("not_like:") {
        return like(alloc, true, pattern, stack);
    }
    leaf(alloc, step)
}

fn operator(alloc: Global, step: &str, stack: &mut Vec<Expr>) -> Result<Expr, Fail> {
    if let Some(op) = comparison(step) {
        let right = popped(alloc, stack)?;
        let left = popped(alloc, stack)?;
        return Ok(Expr::Compare(op, left, right));
    }
    if let Some(op) = operation(step) {
        let right = popped(alloc, stack)?;
        let left = popped(alloc, stack)?;
        return Ok(Expr::Compute(op, left, right));
    }
    if let Some(function) = set_function(step) {
        return Ok(Expr::Aggregate(function, popped(alloc, stack)?));
    }
    if let Some((test, negative)) = test(step) {
        return Ok(Expr::Is(test, negative, popped(alloc, stack)?));
    }
    match step {
        "negate" => Ok(Expr::Negate(popped(alloc, stack)?)),
        "not" => Ok(Expr::Not(popped(alloc, stack)?)),
        "()" => Ok(Expr::Parenthesised(popped(alloc, stack)?)),
        "between" => between(alloc, false, stack),
        "not_between" => between(alloc, true, stack),
        _ => long_form(alloc, step, stack),
    }
}

/// The expression that its steps make, operands before their operator.
pub fn build(alloc: Global, steps: &str) -> Result<Expr, Fail> {
    let mut stack = Vec::new(alloc);
    for step in steps.split_whitespace() {
        let e = operator(alloc, step, &mut stack)?;
        stack.push(e)?;
    }
    Ok(stack.pop().ok_or("no step")?)
}
