//! Scans as they are written: the wanted columns, the restrictions that are offered, the parameters, and those of a second round.
use crate::asked::Asked;
use fdw_api::scan::{Operand, Restriction, Test};
use med_value::{Comparison, Value};
use std::alloc::Global;
use std::test::Fail;

/// A value: `null`, `t`, `f`, a number, or else a text.
fn value(alloc: Global, word: &str) -> Result<Value, Fail> {
    match word {
        "null" => Ok(Value::Null),
        "t" => Ok(Value::Bool(true)),
        "f" => Ok(Value::Bool(false)),
        _ => match word.parse::<i64>() {
            Ok(number) => Ok(Value::Int(number)),
            Err(_) => Ok(Value::Text(word.to_string(alloc)?)),
        },
    }
}

fn values(alloc: Global, words: &str) -> Result<Vec<Value>, Fail> {
    let mut values = Vec::new(alloc);
    for word in words.split_whitespace() {
        values.push(value(alloc, word)?)?;
    }
    Ok(values)
}

fn comparison(word: &str) -> Result<Comparison, Fail> {
    match word {
        "=" => Ok(Comparison::Equal),
        "<>" => Ok(Comparison::Apart),
        "<" => Ok(Comparison::Below),
        "<=" => Ok(Comparison::AtMost),
        ">" => Ok(Comparison::Above),
        ">=" => Ok(Comparison::AtLeast),
        _ => Err("no such comparison".into()),
    }
}

/// What a column is compared with: `?` is the first parameter.
fn operand(alloc: Global, word: &str) -> Result<Operand, Fail> {
    match word {
        "?" => Ok(Operand::Parameter(0)),
        _ => Ok(Operand::Constant(value(alloc, word)?)),
    }
}

/// A restriction: `COLUMN COMPARISON OPERAND`, `COLUMN missing` or `COLUMN present`.
fn restriction(alloc: Global, text: &str) -> Result<Restriction, Fail> {
    let words: Vec<&str> = text.split_whitespace().collect(alloc)?;
    match words.as_slice() {
        [column, "missing"] => Ok(Restriction {
            column: column.parse::<usize>()?,
            test: Test::IsNull,
        }),
        [column, "present"] => Ok(Restriction {
            column: column.parse::<usize>()?,
            test: Test::IsNotNull,
        }),
        [column, sign, other] => Ok(Restriction {
            column: column.parse::<usize>()?,
            test: Test::Compare(comparison(sign)?, operand(alloc, other)?),
        }),
        _ => Err("no restriction".into()),
    }
}

fn restrictions(alloc: Global, text: &str) -> Result<Vec<Restriction>, Fail> {
    let mut restrictions = Vec::new(alloc);
    for part in text.split(',') {
        restrictions.push(restriction(alloc, part)?)?;
    }
    Ok(restrictions)
}

fn columns(alloc: Global, words: &str) -> Result<Vec<usize>, Fail> {
    let mut columns = Vec::new(alloc);
    for word in words.split_whitespace() {
        columns.push(word.parse::<usize>()?)?;
    }
    Ok(columns)
}

/// The scan of a row's first four fields.
pub fn written_scan(
    alloc: Global,
    wanted: &str,
    offered: &str,
    params: &str,
    again: &str,
) -> Result<Asked, Fail> {
    Ok(Asked {
        wanted: columns(alloc, wanted)?,
        offered: restrictions(alloc, offered)?,
        params: values(alloc, params)?,
        again: values(alloc, again)?,
    })
}
