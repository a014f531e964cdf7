//! Scans that are asked for twice, over the keys of orders.
use fdw_api::scan::{Operand, Restriction, Test};
use med_value::{Comparison, NoMemory, Value};
use std::alloc::Global;

/// A scan that is asked for twice: the second time with other parameters. The source gives whole rows whatever columns are wanted.
#[derive(Drop)]
pub struct Asked {
    pub wanted: Vec<usize>,
    pub offered: Vec<Restriction>,
    pub params: Vec<Value>,
    pub again: Vec<Value>,
}

/// The keys that a comparison with this value keeps.
fn key(sign: Comparison, value: Value) -> Restriction {
    Restriction {
        column: 0,
        test: Test::Compare(sign, Operand::Constant(value)),
    }
}

/// A scan of the keys that one comparison with a number keeps.
pub fn compared(alloc: Global, sign: Comparison, number: i64) -> Result<Asked, NoMemory> {
    Ok(Asked {
        wanted: vec![in alloc; 0]?,
        offered: vec![in alloc; key(sign, Value::Int(number))]?,
        params: Vec::new(alloc),
        again: Vec::new(alloc),
    })
}

/// A scan of the keys from one number on, and below another.
pub fn between(alloc: Global, least: i64, above: i64) -> Result<Asked, NoMemory> {
    Ok(Asked {
        wanted: vec![in alloc; 0]?,
        offered: vec![in alloc;
            key(Comparison::AtLeast, Value::Int(least)),
            key(Comparison::Below, Value::Int(above)),
        ]?,
        params: Vec::new(alloc),
        again: Vec::new(alloc),
    })
}

/// A scan of the key that is its parameter: NULL, and then a number.
pub fn null_and_then(alloc: Global, number: i64) -> Result<Asked, NoMemory> {
    Ok(Asked {
        wanted: vec![in alloc; 0]?,
        offered: vec![in alloc;
            Restriction {
                column: 0,
                test: Test::Compare(Comparison::Equal, Operand::Parameter(0)),
            },
        ]?,
        params: vec![in alloc; Value::Null]?,
        again: vec![in alloc; Value::Int(number)]?,
    })
}

/// A scan of the column n that is its parameter: a number, and then another.
pub fn n_is(alloc: Global, first: i64, then: i64) -> Result<Asked, NoMemory> {
    Ok(Asked {
        wanted: vec![in alloc; 0]?,
        offered: vec![in alloc;
            Restriction {
                column: 2,
                test: Test::Compare(Comparison::Equal, Operand::Parameter(0)),
            },
        ]?,
        params: vec![in alloc; Value::Int(first)]?,
        again: vec![in alloc; Value::Int(then)]?,
    })
}
