//! Whether the rows of a query fit the columns into which they are inserted. What is given by VALUES is in tests/streams/writes.
use bind_write::{places_for, written_columns};
use med_exec::fits;
use med_value::{ColType, ColumnDef, NoMemory, Row, Value};
use med_write::{BoundWrite, Given, RowWrite};
use std::alloc::Global;
use std::test::Fail;

// A row of a query, `z` being a text with the character U+0000, and whether it can be inserted into name and id.
const FITTING: &str = "\
ti|true
nn|true
t|true
it|false
bi|false
zi|false
";

fn kind(letter: char) -> Option<ColType> {
    match letter {
        'i' => Some(ColType::Int),
        't' => Some(ColType::Text),
        'b' => Some(ColType::Bool),
        _ => None,
    }
}

fn value(alloc: Global, letter: char) -> Result<Value, NoMemory> {
    match letter {
        'i' => Ok(Value::Int(1)),
        't' => Ok(Value::Text("x".to_string(alloc)?)),
        'z' => Ok(Value::Text("\0".to_string(alloc)?)),
        'b' => Ok(Value::Bool(true)),
        _ => Ok(Value::Null),
    }
}

// The columns of parts.
fn columns(alloc: Global) -> Result<Vec<ColumnDef>, NoMemory> {
    let mut columns = Vec::new(alloc);
    for (name, letter) in "id name qty live".split(' ').zip("itib".chars()) {
        columns.push(ColumnDef {
            name: name.to_string(alloc)?,
            kind: kind(letter).unwrap_or(ColType::Int),
            not_null: false,
        })?;
    }
    Ok(columns)
}

// An INSERT of a query's rows into name and id.
fn insert(alloc: Global) -> Result<BoundWrite, NoMemory> {
    let columns = columns(alloc)?;
    let names = vec![in alloc; "name".to_string(alloc)?, "id".to_string(alloc)?]?;
    let places = places_for(alloc, &Some(names), &columns)?;
    Ok(BoundWrite {
        columns: written_columns(alloc, &columns)?,
        rows: RowWrite::Insert {
            places,
            given: Given::Answer,
        },
    })
}

fn row(alloc: Global, letters: &str) -> Result<Row, NoMemory> {
    let mut cells = Vec::new(alloc);
    for letter in letters.chars() {
        cells.push(value(alloc, letter)?)?;
    }
    Ok(Row { cells })
}

fn check_fitting(alloc: Global, write: &BoundWrite, line: &str) -> Result<(), Fail> {
    let (letters, wanted) = line.split_once('|').ok_or(line)?;
    let answer = vec![in alloc; row(alloc, letters)?]?;
    if fits(write, &answer) == (wanted == "true") {
        return Ok(());
    }
    Err(line.into())
}

#[test]
fn rows_of_queries_that_fit(rt: HostRuntime) -> Result<(), Fail> {
    let write = insert(rt.alloc())?;
    for line in FITTING.lines() {
        check_fitting(rt.alloc(), &write, line)?;
    }
    Ok(())
}
