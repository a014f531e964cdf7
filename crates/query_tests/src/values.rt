//! Values and rows: their copies and their text; and causes.
use crate::rows::{Answer, assert_row, assert_rows};
use med_value::{Cause, ColType, ColumnDef, NoMemory, Row, Value, escaped_text, row_text};
use std::alloc::{AllocError, Global};
use std::test::Fail;

/// The value of a word: NULL, a truth value, a text in quotes, or a number.
pub fn value(alloc: Global, word: &str) -> Result<Value, Fail> {
    Ok(match word {
        "NULL" => Value::Null,
        "true" => Value::Bool(true),
        "false" => Value::Bool(false),
        _ => match word.strip_prefix('\'') {
            Some(text) => Value::Text(text.trim_end_matches('\'').to_string(alloc)?),
            None => Value::Int(word.parse()?),
        },
    })
}

/// The values of words with a space between two of them, copied.
fn values(alloc: Global, words: &str) -> Result<Vec<Value>, Fail> {
    let mut values = Vec::new(alloc);
    for word in words.split(' ') {
        values.push(value(alloc, word)?.copy(alloc)?)?;
    }
    Ok(values)
}

struct RowCopy;

impl Answer for RowCopy {
    fn answer(alloc: Global, words: &str) -> Result<String, Fail> {
        let row = Row {
            cells: values(alloc, words)?,
        };
        Ok(format!(in alloc; "{:?}", row.copy(alloc)?)?)
    }
}

struct ColumnCopy;

impl Answer for ColumnCopy {
    fn answer(alloc: Global, name: &str) -> Result<String, Fail> {
        let column = ColumnDef {
            name: name.to_string(alloc)?,
            kind: ColType::Int,
            not_null: true,
        };
        Ok(format!(in alloc; "{:?}", column.copy(alloc)?)?)
    }
}

#[test]
fn copies_are_equal(rt: HostRuntime) -> Result<(), Fail> {
    assert_row::<RowCopy>(
        rt.alloc(),
        &rt,
        "1 'x' => Row { cells: [Int(1), Text(\"x\")] }",
    )?;
    assert_row::<ColumnCopy>(
        rt.alloc(),
        &rt,
        "qty => ColumnDef { name: \"qty\", kind: Int, not_null: true }",
    )
}

struct RowText;

impl Answer for RowText {
    fn answer(alloc: Global, words: &str) -> Result<String, Fail> {
        let cells = values(alloc, words)?;
        let mut out = Vec::new(alloc);
        row_text(&Row { cells }, &mut out)?;
        Ok(String::from_utf8(out).ok().ok_or(words)?)
    }
}

#[test]
fn rows_as_text(rt: HostRuntime) -> Result<(), Fail> {
    assert_row::<RowText>(rt.alloc(), &rt, "1 NULL true => 1\t\\N\tt")?;
    assert_row::<RowText>(
        rt.alloc(),
        &rt,
        "-9223372036854775808 'a\\b\tc\nd\r\\N' false => -9223372036854775808\ta\\\\b\\tc\\nd\\r\\\\N\tf",
    )
}

/// The text behind others, with a row of no cells behind it.
struct Appended;

impl Answer for Appended {
    fn answer(alloc: Global, text: &str) -> Result<String, Fail> {
        let mut out = b"H\t".to_vec(alloc)?;
        escaped_text(text, &mut out)?;
        let cells = Vec::new(alloc);
        row_text(&Row { cells }, &mut out)?;
        Ok(String::from_utf8(out).ok().ok_or(text)?)
    }
}

#[test]
fn texts_are_appended(rt: HostRuntime) -> Result<(), Fail> {
    assert_row::<Appended>(rt.alloc(), &rt, "a\\b\tc => H\ta\\\\b\\tc")
}

const CAUSES: [Cause; 11] = [
    Cause::Protocol,
    Cause::Syntax,
    Cause::TooDeep,
    Cause::UndefinedTable,
    Cause::OptionNameNotFound,
    Cause::DatatypeMismatch,
    Cause::InUse,
    Cause::DivisionByZero,
    Cause::TooLarge,
    Cause::OutOfMemory,
    Cause::SourceFault,
];

/// The cause at a place of `CAUSES`: its phase, its code and its name.
struct Told;

impl Answer for Told {
    fn answer(alloc: Global, place: &str) -> Result<String, Fail> {
        let place: usize = place.parse()?;
        let cause = CAUSES.get(place).ok_or("no cause")?;
        let (code, name) = (cause.code(), cause.name());
        Ok(format!(in alloc; "{cause:?} {:?} {code} {name}", cause.phase())?)
    }
}

#[test]
fn causes_as_told(rt: HostRuntime) -> Result<(), Fail> {
    assert_rows::<Told>(
        rt.alloc(),
        &rt,
        "0 => Protocol Some(1) 08P01 protocol_violation\n\
        1 => Syntax Some(2) 42601 syntax_error\n\
        2 => TooDeep Some(2) 54000 program_limit_exceeded\n\
        3 => UndefinedTable Some(3) 42P01 undefined_table\n\
        4 => OptionNameNotFound Some(3) HV00J fdw_option_name_not_found\n\
        5 => DatatypeMismatch Some(4) 42804 datatype_mismatch\n\
        6 => InUse Some(5) 55006 object_in_use\n\
        7 => DivisionByZero Some(6) 22012 division_by_zero\n\
        8 => TooLarge Some(6) 54000 program_limit_exceeded\n\
        9 => OutOfMemory None 53200 out_of_memory\n\
        10 => SourceFault None HV000 fdw_error",
    )
}

fn pushed(alloc: Global) -> Result<Vec<u8>, Cause> {
    let mut bytes = Vec::new(alloc);
    bytes.push(1)?;
    Ok(bytes)
}

/// What refused memory is called, each way.
struct Refused;

impl Answer for Refused {
    fn answer(alloc: Global, _: &str) -> Result<String, Fail> {
        let push = match pushed(alloc) {
            Ok(_) | Err(Cause::OutOfMemory) => "pushed or OutOfMemory",
            Err(_) => "another cause",
        };
        let (ours, theirs) = (Cause::from(NoMemory), Cause::from(AllocError));
        Ok(format!(in alloc; "{ours:?}, {theirs:?}, {push}, {NoMemory}")?)
    }
}

#[test]
fn refused_memory_is_one_cause(rt: HostRuntime) -> Result<(), Fail> {
    assert_row::<Refused>(
        rt.alloc(),
        &rt,
        "refused => OutOfMemory, OutOfMemory, pushed or OutOfMemory, out of memory",
    )
}
