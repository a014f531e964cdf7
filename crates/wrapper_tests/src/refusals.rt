//! Binds that a list refuses.
use crate::orders::{columns, new_list};
use fdw_api::interface::{Fault, Wrapper};
use med_value::ColType;
use std::alloc::Global;
use std::test::Fail;

fn kinds(alloc: Global, words: &str) -> Result<Vec<ColType>, Fail> {
    let mut kinds = Vec::new(alloc);
    for word in words.split_whitespace() {
        let kind = match word {
            "int" => ColType::Int,
            "text" => ColType::Text,
            _ => return Err("no such type".into()),
        };
        kinds.push(kind)?;
    }
    Ok(kinds)
}

/// The code of the cause by which a new list refuses to bind a table of columns of these types, or `bound`.
fn refusal(alloc: Global, remote: &str, kinds: &[ColType]) -> Result<&'static str, Fail> {
    let mut source = new_list(alloc)?;
    match source.bind(alloc, remote, &columns(alloc, kinds)?, &[]) {
        Ok(_) => Ok("bound"),
        Err(Fault::Refused(cause)) => Ok(cause.code()),
        Err(fault) => Err(fault)?,
    }
}

fn check_row(alloc: Global, row: &str) -> Result<(), Fail> {
    let fields: Vec<&str> = row.split('|').collect(alloc)?;
    match fields.as_slice() {
        [remote, words, want] => {
            let found = refusal(alloc, remote, &kinds(alloc, words)?)?;
            if found == *want {
                return Ok(());
            }
            Err(format!(in alloc; "{row}: {found} came")?)?
        }
        _ => Err(row.to_string(alloc)?)?,
    }
}

#[test]
fn bind_refuses_other_names_numbers_and_types(rt: HostRuntime) -> Result<(), Fail> {
    let rows = "orders|int int int|bound
parts|int int int|HV00R
orders|int|HV004
orders|int text int|HV004";
    for row in rows.lines() {
        check_row(rt.alloc(), row)?;
    }
    Ok(())
}
