//! The stored names of a table and of its columns as texts, and the statements that are built of them.
ghost use Rattle.std.specs.Prelude.{◌≡◌, map, IfOk};
ghost use Rattle.std.specs.Option.{option_map};
ghost use Rattle.sqlite_looks.specs.Found as spec;

use crate::shapes::Texts;
use crate::texts::{delete_text, insert_text, page_text};
use sqlite_schema::schema::{Column, Table};
use std::alloc::{AllocError, Global};

// A stored name, where it is UTF-8.
fn name_of(name: &[u8]) -> Option<&str>
    ensures { option_map (λ text. text.now) result ≡ spec.name_of name.now }
{
    match std::str::from_utf8(name) {
        Ok(text) => Some(text),
        Err(_) => None,
    }
}

// The name of a column by its number, where there is such a column.
fn name_at(columns: &[Column], at: usize) -> Option<&str>
    ensures { option_map (λ text. text.now) result ≡ spec.name_at columns.now at }
{
    match columns.get(at) {
        Some(column) => name_of(column.name.as_slice()),
        None => None,
    }
}

// The names of columns by their numbers; `None` where one is not there or is not UTF-8.
fn names_at<'a>(
    alloc: Global,
    columns: &'a [Column],
    numbers: &[usize],
) -> Result<Option<Vec<&'a str>>, AllocError>
    ensures { IfOk result (λ found. option_map (λ names. map (λ name. name.now) names.items) found
        ≡ spec.names_at columns.now numbers.now) }
{
    let mut names = Vec::new(alloc);
    let mut left = numbers;
    while let Some((at, others)) = left.split_first() {
        let Some(name) = name_at(columns, *at) else {
            return Ok(None);
        };
        names.push(name)?;
        left = others;
    }
    Ok(Some(names))
}

// The numbers of all columns.
pub(crate) fn every_column(alloc: Global, table: &Table) -> Result<Vec<usize>, AllocError>
    ensures { IfOk result (λ numbers. numbers.items ≡ spec.every_column table.now) }
{
    let mut numbers = Vec::new(alloc);
    for at in 0..table.columns.len() {
        numbers.push(at)?;
    }
    Ok(numbers)
}

// The numbers of the columns that a new row names: all but the one that is the rowid.
fn inserted(alloc: Global, table: &Table) -> Result<Vec<usize>, AllocError>
    ensures { IfOk result (λ numbers. numbers.items ≡ spec.inserted table.now) }
{
    let count = table.columns.len();
    let key = table.key;
    (0..count).filter(|at| key != Some(*at)).collect(alloc)
}

// The texts by a name of the rowid, built of the names of the table and its columns; `None` where one is not there or is not UTF-8.
pub(crate) fn texts_of(
    alloc: Global,
    table: &Table,
    wanted: &[usize],
    rowid_name: &str,
) -> Result<Option<Texts>, AllocError>
    ensures { IfOk result (λ found. option_map spec.spelled found ≡ spec.texts_of table.now wanted.now rowid_name.now) }
{
    let Some(name) = name_of(table.name.as_slice()) else {
        return Ok(None);
    };
    let Some(shown) = names_at(alloc, table.columns.as_slice(), wanted)? else {
        return Ok(None);
    };
    let numbers = inserted(alloc, table)?;
    let Some(named) = names_at(alloc, table.columns.as_slice(), &numbers)? else {
        return Ok(None);
    };
    let page = page_text(alloc, rowid_name, name, &shown)?;
    let delete = delete_text(alloc, rowid_name, name)?;
    let insert = insert_text(alloc, rowid_name, name, &named)?;
    Ok(Some(Texts {
        page,
        delete,
        insert,
    }))
}
