//! The texts that read a page of a table, take a row out of it, and put one in.
ghost use Rattle.std.specs.Prelude.{◌≡◌, map, string_bytes, IfOk};
ghost use Rattle.sqlite_looks.specs.Texts as spec;

use std::alloc::{AllocError, Global};

// A name in double quotes, with each double quote within it doubled.
fn quoted(alloc: Global, name: &str) -> Result<String, AllocError>
    ensures { IfOk result (λ text. string_bytes text ≡ spec.quoted name.now) }
{
    let mut text = String::from_str(alloc, "\"")?;
    let mut rest = name;
    while let Some((plain, after)) = rest.split_once('"') {
        text.push_str(plain)?;
        text.push_str("\"\"")?;
        rest = after;
    }
    text.push_str(rest)?;
    text.push_str("\"")?;
    Ok(text)
}

// Names of columns, each after a comma.
fn listed(alloc: Global, columns: &[&str]) -> Result<String, AllocError>
    ensures { IfOk result (λ text. string_bytes text ≡ spec.listed (map (λ name. name.now) columns.now)) }
{
    let mut text = String::new(alloc);
    let mut left = columns;
    while let [name, others @ ..] = left {
        text.push_str(", ")?;
        text.push_str(&quoted(alloc, name)?)?;
        left = others;
    }
    Ok(text)
}

// A parameter for each of these columns, each after a comma.
fn parameters(alloc: Global, columns: &[&str]) -> Result<String, AllocError>
    ensures { IfOk result (λ text. string_bytes text ≡ spec.parameters (map (λ name. name.now) columns.now)) }
{
    let mut text = String::new(alloc);
    let mut left = columns;
    while let [_, others @ ..] = left {
        text.push_str(", ?")?;
        left = others;
    }
    Ok(text)
}

// What is read of a table: the rowid and these columns.
fn selected(alloc: Global, rowid_name: &str, columns: &[&str]) -> Result<String, AllocError>
    ensures { IfOk result (λ text. string_bytes text ≡ spec.selected rowid_name.now (map (λ name. name.now) columns.now)) }
{
    let columns = listed(alloc, columns)?;
    let mut text = String::from_str(alloc, "SELECT ")?;
    text.push_str(rowid_name)?;
    text.push_str(&columns)?;
    Ok(text)
}

// Which rows are read: those whose rowids are from ?1 to ?2.
fn in_range(alloc: Global, rowid_name: &str) -> Result<String, AllocError>
    ensures { IfOk result (λ text. string_bytes text ≡ spec.in_range rowid_name.now) }
{
    let mut text = String::from_str(alloc, " WHERE ")?;
    text.push_str(rowid_name)?;
    text.push_str(" >= ?1 AND ")?;
    text.push_str(rowid_name)?;
    text.push_str(" <= ?2")?;
    Ok(text)
}

// In which order they are read, and how many: the first 64 in the order of their rowids.
fn first_rows(alloc: Global, rowid_name: &str) -> Result<String, AllocError>
    ensures { IfOk result (λ text. string_bytes text ≡ spec.first_rows rowid_name.now) }
{
    let mut text = String::from_str(alloc, " ORDER BY ")?;
    text.push_str(rowid_name)?;
    text.push_str(" LIMIT 64")?;
    Ok(text)
}

/// The text that reads a page of a table: of at most 64 rows whose rowids are from ?1 to ?2, in the order of their rowids, the rowid and
/// these columns.
///
/// `rowid_name` is a name of the rowid that no column of the table has: `rowid`, `_rowid_` or `oid`.
pub fn page_text(
    alloc: Global,
    rowid_name: &str,
    table: &str,
    columns: &[&str],
) -> Result<String, AllocError>
    ensures { IfOk result (λ text. string_bytes text ≡ spec.page_text rowid_name.now table.now (map (λ name. name.now) columns.now)) }
{
    let mut text = selected(alloc, rowid_name, columns)?;
    let table = quoted(alloc, table)?;
    let range = in_range(alloc, rowid_name)?;
    let order = first_rows(alloc, rowid_name)?;
    text.push_str(" FROM ")?;
    text.push_str(&table)?;
    text.push_str(&range)?;
    text.push_str(&order)?;
    Ok(text)
}

/// The text that takes the row of the rowid ?1 out of a table.
pub fn delete_text(alloc: Global, rowid_name: &str, table: &str) -> Result<String, AllocError>
    ensures { IfOk result (λ text. string_bytes text ≡ spec.delete_text rowid_name.now table.now) }
{
    let table = quoted(alloc, table)?;
    let mut text = String::from_str(alloc, "DELETE FROM ")?;
    text.push_str(&table)?;
    text.push_str(" WHERE ")?;
    text.push_str(rowid_name)?;
    text.push_str(" = ?1")?;
    Ok(text)
}

// Where a new row goes: its table, its rowid and these columns.
fn target(
    alloc: Global,
    rowid_name: &str,
    table: &str,
    columns: &[&str],
) -> Result<String, AllocError>
    ensures { IfOk result (λ text. string_bytes text ≡ spec.target rowid_name.now table.now (map (λ name. name.now) columns.now)) }
{
    let table = quoted(alloc, table)?;
    let columns = listed(alloc, columns)?;
    let mut text = String::from_str(alloc, "INSERT INTO ")?;
    text.push_str(&table)?;
    text.push_str(" (")?;
    text.push_str(rowid_name)?;
    text.push_str(&columns)?;
    text.push_str(")")?;
    Ok(text)
}

/// The text that puts a row into a table: its rowid is the first parameter, and these columns are the further ones, in their order.
pub fn insert_text(
    alloc: Global,
    rowid_name: &str,
    table: &str,
    columns: &[&str],
) -> Result<String, AllocError>
    ensures { IfOk result (λ text. string_bytes text ≡ spec.insert_text rowid_name.now table.now (map (λ name. name.now) columns.now)) }
{
    let mut text = target(alloc, rowid_name, table, columns)?;
    let more = parameters(alloc, columns)?;
    text.push_str(" VALUES (?")?;
    text.push_str(&more)?;
    text.push_str(")")?;
    Ok(text)
}
