//! What columns and options say of a CSV table.
ghost use Rattle.std.specs.Prelude.{◌≡◌, IfOk, map, option_map};
ghost use Rattle.std.specs.String.{string_bytes};
ghost use Rattle.fdw_api.specs.Kinds.{column_of, option_form, kinds_of};
ghost use Rattle.csv_tables.specs.Shapes.{option_text, shape_of};
ghost use Rattle.csv_tables.specs.Tables.{shape_is};

use fdw_api::interface::TableOption;
use med_value::{ColType, ColumnDef, NoMemory};
use std::alloc::Global;

/// The columns of a table, and how its blob is read.
#[derive(Drop)]
pub struct Layout {
    /// The types of the columns.
    pub kinds: Vec<ColType>,
    /// Their names.
    pub names: Vec<String>,
    /// Whether the first record is a header.
    pub header: bool,
    /// The field that is NULL.
    pub null: String,
}

fn kinds_of(alloc: Global, columns: &[ColumnDef]) -> Result<Vec<ColType>, NoMemory>
    ensures { IfOk result (λ v. v.items ≡ kinds_of (map column_of columns.now)) }
{
    let mut kinds = Vec::new(alloc);
    for column in columns {
        kinds.push(column.kind)?;
    }
    Ok(kinds)
}

fn names_of(alloc: Global, columns: &[ColumnDef]) -> Result<Vec<String>, NoMemory>
    ensures { IfOk result (λ v. map string_bytes v.items ≡ map (λ c. c.name) (map column_of columns.now)) }
{
    let mut names = Vec::new(alloc);
    for column in columns {
        names.push(column.name.as_str().to_string(alloc)?)?;
    }
    Ok(names)
}

/// Copies of names.
fn copy_names(alloc: Global, names: &[String]) -> Result<Vec<String>, NoMemory>
    ensures { IfOk result (λ copies. map string_bytes copies.items ≡ map string_bytes names.now) }
{
    let mut copies = Vec::new(alloc);
    for name in names {
        copies.push(name.as_str().to_string(alloc)?)?;
    }
    Ok(copies)
}

/// The text of the table's option of this name.
fn option_text<'a>(options: &'a [TableOption], key: &str) -> Option<&'a str>
    ensures { option_map (λ text. text.now) result ≡ option_text key.now (map option_form options.now) }
{
    let mut options = options;
    while let Some((option, others)) = options.split_first() {
        if option.level == 0 && option.key.as_str() == key {
            return Some(option.text.as_str());
        }
        options = others;
    }
    None
}

impl Layout {
    /// What these columns and options say. It fails for want of memory alone.
    pub fn new(
        alloc: Global,
        columns: &[ColumnDef],
        options: &[TableOption],
    ) -> Result<Layout, NoMemory>
        ensures { IfOk result (λ l. shape_is l ≡ shape_of (map column_of columns.now) (map option_form options.now)) }
    {
        let kinds = kinds_of(alloc, columns)?;
        let names = names_of(alloc, columns)?;
        let header = option_text(options, "header").unwrap_or("false") == "true";
        let null = option_text(options, "null")
            .unwrap_or("\\N")
            .to_string(alloc)?;
        Ok(Layout {
            kinds,
            names,
            header,
            null,
        })
    }

    /// The same columns and options. It fails for want of memory alone.
    pub fn copy(&self, alloc: Global) -> Result<Layout, NoMemory>
        ensures { IfOk result (λ l. shape_is l ≡ shape_is self.now) }
    {
        let kinds = Vec::from_slice(alloc, &self.kinds)?;
        let names = copy_names(alloc, &self.names)?;
        let null = self.null.as_str().to_string(alloc)?;
        Ok(Layout {
            kinds,
            names,
            header: self.header,
            null,
        })
    }
}
