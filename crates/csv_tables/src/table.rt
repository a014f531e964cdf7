//! The records of a bound table.
ghost use Rattle.std.specs.Prelude.{◌≡◌, ◌*◌, ◌^◌, ◌<◌, [], true, length, option_map, slice_get, IfOk};
ghost use Rattle.std.specs.List.{list_all, flat_map};
ghost use Rattle.std.specs.Str.{is_utf8};
ghost use Rattle.csv.specs.Records.{fields_of, partial_of};
ghost use Rattle.csv_tables.specs.Held.{held_of, ended, plain_if};
ghost use Rattle.csv_tables.specs.CsvRecords.{is_header};
ghost use Rattle.csv_tables.specs.Flat.{cut_into, header_in};

use crate::cells::cell;
use crate::flat_fields::Fields;
use crate::layout::Layout;
use csv::ByteRecord;
use med_value::{NoMemory, Row, Value};
use std::alloc::Global;

/// Records of one number of fields, each of them UTF-8: the fields of all of them, one after the other, as they stand in a blob.
#[derive(Drop)]
pub struct Rows {
    /// How many fields each record has.
    pub width: usize,
    pub fields: Fields,
    /// How many records they are.
    pub count: usize,
    /// Whether each record is known to be what the writer would write, as it stands.
    pub plain: bool,
    pub ghost whole: { count * width ≡ length (held_of fields) },
    pub ghost small: { count < 2 ^ 64 },
    pub ghost closed: { partial_of fields ≡ [] },
    pub ghost texts: { list_all is_utf8 (held_of fields) ≡ true },
    pub ghost lines: { fields_of fields ≡ flat_map ended (cut_into count width (held_of fields)) },
    pub ghost shown: { plain_if plain (cut_into count width (held_of fields)) ≡ true },
}

/// A bound table.
#[derive(Drop)]
pub struct CsvTable {
    /// The name of its blob.
    pub remote: String,
    pub layout: Layout,
    /// The header of its blob, or the column names where the blob has no record yet; None where the table has no header.
    pub header: Option<ByteRecord>,
    pub rows: Rows,
    pub ghost sized: { rows.width ≡ length layout.kinds.items },
    pub ghost named: { 0 < length layout.names.items },
    pub ghost headed: { is_header layout.header (header_in header) ≡ true },
}

impl CsvTable {
    ghost use Rattle.med_value.specs.Datum.{datum, tuple, cell as cell_at};
    ghost use Rattle.fdw_api.specs.Scan.{pick};
    ghost use Rattle.csv_tables.specs.Tables.{cells_at, fields_at, field_size};

    /// The field of a record in a column, if the table has such a column.
    fn field(&self, at: usize, column: usize) -> Option<&[u8]>
        requires { at < self.now.rows.count }
        ensures { option_map (λ field. field.now) result ≡ slice_get (fields_at self.now at) column }
    {
        if column >= self.rows.width {
            return None;
        }
        let _fields = self.rows.fields.len();
        self.rows.fields.get(at * self.rows.width + column)
    }

    /// How many bytes the field of a record in a column has, 0 where the table has no such column.
    pub fn field_size(&self, at: usize, column: usize) -> usize
        requires { at < self.now.rows.count }
        ensures { result ≡ field_size (fields_at self.now at) column }
    {
        match self.field(at, column) {
            Some(field) => field.len(),
            None => 0,
        }
    }

    /// The value of a record in a column, NULL where the table has no such column. It fails for want of memory alone.
    #[inline(always)]
    pub fn value(&self, alloc: Global, at: usize, column: usize) -> Result<Value, NoMemory>
        requires { at < self.now.rows.count }
        ensures { IfOk result (λ v. datum v ≡ cell_at (cells_at self.now at) column) }
    {
        if column >= self.layout.kinds.len() {
            return Ok(Value::Null);
        }
        let kind = self.layout.kinds[column];
        let Some(field) = self.field(at, column) else {
            return Ok(Value::Null);
        };
        match cell(alloc, &self.layout.null, kind, field)? {
            Some(value) => Ok(value),
            None => Ok(Value::Null),
        }
    }

    /// The cells of a record in these columns, in their order. It fails for want of memory alone.
    pub fn picked(&self, alloc: Global, at: usize, wanted: &[usize]) -> Result<Row, NoMemory>
        requires { at < self.now.rows.count }
        ensures { IfOk result (λ r. tuple r ≡ pick wanted.now (cells_at self.now at)) }
    {
        let mut cells = Vec::with_capacity(alloc, wanted.len())?;
        for column in wanted {
            cells.push(self.value(alloc, at, *column)?)?;
        }
        Ok(Row { cells })
    }

    /// All cells of a record. It fails for want of memory alone.
    pub fn row(&self, alloc: Global, at: usize) -> Result<Row, NoMemory>
        requires { at < self.now.rows.count }
        ensures { IfOk result (λ r. tuple r ≡ cells_at self.now at) }
    {
        let mut cells = Vec::with_capacity(alloc, self.layout.kinds.len())?;
        for column in 0..self.layout.kinds.len() {
            let value = self.value(alloc, at, column)?;
            cells.push(value)?;
        }
        Ok(Row { cells })
    }
}
