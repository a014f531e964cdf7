//! Tables of JSON lines as tables of rows at places.
ghost use Rattle.std.specs.Prelude.{◌≡◌, ◌<◌, true, ℕ, List, slice_get, length, IfOk, IfErr};
ghost use Rattle.std.specs.List.{list_any};
ghost use Rattle.med_value.specs.Datum.{datum, tuple, cell};
ghost use Rattle.fdw_api.specs.Scan.{test_form, pick, shown_cells, spec_of};
ghost use Rattle.jsonl_wrapper.specs.Wholes.{is_other};
ghost use Rattle.fdw_api.specs.declared.interface.Fault.{Fault};
ghost use Rattle.jsonl_wrapper.specs.Tables.{kinds_in, row_cells, readers_in};
ghost use Rattle.jsonl_wrapper.specs.Rises.{first_column, AreTold};
ghost use Rattle.jsonl_wrapper.specs.Changes.{Exchanges};
ghost use Rattle.jsonl_wrapper.specs.Keeping.{IsAgain, IsDraft};
ghost use Rattle.jsonl_wrapper.specs.Formats.{answer_on};

use crate::contents::{LinesRead, read_lines};
use crate::draft::JsonDraft;
use crate::drafting::{draft_of, given_up, kept};
use crate::exchange::Exchange;
use crate::fields::fields_of;
use crate::known::{known_cell, takes_known};
use crate::lines::{is_image, line_at};
use crate::reading::LineBuffer;
use crate::rewrite::rewritten;
use crate::rises::{marked, stays_rising};
use crate::table::JsonTable;
use fdw_api::interface::{Fault, TableOption};
use fdw_api::scan::{Agree, Restriction, ScanSpec, Test};
use med_value::{ColType, ColumnDef, NoMemory, Row, Value};
use place_wrapper::{PlacedTable, Unwritten};
use std::alloc::Global;
use wrapper_parts::{RowChange, Sought, takes};

/// The row of the line at a place.
fn row_at(alloc: Global, table: &JsonTable, at: usize) -> Result<Row, NoMemory>
    requires { at < length table.now.lines.items }
    ensures { IfOk result (λ row. tuple row ≡ row_cells table.now at) }
{
    table.buffer.row(
        alloc,
        line_at(&table.content, table.lines[at]),
        &table.fields,
    )
}

/// The type of a column, if it is there.
fn kind_at(table: &JsonTable, column: usize) -> Option<ColType>
    ensures { result ≡ slice_get (kinds_in table.now) column }
{
    if column < table.fields.len() {
        Some(table.fields[column].kind)
    } else {
        None
    }
}

/// The cell of a row in a column, NULL where there is no such column. The line is read where that is no column of integers.
fn cell_at(alloc: Global, table: &JsonTable, at: usize, column: usize) -> Result<Value, NoMemory>
    requires { at < length table.now.lines.items }
    ensures { IfOk result (λ v. datum v ≡ cell (row_cells table.now at) column) }
{
    if column >= table.fields.len() {
        return Ok(Value::Null);
    }
    if let Some(value) = known_cell(table, at, column) {
        return Ok(value);
    }
    table.buffer.cell(
        alloc,
        line_at(&table.content, table.lines[at]),
        &table.fields[column],
    )
}

/// Whether there is such a column, and it has another type than integer.
fn is_other(kind: Option<ColType>) -> bool
    ensures { result ≡ is_other kind }
{
    match kind {
        Some(ColType::Int) => false,
        Some(ColType::Text) => true,
        Some(ColType::Bool) => true,
        None => false,
    }
}

/// Whether some of these columns has another type than integer.
fn has_other(table: &JsonTable, wanted: &[usize]) -> bool
    ensures { result ≡ list_any (λ column. is_other (slice_get (kinds_in table.now) column)) wanted.now }
{
    for column in wanted {
        if is_other(kind_at(table, *column)) {
            return true;
        }
    }
    false
}

/// The cells of a row in these columns.
fn picked(alloc: Global, table: &JsonTable, at: usize, wanted: &[usize]) -> Result<Row, NoMemory>
    requires { at < length table.now.lines.items }
    ensures { IfOk result (λ row. tuple row ≡ pick wanted.now (row_cells table.now at)) }
{
    let mut cells = Vec::with_capacity(alloc, wanted.len())?;
    for column in wanted {
        cells.push(cell_at(alloc, table, at, *column)?)?;
    }
    Ok(Row { cells })
}

/// A row as a scan shows it: where that is cells of integer columns alone, its line is not read.
fn shown(alloc: Global, table: &JsonTable, at: usize, spec: &ScanSpec) -> Result<Row, NoMemory>
    requires { at < length table.now.lines.items }
    ensures { IfOk result (λ row. tuple row ≡ shown_cells (spec_of spec.now) (row_cells table.now at)) }
{
    if spec.agreement.narrow && !has_other(table, &spec.wanted) {
        return picked(alloc, table, at, &spec.wanted);
    }
    let row = row_at(alloc, table, at)?;
    spec.show(alloc, &row)
}

/// What is done about a test of a column of this type.
fn answer_on(kind: Option<ColType>, test: &Test) -> Agree
    ensures { result ≡ answer_on kind (test_form test.now) }
{
    match test {
        Test::IsNull => Agree::Exact,
        Test::IsNotNull => Agree::Exact,
        Test::Compare(_, _) => match kind {
            Some(ColType::Int) => Agree::Exact,
            Some(ColType::Text) => Agree::Ignored,
            Some(ColType::Bool) => Agree::Ignored,
            None => Agree::Ignored,
        },
    }
}

/// A draft of a table for an exchange. It fails for want of memory alone, and then the table comes back.
fn drafted(
    table: JsonTable,
    exchange: Exchange,
    stays: bool,
) -> Result<JsonDraft, Unwritten<JsonTable>>
    requires { (lines : List (List ℕ)) × Exchanges table exchange lines
        × (stays ≡ true → AreTold (first_column (readers_in table) lines)) }
    ensures ok { IfOk result (λ d. IsDraft table exchange d) }
    ensures same { IfErr result (λ unwritten. IsAgain table unwritten.table) }
    ensures err { IfErr result (λ unwritten. unwritten.fault ≡ Fault.NoMemory) }
{
    match draft_of(table, exchange, stays) {
        Ok(draft) => Ok(draft),
        Err(table) => Err(Unwritten {
            table,
            fault: Fault::NoMemory,
        }),
    }
}

impl PlacedTable for JsonTable {
    ghost use Rattle.wrapper_parts.specs.Splices.{after_of};
    ghost use Rattle.jsonl_wrapper.specs.Formats.{json_form};
    ghost use Rattle.jsonl_wrapper.specs.Keeping.{Leaves, Makes};

    type Draft = JsonDraft;

    ghost form = { json_form };

    ghost makes = { Makes };

    ghost leaves = { Leaves };

    ghost image_of = { λ d. after_of d.content };

    fn read(
        alloc: Global,
        remote: &str,
        columns: &[ColumnDef],
        options: &[TableOption],
        content: Vec<u8>,
    ) -> Result<JsonTable, Fault> {
        let fields = fields_of(alloc, columns, options)?;
        let LinesRead { spans, wholes } = match read_lines(alloc, &content, &fields) {
            Ok(read) => read,
            Err(fault) => return Err(fault),
        };
        let remote = remote.to_string(alloc)?;
        let buffer = LineBuffer::new(alloc)?;
        let is_image = is_image(&content, &spans);
        let table = JsonTable {
            remote,
            fields,
            content,
            lines: spans,
            is_image,
            wholes,
            rises: false,
            buffer,
        };
        Ok(marked(table))
    }

    fn remote(&self) -> &str {
        self.remote.as_str()
    }

    fn count(&self) -> usize {
        self.lines.len()
    }

    fn rises(&self) -> bool {
        self.rises
    }

    fn answer(&self, restriction: &Restriction) -> Agree {
        answer_on(kind_at(self, restriction.column), &restriction.test)
    }

    fn give(
        &self,
        alloc: Global,
        at: usize,
        spec: &ScanSpec,
        found: Option<Sought>,
        params: &[Value],
    ) -> Result<Option<Row>, NoMemory> {
        match takes_known(self, at, spec, found, params) {
            Some(true) => Ok(Some(shown(alloc, self, at, spec)?)),
            Some(false) => Ok(None),
            None => {
                let row = row_at(alloc, self, at)?;
                if takes(spec, found, params, &row) {
                    Ok(Some(spec.show(alloc, &row)?))
                } else {
                    Ok(None)
                }
            }
        }
    }

    fn cell(&self, alloc: Global, at: usize, column: usize) -> Result<Value, NoMemory> {
        cell_at(alloc, self, at, column)
    }

    fn rewritten(
        self,
        alloc: Global,
        changes: Vec<RowChange>,
    ) -> Result<JsonDraft, Unwritten<JsonTable>> {
        let stays = stays_rising(&self, &changes);
        match rewritten(alloc, &self, changes) {
            Ok(exchange) => drafted(self, exchange, stays),
            Err(fault) => Err(Unwritten { table: self, fault }),
        }
    }

    fn image<'a>(alloc: Global, draft: &'a JsonDraft) -> Result<Vec<&'a [u8]>, NoMemory> {
        let mut pieces = Vec::with_capacity(alloc, 3)?;
        pieces.push(draft.content.front())?;
        pieces.push(draft.content.middle())?;
        pieces.push(draft.content.back())?;
        Ok(pieces)
    }

    fn kept(draft: JsonDraft) -> JsonTable {
        kept(draft)
    }

    fn given_up(draft: JsonDraft) -> JsonTable {
        given_up(draft)
    }
}
