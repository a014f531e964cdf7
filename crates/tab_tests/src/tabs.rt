//! Tables of tab-separated lines: a row a line, a field a column, each of text. `\N` is NULL, and there are no escapes.
ghost use Rattle.std.specs.Prelude.{◌≡◌, true, false, map, IfOk, IfErr};
ghost use Rattle.med_value.specs.Datum.{datum, tuple};
ghost use Rattle.tab_tests.specs.Tabs.{is_plain, is_row, are_rows, texts, line_cells, rows_of, text_of};

use crate::rows_after;
use fdw_api::interface::{Fault, TableOption};
use fdw_api::scan::{Agree, Restriction, ScanSpec};
use med_value::text::row_text;
use med_value::{Cause, ColumnDef, NoMemory, Row, Value};
use place_wrapper::{PlacedTable, Unwritten};
use std::alloc::Global;
use std::str::from_utf8;
use wrapper_parts::{RowChange, Sought, takes, value_at};

/// A blob of tab-separated lines as a table.
#[derive(Drop)]
pub struct TabTable {
    remote: String,
    width: usize,
    rows: Vec<Row>,
    ghost plain: { are_rows width rows.items ≡ true },
}

/// A table of which a write is under way.
#[derive(Drop)]
pub struct TabDraft {
    // as it was, and after its changes, which have this image
    old: TabTable,
    new: TabTable,
    image: Vec<u8>,
}

// Whether a cell is written as it is read.
fn is_plain(cell: &Value) -> bool
    ensures { result ≡ is_plain (datum cell.now) }
{
    match cell {
        Value::Null => true,
        Value::Text(text) => !text.as_bytes().iter().any(|b| *b < 32 || *b == b'\\'),
        _ => false,
    }
}

// Whether a row has such a cell for each column.
fn is_row(width: usize, row: &Row) -> bool
    ensures { result ≡ is_row (texts width) (tuple row.now) }
{
    row.cells.len() == width && row.cells.iter().all(|cell| is_plain(cell))
}

// The table of these rows, and a cause where they are not of its columns.
fn new_table(remote: String, width: usize, rows: Vec<Row>, cause: Cause) -> Result<TabTable, Fault>
    ensures ok { IfOk result (λ t. (t.remote ≡ remote) × (t.width ≡ width) × (t.rows ≡ rows)) }
    ensures err { IfErr result (λ fault. (fault ≡ Fault.Refused cause) × (are_rows width rows.items ≡ false)) }
{
    if !rows.iter().all(|row| is_row(width, row)) {
        return Err(Fault::Refused(cause));
    }
    Ok(TabTable {
        remote,
        width,
        rows,
    })
}

// The row of a line.
pub(crate) fn row_of(alloc: Global, line: &str) -> Result<Row, NoMemory>
    ensures { IfOk result (λ row. tuple row ≡ line_cells line.now) }
{
    let fields: Vec<&str> = line.split('\t').collect(alloc)?;
    let mut cells = Vec::new(alloc);
    for field in &fields {
        if *field == "\\N" {
            cells.push(Value::Null)?;
        } else {
            cells.push(Value::Text(field.to_string(alloc)?))?;
        }
    }
    Ok(Row { cells })
}

// The rows of the lines of a text.
fn rows_of(alloc: Global, text: &str) -> Result<Vec<Row>, NoMemory>
    ensures { IfOk result (λ rows. map tuple rows.items ≡ rows_of text.now) }
{
    let lines: Vec<&str> = text.lines().collect(alloc)?;
    let mut rows = Vec::new(alloc);
    for line in &lines {
        rows.push(row_of(alloc, line)?)?;
    }
    Ok(rows)
}

// The lines of rows.
fn text_of(alloc: Global, rows: &[Row]) -> Result<Vec<u8>, NoMemory>
    ensures { IfOk result (λ text. text.items ≡ text_of (map tuple rows.now)) }
{
    let mut text = Vec::new(alloc);
    for row in rows {
        row_text(row, &mut text)?;
        text.push(b'\n')?;
    }
    Ok(text)
}

impl TabTable {
    ghost use Rattle.std.specs.List.{list_all};
    ghost use Rattle.fdw_api.specs.Prelude.{row_of_change_fits};
    ghost use Rattle.wrapper_parts.specs.Staged.{change_is};
    ghost use Rattle.place_wrapper.specs.Forms.{Rewrites, RefusesChanges};
    ghost use Rattle.tab_tests.specs.TabForms.{tab_form};

    // The table after changes, and its image.
    fn changed(&self, alloc: Global, changes: Vec<RowChange>) -> Result<(TabTable, Vec<u8>), Fault>
        ensures ok { IfOk result (λ made. Rewrites tab_form self.now (map change_is changes.items) made.0 made.1.items) }
        ensures err { IfErr result (λ fault. RefusesChanges tab_form self.now (map change_is changes.items) fault) }
    {
        let rows = rows_after(alloc, &self.rows, changes)?;
        let image = text_of(alloc, &rows)?;
        let remote = self.remote.as_str().to_string(alloc)?;
        let table = new_table(remote, self.width, rows, Cause::InvalidText)?;
        Ok((table, image))
    }
}

impl PlacedTable for TabTable {
    ghost use Rattle.tab_tests.specs.TabForms.{tab_form};

    type Draft = TabDraft;

    ghost form = { tab_form };

    ghost makes = { λ draft t. t ≡ draft.new };

    ghost leaves = { λ draft t. t ≡ draft.old };

    ghost image_of = { λ draft. draft.image.items };

    fn read(
        alloc: Global,
        remote: &str,
        columns: &[ColumnDef],
        _options: &[TableOption],
        content: Vec<u8>,
    ) -> Result<TabTable, Fault> {
        let Ok(text) = from_utf8(&content) else {
            return Err(Fault::Refused(Cause::InvalidFormat));
        };
        let rows = rows_of(alloc, text)?;
        let remote = remote.to_string(alloc)?;
        new_table(remote, columns.len(), rows, Cause::InvalidFormat)
    }

    fn remote(&self) -> &str {
        self.remote.as_str()
    }

    fn count(&self) -> usize {
        self.rows.len()
    }

    fn answer(&self, _restriction: &Restriction) -> Agree {
        Agree::Ignored
    }

    fn give(
        &self,
        alloc: Global,
        at: usize,
        spec: &ScanSpec,
        found: Option<Sought>,
        params: &[Value],
    ) -> Result<Option<Row>, NoMemory> {
        let row = &self.rows[at];
        if takes(spec, found, params, row) {
            return Ok(Some(spec.show(alloc, row)?));
        }
        Ok(None)
    }

    fn cell(&self, alloc: Global, at: usize, column: usize) -> Result<Value, NoMemory> {
        value_at(&self.rows[at].cells, column, &Value::Null).copy(alloc)
    }

    fn rewritten(
        self,
        alloc: Global,
        changes: Vec<RowChange>,
    ) -> Result<TabDraft, Unwritten<TabTable>> {
        match self.changed(alloc, changes) {
            Ok((new, image)) => Ok(TabDraft {
                old: self,
                new,
                image,
            }),
            Err(fault) => Err(Unwritten { table: self, fault }),
        }
    }

    fn image<'a>(alloc: Global, draft: &'a TabDraft) -> Result<Vec<&'a [u8]>, NoMemory> {
        Ok(vec![in alloc; draft.image.as_slice()]?)
    }

    fn kept(draft: TabDraft) -> TabTable {
        draft.new
    }

    fn given_up(draft: TabDraft) -> TabTable {
        draft.old
    }
}
