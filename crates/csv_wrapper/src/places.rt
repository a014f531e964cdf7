//! CSV tables as tables of rows at places.
ghost use Rattle.std.specs.Prelude.{◌≡◌, ◌<◌, true, map, option_map, Some, IfOk};
ghost use Rattle.med_value.specs.Datum.{Tuple, datum, tuple, cell};
ghost use Rattle.fdw_api.specs.Scan.{restriction_form, spec_of, shown_cells};
ghost use Rattle.csv_tables.specs.CsvRecords.{Record};
ghost use Rattle.csv_tables.specs.Rises.{first_column};
ghost use Rattle.csv_tables.specs.Scans.{comes};
ghost use Rattle.csv_tables.specs.Tables.{cells_at, fields_at};
ghost use Rattle.wrapper_parts.specs.Places.{equals};
ghost use Rattle.csv_tables.specs.Drafted.{rows_before, rows_kept};
ghost use Rattle.wrapper_parts.specs.Scans.{SoughtForm, column_cells, form_of, sought, has_sought};
ghost use Rattle.csv_wrapper.specs.Rising.{AreTold};

use csv_tables::content::{Content, read_content};
use csv_tables::draft::TableDraft;
use csv_tables::layout::Layout;
use csv_tables::rises::{first_rises, stays_rising};
use csv_tables::scan::{answer_to, comes, may_equal, show};
use csv_tables::table::CsvTable;
use csv_tables::written::{Unchanged, apply_changes};
use fdw_api::interface::{Fault, TableOption};
use fdw_api::scan::{Agree, Restriction, ScanSpec};
use med_value::{ColumnDef, Comparison, NoMemory, Row, Value};
use place_wrapper::{PlacedTable, Unwritten};
use std::alloc::Global;
use wrapper_parts::{RowChange, Sought, value_at};

/// A CSV table.
#[derive(Drop)]
pub struct CsvPlaces {
    table: CsvTable,
    /// Whether the first column is known to rise.
    rises: bool,
    ghost risen: { rises ≡ true → AreTold (first_column table) },
}

/// A CSV table of which a write is under way.
#[derive(Drop)]
pub struct CsvDraft {
    written: TableDraft,
    /// Whether the first column was known to rise.
    rose: bool,
    /// Whether it is known to rise once the write is kept.
    rises: bool,
    ghost risen_before: { rose ≡ true → AreTold (column_cells 0 (rows_before written)) },
    ghost risen: { rises ≡ true → AreTold (column_cells 0 (rows_kept written)) },
}

// Whether the record at a place has what a scan looks for. It is decoded only where its field may be equal to the parameter.
#[inline(never)]
fn has(
    alloc: Global,
    table: &CsvTable,
    at: usize,
    found: Sought,
    params: &[Value],
) -> Result<bool, NoMemory>
    requires { at < table.now.rows.count }
    ensures { IfOk result (λ b. b ≡ equals (cell (map datum params.now) found.parameter) (cell (cells_at table.now at) found.column)) }
{
    let missing = Value::Null;
    let sought = value_at(params, found.parameter, &missing);
    if !may_equal(table.field_size(at, found.column), sought) {
        return Ok(false);
    }
    let value = table.value(alloc, at, found.column)?;
    Ok(Comparison::Equal.is_true(&value, sought))
}

// Whether the record at a place has what a scan looks for, if it looks for something.
#[inline(always)]
fn has_sought(
    alloc: Global,
    table: &CsvTable,
    at: usize,
    found: Option<Sought>,
    params: &[Value],
) -> Result<bool, NoMemory>
    requires { at < table.now.rows.count }
    ensures { IfOk result (λ b. b ≡ has_sought (option_map form_of found) (map datum params.now) (cells_at table.now at)) }
{
    match found {
        Some(found) => has(alloc, table, at, found, params),
        None => Ok(true),
    }
}

// Whether a scan takes each row that has what it looks for: nothing else was offered, and the answer to that was Exact.
fn is_decided(spec: &ScanSpec) -> bool
    ensures { result ≡ true → (params cells : Tuple) (fields : Record) (s : SoughtForm) → sought (spec_of spec.now).offered ≡ Some s
        → equals (cell params s.parameter) (cell cells s.column) ≡ true
        → comes (spec_of spec.now).offered (spec_of spec.now).answers params cells fields ≡ true }
{
    match spec.agreement.answers.first() {
        Some(Agree::Exact) => spec.offered.len() == 1,
        _ => false,
    }
}

// Whether a record comes. Where nothing was offered each one does, without a look at it.
#[inline(always)]
fn comes_by(
    alloc: Global,
    table: &CsvTable,
    at: usize,
    spec: &ScanSpec,
    params: &[Value],
) -> Result<bool, NoMemory>
    requires { at < table.now.rows.count }
    ensures { IfOk result (λ b. b
        ≡ comes (spec_of spec.now).offered (spec_of spec.now).answers (map datum params.now) (cells_at table.now at) (fields_at table.now at)) }
{
    if spec.offered.is_empty() {
        return Ok(true);
    }
    comes(alloc, table, at, spec, params)
}

// A record as a scan shows it. Where no column is wanted that is an empty row, without a look at the record.
#[inline(always)]
fn shown_by(
    alloc: Global,
    table: &CsvTable,
    at: usize,
    spec: &ScanSpec,
) -> Result<Option<Row>, NoMemory>
    requires { at < table.now.rows.count }
    ensures { IfOk result (λ r. option_map tuple r ≡ Some (shown_cells (spec_of spec.now) (cells_at table.now at))) }
{
    if spec.agreement.narrow && spec.wanted.is_empty() {
        return Ok(Some(Row {
            cells: Vec::new(alloc),
        }));
    }
    match show(alloc, table, at, spec) {
        Ok(row) => Ok(Some(row)),
        Err(_) => Err(NoMemory),
    }
}

// Whether a record that has what a scan looks for comes.
fn found_comes(
    alloc: Global,
    table: &CsvTable,
    at: usize,
    spec: &ScanSpec,
    _found: Sought,
    params: &[Value],
) -> Result<bool, NoMemory>
    requires within { at < table.now.rows.count }
    requires found { sought (map restriction_form spec.now.offered.items) ≡ Some (form_of _found) }
    requires has { equals (cell (map datum params.now) _found.parameter) (cell (cells_at table.now at) _found.column) ≡ true }
    ensures { IfOk result (λ b. b
        ≡ comes (spec_of spec.now).offered (spec_of spec.now).answers (map datum params.now) (cells_at table.now at) (fields_at table.now at)) }
{
    if is_decided(spec) {
        return Ok(true);
    }
    comes(alloc, table, at, spec, params)
}

impl PlacedTable for CsvPlaces {
    type Draft = CsvDraft;

    ghost use Rattle.csv_wrapper.specs.Places.{csv_form};
    ghost use Rattle.csv_tables.specs.Drafted.{IsBefore, IsAfter, image_of};

    ghost form = { csv_form };

    ghost makes = { λ draft t. IsAfter draft.written t.table };

    ghost leaves = { λ draft t. IsBefore draft.written t.table };

    ghost image_of = { λ draft. image_of draft.written };

    fn read(
        alloc: Global,
        remote: &str,
        columns: &[ColumnDef],
        options: &[TableOption],
        content: Vec<u8>,
    ) -> Result<CsvPlaces, Fault> {
        let layout = Layout::new(alloc, columns, options)?;
        let remote = remote.to_string(alloc)?;
        let Content { header, rows } = match read_content(alloc, &layout, &content) {
            Ok(content) => content,
            Err(fault) => return Err(fault),
        };
        let table = CsvTable {
            remote,
            layout,
            header,
            rows,
        };
        let rises = first_rises(alloc, &table);
        Ok(CsvPlaces { table, rises })
    }

    fn remote(&self) -> &str {
        self.table.remote.as_str()
    }

    fn count(&self) -> usize {
        self.table.rows.count
    }

    fn rises(&self) -> bool {
        self.rises
    }

    fn answer(&self, restriction: &Restriction) -> Agree {
        answer_to(&self.table.layout.kinds, restriction)
    }

    #[inline(always)]
    fn give(
        &self,
        alloc: Global,
        at: usize,
        spec: &ScanSpec,
        found: Option<Sought>,
        params: &[Value],
    ) -> Result<Option<Row>, NoMemory> {
        if !has_sought(alloc, &self.table, at, found, params)? {
            return Ok(None);
        }
        if !comes_by(alloc, &self.table, at, spec, params)? {
            return Ok(None);
        }
        shown_by(alloc, &self.table, at, spec)
    }

    fn give_found(
        &self,
        alloc: Global,
        at: usize,
        spec: &ScanSpec,
        found: Sought,
        params: &[Value],
    ) -> Result<Option<Row>, NoMemory> {
        if !found_comes(alloc, &self.table, at, spec, found, params)? {
            return Ok(None);
        }
        let shown = show(alloc, &self.table, at, spec)?;
        Ok(Some(shown))
    }

    fn cell(&self, alloc: Global, at: usize, column: usize) -> Result<Value, NoMemory> {
        self.table.value(alloc, at, column)
    }

    fn rewritten(
        self,
        alloc: Global,
        changes: Vec<RowChange>,
    ) -> Result<CsvDraft, Unwritten<CsvPlaces>> {
        let CsvPlaces { table, rises: rose } = self;
        let rises = stays_rising(alloc, &table, rose, &changes);
        match apply_changes(alloc, table, changes) {
            Ok(written) => Ok(CsvDraft {
                written,
                rose,
                rises,
            }),
            Err(Unchanged { table, fault }) => Err(Unwritten {
                table: CsvPlaces { table, rises: rose },
                fault,
            }),
        }
    }

    fn image<'a>(alloc: Global, draft: &'a CsvDraft) -> Result<Vec<&'a [u8]>, NoMemory> {
        draft.written.pieces(alloc)
    }

    fn kept(draft: CsvDraft) -> CsvPlaces {
        CsvPlaces {
            table: draft.written.kept(),
            rises: draft.rises,
        }
    }

    fn given_up(draft: CsvDraft) -> CsvPlaces {
        CsvPlaces {
            table: draft.written.given_up(),
            rises: draft.rose,
        }
    }
}
