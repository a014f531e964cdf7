//! The wrapper of CSV blobs.
ghost use Rattle.std.specs.Prelude.{◌≡◌, map, length, true, IfOk, IfErr, IfSome, IsSome};
ghost use Rattle.fdw_api.specs.Prelude.{restriction_form, spec_by, table_of, Allows};
ghost use Rattle.csv_tables.specs.Scans.{answer_by};

use crate::places::CsvPlaces;
use blob_store::Blobs;
use fdw_api::interface::{Counts, Fault, RowId, SourceRow, TableOption, Ticket, Wrapper};
use fdw_api::scan::{Agreement, Restriction, ScanSpec};
use med_value::{ColumnDef, Row, TableNo, Value};
use place_wrapper::PlaceWrapper;
use std::alloc::Global;

/// CSV blobs as a source of foreign tables.
///
/// Its kind is `csv_kind`: a remote name is the name of a blob. A blob is read when its table is bound, and its fields are held until it is
/// unbound: no value is kept, each scan decodes the records that it gives. The id of a row is its place. All calls are those of
/// `PlaceWrapper` over CSV tables: a refused call uses no ticket number up, it answers `Fault::Source` where the blobs failed by their
/// device or are worn out, and `faults` are the blobs' `failures`.
#[derive(Drop)]
pub struct CsvWrapper<B: Blobs> {
    inner: PlaceWrapper<B, CsvPlaces>,
}

impl<B: Blobs> CsvWrapper<B> {
    ghost use Rattle.csv_wrapper.specs.CsvBoxes.{IsNewCsv};

    /// A source of these blobs, on which nothing is bound yet. It takes no memory.
    pub fn new(alloc: Global, blobs: B) -> Self
        ensures new { IsNewCsv (⟦<PlaceWrapper<B, CsvPlaces> as Wrapper>⟧.meaning result.inner) (B.meaning blobs) }
        ensures blobs { result.inner.blobs ≡ blobs }
    {
        CsvWrapper {
            inner: PlaceWrapper::new(alloc, blobs),
        }
    }
}

impl<B: Blobs> Wrapper for CsvWrapper<B> {
    ghost meaning = { λ w. ⟦<PlaceWrapper<B, CsvPlaces> as Wrapper>⟧.meaning w.inner };

    fn bind(
        &mut self,
        alloc: Global,
        remote: &str,
        columns: &[ColumnDef],
        options: &[TableOption],
    ) -> Result<TableNo, Fault> {
        self.inner.bind(alloc, remote, columns, options)
    }

    fn unbind(&mut self, t: TableNo) {
        self.inner.unbind(t)
    }

    /// Takes over each test for NULL and each test of an integer or a truth value, and of a text `=` as a hint. It gives the wanted
    /// columns alone.
    fn plan(
        &self,
        alloc: Global,
        t: TableNo,
        wanted: &[usize],
        offered: &[Restriction],
    ) -> Result<Agreement, Fault>
        requires { IsSome (table_of (⟦<PlaceWrapper<B, CsvPlaces> as Wrapper>⟧.meaning self.now.inner) t.number) }
        ensures ok { IfOk result (λ a. Allows (⟦<PlaceWrapper<B, CsvPlaces> as Wrapper>⟧.meaning self.now.inner) t.number
            (spec_by wanted.now (map restriction_form offered.now) a)) }
        ensures each { IfOk result (λ a. length a.answers.items ≡ length offered.now) }
        ensures err { IfErr result (λ fault. fault ≡ Fault.NoMemory) }
        ensures takes { IfOk result (λ a. IfSome (table_of (⟦<PlaceWrapper<B, CsvPlaces> as Wrapper>⟧.meaning self.now.inner) t.number)
            (λ bound. a.answers.items ≡ map (answer_by bound.kinds) (map restriction_form offered.now))) }
        ensures narrow { IfOk result (λ a. a.narrow ≡ true) }
    {
        self.inner.plan(alloc, t, wanted, offered)
    }

    fn begin(
        &mut self,
        alloc: Global,
        t: TableNo,
        spec: &ScanSpec,
        params: &[Value],
    ) -> Result<Ticket, Fault> {
        self.inner.begin(alloc, t, spec, params)
    }

    fn iterate(&mut self, alloc: Global, ticket: &Ticket) -> Result<Option<SourceRow>, Fault> {
        self.inner.iterate(alloc, ticket)
    }

    fn rescan(&mut self, alloc: Global, ticket: &Ticket, params: &[Value]) -> Result<(), Fault> {
        self.inner.rescan(alloc, ticket, params)
    }

    fn end(&mut self, ticket: Ticket) {
        self.inner.end(ticket)
    }

    fn begin_modify(&mut self, alloc: Global, t: TableNo) -> Result<(), Fault> {
        self.inner.begin_modify(alloc, t)
    }

    fn insert(&mut self, alloc: Global, row: Row) -> Result<(), Fault> {
        self.inner.insert(alloc, row)
    }

    fn update(&mut self, alloc: Global, id: RowId, row: Row) -> Result<(), Fault> {
        self.inner.update(alloc, id, row)
    }

    fn delete(&mut self, alloc: Global, id: RowId) -> Result<(), Fault> {
        self.inner.delete(alloc, id)
    }

    fn end_modify(&mut self, alloc: Global, keep: bool) -> Result<(), Fault> {
        self.inner.end_modify(alloc, keep)
    }

    fn ledger(&self) -> Counts {
        self.inner.ledger()
    }
}
