//! A wrapper round a wrapper, that counts rows.
ghost use Rattle.std.specs.Prelude.{◌≡◌};
ghost use Rattle.probe_wrapper.specs.Counting.{counted};

use fdw_api::interface::{Counts, Fault, RowId, SourceRow, TableOption, Ticket, Wrapper};
use fdw_api::scan::{Agreement, Restriction, ScanSpec};
use fdw_api::wishes::{Agreement2, ScanSpec2, Wish, Wrapper2};
use med_value::{ColumnDef, Row, TableNo, Value};
use std::alloc::Global;

/// Does what its inner wrapper does, and counts itself the rows that it gives.
#[derive(Drop)]
pub struct Counting<W> {
    inner: W,
    pulled: u64,
}

impl<W: Wrapper> Counting<W> {
    /// A wrapper round this one, that has given no row yet.
    pub fn new(inner: W) -> Self
        ensures { counted (W.meaning result.inner) result.pulled ≡ counted (W.meaning inner) 0 }
    {
        Counting { inner, pulled: 0 }
    }
}

impl<W: Wrapper> Wrapper for Counting<W> {
    ghost meaning = { λ b. counted (W.meaning b.inner) b.pulled };

    fn bind(
        &mut self,
        alloc: Global,
        remote: &str,
        columns: &[ColumnDef],
        options: &[TableOption],
    ) -> Result<TableNo, Fault> {
        self.inner.bind(alloc, remote, columns, options)
    }

    fn unbind(&mut self, t: TableNo) {
        self.inner.unbind(t)
    }

    fn plan(
        &self,
        alloc: Global,
        t: TableNo,
        wanted: &[usize],
        offered: &[Restriction],
    ) -> Result<Agreement, Fault> {
        self.inner.plan(alloc, t, wanted, offered)
    }

    fn begin(
        &mut self,
        alloc: Global,
        t: TableNo,
        spec: &ScanSpec,
        params: &[Value],
    ) -> Result<Ticket, Fault> {
        self.inner.begin(alloc, t, spec, params)
    }

    fn iterate(&mut self, alloc: Global, ticket: &Ticket) -> Result<Option<SourceRow>, Fault> {
        let row = self.inner.iterate(alloc, ticket)?;
        if row.is_some() {
            self.pulled = self.pulled.saturating_add(1);
        }
        Ok(row)
    }

    fn rescan(&mut self, alloc: Global, ticket: &Ticket, params: &[Value]) -> Result<(), Fault> {
        self.inner.rescan(alloc, ticket, params)
    }

    fn end(&mut self, ticket: Ticket) {
        self.inner.end(ticket)
    }

    fn begin_modify(&mut self, alloc: Global, t: TableNo) -> Result<(), Fault> {
        self.inner.begin_modify(alloc, t)
    }

    fn insert(&mut self, alloc: Global, row: Row) -> Result<(), Fault> {
        self.inner.insert(alloc, row)
    }

    fn update(&mut self, alloc: Global, id: RowId, row: Row) -> Result<(), Fault> {
        self.inner.update(alloc, id, row)
    }

    fn delete(&mut self, alloc: Global, id: RowId) -> Result<(), Fault> {
        self.inner.delete(alloc, id)
    }

    fn end_modify(&mut self, alloc: Global, keep: bool) -> Result<(), Fault> {
        self.inner.end_modify(alloc, keep)
    }

    fn ledger(&self) -> Counts {
        Counts {
            pulled: self.pulled,
            ..self.inner.ledger()
        }
    }
}

impl<W: Wrapper2> Wrapper2 for Counting<W> {
    fn plan2(
        &self,
        alloc: Global,
        t: TableNo,
        wanted: &[usize],
        offered: &[Restriction],
        wish: &Wish,
    ) -> Result<Agreement2, Fault> {
        self.inner.plan2(alloc, t, wanted, offered, wish)
    }

    fn begin2(
        &mut self,
        alloc: Global,
        t: TableNo,
        spec: &ScanSpec2,
        params: &[Value],
    ) -> Result<Ticket, Fault> {
        self.inner.begin2(alloc, t, spec, params)
    }
}
