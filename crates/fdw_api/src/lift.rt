//! A wrapper of version 1 as one of version 2.
ghost use Rattle.std.specs.Prelude.{◌≡◌};
ghost use Rattle.fdw_api.specs.Lifting.{lifted};

use crate::interface::{Counts, Fault, RowId, SourceRow, TableOption, Ticket, Wrapper};
use crate::scan::{Agreement, Restriction, ScanSpec};
use crate::wishes::{Agreement2, ScanSpec2, Wish, Wrapper2};
use med_value::{ColumnDef, Row, TableNo, Value};
use std::alloc::Global;

/// Does what its inner wrapper does, and promises no order and no limit of a scan's rows.
#[derive(Drop)]
pub struct Lift<W> {
    inner: W,
}

impl<W: Wrapper> Lift<W> {
    /// This wrapper of version 1 as one of version 2. It takes no memory.
    pub fn new(inner: W) -> Self
        ensures { result.inner ≡ inner }
    {
        Lift { inner }
    }
}

impl<W: Wrapper> Wrapper for Lift<W> {
    ghost meaning = { λ b. lifted (W.meaning b.inner) };

    fn bind(
        &mut self,
        alloc: Global,
        remote: &str,
        columns: &[ColumnDef],
        options: &[TableOption],
    ) -> Result<TableNo, Fault> {
        self.inner.bind(alloc, remote, columns, options)
    }

    fn unbind(&mut self, t: TableNo) {
        self.inner.unbind(t)
    }

    fn plan(
        &self,
        alloc: Global,
        t: TableNo,
        wanted: &[usize],
        offered: &[Restriction],
    ) -> Result<Agreement, Fault> {
        self.inner.plan(alloc, t, wanted, offered)
    }

    fn begin(
        &mut self,
        alloc: Global,
        t: TableNo,
        spec: &ScanSpec,
        params: &[Value],
    ) -> Result<Ticket, Fault> {
        self.inner.begin(alloc, t, spec, params)
    }

    fn iterate(&mut self, alloc: Global, ticket: &Ticket) -> Result<Option<SourceRow>, Fault> {
        self.inner.iterate(alloc, ticket)
    }

    fn rescan(&mut self, alloc: Global, ticket: &Ticket, params: &[Value]) -> Result<(), Fault> {
        self.inner.rescan(alloc, ticket, params)
    }

    fn end(&mut self, ticket: Ticket) {
        self.inner.end(ticket)
    }

    fn begin_modify(&mut self, alloc: Global, t: TableNo) -> Result<(), Fault> {
        self.inner.begin_modify(alloc, t)
    }

    fn insert(&mut self, alloc: Global, row: Row) -> Result<(), Fault> {
        self.inner.insert(alloc, row)
    }

    fn update(&mut self, alloc: Global, id: RowId, row: Row) -> Result<(), Fault> {
        self.inner.update(alloc, id, row)
    }

    fn delete(&mut self, alloc: Global, id: RowId) -> Result<(), Fault> {
        self.inner.delete(alloc, id)
    }

    fn end_modify(&mut self, alloc: Global, keep: bool) -> Result<(), Fault> {
        self.inner.end_modify(alloc, keep)
    }

    fn ledger(&self) -> Counts {
        self.inner.ledger()
    }
}

impl<W: Wrapper> Wrapper2 for Lift<W> {
    fn plan2(
        &self,
        alloc: Global,
        t: TableNo,
        wanted: &[usize],
        offered: &[Restriction],
        _wish: &Wish,
    ) -> Result<Agreement2, Fault> {
        let base = self.inner.plan(alloc, t, wanted, offered)?;
        Ok(Agreement2 {
            base,
            ordered: false,
            limited: false,
        })
    }

    fn begin2(
        &mut self,
        alloc: Global,
        t: TableNo,
        spec: &ScanSpec2,
        params: &[Value],
    ) -> Result<Ticket, Fault> {
        self.inner.begin(alloc, t, &spec.base, params)
    }
}
