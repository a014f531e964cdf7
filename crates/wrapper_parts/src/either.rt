//! A source that is of one kind or of another.
ghost use Rattle.wrapper_parts.specs.Either.{box_of_either};

use fdw_api::interface::{Counts, Fault, RowId, SourceRow, TableOption, Ticket, Wrapper};
use fdw_api::scan::{Agreement, Restriction, ScanSpec};
use fdw_api::wishes::{Agreement2, ScanSpec2, Wish, Wrapper2};
use med_value::{ColumnDef, Row, TableNo, Value};
use std::alloc::Global;

/// A wrapper of one of two kinds: what it holds is one of the two, and what it does is what that one does.
///
/// Sources of more kinds than two are one of a kind and a wrapper of the others.
#[derive(Drop)]
pub enum EitherSource<A, B> {
    /// It is of the first kind.
    First(A),
    /// It is of the second kind.
    Second(B),
}

impl<A: Wrapper, B: Wrapper> Wrapper for EitherSource<A, B> {
    ghost meaning = { box_of_either A.meaning B.meaning };

    fn bind(
        &mut self,
        alloc: Global,
        remote: &str,
        columns: &[ColumnDef],
        options: &[TableOption],
    ) -> Result<TableNo, Fault> {
        match self {
            EitherSource::First(inner) => inner.bind(alloc, remote, columns, options),
            EitherSource::Second(inner) => inner.bind(alloc, remote, columns, options),
        }
    }

    fn unbind(&mut self, t: TableNo) {
        match self {
            EitherSource::First(inner) => inner.unbind(t),
            EitherSource::Second(inner) => inner.unbind(t),
        }
    }

    fn plan(
        &self,
        alloc: Global,
        t: TableNo,
        wanted: &[usize],
        offered: &[Restriction],
    ) -> Result<Agreement, Fault> {
        match self {
            EitherSource::First(inner) => inner.plan(alloc, t, wanted, offered),
            EitherSource::Second(inner) => inner.plan(alloc, t, wanted, offered),
        }
    }

    fn begin(
        &mut self,
        alloc: Global,
        t: TableNo,
        spec: &ScanSpec,
        params: &[Value],
    ) -> Result<Ticket, Fault> {
        match self {
            EitherSource::First(inner) => inner.begin(alloc, t, spec, params),
            EitherSource::Second(inner) => inner.begin(alloc, t, spec, params),
        }
    }

    fn iterate(&mut self, alloc: Global, ticket: &Ticket) -> Result<Option<SourceRow>, Fault> {
        match self {
            EitherSource::First(inner) => inner.iterate(alloc, ticket),
            EitherSource::Second(inner) => inner.iterate(alloc, ticket),
        }
    }

    fn rescan(&mut self, alloc: Global, ticket: &Ticket, params: &[Value]) -> Result<(), Fault> {
        match self {
            EitherSource::First(inner) => inner.rescan(alloc, ticket, params),
            EitherSource::Second(inner) => inner.rescan(alloc, ticket, params),
        }
    }

    fn end(&mut self, ticket: Ticket) {
        match self {
            EitherSource::First(inner) => inner.end(ticket),
            EitherSource::Second(inner) => inner.end(ticket),
        }
    }

    fn begin_modify(&mut self, alloc: Global, t: TableNo) -> Result<(), Fault> {
        match self {
            EitherSource::First(inner) => inner.begin_modify(alloc, t),
            EitherSource::Second(inner) => inner.begin_modify(alloc, t),
        }
    }

    fn insert(&mut self, alloc: Global, row: Row) -> Result<(), Fault> {
        match self {
            EitherSource::First(inner) => inner.insert(alloc, row),
            EitherSource::Second(inner) => inner.insert(alloc, row),
        }
    }

    fn update(&mut self, alloc: Global, id: RowId, row: Row) -> Result<(), Fault> {
        match self {
            EitherSource::First(inner) => inner.update(alloc, id, row),
            EitherSource::Second(inner) => inner.update(alloc, id, row),
        }
    }

    fn delete(&mut self, alloc: Global, id: RowId) -> Result<(), Fault> {
        match self {
            EitherSource::First(inner) => inner.delete(alloc, id),
            EitherSource::Second(inner) => inner.delete(alloc, id),
        }
    }

    fn end_modify(&mut self, alloc: Global, keep: bool) -> Result<(), Fault> {
        match self {
            EitherSource::First(inner) => inner.end_modify(alloc, keep),
            EitherSource::Second(inner) => inner.end_modify(alloc, keep),
        }
    }

    fn ledger(&self) -> Counts {
        match self {
            EitherSource::First(inner) => inner.ledger(),
            EitherSource::Second(inner) => inner.ledger(),
        }
    }
}

impl<A: Wrapper2, B: Wrapper2> Wrapper2 for EitherSource<A, B> {
    fn plan2(
        &self,
        alloc: Global,
        t: TableNo,
        wanted: &[usize],
        offered: &[Restriction],
        wish: &Wish,
    ) -> Result<Agreement2, Fault> {
        match self {
            EitherSource::First(inner) => inner.plan2(alloc, t, wanted, offered, wish),
            EitherSource::Second(inner) => inner.plan2(alloc, t, wanted, offered, wish),
        }
    }

    fn begin2(
        &mut self,
        alloc: Global,
        t: TableNo,
        spec: &ScanSpec2,
        params: &[Value],
    ) -> Result<Ticket, Fault> {
        match self {
            EitherSource::First(inner) => inner.begin2(alloc, t, spec, params),
            EitherSource::Second(inner) => inner.begin2(alloc, t, spec, params),
        }
    }
}
