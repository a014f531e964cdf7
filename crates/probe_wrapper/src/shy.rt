//! A wrapper round a wrapper, that takes nothing over.
ghost use Rattle.std.specs.Prelude.{◌≡◌, [], true, IfOk, IfErr, IfSome, IsSome, Some, None, map};
ghost use Rattle.std.specs.Ordering.{nat_cmp};
ghost use Rattle.std.specs.BTreeMap as tree;
ghost use Rattle.med_value.specs.Datum.{datum};
ghost use Rattle.fdw_api.specs.Prelude.{spec_of, plain_spec, IsIdle};
ghost use Rattle.probe_wrapper.specs.Shy.{shied, asked_form, asked_of, new_ask};

use fdw_api::interface::{Counts, Fault, RowId, SourceRow, TableOption, Ticket, Wrapper};
use fdw_api::scan::{Agree, Agreement, Restriction, ScanSpec, copy_values};
use fdw_api::wishes::{Agreement2, ScanSpec2, Wish, Wrapper2};
use med_value::{ColumnDef, NoMemory, Row, TableNo, Value};
use std::alloc::Global;
use std::collections::BTreeMap;

/// A live scan as it was asked for.
#[derive(Drop)]
pub(crate) struct AskedScan {
    spec: ScanSpec,
    params: Vec<Value>,
    broken: bool,
}

/// Notes what is asked for.
pub(crate) fn note(alloc: Global, spec: &ScanSpec, params: &[Value]) -> Result<AskedScan, NoMemory>
    ensures { IfOk result (λ a. asked_form a ≡ new_ask (spec_of spec.now) (map datum params.now)) }
{
    Ok(AskedScan {
        spec: spec.copy(alloc)?,
        params: copy_values(alloc, params)?,
        broken: false,
    })
}

/// A scan of whole rows of which the same columns are wanted, and that offers nothing.
pub(crate) fn bare(alloc: Global, spec: &ScanSpec) -> Result<ScanSpec, NoMemory>
    ensures { IfOk result (λ s. spec_of s ≡ plain_spec spec.now.wanted.items []) }
{
    Ok(ScanSpec {
        wanted: spec.wanted.clone()?,
        ..ScanSpec::plain(alloc)
    })
}

/// Marks a scan as good for `end` alone.
pub(crate) fn spoil(scans: &mut BTreeMap<u64, AskedScan>, number: u64)
    requires { IsSome (tree.get nat_cmp scans.old number) }
    ensures { IfSome (tree.get nat_cmp scans.old number)
        (λ s. tree.Updates nat_cmp scans.old scans.new number (Some (record s { broken = true }))) }
{
    match scans.get_mut(&number) {
        Some(scan) => scan.broken = true,
        None => unreachable!(),
    }
}

/// Notes that a scan began again with these parameters.
pub(crate) fn ask_again(scans: &mut BTreeMap<u64, AskedScan>, number: u64, params: Vec<Value>)
    requires { IsSome (tree.get nat_cmp scans.old number) }
    ensures { IfSome (tree.get nat_cmp scans.old number)
        (λ s. tree.Updates nat_cmp scans.old scans.new number (Some (record s { params = params }))) }
{
    match scans.get_mut(&number) {
        Some(scan) => scan.params = params,
        None => unreachable!(),
    }
}

/// Answers Ignored to every restriction and gives whole rows. Its inner wrapper is offered nothing: neither restrictions nor parameters.
#[derive(Drop)]
pub struct Shy<W> {
    inner: W,
    scans: BTreeMap<u64, AskedScan>,
}

impl<W: Wrapper> Shy<W> {
    /// A wrapper round this one, that has begun no scan yet. It takes no memory.
    pub fn new(alloc: Global, inner: W) -> Self
        ensures shows { shied (W.meaning result.inner) (asked_of result.scans) ≡ shied (W.meaning inner) (λ q. None) }
        ensures idle { IsIdle (W.meaning inner) → IsIdle (shied (W.meaning result.inner) (asked_of result.scans)) }
    {
        Shy {
            inner,
            scans: BTreeMap::new(alloc),
        }
    }
}

impl<W: Wrapper> Wrapper for Shy<W> {
    ghost use Rattle.std.specs.Prelude.{OnErr};
    ghost use Rattle.fdw_api.specs.Prelude.{scan_of, CanBegin, Begins, RefusesBegin, CanRescan, Rescans, Breaks, Ends};
    ghost use Rattle.probe_wrapper.specs.Entries.{Stays, Forgets};
    ghost use Rattle.probe_wrapper.specs.Shy.{box_of, OffersNothing, Wants};

    ghost meaning = { λ b. shied (W.meaning b.inner) (asked_of b.scans) };

    fn bind(
        &mut self,
        alloc: Global,
        remote: &str,
        columns: &[ColumnDef],
        options: &[TableOption],
    ) -> Result<TableNo, Fault> {
        self.inner.bind(alloc, remote, columns, options)
    }

    fn unbind(&mut self, t: TableNo) {
        self.inner.unbind(t)
    }

    fn plan(
        &self,
        alloc: Global,
        _t: TableNo,
        _wanted: &[usize],
        offered: &[Restriction],
    ) -> Result<Agreement, Fault> {
        let answers = vec![in alloc; Agree::Ignored; offered.len()]?;
        Ok(Agreement {
            answers,
            narrow: false,
        })
    }

    /// Begins a scan, for which the inner wrapper is offered nothing.
    fn begin(
        &mut self,
        alloc: Global,
        t: TableNo,
        spec: &ScanSpec,
        params: &[Value],
    ) -> Result<Ticket, Fault>
        requires { CanBegin (box_of W.meaning self.old) t.number spec.now (map datum params.now) }
        ensures ok { IfOk result (λ ticket. Begins (box_of W.meaning self.old) t.number (spec_of spec.now) (map datum params.now)
            ticket.number (box_of W.meaning self.new)) }
        ensures err { IfErr result (λ fault. RefusesBegin fault (box_of W.meaning self.old) (box_of W.meaning self.new)) }
        ensures bare { IfOk result (λ ticket. OffersNothing (W.meaning self.new.inner) ticket.number) }
        ensures columns { IfOk result (λ ticket. Wants (W.meaning self.new.inner) ticket.number spec.now.wanted.items) }
        ensures kept { OnErr result (Stays (asked_of self.old.scans) (asked_of self.new.scans)) }
    {
        let scan = note(alloc, spec, params)?;
        let bare = bare(alloc, spec)?;
        let ticket = self.inner.begin(alloc, t, &bare, &[])?;
        match self.scans.insert(ticket.number, scan) {
            Ok(_) => Ok(ticket),
            Err(_) => {
                self.inner.end(ticket);
                Err(Fault::NoMemory)
            }
        }
    }

    fn iterate(&mut self, alloc: Global, ticket: &Ticket) -> Result<Option<SourceRow>, Fault> {
        self.inner.iterate(alloc, ticket)
    }

    /// Begins a scan again, for which the inner wrapper is given no parameter.
    fn rescan(&mut self, alloc: Global, ticket: &Ticket, params: &[Value]) -> Result<(), Fault>
        requires { CanRescan (box_of W.meaning self.old) ticket.now.number (map datum params.now) }
        ensures ok { IfOk result (λ _. Rescans (box_of W.meaning self.old) ticket.now.number (map datum params.now)
            (box_of W.meaning self.new)) }
        ensures err { IfErr result (λ fault. Breaks (box_of W.meaning self.old) ticket.now.number fault (box_of W.meaning self.new)) }
        ensures bare { IfOk result (λ _. OffersNothing (W.meaning self.new.inner) ticket.now.number) }
    {
        match copy_values(alloc, params) {
            Err(_) => {
                spoil(&mut self.scans, ticket.number);
                Err(Fault::NoMemory)
            }
            Ok(params) => match self.inner.rescan(alloc, ticket, &[]) {
                Err(fault) => Err(fault),
                Ok(()) => {
                    ask_again(&mut self.scans, ticket.number, params);
                    Ok(())
                }
            },
        }
    }

    fn end(&mut self, ticket: Ticket)
        requires { IsSome (scan_of (box_of W.meaning self.old) ticket.number) }
        ensures ended { Ends (box_of W.meaning self.old) ticket.number (box_of W.meaning self.new) }
        ensures forgotten { Forgets (asked_of self.old.scans) ticket.number (asked_of self.new.scans) }
    {
        let _ = self.scans.remove(&ticket.number);
        self.inner.end(ticket)
    }

    fn begin_modify(&mut self, alloc: Global, t: TableNo) -> Result<(), Fault> {
        self.inner.begin_modify(alloc, t)
    }

    fn insert(&mut self, alloc: Global, row: Row) -> Result<(), Fault> {
        self.inner.insert(alloc, row)
    }

    fn update(&mut self, alloc: Global, id: RowId, row: Row) -> Result<(), Fault> {
        self.inner.update(alloc, id, row)
    }

    fn delete(&mut self, alloc: Global, id: RowId) -> Result<(), Fault> {
        self.inner.delete(alloc, id)
    }

    fn end_modify(&mut self, alloc: Global, keep: bool) -> Result<(), Fault> {
        self.inner.end_modify(alloc, keep)
    }

    fn ledger(&self) -> Counts {
        self.inner.ledger()
    }
}

impl<W: Wrapper> Wrapper2 for Shy<W> {
    /// Promises no order and no limit.
    fn plan2(
        &self,
        alloc: Global,
        t: TableNo,
        wanted: &[usize],
        offered: &[Restriction],
        _wish: &Wish,
    ) -> Result<Agreement2, Fault> {
        let base = self.plan(alloc, t, wanted, offered)?;
        Ok(Agreement2 {
            base,
            ordered: false,
            limited: false,
        })
    }

    fn begin2(
        &mut self,
        alloc: Global,
        t: TableNo,
        spec: &ScanSpec2,
        params: &[Value],
    ) -> Result<Ticket, Fault> {
        self.begin(alloc, t, &spec.base, params)
    }
}
