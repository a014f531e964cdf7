//! A wrapper round a wrapper, that gives rows in another order.
ghost use Rattle.std.specs.Prelude.{◌≡◌, ◌<◌, ◌^◌, true, map, length, IfOk, IfErr, IfSome, IsSome, Some, None};
ghost use Rattle.std.specs.Ordering.{nat_cmp};
ghost use Rattle.std.specs.BTreeMap as tree;
ghost use Rattle.fdw_api.specs.Prelude.{IsIdle, row_of, IsOpen, Iterates, Breaks};
ghost use Rattle.probe_wrapper.specs.Shuffled.{turned, turns_of, reordered, box_of, is_unread};
ghost use Rattle.probe_wrapper.specs.Shuffled.{IsRead, TakesFirst, TurnsRows, ReadsOut, StopsOut};

use fdw_api::interface::{Counts, Fault, RowId, SourceRow, TableOption, Ticket, Wrapper};
use fdw_api::scan::{Agreement, Restriction, ScanSpec};
use fdw_api::wishes::{Agreement2, ScanSpec2, Wish, Wrapper2};
use med_value::{ColumnDef, Row, TableNo, Value};
use std::alloc::Global;
use std::collections::{BTreeMap, VecDeque};

/// A live scan: by how many places its rows are turned left, and those of them that are still to be given.
#[derive(Drop)]
pub(crate) struct TurnedScan {
    places: u64,
    /// None before the first row is asked for.
    rows: Option<VecDeque<SourceRow>>,
    broken: bool,
}

/// Whether no row of a scan was asked for yet.
fn is_unread(scans: &BTreeMap<u64, TurnedScan>, number: u64) -> bool
    ensures { result ≡ is_unread (turns_of scans.now number) }
{
    match scans.get(&number) {
        Some(scan) => scan.rows.is_none(),
        None => false,
    }
}

/// Marks a scan as good for `end` alone.
fn spoil(scans: &mut BTreeMap<u64, TurnedScan>, number: u64)
    requires { IsSome (tree.get nat_cmp scans.old number) }
    ensures { IfSome (tree.get nat_cmp scans.old number)
        (λ s. tree.Updates nat_cmp scans.old scans.new number (Some (record s { broken = true }))) }
{
    match scans.get_mut(&number) {
        Some(scan) => scan.broken = true,
        None => unreachable!(),
    }
}

/// Begins a scan again, turned by so many places.
fn restart(scans: &mut BTreeMap<u64, TurnedScan>, number: u64, places: u64)
    requires { IsSome (tree.get nat_cmp scans.old number) }
    ensures { IfSome (tree.get nat_cmp scans.old number)
        (λ s. tree.Updates nat_cmp scans.old scans.new number (Some (record s { places = places; rows = None }))) }
{
    match scans.get_mut(&number) {
        Some(scan) => {
            scan.places = places;
            scan.rows = None;
        }
        None => unreachable!(),
    }
}

/// Takes the first of the rows that wait.
fn take_first(scans: &mut BTreeMap<u64, TurnedScan>, number: u64) -> Option<SourceRow>
    requires { IsRead (turns_of scans.old number) }
    ensures { TakesFirst (turns_of scans.old) number result (turns_of scans.new) }
{
    match scans.get_mut(&number) {
        Some(scan) => match &mut scan.rows {
            Some(rows) => rows.pop_front(),
            None => unreachable!(),
        },
        None => unreachable!(),
    }
}

/// By how many places a scan is turned.
fn places_of(scans: &BTreeMap<u64, TurnedScan>, number: u64) -> u64
    requires { IsSome (tree.get nat_cmp scans.now number) }
    ensures { IfSome (tree.get nat_cmp scans.now number) (λ s. result ≡ s.places) }
{
    match scans.get(&number) {
        Some(scan) => scan.places,
        None => unreachable!(),
    }
}

/// Lets rows of a scan wait.
fn keep_rows(scans: &mut BTreeMap<u64, TurnedScan>, number: u64, rows: VecDeque<SourceRow>)
    requires { IsSome (tree.get nat_cmp scans.old number) }
    ensures { IfSome (tree.get nat_cmp scans.old number)
        (λ s. tree.Updates nat_cmp scans.old scans.new number (Some (record s { rows = Some rows }))) }
{
    match scans.get_mut(&number) {
        Some(scan) => scan.rows = Some(rows),
        None => unreachable!(),
    }
}

/// Turns rows left by so many places.
fn turn_left(rows: &mut Vec<SourceRow>, places: u64)
    ensures turned { rows.new.items ≡ turned places rows.old.items }
    ensures small { length rows.old.items < 2 ^ 64 }
{
    let count = rows.len();
    if count != 0 {
        rows.rotate_left((places % count as u64) as usize);
    }
}

/// Turns the rows of a scan, takes the first of them and lets the rest wait.
fn turn_rows(
    scans: &mut BTreeMap<u64, TurnedScan>,
    number: u64,
    rows: Vec<SourceRow>,
) -> Option<SourceRow>
    requires { IsSome (tree.get nat_cmp scans.old number) }
    ensures { TurnsRows (turns_of scans.old) number (map row_of rows.items) result (turns_of scans.new) }
{
    let mut rows = rows;
    turn_left(&mut rows, places_of(scans, number));
    let mut waiting = VecDeque::from_vec(rows);
    match waiting.pop_front() {
        None => None,
        Some(row) => {
            keep_rows(scans, number, waiting);
            Some(row)
        }
    }
}

/// Reads a scan to its end. The scan stays live.
fn read_out<W: Wrapper>(
    inner: &mut W,
    alloc: Global,
    ticket: &Ticket,
) -> Result<Vec<SourceRow>, Fault>
    requires { IsOpen (W.meaning inner.old) ticket.now.number }
    ensures ok { IfOk result (λ rows. ReadsOut (W.meaning inner.old) ticket.now.number (map row_of rows.items) (W.meaning inner.new)) }
    ensures err { IfErr result (λ fault. StopsOut (W.meaning inner.old) ticket.now.number fault (W.meaning inner.new)) }
{
    let mut rows = Vec::new(alloc);
    while let Some(row) = inner.iterate(alloc, ticket)? {
        rows.push(row)?;
    }
    Ok(rows)
}

/// Gives the rows of its inner wrapper in another order: its k-th begin or rescan, counted from 1 and k staying at 2^64 - 1, gives the
/// rows of the inner scan turned left k places. All else is as its inner wrapper does it, but that it counts itself the rows that it gives.
///
/// A scan is read from the inner wrapper whole when its first row is asked for.
#[derive(Drop)]
pub struct Shuffled<W> {
    inner: W,
    scans: BTreeMap<u64, TurnedScan>,
    turns: u64,
    pulled: u64,
}

impl<W: Wrapper> Shuffled<W> {
    /// A wrapper round this one, that has begun no scan yet. It takes no memory.
    pub fn new(alloc: Global, inner: W) -> Self
        ensures shows { reordered (W.meaning result.inner) (turns_of result.scans) result.pulled
            ≡ reordered (W.meaning inner) (λ q. None) 0 }
        ensures turns { result.turns ≡ 0 }
        ensures idle { IsIdle (W.meaning inner) → IsIdle (reordered (W.meaning result.inner) (turns_of result.scans) result.pulled) }
    {
        Shuffled {
            inner,
            scans: BTreeMap::new(alloc),
            turns: 0,
            pulled: 0,
        }
    }

    /// Reads a scan of the inner wrapper, turns its rows and gives the first.
    fn read_first(&mut self, alloc: Global, ticket: &Ticket) -> Result<Option<SourceRow>, Fault>
        requires open { IsOpen (box_of W.meaning self.old) ticket.now.number }
        requires unread { is_unread (turns_of self.old.scans ticket.now.number) ≡ true }
        ensures ok { IfOk result (λ row. Iterates (box_of W.meaning self.old) ticket.now.number row (box_of W.meaning self.new)) }
        ensures err { IfErr result (λ fault. Breaks (box_of W.meaning self.old) ticket.now.number fault (box_of W.meaning self.new)) }
        ensures turns { self.new.turns ≡ self.old.turns }
    {
        match read_out(&mut self.inner, alloc, ticket) {
            Err(fault) => {
                spoil(&mut self.scans, ticket.number);
                Err(fault)
            }
            Ok(rows) => match turn_rows(&mut self.scans, ticket.number, rows) {
                None => Ok(None),
                Some(row) => {
                    self.pulled = self.pulled.saturating_add(1);
                    Ok(Some(row))
                }
            },
        }
    }
}

impl<W: Wrapper> Wrapper for Shuffled<W> {
    ghost use Rattle.std.specs.Prelude.{OnErr};
    ghost use Rattle.med_value.specs.Datum.{datum, tuple};
    ghost use Rattle.fdw_api.specs.Prelude.{spec_of, column_of, option_form, Inserts, Updates, Deletes, scan_of, CanBind, Binds, RefusesBind, CanUnbind, Unbinds, CanBegin, Begins, RefusesBegin, CanRescan, Rescans, Ends, CanModify, Opens, RefusesModify, CanChange, Stages, RefusesChange, CanClose, Closes, RefusesClose};
    ghost use Rattle.probe_wrapper.specs.Entries.{Stays, Forgets};
    ghost use Rattle.probe_wrapper.specs.Shuffled.{IsTurned};

    ghost meaning = { λ b. reordered (W.meaning b.inner) (turns_of b.scans) b.pulled };

    fn bind(
        &mut self,
        alloc: Global,
        remote: &str,
        columns: &[ColumnDef],
        options: &[TableOption],
    ) -> Result<TableNo, Fault>
        requires { CanBind (box_of W.meaning self.old) remote.now (map column_of columns.now) (map option_form options.now) }
        ensures ok { IfOk result (λ t. Binds (box_of W.meaning self.old)
            remote.now (map column_of columns.now) (map option_form options.now) t.number (box_of W.meaning self.new)) }
        ensures err { IfErr result (λ fault. RefusesBind (box_of W.meaning self.old)
            remote.now (map column_of columns.now) (map option_form options.now) fault (box_of W.meaning self.new)) }
        ensures turns { self.new.turns ≡ self.old.turns }
    {
        self.inner.bind(alloc, remote, columns, options)
    }

    fn unbind(&mut self, t: TableNo)
        requires { CanUnbind (box_of W.meaning self.old) t.number }
        ensures unbound { Unbinds (box_of W.meaning self.old) t.number (box_of W.meaning self.new) }
        ensures turns { self.new.turns ≡ self.old.turns }
    {
        self.inner.unbind(t)
    }

    fn plan(
        &self,
        alloc: Global,
        t: TableNo,
        wanted: &[usize],
        offered: &[Restriction],
    ) -> Result<Agreement, Fault> {
        self.inner.plan(alloc, t, wanted, offered)
    }

    /// Begins a scan, that is to give the rows of the inner scan turned left by one place more than the scan begun before it.
    fn begin(
        &mut self,
        alloc: Global,
        t: TableNo,
        spec: &ScanSpec,
        params: &[Value],
    ) -> Result<Ticket, Fault>
        requires { CanBegin (box_of W.meaning self.old) t.number spec.now (map datum params.now) }
        ensures ok { IfOk result (λ ticket. Begins (box_of W.meaning self.old) t.number (spec_of spec.now) (map datum params.now)
            ticket.number (box_of W.meaning self.new)) }
        ensures err { IfErr result (λ fault. RefusesBegin fault (box_of W.meaning self.old) (box_of W.meaning self.new)) }
        ensures turned { IfOk result (λ ticket. IsTurned self.old.turns ticket.number (W.meaning self.new.inner)
            (box_of W.meaning self.new) self.new.turns) }
        ensures uncounted { OnErr result (self.new.turns ≡ self.old.turns) }
        ensures kept { OnErr result (Stays (turns_of self.old.scans) (turns_of self.new.scans)) }
    {
        let ticket = self.inner.begin(alloc, t, spec, params)?;
        let places = self.turns.saturating_add(1);
        let scan = TurnedScan {
            places,
            rows: None,
            broken: false,
        };
        match self.scans.insert(ticket.number, scan) {
            Ok(_) => {
                self.turns = places;
                Ok(ticket)
            }
            Err(_) => {
                self.inner.end(ticket);
                Err(Fault::NoMemory)
            }
        }
    }

    fn iterate(&mut self, alloc: Global, ticket: &Ticket) -> Result<Option<SourceRow>, Fault>
        requires { IsOpen (box_of W.meaning self.old) ticket.now.number }
        ensures ok { IfOk result (λ row. Iterates (box_of W.meaning self.old) ticket.now.number row (box_of W.meaning self.new)) }
        ensures err { IfErr result (λ fault. Breaks (box_of W.meaning self.old) ticket.now.number fault (box_of W.meaning self.new)) }
        ensures turns { self.new.turns ≡ self.old.turns }
    {
        if is_unread(&self.scans, ticket.number) {
            return self.read_first(alloc, ticket);
        }
        match take_first(&mut self.scans, ticket.number) {
            None => Ok(None),
            Some(row) => {
                self.pulled = self.pulled.saturating_add(1);
                Ok(Some(row))
            }
        }
    }

    /// Begins a scan again, with the rows of the inner scan turned left by one place more than the scan begun before it.
    fn rescan(&mut self, alloc: Global, ticket: &Ticket, params: &[Value]) -> Result<(), Fault>
        requires { CanRescan (box_of W.meaning self.old) ticket.now.number (map datum params.now) }
        ensures ok { IfOk result (λ _. Rescans (box_of W.meaning self.old) ticket.now.number (map datum params.now)
            (box_of W.meaning self.new)) }
        ensures err { IfErr result (λ fault. Breaks (box_of W.meaning self.old) ticket.now.number fault (box_of W.meaning self.new)) }
        ensures turned { IfOk result (λ _. IsTurned self.old.turns ticket.now.number (W.meaning self.new.inner)
            (box_of W.meaning self.new) self.new.turns) }
        ensures uncounted { OnErr result (self.new.turns ≡ self.old.turns) }
    {
        match self.inner.rescan(alloc, ticket, params) {
            Err(fault) => Err(fault),
            Ok(()) => {
                self.turns = self.turns.saturating_add(1);
                restart(&mut self.scans, ticket.number, self.turns);
                Ok(())
            }
        }
    }

    fn end(&mut self, ticket: Ticket)
        requires { IsSome (scan_of (box_of W.meaning self.old) ticket.number) }
        ensures ended { Ends (box_of W.meaning self.old) ticket.number (box_of W.meaning self.new) }
        ensures forgotten { Forgets (turns_of self.old.scans) ticket.number (turns_of self.new.scans) }
        ensures turns { self.new.turns ≡ self.old.turns }
    {
        let _ = self.scans.remove(&ticket.number);
        self.inner.end(ticket)
    }

    fn begin_modify(&mut self, alloc: Global, t: TableNo) -> Result<(), Fault>
        requires { CanModify (box_of W.meaning self.old) t.number }
        ensures ok { IfOk result (λ _. Opens (box_of W.meaning self.old) t.number (box_of W.meaning self.new)) }
        ensures err { IfErr result (λ fault. RefusesModify fault (box_of W.meaning self.old) (box_of W.meaning self.new)) }
        ensures turns { self.new.turns ≡ self.old.turns }
    {
        self.inner.begin_modify(alloc, t)
    }

    fn insert(&mut self, alloc: Global, row: Row) -> Result<(), Fault>
        requires { CanChange (box_of W.meaning self.old) (Inserts (tuple row)) }
        ensures ok { IfOk result (λ _. Stages (box_of W.meaning self.old) (Inserts (tuple row)) (box_of W.meaning self.new)) }
        ensures err { IfErr result (λ fault. RefusesChange (box_of W.meaning self.old) (Inserts (tuple row))
            fault (box_of W.meaning self.new)) }
        ensures turns { self.new.turns ≡ self.old.turns }
    {
        self.inner.insert(alloc, row)
    }

    fn update(&mut self, alloc: Global, id: RowId, row: Row) -> Result<(), Fault>
        requires { CanChange (box_of W.meaning self.old) (Updates id.number (tuple row)) }
        ensures ok { IfOk result (λ _. Stages (box_of W.meaning self.old) (Updates id.number (tuple row)) (box_of W.meaning self.new)) }
        ensures err { IfErr result (λ fault. RefusesChange (box_of W.meaning self.old) (Updates id.number (tuple row))
            fault (box_of W.meaning self.new)) }
        ensures turns { self.new.turns ≡ self.old.turns }
    {
        self.inner.update(alloc, id, row)
    }

    fn delete(&mut self, alloc: Global, id: RowId) -> Result<(), Fault>
        requires { CanChange (box_of W.meaning self.old) (Deletes id.number) }
        ensures ok { IfOk result (λ _. Stages (box_of W.meaning self.old) (Deletes id.number) (box_of W.meaning self.new)) }
        ensures err { IfErr result (λ fault. RefusesChange (box_of W.meaning self.old) (Deletes id.number)
            fault (box_of W.meaning self.new)) }
        ensures turns { self.new.turns ≡ self.old.turns }
    {
        self.inner.delete(alloc, id)
    }

    fn end_modify(&mut self, alloc: Global, keep: bool) -> Result<(), Fault>
        requires { CanClose (box_of W.meaning self.old) keep }
        ensures ok { IfOk result (λ _. Closes (box_of W.meaning self.old) keep (box_of W.meaning self.new)) }
        ensures err { IfErr result (λ fault. RefusesClose (box_of W.meaning self.old) keep fault (box_of W.meaning self.new)) }
        ensures turns { self.new.turns ≡ self.old.turns }
    {
        self.inner.end_modify(alloc, keep)
    }

    fn ledger(&self) -> Counts {
        Counts {
            pulled: self.pulled,
            ..self.inner.ledger()
        }
    }
}

impl<W: Wrapper> Wrapper2 for Shuffled<W> {
    /// Promises no order and no limit.
    fn plan2(
        &self,
        alloc: Global,
        t: TableNo,
        wanted: &[usize],
        offered: &[Restriction],
        _wish: &Wish,
    ) -> Result<Agreement2, Fault> {
        let base = self.plan(alloc, t, wanted, offered)?;
        Ok(Agreement2 {
            base,
            ordered: false,
            limited: false,
        })
    }

    fn begin2(
        &mut self,
        alloc: Global,
        t: TableNo,
        spec: &ScanSpec2,
        params: &[Value],
    ) -> Result<Ticket, Fault> {
        self.begin(alloc, t, &spec.base, params)
    }
}
