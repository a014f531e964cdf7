//! A wrapper round a wrapper, that fails once.
ghost use Rattle.std.specs.Prelude.{◌≡◌};
ghost use Rattle.probe_wrapper.specs.Failing.{failed, is_due, after_call, has_come, past_scan, past_write};
ghost use Rattle.probe_wrapper.specs.declared.failing.Failure.TheVariants.{Before};

use fdw_api::interface::{Counts, Fault, RowId, SourceRow, TableOption, Ticket, Wrapper};
use fdw_api::scan::{Agreement, Restriction, ScanSpec};
use fdw_api::wishes::{Agreement2, ScanSpec2, Wish, Wrapper2};
use med_value::{ColumnDef, Row, TableNo, Value};
use std::alloc::Global;

/// How far the failure is.
#[derive(Clone, Copy)]
pub(crate) enum Failure {
    /// It comes after this many counted calls.
    Before(u64),
    /// It broke the scan of this ticket.
    Scan(u64),
    /// It broke the write that is under way.
    Write,
    /// It is over, and what it broke stands no more.
    Past,
}

impl Failure {
    /// Counts a call, and tells whether it is the one that fails.
    fn counts(&mut self) -> bool
        ensures due { result ≡ is_due self.old }
        ensures counted { self.new ≡ after_call self.old }
    {
        match self {
            Failure::Before(left) => {
                let due = *left == 0;
                *left = left.saturating_sub(1);
                due
            }
            Failure::Scan(_) | Failure::Write | Failure::Past => false,
        }
    }

    /// Whether the call that fails has come.
    fn has_come(&self) -> bool
        ensures { result ≡ has_come self.now }
    {
        match self {
            Failure::Before(_) => false,
            Failure::Scan(_) | Failure::Write | Failure::Past => true,
        }
    }

    /// The scan of this ticket is not the one that was broken any more.
    fn forget_scan(&mut self, number: u64)
        ensures { self.new ≡ past_scan self.old number }
    {
        if let Failure::Scan(broken) = *self {
            if number == broken {
                *self = Failure::Past;
            }
        }
    }

    /// No write that was broken is under way any more.
    fn forget_write(&mut self)
        ensures { self.new ≡ past_write self.old }
    {
        if let Failure::Write = *self {
            *self = Failure::Past;
        }
    }
}

/// Does what its inner wrapper does, but for one call, which answers `Fault::Source`.
///
/// Counted are the calls that may fail: `bind`, `begin`, `begin2`, `iterate`, `rescan`, `begin_modify`, the three changes and
/// `end_modify(true)`, but not `plan` and `plan2`. The call that fails does not reach the inner wrapper; if it is `end_modify(true)`, the
/// inner write is given up.
#[derive(Drop)]
pub struct Failing<W> {
    inner: W,
    failure: Failure,
}

impl<W: Wrapper> Failing<W> {
    /// A wrapper round this one, that passes this many counted calls, fails at the next, and then passes all.
    pub fn new(inner: W, passes: u64) -> Self
        ensures shows { failed (W.meaning result.inner) result.failure ≡ failed (W.meaning inner) (Before passes) }
        ensures passes { result.failure ≡ Before passes }
    {
        Failing {
            inner,
            failure: Failure::Before(passes),
        }
    }
}

impl<W: Wrapper> Wrapper for Failing<W> {
    ghost use Rattle.std.specs.Prelude.{true, false, map, IfOk, IfErr, IsSome};
    ghost use Rattle.med_value.specs.Datum.{datum, tuple};
    ghost use Rattle.fdw_api.specs.Prelude.{spec_of, column_of, option_form, Inserts, Updates, Deletes, scan_of, CanBind, Binds, RefusesBind, CanUnbind, Unbinds, CanBegin, Begins, RefusesBegin, IsOpen, Iterates, Breaks, CanRescan, Rescans, Ends, CanModify, Opens, RefusesModify, CanChange, Stages, RefusesChange, CanClose, Closes, RefusesClose};
    ghost use Rattle.probe_wrapper.specs.Failing.{box_of, to_pass, CountsCall};

    ghost meaning = { λ b. failed (W.meaning b.inner) b.failure };

    fn bind(
        &mut self,
        alloc: Global,
        remote: &str,
        columns: &[ColumnDef],
        options: &[TableOption],
    ) -> Result<TableNo, Fault>
        requires { CanBind (box_of W.meaning self.old) remote.now (map column_of columns.now) (map option_form options.now) }
        ensures ok { IfOk result (λ t. Binds (box_of W.meaning self.old)
            remote.now (map column_of columns.now) (map option_form options.now) t.number (box_of W.meaning self.new)) }
        ensures err { IfErr result (λ fault. RefusesBind (box_of W.meaning self.old)
            remote.now (map column_of columns.now) (map option_form options.now) fault (box_of W.meaning self.new)) }
        ensures counted { CountsCall (to_pass self.old.failure) result (to_pass self.new.failure) }
    {
        if self.failure.counts() {
            self.failure = Failure::Past;
            return Err(Fault::Source);
        }
        self.inner.bind(alloc, remote, columns, options)
    }

    fn unbind(&mut self, t: TableNo)
        requires { CanUnbind (box_of W.meaning self.old) t.number }
        ensures unbound { Unbinds (box_of W.meaning self.old) t.number (box_of W.meaning self.new) }
        ensures uncounted { to_pass self.new.failure ≡ to_pass self.old.failure }
    {
        self.inner.unbind(t)
    }

    fn plan(
        &self,
        alloc: Global,
        t: TableNo,
        wanted: &[usize],
        offered: &[Restriction],
    ) -> Result<Agreement, Fault> {
        self.inner.plan(alloc, t, wanted, offered)
    }

    fn begin(
        &mut self,
        alloc: Global,
        t: TableNo,
        spec: &ScanSpec,
        params: &[Value],
    ) -> Result<Ticket, Fault>
        requires { CanBegin (box_of W.meaning self.old) t.number spec.now (map datum params.now) }
        ensures ok { IfOk result (λ ticket. Begins (box_of W.meaning self.old) t.number (spec_of spec.now) (map datum params.now)
            ticket.number (box_of W.meaning self.new)) }
        ensures err { IfErr result (λ fault. RefusesBegin fault (box_of W.meaning self.old) (box_of W.meaning self.new)) }
        ensures counted { CountsCall (to_pass self.old.failure) result (to_pass self.new.failure) }
    {
        if self.failure.counts() {
            // The inner wrapper begins no scan.
            self.failure = Failure::Past;
            return Err(Fault::Source);
        }
        match self.inner.begin(alloc, t, spec, params) {
            Ok(ticket) => {
                self.failure.forget_scan(ticket.number);
                Ok(ticket)
            }
            Err(fault) => Err(fault),
        }
    }

    fn iterate(&mut self, alloc: Global, ticket: &Ticket) -> Result<Option<SourceRow>, Fault>
        requires { IsOpen (box_of W.meaning self.old) ticket.now.number }
        ensures ok { IfOk result (λ row. Iterates (box_of W.meaning self.old) ticket.now.number row (box_of W.meaning self.new)) }
        ensures err { IfErr result (λ fault. Breaks (box_of W.meaning self.old) ticket.now.number fault (box_of W.meaning self.new)) }
        ensures counted { CountsCall (to_pass self.old.failure) result (to_pass self.new.failure) }
    {
        if self.failure.counts() {
            self.failure = Failure::Scan(ticket.number);
            return Err(Fault::Source);
        }
        self.inner.iterate(alloc, ticket)
    }

    fn rescan(&mut self, alloc: Global, ticket: &Ticket, params: &[Value]) -> Result<(), Fault>
        requires { CanRescan (box_of W.meaning self.old) ticket.now.number (map datum params.now) }
        ensures ok { IfOk result (λ _. Rescans (box_of W.meaning self.old) ticket.now.number (map datum params.now)
            (box_of W.meaning self.new)) }
        ensures err { IfErr result (λ fault. Breaks (box_of W.meaning self.old) ticket.now.number fault (box_of W.meaning self.new)) }
        ensures counted { CountsCall (to_pass self.old.failure) result (to_pass self.new.failure) }
    {
        if self.failure.counts() {
            self.failure = Failure::Scan(ticket.number);
            return Err(Fault::Source);
        }
        self.inner.rescan(alloc, ticket, params)
    }

    fn end(&mut self, ticket: Ticket)
        requires { IsSome (scan_of (box_of W.meaning self.old) ticket.number) }
        ensures ended { Ends (box_of W.meaning self.old) ticket.number (box_of W.meaning self.new) }
        ensures uncounted { to_pass self.new.failure ≡ to_pass self.old.failure }
    {
        self.failure.forget_scan(ticket.number);
        self.inner.end(ticket)
    }

    fn begin_modify(&mut self, alloc: Global, t: TableNo) -> Result<(), Fault>
        requires { CanModify (box_of W.meaning self.old) t.number }
        ensures ok { IfOk result (λ _. Opens (box_of W.meaning self.old) t.number (box_of W.meaning self.new)) }
        ensures err { IfErr result (λ fault. RefusesModify fault (box_of W.meaning self.old) (box_of W.meaning self.new)) }
        ensures counted { CountsCall (to_pass self.old.failure) result (to_pass self.new.failure) }
    {
        if self.failure.counts() {
            self.failure = Failure::Past;
            return Err(Fault::Source);
        }
        match self.inner.begin_modify(alloc, t) {
            Ok(()) => {
                self.failure.forget_write();
                Ok(())
            }
            Err(fault) => Err(fault),
        }
    }

    fn insert(&mut self, alloc: Global, row: Row) -> Result<(), Fault>
        requires { CanChange (box_of W.meaning self.old) (Inserts (tuple row)) }
        ensures ok { IfOk result (λ _. Stages (box_of W.meaning self.old) (Inserts (tuple row)) (box_of W.meaning self.new)) }
        ensures err { IfErr result (λ fault. RefusesChange (box_of W.meaning self.old) (Inserts (tuple row))
            fault (box_of W.meaning self.new)) }
        ensures counted { CountsCall (to_pass self.old.failure) result (to_pass self.new.failure) }
    {
        if self.failure.counts() {
            self.failure = Failure::Write;
            return Err(Fault::Source);
        }
        self.inner.insert(alloc, row)
    }

    fn update(&mut self, alloc: Global, id: RowId, row: Row) -> Result<(), Fault>
        requires { CanChange (box_of W.meaning self.old) (Updates id.number (tuple row)) }
        ensures ok { IfOk result (λ _. Stages (box_of W.meaning self.old) (Updates id.number (tuple row)) (box_of W.meaning self.new)) }
        ensures err { IfErr result (λ fault. RefusesChange (box_of W.meaning self.old) (Updates id.number (tuple row))
            fault (box_of W.meaning self.new)) }
        ensures counted { CountsCall (to_pass self.old.failure) result (to_pass self.new.failure) }
    {
        if self.failure.counts() {
            self.failure = Failure::Write;
            return Err(Fault::Source);
        }
        self.inner.update(alloc, id, row)
    }

    fn delete(&mut self, alloc: Global, id: RowId) -> Result<(), Fault>
        requires { CanChange (box_of W.meaning self.old) (Deletes id.number) }
        ensures ok { IfOk result (λ _. Stages (box_of W.meaning self.old) (Deletes id.number) (box_of W.meaning self.new)) }
        ensures err { IfErr result (λ fault. RefusesChange (box_of W.meaning self.old) (Deletes id.number)
            fault (box_of W.meaning self.new)) }
        ensures counted { CountsCall (to_pass self.old.failure) result (to_pass self.new.failure) }
    {
        if self.failure.counts() {
            self.failure = Failure::Write;
            return Err(Fault::Source);
        }
        self.inner.delete(alloc, id)
    }

    fn end_modify(&mut self, alloc: Global, keep: bool) -> Result<(), Fault>
        requires { CanClose (box_of W.meaning self.old) keep }
        ensures ok { IfOk result (λ _. Closes (box_of W.meaning self.old) keep (box_of W.meaning self.new)) }
        ensures err { IfErr result (λ fault. RefusesClose (box_of W.meaning self.old) keep fault (box_of W.meaning self.new)) }
        ensures counted { keep ≡ true → CountsCall (to_pass self.old.failure) result (to_pass self.new.failure) }
        ensures uncounted { keep ≡ false → to_pass self.new.failure ≡ to_pass self.old.failure }
    {
        if !keep {
            return self.inner.end_modify(alloc, keep);
        }
        if self.failure.counts() {
            self.failure = Failure::Past;
            let _ = self.inner.end_modify(alloc, false);
            return Err(Fault::Source);
        }
        self.inner.end_modify(alloc, keep)
    }

    fn ledger(&self) -> Counts {
        let counts = self.inner.ledger();
        if !self.failure.has_come() {
            return counts;
        }
        Counts {
            faults: counts.faults.saturating_add(1),
            ..counts
        }
    }
}

impl<W: Wrapper2> Wrapper2 for Failing<W> {
    ghost use Rattle.std.specs.Prelude.{map, IfOk, IfErr};
    ghost use Rattle.med_value.specs.Datum.{datum};
    ghost use Rattle.fdw_api.specs.Prelude.{Begins, RefusesBegin, spec2_of, CanBegin2};
    ghost use Rattle.probe_wrapper.specs.Failing.{box_of, to_pass, CountsCall};

    fn plan2(
        &self,
        alloc: Global,
        t: TableNo,
        wanted: &[usize],
        offered: &[Restriction],
        wish: &Wish,
    ) -> Result<Agreement2, Fault> {
        self.inner.plan2(alloc, t, wanted, offered, wish)
    }

    fn begin2(
        &mut self,
        alloc: Global,
        t: TableNo,
        spec: &ScanSpec2,
        params: &[Value],
    ) -> Result<Ticket, Fault>
        requires { CanBegin2 (box_of W.meaning self.old) t.number spec.now (map datum params.now) }
        ensures ok { IfOk result (λ ticket. Begins (box_of W.meaning self.old) t.number (spec2_of spec.now) (map datum params.now)
            ticket.number (box_of W.meaning self.new)) }
        ensures err { IfErr result (λ fault. RefusesBegin fault (box_of W.meaning self.old) (box_of W.meaning self.new)) }
        ensures counted { CountsCall (to_pass self.old.failure) result (to_pass self.new.failure) }
    {
        if self.failure.counts() {
            // It does not reach the inner wrapper.
            self.failure = Failure::Past;
            return Err(Fault::Source);
        }
        match self.inner.begin2(alloc, t, spec, params) {
            Ok(ticket) => {
                self.failure.forget_scan(ticket.number);
                Ok(ticket)
            }
            Err(fault) => Err(fault),
        }
    }
}
