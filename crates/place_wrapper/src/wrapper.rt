//! The wrapper over blobs that are read as tables of rows at places.
ghost use Rattle.std.specs.Prelude.{◌≡◌, ◌≤◌, ℕ, map, length, IfOk, IfErr, IfSome, IsSome, IsTrue, None, Some, Option, option_map, true};
ghost use Rattle.fdw_api.specs.Prelude.{restriction_form, Entry, Known};
ghost use Rattle.fdw_api.specs.declared.interface.Fault.TheVariants.{NoMemory as OutOfMemory};
ghost use Rattle.blob_store.specs.Names.{is_blob_name};
ghost use Rattle.place_wrapper.specs.Holdings.{held_under};
ghost use Rattle.wrapper_parts.specs.Staged.{write_is};
ghost use Rattle.place_wrapper.specs.Mapped.{live_at, numbers, Rise, rise_once};
ghost use Rattle.place_wrapper.specs.Boxes.{table_at, write_fits, ScansFit, pulled_after};

use crate::faults::fault_of;
use crate::format::PlacedTable;
use crate::scans::{LiveScan, begin_again, place_of, pull, spoil};
use crate::spans::span_of;
use crate::tables::{make_place, table_at, take_table};
use crate::writes::write;
use blob_store::{Blobs, is_blob_name};
use fdw_api::interface::{Counts, Fault, RowId, SourceRow, TableOption, Ticket, Wrapper};
use fdw_api::law::rows_are_typed;
use fdw_api::scan::{Agree, Agreement, Restriction, ScanSpec, copy_values};
use med_value::{Cause, ColumnDef, NoMemory, Row, TableNo, Value};
use std::alloc::Global;
use wrapper_parts::{RowChange, StagedWrite, add_change};

/// Blobs that are read as tables of a format, as a source of foreign tables.
///
/// A remote name is the name of a blob. A blob is read when it is bound, and the id of a row is its place. A scan takes what its format
/// takes; one that looks for a parameter builds an index of such a column when it is begun again, and goes from place to place by it until it
/// ends. Where the first column rises, a scan goes only over the places of the keys that its restrictions ask for. A write goes into a draft
/// of its table and then, as the image of that draft, into the blob; refused, the table is as it was. A refused call uses no ticket number
/// up. It answers `Fault::Source` where the blobs failed by their device or are worn out, and `faults` are the blobs' `failures`.
#[derive(Drop)]
pub struct PlaceWrapper<B: Blobs, T: PlacedTable> {
    blobs: B,
    tables: Vec<Option<T>>,
    scans: Vec<(u64, LiveScan)>,
    staged: Option<StagedWrite>,
    next: u64,
    pulled: u64,
    ghost fitting: { ScansFit T.form tables.items scans.items },
    ghost typed_write: { IsTrue (write_fits T.form tables.items (option_map write_is staged)) },
    ghost rising: { Rise 0 next (numbers scans.items) } by { rise_once 0 next (numbers scans.items) },
    ghost fresh: { (k : ℕ) → next ≤ k → live_at scans.items k ≡ None },
    ghost named: { (t : ℕ) (x : T) → table_at tables.items t ≡ Some x → is_blob_name (T.form.bound x).remote ≡ true },
    ghost apart: { (t u : ℕ) (x y : T) → table_at tables.items t ≡ Some x → table_at tables.items u ≡ Some y
        → (T.form.bound x).remote ≡ (T.form.bound y).remote → t ≡ u },
    ghost kept: { (t : ℕ) (x : T) (e : Option Entry) → table_at tables.items t ≡ Some x
        → held_under (B.meaning blobs) (T.form.bound x).remote ≡ Known e → T.form.fits x e } by { Prim.hlevel T.form.fits_once },
}

impl<B: Blobs, T: PlacedTable> PlaceWrapper<B, T> {
    ghost use Rattle.place_wrapper.specs.States.{place_state, IsNewPlaces};

    /// A source of these blobs, on which nothing is bound yet. It takes no memory.
    pub fn new(alloc: Global, blobs: B) -> Self
        ensures new { IsNewPlaces T.form.kind (place_state T.form
            (B.meaning result.blobs) result.tables.items result.scans.items result.staged result.next result.pulled) (B.meaning blobs) }
        ensures blobs { result.blobs ≡ blobs }
    {
        PlaceWrapper {
            blobs,
            tables: Vec::new(alloc),
            scans: Vec::new(alloc),
            staged: None,
            next: 0,
            pulled: 0,
        }
    }
}

/// What is done about each restriction.
fn answers_to<T: PlacedTable>(
    alloc: Global,
    table: &T,
    offered: &[Restriction],
) -> Result<Vec<Agree>, NoMemory>
    ensures { IfOk result (λ answers. answers.items ≡ map (T.form.answer table.now) (map restriction_form offered.now)) }
{
    let mut answers = Vec::new(alloc);
    for restriction in offered {
        answers.push(table.answer(restriction))?;
    }
    Ok(answers)
}

// How many rows were given, with this answer.
fn pulled_after(next: &Result<Option<SourceRow>, Fault>, pulled: u64) -> u64
    ensures { result ≡ pulled_after next.now pulled }
{
    match next {
        Ok(Some(_)) => pulled.saturating_add(1),
        Ok(None) | Err(_) => pulled,
    }
}

impl<B: Blobs, T: PlacedTable> Wrapper for PlaceWrapper<B, T> {
    ghost use Rattle.fdw_api.specs.Prelude.{spec_by, Allows};
    ghost use Rattle.fdw_api.specs.State.{table_of as table_in};
    ghost use Rattle.place_wrapper.specs.States.{place_state};

    ghost meaning = { λ w. place_state T.form (B.meaning w.blobs) w.tables.items w.scans.items w.staged w.next w.pulled };

    fn bind(
        &mut self,
        alloc: Global,
        remote: &str,
        columns: &[ColumnDef],
        options: &[TableOption],
    ) -> Result<TableNo, Fault> {
        if !is_blob_name(remote) {
            return Err(Fault::Refused(Cause::TableNotFound));
        }
        let content = match self.blobs.read(alloc, remote) {
            Ok(Some(content)) => content,
            Ok(None) => return Err(Fault::Refused(Cause::TableNotFound)),
            Err(fault) => return Err(fault_of(fault)),
        };
        let table = match T::read(alloc, remote, columns, options, content) {
            Ok(table) => table,
            Err(fault) => return Err(fault),
        };
        let Ok(at) = make_place(&mut self.tables) else {
            return Err(Fault::NoMemory);
        };
        self.tables[at] = Some(table);
        Ok(TableNo { number: at as u64 })
    }

    fn unbind(&mut self, t: TableNo) {
        let at = t.number as usize;
        if at < self.tables.len() {
            self.tables[at] = None;
        }
    }

    /// Takes over what the format answers, and gives the wanted columns alone.
    fn plan(
        &self,
        alloc: Global,
        t: TableNo,
        _wanted: &[usize],
        offered: &[Restriction],
    ) -> Result<Agreement, Fault>
        requires { IsSome (table_in (place_state T.form (B.meaning self.now.blobs)
            self.now.tables.items self.now.scans.items self.now.staged self.now.next self.now.pulled) t.number) }
        ensures ok { IfOk result (λ a. Allows (place_state T.form (B.meaning self.now.blobs)
            self.now.tables.items self.now.scans.items self.now.staged self.now.next self.now.pulled) t.number
            (spec_by _wanted.now (map restriction_form offered.now) a)) }
        ensures each { IfOk result (λ a. length a.answers.items ≡ length offered.now) }
        ensures err { IfErr result (λ fault. fault ≡ OutOfMemory) }
        ensures takes { IfOk result (λ a. IfSome (table_at self.now.tables.items t.number)
            (λ x. a.answers.items ≡ map (T.form.answer x) (map restriction_form offered.now))) }
        ensures narrow { IfOk result (λ a. a.narrow ≡ true) }
    {
        let answers = match table_at(&self.tables, t.number as usize) {
            Some(table) => answers_to(alloc, table, offered)?,
            None => unreachable!(),
        };
        Ok(Agreement {
            answers,
            narrow: true,
        })
    }

    fn begin(
        &mut self,
        alloc: Global,
        t: TableNo,
        spec: &ScanSpec,
        params: &[Value],
    ) -> Result<Ticket, Fault> {
        if self.next == u64::MAX {
            return Err(Fault::Refused(Cause::LimitExceeded));
        }
        let spec = spec.copy(alloc)?;
        let params = copy_values(alloc, params)?;
        let table = t.number as usize;
        let span = span_of(alloc, &self.tables, table, &spec, &params, false);
        let scan = LiveScan {
            table,
            spec,
            params,
            at: span.first,
            end: span.end,
            index: None,
            broken: false,
        };
        let number = self.next;
        let Ok(()) = self.scans.push((number, scan)) else {
            return Err(Fault::NoMemory);
        };
        self.next += 1;
        Ok(Ticket { number })
    }

    fn iterate(&mut self, alloc: Global, ticket: &Ticket) -> Result<Option<SourceRow>, Fault> {
        rows_are_typed();
        let next = pull(alloc, &self.tables, &mut self.scans, ticket.number);
        self.pulled = pulled_after(&next, self.pulled);
        next
    }

    fn rescan(&mut self, alloc: Global, ticket: &Ticket, params: &[Value]) -> Result<(), Fault> {
        let Ok(params) = copy_values(alloc, params) else {
            spoil(&mut self.scans, ticket.number);
            return Err(Fault::NoMemory);
        };
        match begin_again(alloc, &self.tables, &mut self.scans, ticket.number, params) {
            Ok(()) => Ok(()),
            Err(_) => Err(Fault::NoMemory),
        }
    }

    fn end(&mut self, ticket: Ticket) {
        let Ticket { number } = ticket;
        let at = place_of(&self.scans, number);
        let _ = self.scans.remove(at);
    }

    fn begin_modify(&mut self, alloc: Global, t: TableNo) -> Result<(), Fault> {
        self.staged = Some(StagedWrite {
            table: t.number,
            changes: Vec::new(alloc),
            broken: false,
        });
        Ok(())
    }

    fn insert(&mut self, _alloc: Global, row: Row) -> Result<(), Fault> {
        add_change(&mut self.staged, RowChange::Insert(row))
    }

    fn update(&mut self, _alloc: Global, id: RowId, row: Row) -> Result<(), Fault> {
        add_change(&mut self.staged, RowChange::Update(id.number, row))
    }

    fn delete(&mut self, _alloc: Global, id: RowId) -> Result<(), Fault> {
        add_change(&mut self.staged, RowChange::Delete(id.number))
    }

    fn end_modify(&mut self, alloc: Global, keep: bool) -> Result<(), Fault> {
        let Some(staged) = self.staged.take() else {
            return Ok(());
        };
        if !keep {
            return Ok(());
        }
        let at = staged.table as usize;
        let Some(table) = take_table(&mut self.tables, at) else {
            return Ok(());
        };
        let (table, written) = write(alloc, &mut self.blobs, table, staged.changes);
        self.tables[at] = Some(table);
        written
    }

    fn ledger(&self) -> Counts {
        Counts {
            next: self.next,
            live: self.scans.len() as u64,
            pulled: self.pulled,
            faults: self.blobs.failures(),
        }
    }
}
