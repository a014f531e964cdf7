//! A SQLite database as a source of foreign tables.
ghost use Rattle.std.specs.Prelude.{
  ◌≡◌,
  ◌≤◌,
  ◌&&◌,
  ◌⊎◌,
  OnOk,
  ℕ,
  true,
  false,
  length,
  map,
  None,
  Some,
  IsTrue,
  IsSome,
  IfOk,
  IfErr,
  IfSome,
  is_some,
  option_map,
};
ghost use Rattle.std.specs.Ordering.{nat_cmp};
ghost use Rattle.std.specs.BTreeMap as tree;
ghost use Rattle.sqlite.specs.Held.{state};
ghost use Rattle.med_value.specs.Datum.{datum};
ghost use Rattle.fdw_api.specs.Scan.{params_fit, restriction_form, spec_of};
ghost use Rattle.wrapper_parts.specs.Ranges.{answer_of};
ghost use Rattle.sqlite_wrapper.specs.declared.scans.KeyScan.{KeyScan};
ghost use Rattle.sqlite_tables.specs.Layouts.{kinds_in, layout_at, layout_count, layouts};
ghost use Rattle.wrapper_parts.specs.Staged.{write_is};
ghost use Rattle.sqlite_wrapper.specs.Changes.{NamesOnce, named_is_prop, names_rows, write_fits};
ghost use Rattle.sqlite_writes.specs.Writable.{AreApart, IsWritable};
ghost use Rattle.sqlite_writes.specs.Watched.{Looks};
ghost use Rattle.sqlite_wrapper.specs.Counts.{AreCounts, AreFew};
ghost use Rattle.sqlite_wrapper.specs.Looks.{AllLook};
ghost use Rattle.sqlite_wrapper.specs.Boxes.{allows, is_allowed, is_by_key, promised, scan_is, sqlite_state};

use crate::counts::{count_of, forget_count, put_count};
use crate::lookups::{look_up, take_lookup};
use crate::numbers::{number_of, table_rises};
use crate::promises::{all_exact, is_by_key, promised_limit, promised_order};
use crate::rows::{GivenNext, faults_after, next_of, read_page};
use crate::scans::{KeyScan, begun_again, new_scan, pass_row, put_scan, spoil};
use crate::watched::open_table;
use crate::writing::write_rows;
use fdw_api::interface::{Counts, Fault, RowId, SourceRow, TableOption, Ticket, Wrapper};
use fdw_api::scan::{Agreement, Restriction, ScanSpec, copy_values};
use fdw_api::wishes::{Agreement2, OrderKey, ScanSpec2, Wish, Wrapper2};
use med_value::{Cause, ColumnDef, NoMemory, Row, TableNo, Value};
use sqlite::Connection;
use sqlite_tables::{Shape, SourceStore, shipped_shapes};
use sqlite_writes::Watch;
use sqlite_writes::law::first_changes_name_once;
use std::alloc::Global;
use std::collections::BTreeMap;
use wrapper_parts::{RowChange, StagedWrite, add_change, answers_for};

/// A SQLite database as a source of foreign tables.
///
/// Its kind is `sqlite_kind`. Its remote tables are those of the layouts, by their numbers: orders is table 0, and people table 1. The id
/// of a row is the 64 bits of its key. A scan takes over tests of the key alone, gives whole rows in the order of their keys, and reads
/// them by pages of 64. It promises the order that is empty, or that of the key, ascending, and a limit wherever one may be promised: once
/// that many rows came it reads no page. A scan of all keys, of which neither is promised and which looks for a parameter, reads its table
/// once when it is begun again, and finds from then on the rows that have the parameter's value, where they are at most 64. It is honest
/// where its store always returns what was written.
#[derive(Drop)]
pub struct SqliteWrapper<S: SourceStore + Drop> {
    conn: Connection<S>,
    /// What looks whether the files of the database are still those that were opened.
    watch: Watch,
    /// The shapes of its remote tables: the number of a table is the place of its shape.
    shapes: Vec<Shape>,
    bound: Vec<bool>,
    /// The number of rows of each table, where it is known.
    row_counts: Vec<Option<usize>>,
    scans: BTreeMap<u64, KeyScan>,
    staged: Option<StagedWrite>,
    next: u64,
    pulled: u64,
    faults: u64,
    ghost shaped: { shapes.items ≡ layouts },
    ghost counted: { length bound.items ≡ layout_count },
    ghost idle: { conn.in_transaction ≡ false },
    ghost writable: { (table : ℕ) → S.honest ≡ true → ∥ IsWritable conn.schema (layout_at table) ∥₁ },
    ghost apart: { S.honest ≡ true → AreApart conn.schema },
    ghost named: { NamesOnce (option_map write_is staged) } by { named_is_prop (option_map write_is staged) },
    ghost there: { S.honest ≡ true → names_rows (state S.Store conn).now (option_map write_is staged) ≡ true },
    ghost typed_write: { IsTrue (write_fits (option_map write_is staged)) },
    ghost counts: { S.honest ≡ true → AreCounts (state S.Store conn).now row_counts.items },
    ghost few: { AreFew row_counts.items },
    ghost allowed: { (k : ℕ) (s : KeyScan) → tree.get nat_cmp scans k ≡ Some s → is_allowed (scan_is s) ≡ true },
    ghost fresh: { (k : ℕ) → next ≤ k → tree.get nat_cmp scans k ≡ None },
    ghost looked: { S.honest ≡ true → AllLook (state S.Store conn).now scans },
}

impl<S: SourceStore + Drop> SqliteWrapper<S> {
    ghost use Rattle.fdw_api.specs.Prelude.{table_of, Begins, RefusesBegin};
    ghost use Rattle.sqlite_tables.specs.Steady.{IsSteady};
    ghost use Rattle.sqlite_wrapper.specs.Clean.{AreKnown};
    ghost use Rattle.sqlite_wrapper.specs.SqliteBoxes.{IsNewSqlite};

    /// A source of this database, on which nothing is bound yet. It is as honest as its store.
    ///
    /// The watch is the one that came with the connection, or that of a database in memory.
    ///
    /// It asks that the connection is in no transaction, and of an honest store that each layout's three texts either are not understood
    /// under its schema or are for one table, of no two layouts the same. It fails when out of memory alone, and drops the connection
    /// then.
    pub fn new(alloc: Global, conn: Connection<S>, watch: Watch) -> Result<Self, NoMemory>
        requires idle { conn.in_transaction ≡ false }
        requires writable { (table : ℕ) → S.honest ≡ true → ∥ IsWritable conn.schema (layout_at table) ∥₁ }
        requires apart { S.honest ≡ true → AreApart conn.schema }
        ensures conn { IfOk result (λ w. w.conn ≡ conn) }
        ensures watch { IfOk result (λ w. w.watch ≡ watch) }
        ensures new { IfOk result (λ w. IsNewSqlite S.honest (state S.Store conn).now
            (sqlite_state S.honest (state S.Store w.conn).now w.bound.items w.scans w.staged w.next w.pulled w.faults)) }
    {
        let shapes = shipped_shapes(alloc)?;
        let bound = vec![in alloc; false; shapes.len()]?;
        let row_counts = vec![in alloc; None; shapes.len()]?;
        Ok(SqliteWrapper {
            conn,
            watch,
            shapes,
            bound,
            row_counts,
            scans: BTreeMap::new(alloc),
            staged: None,
            next: 0,
            pulled: 0,
            faults: 0,
        })
    }

    // Begins a scan of which this order and this limit are promised.
    fn start(
        &mut self,
        alloc: Global,
        t: TableNo,
        spec: &ScanSpec,
        order: Vec<OrderKey>,
        limit: Option<u64>,
        params: &[Value],
    ) -> Result<Ticket, Fault>
        requires bound { IsSome (table_of (sqlite_state S.honest (state S.Store self.old.conn).now
            self.old.bound.items self.old.scans self.old.staged self.old.next self.old.pulled self.old.faults) t.number) }
        requires allowed { allows (promised (spec_of spec.now) order.items limit) ≡ true }
        requires typed { params_fit (kinds_in (layout_at t.number)) (spec_of spec.now).offered (map datum params.now) ≡ true }
        ensures ok { IfOk result (λ ticket. Begins (sqlite_state S.honest (state S.Store self.old.conn).now
            self.old.bound.items self.old.scans self.old.staged self.old.next self.old.pulled self.old.faults) t.number
            (promised (spec_of spec.now) order.items limit) (map datum params.now) ticket.number
            (sqlite_state S.honest (state S.Store self.new.conn).now
            self.new.bound.items self.new.scans self.new.staged self.new.next self.new.pulled self.new.faults)) }
        ensures err { IfErr result (λ fault. RefusesBegin fault (sqlite_state S.honest (state S.Store self.old.conn).now
            self.old.bound.items self.old.scans self.old.staged self.old.next self.old.pulled self.old.faults)
            (sqlite_state S.honest (state S.Store self.new.conn).now
            self.new.bound.items self.new.scans self.new.staged self.new.next self.new.pulled self.new.faults)) }
        ensures clean_ok { IsSteady (S.Store.view self.new.conn.store) → AreKnown self.old.conn.schema
            → IfOk result (λ ticket. Begins (sqlite_state true (state S.Store self.old.conn).now
            self.old.bound.items self.old.scans self.old.staged self.old.next self.old.pulled self.old.faults) t.number
            (promised (spec_of spec.now) order.items limit) (map datum params.now) ticket.number
            (sqlite_state true (state S.Store self.new.conn).now
            self.new.bound.items self.new.scans self.new.staged self.new.next self.new.pulled self.new.faults)) }
        ensures clean_err { IfErr result (λ fault. RefusesBegin fault (sqlite_state true (state S.Store self.old.conn).now
            self.old.bound.items self.old.scans self.old.staged self.old.next self.old.pulled self.old.faults)
            (sqlite_state true (state S.Store self.new.conn).now
            self.new.bound.items self.new.scans self.new.staged self.new.next self.new.pulled self.new.faults)) }
    {
        if self.next == u64::MAX {
            return Err(Fault::Refused(Cause::LimitExceeded));
        }
        let spec = spec.copy(alloc)?;
        let params = copy_values(alloc, params)?;
        table_rises(&self.conn, &self.shapes, t.number);
        let _schema = self.conn.schema();
        let scan = new_scan(alloc, t.number, spec, order, limit, params);
        let number = self.next;
        self.scans.insert(number, scan)?;
        self.next += 1;
        Ok(Ticket { number })
    }
}

impl<S: SourceStore + Drop> Wrapper for SqliteWrapper<S> {
    ghost use Rattle.fdw_api.specs.Prelude.{
      spec_by,
      table_of,
      CanBind,
      Binds,
      RefusesBind,
      Allows,
      CanBegin,
      Begins,
      RefusesBegin,
      IsOpen,
      Iterates,
      Breaks,
      CanRescan,
      Rescans,
      column_of,
      option_form,
      CanClose,
      Closes,
      RefusesClose,
    };
    ghost use Rattle.sqlite_tables.specs.Steady.{IsSteady};
    ghost use Rattle.sqlite_wrapper.specs.Clean.{AreKnown, AreWritable, MayBeKept};
    ghost use Rattle.sqlite_wrapper.specs.Failing.{FailsToWrite};

    ghost meaning = { λ w. sqlite_state S.honest (state S.Store w.conn).now w.bound.items w.scans w.staged w.next w.pulled w.faults };

    /// Where its store is steady as it ends and the tables' texts are known, it does what `Wrapper::bind` says of an honest box that
    /// holds what the database holds: nobody knows what a disk returns, but such a store has returned what was written.
    fn bind(
        &mut self,
        _alloc: Global,
        remote: &str,
        columns: &[ColumnDef],
        _options: &[TableOption],
    ) -> Result<TableNo, Fault>
        requires { CanBind (sqlite_state S.honest (state S.Store self.old.conn).now
            self.old.bound.items self.old.scans self.old.staged self.old.next self.old.pulled self.old.faults)
            remote.now (map column_of columns.now) (map option_form _options.now) }
        ensures ok { IfOk result (λ t. Binds (sqlite_state S.honest (state S.Store self.old.conn).now
            self.old.bound.items self.old.scans self.old.staged self.old.next self.old.pulled self.old.faults)
            remote.now (map column_of columns.now) (map option_form _options.now) t.number
            (sqlite_state S.honest (state S.Store self.new.conn).now
            self.new.bound.items self.new.scans self.new.staged self.new.next self.new.pulled self.new.faults)) }
        ensures err { IfErr result (λ fault. RefusesBind (sqlite_state S.honest (state S.Store self.old.conn).now
            self.old.bound.items self.old.scans self.old.staged self.old.next self.old.pulled self.old.faults)
            remote.now (map column_of columns.now) (map option_form _options.now) fault
            (sqlite_state S.honest (state S.Store self.new.conn).now
            self.new.bound.items self.new.scans self.new.staged self.new.next self.new.pulled self.new.faults)) }
        ensures clean_ok { IsSteady (S.Store.view self.new.conn.store) → AreKnown self.old.conn.schema
            → IfOk result (λ t. Binds (sqlite_state true (state S.Store self.old.conn).now
            self.old.bound.items self.old.scans self.old.staged self.old.next self.old.pulled self.old.faults)
            remote.now (map column_of columns.now) (map option_form _options.now) t.number
            (sqlite_state true (state S.Store self.new.conn).now
            self.new.bound.items self.new.scans self.new.staged self.new.next self.new.pulled self.new.faults)) }
        ensures clean_err { IsSteady (S.Store.view self.new.conn.store) → AreKnown self.old.conn.schema
            → IfErr result (λ fault. RefusesBind (sqlite_state true (state S.Store self.old.conn).now
            self.old.bound.items self.old.scans self.old.staged self.old.next self.old.pulled self.old.faults)
            remote.now (map column_of columns.now) (map option_form _options.now) fault
            (sqlite_state true (state S.Store self.new.conn).now
            self.new.bound.items self.new.scans self.new.staged self.new.next self.new.pulled self.new.faults)) }
        ensures looked { (self.new.conn ≡ self.old.conn) ⊎ Looks self.old.watch self.new.watch true }
        ensures seen { OnOk result (Looks self.old.watch self.new.watch true) }
    {
        let Some(number) = number_of(&self.shapes, remote) else {
            return Err(Fault::Refused(Cause::TableNotFound));
        };
        let _schema = self.conn.schema();
        let count = match open_table(
            &mut self.conn,
            &mut self.watch,
            &self.shapes,
            number,
            columns,
        ) {
            Ok(count) => count,
            Err(fault) => {
                self.faults = faults_after(self.faults, fault);
                return Err(fault);
            }
        };
        put_count(&mut self.row_counts, number, Some(count));
        self.bound[number as usize] = true;
        Ok(TableNo { number })
    }

    fn unbind(&mut self, t: TableNo) {
        self.bound[t.number as usize] = false;
    }

    /// Takes over tests of the key that a range answers, and gives whole rows.
    fn plan(
        &self,
        alloc: Global,
        _t: TableNo,
        _wanted: &[usize],
        offered: &[Restriction],
    ) -> Result<Agreement, Fault>
        requires { IsSome (table_of (sqlite_state S.honest (state S.Store self.now.conn).now
            self.now.bound.items self.now.scans self.now.staged self.now.next self.now.pulled self.now.faults) _t.number) }
        ensures ok { IfOk result (λ a. Allows (sqlite_state S.honest (state S.Store self.now.conn).now
            self.now.bound.items self.now.scans self.now.staged self.now.next self.now.pulled self.now.faults)
            _t.number (spec_by _wanted.now (map restriction_form offered.now) a)) }
        ensures each { IfOk result (λ a. length a.answers.items ≡ length offered.now) }
        ensures err { IfErr result (λ fault. fault ≡ Fault.NoMemory) }
        ensures takes { IfOk result (λ a. a.answers.items ≡ map answer_of (map restriction_form offered.now)) }
        ensures narrow { IfOk result (λ a. a.narrow ≡ false) }
    {
        let answers = answers_for(alloc, offered)?;
        Ok(Agreement {
            answers,
            narrow: false,
        })
    }

    /// Where its store is steady as it ends and the tables' texts are known, it does what `Wrapper::begin` says of an honest box that
    /// holds what the database holds: nobody knows what a disk returns, but such a store has returned what was written. Refused, it does
    /// so over any store.
    fn begin(
        &mut self,
        alloc: Global,
        t: TableNo,
        spec: &ScanSpec,
        params: &[Value],
    ) -> Result<Ticket, Fault>
        requires { CanBegin (sqlite_state S.honest (state S.Store self.old.conn).now
            self.old.bound.items self.old.scans self.old.staged self.old.next self.old.pulled self.old.faults)
            t.number spec.now (map datum params.now) }
        ensures ok { IfOk result (λ ticket. Begins (sqlite_state S.honest (state S.Store self.old.conn).now
            self.old.bound.items self.old.scans self.old.staged self.old.next self.old.pulled self.old.faults) t.number
            (spec_of spec.now) (map datum params.now) ticket.number
            (sqlite_state S.honest (state S.Store self.new.conn).now
            self.new.bound.items self.new.scans self.new.staged self.new.next self.new.pulled self.new.faults)) }
        ensures err { IfErr result (λ fault. RefusesBegin fault (sqlite_state S.honest (state S.Store self.old.conn).now
            self.old.bound.items self.old.scans self.old.staged self.old.next self.old.pulled self.old.faults)
            (sqlite_state S.honest (state S.Store self.new.conn).now
            self.new.bound.items self.new.scans self.new.staged self.new.next self.new.pulled self.new.faults)) }
        ensures clean_ok { IsSteady (S.Store.view self.new.conn.store) → AreKnown self.old.conn.schema
            → IfOk result (λ ticket. Begins (sqlite_state true (state S.Store self.old.conn).now
            self.old.bound.items self.old.scans self.old.staged self.old.next self.old.pulled self.old.faults) t.number
            (spec_of spec.now) (map datum params.now) ticket.number
            (sqlite_state true (state S.Store self.new.conn).now
            self.new.bound.items self.new.scans self.new.staged self.new.next self.new.pulled self.new.faults)) }
        ensures clean_err { IfErr result (λ fault. RefusesBegin fault (sqlite_state true (state S.Store self.old.conn).now
            self.old.bound.items self.old.scans self.old.staged self.old.next self.old.pulled self.old.faults)
            (sqlite_state true (state S.Store self.new.conn).now
            self.new.bound.items self.new.scans self.new.staged self.new.next self.new.pulled self.new.faults)) }
    {
        self.start(alloc, t, spec, Vec::new(alloc), None, params)
    }

    /// Where its store is steady as it ends and the tables' texts are known, it does what `Wrapper::iterate` says of an honest box that
    /// holds what the database holds: nobody knows what a disk returns, but such a store has returned what was written.
    fn iterate(&mut self, alloc: Global, ticket: &Ticket) -> Result<Option<SourceRow>, Fault>
        requires { IsOpen (sqlite_state S.honest (state S.Store self.old.conn).now
            self.old.bound.items self.old.scans self.old.staged self.old.next self.old.pulled self.old.faults) ticket.now.number }
        ensures ok { IfOk result (λ row. Iterates (sqlite_state S.honest (state S.Store self.old.conn).now
            self.old.bound.items self.old.scans self.old.staged self.old.next self.old.pulled self.old.faults) ticket.now.number row
            (sqlite_state S.honest (state S.Store self.new.conn).now
            self.new.bound.items self.new.scans self.new.staged self.new.next self.new.pulled self.new.faults)) }
        ensures err { IfErr result (λ fault. Breaks (sqlite_state S.honest (state S.Store self.old.conn).now
            self.old.bound.items self.old.scans self.old.staged self.old.next self.old.pulled self.old.faults) ticket.now.number fault
            (sqlite_state S.honest (state S.Store self.new.conn).now
            self.new.bound.items self.new.scans self.new.staged self.new.next self.new.pulled self.new.faults)) }
        ensures clean_ok { IsSteady (S.Store.view self.new.conn.store) → AreKnown self.old.conn.schema
            → IfOk result (λ row. Iterates (sqlite_state true (state S.Store self.old.conn).now
            self.old.bound.items self.old.scans self.old.staged self.old.next self.old.pulled self.old.faults) ticket.now.number row
            (sqlite_state true (state S.Store self.new.conn).now
            self.new.bound.items self.new.scans self.new.staged self.new.next self.new.pulled self.new.faults)) }
        ensures clean_err { IsSteady (S.Store.view self.new.conn.store) → AreKnown self.old.conn.schema
            → IfErr result (λ fault. Breaks (sqlite_state true (state S.Store self.old.conn).now
            self.old.bound.items self.old.scans self.old.staged self.old.next self.old.pulled self.old.faults) ticket.now.number fault
            (sqlite_state true (state S.Store self.new.conn).now
            self.new.bound.items self.new.scans self.new.staged self.new.next self.new.pulled self.new.faults)) }
        ensures looked { (self.new.conn ≡ self.old.conn) ⊎ Looks self.old.watch self.new.watch true }
    {
        let number = ticket.number;
        let _schema = self.conn.schema();
        if let Err(fault) = read_page(
            &mut self.conn,
            &mut self.watch,
            &self.shapes,
            &mut self.scans,
            number,
        ) {
            spoil(&mut self.scans, number);
            self.faults = faults_after(self.faults, fault);
            return Err(fault);
        }
        match next_of(alloc, &self.shapes, &self.scans, number) {
            Err(fault) => {
                spoil(&mut self.scans, number);
                self.faults = faults_after(self.faults, fault);
                Err(fault)
            }
            Ok(None) => Ok(None),
            Ok(Some(next)) => {
                let GivenNext { key, row } = next;
                pass_row(&mut self.scans, number, key);
                self.pulled = self.pulled.saturating_add(1);
                Ok(Some(row))
            }
        }
    }

    /// Where its store is steady as it ends, the tables' texts are known and the lookups of its live scans are of their tables' rows, it
    /// does what `Wrapper::rescan` says of an honest box that holds what the database holds: nobody knows what a disk returns, but such a
    /// store has returned what was written. That it fails it says without the lookups.
    fn rescan(&mut self, alloc: Global, ticket: &Ticket, params: &[Value]) -> Result<(), Fault>
        requires { CanRescan (sqlite_state S.honest (state S.Store self.old.conn).now
            self.old.bound.items self.old.scans self.old.staged self.old.next self.old.pulled self.old.faults)
            ticket.now.number (map datum params.now) }
        ensures ok { IfOk result (λ _. Rescans (sqlite_state S.honest (state S.Store self.old.conn).now
            self.old.bound.items self.old.scans self.old.staged self.old.next self.old.pulled self.old.faults)
            ticket.now.number (map datum params.now)
            (sqlite_state S.honest (state S.Store self.new.conn).now
            self.new.bound.items self.new.scans self.new.staged self.new.next self.new.pulled self.new.faults)) }
        ensures err { IfErr result (λ fault. Breaks (sqlite_state S.honest (state S.Store self.old.conn).now
            self.old.bound.items self.old.scans self.old.staged self.old.next self.old.pulled self.old.faults) ticket.now.number fault
            (sqlite_state S.honest (state S.Store self.new.conn).now
            self.new.bound.items self.new.scans self.new.staged self.new.next self.new.pulled self.new.faults)) }
        ensures clean_ok { IsSteady (S.Store.view self.new.conn.store) → AreKnown self.old.conn.schema
            → AllLook (state S.Store self.old.conn).now self.old.scans
            → IfOk result (λ _. Rescans (sqlite_state true (state S.Store self.old.conn).now
            self.old.bound.items self.old.scans self.old.staged self.old.next self.old.pulled self.old.faults)
            ticket.now.number (map datum params.now)
            (sqlite_state true (state S.Store self.new.conn).now
            self.new.bound.items self.new.scans self.new.staged self.new.next self.new.pulled self.new.faults)) }
        ensures clean_err { IsSteady (S.Store.view self.new.conn.store) → AreKnown self.old.conn.schema
            → IfErr result (λ fault. Breaks (sqlite_state true (state S.Store self.old.conn).now
            self.old.bound.items self.old.scans self.old.staged self.old.next self.old.pulled self.old.faults) ticket.now.number fault
            (sqlite_state true (state S.Store self.new.conn).now
            self.new.bound.items self.new.scans self.new.staged self.new.next self.new.pulled self.new.faults)) }
        ensures looked { (self.new.conn ≡ self.old.conn) ⊎ Looks self.old.watch self.new.watch true }
    {
        let _schema = self.conn.schema();
        match begun_again(alloc, &self.scans, ticket.number, params) {
            Err(_) => {
                spoil(&mut self.scans, ticket.number);
                Err(Fault::NoMemory)
            }
            Ok(scan) => {
                table_rises(&self.conn, &self.shapes, scan.table);
                let had = take_lookup(&mut self.scans, ticket.number);
                match look_up(
                    alloc,
                    &mut self.conn,
                    &mut self.watch,
                    &self.shapes,
                    scan,
                    had,
                ) {
                    Err(fault) => {
                        spoil(&mut self.scans, ticket.number);
                        self.faults = faults_after(self.faults, fault);
                        Err(fault)
                    }
                    Ok(scan) => {
                        put_scan(&mut self.scans, ticket.number, scan);
                        Ok(())
                    }
                }
            }
        }
    }

    fn end(&mut self, ticket: Ticket) {
        let Ticket { number } = ticket;
        let _ = self.scans.remove(&number);
    }

    fn begin_modify(&mut self, alloc: Global, t: TableNo) -> Result<(), Fault> {
        first_changes_name_once();
        self.staged = Some(StagedWrite {
            table: t.number,
            changes: Vec::new(alloc),
            broken: false,
        });
        Ok(())
    }

    fn insert(&mut self, _alloc: Global, row: Row) -> Result<(), Fault> {
        first_changes_name_once();
        add_change(&mut self.staged, RowChange::Insert(row))
    }

    fn update(&mut self, _alloc: Global, id: RowId, row: Row) -> Result<(), Fault> {
        first_changes_name_once();
        add_change(&mut self.staged, RowChange::Update(id.number, row))
    }

    fn delete(&mut self, _alloc: Global, id: RowId) -> Result<(), Fault> {
        first_changes_name_once();
        add_change(&mut self.staged, RowChange::Delete(id.number))
    }

    /// Where its store is steady as it begins and as it ends, and the write may be kept (`MayBeKept`), it does what `Wrapper::end_modify`
    /// says of an honest box that holds what the database holds: nobody knows what a disk returns, but such a store has returned what was
    /// written. Each failure is one of `FailsToWrite`: the source has failed only where the files are not those that were opened, the
    /// table cannot be read, or the connection reported an error that is neither a repeated key nor out of memory.
    fn end_modify(&mut self, alloc: Global, keep: bool) -> Result<(), Fault>
        requires { CanClose (sqlite_state S.honest (state S.Store self.old.conn).now
            self.old.bound.items self.old.scans self.old.staged self.old.next self.old.pulled self.old.faults) keep }
        ensures ok { IfOk result (λ _. Closes (sqlite_state S.honest (state S.Store self.old.conn).now
            self.old.bound.items self.old.scans self.old.staged self.old.next self.old.pulled self.old.faults) keep
            (sqlite_state S.honest (state S.Store self.new.conn).now
            self.new.bound.items self.new.scans self.new.staged self.new.next self.new.pulled self.new.faults)) }
        ensures err { IfErr result (λ fault. RefusesClose (sqlite_state S.honest (state S.Store self.old.conn).now
            self.old.bound.items self.old.scans self.old.staged self.old.next self.old.pulled self.old.faults) keep fault
            (sqlite_state S.honest (state S.Store self.new.conn).now
            self.new.bound.items self.new.scans self.new.staged self.new.next self.new.pulled self.new.faults)) }
        ensures clean_ok { IsSteady (S.Store.view self.old.conn.store) → IsSteady (S.Store.view self.new.conn.store)
            → MayBeKept (state S.Store self.old.conn).now (option_map write_is self.old.staged) self.old.row_counts.items
            → IfOk result (λ _. Closes (sqlite_state true (state S.Store self.old.conn).now
            self.old.bound.items self.old.scans self.old.staged self.old.next self.old.pulled self.old.faults) keep
            (sqlite_state true (state S.Store self.new.conn).now
            self.new.bound.items self.new.scans self.new.staged self.new.next self.new.pulled self.new.faults)) }
        ensures clean_err { IsSteady (S.Store.view self.old.conn.store) → IsSteady (S.Store.view self.new.conn.store)
            → MayBeKept (state S.Store self.old.conn).now (option_map write_is self.old.staged) self.old.row_counts.items
            → IfErr result (λ fault. RefusesClose (sqlite_state true (state S.Store self.old.conn).now
            self.old.bound.items self.old.scans self.old.staged self.old.next self.old.pulled self.old.faults) keep fault
            (sqlite_state true (state S.Store self.new.conn).now
            self.new.bound.items self.new.scans self.new.staged self.new.next self.new.pulled self.new.faults)) }
        ensures reported { S.honest ≡ true → IfErr result (λ fault. IfSome (option_map write_is self.old.staged)
            (λ w. FailsToWrite S.Store S.honest (layout_at w.table) w.changes self.old.watch self.new.watch
            self.old.conn self.new.conn fault)) }
        ensures clean_reported { IsSteady (S.Store.view self.old.conn.store) → IsSteady (S.Store.view self.new.conn.store)
            → AreWritable self.old.conn.schema → IfErr result (λ fault. IfSome (option_map write_is self.old.staged)
            (λ w. FailsToWrite S.Store S.honest (layout_at w.table) w.changes self.old.watch self.new.watch
            self.old.conn self.new.conn fault)) }
        ensures looked { (self.new.conn ≡ self.old.conn) ⊎ Looks self.old.watch self.new.watch true }
        ensures seen { keep ≡ true → OnOk result (Looks self.old.watch self.new.watch true) }
    {
        let Some(write) = self.staged.take() else {
            unreachable!()
        };
        if !keep {
            return Ok(());
        }
        let table = write.table;
        let _schema = self.conn.schema();
        let held = count_of(&self.row_counts, table);
        match write_rows(
            alloc,
            &mut self.conn,
            &mut self.watch,
            &self.shapes,
            table,
            held,
            write.changes,
        ) {
            Ok(count) => {
                put_count(&mut self.row_counts, table, Some(count));
                Ok(())
            }
            Err(fault) => {
                forget_count(&mut self.row_counts, table, &fault);
                self.faults = faults_after(self.faults, fault);
                Err(fault)
            }
        }
    }

    fn ledger(&self) -> Counts {
        Counts {
            next: self.next,
            live: self.scans.len() as u64,
            pulled: self.pulled,
            faults: self.faults,
        }
    }
}

impl<S: SourceStore + Drop> Wrapper2 for SqliteWrapper<S> {
    ghost use Rattle.fdw_api.specs.Prelude.{
      table_of,
      Begins,
      RefusesBegin,
      all_exact,
      key_form,
      wish_form,
      spec2_of,
      spec2_by,
      is_fair,
      AllowsPromise,
      CanBegin2,
    };
    ghost use Rattle.sqlite_tables.specs.Steady.{IsSteady};
    ghost use Rattle.sqlite_wrapper.specs.Clean.{AreKnown};

    /// Answers as `plan` does, and promises the order that is empty or that of the key, and a limit wherever one may be promised.
    fn plan2(
        &self,
        alloc: Global,
        t: TableNo,
        wanted: &[usize],
        offered: &[Restriction],
        wish: &Wish,
    ) -> Result<Agreement2, Fault>
        requires { IsSome (table_of (sqlite_state S.honest (state S.Store self.now.conn).now
            self.now.bound.items self.now.scans self.now.staged self.now.next self.now.pulled self.now.faults) t.number) }
        ensures ok { IfOk result (λ a. AllowsPromise (sqlite_state S.honest (state S.Store self.now.conn).now
            self.now.bound.items self.now.scans self.now.staged self.now.next self.now.pulled self.now.faults) t.number
            (spec2_by wanted.now (map restriction_form offered.now) wish.now a)) }
        ensures each { IfOk result (λ a. length a.base.answers.items ≡ length offered.now) }
        ensures fair { IfOk result (λ a. is_fair (wish_form wish.now) a.base.answers.items a.ordered a.limited ≡ true) }
        ensures err { IfErr result (λ fault. fault ≡ Fault.NoMemory) }
        ensures takes { IfOk result (λ a. a.base.answers.items ≡ map answer_of (map restriction_form offered.now)) }
        ensures narrow { IfOk result (λ a. a.base.narrow ≡ false) }
        ensures ordered { IfOk result (λ a. a.ordered ≡ is_by_key (map key_form wish.now.order.items)) }
        ensures limited { IfOk result (λ a. a.limited ≡ (is_some wish.now.limit && (all_exact a.base.answers.items && a.ordered))) }
    {
        let base = self.plan(alloc, t, wanted, offered)?;
        let ordered = is_by_key(&wish.order);
        let limited = wish.limit.is_some() && all_exact(&base.answers) && ordered;
        Ok(Agreement2 {
            base,
            ordered,
            limited,
        })
    }

    /// Where its store is steady as it ends and the tables' texts are known, it does what `Wrapper2::begin2` says of an honest box that
    /// holds what the database holds: nobody knows what a disk returns, but such a store has returned what was written. Refused, it does
    /// so over any store.
    fn begin2(
        &mut self,
        alloc: Global,
        t: TableNo,
        spec: &ScanSpec2,
        params: &[Value],
    ) -> Result<Ticket, Fault>
        requires { CanBegin2 (sqlite_state S.honest (state S.Store self.old.conn).now
            self.old.bound.items self.old.scans self.old.staged self.old.next self.old.pulled self.old.faults)
            t.number spec.now (map datum params.now) }
        ensures ok { IfOk result (λ ticket. Begins (sqlite_state S.honest (state S.Store self.old.conn).now
            self.old.bound.items self.old.scans self.old.staged self.old.next self.old.pulled self.old.faults) t.number
            (spec2_of spec.now) (map datum params.now) ticket.number
            (sqlite_state S.honest (state S.Store self.new.conn).now
            self.new.bound.items self.new.scans self.new.staged self.new.next self.new.pulled self.new.faults)) }
        ensures err { IfErr result (λ fault. RefusesBegin fault (sqlite_state S.honest (state S.Store self.old.conn).now
            self.old.bound.items self.old.scans self.old.staged self.old.next self.old.pulled self.old.faults)
            (sqlite_state S.honest (state S.Store self.new.conn).now
            self.new.bound.items self.new.scans self.new.staged self.new.next self.new.pulled self.new.faults)) }
        ensures clean_ok { IsSteady (S.Store.view self.new.conn.store) → AreKnown self.old.conn.schema
            → IfOk result (λ ticket. Begins (sqlite_state true (state S.Store self.old.conn).now
            self.old.bound.items self.old.scans self.old.staged self.old.next self.old.pulled self.old.faults) t.number
            (spec2_of spec.now) (map datum params.now) ticket.number
            (sqlite_state true (state S.Store self.new.conn).now
            self.new.bound.items self.new.scans self.new.staged self.new.next self.new.pulled self.new.faults)) }
        ensures clean_err { IfErr result (λ fault. RefusesBegin fault (sqlite_state true (state S.Store self.old.conn).now
            self.old.bound.items self.old.scans self.old.staged self.old.next self.old.pulled self.old.faults)
            (sqlite_state true (state S.Store self.new.conn).now
            self.new.bound.items self.new.scans self.new.staged self.new.next self.new.pulled self.new.faults)) }
    {
        let order = promised_order(alloc, spec)?;
        let limit = promised_limit(spec);
        self.start(alloc, t, &spec.base, order, limit, params)
    }
}
