//! Tables of rows in memory.
ghost use Rattle.std.specs.Prelude.{◌≡◌, ◌≤◌, ◌<◌, [], ℕ, List, map, length, replicate, Some, None, IfOk, IfErr, IsSome, IfSome, IsTrue, true, false, slice_get, option_map, is_some, bytes_eq};
ghost use Rattle.std.specs.Ordering.{nat_cmp};
ghost use Rattle.std.specs.BTreeMap as tree;
ghost use Rattle.std.specs.String.{string_bytes};
ghost use Rattle.fdw_api.specs.declared.scan.Agree.TheVariants.{Exact};
ghost use Rattle.fdw_api.specs.Prelude.{Column, column_of, kinds_of, key_form, spec2_of};
ghost use Rattle.med_value.specs.Datum.{datum};
ghost use Rattle.list_wrapper.specs.declared.held_tables.Table.{Table};
ghost use Rattle.list_wrapper.specs.Lists.{listed, entry_of, names_differ, rows_fit, IsNewList, types_match};
ghost use Rattle.list_wrapper.specs.Changes.{write_is};
ghost use Rattle.list_wrapper.specs.Scans.{table_listed, entry_at, write_fits, Rises, rises_once, ScansFit};

use crate::changes::{ListChange, ListWrite, add_change, apply};
use crate::held_tables::{Table, tables_of};
use crate::rises::rising_tables;
use crate::scans::{
    ListScan, advance, first_walk, is_rising, new_walk, restart, row_of_scan, spoil,
};
use fdw_api::interface::{Counts, Fault, RowId, SourceRow, TableOption, Ticket, Wrapper};
use fdw_api::law::{rows_are_typed, writes_are_typed};
use fdw_api::scan::{Agree, Agreement, Restriction, ScanSpec, copy_values};
use fdw_api::wishes::{Agreement2, OrderKey, ScanSpec2, Wish, Wrapper2};
use med_value::{Cause, ColType, ColumnDef, NoMemory, Row, TableNo, Value};
use std::alloc::Global;
use std::collections::BTreeMap;

/// A table of a list source.
#[derive(Drop)]
pub struct ListTable {
    /// The remote name under which it is bound.
    pub name: String,
    /// The types of its columns.
    pub kinds: Vec<ColType>,
    /// Its rows, in list order.
    pub rows: Vec<Row>,
}

/// Tables of rows in memory, as a source of foreign tables.
///
/// It answers `Fault::Source` never. Its kind is `list_kind`: the name of a table stands for it, and its columns may have any names.
/// The number of a table is its place, and the id of a row is its place in its table. It takes over every restriction, and gives the
/// wanted columns alone where it is asked to. A scan that looks for a parameter builds an index of that column when it is begun again, and
/// goes from place to place by it until it ends, unless an order is promised. Any other scan of a table whose first column rises goes only
/// over the places of the keys for which it asks, found by halves, unless an order is promised. It promises each order that is wished, and
/// each limit: a scan of which an order is promised sorts the places of the rows that it takes as it begins, and as it is begun again. A
/// write that is kept leaves the rows that stay in list order, and then the new ones; over 1,000,000 rows it is refused by
/// `Cause::TooLarge` (54000). The rows are held in runs, so that an INSERT, an UPDATE or a DELETE of one row moves no more of the others
/// than its run has. Whether the first column still rises a write tells by its changes, and by the rows that are left where it takes
/// several out. A refused call uses no ticket number up.
#[derive(Drop)]
pub struct ListWrapper {
    tables: Vec<Table>,
    bound: Vec<bool>,
    rising: Vec<bool>,
    scans: BTreeMap<u64, ListScan>,
    staged: Option<ListWrite>,
    next: u64,
    pulled: u64,
    ghost marked: { length bound.items ≡ length tables.items },
    ghost noted: { length rising.items ≡ length tables.items },
    ghost rises: { Rises tables.items rising.items } by { rises_once tables.items rising.items },
    ghost distinct: { IsTrue (names_differ (map table_listed tables.items)) },
    ghost typed: { IsTrue (rows_fit (map table_listed tables.items)) },
    ghost fitting: { ScansFit tables.items scans },
    ghost typed_write: { IsTrue (write_fits tables.items (option_map write_is staged)) },
    ghost fresh: { (k : ℕ) → next ≤ k → tree.get nat_cmp scans k ≡ None },
}

impl ListWrapper {
    ghost use Rattle.fdw_api.specs.Prelude.{spec_of, table_of, Begins, RefusesBegin};
    ghost use Rattle.list_wrapper.specs.ListBoxes.{box_of};

    /// A source of these tables, on which nothing is bound yet.
    ///
    /// It asks that no two tables have one name, that each row is of its table's types, and that no text has U+0000. Without
    /// options it objects to no columns.
    pub fn new(alloc: Global, tables: Vec<ListTable>) -> Result<Self, NoMemory>
        requires names { IsTrue (names_differ (map listed tables.items)) }
        requires rows { IsTrue (rows_fit (map listed tables.items)) }
        ensures new { IfOk result (λ w. IsNewList (box_of w) (map listed tables.items)) }
        ensures numbers { IfOk result (λ w. (box_of w).nature.skips ≡ false) }
        ensures no_objection { IfOk result (λ w. (columns : List Column) → (box_of w).nature.kind.objections columns [] ≡ []) }
    {
        let tables = tables_of(alloc, tables)?;
        let bound = vec![in alloc; false; tables.len()]?;
        let rising = rising_tables(alloc, &tables)?;
        Ok(ListWrapper {
            tables,
            bound,
            rising,
            scans: BTreeMap::new(alloc),
            staged: None,
            next: 0,
            pulled: 0,
        })
    }

    // Begins a scan of which this order and this limit are promised.
    fn start(
        &mut self,
        alloc: Global,
        t: TableNo,
        spec: &ScanSpec,
        order: Vec<OrderKey>,
        limit: Option<u64>,
        params: &[Value],
    ) -> Result<Ticket, Fault>
        requires { IsSome (table_of (box_of self.old) t.number) }
        ensures ok { IfOk result (λ ticket. Begins (box_of self.old) t.number
            (record (spec_of spec.now) { order = map key_form order.items; limit = limit }) (map datum params.now) ticket.number
            (box_of self.new)) }
        ensures err { IfErr result (λ fault. RefusesBegin fault (box_of self.old) (box_of self.new)) }
    {
        if self.next == u64::MAX {
            return Err(Fault::Refused(Cause::LimitExceeded));
        }
        let table = t.number as usize;
        let rises = is_rising(&self.rising, table);
        let walk = first_walk(alloc, &self.tables[table].rows, rises, spec, &order, params)?;
        let spec = spec.copy(alloc)?;
        let params = copy_values(alloc, params)?;
        let scan = ListScan {
            table,
            spec,
            order,
            limit,
            params,
            walk,
            at: 0,
            more: limit,
            broken: false,
        };
        let number = self.next;
        let Ok(_) = self.scans.insert(number, scan) else {
            return Err(Fault::NoMemory);
        };
        self.next += 1;
        Ok(Ticket { number })
    }
}

/// The keys of the order that is promised of a scan, none where no order is.
fn promised_order(alloc: Global, spec: &ScanSpec2) -> Result<Vec<OrderKey>, NoMemory>
    ensures { IfOk result (λ keys. map key_form keys.items ≡ (spec2_of spec.now).order) }
{
    if spec.ordered {
        Ok(spec.wish.order.clone()?)
    } else {
        Ok(Vec::new(alloc))
    }
}

/// How many rows are promised to be all that come of a scan.
fn promised_limit(spec: &ScanSpec2) -> Option<u64>
    ensures { result ≡ (spec2_of spec.now).limit }
{
    if spec.limited { spec.wish.limit } else { None }
}

/// The place of the first table of a name.
fn find(tables: &Vec<Table>, name: &str) -> Option<usize>
    ensures entry { entry_of (map table_listed tables.now.items) name.now ≡ entry_at tables.now.items result }
    ensures within { IfSome result (λ at. at < length tables.now.items) }
    ensures named { IfSome result (λ at. (x : Table)
        × (slice_get tables.now.items at ≡ Some x) × (bytes_eq (string_bytes x.name) name.now ≡ true)) }
{
    let mut at = 0;
    while at < tables.len() {
        if tables[at].name.as_str() == name {
            return Some(at);
        }
        at += 1;
    }
    None
}

/// Whether columns are as many as these types, and of them.
fn has_types(types: &[ColType], columns: &[ColumnDef]) -> bool
    ensures { result ≡ types_match types.now (kinds_of (map column_of columns.now)) }
{
    let mut types = types;
    let mut columns = columns;
    while let Some((kind, types_after)) = types.split_first() {
        let Some((column, columns_after)) = columns.split_first() else {
            return false;
        };
        if *kind != column.kind {
            return false;
        }
        types = types_after;
        columns = columns_after;
    }
    columns.is_empty()
}

impl Wrapper for ListWrapper {
    ghost use Rattle.fdw_api.specs.Prelude.{restriction_form, spec_by, table_of, Allows};
    ghost use Rattle.list_wrapper.specs.ListBoxes.{box_of};

    ghost meaning = { box_of };

    fn bind(
        &mut self,
        _alloc: Global,
        remote: &str,
        columns: &[ColumnDef],
        _options: &[TableOption],
    ) -> Result<TableNo, Fault> {
        let Some(at) = find(&self.tables, remote) else {
            return Err(Fault::Refused(Cause::TableNotFound));
        };
        if !has_types(&self.tables[at].kinds, columns) {
            return Err(Fault::Refused(Cause::InvalidDataType));
        }
        self.bound[at] = true;
        Ok(TableNo { number: at as u64 })
    }

    fn unbind(&mut self, t: TableNo) {
        self.bound[t.number as usize] = false;
    }

    /// Takes over every restriction, and gives the wanted columns alone.
    fn plan(
        &self,
        alloc: Global,
        _t: TableNo,
        _wanted: &[usize],
        offered: &[Restriction],
    ) -> Result<Agreement, Fault>
        requires { IsSome (table_of (box_of self.now) _t.number) }
        ensures ok { IfOk result (λ a. Allows (box_of self.now) _t.number (spec_by _wanted.now (map restriction_form offered.now) a)) }
        ensures each { IfOk result (λ a. length a.answers.items ≡ length offered.now) }
        ensures err { IfErr result (λ fault. fault ≡ Fault.NoMemory) }
        ensures takes_all { IfOk result (λ a. a.answers.items ≡ replicate (length offered.now) Exact) }
        ensures narrow { IfOk result (λ a. a.narrow ≡ true) }
    {
        let answers = vec![in alloc; Agree::Exact; offered.len()]?;
        Ok(Agreement {
            answers,
            narrow: true,
        })
    }

    fn begin(
        &mut self,
        alloc: Global,
        t: TableNo,
        spec: &ScanSpec,
        params: &[Value],
    ) -> Result<Ticket, Fault> {
        self.start(alloc, t, spec, Vec::new(alloc), None, params)
    }

    fn iterate(&mut self, alloc: Global, ticket: &Ticket) -> Result<Option<SourceRow>, Fault> {
        let number = ticket.number;
        match row_of_scan(alloc, &self.tables, &self.scans, number) {
            Err(_) => {
                spoil(&mut self.scans, number);
                Err(Fault::NoMemory)
            }
            Ok(None) => Ok(None),
            Ok(Some(step)) => {
                rows_are_typed();
                advance(&mut self.scans, number, step.after);
                self.pulled = self.pulled.saturating_add(1);
                Ok(Some(step.row))
            }
        }
    }

    fn rescan(&mut self, alloc: Global, ticket: &Ticket, params: &[Value]) -> Result<(), Fault> {
        let Ok(copies) = copy_values(alloc, params) else {
            spoil(&mut self.scans, ticket.number);
            return Err(Fault::NoMemory);
        };
        match new_walk(
            alloc,
            &self.tables,
            &self.rising,
            &self.scans,
            ticket.number,
            params,
        ) {
            Err(_) => {
                spoil(&mut self.scans, ticket.number);
                Err(Fault::NoMemory)
            }
            Ok(walk) => {
                restart(&mut self.scans, ticket.number, copies, walk);
                Ok(())
            }
        }
    }

    fn end(&mut self, ticket: Ticket) {
        let Ticket { number } = ticket;
        let _ = self.scans.remove(&number);
    }

    fn begin_modify(&mut self, alloc: Global, t: TableNo) -> Result<(), Fault> {
        self.staged = Some(ListWrite {
            table: t.number,
            changes: Vec::new(alloc),
            broken: false,
        });
        Ok(())
    }

    fn insert(&mut self, _alloc: Global, row: Row) -> Result<(), Fault> {
        add_change(&mut self.staged, ListChange::Insert(row))
    }

    fn update(&mut self, _alloc: Global, id: RowId, row: Row) -> Result<(), Fault> {
        add_change(&mut self.staged, ListChange::Update(id.number, row))
    }

    fn delete(&mut self, _alloc: Global, id: RowId) -> Result<(), Fault> {
        add_change(&mut self.staged, ListChange::Delete(id.number))
    }

    fn end_modify(&mut self, alloc: Global, keep: bool) -> Result<(), Fault> {
        let Some(staged) = self.staged.take() else {
            return Ok(());
        };
        if !keep {
            return Ok(());
        }
        let ListWrite {
            table,
            changes,
            broken: _,
        } = staged;
        let at = table as usize;
        writes_are_typed();
        apply(
            alloc,
            &mut self.tables[at].rows,
            &mut self.rising[at],
            changes,
        )
    }

    fn ledger(&self) -> Counts {
        Counts {
            next: self.next,
            live: self.scans.len() as u64,
            pulled: self.pulled,
            faults: 0,
        }
    }
}

impl Wrapper2 for ListWrapper {
    ghost use Rattle.fdw_api.specs.Prelude.{restriction_form, table_of, wish_form, spec2_by, is_fair, AllowsPromise};
    ghost use Rattle.list_wrapper.specs.ListBoxes.{box_of};

    /// Takes over every restriction, gives the wanted columns alone, and promises the order that is wished, and the limit if one is.
    fn plan2(
        &self,
        alloc: Global,
        t: TableNo,
        wanted: &[usize],
        offered: &[Restriction],
        wish: &Wish,
    ) -> Result<Agreement2, Fault>
        requires { IsSome (table_of (box_of self.now) t.number) }
        ensures ok { IfOk result (λ a. AllowsPromise (box_of self.now) t.number
            (spec2_by wanted.now (map restriction_form offered.now) wish.now a)) }
        ensures each { IfOk result (λ a. length a.base.answers.items ≡ length offered.now) }
        ensures fair { IfOk result (λ a. is_fair (wish_form wish.now) a.base.answers.items a.ordered a.limited ≡ true) }
        ensures err { IfErr result (λ fault. fault ≡ Fault.NoMemory) }
        ensures takes_all { IfOk result (λ a. a.base.answers.items ≡ replicate (length offered.now) Exact) }
        ensures narrow { IfOk result (λ a. a.base.narrow ≡ true) }
        ensures ordered { IfOk result (λ a. a.ordered ≡ true) }
        ensures limited { IfOk result (λ a. a.limited ≡ is_some wish.now.limit) }
    {
        let base = self.plan(alloc, t, wanted, offered)?;
        Ok(Agreement2 {
            base,
            ordered: true,
            limited: wish.limit.is_some(),
        })
    }

    fn begin2(
        &mut self,
        alloc: Global,
        t: TableNo,
        spec: &ScanSpec2,
        params: &[Value],
    ) -> Result<Ticket, Fault> {
        let order = promised_order(alloc, spec)?;
        self.start(alloc, t, &spec.base, order, promised_limit(spec), params)
    }
}
