//! The list of orders: its rows, its columns, and how it is bound and written.
ghost use Rattle.std.specs.Prelude.{◌≡◌, ◌∷◌, [], List, map, Some, IfOk, OnOk, IsSome, IsTrue};
ghost use Rattle.med_value.specs.Datum.{tuple, Whole};
ghost use Rattle.med_value.specs.declared.value.ColType.TheVariants.{Int};
ghost use Rattle.fdw_api.specs.Prelude.{Column, column_of, BoxTable, IsIdle, table_of, CanModify};
ghost use Rattle.list_wrapper.specs.Lists.{listed, names_differ, rows_fit};
ghost use Rattle.list_wrapper.specs.ListBoxes.{box_of};

use fdw_api::interface::{Fault, Wrapper};
use fdw_api::scan::ScanSpec;
use list_wrapper::{ListTable, ListWrapper};
use med_value::{ColType, ColumnDef, NoMemory, Row, TableNo, Value};
use std::alloc::Global;

const THREE_NUMBERS: [ColType; 3] = [ColType::Int, ColType::Int, ColType::Int];

fn order(alloc: Global, no: i64, part: i64, n: i64) -> Result<Row, NoMemory>
    ensures { IfOk result (λ r. tuple r ≡ Whole no ∷ Whole part ∷ Whole n ∷ []) }
{
    let cells = vec![in alloc; Value::Int(no), Value::Int(part), Value::Int(n)]?;
    Ok(Row { cells })
}

/// The table `orders` of three rows.
fn orders(alloc: Global) -> Result<Vec<ListTable>, NoMemory>
    ensures names { IfOk result (λ tables. IsTrue (names_differ (map listed tables.items))) }
    ensures rows { IfOk result (λ tables. IsTrue (rows_fit (map listed tables.items))) }
{
    let kinds = vec![in alloc; ColType::Int, ColType::Int, ColType::Int]?;
    let rows = vec![in alloc;
        order(alloc, 10, 1, 4)?,
        order(alloc, 11, 1, 6)?,
        order(alloc, 12, 9, 1)?,
    ]?;
    let name = "orders".to_string(alloc)?;
    Ok(vec![in alloc; ListTable { name, kinds, rows }]?)
}

/// Columns of these types, under names of their own.
pub fn columns(alloc: Global, kinds: &[ColType]) -> Result<Vec<ColumnDef>, NoMemory>
    ensures { IfOk result (λ columns. map (λ c. c.kind) (map column_of columns.items) ≡ kinds.now) }
{
    let mut columns = Vec::new(alloc);
    for kind in kinds {
        columns.push(ColumnDef {
            name: "any".to_string(alloc)?,
            kind: *kind,
            not_null: false,
        })?;
    }
    Ok(columns)
}

/// A new list of the orders.
pub fn new_list(alloc: Global) -> Result<ListWrapper, NoMemory>
    ensures idle { IfOk result (λ w. IsIdle (box_of w)) }
    ensures free { IfOk result (λ w. (columns : List Column) → (box_of w).nature.kind.objections columns [] ≡ []) }
{
    ListWrapper::new(alloc, orders(alloc)?)
}

/// Binds the orders on a new source.
pub fn bind_orders<W: Wrapper>(source: &mut W, alloc: Global) -> Result<TableNo, Fault>
    requires idle { IsIdle (W.meaning source.old) }
    requires free { (columns : List Column) → (W.meaning source.old).nature.kind.objections columns [] ≡ [] }
    ensures bound { IfOk result (λ t. IsSome (table_of (W.meaning source.new) t.number)) }
    ensures modify { IfOk result (λ t. CanModify (W.meaning source.new) t.number) }
    ensures kinds { IfOk result (λ t. (bound : BoxTable) → table_of (W.meaning source.new) t.number ≡ Some bound → bound.kinds
        ≡ Int ∷ Int ∷ Int ∷ []) }
{
    let columns = columns(alloc, &THREE_NUMBERS)?;
    source.bind(alloc, "orders", &columns, &[])
}

/// Binds the orders, lets them go and binds them again.
fn bind_again<W: Wrapper>(source: &mut W, alloc: Global) -> Result<TableNo, Fault>
    requires idle { IsIdle (W.meaning source.old) }
    requires free { (columns : List Column) → (W.meaning source.old).nature.kind.objections columns [] ≡ [] }
    ensures { IfOk result (λ t. IsSome (table_of (W.meaning source.new) t.number)) }
{
    let columns = columns(alloc, &THREE_NUMBERS)?;
    let unused = source.bind(alloc, "orders", &columns, &[])?;
    source.unbind(unused);
    bind_orders(source, alloc)
}

/// Writes an order: the row (13, 9, 2).
fn insert_order<W: Wrapper>(source: &mut W, alloc: Global, table: TableNo) -> Result<(), Fault>
    requires can { CanModify (W.meaning source.old) table.number }
    requires kinds { (bound : BoxTable) → table_of (W.meaning source.old) table.number ≡ Some bound → bound.kinds ≡ Int ∷ Int ∷ Int ∷ [] }
    ensures { OnOk result (IsSome (table_of (W.meaning source.new) table.number)) }
{
    let row = order(alloc, 13, 9, 2)?;
    source.begin_modify(alloc, table)?;
    source.insert(alloc, row)?;
    source.end_modify(alloc, true)
}

/// Takes away the row that a scan gives first.
fn delete_first<W: Wrapper>(source: &mut W, alloc: Global, table: TableNo) -> Result<(), Fault>
    requires { CanModify (W.meaning source.old) table.number }
    ensures { OnOk result (IsSome (table_of (W.meaning source.new) table.number)) }
{
    let ticket = source.begin(alloc, table, &ScanSpec::plain(alloc), &[])?;
    let first = source.iterate(alloc, &ticket);
    source.end(ticket);
    match first? {
        None => Ok(()),
        Some(row) => {
            source.begin_modify(alloc, table)?;
            source.delete(alloc, row.id)?;
            source.end_modify(alloc, true)
        }
    }
}

/// Binds the orders, and writes one more.
fn bind_and_insert<W: Wrapper>(source: &mut W, alloc: Global) -> Result<TableNo, Fault>
    requires idle { IsIdle (W.meaning source.old) }
    requires free { (columns : List Column) → (W.meaning source.old).nature.kind.objections columns [] ≡ [] }
    ensures { IfOk result (λ t. IsSome (table_of (W.meaning source.new) t.number)) }
{
    let table = bind_orders(source, alloc)?;
    insert_order(source, alloc, table)?;
    Ok(table)
}

/// Binds the orders, and takes the first one away.
fn bind_and_delete<W: Wrapper>(source: &mut W, alloc: Global) -> Result<TableNo, Fault>
    requires idle { IsIdle (W.meaning source.old) }
    requires free { (columns : List Column) → (W.meaning source.old).nature.kind.objections columns [] ≡ [] }
    ensures { IfOk result (λ t. IsSome (table_of (W.meaning source.new) t.number)) }
{
    let table = bind_orders(source, alloc)?;
    delete_first(source, alloc, table)?;
    Ok(table)
}

/// Binds the orders on a new source, and does what `rebind`, `insert` or `delete` says besides.
pub fn prepare<W: Wrapper>(source: &mut W, alloc: Global, first: &str) -> Result<TableNo, Fault>
    requires idle { IsIdle (W.meaning source.old) }
    requires free { (columns : List Column) → (W.meaning source.old).nature.kind.objections columns [] ≡ [] }
    ensures { IfOk result (λ t. IsSome (table_of (W.meaning source.new) t.number)) }
{
    match first {
        "rebind" => bind_again(source, alloc),
        "insert" => bind_and_insert(source, alloc),
        "delete" => bind_and_delete(source, alloc),
        _ => bind_orders(source, alloc),
    }
}
