//! A new database in memory as a source, and orders that are written through it: the rows (key, 1, 1).
ghost use Rattle.std.specs.Prelude.{◌≡◌, ◌∷◌, [], ℕ, true, false, List, map, Some, IfOk, OnOk};
ghost use Rattle.med_value.specs.Datum.{tuple, Whole};
ghost use Rattle.med_value.specs.declared.value.ColType.TheVariants.{Int};
ghost use Rattle.fdw_api.specs.Prelude.{Column, column_of, kinds_of, BoxTable, IsIdle, table_of, CanModify};
ghost use Rattle.sqlite.specs.Held.{state};
ghost use Rattle.sqlite.specs.Steps.{over_memory};
ghost use Rattle.sqlite_tables.specs.Layouts.{layout_at};
ghost use Rattle.sqlite_writes.specs.Writable.{AreApart, IsWritable};
ghost use Rattle.sqlite_wrapper.specs.Boxes.{sqlite_state};
ghost use Rattle.source_tests.specs.Writing.{IsWriting};

use fdw_api::interface::{Fault, Wrapper};
use med_value::{ColType, ColumnDef, NoMemory, Row, TableNo, Value};
use sqlite::{Connection, Error, MemStore};
use sqlite_wrapper::SqliteWrapper;
use sqlite_writes::{Watch, memory_database};
use std::alloc::Global;
use std::test::Fail;

/// The types of the columns of orders.
pub const KINDS: [ColType; 3] = [ColType::Int, ColType::Int, ColType::Int];

fn number_column(alloc: Global, name: &str) -> Result<ColumnDef, NoMemory>
    ensures { IfOk result (λ c. c.kind ≡ Int) }
{
    Ok(ColumnDef {
        name: name.to_string(alloc)?,
        kind: ColType::Int,
        not_null: false,
    })
}

/// The columns of orders.
fn columns(alloc: Global) -> Result<Vec<ColumnDef>, NoMemory>
    ensures { IfOk result (λ columns. kinds_of (map column_of columns.items) ≡ Int ∷ Int ∷ Int ∷ []) }
{
    Ok(vec![in alloc;
        number_column(alloc, "id")?,
        number_column(alloc, "part")?,
        number_column(alloc, "n")?,
    ]?)
}

/// Binds the orders on a new source.
pub fn bind_orders<W: Wrapper>(source: &mut W, alloc: Global) -> Result<TableNo, Fault>
    requires idle { IsIdle (W.meaning source.old) }
    requires free { (columns : List Column) → (W.meaning source.old).nature.kind.objections columns [] ≡ [] }
    ensures modify { IfOk result (λ t. CanModify (W.meaning source.new) t.number) }
    ensures kinds { IfOk result (λ t. (bound : BoxTable) → table_of (W.meaning source.new) t.number ≡ Some bound
        → bound.kinds ≡ Int ∷ Int ∷ Int ∷ []) }
{
    let columns = columns(alloc)?;
    source.bind(alloc, "orders", &columns, &[])
}

/// A row of orders.
fn order(alloc: Global, key: i64, part: i64, n: i64) -> Result<Row, NoMemory>
    ensures { IfOk result (λ r. tuple r ≡ Whole key ∷ Whole part ∷ Whole n ∷ []) }
{
    let cells = vec![in alloc; Value::Int(key), Value::Int(part), Value::Int(n)]?;
    Ok(Row { cells })
}

/// Stages an order of each of these keys.
fn stage_keys<W: Wrapper>(
    source: &mut W,
    alloc: Global,
    table: TableNo,
    keys: &[i64],
) -> Result<(), Fault>
    requires { IsWriting (W.meaning source.old) table.number (Int ∷ Int ∷ Int ∷ []) }
    ensures writing { OnOk result (IsWriting (W.meaning source.new) table.number (Int ∷ Int ∷ Int ∷ [])) }
    ensures bound { table_of (W.meaning source.new) table.number ≡ table_of (W.meaning source.old) table.number }
{
    for key in keys {
        let row = order(alloc, *key, 1, 1)?;
        source.insert(alloc, row)?;
    }
    Ok(())
}

/// Writes an order of each of these keys, by one write.
pub fn write_keys<W: Wrapper>(
    source: &mut W,
    alloc: Global,
    table: TableNo,
    keys: &[i64],
) -> Result<(), Fault>
    requires can { CanModify (W.meaning source.old) table.number }
    requires kinds { (bound : BoxTable) → table_of (W.meaning source.old) table.number ≡ Some bound → bound.kinds ≡ Int ∷ Int ∷ Int ∷ [] }
    ensures bound { table_of (W.meaning source.new) table.number ≡ table_of (W.meaning source.old) table.number }
    ensures can { OnOk result (CanModify (W.meaning source.new) table.number) }
{
    source.begin_modify(alloc, table)?;
    stage_keys(source, alloc, table, keys)?;
    source.end_modify(alloc, true)
}

// Returns a new database in memory, whose statements may each take `limit` steps, or any number where there is none.
fn limited_database(alloc: Global, limit: Option<u64>) -> Result<Connection<MemStore>, Error>
    ensures writable { (table : ℕ) → IfOk result (λ conn. ∥ IsWritable conn.schema (layout_at table) ∥₁) }
    ensures apart { IfOk result (λ conn. AreApart conn.schema) }
    ensures idle { IfOk result (λ conn. conn.in_transaction ≡ false) }
{
    let mut conn = memory_database(alloc)?;
    conn.set_step_limit(limit);
    Ok(conn)
}

/// Returns a new database in memory as a source, whose statements may each take `limit` steps, or any number where there is none.
pub fn new_source(alloc: Global, limit: Option<u64>) -> Result<SqliteWrapper<MemStore>, Fail>
    ensures { IfOk result (λ w. IsIdle
        (sqlite_state true (state over_memory w.conn).now w.bound.items w.scans w.staged w.next w.pulled w.faults)) }
{
    let conn = limited_database(alloc, limit)?;
    let source = SqliteWrapper::new(alloc, conn, Watch::of_memory())?;
    Ok(source)
}
