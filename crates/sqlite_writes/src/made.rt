//! A new database in memory, with the tables of both layouts.
ghost use Rattle.std.specs.Prelude.{◌≡◌, ℕ, false, [], Some, IfOk, OnOk};
ghost use Rattle.fdw_api.specs.Kinds.{Stored};
ghost use Rattle.sqlite.specs.Held.{state};
ghost use Rattle.sqlite.specs.Steps.{over_memory};
ghost use Rattle.sqlite_tables.specs.Prelude.{kinds_in, layout_at, IsKnown, entry_of};
ghost use Rattle.sqlite_writes.specs.Writable.{AreApart, IsWritable};
ghost use Rattle.sqlite_writes.specs.Made.{no_tables, orders_alone, both_tables};

use sqlite::{Connection, Error, MemStore};
use std::alloc::Global;

// Makes the table of orders in a database without tables.
fn make_orders(conn: &mut Connection<MemStore>) -> Result<usize, Error>
    requires none { (state over_memory conn.old).now.schema ≡ no_tables }
    ensures made { OnOk result ((state over_memory conn.new).now.schema ≡ orders_alone) }
    ensures empty { OnOk result ((state over_memory conn.new).now.trees 0 ≡ []) }
    ensures mode { OnOk result (conn.new.in_transaction ≡ conn.old.in_transaction) }
{
    conn.execute(
        "CREATE TABLE orders (id INTEGER PRIMARY KEY, part INTEGER, n INTEGER)",
        &[],
    )
}

// Makes the table of people beside that of orders.
fn make_people(conn: &mut Connection<MemStore>) -> Result<usize, Error>
    requires alone { (state over_memory conn.old).now.schema ≡ orders_alone }
    ensures made { OnOk result ((state over_memory conn.new).now.schema ≡ both_tables) }
    ensures empty { OnOk result ((state over_memory conn.new).now.trees 1 ≡ []) }
    ensures kept { OnOk result ((state over_memory conn.new).now.trees 0 ≡ (state over_memory conn.old).now.trees 0) }
    ensures mode { OnOk result (conn.new.in_transaction ≡ conn.old.in_transaction) }
{
    conn.execute(
        "CREATE TABLE people (id INTEGER PRIMARY KEY, name TEXT, active INTEGER)",
        &[],
    )
}

/// Returns a new database in memory, with the tables of orders and of people, both without rows, and in no transaction.
///
/// Fails where the database refuses one of the two texts that make them, as when out of memory.
pub fn memory_database(alloc: Global) -> Result<Connection<MemStore>, Error>
    ensures known { (table : ℕ) → IfOk result (λ conn. ∥ IsKnown conn.schema (layout_at table) ∥₁) }
    ensures writable { (table : ℕ) → IfOk result (λ conn. ∥ IsWritable conn.schema (layout_at table) ∥₁) }
    ensures apart { IfOk result (λ conn. AreApart conn.schema) }
    ensures tables { (table : ℕ) → IfOk result (λ conn. entry_of (state over_memory conn).now (layout_at table)
        ≡ Some (Stored (kinds_in (layout_at table)) [])) }
    ensures idle { IfOk result (λ conn. conn.in_transaction ≡ false) }
{
    let mut conn = Connection::open_in_memory(alloc)?;
    make_orders(&mut conn)?;
    make_people(&mut conn)?;
    Ok(conn)
}
