//! A remote table that is bound, of a database whose files are still those that were opened.
ghost use Rattle.std.specs.Prelude.{◌≡◌, ◌≤◌, ◌⊎◌, true, false, [], length, map, nat_eq, nat_lt, IfOk, IfErr, OnOk};
ghost use Rattle.std.specs.List.{IsDistinct};
ghost use Rattle.sqlite.specs.Held.{state};
ghost use Rattle.med_value.specs.Prelude.{phase_of, row_limit};
ghost use Rattle.fdw_api.specs.Prelude.{IsLeast, column_of, kinds_of, is_late};
ghost use Rattle.sqlite_tables.specs.Layouts.{layout_at, layout_count, layouts, kinds_in, types_match};
ghost use Rattle.sqlite_tables.specs.Fitting.{is_of_shape};
ghost use Rattle.sqlite_tables.specs.Tables.{IsKnown, IsSure, ReadsOnly, rows_of};
ghost use Rattle.sqlite_tables.specs.Refusing.{OnlyBy};
ghost use Rattle.sqlite_tables.specs.Surveys.{causes_of};
ghost use Rattle.sqlite_writes.specs.Watched.{Looks};

use crate::numbers::shape_of;
use fdw_api::interface::Fault;
use med_value::ColumnDef;
use sqlite::Connection;
use sqlite_tables::{Shape, SourceStore};
use sqlite_writes::Watch;

// Looks at a remote table whole, as `sqlite_tables::open_table` does, where the files of the database are those that were opened. Else
// the source has failed, and the connection is not used.
fn open_shape<S: SourceStore>(
    conn: &mut Connection<S>,
    watch: &mut Watch,
    shape: &Shape,
    columns: &[ColumnDef],
) -> Result<usize, Fault>
    requires idle { conn.old.in_transaction ≡ false }
    requires known { S.honest ≡ true → ∥ IsKnown conn.old.schema shape.now ∥₁ }
    ensures types { OnOk result (types_match (kinds_in shape.now) (kinds_of (map column_of columns.now)) ≡ true) }
    ensures fits { OnOk result (is_of_shape (state S.Store conn.old).now.schema shape.now ≡ true) }
    ensures ok { S.honest ≡ true
        → OnOk result (causes_of (map column_of columns.now) (state S.Store conn.old).now shape.now ≡ []) }
    ensures count { S.honest ≡ true → IfOk result (λ n. n ≡ length (rows_of (state S.Store conn.old).now shape.now)) }
    ensures few { IfOk result (λ n. n ≤ row_limit) }
    ensures once { S.honest ≡ true
        → OnOk result (IsDistinct nat_eq (map (λ r. r.id) (rows_of (state S.Store conn.old).now shape.now))) }
    ensures refused { IfErr result (OnlyBy (λ c. (is_late (phase_of c) ≡ true) × (S.honest ≡ true
        → IsLeast (causes_of (map column_of columns.now) (state S.Store conn.old).now shape.now) c))) }
    ensures same { S.honest ≡ true → (state S.Store conn.new).now ≡ (state S.Store conn.old).now }
    ensures sure_ok { IsSure (state S.Store conn.old) (state S.Store conn.new) shape.now
        → OnOk result (causes_of (map column_of columns.now) (state S.Store conn.old).now shape.now ≡ []) }
    ensures sure_count { IsSure (state S.Store conn.old) (state S.Store conn.new) shape.now
        → IfOk result (λ n. n ≡ length (rows_of (state S.Store conn.old).now shape.now)) }
    ensures sure_once { IsSure (state S.Store conn.old) (state S.Store conn.new) shape.now
        → OnOk result (IsDistinct nat_eq (map (λ r. r.id) (rows_of (state S.Store conn.old).now shape.now))) }
    ensures sure_refused { IfErr result (OnlyBy (λ c. IsSure (state S.Store conn.old) (state S.Store conn.new) shape.now
        → IsLeast (causes_of (map column_of columns.now) (state S.Store conn.old).now shape.now) c)) }
    ensures reads { ReadsOnly (state S.Store conn.old) (state S.Store conn.new) shape.now }
    ensures idle { conn.new.in_transaction ≡ false }
    ensures looked { (conn.new ≡ conn.old) ⊎ Looks watch.old watch.new true }
    ensures seen { OnOk result (Looks watch.old watch.new true) }
{
    watch.look()?;
    match sqlite_tables::open_table(conn, shape, columns) {
        Ok(count) => Ok(count),
        Err(fault) => Err(fault),
    }
}

/// Looks at a remote table whole, as `sqlite_tables::open_table` does, where the files of the database are those that were opened. Else
/// the source has failed, and the connection is not used.
pub(crate) fn open_table<S: SourceStore>(
    conn: &mut Connection<S>,
    watch: &mut Watch,
    shapes: &[Shape],
    table: u64,
    columns: &[ColumnDef],
) -> Result<usize, Fault>
    requires shapes { shapes.now ≡ layouts }
    requires within { nat_lt table layout_count ≡ true }
    requires idle { conn.old.in_transaction ≡ false }
    requires known { S.honest ≡ true → ∥ IsKnown conn.old.schema (layout_at table) ∥₁ }
    ensures types { OnOk result (types_match (kinds_in (layout_at table)) (kinds_of (map column_of columns.now)) ≡ true) }
    ensures fits { OnOk result (is_of_shape (state S.Store conn.old).now.schema (layout_at table) ≡ true) }
    ensures ok { S.honest ≡ true
        → OnOk result (causes_of (map column_of columns.now) (state S.Store conn.old).now (layout_at table) ≡ []) }
    ensures count { S.honest ≡ true → IfOk result (λ n. n ≡ length (rows_of (state S.Store conn.old).now (layout_at table))) }
    ensures few { IfOk result (λ n. n ≤ row_limit) }
    ensures once { S.honest ≡ true
        → OnOk result (IsDistinct nat_eq (map (λ r. r.id) (rows_of (state S.Store conn.old).now (layout_at table)))) }
    ensures refused { IfErr result (OnlyBy (λ c. (is_late (phase_of c) ≡ true) × (S.honest ≡ true
        → IsLeast (causes_of (map column_of columns.now) (state S.Store conn.old).now (layout_at table)) c))) }
    ensures same { S.honest ≡ true → (state S.Store conn.new).now ≡ (state S.Store conn.old).now }
    ensures sure_ok { IsSure (state S.Store conn.old) (state S.Store conn.new) (layout_at table)
        → OnOk result (causes_of (map column_of columns.now) (state S.Store conn.old).now (layout_at table) ≡ []) }
    ensures sure_count { IsSure (state S.Store conn.old) (state S.Store conn.new) (layout_at table)
        → IfOk result (λ n. n ≡ length (rows_of (state S.Store conn.old).now (layout_at table))) }
    ensures sure_once { IsSure (state S.Store conn.old) (state S.Store conn.new) (layout_at table)
        → OnOk result (IsDistinct nat_eq (map (λ r. r.id) (rows_of (state S.Store conn.old).now (layout_at table)))) }
    ensures sure_refused { IfErr result (OnlyBy (λ c. IsSure (state S.Store conn.old) (state S.Store conn.new) (layout_at table)
        → IsLeast (causes_of (map column_of columns.now) (state S.Store conn.old).now (layout_at table)) c)) }
    ensures reads { ReadsOnly (state S.Store conn.old) (state S.Store conn.new) (layout_at table) }
    ensures idle { conn.new.in_transaction ≡ false }
    ensures looked { (conn.new ≡ conn.old) ⊎ Looks watch.old watch.new true }
    ensures seen { OnOk result (Looks watch.old watch.new true) }
{
    let shape = shape_of(shapes, table);
    open_shape(conn, watch, shape, columns)
}
