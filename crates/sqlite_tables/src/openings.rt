//! Remote tables as they are found when they are bound.
ghost use Rattle.std.specs.Prelude.{◌≡◌, ◌≤◌, true, false, [], length, map, nat_eq, IfOk, IfErr, OnOk};
ghost use Rattle.std.specs.List.{IsDistinct};
ghost use Rattle.sqlite.specs.Held.{state};
ghost use Rattle.med_value.specs.Prelude.{phase_of, row_limit};
ghost use Rattle.fdw_api.specs.Prelude.{IsLeast, column_of, kinds_of, is_late};
ghost use Rattle.sqlite_tables.specs.Layouts.{kinds_in, types_match};
ghost use Rattle.sqlite_tables.specs.Fitting.{is_of_shape};
ghost use Rattle.sqlite_tables.specs.Tables.{IsKnown, IsSure, ReadsOnly, rows_of};
ghost use Rattle.sqlite_tables.specs.Refusing.{OnlyBy};
ghost use Rattle.sqlite_tables.specs.Surveys.{causes_of};

use crate::surveys::read_whole;
use crate::{Shape, SourceStore, find_table, types_match};
use fdw_api::interface::Fault;
use med_value::{Cause, ColumnDef};
use sqlite::Connection;

/// Looks at a remote table whole, which is to be bound with these columns, and returns how many rows it has.
///
/// Refused where there is no such table, or one of another shape (HV00R), where the number or types of the columns are not its own
/// (HV004), where a cell is not of its column's type or a text has U+0000 (22P02), and where there are more than 1,000,000 rows (54000),
/// by one of the least phase. No two rows have one id. It changes nothing, also where it fails. This holds over a store that always
/// returns what was written, and of each call by itself that is sure (`IsSure`).
pub fn open_table<S: SourceStore>(
    conn: &mut Connection<S>,
    shape: &Shape,
    columns: &[ColumnDef],
) -> Result<usize, Fault>
    requires idle { conn.old.in_transaction ≡ false }
    requires known { S.honest ≡ true → ∥ IsKnown conn.old.schema shape.now ∥₁ }
    ensures types { OnOk result (types_match (kinds_in shape.now) (kinds_of (map column_of columns.now)) ≡ true) }
    ensures fits { OnOk result (is_of_shape (state S.Store conn.old).now.schema shape.now ≡ true) }
    ensures ok { S.honest ≡ true
        → OnOk result (causes_of (map column_of columns.now) (state S.Store conn.old).now shape.now ≡ []) }
    ensures count { S.honest ≡ true → IfOk result (λ n. n ≡ length (rows_of (state S.Store conn.old).now shape.now)) }
    ensures few { IfOk result (λ n. n ≤ row_limit) }
    ensures once { S.honest ≡ true → IsDistinct nat_eq (map (λ r. r.id) (rows_of (state S.Store conn.old).now shape.now)) }
    ensures refused { IfErr result (OnlyBy (λ c. (is_late (phase_of c) ≡ true) × (S.honest ≡ true
        → IsLeast (causes_of (map column_of columns.now) (state S.Store conn.old).now shape.now) c))) }
    ensures same { S.honest ≡ true → (state S.Store conn.new).now ≡ (state S.Store conn.old).now }
    ensures sure_ok { IsSure (state S.Store conn.old) (state S.Store conn.new) shape.now
        → OnOk result (causes_of (map column_of columns.now) (state S.Store conn.old).now shape.now ≡ []) }
    ensures sure_count { IsSure (state S.Store conn.old) (state S.Store conn.new) shape.now
        → IfOk result (λ n. n ≡ length (rows_of (state S.Store conn.old).now shape.now)) }
    ensures sure_once { IsSure (state S.Store conn.old) (state S.Store conn.new) shape.now
        → IsDistinct nat_eq (map (λ r. r.id) (rows_of (state S.Store conn.old).now shape.now)) }
    ensures sure_refused { IfErr result (OnlyBy (λ c. IsSure (state S.Store conn.old) (state S.Store conn.new) shape.now
        → IsLeast (causes_of (map column_of columns.now) (state S.Store conn.old).now shape.now) c)) }
    ensures reads { ReadsOnly (state S.Store conn.old) (state S.Store conn.new) shape.now }
    ensures idle { conn.new.in_transaction ≡ false }
{
    match find_table(conn, shape) {
        Ok(()) => {}
        Err(fault) => return Err(fault),
    }
    if !types_match(shape, columns) {
        return Err(Fault::Refused(Cause::InvalidDataType));
    }
    read_whole(conn, shape)
}
