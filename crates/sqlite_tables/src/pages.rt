//! Pages of remote tables, by key range.
ghost use Rattle.std.specs.Prelude.{◌≡◌, ◌≢◌, ◌++◌, true, false, None, take, IfOk, IfErr, OnOk};
ghost use Rattle.sqlite.specs.Held.{state};
ghost use Rattle.sqlite.specs.View.{IsShaped};
ghost use Rattle.sqlite_trees.specs.declared.store.Shape.TheVariants as stored;
ghost use Rattle.fdw_api.specs.Calls.{not_refused};
ghost use Rattle.sqlite_looks.specs.Pages.{range_of};
ghost use Rattle.sqlite_tables.specs.Layouts.{places};
ghost use Rattle.sqlite_tables.specs.Reporting.{IsReportedPage};
ghost use Rattle.sqlite_tables.specs.Steady.{IsCleanAfter};
ghost use Rattle.sqlite_tables.specs.Tables.{IsKnown, IsSure, ReadsOnly, entries_of, rest_of, tree_of};
ghost use Rattle.sqlite_tables.specs.Texts.{page_size};

use crate::faults::fault_of;
use crate::{Shape, SourceStore, page_of};
use fdw_api::interface::Fault;
use sqlite::{Connection, Row};

/// Returns the first 64 rows of a table whose keys are from `low` to `high`, in key order.
///
/// Fails when out of memory, or as the source, as the error is that the connection reported of the page text; no cause of refusal is
/// reported. It changes nothing, also where it fails. After a page of 64 rows come those of the keys after its last one; after a page of
/// fewer there is none. The rows of a table are in the order of their keys. A table that is not there is never read. This holds over a
/// store that always returns what was written, and of each call by itself that is sure (`IsSure`).
pub fn page_between<S: SourceStore>(
    conn: &mut Connection<S>,
    shape: &Shape,
    low: i64,
    high: i64,
) -> Result<Vec<Row>, Fault>
    requires idle { conn.old.in_transaction ≡ false }
    requires known { S.honest ≡ true → ∥ IsKnown conn.old.schema shape.now ∥₁ }
    ensures rows { S.honest ≡ true
        → IfOk result (λ rows. rows.items
        ≡ take page_size (range_of (places shape.now) low high (entries_of (state S.Store conn.old).now shape.now))) }
    ensures joins { S.honest ≡ true
        → IfOk result (λ rows. range_of (places shape.now) low high (entries_of (state S.Store conn.old).now shape.now)
        ≡ rows.items ++ rest_of shape.now low high (entries_of (state S.Store conn.old).now shape.now) rows.items) }
    ensures ordered { S.honest ≡ true → IsShaped stored.Table (entries_of (state S.Store conn.old).now shape.now) }
    ensures read { S.honest ≡ true → OnOk result (tree_of (state S.Store conn.old).now.schema shape.now ≢ None) }
    ensures refused { IfErr result not_refused }
    ensures same { S.honest ≡ true → (state S.Store conn.new).now ≡ (state S.Store conn.old).now }
    ensures sure_rows { IsSure (state S.Store conn.old) (state S.Store conn.new) shape.now
        → IfOk result (λ rows. rows.items
        ≡ take page_size (range_of (places shape.now) low high (entries_of (state S.Store conn.old).now shape.now))) }
    ensures sure_joins { IsSure (state S.Store conn.old) (state S.Store conn.new) shape.now
        → IfOk result (λ rows. range_of (places shape.now) low high (entries_of (state S.Store conn.old).now shape.now)
        ≡ rows.items ++ rest_of shape.now low high (entries_of (state S.Store conn.old).now shape.now) rows.items) }
    ensures sure_read { IsCleanAfter (state S.Store conn.new) → ∥ IsKnown conn.old.schema shape.now ∥₁
        → OnOk result (tree_of (state S.Store conn.old).now.schema shape.now ≢ None) }
    ensures reported { IfErr result (IsReportedPage shape.now low high (state S.Store conn.old) (state S.Store conn.new)) }
    ensures reads { ReadsOnly (state S.Store conn.old) (state S.Store conn.new) shape.now }
    ensures idle { conn.new.in_transaction ≡ false }
{
    match page_of(conn, shape.page_text(), low, high) {
        Ok(page) => Ok(page),
        Err(error) => Err(fault_of(error)),
    }
}
