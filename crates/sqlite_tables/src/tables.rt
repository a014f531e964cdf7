//! Remote tables that are there, or are not.
ghost use Rattle.std.specs.Prelude.{◌≡◌, ◌≢◌, ◌⊎◌, ℤ, pos, true, false, None, map, nat_eq, IfErr, OnOk};
ghost use Rattle.std.specs.List.{IsDistinct};
ghost use Rattle.sqlite.specs.Held.{state};
ghost use Rattle.med_value.specs.declared.cause.Cause.TheVariants.{TableNotFound};
ghost use Rattle.sqlite_tables.specs.Steady.{IsCleanAfter};
ghost use Rattle.sqlite_tables.specs.Fitting.{is_of_shape};
ghost use Rattle.sqlite_tables.specs.Tables.{IsKnown, IsSure, ReadsOnly, rows_of, tree_found};
ghost use Rattle.sqlite_tables.specs.Refusing.{OnlyBy};
ghost use Rattle.sqlite_tables.specs.Reporting.{IsFailureOf, IsReportedPage};

use crate::faults::fault_of;
use crate::fitting::is_of_shape;
use crate::{Shape, SourceStore, page_of};
use fdw_api::interface::Fault;
use med_value::Cause;
use sqlite::{Connection, Error};

// Returns what an error of a page text is to a table that is bound: a text that is not understood is HV00R, and any other error is itself.
fn fault_of_text(error: Error) -> Fault
    ensures text { (fault : _) → error ≡ Error.SqlInputError fault → result ≡ Fault.Refused TableNotFound }
    ensures refused { OnlyBy (λ c. (c ≡ TableNotFound) × ((fault : _) × (error ≡ Error.SqlInputError fault))) result }
    ensures is { (result ≡ Fault.Refused TableNotFound) ⊎ IsFailureOf error result }
{
    match error {
        Error::SqlInputError(_) => Fault::Refused(Cause::TableNotFound),
        other => fault_of(other),
    }
}

/// Finds a remote table. No two of its rows have one id.
///
/// Refused by HV00R where it is not there: where its page text is not understood, or where the stored table is not of its shape. It fails
/// when out of memory, or as the source, as the error is that the connection reported of the page text. It changes nothing, also where it
/// fails. This holds over a store that always returns what was written, and of each call by itself that is sure (`IsSure`).
pub fn find_table<S: SourceStore>(conn: &mut Connection<S>, shape: &Shape) -> Result<(), Fault>
    requires idle { conn.old.in_transaction ≡ false }
    requires known { S.honest ≡ true → ∥ IsKnown conn.old.schema shape.now ∥₁ }
    ensures once { S.honest ≡ true → IsDistinct nat_eq (map (λ r. r.id) (rows_of (state S.Store conn.old).now shape.now)) }
    ensures found { S.honest ≡ true → OnOk result (tree_found (state S.Store conn.old).now.schema shape.now ≢ None) }
    ensures fits { OnOk result (is_of_shape (state S.Store conn.old).now.schema shape.now ≡ true) }
    ensures refused { IfErr result (OnlyBy (λ c. (c ≡ TableNotFound)
        × (S.honest ≡ true → tree_found (state S.Store conn.old).now.schema shape.now ≡ None))) }
    ensures same { S.honest ≡ true → (state S.Store conn.new).now ≡ (state S.Store conn.old).now }
    ensures sure_once { IsSure (state S.Store conn.old) (state S.Store conn.new) shape.now
        → IsDistinct nat_eq (map (λ r. r.id) (rows_of (state S.Store conn.old).now shape.now)) }
    ensures sure_found { IsCleanAfter (state S.Store conn.new) → ∥ IsKnown conn.old.schema shape.now ∥₁
        → OnOk result (tree_found (state S.Store conn.old).now.schema shape.now ≢ None) }
    ensures sure_refused { IfErr result (OnlyBy (λ _. IsCleanAfter (state S.Store conn.new) → ∥ IsKnown conn.old.schema shape.now ∥₁
        → tree_found (state S.Store conn.old).now.schema shape.now ≡ None)) }
    ensures reported { IfErr result (λ fault. (fault ≡ Fault.Refused TableNotFound)
        ⊎ IsReportedPage shape.now (pos 1) (pos 0) (state S.Store conn.old) (state S.Store conn.new) fault) }
    ensures reads { ReadsOnly (state S.Store conn.old) (state S.Store conn.new) shape.now }
    ensures idle { conn.new.in_transaction ≡ false }
{
    let fits = is_of_shape(conn.schema(), shape);
    match page_of(conn, shape.page_text(), 1, 0) {
        Ok(_page) if fits => Ok(()),
        Ok(_page) => Err(Fault::Refused(Cause::TableNotFound)),
        Err(error) => Err(fault_of_text(error)),
    }
}
