//! Tables read whole when they are bound: page by page, up to 1,000,000 rows.
ghost use Rattle.std.specs.Prelude.{◌≡◌, ◌≢◌, ◌⊎◌, ◌<◌, ◌≤◌, ◌^◌, length, true, false, [], Some, IfOk, IfErr, IfSome, OnOk, Contains};
ghost use Rattle.std.specs.List.{list_all};
ghost use Rattle.sqlite.specs.Held.{state};
ghost use Rattle.med_value.specs.Prelude.{phase_of, row_limit};
ghost use Rattle.med_value.specs.declared.cause.Cause.TheVariants.{InvalidText, TooLarge};
ghost use Rattle.fdw_api.specs.Prelude.{not_refused, is_of_run};
ghost use Rattle.sqlite_looks.specs.Pages.{range_of};
ghost use Rattle.sqlite_tables.specs.Layouts.{places};
ghost use Rattle.sqlite_tables.specs.Cells.{greatest, is_paged, is_row};
ghost use Rattle.sqlite_tables.specs.Tables.{IsKnown, IsSure, ReadsOnly, entries_of, rows_of};
ghost use Rattle.sqlite_tables.specs.Refusing.{OnlyBy};
ghost use Rattle.sqlite_tables.specs.Reporting.{FailsToCount, FailsToRead, IsReportedPage, IsSourceFor};
ghost use Rattle.sqlite_tables.specs.Surveys.{fits_in, last_key, next_after, IsSeen, causes_in};

use crate::rows::check_row;
use crate::{Misread, Shape, SourceStore, page_between};
use fdw_api::interface::Fault;
use med_value::Cause;
use med_value::limits::ROW_LIMIT;
use sqlite::{Connection, Row};

// Looks at the rows of a page, and returns the key of the last one.
fn check_rows(shape: &Shape, page: &[Row]) -> Result<Option<i64>, Misread>
    ensures fit { IfOk result (λ _. list_all (fits_in shape.now) page.now ≡ true) }
    ensures last { IfOk result (λ last. last ≡ last_key page.now) }
    ensures stray { IfErr result (λ m. m ≡ Misread.Stray → list_all (fits_in shape.now) page.now ≡ false) }
    ensures no_row { IfErr result (λ m. m ≡ Misread.NoRow → list_all (is_row shape.now) page.now ≡ false) }
    ensures memory { IfErr result (λ m. m ≢ Misread.NoMemory) }
{
    let mut last = None;
    for row in page {
        match check_row(shape, row) {
            Err(misread) => return Err(misread),
            Ok(key) => last = Some(key),
        }
    }
    Ok(last)
}

/// Returns the key where the next page begins, after a page of `count` rows with this last key. After a page of fewer than 64 rows there
/// is none.
pub fn next_after(count: usize, last: Option<i64>) -> Option<i64>
    ensures { result ≡ next_after count last }
{
    match last {
        None => None,
        Some(key) => {
            if count == 64 && key < i64::MAX {
                Some(key + 1)
            } else {
                None
            }
        }
    }
}

// A page that was read: how many rows it has, and where the next one begins.
#[derive(Clone, Copy, Debug)]
struct Surveyed {
    count: usize,
    next: Option<i64>,
}

// Returns what a row that could not be read is to a table that is bound: 22P02 where a cell is not of its column's type.
fn fault_of_content(misread: Misread) -> Fault
    ensures stray { misread ≡ Misread.Stray → result ≡ Fault.Refused InvalidText }
    ensures refused { OnlyBy (λ c. (c ≡ InvalidText) × (misread ≡ Misread.Stray)) result }
    ensures memory { misread ≢ Misread.NoMemory → result ≢ Fault.NoMemory }
    ensures source { result ≡ Fault.Source → misread ≡ Misread.NoRow }
{
    match misread {
        Misread::NoMemory => Fault::NoMemory,
        Misread::NoRow => Fault::Source,
        Misread::Stray => Fault::Refused(Cause::InvalidText),
    }
}

// Looks at the page of a table that begins at a key.
fn survey_page<S: SourceStore>(
    conn: &mut Connection<S>,
    shape: &Shape,
    low: i64,
) -> Result<Surveyed, Fault>
    requires idle { conn.old.in_transaction ≡ false }
    requires known { S.honest ≡ true → ∥ IsKnown conn.old.schema shape.now ∥₁ }
    ensures seen { S.honest ≡ true
        → IfOk result (λ s. IsSeen shape.now (entries_of (state S.Store conn.old).now shape.now) (Some low) s.next s.count) }
    ensures full { IfOk result (λ s. IfSome s.next (λ _. s.count ≡ 64)) }
    ensures counted { IfOk result (λ s. s.count < 2 ^ 63) }
    ensures refused { IfErr result (OnlyBy (λ c. (c ≡ InvalidText) × (S.honest ≡ true
        → list_all (fits_in shape.now)
        (range_of (places shape.now) low greatest (entries_of (state S.Store conn.old).now shape.now)) ≡ false))) }
    ensures same { S.honest ≡ true → (state S.Store conn.new).now ≡ (state S.Store conn.old).now }
    ensures sure_seen { IsSure (state S.Store conn.old) (state S.Store conn.new) shape.now
        → IfOk result (λ s. IsSeen shape.now (entries_of (state S.Store conn.old).now shape.now) (Some low) s.next s.count) }
    ensures sure_refused { IfErr result (OnlyBy (λ _. IsSure (state S.Store conn.old) (state S.Store conn.new) shape.now
        → list_all (fits_in shape.now)
        (range_of (places shape.now) low greatest (entries_of (state S.Store conn.old).now shape.now)) ≡ false)) }
    ensures reported { IfErr result (λ fault.
        IsReportedPage shape.now low greatest (state S.Store conn.old) (state S.Store conn.new) fault
        ⊎ (fault ≡ Fault.Refused InvalidText)
        ⊎ IsSourceFor S.honest shape.now (state S.Store conn.old) (state S.Store conn.new) (is_paged shape.now ≡ false) fault) }
    ensures reads { ReadsOnly (state S.Store conn.old) (state S.Store conn.new) shape.now }
    ensures idle { conn.new.in_transaction ≡ false }
{
    let page = match page_between(conn, shape, low, i64::MAX) {
        Err(fault) => return Err(fault),
        Ok(page) => page,
    };
    let count = page.len();
    match check_rows(shape, &page) {
        Err(misread) => Err(fault_of_content(misread)),
        Ok(last) => Ok(Surveyed {
            count,
            next: next_after(count, last),
        }),
    }
}

/// Reads a table whole, and returns how many rows it has.
///
/// Refused by 22P02 where a cell is not of its column's type, and by 54000 where there are more than 1,000,000 rows. It fails when out of
/// memory, or as the source, as the error is that the connection reported of a page; and as the source where a page does not show each
/// column.
pub(crate) fn read_whole<S: SourceStore>(
    conn: &mut Connection<S>,
    shape: &Shape,
) -> Result<usize, Fault>
    requires idle { conn.old.in_transaction ≡ false }
    requires known { S.honest ≡ true → ∥ IsKnown conn.old.schema shape.now ∥₁ }
    ensures ok { S.honest ≡ true → OnOk result (causes_in shape.now (entries_of (state S.Store conn.old).now shape.now) ≡ []) }
    ensures count { S.honest ≡ true → IfOk result (λ n. n ≡ length (rows_of (state S.Store conn.old).now shape.now)) }
    ensures few { IfOk result (λ n. n ≤ row_limit) }
    ensures refused { IfErr result (OnlyBy (λ c. (is_of_run (phase_of c) ≡ true)
        × (S.honest ≡ true → Contains (causes_in shape.now (entries_of (state S.Store conn.old).now shape.now)) c))) }
    ensures same { S.honest ≡ true → (state S.Store conn.new).now ≡ (state S.Store conn.old).now }
    ensures sure_ok { IsSure (state S.Store conn.old) (state S.Store conn.new) shape.now
        → OnOk result (causes_in shape.now (entries_of (state S.Store conn.old).now shape.now) ≡ []) }
    ensures sure_count { IsSure (state S.Store conn.old) (state S.Store conn.new) shape.now
        → IfOk result (λ n. n ≡ length (rows_of (state S.Store conn.old).now shape.now)) }
    ensures sure_refused { IfErr result (OnlyBy (λ c. IsSure (state S.Store conn.old) (state S.Store conn.new) shape.now
        → Contains (causes_in shape.now (entries_of (state S.Store conn.old).now shape.now)) c)) }
    ensures reported { IfErr result (λ fault.
        FailsToRead S.Store shape.now (state S.Store conn.old) (state S.Store conn.new) fault
        ⊎ (fault ≡ Fault.Refused InvalidText) ⊎ (fault ≡ Fault.Refused TooLarge)
        ⊎ IsSourceFor S.honest shape.now (state S.Store conn.old) (state S.Store conn.new) (is_paged shape.now ≡ false) fault) }
    ensures reads { ReadsOnly (state S.Store conn.old) (state S.Store conn.new) shape.now }
    ensures idle { conn.new.in_transaction ≡ false }
{
    let mut next = Some(i64::MIN);
    let mut count: usize = 0;
    while let Some(low) = next {
        match survey_page(conn, shape, low) {
            Err(fault) => return Err(fault),
            Ok(page) => {
                count += page.count;
                next = page.next;
            }
        }
        if count > ROW_LIMIT {
            return Err(Fault::Refused(Cause::TooLarge));
        }
    }
    Ok(count)
}

/// Returns the number of rows of a table whose rows are of its columns' types, and at most 1,000,000.
///
/// Fails when out of memory, or as the source, as the error is that the connection reported of a page; and as the source where the table
/// is another one, whose rows give a cause, or whose pages do not show each column (`FailsToCount`). It changes nothing, also where it
/// fails. This holds over a store that always returns what was written, and of each call by itself that is sure (`IsSure`).
pub fn count_rows<S: SourceStore>(conn: &mut Connection<S>, shape: &Shape) -> Result<usize, Fault>
    requires idle { conn.old.in_transaction ≡ false }
    requires known { S.honest ≡ true → ∥ IsKnown conn.old.schema shape.now ∥₁ }
    ensures count { S.honest ≡ true → IfOk result (λ n. n ≡ length (rows_of (state S.Store conn.old).now shape.now)) }
    ensures few { IfOk result (λ n. n ≤ row_limit) }
    ensures refused { IfErr result not_refused }
    ensures same { S.honest ≡ true → (state S.Store conn.new).now ≡ (state S.Store conn.old).now }
    ensures sure_count { IsSure (state S.Store conn.old) (state S.Store conn.new) shape.now
        → IfOk result (λ n. n ≡ length (rows_of (state S.Store conn.old).now shape.now)) }
    ensures reported { IfErr result
        (FailsToCount S.Store S.honest shape.now (state S.Store conn.old) (state S.Store conn.new)) }
    ensures reads { ReadsOnly (state S.Store conn.old) (state S.Store conn.new) shape.now }
    ensures idle { conn.new.in_transaction ≡ false }
{
    match read_whole(conn, shape) {
        Ok(count) => Ok(count),
        Err(Fault::NoMemory) => Err(Fault::NoMemory),
        Err(Fault::Source) => Err(Fault::Source),
        Err(Fault::Refused(_)) => Err(Fault::Source),
    }
}
