//! The numbers of rows that are held for the tables of a database, so that a write does not count them again.
ghost use Rattle.std.specs.Prelude.{◌≡◌, IfSome, slice_set};
ghost use Rattle.sqlite_wrapper.specs.Counts.{Forgets, held_for};

use fdw_api::interface::Fault;
use med_value::limits::ROW_LIMIT;

/// What is held for a table.
pub(crate) fn count_of(counts: &[Option<usize>], table: u64) -> Option<usize>
    ensures { result ≡ held_for counts.now table }
{
    match counts.get(table as usize) {
        None => None,
        Some(count) => *count,
    }
}

/// Holds a number of rows for a table, where it has a place.
pub(crate) fn put_count(counts: &mut Vec<Option<usize>>, table: u64, count: Option<usize>)
    ensures { counts.new.items ≡ slice_set counts.old.items table count }
{
    if (table as usize) < counts.len() {
        counts[table as usize] = count;
    }
}

/// Holds nothing for a table any more where a write to it failed otherwise than by a refusal, as nobody knows then what was written.
pub(crate) fn forget_count(counts: &mut Vec<Option<usize>>, table: u64, fault: &Fault)
    ensures { Forgets counts.old.items counts.new.items }
{
    match fault {
        Fault::Refused(_) => {}
        Fault::Source | Fault::NoMemory => put_count(counts, table, None),
    }
}

/// Returns what is held for a table, where it leaves room for a write of this many new rows that takes this many away.
///
/// Where it leaves none it returns nothing, so that the rows are counted before a write is refused.
pub(crate) fn with_room(held: Option<usize>, fresh: usize, gone: usize) -> Option<usize>
    ensures { IfSome result (λ n. held ≡ Some n) }
{
    match held {
        None => None,
        Some(count) => {
            if count.saturating_add(fresh) <= ROW_LIMIT.saturating_add(gone) {
                Some(count)
            } else {
                None
            }
        }
    }
}
