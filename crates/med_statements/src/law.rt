//! Laws of queries over the tables of a catalogue. A call does nothing: its contract is the law.

ghost use Rattle.med_statements.specs.Ready.{BoundIsReady, EntriesAreReadOnce};

use med_binder::law::{columns_are_in_view, compared_columns_are_alike, tables_are_counted};
use med_planner::plan_laws::bound_rows_are_wide;

/// Boxes in which each table of a catalogue is bound with its columns' types are ready for each query that was bound over the catalogue;
/// and where one scan was begun for each entry of a bound query, each table that it reads was read once.
pub fn bound_queries_are_ready()
    ensures ready { BoundIsReady }
    ensures once { EntriesAreReadOnce }
{
    tables_are_counted();
    columns_are_in_view();
    compared_columns_are_alike();
    bound_rows_are_wide();
}
